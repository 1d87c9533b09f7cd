// Document 02, item 5: what holds of saving and reading back, over the definitions of `snapshot`. This crate has statements and proofs, and no code but this.
#![tactic(auto)]

ghost use Rattle.std.specs.Prelude.{◌≡◌};

// The keys taken of a record that was read.
pub fn taken() -> u64
    ensures { result ≡ 0 }
{
    0
}
