// Document 02, item 5: files of saved machines, computed over the definitions, so this crate has definitions and proofs, and no code but this.
#![tactic(auto)]

ghost use Rattle.std.specs.Prelude.{◌≡◌};

// The bytes of header and registers.
pub fn head() -> u32
    ensures { result ≡ 140 }
{
    140
}
