// Document 02, item 7: the old mode and the new one, theorems about the rules. This crate has proofs, and no code but this.
#![tactic(auto)]

ghost use Rattle.std.specs.Prelude.{◌≡◌};

// The number of the old mode.
pub fn old_mode() -> u32
    ensures { result ≡ 0 }
{
    0
}
