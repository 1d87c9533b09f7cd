// Demand 3 is a theorem about the rules: this crate has definitions and proofs, and no code but this.
#![tactic(auto)]

ghost use Rattle.std.specs.Prelude.{◌≡◌};

// The demand's number.
pub fn demand() -> u32
    ensures { result ≡ 3 }
{
    3
}
