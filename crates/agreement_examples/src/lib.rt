// Demand 3 is not empty: both machines translate. This crate has computed examples, and no code but this.
#![tactic(auto)]

ghost use Rattle.std.specs.Prelude.{◌≡◌};

// The number of examples.
pub fn examples() -> u32
    ensures { result ≡ 5 }
{
    5
}
