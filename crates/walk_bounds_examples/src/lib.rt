// Document 02, item 6: the two bounds on table walks are met, and what the second one supposes is needed. This crate has computed examples, and no code but this.
#![tactic(auto)]

ghost use Rattle.std.specs.Prelude.{◌≡◌};

// The number of examples.
pub fn examples() -> u32
    ensures { result ≡ 11 }
{
    11
}
