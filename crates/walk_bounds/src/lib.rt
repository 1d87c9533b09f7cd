// Document 02, item 6: the two bounds on table walks, theorems about the rules. This crate has proofs, and no code but this.
#![tactic(auto)]

ghost use Rattle.std.specs.Prelude.{◌≡◌};

// The walks that a step makes at most.
pub fn step_walks() -> u64
    ensures { result ≡ 5 }
{
    5
}
