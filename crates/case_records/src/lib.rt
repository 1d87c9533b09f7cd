// reference/FORMAT.md: the machine that a case gives, and the line of what stands after it. A call on a machine (reference/CALLS.md) gives it in the same form.
#![tactic(auto)]

pub mod given;
pub mod printed;
