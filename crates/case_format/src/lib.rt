// reference/FORMAT.md without the machine: numbers of a case's bytes, whether the bytes are a case, and numbers in a line.
// Every function takes any bytes: what is missing reads as 0.
#![tactic(auto)]

pub mod digest;
pub mod given;
pub mod judged;
pub mod printed;
pub mod stream;
