// The reference's test cases (reference/FORMAT.md): each is read, run by the library's entries, and printed.
#![tactic(auto)]

pub mod lists;
pub mod load;
pub mod stream;
