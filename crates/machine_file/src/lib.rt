// Document 02, item 5: the file of a saved machine without its memory: the header with what follows from its counts, and the blocks of registers and entries.
#![tactic(auto)]

pub mod layout;
pub mod registers;

// The counts of a saved machine: pages of memory, entries of the page buffer, console bytes written.
#[derive(Clone, Copy)]
pub struct Counts {
    pub pages: usize,
    pub entries: usize,
    pub console: usize,
}
