// Document 01, "Addresses", and document 02, item 4: what walk, page buffer and translation speak of.
#![tactic(auto)]

ghost use Rattle.std.specs.Prelude.{◌≡◌};
ghost use Rattle.paging.specs.TrapCode.{code_number};
ghost use Rattle.paging.specs.Walk.{is_write};

// What an access is for.
#[derive(Clone, Copy)]
pub enum Access {
    Fetch,
    Read,
    Write,
}

// Whether an access writes.
#[tactic(auto, unfolding(crate::specs::Walk::is_write))]
pub fn writes(kind: Access) -> bool
    ensures { result ≡ is_write kind }
{
    matches!(kind, Access::Write)
}

// An entry of the page buffer.
#[derive(Clone, Copy)]
pub struct Entry {
    pub page: u32,
    pub frame: u32,
    pub user: bool,
    pub write: bool,
}

// How addresses are found: the page directory, and whether paging is on.
#[derive(Clone, Copy)]
pub struct Space {
    pub pdir: u32,
    pub paging: bool,
}

// Why translation denies an access: document 02, item 4, in its order, which is that of checking.
#[derive(Clone, Copy)]
pub enum Cause {
    AddressBeyondMemory,
    // The directory word has no P.
    DirectoryAbsent,
    DirectoryBeyondMemory,
    // The table word has no P.
    TableAbsent,
    NoUserRight,
    NoWriteRight,
    FrameBeyondMemory,
}

// Document 01, "Traps": the trap codes, with the source's numbers.
#[derive(Clone, Copy, Debug, PartialEq, Eq)]
pub enum TrapCode {
    // Bad physical address.
    Fmem = 0,
    // Timer interrupt.
    Ftimer = 1,
    // Keyboard interrupt.
    Fkeybd = 2,
    // Privileged instruction.
    Fpriv = 3,
    // Illegal instruction.
    Finst = 4,
    // Software trap.
    Fsys = 5,
    // Arithmetic trap.
    Farith = 6,
    // Page fault on opcode fetch.
    Fipage = 7,
    // Page fault on write.
    Fwpage = 8,
    // Page fault on read.
    Frpage = 9,
}

// The number of a code.
pub fn code_number(code: TrapCode) -> u16
    ensures { result ≡ code_number code }
{
    code as u16
}

// A fault of an access: its trap code, its cause, and the address asked. Code and cause take a byte each and stand first: a fault is eight bytes
// then, and instructions' ends stay in machine registers.
#[derive(Clone, Copy)]
pub struct Fault {
    pub code: TrapCode,
    pub cause: Cause,
    pub address: u32,
}

// User mode exception: the mark added to a code.
pub const USER: u32 = 16;
