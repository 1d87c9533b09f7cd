// Document 01, "The record and the loaded program", and document 02, items 1, 4 and 7: the record, in groups by who writes them.
#![tactic(auto)]

ghost use Rattle.std.specs.Prelude.{◌≡◌};
ghost use Rattle.rules.specs.Record.{stop_number, cause_number, is_running};
ghost use Rattle.rules.specs.Clock.{interrupt_code};
ghost use Rattle.rules.specs.Run.{run_number};

use paging::{Cause, Entry, Space, TrapCode};

// What ordinary instructions change, and the step count.
#[derive(Clone, Copy)]
pub struct Regs {
    pub a: u32,
    pub b: u32,
    pub c: u32,
    pub sp: u32,
    pub pc: u32,
    pub count: u64,
}

// Which interrupts are pending: document 02's marks of a key event and of a timer event.
#[derive(Clone, Copy)]
pub struct Pending {
    pub key: bool,
    pub timer: bool,
}

// What the clock changes: the timer, the last key's character, the keys taken (document 01's term: how many of the list), and the pending interrupts.
#[derive(Clone, Copy)]
pub struct Clock {
    pub timer: u32,
    pub timeout: u32,
    pub kbchar: u32,
    pub taken: usize,
    pub pending: Pending,
}

// What traps and privileged instructions change.
#[derive(Clone, Copy)]
pub struct System {
    pub usp: u32,
    pub ksp: u32,
    pub ivec: u32,
    pub user: bool,
    pub iena: bool,
    pub waiting: bool,
}

// Why the machine stopped.
#[derive(Clone, Copy)]
pub enum Stop {
    Running,
    Halted,
    // A trap while iena = 0.
    Masked,
    // A trap frame that cannot be stored.
    NoFrame,
}

// The floating registers, as 64-bit patterns.
#[derive(Clone, Copy)]
pub struct Floats {
    pub f: u64,
    pub g: u64,
}

// What no instruction changes: document 02's mode of the machine, in which the floating instructions are legal.
#[derive(Clone, Copy)]
pub struct Model {
    pub doubles: bool,
}

// The record without the page buffer. `vadr` is the latest fault's address, with `cause`, none at first, which, as `model`, takes no room where it stands; `written` is the count of console bytes.
#[derive(Clone, Copy)]
pub struct Cpu {
    pub regs: Regs,
    pub clock: Clock,
    pub vadr: u32,
    pub space: Space,
    pub system: System,
    pub cause: Option<Cause>,
    pub stop: Stop,
    pub model: Model,
    pub written: usize,
    pub floats: Floats,
}

// The record: the page buffer's counted entries stand first among its slots; later slots mean nothing.
#[derive(Clone, Copy)]
pub struct Machine {
    pub cpu: Cpu,
    pub entries: [Entry; 64],
    pub held: usize,
}

// A key: the step number at which it comes, and its byte.
#[derive(Clone, Copy)]
pub struct Key {
    pub step: u64,
    pub byte: u8,
}

// An interrupt, by what raises it.
#[derive(Clone, Copy)]
pub enum Interrupt {
    Keyboard,
    Timer,
}

// Why a run is refused, by number.
#[derive(Clone, Copy, Debug, PartialEq, Eq)]
pub enum RunRefusal {
    BadSize = 1,
    BadRegisters = 2,
    BadBuffer = 3,
    BadKeys = 4,
    BadConsole = 5,
    BadBudget = 6,
}

// The number of a stop reason: its place among them.
pub fn stop_number(stop: Stop) -> u32
    ensures { result ≡ stop_number stop }
{
    stop as u32
}

// The number of a cause. A match, as no impl here can be for an `Option` of a type of another crate, and `c as u32 + 1` would hide the numbers.
pub fn cause_number(cause: Option<Cause>) -> u32
    ensures { result ≡ cause_number cause }
{
    match cause {
        None => 0,
        Some(Cause::AddressBeyondMemory) => 1,
        Some(Cause::DirectoryAbsent) => 2,
        Some(Cause::DirectoryBeyondMemory) => 3,
        Some(Cause::TableAbsent) => 4,
        Some(Cause::NoUserRight) => 5,
        Some(Cause::NoWriteRight) => 6,
        Some(Cause::FrameBeyondMemory) => 7,
    }
}

// The trap code of an interrupt.
impl From<Interrupt> for TrapCode {
    ghost from_gives = { λ i code. code ≡ interrupt_code i };

    fn from(i: Interrupt) -> TrapCode {
        match i {
            Interrupt::Keyboard => TrapCode::Fkeybd,
            Interrupt::Timer => TrapCode::Ftimer,
        }
    }
}

// Whether the machine has not stopped.
pub fn is_running(s: Stop) -> bool
    ensures { result ≡ is_running s }
{
    matches!(s, Stop::Running)
}

// The number of an answer, 0 of an accepted run.
pub fn run_number(a: Result<(), RunRefusal>) -> u32
    ensures { result ≡ run_number a }
{
    match a {
        Ok(()) => 0,
        Err(refusal) => refusal as u32,
    }
}
