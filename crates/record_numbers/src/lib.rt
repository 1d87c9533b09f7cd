// Document 01, "The record and the loaded program": the record as one list of numbers, in the order of its sentences, with document 02's marks after the flags and
// its mode, f and g after the step count; keys taken and console bytes written stand beside it.
#![tactic(auto)]

ghost use Rattle.std.specs.Prelude.{◌≡◌, ◌%◌, ◌^◌};
ghost use Rattle.rules.specs.Arithmetic.{flag};
ghost use Rattle.rules.specs.Numbers.{numbers_of, stop_of, cause_of, record_of_low};

use paging::{Cause, Space};
use rules::{Clock, Cpu, Floats, Model, Pending, Regs, Stop, System, cause_number, stop_number};

// How many numbers the list has.
pub const NUMBERS: usize = 25;

// A flag as a number.
pub fn flag(b: bool) -> u64
    ensures { result ≡ flag b }
{
    u64::from(b)
}

// The numbers of a record.
pub fn numbers_of(c: Cpu) -> [u64; NUMBERS]
    ensures { result ≡ numbers_of c }
{
    [
        c.regs.a as u64,
        c.regs.b as u64,
        c.regs.c as u64,
        c.regs.sp as u64,
        c.system.usp as u64,
        c.system.ksp as u64,
        c.regs.pc as u64,
        c.system.ivec as u64,
        c.space.pdir as u64,
        c.vadr as u64,
        c.clock.timer as u64,
        c.clock.timeout as u64,
        c.clock.kbchar as u64,
        flag(c.system.user),
        flag(c.system.iena),
        flag(c.space.paging),
        flag(c.system.waiting),
        flag(c.clock.pending.key),
        flag(c.clock.pending.timer),
        stop_number(c.stop) as u64,
        cause_number(c.cause) as u64,
        c.regs.count,
        flag(c.model.doubles),
        c.floats.f,
        c.floats.g,
    ]
}

// A stop reason, from its number; each above 3 as 3.
#[tactic(auto, unfolding(rules::specs::Numbers::stop_of))]
fn stop_of(n: u64) -> Stop
    ensures { result ≡ stop_of n }
{
    match n {
        0 => Stop::Running,
        1 => Stop::Halted,
        2 => Stop::Masked,
        _ => Stop::NoFrame,
    }
}

// A cause, from its number; each above 7 as 7. No `From`: an Option and a number are both of other crates.
#[tactic(auto, unfolding(rules::specs::Numbers::cause_of))]
fn cause_of(n: u64) -> Option<Cause>
    ensures { result ≡ cause_of n }
{
    match n {
        0 => None,
        1 => Some(Cause::AddressBeyondMemory),
        2 => Some(Cause::DirectoryAbsent),
        3 => Some(Cause::DirectoryBeyondMemory),
        4 => Some(Cause::TableAbsent),
        5 => Some(Cause::NoUserRight),
        6 => Some(Cause::NoWriteRight),
        _ => Some(Cause::FrameBeyondMemory),
    }
}

// The low 32 bits.
fn low(n: u64) -> u32
    ensures { result ≡ n % 2 ^ 32 }
{
    (n % 0x1_0000_0000) as u32
}

// A record, from its numbers.
#[tactic(auto, unfolding(rules::specs::Numbers::record_by))]
pub fn record_of(n: [u64; NUMBERS], taken: usize, written: usize) -> Cpu
    ensures { result ≡ record_of_low n taken written }
{
    Cpu {
        regs: Regs {
            a: low(n[0]),
            b: low(n[1]),
            c: low(n[2]),
            sp: low(n[3]),
            pc: low(n[6]),
            count: n[21],
        },
        clock: Clock {
            timer: low(n[10]),
            timeout: low(n[11]),
            kbchar: low(n[12]),
            taken,
            pending: Pending {
                key: n[17] == 1,
                timer: n[18] == 1,
            },
        },
        vadr: low(n[9]),
        space: Space {
            pdir: low(n[8]),
            paging: n[15] == 1,
        },
        system: System {
            usp: low(n[4]),
            ksp: low(n[5]),
            ivec: low(n[7]),
            user: n[13] == 1,
            iena: n[14] == 1,
            waiting: n[16] == 1,
        },
        cause: cause_of(n[20]),
        stop: stop_of(n[19]),
        written,
        model: Model {
            doubles: n[22] == 1,
        },
        floats: Floats { f: n[23], g: n[24] },
    }
}
