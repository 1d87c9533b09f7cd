// Document 01, "One step", the order of faults, and document 02, item 7: how an instruction ends, in code.
#![tactic(auto)]

ghost use Rattle.std.specs.Prelude.{◌≡◌};
ghost use Rattle.rules.specs.Record.{with_a, with_b, with_c, with_sp, with_pc};
ghost use Rattle.contracts.specs.Contract.{ok, bad, fault_of, refused_by};

use decode::SysOp;
use paging::{Cause, Fault, TrapCode};
use rules::{Floats, Regs};

#[derive(Clone, Copy)]
pub enum End {
    Ok,
    // The fetch was denied.
    Unfetched(Fault),
    // A fault without an address, or TRAP.
    Trap(TrapCode),
    // An operand access was denied.
    Refused(Fault),
    // A privileged instruction, handled over the whole record.
    System(SysOp),
    // A word that document 01's table has no row for. Behind a number that says nothing it lies where a fault's address does, and not across its code and cause: there it
    // is written in two parts and read in one, for which the processor waits.
    Undecoded { pad: u32, word: u32 },
}

// What an instruction leaves: how it ended, and where it ended well the registers. No Result: at the end of a run's loop, and where a step is settled, the registers count at every end.
#[derive(Clone, Copy)]
pub struct Done {
    pub regs: Regs,
    pub end: End,
}

// What a floating instruction leaves, with f and g.
#[derive(Clone, Copy)]
pub struct FloatDone {
    pub regs: Regs,
    pub floats: Floats,
    pub end: End,
}

// The registers with all set that instructions set. A struct that is copied and then changed costs the inner loop 11 instructions a step.
pub fn regs(r: Regs, a: u32, b: u32, c: u32, sp: u32, pc: u32) -> Regs
    ensures { result ≡ with_a a (with_b b (with_c c (with_sp sp (with_pc pc r)))) }
{
    Regs {
        a,
        b,
        c,
        sp,
        pc,
        ..r
    }
}

pub fn fine(r: Regs) -> Done
    ensures { result ≡ ok r }
{
    Done {
        regs: r,
        end: End::Ok,
    }
}

pub fn ended(r: Regs, e: End) -> Done
    ensures { result ≡ bad r e }
{
    Done { regs: r, end: e }
}

// The fault of a denied access. Document 01 names `let .. else` at each access, so the answer comes here whole.
pub fn fault_of(a: Result<usize, Fault>) -> Fault
    ensures { result ≡ fault_of a }
{
    match a {
        Ok(_) => Fault {
            code: TrapCode::Fmem,
            cause: Cause::AddressBeyondMemory,
            address: 0,
        },
        Err(f) => f,
    }
}

// The end of an instruction whose operand access was denied. The fault is put together anew: copied whole, it keeps every instruction's end in memory.
pub fn refused(r: Regs, a: Result<usize, Fault>) -> Done
    ensures { result ≡ refused_by r a }
{
    let f = fault_of(a);
    Done {
        regs: r,
        end: End::Refused(Fault {
            code: f.code,
            cause: f.cause,
            address: f.address,
        }),
    }
}
