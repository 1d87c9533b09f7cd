// Document 01, "Traps", and document 02, items 1 and 4: delivery, and the stops.
#![tactic(auto)]

ghost use Rattle.std.specs.Prelude.{◌≡◌, List, ℕ, length};
ghost use Rattle.mmu.specs.Good.{Good};
ghost use Rattle.rules.specs.Record.{with_stop, with_fault, put_pending};
ghost use Rattle.rules.specs.Trap.{kernel_sp, code_of, saved_usp, entered as entered_of, next_pc, deliver_tree, trap_tree, fault_tree};
ghost use Rattle.contracts.specs.Contract.{Finishes};

use memory::Size;
use mmu::Bus;
use paging::{Access, Fault};
use rules::{Cpu, Pending, Stop};

// ---- parts of the record

pub fn stopped(c: Cpu, s: Stop) -> Cpu
    ensures { result ≡ with_stop s c }
{
    Cpu { stop: s, ..c }
}

// The address of the next instruction.
pub fn next_pc(c: Cpu) -> u32
    ensures { result ≡ next_pc c }
{
    word::sum(c.regs.pc, 4)
}

// A fault sets vadr and the cause.
fn with_fault(c: Cpu, f: Fault) -> Cpu
    ensures { result ≡ with_fault f c }
{
    Cpu {
        vadr: f.address,
        cause: Some(f.cause),
        ..c
    }
}

// The stack of the trap.
fn kernel_sp(c: Cpu) -> u32
    ensures { result ≡ kernel_sp c }
{
    if c.system.user {
        return c.system.ksp;
    }
    c.regs.sp
}

fn saved_usp(c: Cpu) -> u32
    ensures { result ≡ saved_usp c }
{
    if c.system.user {
        return c.regs.sp;
    }
    c.system.usp
}

fn trap_code(c: Cpu, code: u16) -> u32
    ensures { result ≡ code_of c code }
{
    if c.system.user {
        return word::sum(code as u32, paging::USER);
    }
    code as u32
}

// The record in the trap handler; `left` is what stays pending.
fn entered(c: Cpu, left: Pending) -> Cpu
    ensures { result ≡ entered_of (put_pending left c) }
{
    let mut n = c;
    n.regs.sp = word::difference(kernel_sp(c), 16);
    n.regs.pc = c.system.ivec;
    n.clock.pending = left;
    n.system.usp = saved_usp(c);
    n.system.user = false;
    n.system.iena = false;
    n
}

// ---- traps

// A trap's delivery: `left` is what stays pending, where the frame is stored.
// Both slots of the frame are translated for kernel writing before either is stored.
pub fn deliver(
    c: Cpu,
    left: Pending,
    code: u16,
    pc: u32,
    mem: &mut [u8],
    tlb: &mut [u64],
    hint: &mut [u8; 256],
) -> Cpu
    requires { Good (length mem.old) c.space.pdir tlb.old }
    ensures { (con : List ℕ) → Finishes (deliver_tree c left code pc) c mem.old con tlb.old result mem.new con tlb.new }
{
    let mut bus = Bus {
        mem,
        tlb,
        hint,
        space: c.space,
        user: false,
    };
    let top = kernel_sp(c);
    let first = word::difference(top, 8);
    let second = word::difference(top, 16);
    let p = bus.translate(first, Size::Word, Access::Write);
    let Ok(x) = p else {
        return stopped(c, Stop::NoFrame);
    };
    let q = bus.translate(second, Size::Word, Access::Write);
    let Ok(y) = q else {
        return stopped(c, Stop::NoFrame);
    };
    memory::store(mem, x, Size::Word, pc);
    memory::store(mem, y, Size::Word, trap_code(c, code));
    entered(c, left)
}

// A fault without an address, or TRAP.
pub fn trap(
    c: Cpu,
    code: u16,
    pc: u32,
    mem: &mut [u8],
    tlb: &mut [u64],
    hint: &mut [u8; 256],
) -> Cpu
    requires { Good (length mem.old) c.space.pdir tlb.old }
    ensures { (con : List ℕ) → Finishes (trap_tree c code pc) c mem.old con tlb.old result mem.new con tlb.new }
{
    if c.system.iena {
        return deliver(c, c.clock.pending, code, pc, mem, tlb, hint);
    }
    stopped(c, Stop::Masked)
}

// A denied access.
pub fn fault(
    c: Cpu,
    f: Fault,
    pc: u32,
    mem: &mut [u8],
    tlb: &mut [u64],
    hint: &mut [u8; 256],
) -> Cpu
    requires { Good (length mem.old) c.space.pdir tlb.old }
    ensures { (con : List ℕ) → Finishes (fault_tree c f pc) c mem.old con tlb.old result mem.new con tlb.new }
{
    let code = paging::code_number(f.code);
    trap(with_fault(c, f), code, pc, mem, tlb, hint)
}
