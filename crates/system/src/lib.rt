// Document 01, "Opcodes": the privileged instructions, over the whole record.
#![tactic(auto)]

ghost use Rattle.std.specs.Prelude.{◌≡◌, List, ℕ, length};
ghost use Rattle.mmu.specs.Good.{Good};
ghost use Rattle.rules.specs.System.{bout_tree, privileged_tree, system_tree};
ghost use Rattle.contracts.specs.Contract.{Finishes};
ghost use Rattle.system.specs.Moved.{moved_on};

use decode::SysOp;
use paging::TrapCode;
use rules::Cpu;

mod pdir;
mod plain;
mod rti;
mod spag;

// The record with pc moved on.
fn moved(c: Cpu) -> Cpu
    ensures { result ≡ moved_on c }
{
    let mut n = c;
    n.regs.pc = trap::next_pc(c);
    n
}

// A byte is appended to the console, if there is room. c has pc moved on; memory and page buffer stay.
fn bout(c: Cpu, console: &mut [u8]) -> Cpu
    ensures { (m l : List ℕ) → Good (length m) c.space.pdir l
        → Finishes (bout_tree (length console.old) c) c m console.old l result m console.new l }
{
    let mut n = c;
    if c.written < console.len() {
        console[c.written] = (c.regs.b % 256) as u8;
        n.regs.a = 1;
        n.written = c.written + 1;
        return n;
    }
    n.regs.a = 0xFFFF_FFFF;
    n
}

// A privileged instruction in kernel mode; c is the record before the fetch.
fn privileged(
    c: Cpu,
    op: SysOp,
    mem: &mut [u8],
    console: &mut [u8],
    tlb: &mut [u64],
    hint: &mut [u8; 256],
) -> Cpu
    requires { Good (length mem.old) c.space.pdir tlb.old }
    ensures { Finishes (privileged_tree (length mem.old) (length console.old) op c (moved_on c))
        c mem.old console.old tlb.old result mem.new console.new tlb.new }
{
    let n = moved(c);
    match op {
        SysOp::Plain(plain) => plain::computed(n, plain, mem.len() as u32),
        SysOp::Rti => rti::rti(c, mem, tlb, hint),
        SysOp::Bout => bout(n, console),
        SysOp::Pdir => pdir::pdir(c, n, mem, tlb, hint),
        SysOp::Spag => spag::spag(n, tlb),
    }
}

// A privileged instruction; c is the record before the fetch.
pub fn system(
    c: Cpu,
    op: SysOp,
    mem: &mut [u8],
    console: &mut [u8],
    tlb: &mut [u64],
    hint: &mut [u8; 256],
) -> Cpu
    requires { Good (length mem.old) c.space.pdir tlb.old }
    ensures { Finishes (system_tree (length mem.old) (length console.old) op c)
        c mem.old console.old tlb.old result mem.new console.new tlb.new }
{
    if c.system.user {
        let code = paging::code_number(TrapCode::Fpriv);
        return trap::trap(c, code, trap::next_pc(c), mem, tlb, hint);
    }
    privileged(c, op, mem, console, tlb, hint)
}
