// Document 01, "Opcodes": PDIR sets the page directory; unless it faults, it empties the page buffer.
ghost use Rattle.std.specs.Prelude.{◌≡◌, List, ℕ, length};
ghost use Rattle.mmu.specs.Good.{Good};
ghost use Rattle.rules.specs.System.{pdir_tree};
ghost use Rattle.contracts.specs.Contract.{Finishes};
ghost use Rattle.system.specs.Moved.{moved_on};

use paging::{Cause, Fault, Space, TrapCode};
use rules::Cpu;

// c is the record before the fetch, and n the same with pc moved on.
pub fn pdir(c: Cpu, n: Cpu, mem: &mut [u8], tlb: &mut [u64], hint: &mut [u8; 256]) -> Cpu
    requires { Good (length mem.old) c.space.pdir tlb.old × (n ≡ moved_on c) }
    ensures { (con : List ℕ) → Finishes (pdir_tree (length mem.old) c (moved_on c)) c mem.old con tlb.old result mem.new con tlb.new }
{
    let a = c.regs.a;
    if (a as usize) < mem.len() {
        buffer::empty(tlb);
        return Cpu {
            space: Space {
                pdir: a / 4096 * 4096,
                ..c.space
            },
            ..n
        };
    }
    let f = Fault {
        code: TrapCode::Fmem,
        cause: Cause::AddressBeyondMemory,
        address: a,
    };
    trap::fault(c, f, trap::next_pc(c), mem, tlb, hint)
}
