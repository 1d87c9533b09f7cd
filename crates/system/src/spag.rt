// Document 01, "Opcodes": SPAG turns paging on or off, and empties the page buffer.
ghost use Rattle.std.specs.Prelude.{List, ℕ, length};
ghost use Rattle.buffer.specs.Held.{Buffer};
ghost use Rattle.mmu.specs.Good.{Good};
ghost use Rattle.rules.specs.System.{spag_tree};
ghost use Rattle.contracts.specs.Contract.{Finishes};

use paging::Space;
use rules::Cpu;

// n has pc moved on; memory and console stay.
pub fn spag(n: Cpu, tlb: &mut [u64]) -> Cpu
    requires { Buffer tlb.old }
    ensures { (m con : List ℕ) → Good (length m) n.space.pdir tlb.old → Finishes (spag_tree n) n m con tlb.old result m con tlb.new }
{
    buffer::empty(tlb);
    Cpu {
        space: Space {
            paging: n.regs.a != 0,
            ..n.space
        },
        ..n
    }
}
