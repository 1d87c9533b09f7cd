// Document 01, "Traps": RTI reads code and pc from the trap frame. c is the record before the fetch.
ghost use Rattle.std.specs.Prelude.{◌≡◌, List, ℕ, length};
ghost use Rattle.mmu.specs.Good.{Good};
ghost use Rattle.rules.specs.System.{returned as returned_of, rti_tree};
ghost use Rattle.contracts.specs.Contract.{Finishes};

use memory::Size;
use mmu::Bus;
use paging::Access;
use rules::Cpu;

// The record after RTI has read code and pc.
fn returned(c: Cpu, code: u32, pc: u32) -> Cpu
    ensures { result ≡ returned_of c code pc }
{
    let mut n = c;
    let sp = word::sum(c.regs.sp, 16) / 8 * 8;
    n.regs.pc = pc / 4 * 4;
    n.regs.sp = sp;
    n.system.iena = true;
    if code / 16 % 2 == 1 {
        n.regs.sp = c.system.usp;
        n.system.ksp = sp;
        n.system.user = true;
        return n;
    }
    n
}

// Both words of the frame are read in the record's mode.
pub fn rti(c: Cpu, mem: &mut [u8], tlb: &mut [u64], hint: &mut [u8; 256]) -> Cpu
    requires { Good (length mem.old) c.space.pdir tlb.old }
    ensures { (con : List ℕ) → Finishes (rti_tree c) c mem.old con tlb.old result mem.new con tlb.new }
{
    let sp = c.regs.sp;
    let mut bus = Bus {
        mem,
        tlb,
        hint,
        space: c.space,
        user: c.system.user,
    };
    let p = bus.translate(sp, Size::Word, Access::Read);
    let Ok(x) = p else {
        return trap::fault(c, contracts::fault_of(p), trap::next_pc(c), mem, tlb, hint);
    };
    let code = memory::load4(bus.bytes(), x);
    let q = bus.translate(word::sum(sp, 8), Size::Word, Access::Read);
    let Ok(y) = q else {
        return trap::fault(c, contracts::fault_of(q), trap::next_pc(c), mem, tlb, hint);
    };
    let pc = memory::load4(bus.bytes(), y);
    returned(c, code, pc)
}
