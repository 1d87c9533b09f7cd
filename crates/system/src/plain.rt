// Document 01, "Opcodes": the privileged instructions that change the record and nothing else. c has pc moved on.
ghost use Rattle.std.specs.Prelude.{◌≡◌};
ghost use Rattle.rules.specs.System.{computed as computed_of};

use decode::PlainOp;
use rules::{Cpu, Stop};

// size is the memory's.
pub fn computed(c: Cpu, op: PlainOp, size: u32) -> Cpu
    ensures { result ≡ computed_of size op c }
{
    let mut n = c;
    match op {
        PlainOp::Halt => n.stop = Stop::Halted,
        PlainOp::Cli => {
            n.regs.a = operations::flag(c.system.iena);
            n.system.iena = false;
        }
        PlainOp::Sti => n.system.iena = true,
        // a = kbchar, then kbchar = 0xFFFFFFFF.
        PlainOp::Bin => {
            n.regs.a = c.clock.kbchar;
            n.clock.kbchar = 0xFFFF_FFFF;
        }
        PlainOp::Ssp => n.system.ksp = c.regs.a / 8 * 8,
        PlainOp::Ivec => n.system.ivec = c.regs.a / 4 * 4,
        // TIME with imm not 0 does nothing.
        PlainOp::Time(0) => n.clock.timeout = c.regs.a,
        PlainOp::Time(_) => {}
        PlainOp::Lvad => n.regs.a = c.vadr,
        PlainOp::Lusp => n.regs.a = c.system.usp,
        PlainOp::Susp => n.system.usp = c.regs.a / 8 * 8,
        PlainOp::Msiz => n.regs.a = size,
        PlainOp::Idle => n.system.waiting = c.system.iena,
    }
    n
}
