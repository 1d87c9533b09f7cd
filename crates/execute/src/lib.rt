// Document 01, "Opcodes": every ordinary instruction, and the fetch.
#![tactic(auto)]

ghost use Rattle.std.specs.Prelude.{◌≡◌, ◌+◌, ◌<◌, ◌^◌, length};
ghost use Rattle.decode.specs.declared.Operand.TheVariants.{Stack};
ghost use Rattle.mmu.specs.Bus.{SameBus};
ghost use Rattle.mmu.specs.Good.{Good};
ghost use Rattle.rules.specs.Record.{with_count};
ghost use Rattle.rules.specs.Arithmetic.{alu_from};
ghost use Rattle.rules.specs.Execute.{execute_tree, instruction_tree};
ghost use Rattle.contracts.specs.Contract.{ExecutesOn};
ghost use Rattle.execute.specs.Computed.{alu_done};
ghost use Rattle.execute.specs.Ahead.{LooksAhead};

use contracts::{Done, End};
use decode::{AluOp, Instr, Operand, Reg};
use memory::Size;
use mmu::Bus;
use paging::{Access, Space, TrapCode};
use rules::Regs;

// ---- arithmetic

// Arithmetic on a and y.
#[inline(always)]
fn compute(r: Regs, op: AluOp, y: u32) -> Done
    ensures { result ≡ alu_done op y r }
{
    let Some(v) = operations::compute(op, r.a, y) else {
        return contracts::ended(r, End::Trap(TrapCode::Farith));
    };
    contracts::fine(operations::put(r, Reg::A, v))
}

// Arithmetic on a and the word at sp + imm.
#[inline(always)]
fn compute_stack(r: Regs, op: AluOp, imm: u32, bus: &mut Bus) -> Done
    ensures bus { SameBus bus.old bus.new }
    ensures executes { ExecutesOn (alu_from op (Stack imm) r) bus.old result bus.new }
{
    let va = word::sum(r.sp, imm);
    let p = bus.translate(va, Size::Word, Access::Read);
    let Ok(q) = p else {
        return contracts::refused(r, p);
    };
    let v = memory::load4(bus.bytes(), q);
    compute(r, op, v)
}

// ---- every instruction

// One instruction; pc has moved on. w is the word that it was decoded from.
#[inline(always)]
fn execute(r: Regs, i: Instr, w: u32, bus: &mut Bus) -> Done
    ensures bus { SameBus bus.old bus.new }
    ensures executes { ExecutesOn (execute_tree w i r) bus.old result bus.new }
{
    match i {
        Instr::Illegal => contracts::ended(r, End::Undecoded { pad: 0, word: w }),
        Instr::Nop => contracts::fine(r),
        Instr::Trap => contracts::ended(r, End::Trap(TrapCode::Fsys)),
        Instr::Cyc => contracts::fine(operations::put(r, Reg::A, (r.count % 0x1_0000_0000) as u32)),
        Instr::Jsra => transfer::push(r, r.pc, word::sum(r.pc, r.a) / 4 * 4, bus),
        Instr::Lba => contracts::fine(operations::put(r, Reg::B, r.a)),
        Instr::Lca => contracts::fine(operations::put(r, Reg::C, r.a)),
        Instr::Ent(n) => contracts::fine(operations::adjust(r, n)),
        Instr::Lev(n) => transfer::leave(r, n, bus),
        Instr::Jmp(n) => contracts::fine(operations::jump(r, operations::target(r, n))),
        Instr::Jmpi(n) => contracts::fine(operations::jump(
            r,
            word::sum(operations::target(r, n), r.a / 4),
        )),
        Instr::Jsr(n) => transfer::push(r, r.pc, operations::target(r, n) / 4 * 4, bus),
        Instr::Lea(n) => contracts::fine(operations::put(r, Reg::A, word::sum(r.sp, n))),
        Instr::Leag(n) => contracts::fine(operations::put(r, Reg::A, word::sum(r.pc, n))),
        Instr::Block(op) => block::block(r, op, bus),
        Instr::Load(d, b, f, n) => transfer::load(r, d, b, f, n, bus),
        Instr::Store(b, s, n) => transfer::store(r, b, s, n, bus),
        Instr::LoadImm(d, n) => contracts::fine(operations::put(r, d, n)),
        Instr::LoadHigh(d, n) => contracts::fine(operations::put(
            r,
            d,
            operations::high(operations::reg(r, d), n),
        )),
        Instr::Alu(op, x) => match x {
            Operand::RegB => compute(r, op, r.b),
            Operand::Imm(y) => compute(r, op, y),
            Operand::Stack(n) => compute_stack(r, op, n, bus),
        },
        Instr::Compare(t) => contracts::fine(operations::put(
            r,
            Reg::A,
            operations::flag(operations::holds(t, r.a, r.b)),
        )),
        Instr::Bz(n) => contracts::fine(operations::branch(r, r.a == 0, operations::target(r, n))),
        Instr::Bnz(n) => contracts::fine(operations::branch(r, r.a != 0, operations::target(r, n))),
        Instr::Branch(t, n) => contracts::fine(operations::branch(
            r,
            operations::holds(t, r.a, r.b),
            operations::target(r, n),
        )),
        Instr::Push(d) => transfer::push(r, operations::reg(r, d), r.pc, bus),
        Instr::Pshi(n) => transfer::push(r, n, r.pc, bus),
        Instr::Pop(d) => transfer::pop(r, d, bus),
        Instr::Sys(op) => contracts::ended(r, End::System(op)),
    }
}

// Fetch, decode, execute: the step count rises by 1, pc moves 4 on.
#[inline(always)]
pub fn instruction(r: Regs, bus: &mut Bus) -> Done
    requires { r.count + 1 < 2 ^ 64 }
    ensures bus { SameBus bus.old bus.new }
    ensures executes { ExecutesOn (instruction_tree (with_count (r.count + 1) r)) bus.old result bus.new }
{
    let p = bus.translate(r.pc, Size::Word, Access::Fetch);
    let Ok(q) = p else {
        return contracts::ended(r, End::Unfetched(contracts::fault_of(p)));
    };
    let w = memory::load4(bus.bytes(), q);
    let i = decode::decode(w);
    let mut n = contracts::regs(r, r.a, r.b, r.c, r.sp, word::sum(r.pc, 4));
    n.count = r.count + 1;
    execute(n, i, w, bus)
}

// The word of the next instruction, if it is a floating one, where that is known without a search or a walk: `instruction` would then end in its word and change nothing.
pub fn look_ahead(
    r: Regs,
    user: bool,
    space: Space,
    mem: &[u8],
    tlb: &[u64],
    hint: &[u8; 256],
) -> Option<u32>
    requires { Good (length mem.now) space.pdir tlb.now }
    ensures { LooksAhead r space user mem.now tlb.now result }
{
    let q = mmu::probe(mem, tlb, hint, space, r.pc, Size::Word, Access::Fetch, user)?;
    let w = memory::load4(mem, q);
    if floating_decode::is_floating(w) {
        return Some(w);
    }
    None
}
