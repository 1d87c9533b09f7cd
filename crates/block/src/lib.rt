// Document 01, "Opcodes": the block instructions, one byte a step.
#![tactic(auto)]

ghost use Rattle.std.specs.Prelude.{◌≡◌};
ghost use Rattle.decode.specs.declared.BlockOp.TheVariants.{Mcpy, Mcmp, Mchr, Mset};
ghost use Rattle.mmu.specs.Bus.{SameBus};
ghost use Rattle.rules.specs.Block.{block_end, again as again_of, next_a, next_b, compared as compared_of, searched as searched_of, byte_tree, block_tree};
ghost use Rattle.contracts.specs.Contract.{ExecutesOn};

use contracts::Done;
use decode::BlockOp;
use memory::Size;
use mmu::Bus;
use paging::Access;
use rules::Regs;

// The registers where c = 0.
fn finish(r: Regs, op: BlockOp) -> Regs
    ensures { result ≡ block_end op r }
{
    match op {
        BlockOp::Mcmp | BlockOp::Mchr => Regs { a: 0, ..r },
        BlockOp::Mcpy | BlockOp::Mset => r,
    }
}

// Back to the instruction, with c one less and a one more.
fn again(r: Regs) -> Regs
    ensures { result ≡ next_a (again_of r) }
{
    let a = word::sum(r.a, 1);
    let c = word::difference(r.c, 1);
    contracts::regs(r, a, r.b, c, r.sp, word::difference(r.pc, 4))
}

// The same, with b one more too.
fn again_both(r: Regs) -> Regs
    ensures { result ≡ next_a (next_b (again_of r)) }
{
    Regs {
        b: word::sum(r.b, 1),
        ..again(r)
    }
}

fn compared(r: Regs, x: u32, y: u32) -> Regs
    ensures { result ≡ compared_of x y r }
{
    if x == y {
        return again_both(r);
    }
    let a = word::difference(x, y);
    contracts::regs(r, a, word::sum(r.b, r.c), 0, r.sp, r.pc)
}

fn searched(r: Regs, x: u32) -> Regs
    ensures { result ≡ searched_of x r }
{
    if x == r.b % 256 {
        return contracts::regs(r, r.a, r.b, 0, r.sp, r.pc);
    }
    again(r)
}

// What the four do of one byte differs in what is read, written and kept: a common one would take each as a parameter.

#[inline(always)]
fn copy_byte(r: Regs, bus: &mut Bus) -> Done
    ensures bus { SameBus bus.old bus.new }
    ensures executes { ExecutesOn (byte_tree Mcpy r) bus.old result bus.new }
{
    let p = bus.translate(r.b, Size::Byte, Access::Read);
    let Ok(from) = p else {
        return contracts::refused(r, p);
    };
    let x = memory::load1(bus.bytes(), from) as u32;
    let q = bus.translate(r.a, Size::Byte, Access::Write);
    let Ok(to) = q else {
        return contracts::refused(r, q);
    };
    memory::store(bus.mem, to, Size::Byte, x);
    contracts::fine(again_both(r))
}

#[inline(always)]
fn compare_byte(r: Regs, bus: &mut Bus) -> Done
    ensures bus { SameBus bus.old bus.new }
    ensures executes { ExecutesOn (byte_tree Mcmp r) bus.old result bus.new }
{
    let p = bus.translate(r.b, Size::Byte, Access::Read);
    let Ok(first) = p else {
        return contracts::refused(r, p);
    };
    let x = memory::load1(bus.bytes(), first) as u32;
    let q = bus.translate(r.a, Size::Byte, Access::Read);
    let Ok(second) = q else {
        return contracts::refused(r, q);
    };
    let y = memory::load1(bus.bytes(), second) as u32;
    contracts::fine(compared(r, x, y))
}

#[inline(always)]
fn search_byte(r: Regs, bus: &mut Bus) -> Done
    ensures bus { SameBus bus.old bus.new }
    ensures executes { ExecutesOn (byte_tree Mchr r) bus.old result bus.new }
{
    let p = bus.translate(r.a, Size::Byte, Access::Read);
    let Ok(at) = p else {
        return contracts::refused(r, p);
    };
    let x = memory::load1(bus.bytes(), at) as u32;
    contracts::fine(searched(r, x))
}

#[inline(always)]
fn set_byte(r: Regs, bus: &mut Bus) -> Done
    ensures bus { SameBus bus.old bus.new }
    ensures executes { ExecutesOn (byte_tree Mset r) bus.old result bus.new }
{
    let p = bus.translate(r.a, Size::Byte, Access::Write);
    let Ok(at) = p else {
        return contracts::refused(r, p);
    };
    memory::store(bus.mem, at, Size::Byte, r.b % 256);
    contracts::fine(again(r))
}

// One step of a block instruction; pc has moved on.
#[inline(always)]
pub fn block(r: Regs, op: BlockOp, bus: &mut Bus) -> Done
    ensures bus { SameBus bus.old bus.new }
    ensures executes { ExecutesOn (block_tree op r) bus.old result bus.new }
{
    if r.c == 0 {
        return contracts::fine(finish(r, op));
    }
    match op {
        BlockOp::Mcpy => copy_byte(r, bus),
        BlockOp::Mcmp => compare_byte(r, bus),
        BlockOp::Mchr => search_byte(r, bus),
        BlockOp::Mset => set_byte(r, bus),
    }
}
