// Document 01, "Opcodes": loads, stores and the stack. pc has moved on.
#![tactic(auto)]

ghost use Rattle.std.specs.Prelude.{◌≡◌, ◌+◌, ◌≤◌, length};
ghost use Rattle.memory.specs.Memory.{load_n, bytes};
ghost use Rattle.mmu.specs.Bus.{SameBus};
ghost use Rattle.rules.specs.Transfer.{format_size, widened, load_tree, store_tree, push_tree, pop_tree};
ghost use Rattle.rules.specs.Jump.{leave_tree};
ghost use Rattle.rules.specs.Record.{with_pc};
ghost use Rattle.contracts.specs.Contract.{ExecutesOn};

use contracts::Done;
use decode::{Base, Format, Reg};
use memory::Size;
use mmu::Bus;
use paging::Access;
use rules::Regs;

// ---- loads and stores

// The size of what a load reads.
fn size(f: Format) -> Size
    ensures { result ≡ format_size f }
{
    match f {
        Format::Uint => Size::Word,
        Format::Short => Size::Half,
        Format::Ushort => Size::Half,
        Format::Char => Size::Byte,
        Format::Uchar => Size::Byte,
    }
}

// What stands at an address, widened to a word.
fn value(mem: &[u8], at: usize, f: Format) -> u32
    requires { at + bytes (format_size f) ≤ length mem.now }
    ensures { result ≡ widened f (load_n (bytes (format_size f)) mem.now at) }
{
    match f {
        Format::Uint => memory::load4(mem, at),
        Format::Short => word::extend::<16>(memory::load2(mem, at) as u32),
        Format::Ushort => memory::load2(mem, at) as u32,
        Format::Char => word::extend::<8>(memory::load1(mem, at) as u32),
        Format::Uchar => memory::load1(mem, at) as u32,
    }
}

// A load into a register.
#[inline(always)]
pub fn load(r: Regs, d: Reg, b: Base, f: Format, imm: u32, bus: &mut Bus) -> Done
    ensures bus { SameBus bus.old bus.new }
    ensures executes { ExecutesOn (load_tree d b f imm r) bus.old result bus.new }
{
    let s = size(f);
    let va = word::sum(operations::base(r, b), imm);
    let p = bus.translate(va, s, Access::Read);
    let Ok(q) = p else {
        return contracts::refused(r, p);
    };
    let v = value(bus.bytes(), q, f);
    contracts::fine(operations::put(r, d, v))
}

// A store of register a.
#[inline(always)]
pub fn store(r: Regs, b: Base, s: Size, imm: u32, bus: &mut Bus) -> Done
    ensures bus { SameBus bus.old bus.new }
    ensures executes { ExecutesOn (store_tree b s imm r) bus.old result bus.new }
{
    let va = word::sum(operations::base(r, b), imm);
    let p = bus.translate(va, s, Access::Write);
    let Ok(q) = p else {
        return contracts::refused(r, p);
    };
    memory::store(bus.mem, q, s, r.a);
    contracts::fine(r)
}

// ---- the stack

// v is stored below sp; sp and pc are set.
#[inline(always)]
pub fn push(r: Regs, v: u32, pc: u32, bus: &mut Bus) -> Done
    ensures bus { SameBus bus.old bus.new }
    ensures executes { ExecutesOn (push_tree v (with_pc pc r) r) bus.old result bus.new }
{
    let top = word::difference(r.sp, 8);
    let p = bus.translate(top, Size::Word, Access::Write);
    let Ok(q) = p else {
        return contracts::refused(r, p);
    };
    memory::store(bus.mem, q, Size::Word, v);
    contracts::fine(contracts::regs(r, r.a, r.b, r.c, top / 8 * 8, pc))
}

// The word at sp goes to a register, and sp rises.
#[inline(always)]
pub fn pop(r: Regs, d: Reg, bus: &mut Bus) -> Done
    ensures bus { SameBus bus.old bus.new }
    ensures executes { ExecutesOn (pop_tree d r) bus.old result bus.new }
{
    let p = bus.translate(r.sp, Size::Word, Access::Read);
    let Ok(q) = p else {
        return contracts::refused(r, p);
    };
    let v = memory::load4(bus.bytes(), q);
    let mut n = operations::put(r, d, v);
    n.sp = word::sum(r.sp, 8) / 8 * 8;
    contracts::fine(n)
}

// LEV: pc is the word at sp, and sp rises by imm and 8.
#[inline(always)]
pub fn leave(r: Regs, imm: u32, bus: &mut Bus) -> Done
    ensures bus { SameBus bus.old bus.new }
    ensures executes { ExecutesOn (leave_tree imm r) bus.old result bus.new }
{
    let p = bus.translate(r.sp, Size::Word, Access::Read);
    let Ok(q) = p else {
        return contracts::refused(r, p);
    };
    let v = memory::load4(bus.bytes(), q);
    let s = word::sum(r.sp, word::sum(imm, 8));
    contracts::fine(contracts::regs(r, r.a, r.b, r.c, s / 8 * 8, v / 4 * 4))
}
