// Document 02, item 7: every floating instruction. pc has moved on.
#![tactic(auto)]

ghost use Rattle.std.specs.Prelude.{◌≡◌};
ghost use Rattle.floating_decode.specs.Opcodes.{floating_decode_of};
ghost use Rattle.mmu.specs.Bus.{SameBus};
ghost use Rattle.mmu.specs.Translates.{Translates};
ghost use Rattle.rules.specs.Tree.{requested};
ghost use Rattle.rules.specs.Outcome.{reading};
ghost use Rattle.double.specs.Single.{double_of, single_of};
ghost use Rattle.rules.specs.Floating.{float_of, put_float, computing, storing, arith_of, float_holds, float_tree};
ghost use Rattle.contracts.specs.Contract.{float_ok, float_bad, FloatExecutesOn};
ghost use Rattle.floating.specs.Done.{cut_done};

use contracts::{End, FloatDone};
use decode::Reg;
use floating_decode::{FloatInstr, FloatOp, FloatReg, FloatTest, Precision};
use memory::Size;
use mmu::Bus;
use paging::{Access, Fault, TrapCode};
use rules::{Floats, Regs};

// ---- ends

fn fine(r: Regs, v: Floats) -> FloatDone
    ensures { result ≡ float_ok r v }
{
    FloatDone {
        regs: r,
        floats: v,
        end: End::Ok,
    }
}

fn ended(r: Regs, v: Floats, e: End) -> FloatDone
    ensures { result ≡ float_bad r v e }
{
    FloatDone {
        regs: r,
        floats: v,
        end: e,
    }
}

// ---- registers and operations

fn get(v: Floats, d: FloatReg) -> u64
    ensures { result ≡ float_of d v }
{
    match d {
        FloatReg::F => v.f,
        FloatReg::G => v.g,
    }
}

fn put(v: Floats, d: FloatReg, x: u64) -> Floats
    ensures { result ≡ put_float d x v }
{
    match d {
        FloatReg::F => Floats { f: x, ..v },
        FloatReg::G => Floats { g: x, ..v },
    }
}

fn arith(op: FloatOp, x: u64, y: u64) -> u64
    ensures { result ≡ arith_of op x y }
{
    match op {
        FloatOp::Add => double::add(x, y),
        FloatOp::Sub => double::sub(x, y),
        FloatOp::Mul => double::mul(x, y),
        FloatOp::Div => double::div(x, y),
    }
}

fn holds(t: FloatTest, x: u64, y: u64) -> bool
    ensures { result ≡ float_holds t x y }
{
    match t {
        FloatTest::Eq => double::equal(x, y),
        FloatTest::Ne => !double::equal(x, y),
        FloatTest::Lt => double::less(x, y),
        FloatTest::Ge => double::at_least(x, y),
    }
}

// ---- accesses

// Where eight bytes lie: where the word at the address lies, with three bits dropped. A fault has the address asked.
#[inline(always)]
fn translate_double(bus: &mut Bus, addr: u32, kind: Access) -> Result<usize, Fault>
    ensures bus { SameBus bus.old bus.new }
    ensures answer { Translates bus.old.space (requested kind 8 addr bus.old.user) bus.old.mem.now bus.old.tlb.now result bus.new.mem.now bus.new.tlb.now }
{
    let p = bus.translate(addr, Size::Word, kind);
    let Ok(q) = p else {
        return p;
    };
    Ok(q / 8 * 8)
}

// Eight bytes go to a register, and the registers after it are r.
#[inline(always)]
fn read_double(r: Regs, v: Floats, d: FloatReg, va: u32, bus: &mut Bus) -> FloatDone
    ensures bus { SameBus bus.old bus.new }
    ensures executes { FloatExecutesOn (reading 8 va (λ y. computing r (put_float d y v))) bus.old result bus.new }
{
    let p = translate_double(bus, va, Access::Read);
    let Ok(q) = p else {
        return ended(r, v, End::Refused(contracts::fault_of(p)));
    };
    let y = memory::load8(bus.bytes(), q);
    fine(r, put(v, d, y))
}

// A single, widened, goes to a register. One function for both widths would take translation, load and widening as parameters.
#[inline(always)]
fn read_single(r: Regs, v: Floats, d: FloatReg, va: u32, bus: &mut Bus) -> FloatDone
    ensures bus { SameBus bus.old bus.new }
    ensures executes { FloatExecutesOn (reading 4 va (λ y. computing r (put_float d (double_of y) v))) bus.old result bus.new }
{
    let p = bus.translate(va, Size::Word, Access::Read);
    let Ok(q) = p else {
        return ended(r, v, End::Refused(contracts::fault_of(p)));
    };
    let y = double::widen(memory::load4(bus.bytes(), q));
    fine(r, put(v, d, y))
}

// x is stored in eight bytes, and the registers after it are r.
#[inline(always)]
fn write_double(r: Regs, v: Floats, x: u64, va: u32, bus: &mut Bus) -> FloatDone
    ensures bus { SameBus bus.old bus.new }
    ensures executes { FloatExecutesOn (storing 8 va x r v) bus.old result bus.new }
{
    let p = translate_double(bus, va, Access::Write);
    let Ok(q) = p else {
        return ended(r, v, End::Refused(contracts::fault_of(p)));
    };
    memory::store_bytes::<8>(bus.mem, q, x);
    fine(r, v)
}

// f is stored as a single.
#[inline(always)]
fn write_single(r: Regs, v: Floats, va: u32, bus: &mut Bus) -> FloatDone
    ensures bus { SameBus bus.old bus.new }
    ensures executes { FloatExecutesOn (storing 4 va (single_of v.f) r v) bus.old result bus.new }
{
    let p = bus.translate(va, Size::Word, Access::Write);
    let Ok(q) = p else {
        return ended(r, v, End::Refused(contracts::fault_of(p)));
    };
    memory::store_bytes::<4>(bus.mem, q, narrowing::narrow(v.f) as u64);
    fine(r, v)
}

// ---- every instruction

// The word that CDI and CDU cut goes to a; what does not fit is FARITH.
fn cut(r: Regs, v: Floats, x: Option<u32>) -> FloatDone
    ensures { result ≡ cut_done x r v }
{
    match x {
        None => ended(r, v, End::Trap(TrapCode::Farith)),
        Some(n) => fine(operations::put(r, Reg::A, n), v),
    }
}

// One floating instruction.
#[inline(always)]
fn execute(r: Regs, v: Floats, i: FloatInstr, bus: &mut Bus) -> FloatDone
    ensures bus { SameBus bus.old bus.new }
    ensures executes { FloatExecutesOn (float_tree i r v) bus.old result bus.new }
{
    match i {
        FloatInstr::Unlisted => ended(r, v, End::Trap(TrapCode::Finst)),
        FloatInstr::Load(d, b, p, n) => {
            let va = word::sum(operations::base(r, b), n);
            match p {
                Precision::Double => read_double(r, v, d, va, bus),
                Precision::Single => read_single(r, v, d, va, bus),
            }
        }
        FloatInstr::Store(b, p, n) => {
            let va = word::sum(operations::base(r, b), n);
            match p {
                Precision::Double => write_double(r, v, v.f, va, bus),
                Precision::Single => write_single(r, v, va, bus),
            }
        }
        FloatInstr::LoadImm(d, n) => fine(r, put(v, d, double::of_signed(n))),
        FloatInstr::Lbad => fine(r, put(v, FloatReg::G, v.f)),
        FloatInstr::Arith(op) => fine(r, put(v, FloatReg::F, arith(op, v.f, v.g))),
        FloatInstr::Compare(t) => fine(
            operations::put(r, Reg::A, operations::flag(holds(t, v.f, v.g))),
            v,
        ),
        FloatInstr::Bzf(n) => fine(
            operations::branch(r, holds(FloatTest::Eq, v.f, 0), operations::target(r, n)),
            v,
        ),
        FloatInstr::Bnzf(n) => fine(
            operations::branch(r, holds(FloatTest::Ne, v.f, 0), operations::target(r, n)),
            v,
        ),
        FloatInstr::Branch(t, n) => fine(
            operations::branch(r, holds(t, v.f, v.g), operations::target(r, n)),
            v,
        ),
        FloatInstr::Cid => fine(r, put(v, FloatReg::F, double::of_signed(r.a))),
        FloatInstr::Cud => fine(r, put(v, FloatReg::F, double::of_unsigned(r.a))),
        FloatInstr::Cdi => cut(r, v, double::cut_signed(v.f)),
        FloatInstr::Cdu => cut(r, v, double::cut_unsigned(v.f)),
        FloatInstr::Push(d) => {
            let top = word::difference(r.sp, 8);
            let n = contracts::regs(r, r.a, r.b, r.c, top / 8 * 8, r.pc);
            write_double(n, v, get(v, d), top, bus)
        }
        FloatInstr::Pop(d) => {
            let n = contracts::regs(r, r.a, r.b, r.c, word::sum(r.sp, 8) / 8 * 8, r.pc);
            read_double(n, v, d, r.sp, bus)
        }
        FloatInstr::Fabs => fine(r, put(v, FloatReg::F, double::absolute(v.f))),
        FloatInstr::Flor => fine(r, put(v, FloatReg::F, double::floor(v.f))),
        FloatInstr::Ceil => fine(r, put(v, FloatReg::F, double::ceiling(v.f))),
    }
}

// The floating instruction of a word that document 01's table has no row for.
#[inline(always)]
pub fn instruction(r: Regs, v: Floats, w: u32, bus: &mut Bus) -> FloatDone
    ensures bus { SameBus bus.old bus.new }
    ensures executes { FloatExecutesOn (float_tree (floating_decode_of w) r v) bus.old result bus.new }
{
    execute(r, v, floating_decode::floating_decode(w), bus)
}
