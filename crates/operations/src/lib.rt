// Document 01, "Opcodes": what operations and tests give, and what instructions make of the registers alone. pc has moved on.
#![tactic(auto)]

ghost use Rattle.std.specs.Prelude.{◌≡◌, if◌then◌else◌};
ghost use Rattle.word.specs.Word.{sum};
ghost use Rattle.rules.specs.Record.{set_sp};
ghost use Rattle.rules.specs.Transfer.{reg_of, put_reg, base_of, high_of};
ghost use Rattle.rules.specs.Jump.{target as jump_target, jumped};
ghost use Rattle.rules.specs.Arithmetic.{holds as holds_of, flag as flag_of};
ghost use Rattle.operations.specs.Computed.{computed};

use decode::{AluOp, Base, Reg, Test};
use rules::Regs;

// ---- registers and targets

// A general register.
pub fn reg(r: Regs, d: Reg) -> u32
    ensures { result ≡ reg_of d r }
{
    match d {
        Reg::A => r.a,
        Reg::B => r.b,
        Reg::C => r.c,
    }
}

// The registers with v in one.
pub fn put(r: Regs, d: Reg, v: u32) -> Regs
    ensures { result ≡ put_reg d v r }
{
    match d {
        Reg::A => Regs { a: v, ..r },
        Reg::B => Regs { b: v, ..r },
        Reg::C => Regs { c: v, ..r },
    }
}

// The register that a load's or store's imm is added to.
pub fn base(r: Regs, b: Base) -> u32
    ensures { result ≡ base_of b r }
{
    match b {
        Base::Sp => r.sp,
        Base::Pc => r.pc,
        Base::A => r.a,
        Base::B => r.b,
    }
}

// LHI and LBHI: the register's low byte above the unsigned field.
pub fn high(x: u32, field: u32) -> u32
    ensures { result ≡ high_of x field }
{
    word::sum(x % 256 * 0x100_0000, field)
}

// ENT: sp and imm.
pub fn adjust(r: Regs, imm: u32) -> Regs
    ensures { result ≡ set_sp (sum r.sp imm) r }
{
    Regs {
        sp: word::sum(r.sp, imm) / 8 * 8,
        ..r
    }
}

// The target of a jump or branch.
pub fn target(r: Regs, imm: u32) -> u32
    ensures { result ≡ jump_target imm r }
{
    word::sum(r.pc, imm)
}

// A jump, which drops the low bits of its target.
pub fn jump(r: Regs, to: u32) -> Regs
    ensures { result ≡ jumped to r }
{
    Regs {
        pc: to / 4 * 4,
        ..r
    }
}

// A branch, taken or not.
pub fn branch(r: Regs, taken: bool, to: u32) -> Regs
    ensures { result ≡ (if taken then jumped to r else r) }
{
    if taken { jump(r, to) } else { r }
}

// ---- arithmetic, comparisons, conditions

// What an operation gives: a value, or none where the divisor is 0.
pub fn compute(op: AluOp, x: u32, y: u32) -> Option<u32>
    ensures { result ≡ computed op x y }
{
    match op {
        AluOp::Add => Some(word::sum(x, y)),
        AluOp::Sub => Some(word::difference(x, y)),
        AluOp::Mul => Some(word::product(x, y)),
        // Of `(y != 0).then(..)`, and of one guard over the four, the proof is not told what it gives.
        AluOp::Div => {
            if y == 0 {
                None
            } else {
                Some(word::quotient(x, y))
            }
        }
        AluOp::Dvu => x.checked_div(y),
        AluOp::Mod => {
            if y == 0 {
                None
            } else {
                Some(word::remainder(x, y))
            }
        }
        AluOp::Mdu => x.checked_rem(y),
        AluOp::And => Some(x & y),
        AluOp::Or => Some(x | y),
        AluOp::Xor => Some(x ^ y),
        AluOp::Shl => Some(word::shift_left(x, y)),
        AluOp::Shr => Some(word::shift_right(x, y)),
        AluOp::Sru => Some(word::shift_right_unsigned(x, y)),
    }
}

// Whether a condition holds.
#[tactic(auto, unfolding(rules::specs::Arithmetic::holds))]
pub fn holds(t: Test, x: u32, y: u32) -> bool
    ensures { result ≡ holds_of t x y }
{
    match t {
        Test::Eq => x == y,
        Test::Ne => x != y,
        Test::Lt => word::less_signed(x, y),
        Test::Ltu => x < y,
        Test::Ge => !word::less_signed(x, y),
        Test::Geu => x >= y,
    }
}

// A flag as a number.
pub fn flag(b: bool) -> u32
    ensures { result ≡ flag_of b }
{
    u32::from(b)
}
