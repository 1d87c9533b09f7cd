// Document 02, item 7: the floating instructions and their decoding. The opcodes are those of source 000.
#![tactic(auto)]

ghost use Rattle.std.specs.Prelude.{◌≡◌, ◌<◌};
ghost use Rattle.floating_decode.specs.Opcodes.{floating_opcode_of, floating_decode_of};
ghost use Rattle.floating_decode.specs.Listed.{is_listed, QuarterSet};

use decode::Base;
use word::immediate;

// The floating registers.
#[derive(Clone, Copy)]
pub enum FloatReg {
    F,
    G,
}

// How many digits stand in memory: the source's double and float.
#[derive(Clone, Copy)]
pub enum Precision {
    Double,
    Single,
}

// The operations on f and g.
#[derive(Clone, Copy)]
pub enum FloatOp {
    Add,
    Sub,
    Mul,
    Div,
}

// The comparisons of f with g.
#[derive(Clone, Copy)]
pub enum FloatTest {
    Eq,
    Ne,
    Lt,
    Ge,
}

// A floating instruction with its operand: imm with its sign.
#[derive(Clone, Copy)]
pub enum FloatInstr {
    Unlisted,
    Load(FloatReg, Base, Precision, u32),
    Store(Base, Precision, u32),
    LoadImm(FloatReg, u32),
    Lbad,
    Arith(FloatOp),
    Compare(FloatTest),
    Bzf(u32),
    Bnzf(u32),
    Branch(FloatTest, u32),
    Cid,
    Cud,
    Cdi,
    Cdu,
    Push(FloatReg),
    Pop(FloatReg),
    Fabs,
    Flor,
    Ceil,
}

// The floating instruction of an opcode byte, decided for all 256 values.
fn floating_opcode(op: u8, imm: u32) -> FloatInstr
    ensures { result ≡ floating_opcode_of op imm }
{
    match op {
        0x13 => FloatInstr::Load(FloatReg::F, Base::Sp, Precision::Double, imm),
        0x14 => FloatInstr::Load(FloatReg::F, Base::Sp, Precision::Single, imm),
        0x1a => FloatInstr::Load(FloatReg::F, Base::Pc, Precision::Double, imm),
        0x1b => FloatInstr::Load(FloatReg::F, Base::Pc, Precision::Single, imm),
        0x21 => FloatInstr::Load(FloatReg::F, Base::A, Precision::Double, imm),
        0x22 => FloatInstr::Load(FloatReg::F, Base::A, Precision::Single, imm),
        0x25 => FloatInstr::LoadImm(FloatReg::F, imm),
        0x2b => FloatInstr::Load(FloatReg::G, Base::Sp, Precision::Double, imm),
        0x2c => FloatInstr::Load(FloatReg::G, Base::Sp, Precision::Single, imm),
        0x32 => FloatInstr::Load(FloatReg::G, Base::Pc, Precision::Double, imm),
        0x33 => FloatInstr::Load(FloatReg::G, Base::Pc, Precision::Single, imm),
        0x39 => FloatInstr::Load(FloatReg::G, Base::B, Precision::Double, imm),
        0x3a => FloatInstr::Load(FloatReg::G, Base::B, Precision::Single, imm),
        0x3d => FloatInstr::LoadImm(FloatReg::G, imm),
        0x3f => FloatInstr::Lbad,
        0x43 => FloatInstr::Store(Base::Sp, Precision::Double, imm),
        0x44 => FloatInstr::Store(Base::Sp, Precision::Single, imm),
        0x48 => FloatInstr::Store(Base::Pc, Precision::Double, imm),
        0x49 => FloatInstr::Store(Base::Pc, Precision::Single, imm),
        0x4d => FloatInstr::Store(Base::B, Precision::Double, imm),
        0x4e => FloatInstr::Store(Base::B, Precision::Single, imm),
        0x4f => FloatInstr::Arith(FloatOp::Add),
        0x50 => FloatInstr::Arith(FloatOp::Sub),
        0x51 => FloatInstr::Arith(FloatOp::Mul),
        0x52 => FloatInstr::Arith(FloatOp::Div),
        0x7b => FloatInstr::Compare(FloatTest::Eq),
        0x7d => FloatInstr::Compare(FloatTest::Ne),
        0x80 => FloatInstr::Compare(FloatTest::Lt),
        0x83 => FloatInstr::Compare(FloatTest::Ge),
        0x85 => FloatInstr::Bzf(imm),
        0x87 => FloatInstr::Bnzf(imm),
        0x89 => FloatInstr::Branch(FloatTest::Eq, imm),
        0x8b => FloatInstr::Branch(FloatTest::Ne, imm),
        0x8e => FloatInstr::Branch(FloatTest::Lt, imm),
        0x91 => FloatInstr::Branch(FloatTest::Ge, imm),
        0x92 => FloatInstr::Cid,
        0x93 => FloatInstr::Cud,
        0x94 => FloatInstr::Cdi,
        0x95 => FloatInstr::Cdu,
        0x9f => FloatInstr::Push(FloatReg::F),
        0xa2 => FloatInstr::Pop(FloatReg::F),
        0xb1 => FloatInstr::Push(FloatReg::G),
        0xb2 => FloatInstr::Pop(FloatReg::G),
        0xbe => FloatInstr::Fabs,
        0xc4 => FloatInstr::Flor,
        0xc5 => FloatInstr::Ceil,
        // The bytes without a row in the table.
        _ => FloatInstr::Unlisted,
    }
}

// The floating instruction of a word.
pub fn floating_decode(word: u32) -> FloatInstr
    ensures { result ≡ floating_decode_of word }
{
    let op = (word % 256) as u8;
    floating_opcode(op, immediate(word / 256))
}

// A match, since an array with an index would be no shorter. The opcode bytes with a row in the table, 64 of the 256 in a number: four digits have sixteen bytes, the lowest last.
fn floating_set(quarter: u8) -> u64
    requires { quarter < 4 }
    ensures { QuarterSet quarter result }
{
    match quarter {
        0 => 0xa60c_1826_0c18_0000,
        1 => 0x2800_0000_0007_e318,
        2 => 0x4006_0004_803e_4aa9,
        _ => 0x0000_0000_0000_0030,
    }
}

// Whether a word is a floating instruction. `floating_decode` tells it too, but has one caller: with a second one it is no longer inlined.
pub fn is_floating(word: u32) -> bool
    ensures { result ≡ is_listed (floating_decode_of word) }
{
    let op = (word % 256) as u8;
    let set = floating_set(op / 64);
    (set >> (op % 64)) % 2 == 1
}
