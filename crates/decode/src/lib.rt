// Instructions and their decoding: document 01, "Opcodes". The opcodes are those of source 000.
#![tactic(auto)]

ghost use Rattle.std.specs.Prelude.{◌≡◌};
ghost use Rattle.decode.specs.Opcodes.{opcode_of, decode_of};

use memory::Size;
use word::immediate;

// Where the second operand comes from: register b, imm, or the word at sp + imm.
#[derive(Clone, Copy)]
pub enum Operand {
    RegB,
    Imm(u32),
    Stack(u32),
}

// The operations on a and a second operand.
#[derive(Clone, Copy)]
pub enum AluOp {
    Add,
    Sub,
    Mul,
    Div,
    Dvu,
    Mod,
    Mdu,
    And,
    Or,
    Xor,
    Shl,
    Shr,
    Sru,
}

// The comparisons of a with b.
#[derive(Clone, Copy)]
pub enum Test {
    Eq,
    Ne,
    Lt,
    Ltu,
    Ge,
    Geu,
}

// The general registers.
#[derive(Clone, Copy)]
pub enum Reg {
    A,
    B,
    C,
}

// The register that a load's or store's imm is added to.
#[derive(Clone, Copy)]
pub enum Base {
    Sp,
    Pc,
    A,
    B,
}

// What is loaded, by the source's C types.
#[derive(Clone, Copy)]
pub enum Format {
    Uint,
    Short,
    Ushort,
    Char,
    Uchar,
}

// The block instructions, which do one byte a step.
#[derive(Clone, Copy)]
pub enum BlockOp {
    Mcpy,
    Mcmp,
    Mchr,
    Mset,
}

// The privileged instructions that change the record and nothing else.
#[derive(Clone, Copy)]
pub enum PlainOp {
    Halt,
    Cli,
    Sti,
    Bin,
    Ssp,
    Ivec,
    Time(u32),
    Lvad,
    Lusp,
    Susp,
    Msiz,
    Idle,
}

// The privileged instructions.
#[derive(Clone, Copy)]
pub enum SysOp {
    Plain(PlainOp),
    Rti,
    Bout,
    Pdir,
    Spag,
}

// An instruction with its operand: imm with its sign; for LoadHigh and Time the unsigned field.
#[derive(Clone, Copy)]
pub enum Instr {
    Illegal,
    Nop,
    Trap,
    Cyc,
    Jsra,
    Lba,
    Lca,
    Ent(u32),
    Lev(u32),
    Jmp(u32),
    Jmpi(u32),
    Jsr(u32),
    Lea(u32),
    Leag(u32),
    Block(BlockOp),
    Load(Reg, Base, Format, u32),
    Store(Base, Size, u32),
    LoadImm(Reg, u32),
    LoadHigh(Reg, u32),
    Alu(AluOp, Operand),
    Compare(Test),
    Bz(u32),
    Bnz(u32),
    Branch(Test, u32),
    Push(Reg),
    Pshi(u32),
    Pop(Reg),
    Sys(SysOp),
}

// The instruction of an opcode byte, decided for all 256 values.
#[tactic(auto, unfolding(crate::specs::Opcodes::opcode_of, crate::specs::Opcodes::table))]
pub fn opcode(op: u8, imm: u32, field: u32) -> Instr
    ensures { result ≡ opcode_of op imm field }
{
    match op {
        0x00 => Instr::Sys(SysOp::Plain(PlainOp::Halt)),
        0x01 => Instr::Ent(imm),
        0x02 => Instr::Lev(imm),
        0x03 => Instr::Jmp(imm),
        0x04 => Instr::Jmpi(imm),
        0x05 => Instr::Jsr(imm),
        0x06 => Instr::Jsra,
        0x07 => Instr::Lea(imm),
        0x08 => Instr::Leag(imm),
        0x09 => Instr::Cyc,
        0x0a => Instr::Block(BlockOp::Mcpy),
        0x0b => Instr::Block(BlockOp::Mcmp),
        0x0c => Instr::Block(BlockOp::Mchr),
        0x0d => Instr::Block(BlockOp::Mset),
        0x0e => Instr::Load(Reg::A, Base::Sp, Format::Uint, imm),
        0x0f => Instr::Load(Reg::A, Base::Sp, Format::Short, imm),
        0x10 => Instr::Load(Reg::A, Base::Sp, Format::Ushort, imm),
        0x11 => Instr::Load(Reg::A, Base::Sp, Format::Char, imm),
        0x12 => Instr::Load(Reg::A, Base::Sp, Format::Uchar, imm),
        0x15 => Instr::Load(Reg::A, Base::Pc, Format::Uint, imm),
        0x16 => Instr::Load(Reg::A, Base::Pc, Format::Short, imm),
        0x17 => Instr::Load(Reg::A, Base::Pc, Format::Ushort, imm),
        0x18 => Instr::Load(Reg::A, Base::Pc, Format::Char, imm),
        0x19 => Instr::Load(Reg::A, Base::Pc, Format::Uchar, imm),
        0x1c => Instr::Load(Reg::A, Base::A, Format::Uint, imm),
        0x1d => Instr::Load(Reg::A, Base::A, Format::Short, imm),
        0x1e => Instr::Load(Reg::A, Base::A, Format::Ushort, imm),
        0x1f => Instr::Load(Reg::A, Base::A, Format::Char, imm),
        0x20 => Instr::Load(Reg::A, Base::A, Format::Uchar, imm),
        0x23 => Instr::LoadImm(Reg::A, imm),
        0x24 => Instr::LoadHigh(Reg::A, field),
        0x26 => Instr::Load(Reg::B, Base::Sp, Format::Uint, imm),
        0x27 => Instr::Load(Reg::B, Base::Sp, Format::Short, imm),
        0x28 => Instr::Load(Reg::B, Base::Sp, Format::Ushort, imm),
        0x29 => Instr::Load(Reg::B, Base::Sp, Format::Char, imm),
        0x2a => Instr::Load(Reg::B, Base::Sp, Format::Uchar, imm),
        0x2d => Instr::Load(Reg::B, Base::Pc, Format::Uint, imm),
        0x2e => Instr::Load(Reg::B, Base::Pc, Format::Short, imm),
        0x2f => Instr::Load(Reg::B, Base::Pc, Format::Ushort, imm),
        0x30 => Instr::Load(Reg::B, Base::Pc, Format::Char, imm),
        0x31 => Instr::Load(Reg::B, Base::Pc, Format::Uchar, imm),
        0x34 => Instr::Load(Reg::B, Base::B, Format::Uint, imm),
        0x35 => Instr::Load(Reg::B, Base::B, Format::Short, imm),
        0x36 => Instr::Load(Reg::B, Base::B, Format::Ushort, imm),
        0x37 => Instr::Load(Reg::B, Base::B, Format::Char, imm),
        0x38 => Instr::Load(Reg::B, Base::B, Format::Uchar, imm),
        0x3b => Instr::LoadImm(Reg::B, imm),
        0x3c => Instr::LoadHigh(Reg::B, field),
        0x3e => Instr::Lba,
        0x40 => Instr::Store(Base::Sp, Size::Word, imm),
        0x41 => Instr::Store(Base::Sp, Size::Half, imm),
        0x42 => Instr::Store(Base::Sp, Size::Byte, imm),
        0x45 => Instr::Store(Base::Pc, Size::Word, imm),
        0x46 => Instr::Store(Base::Pc, Size::Half, imm),
        0x47 => Instr::Store(Base::Pc, Size::Byte, imm),
        0x4a => Instr::Store(Base::B, Size::Word, imm),
        0x4b => Instr::Store(Base::B, Size::Half, imm),
        0x4c => Instr::Store(Base::B, Size::Byte, imm),
        0x53 => Instr::Alu(AluOp::Add, Operand::RegB),
        0x54 => Instr::Alu(AluOp::Add, Operand::Imm(imm)),
        0x55 => Instr::Alu(AluOp::Add, Operand::Stack(imm)),
        0x56 => Instr::Alu(AluOp::Sub, Operand::RegB),
        0x57 => Instr::Alu(AluOp::Sub, Operand::Imm(imm)),
        0x58 => Instr::Alu(AluOp::Sub, Operand::Stack(imm)),
        0x59 => Instr::Alu(AluOp::Mul, Operand::RegB),
        0x5a => Instr::Alu(AluOp::Mul, Operand::Imm(imm)),
        0x5b => Instr::Alu(AluOp::Mul, Operand::Stack(imm)),
        0x5c => Instr::Alu(AluOp::Div, Operand::RegB),
        0x5d => Instr::Alu(AluOp::Div, Operand::Imm(imm)),
        0x5e => Instr::Alu(AluOp::Div, Operand::Stack(imm)),
        0x5f => Instr::Alu(AluOp::Dvu, Operand::RegB),
        0x60 => Instr::Alu(AluOp::Dvu, Operand::Imm(imm)),
        0x61 => Instr::Alu(AluOp::Dvu, Operand::Stack(imm)),
        0x62 => Instr::Alu(AluOp::Mod, Operand::RegB),
        0x63 => Instr::Alu(AluOp::Mod, Operand::Imm(imm)),
        0x64 => Instr::Alu(AluOp::Mod, Operand::Stack(imm)),
        0x65 => Instr::Alu(AluOp::Mdu, Operand::RegB),
        0x66 => Instr::Alu(AluOp::Mdu, Operand::Imm(imm)),
        0x67 => Instr::Alu(AluOp::Mdu, Operand::Stack(imm)),
        0x68 => Instr::Alu(AluOp::And, Operand::RegB),
        0x69 => Instr::Alu(AluOp::And, Operand::Imm(imm)),
        0x6a => Instr::Alu(AluOp::And, Operand::Stack(imm)),
        0x6b => Instr::Alu(AluOp::Or, Operand::RegB),
        0x6c => Instr::Alu(AluOp::Or, Operand::Imm(imm)),
        0x6d => Instr::Alu(AluOp::Or, Operand::Stack(imm)),
        0x6e => Instr::Alu(AluOp::Xor, Operand::RegB),
        0x6f => Instr::Alu(AluOp::Xor, Operand::Imm(imm)),
        0x70 => Instr::Alu(AluOp::Xor, Operand::Stack(imm)),
        0x71 => Instr::Alu(AluOp::Shl, Operand::RegB),
        0x72 => Instr::Alu(AluOp::Shl, Operand::Imm(imm)),
        0x73 => Instr::Alu(AluOp::Shl, Operand::Stack(imm)),
        0x74 => Instr::Alu(AluOp::Shr, Operand::RegB),
        0x75 => Instr::Alu(AluOp::Shr, Operand::Imm(imm)),
        0x76 => Instr::Alu(AluOp::Shr, Operand::Stack(imm)),
        0x77 => Instr::Alu(AluOp::Sru, Operand::RegB),
        0x78 => Instr::Alu(AluOp::Sru, Operand::Imm(imm)),
        0x79 => Instr::Alu(AluOp::Sru, Operand::Stack(imm)),
        0x7a => Instr::Compare(Test::Eq),
        0x7c => Instr::Compare(Test::Ne),
        0x7e => Instr::Compare(Test::Lt),
        0x7f => Instr::Compare(Test::Ltu),
        0x81 => Instr::Compare(Test::Ge),
        0x82 => Instr::Compare(Test::Geu),
        0x84 => Instr::Bz(imm),
        0x86 => Instr::Bnz(imm),
        0x88 => Instr::Branch(Test::Eq, imm),
        0x8a => Instr::Branch(Test::Ne, imm),
        0x8c => Instr::Branch(Test::Lt, imm),
        0x8d => Instr::Branch(Test::Ltu, imm),
        0x8f => Instr::Branch(Test::Ge, imm),
        0x90 => Instr::Branch(Test::Geu, imm),
        0x96 => Instr::Sys(SysOp::Plain(PlainOp::Cli)),
        0x97 => Instr::Sys(SysOp::Plain(PlainOp::Sti)),
        0x98 => Instr::Sys(SysOp::Rti),
        0x99 => Instr::Sys(SysOp::Plain(PlainOp::Bin)),
        0x9a => Instr::Sys(SysOp::Bout),
        0x9b => Instr::Nop,
        0x9c => Instr::Sys(SysOp::Plain(PlainOp::Ssp)),
        0x9d => Instr::Push(Reg::A),
        0x9e => Instr::Pshi(imm),
        0xa0 => Instr::Push(Reg::B),
        0xa1 => Instr::Pop(Reg::B),
        0xa3 => Instr::Pop(Reg::A),
        0xa4 => Instr::Sys(SysOp::Plain(PlainOp::Ivec)),
        0xa5 => Instr::Sys(SysOp::Pdir),
        0xa6 => Instr::Sys(SysOp::Spag),
        0xa7 => Instr::Sys(SysOp::Plain(PlainOp::Time(field))),
        0xa8 => Instr::Sys(SysOp::Plain(PlainOp::Lvad)),
        0xa9 => Instr::Trap,
        0xaa => Instr::Sys(SysOp::Plain(PlainOp::Lusp)),
        0xab => Instr::Sys(SysOp::Plain(PlainOp::Susp)),
        0xac => Instr::Load(Reg::C, Base::Sp, Format::Uint, imm),
        0xad => Instr::Lca,
        0xae => Instr::Push(Reg::C),
        0xaf => Instr::Pop(Reg::C),
        0xb0 => Instr::Sys(SysOp::Plain(PlainOp::Msiz)),
        0xd1 => Instr::Sys(SysOp::Plain(PlainOp::Idle)),
        // The bytes without a row in the table.
        0x13..=0x14
        | 0x1a..=0x1b
        | 0x21..=0x22
        | 0x25
        | 0x2b..=0x2c
        | 0x32..=0x33
        | 0x39..=0x3a
        | 0x3d
        | 0x3f
        | 0x43..=0x44
        | 0x48..=0x49
        | 0x4d..=0x52
        | 0x7b
        | 0x7d
        | 0x80
        | 0x83
        | 0x85
        | 0x87
        | 0x89
        | 0x8b
        | 0x8e
        | 0x91..=0x95
        | 0x9f
        | 0xa2
        | 0xb1..=0xd0
        | 0xd2..=0xff => Instr::Illegal,
    }
}

// The instruction of a word.
pub fn decode(word: u32) -> Instr
    ensures { result ≡ decode_of word }
{
    let op = (word % 256) as u8;
    let field = word / 256;
    let imm = immediate(field);
    opcode(op, imm, field)
}
