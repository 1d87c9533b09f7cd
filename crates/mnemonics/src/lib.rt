// Document 02, item 2: the line of a word in a listing.
#![tactic(auto)]

ghost use Rattle.std.specs.Prelude.{◌≡◌};
ghost use Rattle.text.specs.Hex.{hex_of};
ghost use Rattle.text.specs.Signed.{signed_of};
ghost use Rattle.text.specs.Written.{Written};
ghost use Rattle.text.specs.Adds.{Adds, Room};
ghost use Rattle.mnemonics.specs.Mnemonics.{form_of};
ghost use Rattle.mnemonics.specs.Cells.{cell_of};
ghost use Rattle.mnemonics.specs.Line.{spaced, operand_of, fields_of, text_line, data_line};

use text::Writer;

// What is printed of an instruction's upper 24 bits: nothing, the signed number, or the address that a jump or branch leads to.
#[derive(Clone, Copy)]
pub enum OperandForm {
    Nothing,
    Immediate,
    Target,
}

// For each of the 256 opcodes six bytes: its mnemonic, or `data`, filled up with spaces to four; i for a number, t for a target; a space. In letters, as
// rows of names and variants would fill 256 lines.
static CELLS: [u8; 1536] = *b"\
    HALTi ENT i LEV i JMP t JMPIi JSR t JSRA  LEA i LEAGi CYC   MCPY  MCMP  MCHR  MSET  LL  i LLS i \
    LLH i LLC i LLB i data  data  LG  i LGS i LGH i LGC i LGB i data  data  LX  i LXS i LXH i LXC i \
    LXB i data  data  LI  i LHI i data  LBL i LBLSi LBLHi LBLCi LBLBi data  data  LBG i LBGSi LBGHi \
    LBGCi LBGBi data  data  LBX i LBXSi LBXHi LBXCi LBXBi data  data  LBI i LBHIi data  LBA   data  \
    SL  i SLH i SLB i data  data  SG  i SGH i SGB i data  data  SX  i SXH i SXB i data  data  data  \
    data  data  data  ADD   ADDIi ADDLi SUB   SUBIi SUBLi MUL   MULIi MULLi DIV   DIVIi DIVLi DVU   \
    DVUIi DVULi MOD   MODIi MODLi MDU   MDUIi MDULi AND   ANDIi ANDLi OR    ORI i ORL i XOR   XORIi \
    XORLi SHL   SHLIi SHLLi SHR   SHRIi SHRLi SRU   SRUIi SRULi EQ    data  NE    data  LT    LTU   \
    data  GE    GEU   data  BZ  t data  BNZ t data  BE  t data  BNE t data  BLT t BLTUt data  BGE t \
    BGEUt data  data  data  data  data  CLI   STI   RTI   BIN   BOUT  NOP   SSP   PSHA  PSHIi data  \
    PSHB  POPB  data  POPA  IVEC  PDIR  SPAG  TIMEi LVAD  TRAP  LUSP  SUSP  LCL i LCA   PSHC  POPC  \
    MSIZ  data  data  data  data  data  data  data  data  data  data  data  data  data  data  data  \
    data  data  data  data  data  data  data  data  data  data  data  data  data  data  data  data  \
    data  IDLE  data  data  data  data  data  data  data  data  data  data  data  data  data  data  \
    data  data  data  data  data  data  data  data  data  data  data  data  data  data  data  data  \
    data  data  data  data  data  data  data  data  data  data  data  data  data  data  data  data  ";

// The bytes of a cell, and of the name in it.
const CELL: usize = 6;

const NAME: usize = 4;

// The cell of an opcode.
fn cell(op: u8) -> &'static [u8]
    ensures { result.now ≡ cell_of (form_of op) }
{
    let at = CELL * usize::from(op);
    &CELLS[at..at + CELL]
}

// The name of an opcode.
fn name(op: u8) -> &'static [u8]
    ensures { result.now ≡ (form_of op).name }
{
    cell(op)[..NAME].trim_ascii_end()
}

// What the operand of an opcode is.
fn operand_form(op: u8) -> OperandForm
    ensures { result ≡ (form_of op).operand }
{
    match cell(op)[NAME] {
        b'i' => OperandForm::Immediate,
        b't' => OperandForm::Target,
        _ => OperandForm::Nothing,
    }
}

// A space and the signed number.
fn put_number(line: &mut Writer, imm: u32)
    requires { Room 22 line.old }
    ensures { Adds (spaced (signed_of imm)) line.old line.new }
{
    line.put(b" ");
    line.signed(imm);
}

// A space and a word.
fn put_word(line: &mut Writer, word: u32)
    requires { Room 9 line.old }
    ensures { Adds (spaced (hex_of word)) line.old line.new }
{
    line.put(b" ");
    line.hex(word);
}

// The operand of the instruction at an address, if it has one.
fn put_operand(line: &mut Writer, form: OperandForm, address: u32, imm: u32)
    requires { Room 22 line.old }
    ensures { Adds (operand_of form address imm) line.old line.new }
{
    match form {
        OperandForm::Nothing => {}
        OperandForm::Immediate => put_number(line, imm),
        OperandForm::Target => put_word(line, word::sum(word::sum(address, 4), imm)),
    }
}

// Address and word.
fn put_fields(line: &mut Writer, address: u32, word: u32)
    requires { Room 17 line.old }
    ensures { Adds (fields_of address word) line.old line.new }
{
    line.hex(address);
    put_word(line, word);
}

// The line of a word of the text. The result is its length.
pub fn text_line(line: &mut [u8; 64], address: u32, word: u32) -> usize
    ensures { Written (text_line address word) line.old 0 line.new result }
{
    let op = (word % 256) as u8;
    let mut out = Writer::new(line);
    put_fields(&mut out, address, word);
    out.put(b" ");
    out.put(name(op));
    let imm = word::immediate(word / 256);
    put_operand(&mut out, operand_form(op), address, imm);
    out.end()
}

// The line of a word of the data. The result is its length.
pub fn data_line(line: &mut [u8; 64], address: u32, word: u32) -> usize
    ensures { Written (data_line address word) line.old 0 line.new result }
{
    let mut out = Writer::new(line);
    put_fields(&mut out, address, word);
    out.put(b" data");
    out.end()
}
