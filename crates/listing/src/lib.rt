// Document 02, item 2: the printed listing of a program, one line a word, and a listed line back to its address and word.
#![tactic(auto)]

ghost use Rattle.std.specs.Prelude.{◌≡◌, ◌+◌, ◌^◌, ◌<◌, ◌≤◌, length, get_or};
ghost use Rattle.memory.specs.Memory.{load_n};
ghost use Rattle.listing.specs.Listing.{refused_line, word_line, line_of, Shown};
ghost use Rattle.listing.specs.Listed.{line_number, no_read, Reads};
ghost use Rattle.listing.specs.Stands.{HasWord, is_line_of};

use text::Writer;

// The run program's memory.
const MEMORY: usize = 32768;

// Why a line is not read, by number: it stands in no accepted file's listing.
#[derive(Clone, Copy, Debug, PartialEq, Eq)]
pub enum LineRefusal {
    Unlisted = 12,
}

// The address and word that a line came from; refused, both are 0.
#[derive(Clone, Copy)]
pub struct LineRead {
    // Beside address and word, which a refused line has too: `Reads` says that they are 0.
    pub answer: Result<(), LineRefusal>,
    pub address: u32,
    pub word: u32,
}

// The number of an answer, 0 of a line that was read.
pub fn line_number(answer: Result<(), LineRefusal>) -> u32
    ensures { result ≡ line_number answer }
{
    match answer {
        Ok(()) => 0,
        Err(refusal) => refusal as u32,
    }
}

// The line of a refused file.
fn refused_line(line: &mut [u8], number: u32) -> usize
    requires { 28 ≤ length line.old }
    ensures { Shown (refused_line number) line.old line.new result }
{
    let mut out = Writer::new(line);
    out.named(b"refused ", u64::from(number));
    out.end()
}

// The byte at a place, 0 past the end.
fn byte(s: &[u8], at: usize) -> u8
    ensures { result ≡ get_or s.now at 0 }
{
    s.get(at).copied().unwrap_or(0)
}

// Four bytes, the lowest first.
fn padded_word(s: &[u8], at: usize) -> u32
    requires { at + 4 < 2 ^ 64 }
    ensures { result ≡ load_n 4 s.now at }
{
    u32::from_le_bytes([
        byte(s, at),
        byte(s, at + 1),
        byte(s, at + 2),
        byte(s, at + 3),
    ])
}

// The line of the n-th word of an accepted file.
fn word_line(file: &[u8], n: usize, line: &mut [u8; 64]) -> usize
    requires { HasWord file.now n }
    ensures { Shown (word_line file.now n) line.old line.new result }
{
    let address = (4 * n) as u32;
    let word = padded_word(file, 16 + 4 * n);
    if memory::load4(file, 12) <= address {
        return mnemonics::data_line(line, address, word);
    }
    mnemonics::text_line(line, address, word)
}

// Line n of a file's listing, from 0, without its newline. The result is its length; 0 where the listing has no such line.
pub fn line_at(file: &[u8], n: usize, line: &mut [u8; 64]) -> usize
    ensures { Shown (line_of file.now n) line.old line.new result }
{
    let answer = executable::judge(MEMORY, file);
    if answer.is_err() {
        if n == 0 {
            return refused_line(line, executable::load_number(answer));
        }
        return 0;
    }
    if (file.len() - 16 + 3) / 4 <= n {
        return 0;
    }
    word_line(file, n, line)
}

// Whether a line is what is listed of a word at an address: as text, or from address 4 on as data.
fn is_line_of(line: &[u8], address: u32, word: u32) -> bool
    ensures { result ≡ is_line_of line.now address word }
{
    if (address % 4 != 0) | (MEMORY <= address as usize) {
        return false;
    }
    let mut shown = [0u8; 64];
    let end = mnemonics::text_line(&mut shown, address, word);
    if line == &shown[..end] {
        return true;
    }
    if address < 4 {
        return false;
    }
    let end = mnemonics::data_line(&mut shown, address, word);
    line == &shown[..end]
}

// No address and no word.
fn unlisted() -> LineRead
    ensures { result ≡ no_read }
{
    LineRead {
        answer: Err(LineRefusal::Unlisted),
        address: 0,
        word: 0,
    }
}

// A listed line, without its newline, back to its address and word. Both are read from their columns, and the line is written again and compared.
pub fn read_line(line: &[u8]) -> LineRead
    ensures { Reads line.now result }
{
    if line.len() < 17 {
        return unlisted();
    }
    let address = text::hex::read8(line, 0);
    let word = text::hex::read8(line, 9);
    if is_line_of(line, address, word) {
        return LineRead {
            answer: Ok(()),
            address,
            word,
        };
    }
    unlisted()
}
