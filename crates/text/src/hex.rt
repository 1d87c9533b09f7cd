// Document 02, item 2: a word as eight lower-case hexadecimal digits, written into a lent line and read from one.
ghost use Rattle.std.specs.Prelude.{◌+◌, ◌<◌, ◌≤◌, ◌≡◌, length};
ghost use Rattle.text.specs.Hex.{hex_digit, hex_of, hex_number, hex_value};
ghost use Rattle.text.specs.Adds.{Adds, Room};

use crate::Writer;

// The digits of a word.
const DIGITS: usize = 8;

// The byte of a digit, of a word's width as the digits are made: over bytes a line takes a third longer.
fn digit_byte(d: u32) -> u8
    requires { d < 16 }
    ensures { result ≡ hex_digit d }
{
    match d {
        0..=9 => b'0' + d as u8,
        _ => b'a' - 10 + d as u8,
    }
}

// All eight digits of a word.
fn digits_of(n: u32) -> [u8; DIGITS]
    ensures { result ≡ hex_of n }
{
    let mut digits = [0; DIGITS];
    let mut rest = n;
    for i in (0..DIGITS).rev() {
        digits[i] = digit_byte(rest % 16);
        rest /= 16;
    }
    digits
}

impl Writer<'_> {
    // A word, in eight digits.
    pub fn hex(&mut self, n: u32)
        requires { Room 8 self.old }
        ensures { Adds (hex_of n) self.old self.new }
    {
        self.put(&digits_of(n));
    }
}

// The number of a digit's byte, 0 of any other.
fn digit_number(x: u8) -> u32
    ensures { result ≡ hex_number x }
{
    // A match on ranges takes a branch for each digit: a line read back takes half as long again.
    let digit = x.wrapping_sub(b'0');
    let letter = x.wrapping_sub(b'a');
    if digit < 10 {
        u32::from(digit)
    } else if letter < 6 {
        u32::from(letter + 10)
    } else {
        0
    }
}

// The word that eight bytes stand for.
pub fn read8(line: &[u8], at: usize) -> u32
    requires { at + 8 ≤ length line.now }
    ensures { result ≡ hex_value 8 line.now at }
{
    let mut value = 0;
    for x in &line[at..at + DIGITS] {
        value = 16 * value + digit_number(*x);
    }
    value
}
