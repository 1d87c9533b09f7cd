// Document 01, "Worked lines", and document 02, item 2: bytes and numbers written into a lent line.
#![tactic(auto)]

ghost use Rattle.std.specs.Prelude.{◌<◌, ◌≤◌, ◌+◌, ◌≡◌, [], ◌∷◌, ◌++◌, length};
ghost use Rattle.text.specs.Digits.{decimal_of, digit_of};
ghost use Rattle.text.specs.Signed.{signed_of};
ghost use Rattle.text.specs.Adds.{Adds, Room};

pub mod hex;

// Lent bytes, written from the start on: `end` is the index after the last byte that was written.
#[derive(Drop)]
pub struct Writer<'a> {
    bytes: &'a mut [u8],
    end: usize,
}

impl<'a> Writer<'a> {
    pub fn new(bytes: &'a mut [u8]) -> Writer<'a>
        ensures same_reference { result.bytes.ghost_name ≡ bytes.entry.ghost_name }
        ensures start { (result.bytes.now ≡ bytes.old) × (result.end ≡ 0) }
    {
        Writer { bytes, end: 0 }
    }

    pub fn end(&self) -> usize
        ensures { result ≡ self.now.end }
    {
        self.end
    }

    // Bytes, as those of a constant byte string.
    pub fn put(&mut self, bytes: &[u8])
        requires { Room (length bytes.now) self.old }
        ensures { Adds bytes.now self.old self.new }
    {
        let end = self.end + bytes.len();
        self.bytes[self.end..end].copy_from_slice(bytes);
        self.end = end;
    }

    // One digit.
    fn digit(&mut self, d: u64)
        requires { Room 1 self.old × (d < 10) }
        ensures { Adds (digit_of d ∷ []) self.old self.new }
    {
        self.put(&[b'0' + d as u8]);
    }

    // A number in decimal: the quotient by ten first, then the remainder's digit, as document 01 names it.
    pub fn decimal(&mut self, n: u64)
        requires { Room 20 self.old }
        ensures { Adds (decimal_of n) self.old self.new }
    {
        if n < 10 {
            return self.digit(n);
        }
        self.decimal(n / 10);
        self.digit(n % 10)
    }

    // A name, and its number.
    pub fn named(&mut self, name: &[u8], n: u64)
        requires { Room (length name.now + 20) self.old }
        ensures adds { Adds (name.now ++ decimal_of n) self.old self.new }
        ensures room { self.new.end ≤ self.old.end + length name.now + 20 }
    {
        self.put(name);
        self.decimal(n)
    }

    // A word as a signed number in decimal.
    pub fn signed(&mut self, n: u32)
        requires { Room 21 self.old }
        ensures { Adds (signed_of n) self.old self.new }
    {
        if n < 0x8000_0000 {
            return self.decimal(u64::from(n));
        }
        self.put(b"-");
        self.decimal(u64::from(n.wrapping_neg()))
    }
}
