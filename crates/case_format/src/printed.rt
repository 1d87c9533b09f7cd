// reference/FORMAT.md, "Expected output": a line of words, with a space between them.
ghost use Rattle.std.specs.Prelude.{◌≡◌, ◌≤◌, length};

// The longest line of a case has below 3,000 bytes, and of five numbers, or of one and a listed line, below 128: nothing is left out.
pub const LONGEST: usize = 8192;

pub const SHORT: usize = 128;

// A line in lent bytes, which stay as many: with bytes of its own each would be as long as the longest, and moved where it is made.
#[derive(Drop)]
pub struct Line<'a> {
    bytes: &'a mut [u8],
    end: usize,
    ghost within: { end ≤ length bytes.now },
}

impl<'a> Line<'a> {
    // A line that begins with a number.
    pub fn of(bytes: &'a mut [u8], n: u64) -> Line<'a>
        ensures { length result.bytes.now ≡ length bytes.old }
    {
        let mut line = Line { bytes, end: 0 };
        line.number(n);
        line
    }

    fn put(&mut self, bytes: &[u8])
        ensures { length self.new.bytes.now ≡ length self.old.bytes.now }
    {
        let at = self.end;
        if bytes.len() <= self.bytes.len() - at {
            let end = at + bytes.len();
            self.bytes[at..end].copy_from_slice(bytes);
            self.end = end;
        }
    }

    // A word, if it has any bytes.
    pub fn word(&mut self, word: &[u8])
        ensures { length self.new.bytes.now ≡ length self.old.bytes.now }
    {
        if word.is_empty() {
            return;
        }
        if 0 < self.end {
            self.put(b" ");
        }
        self.put(word);
    }

    pub fn number(&mut self, n: u64)
        ensures { length self.new.bytes.now ≡ length self.old.bytes.now }
    {
        let mut digits = [0; 20];
        let count = io::decimal(n, &mut digits);
        self.word(&digits[..count]);
    }

    pub fn numbers(&mut self, numbers: &[u64])
        ensures { length self.new.bytes.now ≡ length self.old.bytes.now }
    {
        for n in numbers {
            self.number(*n);
        }
    }

    // The line is written, with a newline.
    pub fn write(&mut self)
        ensures { length self.new.bytes.now ≡ length self.old.bytes.now }
    {
        self.put(b"\n");
        io::write_all(1, &self.bytes[..self.end]);
    }
}
