// reference/FORMAT.md, "Cases" and "The last line": cases from standard input, and the line after the last. Calls (reference/CALLS.md) stand in a stream of the same form.
use crate::given::place;
use crate::judged::Ended;

// The longest case or call, with its length field.
const LONGEST: usize = 131_072;

// The next case or call, with its length in front.
fn read_item(buf: &mut [u8; LONGEST]) -> Result<&[u8], Ended> {
    let got = io::read_full(0, &mut buf[..4]);
    if got == 0 {
        return Err(Ended::End);
    }
    if got < 4 {
        return Err(Ended::Cut);
    }
    let n = place(buf, 0);
    if n == 0 {
        return Err(Ended::End);
    }
    if LONGEST < n {
        return Err(Ended::Bounds);
    }
    if n < 4 {
        return Err(Ended::Malformed);
    }
    if io::read_full(0, &mut buf[4..n]) < n - 4 {
        return Err(Ended::Cut);
    }
    Ok(&buf[..n])
}

// Answers each case or call of the stream, by its bytes and its number from 0, to the first that is broken or the end, and writes the line after the last.
pub fn answer_each<F: FnMut(&[u8], u64) -> Result<(), Ended>>(mut answer: F)
    requires { F.IsAlwaysCallable answer }
{
    let mut buf = [0; LONGEST];
    for no in 0..1_000_000_000 {
        // With `and_then` what it requires of its closure was not proved.
        let answered = match read_item(&mut buf) {
            Ok(item) => answer(item, no),
            Err(ended) => Err(ended),
        };
        if let Err(ended) = answered {
            show_end(ended, no);
            return;
        }
    }
}

// The line after the last: of a good stream, or of one whose last case is broken.
fn show_end(ended: Ended, no: u64) {
    let (word, how): (&[u8], &[u8]) = match ended {
        Ended::End => (b"end ", b"\n"),
        Ended::Cut => (b"broken ", b" cut\n"),
        Ended::Bounds => (b"broken ", b" bounds\n"),
        Ended::Malformed => (b"broken ", b" malformed\n"),
    };
    io::write_all(1, word);
    io::print_decimal(1, no);
    io::write_all(1, how);
}
