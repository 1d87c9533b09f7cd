// reference/CALLS.md, kinds 1 and 2: lines of a listing, and a listed line read back.
use case_format::given::{long, place};
use case_format::printed::{Line, SHORT};

// A line of a listing, after the number of the call.
fn show_line(file: &[u8], n: usize, no: u64) {
    let mut text = [0; 64];
    let length = listing::line_at(file, n, &mut text);
    let mut bytes = [0; SHORT];
    let mut line = Line::of(&mut bytes, no);
    line.word(&text[..length]);
    line.write();
}

// Lines of a listing, from the number of the first on.
pub fn show_lines(s: &[u8], no: u64) {
    let file = s.get(24..).unwrap_or(b"");
    let first = long(s, 8) as usize;
    for i in 0..place(s, 16) {
        show_line(file, first.wrapping_add(i), no);
    }
}

// What a line is read as.
pub fn show_read(s: &[u8], no: u64) {
    let read = listing::read_line(s.get(12..).unwrap_or(b""));
    let mut bytes = [0; SHORT];
    let mut line = Line::of(&mut bytes, no);
    line.numbers(&[
        u64::from(listing::line_number(read.answer)),
        u64::from(read.address),
        u64::from(read.word),
    ]);
    line.write();
}
