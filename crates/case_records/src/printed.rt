// reference/FORMAT.md, "Expected output": the line of a machine.
use case_format::digest::digest;
use case_format::given::NUMBERS;
use case_format::printed::{LONGEST, Line};
use rules::Machine;

// The record: keys taken, console bytes written, its numbers with their count, then the buffer's count and its entries, at most 64.
fn put_record(line: &mut Line, m: &Machine) {
    let c = m.cpu;
    line.numbers(&[c.clock.taken as u64, c.written as u64, NUMBERS as u64]);
    line.numbers(&record_numbers::numbers_of(c));
    line.number(m.held as u64);
    for e in &m.entries[..m.held.min(64)] {
        line.numbers(&[
            u64::from(e.page),
            u64::from(e.frame),
            u64::from(e.user),
            u64::from(e.write),
        ]);
    }
}

// A line: the number of the case or call, the numbers that it has before the record's, the record, and the digests of memory and console.
pub fn show_line(no: u64, head: &[u64], m: &Machine, mem: &[u8], con: &[u8]) {
    let mut bytes = [0; LONGEST];
    let mut line = Line::of(&mut bytes, no);
    line.numbers(head);
    put_record(&mut line, m);
    line.numbers(&digest(mem));
    line.numbers(&digest(con));
    line.write();
}
