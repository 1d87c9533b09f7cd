// reference/CALLS.md, kinds 3 and 4: a machine saved, and a saved machine read. Each uses as much of memory, console and file as it says.
use case_format::digest::digest;
use case_format::given::{byte, place, put_chunks};
use case_format::printed::{Line, SHORT};
use case_records::given::{first, lend, machine_of};
use case_records::printed::show_line;

// What saving answers, and the file after it.
pub fn show_saved(s: &[u8], no: u64, memory: &mut [u8], console: &mut [u8], most: &mut [u8]) {
    let file = first(most, place(s, 8));
    let mem = first(memory, place(s, 12));
    let con = first(console, place(s, 16));
    file.fill(byte(s, 36));
    lend(s, mem, con);
    let saved = snapshot::save(machine_of(s), mem, con, file);
    let mut bytes = [0; SHORT];
    let mut line = Line::of(&mut bytes, no);
    line.number(u64::from(snapshot::save_number(saved.answer)));
    line.number(saved.length as u64);
    line.numbers(&digest(file));
    line.write();
}

// What reading answers, and the machine after it.
pub fn show_restored(s: &[u8], no: u64, memory: &mut [u8], console: &mut [u8], most: &mut [u8]) {
    let file = first(most, place(s, 8));
    let mem = first(memory, place(s, 12));
    let con = first(console, place(s, 16));
    mem.fill(byte(s, 20));
    con.fill(byte(s, 20));
    file.fill(0);
    put_chunks(s.get(28..).unwrap_or(b""), place(s, 24), file);
    let restored = snapshot::read(file, mem, con);
    let number = snapshot::read_number(restored.answer);
    show_line(no, &[u64::from(number)], &restored.machine, mem, con);
}
