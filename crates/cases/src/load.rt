// reference/FORMAT.md, "A case of loading": a file, and the line that comes of it.
use case_format::given::{byte, place};
use case_records::given::first;
use case_records::printed::show_line;

// The line of a case of loading.
pub fn load_case(s: &[u8], no: u64, memory: &mut [u8]) {
    let mem = first(memory, place(s, 8));
    mem.fill(byte(s, 12));
    let loaded = loader::load(s.get(20..).unwrap_or(b""), mem);
    let number = executable::load_number(loaded.answer);
    show_line(no, &[0, u64::from(number), 0, 0], &loaded.machine, mem, b"");
}
