// Document 02, item 5: the saving program. It reads an executable from standard input, runs it as the run program does, and writes the machine, saved. A refused
// load writes the run program's line to standard error, and no machine.
#![tactic(auto)]

use rules::Machine;

// The machine of a run, saved: the longest has 64 entries, 4,096 console bytes and 32,768 bytes of memory. A run leaves nothing that saving refuses.
fn write_machine(m: Machine, memory: &[u8], console: &[u8]) {
    let mut file = [0; 38008];
    let saved = snapshot::save(m, memory, console, &mut file);
    io::write_all(1, &file[..saved.length]);
}

fn write_refused(number: u32) {
    let mut line = [0; 64];
    let end = result_line::refused_line(&mut line, number);
    io::write_all(2, &line[..end]);
    io::write_all(2, b"\n");
}

fn save_run(file: &[u8], memory: &mut [u8], console: &mut [u8]) {
    let loaded = loader::load(file, memory);
    if let Err(refusal) = loaded.answer {
        write_refused(refusal as u32);
        return;
    }
    let ran = v9::run_packed(loaded.machine, memory, console, b"", 100_000);
    write_machine(ran.machine, memory, console);
}

fn main() {
    // The longest that can be accepted, 16 + 32,768 bytes, and one more, by which a longer one is refused.
    let mut file = [0; 32785];
    let n = io::read_full(0, &mut file);
    let mut memory = [0; 32768];
    let mut console = io::buffer();
    save_run(&file[..n], &mut memory, &mut console);
}
