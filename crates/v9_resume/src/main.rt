// Document 02, item 5: the resuming program. It reads a saved machine of 32,768 bytes from standard input, runs on with no keys and a budget of 100,000, and prints
// the run program's line.
#![tactic(auto)]

// The line's steps are the record's step count, so that a run in two halves has the line of the whole.
fn resume(file: &[u8], memory: &mut [u8], console: &mut [u8]) {
    let mut line = [0; 256];
    let restored = snapshot::read(file, memory, console);
    let end = if let Err(refusal) = restored.answer {
        result_line::refused_line(&mut line, refusal as u32)
    } else {
        let ran = v9::run_packed(restored.machine, memory, console, b"", 100_000);
        let cpu = ran.machine.cpu;
        result_line::stop_line(&mut line, cpu.stop, cpu.regs.count, cpu.regs)
    };
    io::write_all(1, &line[..end]);
    io::write_all(1, b"\n");
}

fn main() {
    // The longest that can be accepted, with 64 entries and 4,096 console bytes, and one more, by which a longer one is refused.
    let mut file = [0; 38009];
    let n = io::read_full(0, &mut file);
    let mut memory = [0; 32768];
    let mut console = io::buffer();
    resume(&file[..n], &mut memory, &mut console);
}
