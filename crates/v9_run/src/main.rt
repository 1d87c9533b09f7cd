// Document 01, "Worked lines": the run program. It reads an executable from standard input into a machine of 32,768 bytes, and prints its line.
#![tactic(auto)]

fn main() {
    // The longest that can be accepted, 16 + 32,768 bytes, and one more, by which a longer one is refused.
    let mut file = [0; 32785];
    let n = io::read_full(0, &mut file);
    let mut memory = [0; 32768];
    let mut console = io::buffer();
    let mut shown = [0; 256];
    let end = result_line::run_line(&file[..n], &mut memory, &mut console, &mut shown);
    io::write_all(1, &shown[..end]);
    io::write_all(1, b"\n");
}
