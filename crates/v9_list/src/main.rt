// Document 02, item 2: the listing program. It reads an executable from standard input and prints its listing, one line a word.
#![tactic(auto)]

// The line of a number. The result: whether there was one, and it was written.
fn print_line(file: &[u8], n: usize) -> bool {
    let mut line = [0; 64];
    let end = listing::line_at(file, n, &mut line);
    end != 0 && io::write_all(1, &line[..end]) && io::write_all(1, b"\n")
}

fn main() {
    // The longest that can be accepted, 16 + 32,768 bytes, and one more, by which a longer one is refused.
    let mut file = [0; 32785];
    let length = io::read_full(0, &mut file);
    // At most as many lines as a machine of 32,768 bytes has words.
    for n in 0..8192 {
        if !print_line(&file[..length], n) {
            break;
        }
    }
}
