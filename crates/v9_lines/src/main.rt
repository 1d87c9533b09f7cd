// Document 01, "Worked lines": the run program's line of many executables. Each comes on standard input with its length in front, four bytes, the
// lowest first, and is run in a machine of its own. The end of input or a file that is cut off ends them; then lines are compared with constant byte strings.
#![tactic(auto)]

ghost use Rattle.std.specs.Prelude.{◌≤◌, length, IfSome};

mod constants;

// The longest that can be accepted, 16 + 32,768 bytes, and one more, by which a longer one is refused.
const LONGEST: usize = 32785;

// Reads past n bytes, if they are there: only where nothing comes has the input ended.
fn skip(n: usize) -> Option<()> {
    let mut part = io::buffer();
    let mut rest = n;
    while 0 < rest {
        let size = rest.min(4096);
        let past = io::read_full(0, &mut part[..size]);
        if past == 0 {
            return None;
        }
        rest -= past;
    }
    Some(())
}

// Reads a file, if all of it is there, and keeps as much as fits.
fn read_file(file: &mut [u8; LONGEST]) -> Option<&[u8]>
    ensures { IfSome result (λ kept. length kept.now ≤ length file.old) }
{
    let mut size = [0; 4];
    if io::read_full(0, &mut size) < 4 {
        return None;
    }
    let n = u32::from_le_bytes(size) as usize;
    let kept = n.min(LONGEST);
    if io::read_full(0, &mut file[..kept]) < kept {
        return None;
    }
    skip(n - kept)?;
    Some(&file[..kept])
}

// Reads a file and writes its line. The result: whether to go on.
fn print_next() -> bool {
    let mut buf = [0; LONGEST];
    let Some(file) = read_file(&mut buf) else {
        return false;
    };
    let mut memory = [0; 32768];
    let mut console = io::buffer();
    let mut shown = [0; 256];
    let end = result_line::run_line(file, &mut memory, &mut console, &mut shown);
    io::write_all(1, &shown[..end]) && io::write_all(1, b"\n")
}

// The lines of all files, and then the comparisons.
fn main() {
    for _ in 0..1_000_000_000 {
        if !print_next() {
            break;
        }
    }
    constants::compare_all();
}
