// reference/FORMAT.md, "A case of runs": a list of runs, each from where the one before it ended, by each of the entries that the case names.
use case_format::given::{Run, place, word};
use case_records::given::{first, lend, machine_of};
use case_records::printed::show_line;
use entry_calls::made::{EntryPoint, make};

// The runs by an entry, with memory and console as the case gives them first.
fn run_list(s: &[u8], no: u64, entry: EntryPoint, mem: &mut [u8], con: &mut [u8]) {
    let mut machine = machine_of(s);
    let mut rest = lend(s, mem, con);
    for number in 0..place(s, 36) {
        let Some((run, after)) = Run::split_off(rest) else {
            return;
        };
        let made = make(entry, machine, run, mem, con);
        let head = [
            number as u64,
            u64::from(made.number),
            made.steps,
            made.walks,
        ];
        show_line(no, &head, &made.machine, mem, con);
        machine = made.machine;
        rest = after;
    }
}

// The lines of a case of runs, which uses as much of memory and console as it says.
pub fn run_case(s: &[u8], no: u64, memory: &mut [u8], console: &mut [u8]) {
    let mem = first(memory, place(s, 12));
    let con = first(console, place(s, 16));
    for entry in EntryPoint::ALL {
        if entry.is_in(word(s, 8)) {
            run_list(s, no, entry, mem, con);
        }
    }
}
