// reference/FORMAT.md, "A case of runs": a run, made by one of the library's entries.
use crate::packed::Keys;
use case_format::given::Run;
use rules::{Key, Machine};
use runs::RunResult;

// The library's entries, each with its number in a case's sum.
#[derive(Clone, Copy)]
pub enum EntryPoint {
    Run = 1,
    Packed = 2,
    SingleStep = 4,
    PackedSteps = 8,
}

impl EntryPoint {
    // In the order of their lines.
    pub const ALL: [EntryPoint; 4] = [
        EntryPoint::Run,
        EntryPoint::Packed,
        EntryPoint::SingleStep,
        EntryPoint::PackedSteps,
    ];

    // Whether a sum of entries' numbers has its own.
    pub fn is_in(self, sum: u32) -> bool {
        sum & self as u32 != 0
    }
}

// What a run gives, whichever entry made it: the record, the answer's number, the reported steps and table walks.
#[derive(Clone, Copy)]
pub struct Made {
    pub machine: Machine,
    pub number: u32,
    pub steps: u64,
    pub walks: u64,
}

impl From<RunResult> for Made {
    fn from(ran: RunResult) -> Made {
        Made {
            machine: ran.machine,
            number: rules::run_number(ran.answer),
            steps: ran.steps,
            walks: ran.walks,
        }
    }
}

// One single step. The reported steps are the growth of the step count; it reports no walks.
fn step(mut machine: Machine, keys: &[Key], mem: &mut [u8], con: &mut [u8]) -> Made {
    let from = machine.cpu.regs.count;
    let number = v9::single_step(&mut machine, mem, con, keys);
    Made {
        machine,
        number,
        steps: machine.cpu.regs.count.wrapping_sub(from),
        walks: 0,
    }
}

// A run that is divided into calls of budget 1, to the first that reports no step: the last call's record and answer, and the sums of the reported steps and walks.
// Once the step count is about to reach 2^63, where a run goes on and a further call is refused, a call gets all that is left of the budget.
fn divided<F: FnMut(Machine, u64) -> Made>(m: Machine, budget: u64, mut call: F) -> Made
    requires { F.IsAlwaysCallable call }
{
    let mut made = Made {
        machine: m,
        number: 0,
        steps: 0,
        walks: 0,
    };
    let mut left = budget;
    while 0 < left {
        let part = if made.machine.cpu.regs.count < 0x7fff_ffff_ffff_ffff {
            1
        } else {
            left
        };
        let called = call(made.machine, part);
        made = Made {
            steps: made.steps.wrapping_add(called.steps),
            walks: made.walks.wrapping_add(called.walks),
            ..called
        };
        if called.steps == 0 {
            break;
        }
        left -= part;
    }
    made
}

// A run by single steps. A call of another budget than 1 is made by `run_packed`. The single step reports no walks, so that none are shown, also where a call is
// made by `run_packed`.
fn by_steps(m: Machine, run: Run<'_>, mem: &mut [u8], con: &mut [u8]) -> Made {
    let keys = Keys::unpacked(run.keys);
    let made = divided(m, run.budget, |m, part| {
        if part == 1 {
            step(m, keys.as_slice(), mem, con)
        } else {
            Made::from(v9::run_packed(m, mem, con, run.keys, part))
        }
    });
    Made { walks: 0, ..made }
}

// A run by an entry. Only a budget that document 01 takes and that has a step is divided.
pub fn make(entry: EntryPoint, m: Machine, run: Run<'_>, mem: &mut [u8], con: &mut [u8]) -> Made {
    let is_whole = run.budget == 0 || 1_000_000 < run.budget;
    match entry {
        EntryPoint::Run => {
            let keys = Keys::unpacked(run.keys);
            Made::from(v9::run(m, mem, con, keys.as_slice(), run.budget))
        }
        EntryPoint::SingleStep if !is_whole => by_steps(m, run, mem, con),
        EntryPoint::PackedSteps if !is_whole => divided(m, run.budget, |m, part| {
            Made::from(v9::run_packed(m, mem, con, run.keys, part))
        }),
        _ => Made::from(v9::run_packed(m, mem, con, run.keys, run.budget)),
    }
}
