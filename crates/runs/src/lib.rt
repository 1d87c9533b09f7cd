// Document 01, "Numbers returned": a run begins, refused or accepted, and goes on from key to key.
#![tactic(auto)]

ghost use Rattle.std.specs.Prelude.{◌≡◌, length};
ghost use Rattle.clock.specs.Taken.{KeyFits};
ghost use Rattle.machine.specs.Advance.{Ready};
ghost use Rattle.rules.specs.Run.{allowance};
ghost use Rattle.runs.specs.Advance.{left_of, Goes};
ghost use Rattle.runs.specs.UnderWay.{begin_of, Able, Proceeds};

use machine::Advanced;
use rules::{Cpu, Key, Machine, RunRefusal, Stop};

// What a run gives: the record, its answer, the reported steps, and its table walks (document 02, item 6).
#[derive(Clone, Copy)]
pub struct RunResult {
    pub machine: Machine,
    // Beside the other fields, which a refused run has too: `RunsAs` says what they hold.
    pub answer: Result<(), RunRefusal>,
    pub steps: u64,
    pub walks: u64,
}

// A run under way: the keys taken, the steps that are left, 0 once the machine has stopped, and its result so far.
#[derive(Clone, Copy)]
pub struct UnderWay {
    pub taken: usize,
    pub left: u64,
    pub ran: RunResult,
}

// The steps that are left, none once the machine has stopped.
#[tactic(auto, unfolding(crate::specs::Advance::left_of))]
fn left_of(s: Stop, n: u64) -> u64
    ensures { result ≡ left_of s n }
{
    if rules::is_running(s) { n } else { 0 }
}

// The budget of a run that is accepted, and 0 of one that is refused.
fn allowance(a: Result<(), RunRefusal>, budget: u64) -> u64
    ensures { result ≡ allowance a budget }
{
    if a.is_ok() { budget } else { 0 }
}

// A run is refused, or begins.
pub fn begin(
    m: Machine,
    size: usize,
    capacity: usize,
    rising: bool,
    keys: usize,
    budget: u64,
) -> UnderWay
    ensures { result ≡ begin_of m size capacity rising keys budget }
{
    let answer = refusals::refusal(m, size, capacity, rising, keys, budget);
    UnderWay {
        taken: m.cpu.clock.taken,
        left: left_of(m.cpu.stop, allowance(answer, budget)),
        ran: RunResult {
            machine: m,
            answer,
            steps: 0,
            walks: 0,
        },
    }
}

// Steps until the next key is taken, or to the end of the run.
fn go(
    c: Cpu,
    left: u64,
    next: Option<Key>,
    mem: &mut [u8],
    console: &mut [u8],
    tlb: &mut [u64],
    hint: &mut [u8; 256],
) -> Advanced
    requires { Ready c left mem.old tlb.old × KeyFits next c.clock.taken }
    ensures { Goes c left next mem.old console.old tlb.old result mem.new console.new tlb.new }
{
    let mut x = c;
    let mut n = left;
    while (0 < n) & (x.clock.taken == c.clock.taken) {
        let a = machine::advance(x, n, next, mem, console, tlb, hint);
        x = a.cpu;
        n = left_of(x.stop, a.left);
    }
    Advanced { cpu: x, left: n }
}

// A run that goes on, until its next key is taken, or to its end: its entries go into a lent array, and come back in place. The hint is told where each
// stands. Both loops are written out here, as each pass of the record by value costs 100 instructions.
pub fn proceed(g: UnderWay, mem: &mut [u8], console: &mut [u8], next: Option<Key>) -> UnderWay
    requires { Able g (length mem.old) × KeyFits next g.taken }
    ensures { Proceeds g next mem.old console.old result mem.new console.new }
{
    let mut tlb = [0u64; 66];
    let mut hint = [0u8; 256];
    let mut n = g.ran.machine;
    let held = n.held;
    for i in 0..held {
        let e = n.entries[i];
        tlb[i] = buffer::pack(e.page, e.frame, e.user, e.write);
        hint[(e.page % 256) as usize] = i as u8;
    }
    buffer::recount(&mut tlb, held, g.ran.walks);
    let a = go(n.cpu, g.left, next, mem, console, &mut tlb, &mut hint);
    let steps = g.ran.steps + (a.cpu.regs.count - n.cpu.regs.count);
    let count = buffer::count(&tlb);
    n.cpu = a.cpu;
    n.held = count;
    for j in 0..count {
        n.entries[j] = buffer::unpack(tlb[j]);
    }
    let walks = buffer::walks(&tlb);
    UnderWay {
        taken: a.cpu.clock.taken,
        left: a.left,
        ran: RunResult {
            machine: n,
            answer: g.ran.answer,
            steps,
            walks,
        },
    }
}
