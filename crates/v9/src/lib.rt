// Document 01, "Numbers returned": a run, with keys packed in bytes or as structs, and the single step.
#![tactic(auto)]

ghost use Rattle.keys.specs.Packed.{unpacked};
ghost use Rattle.v9.specs.Contract.{RunsAs, StepsAs};

use keys::{KeyList, PackedKeys};
use rules::{Key, Machine};
use runs::RunResult;

// What a run gives its caller to keep: the record, and the answer's number.
#[derive(Clone, Copy)]
pub struct Numbered {
    pub machine: Machine,
    pub number: u32,
}

// A run, whatever form its keys have.
fn run_list<L: KeyList>(
    m: Machine,
    mem: &mut [u8],
    console: &mut [u8],
    keys: &L,
    budget: u64,
) -> RunResult
    ensures { RunsAs (L.keys keys.now) budget m mem.old console.old result mem.new console.new }
{
    let rising = keys::rising(keys);
    let mut g = runs::begin(m, mem.len(), console.len(), rising, keys.count(), budget);
    while 0 < g.left {
        g = runs::proceed(g, mem, console, keys::next_key(keys, g.taken));
    }
    g.ran
}

// A run with packed keys: nine bytes a key, eight of its step number, the lowest first, and its byte.
pub fn run_packed(
    m: Machine,
    mem: &mut [u8],
    console: &mut [u8],
    keys: &[u8],
    budget: u64,
) -> RunResult
    ensures { RunsAs (unpacked keys.now) budget m mem.old console.old result mem.new console.new }
{
    run_list(m, mem, console, &PackedKeys(keys), budget)
}

// A run.
pub fn run(m: Machine, mem: &mut [u8], console: &mut [u8], keys: &[Key], budget: u64) -> RunResult
    ensures { RunsAs keys.now budget m mem.old console.old result mem.new console.new }
{
    run_list(m, mem, console, &keys, budget)
}

// A run of budget 1 that rewrites the caller's own record, and returns only the answer's number.
pub fn single_step(m: &mut Machine, mem: &mut [u8], console: &mut [u8], keys: &[Key]) -> u32
    ensures { StepsAs keys.now m.old mem.old console.old result m.new
        mem.new console.new }
{
    let ran = run(*m, mem, console, keys, 1);
    *m = ran.machine;
    rules::run_number(ran.answer)
}
