// The entries that take structs behind references (document 01, "The shape of some places"), for callers that have record and keys by value; and runs by each entry.
#![tactic(auto)]

ghost use Rattle.std.specs.Prelude.{◌≤◌};

use rules::{Key, Machine};
use runs::RunResult;
use v9::Numbered;

pub mod made;
pub mod packed;

// A run with the first n of the keys.
pub fn run(
    m: Machine,
    mem: &mut [u8],
    console: &mut [u8],
    keys: [Key; 64],
    n: usize,
    budget: u64,
) -> RunResult
    requires { n ≤ 64 }
{
    v9::run(m, mem, console, &keys[..n], budget)
}

// A single step with the first n of the keys.
pub fn single_step(
    m: Machine,
    mem: &mut [u8],
    console: &mut [u8],
    keys: [Key; 64],
    n: usize,
) -> Numbered
    requires { n ≤ 64 }
{
    let mut machine = m;
    let number = v9::single_step(&mut machine, mem, console, &keys[..n]);
    Numbered { machine, number }
}
