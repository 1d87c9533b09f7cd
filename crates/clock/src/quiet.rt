// Document 01, "One step", and document 02, item 1: in how many coming steps the clock only counts (no key comes, the timer does not fire, no pending interrupt is
// due), and the record after them.
ghost use Rattle.std.specs.Prelude.{◌≡◌};
ghost use Rattle.clock.specs.Quiet.{before_key, before_timer, quiet_steps, Room, after_quiet};

use crate::due_trap;
use rules::{Clock, Cpu, Key, Regs};

// How many of `left` steps come before the next key's.
#[tactic(auto, unfolding(crate::specs::Quiet::before_key))]
fn before_key(k: Option<Key>, count: u64, left: u64) -> u64
    ensures { result ≡ before_key k count left }
{
    match k {
        Some(key) => left.min(key.step.saturating_sub(count).saturating_sub(1)),
        None => left,
    }
}

// How many of `left` steps come before the timer fires.
#[tactic(auto, unfolding(crate::specs::Quiet::before_timer))]
fn before_timer(t: Clock, left: u64) -> u64
    ensures { result ≡ before_timer t left }
{
    match t.timeout {
        0 => left,
        timeout => left.min(timeout.saturating_sub(t.timer) as u64),
    }
}

// In how many of the next `left` steps the clock only counts; none where the machine waits or an interrupt is due.
#[tactic(auto, unfolding(crate::specs::Quiet::quiet_steps))]
pub fn steps(k: Option<Key>, c: Cpu, left: u64) -> u64
    ensures { result ≡ quiet_steps k c left }
{
    if c.system.waiting {
        return 0;
    }
    match due_trap(c) {
        Some(_) => 0,
        None => before_timer(c.clock, before_key(k, c.regs.count, left)),
    }
}

// The record after such steps from c, which left registers and step count r.
pub fn after(c: Cpu, r: Regs) -> Cpu
    requires { Room c r }
    ensures { result ≡ after_quiet c r }
{
    if c.clock.timeout == 0 {
        return Cpu { regs: r, ..c };
    }
    let passed = r.count - c.regs.count;
    Cpu {
        regs: r,
        clock: Clock {
            timer: (c.clock.timer as u64 + passed) as u32,
            ..c.clock
        },
        ..c
    }
}
