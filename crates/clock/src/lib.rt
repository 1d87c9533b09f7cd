// Document 01, "One step", rules 1 to 3, and document 02, item 1: the step count, the next key, the timer; what is pending, and what is due.
#![tactic(auto)]

ghost use Rattle.std.specs.Prelude.{◌≡◌, ◌+◌, ◌<◌, ◌^◌};
ghost use Rattle.rules.specs.Clock.{key_comes, keyed, timed, ticked, due_of, cleared};
ghost use Rattle.clock.specs.Taken.{KeyFits};

use rules::{Clock, Cpu, Interrupt, Key, Pending, Regs};

pub mod quiet;

// The clock with the next key taken and its interrupt pending, where it comes in the step from c.
fn keyed(k: Option<Key>, c: Cpu) -> Clock
    requires count_bound { c.regs.count + 1 < 2 ^ 64 }
    requires key_fits { KeyFits k c.clock.taken }
    ensures { result ≡ keyed k (key_comes k c) c.clock }
{
    match k {
        Some(key) if key.step <= c.regs.count + 1 => Clock {
            kbchar: key.byte as u32,
            taken: c.clock.taken + 1,
            pending: Pending {
                key: true,
                ..c.clock.pending
            },
            ..c.clock
        },
        _ => c.clock,
    }
}

// The clock with the timer moved on, and its interrupt pending where it fires; timer and timeout are compared as whole numbers.
fn timed(t: Clock) -> Clock
    ensures { result ≡ timed t }
{
    if t.timeout == 0 {
        return t;
    }
    if (t.timeout as u64) < t.timer as u64 + 1 {
        return Clock {
            timer: 0,
            pending: Pending {
                timer: true,
                ..t.pending
            },
            ..t
        };
    }
    Clock {
        timer: t.timer + 1,
        ..t
    }
}

// The record after rules 1 to 3.
#[tactic(auto, unfolding(rules::specs::Clock::ticked))]
pub fn tick(k: Option<Key>, c: Cpu) -> Cpu
    requires count_bound { c.regs.count + 1 < 2 ^ 64 }
    requires key_fits { KeyFits k c.clock.taken }
    ensures { result ≡ ticked k c }
{
    Cpu {
        regs: Regs {
            count: c.regs.count + 1,
            ..c.regs
        },
        clock: timed(keyed(k, c)),
        ..c
    }
}

// What is due in a step, from the record after rules 1 to 3.
#[tactic(auto, unfolding(rules::specs::Clock::due_of))]
pub fn due_trap(c: Cpu) -> Option<Interrupt>
    ensures { result ≡ due_of c }
{
    if !c.system.iena {
        None
    } else if c.clock.pending.key {
        Some(Interrupt::Keyboard)
    } else if c.clock.pending.timer {
        Some(Interrupt::Timer)
    } else {
        None
    }
}

// What stays pending where an interrupt is delivered.
pub fn cleared(i: Interrupt, p: Pending) -> Pending
    ensures { result ≡ cleared i p }
{
    match i {
        Interrupt::Keyboard => Pending { key: false, ..p },
        Interrupt::Timer => Pending { timer: false, ..p },
    }
}
