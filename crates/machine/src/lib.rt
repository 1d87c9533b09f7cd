// Document 01, "One step", and document 02, item 7: instructions one after another, a step, and a run's advance.
#![tactic(auto)]

ghost use Rattle.std.specs.Prelude.{◌≡◌, true, ◌+◌, ◌≤◌, ◌<◌, ◌^◌, length};
ghost use Rattle.mmu.specs.Good.{Good};
ghost use Rattle.rules.specs.Record.{with_count, with_regs, with_floats};
ghost use Rattle.rules.specs.Execute.{moved};
ghost use Rattle.rules.specs.Step.{awake as awake_of, settle_tree};
ghost use Rattle.contracts.specs.Contract.{out_of, Finishes};
ghost use Rattle.clock.specs.Taken.{KeyFits};
ghost use Rattle.machine.specs.Instructions.{raise_count, EndsFrom};
ghost use Rattle.machine.specs.Burst.{BurstEnd};
ghost use Rattle.machine.specs.Step.{Steps};
ghost use Rattle.machine.specs.Advance.{Ready, EndsWithin, Finished, Advances};

use contracts::{Done, End, FloatDone};
use mmu::Bus;
use paging::{Space, TrapCode};
use rules::{Cpu, Floats, Key, Regs, System};

// A record on its way through a run, with the steps that are left.
#[derive(Clone, Copy)]
pub struct Advanced {
    pub cpu: Cpu,
    pub left: u64,
}

// Instructions of document 01's table one after another, with no clock event between them, up to the step count `limit`, or to the first that does not end well:
// that one is not counted. The bus is made here: behind a reference it is in memory in the whole loop, which then takes a tenth longer.
fn instructions(
    s: Regs,
    limit: u64,
    space: Space,
    user: bool,
    mem: &mut [u8],
    tlb: &mut [u64],
    hint: &mut [u8; 256],
) -> Done
    requires { Good (length mem.old) space.pdir tlb.old × (s.count ≤ limit) }
    ensures { EndsFrom s user space limit mem.old tlb.old result mem.new tlb.new }
{
    let mut bus = Bus {
        mem,
        tlb,
        hint,
        space,
        user,
    };
    let mut r = s;
    while r.count < limit {
        let d = execute::instruction(r, &mut bus);
        let e = d.end;
        let End::Ok = e else {
            return contracts::ended(r, e);
        };
        // By a struct update the loop would take an instruction a step more.
        let count = r.count + 1;
        r = d.regs;
        r.count = count;
    }
    contracts::fine(r)
}

// The same after a floating instruction. Where another one follows, as is usual, the loop would end at once: it is not entered, which takes longer than the
// instruction itself.
fn resumed(
    s: Regs,
    limit: u64,
    space: Space,
    user: bool,
    mem: &mut [u8],
    tlb: &mut [u64],
    hint: &mut [u8; 256],
) -> Done
    requires { Good (length mem.old) space.pdir tlb.old × (s.count ≤ limit) }
    ensures { EndsFrom s user space limit mem.old tlb.old result mem.new tlb.new }
{
    let a = execute::look_ahead(s, user, space, mem, tlb, hint);
    let Some(w) = a else {
        return instructions(s, limit, space, user, mem, tlb, hint);
    };
    if s.count < limit {
        return contracts::ended(s, End::Undecoded { pad: 0, word: w });
    }
    contracts::fine(s)
}

// The step is counted.
fn raise_count(r: Regs) -> Regs
    requires { r.count + 1 < 2 ^ 64 }
    ensures { result ≡ raise_count r }
{
    Regs {
        count: r.count + 1,
        ..r
    }
}

// The step is counted, and pc moves 4 on.
fn fetched(r: Regs) -> Regs
    requires { r.count + 1 < 2 ^ 64 }
    ensures { result ≡ moved (raise_count r) }
{
    Regs {
        pc: word::sum(r.pc, 4),
        ..raise_count(r)
    }
}

// The same in the new mode: a word that document 01's table has no row for is a floating instruction, after which the loop goes on.
fn floating_burst(
    c: Cpu,
    limit: u64,
    mem: &mut [u8],
    tlb: &mut [u64],
    hint: &mut [u8; 256],
) -> FloatDone
    requires good { Good (length mem.old) c.space.pdir tlb.old × (c.regs.count ≤ limit) }
    requires doubles_value { c.model.doubles ≡ true }
    ensures { BurstEnd c limit mem.old tlb.old result mem.new tlb.new }
{
    let mut floats = c.floats;
    let first = instructions(c.regs, limit, c.space, c.system.user, mem, tlb, hint);
    let mut r = first.regs;
    let mut e = first.end;
    loop {
        let End::Undecoded { pad: _, word: w } = e else {
            return FloatDone {
                regs: r,
                floats,
                end: e,
            };
        };
        let mut bus = Bus {
            mem,
            tlb,
            hint,
            space: c.space,
            user: c.system.user,
        };
        let d = floating::instruction(fetched(r), floats, w, &mut bus);
        let End::Ok = d.end else {
            return FloatDone {
                regs: r,
                floats,
                end: d.end,
            };
        };
        let mut n = d.regs;
        n.count = r.count + 1;
        floats = d.floats;
        let b = resumed(n, limit, c.space, c.system.user, mem, tlb, hint);
        r = b.regs;
        e = b.end;
    }
}

// The record with the registers that an instruction left.
fn with_done(c: Cpu, d: Done) -> Cpu
    ensures { result ≡ with_regs (with_count c.regs.count d.regs) c }
{
    Cpu {
        regs: Regs {
            count: c.regs.count,
            ..d.regs
        },
        ..c
    }
}

// The rest of a step after its instruction: c is the record before the fetch.
fn settle(
    c: Cpu,
    d: Done,
    mem: &mut [u8],
    console: &mut [u8],
    tlb: &mut [u64],
    hint: &mut [u8; 256],
) -> Cpu
    requires { Good (length mem.old) c.space.pdir tlb.old }
    ensures { Finishes (settle_tree (length mem.old) (length console.old) c (out_of d))
        c mem.old console.old tlb.old result mem.new console.new tlb.new }
{
    match d.end {
        End::Ok => with_done(c, d),
        End::Unfetched(f) => trap::fault(c, f, c.regs.pc, mem, tlb, hint),
        End::Trap(code) => {
            let number = paging::code_number(code);
            trap::trap(c, number, trap::next_pc(c), mem, tlb, hint)
        }
        End::Refused(f) => trap::fault(c, f, trap::next_pc(c), mem, tlb, hint),
        End::System(op) => system::system(c, op, mem, console, tlb, hint),
        End::Undecoded { pad: _, word: _ } => trap::trap(
            c,
            paging::code_number(TrapCode::Finst),
            trap::next_pc(c),
            mem,
            tlb,
            hint,
        ),
    }
}

// The record with f and g.
fn with_floats(c: Cpu, v: Floats) -> Cpu
    ensures { result ≡ with_floats v c }
{
    Cpu { floats: v, ..c }
}

// Waiting ends.
fn awake(c: Cpu) -> Cpu
    ensures { result ≡ awake_of c }
{
    Cpu {
        system: System {
            waiting: false,
            ..c.system
        },
        ..c
    }
}

// One step.
pub fn step(
    c: Cpu,
    k: Option<Key>,
    mem: &mut [u8],
    console: &mut [u8],
    tlb: &mut [u64],
    hint: &mut [u8; 256],
) -> Cpu
    requires good { Good (length mem.old) c.space.pdir tlb.old }
    requires count_bound { c.regs.count + 1 < 2 ^ 64 }
    requires key_fits { KeyFits k c.clock.taken }
    ensures { Steps c k mem.old console.old tlb.old result mem.new console.new tlb.new }
{
    let t = clock::tick(k, c);
    if let Some(i) = clock::due_trap(t) {
        let left = clock::cleared(i, t.clock.pending);
        let code = paging::code_number(TrapCode::from(i));
        return trap::deliver(awake(t), left, code, t.regs.pc, mem, tlb, hint);
    }
    if t.system.waiting {
        return t;
    }
    if c.model.doubles {
        let b = floating_burst(c, c.regs.count + 1, mem, tlb, hint);
        let x = with_floats(t, b.floats);
        let d = contracts::ended(b.regs, b.end);
        return settle(x, d, mem, console, tlb, hint);
    }
    let b = instructions(
        c.regs,
        c.regs.count + 1,
        c.space,
        c.system.user,
        mem,
        tlb,
        hint,
    );
    settle(t, b, mem, console, tlb, hint)
}

// The end of n quiet steps from c, with f and g as they are after them: b says how their instructions ended. Of one that did not end well the step is finished.
// Out of line it takes 4 instructions a step more where a timer traps every 50 steps.
#[inline(always)]
fn finish(
    c: Cpu,
    left: u64,
    n: u64,
    b: Done,
    mem: &mut [u8],
    console: &mut [u8],
    tlb: &mut [u64],
    hint: &mut [u8; 256],
) -> Advanced
    requires { Good (length mem.old) c.space.pdir tlb.old × EndsWithin c left n b }
    ensures { Finished c left n b mem.old console.old tlb.old result mem.new console.new tlb.new }
{
    let r = b.regs;
    let End::Ok = b.end else {
        let y = clock::quiet::after(c, raise_count(r));
        let x = settle(y, b, mem, console, tlb, hint);
        return Advanced {
            cpu: x,
            left: left - (b.regs.count - c.regs.count) - 1,
        };
    };
    let x = clock::quiet::after(c, b.regs);
    Advanced {
        cpu: x,
        left: left - n,
    }
}

// One step or more of a run that goes on: all steps up to the next clock event, up to an instruction that does not end well, or one step with the event.
pub fn advance(
    c: Cpu,
    left: u64,
    k: Option<Key>,
    mem: &mut [u8],
    console: &mut [u8],
    tlb: &mut [u64],
    hint: &mut [u8; 256],
) -> Advanced
    requires { Ready c left mem.old tlb.old × KeyFits k c.clock.taken }
    ensures { Advances c left k mem.old console.old tlb.old result mem.new console.new tlb.new }
{
    let n = clock::quiet::steps(k, c, left);
    if n == 0 {
        let x = step(c, k, mem, console, tlb, hint);
        return Advanced {
            cpu: x,
            left: left - 1,
        };
    }
    if c.model.doubles {
        let b = floating_burst(c, c.regs.count + n, mem, tlb, hint);
        let x = with_floats(c, b.floats);
        let d = contracts::ended(b.regs, b.end);
        return finish(x, left, n, d, mem, console, tlb, hint);
    }
    let b = instructions(
        c.regs,
        c.regs.count + n,
        c.space,
        c.system.user,
        mem,
        tlb,
        hint,
    );
    finish(c, left, n, b, mem, console, tlb, hint)
}
