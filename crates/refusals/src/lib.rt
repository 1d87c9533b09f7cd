// Document 01, "Numbers returned": a run's refusals.
#![tactic(auto)]

ghost use Rattle.std.specs.Prelude.{◌≡◌, ◌≤◌, take, drop};
ghost use Rattle.rules.specs.Run.{registers_ok};
ghost use Rattle.paging.specs.Buffer.{has, entry_page, entry_ok, buffer_ok};
ghost use Rattle.refusals.specs.View.{entries_of};
ghost use Rattle.refusals.specs.Refusal.{refusal_of};

use paging::Entry;
use rules::{Cpu, Machine, RunRefusal};

// Whether the registers pass refusal 2, in memory of `size` bytes.
pub fn registers_ok(size: usize, c: Cpu) -> bool
    ensures { result ≡ registers_ok size c }
{
    (c.regs.pc % 4 == 0)
        & (c.system.ivec % 4 == 0)
        & (c.regs.sp % 8 == 0)
        & (c.system.usp % 8 == 0)
        & (c.system.ksp % 8 == 0)
        & (c.space.pdir % 4096 == 0)
        & ((c.space.pdir as usize) < size)
        & (c.regs.count < 0x8000_0000_0000_0000)
}

// Whether an entry's page and frame pass refusal 3.
fn entry_ok(e: Entry, size: usize) -> bool
    ensures { result ≡ entry_ok size e }
{
    (e.page < 1048576) & ((e.frame as usize) < size / 4096)
}

// Whether one of the first n slots, from slot `from` on, has a page.
fn has_page(slots: [Entry; 64], n: usize, from: usize, page: u32) -> bool
    requires { n ≤ 64 }
    ensures { result ≡ has entry_page page (drop from (take n slots)) }
{
    for i in from..n {
        if slots[i].page == page {
            return true;
        }
    }
    false
}

// Whether a record's slots and their count pass refusal 3, tested from the last counted slot on. A page is searched for among the slots after its own only
// where one of them has a page of the same remainder by 256.
pub fn slots_ok(m: Machine, size: usize) -> bool
    ensures { result ≡ buffer_ok size (entries_of m) }
{
    if m.held > 64 {
        return false;
    }
    let mut seen = [false; 256];
    for i in (0..m.held).rev() {
        let e = m.entries[i];
        if !entry_ok(e, size) {
            return false;
        }
        let k = (e.page % 256) as usize;
        if seen[k] && has_page(m.entries, m.held, i + 1, e.page) {
            return false;
        }
        seen[k] = true;
    }
    true
}

// The first refusal that holds of a run, or its acceptance.
pub fn refusal(
    m: Machine,
    size: usize,
    capacity: usize,
    rising: bool,
    keys: usize,
    budget: u64,
) -> Result<(), RunRefusal>
    ensures { result ≡ refusal_of m size capacity rising keys budget }
{
    if !memory::size_ok(size) {
        return Err(RunRefusal::BadSize);
    }
    if !registers_ok(size, m.cpu) {
        return Err(RunRefusal::BadRegisters);
    }
    if !slots_ok(m, size) {
        return Err(RunRefusal::BadBuffer);
    }
    if !(rising & (m.cpu.clock.taken <= keys)) {
        return Err(RunRefusal::BadKeys);
    }
    if !(m.cpu.written <= capacity) {
        return Err(RunRefusal::BadConsole);
    }
    if !(budget <= 1000000) {
        return Err(RunRefusal::BadBudget);
    }
    Ok(())
}
