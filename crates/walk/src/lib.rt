// Document 01, "Addresses", and document 02, item 4: the page table walk.
#![tactic(auto)]

ghost use Rattle.std.specs.Prelude.{◌≡◌, true, false, MatchResult, ◌+◌, ◌<◌, ◌≤◌, length};
ghost use Rattle.paging.specs.TrapCode.{page_fault};
ghost use Rattle.paging.specs.Walk.{bit, mark, mark_for, user_ok, write_ok, allows, refused_by, walk};
ghost use Rattle.walk.specs.Directory.{Directory};
ghost use Rattle.walk.specs.Found.{is_mark, walk_result, walked_by, FrameWalk, TableWalk};

use paging::{Access, Cause, TrapCode};

// What a page table walk finds: the frame's number, with the user and the write right.
#[derive(Clone, Copy)]
pub struct Mapping {
    pub frame: u32,
    pub user: bool,
    pub write: bool,
}

// Why it finds none: the code of a fault, and its cause.
#[derive(Clone, Copy)]
pub struct Denial {
    pub code: TrapCode,
    pub cause: Cause,
}

// The page fault of an access.
fn page_fault(kind: Access) -> TrapCode
    ensures { result ≡ page_fault kind }
{
    match kind {
        Access::Fetch => TrapCode::Fipage,
        Access::Read => TrapCode::Frpage,
        Access::Write => TrapCode::Fwpage,
    }
}

// Whether the bit of value k is set in w.
fn bit(k: u32, w: u32) -> bool
    requires { 0 < k }
    ensures { result ≡ bit k w }
{
    w / k % 2 == 1
}

// Sets the bit of value k, A or D, in the low byte of the word at `at`.
fn mark(mem: &mut [u8], at: usize, k: u8)
    requires { (at < length mem.old) × (is_mark k ≡ true) }
    ensures { mem.new ≡ mark k mem.old at }
{
    let w = mem[at];
    if w / k % 2 == 0 {
        mem[at] = w + k;
    }
}

// Sets A, for a write A and D, in the word at `at`.
fn mark_for(mem: &mut [u8], at: usize, kind: Access)
    requires { at < length mem.old }
    ensures { mem.new ≡ mark_for kind mem.old at }
{
    mark(mem, at, 32);
    if paging::writes(kind) {
        mark(mem, at, 64);
    }
}

// In user mode U is in both words.
fn user_ok(dir: u32, table: u32, user: bool) -> bool
    ensures { result ≡ user_ok dir table user }
{
    !user | (bit(4, dir) & bit(4, table))
}

// For a write W is in both words.
fn write_ok(dir: u32, table: u32, kind: Access) -> bool
    ensures { result ≡ write_ok dir table kind }
{
    !paging::writes(kind) | (bit(2, dir) & bit(2, table))
}

// Whether a table word allows an access, or why not.
fn permitted(dir: u32, table: u32, kind: Access, user: bool) -> Result<(), Cause>
    ensures { MatchResult
        result
        (λ _. allows dir table kind user ≡ true)
        (λ cause. (allows dir table kind user ≡ false) × (cause ≡ refused_by dir table user)) }
{
    if !bit(1, table) {
        return Err(Cause::TableAbsent);
    }
    if !user_ok(dir, table, user) {
        return Err(Cause::NoUserRight);
    }
    if !write_ok(dir, table, kind) {
        return Err(Cause::NoWriteRight);
    }
    Ok(())
}

// The frame of the table word at `at`, which is marked by now.
fn walk_frame(mem: &[u8], at: usize, dir: u32, table: u32) -> Result<Mapping, Denial>
    requires { at + 4 ≤ length mem.now }
    ensures { FrameWalk dir table at mem.now result }
{
    if (table / 4096 * 4096) as usize >= mem.len() {
        return Err(Denial {
            code: TrapCode::Fmem,
            cause: Cause::FrameBeyondMemory,
        });
    }
    let marked = memory::load4(mem, at);
    Ok(Mapping {
        frame: table / 4096,
        user: bit(4, dir) & bit(4, table),
        write: bit(2, dir) & bit(2, table) & bit(64, marked),
    })
}

// The walk from the table word at `at` on.
fn walk_table(
    mem: &mut [u8],
    at: usize,
    dir: u32,
    kind: Access,
    user: bool,
) -> Result<Mapping, Denial>
    requires { at + 4 ≤ length mem.old }
    ensures { TableWalk dir at kind user mem.old result mem.new }
{
    let table = memory::load4(mem, at);
    if let Err(cause) = permitted(dir, table, kind, user) {
        return Err(Denial {
            code: page_fault(kind),
            cause,
        });
    }
    mark_for(mem, at, kind);
    walk_frame(mem, at, dir, table)
}

// The walk of a page's tables from pdir.
pub fn walk(
    mem: &mut [u8],
    pdir: u32,
    page: u32,
    kind: Access,
    user: bool,
) -> Result<Mapping, Denial>
    requires { Directory (length mem.old) pdir × (page < 1048576) }
    ensures { walk_result result mem.new ≡ walked_by (walk mem.old pdir page kind user) }
{
    let dir_at = (pdir + 4 * (page / 1024)) as usize;
    let dir = memory::load4(mem, dir_at);
    if !bit(1, dir) {
        return Err(Denial {
            code: page_fault(kind),
            cause: Cause::DirectoryAbsent,
        });
    }
    mark(mem, dir_at, 32);
    let table = dir / 4096 * 4096;
    if table as usize >= mem.len() {
        return Err(Denial {
            code: TrapCode::Fmem,
            cause: Cause::DirectoryBeyondMemory,
        });
    }
    walk_table(mem, (table + 4 * (page % 1024)) as usize, dir, kind, user)
}
