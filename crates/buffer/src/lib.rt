// Document 01, "Addresses", and document 02, item 6: the page buffer, lent as one array of numbers, with a counter of table walks.
#![tactic(auto)]

ghost use Rattle.std.specs.Prelude.{◌≡◌, ◌+◌, ◌*◌, ◌/◌, ◌%◌, ◌^◌, ◌<◌, ◌≤◌, [], length, slice_set};
ghost use Rattle.paging.specs.Buffer.{serves, keep};
ghost use Rattle.paging.specs.Counting.{counted};
ghost use Rattle.buffer.specs.Held.{slots, frames, page_in, entry, unpack, count, walks, entries_in, lent, index_of, slot_hit, Buffer};

use paging::{Access, Entry};

// The layout of an entry's number: `page * PAGE_UNIT + frame * FRAME_UNIT`, and its rights.
const PAGE_UNIT: u64 = 4294967296;

const FRAME_UNIT: u64 = 4096;

const FRAMES: u64 = 32768;

// The number of an entry.
pub fn pack(page: u32, frame: u32, user: bool, write: bool) -> u64
    requires { frame < frames }
    ensures { unpack result ≡ entry page frame user write }
{
    page as u64 * PAGE_UNIT + (frame as u64 * FRAME_UNIT + (user as u64 * 2 + write as u64))
}

// The entry of a number.
pub fn unpack(e: u64) -> Entry
    requires { page_in e < 1048576 }
    ensures { result ≡ unpack e }
{
    Entry {
        page: (e / PAGE_UNIT) as u32,
        frame: (e / FRAME_UNIT % FRAMES) as u32,
        user: e / 2 % 2 == 1,
        write: e % 2 == 1,
    }
}

// How many entries are counted.
pub fn count(tlb: &[u64]) -> usize
    requires { Buffer tlb.now }
    ensures { result ≡ count tlb.now }
{
    tlb[64] as usize
}

// Counts the first n entries, and walks from a number on.
pub fn recount(tlb: &mut [u64], n: usize, walks: u64)
    requires { (n ≤ 64) × (length tlb.old ≡ slots) }
    ensures { tlb.new ≡ slice_set (slice_set tlb.old 64 n) 65 walks }
{
    tlb[64] = n as u64;
    tlb[65] = walks;
}

// How many table walks are counted.
pub fn walks(tlb: &[u64]) -> u64
    requires { Buffer tlb.now }
    ensures { result ≡ walks tlb.now }
{
    tlb[65]
}

// Counts one table walk more.
pub fn raise_walks(tlb: &mut [u64])
    requires { Buffer tlb.old }
    ensures { tlb.new ≡ slice_set tlb.old 65 ((walks tlb.old + 1) % 2 ^ 64) }
{
    tlb[65] = tlb[65].wrapping_add(1);
}

// Whether the entry of a number serves an access.
#[inline(always)]
pub fn serves(e: u64, kind: Access, user: bool) -> bool
    ensures { result ≡ serves (unpack e) kind user }
{
    (!user | (e / 2 % 2 == 1)) & (!paging::writes(kind) | (e % 2 == 1))
}

// What one slot gives for a page: its frame, if its entry is counted, is of the page, and serves the access.
#[inline(always)]
pub fn slot(tlb: &[u64], i: usize, page: u64, kind: Access, user: bool) -> Option<u32>
    requires { Buffer tlb.now }
    ensures { result ≡ slot_hit tlb.now i page kind user }
{
    if i >= count(tlb) {
        return None;
    }
    let e = tlb[i];
    if (e / PAGE_UNIT == page) & serves(e, kind, user) {
        Some((e / FRAME_UNIT % FRAMES) as u32)
    } else {
        None
    }
}

// Where the entry of a page stands, or the count of entries.
pub fn lookup(tlb: &[u64], page: u64) -> usize
    requires { Buffer tlb.now }
    ensures { result ≡ index_of page (entries_in tlb.now) }
{
    let n = count(tlb);
    tlb[..n]
        .iter()
        .position(|e| e / PAGE_UNIT == page)
        .unwrap_or(n)
}

// Keeps an entry whose page was looked up at `i`: in the place of the same page's, or after the others, or alone where there is no more room.
pub fn keep(tlb: &mut [u64], i: usize, e: u64)
    requires { Buffer tlb.old × (i ≡ index_of (page_in e) (entries_in tlb.old)) }
    ensures { (lent tlb.new ≡ counted (keep (unpack e) (entries_in tlb.old)) (walks tlb.old)) × Buffer tlb.new }
{
    let n = count(tlb);
    if i < n {
        tlb[i] = e;
    } else if n == 64 {
        tlb[0] = e;
        tlb[64] = 1;
    } else {
        tlb[n] = e;
        tlb[64] = (n + 1) as u64;
    }
}

// Empties the buffer.
pub fn empty(tlb: &mut [u64])
    requires { Buffer tlb.old }
    ensures { (lent tlb.new ≡ counted [] (walks tlb.old)) × Buffer tlb.new }
{
    tlb[64] = 0;
}
