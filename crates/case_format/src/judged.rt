// reference/FORMAT.md, "The last line": a case is judged whole before any of it is run, by its bytes alone.
ghost use Rattle.std.specs.Prelude.{◌≤◌, length, IfSome};

use crate::given::{Chunk, NUMBERS, Run, SLOTS, numbers, place, word};

// Why a stream goes no further.
#[derive(Clone, Copy)]
pub enum Ended {
    // Nothing more.
    End,
    // Less than a case.
    Cut,
    // A case beyond the bounds.
    Bounds,
    // A case whose parts contradict each other.
    Malformed,
}

// What a case asks for.
#[derive(Clone, Copy)]
pub enum Kind {
    Runs,
    Load,
}

impl TryFrom<u32> for Kind {
    type Error = Ended;

    fn try_from(number: u32) -> Result<Kind, Ended> {
        match number {
            1 => Ok(Kind::Runs),
            2 => Ok(Kind::Load),
            _ => Err(Ended::Malformed),
        }
    }
}

// What must hold, or the stream ends.
pub fn ensure(holds: bool, otherwise: Ended) -> Result<(), Ended> {
    if holds { Ok(()) } else { Err(otherwise) }
}

const WORD: u64 = 0xFFFF_FFFF;

const LONG: u64 = 0xFFFF_FFFF_FFFF_FFFF;

// The largest values of the record's numbers: words, flags and marks, the stop reason, the cause, the step count, the mode, f and g.
const LARGEST: [u64; NUMBERS] = [
    WORD, WORD, WORD, WORD, WORD, WORD, WORD, WORD, WORD, WORD, WORD, WORD, WORD, 1, 1, 1, 1, 1, 1,
    3, 7, LONG, 1, LONG, LONG,
];

// Whether the numbers of the record fit their fields.
fn numbers_fit(s: &[u8]) -> bool {
    numbers(s)
        .iter()
        .zip(&LARGEST)
        .all(|(n, largest)| n <= largest)
}

// Whether the rights of the slots are 0 or 1.
fn rights_fit(slots: &[u8]) -> bool {
    slots
        .chunks_exact(16)
        .all(|slot| word(slot, 8) <= 1 && word(slot, 12) <= 1)
}

// The bytes after the chunks that s begins with, if these rise within `size` bytes.
pub fn after_chunks(s: &[u8], count: usize, size: usize) -> Option<&[u8]>
    ensures { IfSome result (λ rest. length rest.now ≤ length s.now) }
{
    let mut rest = s;
    let mut free = 0;
    for _ in 0..count {
        let (chunk, after) = Chunk::split_off(rest)?;
        let start = chunk.start as usize;
        if start < free || size < start + chunk.bytes.len() {
            return None;
        }
        free = start + chunk.bytes.len();
        rest = after;
    }
    Some(rest)
}

// The bytes after the machine that a case or a call gives, its numbers, slots, chunks and the console's bytes, if these don't contradict each other or the tables.
pub fn after_machine(s: &[u8]) -> Option<&[u8]> {
    if 64 < place(s, 24) || word(s, 16) < word(s, 32) || place(s, 56) != NUMBERS {
        return None;
    }
    let (slots, chunks) = s.get(SLOTS..)?.split_at_checked(16 * place(s, 24))?;
    if !numbers_fit(s) || !rights_fit(slots) {
        return None;
    }
    after_chunks(chunks, place(s, 28), place(s, 12))?.get(place(s, 32)..)
}

// Runs, as many as there are to be.
fn judge_list(s: &[u8], count: usize) -> Result<(), Ended> {
    let mut rest = s;
    for _ in 0..count {
        ensure(place(rest, 0) <= 64, Ended::Bounds)?;
        let (_, after) = Run::split_off(rest).ok_or(Ended::Malformed)?;
        rest = after;
    }
    ensure(rest.is_empty(), Ended::Malformed)
}

// A case of runs: bounds, the machine, the runs.
fn judge_runs(s: &[u8]) -> Result<(), Ended> {
    ensure(60 <= s.len(), Ended::Malformed)?;
    ensure(
        word(s, 12) <= 2_097_152 && word(s, 16) <= 4096 && word(s, 36) <= 64,
        Ended::Bounds,
    )?;
    let entries = word(s, 8);
    ensure(0 < entries && entries <= 15, Ended::Malformed)?;
    let runs = after_machine(s).ok_or(Ended::Malformed)?;
    judge_list(runs, place(s, 36))
}

// A case of loading.
fn judge_load(s: &[u8]) -> Result<(), Ended> {
    ensure(20 <= s.len(), Ended::Malformed)?;
    ensure(word(s, 8) <= 2_097_152, Ended::Bounds)?;
    ensure(
        word(s, 12) < 256 && 20 + place(s, 16) == s.len(),
        Ended::Malformed,
    )
}

// A case: its kind, if it is one.
pub fn judge(s: &[u8]) -> Result<Kind, Ended> {
    let kind = Kind::try_from(word(s, 4))?;
    match kind {
        Kind::Runs => judge_runs(s)?,
        Kind::Load => judge_load(s)?,
    }
    Ok(kind)
}
