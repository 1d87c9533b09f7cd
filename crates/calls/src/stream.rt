// reference/CALLS.md: the calls of a stream, and the line after the last.
use crate::listings::{show_lines, show_read};
use crate::machines::{show_restored, show_saved};
use case_format::given::{place, word};
use case_format::judged::{Ended, after_chunks, after_machine, ensure};
use case_format::stream::answer_each;

#[derive(Clone, Copy)]
enum Kind {
    Lines,
    LineRead,
    Saved,
    Restored,
}

impl TryFrom<u32> for Kind {
    type Error = Ended;

    fn try_from(number: u32) -> Result<Kind, Ended> {
        match number {
            1 => Ok(Kind::Lines),
            2 => Ok(Kind::LineRead),
            3 => Ok(Kind::Saved),
            4 => Ok(Kind::Restored),
            _ => Err(Ended::Malformed),
        }
    }
}

// ---- a call, by its bytes alone

// Lines of a listing.
fn judge_lines(s: &[u8]) -> Result<(), Ended> {
    ensure(24 <= s.len(), Ended::Malformed)?;
    ensure(word(s, 16) <= 8193, Ended::Bounds)?;
    ensure(24 + place(s, 20) == s.len(), Ended::Malformed)
}

// A listed line read back.
fn judge_line(s: &[u8]) -> Result<(), Ended> {
    ensure(
        12 <= s.len() && 12 + place(s, 8) == s.len(),
        Ended::Malformed,
    )
}

// The file, memory and console of a call on a machine.
fn judge_lent(s: &[u8]) -> Result<(), Ended> {
    ensure(
        word(s, 8) <= 139_264 && word(s, 12) <= 131_072 && word(s, 16) <= 4096,
        Ended::Bounds,
    )
}

// A machine saved.
fn judge_saved(s: &[u8]) -> Result<(), Ended> {
    ensure(60 <= s.len(), Ended::Malformed)?;
    judge_lent(s)?;
    let rest = after_machine(s).ok_or(Ended::Malformed)?;
    ensure(word(s, 36) < 256 && rest.is_empty(), Ended::Malformed)
}

// A saved machine read.
fn judge_restored(s: &[u8]) -> Result<(), Ended> {
    let chunks = s.get(28..).ok_or(Ended::Malformed)?;
    judge_lent(s)?;
    let rest = after_chunks(chunks, place(s, 24), place(s, 8)).ok_or(Ended::Malformed)?;
    ensure(word(s, 20) < 256 && rest.is_empty(), Ended::Malformed)
}

// A call: its kind, if it is one.
fn judge(s: &[u8]) -> Result<Kind, Ended> {
    let kind = Kind::try_from(word(s, 4))?;
    match kind {
        Kind::Lines => judge_lines(s)?,
        Kind::LineRead => judge_line(s)?,
        Kind::Saved => judge_saved(s)?,
        Kind::Restored => judge_restored(s)?,
    }
    Ok(kind)
}

// ---- the calls one after another

// All calls, to the first that is broken or the end. The arrays are made once, as a call uses no more of them than it says.
pub fn answer() {
    let mut memory = [0; 131_072];
    let mut console = [0; 4096];
    let mut file = [0; 139_264];
    answer_each(|s, no| {
        match judge(s)? {
            Kind::Lines => show_lines(s, no),
            Kind::LineRead => show_read(s, no),
            Kind::Saved => show_saved(s, no, &mut memory, &mut console, &mut file),
            Kind::Restored => show_restored(s, no, &mut memory, &mut console, &mut file),
        }
        Ok(())
    });
}
