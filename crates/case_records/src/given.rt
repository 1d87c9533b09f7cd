// reference/FORMAT.md, "A case of runs": the record, memory and console that a case gives.
use case_format::given::{SLOTS, long, numbers, place, put, put_chunks};
use paging::Entry;
use rules::Machine;

// The slots given, as many as there are, and empty ones after them.
fn slots_of(s: &[u8]) -> [Entry; 64] {
    let slots = s.get(SLOTS..).unwrap_or(b"");
    let count = place(s, 24).min(64).min(slots.len() / encoding::ENTRY);
    encoding::slots_at(slots, 0, count)
}

// The record.
pub fn machine_of(s: &[u8]) -> Machine {
    let taken = long(s, 40) as usize;
    let written = long(s, 48) as usize;
    Machine {
        cpu: record_numbers::record_of(numbers(s), taken, written),
        entries: slots_of(s),
        held: place(s, 20),
    }
}

// The first n bytes of what can be lent, or all of it.
pub fn first(most: &mut [u8], n: usize) -> &mut [u8] {
    let n = n.min(most.len());
    &mut most[..n]
}

// Memory and console as the case gives them. The result is what stands after the console's bytes.
pub fn lend<'a>(s: &'a [u8], mem: &mut [u8], con: &mut [u8]) -> &'a [u8] {
    mem.fill(0);
    con.fill(0);
    let chunks = s.get(SLOTS + 16 * place(s, 24)..).unwrap_or(b"");
    let rest = put_chunks(chunks, place(s, 28), mem);
    let Some((given, after)) = rest.split_at_checked(place(s, 32)) else {
        return rest;
    };
    put(given, 0, con);
    after
}
