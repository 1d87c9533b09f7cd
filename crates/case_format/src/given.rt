// reference/FORMAT.md, "Cases": numbers of a case's bytes, and its chunks.
ghost use Rattle.std.specs.Prelude.{◌<◌, ◌≤◌, ◌^◌, length, IfSome};

// How many numbers the record has, and the place after them, where the slots begin.
pub const NUMBERS: usize = 25;

pub const SLOTS: usize = 60 + 8 * NUMBERS;

// A byte.
pub fn byte(s: &[u8], at: usize) -> u8 {
    s.get(at).copied().unwrap_or(0)
}

// A number of four bytes.
pub fn word(s: &[u8], at: usize) -> u32 {
    s.get(at..)
        .and_then(|rest| rest.first_chunk())
        .map_or(0, |bytes| u32::from_le_bytes(*bytes))
}

// A number of four bytes, as a length or a place: below 2 to the 32.
pub fn place(s: &[u8], at: usize) -> usize
    ensures { result < 2 ^ 32 }
{
    word(s, at) as usize
}

// A number of eight bytes.
pub fn long(s: &[u8], at: usize) -> u64 {
    let Some(rest) = s.get(at..) else {
        return 0;
    };
    u64::from(word(rest, 0)) | u64::from(word(rest, 4)) << 32
}

// The record's numbers.
pub fn numbers(s: &[u8]) -> [u64; NUMBERS] {
    std::array::from_fn(|i| long(s, 60 + 8 * i))
}

// Bytes of a memory, and where they go.
#[derive(Clone, Copy)]
pub struct Chunk<'a> {
    pub start: u32,
    pub bytes: &'a [u8],
}

impl<'a> Chunk<'a> {
    // The chunk that bytes begin with, and the bytes after it.
    pub fn split_off(s: &'a [u8]) -> Option<(Chunk<'a>, &'a [u8])>
        ensures { IfSome result (λ parts. length parts.1.now ≤ length s.now) }
    {
        let (bytes, rest) = s.get(8..)?.split_at_checked(place(s, 4))?;
        let start = word(s, 0);
        Some((Chunk { start, bytes }, rest))
    }
}

// A run's keys, nine bytes each, and its budget.
#[derive(Clone, Copy)]
pub struct Run<'a> {
    pub keys: &'a [u8],
    pub budget: u64,
}

impl<'a> Run<'a> {
    // The run that bytes begin with, and the bytes after it.
    pub fn split_off(s: &'a [u8]) -> Option<(Run<'a>, &'a [u8])> {
        let (keys, rest) = s.get(4..)?.split_at_checked(9 * place(s, 0))?;
        let budget = long(rest, 0);
        Some((Run { keys, budget }, rest.get(8..)?))
    }
}

// The chunks that bytes begin with, put into memory. The result is the bytes after them.
pub fn put_chunks<'a>(s: &'a [u8], count: usize, mem: &mut [u8]) -> &'a [u8] {
    let mut rest = s;
    for _ in 0..count {
        let Some((chunk, after)) = Chunk::split_off(rest) else {
            break;
        };
        put(chunk.bytes, chunk.start as usize, mem);
        rest = after;
    }
    rest
}

// Bytes put where they go, if they fit there.
pub fn put(bytes: &[u8], at: usize, to: &mut [u8]) {
    if at <= to.len() && bytes.len() <= to.len() - at {
        to[at..at + bytes.len()].copy_from_slice(bytes);
    }
}
