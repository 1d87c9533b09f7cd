// Document 02, item 5: the header, and what follows from its counts: the offsets of the blocks, and the file's length.
ghost use Rattle.std.specs.Prelude.{◌+◌, ◌≤◌, ◌≡◌, length};
ghost use Rattle.text.specs.Adds.{Adds, Room};
ghost use Rattle.encoding.specs.Encoding.{encoded};
ghost use Rattle.machine_file.specs.Layout.{header_bytes, header_longs, header_of, console_at, memory_at, length_by, counts_of, Small};
ghost use Rattle.machine_file.specs.Judged.{counts_ok, offsets_ok, length_ok, Counted};

use crate::Counts;
use encoding::Width;
use rules::Machine;
use text::Writer;

// The bytes of the header, of the registers, and of a page.
pub const HEADER: usize = 28;

pub const REGISTERS: usize = 112;

pub const PAGE: usize = 4096;

// ---- what follows from the counts

// The offset of the console's bytes.
pub fn console_at(k: Counts) -> usize
    requires { Small k }
    ensures { result ≡ console_at k }
{
    HEADER + REGISTERS + encoding::ENTRY * k.entries
}

// The offset of memory.
pub fn memory_at(k: Counts) -> usize
    requires { Small k }
    ensures { result ≡ memory_at k }
{
    console_at(k) + k.console
}

// The length of the file.
pub fn length_by(k: Counts) -> usize
    requires { Small k }
    ensures { result ≡ length_by k }
{
    memory_at(k) + PAGE * k.pages
}

// ---- saving

// The counts of a machine in memory of `size` bytes.
pub fn counts_of(m: Machine, size: usize) -> Counts
    ensures { result ≡ counts_of m size }
{
    Counts {
        pages: size / PAGE,
        entries: m.held,
        console: m.cpu.written,
    }
}

// The header.
pub fn put_header(file: &mut Writer, k: Counts)
    requires { Small k × Room header_bytes file.old }
    ensures { Adds (encoded header_longs (header_of k)) file.old file.new }
{
    let widths = [Width::Four; 7];
    let numbers = [
        k.pages as u64,
        k.entries as u64,
        k.console as u64,
        HEADER as u64,
        (HEADER + REGISTERS) as u64,
        console_at(k) as u64,
        memory_at(k) as u64,
    ];
    encoding::put_numbers(file, &widths, &numbers);
}

// ---- reading

// The counts in a header.
pub fn counts_at(file: &[u8]) -> Counts
    requires { header_bytes ≤ length file.now }
    ensures { Counted file.now result }
{
    Counts {
        pages: memory::load4(file, 0) as usize,
        entries: memory::load4(file, 4) as usize,
        console: memory::load4(file, 8) as usize,
    }
}

// Whether counts pass refusal 14, for memory and console of these sizes.
pub fn counts_ok(size: usize, capacity: usize, k: Counts) -> bool
    requires { Small k }
    ensures { result ≡ counts_ok size capacity k }
{
    (k.pages * PAGE == size) & (k.entries <= 64) & (k.console <= capacity)
}

// Whether the offsets in a header follow from its counts: refusal 15.
pub fn offsets_ok(file: &[u8], k: Counts) -> bool
    requires { Small k × (header_bytes ≤ length file.now) }
    ensures { result ≡ offsets_ok file.now k }
{
    (memory::load4(file, 12) as usize == HEADER)
        & (memory::load4(file, 16) as usize == HEADER + REGISTERS)
        & (memory::load4(file, 20) as usize == console_at(k))
        & (memory::load4(file, 24) as usize == memory_at(k))
}

// Whether a file's length does: refusal 15.
pub fn length_ok(length: usize, k: Counts) -> bool
    requires { Small k }
    ensures { result ≡ length_ok length k }
{
    length == length_by(k)
}
