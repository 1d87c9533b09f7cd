// Document 02, item 5: the blocks of registers and of entries, as a record, and refusal 16.
ghost use Rattle.std.specs.Prelude.{◌≤◌, ◌≡◌, length};
ghost use Rattle.rules.specs.Numbers.{numbers_of};
ghost use Rattle.text.specs.Adds.{Adds, Room};
ghost use Rattle.encoding.specs.Encoding.{encoded, Decoded};
ghost use Rattle.machine_file.specs.Layout.{register_bytes, register_longs, registers_at, entries_at};
ghost use Rattle.machine_file.specs.Judged.{cpu_in, machine_in, numbers_ok, record_ok, Held};

use crate::Counts;
use crate::layout::{HEADER, REGISTERS};
use encoding::Width;
use encoding::Width::{Eight, Four};
use record_numbers::NUMBERS;
use rules::{Cpu, Machine};
use text::Writer;

// Which of the numbers take eight bytes: the step count, f and g.
const WIDTHS: [Width; NUMBERS] = [
    Four, Four, Four, Four, Four, Four, Four, Four, Four, Four, Four, Four, Four, Four, Four, Four,
    Four, Four, Four, Four, Four, Eight, Four, Eight, Eight,
];

// The registers.
pub fn put_registers(file: &mut Writer, c: Cpu)
    requires { Room register_bytes file.old }
    ensures { Adds (encoded register_longs (numbers_of c)) file.old file.new }
{
    let numbers = record_numbers::numbers_of(c);
    encoding::put_numbers(file, &WIDTHS, &numbers);
}

// The registers' numbers.
fn numbers_in(file: &[u8]) -> [u64; NUMBERS]
    requires { entries_at ≤ length file.now }
    ensures { Decoded register_longs file.now registers_at result }
{
    let mut numbers = [0u64; NUMBERS];
    encoding::numbers_at(file, HEADER, &WIDTHS, &mut numbers);
    numbers
}

// Whether flags, marks and the mode are 0 or 1, and stop reason and cause have a meaning.
fn numbers_ok(n: [u64; NUMBERS]) -> bool
    ensures { result ≡ numbers_ok n }
{
    (n[13] <= 1)
        & (n[14] <= 1)
        & (n[15] <= 1)
        & (n[16] <= 1)
        & (n[17] <= 1)
        & (n[18] <= 1)
        & (n[19] <= 3)
        & (n[20] <= 7)
        & (n[22] <= 1)
}

// The record without the page buffer, no keys taken.
fn cpu_at(file: &[u8], k: Counts) -> Cpu
    requires { entries_at ≤ length file.now }
    ensures { result ≡ cpu_in file.now k }
{
    record_numbers::record_of(numbers_in(file), 0, k.console)
}

// The record of a file with these counts.
pub fn machine_at(file: &[u8], k: Counts) -> Machine
    requires { Held file.now k }
    ensures { result ≡ machine_in file.now k }
{
    let cpu = cpu_at(file, k);
    let entries = encoding::slots_at(file, HEADER + REGISTERS, k.entries);
    Machine {
        cpu,
        entries,
        held: k.entries,
    }
}

// Whether the registers and entries of a file with these counts pass refusal 16, for memory of `size` bytes.
pub fn record_ok(size: usize, file: &[u8], k: Counts) -> bool
    requires { Held file.now k }
    ensures { result ≡ record_ok size file.now k }
{
    let numbers = numbers_ok(numbers_in(file));
    let rights = encoding::rights_ok(file, HEADER + REGISTERS, k.entries);
    let m = machine_at(file, k);
    let registers = refusals::registers_ok(size, m.cpu);
    let entries = refusals::slots_ok(m, size);
    numbers & rights & registers & entries
}
