// Document 02, item 5: the parts of a saved machine's file, over a slice from a place on: numbers of four bytes or of eight, and entries of the page buffer.
#![tactic(auto)]

ghost use Rattle.std.specs.Prelude.{◌+◌, ◌*◌, ◌^◌, ◌≤◌, ◌<◌, ◌≡◌, length, take};
ghost use Rattle.memory.specs.Memory.{load_n};
ghost use Rattle.text.specs.Adds.{Adds, Room};
ghost use Rattle.encoding.specs.Encoding.{width, widths, little_endian, encoded, Decoded};
ghost use Rattle.encoding.specs.Entries.{entry_longs, entry_bytes, entry_numbers, encoded_entries, entry_in, rights_are, rights_ok, slots_in};

use paging::Entry;
use record_numbers::flag;
use text::Writer;

// The bytes of an entry.
pub const ENTRY: usize = 16;

// ---- numbers

// The bytes that a number takes.
#[derive(Clone, Copy)]
pub enum Width {
    Four,
    Eight,
}

impl Width {
    fn bytes(self) -> usize
        ensures { result ≡ width self }
    {
        match self {
            Width::Four => 4,
            Width::Eight => 8,
        }
    }
}

// A number, in its width.
fn put_number(file: &mut Writer, w: Width, v: u64)
    requires { Room (width w) file.old }
    ensures { Adds (little_endian (width w) v) file.old file.new }
{
    match w {
        Width::Four => file.put(&((v % 0x1_0000_0000) as u32).to_le_bytes()),
        Width::Eight => file.put(&v.to_le_bytes()),
    }
}

// The number at a place.
fn number_at(file: &[u8], at: usize, w: Width) -> u64
    requires { at + width w ≤ length file.now }
    ensures { (result ≡ load_n (width w) file.now at) × (result < 256 ^ width w) }
{
    match w {
        Width::Four => memory::load4(file, at) as u64,
        Width::Eight => memory::load8(file, at),
    }
}

// The numbers and their widths are lists side by side, as in `encoded` and `decoded`; the widths alone say how numbers are read.

// Numbers, each in its width.
pub fn put_numbers(file: &mut Writer, ws: &[Width], numbers: &[u64])
    requires { (length numbers.now ≡ length ws.now) × Room (widths ws.now) file.old }
    ensures { Adds (encoded ws.now numbers.now) file.old file.new }
{
    for (i, w) in ws.iter().enumerate() {
        put_number(file, *w, numbers[i]);
    }
}

// The numbers from a place on.
pub fn numbers_at(file: &[u8], at: usize, ws: &[Width], numbers: &mut [u64])
    requires { (length numbers.old ≡ length ws.now) × (at + widths ws.now ≤ length file.now) }
    ensures { Decoded ws.now file.now at numbers.new }
{
    let mut p = at;
    for (i, w) in ws.iter().enumerate() {
        numbers[i] = number_at(file, p, *w);
        p += w.bytes();
    }
}

// ---- entries

// An entry.
fn put_entry(file: &mut Writer, e: Entry)
    requires { Room entry_bytes file.old }
    ensures { Adds (encoded entry_longs (entry_numbers e)) file.old file.new }
{
    let widths = [Width::Four; 4];
    let numbers = [e.page as u64, e.frame as u64, flag(e.user), flag(e.write)];
    put_numbers(file, &widths, &numbers);
}

// The first n slots.
pub fn put_entries(file: &mut Writer, slots: [Entry; 64], n: usize)
    requires { (n ≤ 64) × Room (entry_bytes * n) file.old }
    ensures { Adds (encoded_entries (take n slots)) file.old file.new }
{
    for i in 0..n {
        put_entry(file, slots[i]);
    }
}

// The entry at a place.
fn entry_at(file: &[u8], at: usize) -> Entry
    requires { at + entry_bytes ≤ length file.now }
    ensures { result ≡ entry_in file.now at }
{
    Entry {
        page: memory::load4(file, at),
        frame: memory::load4(file, at + 4),
        user: memory::load4(file, at + 8) == 1,
        write: memory::load4(file, at + 12) == 1,
    }
}

// Slots with the n entries from a place on, and zeros after them.
pub fn slots_at(file: &[u8], at: usize, n: usize) -> [Entry; 64]
    requires { (n ≤ 64) × (at + entry_bytes * n ≤ length file.now) }
    ensures { result ≡ slots_in n file.now at }
{
    let mut slots = [Entry {
        page: 0,
        frame: 0,
        user: false,
        write: false,
    }; 64];
    for i in 0..n {
        slots[i] = entry_at(file, at + ENTRY * i);
    }
    slots
}

// Whether the rights of the entry at a place are 0 or 1.
fn rights_are(file: &[u8], at: usize) -> bool
    requires { at + entry_bytes ≤ length file.now }
    ensures { result ≡ rights_are file.now at }
{
    (memory::load4(file, at + 8) <= 1) & (memory::load4(file, at + 12) <= 1)
}

// Whether those of the n entries from a place on are.
pub fn rights_ok(file: &[u8], at: usize, n: usize) -> bool
    requires { (n ≤ 64) × (at + entry_bytes * n ≤ length file.now) }
    ensures { result ≡ rights_ok n file.now at }
{
    for i in 0..n {
        if !rights_are(file, at + ENTRY * i) {
            return false;
        }
    }
    true
}
