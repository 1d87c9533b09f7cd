// Document 02, item 5: a machine carried in a file: saved, and read back. Everything is judged before anything is written.
#![tactic(auto)]

ghost use Rattle.std.specs.Prelude.{◌≡◌, ◌<◌, ◌^◌, length};
ghost use Rattle.text.specs.Written.{Written};
ghost use Rattle.machine_file.specs.Layout.{file_of};
ghost use Rattle.snapshot.specs.Saving.{save_number, save_answer};
ghost use Rattle.snapshot.specs.Reading.{read_number, read_answer};
ghost use Rattle.snapshot.specs.Contract.{SavesAs, ReadsAs, Savable, Readable, Unpacked};

use machine_file::Counts;
use machine_file::layout::{
    HEADER, console_at, counts_at, counts_of, counts_ok, length_by, length_ok, memory_at,
    offsets_ok, put_header,
};
use machine_file::registers::{machine_at, put_registers, record_ok};
use rules::Machine;
use text::Writer;

// Why a save is refused, by number.
#[derive(Clone, Copy, Debug, PartialEq, Eq)]
pub enum SaveRefusal {
    BadSize = 1,
    BadRegisters = 2,
    BadBuffer = 3,
    BadConsole = 5,
    ShortFile = 13, // shorter than the result
    BadOffset = 15, // of 2^32 or more
}

// Why a read is refused, by number.
#[derive(Clone, Copy, Debug, PartialEq, Eq)]
pub enum ReadRefusal {
    BadSize = 1,
    ShortFile = 13, // shorter than its header
    BadCounts = 14,
    BadOffsets = 15, // one of them, or the length, does not follow from the counts
    BadRecord = 16,
}

// What saving gives beside the file: its answer, and the file's length, 0 when refused.
#[derive(Clone, Copy)]
pub struct Saved {
    // Beside the length, which a refused save gives too: `SavesAs`.
    pub answer: Result<(), SaveRefusal>,
    pub length: usize,
}

// What reading gives beside memory and console: its answer, and the record.
#[derive(Clone, Copy)]
pub struct Restored {
    // Beside the record, which a refused read gives too: `ReadsAs` says that it is all zero.
    pub answer: Result<(), ReadRefusal>,
    pub machine: Machine,
}

// The number of an answer, 0 of an accepted save.
pub fn save_number(a: Result<(), SaveRefusal>) -> u32
    ensures { result ≡ save_number a }
{
    match a {
        Ok(()) => 0,
        Err(refusal) => refusal as u32,
    }
}

// The number of an answer, 0 of an accepted read.
pub fn read_number(a: Result<(), ReadRefusal>) -> u32
    ensures { result ≡ read_number a }
{
    match a {
        Ok(()) => 0,
        Err(refusal) => refusal as u32,
    }
}

// The first refusal that holds of a save, or its acceptance, by the lengths of what is lent.
fn judge_save(m: Machine, size: usize, capacity: usize, room: usize) -> Result<(), SaveRefusal>
    requires { capacity < 2 ^ 63 }
    ensures { result ≡ save_answer m size capacity room }
{
    if !memory::size_ok(size) {
        return Err(SaveRefusal::BadSize);
    }
    if !refusals::registers_ok(size, m.cpu) {
        return Err(SaveRefusal::BadRegisters);
    }
    if !refusals::slots_ok(m, size) {
        return Err(SaveRefusal::BadBuffer);
    }
    if capacity < m.cpu.written {
        return Err(SaveRefusal::BadConsole);
    }
    let k = counts_of(m, size);
    if room < length_by(k) {
        return Err(SaveRefusal::ShortFile);
    }
    if memory_at(k) >= 0x1_0000_0000 {
        return Err(SaveRefusal::BadOffset);
    }
    Ok(())
}

// The first refusal that holds of a read, or its acceptance, for memory and console of these sizes.
pub fn judge_read(file: &[u8], size: usize, capacity: usize) -> Result<(), ReadRefusal>
    ensures { result ≡ read_answer file.now size capacity }
{
    if !memory::size_ok(size) {
        return Err(ReadRefusal::BadSize);
    }
    if file.len() < HEADER {
        return Err(ReadRefusal::ShortFile);
    }
    let k = counts_at(file);
    if !counts_ok(size, capacity, k) {
        return Err(ReadRefusal::BadCounts);
    }
    if !(offsets_ok(file, k) & length_ok(file.len(), k)) {
        return Err(ReadRefusal::BadOffsets);
    }
    if !record_ok(size, file, k) {
        return Err(ReadRefusal::BadRecord);
    }
    Ok(())
}

// All blocks, one after another. The result is the length.
fn write(m: Machine, memory: &[u8], console: &[u8], file: &mut [u8]) -> usize
    requires { Savable m memory.now console.now file.old }
    ensures { Written (file_of m memory.now console.now) file.old 0 file.new result }
{
    let mut out = Writer::new(file);
    put_header(&mut out, counts_of(m, memory.len()));
    put_registers(&mut out, m.cpu);
    encoding::put_entries(&mut out, m.entries, m.held);
    out.put(&console[..m.cpu.written]);
    out.put(memory);
    out.end()
}

// A machine is saved, or refused: then the file keeps its bytes.
pub fn save(m: Machine, memory: &[u8], console: &[u8], file: &mut [u8]) -> Saved
    ensures { SavesAs m memory.now console.now file.old result file.new }
{
    let answer = judge_save(m, memory.len(), console.len(), file.len());
    if answer.is_err() {
        return Saved { answer, length: 0 };
    }
    let length = write(m, memory, console, file);
    Saved { answer, length }
}

// The blocks of console and memory, put where they belong.
fn unpack(file: &[u8], k: Counts, memory: &mut [u8], console: &mut [u8])
    requires { Readable file.now memory.old console.old k }
    ensures { Unpacked file.now k console.old memory.new console.new }
{
    let from = console_at(k);
    let to = memory_at(k);
    console[..k.console].copy_from_slice(&file[from..to]);
    memory.copy_from_slice(&file[to..]);
}

// A file is read, or refused: then memory and console keep their bytes.
pub fn read(file: &[u8], memory: &mut [u8], console: &mut [u8]) -> Restored
    ensures { ReadsAs file.now memory.old console.old result memory.new console.new }
{
    let answer = judge_read(file, memory.len(), console.len());
    if answer.is_err() {
        return Restored {
            answer,
            machine: loader::empty_machine(loader::cpu_with(0, 0, 0)),
        };
    }
    let k = counts_at(file);
    unpack(file, k, memory, console);
    Restored {
        answer,
        machine: machine_at(file, k),
    }
}
