// A program that links the emulator (README.md, "Linking the library"): it loads an executable, runs it until a key comes, makes two single steps, runs it to
// its end, and is refused once. What it calls has no `requires`, so that it is proved without a line of proof.
#![tactic(auto)]

use rules::{Cpu, Machine};
use runs::RunResult;

// An executable that waits for a digit, puts it on the console and leaves 1,200 times its value in a. After the header (magic, bss, entry, data start) a line
// for each instruction, the lowest byte first:
//
//    00 LI 16        a = the handler's address
//    04 IVEC         ivec = a
//    08 STI          interrupts come from now on
//    0c IDLE         waits for one
//    10 BIN          the handler: a = the key's byte
//    14 LBA          b = a
//    18 BOUT         b to the console; a = 1
//    1c PSHB
//    20 POPA         a = b
//    24 SUBI 48      the digit's value
//    28 MULI 1200
//    2c HALT
const FILE: [u8; 64] = *b"\x0d\xf0\xde\xc0\0\0\0\0\0\0\0\0\x30\0\0\0\
    \x23\x10\0\0\
    \xa4\0\0\0\
    \x97\0\0\0\
    \xd1\0\0\0\
    \x99\0\0\0\
    \x3e\0\0\0\
    \x9a\0\0\0\
    \xa0\0\0\0\
    \xa3\0\0\0\
    \x57\x30\0\0\
    \x5a\xb0\x04\0\
    \0\0\0\0";

const CONSOLE: usize = 16;

fn number(name: &[u8], n: u64) {
    io::write_all(1, name);
    io::print_decimal(1, n);
}

fn show_registers(cpu: Cpu) {
    number(b" stop ", u64::from(rules::stop_number(cpu.stop)));
    number(b" a ", u64::from(cpu.regs.a));
    number(b" b ", u64::from(cpu.regs.b));
    number(b" c ", u64::from(cpu.regs.c));
    number(b" sp ", u64::from(cpu.regs.sp));
    number(b" pc ", u64::from(cpu.regs.pc));
}

// The bytes that the machine wrote. A run never counts more of them than the console has.
fn show_console(console: &[u8], written: usize) {
    io::write_all(1, b" console ");
    if let Some(bytes) = console.get(..written) {
        io::write_all(1, bytes);
    }
    io::write_all(1, b"\n");
}

fn show(what: &[u8], ran: &RunResult, console: &[u8]) {
    io::write_all(1, what);
    number(b": answer ", u64::from(rules::run_number(ran.answer)));
    number(b" steps ", ran.steps);
    show_registers(ran.machine.cpu);
    show_console(console, ran.machine.cpu.written);
}

// A run, and its line. Its one key is the digit 8, in step 10: nine bytes, eight of the step number, the lowest first, and the key's. Each run gets the whole
// list, since the record knows how many were taken.
fn run(what: &[u8], m: Machine, memory: &mut [u8], console: &mut [u8], budget: u64) -> Machine {
    let ran = v9::run_packed(m, memory, console, b"\x0a\0\0\0\0\0\0\0\x38", budget);
    show(what, &ran, console);
    ran.machine
}

// A single step is a run of budget 1. `v9::single_step` makes it over the caller's own record, with keys as structs (`entry_calls::made` calls it); here the
// record goes by value, and the keys are packed.
fn step(m: Machine, memory: &mut [u8], console: &mut [u8]) -> Machine {
    run(b"step", m, memory, console, 1)
}

fn main() {
    let mut memory = [0; 4096];
    let mut console = [0; CONSOLE];
    let loaded = loader::load(&FILE, &mut memory);
    number(
        b"load: answer ",
        u64::from(executable::load_number(loaded.answer)),
    );
    io::write_all(1, b"\n");
    let waiting = run(b"wait", loaded.machine, &mut memory, &mut console, 9);
    let trapped = step(waiting, &mut memory, &mut console);
    let read = step(trapped, &mut memory, &mut console);
    let halted = run(b"end", read, &mut memory, &mut console, 1_000_000);
    // One above the largest budget. The record, memory and console stay as they are.
    run(b"refused", halted, &mut memory, &mut console, 1_000_001);
}
