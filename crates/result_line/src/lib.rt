// Document 01, "Worked lines": the line that the run program prints.
#![tactic(auto)]

ghost use Rattle.std.specs.Prelude.{◌≤◌, length};
ghost use Rattle.rules.specs.Record.{stop_number};
ghost use Rattle.result_line.specs.Line.{refused_line, stop_line, Shows};
ghost use Rattle.result_line.specs.Program.{line_of};

use rules::{Regs, Stop};
use text::Writer;

// The line of an accepted load. The result is its length.
pub fn stop_line(line: &mut [u8], stop: Stop, steps: u64, r: Regs) -> usize
    requires { 169 ≤ length line.old }
    ensures { Shows (stop_line (stop_number stop) steps r) line.new result }
{
    let mut out = Writer::new(line);
    out.named(b"stop ", rules::stop_number(stop) as u64);
    out.named(b" steps ", steps);
    out.named(b" a ", r.a as u64);
    out.named(b" b ", r.b as u64);
    out.named(b" c ", r.c as u64);
    out.named(b" sp ", r.sp as u64);
    out.named(b" pc ", r.pc as u64);
    out.end()
}

// The line of a refused load. The result is its length.
pub fn refused_line(line: &mut [u8], number: u32) -> usize
    requires { 28 ≤ length line.old }
    ensures { Shows (refused_line number) line.new result }
{
    let mut out = Writer::new(line);
    out.named(b"refused ", number as u64);
    out.end()
}

// The line that the run program prints of an executable: loaded, and run with no keys and a budget of 100,000.
pub fn run_line(file: &[u8], memory: &mut [u8], console: &mut [u8], line: &mut [u8]) -> usize
    requires { 169 ≤ length line.old }
    ensures { Shows (line_of file.now memory.old console.old) line.new result }
{
    let loaded = loader::load(file, memory);
    if loaded.answer.is_err() {
        return refused_line(line, executable::load_number(loaded.answer));
    }
    let ran = v9::run_packed(loaded.machine, memory, console, b"", 100_000);
    let cpu = ran.machine.cpu;
    stop_line(line, cpu.stop, ran.steps, cpu.regs)
}
