// Document 01, "The record and the loaded program": what a load gives.
#![tactic(auto)]

ghost use Rattle.std.specs.Prelude.{◌≡◌, length};
ghost use Rattle.executable.specs.Executable.{body_of};
ghost use Rattle.rules.specs.Load.{cpu_with, empty_machine, image};
ghost use Rattle.loader.specs.Loader.{Loadable, LoadsAs};

use executable::LoadRefusal;
use paging::{Entry, Space};
use rules::{Clock, Cpu, Floats, Machine, Model, Pending, Regs, Stop, System};

// What a load gives beside memory: its answer, and the record.
#[derive(Clone, Copy)]
pub struct Loaded {
    // Beside the record, which a refused load gives too: `LoadsAs` says that it is all zero.
    pub answer: Result<(), LoadRefusal>,
    pub machine: Machine,
}

// The record without the buffer: 0 but for three numbers.
pub fn cpu_with(sp: u32, pc: u32, kbchar: u32) -> Cpu
    ensures { result ≡ cpu_with sp pc kbchar }
{
    Cpu {
        regs: Regs {
            a: 0,
            b: 0,
            c: 0,
            sp,
            pc,
            count: 0,
        },
        clock: Clock {
            timer: 0,
            timeout: 0,
            kbchar,
            taken: 0,
            pending: Pending {
                key: false,
                timer: false,
            },
        },
        vadr: 0,
        space: Space {
            pdir: 0,
            paging: false,
        },
        system: System {
            usp: 0,
            ksp: 0,
            ivec: 0,
            user: false,
            iena: false,
            waiting: false,
        },
        cause: None,
        stop: Stop::Running,
        written: 0,
        model: Model { doubles: false },
        floats: Floats { f: 0, g: 0 },
    }
}

// A record whose buffer is empty.
pub fn empty_machine(c: Cpu) -> Machine
    ensures { result ≡ empty_machine c }
{
    Machine {
        cpu: c,
        entries: [Entry {
            page: 0,
            frame: 0,
            user: false,
            write: false,
        }; 64],
        held: 0,
    }
}

// The body of a file at address 0, and zeros after it.
fn fill(file: &[u8], mem: &mut [u8])
    requires { Loadable (length mem.old) file.now }
    ensures { mem.new ≡ image (length mem.old) (body_of file.now) }
{
    let body = &file[16..];
    mem[..body.len()].copy_from_slice(body);
    mem[body.len()..].fill(0);
}

// A file is loaded, or refused: then memory keeps its bytes.
pub fn load(file: &[u8], mem: &mut [u8]) -> Loaded
    ensures { LoadsAs file.now mem.old result mem.new }
{
    let size = mem.len();
    let answer = executable::judge(size, file);
    if answer.is_err() {
        return Loaded {
            answer,
            machine: empty_machine(cpu_with(0, 0, 0)),
        };
    }
    fill(file, mem);
    let entry = memory::load4(file, 8);
    Loaded {
        answer,
        machine: empty_machine(cpu_with(size as u32, entry, 0xFFFF_FFFF)),
    }
}
