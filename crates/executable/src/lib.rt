// Document 01, "Numbers returned": a load's refusals, apart from any machine.
#![tactic(auto)]

ghost use Rattle.std.specs.Prelude.{◌≡◌, ◌+◌, ◌-◌};
ghost use Rattle.executable.specs.Executable.{load_number, body_ok, entry_ok, load_answer};

// Why a load is refused, by number.
#[derive(Clone, Copy, Debug, PartialEq, Eq)]
pub enum LoadRefusal {
    BadSize = 1,
    ShortFile = 7,
    BadMagic = 8,
    BadBody = 9,
    BadDataStart = 10,
    BadEntry = 11,
}

// The number of an answer, 0 of an accepted load.
pub fn load_number(answer: Result<(), LoadRefusal>) -> u32
    ensures { result ≡ load_number answer }
{
    match answer {
        Ok(()) => 0,
        Err(refusal) => refusal as u32,
    }
}

// The body is there, and fits.
fn body_ok(size: usize, body: usize) -> bool
    ensures { result ≡ body_ok size body }
{
    (0 < body) & (body <= size)
}

// The first instruction stands on a word, before the data.
fn entry_ok(entry: u32, start: u32) -> bool
    ensures { result ≡ entry_ok entry start }
{
    (entry % 4 == 0) & (entry as u64 + 4 <= start as u64)
}

// Whether a file may be loaded into a memory of this size.
pub fn judge(size: usize, file: &[u8]) -> Result<(), LoadRefusal>
    ensures { result ≡ load_answer size file.now }
{
    if !memory::size_ok(size) {
        return Err(LoadRefusal::BadSize);
    }
    let len = file.len();
    if len < 16 {
        return Err(LoadRefusal::ShortFile);
    }
    if memory::load4(file, 0) != 0xC0DE_F00D {
        return Err(LoadRefusal::BadMagic);
    }
    if !body_ok(size, len - 16) {
        return Err(LoadRefusal::BadBody);
    }
    let start = memory::load4(file, 12);
    if len - 16 < start as usize {
        return Err(LoadRefusal::BadDataStart);
    }
    if !entry_ok(memory::load4(file, 8), start) {
        return Err(LoadRefusal::BadEntry);
    }
    Ok(())
}
