// Memory: document 01, "What is emulated" and refusal 1.
#![tactic(auto)]

ghost use Rattle.std.specs.Prelude.{◌≡◌, ◌+◌, ◌≤◌, length};
ghost use Rattle.memory.specs.Memory.{load_n, store_n, bytes, size_ok};

// The size of an access. The rarest stands first: of a first variant that many instructions have, compilers clear a register in every step.
#[derive(Clone, Copy)]
pub enum Size {
    Byte,
    Half,
    Word,
}

// A load for each width, in its own type: one for all widths would leave thirty casts with their callers.

// One byte.
#[tactic(auto, unfolding(crate::specs::Memory::load_n))]
pub fn load1(mem: &[u8], at: usize) -> u8
    requires { at + 1 ≤ length mem.now }
    ensures { result ≡ load_n 1 mem.now at }
{
    mem[at]
}

// Two bytes, the lower one first.
#[tactic(auto, unfolding(crate::specs::Memory::load_n))]
pub fn load2(mem: &[u8], at: usize) -> u16
    requires { at + 2 ≤ length mem.now }
    ensures { result ≡ load_n 2 mem.now at }
{
    u16::from_le_bytes([mem[at], mem[at + 1]])
}

// Four bytes, the lowest first.
#[tactic(auto, unfolding(crate::specs::Memory::load_n))]
pub fn load4(mem: &[u8], at: usize) -> u32
    requires { at + 4 ≤ length mem.now }
    ensures { result ≡ load_n 4 mem.now at }
{
    u32::from_le_bytes([mem[at], mem[at + 1], mem[at + 2], mem[at + 3]])
}

// Eight bytes, the lowest first.
#[tactic(auto, unfolding(crate::specs::Memory::load_n))]
pub fn load8(mem: &[u8], at: usize) -> u64
    requires { at + 8 ≤ length mem.now }
    ensures { result ≡ load_n 8 mem.now at }
{
    u64::from_le_bytes([
        mem[at],
        mem[at + 1],
        mem[at + 2],
        mem[at + 3],
        mem[at + 4],
        mem[at + 5],
        mem[at + 6],
        mem[at + 7],
    ])
}

// The low N bytes of v, the lowest first.
pub fn store_bytes<const N: usize>(mem: &mut [u8], at: usize, v: u64)
    requires width { N ≤ 8 }
    requires within { at + N ≤ length mem.old }
    ensures { mem.new ≡ store_n N mem.old at v }
{
    mem[at..at + N].copy_from_slice(&v.to_le_bytes()[..N]);
}

// The bytes of a size as an unsigned number.
pub fn load(mem: &[u8], at: usize, size: Size) -> u32
    requires { at + bytes size ≤ length mem.now }
    ensures { result ≡ load_n (bytes size) mem.now at }
{
    match size {
        Size::Word => load4(mem, at),
        Size::Half => load2(mem, at) as u32,
        Size::Byte => load1(mem, at) as u32,
    }
}

// The low bytes of v, as many as the size has.
pub fn store(mem: &mut [u8], at: usize, size: Size, v: u32)
    requires { at + bytes size ≤ length mem.old }
    ensures { mem.new ≡ store_n (bytes size) mem.old at v }
{
    match size {
        Size::Word => store_bytes::<4>(mem, at, v as u64),
        Size::Half => store_bytes::<2>(mem, at, v as u64),
        Size::Byte => store_bytes::<1>(mem, at, v as u64),
    }
}

// The bytes of a page.
const PAGE: usize = 4096;

// The largest memory.
const LARGEST: usize = 134_217_728;

// Whether a memory size passes refusal 1.
#[tactic(auto, unfolding(crate::specs::Memory::size_ok))]
pub fn size_ok(size: usize) -> bool
    ensures { result ≡ size_ok size }
{
    0 < size && size % PAGE == 0 && size <= LARGEST
}
