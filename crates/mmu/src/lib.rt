// Document 01, "Addresses": translation of an address, by a hint, by the page buffer or by a page table walk.
#![tactic(auto)]

ghost use Rattle.std.specs.Prelude.{◌≡◌, ◌+◌, ◌*◌, ◌/◌, ◌%◌, ◌<◌, length};
ghost use Rattle.word.specs.Word.{cut};
ghost use Rattle.memory.specs.Memory.{bytes};
ghost use Rattle.buffer.specs.Held.{entries_in, index_of};
ghost use Rattle.mmu.specs.Good.{Good};
ghost use Rattle.mmu.specs.Translates.{request, space_of, Refills, Translates};
ghost use Rattle.mmu.specs.Probes.{Probes};
ghost use Rattle.mmu.specs.Bus.{SameBus};

mod bus;

pub use bus::Bus;
use memory::Size;
use paging::{Access, Cause, Fault, Space, TrapCode};

// An address with its low bits dropped to the natural size.
fn align(addr: u32, size: Size) -> u32
    ensures { result ≡ cut (bytes size) addr }
{
    match size {
        Size::Word => addr / 4 * 4,
        Size::Half => addr / 2 * 2,
        Size::Byte => addr,
    }
}

// The address in a frame.
fn in_frame(frame: u32, addr: u32, size: Size) -> usize
    ensures { result ≡ frame * 4096 + cut (bytes size) addr % 4096 }
{
    frame as usize * 4096 + (align(addr, size) % 4096) as usize
}

// A fault, with its cause and the address asked.
fn denied(code: TrapCode, cause: Cause, addr: u32) -> Fault
    ensures { result ≡ record { code = code; cause = cause; address = addr } }
{
    Fault {
        code,
        cause,
        address: addr,
    }
}

// A page table walk, which is counted, and whose entry is kept: its page was looked up at `i`.
fn refill(
    mem: &mut [u8],
    tlb: &mut [u64],
    pdir: u32,
    addr: u32,
    size: Size,
    kind: Access,
    user: bool,
    i: usize,
) -> Result<usize, Fault>
    requires { Good (length mem.old) pdir tlb.old × (i ≡ index_of (addr / 4096) (entries_in tlb.old)) }
    ensures { Refills pdir (request kind size addr user) mem.old tlb.old result mem.new tlb.new }
{
    buffer::raise_walks(tlb);
    let page = addr / 4096;
    match walk::walk(mem, pdir, page, kind, user) {
        Ok(m) => {
            buffer::keep(tlb, i, buffer::pack(page, m.frame, m.user, m.write));
            Ok(in_frame(m.frame, addr, size))
        }
        Err(d) => Err(denied(d.code, d.cause, addr)),
    }
}

// Translation without the hint: paging off, then a search of the buffer, then a walk. The hint learns where the page's entry stands. It takes
// a bus in parts: a struct that a function out of line takes is in memory in the whole inner loop, which then costs twice as much.
#[inline(never)]
fn translate_slow(
    mem: &mut [u8],
    tlb: &mut [u64],
    hint: &mut [u8; 256],
    paging: bool,
    pdir: u32,
    addr: u32,
    size: Size,
    kind: Access,
    user: bool,
) -> Result<usize, Fault>
    requires { Good (length mem.old) pdir tlb.old }
    ensures { Translates (space_of paging pdir) (request kind size addr user) mem.old tlb.old result mem.new tlb.new }
{
    if !paging {
        if (addr as usize) < mem.len() {
            return Ok(align(addr, size) as usize);
        }
        return Err(denied(TrapCode::Fmem, Cause::AddressBeyondMemory, addr));
    }
    let page = addr / 4096;
    let i = buffer::lookup(tlb, page as u64);
    hint[(page % 256) as usize] = (i % 256) as u8;
    match buffer::slot(tlb, i, page as u64, kind, user) {
        Some(frame) => Ok(in_frame(frame, addr, size)),
        None => refill(mem, tlb, pdir, addr, size, kind, user, i),
    }
}

// Where an access lies, if paging is off or the slot that the hint names serves it: nothing is changed.
#[inline(always)]
pub fn probe(
    mem: &[u8],
    tlb: &[u64],
    hint: &[u8; 256],
    space: Space,
    addr: u32,
    size: Size,
    kind: Access,
    user: bool,
) -> Option<usize>
    requires { Good (length mem.now) space.pdir tlb.now }
    ensures { Probes space (request kind size addr user) mem.now tlb.now result }
{
    if space.paging {
        let page = addr / 4096;
        let named = hint[(page % 256) as usize] as usize;
        let frame = buffer::slot(tlb, named, page as u64, kind, user)?;
        return Some(in_frame(frame, addr, size));
    }
    if (addr as usize) < mem.len() {
        return Some(align(addr, size) as usize);
    }
    None
}

impl<'a> Bus<'a> {
    // Where an access lies. Both branches say the same: told apart here, an access after the first tests paging no more, and MCPY takes 63.0 instructions a step for
    // 69.0. With the slow translation in a method of its own they are fewer still, and take longer.
    #[inline(always)]
    pub fn translate(&mut self, addr: u32, size: Size, kind: Access) -> Result<usize, Fault>
        ensures bus { SameBus self.old self.new }
        ensures answer { Translates self.old.space (request kind size addr self.old.user) self.old.mem.now self.old.tlb.now result self.new.mem.now self.new.tlb.now }
    {
        let paging = self.space.paging;
        let user = self.user;
        if self.space.paging {
            let Some(q) = self.probe(addr, size, kind) else {
                return translate_slow(
                    self.mem,
                    self.tlb,
                    self.hint,
                    paging,
                    self.space.pdir,
                    addr,
                    size,
                    kind,
                    user,
                );
            };
            return Ok(q);
        }
        let Some(q) = self.probe(addr, size, kind) else {
            return translate_slow(
                self.mem,
                self.tlb,
                self.hint,
                paging,
                self.space.pdir,
                addr,
                size,
                kind,
                user,
            );
        };
        Ok(q)
    }

    // The probe of a bus.
    #[inline(always)]
    pub fn probe(&self, addr: u32, size: Size, kind: Access) -> Option<usize>
        ensures { Probes self.now.space (request kind size addr self.now.user) self.now.mem.now self.now.tlb.now result }
    {
        probe(
            self.mem, self.tlb, self.hint, self.space, addr, size, kind, self.user,
        )
    }

    // Memory, to read.
    #[inline(always)]
    pub fn bytes(&self) -> &[u8]
        ensures { result.now ≡ self.now.mem.now }
    {
        &*self.mem
    }
}
