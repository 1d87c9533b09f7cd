// Document 01, "Addresses": what an access goes through.
ghost use Rattle.std.specs.Prelude.{length};
ghost use Rattle.mmu.specs.Good.{Good};

use paging::Space;

// Memory, the page buffer and its hint, in an address space and a mode. The hint says in which slot a page's entry may stand: it is checked on use, and may hold anything.
#[derive(Drop)]
pub struct Bus<'a> {
    pub mem: &'a mut [u8],
    pub tlb: &'a mut [u64],
    pub hint: &'a mut [u8; 256],
    pub space: Space,
    pub user: bool,
    ghost good: { Good (length mem.now) space.pdir tlb.now },
}
