// A tiled image: its blocks, the superblock's refs, and rule 8.

ghost use Rattle.std.specs.Prelude.{◌≡◌, cond, ◌-◌, ◌*◌, eqb, length};
ghost use Rattle.std.specs.Iterator.{at_most};
ghost use Rattle.storage.specs.Bytes.{u64_at};
ghost use Rattle.alloc.specs.Block.{SFfr, units_for, magic_at, size_at};
ghost use Rattle.alloc.specs.Volume.{chained, volume_of, free_units};
ghost use Rattle.alloc.specs.Sound as sound;
ghost use Rattle.alloc.specs.Walked.{Reached, Passes};

use crate::access::Block;
use crate::block::{Kind, units_for};
use crate::chain::Scan;
use storage::{Pos, Ref};

// The blocks from the one at `next` on.
#[derive(Drop)]
pub struct Blocks<'a> {
    pub image: &'a [u8],
    pub next: Ref,
}

impl<'a> Iterator for Blocks<'a> {
    type Item = Block<'a>;

    ghost can_next = { λ b. Reached b.image.now b.next.0 };

    ghost next_gives = { λ b x c. (c.image ≡ b.image) × Passes b.image.now b.next.0 x c.next.0 };

    ghost remaining = { λ b. at_most (length b.image.now - 16 * b.next.0) };

    fn next(&mut self) -> Option<Block<'a>> {
        let at = self.next;
        if self.image.len() <= storage::start(at).0 {
            return None;
        }
        let block = Block {
            image: self.image,
            at,
        };
        self.next = storage::past(at, units_for(block.size()));
        Some(block)
    }
}

// An image that keeps rule 1.
#[derive(Clone, Copy)]
pub struct Tiled<'a> {
    pub image: &'a [u8],
    ghost tiled: { sound.Tiled image.now },
}

impl<'a> Tiled<'a> {
    // The blocks after the superblock.
    pub fn blocks(self) -> Blocks<'a>
        ensures { (result.image.now ≡ self.entry.image.now) × (result.next.0 ≡ 2) × Reached self.entry.image.now 2 }
    {
        Blocks {
            image: self.image,
            next: Ref(2),
        }
    }

    // The ref of the root.
    pub fn root(self) -> Ref
        ensures { result.0 ≡ (volume_of self.entry.image.now).root }
    {
        storage::read_ref(self.image, storage::data_start(Ref(0), Pos(0)))
    }

    // Where the free chain begins, by the superblock.
    pub fn first_free(self) -> Ref
        ensures { result.0 ≡ u64_at self.entry.image.now 16 }
    {
        storage::read_ref(self.image, storage::data_start(Ref(0), Pos(8)))
    }

    // Rule 8.
    pub fn chained(self) -> bool
        ensures { result ≡ chained self.entry.image.now }
    {
        let mut scan = Scan::start(self);
        for block in self.blocks() {
            if !scan.pass(block) {
                return false;
            }
        }
        scan.ends()
    }

    // Free units in all.
    pub fn free_units(self) -> u64
        ensures { result ≡ free_units (volume_of self.entry.image.now).extents }
    {
        let mut total: u64 = 0;
        for block in self.blocks() {
            total += free_in(block);
        }
        total
    }
}

// How many units of the block are free.
fn free_in(block: Block) -> u64
    ensures { result ≡ cond (eqb (magic_at block.entry.image.now block.entry.at.0) SFfr) (units_for (size_at block.entry.image.now block.entry.at.0)) 0 }
{
    if block.is(Kind::Free) {
        return units_for(block.size());
    }
    0
}
