// A directory that keeps rule 3.

ghost use Rattle.std.specs.Prelude.{◌≡◌, ◌<◌, MatchOption};
ghost use Rattle.alloc.specs.Block.{block_of};
ghost use Rattle.tree.specs.Fields.{total, slot_at};
ghost use Rattle.tree.specs.Answers.{SoundDirectory, Empty, Named, slot_of};

use crate::fields::{DirectoryFields, Slot};
use alloc::access::Block;
use storage::Ref;

// A directory that keeps rule 3, in a tiled image.
#[derive(Clone, Copy)]
pub struct Directory<'a> {
    pub image: &'a [u8],
    pub at: Ref,
    ghost sound: { SoundDirectory image.now at.0 },
}

impl<'a> Directory<'a> {
    // Its fields.
    fn fields(self) -> DirectoryFields<'a>
        ensures { (result.image.now ≡ self.entry.image.now) × (result.at.0 ≡ self.entry.at.0) }
    {
        DirectoryFields {
            image: self.image,
            at: self.at,
        }
    }

    // How many slots it has.
    pub fn slot_count(self) -> usize
        ensures { result ≡ total (block_of self.entry.image.now self.entry.at.0) }
    {
        self.fields().slot_count()
    }

    // Its slot `i`.
    pub fn slot_at(self, i: usize) -> Slot
        requires { i < total (block_of self.image.now self.at.0) }
        ensures { slot_of result ≡ slot_at (block_of self.entry.image.now self.entry.at.0) i }
    {
        self.fields().slot_at(i)
    }

    // The name block of its slot `i`, if that is taken.
    pub fn name_at(self, i: usize) -> Option<Block<'a>>
        requires { i < total (block_of self.image.now self.at.0) }
        ensures { MatchOption result (Empty self.entry.image.now self.entry.at.0 i) (λ n. Named self.entry.image.now self.entry.at.0 i n.image.now n.at.0) }
    {
        let slot = self.slot_at(i);
        if !slot.is_taken() {
            return None;
        }
        Some(Block {
            image: self.image,
            at: slot.name,
        })
    }
}
