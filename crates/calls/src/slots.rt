// Slots of a directory, looked for from the first on.

ghost use Rattle.std.specs.Prelude.{◌≡◌, ◌<◌};
ghost use Rattle.tree.specs.Fields.{total};
ghost use Rattle.calls.specs.Walk.{slot_named, empty_slot};
ghost use Rattle.calls.specs.Reading.{block_in};
ghost use Rattle.alloc.specs.Volume.{volume_of, objects};
ghost use Rattle.calls.specs.Answers.{named, index_of};

use crate::objects::Directory;
use alloc::access::Block;

// Whether slot `i` is taken, with this name.
fn has_name(directory: Directory, i: usize, name: &[u8]) -> bool
    requires { i < total (block_in directory.image.now directory.at.0) }
    ensures { result ≡ named directory.entry.image.now directory.entry.at.0 i name.now }
{
    let slot = directory.slot_at(i);
    if !slot.is_taken() {
        return false;
    }
    let Directory { image, .. } = directory;
    let block = Block {
        image,
        at: slot.name,
    };
    block.equals(name)
}

// The slot with this name.
pub fn with_name(directory: Directory, name: &[u8]) -> Option<usize>
    ensures { index_of result ≡ slot_named (objects (volume_of directory.entry.image.now)) (block_in directory.entry.image.now directory.entry.at.0) name.now }
{
    let count = directory.slot_count();
    (0..count).find(|&i| has_name(directory, i, name))
}

// The lowest empty slot.
pub fn empty(directory: Directory) -> Option<usize>
    ensures { index_of result ≡ empty_slot (block_in directory.entry.image.now directory.entry.at.0) }
{
    let count = directory.slot_count();
    (0..count).find(|&i| !directory.slot_at(i).is_taken())
}
