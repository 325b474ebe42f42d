// Remove: a slot emptied, and both its blocks freed.

ghost use Rattle.std.specs.Prelude.{◌≡◌, not, eqb};
ghost use Rattle.alloc.specs.Volume as volume;
ghost use Rattle.tree.specs.Fields.{slots, taken_count};
ghost use Rattle.calls.specs.Reading.{block_in};
ghost use Rattle.calls.specs.Answers.{DirectoryIn, outcome_of};
ghost use Rattle.changes.specs.Changing as spec;
ghost use Rattle.changes.specs.Answers.{Changes, TakenSlot};

use alloc::release;
use calls::objects::{Directory, Object};
use calls::refusal::{Reason, Refusal};
use calls::{slots, walk};
use storage::Ref;
use tree::fields::Slot;

// Whether the object has a taken slot.
#[tactic(auto, using(crate::proofs::Removing::holds_none))]
fn holds_some(object: Object) -> bool
    ensures { result ≡ not (eqb (taken_count (slots (block_in object.entry.image.now object.entry.at.0))) 0) }
{
    object
        .directory()
        .is_some_and(|directory| directory.taken_count() != 0)
}

// Slot `i` of the directory at `d` emptied, and what it named freed.
fn clear(image: &mut [u8], d: Ref, i: usize)
    requires { TakenSlot image.old d.0 i }
    ensures { image.new ≡ volume.image (spec.removed image.old d.0 i) }
{
    let slot = Directory { image, at: d }.slot_at(i);
    let empty = Slot {
        name: Ref(0),
        object: Ref(0),
    };
    crate::slot::set(image, d, i, empty);
    release::block(image, slot.name);
    release::block(image, slot.object);
}

// From the directory at `d`: refused, or removed.
fn remove_in(image: &mut [u8], d: Ref, name: &[u8]) -> Result<(), Refusal>
    requires { DirectoryIn image.old d.0 }
    ensures { Changes (spec.remove_in image.old name.now d.0) (outcome_of result) image.new }
{
    let directory = Directory { image, at: d };
    let Some(i) = slots::with_name(directory, name) else {
        return Err(Refusal::For(Reason::NotFound));
    };
    let at = directory.slot_at(i).object;
    if holds_some(Object { image, at }) {
        return Err(Refusal::For(Reason::NotEmpty));
    }
    clear(image, d, i);
    Ok(())
}

// The object that the path names.
pub fn remove(image: &mut [u8], path: &[u8]) -> Result<(), Refusal>
    ensures { Changes (spec.remove image.old path.now) (outcome_of result) image.new }
{
    let d = walk::begin_above(image, path, true, Reason::IsRoot)?;
    remove_in(image, d, walk::last_name(path))
}
