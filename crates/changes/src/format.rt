// Format: a new image with a root directory and nothing else.

ghost use Rattle.std.specs.Prelude.{◌≡◌, length};
ghost use Rattle.alloc.specs.Volume as volume;
ghost use Rattle.calls.specs.Answers.{outcome_of};
ghost use Rattle.changes.specs.Changing as spec;
ghost use Rattle.changes.specs.Answers.{Changes, RootFits};

use alloc::access;
use alloc::block::Kind;
use calls::refusal::{Reason, Refusal};
use storage::{Pos, Ref};
use tree::fields;

// The root with so many slots, and the rest free.
fn fresh(image: &mut [u8], slots: u32)
    requires { RootFits (length image.old) slots }
    ensures { image.new ≡ volume.image (spec.formatted (length image.old) slots) }
{
    alloc::create::empty(image, Ref(2));
    let placed = alloc::place::block(image, Kind::Directory, fields::directory_size(slots));
    let Some(root) = placed else {
        return;
    };
    access::write_ref(image, root, Pos(0), root);
}

// For any bytes: superblock and root, the rest one free block.
pub fn format(image: &mut [u8], slots: u64) -> Result<(), Refusal>
    ensures { Changes (spec.format image.old slots) (outcome_of result) image.new }
{
    let len = image.len();
    if !alloc::tiling::length_allowed(len) {
        return Err(Refusal::For(Reason::BadLength));
    }
    if (slots < 1) | (1024 < slots) {
        return Err(Refusal::For(Reason::OutOfBounds));
    }
    if !alloc::create::has_room(len, fields::directory_size(slots as u32)) {
        return Err(Refusal::For(Reason::NoRoom));
    }
    fresh(image, slots as u32);
    Ok(())
}
