// Write and set length: the bytes of a file.

ghost use Rattle.std.specs.Prelude.{◌+◌, ◌≤◌, ◌<◌, length};
ghost use Rattle.tree.specs.Fields.{room};
ghost use Rattle.calls.specs.Reading.{block_in};
ghost use Rattle.calls.specs.Refusal.{Accepted};
ghost use Rattle.calls.specs.Answers.{FileIn, outcome_of};
ghost use Rattle.changes.specs.Changing as spec;
ghost use Rattle.changes.specs.Answers.{Changes};

use alloc::access;
use calls::objects::File;
use calls::refusal::{Reason, Refusal};
use calls::walk;
use storage::{Pos, Ref};

// Bytes within the room: zeros in the gap after the old end, then the bytes, then the size.
#[tactic(auto, using(crate::proofs::Storing::room_low))]
fn put(image: &mut [u8], r: Ref, position: u64, bytes: &[u8])
    requires { FileIn image.old r.0 × (0 < length bytes.now) × (position + length bytes.now ≤ room (block_in image.old r.0)) }
    ensures { Changes (spec.written image.old r.0 position bytes.now) Accepted image.new }
{
    let old = File { image, at: r }.size();
    let end = position + bytes.len() as u64;
    let from = position.min(old);
    access::zero(
        image,
        r,
        Pos(16 + from as usize),
        (position - from) as usize,
    );
    access::copy_in(image, r, Pos(16 + position as usize), bytes);
    access::write_u64(image, r, Pos(0), old.max(end));
}

// To the file at `r`: refused past its room, or written.
fn write_to(image: &mut [u8], r: Ref, position: u64, bytes: &[u8]) -> Result<(), Refusal>
    requires { FileIn image.old r.0 }
    ensures { Changes (spec.write_to image.old r.0 position bytes.now) (outcome_of result) image.new }
{
    let room = File { image, at: r }.room();
    let count = bytes.len() as u64;
    if room < position {
        return Err(Refusal::For(Reason::PastRoom));
    }
    if room - position < count {
        return Err(Refusal::For(Reason::PastRoom));
    }
    if count == 0 {
        return Ok(());
    }
    put(image, r, position, bytes);
    Ok(())
}

// Bytes from any position on.
pub fn write(image: &mut [u8], path: &[u8], position: u64, bytes: &[u8]) -> Result<(), Refusal>
    ensures { Changes (spec.write image.old path.now position bytes.now) (outcome_of result) image.new }
{
    let r = walk::file(image, path, true)?;
    write_to(image, r, position, bytes)
}

// A length within the room: zeros between the old end and the new, then the size.
#[tactic(auto, using(crate::proofs::Storing::room_low))]
fn resize(image: &mut [u8], r: Ref, size: u64)
    requires { FileIn image.old r.0 × (size ≤ room (block_in image.old r.0)) }
    ensures { Changes (spec.resized image.old r.0 size) Accepted image.new }
{
    let old = File { image, at: r }.size();
    let from = size.min(old);
    let to = size.max(old);
    access::zero(image, r, Pos(16 + from as usize), (to - from) as usize);
    access::write_u64(image, r, Pos(0), size);
}

// Of the file at `r`: refused past its room, or set.
fn set_length_of(image: &mut [u8], r: Ref, size: u64) -> Result<(), Refusal>
    requires { FileIn image.old r.0 }
    ensures { Changes (spec.set_length_of image.old r.0 size) (outcome_of result) image.new }
{
    let room = File { image, at: r }.room();
    if room < size {
        return Err(Refusal::For(Reason::PastRoom));
    }
    resize(image, r, size);
    Ok(())
}

// The file cut off, or lengthened by zeros.
pub fn set_length(image: &mut [u8], path: &[u8], size: u64) -> Result<(), Refusal>
    ensures { Changes (spec.set_length image.old path.now size) (outcome_of result) image.new }
{
    let r = walk::file(image, path, true)?;
    set_length_of(image, r, size)
}
