// The walk along a path, and how every call on a path begins.

ghost use Rattle.std.specs.Prelude.{◌≡◌, IfOk};
ghost use Rattle.alloc.specs.Volume.{volume_of, objects};
ghost use Rattle.path.specs.Path.{components};
ghost use Rattle.calls.specs.Walk as spec;
ghost use Rattle.calls.specs.Walk.{step, walk_from, walked, as_file};
ghost use Rattle.calls.specs.Answers.{step_of, start_of, outcome_of};

use crate::check::{self, WellFormed};
use crate::objects::{Directory, Object};
use crate::refusal::{Reason, Refusal};
use crate::slots;
use storage::Ref;

// The child with this name.
fn child(directory: Directory, name: &[u8]) -> Result<Ref, Reason>
    ensures { step_of result ≡ walked (step (objects (volume_of directory.entry.image.now)) directory.entry.at.0 name.now) }
{
    let Some(i) = slots::with_name(directory, name) else {
        return Err(Reason::NotFound);
    };
    Ok(directory.slot_at(i).object)
}

// One step, to the object with this name.
fn take_step(here: Object, name: &[u8]) -> Result<Ref, Reason>
    ensures { step_of result ≡ walked (step (objects (volume_of here.entry.image.now)) here.entry.at.0 name.now) }
{
    let Some(directory) = here.directory() else {
        return Err(Reason::NotDirectory);
    };
    child(directory, name)
}

// From the root along the components of the path.
fn walk_from(formed: WellFormed, path: &[u8]) -> Result<Ref, Refusal>
    ensures { start_of result ≡ walk_from formed.entry.image.now (components path.now) }
{
    let WellFormed { image } = formed;
    let mut at = formed.tiled().root();
    for i in 0..path::count(path) {
        at = take_step(Object { image, at }, path::component(path, i))?;
    }
    Ok(at)
}

// What is looked for first: the image's own refusal, then the path's, then that of numbers that are not allowed.
fn opening<'a>(image: &'a [u8], path: &[u8], allowed: bool) -> Result<WellFormed<'a>, Refusal>
    ensures outcome { outcome_of result ≡ spec.opening image.now path.now allowed }
    ensures same_image { IfOk result (λ f. f.image.now ≡ image.now) }
{
    let formed = check::well_formed(image)?;
    if !path::valid_path(path) {
        return Err(Refusal::For(Reason::BadPath));
    }
    if !allowed {
        return Err(Refusal::For(Reason::OutOfBounds));
    }
    Ok(formed)
}

// How a call on what the path names begins: the refusals of `opening`, then the walk's.
pub fn begin(image: &[u8], path: &[u8], allowed: bool) -> Result<Ref, Refusal>
    ensures { start_of result ≡ spec.start image.now path.now allowed }
{
    walk_from(opening(image, path, allowed)?, path)
}

// How a call on a file begins: the refusals of `begin`, then that of a directory.
pub fn file(image: &[u8], path: &[u8], allowed: bool) -> Result<Ref, Refusal>
    ensures { start_of result ≡ as_file image.now (spec.start image.now path.now allowed) }
{
    let at = begin(image, path, allowed)?;
    let object = Object { image, at };
    let Some(_) = object.file() else {
        return Err(Refusal::For(Reason::IsDirectory));
    };
    Ok(at)
}

// How a call on a slot of the directory that holds the last component begins: the refusals of `opening`, `top` for the root, then the walk's.
pub fn begin_above(image: &[u8], path: &[u8], allowed: bool, top: Reason) -> Result<Ref, Refusal>
    ensures { start_of result ≡ spec.start_above image.now path.now allowed top }
{
    let formed = opening(image, path, allowed)?;
    if path::count(path) == 0 {
        return Err(Refusal::For(top));
    }
    let at = walk_from(formed, path::directory(path))?;
    let object = Object { image, at };
    let Some(_) = object.directory() else {
        return Err(Refusal::For(Reason::NotDirectory));
    };
    Ok(at)
}

// The last component of the path.
pub fn last_name(path: &[u8]) -> &[u8]
    ensures { result.now ≡ spec.last_name path.now }
{
    path::component(path, path::count(path).saturating_sub(1))
}
