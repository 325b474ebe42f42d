// Make directory and make file: a name and an object in the lowest empty slot of a directory.

ghost use Rattle.std.specs.Prelude.{◌≡◌, true, ◌≤◌, length};
ghost use Rattle.alloc.specs.Answers.{kind_magic};
ghost use Rattle.alloc.specs.Block.{size_at};
ghost use Rattle.alloc.specs.Room.{after_update};
ghost use Rattle.alloc.specs.Sound.{Holds};
ghost use Rattle.calls.specs.Answers.{DirectoryIn, outcome_of};
ghost use Rattle.changes.specs.Changing as spec;
ghost use Rattle.changes.specs.Answers.{new_of, ref_of, magic_for, size_for, parent_field, Vacant, Makes, Named};

use alloc::block::Kind;
use alloc::{access, pair};
use calls::objects::Directory;
use calls::refusal::{Reason, Refusal};
use calls::{slots, walk};
use storage::{Pos, Ref};
use tree::fields::{self, Slot};

// What is to be made: a directory with so many slots, or a file with so much room.
#[derive(Clone, Copy)]
pub enum New {
    Directory(u64),
    File(u64),
}

impl New {
    fn is_allowed(self) -> bool
        ensures { result ≡ spec.allowed (new_of self) }
    {
        match self {
            New::Directory(slots) => (1 <= slots) & (slots <= 1024),
            New::File(room) => room <= 65536,
        }
    }

    fn kind(self) -> Kind
        ensures { kind_magic result ≡ magic_for (new_of self) }
    {
        match self {
            New::Directory(_) => Kind::Directory,
            New::File(_) => Kind::File,
        }
    }
}

// What may be made.
#[derive(Clone, Copy)]
struct Allowed {
    new: New,
    ghost allowed: { spec.allowed (new_of new) ≡ true },
}

impl Allowed {
    // How many bytes of data its block has.
    fn size(self) -> u32
        ensures { result ≡ size_for (new_of self.new) }
    {
        match self.new {
            New::Directory(slots) => fields::directory_size(slots as u32),
            New::File(room) => 16 + room as u32,
        }
    }
}

// A new directory at `o` has the directory at `d` as its parent; a file has none.
fn write_parent(image: &mut [u8], o: Ref, new: New, d: Ref)
    requires { Holds image.old o.0 × (length (parent_field (new_of new) d.0) ≤ size_at image.old o.0) }
    ensures { image.new ≡ after_update o.0 0 (parent_field (new_of new) d.0) image.old }
{
    match new {
        New::Directory(_) => access::write_ref(image, o, Pos(0), d),
        New::File(_) => {}
    }
}

// Both blocks, their data, and their refs in slot `i` of the directory at `d`; refused where there is no room.
fn fill(image: &mut [u8], d: Ref, i: usize, name: &[u8], what: Allowed) -> Result<Ref, Refusal>
    requires { Vacant image.old d.0 i name.now }
    ensures { Makes (spec.fill_slot image.old (new_of what.new) name.now d.0 i) (outcome_of result) (ref_of result) image.new }
{
    let new = what.new;
    let placed = pair::place(image, name.len() as u32, new.kind(), what.size());
    let Some(pair) = placed else {
        return Err(Refusal::For(Reason::NoRoom));
    };
    access::copy_in(image, pair.name, Pos(0), name);
    write_parent(image, pair.object, new, d);
    let slot = Slot {
        name: pair.name,
        object: pair.object,
    };
    crate::slot::set(image, d, i, slot);
    Ok(pair.object)
}

// In the directory at `d`: refused, or made.
fn make_in(image: &mut [u8], d: Ref, name: &[u8], what: Allowed) -> Result<Ref, Refusal>
    requires { DirectoryIn image.old d.0 × Named name.now }
    ensures { Makes (spec.make_in image.old (new_of what.new) name.now d.0) (outcome_of result) (ref_of result) image.new }
{
    let directory = Directory { image, at: d };
    if slots::with_name(directory, name).is_some() {
        return Err(Refusal::For(Reason::Exists));
    }
    let Some(i) = slots::empty(directory) else {
        return Err(Refusal::For(Reason::NoSlot));
    };
    fill(image, d, i, name, what)
}

// The object that the path names.
pub fn make(image: &mut [u8], path: &[u8], new: New) -> Result<Ref, Refusal>
    ensures { Makes (spec.make image.old path.now (new_of new)) (outcome_of result) (ref_of result) image.new }
{
    let d = walk::begin_above(image, path, new.is_allowed(), Reason::Exists)?;
    make_in(image, d, walk::last_name(path), Allowed { new })
}

// A directory with so many empty slots.
pub fn directory(image: &mut [u8], path: &[u8], slots: u64) -> Result<Ref, Refusal>
    ensures { Makes (spec.make image.old path.now (spec.directory slots)) (outcome_of result) (ref_of result) image.new }
{
    make(image, path, New::Directory(slots))
}

// An empty file with so much room.
pub fn file(image: &mut [u8], path: &[u8], room: u64) -> Result<Ref, Refusal>
    ensures { Makes (spec.make image.old path.now (spec.file room)) (outcome_of result) (ref_of result) image.new }
{
    make(image, path, New::File(room))
}
