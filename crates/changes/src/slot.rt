// A slot of a directory, written.

ghost use Rattle.std.specs.Prelude.{◌≡◌, ◌++◌, ◌+◌, ◌*◌, ◌≤◌};
ghost use Rattle.storage.specs.Bytes.{be64};
ghost use Rattle.alloc.specs.Block.{size_at};
ghost use Rattle.alloc.specs.Room.{after_update};
ghost use Rattle.alloc.specs.Sound.{Holds};

use alloc::access;
use storage::{Pos, Ref};
use tree::fields::Slot;

// Both refs of `slot`, in slot `i` of the directory at `d`.
#[tactic(auto, using(crate::proofs::Storing::held_low))]
pub fn set(image: &mut [u8], d: Ref, i: usize, slot: Slot)
    requires { Holds image.old d.0 × (24 + 16 * i ≤ size_at image.old d.0) }
    ensures { image.new ≡ after_update d.0 (8 + 16 * i) (be64 slot.name.0 ++ be64 slot.object.0) image.old }
{
    access::write_ref(image, d, Pos(8 + 16 * i), slot.name);
    access::write_ref(image, d, Pos(16 + 16 * i), slot.object);
}
