// The whole listing in one walk, as numbers: an object stores its own line and then those of its slots, and a slot those of its object. What is past the row is not stored.

ghost use Rattle.std.specs.Prelude.{◌≡◌, [], ◌∷◌, ◌+◌, ◌≤◌, length};
ghost use Rattle.listing.specs.Nodes.{lines_at, lines_in, own_line};
ghost use Rattle.listing.specs.Numbers.{Stores};
ghost use Rattle.history.specs.Listing.{lines_of};

use crate::lines::Visit;
use crate::{lines, numbers};
use calls::check::WellFormed;

// The object's own line, as line `i`.
fn own(visit: Visit, numbers: &mut [u64], i: usize)
    ensures { Stores i (own_line visit.entry.image.now visit.entry.node ∷ []) numbers.old (i + 1) numbers.new }
{
    if numbers.len() / 7 <= i {
        return;
    }
    numbers::put(numbers, 7 * i, visit.line());
}

// The object and what it holds, from line `i` on. Tells the next line.
#[cycle(object_slots)]
fn object(visit: Visit, numbers: &mut [u64], i: usize) -> usize
    requires { i + length (lines_at visit.image.now visit.node) ≤ 4294967296 }
    ensures { Stores i (lines_at visit.entry.image.now visit.entry.node) numbers.old result numbers.new }
{
    own(visit, numbers, i);
    slots(visit, numbers, i + 1)
}

// What its slots hold. A file has its own line alone, and needs no call.
#[cycle(object_slots)]
fn slots(visit: Visit, numbers: &mut [u64], i: usize) -> usize
    requires { i + length (lines_in visit.image.now visit.node 0) ≤ 4294967296 }
    ensures { Stores i (lines_in visit.entry.image.now visit.entry.node 0) numbers.old result numbers.new }
{
    let mut at = i;
    for j in 0..visit.open_slots() {
        let Some(child) = visit.child(j) else {
            continue;
        };
        if !child.is_directory() {
            own(child, numbers, at);
            at += 1;
            continue;
        }
        at = object(child, numbers, at);
    }
    at
}

// The lines of the image, as many as the row has room for; tells how many there are.
pub fn all(formed: WellFormed, numbers: &mut [u64]) -> usize
    ensures { Stores 0 (lines_of formed.entry.image.now) numbers.old result numbers.new }
{
    object(lines::root(formed), numbers, 0)
}

// How many lines the image has: none is stored.
pub fn count(formed: WellFormed) -> u64
    ensures { result ≡ length (lines_of formed.entry.image.now) }
{
    all(formed, &mut []) as u64
}
