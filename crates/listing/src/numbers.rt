// Kinds and lines as numbers.

ghost use Rattle.std.specs.Prelude.{◌≡◌, ◌+◌, ◌≤◌, length};
ghost use Rattle.storage.specs.Bytes.{splice};
ghost use Rattle.calls.specs.Answers.{kind_is};
ghost use Rattle.listing.specs.Answers.{line_is};
ghost use Rattle.listing.specs.Numbers.{directory_of, first_of, second_of, seven_of};

use crate::lines::Line;
use calls::reading::Kind;

// 1 for a directory, or else 0.
pub fn directory_of(k: Kind) -> u8
    ensures { result ≡ directory_of (kind_is k) }
{
    match k {
        Kind::File { .. } => 0,
        Kind::Directory { .. } => 1,
    }
}

pub fn first_of(k: Kind) -> u64
    ensures { result ≡ first_of (kind_is k) }
{
    match k {
        Kind::File { size, .. } => size,
        Kind::Directory { taken, .. } => taken,
    }
}

pub fn second_of(k: Kind) -> u64
    ensures { result ≡ second_of (kind_is k) }
{
    match k {
        Kind::File { room, .. } => room,
        Kind::Directory { total, .. } => total,
    }
}

// The seven numbers of a line, from `at` on.
pub fn put(numbers: &mut [u64], at: usize, l: Line)
    requires { at + 7 ≤ length numbers.old }
    ensures { numbers.new ≡ splice numbers.old at (seven_of (line_is l)) }
{
    numbers[at] = l.node.at.0;
    numbers[at + 1] = l.node.parent.0;
    numbers[at + 2] = l.node.name.0;
    numbers[at + 3] = l.node.depth;
    numbers[at + 4] = u64::from(directory_of(l.kind));
    numbers[at + 5] = first_of(l.kind);
    numbers[at + 6] = second_of(l.kind);
}
