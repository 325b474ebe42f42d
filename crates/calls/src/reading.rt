// The calls that change nothing.

ghost use Rattle.std.specs.Prelude.{◌≡◌, ◌<◌};
ghost use Rattle.calls.specs.Reading as spec;
ghost use Rattle.calls.specs.Reading.{kind_of, block_in};
ghost use Rattle.calls.specs.Answers.{kind_is, found_of, outcome_of, count_of, point_bytes_of, Reads, Copies, Points};

use crate::objects::{File, Object};
use crate::refusal::{Reason, Refusal};
use crate::walk;
use storage::Ref;

// A file with its size and room, or a directory with its taken and total slots.
#[derive(Clone, Copy)]
pub enum Kind {
    File { size: u64, room: u64 },
    Directory { taken: u64, total: u64 },
}

// Find's answer: on a refusal all else is zero.
#[derive(Clone, Copy)]
pub struct Found {
    pub refusal: Result<(), Refusal>,
    pub at: Ref,
    pub kind: Kind,
}

// The kind of the object.
pub fn kind_at(object: Object) -> Kind
    ensures { kind_is result ≡ kind_of (block_in object.entry.image.now object.entry.at.0) }
{
    if let Some(directory) = object.directory() {
        return Kind::Directory {
            taken: directory.taken_count(),
            total: directory.slot_count() as u64,
        };
    }
    let Object { image, at } = object;
    let file = File { image, at };
    Kind::File {
        size: file.size(),
        room: file.room(),
    }
}

// What the path names.
pub fn find(image: &[u8], path: &[u8]) -> Found
    ensures { found_of result ≡ spec.find image.now path.now }
{
    match walk::begin(image, path, true) {
        Err(refusal) => Found {
            refusal: Err(refusal),
            at: Ref(0),
            kind: Kind::File { size: 0, room: 0 },
        },
        Ok(at) => Found {
            refusal: Ok(()),
            at,
            kind: kind_at(Object { image, at }),
        },
    }
}

// The bytes of the file from the position on, to the front of the buffer: how many.
fn copy_from(file: File, position: u64, buffer: &mut [u8]) -> u64
    ensures { Copies file.entry.image.now file.entry.at.0 position buffer.old result buffer.new }
{
    let size = file.size();
    if size <= position {
        return 0;
    }
    let n = (buffer.len() as u64).min(size - position) as usize;
    file.copy_out(position as usize, &mut buffer[..n]);
    n as u64
}

// Bytes of a file, from any position: how many.
pub fn read(image: &[u8], path: &[u8], position: u64, buffer: &mut [u8]) -> Result<u64, Refusal>
    ensures { Reads (spec.read image.now path.now position buffer.old) (outcome_of result) (count_of result) buffer.new }
{
    let at = walk::file(image, path, true)?;
    Ok(copy_from(File { image, at }, position, buffer))
}

// Point `n` of the file.
fn point_at(file: File, n: u64) -> Result<[u8; 16], Refusal>
    requires { (0 < n) × (n < 4097) }
    ensures { Points (spec.point_of n (block_in file.entry.image.now file.entry.at.0)) (outcome_of result) (point_bytes_of result) }
{
    if file.size() < 16 * n {
        return Err(Refusal::For(Reason::PastEnd));
    }
    let mut bytes = [0u8; 16];
    file.copy_out(16 * (n as usize - 1), &mut bytes);
    Ok(bytes)
}

// One point of a file, whole.
pub fn read_point(image: &[u8], path: &[u8], number: u64) -> Result<[u8; 16], Refusal>
    ensures { Points (spec.read_point image.now path.now number) (outcome_of result) (point_bytes_of result) }
{
    let allowed = (1 <= number) & (number <= 4096);
    let at = walk::file(image, path, allowed)?;
    point_at(File { image, at }, number)
}
