// A call, and the line with what it answers; a part of an image, and its line.

ghost use Rattle.std.specs.Prelude.{◌≤◌, ◌<◌, length, ◌≡◌};
ghost use Rattle.changes.specs.Changing as changing;

use alloc::block::Header;
use calls::reading;
use show::text::{Answer, Hex};
use std::{fmt, io};
use storage::{Offset, Ref};

// Bytes in hex, eight to a word.
#[derive(Clone, Copy)]
struct Words<'a>(&'a [u8]);

impl fmt::Display for Words<'_> {
    fn fmt<W: fmt::Write>(&self, f: &mut fmt::Formatter<W>) -> fmt::Result {
        for word in self.0.chunks_exact(8) {
            write!(f, " {}", Hex(word))?;
        }
        Ok(())
    }
}

pub fn format(rt: &impl Print, image: &mut [u8], slots: u64) -> io::Result<()>
    ensures { image.new ≡ (changing.format image.old slots).image }
{
    let answer = Answer::of(&changes::format::format(image, slots));
    let n = image.len();
    println!(rt; "format {n} bytes, slots {slots}: {answer}")
}

pub fn check(rt: &impl Print, text: &str, image: &[u8; 256]) -> io::Result<()> {
    let answer = Answer::of(&calls::check::check(image));
    println!(rt; "check {text}: {answer}")
}

pub fn find(rt: &impl Print, image: &[u8], path: &str) -> io::Result<()> {
    let found = reading::find(image, path.as_bytes());
    let answer = Answer::of(&found.refusal);
    let at = found.at.0;
    println!(rt; "find \"{path}\": {answer}, ref {at}")
}

pub fn make_directory(rt: &impl Print, image: &mut [u8], path: &str, slots: u64) -> io::Result<()>
    ensures { image.new ≡ (changing.make image.old path.now (changing.directory slots)).image }
{
    let made = changes::make::directory(image, path.as_bytes(), slots);
    let answer = Answer::of(&made);
    let at = made.unwrap_or(Ref(0)).0;
    println!(rt; "make directory \"{path}\", slots {slots}: {answer}, ref {at}")
}

pub fn make_file(rt: &impl Print, image: &mut [u8], path: &str, room: u64) -> io::Result<()>
    ensures { image.new ≡ (changing.make image.old path.now (changing.file room)).image }
{
    let made = changes::make::file(image, path.as_bytes(), room);
    let answer = Answer::of(&made);
    let at = made.unwrap_or(Ref(0)).0;
    println!(rt; "make file \"{path}\", room {room}: {answer}, ref {at}")
}

pub fn remove(rt: &impl Print, image: &mut [u8], path: &str) -> io::Result<()>
    ensures { image.new ≡ (changing.remove image.old path.now).image }
{
    let answer = Answer::of(&changes::remove::remove(image, path.as_bytes()));
    println!(rt; "remove \"{path}\": {answer}")
}

pub fn write(
    rt: &impl Print,
    image: &mut [u8],
    path: &str,
    position: u64,
    bytes: &[u8],
) -> io::Result<()>
    ensures { image.new ≡ (changing.write image.old path.now position bytes.now).image }
{
    let answer = Answer::of(&changes::bytes::write(image, path.as_bytes(), position, bytes));
    let n = bytes.len();
    println!(rt; "write \"{path}\", bytes {n} at {position}: {answer}")
}

pub fn set_length(rt: &impl Print, image: &mut [u8], path: &str, size: u64) -> io::Result<()>
    ensures { image.new ≡ (changing.set_length image.old path.now size).image }
{
    let answer = Answer::of(&changes::bytes::set_length(image, path.as_bytes(), size));
    println!(rt; "set length \"{path}\", {size}: {answer}")
}

// A read of up to 32 bytes from the front on, into a buffer of bytes aa.
pub fn read_32(rt: &impl Print, image: &[u8], path: &str) -> io::Result<()> {
    let mut buffer = [0xaa; 32];
    let read = reading::read(image, path.as_bytes(), 0, &mut buffer);
    let answer = Answer::of(&read);
    let count = read.unwrap_or(0);
    println!(rt;
        "read \"{path}\": {answer}, count {count},{}",
        Words(&buffer)
    )
}

pub fn point(rt: &impl Print, image: &[u8], path: &str, number: u64) -> io::Result<()> {
    let point = reading::read_point(image, path.as_bytes(), number);
    let answer = Answer::of(&point);
    let bytes = point.unwrap_or([0; 16]);
    println!(rt;
        "read point \"{path}\", {number}: {answer},{}",
        Words(&bytes)
    )
}

// The refs of the superblock.
pub fn superblock(rt: &impl Print, image: &[u8]) -> io::Result<()>
    requires { 24 ≤ length image.now }
{
    let root = storage::read_u64(image, Offset(8));
    let first_free = storage::read_u64(image, Offset(16));
    println!(rt; "  root {root}, first free {first_free}")
}

// The block at `r`: its magic, its units and its size.
pub fn block(rt: &impl Print, image: &[u8; 256], r: Ref) -> io::Result<()>
    requires { r.0 < 16 }
{
    let from = storage::start(r).0;
    let header = Header { image, at: r };
    let (units, size) = (header.units(), header.size());
    print!(rt; "  {} ", r.0)?;
    rt.write_all(&image[from..from + 4])?;
    println!(rt; ", units {units}, size {size}")
}

// What the data of the block at `r` begins with: the size of a file, or the next ref of a free block.
pub fn field(rt: &impl Print, text: &str, image: &[u8; 256], r: Ref) -> io::Result<()>
    requires { r.0 < 16 }
{
    let from = storage::start(r).0;
    let value = storage::read_u64(image, Offset(from + 8));
    println!(rt; "  {} {text} {value}", r.0)
}

// The refs in slot `i` of a root with 2 slots: a name's and an object's.
pub fn slot(rt: &impl Print, image: &[u8; 256], i: usize) -> io::Result<()>
    requires { i < 2 }
{
    let at = 48 + 16 * i;
    let name = storage::read_u64(image, Offset(at));
    let object = storage::read_u64(image, Offset(at + 8));
    println!(rt; "  slot {i}: name {name}, object {object}")
}
