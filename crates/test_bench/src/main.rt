// The bench's cases of document 01, in its order, marked or not: the calls on images held here, a line to a call and to a part of an image.

#![tactic(auto)]

ghost use Rattle.std.specs.Prelude.{◌<◌};

use std::io;
use storage::{Offset, Ref};

mod tell;

// ---- 256 bytes, formatted with 2 slots

fn formatted() -> [u8; 256] {
    let mut image = [7u8; 256];
    let _ = changes::format::format(&mut image, 2);
    image
}

// With the file /heel, room 32.
fn with_heel() -> [u8; 256] {
    let mut image = formatted();
    let _ = changes::make::file(&mut image, b"/heel", 32);
    image
}

// With /heel and the directory /a, 1 slot.
fn with_both() -> [u8; 256] {
    let mut image = with_heel();
    let _ = changes::make::directory(&mut image, b"/a", 1);
    image
}

// With /a, /heel removed.
fn without_heel() -> [u8; 256] {
    let mut image = with_both();
    let _ = changes::remove::remove(&mut image, b"/heel");
    image
}

fn format_card(rt: &impl Print) -> io::Result<()> {
    let mut image = [7u8; 256];
    tell::format(rt, &mut image, 2)?;
    tell::superblock(rt, &image)?;
    tell::block(rt, &image, Ref(2))?;
    tell::block(rt, &image, Ref(5))
}

fn make_heel(rt: &impl Print) -> io::Result<()> {
    let mut image = formatted();
    tell::make_file(rt, &mut image, "/heel", 32)?;
    tell::superblock(rt, &image)?;
    tell::slot(rt, &image, 0)?;
    tell::block(rt, &image, Ref(5))?;
    tell::block(rt, &image, Ref(9))?;
    tell::block(rt, &image, Ref(10))
}

fn make_a(rt: &impl Print) -> io::Result<()> {
    let mut image = with_heel();
    tell::make_directory(rt, &mut image, "/a", 1)?;
    tell::superblock(rt, &image)?;
    tell::slot(rt, &image, 1)?;
    tell::block(rt, &image, Ref(10))?;
    tell::block(rt, &image, Ref(12))?;
    tell::block(rt, &image, Ref(13))
}

// The slots are taken; then /heel goes.
fn remove_heel(rt: &impl Print) -> io::Result<()> {
    let mut image = with_both();
    tell::make_file(rt, &mut image, "/b", 40)?;
    tell::remove(rt, &mut image, "/heel")?;
    tell::superblock(rt, &image)?;
    tell::slot(rt, &image, 0)?;
    tell::block(rt, &image, Ref(5))?;
    tell::field(rt, "next", &image, Ref(5))?;
    tell::block(rt, &image, Ref(13))?;
    tell::field(rt, "next", &image, Ref(13))
}

// What /heel left is used again: a new object in slot 0.
fn make_after(rt: &impl Print, path: &str, room: u64) -> io::Result<()> {
    let mut image = without_heel();
    tell::make_file(rt, &mut image, path, room)?;
    tell::superblock(rt, &image)?;
    tell::slot(rt, &image, 0)?;
    tell::check(rt, "what is made", &image)
}

fn make_b(rt: &impl Print) -> io::Result<()> {
    for room in [40, 41, 56, 57] {
        make_after(rt, "/b", room)?;
    }
    make_after(
        rt,
        "/0123456789abcdef0123456789abcdef0123456789abcdef0123456789abcdef",
        24,
    )
}

// ---- lengths

fn format_64(rt: &impl Print) -> io::Result<()> {
    let mut image = [7u8; 64];
    tell::format(rt, &mut image, 1)?;
    tell::superblock(rt, &image)?;
    let mut other = [7u8; 64];
    tell::format(rt, &mut other, 2)
}

fn format_others(rt: &impl Print) -> io::Result<()> {
    let mut shorter = [7u8; 48];
    tell::format(rt, &mut shorter, 1)?;
    let mut uneven = [7u8; 65];
    tell::format(rt, &mut uneven, 1)?;
    let mut none = [7u8; 0];
    tell::format(rt, &mut none, 1)
}

// ---- writes: /heel has room 32 and is empty

fn write_28(rt: &impl Print) -> io::Result<()> {
    let mut image = with_heel();
    tell::write(rt, &mut image, "/heel", 28, b"\x01\x02\x03\x04")?;
    tell::field(rt, "file size", &image, Ref(5))?;
    tell::read_32(rt, &image, "/heel")
}

fn write_heel(rt: &impl Print, position: u64, bytes: &[u8]) -> io::Result<()> {
    let mut image = with_heel();
    tell::write(rt, &mut image, "/heel", position, bytes)?;
    tell::field(rt, "file size", &image, Ref(5))
}

fn writes(rt: &impl Print) -> io::Result<()> {
    write_28(rt)?;
    write_heel(rt, 32, b"\x01")?;
    write_heel(rt, 32, b"")?;
    write_heel(rt, 33, b"")
}

// ---- points

// A file of 65,536 bytes: zeros, and at its end the letters a to x.
fn largest_points(rt: &impl Print) -> io::Result<()> {
    let mut image = [7u8; 65648];
    tell::format(rt, &mut image, 1)?;
    tell::make_file(rt, &mut image, "/a", 65536)?;
    tell::set_length(rt, &mut image, "/a", 65536)?;
    tell::write(rt, &mut image, "/a", 65512, b"abcdefghijklmnopqrstuvwx")?;
    tell::point(rt, &image, "/a", 4096)?;
    tell::point(rt, &image, "/a", 4097)?;
    tell::point(rt, &image, "/a", 0)
}

// A file of 40 bytes: letters and digits.
fn points_of_40(rt: &impl Print) -> io::Result<()> {
    let mut image = formatted();
    tell::make_file(rt, &mut image, "/heel", 40)?;
    tell::write(
        rt,
        &mut image,
        "/heel",
        0,
        b"abcdefghijklmnopqrstuvwxyz0123456789ABCD",
    )?;
    tell::point(rt, &image, "/heel", 2)?;
    tell::point(rt, &image, "/heel", 3)
}

// ---- paths that are not valid: every call answers 2

fn refused_path(rt: &impl Print, path: &str) -> io::Result<()> {
    let mut image = with_both();
    tell::find(rt, &image, path)?;
    tell::read_32(rt, &image, path)?;
    tell::point(rt, &image, path, 1)?;
    tell::make_directory(rt, &mut image, path, 1)?;
    tell::make_file(rt, &mut image, path, 0)?;
    tell::write(rt, &mut image, path, 0, b"a")?;
    tell::set_length(rt, &mut image, path, 0)?;
    tell::remove(rt, &mut image, path)
}

fn paths(rt: &impl Print) -> io::Result<()> {
    for path in ["", "/a/", "//", "a", "/.."] {
        refused_path(rt, path)?;
    }
    Ok(())
}

// ---- the detached pair

// The parent and the one slot of a directory, whose data begins at `at`.
fn set_directory(image: &mut [u8; 256], at: usize, parent: Ref, name: Ref, object: Ref)
    requires { at < 232 }
{
    storage::write_ref(image, Offset(at), parent);
    storage::write_ref(image, Offset(at + 8), name);
    storage::write_ref(image, Offset(at + 16), object);
}

// The directories /a at 5, its name at 7, and /b at 8, its name at 10; then each is in the other's slot, and the root is empty.
fn detached(rt: &impl Print) -> io::Result<()> {
    let mut image = formatted();
    tell::make_directory(rt, &mut image, "/a", 1)?;
    tell::make_directory(rt, &mut image, "/b", 1)?;
    tell::slot(rt, &image, 0)?;
    tell::slot(rt, &image, 1)?;
    tell::check(rt, "two directories", &image)?;
    storage::zero(&mut image, Offset(48), 32);
    set_directory(&mut image, 88, Ref(8), Ref(10), Ref(8));
    set_directory(&mut image, 136, Ref(5), Ref(7), Ref(5));
    tell::check(rt, "the detached pair", &image)
}

fn main(rt: HostRuntime) -> io::Result<()> {
    format_card(&rt)?;
    make_heel(&rt)?;
    make_a(&rt)?;
    remove_heel(&rt)?;
    make_b(&rt)?;
    format_64(&rt)?;
    format_others(&rt)?;
    writes(&rt)?;
    largest_points(&rt)?;
    points_of_40(&rt)?;
    paths(&rt)?;
    detached(&rt)
}
