// The line of a call: its arguments, and what it answers.

use calls::{check, reading};
use show::text::{Answer, Hex, Shown};
use std::io;

pub fn show_check(rt: &impl Print, text: &str, image: &[u8]) -> io::Result<()> {
    let answer = Answer::of(&check::check(image));
    println!(rt; "check {text}: {answer}")
}

fn show_find(rt: &impl Print, image: &[u8], path: &str) -> io::Result<()> {
    let found = reading::find(image, path.as_bytes());
    let answer = Answer::of(&found.refusal);
    let (at, kind) = (found.at.0, Shown(found.kind));
    println!(rt; "find \"{path}\": {answer}, ref {at}, {kind}")
}

pub fn show_point(rt: &impl Print, image: &[u8], path: &str, number: u64) -> io::Result<()> {
    let point = reading::read_point(image, path.as_bytes(), number);
    let answer = Answer::of(&point);
    let bytes = point.unwrap_or([0; 16]);
    println!(rt; "point {number} of \"{path}\": {answer}, {}", Hex(&bytes))
}

// A read into this buffer, and the whole buffer after it.
fn read_into(
    rt: &impl Print,
    image: &[u8],
    path: &str,
    position: u64,
    buffer: &mut [u8],
) -> io::Result<()> {
    let read = reading::read(image, path.as_bytes(), position, buffer);
    let answer = Answer::of(&read);
    let count = read.unwrap_or(0);
    let n = buffer.len();
    println!(rt;
        "read \"{path}\" at {position} into {n}: {answer}, count {count}, {}",
        Hex(buffer)
    )
}

// A read into the first `n` bytes of a buffer of bytes aa.
pub fn show_read(
    rt: &impl Print,
    image: &[u8],
    path: &str,
    position: u64,
    n: usize,
) -> io::Result<()> {
    let mut buffer = [0xaa; 50];
    if n <= 50 {
        read_into(rt, image, path, position, &mut buffer[..n])?;
    }
    Ok(())
}

pub fn show_finds(rt: &impl Print, image: &[u8], paths: &[&str]) -> io::Result<()> {
    for path in paths {
        show_find(rt, image, path)?;
    }
    Ok(())
}

// Each with its path and the number of the point.
pub fn show_points(rt: &impl Print, image: &[u8], rows: &[(&str, u64)]) -> io::Result<()> {
    for &(path, number) in rows {
        show_point(rt, image, path, number)?;
    }
    Ok(())
}

// Each with its path, its position and the length of its buffer.
pub fn show_reads(rt: &impl Print, image: &[u8], rows: &[(&str, u64, usize)]) -> io::Result<()> {
    for &(path, position, n) in rows {
        show_read(rt, image, path, position, n)?;
    }
    Ok(())
}
