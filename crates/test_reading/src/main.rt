// The calls that change nothing, on images held here: what each answers, a line to a call.

#![tactic(auto)]

use lines::{show_check, show_finds, show_point, show_points, show_read, show_reads};
use show::spread;
use std::io;

mod cards;
mod lines;

// What is there.
fn finds(rt: &impl Print, image: &[u8]) -> io::Result<()> {
    show_finds(rt, image, &["/", "/heel", "/a", "/a/b"])
}

// A component that is missing, or a file in the way.
fn refused_walks(rt: &impl Print, image: &[u8]) -> io::Result<()> {
    show_finds(
        rt,
        image,
        &[
            "/b",
            "/A",
            "/hee",
            "/heels",
            "/a/a",
            "/b/heel",
            "/heel/b",
            "/heel/b/c",
            "/a/b/c",
        ],
    )
}

fn refused_paths(rt: &impl Print, image: &[u8]) -> io::Result<()> {
    show_finds(
        rt,
        image,
        &[
            "",
            "/a/",
            "//",
            "a",
            "/..",
            "/.",
            "/a//b",
            "/a/a/a/a/a/a/a/a/a/a/a/a/a/a/a/a",
            "/a/a/a/a/a/a/a/a/a/a/a/a/a/a/a/a/a",
        ],
    )?;
    show_read(rt, image, "", 0, 4)?;
    show_point(rt, image, "/a/", 1)
}

fn points(rt: &impl Print, image: &[u8]) -> io::Result<()> {
    show_points(
        rt,
        image,
        &[
            ("/heel", 1),
            ("/heel", 2),
            ("/heel", 3),
            ("/heel", 4),
            ("/heel", 4096),
            ("/heel", 0),
            ("/heel", 4097),
            ("/heel", u64::MAX),
            ("/a/b", 1),
            ("/a", 1),
            ("/", 1),
        ],
    )
}

// Where two refusals apply, the first in order is told.
fn orders(rt: &impl Print, image: &[u8]) -> io::Result<()> {
    show_points(
        rt,
        image,
        &[("//", 0), ("/b", 0), ("/a", 0), ("/b", 1), ("/heel/b", 1)],
    )
}

fn reads(rt: &impl Print, image: &[u8]) -> io::Result<()> {
    show_reads(
        rt,
        image,
        &[
            ("/heel", 0, 4),
            ("/heel", 7, 4),
            ("/heel", 36, 4),
            ("/heel", 38, 4),
            ("/heel", 39, 4),
            ("/heel", 40, 4),
            ("/heel", 41, 4),
            ("/heel", 0xffffffff_ffffffff, 4),
            ("/heel", 0xffffffff_fffffff0, 4),
            ("/heel", 7, 0),
            ("/heel", 0, 40),
            ("/heel", 1, 40),
            ("/heel", 0, 50),
            ("/heel", 30, 50),
            ("/a/b", 0, 50),
        ],
    )
}

// The buffer stays as it was.
fn refused_reads(rt: &impl Print, image: &[u8]) -> io::Result<()> {
    show_reads(
        rt,
        image,
        &[
            ("/", 0, 4),
            ("/a", 0, 4),
            ("/b", 0, 4),
            ("/heel/b", 0, 4),
            ("heel", 0, 4),
        ],
    )
}

fn largest_file(rt: &impl Print, image: &[u8; 65648]) -> io::Result<()> {
    show_check(rt, "the largest file", image)?;
    show_finds(rt, image, &["/a"])?;
    show_points(
        rt,
        image,
        &[("/a", 1), ("/a", 4095), ("/a", 4096), ("/a", 4097)],
    )?;
    show_reads(
        rt,
        image,
        &[
            ("/a", 65532, 4),
            ("/a", 65535, 4),
            ("/a", 65536, 4),
            ("/a", 65510, 50),
        ],
    )
}

fn card(rt: &impl Print) -> io::Result<()> {
    let mut image = [0u8; 320];
    spread(&cards::CARD, &mut image);
    show_check(rt, "the card", &image)?;
    finds(rt, &image)?;
    refused_walks(rt, &image)?;
    refused_paths(rt, &image)?;
    points(rt, &image)?;
    orders(rt, &image)?;
    reads(rt, &image)?;
    refused_reads(rt, &image)
}

// An image that is not well formed: every call refuses it.
fn detached(rt: &impl Print) -> io::Result<()> {
    let mut image = [0u8; 160];
    spread(&cards::DETACHED, &mut image);
    show_check(rt, "the detached pair", &image)?;
    show_finds(rt, &image, &["/", "//"])?;
    show_read(rt, &image, "/a", 0, 4)?;
    show_point(rt, &image, "/a", 0)
}

// A file of 65,536 bytes: zeros, but for the last.
fn largest(rt: &impl Print) -> io::Result<()> {
    let mut image = [0u8; 65648];
    spread(&cards::LARGEST, &mut image);
    spread(&cards::LAST, &mut image[65616..]);
    largest_file(rt, &image)
}

fn main(rt: HostRuntime) -> io::Result<()> {
    card(&rt)?;
    detached(&rt)?;
    largest(&rt)
}
