// Damage to the blocks: rules 1 and 8.

use crate::cards;
use crate::changed::{show_card, show_one, show_removed, show_words};
use show::{DIRECTORY, FILE, FREE, NAME, SUPERBLOCK};
use std::io;

pub fn undamaged(rt: &impl Print) -> io::Result<()> {
    show_card(rt, "two objects and a free block", &[])?;
    show_removed(rt, "a gap in the middle", &[])?;
    show_words(rt, "a directory in a directory", &cards::NESTED, &[], 160)
}

// Rule 1: the kinds.
pub fn kinds(rt: &impl Print) -> io::Result<()> {
    show_card(
        rt,
        "a block of no kind",
        &[(26, FREE + 24), (30, 0x53467878_00000008)],
    )?;
    show_card(
        rt,
        "a second superblock",
        &[(26, FREE + 8), (28, SUPERBLOCK + 16)],
    )
}

// Rule 1: the sizes.
pub fn sizes(rt: &impl Print) -> io::Result<()> {
    show_one(rt, "a superblock of size 24", 0, SUPERBLOCK + 24)?;
    show_card(
        rt,
        "a directory without slots",
        &[(2, 11), (20, DIRECTORY + 8), (22, FREE + 8), (23, 13)],
    )?;
    show_one(rt, "a directory with half a slot", 20, DIRECTORY + 16)?;
    show_one(rt, "a free block of 47 bytes", 26, FREE + 39)?;
    show_one(rt, "a last block past the end", 26, FREE + 56)?;
    show_one(rt, "a size with the highest bit", 26, FREE + 0x80000028)
}

// Rule 1: the limits of a size.
pub fn limits(rt: &impl Print) -> io::Result<()> {
    show_words(rt, "a name of 64 bytes", &cards::LONG_NAME, &[], 176)?;
    show_words(
        rt,
        "a name of 65 bytes",
        &cards::LONG_NAME,
        &[(8, NAME + 65), (17, 0x61000000_00000000)],
        176,
    )?;
    show_words(rt, "a room of 65536", &cards::LONG_FILE, &[], 65648)?;
    show_words(
        rt,
        "a room of 65537",
        &cards::LONG_FILE,
        &[(10, FILE + 65553)],
        65648,
    )?;
    show_words(
        rt,
        "1025 slots",
        &cards::LONG_DIRECTORY,
        &[(4, DIRECTORY + 16408)],
        16448,
    )
}

// Rule 1: the padding.
pub fn padding(rt: &impl Print) -> io::Result<()> {
    show_one(rt, "a bit set after the superblock", 3, 1)?;
    show_one(rt, "a bit set after a name", 19, 0x6865656c_01000000)?;
    show_one(rt, "a bit set after a file's room", 17, 0x80000000_00000000)
}

// The first bytes of the card, and zeros where it is longer.
fn show_length(rt: &impl Print, text: &str, len: usize) -> io::Result<()> {
    show_words(rt, text, &cards::CARD, &[], len)
}

// Rule 1: the length of the image, and blocks that do not end with it.
pub fn lengths(rt: &impl Print) -> io::Result<()> {
    show_length(rt, "no bytes", 0)?;
    show_length(rt, "48 bytes", 48)?;
    show_length(rt, "255 bytes", 255)?;
    show_length(rt, "257 bytes", 257)?;
    show_length(rt, "the last unit cut off", 240)?;
    show_length(rt, "a unit of zeros at the end", 272)?;
    show_words(rt, "1048576 bytes", &cards::LONGEST, &[], 1048576)?;
    show_words(
        rt,
        "1048592 bytes",
        &cards::LONGEST,
        &[(8, FREE + 1048520)],
        1048592,
    )
}

// Rule 8: a chain of one.
pub fn chains(rt: &impl Print) -> io::Result<()> {
    show_one(rt, "a free block and no first ref", 2, 0)?;
    show_one(rt, "a file first in the chain", 2, 5)?;
    show_one(rt, "a first ref inside a free block", 2, 14)?;
    show_one(rt, "a chain that leaves the image", 27, 16)?;
    show_one(rt, "a free block before itself", 27, 13)?;
    show_card(
        rt,
        "two free neighbours",
        &[(26, FREE + 8), (27, 14), (28, FREE + 24)],
    )
}

// Rule 8: a chain of two, and one of none.
pub fn other_chains(rt: &impl Print) -> io::Result<()> {
    show_removed(rt, "a free block left out", &[(11, 0)])?;
    show_removed(rt, "a falling chain", &[(2, 13), (11, 0), (27, 5)])?;
    show_removed(rt, "a chain in a circle", &[(27, 5)])?;
    show_words(
        rt,
        "a first ref and nothing free",
        &cards::BARE,
        &[(2, 2)],
        64,
    )
}
