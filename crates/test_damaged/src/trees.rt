// Damage to the tree: rules 2 to 7.

use crate::cards;
use crate::changed::{Change, show_card, show_one, show_words};
use show::{FILE, FREE, NAME};
use std::io;

// Rule 2.
pub fn roots(rt: &impl Print) -> io::Result<()> {
    show_one(rt, "a root with another parent", 5, 10)?;
    show_one(rt, "a root without a parent", 5, 0)?;
    show_words(
        rt,
        "a root that is a free block",
        &cards::BARE,
        &[(2, 2), (4, FREE + 24), (5, 0)],
        64,
    )?;
    show_words(
        rt,
        "no root and no directory",
        &cards::BARE,
        &[(1, 0), (2, 2), (4, FREE + 24), (5, 0)],
        64,
    )
}

// The directory /a is freed, and its slot has this object.
fn show_object(rt: &impl Print, text: &str, r: u64) -> io::Result<()> {
    show_card(rt, text, &[(2, 10), (9, r), (20, FREE + 24), (21, 13)])
}

// A name at 15, "b", and in the slot of /a that name and this object.
fn show_held(rt: &impl Print, text: &str, r: u64) -> io::Result<()> {
    let b = 0x62000000_00000000;
    show_card(
        rt,
        text,
        &[(22, 15), (23, r), (26, FREE + 24), (30, NAME + 1), (31, b)],
    )
}

// Rule 3.
pub fn slots(rt: &impl Print) -> io::Result<()> {
    show_card(
        rt,
        "an object without a name",
        &[(2, 12), (8, 0), (24, FREE + 56), (25, 0), (26, 0)],
    )?;
    show_object(rt, "a name without an object", 0)?;
    show_object(rt, "a free block in a slot", 10)?;
    show_object(rt, "a slot that points into a block", 11)?;
    show_object(rt, "a slot that points to the end", 16)?;
    show_object(rt, "a slot that points far away", 0x10000000_00000005)?;
    show_card(rt, "name and object exchanged", &[(6, 5), (7, 9)])?;
    show_held(rt, "half a slot in a subdirectory", 0)
}

// Rule 4.
pub fn naming(rt: &impl Print) -> io::Result<()> {
    show_card(
        rt,
        "a name in no slot",
        &[(26, FREE + 24), (30, NAME + 1), (31, 0x62000000_00000000)],
    )?;
    show_card(rt, "a file in no slot", &[(26, FREE + 8), (28, FILE + 24)])?;
    show_card(
        rt,
        "a directory in no slot",
        &[(2, 12), (8, 0), (9, 0), (24, FREE + 56), (25, 0), (26, 0)],
    )?;
    show_held(rt, "a file in two slots", 5)?;
    show_card(
        rt,
        "a name in two slots",
        &[(22, 9), (23, 14), (26, FREE + 8), (28, FILE + 24)],
    )?;
    show_held(rt, "the root in a slot", 2)?;
    show_words(
        rt,
        "a parent that does not hold it",
        &cards::NESTED,
        &[(15, 2)],
        160,
    )
}

// Rule 5: no way to the root.
pub fn detached(rt: &impl Print) -> io::Result<()> {
    show_words(
        rt,
        "a detached pair",
        &cards::NESTED,
        &[(6, 0), (7, 0), (9, 7), (16, 6), (17, 4)],
        160,
    )?;
    show_card(
        rt,
        "a directory in itself",
        &[(8, 0), (9, 0), (21, 10), (22, 12), (23, 10)],
    )
}

fn show_deep(rt: &impl Print, text: &str, changes: &[Change], len: usize) -> io::Result<()> {
    show_words(rt, text, &cards::DEEP, changes, len)
}

// Rule 5. With words 102 and 103 changed the directory at depth 16 is empty.
pub fn depth(rt: &impl Print) -> io::Result<()> {
    show_deep(rt, "16 steps to the root", &[(102, 0), (103, 0)], 832)?;
    show_deep(rt, "17 steps to the root", &[], 880)?;
    show_deep(
        rt,
        "17 steps, the lowest stored first",
        &cards::SWAPPED,
        880,
    )?;
    show_deep(
        rt,
        "a file at depth 16",
        &[(100, FILE + 24), (101, 0), (102, 0), (103, 0)],
        832,
    )?;
    show_deep(rt, "a file at depth 17", &[(106, FILE + 24), (107, 0)], 880)
}

// The name of /a.
fn show_name(rt: &impl Print, text: &str, size: u8, bytes: u64) -> io::Result<()> {
    show_card(rt, text, &[(24, NAME + u64::from(size)), (25, bytes)])
}

// Rule 6.
pub fn names(rt: &impl Print) -> io::Result<()> {
    show_name(rt, "the name .", 1, 0x2e000000_00000000)?;
    show_name(rt, "the name ..", 2, 0x2e2e0000_00000000)?;
    show_name(rt, "the name ...", 3, 0x2e2e2e00_00000000)?;
    show_name(rt, "a name with a slash", 3, 0x612f6200_00000000)?;
    show_name(rt, "a name with a backslash", 3, 0x615c6200_00000000)?;
    show_name(rt, "a name with a zero byte", 2, 0x61000000_00000000)?;
    show_name(rt, "a follower alone", 1, 0x80000000_00000000)?;
    show_name(rt, "a follower missing", 2, 0x61c30000_00000000)?;
    show_name(rt, "a lead byte of five", 5, 0xf8808080_80000000)?;
    show_name(rt, "one four-byte character", 4, 0xf09f8d80_00000000)?;
    show_name(rt, "equal names", 4, 0x6865656c_00000000)
}

// Rule 6: the names of /heel and /a in the two spellings of one word.
pub fn spellings(rt: &impl Print) -> io::Result<()> {
    let one = 0xc3a90000_00000000;
    let other = 0x65cc8100_00000000;
    show_card(
        rt,
        "one word in two spellings",
        &[(18, NAME + 2), (19, one), (24, NAME + 3), (25, other)],
    )
}

// Rule 6: the first and the last characters of two and of three bytes, and what lies beside them.
pub fn characters(rt: &impl Print) -> io::Result<()> {
    show_name(rt, "a slash in two bytes, C0 AF", 2, 0xc0af0000_00000000)?;
    show_name(rt, "7F in two bytes, C1 BF", 2, 0xc1bf0000_00000000)?;
    show_name(rt, "the first of two, C2 80", 2, 0xc2800000_00000000)?;
    show_name(rt, "the last of two, DF BF", 2, 0xdfbf0000_00000000)?;
    show_name(rt, "7FF in three bytes, E0 9F BF", 3, 0xe09fbf00_00000000)?;
    show_name(rt, "the first of three, E0 A0 80", 3, 0xe0a08000_00000000)?;
    show_name(
        rt,
        "before the surrogates, ED 9F BF",
        3,
        0xed9fbf00_00000000,
    )?;
    show_name(rt, "the first surrogate, ED A0 80", 3, 0xeda08000_00000000)?;
    show_name(rt, "the last surrogate, ED BF BF", 3, 0xedbfbf00_00000000)?;
    show_name(
        rt,
        "behind the surrogates, EE 80 80",
        3,
        0xee808000_00000000,
    )?;
    show_name(rt, "the last of three, EF BF BF", 3, 0xefbfbf00_00000000)
}

// Rule 6: the same of four bytes.
pub fn long_characters(rt: &impl Print) -> io::Result<()> {
    show_name(
        rt,
        "FFFF in four bytes, F0 8F BF BF",
        4,
        0xf08fbfbf_00000000,
    )?;
    show_name(rt, "the first of four, F0 90 80 80", 4, 0xf0908080_00000000)?;
    show_name(rt, "10FFFF, F4 8F BF BF", 4, 0xf48fbfbf_00000000)?;
    show_name(rt, "110000, F4 90 80 80", 4, 0xf4908080_00000000)?;
    show_name(rt, "a lead byte above, F5 80 80 80", 4, 0xf5808080_00000000)
}

// Rule 7: the size field of /heel, its chunk size and its reserved bytes.
pub fn files(rt: &impl Print) -> io::Result<()> {
    show_one(rt, "a full file", 11, 32)?;
    show_one(rt, "a file of 33 bytes in room 32", 11, 33)?;
    show_one(rt, "the largest file size", 11, 0xffffffff_ffffffff)?;
    show_one(rt, "a chunk size of 16", 12, 0x00000010_00000000)?;
    show_one(rt, "a reserved byte set", 12, 1)
}
