// The line of an image: the words of a card, then zeros, with some words changed.

ghost use Rattle.std.specs.Prelude.{◌≡◌, length};

use crate::cards;
use show::spread;
use show::text::Answer;
use std::io;
use storage::Offset;

// The index of a word, and the word that it becomes.
pub type Change = (usize, u64);

// The number and the place that the exported check tells.
fn check(image: &[u8]) -> Answer {
    let mut place: u64 = 0;
    let number = sffs1::sffs1_check(image, &mut place);
    Answer { number, place }
}

// The longest image and a unit more.
fn zeros() -> [u8; 1048592]
    ensures { 1048592 ≡ length result }
{
    [0; 1048592]
}

// One change; there is none outside the image.
fn put(image: &mut [u8], index: usize, word: u64) {
    if index < image.len() / 8 {
        storage::write_u64(image, Offset(8 * index), word);
    }
}

// All of them, in their order.
fn change(image: &mut [u8], changes: &[Change]) {
    for &(index, word) in changes {
        put(image, index, word);
    }
}

// The line of an image of `len` bytes: the words, and rows of changes one after the other. A longer one has none.
fn show_changed(
    rt: &impl Print,
    text: &str,
    words: &[u64],
    rows: &[&[Change]],
    len: usize,
) -> io::Result<()> {
    let mut image = zeros();
    spread(words, &mut image);
    for row in rows {
        change(&mut image, row);
    }
    let Some(front) = image.get(..len) else {
        return Ok(());
    };
    println!(rt; "{text}: {}", check(front))
}

// The line of an image of `len` bytes.
pub fn show_words(
    rt: &impl Print,
    text: &str,
    words: &[u64],
    changes: &[Change],
    len: usize,
) -> io::Result<()> {
    show_changed(rt, text, words, &[changes], len)
}

// The line of the card of 256 bytes.
pub fn show_card(rt: &impl Print, text: &str, changes: &[Change]) -> io::Result<()> {
    show_words(rt, text, &cards::CARD, changes, 256)
}

// The same with one change.
pub fn show_one(rt: &impl Print, text: &str, index: usize, word: u64) -> io::Result<()> {
    show_card(rt, text, &[(index, word)])
}

// The line of the card after /heel was removed.
pub fn show_removed(rt: &impl Print, text: &str, changes: &[Change]) -> io::Result<()> {
    show_changed(rt, text, &cards::CARD, &[&cards::REMOVED, changes], 256)
}
