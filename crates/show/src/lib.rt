// What the programs share: an image written as words, a buffer read full, and texts.

#![tactic(auto)]

ghost use Rattle.std.specs.Prelude.{◌≡◌, ◌<◌, ◌≤◌, length, take, IfOk};
ghost use Rattle.std.specs.Io.KnownBytes.{Consumes, IsAtEnd};
ghost use Rattle.show.specs.Words.{spread_over};

use std::io;
use std::io::Read;
use storage::Offset;

pub mod text;

// The first word of a block is its magic and its size.
pub const SUPERBLOCK: u64 = 0x53463031_00000000;

pub const DIRECTORY: u64 = 0x53466465_00000000;

pub const NAME: u64 = 0x53466e61_00000000;

pub const FILE: u64 = 0x53467265_00000000;

pub const FREE: u64 = 0x53466672_00000000;

// The words from the front of the image on, as many as there is room for.
pub fn spread(words: &[u64], image: &mut [u8])
    ensures { image.new ≡ spread_over words.now image.old }
{
    for (i, word) in words.iter().take(image.len() / 8).enumerate() {
        storage::write_u64(image, Offset(8 * i), *word);
    }
}

// Reads until `buffer` is full or the input ends: how many bytes are read, to its front.
pub fn read_full<R: Read>(from: &mut R, buffer: &mut [u8]) -> io::Result<usize>
    ensures bound { IfOk result (λ n. n ≤ length buffer.new) }
    ensures bytes { IfOk result (λ n. Consumes (R.remaining from.old) (R.remaining from.new) (take n buffer.new)) }
    ensures end { IfOk result (λ n. n < length buffer.new → IsAtEnd (R.remaining from.new)) }
{
    let mut done: usize = 0;
    while done < buffer.len() {
        let n = from.read(&mut buffer[done..])?;
        if n == 0 {
            break;
        }
        done += n;
    }
    Ok(done)
}
