// What stands in a well-formed image: its ref, with the image that it is read from.

ghost use Rattle.std.specs.Prelude.{ℕ, ◌≡◌, ◌<◌, ◌≤◌, ◌+◌, false, MatchOption, get_or, length, take, drop};
ghost use Rattle.alloc.specs.Block.{block_of};
ghost use Rattle.tree.specs.Fields.{is_dir, is_file, total, slots, slot_at, taken_count, file_size, room, content};
ghost use Rattle.tree.specs.Answers.{slot_of};
ghost use Rattle.calls.specs.Answers.{ObjectAt, DirectoryIn, FileIn, KnownAs};
ghost use Rattle.calls.specs.Reading.{block_in};

use alloc::access::Block;
use alloc::block::{Header, Kind};
use storage::{Pos, Ref};
use tree::fields::{DirectoryFields, FileFields, Slot};

// A file or a directory.
#[derive(Clone, Copy)]
pub struct Object<'a> {
    pub image: &'a [u8],
    pub at: Ref,
    ghost bytes: { (i : ℕ) → get_or image.now i 0 < 256 },
    ghost there: { ObjectAt image.now at.0 },
}

impl<'a> Object<'a> {
    // The directory that it is, if it is one.
    pub fn directory(self) -> Option<Directory<'a>>
        ensures { MatchOption result (is_dir (block_in self.entry.image.now self.entry.at.0) ≡ false) (λ d. KnownAs is_dir self.entry.image.now self.entry.at.0 d.image.now d.at.0) }
    {
        let Object { image, at } = self;
        let header = Header { image, at };
        if !header.is(Kind::Directory) {
            return None;
        }
        Some(Directory { image, at })
    }

    // The file that it is, if it is one.
    pub fn file(self) -> Option<File<'a>>
        ensures { MatchOption result (is_file (block_in self.entry.image.now self.entry.at.0) ≡ false) (λ f. KnownAs is_file self.entry.image.now self.entry.at.0 f.image.now f.at.0) }
    {
        let Object { image, at } = self;
        let header = Header { image, at };
        if !header.is(Kind::File) {
            return None;
        }
        Some(File { image, at })
    }
}

// A directory.
#[derive(Clone, Copy)]
pub struct Directory<'a> {
    pub image: &'a [u8],
    pub at: Ref,
    ghost bytes: { (i : ℕ) → get_or image.now i 0 < 256 },
    ghost there: { DirectoryIn image.now at.0 },
}

impl<'a> Directory<'a> {
    // Its fields, as they stand in the image.
    fn fields(self) -> DirectoryFields<'a>
        ensures { block_of result.image.now result.at.0 ≡ block_in self.entry.image.now self.entry.at.0 }
    {
        let Directory { image, at } = self;
        DirectoryFields { image, at }
    }

    // How many slots it has.
    pub fn slot_count(self) -> usize
        ensures { result ≡ total (block_in self.entry.image.now self.entry.at.0) }
    {
        self.fields().slot_count()
    }

    // Its slot `i`.
    pub fn slot_at(self, i: usize) -> Slot
        requires { i < total (block_in self.image.now self.at.0) }
        ensures { slot_of result ≡ slot_at (block_in self.entry.image.now self.entry.at.0) i }
    {
        self.fields().slot_at(i)
    }

    // How many of its slots are taken.
    pub fn taken_count(self) -> u64
        ensures { result ≡ taken_count (slots (block_in self.entry.image.now self.entry.at.0)) }
    {
        self.fields().taken_count()
    }
}

// A file.
#[derive(Clone, Copy)]
pub struct File<'a> {
    pub image: &'a [u8],
    pub at: Ref,
    ghost bytes: { (i : ℕ) → get_or image.now i 0 < 256 },
    ghost there: { FileIn image.now at.0 },
}

impl<'a> File<'a> {
    // Its fields, as they stand in the image.
    fn fields(self) -> FileFields<'a>
        ensures { block_of result.image.now result.at.0 ≡ block_in self.entry.image.now self.entry.at.0 }
    {
        let File { image, at } = self;
        FileFields { image, at }
    }

    // The file size.
    pub fn size(self) -> u64
        ensures { result ≡ file_size (block_in self.entry.image.now self.entry.at.0) }
    {
        self.fields().size()
    }

    // How many bytes it has room for.
    pub fn room(self) -> u64
        ensures { result ≡ room (block_in self.entry.image.now self.entry.at.0) }
    {
        self.fields().room()
    }

    // Its bytes from the position on, as many as `buffer` holds.
    pub fn copy_out(self, position: usize, buffer: &mut [u8])
        requires { position + length buffer.old ≤ file_size (block_in self.image.now self.at.0) }
        ensures { buffer.new ≡ take (length buffer.old) (drop position (content (block_in self.entry.image.now self.entry.at.0))) }
    {
        let File { image, at } = self;
        Block { image, at }.copy_out(Pos(16 + position), buffer);
    }
}
