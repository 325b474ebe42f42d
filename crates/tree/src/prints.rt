// 16 bits of each name in a directory, and chains of slots whose names have like bits: what rule 6 compares.

ghost use Rattle.std.specs.Prelude.{◌≡◌, ◌-◌, ◌≤◌, ◌<◌, length};
ghost use Rattle.tree.specs.Prints.{print_of, PrintIs, Printed, Unchained, Linked, chain, Onward};
ghost use Rattle.tree.specs.Fields.{total};
ghost use Rattle.tree.specs.Directory.{block_in};

use crate::directory::Directory;

// 16 bits of a name.
fn print_of(name: &[u8]) -> u16
    ensures { result ≡ print_of name.now }
{
    name.iter().fold(
        0,
        |h: u16, b| ((u32::from(h) * 251 + u32::from(*b)) % 65536) as u16,
    )
}

// 16 bits of the name in slot `i`. Those of an empty slot are any; the slot's number spreads empty slots over the chains.
fn slot_print(d: Directory, i: usize) -> u16
    requires { i < total (block_in d) }
    ensures { PrintIs d.entry.image.now d.entry.at.0 i result }
{
    match d.name_at(i) {
        Some(name) => print_of(name.body()),
        None => (i % 1024) as u16,
    }
}

// Those of all slots.
pub fn fill_prints(d: Directory, prints: &mut [u16])
    requires { total (block_in d) ≤ length prints.old }
    ensures { Printed d.entry.image.now d.entry.at.0 prints.new }
{
    for i in 0..d.slot_count() {
        prints[i] = slot_print(d, i);
    }
}

// A directory with the bits of its slots.
#[derive(Clone, Copy)]
pub struct Prints<'a> {
    pub directory: Directory<'a>,
    pub row: &'a [u16],
    ghost printed: { Printed directory.image.now directory.at.0 row.now },
}

// The chain that slots with these bits are in, where the last chain is `last`.
fn chain_of(last: usize, print: u16) -> usize
    ensures { (result ≡ chain last print) × (result ≤ last) }
{
    usize::from(print) & last
}

// A link from each slot to the next of its chain: how far before the end that is, 0 where there is none.
pub fn chain_slots(prints: &[u16], heads: &mut [u16], links: &mut [u16])
    requires { Unchained prints.now heads.old links.old }
    ensures { Linked (chain (length heads.old - 1)) prints.now links.new }
{
    let n = prints.len();
    let last = heads.len() - 1;
    for i in (0..n).rev() {
        let h = chain_of(last, prints[i]);
        links[i] = heads[h];
        heads[h] = (n - i) as u16;
    }
}

// Slots in chains, of which the last is `last`.
#[derive(Clone, Copy)]
pub struct Chains<'a> {
    pub prints: &'a [u16],
    pub links: &'a [u16],
    pub last: usize,
    ghost linked: { Linked (chain last) prints.now links.now },
}

impl Chains<'_> {
    // The slot after `j` in its chain, or the end.
    pub fn next(self, j: usize) -> usize
        requires { j < length self.prints.now }
        ensures { Onward (chain self.entry.last) self.entry.prints.now j (length self.entry.prints.now) result }
    {
        self.prints.len() - usize::from(self.links[j])
    }
}
