// Damaged images, each with what the exported check answers: 20 + the lowest-numbered broken rule, and the first block that breaks it. Each image
// breaks one rule only, but for the name of 65 bytes, which breaks rules 1 and 6. Some undamaged ones stand between them.

#![tactic(auto)]

use std::io;

mod blocks;
mod cards;
mod changed;
mod trees;

fn main(rt: HostRuntime) -> io::Result<()> {
    blocks::undamaged(&rt)?;
    blocks::kinds(&rt)?;
    blocks::sizes(&rt)?;
    blocks::limits(&rt)?;
    blocks::padding(&rt)?;
    blocks::lengths(&rt)?;
    trees::roots(&rt)?;
    trees::slots(&rt)?;
    trees::naming(&rt)?;
    trees::detached(&rt)?;
    trees::depth(&rt)?;
    trees::names(&rt)?;
    trees::spellings(&rt)?;
    trees::characters(&rt)?;
    trees::long_characters(&rt)?;
    trees::files(&rt)?;
    blocks::chains(&rt)?;
    blocks::other_chains(&rt)
}
