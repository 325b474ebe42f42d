// A card, printed.

use crate::line;
use calls::check::WellFormed;
use calls::refusal::{Reason, Refusal};
use calls::{check, refusal};
use listing::seek::Lines;
use std::io;
use storage::Ref;

// An image that is longer than the program holds.
pub fn refuse_longer(rt: &impl Print) -> io::Result<()> {
    println!(rt; "refused {}", Reason::BadLength as u8)
}

// The number, and the place last.
fn refuse<T>(rt: &impl Print, answer: &Result<T, Refusal>) -> io::Result<()> {
    println!(rt;
        "refused {} {}",
        refusal::number(answer),
        refusal::place(answer).0
    )
}

// The length of the image and its free units, then every line, with the name refs of its object and of the directories above it.
fn list(rt: &impl Print, formed: WellFormed) -> io::Result<()> {
    let WellFormed { image } = formed;
    let free = formed.tiled().free_units();
    println!(rt; "image {} free {free}", image.len())?;
    let mut names = [Ref(0); 17];
    for line in Lines::new(formed) {
        let depth = line.node.depth.min(16) as usize;
        names[depth] = line.node.name;
        line::say(rt, image, line, &names[1..=depth])?;
    }
    Ok(())
}

// The listing, or the refusal.
pub fn show(rt: &impl Print, image: &[u8]) -> io::Result<()> {
    let answer = check::well_formed(image);
    match answer {
        Err(_) => refuse(rt, &answer),
        Ok(formed) => list(rt, formed),
    }
}
