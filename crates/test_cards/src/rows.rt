// The listing into a row of four lines, of which some are lent.

ghost use Rattle.std.specs.Prelude.{◌≤◌};

use calls::reading::Kind;
use listing::lines::{Line, Node};
use listing::rows;
use listing::rows::Listed;
use show::read_full;
use show::text::{Answer, Shown};
use std::io;
use std::rt::Files;
use storage::Ref;

// Lines that no listing has.
fn blank() -> [Line; 4] {
    let node = Node {
        at: Ref(99),
        parent: Ref(99),
        name: Ref(99),
        depth: 99,
    };
    let kind = Kind::File { size: 99, room: 99 };
    [Line { node, kind }; 4]
}

fn show_line(rt: &impl Print, l: Line) -> io::Result<()> {
    let Line { node, kind } = l;
    let (at, parent, name, depth) = (node.at.0, node.parent.0, node.name.0, node.depth);
    let kind = Shown(kind);
    println!(rt; "  ref {at}, parent {parent}, name {name}, depth {depth}, {kind}")
}

// The answer, and the whole row after it.
fn show_row(rt: &impl Print, listed: Listed<()>, row: [Line; 4]) -> io::Result<()> {
    let answer = Answer::of(&listed.outcome);
    let count = listed.count;
    println!(rt; ": {answer}, count {count}")?;
    for l in row {
        show_line(rt, l)?;
    }
    Ok(())
}

// The first `n` lines of the row are lent.
fn lend(rt: &impl Print, image: &[u8], n: usize) -> io::Result<()>
    requires { n ≤ 4 }
{
    let mut row = blank();
    let listed = rows::list(image, &mut row[..n]);
    show_row(rt, listed, row)
}

// The card of 256 bytes in this file.
fn show(rt: &(impl Print + Files), path: &str, n: usize) -> io::Result<()>
    requires { n ≤ 4 }
{
    let mut image = [0u8; 256];
    let size = match crate::open(rt, path.as_bytes()) {
        Some(mut file) => read_full(&mut file, &mut image)?,
        None => 0,
    };
    print!(rt; "-- {path} into {n}")?;
    lend(rt, &image[..size], n)
}

// More lines than the card has, exactly as many, and too few; then a card that is refused.
pub fn run(rt: &(impl Print + Files)) -> io::Result<()> {
    show(rt, "sample", 4)?;
    show(rt, "sample", 3)?;
    show(rt, "sample", 2)?;
    show(rt, "detached", 4)
}
