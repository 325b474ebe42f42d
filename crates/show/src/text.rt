// What several programs print, each thing with its text.

ghost use Rattle.std.specs.Prelude.{◌≡◌, Some};
ghost use Rattle.calls.specs.Answers.{outcome_of};
ghost use Rattle.calls.specs.Refusal.{number_of, place_of};
ghost use Rattle.std.specs.Fmt.{WritesOnOk};
ghost use Rattle.show.specs.Text.{answer_text, kind_text, hex_byte, hex_text};

use calls::reading::Kind;
use calls::refusal;
use calls::refusal::Refusal;
use std::fmt;

// What a call answers: its number, and the place where the image breaks a rule.
#[derive(Clone, Copy)]
pub struct Answer {
    pub number: u8,
    pub place: u64,
}

impl Answer {
    pub fn of<T>(answer: &Result<T, Refusal>) -> Answer
        ensures number { result.number ≡ number_of (outcome_of answer.now) }
        ensures place { result.place ≡ place_of (outcome_of answer.now) }
    {
        Answer {
            number: refusal::number(answer),
            place: refusal::place(answer).0,
        }
    }
}

impl fmt::Display for Answer {
    ghost output = { λ a. Some (answer_text a.number a.place) };

    fn fmt<W: fmt::Write>(&self, f: &mut fmt::Formatter<W>) -> fmt::Result {
        write!(f, "{}", self.number)?;
        if 20 < self.number {
            write!(f, " at {}", self.place)?;
        }
        Ok(())
    }
}

// A kind and its two numbers.
#[derive(Clone, Copy)]
pub struct Shown(pub Kind);

impl fmt::Display for Shown {
    ghost output = { λ k. Some (kind_text k.0) };

    fn fmt<W: fmt::Write>(&self, f: &mut fmt::Formatter<W>) -> fmt::Result {
        match self.0 {
            Kind::File { size, room } => write!(f, "file {size}/{room}"),
            Kind::Directory { taken, total } => write!(f, "directory {taken}/{total}"),
        }
    }
}

// A byte in hex.
fn write_byte<W: fmt::Write>(f: &mut fmt::Formatter<W>, b: u8) -> fmt::Result
    ensures { WritesOnOk W.write_str_gives f.old result (hex_byte b) f.new }
{
    write!(f, "{b:02x}")
}

// Bytes in hex.
#[derive(Clone, Copy)]
pub struct Hex<'a>(pub &'a [u8]);

impl fmt::Display for Hex<'_> {
    ghost output = { λ h. Some (hex_text h.0.now) };

    fn fmt<W: fmt::Write>(&self, f: &mut fmt::Formatter<W>) -> fmt::Result {
        for &b in self.0 {
            write_byte(f, b)?;
        }
        Ok(())
    }
}
