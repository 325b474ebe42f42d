// The call: the caller lends a row of lines.

ghost use Rattle.std.specs.Prelude.{◌≡◌, ◌≤◌, map, length, IfOk};
ghost use Rattle.calls.specs.Answers.{outcome_of};
ghost use Rattle.listing.specs.Answers.{line_is, lines_to, AnswersFor, Lists};
ghost use Rattle.history.specs.Listing as spec;
ghost use Rattle.history.specs.Listing.{lines_of};

use crate::lines::Line;
use crate::seek::Lines;
use crate::walk;
use calls::check;
use calls::check::WellFormed;
use calls::refusal::{Reason, Refusal};

// What the call hands on, or why it is refused; and how many lines the image has.
#[derive(Clone, Copy)]
pub struct Listed<T> {
    pub outcome: Result<T, Refusal>,
    pub count: u64,
}

// How the call begins where so many lines are lent: with the image whose lines are told.
pub fn count(image: &[u8], lent: usize) -> Listed<WellFormed<'_>>
    ensures answers { AnswersFor image.now lent (outcome_of result.outcome) result.count }
    ensures same_image { IfOk result.outcome (λ f. f.image.now ≡ image.now) }
{
    let formed = match check::well_formed(image) {
        Err(own) => {
            return Listed {
                outcome: Err(own),
                count: 0,
            }
        }
        Ok(formed) => formed,
    };
    let count = walk::count(formed);
    if (lent as u64) < count {
        return Listed {
            outcome: Err(Refusal::For(Reason::TooFewLines)),
            count,
        };
    }
    Listed {
        outcome: Ok(formed),
        count,
    }
}

// The first lines of the image, as many as there is room for.
fn fill(formed: WellFormed, lines: &mut [Line])
    requires { length lines.old ≤ length (lines_of formed.image.now) }
    ensures { lines.new ≡ lines_to formed.entry.image.now (length lines.old) }
{
    let mut ahead = Lines::new(formed);
    for line in lines {
        if let Some(next) = ahead.next() {
            *line = next;
        }
    }
}

// A line for every object of the image, the root first.
pub fn list(image: &[u8], lines: &mut [Line]) -> Listed<()>
    ensures { Lists (spec.list image.now (map line_is lines.old)) (outcome_of result.outcome) result.count lines.new }
{
    let Listed { outcome, count } = count(image, lines.len());
    if let Ok(formed) = outcome {
        let (told, _) = lines.split_at_mut(count as usize);
        fill(formed, told);
    }
    Listed {
        outcome: outcome.and(Ok(())),
        count,
    }
}
