// Check: what every call that looks at the image begins with.

ghost use Rattle.std.specs.Prelude.{ℕ, ◌≡◌, ◌<◌, true, get_or, IfOk};
ghost use Rattle.tree.specs.Verdict.{well_formed};
ghost use Rattle.calls.specs.Refusal as spec;
ghost use Rattle.calls.specs.Answers.{Checks, outcome_of};

use crate::refusal::{Reason, Refusal};
use alloc::tiled::Tiled;

// An image that keeps every rule.
#[derive(Clone, Copy)]
pub struct WellFormed<'a> {
    pub image: &'a [u8],
    ghost bytes: { (i : ℕ) → get_or image.now i 0 < 256 },
    ghost formed: { well_formed image.now ≡ true },
}

impl<'a> WellFormed<'a> {
    // As one that its blocks tile.
    pub fn tiled(self) -> Tiled<'a>
        ensures { result.image.now ≡ self.entry.image.now }
    {
        let WellFormed { image } = self;
        Tiled { image }
    }
}

// The image as one that keeps every rule, or its own refusal: the lowest-numbered broken rule, at the first block that breaks it.
pub fn well_formed(image: &[u8]) -> Result<WellFormed<'_>, Refusal>
    ensures outcome { outcome_of result ≡ spec.check image.now }
    ensures same_image { IfOk result (λ f. f.image.now ≡ image.now) }
{
    tree::verdict::judge(image)?;
    Ok(WellFormed { image })
}

// The image's own refusal, if it has one.
pub fn check(image: &[u8]) -> Result<(), Refusal>
    ensures { outcome_of result ≡ spec.check image.now }
{
    well_formed(image)?;
    Ok(())
}

// The same with lent marks, one for each unit: afterwards they are the image's, or 0 where it is not well formed.
pub fn check_marked(image: &[u8], marks: &mut [u8]) -> Result<(), Refusal>
    ensures { Checks (spec.check_marked image.now marks.old) (outcome_of result) marks.new }
{
    if (marks.len() as u64) < storage::units_of(image.len()) {
        return Err(Refusal::For(Reason::TooFewMarks));
    }
    Ok(tree::verdict::judge_marked(image, marks)?)
}
