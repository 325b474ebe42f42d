// Why a call is refused: its number, and the place where the image breaks a rule.

ghost use Rattle.std.specs.Prelude.{◌≡◌};
ghost use Rattle.calls.specs.Refusal.{Broken, number_of, place_of};
ghost use Rattle.calls.specs.Answers.{outcome_of};

use storage::Ref;
use tree::verdict::Breach;

// The refusals of an image that is well formed, and of format, each by document 01's number.
#[derive(Clone, Copy, PartialEq, Eq)]
pub enum Reason {
    BadLength = 1,
    BadPath = 2,
    NotFound = 3,
    NotDirectory = 4,
    IsDirectory = 5,
    Exists = 6,
    NoSlot = 7,
    NoRoom = 8,
    NotEmpty = 9,
    OutOfBounds = 10,
    IsRoot = 11,
    PastRoom = 12,
    PastEnd = 13,
    TooFewLines = 14,
    TooFewMarks = 17,
}

// The image breaks a rule, or the call is refused for another reason.
#[derive(Clone, Copy, PartialEq, Eq)]
pub enum Refusal {
    Broken(Breach),
    For(Reason),
}

impl From<Breach> for Refusal {
    ghost use Rattle.std.specs.Prelude.{◌≡◌};
    ghost use Rattle.calls.specs.declared.refusal.Refusal.TheVariants as told;

    ghost from_gives = { λ b r. r ≡ told.Broken b };

    fn from(breach: Breach) -> Refusal {
        Refusal::Broken(breach)
    }
}

impl From<Reason> for Refusal {
    ghost use Rattle.std.specs.Prelude.{◌≡◌};
    ghost use Rattle.calls.specs.declared.refusal.Refusal.TheVariants as told;

    ghost from_gives = { λ w r. r ≡ told.For w };

    fn from(reason: Reason) -> Refusal {
        Refusal::For(reason)
    }
}

// What is told where an image is refused with this number and this place, whatever they are: the definition's `Broken` may have any.
pub fn number_and_place(number: u8, place: Ref) -> (u8, Ref)
    ensures number { result.0 ≡ number_of (Broken number place) }
    ensures place { result.1.0 ≡ place_of (Broken number place) }
{
    (number, place)
}

// The number of an answer's refusal: 20 + the number of the broken rule, or the reason's; 0 for none.
pub fn number<T>(answer: &Result<T, Refusal>) -> u8
    ensures { result ≡ number_of (outcome_of answer.now) }
{
    match answer {
        Ok(_) => 0,
        Err(Refusal::Broken(breach)) => 20 + breach.rule.number(),
        Err(Refusal::For(reason)) => *reason as u8,
    }
}

// The first block that breaks the rule; 0 where none is told.
pub fn place<T>(answer: &Result<T, Refusal>) -> Ref
    ensures { result.0 ≡ place_of (outcome_of answer.now) }
{
    match answer {
        Ok(_) => Ref(0),
        Err(Refusal::Broken(breach)) => breach.place,
        Err(Refusal::For(_)) => Ref(0),
    }
}
