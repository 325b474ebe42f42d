// The characters of a name: UTF-8 by RFC 3629, and none of the forbidden bytes.

ghost use Rattle.std.specs.Prelude.{◌≡◌, ◌≤◌};
ghost use Rattle.std.specs.Option.{MatchOption};
ghost use Rattle.path.specs.Name as rule;
ghost use Rattle.path.specs.Name.{forbidden};
ghost use Rattle.path.specs.Spelling as spec;
ghost use Rattle.path.specs.Spelling.{Refuses, Goes};
ghost use Rattle.path.specs.Walk.{Walk};

// Whether `b` is 00, 2F or 5C.
fn forbidden_byte(b: u8) -> bool
    ensures { result ≡ forbidden b }
{
    matches!(b, 0x00 | 0x2f | 0x5c)
}

// What is to come of a character: so many followers, the next one from `low` to `high`.
#[derive(Clone, Copy)]
struct Awaited {
    left: u8,
    low: u8,
    high: u8,
}

// Nothing is to come: a character begins.
const WHOLE: Awaited = Awaited {
    left: 0,
    low: 0x80,
    high: 0xbf,
};

// How many followers `b` takes as the first byte of a character.
#[tactic(auto, unfolding(crate::specs::Name::followers))]
fn followers(b: u8) -> u8
    ensures { result ≡ rule.followers b }
{
    match b {
        0x00..=0x7f => 0,
        0x80..=0xdf => 1,
        0xe0..=0xef => 2,
        0xf0..=0xff => 3,
    }
}

// The least byte that may follow `b`; FF where no character of several bytes begins with `b`.
#[tactic(auto, unfolding(crate::specs::Name::lowest))]
fn lowest(b: u8) -> u8
    ensures { result ≡ rule.lowest b }
{
    match b {
        0xe0 => 0xa0,
        0xf0 => 0x90,
        0xc2..=0xf4 => 0x80,
        _ => 0xff,
    }
}

// The greatest byte that may follow `b`.
#[tactic(auto, unfolding(crate::specs::Name::highest))]
fn highest(b: u8) -> u8
    ensures { result ≡ rule.highest b }
{
    match b {
        0xed => 0x9f,
        0xf4 => 0x8f,
        _ => 0xbf,
    }
}

// What is to come after `b`, where a character begins; nothing where `b` is forbidden.
fn begin(b: u8) -> Option<Awaited>
    ensures { MatchOption result (Refuses b 0 0x80 0xbf) (λ n. Goes b 0 0x80 0xbf n.left n.low n.high) }
{
    if 0x80 <= b {
        return Some(Awaited {
            left: followers(b),
            low: lowest(b),
            high: highest(b),
        });
    }
    if forbidden_byte(b) {
        return None;
    }
    Some(WHOLE)
}

// What is to come after `b`, where `a` was to come; nothing where `b` cannot stand there.
fn after(b: u8, a: Awaited) -> Option<Awaited>
    requires { 0x80 ≤ a.low }
    ensures { MatchOption result (Refuses b a.left a.low a.high) (λ n. Goes b a.left a.low a.high n.left n.low n.high) }
{
    if a.left == 0 {
        return begin(b);
    }
    if b < a.low || a.high < b {
        return None;
    }
    Some(Awaited {
        left: a.left - 1,
        low: 0x80,
        high: 0xbf,
    })
}

// How many bytes in front stand alone: below 80, and not forbidden. In most names all do.
fn plain(name: &[u8]) -> usize
    ensures { Walk name.now (spec.spelt name.now) spec.spelt result }
{
    name.iter()
        .position(|b| 0x7f < *b || forbidden_byte(*b))
        .unwrap_or(name.len())
}

// Whether no byte of `name` is forbidden, and its bytes are UTF-8.
pub fn spelt(name: &[u8]) -> bool
    ensures { result ≡ spec.spelt name.now }
{
    let mut a = WHOLE;
    for b in &name[plain(name)..] {
        let Some(next) = after(*b, a) else {
            return false;
        };
        a = next;
    }
    a.left == 0
}
