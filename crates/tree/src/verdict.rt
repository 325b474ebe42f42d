// The verdict on an image: the lowest-numbered broken rule, and the first block in storage order that breaks it.

ghost use Rattle.std.specs.Prelude.{◌≡◌, ℕ, ◌*◌, ◌/◌, ◌≤◌, length, true, Bool};
ghost use Rattle.alloc.specs.Block as model;
ghost use Rattle.alloc.specs.Volume.{volume_of, objects, chained};
ghost use Rattle.tree.specs.Marks.{Slotted, Annotated, Fresh, Judges, Decides, trimmed};
ghost use Rattle.tree.specs.Rules.{root_stands};
ghost use Rattle.tree.specs.Verdict.{breaker, or_else, unless, unbroken, block_rules, verdict_on, verdict};
ghost use Rattle.tree.specs.Answers.{rule_number, place_of, verdict_of, Ready, ObjectAt, Asks, Computes, KeepsAll, NoneBroken};

use crate::fields;
use alloc::access::Block;
use alloc::block::Kind;
use alloc::chain::Scan;
use alloc::marks;
use alloc::marks::Marks;
use alloc::tiled::Tiled;
use storage::Ref;

// A rule of the definition.
#[derive(Clone, Copy, PartialEq, Eq)]
pub enum Rule {
    Tiling = 1,
    Root = 2,
    Slots = 3,
    Naming = 4,
    Depth = 5,
    Names = 6,
    Files = 7,
    Chain = 8,
}

impl Rule {
    // Its number in the definition.
    pub fn number(self) -> u8
        ensures { result ≡ rule_number self }
    {
        self as u8
    }
}

// A broken rule, and the first block that breaks it: 0 for a wrong length and for the rules of the whole image.
#[derive(Clone, Copy, PartialEq, Eq)]
pub struct Breach {
    pub rule: Rule,
    pub place: Ref,
}

// The lowest-numbered broken rule, if one is.
pub type Verdict = Result<(), Breach>;

// The verdict on one rule, by the place where it is broken.
fn kept(rule: Rule, breaker: Option<Ref>) -> Verdict
    ensures { verdict_of result ≡ or_else (rule_number rule) (place_of breaker) unbroken }
{
    match breaker {
        Some(place) => Err(Breach { rule, place }),
        None => Ok(()),
    }
}

// The place of a rule of the whole image, where it is broken.
fn unless(holds: bool) -> Option<Ref>
    ensures { place_of result ≡ unless holds }
{
    if holds { None } else { Some(Ref(0)) }
}

// Rule 2.
fn root_stands(marks: Marks, root: Ref) -> bool
    ensures { result ≡ root_stands (objects (volume_of marks.entry.image.now)) root.0 }
{
    fields::parent_of(marks, root) == Some(root)
}

// The first block that fails a test. Free blocks fail none.
fn first_breaker<F: Fn(Block) -> bool>(tiled: Tiled, keeps: F) -> Option<Ref>
    requires { Asks (F.pre keeps) tiled.image.now }
    ensures { (p : ℕ → model.Block → Bool) → Computes (F.post keeps) tiled.entry.image.now p → place_of result ≡ breaker p (objects (volume_of tiled.entry.image.now)) }
{
    for block in tiled.blocks() {
        if !block.is(Kind::Free) && !keeps(block) {
            return Some(block.at);
        }
    }
    None
}

// Marks with the namings counted, of an image that keeps rules 1 to 3.
#[derive(Clone, Copy)]
struct Counted<'a> {
    marks: Marks<'a>,
    root: Ref,
    ghost ready: { Ready marks.image.now marks.row.now root.0 },
}

impl Counted<'_> {
    // Whether an object of the image keeps rules 4 to 7.
    fn keeps_all(self, block: Block) -> bool
        requires { (block.image.now ≡ self.marks.image.now) × ObjectAt block.image.now block.at.0 }
        ensures { result ≡ true → KeepsAll self.entry.marks.image.now self.entry.root.0 block.entry.at.0 }
    {
        if !crate::naming::keeps(self.marks.row, self.root, block.at) {
            return false;
        }
        if block.is(Kind::Name) {
            return crate::names::valid(block);
        }
        if block.is(Kind::File) {
            return crate::files::keeps(block);
        }
        if !crate::depth::keeps(self.marks, self.root, block.at) {
            return false;
        }
        crate::names::keeps(block)
    }

    // Whether every object does, and the free chain keeps rule 8, in one walk.
    fn none_broken(self) -> bool
        ensures { result ≡ true → NoneBroken self.entry.marks.image.now self.entry.root.0 × (chained self.entry.marks.image.now ≡ true) }
    {
        let tiled = Tiled {
            image: self.marks.image,
        };
        let mut scan = Scan::start(tiled);
        for block in tiled.blocks() {
            if !scan.pass(block) {
                return false;
            }
            if !block.is(Kind::Free) && !self.keeps_all(block) {
                return false;
            }
        }
        scan.ends()
    }

    // Rules 4 to 7, in their order.
    fn later_broken(self) -> Verdict
        ensures { verdict_of result ≡ block_rules (objects (volume_of self.entry.marks.image.now)) self.entry.root.0 unbroken }
    {
        let tiled = Tiled {
            image: self.marks.image,
        };
        kept(
            Rule::Naming,
            first_breaker(
                tiled,
                |b| crate::naming::keeps(self.marks.row, self.root, b.at),
            ),
        )?;
        kept(
            Rule::Depth,
            first_breaker(tiled, |b| crate::depth::keeps(self.marks, self.root, b.at)),
        )?;
        kept(Rule::Names, first_breaker(tiled, crate::names::keeps))?;
        kept(Rule::Files, first_breaker(tiled, crate::files::keeps))
    }
}

// Rules 4 to 8: one walk where they hold, or else rule by rule.
fn later_rules(image: &[u8], marks: &[u8], root: Ref) -> Verdict
    requires { Ready image.now marks.now root.0 }
    ensures { verdict_of result ≡ verdict_on (objects (volume_of image.now)) (volume_of image.now).root (chained image.now) }
{
    let counted = Counted {
        marks: Marks { image, row: marks },
        root,
    };
    if counted.none_broken() {
        return Ok(());
    }
    counted.later_broken()?;
    kept(Rule::Chain, unless(Tiled { image }.chained()))
}

// Rule 3, block after block. What the slots of a block name is counted where they stand.
fn first_unslotted(image: &[u8], marks: &mut [u8]) -> Option<Ref>
    requires { Fresh image.now marks.old }
    ensures { Slotted image.now (place_of result) marks.old marks.new }
{
    let tiled = Tiled { image };
    for block in tiled.blocks() {
        if !crate::slots::keeps(Marks { image, row: marks }, block.at) {
            return Some(block.at);
        }
        crate::naming::note_block(block, marks);
    }
    None
}

// Rules 2 to 8, of an image that keeps rule 1.
fn after_tiling(image: &[u8], marks: &mut [u8]) -> Verdict
    requires { Fresh image.now marks.old }
    ensures is { verdict_of result ≡ verdict_on (objects (volume_of image.now)) (volume_of image.now).root (chained image.now) }
    ensures marks { Annotated image.now marks.old marks.new }
{
    let root = Tiled { image }.root();
    kept(
        Rule::Root,
        unless(root_stands(Marks { image, row: marks }, root)),
    )?;
    kept(Rule::Slots, first_unslotted(image, marks))?;
    later_rules(image, marks, root)
}

// The verdict, for any bytes, over marks of the image's units; the namings stay counted in them.
fn decide(image: &[u8], marks: &mut [u8]) -> Verdict
    requires { length image.now / 16 ≤ length marks.old }
    ensures { Decides image.now marks.old (verdict_of result) marks.new }
{
    match marks::check(image, marks) {
        Err(place) => kept(Rule::Tiling, Some(place)),
        Ok(()) => after_tiling(image, marks),
    }
}

// The marks without what was counted in them.
fn trim(marks: &mut [u8])
    ensures { marks.new ≡ trimmed marks.old }
{
    for mark in marks.iter_mut() {
        *mark %= 8;
    }
}

// The verdict, for any bytes, over lent marks: afterwards they are the image's, or 0 where a rule is broken.
pub fn judge_marked(image: &[u8], marks: &mut [u8]) -> Verdict
    requires { length image.now / 16 ≤ length marks.old }
    ensures { Judges image.now marks.old (verdict_of result) marks.new }
{
    let v = decide(image, marks);
    if let Err(breach) = v {
        marks::clear(image, marks);
        return Err(breach);
    }
    trim(&mut marks[..storage::units_of(image.len()) as usize]);
    Ok(())
}

// The same over `N` marks of its own.
#[inline(never)]
fn judge_with<const N: usize>(image: &[u8]) -> Verdict
    requires { (length image.now ≤ 16 * N) × (N ≤ 65536) }
    ensures { verdict_of result ≡ verdict image.now }
{
    let mut marks = [0u8; N];
    decide(image, &mut marks)
}

// The verdict, for any bytes. A length past all that are allowed is as wrong as none. (No row of marks is merged into its frame, so that a small
// image needs little stack.)
pub fn judge(image: &[u8]) -> Verdict
    ensures { verdict_of result ≡ verdict image.now }
{
    match image.len() {
        0..=1024 => judge_with::<64>(image),
        1025..=65536 => judge_with::<4096>(image),
        65537..=1048576 => judge_with::<65536>(image),
        _ => kept(Rule::Tiling, Some(Ref(0))),
    }
}
