//! What a moved pair is looked at with.

ghost use Rattle.std.specs.Prelude.{◌≡◌, ◌↔◌, IsTrue};
ghost use Rattle.step_obstacles.specs.Turns.{MayWeigh, other_of};

use css_model::{Decl, Item, Rule, Specificity};
use obstacles::{Other, PairPlace};
use window_order::PairRef;

/// A declaration of a rule of a sheet, by its number in the rule.
#[derive(Clone, Copy)]
pub(crate) struct DeclAt<'a> {
    /// The rule's number in the sheet.
    pub(crate) item: u32,
    /// The rule.
    pub(crate) rule: &'a Rule,
    /// The number in the rule.
    pub(crate) number: u32,
    /// The declaration.
    pub(crate) decl: &'a Decl,
    /// Its mask.
    pub(crate) mask: u64,
}

/// A declaration of a rule of a sheet, with its pairs to be moved.
#[derive(Clone, Copy)]
pub(crate) struct MovedDecl<'a> {
    /// Where it is.
    pub(crate) at: DeclAt<'a>,
    /// The specificities of the rule's selectors, by their numbers.
    pub(crate) specificities: &'a [Specificity],
    /// Their masks.
    pub(crate) selectors: &'a [u64],
}

/// A rule of a sheet, with pairs to be moved: all, or those of the declarations that are in another rule too.
#[derive(Drop)]
pub(crate) struct Source<'a> {
    /// The rule's number in the sheet.
    pub(crate) item: u32,
    /// The rule.
    pub(crate) rule: &'a Rule,
    /// The other rule, if only common declarations count.
    pub(crate) with: Option<&'a Rule>,
    /// The masks of its declarations, by their numbers: 0 for one that does not count.
    pub(crate) masks: Vec<u64>,
    /// The bits of these masks.
    pub(crate) mask: u64,
    /// The specificities of its selectors, by their numbers.
    pub(crate) specificities: Vec<Specificity>,
    /// The masks of its selectors, by their numbers.
    pub(crate) selectors: Vec<u64>,
}

/// An item of a sheet that is looked at.
#[derive(Clone, Copy)]
pub(crate) struct Met<'a> {
    /// The item.
    pub(crate) item: &'a Item,
    /// Its number in the sheet.
    pub(crate) number: u32,
    /// Its mask.
    pub(crate) mask: u64,
    /// The masks of its declarations, if it is a rule.
    pub(crate) masks: &'a [u64],
}

/// A rule of a sheet that is looked at.
#[derive(Clone, Copy)]
pub(crate) struct MetRule<'a> {
    /// The rule's number in the sheet.
    pub(crate) item: u32,
    /// The rule.
    pub(crate) rule: &'a Rule,
    /// The masks of its declarations.
    pub(crate) masks: &'a [u64],
}

/// Another pair with its place and the specificity of its selector, or the kept item of this number.
#[derive(Drop)]
pub(crate) enum Facing<'a> {
    Pair(PairRef<'a>, PairPlace, Specificity),
    Kept(u32),
}

impl<'a> Facing<'a> {
    /// Whether a pair of this specificity may weigh with it.
    pub(crate) fn may_weigh(&self, specificity: Specificity) -> bool
        ensures { IsTrue result ↔ MayWeigh specificity self.now }
    {
        match self {
            Facing::Pair(_, _, other) => specificity == *other,
            Facing::Kept(_) => true,
        }
    }

    /// What is faced, by its place.
    pub(crate) fn other(&self) -> Other
        ensures { result ≡ other_of self.now }
    {
        match self {
            Facing::Pair(_, place, _) => Other::Pair(*place),
            Facing::Kept(number) => Other::Kept(*number),
        }
    }
}
