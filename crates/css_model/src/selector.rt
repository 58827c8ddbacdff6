//! Selectors, their parts, and their specificities.

ghost use Rattle.std.specs.Prelude.{◌≡◌, ◌++◌, List, ℕ, IfOk, IsTrue, ◌↔◌};
ghost use Rattle.std.specs.Hash as fed;
ghost use Rattle.css_model.specs.Documents.Digests as digests;

use crate::position::AnB;
use crate::text::Text;
use mixing::Mixer;
use smallvec::SmallVec;
use std::alloc::AllocError;
use std::hash::{Hash, Hasher};
use std::marker::Model;

/// How an attribute's value is tested (Selectors 3, section 6.3).
#[derive(Clone, Copy, Debug, Default, PartialEq, Eq, Hash)]
pub enum Op {
    /// `[name]`: the attribute is there.
    #[default]
    Present,
    /// `[name=value]`: its value is this one.
    Equal,
    /// `[name~=value]`: one of the words of its value is this one.
    Word,
    /// `[name|=value]`: its value is this one, or begins with it and `-`.
    Dash,
    /// `[name^=value]`: its value begins with this one.
    Prefix,
    /// `[name$=value]`: its value ends with this one.
    Suffix,
    /// `[name*=value]`: its value contains this one.
    Part,
}

/// A test of an attribute (Selectors 3, section 6.3).
#[derive(Debug, PartialEq, Eq, Hash, Drop)]
pub struct AttrTest {
    /// The attribute's name.
    pub name: Text,
    /// How its value is tested.
    pub op: Op,
    /// What it is tested against: empty for `Op::Present`.
    pub value: Text,
}

impl AttrTest {
    /// An equal test, in the memory of the allocators of this one's texts. `AllocError` where memory runs out.
    pub fn copy(&self) -> Result<AttrTest, AllocError>
        ensures { IfOk result (λ t. t ≡ self.now) }
    {
        Ok(AttrTest {
            name: self.name.copy()?,
            op: self.op,
            value: self.value.copy()?,
        })
    }
}

/// What a dynamic, target or user-interface pseudo-class asks of an element (Selectors 3, sections
/// 6.6.1, 6.6.2 and 6.6.4). Each is a flag that an element has or has not.
#[derive(Clone, Copy, Debug, Default, PartialEq, Eq, Hash)]
pub enum Flag {
    /// `:link`
    #[default]
    Link,
    /// `:visited`
    Visited,
    /// `:hover`
    Hover,
    /// `:active`
    Active,
    /// `:focus`
    Focus,
    /// `:target`
    Target,
    /// `:enabled`
    Enabled,
    /// `:disabled`
    Disabled,
    /// `:checked`
    Checked,
}

/// What a simple selector tests (Selectors 3, section 6).
#[derive(Debug, PartialEq, Eq, Hash, Drop)]
pub enum Test {
    /// `*`
    Any,
    /// A type selector, by its name.
    Kind(Text),
    /// `#name`
    Id(Text),
    /// A test of an attribute. `.name` is the test of `class` for the word `name`.
    Attr(AttrTest),
    /// `:nth-child()`, and `:first-child` as the step 0 and the offset 1.
    Nth(AnB),
    /// `:nth-last-child()`, and `:last-child` as the step 0 and the offset 1.
    NthLast(AnB),
    /// `:only-child`
    OnlyChild,
    /// `:root`
    Root,
    /// `:empty`
    Empty,
    /// `:link`, `:hover` and their kin.
    State(Flag),
}

impl Default for Test {
    fn default() -> Test
        ensures { result ≡ Test.Any }
    {
        Test::Any
    }
}

impl Test {
    /// An equal test, in the memory of the allocators of this one's texts. `AllocError` where memory runs out.
    pub fn copy(&self) -> Result<Test, AllocError>
        ensures { IfOk result (λ t. t ≡ self.now) }
    {
        match self {
            Test::Any => Ok(Test::Any),
            Test::Kind(name) => Ok(Test::Kind(name.copy()?)),
            Test::Id(name) => Ok(Test::Id(name.copy()?)),
            Test::Attr(test) => Ok(Test::Attr(test.copy()?)),
            Test::Nth(positions) => Ok(Test::Nth(*positions)),
            Test::NthLast(positions) => Ok(Test::NthLast(*positions)),
            Test::OnlyChild => Ok(Test::OnlyChild),
            Test::Root => Ok(Test::Root),
            Test::Empty => Ok(Test::Empty),
            Test::State(flag) => Ok(Test::State(*flag)),
        }
    }
}

/// A simple selector: a test, or the negation of one by `:not()` (Selectors 3, section 6.6.7).
#[derive(Debug, Default, PartialEq, Eq, Hash, Drop)]
pub struct Simple {
    /// Whether the test is in `:not()`.
    pub negated: bool,
    /// The test.
    pub test: Test,
}

impl Simple {
    /// An equal simple selector, in the memory of the allocators of this one's texts. `AllocError` where memory runs
    /// out.
    pub fn copy(&self) -> Result<Simple, AllocError>
        ensures { IfOk result (λ s. s ≡ self.now) }
    {
        Ok(Simple {
            negated: self.negated,
            test: self.test.copy()?,
        })
    }
}

/// A sequence of simple selectors that one element has to pass, in the order of the text
/// (Selectors 3, section 4: a "sequence of simple selectors").
#[derive(Debug, Drop)]
pub struct Compound {
    /// The simple selectors.
    pub simples: SmallVec<Simple, 1>,
}

impl Model for Compound {
    ghost use Rattle.std.specs.Prelude.{List};
    ghost use Rattle.css_model.specs.declared.selector.Simple.{Simple};

    ghost Value = { List Simple };

    ghost view = { λ c. c.simples.items };
}

impl PartialEq for Compound {
    ghost use Rattle.std.specs.Cmp.Lexicographic.{pointwise, lists_per};
    ghost use Rattle.css_model.specs.contracts.selector.SimplePartialEq.TheImpl.Laws.{laws-law};

    ghost eq = { λ a b. pointwise ⟦<Simple as PartialEq>⟧.eq a b };

    ghost laws = { lists_per laws-law };

    fn eq(&self, other: &Compound) -> bool
        ensures eq { result ≡ ⟦<Compound as PartialEq>⟧.eq self.now other.now }
        ensures exact { IsTrue result ↔ (self.now ≡ other.now) }
    {
        self.simples == other.simples
    }
}

impl Eq for Compound {
    ghost use Rattle.std.specs.Cmp.Lexicographic.{lists_equiv};
    ghost use Rattle.css_model.specs.contracts.selector.SimpleEq.TheImpl.Laws.{laws-law};

    ghost laws = { lists_equiv laws-law };
}

impl Hash for Compound {
    ghost use Rattle.std.specs.Hash as fed;
    ghost use Rattle.std.specs.Hash.{items_Alike};
    ghost use Rattle.css_model.specs.contracts.selector.SimpleHash.TheImpl.Laws.{respects_eq-law};

    ghost hash_input = { λ c. fed.slice ⟦<Simple as Hash>⟧.hash_input c };

    ghost respects_eq = { (items_Alike (record { fed = respects_eq-law })).fed };

    fn hash<H: Hasher>(&self, state: &mut H) {
        self.simples.hash(state);
    }
}

impl Compound {
    /// An equal compound, in the memory of this one's allocator. `AllocError` where memory runs out.
    pub fn copy(&self) -> Result<Compound, AllocError>
        ensures { IfOk result (λ c. c ≡ self.now) }
    {
        let mut simples = SmallVec::new(*self.simples.allocator());
        for simple in self.simples.as_slice() {
            simples.push(simple.copy()?)?;
        }
        Ok(Compound { simples })
    }
}

/// How the element at the right of a combinator is related to the one at its left (Selectors 3, section 8).
#[derive(Clone, Copy, Debug, PartialEq, Eq, Hash)]
pub enum Combinator {
    /// White space: it is inside, at any depth.
    Inside,
    /// `>`: it is a child.
    Child,
    /// `+`: it is the next sibling.
    Next,
    /// `~`: it is a later sibling.
    Later,
}

/// A pseudo-element (Selectors 3, section 7).
#[derive(Clone, Copy, Debug, PartialEq, Eq, Hash)]
pub enum Pseudo {
    /// `::first-line`
    FirstLine,
    /// `::first-letter`
    FirstLetter,
    /// `::before`
    Before,
    /// `::after`
    After,
}

/// A selector: compounds with combinators between them, and perhaps a pseudo-element. It keeps the digest of these parts.
#[derive(Debug, Drop)]
pub struct Selector {
    /// The compounds from right to left: the first one is that of the selected element.
    pub chain: Vec<Compound>,
    /// The combinators from right to left: the k-th is between the compounds k and k + 1.
    pub links: Vec<Combinator>,
    /// The pseudo-element.
    pub pseudo: Option<Pseudo>,
    digest: u32,
    ghost digested: { digest ≡ digests.digest_of (fed.slice ⟦<Compound as Hash>⟧.hash_input chain.items
        ++ (fed.slice ⟦<Combinator as Hash>⟧.hash_input links.items ++ ⟦<Option<Pseudo> as Hash>⟧.hash_input pseudo)) },
}

impl Model for Selector {
    ghost use Rattle.css_model.specs.Documents.SelectorParts.{SelectorParts};

    ghost Value = { SelectorParts };

    ghost view = { λ s. record { chain = s.chain.items; links = s.links.items; pseudo = s.pseudo } };
}

impl PartialEq for Selector {
    ghost use Rattle.std.specs.Cmp.{partial_equiv_from_equiv, and_per, on_per};
    ghost use Rattle.std.specs.Cmp.Lexicographic.{pointwise, lists_per, options_equiv};
    ghost use Rattle.std.specs.Ordering.{on, eq_of_both};
    ghost use Rattle.css_model.specs.contracts.selector.CompoundPartialEq.TheImpl.Laws.{laws-law as compounds_law};
    ghost use Rattle.css_model.specs.contracts.selector.CombinatorPartialEq.TheImpl.Laws.{laws-law as links_law};
    ghost use Rattle.css_model.specs.contracts.selector.PseudoEq.TheImpl.Laws.{laws-law as pseudo_law};

    ghost eq = { eq_of_both (on (λ s. s.chain) (pointwise ⟦<Compound as PartialEq>⟧.eq))
        (eq_of_both (on (λ s. s.links) (pointwise ⟦<Combinator as PartialEq>⟧.eq))
        (on (λ s. s.pseudo) ⟦<Option<Pseudo> as PartialEq>⟧.eq)) };

    ghost laws = { and_per (on_per (λ s. s.chain) (lists_per compounds_law))
        (and_per (on_per (λ s. s.links) (lists_per links_law))
        (on_per (λ s. s.pseudo) (partial_equiv_from_equiv (options_equiv pseudo_law)))) };

    fn eq(&self, other: &Selector) -> bool
        ensures eq { result ≡ ⟦<Selector as PartialEq>⟧.eq self.now other.now }
        ensures exact { IsTrue result ↔ (self.now ≡ other.now) }
    {
        self.digest == other.digest
            && (self.chain == other.chain
                && (self.links == other.links && self.pseudo == other.pseudo))
    }
}

impl Eq for Selector {
    ghost use Rattle.std.specs.Cmp.{and_equiv, on_equiv};
    ghost use Rattle.std.specs.Cmp.Lexicographic.{lists_equiv, options_equiv};
    ghost use Rattle.css_model.specs.contracts.selector.CompoundEq.TheImpl.Laws.{laws-law as compounds_law};
    ghost use Rattle.css_model.specs.contracts.selector.CombinatorEq.TheImpl.Laws.{laws-law as links_law};
    ghost use Rattle.css_model.specs.contracts.selector.PseudoEq.TheImpl.Laws.{laws-law as pseudo_law};

    ghost laws = { and_equiv (on_equiv (λ s. s.chain) (lists_equiv compounds_law))
        (and_equiv (on_equiv (λ s. s.links) (lists_equiv links_law))
        (on_equiv (λ s. s.pseudo) (options_equiv pseudo_law))) };
}

impl Hash for Selector {
    ghost use Rattle.std.specs.Prelude.{◌++◌};
    ghost use Rattle.std.specs.Hash as fed;
    ghost use Rattle.std.specs.Hash.{and-Alike, on_Alike, items_Alike};
    ghost use Rattle.list_facts.proofs.OptionHash.{option_Alike};
    ghost use Rattle.css_model.specs.contracts.selector.CompoundHash.TheImpl.Laws.{respects_eq-law as compounds_fed};
    ghost use Rattle.css_model.specs.contracts.selector.CombinatorHash.TheImpl.Laws.{respects_eq-law as links_fed};
    ghost use Rattle.css_model.specs.contracts.selector.PseudoHash.TheImpl.Laws.{respects_eq-law as pseudo_fed};

    ghost hash_input = { λ s. fed.slice ⟦<Compound as Hash>⟧.hash_input s.chain
        ++ (fed.slice ⟦<Combinator as Hash>⟧.hash_input s.links ++ ⟦<Option<Pseudo> as Hash>⟧.hash_input s.pseudo) };

    ghost respects_eq = { (and-Alike (on_Alike (λ s. s.chain) (items_Alike (record { fed = compounds_fed })))
        (and-Alike (on_Alike (λ s. s.links) (items_Alike (record { fed = links_fed })))
        (on_Alike (λ s. s.pseudo) (option_Alike (record { fed = pseudo_fed }))))).fed };

    fn hash<H: Hasher>(&self, state: &mut H) {
        self.chain.hash(state);
        self.links.hash(state);
        self.pseudo.hash(state);
    }
}

/// The digest of the parts of a selector.
#[tactic(auto, unfolding(crate::specs::Documents::Digests::digest_of))]
fn digest_of(chain: &Vec<Compound>, links: &Vec<Combinator>, pseudo: Option<Pseudo>) -> u32
    ensures { result ≡ digests.digest_of (fed.slice ⟦<Compound as Hash>⟧.hash_input chain.now.items
        ++ (fed.slice ⟦<Combinator as Hash>⟧.hash_input links.now.items ++ ⟦<Option<Pseudo> as Hash>⟧.hash_input pseudo)) }
{
    let mut state = Mixer::new();
    chain.hash(&mut state);
    links.hash(&mut state);
    pseudo.hash(&mut state);
    state.digest()
}

impl Selector {
    /// The selector of these parts, with compounds and combinators from right to left.
    pub fn new(chain: Vec<Compound>, links: Vec<Combinator>, pseudo: Option<Pseudo>) -> Selector
        ensures { result ≡ record { chain = chain.items; links = links.items; pseudo = pseudo } }
    {
        let digest = digest_of(&chain, &links, pseudo);
        Selector {
            chain,
            links,
            pseudo,
            digest,
        }
    }

    /// The digest of what the selector feeds to a hasher. Equal selectors have equal digests.
    pub fn digest(&self) -> u32
        ensures { result ≡ digests.digest_of (⟦<Selector as Hash>⟧.hash_input self.now) }
    {
        self.digest
    }

    /// An equal selector, in the memory of the allocators of this one's lists. `AllocError` where memory runs out.
    pub fn copy(&self) -> Result<Selector, AllocError>
        ensures { IfOk result (λ s. s ≡ self.now) }
    {
        let chain = copy_compounds(&self.chain)?;
        let links = Vec::from_slice(*self.links.allocator(), self.links.as_slice())?;
        Ok(Selector {
            chain,
            links,
            pseudo: self.pseudo,
            digest: self.digest,
        })
    }
}

fn copy_compounds(chain: &Vec<Compound>) -> Result<Vec<Compound>, AllocError>
    ensures { IfOk result (λ copies. copies.items ≡ chain.now.items) }
{
    let mut copies = Vec::with_capacity(*chain.allocator(), chain.len())?;
    for compound in chain {
        copies.push(compound.copy()?)?;
    }
    Ok(copies)
}

/// How specific a selector is (Selectors 3, section 9). The cascade compares `a`, then `b`, then `c`.
#[derive(Clone, Copy, Debug, PartialEq, Eq, Hash)]
pub struct Specificity {
    /// How many ids it tests.
    pub a: u32,
    /// How many classes, attributes and pseudo-classes.
    pub b: u32,
    /// How many types and pseudo-elements.
    pub c: u32,
}
