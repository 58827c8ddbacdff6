//! Answers for pairs of selectors, remembered.

ghost use Rattle.std.specs.Prelude.{◌≡◌, ◌++◌, ◌∷◌, [], Some, IfOk, OnErr, OnOk, length};
ghost use Rattle.css_model.specs.Selectors.Profile.{IsInProfile};
ghost use Rattle.overlap.specs.Answers.{IsTrueAnswer};
ghost use Rattle.overlap.specs.Remembered as spec;
ghost use Rattle.overlap.specs.Stored.{IsStore, answers_of};

use crate::answer::{Answer, Decision};
use crate::decision::decide;
use crate::store::{Places, Selectors, find_places, store};
use cnf::{Formula, Ledger};
use css_model::Selector;
use indexmap::{IndexMap, IndexSet};
use std::alloc::{AllocError, Global};
use std::hash::BuildHasherDefault;
use std::marker::Model;

/// Answers for ordered pairs of selectors, in the order in which they were given, and the budget of learned clauses for
/// each pair.
#[derive(Debug, Drop)]
pub struct Pairs {
    alloc: Global,
    budget: u32,
    /// The selectors that were asked, each once. One without an answer may be here after a want of memory.
    selectors: Selectors,
    /// The answers, by the places of both selectors.
    answers: IndexMap<Places, Answer>,
    ghost kept: { ∥ IsStore selectors.keys answers.entries ∥₁ },
    ghost list: { ∥ spec.IsTrueList (record { budget = budget; answers = answers_of selectors.keys answers.entries }) ∥₁ },
}

impl Model for Pairs {
    ghost use Rattle.overlap.specs.PairsParts.{PairsParts};
    ghost use Rattle.overlap.specs.Stored.{answers_of};

    ghost Value = { PairsParts };

    ghost view = { λ p. record { budget = p.budget; answers = answers_of p.selectors.keys p.answers.entries } };
}

impl Pairs {
    ghost use Rattle.std.specs.Borrow.{sem};
    ghost use Rattle.overlap.specs.Lending as lending;

    /// No answers yet. The budget is how many clauses may be learned for a pair. `NO_LIMIT` of `cnf` is a number above
    /// the length of every list.
    pub fn new(alloc: Global, budget: u32) -> Pairs
        ensures { result ≡ record { budget = budget; answers = [] } }
    {
        Pairs {
            alloc,
            budget,
            selectors: IndexSet::with_hasher(alloc, BuildHasherDefault::new()),
            answers: IndexMap::new(alloc),
        }
    }

    /// How many answers are held.
    pub fn held(&self) -> usize
        ensures { result ≡ length self.now.answers }
    {
        self.answers.len()
    }

    /// The answer that is held for the ordered pair; `None` exactly where there is none.
    pub fn known(&self, x: &Selector, y: &Selector) -> Option<&Answer>
        ensures known { spec.Known self.now.answers x.now y.now result }
        ensures list { ∥ spec.IsTrueList self.now ∥₁ }
    {
        let places = find_places(&self.selectors, x, y)?;
        self.answers.get(&places)
    }

    /// The answers that are held are true for the budget, and no ordered pair has two. By
    /// `apart_selectors_do_not_meet`, selectors for which `Apart` is held do not meet. It does nothing when it runs.
    pub fn are_true(&self)
        ensures { ∥ spec.IsTrueList self.now ∥₁ }
    {
        // What the type keeps is at hand where a field is read.
        let _budget = self.budget;
    }

    /// The place of the answer for the ordered pair, if there is one.
    fn place(&self, x: &Selector, y: &Selector) -> Option<usize>
        ensures { spec.StandsAt self.now.answers x.now y.now result }
    {
        let places = find_places(&self.selectors, x, y)?;
        self.answers.get_index_of(&places)
    }

    /// Stores an answer for an ordered pair that has none.
    fn remember(&mut self, x: &Selector, y: &Selector, answer: Answer) -> Result<usize, AllocError>
        requires unknown { spec.IsUnknown self.old.answers x.now y.now }
        requires true_answer { IsTrueAnswer x.now y.now self.old.budget answer }
        ensures at { IfOk result (λ at. at ≡ length self.old.answers) }
        ensures ok { OnOk result (self.new
            ≡ record { budget = self.old.budget; answers = self.old.answers ++ record { left = x.now; right = y.now; answer = answer } ∷ [] }) }
        ensures err { OnErr result (self.new ≡ self.old) }
        ensures list { OnOk result (∥ spec.IsTrueList self.new ∥₁) }
    {
        store(&mut self.selectors, &mut self.answers, x, y, answer)
    }

    /// The place of the answer for the ordered pair. The answer is given now where there is none.
    fn answered(&mut self, x: &Selector, y: &Selector) -> Result<usize, AllocError>
        requires first { IsInProfile x.now }
        requires second { IsInProfile y.now }
        ensures asks { spec.Asks self.old self.new x.now y.now }
        ensures at { IfOk result (λ at. spec.StandsAt self.new.answers x.now y.now (Some at)) }
        ensures list { ∥ spec.IsTrueList self.new ∥₁ }
        ensures err { OnErr result (self.new ≡ self.old) }
    {
        if let Some(at) = self.place(x, y) {
            return Ok(at);
        }
        let decision = decide(self.alloc, x, y, self.budget, false)?;
        self.remember(x, y, decision.answer)
    }

    /// Answers for the ordered pair of two selectors of the profile, unless an answer is held for it; `known` then
    /// gives it. All that was held stays, and comes first. `AllocError` where memory runs out; then nothing else is
    /// held.
    pub fn settle(&mut self, x: &Selector, y: &Selector) -> Result<(), AllocError>
        requires first { IsInProfile x.now }
        requires second { IsInProfile y.now }
        ensures asks { spec.Asks self.old self.new x.now y.now }
        ensures held { IfOk result (λ _. spec.IsHeld self.new.answers x.now y.now) }
        ensures list { ∥ spec.IsTrueList self.new ∥₁ }
        ensures err { OnErr result (self.new ≡ self.old) }
    {
        let _at = self.answered(x, y)?;
        Ok(())
    }

    /// Answers for an ordered pair of selectors of the profile for which no answer is held; `known` then gives the
    /// answer. A log comes exactly where the answer is `Apart`, both are of one pseudo-element, and one has a
    /// combinator: the formula of the pair, and the ledger that refutes it. All that was held stays, and comes first.
    /// `AllocError` where memory runs out; then nothing else is held.
    pub fn ask_with_log(
        &mut self,
        x: &Selector,
        y: &Selector,
    ) -> Result<Option<(Formula, Ledger)>, AllocError>
        requires first { IsInProfile x.now }
        requires second { IsInProfile y.now }
        requires unknown { spec.IsUnknown self.old.answers x.now y.now }
        ensures asks { spec.Asks self.old self.new x.now y.now }
        ensures held { IfOk result (λ log. spec.IsHeldWithLog self.new x.now y.now log) }
        ensures list { ∥ spec.IsTrueList self.new ∥₁ }
        ensures err { OnErr result (self.new ≡ self.old) }
    {
        let Decision { answer, log } = decide(self.alloc, x, y, self.budget, true)?;
        self.remember(x, y, answer)?;
        Ok(log)
    }

    /// The answer for the ordered pair of two selectors of the profile: the one that is held for it, or else one that
    /// is given now and held from then on. All that was held stays. `AllocError` where memory runs out; all that was
    /// held stays then too.
    pub fn ask(&mut self, x: &Selector, y: &Selector) -> Result<&Answer, AllocError>
        requires first { IsInProfile x.now }
        requires second { IsInProfile y.now }
        ensures* ends { sem 𝓛 (lending.EndsAsked self.entry x.now y.now result) }
    {
        let at = self.answered(x, y)?;
        Ok(&self.answers[at])
    }
}
