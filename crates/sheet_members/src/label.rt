//! What pairs and kept items are compared by.

ghost use Rattle.std.specs.Prelude.{◌≡◌};
ghost use Rattle.std.specs.Option.{option_copied};
ghost use Rattle.sheet_members.specs.Labels as spec;
ghost use Rattle.sheet_members.specs.Members.{with_number};
ghost use Rattle.sheet_members.specs.Seen.{part_seen};

use crate::occurrence::{Occurrence, Part};
use css_model::{Item, Selector};
use std::hash::{Hash, Hasher};
use std::marker::Model;

/// What a pair or a kept item is compared by.
#[derive(Drop)]
pub struct Label<'a> {
    /// The normal text of the head of the block around it.
    pub head: Option<&'a [u8]>,
    /// Whether it is a kept rule.
    pub rule: bool,
    /// Whether it is compared as a changed one, by less.
    pub changed: bool,
    /// The selector of a pair.
    pub selector: Option<&'a Selector>,
    /// The property of a pair.
    pub name: &'a [char],
    /// Whether a pair is important.
    pub important: bool,
    /// Its normal text.
    pub text: &'a [u8],
    /// Its number among equal ones.
    pub number: usize,
}

impl<'a> Model for Label<'a> {
    ghost use Rattle.std.specs.Option.{option_copied};
    ghost use Rattle.sheet_members.specs.Labels as spec;

    ghost Value = { spec.Label };

    ghost view = { λ l. record {
      head = option_copied l.head;
      rule = l.rule;
      changed = l.changed;
      selector = option_copied l.selector;
      name = l.name.now;
      important = l.important;
      text = l.text.now;
      number = l.number;
    } };
}

/// Whether two heads are both none, or the same text.
fn same_head(head: Option<&[u8]>, other: Option<&[u8]>) -> bool
    ensures { result ≡ spec.same_head (option_copied head.entry) (option_copied other.entry) }
{
    match (head, other) {
        (None, None) => true,
        (Some(head), Some(other)) => head == other,
        _ => false,
    }
}

/// Whether two selectors are both none, or the same.
fn same_subject(selector: Option<&Selector>, other: Option<&Selector>) -> bool
    ensures { result ≡ spec.same_subject (option_copied selector.entry) (option_copied other.entry) }
{
    match (selector, other) {
        (None, None) => true,
        (Some(selector), Some(other)) => *selector == *other,
        _ => false,
    }
}

/// Whether two labels agree in what is not a list.
fn same_marks(a: &Label<'_>, b: &Label<'_>) -> bool
    ensures { result ≡ spec.same_marks a.now b.now }
{
    (a.rule == b.rule && a.changed == b.changed)
        && (a.important == b.important && a.number == b.number)
}

/// Whether two labels agree in the others.
fn same_lists(a: &Label<'_>, b: &Label<'_>) -> bool
    ensures { result ≡ spec.same_lists a.now b.now }
{
    (a.text == b.text && a.name == b.name)
        && (same_head(a.head, b.head) && same_subject(a.selector, b.selector))
}

impl<'a> PartialEq for Label<'a> {
    ghost use Rattle.std.specs.Cmp.{decided, partial_equiv_from_equiv};
    ghost use Rattle.sheet_members.specs.Labels.{same_label};
    ghost use Rattle.sheet_members.specs.SameLabels.{label_decides};

    ghost eq = { same_label };

    ghost laws = { partial_equiv_from_equiv (decided same_label label_decides) };

    fn eq(&self, other: &Label<'a>) -> bool {
        same_marks(self, other) && same_lists(self, other)
    }
}

impl<'a> Eq for Label<'a> {
    ghost use Rattle.std.specs.Cmp.{decided};
    ghost use Rattle.sheet_members.specs.Labels.{same_label};
    ghost use Rattle.sheet_members.specs.SameLabels.{label_decides};

    ghost laws = { decided same_label label_decides };
}

impl<'a> Hash for Label<'a> {
    ghost use Rattle.std.specs.Hash.{same_Alike};
    ghost use Rattle.sheet_members.specs.Labels.{label_fed};
    ghost use Rattle.sheet_members.specs.SameLabels.{label_decides};

    ghost hash_input = { label_fed };

    ghost respects_eq = { (same_Alike label_fed label_decides).fed };

    fn hash<H: Hasher>(&self, state: &mut H) {
        self.text.hash(state);
        self.name.hash(state);
        match self.head {
            None => {}
            Some(head) => head.hash(state),
        }
        match self.selector {
            None => {}
            Some(selector) => selector.hash(state),
        }
        self.number.hash(state);
    }
}

impl<'a> Label<'a> {
    /// The same label with this number, if it is not 0.
    pub(crate) fn with_number(&self, number: usize) -> Label<'a>
        ensures { result ≡ with_number number self.now }
    {
        Label {
            head: self.head,
            rule: self.rule,
            changed: self.changed,
            selector: self.selector,
            name: self.name,
            important: self.important,
            text: self.text,
            number: if number == 0 { self.number } else { number },
        }
    }

    /// The same label.
    pub(crate) fn copy(&self) -> Label<'a>
        ensures { result ≡ self.now }
    {
        Label {
            head: self.head,
            rule: self.rule,
            changed: self.changed,
            selector: self.selector,
            name: self.name,
            important: self.important,
            text: self.text,
            number: self.number,
        }
    }
}

/// Whether a kept item is a kept rule.
fn is_rule(item: &Item) -> bool
    ensures { result ≡ spec.is_rule item.now }
{
    match item {
        Item::KeptRule(_) => true,
        Item::Rule(_) | Item::KeptBlock(_) => false,
    }
}

/// The label of a part with this normal text, in a block with this normal head.
fn label_with<'a>(
    head: Option<&'a [u8]>,
    part: Part<'a>,
    changed: bool,
    text: &'a [u8],
) -> Label<'a>
    ensures { result ≡ spec.label_with (option_copied head.entry) (part_seen part.entry) changed text.now }
{
    match part {
        Part::Pair(s, d) => Label {
            head,
            rule: false,
            changed,
            selector: Some(&s.selector),
            name: d.decl.name.codes(),
            important: d.decl.important,
            text,
            number: 0,
        },
        Part::Kept(item) => Label {
            head,
            rule: is_rule(item),
            changed,
            selector: None,
            name: &[],
            important: false,
            text,
            number: 0,
        },
    }
}

/// The label of an occurrence.
pub(crate) fn label_of<'a>(o: &'a Occurrence<'a>) -> Label<'a>
    ensures { result ≡ spec.label_of o.now }
{
    label_with(o.head(), o.part, false, o.text.bytes())
}

/// That of a changed one.
pub(crate) fn key_of<'a>(o: &'a Occurrence<'a>) -> Label<'a>
    ensures { result ≡ spec.key_of o.now }
{
    label_with(o.head(), o.part, true, o.front.bytes())
}
