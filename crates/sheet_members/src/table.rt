//! A table of the members of a sheet by their labels.

ghost use Rattle.std.specs.Prelude.{◌≡◌, ◌++◌, ◌∷◌, [], ℕ, List, Some, IfOk, OnOk, IsSome, is_some, length, find, slice_get};
ghost use Rattle.std.specs.List.{enumerate_from};
ghost use Rattle.std.specs.Option.{option_map};
ghost use Rattle.std.specs.HashMap.{get};
ghost use Rattle.sheet_members.specs.Compared as spec;
ghost use Rattle.sheet_members.specs.Labels as labels;
ghost use Rattle.sheet_members.specs.Members as members;
ghost use Rattle.sheet_members.specs.Tables.{ArePlaces};

use crate::label::Label;
use crate::listing::Member;
use std::alloc::{AllocError, Global};
use std::collections::HashMap;
use std::marker::Model;

/// The members of a sheet, in which each label is found at once. It is seen as the list of the members.
#[derive(Drop)]
pub(crate) struct Places<'a> {
    /// The members.
    pub(crate) members: &'a [Member<'a>],
    /// The first place of each label.
    firsts: HashMap<Label<'a>, usize>,
    ghost firsts_are: { ArePlaces members.now (get labels.same_label firsts) },
}

impl<'a> Model for Places<'a> {
    ghost use Rattle.std.specs.Prelude.{List};
    ghost use Rattle.sheet_members.specs.Members as spec;

    ghost Value = { List spec.Member };

    ghost view = { λ p. p.members.now };
}

/// Puts the place of a label into a table, unless it has one.
#[tactic(auto, using(crate::proofs::Placing::places_with, crate::proofs::Placing::places_with_old))]
fn put_place<'a>(
    firsts: &mut HashMap<Label<'a>, usize>,
    m: &Member<'a>,
    place: usize,
) -> Result<(), AllocError>
    ensures { (before : List members.Member) → place ≡ length before → ArePlaces before (get labels.same_label firsts.old)
        → OnOk result (ArePlaces (before ++ m.now ∷ []) (get labels.same_label firsts.new)) }
{
    if !firsts.contains_key(&m.label) {
        firsts.insert(m.label.copy(), place)?;
    }
    Ok(())
}

/// The first places of the labels of members.
#[tactic(auto, using(crate::proofs::Placing::no_places, crate::proofs::Placing::places_next))]
fn firsts_of<'a>(
    alloc: Global,
    members: &[Member<'a>],
) -> Result<HashMap<Label<'a>, usize>, AllocError>
    ensures { IfOk result (λ firsts. ArePlaces members.now (get labels.same_label firsts)) }
{
    let mut firsts: HashMap<Label<'_>, usize> = HashMap::new(alloc);
    for number in 0..members.len() {
        put_place(&mut firsts, &members[number], number)?;
    }
    Ok(firsts)
}

/// The table of these members.
pub(crate) fn places_of<'a>(
    alloc: Global,
    members: &'a [Member<'a>],
) -> Result<Places<'a>, AllocError>
    ensures { IfOk result (λ places. places ≡ members.now) }
{
    let firsts = firsts_of(alloc, members)?;
    Ok(Places { members, firsts })
}

/// The first place of a label, if it has one.
pub(crate) fn place_in(places: &Places<'_>, label: &Label<'_>) -> Option<usize>
    ensures place { result ≡ option_map (λ (x : ℕ × members.Member). x.0) (spec.twin_in places.now label.now) }
{
    match places.firsts.get(label) {
        None => None,
        Some(place) => Some(*place),
    }
}

/// Whether one of the members has a label.
#[tactic(auto, using(crate::proofs::Placing::has_twin))]
pub(crate) fn has_label(places: &Places<'_>, label: &Label<'_>) -> bool
    ensures { result ≡ spec.has_member places.now label.now }
{
    place_in(places, label).is_some()
}
