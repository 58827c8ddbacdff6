//! The lists that are threaded through the words.
ghost use Rattle.std.specs.Prelude.{◌≡◌, ◌≢◌, ◌+◌, ◌<◌, ◌==◌, ℕ, List, if◌then◌else◌, nat_eq, length, Contains, MatchOption, Some, None};
ghost use Rattle.std.specs.List.{IsDistinct};
ghost use Rattle.sat_arena.specs.Arena.{IsBehind};
ghost use Rattle.sat_arena.specs.Links.{slot, link, Linked, words_after_move, firsts_after_move, words_after_cut, firsts_after_cut, firsts_after_attach, link_of_new};

use crate::words::{ONE_LINK, OTHER_LINK, SIZE};
use cnf::Lit;

/// A link as an index, where 0 is none.
pub(crate) fn linked_index(link: usize) -> Option<usize>
    ensures { result ≡ (if link == 0 then None else Some link) }
{
    if link == 0 { None } else { Some(link) }
}

/// Where the link of a clause in the list of a watched literal is.
pub(crate) fn slot(words: &[usize], lit: Lit, clause: usize) -> usize
    requires { clause + SIZE < length words.now }
    ensures value { result ≡ slot words.now lit.0 clause }
    ensures bound { result < length words.now }
{
    if words[clause] == lit.0 as usize {
        clause + ONE_LINK
    } else {
        clause + OTHER_LINK
    }
}

/// The member before another in the list of a literal that begins at `first`.
pub(crate) fn predecessor(words: &[usize], lit: Lit, first: usize, clause: usize) -> Option<usize>
    ghost members: { List ℕ }
    requires linked { Linked (link words.now lit.0) 0 first members }
    requires distinct { IsDistinct nat_eq members }
    requires inside { (c : ℕ) → Contains members c → c + SIZE < length words.now }
    requires member { Contains members clause }
    ensures { IsBehind members result clause }
{
    let mut before = None;
    let mut at = first;
    'walk: while at != clause {
        before = Some(at);
        at = words[slot(words, lit, at)];
    }
    before
}

/// Moves a clause from the list of one literal, where it comes after `before`, to the front of the list of another,
/// which it watches in its place.
pub(crate) fn relink(
    words: &mut Vec<usize>,
    firsts: &mut Vec<usize>,
    lit: Lit,
    before: Option<usize>,
    clause: usize,
    to: Lit,
)
    requires clause { clause + SIZE < length words.old.items }
    requires before { MatchOption before (Unit {0}) (λ p. p + SIZE < length words.old.items) }
    requires lit { lit.0 < length firsts.old.items }
    requires to { to.0 < length firsts.old.items }
    requires apart { lit.0 ≢ to.0 }
    ensures words { words.new.items
        ≡ words_after_move words.old.items firsts.old.items lit.0 before clause to.0 }
    ensures firsts { firsts.new.items
        ≡ firsts_after_move words.old.items firsts.old.items lit.0 before clause to.0 }
{
    let place = slot(words, lit, clause);
    let next = words[place];
    cut(words, firsts, lit, before, next);
    words[place - 1] = to.0 as usize;
    words[place] = firsts[to.0 as usize];
    firsts[to.0 as usize] = clause;
}

/// Takes the clause after `before` out of the list of a literal. `next` comes after that clause.
fn cut(
    words: &mut Vec<usize>,
    firsts: &mut Vec<usize>,
    lit: Lit,
    before: Option<usize>,
    next: usize,
)
    requires before { MatchOption before (Unit {0}) (λ p. p + SIZE < length words.old.items) }
    requires lit { lit.0 < length firsts.old.items }
    ensures words { words.new.items ≡ words_after_cut words.old.items lit.0 before next }
    ensures firsts { firsts.new.items ≡ firsts_after_cut firsts.old.items lit.0 before next }
{
    match before {
        None => firsts[lit.0 as usize] = next,
        Some(at) => {
            let place = slot(words, lit, at);
            words[place] = next;
        }
    }
}

/// The link of a new clause in the list of one of its watches.
pub(crate) fn link_of_new(firsts: &[usize], one: Lit, other: Lit, lit: Lit) -> usize
    requires { one.0 ≢ other.0 → lit.0 < length firsts.now }
    ensures { result ≡ link_of_new firsts.now one other lit }
{
    if one.0 == other.0 {
        0
    } else {
        firsts[lit.0 as usize]
    }
}

/// Puts a new clause in front of the lists of its watches, where these are different.
pub(crate) fn put_in_front(firsts: &mut Vec<usize>, clause: usize, one: Lit, other: Lit)
    requires one { one.0 ≢ other.0 → one.0 < length firsts.old.items }
    requires other { one.0 ≢ other.0 → other.0 < length firsts.old.items }
    ensures { firsts.new.items ≡ firsts_after_attach firsts.old.items clause one other }
{
    if one.0 != other.0 {
        firsts[one.0 as usize] = clause;
        firsts[other.0 as usize] = clause;
    }
}
