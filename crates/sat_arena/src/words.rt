//! How a clause lies in the arena's words.
ghost use Rattle.std.specs.Prelude.{◌≡◌, ◌+◌, ◌<◌, ◌≤◌, ◌^◌, ◌++◌, length, slice_index, vec_len, vec_capacity};
ghost use Rattle.sat_arena.specs.Arena.{last_watch, next_watch, last_unlike_or};
ghost use Rattle.sat_arena.specs.Words.{clause_words};

use cnf::Lit;

// Where the parts of a clause are, counted from its first word, its first watch.

/// The link of the first watch: where the next clause in the list of this begins, or 0.
pub(crate) const ONE_LINK: usize = 1;
/// The second watch.
pub(crate) const OTHER: usize = 2;
/// The link of the second watch.
pub(crate) const OTHER_LINK: usize = 3;
/// The number of the literals.
pub(crate) const SIZE: usize = 4;
/// The first literal.
pub(crate) const LITS: usize = 5;

/// The literal whose number is a word.
pub(crate) fn lit_at(words: &[usize], place: usize) -> Lit
    requires place { place < length words.now }
    requires number { slice_index words.now place < 2 ^ 32 }
    ensures { result ≡ record { 0 = slice_index words.now place } }
{
    Lit(words[place] as u32)
}

/// The watches of a new clause: its last literal and the last that differs from it. They are the same where none
/// differs.
pub(crate) fn watch_pair(lits: &[Lit]) -> (Lit, Lit)
    ensures one { result.0 ≡ last_watch lits.now }
    ensures other { result.1 ≡ next_watch lits.now }
{
    let one = last(lits);
    (one, last_unlike(lits, one))
}

/// The last of some literals, or the literal of number 0 where there is none.
fn last(lits: &[Lit]) -> Lit
    ensures { result ≡ last_watch lits.now }
{
    let mut last = Lit(0);
    for lit in lits {
        last = *lit;
    }
    last
}

/// The last of some literals that is different from one, or this one where there is none.
fn last_unlike(lits: &[Lit], one: Lit) -> Lit
    ensures { result ≡ last_unlike_or one one lits.now }
{
    let mut last = one;
    for lit in lits {
        if lit.0 != one.0 {
            last = *lit;
        }
    }
    last
}

/// Writes a clause after the words, for which there is room.
pub(crate) fn push_clause(
    words: &mut Vec<usize>,
    lits: &[Lit],
    one: Lit,
    one_link: usize,
    other: Lit,
    other_link: usize,
)
    requires { vec_len words.old + (LITS + length lits.now) ≤ vec_capacity words.old }
    ensures { words.new.items ≡ words.old.items
        ++ clause_words lits.now one.0 one_link other.0 other_link }
{
    let head = [
        one.0 as usize,
        one_link,
        other.0 as usize,
        other_link,
        lits.len(),
    ];
    words.extend_from_slice(&head).unwrap();
    for lit in lits {
        words.push(lit.0 as usize).unwrap();
    }
}
