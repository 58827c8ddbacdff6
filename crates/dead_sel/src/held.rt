//! Whether what is held says that a selector is dead.

ghost use Rattle.std.specs.Prelude.{◌≡◌, IfOk};
ghost use Rattle.dead_sel.specs.Held as spec;
ghost use Rattle.dead_sel.specs.Living.{every as every_of};

use crate::every::every;
use css_model::Selector;
use overlap::{Answer, Pairs};
use std::alloc::{AllocError, Global};

/// Whether an answer says that two selectors are apart.
fn is_apart(answer: &Answer) -> bool
    ensures { result ≡ spec.is_apart answer.now }
{
    match answer {
        Answer::Apart => true,
        Answer::Meet(_) => false,
        Answer::Outside(_, _) => false,
        Answer::Spent(_) => false,
    }
}

/// Whether what is known of two selectors says that they are apart.
fn is_known_apart(known: Option<&Answer>) -> bool
    ensures { result ≡ spec.is_known_apart known.entry }
{
    match known {
        Some(answer) => is_apart(answer),
        None => false,
    }
}

/// Whether what is held says that a selector and `*` are apart.
fn is_dead_beside(pairs: &Pairs, s: &Selector, all: &Selector) -> bool
    requires { all.now ≡ every_of s.now.pseudo }
    ensures { result ≡ spec.is_dead pairs.now.answers s.now }
{
    is_known_apart(pairs.known(s, all))
}

/// Whether what is held says that a selector matches nothing: the answer for it and `*` with its pseudo-element is that
/// they are apart. Where no answer is held for them it is false. `AllocError` where memory is short.
pub fn is_dead(alloc: Global, pairs: &Pairs, s: &Selector) -> Result<bool, AllocError>
    ensures { IfOk result (λ dead. dead ≡ spec.is_dead pairs.now.answers s.now) }
{
    let all = every(alloc, s.pseudo)?;
    Ok(is_dead_beside(pairs, s, &all))
}
