//! The length of a text, and whether it begins with a byte order mark.

ghost use Rattle.std.specs.Prelude.{[], ◌≡◌, ◌^◌, ◌-◌, ℕ, List, length, min, nat_eq};
ghost use Rattle.std.specs.List.{starts_with};
ghost use Rattle.css_model.specs.Sheets.Printed.{behind_mark};
ghost use Rattle.css_model.specs.Text.Tokens.{byte_order_mark};
ghost use Rattle.css_print.specs.Fronts as spec;

use crate::output::Output;
use std::convert::Infallible;

/// How much of a byte order mark a text begins with.
#[derive(Clone, Copy, Debug, PartialEq, Eq)]
pub(crate) enum Front {
    /// Nothing: the text is empty.
    Nothing,
    /// Its first byte, with nothing after it.
    One,
    /// Its first two bytes, with nothing after them.
    Two,
    /// All of it.
    Mark,
    /// Something else.
    Other,
}

/// A front with one more byte after it.
fn longer(front: Front, byte: u8) -> Front
    ensures { result ≡ spec.longer front byte }
{
    match (front, byte) {
        (Front::Nothing, 0xEF) => Front::One,
        (Front::One, 0xBB) => Front::Two,
        (Front::Two, 0xBF) | (Front::Mark, _) => Front::Mark,
        _ => Front::Other,
    }
}

fn is_mark(front: Front) -> bool
    ensures { result ≡ spec.is_mark front }
{
    matches!(front, Front::Mark)
}

/// Whether no more bytes can change a front.
fn is_settled(front: Front) -> bool
    ensures { result ≡ spec.is_settled front }
{
    matches!(front, Front::Mark | Front::Other)
}

/// A front with a text after it. No more than the first bytes of the text are read.
fn behind(front: Front, text: &[u8]) -> Front
    ensures { result ≡ spec.behind front text.now }
{
    match text {
        [] => front,
        [byte, rest @ ..] => {
            if is_settled(front) {
                front
            } else {
                behind(longer(front, *byte), rest)
            }
        }
    }
}

/// What is known of a text that was written to nowhere.
#[derive(Clone, Copy, Debug)]
pub(crate) struct Tally {
    /// How many bytes it may grow by, before it is longer than `u64::MAX`.
    pub(crate) room: u64,
    /// What it begins with.
    pub(crate) front: Front,
}

impl Tally {
    /// The tally of the empty text.
    pub(crate) fn new() -> Tally
        ensures { result ≡ spec.tally_of [] }
    {
        Tally {
            room: u64::MAX,
            front: Front::Nothing,
        }
    }

    /// Whether the text begins with a byte order mark.
    pub(crate) fn begins_with_mark(self) -> bool
        ensures { (text : List ℕ) → self ≡ spec.tally_of text → result ≡ starts_with nat_eq text byte_order_mark }
    {
        is_mark(self.front)
    }

    /// The length of the text, in bytes. One longer than `u64::MAX` has that length.
    pub(crate) fn len(self) -> u64
        ensures { (text : List ℕ) → self ≡ spec.tally_of text → result ≡ min (length text) (2 ^ 64 - 1) }
    {
        u64::MAX - self.room
    }

    /// The length of the text, in bytes, with a space before its byte order mark, if it begins with one. One longer
    /// than `u64::MAX` has that length.
    pub(crate) fn len_behind_mark(self) -> u64
        ensures { (text : List ℕ) → self ≡ spec.tally_of text → result ≡ min (length (behind_mark text)) (2 ^ 64 - 1) }
    {
        let len = self.len();
        if self.begins_with_mark() {
            len.saturating_add(1)
        } else {
            len
        }
    }
}

impl Output for Tally {
    ghost use Rattle.css_print.specs.TallyLaws.{tally_nothing, tally_joins};

    type Error = Infallible;

    ghost more = { λ old part new. new ≡ spec.tally_behind old part };

    ghost nothing = { tally_nothing };

    ghost joins = { tally_joins };

    fn put(&mut self, part: &[u8]) -> Result<(), Infallible> {
        self.room = self.room.saturating_sub(part.len() as u64);
        self.front = behind(self.front, part);
        Ok(())
    }
}
