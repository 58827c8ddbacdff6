//! The printed text of a selector.

ghost use Rattle.std.specs.Prelude.{◌≡◌, ◌∷◌, ◌&&◌, ◌≤◌, true, false, if◌then◌else◌, length, drop, suc, OnOk};
ghost use Rattle.std.specs.List.{position_or_len};
ghost use Rattle.css_model.specs.Sheets.Limits.{max_bytes};
ghost use Rattle.css_model.specs.Sheets.Printed.{printed_selector};
ghost use Rattle.css_model.specs.Sheets.Sound.{IsSoundSelector};
ghost use Rattle.css_print.specs.Positions.{remaining};
ghost use Rattle.css_print.specs.Putting.{IsAt, TermPut};
ghost use Rattle.css_print.specs.Terms.{argument_text, called_text, is_end, is_position, word_text};
ghost use Rattle.css_print.specs.Walking.{left, IsReady, solid_of};
ghost use Rattle.css_print.specs.Words.{closes, gap_of_first};

use crate::notation::put_anb;
use crate::output::Output;
use crate::positions::Positions;
use crate::terms::{counted_gap, depth_after, is_end, is_position, is_sign_of};
use crate::walk::{Walk, Word};
use css_model::{AnB, Gap, SelItem, TokenKind};
use css_tokens::tokens_restart;
use selector_laws::written_positions_are_tested;
use verbatim_text::gap_text;

/// Reads the tokens up to the first `)`, and answers what comes after it.
fn read_closing(walk: &mut Walk<'_>) -> Gap
    requires { IsReady walk.old }
    ensures gap { result ≡ gap_of_first (drop (position_or_len closes (left walk.old)) (left walk.old)) }
    ensures rest { left walk.new ≡ drop (suc (position_or_len closes (left walk.old))) (left walk.old) }
    ensures ready { IsReady walk.new }
{
    'tokens: while let Some(word) = walk.next() {
        if is_sign_of(b')', word.kind) {
            return word.gap;
        }
    }
    Gap::Nothing
}

/// What is known of the place of a term.
#[derive(Clone, Copy, Debug)]
pub(crate) struct Place {
    /// How many brackets are open before it.
    pub(crate) depth: u32,
    /// Whether a colon is before it.
    pub(crate) behind_colon: bool,
}

/// Writes a token, and what counts of the gap after it.
fn put_word<O: Output>(
    out: &mut O,
    word: Word<'_>,
    depth: u32,
    next: Option<TokenKind>,
) -> Result<(), O::Error>
    ensures { OnOk result (O.more out.old (word_text (solid_of word.entry) depth next) out.new) }
{
    out.put(word.text)?;
    out.put(gap_text(word.text, counted_gap(depth, word.kind, word.gap, next)))
}

/// Writes the argument of a function of a position, and its `)`.
fn put_argument<O: Output>(out: &mut O, argument: Option<AnB>) -> Result<(), O::Error>
    ensures { OnOk result (O.more out.old (argument_text argument) out.new) }
{
    if let Some(argument) = argument {
        put_anb(out, argument)?;
        out.put(b")")
    } else {
        out.put(b"")
    }
}

/// Writes a function of a position with its argument, and what counts of the gap after it.
fn put_called<O: Output>(
    out: &mut O,
    word: Word<'_>,
    argument: Option<AnB>,
    gap: Gap,
) -> Result<(), O::Error>
    ensures { OnOk result (O.more out.old (called_text (solid_of word.entry) argument gap) out.new) }
{
    out.put(word.text)?;
    put_argument(out, argument)?;
    out.put(gap_text(b")", gap))
}

/// Passes the position of `first-child` or `last-child`, where it follows a colon.
fn pass_end(behind_colon: bool, word: Word<'_>, positions: &mut Positions<'_>)
    ensures { remaining positions.new ≡ (if behind_colon && is_end word.entry.kind word.entry.text.now then drop 1 (remaining positions.old) else remaining positions.old) }
{
    if behind_colon && is_end(word.kind, word.text) {
        positions.pass();
    }
}

/// Writes a function of a position with its argument. The tokens of the argument are passed.
fn put_position<O: Output>(
    out: &mut O,
    word: Word<'_>,
    place: &mut Place,
    walk: &mut Walk<'_>,
    positions: &mut Positions<'_>,
) -> Result<(), O::Error>
    requires ready { IsReady walk.old }
    requires position { is_position word.kind word.text.now ≡ true }
    requires at { IsAt place.old (solid_of word ∷ left walk.old) (remaining positions.old) }
    ensures ready { IsReady walk.new }
    ensures put { OnOk result (TermPut (λ text. O.more out.old text out.new) place.old (solid_of word.entry ∷ left walk.old) place.new (left walk.new) (remaining positions.new)) }
{
    let argument = positions.next();
    let gap = read_closing(walk);
    let counted = counted_gap(place.depth, word.kind, gap, walk.next_kind());
    place.behind_colon = false;
    put_called(out, word, argument, counted)?;
    Ok(())
}

/// Writes a token that is no function of a position.
fn put_plain<O: Output>(
    out: &mut O,
    word: Word<'_>,
    place: &mut Place,
    walk: &Walk<'_>,
    positions: &mut Positions<'_>,
) -> Result<(), O::Error>
    requires ready { IsReady walk.now }
    requires plain { is_position word.kind word.text.now ≡ false }
    requires at { IsAt place.old (solid_of word ∷ left walk.now) (remaining positions.old) }
    ensures put { OnOk result (TermPut (λ text. O.more out.old text out.new) place.old (solid_of word.entry ∷ left walk.now) place.new (left walk.now) (remaining positions.new)) }
{
    let depth = depth_after(place.depth, word.kind);
    pass_end(place.behind_colon, word, positions);
    place.depth = depth;
    place.behind_colon = is_sign_of(b':', word.kind);
    put_word(out, word, depth, walk.next_kind())?;
    Ok(())
}

/// Writes a term, of which this is the first token.
fn put_term<O: Output>(
    out: &mut O,
    word: Word<'_>,
    place: &mut Place,
    walk: &mut Walk<'_>,
    positions: &mut Positions<'_>,
) -> Result<(), O::Error>
    requires ready { IsReady walk.old }
    requires at { IsAt place.old (solid_of word ∷ left walk.old) (remaining positions.old) }
    ensures ready { IsReady walk.new }
    ensures put { OnOk result (TermPut (λ text. O.more out.old text out.new) place.old (solid_of word.entry ∷ left walk.old) place.new (left walk.new) (remaining positions.new)) }
{
    if is_position(word.kind, word.text) {
        put_position(out, word, place, walk, positions)
    } else {
        put_plain(out, word, place, walk, positions)
    }
}

/// Writes the printed text of a selector: term by term, the bytes of the tokens and what counts between them. The
/// arguments of the functions of positions are those that the selector tests, in their order.
pub(crate) fn put_selector<O: Output>(
    out: &mut O,
    item: &SelItem,
    source: &[u8],
) -> Result<(), O::Error>
    requires length { length source.now ≤ max_bytes }
    requires sound { IsSoundSelector source.now item.now }
    ensures { OnOk result (O.more out.old (printed_selector source.now item.now) out.new) }
{
    // Laws that do nothing: on the places of tokens, and on the positions of a selector that is read.
    tokens_restart();
    written_positions_are_tested();
    let mut walk = Walk::new(source, item.piece);
    let mut positions = Positions::new(&item.selector);
    let mut place = Place {
        depth: 0,
        behind_colon: false,
    };
    'terms: while let Some(word) = walk.next() {
        put_term(out, word, &mut place, &mut walk, &mut positions)?;
    }
    Ok(())
}
