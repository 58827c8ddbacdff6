//! The text of an answer.

ghost use Rattle.std.specs.Prelude.{◌≡◌, ◌++◌, ◌∷◌, codes, IfOk, OnOk};
ghost use Rattle.css_model.specs.Text.Characters.{line_feed};
ghost use Rattle.doc_text.specs.DocText.{doc_text};
ghost use Rattle.compare_text.specs.ComparedTexts.{answer_text, outside_text, IsTextOfAnswer};
ghost use Rattle.overlap.specs.Remembered.{IsHeld};

use css_model::{Example, Selector};
use doc_text::print_doc;
use itoa::Buffer;
use overlap::{Answer, Pairs};
use std::alloc::{AllocError, Global};

/// The line of the reason of this number.
pub(crate) fn print_outside(alloc: Global, reason: u32) -> Result<Vec<u8>, AllocError>
    ensures { IfOk result (λ text. text.items ≡ outside_text reason) }
{
    let mut text = b"outside ".to_vec(alloc)?;
    let mut buffer = Buffer::new();
    text.extend_from_slice(buffer.format(reason).as_bytes())?;
    text.push(b'\n')?;
    Ok(text)
}

/// The lines of an example.
fn print_overlap(alloc: Global, example: &Example) -> Result<Vec<u8>, AllocError>
    ensures { IfOk result (λ text. text.items ≡ codes "overlap" ++ line_feed ∷ doc_text example.now) }
{
    let mut text = b"overlap\n".to_vec(alloc)?;
    let document = print_doc(alloc, example)?;
    text.extend_from_slice(document.as_slice())?;
    Ok(text)
}

/// The lines of an answer.
fn print_answer(alloc: Global, answer: &Answer) -> Result<Vec<u8>, AllocError>
    ensures { IfOk result (λ text. text.items ≡ answer_text answer.now) }
{
    match answer {
        Answer::Apart => b"disjoint\n".to_vec(alloc),
        Answer::Meet(example) => print_overlap(alloc, example),
        Answer::Outside(reason, _) => print_outside(alloc, *reason),
        Answer::Spent(_) => b"spent\n".to_vec(alloc),
    }
}

/// The lines of the answer that is held for two selectors.
#[tactic(auto, using(crate::proofs::Held::not_unknown, crate::proofs::Held::text_of_answer))]
pub(crate) fn print_held(
    alloc: Global,
    pairs: &Pairs,
    x: &Selector,
    y: &Selector,
) -> Result<Vec<u8>, AllocError>
    requires { IsHeld pairs.now.answers x.now y.now }
    ensures { IfOk result (λ text. IsTextOfAnswer x.now y.now pairs.now text.items) }
{
    match pairs.known(x, y) {
        Some(answer) => print_answer(alloc, answer),
        None => unreachable!(),
    }
}
