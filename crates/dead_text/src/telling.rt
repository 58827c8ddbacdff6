//! Whether selectors match anything in any legal document, as lines.

ghost use Rattle.std.specs.Prelude.{◌≡◌, ◌++◌, decimal, IfOk, OnOk};
ghost use Rattle.std.specs.List.{AllByRecursion};
ghost use Rattle.css_model.specs.Selectors.Profile.{IsInProfile};
ghost use Rattle.dead_sel.specs.Living.{every};
ghost use Rattle.dead_text.specs.DeadTexts as spec;
ghost use Rattle.doc_text.specs.DocText.{ended};
ghost use Rattle.overlap.specs.Remembered.{Asks};

use crate::listing::Numbered;
use dead_sel::{Life, life};
use doc_text::print_doc;
use itoa::Buffer;
use overlap::Pairs;
use std::alloc::{AllocError, Global};

/// Appends a number in decimal.
fn push_number(out: &mut Vec<u8>, number: usize) -> Result<(), AllocError>
    ensures { OnOk result (out.new.items ≡ out.old.items ++ decimal number) }
{
    let mut buffer = Buffer::new();
    out.extend_from_slice(buffer.format(number).as_bytes())
}

/// The word for a life.
fn life_word(life: &Life) -> &'static [u8]
    ensures { result.now ≡ spec.life_word life.now }
{
    match life {
        Life::Dead => b"dead",
        Life::Alive(_) => b"alive",
        Life::SpacesTaken => b"outside 12",
        Life::Spent(_) => b"spent",
    }
}

/// Appends the line of a selector, without its end.
fn push_line(out: &mut Vec<u8>, of: &Numbered<'_>, life: &Life) -> Result<(), AllocError>
    ensures { OnOk result (out.new.items ≡ out.old.items
        ++ spec.numbered_line of.now.item of.now.number (spec.life_word life.now)) }
{
    push_number(out, of.item)?;
    out.extend_from_slice(b".")?;
    push_number(out, of.number)?;
    out.extend_from_slice(b" ")?;
    out.extend_from_slice(life_word(life))
}

/// Appends the document of a life, if it has one.
fn push_evidence(out: &mut Vec<u8>, alloc: Global, life: &Life) -> Result<(), AllocError>
    ensures { OnOk result (out.new.items ≡ out.old.items ++ ended (spec.evidence_lines life.now)) }
{
    match life {
        Life::Alive(example) => {
            let document = print_doc(alloc, example)?;
            out.extend_from_slice(document.as_slice())
        }
        Life::Dead | Life::SpacesTaken | Life::Spent(_) => Ok(()),
    }
}

/// Appends the lines of a selector with this life.
fn push_told(
    out: &mut Vec<u8>,
    alloc: Global,
    of: &Numbered<'_>,
    life: &Life,
) -> Result<(), AllocError>
    ensures { OnOk result (out.new.items ≡ out.old.items
        ++ ended (spec.told_lines (record { of = of.now; life = life.now }))) }
{
    push_line(out, of, life)?;
    out.extend_from_slice(b"\n")?;
    push_evidence(out, alloc, life)
}

/// Appends the lines of a selector. The answer is asked for.
#[tactic(auto, using(crate::proofs::Asked::tells_one))]
fn push_asked(
    out: &mut Vec<u8>,
    alloc: Global,
    pairs: &mut Pairs,
    of: &Numbered<'_>,
) -> Result<(), AllocError>
    requires { IsInProfile of.now.selector }
    ensures asks { Asks pairs.old pairs.new of.now.selector (every of.now.selector.pseudo) }
    ensures tells { OnOk result (spec.TellsMore pairs.new of.now out.old.items out.new.items) }
{
    let life = life(alloc, pairs, of.selector)?;
    push_told(out, alloc, of, &life)
}

/// The lines of selectors. The answer for each is asked for.
#[tactic(auto, using(crate::proofs::Asked::asks_none, crate::proofs::Asked::tells_none))]
pub(crate) fn tell(
    alloc: Global,
    pairs: &mut Pairs,
    selectors: &[Numbered<'_>],
) -> Result<Vec<u8>, AllocError>
    requires { AllByRecursion (λ s. IsInProfile s.selector) selectors.now }
    ensures asks { spec.AsksEach pairs.old pairs.new selectors.now }
    ensures tells { IfOk result (λ text. spec.TellsEach pairs.new selectors.now text.items) }
{
    let mut out = Vec::new(alloc);
    for one in selectors {
        push_asked(&mut out, alloc, pairs, one)?;
    }
    Ok(out)
}
