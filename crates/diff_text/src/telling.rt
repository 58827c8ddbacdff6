//! The lines of what is found.

ghost use Rattle.std.specs.Prelude.{◌≡◌, ◌++◌, ◌∷◌, [], IfOk, IfSome, OnOk, map};
ghost use Rattle.std.specs.List.{AllByRecursion, filter, flat_map};
ghost use Rattle.std.specs.Option.{option_copied};
ghost use Rattle.css_model.specs.Documents.RunDocuments.{KeepsRules};
ghost use Rattle.turned_members.specs.Turned.{couple};
ghost use Rattle.diff_text.specs.Lines as spec;
ghost use Rattle.diff_text.specs.Shown.{AreReadySides, IsReadyTold, IsShownIn};
ghost use Rattle.sheet_members.specs.Ready.{AreReady, IsReady, IsReadyCommon};

use crate::counting::push_number;
use crate::printing::{put_declaration, put_spot, put_start};
use crate::sides::Sides;
use crate::winning::winning;
use crate::word::Word;
use crate::wording::word_of;
use css_model::Example;
use doc_text::print_doc;
use line_places::Lines;
use sheet_members::{Common, Member, Occurrence};
use std::alloc::{AllocError, Global};
use turned_members::{Told, Verdict};

/// Appends the start of the line of a couple with this word.
fn put_front(out: &mut Vec<u8>, word: Word) -> Result<(), AllocError>
    ensures { OnOk result (out.new.items ≡ out.old.items ++ spec.front_of word) }
{
    match word {
        Word::Kept => out.extend_from_slice(b"unsure kept "),
        Word::Outside(reason) => {
            out.extend_from_slice(b"unsure ")?;
            push_number(out, reason as usize)?;
            out.extend_from_slice(b" ")
        }
        Word::Spent => out.extend_from_slice(b"unsure spent "),
        Word::Media => out.extend_from_slice(b"unsure media "),
        Word::Related => out.extend_from_slice(b"related "),
        Word::Masked => out.extend_from_slice(b"masked "),
        Word::Reversed => out.extend_from_slice(b"reversed "),
    }
}

/// Appends the line of a couple with its word.
fn put_couple(
    out: &mut Vec<u8>,
    alloc: Global,
    lines: &Lines<'_>,
    word: Word,
    first: &Common<'_>,
    second: &Common<'_>,
) -> Result<(), AllocError>
    requires first { IsReady first.now.mine.occurrence }
    requires second { IsReady second.now.mine.occurrence }
    ensures { OnOk result (out.new.items ≡ out.old.items ++ spec.couple_line lines.now.text.now word (couple first.now second.now)) }
{
    put_front(out, word)?;
    put_spot(out, alloc, lines, first.here())?;
    out.push(b' ')?;
    put_spot(out, alloc, lines, second.here())?;
    out.push(b'\n')?;
    Ok(())
}

/// Appends the place and the text of a winner, if there is one.
fn put_winner(
    out: &mut Vec<u8>,
    alloc: Global,
    lines: &Lines<'_>,
    winner: Option<&Occurrence<'_>>,
) -> Result<(), AllocError>
    requires { IfSome (option_copied winner) IsReady }
    ensures { OnOk result (out.new.items ≡ out.old.items ++ spec.winner_text lines.now.text.now (option_copied winner.entry)) }
{
    match winner {
        None => Ok(()),
        Some(o) => put_spot(out, alloc, lines, o),
    }
}

/// Appends a name, and the place and the text of a winner, if there is one.
fn put_named(
    out: &mut Vec<u8>,
    alloc: Global,
    name: &[u8],
    lines: &Lines<'_>,
    winner: Option<&Occurrence<'_>>,
) -> Result<(), AllocError>
    requires { IfSome (option_copied winner) IsReady }
    ensures { OnOk result (out.new.items ≡ out.old.items ++ name.now ++ spec.winner_text lines.now.text.now (option_copied winner.entry)) }
{
    out.extend_from_slice(name)?;
    put_winner(out, alloc, lines, winner)?;
    Ok(())
}

/// Appends the winners of both sheets.
fn put_winners(
    out: &mut Vec<u8>,
    alloc: Global,
    sides: &Sides<'_>,
    mine: Option<&Occurrence<'_>>,
    yours: Option<&Occurrence<'_>>,
) -> Result<(), AllocError>
    requires first { IfSome (option_copied mine) IsReady }
    requires second { IfSome (option_copied yours) IsReady }
    ensures { OnOk result (out.new.items ≡ out.old.items ++ spec.winner_lines sides.now (option_copied mine.entry) (option_copied yours.entry)) }
{
    put_named(out, alloc, b"first ", &sides.lines, mine)?;
    put_named(out, alloc, b"\nsecond ", &sides.other_lines, yours)?;
    out.push(b'\n')?;
    Ok(())
}

/// Appends the document of an example, and the winner of each sheet there.
fn put_example(
    out: &mut Vec<u8>,
    alloc: Global,
    sides: &Sides<'_>,
    first: &Common<'_>,
    second: &Common<'_>,
    x: &Example,
) -> Result<(), AllocError>
    requires rules { KeepsRules x.now }
    requires ready { AreReadySides sides.now }
    ensures { OnOk result (out.new.items ≡ out.old.items ++ spec.example_lines sides.now (couple first.now second.now) x.now) }
{
    let document = print_doc(alloc, x)?;
    let mine = winning(alloc, x, first, second, sides.occurrences)?;
    let yours = winning(alloc, x, first, second, sides.others)?;
    out.extend_from_slice(&document)?;
    put_winners(out, alloc, sides, mine, yours)?;
    Ok(())
}

/// Appends the lines of what is found in a couple.
fn put_verdict(
    out: &mut Vec<u8>,
    alloc: Global,
    sides: &Sides<'_>,
    t: &Told<'_>,
) -> Result<(), AllocError>
    requires shown { ∥ IsShownIn t.now.verdict ∥₁ }
    requires ready { AreReadySides sides.now }
    ensures { OnOk result (out.new.items ≡ out.old.items ++ spec.verdict_lines sides.now t.now.couple t.now.verdict) }
{
    match &t.verdict {
        Verdict::Meet(x) => put_example(out, alloc, sides, t.first, t.second, x),
        Verdict::Kept | Verdict::Outside(_) | Verdict::Spent => Ok(()),
    }
}

/// Appends the lines after that of a couple with this word.
fn put_evidence(
    out: &mut Vec<u8>,
    alloc: Global,
    sides: &Sides<'_>,
    word: Word,
    t: &Told<'_>,
) -> Result<(), AllocError>
    requires shown { ∥ IsShownIn t.now.verdict ∥₁ }
    requires ready { AreReadySides sides.now }
    ensures { OnOk result (out.new.items ≡ out.old.items ++ spec.evidence sides.now word t.now) }
{
    match word {
        Word::Reversed => put_verdict(out, alloc, sides, t),
        _ => Ok(()),
    }
}

/// Appends the lines of a couple with its word.
fn put_told(
    out: &mut Vec<u8>,
    alloc: Global,
    sides: &Sides<'_>,
    word: Word,
    t: &Told<'_>,
) -> Result<(), AllocError>
    requires told { IsReadyTold t.now }
    requires ready { AreReadySides sides.now }
    requires word { word ≡ spec.told_word sides.now t.now }
    ensures { OnOk result (out.new.items ≡ out.old.items ++ spec.told_lines sides.now t.now) }
{
    put_couple(out, alloc, &sides.lines, word, t.first, t.second)?;
    put_evidence(out, alloc, sides, word, t)
}

/// The words for couples that are told.
pub(crate) fn words_of(
    alloc: Global,
    sides: &Sides<'_>,
    told: &[Told<'_>],
) -> Result<Vec<Word>, AllocError>
    requires told { AllByRecursion IsReadyTold told.now }
    requires ready { AreReadySides sides.now }
    ensures { IfOk result (λ words. words.items ≡ map (spec.told_word sides.now) told.now) }
{
    let mut words = Vec::new(alloc);
    let mut rest = told;
    'told: while let [t, others @ ..] = rest {
        words.push(word_of(alloc, sides, t)?)?;
        rest = others;
    }
    Ok(words)
}

/// Appends the lines of couples that are told, which have these words.
#[tactic(auto, using(crate::proofs::Worded::as_many, crate::proofs::Worded::ready_at, crate::proofs::Worded::word_at))]
pub(crate) fn put_all_told(
    out: &mut Vec<u8>,
    alloc: Global,
    sides: &Sides<'_>,
    words: &[Word],
    told: &[Told<'_>],
) -> Result<(), AllocError>
    requires told { AllByRecursion IsReadyTold told.now }
    requires ready { AreReadySides sides.now }
    requires words { words.now ≡ map (spec.told_word sides.now) told.now }
    ensures { OnOk result (out.new.items ≡ out.old.items ++ flat_map (spec.told_lines sides.now) told.now) }
{
    for number in 0..told.len() {
        put_told(out, alloc, sides, words[number], &told[number])?;
    }
    Ok(())
}

/// Appends the line of a member with this word.
fn put_lacking_one(
    out: &mut Vec<u8>,
    alloc: Global,
    word: &[u8],
    lines: &Lines<'_>,
    m: &Member<'_>,
) -> Result<(), AllocError>
    requires { IsReady m.now.occurrence }
    ensures { OnOk result (out.new.items ≡ out.old.items ++ (word.now ++ spec.spot lines.now.text.now m.now.occurrence ++ 10 ∷ [])) }
{
    out.extend_from_slice(word)?;
    put_spot(out, alloc, lines, m.occurrence)?;
    out.push(b'\n')?;
    Ok(())
}

/// Appends the lines of members with this word.
pub(crate) fn put_lacking(
    out: &mut Vec<u8>,
    alloc: Global,
    word: &[u8],
    lines: &Lines<'_>,
    members: &[Member<'_>],
) -> Result<(), AllocError>
    requires { AreReady members.now }
    ensures { OnOk result (out.new.items ≡ out.old.items
        ++ flat_map (λ m. word.now ++ spec.spot lines.now.text.now m.occurrence ++ 10 ∷ []) members.now) }
{
    let mut rest = members;
    'members: while let [m, others @ ..] = rest {
        put_lacking_one(out, alloc, word, lines, m)?;
        rest = others;
    }
    Ok(())
}

/// Appends where a changed member begins in the second sheet, and its declaration there.
fn put_change(
    out: &mut Vec<u8>,
    alloc: Global,
    lines: &Lines<'_>,
    o: &Occurrence<'_>,
) -> Result<(), AllocError>
    requires { IsReady o.now }
    ensures { OnOk result (out.new.items
        ≡ out.old.items ++ (spec.place lines.now.text.now o.now ++ spec.declaration_part o.now.layer o.now.part)) }
{
    put_start(out, lines, o)?;
    put_declaration(out, alloc, o)?;
    Ok(())
}

/// Appends the line of a changed member.
fn put_changed_one(
    out: &mut Vec<u8>,
    alloc: Global,
    sides: &Sides<'_>,
    c: &Common<'_>,
) -> Result<(), AllocError>
    requires { IsReadyCommon c.now }
    ensures { OnOk result (out.new.items ≡ out.old.items ++ spec.changed_line sides.now c.now) }
{
    out.extend_from_slice(b"changed ")?;
    put_spot(out, alloc, &sides.lines, c.here())?;
    out.push(b' ')?;
    put_change(out, alloc, &sides.other_lines, c.elsewhere())?;
    out.push(b'\n')?;
    Ok(())
}

/// Appends the lines of the changed ones among common members.
pub(crate) fn put_changed(
    out: &mut Vec<u8>,
    alloc: Global,
    sides: &Sides<'_>,
    commons: &[Common<'_>],
) -> Result<(), AllocError>
    requires { AllByRecursion IsReadyCommon commons.now }
    ensures { OnOk result (out.new.items ≡ out.old.items
        ++ flat_map (spec.changed_line sides.now) (filter (λ c. c.mine.label.changed) commons.now)) }
{
    let mut rest = commons;
    'commons: while let [c, others @ ..] = rest {
        if c.is_changed() {
            put_changed_one(out, alloc, sides, c)?;
        }
        rest = others;
    }
    Ok(())
}
