//! The pairs of selectors of a style sheet, counted by what is answered for them.

ghost use Rattle.std.specs.Prelude.{◌≡◌, IfErr, IfOk, length};
ghost use Rattle.std.specs.List.{count_by};
ghost use Rattle.css_model.specs.Sheets.Sheet.{sheet_of};
ghost use Rattle.bench_counts.specs.Asking.{is_kind};
ghost use Rattle.bench_counts.specs.PairCounts as spec;
ghost use Rattle.sheet_read.specs.Reading.{Refuses};

use crate::answering::{Kind, ask_all};
use crate::selectors::selectors_of;
use cnf::NO_LIMIT;
use overlap::Pairs;
use print_laws::selectors_are_in_the_profile;
use sheet_laws::read_is_sound;
use sheet_read::{SheetError, read_sheet};
use std::alloc::Global;

/// How many ordered pairs of selectors meet, are apart, and are not compared.
#[derive(Clone, Copy, Debug, PartialEq, Eq)]
pub(crate) struct Counts {
    pub(crate) meet: usize,
    pub(crate) apart: usize,
    pub(crate) outside: usize,
}

/// How many of these are of a kind.
fn count_of(kinds: &[Kind], kind: Kind) -> usize
    ensures { result ≡ count_by (is_kind kind) kinds.now }
{
    kinds.iter().filter(|one| **one == kind).count()
}

/// How many of these are of each kind.
fn counts_of(kinds: &[Kind]) -> Counts
    ensures { result ≡ spec.counts_of kinds.now }
{
    Counts {
        meet: count_of(kinds, Kind::Meet),
        apart: count_of(kinds, Kind::Apart),
        outside: count_of(kinds, Kind::Outside),
    }
}

/// How many ordered pairs of the selectors of the style rules of a sheet meet, are apart, and are not compared, each
/// decided without a limit. A selector that occurs twice is asked twice.
///
/// `Fault` exactly where the sheet has one, with its place in bytes from 0. `NoMemory` where memory is short.
#[tactic(auto, using(crate::proofs::Profile::read_in_profile))]
pub(crate) fn count_pairs(alloc: Global, source: &[u8]) -> Result<Counts, SheetError>
    ensures counts { IfOk result (spec.IsCount source.now) }
    ensures refuses { IfErr result (λ e. Refuses e (sheet_of source.now)) }
{
    // Laws that the contract needs; they do nothing.
    read_is_sound();
    selectors_are_in_the_profile();
    let sheet = read_sheet(alloc, source)?;
    let selectors = selectors_of(alloc, &sheet.items)?;
    let mut pairs = Pairs::new(alloc, NO_LIMIT);
    let kinds = ask_all(alloc, &mut pairs, &selectors)?;
    Ok(counts_of(&kinds))
}
