//! The command `min`: a style sheet on the input; its merged text on the output, and a report where one is asked for.

ghost use Rattle.std.specs.Prelude.{◌≡◌, ℕ, List, None, Option, Some, false, map, true, IfOk, IfErr};
ghost use Rattle.css_model.specs.Sheets.Limits.{max_bytes};
ghost use Rattle.css_model.specs.Sheets.Sheet.{sheet_of};
ghost use Rattle.cssmin_run.specs.Commands.Min.{IsMergedBy, IsToldOf, IsToldWithin, Merges, MergesBy, MergesWithin, MinRefuses};
ghost use Rattle.cssmin_run.specs.Placed.{nowhere};
ghost use Rattle.planner.specs.Working.{spent_of};
ghost use Rattle.merge_text.specs.MergedTexts.{IsTold, IsToldBy};
ghost use Rattle.opened_merge_laws.specs.Merged.{IsMergedOpened};
ghost use Rattle.sheet_order.specs.Allowing.{Stays};
ghost use Rattle.sheet_order.specs.Laws.{answer_seen};
ghost use Rattle.sheet_read.specs.Reading.{Refuses};

use crate::commands::cmp::unasked;
use crate::status::{Status, too_long_sheet};
use crate::tasks::{Answer, Task};
use css_model::MAX_BYTES;
use line_places::Place;
use merge_report::{merge_report, spent_report};
use merge_text::{MergedText, merge_text_within};
use overlap::Pairs;
use sheet_read::SheetError;
use std::alloc::{AllocError, Global};
use step_obstacles::PairObstacles;

/// The merged text of a sheet, with the answers that were asked for, by the budget and the bound of the work of the words.
pub(crate) fn merged(
    alloc: Global,
    work: Option<u32>,
    budget: Option<u32>,
    bytes: &[u8],
) -> Result<(Pairs, MergedText), SheetError>
    ensures ok { IfOk result (λ m. IsMergedBy work budget bytes.now m.0 m.1) }
    ensures err { IfErr result (λ e. Refuses e (sheet_of bytes.now)) }
{
    let mut obstacles = PairObstacles::new(alloc, unasked(alloc, budget));
    let merged = merge_text_within(alloc, &mut obstacles, bytes, work)?;
    Ok((obstacles.into_pairs(), merged))
}

/// The report of a merged text where one is asked for; otherwise nothing.
#[tactic(auto, using(crate::proofs::Staying::stays_itself))]
fn told_of(
    alloc: Global,
    asked: bool,
    pairs: &mut Pairs,
    bytes: &[u8],
    merged: &MergedText,
) -> Result<Vec<u8>, AllocError>
    requires merged { IsMergedOpened (map answer_seen pairs.old.answers) bytes.now merged.now.text.items }
    requires told { IsTold (map answer_seen pairs.old.answers) bytes.now merged.now }
    ensures stays { Stays pairs.old pairs.new }
    ensures told { IfOk result (λ report. IsToldOf asked pairs.new.answers bytes.now merged.now.text.items report.items) }
{
    if asked {
        merge_report(alloc, pairs, bytes, merged)
    } else {
        Ok(Vec::new(alloc))
    }
}

/// A merged text in which nothing is left to do, with the answers that were asked for, and its report.
fn told_done(
    alloc: Global,
    budget: Option<u32>,
    asked: bool,
    bytes: &[u8],
    merged: (Pairs, MergedText),
) -> Result<(Pairs, Vec<u8>, Vec<u8>), SheetError>
    requires { IsMergedBy None budget bytes.now merged.0 merged.1 }
    ensures ok { IfOk result (λ m. Merges budget asked bytes.now m.1.items m.2.items (Some m.0)) }
    ensures err { IfErr result (λ e. Refuses e (sheet_of bytes.now)) }
{
    let (mut pairs, merged) = merged;
    let report = told_of(alloc, asked, &mut pairs, bytes, &merged)?;
    pairs.are_true();
    let MergedText { text, .. } = merged;
    Ok((pairs, text, report))
}

/// The report of a merged text whose work was spent, if one is asked for; otherwise nothing.
fn told_spent_of(
    alloc: Global,
    asked: bool,
    pairs: &Pairs,
    bytes: &[u8],
    merged: &MergedText,
) -> Result<Vec<u8>, AllocError>
    ensures { IfOk result (λ report. (work : ℕ) → merged.now.spent ≡ true → IsToldBy (Some work) (map answer_seen pairs.now.answers) bytes.now merged.now
        → IsToldWithin work true asked pairs.now.answers bytes.now merged.now.text.items report.items) }
{
    if asked {
        spent_report(alloc, pairs, bytes, merged)
    } else {
        Ok(Vec::new(alloc))
    }
}

/// A merged text whose work was spent, with the answers that were asked for, and its report.
fn told_spent(
    alloc: Global,
    asked: bool,
    bytes: &[u8],
    merged: (Pairs, MergedText),
) -> Result<(Pairs, Vec<u8>, Vec<u8>), SheetError>
    requires { merged.1.spent ≡ true }
    ensures ok { IfOk result (λ m. (work : ℕ) (budget : Option ℕ) → IsMergedBy (Some work) budget bytes.now merged.0 merged.1
        → MergesWithin work budget asked bytes.now m.1.items m.2.items (Some m.0)) }
    ensures err { IfErr result (λ e. Refuses e (sheet_of bytes.now)) }
{
    let (pairs, merged) = merged;
    let report = told_spent_of(alloc, asked, &pairs, bytes, &merged)?;
    pairs.are_true();
    let MergedText { text, .. } = merged;
    Ok((pairs, text, report))
}

/// Whether there is a bound, and it was spent.
fn is_over(work: Option<u32>, spent: bool) -> bool
    ensures over { result ≡ true → (n : ℕ) × (work ≡ Some n) × (spent ≡ true) }
    ensures left { result ≡ false → spent_of work spent ≡ None }
{
    match work {
        Some(_) => spent,
        None => false,
    }
}

/// The merged text of a sheet, with the answers that were asked for, and its report.
fn merged_and_told(
    alloc: Global,
    work: Option<u32>,
    budget: Option<u32>,
    asked: bool,
    bytes: &[u8],
) -> Result<(Pairs, Vec<u8>, Vec<u8>), SheetError>
    ensures ok { IfOk result (λ m. MergesBy work budget asked bytes.now m.1.items m.2.items (Some m.0)) }
    ensures err { IfErr result (λ e. Refuses e (sheet_of bytes.now)) }
{
    let merged = merged(alloc, work, budget, bytes)?;
    if is_over(work, merged.1.spent) {
        told_spent(alloc, asked, bytes, merged)
    } else {
        told_done(alloc, budget, asked, bytes, merged)
    }
}

/// The command `min`.
#[derive(Clone, Copy)]
pub(crate) struct Min {
    /// How many steps and answers together end the plan, where the words say it.
    pub(crate) work: Option<u32>,
    /// How many clauses may be learned for a pair, where the words say it.
    pub(crate) budget: Option<u32>,
    /// Whether a report is to be written.
    pub(crate) asked: bool,
}

impl Task for Min {
    ghost most = { λ _. max_bytes };

    ghost makes = { λ task. MergesBy task.work task.budget task.asked };

    ghost refuses = { λ _. MinRefuses };

    ghost told_place = { λ _. nowhere };

    fn limit(&self) -> u32 {
        MAX_BYTES
    }

    #[tactic(auto, using(crate::proofs::Faults::too_long))]
    fn too_long(&self) -> Status {
        too_long_sheet()
    }

    #[tactic(auto, unfolding(crate::specs::SheetFaults::HasFault))]
    fn answer(&self, alloc: Global, bytes: &[u8]) -> Result<Answer, Status> {
        match merged_and_told(alloc, self.work, self.budget, self.asked, bytes) {
            Ok((pairs, text, report)) => Ok(Answer {
                text,
                report,
                held: Some(pairs),
            }),
            Err(SheetError::Fault(fault)) => Err(Status::SheetRefused(fault)),
            Err(SheetError::NoMemory) => Err(Status::NoMemory),
        }
    }

    fn place(&self, _status: Status, _bytes: &[u8]) -> Option<Place> {
        None
    }
}
