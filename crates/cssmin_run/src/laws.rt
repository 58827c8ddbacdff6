//! What follows from the contract of a run, as functions that do nothing.

ghost use Rattle.cssmin_run.specs.Laws as laws;

use command_words::some_may_be_told;
use diff_laws::same_members_win_alike;
use remaining_laws::remaining_steps_are_blocked;
use told_laws::{same_text_means_same, told_couples_show_order, told_winners_win};

/// Exactly words without a form are refused, and what other words ask for is done.
pub fn words_decide_usage()
    ensures usage { laws.OtherWordsAreUsage }
    ensures min { laws.MinDoesItsWord }
    ensures cmp { laws.CmpDoesItsWord }
    ensures why { laws.WhyDoesItsWord }
    ensures style { laws.StyleDoesItsWord }
    ensures dead { laws.DeadDoesItsWord }
    ensures check { laws.CheckDoesItsWord }
    ensures same { laws.SameDoesItsWord }
    ensures diff { laws.DiffDoesItsWord }
    ensures blockers { laws.BlockersDoesItsWord }
    ensures list { laws.ListDoesItsWord }
    ensures lint { laws.LintDoesItsWord }
    ensures inspect { laws.InspectDoesItsWord }
    ensures trial { laws.TrialDoesItsWord }
{}

/// What each status says of the input and the output.
pub fn each_status_has_its_cause()
    ensures done { laws.DoneIsMerged }
    ensures remaining { laws.RemainingIsBlocked }
    ensures refused { laws.RefusedHasTheFault }
    ensures read_fault { laws.ReadFaultHasFailed }
    ensures write_fault { laws.WriteFaultHasFailed }
    ensures front { laws.WriteFaultLeavesAFront }
    ensures told { laws.StatusIsTold }
    ensures placed { laws.FaultIsPlaced }
    ensures lint_placed { laws.LintFaultIsPlaced }
    ensures blockers_placed { laws.BlockersFaultIsPlaced }
    ensures diff_placed { laws.DiffFaultIsPlaced }
    ensures second_placed { laws.SecondFaultIsPlaced }
    ensures inspect_placed { laws.InspectFaultIsPlaced }
    ensures found { laws.OnlyTwoFind }
{
    remaining_steps_are_blocked();
}

/// What follows from the text that `diff` wrote, over normal values. After `Done` the two sheets have the same winners in
/// every legal document, in scenes in which blocks with one normal head hold together and alike kept items apply the
/// same (CSS Cascading 3, section 6). After `Found` the order of each couple that is told counts at its example, and at
/// that of a reversed one the sheets have different winners, if exactly its blocks hold and kept items apply nothing.
pub fn told_differences_are_true()
    ensures same { laws.SameSheetsWinAlike }
    ensures order { laws.ToldOrderIsTrue }
{
    some_may_be_told();
    same_text_means_same();
    same_members_win_alike();
    told_couples_show_order();
    told_winners_win();
}

/// The answers that are held after a run are true, with the budget of its words. If the words name no budget, none of
/// them is `Spent`.
pub fn held_answers_are_true()
    ensures all_true { laws.HeldIsTrue }
    ensures unspent { laws.NoBudgetIsSpent }
{}

/// Which status comes where no stream failed, unless memory runs out.
pub fn each_sheet_has_its_status()
    ensures refuses { laws.FaultIsRefused }
    ensures complete { laws.FaultlessIsDone }
    ensures checked { laws.LogIsChecked }
    ensures told_dead { laws.SheetIsTold }
    ensures told_style { laws.PageIsTold }
    ensures told_why { laws.MoveIsExplained }
    ensures told_same { laws.SheetsAreCompared }
    ensures listed { laws.ItemsAreListed }
    ensures found { laws.FindingsAreTold }
    ensures differences { laws.DifferencesAreTold }
    ensures blockers { laws.BlockersAreTold }
    ensures inspected { laws.EntriesAreTold }
    ensures others { laws.OthersAreDone }
{}

/// Over streams whose counts of faults stay the same, no fault of reading or writing is answered.
pub fn constant_counts_answer_no_fault()
    ensures no_read_fault { laws.ConstantCountHasNoReadFault }
    ensures no_write_fault { laws.ConstantCountHasNoWriteFault }
{}
