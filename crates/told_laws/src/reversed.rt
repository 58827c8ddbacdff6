//! Which declaration wins in each of two sheets, as functions that do nothing.

ghost use Rattle.told_laws.specs.Reversed.{OtherWinnersDiffer, ToldWinnerWins};

/// What is told to win in a sheet is the winner of the whole sheet at the document that is told, over normal values (CSS Cascading
/// 3, section 6). It holds in the scene in which exactly the blocks of the couple hold and kept items apply nothing, of all values
/// that both sheets give the two properties. So where the winners that are told do not agree, those of the whole sheets differ.
pub fn told_winners_win()
    ensures each { ToldWinnerWins }
    ensures differ { OtherWinnersDiffer }
{}
