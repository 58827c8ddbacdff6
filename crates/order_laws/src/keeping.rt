//! What a sheet has in common with one that it keeps.

ghost use Rattle.order_laws.specs.Keeping.{
  KeepingKeepsWinners,
  EachSheetKeepsItself,
  KeepingIsMutual,
  KeepingGoesOn,
};

/// A sheet that keeps another one has its winners in every legal document (CSS Cascading 3, section 6). It holds for
/// every target, whatever the kept items mean, and of all understood declarations that compete.
pub fn keeping_keeps_winners()
    ensures { KeepingKeepsWinners }
{}

/// Each sheet keeps itself.
pub fn each_sheet_keeps_itself()
    ensures { EachSheetKeepsItself }
{}

/// A sheet is kept by each one that it keeps.
pub fn keeping_is_mutual()
    ensures { KeepingIsMutual }
{}

/// What keeps a sheet that keeps another one keeps that one too.
pub fn keeping_goes_on()
    ensures { KeepingGoesOn }
{}
