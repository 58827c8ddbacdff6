//! Laws by which what a step reverses is seen in the part of the sheet that it changes.

ghost use Rattle.plan_laws.specs.Window.Beside.{ReversedStandBeside};
ghost use Rattle.plan_laws.specs.Window.StepWindows.{StepsHaveWindows};
ghost use Rattle.plan_laws.specs.Window.Windows.{WindowsTellKept, WindowsTellPairs};

/// Two pairs are reversed exactly where they are within a window, and neither is after it.
pub fn windows_tell_pairs()
    ensures { WindowsTellPairs }
{}

/// A pair and a kept item are reversed exactly where they are within a window, and the pair is not after it.
pub fn windows_tell_kept()
    ensures { WindowsTellKept }
{}

/// Each step has a window, from its first item to its last one; that of a cut begins at the first item of the sheet.
pub fn steps_have_windows()
    ensures { StepsHaveWindows }
{}

/// What a step reverses with a moved pair is in an item of its window that is not the receiver of a join by selectors.
pub fn reversed_stand_beside()
    ensures { ReversedStandBeside }
{}
