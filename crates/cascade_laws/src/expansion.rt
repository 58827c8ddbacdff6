//! What the lines of a tree of runs mean, as functions that do nothing.

ghost use Rattle.cascade_laws.specs.Line.Expansion.{PathsLeadIntoTrees, TreesKeepTheRules, TreesStandForElements};

/// The lines of a tree of runs mean its elements.
pub fn trees_stand_for_elements()
    ensures { TreesStandForElements }
{}

/// The path to a line among the children of a run begins with the place of that run. The path to a line after a run
/// without children passes its elements.
pub fn paths_lead_into_trees()
    ensures { PathsLeadIntoTrees }
{}

/// The lines of a tree are those of a document, where only single elements have children and each run has an element.
pub fn trees_keep_the_rules()
    ensures { TreesKeepTheRules }
{}
