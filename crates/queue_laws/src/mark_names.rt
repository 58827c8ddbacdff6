//! The marks of an indexed sheet are the names by which a plan tells its items.

ghost use Rattle.queue_laws.specs.MarkNames.{KeptAreRenamed, MarksAreNames};

/// The item ids and the order keys of an indexed sheet's marks are item ids and order keys of its items.
pub fn marks_are_names()
    ensures { MarksAreNames }
{}

/// If an indexed sheet keeps the marks of the items that an edit leaves, its items are renamed as after the edit.
pub fn kept_are_renamed()
    ensures { KeptAreRenamed }
{
    marks_are_names();
}
