//! The laws of the texts of documents, as functions that do nothing.

ghost use Rattle.doc_text.specs.Reading.{LinesEnd, TextsDiffer};

/// No text is the text of two examples.
pub fn texts_differ()
    ensures { TextsDiffer }
{}

/// The text of an example has one line end for its first line and one for each line of the document.
pub fn lines_end()
    ensures { LinesEnd }
{}
