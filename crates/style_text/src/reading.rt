//! The document and the sheet from their texts.

ghost use Rattle.std.specs.Prelude.{◌≡◌, IfOk};
ghost use Rattle.css_model.specs.Documents.RunDocuments.{KeepsRules};
ghost use Rattle.style_text.specs.Reading.{ReadsDocument, ReadsSheet};

use crate::fault::{DocFault, StyleError};
use css_model::{Example, Sheet};
use doc_text::{DocError, read_doc};
use sheet_read::{SheetError, read_sheet};
use std::alloc::Global;

#[tactic(auto, unfolding(crate::specs::Reading::IsDocument))]
/// The example of a document's text, as `read_doc` reads it. It keeps the rules. `Document` exactly where `read_doc` has
/// that fault; `NoMemory` where memory is short.
pub fn read_document(alloc: Global, text: &[u8]) -> Result<Example, StyleError>
    ensures reads { ReadsDocument result text.now }
    ensures rules { IfOk result (λ x. KeepsRules x) }
{
    match read_doc(alloc, text) {
        Ok(x) => Ok(x),
        Err(DocError::BadLine(n)) => Err(StyleError::Document(DocFault::BadLine(n))),
        Err(DocError::TooManyLines) => Err(StyleError::Document(DocFault::TooManyLines)),
        Err(DocError::NoMemory) => Err(StyleError::NoMemory),
    }
}

/// The sheet of a source. `Sheet` exactly where the sheet has that fault, with its place in bytes from 0; `NoMemory` where
/// memory is short.
pub fn read_source(alloc: Global, source: &[u8]) -> Result<Sheet, StyleError>
    ensures { ReadsSheet result source.now }
{
    match read_sheet(alloc, source) {
        Ok(sheet) => Ok(sheet),
        Err(SheetError::Fault(fault)) => Err(StyleError::Sheet(fault)),
        Err(SheetError::NoMemory) => Err(StyleError::NoMemory),
    }
}
