//! Documents in lines, and examples: documents with one element marked.

ghost use Rattle.std.specs.Prelude.{◌≡◌, IfOk, IsTrue, ◌↔◌};

use crate::features::Features;
use crate::selector::Pseudo;
use std::alloc::AllocError;
use std::marker::Model;

/// A line of a document: some equal elements side by side. The deeper lines that follow are their children.
#[derive(Debug, PartialEq, Eq, Drop)]
pub struct RunLine {
    /// How many steps the elements are below the root.
    pub depth: u32,
    /// How many elements the line is for.
    pub count: u32,
    /// What each of them has.
    pub element: Features,
}

impl RunLine {
    /// An equal line, in the memory of the allocators of this one's features. `AllocError` where memory runs out.
    pub fn copy(&self) -> Result<RunLine, AllocError>
        ensures { IfOk result (λ line. line ≡ self.now) }
    {
        Ok(RunLine {
            depth: self.depth,
            count: self.count,
            element: self.element.copy()?,
        })
    }
}

/// A document in lines, its elements in document order. The first line is the root.
#[derive(Debug, Drop)]
pub struct RunDocument {
    /// Whether the root counts as the only child of a parent.
    pub root_is_child: bool,
    /// The lines.
    pub lines: Vec<RunLine>,
}

impl Model for RunDocument {
    ghost use Rattle.css_model.specs.Documents.RunDocumentParts.{RunDocumentParts};

    ghost Value = { RunDocumentParts };

    ghost view = { λ d. record { root_is_child = d.root_is_child; lines = d.lines.items } };
}

impl PartialEq for RunDocument {
    ghost use mathlib.Core.Bool.{beq};
    ghost use Rattle.std.specs.Cmp.{partial_equiv_from_equiv, and_per, on_per, bool_eq_equiv};
    ghost use Rattle.std.specs.Cmp.Lexicographic.{pointwise, lists_per};
    ghost use Rattle.std.specs.Ordering.{on, eq_of_both};
    ghost use Rattle.css_model.specs.contracts.example.RunLinePartialEq.TheImpl.Laws.{laws-law as lines_law};

    ghost eq = { eq_of_both (on (λ d. d.root_is_child) beq) (on (λ d. d.lines) (pointwise ⟦<RunLine as PartialEq>⟧.eq)) };

    ghost laws = { and_per (on_per (λ d. d.root_is_child) (partial_equiv_from_equiv bool_eq_equiv)) (on_per (λ d. d.lines) (lists_per lines_law)) };

    fn eq(&self, other: &RunDocument) -> bool
        ensures eq { result ≡ ⟦<RunDocument as PartialEq>⟧.eq self.now other.now }
        ensures exact { IsTrue result ↔ (self.now ≡ other.now) }
    {
        self.root_is_child == other.root_is_child && self.lines == other.lines
    }
}

impl Eq for RunDocument {
    ghost use Rattle.std.specs.Cmp.{and_equiv, on_equiv, bool_eq_equiv};
    ghost use Rattle.std.specs.Cmp.Lexicographic.{lists_equiv};
    ghost use Rattle.css_model.specs.contracts.example.RunLineEq.TheImpl.Laws.{laws-law as lines_law};

    ghost laws = { and_equiv (on_equiv (λ d. d.root_is_child) bool_eq_equiv) (on_equiv (λ d. d.lines) (lists_equiv lines_law)) };
}

impl RunDocument {
    /// An equal document, in the memory of the allocators of this one's lists. `AllocError` where memory runs out.
    pub fn copy(&self) -> Result<RunDocument, AllocError>
        ensures { IfOk result (λ doc. doc ≡ self.now) }
    {
        let lines = copy_lines(&self.lines)?;
        Ok(RunDocument {
            root_is_child: self.root_is_child,
            lines,
        })
    }
}

/// Equal lines, in the memory of the list's allocator.
fn copy_lines(lines: &Vec<RunLine>) -> Result<Vec<RunLine>, AllocError>
    ensures { IfOk result (λ copies. copies.items ≡ lines.now.items) }
{
    let mut copies = Vec::with_capacity(*lines.allocator(), lines.len())?;
    for line in lines {
        copies.push(line.copy()?)?;
    }
    Ok(copies)
}

/// A document with one element marked, and perhaps a pseudo-element of it (Selectors 3, section 7).
#[derive(Debug, PartialEq, Eq, Drop)]
pub struct Example {
    /// The document.
    pub doc: RunDocument,
    /// The line of the marked element, from 0.
    pub marked: u32,
    /// The pseudo-element, where the example is about one.
    pub pseudo: Option<Pseudo>,
}

impl Example {
    /// An equal example, in the memory of the allocators of this one's lists. `AllocError` where memory runs out.
    pub fn copy(&self) -> Result<Example, AllocError>
        ensures { IfOk result (λ x. x ≡ self.now) }
    {
        Ok(Example {
            doc: self.doc.copy()?,
            marked: self.marked,
            pseudo: self.pseudo,
        })
    }
}
