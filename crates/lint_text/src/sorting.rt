//! The lines of what is found, in the order of the sheet.

ghost use Rattle.std.specs.Prelude.{◌≡◌, ◌++◌, ◌∷◌, [], map, IfOk, OnOk};
ghost use Rattle.doc_text.specs.DocText.{ended};
ghost use Rattle.lint_text.specs.LintTexts as spec;

use crate::finding::Finding;
use std::alloc::{AllocError, Global};

/// What was found, ascending by its places.
pub(crate) fn in_order(found: Vec<Finding>) -> Result<Vec<Finding>, AllocError>
    ensures { IfOk result (λ sorted. spec.AreInOrder found.items sorted.items) }
{
    let mut sorted = found;
    sorted.sort_by_key(
        |finding|
            ensures { result ≡ finding.now.at }
        { finding.at },
    )?;
    Ok(sorted)
}

/// Appends the line of a finding with its end.
fn push_line(out: &mut Vec<u8>, finding: &Finding) -> Result<(), AllocError>
    ensures { OnOk result (out.new.items ≡ out.old.items ++ (finding.now.line ++ 10 ∷ [])) }
{
    out.extend_from_slice(&finding.line)?;
    out.push(b'\n')?;
    Ok(())
}

/// The lines of findings, each with its end.
pub(crate) fn lines_of(alloc: Global, found: &[Finding]) -> Result<Vec<u8>, AllocError>
    ensures { IfOk result (λ text. text.items ≡ ended (map (λ f. f.line) found.now)) }
{
    let mut out = Vec::new(alloc);
    let mut rest = found;
    'lines: while let [finding, others @ ..] = rest {
        push_line(&mut out, finding)?;
        rest = others;
    }
    Ok(out)
}
