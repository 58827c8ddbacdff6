//! The first of three documents in which an element passes.

ghost use Rattle.std.specs.Prelude.{◌≡◌, ◌++◌, ◌∷◌, [], ℕ, ◌<◌, ◌^◌, zero, suc, length, IfOk, OnOk};
ghost use Rattle.shape_laws.specs.Document.Trees.{plain};
ghost use Rattle.sibling_counts.specs.Places.{AreFew};
ghost use Rattle.single_examples.specs.Examples.{child_example, plain_lines, root_example, with_text};
ghost use Rattle.single_examples.specs.Trying.{IsTried};

use crate::empties::{asks_for_content, empties_fit};
use crate::root::root_passes;
use css_model::{Example, Features, Pseudo, RunDocument, RunLine, Simple, Text};
use sibling_counts::least_siblings;
use std::alloc::{AllocError, Global};

/// The first of three documents in which an element passes two compounds, as far as they ask for its position and for
/// `:empty` (Selectors 3, sections 6.6.1, 6.6.5 and 6.6.5.12). `None` exactly where it passes in none of the three.
/// `AllocError` where memory runs out.
///
/// - A plain root has the element as a child. The child has the least number of plain siblings before it, and after it
///   the least that goes with that.
/// - The element is the root, which counts as no child.
/// - The element is the root, which counts as a child.
///
/// Its features are these, with text exactly where `:not(:empty)` is asked for. Each step that is asked for is at most
/// 32 and each offset at most 1,000 in size, and at most four steps have a size of 2 or more.
pub fn first_example(
    alloc: Global,
    x: &[Simple],
    y: &[Simple],
    features: &Features,
    pseudo: Option<Pseudo>,
) -> Result<Option<Example>, AllocError>
    requires { AreFew (x.now ++ y.now) }
    ensures { IfOk result (λ found. IsTried found (x.now ++ y.now) features.now pseudo) }
{
    if !empties_fit(x, y) {
        return Ok(None);
    }
    let element = marked(features, asks_for_content(x, y))?;
    if let Some(siblings) = least_siblings(alloc, x, y)? {
        let example = child_example(alloc, siblings.before, siblings.behind, element, pseudo)?;
        return Ok(Some(example));
    }
    if root_passes(false, x, y) {
        let example = root_example(alloc, false, element, pseudo)?;
        return Ok(Some(example));
    }
    if root_passes(true, x, y) {
        let example = root_example(alloc, true, element, pseudo)?;
        return Ok(Some(example));
    }
    Ok(None)
}

/// Equal features, but for the text.
fn marked(features: &Features, text: bool) -> Result<Features, AllocError>
    ensures { IfOk result (λ f. f ≡ record { kind = features.now.kind; attrs = features.now.attrs; flags = features.now.flags; text = text }) }
{
    let mut copy = features.copy()?;
    copy.text = text;
    Ok(copy)
}

/// The marked element as a child of a plain root, with so many plain siblings.
fn child_example(
    alloc: Global,
    before: u32,
    behind: u32,
    element: Features,
    pseudo: Option<Pseudo>,
) -> Result<Example, AllocError>
    ensures { IfOk result (λ e. e ≡ child_example before behind element pseudo) }
{
    let root = plain(alloc)?;
    let mut lines = Vec::new(alloc);
    push_line(&mut lines, 0, 1, root)?;
    push_plain(&mut lines, alloc, before)?;
    let marked = if before == 0 { 1 } else { 2 };
    push_line(&mut lines, 1, 1, element)?;
    push_plain(&mut lines, alloc, behind)?;
    Ok(Example {
        doc: RunDocument {
            root_is_child: false,
            lines,
        },
        marked,
        pseudo,
    })
}

/// The marked element as the root.
fn root_example(
    alloc: Global,
    root_is_child: bool,
    element: Features,
    pseudo: Option<Pseudo>,
) -> Result<Example, AllocError>
    ensures { IfOk result (λ e. e ≡ root_example root_is_child element pseudo) }
{
    let mut lines = Vec::new(alloc);
    push_line(&mut lines, 0, 1, element)?;
    Ok(Example {
        doc: RunDocument {
            root_is_child,
            lines,
        },
        marked: 0,
        pseudo,
    })
}

/// Appends a line.
fn push_line(
    lines: &mut Vec<RunLine>,
    depth: u32,
    count: u32,
    element: Features,
) -> Result<(), AllocError>
    ensures { OnOk result (lines.new.items ≡ lines.old.items ++ record { depth = depth; count = count; element = element } ∷ []) }
{
    lines.push(RunLine {
        depth,
        count,
        element,
    })?;
    Ok(())
}

/// Appends a line of so many plain children of the root, if there are any.
fn push_plain(lines: &mut Vec<RunLine>, alloc: Global, count: u32) -> Result<(), AllocError>
    ensures { OnOk result (lines.new.items ≡ lines.old.items ++ plain_lines count) }
{
    if count == 0 {
        return Ok(());
    }
    let element = plain(alloc)?;
    push_line(lines, 1, count, element)
}

/// The features of an element of the type `x` without anything else.
fn plain(alloc: Global) -> Result<Features, AllocError>
    ensures { IfOk result (λ f. f ≡ plain) }
{
    let codes = Vec::from_slice(alloc, &['x'])?;
    Ok(Features {
        kind: Text::new(codes),
        attrs: Vec::new(alloc),
        flags: 0,
        text: false,
    })
}
