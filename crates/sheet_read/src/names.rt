//! What the name of a property or of a type means.

ghost use Rattle.std.specs.Prelude.{◌≡◌, IfOk};
ghost use Rattle.css_model.specs.Sheets.Declarations as declarations;
ghost use Rattle.css_model.specs.Text.Names as spelled;

use css_model::Text;
use std::alloc::{AllocError, Global};

/// A text in ASCII lower case.
pub(crate) fn lower(alloc: Global, text: &Text) -> Result<Text, AllocError>
    ensures { IfOk result (λ t. t ≡ spelled.lower text.now) }
{
    let codes = text
        .codes()
        .iter()
        .map(|c| c.to_ascii_lowercase())
        .collect(alloc)?;
    Ok(Text::new(codes))
}

/// Whether this is the name of a custom property.
pub(crate) fn is_custom(name: &[char]) -> bool
    ensures { result ≡ declarations.is_custom name.now }
{
    matches!(name, ['-', '-', ..])
}

/// The property of a name.
pub(crate) fn property_of(alloc: Global, name: Text) -> Result<Text, AllocError>
    ensures { IfOk result (λ t. t ≡ declarations.property_of name) }
{
    if is_custom(name.codes()) {
        Ok(name)
    } else {
        lower(alloc, &name)
    }
}
