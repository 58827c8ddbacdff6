//! A declaration that wins.

use css_model::{Decl, Specificity};

/// A declaration that wins, and the specificity that it applies with.
#[derive(Debug, PartialEq, Eq, Drop)]
pub struct Won {
    /// The declaration.
    pub decl: Decl,
    /// The specificity of the selector by which it applies.
    pub weight: Specificity,
}
