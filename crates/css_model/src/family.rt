//! Families of properties.

ghost use Rattle.std.specs.Prelude.{◌≡◌, IfOk};

use crate::text::Text;
use std::alloc::AllocError;

/// A family of properties: a property sets only properties of its own family.
#[derive(Debug, PartialEq, Eq, Hash, Drop)]
pub enum Family {
    /// The family of `all`, which sets properties of every family.
    All,
    /// A custom property, by its name: a family of its own.
    Custom(Text),
    /// The family of a name: one of the table, or the first part of its properties' names.
    Named(Text),
}

impl Family {
    /// An equal family, in the memory of the allocator of this one's text. `AllocError` where memory runs out.
    pub fn copy(&self) -> Result<Family, AllocError>
        ensures { IfOk result (λ f. f ≡ self.now) }
    {
        match self {
            Family::All => Ok(Family::All),
            Family::Custom(name) => Ok(Family::Custom(name.copy()?)),
            Family::Named(name) => Ok(Family::Named(name.copy()?)),
        }
    }
}
