//! How much the rules of a sheet weigh at most.

ghost use Rattle.std.specs.Prelude.{◌≡◌, max};

/// Two bounds, in bytes, on what the selectors and the declarations of a rule weigh.
/// They weigh as much as their texts are long, each with the sign after it.
#[derive(Clone, Copy, Debug)]
pub struct Heaviest {
    /// The bound on the selectors.
    pub selectors: u64,
    /// The bound on the declarations.
    pub decls: u64,
}

impl Heaviest {
    /// Returns the greater of its bound and this weight, in bytes, of the selectors and of the declarations each.
    pub fn with(self, selectors: u64, decls: u64) -> Heaviest
        ensures { result ≡ record { selectors = max self.selectors selectors; decls = max self.decls decls } }
    {
        Heaviest {
            selectors: self.selectors.max(selectors),
            decls: self.decls.max(decls),
        }
    }
}
