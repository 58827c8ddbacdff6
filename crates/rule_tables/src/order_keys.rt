//! Order keys of rules that are found, as slices where they need not be put together.

ghost use Rattle.std.specs.Prelude.{◌≡◌};
ghost use Rattle.rule_tables.specs.OrderKeys.{order_keys_of};

/// Order keys of rules.
#[derive(Debug, Drop)]
pub enum OrderKeys<'a> {
    /// The order keys under one digest.
    Under(&'a [u64]),
    /// The order keys under several digests, put together.
    Made(Vec<u64>),
}

impl OrderKeys<'_> {
    /// The order keys.
    pub fn list(&self) -> &[u64]
        ensures { result.now ≡ order_keys_of self.now }
    {
        match self {
            OrderKeys::Under(order_keys) => order_keys,
            OrderKeys::Made(order_keys) => order_keys,
        }
    }
}
