//! Items that others are known not to move past.

ghost use Rattle.std.specs.Prelude.{◌≡◌, []};

use std::alloc::Global;
use std::marker::Model;

/// What an item cannot move past.
#[derive(Clone, Copy, Debug)]
pub struct Barrier {
    /// The order key of an item that it cannot move past. It is 0 if none is known.
    pub order_key: u64,
    /// The number of a declaration of the item, from 0, that cannot move past the other item.
    pub decl: u32,
}

/// Barriers of items: under the item id of each is what it cannot move past.
#[derive(Debug, Drop)]
pub struct Barriers {
    /// The barriers for joins up.
    pub ups: Vec<Barrier>,
    /// The barriers for joins down, and for shares that move the declaration down.
    pub downs: Vec<Barrier>,
}

impl Model for Barriers {
    ghost use Rattle.step_queue.specs.BarrierParts.{BarrierParts};

    ghost Value = { BarrierParts };

    ghost view = { λ w. record { ups = w.ups.items; downs = w.downs.items } };
}

impl Barriers {
    /// Returns barriers of no item.
    pub fn new(alloc: Global) -> Barriers
        ensures ups { result.ups ≡ [] }
        ensures downs { result.downs ≡ [] }
    {
        Barriers {
            ups: Vec::new(alloc),
            downs: Vec::new(alloc),
        }
    }
}
