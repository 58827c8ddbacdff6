//! How the elements that two selectors look at are related.

use std::marker::Model;

/// A step from the element in a slot to the one in the next slot.
#[derive(Clone, Copy, Debug, PartialEq, Eq)]
pub enum SlotStep {
    /// To the sibling directly before.
    NextTo,
    /// To a sibling further before, with at least one between them.
    Further,
    /// To the parent.
    UpOne,
    /// To an ancestor above the parent.
    UpMore,
}

/// A shape of two selectors. Its slots are the elements that one of the two matchings looks at. Slot 0 is the element
/// that both select; then they go along its siblings leftwards, then up to an ancestor, and on in this way. A step up
/// reaches an ancestor of the element in slot 0. A step left reaches a sibling before that element or before such an
/// ancestor.
#[derive(Debug, Drop)]
pub struct Shape {
    /// The steps: the k-th leads from slot k to slot k + 1.
    pub steps: Vec<SlotStep>,
    /// The slots of the compounds of the left selector, in the order of its chain.
    pub left: Vec<u32>,
    /// The slots of the compounds of the right selector, in the order of its chain.
    pub right: Vec<u32>,
    /// How many siblings are before the element in each slot.
    pub before: Vec<u32>,
    /// How many siblings are after the element in each slot.
    pub after: Vec<u32>,
    /// Whether the last slot is that of the root.
    pub top_is_root: bool,
    /// Whether the root counts as the only child of a parent.
    pub root_is_child: bool,
}

impl Model for Shape {
    ghost use Rattle.slot_plan.specs.ShapeParts.{ShapeParts};

    ghost Value = { ShapeParts };

    ghost view = { λ s. record {
      steps = s.steps.items;
      left = s.left.items;
      right = s.right.items;
      before = s.before.items;
      after = s.after.items;
      top_is_root = s.top_is_root;
      root_is_child = s.root_is_child;
    } };
}
