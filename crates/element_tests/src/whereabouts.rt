//! Where an element is among others.

/// Where an element of a document is among others (Selectors 3, section 6.6.5).
#[derive(Clone, Copy, Debug, PartialEq, Eq)]
pub struct Whereabouts {
    /// How many siblings are before it.
    pub before: u128,
    /// How many siblings are after it.
    pub behind: u128,
    /// Whether it is the root.
    pub is_root: bool,
    /// Whether it counts as a child.
    pub is_child: bool,
    /// Whether it has children.
    pub has_children: bool,
}
