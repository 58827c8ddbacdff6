//! What is around an element, what is known at its place, and how a line leads to the marked one.

/// What is around an element of a document (Selectors 3, section 6.6.5).
#[derive(Clone, Copy, Debug, PartialEq, Eq)]
pub struct Surroundings {
    /// How many siblings are before it.
    pub before: u32,
    /// How many siblings are after it.
    pub behind: u32,
    /// Whether it is the root.
    pub is_root: bool,
    /// Whether it counts as a child.
    pub is_child: bool,
    /// Whether it has children.
    pub has_children: bool,
}

/// Where the compounds of a selector from one on match, seen from an element (Selectors 3, section 8).
#[derive(Clone, Copy, Debug, PartialEq, Eq)]
pub struct Reached {
    /// At the element itself.
    pub here: bool,
    /// At the sibling directly before it.
    pub next: bool,
    /// At some sibling before it.
    pub later: bool,
    /// At its parent.
    pub child: bool,
    /// At some ancestor.
    pub inside: bool,
}

/// How a line leads to the marked one.
#[derive(Clone, Copy, Debug, PartialEq, Eq)]
pub enum Role {
    /// It is the marked line.
    Marked,
    /// The marked line is below it.
    Above,
    /// It is beside such a line, or beside the marked one, before it.
    Beside,
    /// It is below a line beside.
    Apart,
}

/// How a line leads to the marked one, and what is after it and below it.
#[derive(Clone, Copy, Debug, PartialEq, Eq)]
pub struct Standing {
    /// How it leads there.
    pub role: Role,
    /// How many siblings are after its elements.
    pub behind: u128,
    /// Whether its elements have children.
    pub has_children: bool,
}
