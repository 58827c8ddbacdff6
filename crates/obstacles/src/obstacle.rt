//! What blocks a step, by its places in a sheet.

/// A place of a pair of a sheet: the number of its item, and the numbers of its selector and its declaration in it,
/// each from 0.
#[derive(Clone, Copy, Debug, PartialEq, Eq, Hash)]
pub struct PairPlace {
    /// The number of the item, a rule.
    pub item: u32,
    /// The selector of the rule.
    pub sel: u32,
    /// The declaration of the rule.
    pub decl: u32,
}

/// What is reversed with a moved pair.
#[derive(Clone, Copy, Debug, PartialEq, Eq, Hash)]
pub enum Other {
    /// Another pair, at one of its places in the sheet.
    Pair(PairPlace),
    /// The kept item of this number, from 0 among all items.
    Kept(u32),
}

/// What blocks a step: a pair that it moves, and what this is reversed with.
#[derive(Clone, Copy, Debug, PartialEq, Eq, Hash)]
pub struct Obstacle {
    /// The moved pair, at one of its places in the sheet.
    pub moved: PairPlace,
    /// The other pair, or the kept item.
    pub other: Other,
}
