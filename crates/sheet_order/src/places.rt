//! What is reversed, by its places in a sheet.

/// A place of a pair of a sheet: the number of its item, and the numbers of its selector and its declaration in it,
/// each from 0.
#[derive(Clone, Copy, Debug, PartialEq, Eq, Hash)]
pub struct PairPlace {
    /// The number of the item, a rule.
    pub item: u32,
    /// The selector of the rule.
    pub sel: u32,
    /// The declaration of the rule.
    pub decl: u32,
}

/// What is reversed with a moved pair.
#[derive(Clone, Copy, Debug, PartialEq, Eq, Hash)]
pub enum Other {
    /// Another pair, at its last place in the sheet.
    Pair(PairPlace),
    /// The kept item of this number, from 0 among all items.
    Kept(u32),
}

/// A moved pair, and what it is reversed with.
#[derive(Clone, Copy, Debug, PartialEq, Eq, Hash)]
pub struct Reversed {
    /// The moved pair, at its last place in what is moved.
    pub moved: PairPlace,
    /// The other pair, or the kept item.
    pub other: Other,
}

/// Which pairs of a sheet are moved.
#[derive(Clone, Copy, Debug, PartialEq, Eq, Hash)]
pub enum Moved {
    /// The pairs of the rule of this number, from 0 among all items.
    Rule(u32),
    /// The pairs of a selector of either rule and a declaration of both, by the numbers of the rules.
    Common {
        /// The upper rule.
        upper: u32,
        /// The lower rule.
        lower: u32,
    },
}
