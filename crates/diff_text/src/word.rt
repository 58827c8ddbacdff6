//! The word for a couple that is told.

/// The word for a couple that is told.
#[derive(Clone, Copy)]
pub(crate) enum Word {
    /// One of both is a kept item.
    Kept,
    /// Their selectors were not compared, for this reason.
    Outside(u32),
    /// The budget was spent for their selectors.
    Spent,
    /// They are in blocks with different heads.
    Media,
    /// Their properties set no longhand in common, by their spelling.
    Related,
    /// The winners of both sheets agree.
    Masked,
    /// They differ.
    Reversed,
}
