//! What the program can do, one module a command.

pub(crate) mod about;
pub(crate) mod blockers;
pub(crate) mod check;
pub(crate) mod cmp;
pub(crate) mod dead;
pub(crate) mod diff;
pub(crate) mod inspect;
pub(crate) mod lint;
pub(crate) mod listing;
pub(crate) mod min;
pub(crate) mod same;
pub(crate) mod style;
pub(crate) mod trial;
pub(crate) mod why;
