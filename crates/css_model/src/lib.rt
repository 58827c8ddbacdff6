//! The types of a style sheet, and the definitions that say what they mean.
#![tactic(auto)]

mod bytes;
mod counting;
mod example;
mod family;
mod fault;
mod features;
mod limits;
mod position;
mod reason;
mod selector;
mod sheet;
mod source;
mod text;
mod token;

pub use bytes::Bytes;
pub use counting::specificity;
pub use example::{Example, RunDocument, RunLine};
pub use family::Family;
pub use fault::{FaultKind, SheetFault};
pub use features::Features;
pub use limits::{
    MAX_BYTES, MAX_COMPOUNDS, MAX_DEPTH, MAX_ITEMS, MAX_PAIRS, MAX_SIMPLES, MAX_STEPPED,
    limits_are_defined, with_pairs_of,
};
pub use position::AnB;
pub use reason::Reason;
pub use selector::{
    AttrTest, Combinator, Compound, Flag, Op, Pseudo, Selector, Simple, Specificity, Test,
};
pub use sheet::{Decl, DeclItem, Item, KeptRule, Piece, Rule, SelItem, Sheet};
pub use text::Text;
pub use token::{Bracket, Gap, Lexeme, Token, TokenFault, TokenFlaw, TokenKind};
