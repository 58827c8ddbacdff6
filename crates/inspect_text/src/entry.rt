//! A declaration that applies, by a selector that matches.

use css_model::{Decl, Specificity};
use std::marker::Model;

/// A declaration that applies, by a selector of its rule that matches.
#[derive(Drop)]
pub(crate) struct Entry<'a> {
    /// The declaration.
    pub(crate) decl: &'a Decl,
    /// The specificity of the selector.
    pub(crate) weight: Specificity,
    /// The number of the item of the sheet, from 0.
    pub(crate) item: usize,
    /// The number of the item of its body, from 0; outside of bodies 0.
    pub(crate) inner: usize,
    /// The number of the declaration in its rule, from 0.
    pub(crate) declaration: usize,
    /// The number of the selector in its rule, from 0.
    pub(crate) selector: usize,
    /// The kept text of the head of the opened block that it is in, if it is in one.
    pub(crate) head: Option<&'a [u8]>,
    /// Where the declaration begins in the bytes of the sheet.
    pub(crate) at: usize,
    /// The printed text of a rule of the selector and the declaration.
    pub(crate) text: Vec<u8>,
}

impl<'a> Model for Entry<'a> {
    ghost use Rattle.std.specs.Option.{option_copied};
    ghost use Rattle.inspect_laws.specs.Entries as spec;

    ghost Value = { spec.Entry };

    ghost view = { λ e. record {
      decl = e.decl.now;
      specificity = e.weight;
      spot = record { item = e.item; inner = e.inner; declaration = e.declaration; selector = e.selector };
      head = option_copied e.head;
      at = e.at;
      text = e.text.items;
    } };
}
