//! A pair or a kept item where it occurs in a sheet.

ghost use Rattle.std.specs.Prelude.{◌≡◌};
ghost use Rattle.std.specs.Option.{option_copied};

use crate::layer::Layer;
use css_model::{Bytes, DeclItem, Item, SelItem};
use std::marker::Model;

/// A selector and a declaration of one rule, or a kept item.
#[derive(Clone, Copy)]
pub enum Part<'a> {
    /// A selector and a declaration.
    Pair(&'a SelItem, &'a DeclItem),
    /// A kept item.
    Kept(&'a Item),
}

/// A pair or a kept item where it occurs.
#[derive(Drop)]
pub struct Occurrence<'a> {
    /// The layer in which it occurs.
    pub layer: &'a Layer<'a>,
    /// The number of its item there, from 0.
    pub item: usize,
    /// What occurs.
    pub part: Part<'a>,
    /// Its normal text: of a pair that of its value.
    pub text: Bytes,
    /// Of a kept item the normal text of its head; of a pair nothing.
    pub front: Bytes,
    /// Whether it is a pair whose selector comes in its rule before.
    pub repeated: bool,
}

impl<'a> Model for Occurrence<'a> {
    ghost use Rattle.sheet_members.specs.Occurrences as spec;
    ghost use Rattle.sheet_members.specs.Seen.{part_seen};

    ghost Value = { spec.Occurrence };

    ghost view = { λ o. record {
      layer = o.layer.now;
      item = o.item;
      part = part_seen o.part;
      text = o.text;
      front = o.front;
      repeated = o.repeated;
    } };
}

impl<'a> Occurrence<'a> {
    /// The normal text of the head of the block around it.
    pub fn head(&self) -> Option<&'a [u8]>
        ensures { option_copied result ≡ self.now.layer.head }
    {
        let layer = self.layer;
        layer.head
    }

    /// The number of the item whose body it is in, from 0.
    pub fn block(&self) -> Option<u32>
        ensures { result ≡ self.now.layer.block }
    {
        let layer = self.layer;
        layer.block
    }
}
