//! Remembers the lengths of the printed selectors of a source, by the places where they begin.

ghost use Rattle.std.specs.Prelude.{◌≡◌, ◌≤◌, IfOk, IfSome, Some, length, slice_get};
ghost use Rattle.std.specs.List.{AllByRecursion};
ghost use Rattle.css_model.specs.Sheets.Limits.{max_bytes};
ghost use Rattle.css_model.specs.Sheets.Printed.{printed_selector};
ghost use Rattle.css_model.specs.Sheets.Sound.{IsSound, IsSoundItem, IsSoundRule, IsSoundSelector};
ghost use Rattle.saved_bytes.specs.Lengths.{AreKnown, text_of_piece};

use css_model::{DeclItem, Item, Piece, Rule, SelItem, Sheet};
use css_print::{decl_len, selector_len};
use rule_parts::Lengths;
use std::alloc::{AllocError, Global};
use std::marker::Model;

/// The length of the printed text of a selector that begins at a place and ends before `behind`.
#[derive(Clone, Copy, Debug, Drop)]
struct Known {
    /// The place of the first byte after the selector, from 0. It is 0 if no length is known.
    behind: u32,
    /// The length in bytes.
    len: u32,
}

/// A source with the lengths in bytes of printed selectors, by the places where they begin.
/// It counts a length that it does not know. Contracts see it as the bytes of the source.
#[derive(Debug, Drop)]
pub struct KnownLengths<'a> {
    bytes: &'a [u8],
    known: Vec<Known>,
    ghost short: { length bytes.now ≤ max_bytes },
    ghost are_known: { AreKnown bytes.now known.items },
}

impl<'a> Model for KnownLengths<'a> {
    ghost use Rattle.std.specs.Prelude.{List, ℕ};

    ghost Value = { List ℕ };

    ghost view = { λ lengths. lengths.bytes.now };
}

/// Returns the length in bytes of the printed text of a selector. `None` may come if it does not fit in 32 bits.
fn counted(bytes: &[u8], item: &SelItem) -> Option<u32>
    requires short { length bytes.now ≤ max_bytes }
    requires sound { IsSoundSelector bytes.now item.now }
    ensures { IfSome result (λ len. length (printed_selector bytes.now item.now) ≡ len) }
{
    let len = selector_len(item, bytes);
    if len > u64::from(u32::MAX) {
        return None;
    }
    Some(len as u32)
}

/// Returns the entry of the selector that begins at this place, if the list has one.
fn known_at(known: &[Known], start: u32) -> Option<Known>
    ensures { IfSome result (λ k. slice_get known.now start ≡ Some k) }
{
    match known.get(start as usize) {
        Some(known) => Some(*known),
        None => None,
    }
}

impl<'a> KnownLengths<'a> {
    /// Returns a source with no remembered lengths. The source has at most `max_bytes` bytes.
    pub fn none(alloc: Global, bytes: &'a [u8]) -> KnownLengths<'a>
        requires { length bytes.now ≤ max_bytes }
        ensures { result ≡ bytes.now }
    {
        KnownLengths {
            bytes,
            known: Vec::new(alloc),
        }
    }

    /// Remembers the length of a selector, if it can. The source stays the same.
    fn remember(&mut self, item: &SelItem)
        requires { IsSoundSelector self.old item.now }
        ensures { self.new ≡ self.old }
    {
        let Some(len) = counted(self.bytes, item) else {
            return;
        };
        let start = item.piece.start as usize;
        if start < self.known.len() {
            self.known[start] = Known {
                behind: item.piece.end,
                len,
            };
        }
    }

    /// Remembers the lengths of some selectors, if it can. The source stays the same.
    fn remember_each(&mut self, items: &[SelItem])
        requires { AllByRecursion (IsSoundSelector self.old) items.now }
        ensures { self.new ≡ self.old }
    {
        let mut rest = items;
        'rest: while let Some((first, behind)) = rest.split_first() {
            self.remember(first);
            rest = behind;
        }
    }

    /// Remembers the lengths of the selectors of a rule, if it can. The source stays the same.
    fn remember_rule(&mut self, rule: &Rule)
        requires { IsSoundRule self.old rule.now }
        ensures { self.new ≡ self.old }
    {
        self.remember_each(&rule.selectors);
    }

    /// Remembers the lengths of the selectors of an item that is a rule, if it can. The source stays the same.
    fn remember_item(&mut self, item: &Item)
        requires { IsSoundItem self.old item.now }
        ensures { self.new ≡ self.old }
    {
        if let Item::Rule(rule) = item {
            self.remember_rule(rule);
        }
    }

    /// Returns a source with remembered lengths of the selectors of a sheet.
    /// The source has at most `max_bytes` bytes, and the sheet is sound for it. The contract does not say which lengths it
    /// remembers. `Err(AllocError)` if memory is short.
    pub fn of(alloc: Global, bytes: &'a [u8], sheet: &Sheet) -> Result<KnownLengths<'a>, AllocError>
        requires short { length bytes.now ≤ max_bytes }
        requires sound { IsSound bytes.now sheet.now.items }
        ensures { IfOk result (λ lengths. lengths ≡ bytes.now) }
    {
        let nothing = Known { behind: 0, len: 0 };
        let known = vec![in alloc; nothing; bytes.len()]?;
        let mut lengths = KnownLengths { bytes, known };
        let mut rest = sheet.items.as_slice();
        'rest: while let Some((first, behind)) = rest.split_first() {
            lengths.remember_item(first);
            rest = behind;
        }
        Ok(lengths)
    }

    /// Returns the length in bytes of the printed text of the selector of this piece, or `None` if it is not known.
    fn find(&self, piece: &Piece) -> Option<u32>
        ensures { IfSome result (λ len. len ≡ length (text_of_piece self.now piece.now)) }
    {
        match known_at(&self.known, piece.start) {
            Some(known) if known.behind > 0 && known.behind == piece.end => Some(known.len),
            _ => None,
        }
    }
}

impl Lengths for KnownLengths<'_> {
    ghost source = { λ lengths. lengths };

    fn selector(&self, item: &SelItem) -> u64 {
        match self.find(&item.piece) {
            Some(len) => u64::from(len),
            None => selector_len(item, self.bytes),
        }
    }

    fn decl(&self, item: &DeclItem) -> u64 {
        decl_len(item, self.bytes)
    }
}
