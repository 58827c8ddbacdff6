//! Declarations as keys of a map, without a copy of them.

ghost use Rattle.std.specs.Prelude.{◌≡◌, ◌↔◌, IsTrue};

use css_model::Decl;
use std::hash::{Hash, Hasher};
use std::marker::Model;

/// A declaration as a key. Contracts see it as the declaration.
#[derive(Drop)]
pub(crate) struct DeclKey<'a> {
    /// The declaration.
    pub decl: &'a Decl,
}

impl<'a> Model for DeclKey<'a> {
    ghost use Rattle.css_model.specs.declared.sheet.Decl.{Decl};

    ghost Value = { Decl };

    ghost view = { λ k. k.decl.now };
}

impl<'a> PartialEq for DeclKey<'a> {
    ghost use Rattle.css_model.specs.contracts.sheet.DeclPartialEq.TheImpl.Laws.{laws-law};

    ghost eq = { λ a b. ⟦<Decl as PartialEq>⟧.eq a b };

    ghost laws = { laws-law };

    fn eq(&self, other: &DeclKey<'a>) -> bool {
        *self.decl == *other.decl
    }
}

impl<'a> Eq for DeclKey<'a> {
    ghost use Rattle.css_model.specs.contracts.sheet.DeclEq.TheImpl.Laws.{laws-law};

    ghost laws = { laws-law };
}

impl<'a> Hash for DeclKey<'a> {
    ghost use Rattle.std.specs.Prelude.{◌++◌};
    ghost use Rattle.std.specs.Hash as fed;
    ghost use Rattle.std.specs.Hash.{same_Alike};
    ghost use Rattle.css_model.proofs.ForCallers.{decl_decides};

    ghost hash_input = { λ d. fed.slice fed.char d.name ++ fed.slice fed.u8 d.value ++ fed.bool d.important };

    ghost respects_eq = { (same_Alike _ decl_decides).fed };

    fn hash<H: Hasher>(&self, state: &mut H) {
        self.decl.name.hash(state);
        self.decl.value.bytes().hash(state);
        self.decl.important.hash(state);
    }
}
