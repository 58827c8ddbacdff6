//! What a text is written to, one part after the other: memory, or a tally of it.

ghost use Rattle.std.specs.Prelude.{◌≡◌, ◌++◌, [], List, ℕ, OnOk};

use std::alloc::AllocError;

/// What a text is written to.
pub(crate) trait Output {
    /// Why a part may not be written.
    type Error;

    /// That a text, written after all that was, leads from the first to the second.
    ghost more: { Self → List ℕ → Self → Type 0 };

    /// Writes a part after those that were written.
    fn put(&mut self, part: &[u8]) -> Result<(), Self::Error>
        ensures { OnOk result (more self.old part.now self.new) };

    ghost nothing: { (out : Self) → more out [] out };

    ghost joins: { (first second third : Self) (front back : List ℕ) →
        more first front second → more second back third → more first (front ++ back) third };
}

impl Output for Vec<u8> {
    ghost use Rattle.std.proofs.Common.{sym, ap, ◌∙◌, append_assoc};
    ghost use Rattle.std.proofs.lemmas.List.{append-nil};

    type Error = AllocError;

    ghost more = { λ old part new. new.items ≡ old.items ++ part };

    ghost nothing = { λ out. sym (append-nil out.items) };

    ghost joins = { λ first second third front back written later.
        later ∙ ap (λ text. text ++ back) written ∙ append_assoc first.items front back };

    fn put(&mut self, part: &[u8]) -> Result<(), AllocError> {
        self.extend_from_slice(part)
    }
}
