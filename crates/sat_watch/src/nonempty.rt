//! Whether a formula has an empty clause.
ghost use Rattle.std.specs.Prelude.{◌≡◌, ◌↔◌, false, IsTrue};
ghost use Rattle.sat_watch.specs.Nonempty.{are_nonempty};

use cnf::Formula;

/// Whether a formula has a clause without literals.
pub fn has_empty(f: &Formula) -> bool
    ensures { IsTrue result ↔ (are_nonempty f.now.clauses ≡ false) }
{
    for k in 0..f.len() {
        if f.clause(k).is_empty() {
            return true;
        }
    }
    false
}
