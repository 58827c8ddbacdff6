//! Whether a rule has each of its declarations once.

ghost use Rattle.std.specs.Prelude.{◌↔◌, IsTrue};
ghost use Rattle.step_queue.specs.Once.{StandOnce};

use css_model::DeclItem;
use rule_parts::has_decl;

/// Whether no two of the declarations are the same. It compares each with each. It takes no memory.
pub fn are_decls_different(decls: &[DeclItem]) -> bool
    ensures { IsTrue result ↔ StandOnce (λ x. x.decl) decls.now }
{
    let mut rest = decls;
    'rest: while let Some((first, behind)) = rest.split_first() {
        if has_decl(behind, &first.decl) {
            return false;
        }
        rest = behind;
    }
    true
}
