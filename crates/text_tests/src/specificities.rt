//! Specificities of selectors.

ghost use Rattle.std.specs.Prelude.{◌≤◌, IsTrue, length};
ghost use Rattle.std.specs.List.{All};

use crate::reading::selector;
use css_model::{Compound, Specificity, specificity};

/// Whether each compound is as small as those that are read.
fn are_small(chain: &[Compound]) -> bool
    ensures { IsTrue result → All (λ compound. length compound ≤ 32) chain.now }
{
    for compound in chain {
        if compound.simples.len() > 32 {
            return false;
        }
    }
    true
}

/// The examples of Selectors 3, section 9, and some more.
#[test]
fn counts_ids_classes_and_types(rt: HostRuntime) {
    for (text, a, b, c) in [
        ("*", 0, 0, 0),
        ("LI", 0, 0, 1),
        ("UL LI", 0, 0, 2),
        ("UL OL+LI", 0, 0, 3),
        ("H1 + *[REL=up]", 0, 1, 1),
        ("UL OL LI.red", 0, 1, 3),
        ("LI.red.level", 0, 2, 1),
        ("#x34y", 1, 0, 0),
        ("#s12:not(FOO)", 1, 0, 1),
        ("#a .b c::before", 1, 1, 2),
        (":not(#a)", 1, 0, 0),
        ("*[rel=up]", 0, 1, 0),
        ("li.red", 0, 1, 1),
        ("[id=x]", 0, 1, 0),
        (":hover:not(:root)", 0, 2, 0),
    ] {
        let selector = selector(&rt, rt.alloc(), text);
        assert!(rt; selector.chain.len() <= 12);
        assert!(rt; are_small(&selector.chain));
        assert_eq!(rt;
            specificity(&selector),
            Specificity { a, b, c },
            "at {text}"
        );
    }
}
