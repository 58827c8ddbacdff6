//! The values that variables had last.
ghost use Rattle.std.specs.Prelude.{◌≡◌, ◌<◌, ◌≤◌, ◌^◌, length};
ghost use Rattle.cnf.specs.Lits.{variable};

use cnf::Lit;
use sat_trail::Trail;

/// Writes down the value of each variable that has one.
pub(crate) fn remember(phases: &mut Vec<bool>, trail: &Trail)
    requires { length phases.old.items ≡ trail.now.vars }
    ensures { length phases.new.items ≡ trail.now.vars }
{
    for k in 0..trail.len() {
        let lit = trail.entry(k);
        phases[lit.variable() as usize] = lit.0 % 2 == 0;
    }
}

/// The literal that gives a variable the value that is written down for it.
pub(crate) fn as_before(phases: &[bool], var: u32) -> Lit
    requires range { var < length phases.now }
    requires small { length phases.now ≤ 2 ^ 30 }
    ensures { variable result ≡ var }
{
    if phases[var as usize] {
        Lit(2 * var)
    } else {
        Lit(2 * var + 1)
    }
}
