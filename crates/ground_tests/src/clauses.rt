//! What unit propagation finds of gates, by a plain program, and copies of clauses.

ghost use Rattle.std.specs.Prelude.{◌≡◌, ◌≤◌, length, IsTrue, IfOk};
ghost use Rattle.cnf.specs.Lits.{are_below};

use cnf::{Bits, Formula, Ledger, Lit, adder, and_gate, at_least, divide_by, exactly_one};
use rup_check::{print_log, read_log};
use std::alloc::{AllocError, Global};
use std::test::Fail;

/// The four literals of the variables from `first` on.
fn four_bits(alloc: Global, first: u32) -> Result<Bits, AllocError>
    requires { first ≤ 4 }
    ensures digits { IfOk result (λ b. length b ≡ 4) }
    ensures in_range { IfOk result (λ b. IsTrue (are_below 8 b)) }
{
    let lits = [
        Lit(2 * first),
        Lit(2 * first + 2),
        Lit(2 * first + 4),
        Lit(2 * first + 6),
    ];
    Ok(Bits {
        bits: Vec::from_slice(alloc, &lits)?,
    })
}

/// Whether a literal is true, where the k-th of the list says so of the literal of the number k.
fn is_true(truths: &[bool], lit: Lit) -> bool {
    truths.get(lit.0 as usize) == Some(&true)
}

fn make_true(truths: &mut [bool], lit: Lit) {
    if let Some(truth) = truths.get_mut(lit.0 as usize) {
        *truth = true;
    }
}

/// The literal that is true where a digit is 1, or where it is 0.
fn literal_of(digit: Lit, one: bool) -> Lit {
    if one { digit } else { digit.negation() }
}

/// Makes digits those of a number.
fn give(truths: &mut [bool], digits: &[Lit], number: u32) {
    let mut rest = number;
    for digit in digits {
        make_true(truths, literal_of(*digit, rest % 2 == 1));
        rest /= 2;
    }
}

/// Whether digits are those of a number.
fn have(truths: &[bool], digits: &[Lit], number: u32) -> bool {
    let mut rest = number;
    for digit in digits {
        if !is_true(truths, literal_of(*digit, rest % 2 == 1)) {
            return false;
        }
        rest /= 2;
    }
    rest == 0
}

/// The only open literal of a clause whose others are false.
fn unit(truths: &[bool], clause: &[Lit]) -> Option<Lit> {
    let mut open = None;
    for lit in clause {
        if is_true(truths, *lit) {
            return None;
        }
        if !is_true(truths, lit.negation()) {
            if open.is_some() {
                return None;
            }
            open = Some(*lit);
        }
    }
    open
}

/// Makes the literals true that unit propagation finds where numbers are given.
fn propagated(
    alloc: Global,
    f: &Formula,
    given: &[(&[Lit], u32)],
) -> Result<Vec<bool>, AllocError> {
    let mut truths = vec![in alloc; false; 2 * f.vars() as usize]?;
    for (digits, number) in given {
        give(&mut truths, digits, *number);
    }
    for _ in 0..f.vars() {
        for k in 0..f.len() {
            if let Some(lit) = unit(&truths, f.clause(k)) {
                make_true(&mut truths, lit);
            }
        }
    }
    Ok(truths)
}

/// Whether each clause has a true literal.
fn all_hold(f: &Formula, truths: &[bool]) -> bool {
    for k in 0..f.len() {
        if !f.clause(k).iter().any(|lit| is_true(truths, *lit)) {
            return false;
        }
    }
    true
}

#[test]
#[tactic(auto, using(crate::proofs::Rooms::rooms))]
fn adds_every_pair_of_four_bits(rt: HostRuntime) -> Result<(), Fail> {
    let alloc = rt.alloc();
    let mut f = Formula::new(alloc, 8);
    let x = four_bits(alloc, 0)?;
    let y = four_bits(alloc, 4)?;
    let sum = adder(alloc, &mut f, &x, &y)?;
    for pair in 0..256u32 {
        let (a, b) = (pair % 16, pair / 16);
        let truths = propagated(alloc, &f, &[(&x.bits, a), (&y.bits, b)])?;
        assert!(rt; all_hold(&f, &truths), "{a} and {b}");
        assert!(rt; have(&truths, &sum.bits, a + b), "{a} and {b}");
    }
    Ok(())
}

#[test]
#[tactic(auto, using(crate::proofs::Rooms::rooms))]
fn compares_four_bits_with_each_bound(rt: HostRuntime) -> Result<(), Fail> {
    let alloc = rt.alloc();
    let x = four_bits(alloc, 0)?;
    for bound in 0..18u32 {
        let mut f = Formula::new(alloc, 8);
        let answer = at_least(alloc, &mut f, &x, bound)?;
        for given in 0..16u32 {
            let truths = propagated(alloc, &f, &[(&x.bits, given)])?;
            assert!(rt; all_hold(&f, &truths), "{given} and {bound}");
            let reached = u32::from(given >= bound);
            assert!(rt; have(&truths, &[answer], reached), "{given} and {bound}");
        }
    }
    Ok(())
}

#[test]
#[tactic(auto, using(crate::proofs::Rooms::rooms))]
fn divides_four_bits_by_each_divisor(rt: HostRuntime) -> Result<(), Fail> {
    let alloc = rt.alloc();
    let x = four_bits(alloc, 0)?;
    for by in 1..18u32 {
        let mut f = Formula::new(alloc, 8);
        let (quotient, remainder) = divide_by(alloc, &mut f, &x, by)?;
        for given in 0..16u32 {
            let truths = propagated(alloc, &f, &[(&x.bits, given)])?;
            assert!(rt; all_hold(&f, &truths), "{given} by {by}");
            assert!(rt;
                have(&truths, &quotient.bits, given / by),
                "{given} by {by}"
            );
            assert!(rt;
                have(&truths, &remainder.bits, given % by),
                "{given} by {by}"
            );
        }
    }
    Ok(())
}

#[test]
#[tactic(auto, using(crate::proofs::Rooms::rooms))]
fn exactly_one_of_two_is_not_both(rt: HostRuntime) -> Result<(), Fail> {
    let alloc = rt.alloc();
    let mut f = Formula::new(alloc, 0);
    let lits = [f.fresh(), f.fresh()];
    exactly_one(alloc, &mut f, &lits)?;
    let both = and_gate(alloc, &mut f, &lits)?;
    for given in 0..4u32 {
        let truths = propagated(alloc, &f, &[(&lits, given)])?;
        assert_eq!(rt;
            all_hold(&f, &truths),
            given == 1 || given == 2,
            "at {given}"
        );
        assert!(rt; have(&truths, &[both], u32::from(given == 3)), "at {given}");
    }
    f.add_clause(&[both])?;
    assert!(rt; !f.is_empty());
    let clauses = Vec::new(alloc);
    let text = print_log(alloc, &f, &Ledger { clauses })?;
    let want = "vars 3 clauses 6\n1 2 0\n-1 -2 0\n-3 1 0\n-3 2 0\n3 -1 -2 0\n3 0\n";
    assert_eq!(rt; text.as_slice(), want.as_bytes());
    Ok(())
}

#[test]
fn copies_are_equal(rt: HostRuntime) -> Result<(), Fail> {
    let log = read_log(rt.alloc(), b"vars 3 clauses 0\n2 -3 0\n0\n")?;
    for step in &log.steps {
        assert!(rt; step.copy()? == *step);
    }
    let ledger = Ledger { clauses: log.steps };
    let same = ledger.copy()?;
    assert_eq!(rt; same.clauses.len(), 2);
    assert!(rt; same == ledger);
    Ok(())
}
