//! The features of the elements that two selectors may share.

ghost use Rattle.std.specs.Prelude.{◌≡◌, ◌++◌, ◌∷◌, [], IfOk, IfErr, OnOk};
ghost use Rattle.std.specs.List.{All, flat_map};
ghost use Rattle.compound_fit.specs.Table.{
  AddsFits,
  IsTable,
  NoFits,
  groups,
  others,
  target,
  with_each,
};
ghost use Rattle.compound_fit.specs.Conditions.{IsFittable};

use crate::compound::{FitError, fit_both};
use css_model::{Compound, Features, Selector, Simple};
use std::alloc::{AllocError, Global};
use std::marker::Model;

/// For each group of compounds of two selectors that one element may have to pass: features of such an element, or that
/// there is none.
#[derive(Debug, Drop)]
pub struct FitTable {
    left: Selector,
    right: Selector,
    fits: Vec<Option<Features>>,
}

impl Model for FitTable {
    ghost use Rattle.compound_fit.specs.TableParts.{TableParts};

    ghost Value = { TableParts };

    ghost view = { λ t. record { left = t.left; right = t.right; fits = t.fits.items } };
}

impl FitTable {
    /// The table of two selectors: what `fit` gives for each group. The groups come in this order, by the chains:
    ///
    /// - both targets;
    /// - each other compound of x alone;
    /// - each other compound of y alone;
    /// - each other compound of x with each other one of y.
    ///
    /// What `fit` asks of compounds is asked of each group. `SpacesTaken` exactly where `fit` gives it for one of them;
    /// `NoMemory` where memory is short.
    pub fn new(alloc: Global, x: &Selector, y: &Selector) -> Result<FitTable, FitError>
        requires { All IsFittable (groups x.now.chain y.now.chain) }
        ensures ok { IfOk result (λ t. IsTable t x.now y.now) }
        ensures err { IfErr result (λ e. NoFits e (groups x.now.chain y.now.chain)) }
    {
        let mut fits = Vec::new(alloc);
        match push_all(&mut fits, alloc, x.chain.as_slice(), y.chain.as_slice()) {
            Ok(()) => {}
            Err(e) => return Err(e),
        }
        let left = x.copy()?;
        let right = y.copy()?;
        Ok(FitTable { left, right, fits })
    }

    /// What `fit` gives for each group, in the order of the groups that `new` lists.
    pub fn fits(&self) -> &[Option<Features>]
        ensures { result.now ≡ self.now.fits }
    {
        self.fits.as_slice()
    }
}

/// Appends the fits of all groups.
fn push_all(
    fits: &mut Vec<Option<Features>>,
    alloc: Global,
    x: &[Compound],
    y: &[Compound],
) -> Result<(), FitError>
    requires { All IsFittable (groups x.now y.now) }
    ensures ok { OnOk result (AddsFits fits.old.items fits.new.items (groups x.now y.now)) }
    ensures err { IfErr result (λ e. NoFits e (groups x.now y.now)) }
{
    match push_fit(fits, alloc, target(x), target(y)) {
        Ok(()) => {}
        Err(e) => return Err(e),
    }
    match push_alone(fits, alloc, others(x)) {
        Ok(()) => {}
        Err(e) => return Err(e),
    }
    match push_alone(fits, alloc, others(y)) {
        Ok(()) => {}
        Err(e) => return Err(e),
    }
    push_pairs(fits, alloc, others(x), others(y))
}

/// The compound of the element that is selected.
fn target(chain: &[Compound]) -> &[Simple]
    ensures { result.now ≡ target chain.now }
{
    match chain {
        [] => &[],
        [first, ..] => first.simples.as_slice(),
    }
}

/// The compounds of a chain after the target's.
fn others(chain: &[Compound]) -> &[Compound]
    ensures { result.now ≡ others chain.now }
{
    match chain {
        [] => &[],
        [_, more @ ..] => more,
    }
}

/// Appends the fit of two compounds.
fn push_fit(
    fits: &mut Vec<Option<Features>>,
    alloc: Global,
    x: &[Simple],
    y: &[Simple],
) -> Result<(), FitError>
    requires { IsFittable (x.now ++ y.now) }
    ensures ok { OnOk result (AddsFits fits.old.items fits.new.items ((x.now ++ y.now) ∷ [])) }
    ensures err { IfErr result (λ e. NoFits e ((x.now ++ y.now) ∷ [])) }
{
    match fit_both(alloc, x, y) {
        Ok(found) => {
            push(fits, found)?;
            Ok(())
        }
        Err(e) => Err(e),
    }
}

/// Appends features.
fn push(fits: &mut Vec<Option<Features>>, found: Option<Features>) -> Result<(), AllocError>
    ensures { OnOk result (fits.new.items ≡ fits.old.items ++ found ∷ []) }
{
    fits.push(found)?;
    Ok(())
}

/// Appends the fits of compounds, each alone.
fn push_alone(
    fits: &mut Vec<Option<Features>>,
    alloc: Global,
    compounds: &[Compound],
) -> Result<(), FitError>
    requires { All IsFittable compounds.now }
    ensures ok { OnOk result (AddsFits fits.old.items fits.new.items compounds.now) }
    ensures err { IfErr result (λ e. NoFits e compounds.now) }
{
    for compound in compounds {
        match push_one(fits, alloc, compound) {
            Ok(()) => {}
            Err(e) => return Err(e),
        }
    }
    Ok(())
}

/// Appends the fit of one compound alone.
fn push_one(
    fits: &mut Vec<Option<Features>>,
    alloc: Global,
    compound: &Compound,
) -> Result<(), FitError>
    requires { IsFittable compound.now }
    ensures ok { OnOk result (AddsFits fits.old.items fits.new.items (compound.now ∷ [])) }
    ensures err { IfErr result (λ e. NoFits e (compound.now ∷ [])) }
{
    push_fit(fits, alloc, compound.simples.as_slice(), &[])
}

/// Appends the fits of one compound with each of others.
fn push_with(
    fits: &mut Vec<Option<Features>>,
    alloc: Global,
    compound: &Compound,
    compounds: &[Compound],
) -> Result<(), FitError>
    requires { All IsFittable (with_each compound.now compounds.now) }
    ensures ok { OnOk result (AddsFits fits.old.items fits.new.items (with_each compound.now compounds.now)) }
    ensures err { IfErr result (λ e. NoFits e (with_each compound.now compounds.now)) }
{
    for other in compounds {
        match push_fit(
            fits,
            alloc,
            compound.simples.as_slice(),
            other.simples.as_slice(),
        ) {
            Ok(()) => {}
            Err(e) => return Err(e),
        }
    }
    Ok(())
}

/// Appends the fits of each of some compounds with each of others.
fn push_pairs(
    fits: &mut Vec<Option<Features>>,
    alloc: Global,
    x: &[Compound],
    y: &[Compound],
) -> Result<(), FitError>
    requires { All IsFittable (flat_map (λ c. with_each c y.now) x.now) }
    ensures ok { OnOk result (AddsFits fits.old.items fits.new.items (flat_map (λ c. with_each c y.now) x.now)) }
    ensures err { IfErr result (λ e. NoFits e (flat_map (λ c. with_each c y.now) x.now)) }
{
    for compound in x {
        match push_with(fits, alloc, compound, y) {
            Ok(()) => {}
            Err(e) => return Err(e),
        }
    }
    Ok(())
}
