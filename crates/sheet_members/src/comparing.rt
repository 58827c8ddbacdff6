//! The members of two sheets compared.

ghost use Rattle.std.specs.Prelude.{◌≡◌, ◌++◌, [], slice_get, IfOk, OnOk, not};
ghost use Rattle.std.specs.List.{cons_option, filter, filter_map};
ghost use Rattle.std.specs.Option.{option_copied};
ghost use Rattle.sheet_members.specs.Compared as spec;

use crate::listing::Member;
use crate::occurrence::Occurrence;
use crate::table::{Places, has_label, place_in, places_of};
use std::alloc::{AllocError, Global};
use std::marker::Model;

/// A member that two sheets have in common.
#[derive(Drop)]
pub struct Common<'a> {
    /// The member of the first sheet.
    pub mine: &'a Member<'a>,
    /// That of the second one.
    pub yours: &'a Member<'a>,
    /// Its place among the members of the second one.
    pub there: usize,
}

impl<'a> Common<'a> {
    /// Where it occurs in the first sheet.
    pub fn here(&self) -> &'a Occurrence<'a>
        ensures { result.now ≡ self.now.mine.occurrence }
    {
        let mine = self.mine;
        mine.occurrence
    }

    /// Where it occurs in the second sheet.
    pub fn elsewhere(&self) -> &'a Occurrence<'a>
        ensures { result.now ≡ self.now.yours.occurrence }
    {
        let yours = self.yours;
        yours.occurrence
    }

    /// Whether it is compared as a changed one.
    pub fn is_changed(&self) -> bool
        ensures { result ≡ self.now.mine.label.changed }
    {
        let mine = self.mine;
        mine.label.changed
    }
}

impl<'a> Model for Common<'a> {
    ghost use Rattle.sheet_members.specs.Compared as spec;

    ghost Value = { spec.Common };

    ghost view = { λ c. record { mine = c.mine.now; yours = c.yours.now; there = c.there } };
}

/// The members of two sheets compared.
#[derive(Drop)]
pub struct Compared<'a> {
    /// Those in common, in the order of the first sheet.
    pub commons: Vec<Common<'a>>,
    /// Those that the second sheet lacks.
    pub missing: Vec<Member<'a>>,
    /// Those that it has besides.
    pub extra: Vec<Member<'a>>,
}

impl<'a> Model for Compared<'a> {
    ghost use Rattle.sheet_members.specs.Compared as spec;

    ghost Value = { spec.Compared };

    ghost view = { λ c. record { commons = c.commons.items; missing = c.missing.items; extra = c.extra.items } };
}

/// The member at a place, if there is one.
fn member_at<'a>(members: &'a [Member<'a>], at: usize) -> Option<&'a Member<'a>>
    ensures { option_copied result ≡ slice_get members.now at }
{
    members.get(at)
}

/// A member of the first sheet as a common one, if the second sheet, whose table this is, has it.
#[tactic(auto, using(crate::proofs::Placing::common_there, crate::proofs::Placing::common_nowhere, crate::proofs::Placing::never_nowhere))]
fn common_of<'a>(others: &Places<'a>, m: &'a Member<'a>) -> Option<Common<'a>>
    ensures { result ≡ spec.common_of others.now m.now }
{
    match place_in(others, &m.label) {
        None => None,
        Some(there) => match member_at(others.members, there) {
            None => None,
            Some(yours) => Some(Common {
                mine: m,
                yours,
                there,
            }),
        },
    }
}

/// Puts a member after the common ones, if it is one.
fn push_common<'a>(
    commons: &mut Vec<Common<'a>>,
    others: &Places<'a>,
    m: &'a Member<'a>,
) -> Result<(), AllocError>
    ensures { OnOk result (commons.new.items ≡ commons.old.items ++ cons_option (spec.common_of others.now m.now) []) }
{
    match common_of(others, m) {
        None => Ok(()),
        Some(common) => {
            commons.push(common)?;
            Ok(())
        }
    }
}

/// The members of the first sheet that the second one has.
fn commons_of<'a>(
    alloc: Global,
    others: &Places<'a>,
    members: &'a [Member<'a>],
) -> Result<Vec<Common<'a>>, AllocError>
    ensures { IfOk result (λ commons. commons.items ≡ filter_map (spec.common_of others.now) members.now) }
{
    let mut commons = Vec::with_capacity(alloc, members.len())?;
    let mut rest = members;
    'members: while let [m, behind @ ..] = rest {
        push_common(&mut commons, others, m)?;
        rest = behind;
    }
    Ok(commons)
}

/// The members that the other sheet, whose table this is, lacks.
fn lacking_of<'a>(
    alloc: Global,
    others: &Places<'_>,
    members: &[Member<'a>],
) -> Result<Vec<Member<'a>>, AllocError>
    ensures { IfOk result (λ lacking. lacking.items ≡ filter (λ m. not (spec.has_member others.now m.label)) members.now) }
{
    let mut lacking = Vec::new(alloc);
    let mut rest = members;
    'members: while let [m, behind @ ..] = rest {
        if !has_label(others, &m.label) {
            lacking.push(m.copy())?;
        }
        rest = behind;
    }
    Ok(lacking)
}

/// The members of two sheets compared, each list of them beside the other one (`marked_all`). `AllocError` where memory
/// is short.
pub fn compare<'a>(
    alloc: Global,
    members: &'a [Member<'a>],
    others: &'a [Member<'a>],
) -> Result<Compared<'a>, AllocError>
    ensures { IfOk result (λ compared. compared ≡ spec.compared_of members.now others.now) }
{
    let mine = places_of(alloc, members)?;
    let yours = places_of(alloc, others)?;
    Ok(Compared {
        commons: commons_of(alloc, &yours, members)?,
        missing: lacking_of(alloc, &yours, members)?,
        extra: lacking_of(alloc, &mine, others)?,
    })
}
