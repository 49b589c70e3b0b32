//! The members of a type that lists its values ([`judge_members`]): all numbers or all symbols, and none twice.
ghost use Rattle.std.specs.Prelude.{◌≡◌, None, not, IfOk, OnOk};
ghost use Rattle.smv_type_laws.specs.DeclaredKinds.{has_double, judged_members};
ghost use Rattle.smv_types.specs.Answers.{told};
ghost use Rattle.smv_types.specs.ListKinds.{add_all};
ghost use Rattle.smv_types.specs.Types.{member_judged, members_judged, mixed, row_type};
ghost use Rattle.smv_types.specs.MemberTests.{has_met, AddsMember, IsFirstMet};

use crate::fault::{TypeRule, lower, unless};
use crate::several::{Several, add_to, no_sort};
use crate::sort::{Class, JudgedExpr, Sort, kept, literal, one_value};
use base_values::OutOfMemory;
use indexmap::IndexSet;
use smv_language::Member;
use std::alloc::Global;

/// Members that were met.
#[derive(Drop)]
pub(crate) struct MetMembers<'a> {
    numbers: IndexSet<i64>,
    texts: IndexSet<&'a [u8]>,
}

impl<'a> MetMembers<'a> {
    /// None yet.
    fn new(alloc: Global) -> MetMembers<'a>
        ensures { IsFirstMet result }
    {
        MetMembers {
            numbers: IndexSet::new(alloc),
            texts: IndexSet::new(alloc),
        }
    }

    /// Adds a member, and tells whether it is new.
    fn add(&mut self, member: &'a Member) -> Result<bool, OutOfMemory>
        ensures new { IfOk result (λ new. new ≡ not (has_met self.old member.now)) }
        ensures added { OnOk result (AddsMember self.old member.now self.new) }
    {
        match member {
            Member::Number(n) => Ok(self.numbers.insert(*n)?),
            Member::Symbol(name) => Ok(self.texts.insert(name.text())?),
        }
    }
}

/// Whether a member stands twice.
fn has_double(alloc: Global, members: &[Member]) -> Result<bool, OutOfMemory>
    ensures { IfOk result (λ double. double ≡ has_double members.now) }
{
    let mut met = MetMembers::new(alloc);
    for member in members {
        if !met.add(member)? {
            return Ok(true);
        }
    }
    Ok(false)
}

/// What is known of the values of a type that lists them, and the first rule that it breaks: members are
/// all numbers or all symbols, distinct, and within 32 bits.
#[tactic(auto, using(crate::proofs::TypeLaws::told_type))]
pub(crate) fn judge_members(alloc: Global, members: &[Member]) -> Result<JudgedExpr, OutOfMemory>
    ensures { IfOk result (λ j. j ≡ told (judged_members members.now)) }
{
    let double = has_double(alloc, members)?;
    Ok(whole_type(all_members(members), double))
}

/// The members, judged one after the other.
fn all_members(members: &[Member]) -> Option<Several>
    ensures { result ≡ add_all None (members_judged members.now) }
{
    let mut values = None;
    for member in members {
        values = Some(add_to(values, judge_member(member)));
    }
    values
}

/// A member alone, which breaks a rule where it passes 32 bits.
fn judge_member(member: &Member) -> JudgedExpr
    ensures { result ≡ told (member_judged member.now) }
{
    match member {
        Member::Number(n) => literal(*n),
        Member::Symbol(_) => kept(Sort {
            class: Class::Symbol,
            interval: None,
        }),
    }
}

/// A type of all these members. A type without members has no values; it counts as one of truth values.
fn whole_type(values: Option<Several>, double: bool) -> JudgedExpr
    ensures { result ≡ row_type values double }
{
    match values {
        Some(all) => {
            let double = unless(!double, TypeRule::DoubleMember);
            let own = lower(mixed(all.own), lower(double, all.parts));
            one_value(own, all.sort.class, all.sort.interval, None)
        }
        None => kept(no_sort()),
    }
}

/// The rule of members of several classes, where they break one.
fn mixed(own: Option<TypeRule>) -> Option<TypeRule>
    ensures { result ≡ mixed own }
{
    match own {
        Some(_) => Some(TypeRule::MixedEnum),
        None => None,
    }
}
