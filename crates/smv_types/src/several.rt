//! The members of a set and the branches of a case, one after the other: [`add_to`] and [`guard_by`] take one more, and
//! [`whole_set`] and [`whole_case`] judge the node over all of them.
ghost use Rattle.std.specs.Prelude.{◌≡◌, Some, None};
ghost use Rattle.smv_types.specs.ListKinds.{add_to, guard_by, row_set, row_case};
ghost use Rattle.smv_types.specs.declared.sort.Class.TheVariants.{Truth};

use crate::fault::{TypeRule, lower, unless};
use crate::sort::{Class, JudgedExpr, Sort, class_rule, joined, some_values};

/// The values so far: the class of the first and the hull of all, whether one is a set, the rule that they
/// break together, and the one that they break themselves.
#[derive(Clone, Copy)]
pub(crate) struct Several {
    pub sort: Sort,
    pub is_set: bool,
    pub own: Option<TypeRule>,
    pub parts: Option<TypeRule>,
}

/// The conditions so far: the rule that is broken where they are no truth values, the one that they break
/// themselves, and whether the last of them is the word TRUE.
#[derive(Clone, Copy)]
pub(crate) struct Guards {
    pub own: Option<TypeRule>,
    pub parts: Option<TypeRule>,
    pub ends: bool,
}

/// One more value.
pub(crate) fn add_to(before: Option<Several>, value: JudgedExpr) -> Several
    ensures { result ≡ add_to before value }
{
    match before {
        None => Several {
            sort: value.sort,
            is_set: value.is_set,
            own: None,
            parts: value.broken,
        },
        Some(before) => add_to_some(before, value),
    }
}

/// One more value after others: it has to be of the class of the first.
fn add_to_some(before: Several, value: JudgedExpr) -> Several
    ensures { result ≡ add_to (Some before) value }
{
    let (first, sort) = (before.sort, value.sort);
    let own = lower(
        before.own,
        class_rule(first.class, TypeRule::Mismatch, sort),
    );
    let interval = joined(first.interval, sort.interval);
    let class = first.class;
    Several {
        sort: Sort { class, interval },
        is_set: before.is_set || value.is_set,
        own,
        parts: lower(before.parts, value.broken),
    }
}

/// One more condition, which is the word TRUE or not.
pub(crate) fn guard_by(before: Guards, condition: JudgedExpr, ends: bool) -> Guards
    ensures { result ≡ guard_by before condition ends }
{
    Guards {
        own: lower(
            before.own,
            class_rule(Class::Truth, TypeRule::NotBoolean, condition.sort),
        ),
        parts: lower(before.parts, condition.broken),
        ends,
    }
}

/// A set of all these. A set without members has no values; it counts as one of truth values.
pub(crate) fn whole_set(sets: bool, members: Option<Several>) -> JudgedExpr
    ensures { result ≡ row_set sets members }
{
    match members {
        Some(all) => some_values(sets, true, all.own, all.sort, all.parts),
        None => some_values(sets, true, None, no_sort(), None),
    }
}

/// A case of these branches. A case without branches has no values; it counts as a truth value.
pub(crate) fn whole_case(sets: bool, guards: Guards, values: Option<Several>) -> JudgedExpr
    ensures { result ≡ row_case sets guards values }
{
    let end = unless(guards.ends, TypeRule::CaseEnd);
    match values {
        Some(all) => {
            let own = lower(guards.own, lower(all.own, end));
            let parts = lower(guards.parts, all.parts);
            some_values(sets, all.is_set, own, all.sort, parts)
        }
        None => {
            let own = lower(guards.own, end);
            some_values(sets, false, own, no_sort(), guards.parts)
        }
    }
}

/// What is told of no values at all.
pub(crate) fn no_sort() -> Sort
    ensures { result ≡ record { class = Truth; interval = None } }
{
    Sort {
        class: Class::Truth,
        interval: None,
    }
}
