//! What effects demand of the type of their variable, a function for each demand: the first part that is broken, by
//! `specs/AllowedEffects.antt`.
ghost use Rattle.std.specs.Prelude.{◌≡◌, ◌+ℤ◌, ◌-ℤ◌, ◌&&◌, pos};
ghost use Rattle.std.specs.Result.{result_err};
ghost use Rattle.std.specs.List.{list_any};
ghost use Rattle.smv_language.specs.ProgramTree.{declared_tree};
ghost use Rattle.smv_language.specs.Values.{same_value, is_between, at_most, opposite, number};
ghost use Rattle.smv_language.specs.Texts.{same_text};
ghost use Rattle.smv_language.specs.Trace.{in_domain, is_member, value_of_member};
ghost use Rattle.fault_instructions.specs.Instructions.{constant_value};
ghost use Rattle.fault_instructions.specs.AllowedEffects.{kind_of_members, is_of_kind as is_of_kind_of, differs as differs_from};
ghost use Rattle.fault_instructions.specs.AllowedEffects.{members_differ, has_two_values as has_two_values_of, is_small as is_small_number};
ghost use Rattle.fault_instructions.specs.AllowedEffects.{offset_fits as offset_fits_in, ramp_fits as ramp_fits_in, demand_fault};
ghost use Rattle.fault_instructions.specs.EffectForms.{one_of_its, truth_values, two_values, a_range};

use crate::Constant;
use base_values::Name;
use base_values::limits::{GREATEST_NUMBER, LEAST_NUMBER};
use smv_language::{Declared, Member};

/// Why an effect may not stand at a variable.
#[derive(Clone, Copy, Debug, PartialEq, Eq)]
pub enum EffectFault {
    /// The effect, or its constant, is of another kind than the variable's values.
    WrongKind,
    /// A number or constant of the effect lies outside what the variable's type allows.
    Outside,
    /// The variable has fewer than two values, so that none differs from its own.
    OneValueOnly,
}

/// `StuckAt`: the constant is of the variable's kind, and one of its values.
pub(crate) fn constant_allowed(c: &Constant, d: &Declared) -> Result<(), EffectFault>
    ensures { result_err result ≡ demand_fault (one_of_its (constant_value c.now)) (declared_tree d.now) }
{
    if !is_of_kind(d, c) {
        return Err(EffectFault::WrongKind);
    }
    if !is_in_domain(d, c) {
        return Err(EffectFault::Outside);
    }
    Ok(())
}

/// `Inverted`: the variable is boolean.
pub(crate) fn inverted_allowed(d: &Declared) -> Result<(), EffectFault>
    ensures { result_err result ≡ demand_fault truth_values (declared_tree d.now) }
{
    match d {
        Declared::Boolean => Ok(()),
        Declared::Range(_, _) | Declared::Members(_) | Declared::Instance(_, _) => {
            Err(EffectFault::WrongKind)
        }
    }
}

/// `Offset`: the variable is of a range, and the distance fits it.
pub(crate) fn offset_allowed(distance: i64, d: &Declared) -> Result<(), EffectFault>
    ensures { result_err result ≡ demand_fault (a_range (offset_fits_in distance)) (declared_tree d.now) }
{
    match d {
        Declared::Range(lo, hi) => {
            if offset_fits(distance, *lo, *hi) {
                Ok(())
            } else {
                Err(EffectFault::Outside)
            }
        }
        Declared::Boolean | Declared::Members(_) | Declared::Instance(_, _) => {
            Err(EffectFault::WrongKind)
        }
    }
}

/// `RampDown`: the variable is of a range, and step and floor fit it.
pub(crate) fn ramp_allowed(step: i64, floor: i64, d: &Declared) -> Result<(), EffectFault>
    ensures { result_err result ≡ demand_fault (a_range (ramp_fits_in step floor)) (declared_tree d.now) }
{
    match d {
        Declared::Range(lo, hi) => {
            if ramp_fits(step, floor, *lo, *hi) {
                Ok(())
            } else {
                Err(EffectFault::Outside)
            }
        }
        Declared::Boolean | Declared::Members(_) | Declared::Instance(_, _) => {
            Err(EffectFault::WrongKind)
        }
    }
}

/// `Erroneous`: the variable has two values.
pub(crate) fn two_values_allowed(d: &Declared) -> Result<(), EffectFault>
    ensures { result_err result ≡ demand_fault two_values (declared_tree d.now) }
{
    if has_two_values(d) {
        Ok(())
    } else {
        Err(EffectFault::OneValueOnly)
    }
}

/// Whether the distance, and both ends moved by it, are within 32 bits.
fn offset_fits(distance: i64, lo: i64, hi: i64) -> bool
    ensures { result ≡ offset_fits_in distance lo hi }
{
    is_small(distance) && (is_small_sum(lo, distance) && is_small_sum(hi, distance))
}

/// Whether the step is at least 1, it and both ends less the step are within 32 bits, and the floor
/// is in the range.
fn ramp_fits(step: i64, floor: i64, lo: i64, hi: i64) -> bool
    ensures { result ≡ ramp_fits_in step floor lo hi }
{
    is_step(step)
        && (is_in_range(floor, lo, hi)
            && (is_small_difference(lo, step) && is_small_difference(hi, step)))
}

/// Whether a step is at least 1 and within 32 bits.
fn is_step(step: i64) -> bool
    ensures { result ≡ (at_most (pos 1) step && is_small_number step) }
{
    at_least_one(step) && is_small(step)
}

fn at_least_one(step: i64) -> bool
    ensures { result ≡ at_most (pos 1) step }
{
    1 <= step
}

/// Whether a number is within 32 bits, with its sign.
fn is_small(n: i64) -> bool
    ensures { result ≡ is_small_number n }
{
    LEAST_NUMBER <= n && n <= GREATEST_NUMBER
}

/// Whether the sum is within 32 bits.
fn is_small_sum(n: i64, distance: i64) -> bool
    ensures { result ≡ is_small_number (n +ℤ distance) }
{
    let sum = i128::from(n) + i128::from(distance);
    i128::from(LEAST_NUMBER) <= sum && sum <= i128::from(GREATEST_NUMBER)
}

/// Whether the difference is within 32 bits.
fn is_small_difference(n: i64, step: i64) -> bool
    ensures { result ≡ is_small_number (n -ℤ step) }
{
    let difference = i128::from(n) - i128::from(step);
    i128::from(LEAST_NUMBER) <= difference && difference <= i128::from(GREATEST_NUMBER)
}

/// Whether a number is in the range, ends included.
fn is_in_range(n: i64, lo: i64, hi: i64) -> bool
    ensures { result ≡ is_between lo hi (number n) }
{
    lo <= n && n <= hi
}

/// Whether the constant is of the kind of the variable's values.
fn is_of_kind(d: &Declared, c: &Constant) -> bool
    ensures { result ≡ is_of_kind_of (declared_tree d.now) (constant_value c.now) }
{
    match d {
        Declared::Boolean => matches!(c, Constant::Truth(_)),
        Declared::Range(_, _) => matches!(c, Constant::Number(_)),
        Declared::Members(members) => is_of_members(members.as_slice(), c),
        Declared::Instance(_, _) => false,
    }
}

/// Whether the constant is of the kind of the first member.
fn is_of_members(members: &[Member], c: &Constant) -> bool
    ensures { result ≡ kind_of_members members.now (constant_value c.now) }
{
    match members.first() {
        Some(Member::Number(_)) => matches!(c, Constant::Number(_)),
        Some(Member::Symbol(_)) => matches!(c, Constant::Symbol(_)),
        None => false,
    }
}

/// Whether the constant is one of the variable's values.
fn is_in_domain(d: &Declared, c: &Constant) -> bool
    ensures { result ≡ in_domain (declared_tree d.now) (constant_value c.now) }
{
    match (d, c) {
        (Declared::Boolean, Constant::Truth(_)) => true,
        (Declared::Range(lo, hi), Constant::Number(n)) => is_in_range(*n, *lo, *hi),
        (Declared::Members(members), _) => is_listed(members.as_slice(), c),
        _ => false,
    }
}

/// Whether the constant is one of the members.
#[tactic(auto, using(crate::proofs::AllowedLaws::member_more))]
fn is_listed(members: &[Member], c: &Constant) -> bool
    ensures { result ≡ is_member members.now (constant_value c.now) }
{
    for member in members {
        if is_constant(member, c) {
            return true;
        }
    }
    false
}

/// Whether the member is this constant.
#[tactic(auto, using(crate::proofs::AllowedLaws::same_int_test))]
fn is_constant(member: &Member, c: &Constant) -> bool
    ensures { result ≡ same_value (value_of_member member.now) (constant_value c.now) }
{
    match (member, c) {
        (Member::Number(n), Constant::Number(k)) => *n == *k,
        (Member::Symbol(x), Constant::Symbol(y)) => has_text(x, y),
        _ => false,
    }
}

/// Whether the type has two values or more.
fn has_two_values(d: &Declared) -> bool
    ensures { result ≡ has_two_values_of (declared_tree d.now) }
{
    match d {
        Declared::Boolean => true,
        Declared::Range(lo, hi) => is_below(*lo, *hi),
        Declared::Members(members) => has_two_members(members.as_slice()),
        Declared::Instance(_, _) => false,
    }
}

fn is_below(lo: i64, hi: i64) -> bool
    ensures { result ≡ opposite (at_most hi lo) }
{
    !(hi <= lo)
}

/// Whether some member differs from the first.
fn has_two_members(members: &[Member]) -> bool
    ensures { result ≡ members_differ members.now }
{
    match members {
        [first, rest @ ..] => has_other(first, rest),
        [] => false,
    }
}

/// Whether a member of the rest differs from the first.
#[tactic(auto, using(crate::proofs::AllowedLaws::any_more))]
fn has_other(first: &Member, rest: &[Member]) -> bool
    ensures { result ≡ list_any (differs_from first.now) rest.now }
{
    for member in rest {
        if differs(first, member) {
            return true;
        }
    }
    false
}

/// Whether two members are different values.
#[tactic(auto, using(crate::proofs::AllowedLaws::same_int_test))]
fn differs(a: &Member, b: &Member) -> bool
    ensures { result ≡ differs_from a.now b.now }
{
    match (a, b) {
        (Member::Number(n), Member::Number(k)) => *n != *k,
        (Member::Symbol(x), Member::Symbol(y)) => !has_text(x, y),
        _ => true,
    }
}

fn has_text(x: &Name, y: &Name) -> bool
    ensures { result ≡ same_text x.now y.now }
{
    x.is_same(y)
}
