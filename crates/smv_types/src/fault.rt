//! The rules of kinds and limits, and the first that is broken ([`TypeFault`]). Of two rules that are broken at one
//! item the one with the lower number is told: [`lower`] chooses it.
ghost use Rattle.std.specs.Prelude.{◌≡◌};
ghost use Rattle.smv_types.specs.Rows.{rule_number, lower, lesser_rule, unless};

use base_values::OutOfMemory;
use std::alloc::{AllocError, AllocFailed};

/// A rule of kinds and limits that a model or an expression breaks. Its number, from 1 on, is
/// `rule as u32`, and of several rules that an item breaks the one with the lowest number is told.
#[derive(Clone, Copy, Debug, PartialEq, Eq)]
pub enum TypeRule {
    /// A side, a branch, a member or an operand is of another class than it has to be.
    Mismatch = 1,
    /// A truth value is needed, and the expression is none.
    NotBoolean = 2,
    /// A set where a single value is needed.
    SetHere = 3,
    /// The divisor may be 0.
    MayDivideByZero = 4,
    /// A number passes 32 bits.
    TooWide = 5,
    /// A range or a span whose first end is above its last.
    EmptyRange = 6,
    /// A type that lists numbers and symbols.
    MixedEnum = 7,
    /// The last condition of a `case` is not the word TRUE.
    CaseEnd = 8,
    /// The state bits or the cost pass their limit.
    TooLarge = 9,
    /// A type that lists a member twice.
    DoubleMember = 10,
    /// Want of memory.
    OutOfMemory = 11,
}

/// The first rule that is broken, and the item that breaks it. Items are numbered from 1 in written order;
/// item 0 is the model as a whole, or an expression that is no part of a model. With `OutOfMemory` the item
/// says nothing.
#[derive(Clone, Copy, Debug, PartialEq, Eq)]
pub struct TypeFault {
    pub rule: TypeRule,
    pub item: u32,
}

impl From<OutOfMemory> for TypeFault {
    ghost use Rattle.smv_types.specs.Faults.{IsOfMemory};

    ghost from_gives = { λ _ fault. IsOfMemory fault };

    fn from(_refused: OutOfMemory) -> TypeFault {
        TypeFault {
            rule: TypeRule::OutOfMemory,
            item: 0,
        }
    }
}

impl From<AllocError> for TypeFault {
    ghost use Rattle.smv_types.specs.Faults.{IsOfMemory};

    ghost from_gives = { λ _ fault. IsOfMemory fault };

    fn from(_refused: AllocError) -> TypeFault {
        TypeFault {
            rule: TypeRule::OutOfMemory,
            item: 0,
        }
    }
}

impl<T: Drop> From<AllocFailed<T>> for TypeFault {
    ghost use Rattle.smv_types.specs.Faults.{IsOfMemory};

    ghost from_gives = { λ _ fault. IsOfMemory fault };

    fn from(_refused: AllocFailed<T>) -> TypeFault {
        TypeFault {
            rule: TypeRule::OutOfMemory,
            item: 0,
        }
    }
}

/// The number of a rule, from 1 on.
pub(crate) fn number_of(rule: TypeRule) -> u32
    ensures { result ≡ rule_number rule }
{
    match rule {
        TypeRule::Mismatch => 1,
        TypeRule::NotBoolean => 2,
        TypeRule::SetHere => 3,
        TypeRule::MayDivideByZero => 4,
        TypeRule::TooWide => 5,
        TypeRule::EmptyRange => 6,
        TypeRule::MixedEnum => 7,
        TypeRule::CaseEnd => 8,
        TypeRule::TooLarge => 9,
        TypeRule::DoubleMember => 10,
        TypeRule::OutOfMemory => 11,
    }
}

/// The rule with the lower number, where there is any.
pub(crate) fn lower(a: Option<TypeRule>, b: Option<TypeRule>) -> Option<TypeRule>
    ensures { result ≡ lower a b }
{
    match (a, b) {
        (Some(a), Some(b)) => Some(lesser(a, b)),
        (Some(a), None) => Some(a),
        (None, b) => b,
    }
}

/// The rule with the lower number.
fn lesser(a: TypeRule, b: TypeRule) -> TypeRule
    ensures { result ≡ lesser_rule a b }
{
    if number_of(b) < number_of(a) { b } else { a }
}

/// The rule, where it is not kept.
pub(crate) fn unless(kept: bool, rule: TypeRule) -> Option<TypeRule>
    ensures { result ≡ unless kept rule }
{
    if kept { None } else { Some(rule) }
}
