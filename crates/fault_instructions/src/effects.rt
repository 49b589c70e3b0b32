//! The effects, a row each: its keyword, what it demands of the type of its variable, and the parts of the woven program
//! that it is made of. Everything else sees an effect by the shape of its arguments alone.
//! The rows of the definitions stand in `specs/Effects.antt`.
ghost use Rattle.std.specs.Prelude.{◌≡◌, IfOk};
ghost use Rattle.std.specs.Result.{result_err};
ghost use Rattle.smv_language.specs.ProgramTree.{declared_tree};
ghost use Rattle.smv_language.specs.ExpressionTree.{tree_of};
ghost use Rattle.fault_instructions.specs.Instructions.{effect_tree, kind_of};
ghost use Rattle.fault_instructions.specs.Numbers.{EffectHasNegations, TypeHasNegations};
ghost use Rattle.fault_instructions.specs.Effects.{keyword as keyword_of, effect_kinds as all_kinds, rule_of, fault_of};
ghost use Rattle.fault_instructions.specs.Templates.{branch as branch_of};

use crate::fault::{
    EffectFault, constant_allowed, inverted_allowed, offset_allowed, ramp_allowed,
    two_values_allowed,
};
use crate::instructions::Effect;
use crate::parts::{constant, domain, inverted, moved};
use base_values::{Dotted, Name, OutOfMemory};
use smv_language::{Declared, Expr};
use std::alloc::Global;

/// The effects without arguments.
#[derive(Clone, Copy)]
pub enum PlainEffect {
    /// The negation of the own value.
    Inverted,
    /// Any value.
    Random,
    /// Any value but the own one.
    Erroneous,
    /// The value before.
    Frozen,
    /// Any value where the mode is entered, and from then on the value before.
    StuckAtPick,
}

/// The effects of a constant.
#[derive(Clone, Copy)]
pub enum ConstantEffect {
    /// The constant.
    StuckAt,
}

/// The effects of an expression.
#[derive(Clone, Copy)]
pub enum ExpressionEffect {
    /// The value of the expression.
    Follows,
}

/// The effects of a number.
#[derive(Clone, Copy)]
pub enum NumberEffect {
    /// The own value and this distance, clipped to the range.
    Offset,
}

/// The effects of two numbers.
#[derive(Clone, Copy)]
pub enum NumbersEffect {
    /// The greater of the second number and the value before less the first.
    RampDown,
}

/// An effect without its arguments.
#[derive(Clone, Copy)]
pub enum EffectKind {
    Plain(PlainEffect),
    OfConstant(ConstantEffect),
    OfExpression(ExpressionEffect),
    OfNumber(NumberEffect),
    OfNumbers(NumbersEffect),
}

/// What a rule section says of the read value while the mode stands, where the effect has one.
#[derive(Clone, Copy)]
pub enum EffectRule {
    /// It is not the own value.
    NotOwn,
    /// It is the value before.
    AsBefore,
    /// It is the value before, where the mode stood there.
    AsEntered,
    /// It is the greater of the second number and the value before less the first.
    Falling(i64, i64),
}

/// All effects.
static EFFECT_KINDS: [EffectKind; 9] = [
    EffectKind::OfConstant(ConstantEffect::StuckAt),
    EffectKind::OfExpression(ExpressionEffect::Follows),
    EffectKind::Plain(PlainEffect::Inverted),
    EffectKind::Plain(PlainEffect::Random),
    EffectKind::Plain(PlainEffect::Erroneous),
    EffectKind::Plain(PlainEffect::Frozen),
    EffectKind::Plain(PlainEffect::StuckAtPick),
    EffectKind::OfNumber(NumberEffect::Offset),
    EffectKind::OfNumbers(NumbersEffect::RampDown),
];

/// All effects, without their arguments.
#[tactic(auto, unfolding(crate::specs::Effects::effect_kinds))]
pub fn effect_kinds() -> &'static [EffectKind]
    ensures { result.now ≡ all_kinds }
{
    &EFFECT_KINDS
}

impl EffectKind {
    /// The word that an effect begins with.
    pub fn keyword(self) -> &'static [u8]
        ensures { result.now ≡ keyword_of self }
    {
        match self {
            EffectKind::OfConstant(ConstantEffect::StuckAt) => b"StuckAt",
            EffectKind::OfExpression(ExpressionEffect::Follows) => b"Follows",
            EffectKind::Plain(PlainEffect::Inverted) => b"Inverted",
            EffectKind::Plain(PlainEffect::Random) => b"Random",
            EffectKind::Plain(PlainEffect::Erroneous) => b"Erroneous",
            EffectKind::Plain(PlainEffect::Frozen) => b"Frozen",
            EffectKind::Plain(PlainEffect::StuckAtPick) => b"StuckAtPick",
            EffectKind::OfNumber(NumberEffect::Offset) => b"Offset",
            EffectKind::OfNumbers(NumbersEffect::RampDown) => b"RampDown",
        }
    }
}

impl Effect {
    /// The effect without its arguments.
    pub fn kind(&self) -> EffectKind
        ensures { result ≡ kind_of (effect_tree self.now) }
    {
        match self {
            Effect::Plain(kind) => EffectKind::Plain(*kind),
            Effect::OfConstant(kind, _) => EffectKind::OfConstant(*kind),
            Effect::OfExpression(kind, _) => EffectKind::OfExpression(*kind),
            Effect::OfNumber(kind, _) => EffectKind::OfNumber(*kind),
            Effect::OfNumbers(kind, _, _) => EffectKind::OfNumbers(*kind),
        }
    }
}

/// Whether an effect may stand at a variable that is declared so; if not, the first demand that is
/// broken. Takes no memory.
pub fn allowed(e: &Effect, d: &Declared) -> Result<(), EffectFault>
    ensures { result_err result ≡ fault_of (effect_tree e.now) (declared_tree d.now) }
{
    match e {
        Effect::OfConstant(ConstantEffect::StuckAt, c) => constant_allowed(c, d),
        Effect::Plain(PlainEffect::Inverted) => inverted_allowed(d),
        Effect::Plain(PlainEffect::Erroneous) => two_values_allowed(d),
        Effect::OfExpression(ExpressionEffect::Follows, _)
        | Effect::Plain(PlainEffect::Random)
        | Effect::Plain(PlainEffect::Frozen)
        | Effect::Plain(PlainEffect::StuckAtPick) => Ok(()),
        Effect::OfNumber(NumberEffect::Offset, distance) => offset_allowed(*distance, d),
        Effect::OfNumbers(NumbersEffect::RampDown, step, floor) => ramp_allowed(*step, *floor, d),
    }
}

/// What the read value of the variable is assigned while a mode of the effect stands: one value, or
/// the set of those that a rule section then restricts. The variable is declared so in the program.
pub fn branch(
    alloc: Global,
    e: &Effect,
    target: &Name,
    d: &Declared,
) -> Result<Expr<Dotted>, OutOfMemory>
    requires effect { EffectHasNegations (effect_tree e.now) }
    requires declared { TypeHasNegations (declared_tree d.now) }
    ensures { IfOk result (λ made. tree_of made ≡ branch_of (effect_tree e.now) (declared_tree d.now) target.now) }
{
    match e {
        Effect::OfConstant(ConstantEffect::StuckAt, c) => constant(alloc, c),
        Effect::OfExpression(ExpressionEffect::Follows, value) => value.copy(alloc),
        Effect::Plain(PlainEffect::Inverted) => inverted(alloc, target),
        Effect::OfNumber(NumberEffect::Offset, distance) => moved(alloc, target, *distance, d),
        Effect::Plain(PlainEffect::Random)
        | Effect::Plain(PlainEffect::Erroneous)
        | Effect::Plain(PlainEffect::Frozen)
        | Effect::Plain(PlainEffect::StuckAtPick)
        | Effect::OfNumbers(NumbersEffect::RampDown, _, _) => domain(alloc, d),
    }
}

/// What a rule section says of the read value while a mode of the effect stands.
pub(crate) fn effect_rule(e: &Effect) -> Option<EffectRule>
    ensures { result ≡ rule_of (effect_tree e.now) }
{
    match e {
        Effect::OfConstant(ConstantEffect::StuckAt, _)
        | Effect::OfExpression(ExpressionEffect::Follows, _)
        | Effect::Plain(PlainEffect::Inverted)
        | Effect::Plain(PlainEffect::Random)
        | Effect::OfNumber(NumberEffect::Offset, _) => None,
        Effect::Plain(PlainEffect::Erroneous) => Some(EffectRule::NotOwn),
        Effect::Plain(PlainEffect::Frozen) => Some(EffectRule::AsBefore),
        Effect::Plain(PlainEffect::StuckAtPick) => Some(EffectRule::AsEntered),
        Effect::OfNumbers(NumbersEffect::RampDown, step, floor) => {
            Some(EffectRule::Falling(*step, *floor))
        }
    }
}
