//! The rule sections of an effect: [`rule`] for all steps, and [`first_rule`] for the first moment.
//! They restrict the read value where its branch leaves several values open; the trees are those of `specs/Templates.antt`.
ghost use Rattle.std.specs.Prelude.{◌≡◌, IfOk, Some};
ghost use Rattle.smv_language.specs.Tree.{binary as binary_of, next_of};
ghost use Rattle.smv_language.specs.ExpressionTree.{tree_of};
ghost use Rattle.fault_instructions.specs.Instructions.{effect_tree};
ghost use Rattle.fault_instructions.specs.AddedNames.{mode_symbol as mode_symbol_of, mode_variable as mode_variable_of};
ghost use Rattle.fault_instructions.specs.Numbers.{HasNegation, EffectHasNegations};
ghost use Rattle.fault_instructions.specs.Templates.{named as named_tree, number_tree, greater_tree, stands as stands_tree};
ghost use Rattle.fault_instructions.specs.Templates.{stands_next as stands_next_tree, stays_tree, erroneous_rule as erroneous_tree};
ghost use Rattle.fault_instructions.specs.Templates.{frozen_rule as frozen_tree, pick_rule as pick_tree, ramp_rule as ramp_tree};
ghost use Rattle.fault_instructions.specs.Templates.{frozen_first as frozen_first_tree, ramp_first as ramp_first_tree, rules, first_rules};
ghost use Rattle.fault_instructions.specs.Templates.{rule_sections};

use crate::Effect;
use crate::build::{binary, choice, named, next, number_expr};
use crate::effects::{EffectRule, effect_rule};
use crate::names::{mode_symbol, mode_variable};
use crate::parts::{compared, name_of, own_value};
use base_values::{Dotted, Name, OutOfMemory};
use smv_language::{Expr, Op, Section};
use std::alloc::Global;

/// The section that restricts the read value of the target while a mode of the effect stands, where
/// the effect has one.
pub fn rule(
    alloc: Global,
    e: &Effect,
    slice: &Name,
    mode: &Name,
    target: &Name,
) -> Result<Option<Section>, OutOfMemory>
    requires { EffectHasNegations (effect_tree e.now) }
    ensures { IfOk result (λ made. rule_sections made ≡ rules (effect_tree e.now) slice.now mode.now target.now) }
{
    match effect_rule(e) {
        None => Ok(None),
        Some(EffectRule::NotOwn) => {
            let rule = erroneous_rule(alloc, slice, mode, target)?;
            Ok(Some(Section::Invar(rule)))
        }
        Some(EffectRule::AsBefore) => {
            let rule = frozen_rule(alloc, slice, mode, target)?;
            Ok(Some(Section::Trans(rule)))
        }
        Some(EffectRule::AsEntered) => {
            let rule = pick_rule(alloc, slice, mode, target)?;
            Ok(Some(Section::Trans(rule)))
        }
        Some(EffectRule::Falling(step, floor)) => {
            let rule = ramp_rule(alloc, step, floor, slice, mode, target)?;
            Ok(Some(Section::Trans(rule)))
        }
    }
}

/// The section that restricts the read value of the target at the first moment, where the slice may
/// start in a mode of the effect and the effect has one.
pub fn first_rule(
    alloc: Global,
    e: &Effect,
    slice: &Name,
    mode: &Name,
    target: &Name,
) -> Result<Option<Section>, OutOfMemory>
    requires { EffectHasNegations (effect_tree e.now) }
    ensures { IfOk result (λ made. rule_sections made ≡ first_rules (effect_tree e.now) slice.now mode.now target.now) }
{
    match effect_rule(e) {
        Some(EffectRule::AsBefore) => {
            let rule = frozen_first(alloc, slice, mode, target)?;
            Ok(Some(Section::Init(rule)))
        }
        Some(EffectRule::Falling(step, floor)) => {
            let rule = ramp_first(alloc, step, floor, slice, mode, target)?;
            Ok(Some(Section::Init(rule)))
        }
        None | Some(EffectRule::NotOwn) | Some(EffectRule::AsEntered) => Ok(None),
    }
}

/// The symbol of a mode of a slice.
pub fn symbol_of(alloc: Global, slice: &Name, mode: &Name) -> Result<Expr<Dotted>, OutOfMemory>
    ensures { IfOk result (λ made. tree_of made ≡ named_tree (mode_symbol_of slice.now (Some mode.now))) }
{
    let name = mode_symbol(alloc, slice, mode)?;
    named(alloc, name)
}

/// The state of a slice.
fn state_of(alloc: Global, slice: &Name) -> Result<Expr<Dotted>, OutOfMemory>
    ensures { IfOk result (λ made. tree_of made ≡ named_tree (mode_variable_of slice.now)) }
{
    let name = mode_variable(alloc, slice)?;
    named(alloc, name)
}

/// That the mode stands now.
pub fn stands(alloc: Global, slice: &Name, mode: &Name) -> Result<Expr<Dotted>, OutOfMemory>
    ensures { IfOk result (λ made. tree_of made ≡ stands_tree slice.now mode.now) }
{
    let state = state_of(alloc, slice)?;
    let symbol = symbol_of(alloc, slice, mode)?;
    binary(alloc, Op::Equal, state, symbol)
}

/// That the mode stands next.
fn stands_next(alloc: Global, slice: &Name, mode: &Name) -> Result<Expr<Dotted>, OutOfMemory>
    ensures { IfOk result (λ made. tree_of made ≡ stands_next_tree slice.now mode.now) }
{
    let state = state_of(alloc, slice)?;
    let state = next(alloc, state)?;
    let symbol = symbol_of(alloc, slice, mode)?;
    binary(alloc, Op::Equal, state, symbol)
}

/// The next value of a variable.
fn next_value(alloc: Global, variable: &Name) -> Result<Expr<Dotted>, OutOfMemory>
    ensures { IfOk result (λ made. tree_of made ≡ next_of (named_tree variable.now)) }
{
    let value = name_of(alloc, variable)?;
    next(alloc, value)
}

/// That the variable keeps its value.
fn stays(alloc: Global, variable: &Name) -> Result<Expr<Dotted>, OutOfMemory>
    ensures { IfOk result (λ made. tree_of made ≡ stays_tree variable.now) }
{
    let after = next_value(alloc, variable)?;
    let now = name_of(alloc, variable)?;
    binary(alloc, Op::Equal, after, now)
}

/// While the mode stands, the read value differs from the own one.
fn erroneous_rule(
    alloc: Global,
    slice: &Name,
    mode: &Name,
    target: &Name,
) -> Result<Expr<Dotted>, OutOfMemory>
    ensures { IfOk result (λ made. tree_of made ≡ erroneous_tree slice.now mode.now target.now) }
{
    let read = name_of(alloc, target)?;
    let own = own_value(alloc, target)?;
    let differs = binary(alloc, Op::Differs, read, own)?;
    let mode_stands = stands(alloc, slice, mode)?;
    binary(alloc, Op::Implies, mode_stands, differs)
}

/// Where the mode stands next, the read value stays.
fn frozen_rule(
    alloc: Global,
    slice: &Name,
    mode: &Name,
    target: &Name,
) -> Result<Expr<Dotted>, OutOfMemory>
    ensures { IfOk result (λ made. tree_of made ≡ frozen_tree slice.now mode.now target.now) }
{
    let mode_stands = stands_next(alloc, slice, mode)?;
    let value_stays = stays(alloc, target)?;
    binary(alloc, Op::Implies, mode_stands, value_stays)
}

/// Where the mode stands now and next, the read value stays.
fn pick_rule(
    alloc: Global,
    slice: &Name,
    mode: &Name,
    target: &Name,
) -> Result<Expr<Dotted>, OutOfMemory>
    ensures { IfOk result (λ made. tree_of made ≡ pick_tree slice.now mode.now target.now) }
{
    let now = stands(alloc, slice, mode)?;
    let after = stands_next(alloc, slice, mode)?;
    let both = binary(alloc, Op::And, now, after)?;
    let value_stays = stays(alloc, target)?;
    binary(alloc, Op::Implies, both, value_stays)
}

/// Where the mode stands next, the next read value is the greater of the floor and the one now less the step.
fn ramp_rule(
    alloc: Global,
    step: i64,
    floor: i64,
    slice: &Name,
    mode: &Name,
    target: &Name,
) -> Result<Expr<Dotted>, OutOfMemory>
    requires step { HasNegation step }
    requires floor { HasNegation floor }
    ensures { IfOk result (λ made. tree_of made ≡ ramp_tree step floor slice.now mode.now target.now) }
{
    let before = name_of(alloc, target)?;
    let least = lowered(alloc, step, floor, &before)?;
    let after = next_value(alloc, target)?;
    let falls = binary(alloc, Op::Equal, after, least)?;
    let mode_stands = stands_next(alloc, slice, mode)?;
    binary(alloc, Op::Implies, mode_stands, falls)
}

/// Where the mode stands at the first moment, the read value is the own one.
fn frozen_first(
    alloc: Global,
    slice: &Name,
    mode: &Name,
    target: &Name,
) -> Result<Expr<Dotted>, OutOfMemory>
    ensures { IfOk result (λ made. tree_of made ≡ frozen_first_tree slice.now mode.now target.now) }
{
    let read = name_of(alloc, target)?;
    let own = own_value(alloc, target)?;
    let same = binary(alloc, Op::Equal, read, own)?;
    let mode_stands = stands(alloc, slice, mode)?;
    binary(alloc, Op::Implies, mode_stands, same)
}

/// Where the mode stands at the first moment, the read value is the greater of the floor and the own one less the step.
fn ramp_first(
    alloc: Global,
    step: i64,
    floor: i64,
    slice: &Name,
    mode: &Name,
    target: &Name,
) -> Result<Expr<Dotted>, OutOfMemory>
    requires step { HasNegation step }
    requires floor { HasNegation floor }
    ensures { IfOk result (λ made. tree_of made ≡ ramp_first_tree step floor slice.now mode.now target.now) }
{
    let own = own_value(alloc, target)?;
    let least = lowered(alloc, step, floor, &own)?;
    let read = name_of(alloc, target)?;
    let falls = binary(alloc, Op::Equal, read, least)?;
    let mode_stands = stands(alloc, slice, mode)?;
    binary(alloc, Op::Implies, mode_stands, falls)
}

/// The greater of the floor and the value less the step.
fn lowered(
    alloc: Global,
    step: i64,
    floor: i64,
    value: &Expr<Dotted>,
) -> Result<Expr<Dotted>, OutOfMemory>
    requires step { HasNegation step }
    requires floor { HasNegation floor }
    ensures { IfOk result (λ made. tree_of made ≡ greater_tree (binary_of Op.Minus (tree_of value.now) (number_tree step)) floor) }
{
    let less = compared(alloc, Op::Minus, value, step)?;
    let above = compared(alloc, Op::Greater, &less, floor)?;
    let floor = number_expr(alloc, floor)?;
    choice(alloc, above, less, floor)
}
