//! A model with the history of its faults and two more booleans, of which each tells that one of two faults came before the
//! other.
//!
//! The main function is [`stage`].
ghost use Rattle.std.specs.Prelude.{◌≡◌, ◌≢◌, ◌^◌, ◌<◌, ◌≤◌, length, map, IfOk, IsOk, OnOk};
ghost use Rattle.smv_language.specs.Tree.{binary as binary_tree, not_of};
ghost use Rattle.smv_language.specs.declared.expr.Op.TheVariants as op;
ghost use Rattle.smv_language.specs.ModelTree.{variable_tree, formula_tree, flat_tree, model_tree};
ghost use Rattle.smv_flat_laws.specs.FaultModes.{mode_of};
ghost use Rattle.fault_orders.specs.Stage.{stage as stage_of, with_order, order_variable as variable_of, order_at_first as first_of};
ghost use Rattle.fault_orders.specs.Stage.{order_at_step as step_of, now_of, later_of, bit_number as bit_of};

use base_values::{Dotted, Name, OutOfMemory};
use fault_staging::build::{added, binary, opposite};
use smv_flat::with_history;
use smv_language::copy_model::boxed;
use smv_language::model::{FaultList, Flat, FlatModel, Formula, Role, Variable};
use smv_language::{Declared, Expr, Op};
use smv_scope::items::number_of;
use std::alloc::Global;

/// A copy of a model with a history bit for each fault, and after these `ahead` and `behind`: `ahead` is TRUE from a moment on
/// at which the first fault has come and the second has not, and `behind` the other way round. The two faults go by their
/// numbers, from 1 on.
pub fn stage(
    alloc: Global,
    m: &FlatModel,
    faults: &FaultList,
    first: u32,
    second: u32,
) -> Result<FlatModel, OutOfMemory>
    requires first { (1 ≤ first) × (first ≤ length faults.now) }
    requires second { (1 ≤ second) × (second ≤ length faults.now) }
    requires apart { first ≢ second }
    ensures { IfOk result (λ made. model_tree made ≡ stage_of (model_tree m.now) (map mode_of faults.now) first second) }
{
    let one = bit_number(m, first)?;
    let other = bit_number(m, second)?;
    let mut made = with_history(alloc, m, faults)?;
    add_order(alloc, &mut made, b"ahead", one, other)?;
    add_order(alloc, &mut made, b"behind", other, one)?;
    Ok(made)
}

/// The number of the history bit of a fault, which follows the model's own variables.
fn bit_number(m: &FlatModel, fault: u32) -> Result<u32, OutOfMemory>
    requires { 1 ≤ fault }
    ensures number { IfOk result (λ bit. bit ≡ bit_of (model_tree m.now) fault) }
    ensures fits { bit_of (model_tree m.now) fault < 2 ^ 32 → IsOk result }
{
    let own = number_of(m.variables.len())?;
    own.checked_add(fault - 1).ok_or(OutOfMemory)
}

/// Adds a boolean that tells that the one variable was TRUE before the other.
#[tactic(auto, using(crate::proofs::Parts::nothing_more))]
fn add_order(
    alloc: Global,
    made: &mut FlatModel,
    name: &[u8],
    one: u32,
    other: u32,
) -> Result<(), OutOfMemory>
    ensures { OnOk result (model_tree made.new ≡ with_order name.now one other (model_tree made.old)) }
{
    let bit = number_of(made.variables.len())?;
    made.variables.push(order_variable(alloc, name)?)?;
    made.init.push(order_at_first(alloc, bit, one, other)?)?;
    made.trans.push(order_at_step(alloc, bit, one, other)?)
}

/// A boolean state variable of `main` with this name.
fn order_variable(alloc: Global, name: &[u8]) -> Result<Variable, OutOfMemory>
    ensures { IfOk result (λ made. variable_tree made ≡ variable_of name.now) }
{
    let name = Name::new(alloc, name)?;
    Ok(Variable {
        path: Dotted::new(alloc, name)?,
        role: Role::State,
        declared: Declared::Boolean,
        item: 0,
        instance: 0,
    })
}

/// `bit in (one & (!other))`.
fn order_at_first(alloc: Global, bit: u32, one: u32, other: u32) -> Result<Formula, OutOfMemory>
    ensures { IfOk result (λ made. formula_tree made ≡ first_of bit one other) }
{
    let value = alone(alloc, now(one), now(other))?;
    Ok(added(binary(alloc, Op::Within, now(bit), value)?))
}

/// `next(bit) in (bit | (next(one) & (!next(other))))`.
fn order_at_step(alloc: Global, bit: u32, one: u32, other: u32) -> Result<Formula, OutOfMemory>
    ensures { IfOk result (λ made. formula_tree made ≡ step_of bit one other) }
{
    let comes = alone(alloc, later(alloc, one)?, later(alloc, other)?)?;
    let value = binary(alloc, Op::Or, now(bit), comes)?;
    let target = later(alloc, bit)?;
    Ok(added(binary(alloc, Op::Within, target, value)?))
}

/// The one and not the other.
fn alone(alloc: Global, one: Expr<Flat>, other: Expr<Flat>) -> Result<Expr<Flat>, OutOfMemory>
    ensures { IfOk result (λ made. flat_tree made ≡ binary_tree op.And (flat_tree one) (not_of (flat_tree other))) }
{
    let other = opposite(alloc, other)?;
    binary(alloc, Op::And, one, other)
}

/// The variable of a number.
pub(crate) fn now(number: u32) -> Expr<Flat>
    ensures { flat_tree result ≡ now_of number }
{
    Expr::Leaf(Flat::Var(number))
}

/// The variable of a number at the next moment.
fn later(alloc: Global, number: u32) -> Result<Expr<Flat>, OutOfMemory>
    ensures { IfOk result (λ made. flat_tree made ≡ later_of number) }
{
    Ok(Expr::Next(boxed(alloc, now(number))?))
}
