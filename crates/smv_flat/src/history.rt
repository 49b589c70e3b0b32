//! A model with one more bit for each fault, which tells whether the fault's mode stands or stood before.
//! [`with_history`] is the main function. The search asks of such a model which faults a state has in its past, and
//! so needs to look at no trace.
ghost use Rattle.std.specs.Prelude.{◌≡◌, map, IfOk, OnOk};
ghost use Rattle.smv_language.specs.declared.expr.Op.TheVariants as op;
ghost use Rattle.smv_language.specs.Tree.{binary, leaf as leaf_tree};
ghost use Rattle.smv_language.specs.ModelTree.{variable_tree, formula_tree, flat_tree, model_tree};
ghost use Rattle.smv_flat_laws.specs.FaultModes.{mode_of};
ghost use Rattle.smv_flat.specs.HistoryTraces.{HasHistory};
ghost use Rattle.smv_language.specs.Flat.{flat_symbol};
ghost use Rattle.smv_flat_laws.specs.History.{with_history as history_of, with_bit, bit_variable as bit_tree, bit_at_first as first_tree};
ghost use Rattle.smv_flat_laws.specs.History.{bit_at_step as step_tree, added as added_tree};

use crate::build::{within, within_next};
use base_values::{Dotted, Name, OutOfMemory};
use smv_language::copy_model::boxed;
use smv_language::model::{Fault, FaultList, Flat, FlatModel, Formula, Role, Variable};
use smv_language::{Declared, Expr, Op};
use smv_scope::items::number_of;
use std::alloc::Global;

/// A copy of a model with a last boolean state variable `failed#i` for each fault i from 1 on, which is
/// TRUE at a moment exactly where the fault's mode stands there or stood before. What is added has item 0
/// and instance 0. Its traces are those of the model, each with one value of every bit, where the model
/// reads its own variables alone and each fault has a variable of symbols alone and a symbol of the model.
#[tactic(auto, using(smv_flat_laws::proofs::HistoryLaws::no_bits))]
pub fn with_history(
    alloc: Global,
    m: &FlatModel,
    faults: &FaultList,
) -> Result<FlatModel, OutOfMemory>
    ensures model { IfOk result (λ made. model_tree made ≡ history_of (model_tree m.now) (map mode_of faults.now)) }
    ensures traces { IfOk result (HasHistory m.now faults.now) }
{
    let mut made = m.copy()?;
    for (k, fault) in faults.as_slice().iter().enumerate() {
        add_bit(alloc, &mut made, k + 1, fault)?;
    }
    Ok(made)
}

/// Adds the bit of the fault of a number.
fn add_bit(
    alloc: Global,
    made: &mut FlatModel,
    number: usize,
    fault: &Fault,
) -> Result<(), OutOfMemory>
    ensures { OnOk result (model_tree made.new ≡ with_bit number (mode_of fault.now) (model_tree made.old)) }
{
    let bit = number_of(made.variables.len())?;
    made.variables.push(bit_variable(alloc, number)?)?;
    made.init.push(bit_at_first(alloc, bit, fault)?)?;
    made.trans.push(bit_at_step(alloc, bit, fault)?)
}

/// The bit of the fault of a number, as a variable of `main`.
fn bit_variable(alloc: Global, number: usize) -> Result<Variable, OutOfMemory>
    ensures { IfOk result (λ made. variable_tree made ≡ bit_tree number) }
{
    let text = format!(in alloc; "failed#{number}")?;
    let name = Name::new(alloc, text.as_bytes())?;
    Ok(Variable {
        path: Dotted::new(alloc, name)?,
        role: Role::State,
        declared: Declared::Boolean,
        item: 0,
        instance: 0,
    })
}

/// `failed#i in (S = m)`.
fn bit_at_first(alloc: Global, bit: u32, fault: &Fault) -> Result<Formula, OutOfMemory>
    ensures { IfOk result (λ made. formula_tree made ≡ first_tree bit (mode_of fault.now)) }
{
    let stands = stands(alloc, Expr::Leaf(Flat::Var(fault.variable)), fault)?;
    Ok(added(within(alloc, Expr::Leaf(Flat::Var(bit)), stands)?))
}

/// `next(failed#i) in (failed#i | (next(S) = m))`.
fn bit_at_step(alloc: Global, bit: u32, fault: &Fault) -> Result<Formula, OutOfMemory>
    ensures { IfOk result (λ made. formula_tree made ≡ step_tree bit (mode_of fault.now)) }
{
    let next = Expr::Next(boxed(alloc, Expr::Leaf(Flat::Var(fault.variable)))?);
    let stands = boxed(alloc, stands(alloc, next, fault)?)?;
    let stood = boxed(alloc, Expr::Leaf(Flat::Var(bit)))?;
    let value = Expr::Binary(Op::Or, stood, stands);
    Ok(added(within_next(alloc, Flat::Var(bit), value)?))
}

/// That the variable of a fault, now or at the next moment, has the symbol of the fault's mode.
fn stands(alloc: Global, variable: Expr<Flat>, fault: &Fault) -> Result<Expr<Flat>, OutOfMemory>
    ensures { IfOk result (λ made. flat_tree made ≡ binary op.Equal (flat_tree variable) (leaf_tree (flat_symbol fault.now.symbol))) }
{
    let symbol = boxed(alloc, Expr::Leaf(Flat::Symbol(fault.symbol)))?;
    Ok(Expr::Binary(Op::Equal, boxed(alloc, variable)?, symbol))
}

/// A formula that no item has.
fn added(value: Expr<Flat>) -> Formula
    ensures { formula_tree result ≡ added_tree (flat_tree value) }
{
    Formula {
        value,
        item: 0,
        instance: 0,
    }
}
