//! The events of faults that begin by themselves.
//!
//! The main function is [`add_own_events`]: a fault's event is told at the moment at which its mode begins outside every window of a
//! cause that strikes it.
ghost use Rattle.std.specs.Prelude.{◌≡◌, ◌<◌, ◌≤◌, ◌++◌, suc, length, map, option_map, IfOk, OnOk};
ghost use Rattle.smv_language.specs.Tree.{choice as choice_tree, leaf};
ghost use Rattle.smv_language.specs.Flat.{flat_symbol};
ghost use Rattle.cut_right_laws.specs.Sets.{has_number as has_number_of};
ghost use Rattle.smv_language.specs.ModelTree.{model_tree, formula_tree, flat_tree, name_of_fault};
ghost use Rattle.smv_flat_laws.specs.FaultModes.{mode_of};
ghost use Rattle.fault_cause_laws.specs.StagedModel.{with_own as own_with, with_owns, own_events, own_at_first as own_first};
ghost use Rattle.fault_cause_laws.specs.StagedModel.{own_at_step as own_step, stands_of, joined as windows_of, windows_on as windows_on_of};
ghost use Rattle.fault_cause_laws.specs.StagedModel.{only as only_tree};
ghost use Rattle.fault_staging.specs.CauseOf.{cause_of, either_tree};

use crate::build::{
    binary, choice, falsehood, next, only, opposite, state, symbol, two_symbols, within,
    within_next,
};
use crate::cause::Cause;
use crate::names::numbered;
use crate::staging::{in_window, stands};
use base_values::{FaultSet, OutOfMemory};
use smv_language::model::{Fault, FaultList, Flat, FlatModel, Formula};
use smv_language::{Expr, Op};
use smv_scope::items::number_of;
use std::alloc::Global;

/// Adds the event of each fault, under the causes with the numbers of their ages.
pub(crate) fn add_own_events(
    alloc: Global,
    made: &mut FlatModel,
    events: &mut FaultList,
    faults: &[Fault],
    causes: &[Cause],
    ages: &[u32],
) -> Result<(), OutOfMemory>
    requires ages { length ages.now ≡ length causes.now }
    ensures model { OnOk result (model_tree made.new
        ≡ with_owns (map mode_of faults.now) (map cause_of causes.now) ages.now 1 (map mode_of faults.now) (model_tree made.old)) }
    ensures events { OnOk result (map mode_of events.new
        ≡ map mode_of events.old
        ++ own_events (length (model_tree made.old).variables) (length (model_tree made.old).symbols) (map mode_of faults.now)) }
    ensures names { OnOk result (map name_of_fault events.new ≡ map name_of_fault events.old ++ map name_of_fault faults.now) }
{
    for (i, fault) in faults.iter().enumerate() {
        let number = number_of(i + 1)?;
        let event = add_own_event(alloc, made, faults, causes, ages, number)?;
        events.push(Fault {
            name: fault.name.copy()?,
            variable: event.own,
            symbol: event.itself,
        })?;
    }
    Ok(())
}

/// Adds the event of the fault of a number.
fn add_own_event(
    alloc: Global,
    made: &mut FlatModel,
    faults: &[Fault],
    causes: &[Cause],
    ages: &[u32],
    number: u32,
) -> Result<MarkedFault, OutOfMemory>
    requires number { (0 < number) × (number ≤ length faults.now) }
    requires ages { length ages.now ≡ length causes.now }
    ensures model { OnOk result (model_tree made.new
        ≡ own_with (map mode_of faults.now) (map cause_of causes.now) ages.now number (model_tree made.old)) }
    ensures own { IfOk result (λ event. event.own ≡ length (model_tree made.old).variables) }
    ensures itself { IfOk result (λ event. event.itself ≡ suc (length (model_tree made.old).symbols)) }
{
    let own = number_of(made.variables.len())?;
    let none = number_of(made.symbols.len())?;
    let itself = number_of(made.symbols.len() + 1)?;
    let place = number as usize;
    let declared = two_symbols(
        alloc,
        numbered(alloc, b"none#", b"", place)?,
        numbered(alloc, b"self#", b"", place)?,
    )?;
    let variable = state(alloc, numbered(alloc, b"own#", b"", place)?, declared)?;
    made.variables.push(variable)?;
    made.symbols.push(numbered(alloc, b"none#", b"", place)?)?;
    made.symbols.push(numbered(alloc, b"self#", b"", place)?)?;
    let mark = MarkedFault { own, none, itself };
    made.init
        .push(own_at_first(alloc, faults, causes, ages, number, mark)?)?;
    made.trans
        .push(own_at_step(alloc, faults, causes, ages, number, mark)?)?;
    Ok(mark)
}

/// A fault's event: the number of its variable, and those of the symbols that say that the fault does not begin by itself
/// and that it does.
#[derive(Clone, Copy)]
struct MarkedFault {
    own: u32,
    none: u32,
    itself: u32,
}

/// That a fault's event is told at first where the fault stands under no window.
fn own_at_first(
    alloc: Global,
    faults: &[Fault],
    causes: &[Cause],
    ages: &[u32],
    number: u32,
    mark: MarkedFault,
) -> Result<Formula, OutOfMemory>
    requires number { (0 < number) × (number ≤ length faults.now) }
    requires ages { length ages.now ≡ length causes.now }
    requires symbols { mark.itself ≡ suc mark.none }
    ensures { IfOk result (λ f. formula_tree f ≡ own_first (stands_of (map mode_of faults.now) number)
        (windows_of (windows_on_of number (map cause_of causes.now) ages.now)) mark.own mark.none) }
{
    let begins = stands(alloc, faults, number)?;
    let free = opposite(alloc, windows_on(alloc, causes, ages, number)?)?;
    let begins_freely = binary(alloc, Op::And, begins, free)?;
    within(alloc, mark.own, told(alloc, begins_freely, mark)?)
}

/// That a fault's event is next told where the fault then begins to stand under no window.
fn own_at_step(
    alloc: Global,
    faults: &[Fault],
    causes: &[Cause],
    ages: &[u32],
    number: u32,
    mark: MarkedFault,
) -> Result<Formula, OutOfMemory>
    requires number { (0 < number) × (number ≤ length faults.now) }
    requires ages { length ages.now ≡ length causes.now }
    requires symbols { mark.itself ≡ suc mark.none }
    ensures { IfOk result (λ f. formula_tree f ≡ own_step (stands_of (map mode_of faults.now) number)
        (windows_of (windows_on_of number (map cause_of causes.now) ages.now)) mark.own mark.none) }
{
    let then = next(alloc, stands(alloc, faults, number)?)?;
    let before = opposite(alloc, stands(alloc, faults, number)?)?;
    let begins = binary(alloc, Op::And, then, before)?;
    let windows = next(alloc, windows_on(alloc, causes, ages, number)?)?;
    let begins_freely = binary(alloc, Op::And, begins, opposite(alloc, windows)?)?;
    within_next(alloc, mark.own, told(alloc, begins_freely, mark)?)
}

/// The symbol that tells the event where a condition is TRUE, and the other one elsewhere.
fn told(alloc: Global, condition: Expr<Flat>, mark: MarkedFault) -> Result<Expr<Flat>, OutOfMemory>
    ensures { IfOk result (λ e. flat_tree e ≡ choice_tree (flat_tree condition)
        (only_tree (leaf (flat_symbol mark.itself))) (only_tree (leaf (flat_symbol mark.none)))) }
{
    let begins = only(alloc, symbol(mark.itself))?;
    let rests = only(alloc, symbol(mark.none))?;
    choice(alloc, condition, begins, rests)
}

/// That some cause that strikes a fault has its window now.
fn windows_on(
    alloc: Global,
    causes: &[Cause],
    ages: &[u32],
    fault: u32,
) -> Result<Expr<Flat>, OutOfMemory>
    requires { length ages.now ≡ length causes.now }
    ensures { IfOk result (λ e. flat_tree e ≡ windows_of (windows_on_of fault (map cause_of causes.now) ages.now)) }
{
    let mut windows = None;
    for (k, cause) in causes.iter().enumerate() {
        if has_number(&cause.strikes, fault) {
            windows = Some(either(alloc, windows, in_window(alloc, cause, ages[k])?)?);
        }
    }
    match windows {
        Some(windows) => Ok(windows),
        None => Ok(falsehood()),
    }
}

/// An expression, or one before it.
fn either(
    alloc: Global,
    before: Option<Expr<Flat>>,
    e: Expr<Flat>,
) -> Result<Expr<Flat>, OutOfMemory>
    ensures { IfOk result (λ made. flat_tree made ≡ either_tree (option_map flat_tree before) (flat_tree e)) }
{
    match before {
        Some(before) => binary(alloc, Op::Or, before, e),
        None => Ok(e),
    }
}

/// Whether a list has a number.
fn has_number(numbers: &FaultSet, number: u32) -> bool
    ensures { result ≡ has_number_of numbers.now number }
{
    numbers.as_slice().iter().any(|n| *n == number)
}
