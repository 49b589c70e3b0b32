//! The model with causes: each cause's variables, one after another.
//!
//! The main function is [`with_causes`]. A cause adds its age, its event, and a hit for each fault that it strikes; after all causes
//! come the events of the faults, from `events`.
ghost use Rattle.std.specs.Prelude.{◌≡◌, ◌<◌, ◌≤◌, ◌++◌, suc, length, map, IfOk, OnOk};
ghost use Rattle.smv_language.specs.Trace.{Each};
ghost use Rattle.smv_language.specs.ModelTree.{model_tree, formula_tree, flat_tree, name_of_fault};
ghost use Rattle.smv_flat_laws.specs.FaultModes.{mode_of};
ghost use Rattle.fault_cause_laws.specs.Causes.{IsCauseOf};
ghost use Rattle.fault_cause_laws.specs.StagedModel.{with_age as age_of, with_event as event_of, with_hit as hit_of, with_hits};
ghost use Rattle.fault_cause_laws.specs.StagedModel.{with_cause as cause_with, with_each_cause, age_numbers, cause_events};
ghost use Rattle.fault_cause_laws.specs.StagedModel.{with_causes as causes_with, stands_of, in_window as window_of};
ghost use Rattle.fault_cause_laws.specs.StagedModel.{age_at_step as age_step, event_at_each as event_each, hit_at_first as hit_first};
ghost use Rattle.fault_cause_laws.specs.StagedModel.{hit_at_step as hit_step, landed_at_each as landed_each, events_of};
ghost use Rattle.fault_staging.specs.CauseOf.{cause_of, told_cause, event_mode};

use crate::build::{
    added, binary, choice, next, only, state, symbol, two_symbols, value, whole, within,
    within_next, zero_or_one,
};
use crate::cause::{Cause, CauseList};
use crate::events::add_own_events;
use crate::names::{joined, numbered};
use base_values::{Dotted, OutOfMemory};
use smv_language::copy_model::copy_faults;
use smv_language::model::{Fault, FaultList, Flat, FlatModel, Formula};
use smv_language::{Declared, Expr, Op};
use smv_scope::items::number_of;
use std::alloc::Global;

/// A model with causes, and its events: each fault's own event, and then each cause's.
#[derive(Drop)]
pub struct Staged {
    pub model: FlatModel,
    pub events: FaultList,
}

impl Staged {
    /// A copy of its own, which is the same model with the same events.
    pub fn copy(&self) -> Result<Staged, OutOfMemory>
        ensures model { IfOk result (λ made. model_tree made.model ≡ model_tree self.now.model) }
        ensures events { IfOk result (λ made. made.events ≡ self.now.events) }
    {
        let model = self.model.copy()?;
        let events = copy_faults(self.events.allocator(), self.events.as_slice())?;
        Ok(Staged { model, events })
    }
}

/// The model with causes that strike these faults. The events have the faults' names and the causes'.
pub fn with_causes(
    alloc: Global,
    m: &FlatModel,
    faults: &FaultList,
    causes: &CauseList,
) -> Result<Staged, OutOfMemory>
    requires causes { Each (IsCauseOf (length faults.now)) (map cause_of causes.now) }
    ensures model { IfOk result (λ s. model_tree s.model
        ≡ causes_with (model_tree m.now) (map mode_of faults.now) (map cause_of causes.now)) }
    ensures events { IfOk result (λ s. map mode_of s.events
        ≡ events_of (model_tree m.now) (map mode_of faults.now) (map cause_of causes.now)) }
    ensures names { IfOk result (λ s. map name_of_fault s.events ≡ map name_of_fault faults.now ++ map told_cause causes.now) }
{
    let mut model = m.copy()?;
    let mut ages = Vec::new(alloc);
    let mut happenings = FaultList::new(alloc);
    add_causes(
        alloc,
        &mut model,
        &mut ages,
        &mut happenings,
        faults.as_slice(),
        causes.as_slice(),
    )?;
    let mut events = FaultList::new(alloc);
    add_own_events(
        alloc,
        &mut model,
        &mut events,
        faults.as_slice(),
        causes.as_slice(),
        &ages,
    )?;
    append_copies(&mut events, happenings.as_slice())?;
    Ok(Staged { model, events })
}

/// Appends copies of events.
fn append_copies(events: &mut FaultList, more: &[Fault]) -> Result<(), OutOfMemory>
    ensures { OnOk result (events.new ≡ events.old ++ more.now) }
{
    for event in more {
        events.push(event.copy()?)?;
    }
    Ok(())
}

/// Adds causes, one after another, and tells the numbers of their ages and their events.
fn add_causes(
    alloc: Global,
    made: &mut FlatModel,
    ages: &mut Vec<u32>,
    events: &mut FaultList,
    faults: &[Fault],
    causes: &[Cause],
) -> Result<(), OutOfMemory>
    requires { Each (IsCauseOf (length faults.now)) (map cause_of causes.now) }
    ensures model { OnOk result (model_tree made.new
        ≡ with_each_cause (map mode_of faults.now) (model_tree made.old) (map cause_of causes.now)) }
    ensures ages { OnOk result (ages.new.items
        ≡ ages.old.items ++ age_numbers (length (model_tree made.old).variables) (map cause_of causes.now)) }
    ensures events { OnOk result (map mode_of events.new
        ≡ map mode_of events.old
        ++ cause_events (length (model_tree made.old).variables) (length (model_tree made.old).symbols) (map cause_of causes.now)) }
    ensures names { OnOk result (map name_of_fault events.new ≡ map name_of_fault events.old ++ map told_cause causes.now) }
{
    for cause in causes {
        ages.push(number_of(made.variables.len())?)?;
        events.push(add_cause(alloc, made, faults, cause)?)?;
    }
    Ok(())
}

/// Adds a cause's age, event and hits, and gives its event.
fn add_cause(
    alloc: Global,
    made: &mut FlatModel,
    faults: &[Fault],
    cause: &Cause,
) -> Result<Fault, OutOfMemory>
    requires { IsCauseOf (length faults.now) (cause_of cause.now) }
    ensures model { OnOk result (model_tree made.new ≡ cause_with (map mode_of faults.now) (model_tree made.old) (cause_of cause.now)) }
    ensures event { IfOk result (λ f. mode_of f ≡ event_mode (model_tree made.old)) }
    ensures name { IfOk result (λ f. name_of_fault f ≡ told_cause cause.now) }
{
    let age = number_of(made.variables.len())?;
    add_age(alloc, made, cause, age)?;
    let event = add_event(alloc, made, cause, age)?;
    add_hits(alloc, made, faults, cause, age, cause.strikes.as_slice())?;
    Ok(event)
}

/// Adds the hits of faults, which are the cause's strikes.
fn add_hits(
    alloc: Global,
    made: &mut FlatModel,
    faults: &[Fault],
    cause: &Cause,
    age: u32,
    strikes: &[u32],
) -> Result<(), OutOfMemory>
    requires { Each (λ i. (0 < i) × (i ≤ length faults.now)) strikes.now }
    ensures { OnOk result (model_tree made.new
        ≡ with_hits (map mode_of faults.now) (cause_of cause.now) age 1 strikes.now (model_tree made.old)) }
{
    for (k, strike) in strikes.iter().enumerate() {
        let strike = Strike {
            number: k + 1,
            fault: *strike,
        };
        add_hit(alloc, made, faults, cause, age, strike)?;
    }
    Ok(())
}

/// Adds a cause's age.
fn add_age(alloc: Global, made: &mut FlatModel, cause: &Cause, age: u32) -> Result<(), OutOfMemory>
    requires { age ≡ length (model_tree made.old).variables }
    ensures { OnOk result (model_tree made.new ≡ age_of (model_tree made.old) (cause_of cause.now)) }
{
    let name = joined(alloc, cause.name.text(), b"#age")?;
    let last = (u64::from(cause.to) + 2) as i64;
    let variable = state(alloc, name, Declared::Range(0, last))?;
    made.variables.push(variable)?;
    made.init.push(within(alloc, age, zero_or_one(alloc)?)?)?;
    made.trans.push(age_at_step(alloc, cause, age)?)
}

/// How an age goes on.
fn age_at_step(alloc: Global, cause: &Cause, age: u32) -> Result<Formula, OutOfMemory>
    ensures { IfOk result (λ f. formula_tree f ≡ age_step (cause_of cause.now) age) }
{
    let last = u64::from(cause.to) + 2;
    let waits = binary(alloc, Op::Equal, value(age), whole(0))?;
    let is_last = binary(alloc, Op::Equal, value(age), whole(last))?;
    let more = binary(alloc, Op::Plus, value(age), whole(1))?;
    let goes_on = only(alloc, choice(alloc, is_last, whole(last), more)?)?;
    let next_age = choice(alloc, waits, zero_or_one(alloc)?, goes_on)?;
    within_next(alloc, age, next_age)
}

/// Adds a cause's event, which is told with its name.
fn add_event(
    alloc: Global,
    made: &mut FlatModel,
    cause: &Cause,
    age: u32,
) -> Result<Fault, OutOfMemory>
    ensures model { OnOk result (model_tree made.new ≡ event_of (model_tree made.old) (cause_of cause.now) age) }
    ensures event { IfOk result (λ f. mode_of f
        ≡ record { variable = length (model_tree made.old).variables; symbol = suc (length (model_tree made.old).symbols) }) }
    ensures name { IfOk result (λ f. name_of_fault f ≡ told_cause cause.now) }
{
    let event = number_of(made.variables.len())?;
    let quiet = number_of(made.symbols.len())?;
    let now = number_of(made.symbols.len() + 1)?;
    let text = cause.name.text();
    let declared = two_symbols(
        alloc,
        joined(alloc, text, b"#quiet")?,
        joined(alloc, text, b"#now")?,
    )?;
    let variable = state(alloc, joined(alloc, text, b"#event")?, declared)?;
    made.variables.push(variable)?;
    made.symbols.push(joined(alloc, text, b"#quiet")?)?;
    made.symbols.push(joined(alloc, text, b"#now")?)?;
    made.invar
        .push(event_at_each(alloc, event, age, quiet, now)?)?;
    let name = Dotted::new(alloc, cause.name.copy()?)?;
    Ok(Fault {
        name,
        variable: event,
        symbol: now,
    })
}

/// That an event is now where the age is 1, and quiet elsewhere.
fn event_at_each(
    alloc: Global,
    event: u32,
    age: u32,
    quiet: u32,
    now: u32,
) -> Result<Formula, OutOfMemory>
    requires { now ≡ suc quiet }
    ensures { IfOk result (λ f. formula_tree f ≡ event_each event age quiet) }
{
    let is_one = binary(alloc, Op::Equal, value(age), whole(1))?;
    let happens = only(alloc, symbol(now))?;
    let rests = only(alloc, symbol(quiet))?;
    within(alloc, event, choice(alloc, is_one, happens, rests)?)
}

/// A strike of a cause: its number among the cause's, from 1 on, and that of the fault that it strikes.
#[derive(Clone, Copy)]
struct Strike {
    number: usize,
    fault: u32,
}

/// Adds the hit of a strike of a cause.
fn add_hit(
    alloc: Global,
    made: &mut FlatModel,
    faults: &[Fault],
    cause: &Cause,
    age: u32,
    strike: Strike,
) -> Result<(), OutOfMemory>
    requires { (0 < strike.fault) × (strike.fault ≤ length faults.now) }
    ensures { OnOk result (model_tree made.new
        ≡ hit_of (map mode_of faults.now) (cause_of cause.now) age strike.number strike.fault (model_tree made.old)) }
{
    let hit = number_of(made.variables.len())?;
    let name = numbered(alloc, cause.name.text(), b"#hit#", strike.number)?;
    made.variables.push(state(alloc, name, Declared::Boolean)?)?;
    made.init.push(hit_at_first(alloc, faults, cause, hit, age, strike.fault)?)?;
    made.invar.push(landed_at_each(alloc, cause, hit, age)?)?;
    made.trans
        .push(hit_at_step(alloc, faults, cause, hit, age, strike.fault)?)
}

/// That a hit is TRUE at first where the fault stands in the window.
fn hit_at_first(
    alloc: Global,
    faults: &[Fault],
    cause: &Cause,
    hit: u32,
    age: u32,
    fault: u32,
) -> Result<Formula, OutOfMemory>
    requires { (0 < fault) × (fault ≤ length faults.now) }
    ensures { IfOk result (λ f. formula_tree f ≡ hit_first (map mode_of faults.now) (cause_of cause.now) hit age fault) }
{
    let window = in_window(alloc, cause, age)?;
    let stands = stands(alloc, faults, fault)?;
    within(alloc, hit, binary(alloc, Op::And, window, stands)?)
}

/// That a hit is TRUE at the window's end.
fn landed_at_each(alloc: Global, cause: &Cause, hit: u32, age: u32) -> Result<Formula, OutOfMemory>
    ensures { IfOk result (λ f. formula_tree f ≡ landed_each (cause_of cause.now) hit age) }
{
    let end = whole(u64::from(cause.to) + 1);
    let is_end = binary(alloc, Op::Equal, value(age), end)?;
    Ok(added(binary(alloc, Op::Implies, is_end, value(hit))?))
}

/// That a hit is next TRUE where the fault then stands in the window, or stood before in it.
fn hit_at_step(
    alloc: Global,
    faults: &[Fault],
    cause: &Cause,
    hit: u32,
    age: u32,
    fault: u32,
) -> Result<Formula, OutOfMemory>
    requires { (0 < fault) × (fault ≤ length faults.now) }
    ensures { IfOk result (λ f. formula_tree f ≡ hit_step (map mode_of faults.now) (cause_of cause.now) hit age fault) }
{
    let window = next(alloc, in_window(alloc, cause, age)?)?;
    let stands = next(alloc, stands(alloc, faults, fault)?)?;
    let struck = binary(alloc, Op::Or, stands, value(hit))?;
    within_next(alloc, hit, binary(alloc, Op::And, window, struck)?)
}

/// That an age lies in the cause's window.
pub(crate) fn in_window(alloc: Global, cause: &Cause, age: u32) -> Result<Expr<Flat>, OutOfMemory>
    ensures { IfOk result (λ e. flat_tree e ≡ window_of (cause_of cause.now) age) }
{
    let first = whole(u64::from(cause.from) + 1);
    let last = whole(u64::from(cause.to) + 1);
    let begun = binary(alloc, Op::AtLeast, value(age), first)?;
    let open = binary(alloc, Op::AtMost, value(age), last)?;
    binary(alloc, Op::And, begun, open)
}

/// That the mode of the fault of a number stands.
pub(crate) fn stands(
    alloc: Global,
    faults: &[Fault],
    number: u32,
) -> Result<Expr<Flat>, OutOfMemory>
    requires { (0 < number) × (number ≤ length faults.now) }
    ensures { IfOk result (λ e. flat_tree e ≡ stands_of (map mode_of faults.now) number) }
{
    let fault = &faults[number as usize - 1];
    binary(
        alloc,
        Op::Equal,
        value(fault.variable),
        symbol(fault.symbol),
    )
}
