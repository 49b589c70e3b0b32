//! Common causes: events that bring several faults about within a window of steps. Definitions and laws, with no code.
//!
//! `specs/CausedEvents.antt` says when a trace with moments of causes is a caused trace, and what its events are. `CausesText` and
//! `CauseRules` have the grammar and the rules of a causes file. `Staged` is the model whose traces are the caused traces,
//! and `Told` what its variables tell of one. `Laws` has the theorems, which the contracts below carry.
//!
//! ```text
//! // CAUSE Surge WITHIN 0..0 STRIKES A.on, B.on;
//! // Surge#age is 1 at the moment of the surge, and Surge#hit#1 and Surge#hit#2 must be TRUE there
//! ```
//!
//! The staged model is a flat model with further variables after its own. Such an addition is variables, symbols and formulas
//! (`specs/Additions.antt`). The traces of the model with it are the model's own, each with values of the added variables that meet
//! the added formulas (`AddedLaws`): so whoever adds variables speaks of the added formulas alone.
//!
//! By `KindLaws` the staged model breaks no rule of kinds at an item where the model breaks none. `AddedKinds` has this of any addition,
//! `RightTrees` of expressions by their parts, and `FormulaKinds` and `StagedKinds` of the formulas of causes and of all of them.
//!
//! A caused trace corresponds to what the staged model tells of it, so that sets of events that are right for all staged traces,
//! or for those of at most k steps, are right for caused traces, and so exactly their minimal cut sets (`CausesRightLaws`). A
//! caused trace of an extension is an extended trace with a moment or none for each cause (`specs/CausedTraces.antt`). By
//! `CausesExtendedLaws` an extension's model meets what the staged model asks of it, and sets of events that are right for flat
//! caused traces are right for caused traces.
//!
//! A fault's name is written by dots: the instances from `main` on, the slice, and the mode. The program breaks no rule of
//! flattening, and no item of the instructions breaks a rule. Then the names in the list of faults are all different,
//! so that a file of causes or a report that gives a name means one fault, and the first fault of a name is the only
//! one. The laws are stated in `specs/FaultNamesLaws.antt`.
//!
//! Their proofs go from names to lists. `Differ` has lists in which nothing stands twice. `Declared` has the rule that a
//! module declares no name twice, and `Places` that so no instance is listed twice. `Slices` has the rules that no
//! two slices of a file have one name, and no two modes of a slice. `Names` puts them together: the last two parts of a
//! name are the slice and the mode, and those before them are the instance. `Causes` and `FaultNamesEvents` have what follows for
//! causes, and `Accepted` that the example breaks no rule.
//!
//! ```text
//! // MODULE Lamp VAR on : boolean; ..  MODULE main VAR a : Lamp; b : Lamp;
//! // EXTENSION OF MODULE Lamp SLICE Bulb AFFECTS on WITH MODE dark : Permanent StuckAt(FALSE);
//! // the faults are a.Bulb.dark and b.Bulb.dark
//! ```
#![tactic(auto)]

ghost use Rattle.fault_cause_laws.specs.Laws.{StagedTracesAreCaused, OneTraceEach, StagedEventsAreEvents, UncausedAreTraces};
ghost use Rattle.fault_cause_laws.specs.AddedLaws.{AdditionsAreExact};
ghost use Rattle.fault_cause_laws.specs.CausesRightLaws.{AllRightIsCaused, ShortRightIsCaused};
ghost use Rattle.fault_cause_laws.specs.CausesExtendedLaws.{ExtensionsAreStaged, UncausedAreExtended, AllRightIsCausedExtended};
ghost use Rattle.fault_cause_laws.specs.CausesExtendedLaws.{ShortRightIsCausedExtended};
ghost use Rattle.fault_cause_laws.specs.KindLaws.{StagedBreaksNone, StagedBreaksSizeAlone};
ghost use Rattle.fault_cause_laws.specs.FaultNamesLaws.{NamesDiffer, NamesTellFaults, NamesMeanOne, CausesReadAsOne, EventNamesDiffer};
ghost use Rattle.fault_cause_laws.specs.Lamps.{LampsHaveTwoNames};

/// The traces of the staged model are exactly the caused traces.
pub fn staged_traces_are_caused()
    ensures { StagedTracesAreCaused }
{}

/// Each caused trace is told by one staged trace alone.
pub fn one_trace_each()
    ensures { OneTraceEach }
{}

/// The events of a staged trace are those of its caused trace.
pub fn staged_events_are_events()
    ensures { StagedEventsAreEvents }
{}

/// Where no cause has a moment, the caused traces are the traces, and their events the faults that have failed: so it is with
/// the flat traces of a model, and with extended traces.
pub fn uncaused_are_traces()
    ensures flat { UncausedAreTraces }
    ensures extended { UncausedAreExtended }
{}

/// The traces of a model with an addition are its own traces with values of the added variables that meet what is asked
/// of them.
pub fn additions_are_exact()
    ensures { AdditionsAreExact }
{}

/// Sets that are right for staged traces are right for caused traces, with events in place of faults.
pub fn right_is_caused()
    ensures all { AllRightIsCaused }
    ensures short { ShortRightIsCaused }
{}

/// An extension's model, its modes and causes that strike its faults can be staged, and its top event is an expression of it.
pub fn extensions_are_staged()
    ensures { ExtensionsAreStaged }
{}

/// The model that is staged for causes, with the history of its events or without, breaks no rule of kinds at an item where the
/// model breaks none: the one rule for which it may be refused is that of its size, which has item 0.
pub fn staged_breaks_size_alone()
    ensures none { StagedBreaksNone }
    ensures size { StagedBreaksSizeAlone }
{}

/// Sets of events that are right for flat caused traces, for all or for those of at most k steps, are right for caused traces.
pub fn right_is_caused_extended()
    ensures all { AllRightIsCausedExtended }
    ensures short { ShortRightIsCausedExtended }
{}

/// No two faults of an extension have one name. A name's parts tell its fault, it is that of one number alone, and causes
/// that are written with names can be read in one way. With lawful causes no two events have one name. Two lamps of one
/// module have one fault each, as an example.
pub fn names_of_faults_differ()
    ensures names { NamesDiffer }
    ensures faults { NamesTellFaults }
    ensures numbers { NamesMeanOne }
    ensures causes { CausesReadAsOne }
    ensures events { EventNamesDiffer }
    ensures example { LampsHaveTwoNames }
{}
