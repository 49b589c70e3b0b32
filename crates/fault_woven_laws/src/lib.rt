//! What weaving keeps of the rules of names and of kinds, and of a top event. Laws, with no code.
//!
//! First of names: the program breaks no rule of flattening, no item of the instructions breaks a rule, and no guard and nothing
//! that is followed breaks a rule of names at any instance (`IsExtendable` in `specs/WovenNamesLaws.antt`). Then the woven
//! program has the same instances, and at every place where a rule may be broken it breaks none but that of too
//! many instances or variables, since the weave adds variables. So whoever reads a woven program back has its
//! limits and its kinds alone to judge.
//!
//! ```text
//! // VAR on : boolean;                   a program with `MOST_VARIABLES` breaks no rule;
//! // SLICE Lamp AFFECTS on WITH ..       the woven one has two more and breaks the last rule, at an added item
//! ```
//!
//! Their proofs follow the order of the rules. `WovenNamesItems` has the items of a woven module: those of the module, with
//! affected variables renamed, and then the added ones. `Looking` has look-ups, which take the steps that they
//! took and find what they found, but for added variables and symbols. `Walks` has the walk over instances,
//! `Headers` the rules of modules and of declared names, `OldItems` and `NewItems` the rules on names at the
//! items of an instance, `Once` double assignments, and `Woven` puts them together.
//!
//! Then of kinds: where a program and its instructions break no rule, the flat model of the woven program breaks none but, it may be,
//! the one of its size. `specs/Laws.antt` states this over a program with its flat model and instructions (`AreWoven`), and
//! `specs/Modes.antt` says which modes a model may be given the history of. Of the proofs, `Rightly`, `Numbers`, `Domains`, `Effects`
//! and `Moves` judge what a slice adds, over any kinds of its names: the constants and domains of types, the branches and
//! rule sections of effects, and the cases of the next mode and of what is read. `Definitions` and
//! `Renamed` show that the names and definitions of the program are judged in both flat models alike, also
//! where an occurrence is renamed to that of the own value. `Items`, `Kept`, `Sites`, `Uses` and `Added` go
//! over the items of all instances, first those of the program and then those that are added; `WovenModel`
//! puts them together, and `History` adds the bits of a history.
//!
//! Last of a top event, an expression at `main`. It is read over the program, for what it is refused for, and again over
//! the woven program, whose flat model an analysis works on. `specs/Tops.antt` has an expression that is read over both
//! (`IsReadAs`), and `specs/WovenTopsLaws.antt` what then holds. One that keeps every rule over the program is refused for no rule of
//! names, of kinds or of size the second time; it may have the values that it may have at the read values of a moment; and it is a
//! top event of the extension's model, whose clauses can be written. The layer above reads it twice and cites these laws.
//!
//! ```text
//! // VAR x : 0..7; SLICE S AFFECTS x WITH MODE dead : Permanent StuckAt(0); and the top event x = 0
//! // over the woven program x is the read value; the own value, x#nominal, is no name of a top event
//! ```
#![tactic(auto)]

ghost use Rattle.fault_woven_laws.specs.Laws.{WovenBreaksNone, ModesHaveSymbols, SliceModesAreModes, HistoryBreaksNone};
ghost use Rattle.fault_woven_laws.specs.Laws.{WovenBreaksSizeAlone};
ghost use Rattle.fault_woven_laws.specs.WovenNamesLaws.{WovenKeepsNames, WovenBreaksLimitsAlone, WovenIsAccepted, WovenActualsMean};
ghost use Rattle.fault_woven_laws.specs.WovenNamesLaws.{WovenInstancesAreSame};
ghost use Rattle.fault_woven_laws.specs.WovenTopsLaws.{WovenKeepsValues, WovenResolves, WovenJudgesAlike, HistoryJudgesAlike};
ghost use Rattle.fault_woven_laws.specs.WovenTopsLaws.{WovenRefusesNone, ResolvedIsReadable, WovenMeansTheSame, TopsAreOfExtensions};
ghost use Rattle.fault_woven_laws.specs.WovenTopsLaws.{TopsFitModels};

/// Where a program's flat model breaks no rule of kinds at an item, and no item or expression of the
/// instructions breaks a rule, the woven program's flat model breaks none at an item.
pub fn woven_breaks_none()
    ensures { WovenBreaksNone }
{}

/// The variables that hold the states of slices have symbols alone in that model, so that the history of its
/// modes can be told; and a model that breaks no rule at an item breaks none with the history of modes whose
/// variables have symbols.
pub fn history_breaks_none()
    ensures symbols { ModesHaveSymbols }
    ensures modes { SliceModesAreModes }
    ensures history { HistoryBreaksNone }
{}

/// So the one rule of kinds for which a woven program's flat model is refused, with the history of its modes
/// or without, is that of its size, which has item 0.
pub fn woven_breaks_size_alone()
    ensures { WovenBreaksSizeAlone }
{}

/// At every place a woven program breaks no rule but that of too many instances or variables: where it breaks
/// one first, it is that one, and where it breaks that one nowhere, it is accepted.
pub fn woven_breaks_limits_alone()
    ensures names { WovenKeepsNames }
    ensures first { WovenBreaksLimitsAlone }
    ensures accepted { WovenIsAccepted }
{}

/// A woven program has the instances of the program, and its actuals mean something where those of the
/// program do.
pub fn woven_instances_are_same()
    ensures instances { WovenInstancesAreSame }
    ensures actuals { WovenActualsMean }
{}

/// An expression that breaks no rule of names over a program breaks none over what is woven of it, and one that is
/// resolved in the program's flat model is resolved in the woven one's. There it has the kind that it had, breaks the
/// rules that it broke, and costs as much, with history too: so a condition that is not refused over the program is
/// not refused over the extension.
pub fn tops_are_kept()
    ensures names { WovenKeepsValues }
    ensures resolved { WovenResolves }
    ensures kinds { WovenJudgesAlike }
    ensures history { HistoryJudgesAlike }
    ensures refused { WovenRefusesNone }
{}

/// At valuations of the woven program it may have exactly the values that it may have at the read values of the
/// moments that they are cut to. So it is a top event of the extension's flat model, with whatever faults.
pub fn tops_mean_the_same()
    ensures readable { ResolvedIsReadable }
    ensures values { WovenMeansTheSame }
    ensures extension { TopsAreOfExtensions }
{}

/// A top event that keeps every rule over the program is one of the extension's model, with history and without: it
/// is TRUE or FALSE, no set, names what the model has, reads no input and nothing of the next moment, and costs at
/// most `MOST_TOP_COST`.
pub fn tops_fit()
    ensures { TopsFitModels }
{}
