//! What flattening means: the flat model of a program, the rules of programs, and the laws that join them.
//!
//! A flat model is variables, symbols, definitions and formulas by number (`specs/Flat.antt` of `smv_language`). `Resolved`
//! says when a flat expression is a written one with its names looked up; `Items` has the items of a
//! program and the walk over its instances; `Looks` has a look-up step by step, and when one comes back
//! to a formal. `Rules` has the fourteen rules, their sites in the order in which they are tried, and the
//! first broken one. `Model` says which flat model is a program's. `History` adds a bit for each fault to a
//! model, `FaultModes` has the mode of a fault of the code, and
//! `FlatTrace` says what the bits tell of its traces. `Alike` has instances of one module that break the same rules,
//! and the instances that repeat others. `RootPlaces` finds the definition of a number by its instance and its item.
//! `Laws` has the theorems as statements, which the contracts below carry; the layer above builds models and cites them.
//!
//! ```text
//! // MODULE main VAR a : M; .. MODULE M VAR x : boolean;
//! // instances: main at [], M at [a]; variables: x at [a], which is number 0
//! ```
#![tactic(auto)]

ghost use Rattle.smv_flat_laws.specs.Alike.{AlikeBreakAlike, LikeIsKept, SameModuleIsLike, InsideIsLike, RepeatsAgain};
ghost use Rattle.smv_flat_laws.specs.FlatTrace.{HistoryIsExact};
ghost use Rattle.smv_flat_laws.specs.Laws.{FlatteningIsExact, VariablesAreThose, ListsAreValuations, OneFault, AcceptedHasNoFault};
ghost use Rattle.smv_flat_laws.specs.Laws.{OneModel, AcceptedHasModel};
ghost use Rattle.smv_flat_laws.specs.RootPlaces.{RootsByItems};

/// The flat model of an accepted program holds exactly what the program's conditions hold, its variables
/// are those of the program's instances, and each list of as many values is a valuation's.
pub fn flattening_is_exact()
    ensures formulas { FlatteningIsExact }
    ensures variables { VariablesAreThose }
    ensures valuations { ListsAreValuations }
{}

/// A program that keeps the rules of modules and of the walk has at most one flat model without a definition
/// that stands twice.
pub fn one_model()
    ensures { OneModel }
{}

/// The definitions of a program are listed by instances and then items: the one of a number is found by how many those
/// before it make.
pub fn roots_by_items()
    ensures { RootsByItems }
{}

/// An accepted program has a flat model.
pub fn accepted_has_model()
    ensures { AcceptedHasModel }
{}

/// A program has at most one first broken rule, with one item, and none where it is accepted.
pub fn one_fault()
    ensures one { OneFault }
    ensures none { AcceptedHasNoFault }
{}

/// Two instances of a module without formals break the same rules, and so do the instances that lie inside them at
/// one place each: where the one has been judged, the other need not be.
pub fn alike_break_alike()
    ensures { AlikeBreakAlike }
{}

/// An instance that repeats an earlier one keeps the rules of names where that one does. An instance of a module without
/// formals repeats each earlier one of its module, and what lies in one that repeats another repeats what lies there.
pub fn repeated_are_kept()
    ensures kept { LikeIsKept }
    ensures same { SameModuleIsLike }
    ensures inside { InsideIsLike }
    ensures again { RepeatsAgain }
{}

/// The traces of a model with history bits are those of the model, each with one value of every bit: TRUE
/// at a moment exactly where the fault's mode stands there or stood before.
pub fn history_is_exact()
    ensures { HistoryIsExact }
{}
