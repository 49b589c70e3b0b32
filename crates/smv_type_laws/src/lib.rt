//! What kinds mean: the class and the interval of each expression of a flat model, and the rules that a
//! model may break.
//!
//! A kind is a class (truth values, numbers, symbols) and, for numbers, the interval in which they lie.
//! `specs/Intervals.antt` has intervals and what operations make of them, and `specs/ExpressionKinds.antt` the
//! table: over leaves of given kinds, `judge` gives a tree's kind, whether it is a set, and the rules
//! that it and its parts break; a tree that breaks a rule has a class and no interval. `Declared` judges
//! declared types, `Costs` has costs and state bits, and `Models` puts them together: definitions are
//! judged in order, all breaches of a model, the first by instance, item and number, and the size last.
//! `Safe` says when a value is of a kind, and when an expression divides by no 0 and has small numbers
//! alone. `Least` has the least values of declared types: the last moment of a path gives no inputs, and a
//! trace needs some, so each input variable gets the least value of its type. `Alike` has instances at which
//! an expression is judged alike, and `Counted` what a program's flat model costs at least, counted without making it,
//! which `CountedItems` counts by the items of its instances' modules.
//! `Laws` has the theorems as statements, which the contracts below carry; the layer above judges
//! models and expressions and cites them. The classes are the NuSMV 2.6 manual's; intervals are this
//! project's own. `proofs/Examples.antt` computes examples of each row.
//!
//! ```text
//! // VAR x : 0..7; y : 1..3; the quotient x / y has the kind of numbers from 0 to 7
//! // VAR z : 0..3; x / z breaks MayDivideByZero, the fourth rule
//! ```
#![tactic(auto)]

ghost use Rattle.smv_type_laws.specs.Alike.{AlikeJudgeAlike};
ghost use Rattle.smv_type_laws.specs.Counted.{CostsAsCounted};
ghost use Rattle.smv_type_laws.specs.CountedItems.{VariablesByItems, DefinitionsByItems, ConditionsByItems};
ghost use Rattle.smv_type_laws.specs.CountedItems.{CountedByItems, CountedIsTooLarge};
ghost use Rattle.smv_type_laws.specs.Laws.{ValuesLieInKinds, ConditionsAreDecided, DefinitionsAreDefined, FlatModelsAreClosed};
ghost use Rattle.smv_type_laws.specs.Laws.{ResolvedMayHaveTheSame, WrittenValuesLieInKinds, WrittenConditionsAreDecided, OneFault};
ghost use Rattle.smv_type_laws.specs.Laws.{TypedHasNoFault, FirstFaultIsFound, SetsChangeNothing, WidthsAreLeast, DomainsAreThose};
ghost use Rattle.smv_type_laws.specs.Laws.{TracesAreThose};
ghost use Rattle.smv_type_laws.specs.LeastValues.{LeastValuesLie, MixedValuesLie, LeastInputsServe};

/// In a typed model, at values of the variables' domains, each expression that breaks no rule has values,
/// all of its kind, and exactly one where it is no set; each condition is TRUE or FALSE and each
/// definition has one value; nothing is divided by 0, and no number is beyond 32 bits.
pub fn values_lie_in_kinds()
    ensures expressions { ValuesLieInKinds }
    ensures conditions { ConditionsAreDecided }
    ensures definitions { DefinitionsAreDefined }
{}

/// The same of a lawful program's written expressions, which are judged in their flat form, whatever
/// resolves them soundly: the flat form may have exactly the values of the written one; at values of its
/// domains these are of its kind, what is no set has exactly one value, and a condition, as a guard, one
/// truth value. A program's flat model names its own variables, symbols and definitions.
pub fn written_values_lie_in_kinds()
    ensures values { ResolvedMayHaveTheSame }
    ensures expressions { WrittenValuesLieInKinds }
    ensures conditions { WrittenConditionsAreDecided }
    ensures closed { FlatModelsAreClosed }
{}

/// A valuation lies in a lawful program's domains exactly where its values by number lie in those of the
/// flat variables, and a list of valuations is a trace of the program exactly where the lists of values by
/// number are one of its flat model; each flat trace is that of a list of valuations.
pub fn traces_are_flat_traces()
    ensures domains { DomainsAreThose }
    ensures traces { TracesAreThose }
{}

/// At two instances of a module without formals, and at those that lie inside them at one place each, a written
/// expression is judged alike in its flat forms: it has one kind and breaks the same rules.
pub fn alike_judge_alike()
    ensures { AlikeJudgeAlike }
{}

/// A flat model costs no less than what is counted over its program, for which no formula is made: a program that is
/// counted beyond the limit has no model within it.
pub fn costs_as_counted()
    ensures { CostsAsCounted }
{}

/// What is counted over a program is a sum over its instances of a sum over the items of their modules, which asks nothing
/// of an instance but its module: so are what its variables, its definitions and its conditions cost. A program of which
/// more is counted than the limit has no model that keeps it.
pub fn counted_by_items()
    ensures variables { VariablesByItems }
    ensures definitions { DefinitionsByItems }
    ensures conditions { ConditionsByItems }
    ensures counted { CountedByItems }
    ensures large { CountedIsTooLarge }
{}

/// An expression that breaks no rule where no set may stand is judged the same where sets may.
pub fn sets_change_nothing()
    ensures { SetsChangeNothing }
{}

/// A model has at most one first broken rule, with one item, and none where it is typed; the first that is
/// found breach by breach is the one, and a model in which none is found is typed.
pub fn one_fault()
    ensures one { OneFault }
    ensures none { TypedHasNoFault }
    ensures found { FirstFaultIsFound }
{}

/// The width of an interval within 32 bits is the least number of bits that hold its numbers: without a
/// sign where none is below 0, and else in two's complement.
pub fn widths_are_least()
    ensures { WidthsAreLeast }
{}

/// The least values lie in their types; a valuation with the inputs of another lies in its types; and where the bits of
/// a state are those of its state and frozen variables, a valuation with the least inputs has the same state.
pub fn least_inputs_serve()
    ensures least { LeastValuesLie }
    ensures mixed { MixedValuesLie }
    ensures serve { LeastInputsServe }
{}
