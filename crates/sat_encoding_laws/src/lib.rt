//! What a model's clause lists are, and what they mean.
//!
//! What clause lists say of a flat model is one record, on which all layers above rest. `specs/Encodings.antt` has it, the interface
//! between an encoding and what searches or checks over it: the first states, the steps and the bad states of a system of clause
//! lists are those of the model's valuations. `FlatTraces` says when a flat trace reaches a top event and which faults it has
//! failed. `EncodedLaws` has the theorem of invariants, for any lists with that record.
//!
//! ```text
//! // clauses that hold first, are kept by every step and hold in no bad state: no reaching trace, of whatever length,
//! // has failed at most n faults and all faults of no listed set
//! ```
//!
//! The other definitions of `specs/` give the exact clauses, gate by gate. `Widths` has how many bits words have;
//! `Signals` what an expression becomes (a literal, or a word of literals) and the gates of each operator;
//! `Expressions` an expression over any names, operands first, with membership as on the right of `in`;
//! `Layout` which variables are the bits of the model's; `Inputs` what reads an input; `Lists` the copies of
//! a model and its lists of first states, states, steps and bad states; `Bits` the bits of values. `Meanings`
//! says what a signal says of a value, and `Encodable` which models are meant. `Laws` has the theorems as statements, that the
//! exact lists have that record among them, which the contracts below carry.
//!
//! ```text
//! // VAR x : boolean; INIT x in FALSE: bit x is variable 2 now and 3 next, and gates begin at 4
//! // first: [1] [-4 2 -1] [-4 -2 1] [4 -2 -1] [4 2 1] [-4]
//! ```
#![tactic(auto)]

ghost use Rattle.sat_encoding_laws.specs.Laws.{ExpressionsAreEncoded, WordsHoldKinds, ModelsAreEncoded, BadStatesAreEncoded, BitsGoByRole};
ghost use Rattle.sat_encoding_laws.specs.Laws.{FlatModelsAreEncodable};
ghost use Rattle.sat_encoding_laws.specs.Variables.{ListsUseStates, ListsAreSmall};
ghost use Rattle.sat_encoding_laws.specs.HistoryBits.{HistoryBitsAreLast, HistoryKeepsTyped, HistoryKeepsEncodable};
ghost use Rattle.sat_encoding_laws.specs.EncodedLaws.{InvariantsCover};

/// An expression that breaks no rule becomes gates whose signal has its value, or says whether it has the
/// value of another signal among its own, in each assignment that makes the clauses true and in which its
/// names have their values; every assignment of the variables so far extends to the gates. The word of a
/// kind holds the kind's numbers.
pub fn expressions_are_encoded()
    ensures values { ExpressionsAreEncoded }
    ensures widths { WordsHoldKinds }
{}

/// The lists of an encodable model can be made true with the bits of valuations exactly where these are its
/// first moments and its steps, and the list of bad states exactly with those of its bad moments. Two
/// valuations of the domains have different bits, and first moments and states do not depend on inputs.
pub fn models_are_encoded()
    ensures system { ModelsAreEncoded }
    ensures bad { BadStatesAreEncoded }
{}

/// The bits of a state are those of state and frozen variables alone, and those of the inputs of input
/// variables alone: so a valuation with the inputs of another keeps its state.
pub fn bits_go_by_role()
    ensures { BitsGoByRole }
{}

/// The lists of first states, of states and of bad states use the constant, bits of the state now and gates,
/// and no bit of a next state or of an input. All lists take few variables: with inputs of at most 2^30 bits
/// and a top event within its limits, all are below 2^31, and the circuits end with room for any one operation.
pub fn lists_use_states()
    ensures states { ListsUseStates }
    ensures small { ListsAreSmall }
{}

/// The typed flat model of an accepted program is encodable: the rules of flattening keep inputs from what
/// holds at a first moment, at each moment, and under `next`.
pub fn flat_models_are_encodable()
    ensures { FlatModelsAreEncodable }
{}

/// The bits of a model's history are booleans of the state, and the last of its bits; and the model with
/// history is typed and encodable where the model is, if history makes it not too large.
pub fn history_bits_are_last()
    ensures last { HistoryBitsAreLast }
    ensures typed { HistoryKeepsTyped }
    ensures encodable { HistoryKeepsEncodable }
{}

/// An invariant over the clause lists of a model with history, which excludes the bad states of listed sets, shows that
/// each reaching trace that has failed at most so many faults has failed all faults of some listed set.
pub fn invariants_cover()
    ensures { InvariantsCover }
{}
