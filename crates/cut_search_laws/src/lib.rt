//! What a search for cut sets means: the sets found so far, and the laws that make them an answer.
//!
//! A set of faults is a rising list of numbers (`cut_right_laws`). A search keeps a list of sets, each with a trace
//! that shows it (`specs/FoundSets.antt`): a new set is put at its place in the order, and the sets that contain it are
//! taken out. How many patterns of faults contain no listed set falls with each (`specs/UncoveredPatterns.antt`).
//! What a search is about is one record, `specs/Problem.antt`: a model, its faults and a top event, with the clause lists and the bits
//! of the model with history. What clause lists say of a model is the record of `sat_encoding_laws`, the only thing that is known of the
//! encoding; there are also the traces of a flat model that reach a top event, and the faults that they have failed.
//! `specs/FlatSearch.antt` has the laws, of all problems (`Always` of `specs/Laws.antt`), which the contracts below carry.
//!
//! The encoding proves that record of its exact lists, and `specs/EncodedSearchLaws.antt` joins the two: the lists of a model
//! with history are those that a search for cut sets stands on. `specs/Searchable.antt` says what a model, its faults and a top
//! event must be for a search on these lists, and has the laws that the code of a search stands on: the lists
//! are such as frames take, and each state is that of a valuation with the least inputs.
//!
//! ```text
//! // the sets 2 and 1 3 are listed: the new set 1 takes 1 3 out, and stands before 2
//! ```
#![tactic(auto)]

ghost use Rattle.std.specs.Prelude.{◌≡◌, ℕ, true, [], ◌∷◌};
ghost use Rattle.cut_right_laws.specs.Sets.{stands_before};
ghost use Rattle.cut_search_laws.specs.FoundSets.{Found, sets_of, with_found};
ghost use Rattle.cut_search_laws.specs.UncoveredPatterns.{uncovered};
ghost use Rattle.cut_search_laws.specs.Laws.{Always};
ghost use Rattle.cut_search_laws.specs.FlatSearch.{ClearIsRight, InvariantIsRight, FirstStatesShow, PathIsLawful, PathIsFound};
ghost use Rattle.cut_search_laws.specs.FlatSearch.{OppositesAreClause, ClauseListsSet, FixedIsInvariant, FewerAreBad, ChainStays};
ghost use Rattle.cut_search_laws.specs.FlatSearch.{ChainGrows, SearchEnds};
ghost use Rattle.cut_search_laws.specs.EncodedSearchLaws.{ListsServe, HistoryServes, InvariantsServe};
ghost use Rattle.cut_search_laws.specs.Searchable.{ListsFitFrames, LargerSizesServe, LeastValuesShow};

/// Where no state of the frontier's frame is bad, or inductive clauses exclude the bad states, the listed sets are
/// right: for the traces of at most as many steps as the frontier's number, or for all traces. There is a first state
/// exactly where there is a trace.
pub fn listed_sets_are_right()
    ensures clear { Always ClearIsRight }
    ensures invariant { Always InvariantIsRight }
    ensures first { Always FirstStatesShow }
{}

/// Each moment of a path into bad is that of some valuation, and the path, read as valuations, is a trace that
/// shows a new set.
pub fn paths_show_new_sets()
    ensures lawful { Always PathIsLawful }
    ensures found { Always PathIsFound }
{}

/// A list of bad states goes on from set to set by one clause for each new set. The clauses of sets that contain the new one may
/// stay, and the sets may be listed in any order.
pub fn clauses_list_sets()
    ensures opposites { Always OppositesAreClause }
    ensures lists { Always ClauseListsSet }
{}

/// The clauses of two equal frames are an invariant where the frontier was clear; the frames from 1 on of a further
/// frontier are a chain, and stay one where fewer states are bad; more sets make fewer states bad.
pub fn chains_follow_frames()
    ensures fixed { Always FixedIsInvariant }
    ensures fewer { Always FewerAreBad }
    ensures stays { Always ChainStays }
    ensures grows { Always ChainGrows }
{}

/// Each new set leaves fewer patterns of faults uncovered.
pub fn each_set_brings_the_end_nearer()
    ensures { Always SearchEnds }
{}

/// Examples: smaller sets stand first, and those of one size by their numbers; a set that contains a new one is taken out;
/// of the four patterns of two faults two lack fault 1.
pub fn small_examples()
    ensures smaller_first { stands_before (2 ∷ []) (1 ∷ 3 ∷ []) ≡ true }
    ensures by_numbers { stands_before (1 ∷ 3 ∷ []) (1 ∷ 4 ∷ []) ≡ true }
    ensures taken_out { let large : Found ℕ = record { set = 1 ∷ 2 ∷ []; trace = 0 } in
        let small : Found ℕ = record { set = 1 ∷ []; trace = 1 } in sets_of (with_found small (large ∷ [])) ≡ (1 ∷ []) ∷ [] }
    ensures left { uncovered 2 ((1 ∷ []) ∷ []) ≡ 2 }
{}

/// A search for cut sets stands on the lists of an encodable model with history, and on its list of bad
/// states for any sets and size; its history bits are told by their literals.
pub fn lists_serve()
    ensures lists { ListsServe }
    ensures history { HistoryServes }
{}

/// The invariant with which a search ends is one that a certificate takes.
pub fn invariants_serve()
    ensures { InvariantsServe }
{}

/// The lists of a searchable model are such as frames are made of and clear; and a size beyond the number of
/// the faults asks for no more than that number.
pub fn lists_fit()
    ensures frames { ListsFitFrames }
    ensures sizes { LargerSizesServe }
{}

/// A valuation with the least inputs in place of its own has the same state.
pub fn least_values_show()
    ensures { LeastValuesShow }
{}
