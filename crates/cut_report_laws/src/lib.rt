//! What is reported of a model with faults: when an analysis of extended traces is right, and what a table means.
//!
//! These are definitions and laws, with no code. `specs/ExtendedTraces.antt` says what an analysis is right for, and
//! `specs/Tables.antt` what the entries of a table mean. What an analysis finds, its text and the texts of traces stand in
//! `cut_text_laws`, tables and their text in `cut_tables`.
//!
//! The search of `cut_search` answers for a flat model. For the flat model of an extension `specs/SearchAnswer.antt` sees an answer as the
//! analysis that a report tells, `specs/Laws.antt` says that it is right for extended traces, and `specs/Searchable.antt` that such a
//! model can be searched. The contracts below carry these laws.
//!
//! ```text
//! // a complete answer: each reaching extended trace has failed all faults of some listed set
//! // one bounded by 4: each of at most 4 steps has, and there is a chain of 4 frames for these sets
//! ```
#![tactic(auto)]

ghost use Rattle.cut_report_laws.specs.Laws.{AnswersAreAnalyses, AnswersArePrinted};
ghost use Rattle.cut_report_laws.specs.Searchable.{ExtensionsAreSearchable};
ghost use Rattle.cut_report_laws.specs.Tables.{EntriesAreRight};

/// An answer for the flat model of an extension is an analysis of the extension, and ends by its depth; and a report
/// of the answer tells this analysis.
pub fn answers_are_analyses()
    ensures right { AnswersAreAnalyses }
    ensures printed { AnswersArePrinted }
{}

/// The flat model of an extension, its faults and a top event that fits it can be searched.
pub fn extensions_are_searchable()
    ensures { ExtensionsAreSearchable }
{}

/// Of an analysis that is right for sets of as many faults as the row has, an entry says what is true: `yes` where an
/// extended trace reaches the event and fails no fault outside the row, `no` where none does, and `unknown` where none
/// of at most as many steps as were looked at does.
pub fn entries_mean_what_they_say()
    ensures { EntriesAreRight }
{}
