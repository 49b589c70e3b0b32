//! Texts that are told line by line: lines of bytes, traces of a flat model, and the report of an analysis.
//!
//! These are definitions and laws, with no code but an example, so that what prints a text and what says when an analysis
//! is right stand on the same ones, and neither on the other. `specs/Lines.antt` has what a line is, how lines
//! with their line feeds are bytes, and words with a space between; the laws stand in `proofs/`: bytes are cut into lines in one
//! way (`Cuts`, `Separators`), and words are told apart (`Words`). Certificates stand on these as well.
//!
//! `specs/TraceText.antt` has what is printed of a trace: for each moment the line `moment i`, and for each variable in flat order
//! the line `name = value`. `Given` says which trace a text gives, line by line in the text's own words: moments in order, in each
//! one line for each variable, in any order, and empty lines anywhere. `Wrong` says what is wrong first with a text that gives
//! none: the smallest line at which something is wrong, and there the smallest number, and only then the first moment without a
//! value. `Laws` has what holds of all this, which the contracts below carry. All is said of models whose variables are printed as
//! different words and whose types can be written (`IsPrintable`), as those of read programs are.
//!
//! `specs/Analysis.antt` has what an analysis finds: sets of
//! faults, a trace for each, whether there is a first moment, and how the analysis ends. `specs/AnalysisText.antt`
//! has the report: the lines of the faults, the sets, the traces, the ending, and the size where
//! it is below the number of faults.
//!
//! ```text
//! faults 1
//! fault 1 Lamp.dark
//! sets 1
//! set 1
//! trace 1
//! moment 0
//! on = FALSE
//! complete
//! ```
#![tactic(auto)]

ghost use Rattle.cut_text_laws.specs.Laws.{OneTrace, PrintedGivesAlone, OneFault, GivenHasNone, LinesAreJudged, EachTextIsJudged};
ghost use Rattle.cut_text_laws.specs.Laws.{NamedIsPrintable, FlatModelsAreNamed, FlatModelsHaveSymbols};
ghost use Rattle.std.specs.Prelude.{◌≡◌, [], ◌∷◌, codes};
ghost use Rattle.cut_text_laws.specs.Analysis.{bounded};
ghost use Rattle.cut_text_laws.specs.AnalysisText.{set_lines, ending_text, size_line};

/// A text gives at most one trace.
pub fn one_trace()
    ensures { OneTrace }
{}

/// The printed text of valuations gives these, and no other trace.
pub fn printed_gives_alone()
    ensures { PrintedGivesAlone }
{}

/// At most one fault of a text is the first, and none where the text gives a trace.
pub fn one_fault()
    ensures one { OneFault }
    ensures none { GivenHasNone }
{}

/// Nothing is wrong with any line of a text, or one is the first with which something is; and a text gives a trace, or something
/// is wrong first with it.
pub fn each_text_is_judged()
    ensures lines { LinesAreJudged }
    ensures judged { EachTextIsJudged }
{}

/// Where each variable has names of its own, none with a dot, and a type that can be written, they are printed as different words.
pub fn named_is_printable()
    ensures { NamedIsPrintable }
{}

/// The flat model of an accepted program that can be written has such names and types, and the symbols of its types.
pub fn flat_models_are_named()
    ensures named { FlatModelsAreNamed }
    ensures symbols { FlatModelsHaveSymbols }
{}

/// The lines of two sets, of a bounded ending, and of a size below the number of faults.
pub fn small_examples()
    ensures sets { set_lines ((1 ∷ []) ∷ (2 ∷ 13 ∷ []) ∷ []) ≡ codes "set 1\nset 2 13\n" }
    ensures ending { ending_text (bounded 4) 9 ≡ codes "bounded 4 bits 9" }
    ensures size { size_line 2 3 ≡ codes "size 2\n" }
    ensures no_size { size_line 3 3 ≡ [] }
{}
