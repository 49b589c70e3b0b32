//! Reads programs.
//!
//! The model is that of `smv_expression_reader`, which reads the expressions: a list of lexemes spells a program by a
//! relation with one case for each line of the grammar (`SpellsProgram` of `smv_language`). The call answers the program
//! that the bytes spell, or a `ParseFault` with the first place that no text goes on from; what a refusal says of the
//! bytes is `FaultMeans` of `smv_expression_reader`, over `IsProgram` of `specs/Symbols.antt`.
//!
//! A text is read twice, as expressions are. The first pass makes no tree: it is that of `smv_expression_reader`
//! (`expected`), over the symbols of this grammar (`symbols`, `choices`). Only where the whole text spells a program the
//! second pass makes it (`sections`), and gives up at the first expression that is higher than `MOST_HEIGHT` or nested
//! deeper. So `TooDeep` never hides another refusal, and both passes take time in proportion to the tokens.
//!
//! The layers above use the call alone. `specs/ProgramGrammar.antt` has the grammar as one in which a token decides what
//! is still expected, `specs/ProgramParts.antt` what the second pass reads part by part, `specs/ProgramDepths.antt` which
//! expressions a program has, as they are spelled, and `proofs/` the laws by which the call answers what the grammar
//! says.
//!
//! ```text
//! program(alloc, b"MODULE main VAR x : boolean;")    the module main, with its variable x
//! program(alloc, b"MODULE main ISA m")               LeftOut(12)
//! ```
#![tactic(auto)]

mod choices;
mod reader;
mod sections;
mod symbols;

pub use reader::program;
