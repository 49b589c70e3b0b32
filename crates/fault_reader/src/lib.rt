//! Reads fault extension instructions.
//!
//! The model: bytes have tokens, as `smv_lexer` splits them, the grammar sees each token as a lexeme, and a list of
//! lexemes spells instructions by a relation with one case for each line of the grammar (`SpellsInstructions` of
//! `fault_instructions`). The call answers the instructions that the bytes spell, or a `ParseFault` with the first place that no
//! text goes on from; what a refusal says of the bytes is `FaultMeans` of `smv_expression_reader`, over
//! `IsInstructions` of `specs/Symbols.antt`.
//!
//! The words of the grammar, such as `MODE` and `Permanent`, are known by their place and are names elsewhere.
//!
//! `specs/InstructionGrammar.antt` has the grammar as one in which a token decides what is still expected;
//! `specs/InstructionParts.antt` says what the second pass reads of the tokens, part by part, and `specs/InstructionDepths.antt`
//! which expressions instructions have, as they are spelled: the guards and the values that `Follows` names.
//!
//! A text is read twice, as programs are. The first pass makes nothing: it is that of `smv_expression_reader`
//! (`expected`), over the symbols of this grammar (`symbols`). Only where the whole text spells instructions the second
//! pass (`build`) makes them, and gives up at the first expression that is higher than `MOST_HEIGHT` or nested deeper.
//! What is spelled is read back as it is spelled, or found too deep (`read_file` of `proofs/FileReads.antt`). So
//! `TooDeep` never hides another refusal, and both passes take time in proportion to the tokens.
//!
//! ```text
//! instructions(alloc, b"EXTENSION OF MODULE Lamp")      no slice for the module Lamp
//! instructions(alloc, b"EXTENSION OF Lamp")             Unexpected(13)
//! ```
#![tactic(auto)]

mod build;
mod reader;
mod symbols;

pub use reader::instructions;
