//! Reads expressions and lists of expressions, and holds what the readers above it share.
//!
//! The model: bytes have tokens, as `smv_lexer` splits them, the grammar sees each token as a lexeme, and a list
//! of lexemes spells a tree by a relation with one case for each line of the grammar (`Lexemes` and `Spells` of
//! `smv_language`). A call answers the tree that the bytes spell, or a [`ParseFault`] with the first place that no text
//! goes on from; what a refusal says of the bytes is `FaultMeans` of `specs/Stops.antt`.
//!
//! A text is read twice. The first pass makes no tree: it takes one token after another with a stack of what is
//! still open (`machine`), and finds where reading stops (`list`), for texts of any size and nesting. Only where the
//! whole text spells a tree the second pass makes it (`tree`), with a stack of what waits for an operand (`parts`),
//! and gives up as soon as a tree would be higher than [`MOST_HEIGHT`]. So `TooDeep` never hides another refusal, no tree
//! above the limit is ever made or dropped, and both passes take time in proportion to the tokens.
//!
//! The layers above use the two calls and `ParseFault`. The readers of programs, of instructions and of causes
//! use more: the split and the place where reading stops (`reader`), tokens with their texts (`token`) and their
//! marks (`mark`), the machine and what is open in it (`machine`, `frames`), the first pass over the symbols of a grammar
//! (`expected`) and what it answers (`reading`), and for the second what is left of the tokens (`cursor`) and why no
//! tree was made (`fault`).
//!
//! `specs/Recogniser.antt` has the first pass as a function on lexemes, `specs/TreeBuilder.antt` the second,
//! `specs/Complete.antt` a text that completes what stands before it, `specs/PredictiveReader.antt` any grammar in which one
//! token decides what is still expected, `specs/Expected.antt` what is expected where a first pass over such a grammar
//! stands, `specs/Words.antt` the words that are no names, `specs/Marks.antt` what a lexeme is outside expressions,
//! `specs/SecondPass.antt` what a second pass reads part by part, and `proofs/` the laws by which the calls answer what the
//! grammar says.
//!
//! ```text
//! expression(alloc, b"a -> b -> c")    the tree of (a -> (b -> c))
//! expression(alloc, b"!-1")            End(3): only a span may go on so
//! expressions(alloc, b"a;; b")         Unexpected(2)
//! ```
#![tactic(auto)]

pub mod cursor;
pub mod expected;
mod extent;
pub mod fault;
pub mod frames;
mod grown;
mod lines;
mod list;
pub mod machine;
pub mod mark;
mod parts;
pub mod reader;
pub mod reading;
pub mod token;
mod tree;
mod words;

pub use fault::ParseFault;
pub use reader::{expression, expressions};
