//! Reads common causes.
//!
//! The model: bytes have tokens, as `smv_lexer` splits them, the grammar sees each token as a lexeme, and a list of
//! lexemes spells causes by a relation with one case for each line of the grammar (`CausesText` of `fault_cause_laws`). What is
//! spelled may break rules about the faults of an extension and the names of the woven program (`CauseRules` there).
//! [`read_causes`] answers the causes that the bytes spell, with the faults that they strike by their numbers, or the
//! first place that no text goes on from, or else the first rule that is broken, at the number of its cause.
//!
//! One token decides what comes next, and nothing nests, so a text is read once: `step` has what is read of a cause so
//! far (`State`), `reader` goes through the tokens, and `rules` through the causes, with the program's names from `fault_rules`.
//!
//! ```text
//! // CAUSE Surge WITHIN 0..0 STRIKES A.on, B.on;      strikes 1 and 2
//! // CAUSE Surge WITHIN 2..1 STRIKES A.on;            rule 4 at 1
//! ```
#![tactic(auto)]

mod added;
mod fault;
mod paths;
mod reader;
mod rules;
mod step;
mod written;

pub use fault::{CauseFault, CauseRule};
pub use reader::read_causes;
