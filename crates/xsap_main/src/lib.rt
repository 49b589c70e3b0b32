//! What the main functions share of the programs that call [`verb_run::run::run`]: the desk over real files, the number of a status, and
//! what stands where such a program ends.
//!
//! A program hands `run` the words of the command line, a [`RealDesk`], and advisers of its own, and ends with the [`exit_number`] of the
//! status; where a word is not text, with [`NOT_TEXT`]. `specs/ProgramEnding` has what it promises of that.
#![tactic(auto)]

mod ending;
mod real_desk;

pub use ending::{NOT_TEXT, exit_number};
pub use real_desk::RealDesk;
