//! Reads the words of a command line.
//!
//! Words mean a command where the first is a verb and the rest are pairs of an option and its value: each
//! option is one of the verb's and comes once, each value fits its option, every option that may not be left
//! out is there, no two files have one name, and of a pair of faults both are in their set and differ. That is a
//! relation between words and a command, `Means` in `specs/Meaning.antt`, which says nothing of how words are read;
//! `BreaksFirst` beside it says of each rule when it is the first that is broken, and at which word. [`read_words`]
//! answers the one command that words mean, or a [`WordFault`] with the first broken rule and its place, where they
//! mean none. It takes no memory.
//!
//! The verbs, their options and what a value may be stand in `specs/Table.antt` and in `verb` and `choice`
//! here; `number` reads numbers, `set` sets of numbers, `pairs` looks options up, `faults` tries the rules of options, `pair` that
//! of the two faults of a set, and `read` makes the command.
//!
//! ```text
//! read_words(&["extend", "--model", "m", "--faults", "f", "--extended", "x"])             // Ok(Extend { .. })
//! read_words(&["odds", "--model", "m", "--faults", "f", "--top", "!on", "--depth", "4"])  // Ok(Odds { .. })
//! read_words(&["fmea", "--size", "3"])                                                    // Err(BadNumber { at: 3 })
//! ```
#![tactic(auto)]

mod choice;
mod command;
mod fault;
mod faults;
mod number;
mod pair;
mod pairs;
mod read;
pub mod set;
mod verb;

pub use choice::{Choice, OptionKind};
pub use command::{
    Analyse, Check, CheckCauses, CheckOrders, Command, Extend, FindCauses, FindOdds, FindOrders,
    Fmea, Make, Replay,
};
pub use fault::WordFault;
pub use read::read_words;
pub use verb::Verb;
