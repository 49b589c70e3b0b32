//! The rules that instructions keep about a program.
//!
//! Instructions speak of a program by names, so they can be wrong about it. The rules are tried in groups.
//! The first is tried at each item of the instructions in written order: an EXTENSION names a module, a
//! SLICE affects a variable of it, a MODE has an effect that may stand there, and no item adds a name that
//! is taken ([`placed_slices`]). The second counts faults and modes ([`judge_counts`]). The first rule that
//! is broken is told with its item ([`RuleFault`]); the layer above adds the rules of guards, which need
//! the program's flat model.
//!
//! ```text
//! EXTENSION OF MODULE main                       item 1
//!   SLICE Lamp AFFECTS on WITH                   item 2: adds on#nominal, Lamp#mode and Lamp#nominal
//!     MODE dark : Permanent StuckAt(FALSE);      item 3: adds Lamp#dark
//! ```
#![tactic(auto)]

mod count;
mod fault;
mod items;
mod laws;
mod modes;
mod modules;
mod names;
mod numbers;
mod placed;
mod targets;
mod texts;

pub use count::judge_counts;
pub use fault::{InstructionRule, RuleFault};
pub use items::placed_slices;
pub use laws::kept_is_weavable;
pub use names::program_names;
pub use numbers::{extensions_have_negations, modules_have_negations};
pub use placed::{Placed, item_after};
pub use texts::TextSet;
