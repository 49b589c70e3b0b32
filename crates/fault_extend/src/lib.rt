//! From a program and fault instructions to the woven program and its list of faults, or to the first rule
//! that the instructions break.
//!
//! The rules are tried in three groups. The first two, at the items of the instructions and on the number
//! of faults, are those of `fault_rules`. The third judges guards and Follows expressions at each
//! instance, as the definitions that they would be. What passes is woven by `fault_weave`, and its faults are
//! listed by instances, then slices, then modes ([`weave`]). [`fault_list`] gives them the numbers that they
//! have in the woven program's flat model.
//!
//! Which rule is told, group after group, stands in `specs/FirstRefusal.antt`, and it is one ([`one_told`]); what the
//! third group is for are laws over the definitions of names and of kinds ([`good_is_judged`]).
//!
//! ```text
//! let woven = weave(alloc, &program, &instructions)?;
//! let model = flatten(alloc, &woven.program)?;
//! fault_list(alloc, &woven, &model)?.at(0).name    // Lamp.dark
//! ```
#![tactic(auto)]

mod fault;
mod faults;
mod guards;
mod laws;
mod list;
mod weaving;

pub use fault::{WeaveCause, WeaveFault};
pub use faults::{Woven, WovenFault, WovenFaultList, copy_woven_faults, woven_faults};
pub use laws::{
    good_is_judged, good_modes_are_judged, instances_are_listed, one_told, types_are_uniform,
};
pub use list::fault_list;
pub use weaving::{weave, weave_typed};
