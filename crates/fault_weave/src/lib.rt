//! The weave: the program that has the faults of instructions in it.
//!
//! Each slice of a module adds the own value of its variable and its own state to the module: where
//! no mode stands the variable reads its own value, and else what the mode's effect allows. What the
//! woven program is to mean stands in `specs/ExtensionTraces.antt`: the extended traces of a program under
//! instructions, over its own text, with read and own values and modes. That it means this is a law
//! about the text that the weave makes: [`woven_extends`]. The text, `woven` in `specs/WovenProgram.antt`, is
//! made by [`woven_program`]; what programs and instructions a weave takes stands in
//! `specs/Weavable.antt` of `fault_instructions`, and the list of faults in `specs/Faults.antt`.
//!
//! ```text
//! seen := line;     // becomes   seen#nominal := line;   and, for a slice Eye with a mode wild,
//!                   // seen := case (Eye#mode = Eye#wild) : {FALSE, TRUE}; TRUE : seen#nominal; esac;
//! ```
#![tactic(auto)]

ghost use Rattle.fault_weave.specs.WeaveLaws.{WovenExtends, CutIsOneToOne};

mod lookup;
mod rename;
mod slices;
mod weave;

pub use weave::woven_program;

/// The woven program is the extension of the program by the instructions, for every program and
/// instructions that a weave takes.
pub fn woven_extends()
    ensures { WovenExtends }
{}

/// The cut from valuations of the woven program to moments of the extension is one to one, up to what the
/// two speak of, and every list of moments whose modes are its slices' is the cut of a list of valuations.
pub fn cut_is_one_to_one()
    ensures { CutIsOneToOne }
{}
