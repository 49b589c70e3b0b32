//! Fault extension instructions as they are written, and their effects.
//!
//! An instruction file extends modules of a program: each slice names a variable of its module and
//! the modes in which that variable fails, and each mode has an effect, a guard and its dynamics.
//! Contracts see instructions by [`Instructions`] as `instruction_tree` gives them: the same lists and
//! texts, with no pointer in them (`specs/Instructions.antt`). Which tokens spell which instructions
//! stands in `specs/SpellsInstructions.antt`, a case for each line of the grammar; the text that
//! [`print_instructions`] gives stands in `specs/InstructionText.antt`, and it spells all instructions that can
//! be written (`specs/WritableInstructions.antt`).
//!
//! ```text
//! EXTENSION OF MODULE Lamp
//!   SLICE Dark AFFECTS on WITH
//!     MODE gone : Permanent StuckAt(FALSE);
//! ```
//!
//! An effect is what is read of a variable while a mode of a fault stands: a relation between the read
//! value, the own value (what the variable would be without faults) and the value read at the moment
//! before (`specs/Effects.antt`, a row for each effect). In a
//! woven program it is made of two parts, the branch of the case that assigns the read value and a
//! rule section ([`branch`] and [`rule`]; the trees that they make stand in `specs/Templates.antt`). Where
//! a slice may start in the mode, [`first_rule`] is a third part, for the first moment. That the parts
//! together allow exactly what the effect does is a law: [`effects_allow`]. Which effects may stand at a
//! variable of a type is [`allowed`], by `specs/AllowedEffects.antt`. The layer above also uses the added names
//! and the small parts of templates.
//!
//! ```text
//! // Offset(5) at x : 0..9
//! (((x#nominal + 5) > 9) ? 9 : (((x#nominal + 5) < 0) ? 0 : (x#nominal + 5)))
//! ```
//!
//! `specs/Weavable.antt` says what a program and instructions must be for the woven program to be their
//! extension, and `WeaveNumbers` that their numbers can be negated. The weave and the rules of instructions,
//! which stand side by side above, share both.
#![tactic(auto)]

ghost use Rattle.fault_instructions.specs.EffectLaw.{EffectLaw, FirstEffectLaw};

mod build;
mod copy;
mod effects;
mod fault;
mod instructions;
mod names;
mod parts;
mod print;
mod rules;

pub use build::{binary, choice, named, negated, next, not, number_expr, set_of_one, set_of_two};
pub use copy::{copy_extensions, copy_modes, copy_slices};
pub use effects::{
    ConstantEffect, EffectKind, ExpressionEffect, NumberEffect, NumbersEffect, PlainEffect,
    allowed, branch, effect_kinds,
};
pub use fault::EffectFault;
pub use instructions::{
    Constant, Dynamics, Effect, Extension, ExtensionList, Instructions, MarkList, ModeList,
    ModeRule, Slice, SliceList, Start,
};
pub use names::{mode_symbol, mode_variable, nominal_symbol, own_name};
pub use parts::{name_of, own_value};
pub use print::print_instructions;
pub use rules::{first_rule, rule, stands, symbol_of};

/// An effect's branch and rule sections allow a read value exactly where the effect does: for leaves
/// that give the read and the own value of the slice's variable and the state of the slice, now and
/// next, and a mode that stands next. At a first moment they do so with the first rule sections.
pub fn effects_allow()
    ensures later { EffectLaw }
    ensures first { FirstEffectLaw }
{}
