//! The generator: a model of relays on two rails, its faults, and the event that both rails are dead.
//!
//! [`generated_model`] makes the model of a number and so many stages, [`generated_instructions`] its instructions,
//! by which each relay's output may be stuck at FALSE for good, and [`generated_top`] the event. Each is proved to be
//! the tree of `specs/Generator.antt`, and one that can be written, so that the text that `smv_language` and `fault_instructions`
//! print of it spells it. Which rail a stage is on is decided by numbers that follow each other from the given one.
//!
//! ```text
//! // number 1, stages 8: stages 1, 2 and 7 are on rail A, so that `dead` is ((!r7.out) & (!r8.out))
//! ```
#![tactic(auto)]

ghost use Rattle.std.specs.Prelude.{◌≡◌, [], ◌∷◌, true, false};
ghost use Rattle.fault_generator.specs.Generator.{rails_after};

mod instructions;
mod model;
mod parts;
mod rails;

pub use instructions::generated_instructions;
pub use model::{generated_model, generated_top};

/// The rails of eight stages, as an example.
pub fn small_example()
    ensures rails { rails_after 8 1 ≡ true ∷ true ∷ false ∷ false ∷ false ∷ false ∷ true ∷ false ∷ [] }
{}
