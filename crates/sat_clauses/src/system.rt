//! A system of clause lists: the first states and the steps of a model, as clauses over the bits of a state.
//!
//! The head of the crate says which variables are which; `specs/States.antt` says which patterns of bits are
//! states, first states and steps of a system.
use crate::clause::ClauseList;

/// The clauses of a model, over variables below 2^31.
#[derive(Drop)]
pub struct System {
    /// How many bits a state has.
    pub state_bits: u32,
    /// How many bits the inputs of a step have.
    pub input_bits: u32,
    /// True with a first state, and with no other.
    pub first: ClauseList,
    /// True with a state, inputs and the next state where a step leads from the one to the other.
    pub step: ClauseList,
}
