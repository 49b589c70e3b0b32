//! The rules that instructions keep about a program, and the first that is broken ([`RuleFault`]). Want of memory counts as
//! the last rule, and every call turns it into a fault by `From`.
ghost use Rattle.fault_rules.specs.OutOfMemory.{IsWant};

use base_values::OutOfMemory;
use fault_instructions::EffectFault;
use std::alloc::{AllocError, AllocFailed};

/// A rule that instructions break. Of two that an item breaks in one group, the one that stands first here
/// is told.
#[derive(Clone, Copy, Debug, PartialEq, Eq)]
pub enum InstructionRule {
    /// An EXTENSION of a module that the program doesn't have.
    NoSuchModule,
    /// A SLICE that affects no declared name of its module.
    NoSuchVariable,
    /// A SLICE that affects something else than a variable of a VAR section.
    NotAStateVariable,
    /// A SLICE with the name of an earlier one of the file.
    DoubleSlice,
    /// A MODE with the name of an earlier one of its slice.
    DoubleMode,
    /// A SLICE that affects the same variable of the same module as an earlier one.
    VariableTaken,
    /// An effect that may not stand at the variable.
    Effect(EffectFault),
    /// An item that adds a name that is taken.
    NameTaken,
    /// The MODE with which the faults pass their limit, or that passes the limit of its slice.
    TooManyFaults,
    /// Want of memory.
    OutOfMemory,
}

/// The first rule that instructions break, and the item that breaks it. Items are numbered from 1 in
/// written order: each EXTENSION, SLICE and MODE is one. With `OutOfMemory` the item says nothing.
#[derive(Clone, Copy, Debug, PartialEq, Eq)]
pub struct RuleFault {
    pub rule: InstructionRule,
    pub item: u32,
}

impl From<OutOfMemory> for RuleFault {
    ghost from_gives = { λ _ fault. IsWant fault };

    fn from(_refused: OutOfMemory) -> RuleFault {
        RuleFault {
            rule: InstructionRule::OutOfMemory,
            item: 0,
        }
    }
}

impl From<AllocError> for RuleFault {
    ghost from_gives = { λ _ fault. IsWant fault };

    fn from(_refused: AllocError) -> RuleFault {
        RuleFault {
            rule: InstructionRule::OutOfMemory,
            item: 0,
        }
    }
}

impl<T: Drop> From<AllocFailed<T>> for RuleFault {
    ghost from_gives = { λ _ fault. IsWant fault };

    fn from(_refused: AllocFailed<T>) -> RuleFault {
        RuleFault {
            rule: InstructionRule::OutOfMemory,
            item: 0,
        }
    }
}
