//! Why instructions can't be woven into a program ([`WeaveFault`]): the rules of three layers in one type. Want of memory in
//! any of them is one cause, `Weave(OutOfMemory)`.
ghost use Rattle.std.specs.Prelude.{◌≡◌};
ghost use Rattle.fault_extend.specs.FirstRefusal.{of_rule, IsWant};

use base_values::OutOfMemory;
use fault_rules::{InstructionRule, RuleFault};
use smv_flat::FlatFault;
use smv_types::TypeFault;
use std::alloc::{AllocError, AllocFailed};

/// Why instructions can't be woven into a program: a rule of the weave, or a rule of names or of kinds that
/// a guard or Follows expression breaks at some instance. `Kinds` also has the two demands on classes: what
/// is followed has the class of the variable, and a guard is a truth value. The faults of names and of kinds
/// have the item 0. Want of memory is `InstructionRule::OutOfMemory`, and is never told inside `Flat` or `Kinds`.
#[derive(Clone, Copy, Debug, PartialEq, Eq)]
pub enum WeaveCause {
    Weave(InstructionRule),
    Flat(FlatFault),
    Kinds(TypeFault),
}

/// The first rule that instructions break, and the item that breaks it. Items are numbered from 1 in
/// written order: each EXTENSION, SLICE and MODE is one. For want of memory the item says nothing.
#[derive(Clone, Copy, Debug, PartialEq, Eq)]
pub struct WeaveFault {
    pub cause: WeaveCause,
    pub item: u32,
}

impl From<RuleFault> for WeaveFault {
    ghost from_gives = { λ told fault. fault ≡ of_rule told };

    fn from(fault: RuleFault) -> WeaveFault {
        WeaveFault {
            cause: WeaveCause::Weave(fault.rule),
            item: fault.item,
        }
    }
}

impl From<OutOfMemory> for WeaveFault {
    ghost from_gives = { λ _ fault. IsWant fault };

    fn from(_refused: OutOfMemory) -> WeaveFault {
        WeaveFault {
            cause: WeaveCause::Weave(InstructionRule::OutOfMemory),
            item: 0,
        }
    }
}

impl From<AllocError> for WeaveFault {
    ghost from_gives = { λ _ fault. IsWant fault };

    fn from(_refused: AllocError) -> WeaveFault {
        WeaveFault {
            cause: WeaveCause::Weave(InstructionRule::OutOfMemory),
            item: 0,
        }
    }
}

impl<T: Drop> From<AllocFailed<T>> for WeaveFault {
    ghost from_gives = { λ _ fault. IsWant fault };

    fn from(_refused: AllocFailed<T>) -> WeaveFault {
        WeaveFault {
            cause: WeaveCause::Weave(InstructionRule::OutOfMemory),
            item: 0,
        }
    }
}
