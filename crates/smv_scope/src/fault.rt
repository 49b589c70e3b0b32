//! The rules of a program's names and instances, and the first that is broken.
//!
//! All fourteen rules have one list, though those from 8 to 13 are tried in the layer above (`smv_flat`). Want of memory
//! counts as the last one, and every call below turns it into a [`FlatFault`] by `From`.
use base_values::OutOfMemory;
use std::alloc::{AllocError, AllocFailed};

/// A rule that a program breaks. Its number, from 1 on, is `rule as u32`, and of two rules that an item
/// breaks in one group the one with the lower number is told.
#[derive(Clone, Copy, Debug, PartialEq, Eq)]
pub enum FlatRule {
    /// There is no module `main`.
    NoMain = 1,
    /// The module `main` has formal parameters.
    MainHasParameters = 2,
    /// A module name for the second time.
    DoubleModule = 3,
    /// A name for the second time among a module's formals, variables, defines and instances.
    DoubleName = 4,
    /// An instance of a module that isn't there.
    NoSuchModule = 5,
    /// An instance with another number of actuals than its module has formals.
    WrongCount = 6,
    /// An instance of a module that the instance stands in.
    ModuleLoop = 7,
    /// A name that means nothing, or an instance where a value is needed.
    NoSuchName = 8,
    /// A target that is no variable of the module that may be assigned so.
    NotATarget = 9,
    /// A target that an earlier assignment speaks of at the same time.
    DoubleAssign = 10,
    /// A definition that needs itself, or a formal whose look-up comes back to it.
    DefineLoop = 11,
    /// `next` where no other moment is seen.
    NextHere = 12,
    /// An input where only the state may be read.
    InputHere = 13,
    /// The instance or the variable passes its limit.
    TooMany = 14,
    /// Want of memory.
    OutOfMemory = 15,
}

/// The first rule that a program breaks, and the item that breaks it. Items are numbered from 1 in written
/// order; item 0 is the program as a whole. With `OutOfMemory` the item says nothing.
#[derive(Clone, Copy, Debug, PartialEq, Eq)]
pub struct FlatFault {
    pub rule: FlatRule,
    pub item: u32,
}

impl From<OutOfMemory> for FlatFault {
    ghost use Rattle.smv_scope.specs.Faults.{IsWant};

    ghost from_gives = { λ _ fault. IsWant fault };

    fn from(_refused: OutOfMemory) -> FlatFault {
        FlatFault {
            rule: FlatRule::OutOfMemory,
            item: 0,
        }
    }
}

impl From<AllocError> for FlatFault {
    ghost use Rattle.smv_scope.specs.Faults.{IsWant};

    ghost from_gives = { λ _ fault. IsWant fault };

    fn from(_refused: AllocError) -> FlatFault {
        FlatFault {
            rule: FlatRule::OutOfMemory,
            item: 0,
        }
    }
}

impl<T: Drop> From<AllocFailed<T>> for FlatFault {
    ghost use Rattle.smv_scope.specs.Faults.{IsWant};

    ghost from_gives = { λ _ fault. IsWant fault };

    fn from(_refused: AllocFailed<T>) -> FlatFault {
        FlatFault {
            rule: FlatRule::OutOfMemory,
            item: 0,
        }
    }
}
