//! Why bytes are no causes of an extension.
//!
//! [`CauseRule`] has the rules in the order in which they are tried at a cause, and [`CauseFault`] what is told of the first broken one.
ghost use Rattle.std.specs.Prelude.{◌≡◌};
ghost use Rattle.fault_causes_reader.specs.declared.fault.CauseFault.TheVariants as fault;

use base_values::OutOfMemory;
use smv_expression_reader::ParseFault;

/// A rule that a cause breaks. Of those that a cause breaks, the one that stands first here is told.
#[derive(Clone, Copy, Debug, PartialEq, Eq)]
pub enum CauseRule {
    /// A name is no fault's name.
    NoSuchFault = 1,
    /// An earlier cause has the name.
    DoubleCause,
    /// A fault is named twice.
    DoubleStrike,
    /// The window ends before it begins.
    EmptyWindow,
    /// The window ends more than `LONGEST_WINDOW` steps after the cause's moment.
    TooWide,
    /// With this cause, faults and causes are more than `MOST_EVENTS`.
    TooMany,
    /// A name that is added is taken.
    NameTaken,
}

/// Why bytes are no causes: they spell none, or the cause of this number, from 1, is the first one that breaks a rule.
/// `NameTaken` is told at 0 where the name that is taken is one of those added after all causes.
#[derive(Clone, Copy, Debug, PartialEq, Eq)]
pub enum CauseFault {
    Parse(ParseFault),
    Broken(CauseRule, u32),
    OutOfMemory,
}

impl From<OutOfMemory> for CauseFault {
    ghost from_gives = { λ _ made. made ≡ fault.OutOfMemory };

    fn from(_refused: OutOfMemory) -> CauseFault {
        CauseFault::OutOfMemory
    }
}
