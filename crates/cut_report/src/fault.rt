//! What is wrong first with the text of a trace ([`TraceFault`]). Inside, a line that is wrong has a cause, which becomes a
//! fault with the line's number.
ghost use Rattle.std.specs.Prelude.{◌≡◌};
ghost use Rattle.cut_report.specs.Faults.{fault_at};

use base_values::OutOfMemory;

/// What is wrong first with a text that gives no trace. Lines are counted from 1 and moments from 0. The
/// smallest line is told, and on one line the variant that stands first here; `MissingValue` comes after all
/// faults of lines.
#[derive(Clone, Copy, Debug, PartialEq, Eq)]
pub enum TraceFault {
    /// The line is not empty, not the line of the next moment, and no `name = value` in a moment; or it is the
    /// last and has no line feed. Line 1 too where there is no line but empty ones.
    BadLine(u64),
    /// The name is no variable's.
    UnknownName(u64),
    /// The value is none of the variable's.
    Outside(u64),
    /// The first moment in which a variable has no value.
    MissingValue(u64),
    /// The variable has a value in that moment already.
    Twice(u64),
    /// Want of memory.
    OutOfMemory,
}

/// What is wrong with a line.
#[derive(Clone, Copy, Debug, PartialEq, Eq)]
pub(crate) enum LineCause {
    BadLine,
    UnknownName,
    Outside,
    Twice,
    OutOfMemory,
}

impl LineCause {
    /// The fault of the line of this number.
    pub(crate) fn at_line(self, number: u64) -> TraceFault
        ensures { result ≡ fault_at self number }
    {
        match self {
            LineCause::BadLine => TraceFault::BadLine(number),
            LineCause::UnknownName => TraceFault::UnknownName(number),
            LineCause::Outside => TraceFault::Outside(number),
            LineCause::Twice => TraceFault::Twice(number),
            LineCause::OutOfMemory => TraceFault::OutOfMemory,
        }
    }
}

impl From<OutOfMemory> for LineCause {
    ghost use Rattle.cut_report.specs.declared.fault.LineCause.TheVariants as cause;

    ghost from_gives = { λ _ made. made ≡ cause.OutOfMemory };

    fn from(_refused: OutOfMemory) -> LineCause {
        LineCause::OutOfMemory
    }
}

impl From<OutOfMemory> for TraceFault {
    ghost use Rattle.cut_report.specs.declared.fault.TraceFault.TheVariants as fault;

    ghost from_gives = { λ _ made. made ≡ fault.OutOfMemory };

    fn from(_refused: OutOfMemory) -> TraceFault {
        TraceFault::OutOfMemory
    }
}
