//! The input files, as bytes ([`read_input`]), and why work stops: a refusal of a file, a call of the desk that failed, or
//! want of memory ([`Stop`]).
ghost use Rattle.std.specs.Prelude.{◌≡◌, ◌≤◌, length, IfOk, IfSome, IsErrOf};
ghost use Rattle.base_files.specs.Desk.{OnlyReads, Rose};
ghost use Rattle.verb_loading.specs.Inputs.{refusal_at, limit_of, stop_at, stop_of_write, IsRefusedAbove, HasAtMost};
ghost use Rattle.verb_loading.specs.declared.status.InputFault.{InputFault};
ghost use Rattle.verb_loading.specs.declared.status.Refusal.{Refusal};
ghost use Rattle.verb_loading.specs.declared.input.Stop.TheVariants as stop;

use crate::status::{InputFault, Objection, Part, Refusal};
use crate::wrong::Wrong;
use base_files::{Desk, DeskFault, WriteStop, read_whole};
use base_values::OutOfMemory;
use base_values::limits::{MOST_CERT_BYTES, MOST_FILE_BYTES, MOST_TRACE_BYTES};
use std::alloc::Global;

/// What is read and may be refused: an input file, or the top event.
#[derive(Clone, Copy, Debug, PartialEq, Eq)]
pub enum Input {
    Model,
    Faults,
    /// A top event, or a file of them.
    Top,
    Causes,
    Trace,
    Certificate,
}

/// Why the work can't go on.
#[derive(Clone, Copy, Debug, PartialEq, Eq)]
pub enum Stop {
    Refused(Refusal),
    Desk,
    Memory,
}

impl From<OutOfMemory> for Stop {
    ghost from_gives = { λ _ made. made ≡ stop.Memory };

    fn from(_: OutOfMemory) -> Stop {
        Stop::Memory
    }
}

impl From<WriteStop> for Stop {
    ghost from_gives = { λ given made. made ≡ stop_of_write given };

    fn from(stop: WriteStop) -> Stop {
        match stop {
            WriteStop::Failed => Stop::Desk,
            WriteStop::OutOfMemory => Stop::Memory,
        }
    }
}

impl Input {
    /// The refusal of this file.
    fn refusal(self, fault: InputFault) -> Refusal
        ensures { result ≡ refusal_at self fault }
    {
        match self {
            Input::Model => Refusal::Model(fault),
            Input::Faults => Refusal::Faults(fault),
            Input::Top => Refusal::Top(fault),
            Input::Causes => Refusal::Causes(fault),
            Input::Trace => Refusal::NotAccepted(Objection::Trace(fault)),
            Input::Certificate => Refusal::NotAccepted(Objection::Cert(fault)),
        }
    }

    /// The most bytes that this file may have.
    fn limit(self) -> u64
        ensures { result ≡ limit_of self }
    {
        match self {
            Input::Trace => MOST_TRACE_BYTES,
            Input::Certificate => MOST_CERT_BYTES,
            Input::Model | Input::Faults | Input::Top | Input::Causes => MOST_FILE_BYTES,
        }
    }

    /// The end of the work where a rule of this file is broken at a place.
    pub fn broken(self, part: Part, number: u32, place: u64) -> Stop
        ensures { result ≡ stop.Refused (refusal_at self (record { part = part; number = number; place = place })) }
    {
        Stop::Refused(self.refusal(InputFault {
            part,
            number,
            place,
        }))
    }

    /// The end of the work where this is wrong with the file.
    pub fn stop(self, wrong: Wrong) -> Stop
        ensures { result ≡ stop_at self wrong }
    {
        match wrong {
            Wrong::Refused(fault) => Stop::Refused(self.refusal(fault)),
            Wrong::Memory => Stop::Memory,
        }
    }
}

/// The bytes of an input file.
pub fn read_input<D: Desk>(
    alloc: Global,
    desk: &mut D,
    input: Input,
    name: &str,
) -> Result<Vec<u8>, Stop>
    ensures bytes { IfOk result (λ bytes. IfSome (D.told desk.old).files (λ files. HasAtMost (limit_of input) files name.now bytes.items)) }
    ensures short { IfOk result (λ bytes. length bytes.items ≤ limit_of input) }
    ensures refused { (r : Refusal) → IsErrOf result (stop.Refused r) →
        (fault : InputFault) × (r ≡ refusal_at input fault)
        × IfSome (D.told desk.old).files (λ files. IsRefusedAbove (limit_of input) files name.now fault) }
    ensures failed { IsErrOf result stop.Desk → Rose (D.told desk.old).faults (D.told desk.new).faults }
    ensures stays { OnlyReads (D.told desk.old) (D.told desk.new) }
{
    let limit = input.limit();
    match read_whole(alloc, desk, name, limit) {
        Ok(bytes) => Ok(bytes),
        Err(DeskFault::Absent) => Err(input.broken(Part::Absent, 1, 0)),
        Err(DeskFault::TooLong) => Err(input.broken(Part::Length, 1, limit)),
        Err(DeskFault::Failed) => Err(Stop::Desk),
        Err(DeskFault::OutOfMemory) => Err(Stop::Memory),
    }
}
