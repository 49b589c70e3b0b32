//! How a run ends: what stops it, and the status of its last work.
//!
//! [`stopped`] ends a run that can't go on and says the line of a refusal; [`finished`] and [`ended`] end one that wrote and said,
//! and [`concluded`] one whose work did so in another crate.
ghost use Rattle.std.specs.Prelude.{◌≡◌, ◌⊎◌, IfOk, OnOk, IsErrOf};
ghost use Rattle.base_files.specs.Desk.{OnlySays, IsLater, Rose, told_with, WritesPrefix, said_more, SaysPrefix};
ghost use Rattle.base_files.specs.declared.desk.WriteStop.TheVariants as write_stop;
ghost use Rattle.verb_loading.specs.declared.input.Stop.TheVariants as stops;
ghost use Rattle.verb_loading.specs.Statuses.{IsFinished, status_of, refusal_text, words_text};
ghost use Rattle.verb_run.specs.Findings.{finished_as};
ghost use Rattle.verb_run.specs.RunEndings.{ended_as, Stopped, Concluded};

use base_files::{Desk, WriteStop, say_whole, write_whole};
use base_values::OutOfMemory;
use std::alloc::Global;
use verb_command_line::WordFault;
use verb_loading::faults::Made;
use verb_loading::input::Stop;
use verb_loading::status::{Refusal, Status, words_line};

/// Ends a run that can't go on: a refusal says its line.
pub fn stopped<D: Desk>(alloc: Global, desk: &mut D, stop: Stop) -> Status
    ensures stopped { Stopped stop result (D.told desk.old).files (D.told desk.new).files (D.told desk.old).said (D.told desk.new).said }
    ensures failed { result ≡ Status.Desk → (stop ≡ stops.Desk) ⊎ Rose (D.told desk.old).faults (D.told desk.new).faults }
    ensures stays { IsLater (D.told desk.old) (D.told desk.new) }
{
    match stop {
        Stop::Refused(refusal) => refuse(alloc, desk, refusal),
        Stop::Desk => Status::Desk,
        Stop::Memory => Status::Memory,
    }
}

/// Ends a run by what its work came to, which has written and said all but a refusal.
pub(crate) fn concluded<D: Desk>(alloc: Global, desk: &mut D, done: Result<Status, Stop>) -> Status
    requires { IfOk done IsFinished }
    ensures concluded { Concluded done result (D.told desk.old).files (D.told desk.new).files (D.told desk.old).said (D.told desk.new).said }
    ensures failed { result ≡ Status.Desk → IsErrOf done stops.Desk ⊎ Rose (D.told desk.old).faults (D.told desk.new).faults }
    ensures stays { IsLater (D.told desk.old) (D.told desk.new) }
{
    match done {
        Ok(status) => status,
        Err(stop) => stopped(alloc, desk, stop),
    }
}

/// The status of work that ends with its own where no call failed.
pub fn finished(done: Result<Status, WriteStop>) -> Status
    ensures { result ≡ finished_as done }
{
    match done {
        Ok(status) => status,
        Err(WriteStop::Failed) => Status::Desk,
        Err(WriteStop::OutOfMemory) => Status::Memory,
    }
}

/// The status of work that ends with this one where no call failed.
pub(crate) fn ended(status: Status, done: Result<(), WriteStop>) -> Status
    ensures { result ≡ ended_as status done }
{
    match done {
        Ok(()) => status,
        Err(WriteStop::Failed) => Status::Desk,
        Err(WriteStop::OutOfMemory) => Status::Memory,
    }
}

/// Writes an extension to its file, and says its report.
pub(crate) fn write_and_say<D: Desk>(desk: &mut D, file: &str, made: &Made) -> Result<(), WriteStop>
    ensures ok { OnOk result (((D.told desk.new).files ≡ told_with (D.told desk.old).files file.now made.now.text.items)
        × ((D.told desk.new).said ≡ said_more (D.told desk.old).said made.now.report)) }
    ensures part { (WritesPrefix (D.told desk.old).files (D.told desk.new).files file.now made.now.text.items ×
        ((D.told desk.new).said ≡ (D.told desk.old).said)) ⊎
        (((D.told desk.new).files ≡ told_with (D.told desk.old).files file.now made.now.text.items)
        × SaysPrefix (D.told desk.old).said (D.told desk.new).said made.now.report) }
    ensures failed { IsErrOf result write_stop.Failed → Rose (D.told desk.old).faults (D.told desk.new).faults }
    ensures stays { IsLater (D.told desk.old) (D.told desk.new) }
{
    write_whole(desk, file, &made.text)?;
    say_whole(desk, made.report.as_slice())
}

/// Says the line of a refusal.
pub(crate) fn refuse<D: Desk>(alloc: Global, desk: &mut D, refusal: Refusal) -> Status
    ensures said { result ≡ status_of refusal → (D.told desk.new).said ≡ said_more (D.told desk.old).said (refusal_text refusal) }
    ensures part { SaysPrefix (D.told desk.old).said (D.told desk.new).said (refusal_text refusal) }
    ensures ends { (result ≡ status_of refusal) ⊎ ((result ≡ Status.Desk) ⊎ (result ≡ Status.Memory)) }
    ensures failed { result ≡ Status.Desk → Rose (D.told desk.old).faults (D.told desk.new).faults }
    ensures stays { OnlySays (D.told desk.old) (D.told desk.new) }
{
    match refusal.line(alloc) {
        Ok(line) => ended(refusal.status(), say_whole(desk, line.as_slice())),
        Err(OutOfMemory) => Status::Memory,
    }
}

/// Says the line of words that mean no command.
pub fn reject<D: Desk>(alloc: Global, desk: &mut D, fault: WordFault) -> Status
    ensures said { result ≡ Status.Words fault → (D.told desk.new).said ≡ said_more (D.told desk.old).said (words_text fault) }
    ensures part { SaysPrefix (D.told desk.old).said (D.told desk.new).said (words_text fault) }
    ensures ends { (result ≡ Status.Words fault) ⊎ ((result ≡ Status.Desk) ⊎ (result ≡ Status.Memory)) }
    ensures failed { result ≡ Status.Desk → Rose (D.told desk.old).faults (D.told desk.new).faults }
    ensures stays { OnlySays (D.told desk.old) (D.told desk.new) }
{
    match words_line(alloc, fault) {
        Ok(line) => ended(Status::Words(fault), say_whole(desk, line.as_slice())),
        Err(OutOfMemory) => Status::Memory,
    }
}
