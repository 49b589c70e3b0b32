//! What the analyser asks of the world: files by their names, and a text that it says.
ghost use Rattle.std.specs.Prelude.{◌≡◌, ◌≤◌, [], length, IfOk, OnOk, OnErr, IsErrOf};
ghost use Rattle.base_files.specs.Desk.{Told, OnlyReads, OnlyWrites, OnlySays, Rose, ReadsFrom};
ghost use Rattle.base_files.specs.Desk.{HasNoFile, told_with, told_longer, AppendsPrefix, said_more, SaysPrefix};
ghost use Rattle.base_files.specs.declared.desk.WriteStop.TheVariants as write_stop;

use base_values::OutOfMemory;

/// Why a read gave no bytes.
#[derive(Clone, Copy, Debug, PartialEq, Eq)]
pub enum ReadStop {
    /// The call failed, and the count of faults rose.
    Failed,
    /// There is no file of this name, which is no failure.
    Absent,
    /// There was no memory.
    OutOfMemory,
}

/// Why a start, an append or a saying stopped.
#[derive(Clone, Copy, Debug, PartialEq, Eq)]
pub enum WriteStop {
    /// The call failed, and the count of faults rose.
    Failed,
    /// There was no memory.
    OutOfMemory,
}

impl From<OutOfMemory> for WriteStop {
    ghost from_gives = { λ _ stop. stop ≡ write_stop.OutOfMemory };

    fn from(_: OutOfMemory) -> WriteStop {
        WriteStop::OutOfMemory
    }
}

/// Files and said text. A desk may tell its files and what was said, or not, and that never changes.
pub trait Desk {
    /// What the desk tells of itself.
    ghost told: { Self → Told };

    /// Bytes of the file from a place on (in bytes, from 0) into the start of the buffer, and their
    /// number: at most as many as the buffer takes, and none for a buffer with room only at or past the
    /// end of the file.
    fn read(&mut self, name: &str, at: u64, into: &mut [u8]) -> Result<usize, ReadStop>
        ensures bound { IfOk result (λ count. count ≤ length into.new) }
        ensures bytes { IfOk result (λ count. ReadsFrom (told self.old).files name.now at into.new count) }
        ensures absent { IsErrOf result ReadStop.Absent → HasNoFile (told self.old).files name.now }
        ensures calm { IsErrOf result ReadStop.Absent → (told self.new).faults ≡ (told self.old).faults }
        ensures failed { IsErrOf result ReadStop.Failed → Rose (told self.old).faults (told self.new).faults }
        ensures stays { OnlyReads (told self.old) (told self.new) };

    /// The file is then there and empty. After a refusal every file is as before.
    fn start(&mut self, name: &str) -> Result<(), WriteStop>
        ensures ok { OnOk result ((told self.new).files ≡ told_with (told self.old).files name.now []) }
        ensures err { OnErr result ((told self.new).files ≡ (told self.old).files) }
        ensures failed { IsErrOf result WriteStop.Failed → Rose (told self.old).faults (told self.new).faults }
        ensures stays { OnlyWrites (told self.old) (told self.new) };

    /// Appends the bytes, to an empty file where there was none. After a refusal a prefix of them was
    /// appended, or nothing was done.
    fn append(&mut self, name: &str, bytes: &[u8]) -> Result<(), WriteStop>
        ensures ok { OnOk result ((told self.new).files ≡ told_longer (told self.old).files name.now bytes.now) }
        ensures err { OnErr result (AppendsPrefix (told self.old).files (told self.new).files name.now bytes.now) }
        ensures failed { IsErrOf result WriteStop.Failed → Rose (told self.old).faults (told self.new).faults }
        ensures stays { OnlyWrites (told self.old) (told self.new) };

    /// Says the bytes. After a refusal a prefix of them was said.
    fn say(&mut self, bytes: &[u8]) -> Result<(), WriteStop>
        ensures ok { OnOk result ((told self.new).said ≡ said_more (told self.old).said bytes.now) }
        ensures err { OnErr result (SaysPrefix (told self.old).said (told self.new).said bytes.now) }
        ensures failed { IsErrOf result WriteStop.Failed → Rose (told self.old).faults (told self.new).faults }
        ensures stays { OnlySays (told self.old) (told self.new) };
}
