//! Whole files and texts over any desk, piece by piece: `read_whole`, `write_whole` and `say_whole`.
//!
//! A call of a desk moves as much as it likes, so each of these repeats it until all is read, written or said, and stops at
//! the first call that failed.
ghost use Rattle.std.specs.Prelude.{◌≡◌, ◌<◌, ◌≤◌, Some, length, IfOk, OnOk, OnErr, IfSome, IsErrOf};
ghost use Rattle.base_files.specs.Files.{file_of, content_of};
ghost use Rattle.base_files.specs.Desk.{OnlyReads, OnlyWrites, OnlySays, Rose, HasNoFile, told_with, WritesPrefix, said_more, SaysPrefix};
ghost use Rattle.base_files.specs.Whole.{fault_of};
ghost use Rattle.base_files.specs.declared.whole.DeskFault.TheVariants as fault;

use crate::{Desk, ReadStop, WriteStop};
use std::alloc::{AllocError, Global};

/// How many bytes one read asks for.
const READ_PIECE: usize = 4096;

/// How many bytes one call appends or says at most.
const WRITE_PIECE: usize = 65_536;

/// Why a whole file was not read.
#[derive(Clone, Copy, Debug, PartialEq, Eq)]
pub enum DeskFault {
    /// A read failed, and the desk's count of faults rose.
    Failed,
    /// The file gave more bytes than the limit.
    TooLong,
    /// There was no memory.
    OutOfMemory,
    /// A read answered that there is no file of this name.
    Absent,
}

impl From<ReadStop> for DeskFault {
    ghost from_gives = { λ stop result. result ≡ fault_of stop };

    fn from(stop: ReadStop) -> DeskFault {
        match stop {
            ReadStop::Failed => DeskFault::Failed,
            ReadStop::Absent => DeskFault::Absent,
            ReadStop::OutOfMemory => DeskFault::OutOfMemory,
        }
    }
}

impl From<AllocError> for DeskFault {
    ghost from_gives = { λ _ result. result ≡ fault.OutOfMemory };

    fn from(_: AllocError) -> DeskFault {
        DeskFault::OutOfMemory
    }
}

/// The bytes of the whole file, if they are at most `limit`. `TooLong` comes exactly where more than
/// `limit` bytes were given; `Failed` only where the count of faults rose; `Absent` only where a read
/// answered it. The files and the said text stay as they were, however it ends.
pub fn read_whole<D: Desk>(
    alloc: Global,
    desk: &mut D,
    name: &str,
    limit: u64,
) -> Result<Vec<u8>, DeskFault>
    ensures whole { IfOk result (λ bytes. IfSome (D.told desk.old).files (λ files. file_of files name.now ≡ Some bytes.items)) }
    ensures short { IfOk result (λ bytes. length bytes.items ≤ limit) }
    ensures too_long { IsErrOf result DeskFault.TooLong →
        IfSome (D.told desk.old).files (λ files. limit < length (content_of files name.now)) }
    ensures absent { IsErrOf result DeskFault.Absent → HasNoFile (D.told desk.old).files name.now }
    ensures failed { IsErrOf result DeskFault.Failed → Rose (D.told desk.old).faults (D.told desk.new).faults }
    ensures stays { OnlyReads (D.told desk.old) (D.told desk.new) }
{
    let mut bytes = Vec::new(alloc);
    let mut buffer = [0u8; READ_PIECE];
    loop {
        let at = bytes.len() as u64;
        let count = desk.read(name, at, &mut buffer)?;
        if count == 0 {
            return Ok(bytes);
        }
        if count as u64 > limit - at {
            return Err(DeskFault::TooLong);
        }
        bytes.extend_from_slice(&buffer[..count])?;
    }
}

/// Writes the whole file: one start, then appends of pieces of at most 65,536 bytes in order. After a
/// refusal the file is as before or holds a prefix of the bytes; all else stays.
pub fn write_whole<D: Desk>(desk: &mut D, name: &str, bytes: &[u8]) -> Result<(), WriteStop>
    ensures ok { OnOk result ((D.told desk.new).files ≡ told_with (D.told desk.old).files name.now bytes.now) }
    ensures err { OnErr result (WritesPrefix (D.told desk.old).files (D.told desk.new).files name.now bytes.now) }
    ensures failed { IsErrOf result WriteStop.Failed → Rose (D.told desk.old).faults (D.told desk.new).faults }
    ensures stays { OnlyWrites (D.told desk.old) (D.told desk.new) }
{
    desk.start(name)?;
    let mut rest = bytes;
    while !rest.is_empty() {
        let (piece, after) = rest.split_at(rest.len().min(WRITE_PIECE));
        desk.append(name, piece)?;
        rest = after;
    }
    Ok(())
}

/// Says all of the bytes in pieces of at most 65,536, in order. After a refusal a prefix was said; all
/// else stays.
pub fn say_whole<D: Desk>(desk: &mut D, bytes: &[u8]) -> Result<(), WriteStop>
    ensures ok { OnOk result ((D.told desk.new).said ≡ said_more (D.told desk.old).said bytes.now) }
    ensures err { OnErr result (SaysPrefix (D.told desk.old).said (D.told desk.new).said bytes.now) }
    ensures failed { IsErrOf result WriteStop.Failed → Rose (D.told desk.old).faults (D.told desk.new).faults }
    ensures stays { OnlySays (D.told desk.old) (D.told desk.new) }
{
    let mut rest = bytes;
    while !rest.is_empty() {
        let (piece, after) = rest.split_at(rest.len().min(WRITE_PIECE));
        desk.say(piece)?;
        rest = after;
    }
    Ok(())
}
