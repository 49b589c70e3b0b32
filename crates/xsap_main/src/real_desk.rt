//! The desk over the system's files and standard output: the trusted edge, which tells nothing of what
//! files hold. A file is absent where the system finds none of the name, also since a part of the name is no folder;
//! want of memory is told as that, and whatever else fails is counted.
ghost use Rattle.std.specs.Prelude.{◌≤◌, None, IsErrOf, IfOk, length};
ghost use Rattle.base_files.specs.Desk.{Rose};
ghost use Rattle.base_files.specs.declared.desk.WriteStop.TheVariants as write_stop;

use base_files::{Desk, ReadStop, WriteStop};
use std::fs::{OpenFile, OpenOptions};
use std::io;
use std::io::{ErrorKind, Read, Seek, SeekFrom, Write};
use std::rt::Files;

/// Files of the system, by their names, and standard output.
#[derive(Drop)]
pub struct RealDesk<R: Files + Print + Drop> {
    runtime: R,
    faults: u64,
}

impl<R: Files + Print + Drop> RealDesk<R> {
    /// The desk before any call.
    pub fn new(runtime: R) -> RealDesk<R> {
        RealDesk { runtime, faults: 0 }
    }
}

impl<R: Files + Print + Drop> Desk for RealDesk<R> {
    ghost told = { λ desk. record { files = None; said = None; faults = desk.faults; quiet = ⊥ } };

    fn read(&mut self, name: &str, at: u64, into: &mut [u8]) -> Result<usize, ReadStop> {
        match read_at(&self.runtime, name, at, into) {
            Ok(count) => Ok(count),
            Err(error) => match error.kind() {
                ErrorKind::NotFound | ErrorKind::NotADirectory => Err(ReadStop::Absent),
                ErrorKind::OutOfMemory => Err(ReadStop::OutOfMemory),
                _ => {
                    raise(&mut self.faults);
                    Err(ReadStop::Failed)
                }
            },
        }
    }

    fn start(&mut self, name: &str) -> Result<(), WriteStop> {
        let done = start_file(&self.runtime, name);
        counted(done, &mut self.faults)
    }

    fn append(&mut self, name: &str, bytes: &[u8]) -> Result<(), WriteStop> {
        let done = append_to_file(&self.runtime, name, bytes);
        counted(done, &mut self.faults)
    }

    fn say(&mut self, bytes: &[u8]) -> Result<(), WriteStop> {
        let done = self.runtime.write_all(bytes);
        counted(done, &mut self.faults)
    }
}

/// Bytes of a file from a place on.
fn read_at<R: Files>(runtime: &R, name: &str, at: u64, into: &mut [u8]) -> io::Result<usize>
    ensures { IfOk result (λ count. count ≤ length into.new) }
{
    let mut file = std::fs::open(runtime, name)?;
    file.seek(SeekFrom::Start(at))?;
    file.read(into)
}

/// Makes a file that is empty.
fn start_file<R: Files>(runtime: &R, name: &str) -> io::Result<()> {
    std::fs::create(runtime, name)?;
    Ok(())
}

/// Appends bytes to a file, or to a new one.
fn append_to_file<R: Files>(runtime: &R, name: &str, bytes: &[u8]) -> io::Result<()> {
    let mut file = OpenOptions::new()
        .append(true)
        .create(true)
        .open(runtime, name)?;
    file.write_all(bytes)
}

/// Counts a failure, up to the end of the number.
fn raise(count: &mut u64)
    ensures later { count.old ≤ count.new }
    ensures rose { Rose count.old count.new }
{
    *count = count.saturating_add(1);
}

/// The outcome of a write, counted where it failed for another reason than want of memory.
fn counted(done: io::Result<()>, faults: &mut u64) -> Result<(), WriteStop>
    ensures later { faults.old ≤ faults.new }
    ensures failed { IsErrOf result write_stop.Failed → Rose faults.old faults.new }
{
    match done {
        Ok(()) => Ok(()),
        Err(error) if error.kind() == ErrorKind::OutOfMemory => Err(WriteStop::OutOfMemory),
        Err(_) => {
            raise(faults);
            Err(WriteStop::Failed)
        }
    }
}
