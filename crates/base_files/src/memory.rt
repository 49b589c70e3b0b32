//! A desk in memory, whose calls fail exactly where they are told to.
//!
//! `MemoryDesk` is the desk of the tests of all layers above: it tells its files and what was said, so that a test compares
//! both.
ghost use Rattle.std.specs.Prelude.{◌≡◌, ◌↔◌, ◌≤◌, ◌++◌, take, [], Some, None, IsSome, IsErrOf, OnOk, OnErr, length, IfOk};
ghost use Rattle.std.specs.Option.{option_copied};
ghost use Rattle.base_files.specs.Files.{file_of, content_of, with_file};
ghost use Rattle.base_files.specs.Memory.{no_counts, counted, next_fail, after_call, kept_bytes, without_memory, WritesTo};
ghost use Rattle.base_files.specs.Desk.{Reads, ReadsFrom, AppendsPrefix, SaysPrefix};

use crate::fails::{CallCounts, kept_of, raise};
use crate::files::{append_to_file, find_file, start_file};
use crate::{CallKind, Desk, FailList, FileList, NamedFile, ReadStop, WriteStop};
use base_values::ByteList;
use std::alloc::Global;
use std::marker::Model;

/// A desk in memory, which tells its files and what was said. It fails exactly the calls that a
/// [`Fail`](crate::Fail) of its list names, and raises its count of faults there alone.
#[derive(Drop)]
pub struct MemoryDesk {
    alloc: Global,
    files: Vec<NamedFile>,
    said: ByteList,
    fails: FailList,
    counts: CallCounts,
    faults: u64,
}

impl Model for MemoryDesk {
    ghost use Rattle.base_files.specs.Memory.{Memory};

    ghost Value = { Memory };

    ghost view = { λ desk. record {
      files = desk.files.items;
      said = desk.said;
      fails = desk.fails;
      counts = desk.counts;
      faults = desk.faults;
    } };
}

impl MemoryDesk {
    /// A desk with these files, of which the first with a name counts, and with these calls to fail. It
    /// has said nothing. It takes no memory.
    pub fn new(alloc: Global, files: FileList, fails: FailList) -> MemoryDesk
        ensures files { result.files ≡ files }
        ensures said { result.said ≡ [] }
        ensures fails { result.fails ≡ fails }
        ensures counts { result.counts ≡ no_counts }
        ensures faults { result.faults ≡ 0 }
    {
        MemoryDesk {
            alloc,
            files: files.into_vec(),
            said: ByteList::new(alloc),
            fails,
            counts: CallCounts::default(),
            faults: 0,
        }
    }

    /// Counts a call, and says how many bytes it keeps where it is one that fails.
    fn begin(&mut self, call: CallKind) -> Option<u64>
        ensures kept { result ≡ next_fail self.old call }
        ensures new { self.new ≡ record self.old { counts = counted self.old.counts call } }
    {
        let number = self.counts.count(call);
        kept_of(self.fails.as_slice(), call, number)
    }

    /// The bytes of the file with this name, and None exactly where there is no such file.
    pub fn file(&self, name: &str) -> Option<&[u8]>
        ensures { option_copied result ≡ file_of self.now.files name.now }
    {
        find_file(&self.files, name.as_bytes())
    }

    /// The bytes that were said, from the first call on.
    pub fn said(&self) -> &[u8]
        ensures { result.now ≡ self.now.said }
    {
        self.said.as_slice()
    }
}

// Each call counts itself first, and fails exactly where a `Fail` names it. A call that finds no memory
// is counted as a call and not as a failure, and leaves the files and the text as they were.
impl Desk for MemoryDesk {
    ghost told = { λ desk. record { files = Some desk.files; said = Some desk.said; faults = desk.faults; quiet = desk.fails ≡ [] } };

    fn read(&mut self, name: &str, at: u64, into: &mut [u8]) -> Result<usize, ReadStop>
        // It fails exactly where a `Fail` names it, and takes no memory.
        ensures failed { IsErrOf result ReadStop.Failed ↔ IsSome (next_fail self.old CallKind.Read) }
        ensures absent { IsErrOf result ReadStop.Absent ↔
            ((next_fail self.old CallKind.Read ≡ None) × (file_of self.old.files name.now ≡ None)) }
        ensures memory { IsErrOf result ReadStop.OutOfMemory → ⊥ }
        ensures bound { IfOk result (λ count. count ≤ length into.new) }
        ensures bytes { IfOk result (λ count. ReadsFrom (Some self.old.files) name.now at into.new count) }
        ensures state { self.new ≡ after_call self.old CallKind.Read }
        ensures later { self.old.faults ≤ self.new.faults }
        ensures quiet { self.old.fails ≡ [] → (self.new.fails ≡ []) × (self.new.faults ≡ self.old.faults) }
    {
        if self.begin(CallKind::Read).is_some() {
            raise(&mut self.faults);
            return Err(ReadStop::Failed);
        }
        match find_file(&self.files, name.as_bytes()) {
            Some(bytes) => Ok(copy_prefix(bytes, at, into)),
            None => Err(ReadStop::Absent),
        }
    }

    fn start(&mut self, name: &str) -> Result<(), WriteStop>
        ensures passes { OnOk result (next_fail self.old CallKind.Start ≡ None) }
        ensures failed { IsErrOf result WriteStop.Failed ↔ IsSome (next_fail self.old CallKind.Start) }
        ensures ok { OnOk result (self.new ≡ record (after_call self.old CallKind.Start) { files = with_file self.old.files name.now [] }) }
        ensures err { IsErrOf result WriteStop.Failed → self.new ≡ after_call self.old CallKind.Start }
        ensures memory { IsErrOf result WriteStop.OutOfMemory → self.new ≡ without_memory self.old CallKind.Start }
        ensures later { self.old.faults ≤ self.new.faults }
        ensures quiet { self.old.fails ≡ [] → (self.new.fails ≡ []) × (self.new.faults ≡ self.old.faults) }
    {
        if self.begin(CallKind::Start).is_some() {
            raise(&mut self.faults);
            return Err(WriteStop::Failed);
        }
        start_file(self.alloc, &mut self.files, name)?;
        Ok(())
    }

    fn append(&mut self, name: &str, bytes: &[u8]) -> Result<(), WriteStop>
        ensures passes { OnOk result (next_fail self.old CallKind.Append ≡ None) }
        ensures failed { IsErrOf result WriteStop.Failed → IsSome (next_fail self.old CallKind.Append) }
        ensures state { WritesTo result self.new
            (record (after_call self.old CallKind.Append) {
              files = with_file self.old.files name.now
                  (content_of self.old.files name.now ++ kept_bytes self.old CallKind.Append bytes.now);
            })
            (without_memory self.old CallKind.Append) }
        ensures prefix { OnErr result (AppendsPrefix (Some self.old.files) (Some self.new.files) name.now bytes.now) }
        ensures later { self.old.faults ≤ self.new.faults }
        ensures quiet { self.old.fails ≡ [] → (self.new.fails ≡ []) × (self.new.faults ≡ self.old.faults) }
    {
        let Some(kept) = self.begin(CallKind::Append) else {
            append_to_file(self.alloc, &mut self.files, name, bytes)?;
            return Ok(());
        };
        append_to_file(self.alloc, &mut self.files, name, prefix_of(bytes, kept))?;
        raise(&mut self.faults);
        Err(WriteStop::Failed)
    }

    fn say(&mut self, bytes: &[u8]) -> Result<(), WriteStop>
        ensures passes { OnOk result (next_fail self.old CallKind.Say ≡ None) }
        ensures failed { IsErrOf result WriteStop.Failed → IsSome (next_fail self.old CallKind.Say) }
        ensures state { WritesTo result self.new
            (record (after_call self.old CallKind.Say) { said = self.old.said ++ kept_bytes self.old CallKind.Say bytes.now })
            (without_memory self.old CallKind.Say) }
        ensures prefix { OnErr result (SaysPrefix (Some self.old.said) (Some self.new.said) bytes.now) }
        ensures later { self.old.faults ≤ self.new.faults }
        ensures quiet { self.old.fails ≡ [] → (self.new.fails ≡ []) × (self.new.faults ≡ self.old.faults) }
    {
        let Some(kept) = self.begin(CallKind::Say) else {
            self.said.append(bytes)?;
            return Ok(());
        };
        self.said.append(prefix_of(bytes, kept))?;
        raise(&mut self.faults);
        Err(WriteStop::Failed)
    }
}

/// The first bytes, at most so many.
fn prefix_of(bytes: &[u8], count: u64) -> &[u8]
    ensures { result.now ≡ take count bytes.now }
{
    let count = count.min(bytes.len() as u64) as usize;
    &bytes[..count]
}

/// Copies the bytes from a place on into the start of the buffer, and says how many.
fn copy_prefix(bytes: &[u8], at: u64, into: &mut [u8]) -> usize
    ensures reads { Reads bytes.now at into.new result }
    ensures bound { result ≤ length into.new }
{
    let start = at.min(bytes.len() as u64) as usize;
    let count = into.len().min(bytes.len() - start);
    into[..count].copy_from_slice(&bytes[start..start + count]);
    count
}
