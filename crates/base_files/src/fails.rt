//! Which calls of a desk in memory are to fail: a `Fail` names a kind of call and its number.
//!
//! Calls are counted by their kind, from 1. An append or a saying that fails may keep its first bytes all the same, as a disk
//! that is full does; `kept_of` tells how many.
ghost use Rattle.std.specs.Prelude.{◌≡◌, ◌≤◌};
ghost use Rattle.base_files.specs.Memory.{count_of, counted, kept_at};
ghost use Rattle.base_values.specs.Counts.{next_count};

use base_values::Items;

/// The kinds of calls of a desk, each counted on its own.
#[derive(Clone, Copy, Debug, PartialEq, Eq)]
pub enum CallKind {
    /// A read of a file.
    Read,
    /// A start of a file.
    Start,
    /// An append to a file.
    Append,
    /// A saying.
    Say,
}

/// Makes one call fail.
#[derive(Clone, Copy, Debug, PartialEq, Eq)]
pub struct Fail {
    /// The kind of the call.
    pub call: CallKind,
    /// Which call of its kind it is, counted from 1.
    pub nth: u64,
    /// How many bytes are appended or said all the same, cut to those of the call.
    pub kept: u64,
}

/// Fails, of which the first that names a call counts.
pub type FailList = Items<Fail>;

/// How many bytes a failing call keeps, where this is one.
pub(crate) fn kept_of(fails: &[Fail], call: CallKind, number: u64) -> Option<u64>
    ensures { result ≡ kept_at fails.now call number }
{
    for fail in fails {
        if fail.call == call && fail.nth == number {
            return Some(fail.kept);
        }
    }
    None
}

/// How many calls of each kind there were.
#[derive(Clone, Copy, Debug, Default)]
pub(crate) struct CallCounts {
    reads: u64,
    starts: u64,
    appends: u64,
    says: u64,
}

impl CallCounts {
    /// Counts a call, and says which of its kind it is.
    pub(crate) fn count(&mut self, call: CallKind) -> u64
        ensures number { result ≡ count_of self.new call }
        ensures counted { self.new ≡ counted self.old call }
    {
        match call {
            CallKind::Read => raise(&mut self.reads),
            CallKind::Start => raise(&mut self.starts),
            CallKind::Append => raise(&mut self.appends),
            CallKind::Say => raise(&mut self.says),
        }
    }
}

/// One more, up to the end of the type.
pub(crate) fn raise(count: &mut u64) -> u64
    ensures new { count.new ≡ next_count count.old }
    ensures later { count.old ≤ count.new }
    ensures result { result ≡ count.new }
{
    *count = count.saturating_add(1);
    *count
}
