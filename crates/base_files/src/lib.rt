//! Files and said text behind a trait, and a desk in memory.
//!
//! A [`Desk`] is all that the analyser sees of the world: named files, which it reads, starts and
//! appends to, and one text, to which it says more. Contracts speak of four meanings of a desk. Its
//! files and its said bytes may be told or not, so each change is an equation between optional
//! meanings: a desk that tells nothing meets it too, and whether a desk tells never changes. Its count
//! of faults never falls, and rises with each call that answers `Failed`. A quiet desk fails no call
//! from here on. [`MemoryDesk`] tells everything and fails exactly where a [`Fail`] names the call.
//!
//! The layers above use [`read_whole`], [`write_whole`] and [`say_whole`], whose contracts say what
//! stands after each end, so that calls joined by `?` need no proof of their own. The words of the
//! contracts stand in `specs/Desk.antt`, files by their names in `specs/Files.antt`, and what a desk in
//! memory does in `specs/Memory.antt`.
//!
//! ```text
//! let mut desk = MemoryDesk::new(alloc, files, FailList::new(alloc));
//! let bytes = read_whole(alloc, &mut desk, "lamp.smv", 1_048_576)?;
//! write_whole(&mut desk, "out.smv", &bytes)?;
//! say_whole(&mut desk, b"done\n")?;
//! ```
#![tactic(auto)]

mod desk;
mod fails;
mod files;
mod memory;
mod whole;

pub use desk::{Desk, ReadStop, WriteStop};
pub use fails::{CallKind, Fail, FailList};
pub use files::{FileList, NamedFile};
pub use memory::MemoryDesk;
pub use whole::{DeskFault, read_whole, say_whole, write_whole};
