//! Values, names and lists that every other crate shares.
//!
//! This is the bottom layer. A list is an [`Items`], which contracts see as the list of its items; a
//! [`Name`] is seen as its bytes, a [`Dotted`] as a list of names that is never empty, and a
//! [`Valuation`] as a list of values. Every `..List` type of the layers above is an alias of `Items`,
//! also where a type reaches itself through the list: `specs/formers/items/Items.antt` tells the
//! toolchain how `Items` stores what it holds. Want of memory is [`OutOfMemory`], and `?` makes it
//! from each refusal of std. What limits texts, models and the command line stands in [`limits`]. What a
//! domain's values are stands in `specs/Domains.antt`, and how bytes are cut at a byte in
//! `specs/Separators.antt`.
//!
//! ```text
//! let mut names = NameList::new(alloc);
//! names.push(Name::new(alloc, b"main")?)?;
//! names.at(0).text()    // b"main"
//! ```
#![tactic(auto)]

mod cuts;
mod digits;
mod domain;
mod ending;
mod items;
pub mod limits;
mod members;
mod memory;
mod name;
mod value;

pub use cuts::{cut, first_line, length_before};
pub use domain::{Domain, NumList, SymList};
pub use ending::Ending;
pub use items::Items;
pub use members::Members;
pub use memory::OutOfMemory;
pub use name::{Dotted, Name, NameList};
pub use value::{Valuation, Value};

/// A list of bytes.
pub type ByteList = Items<u8>;

/// A set of faults by their numbers, from 1.
pub type FaultSet = Items<u32>;

/// Sets of faults. They rise in every answer of a search; a certificate may hold others.
pub type SetList = Items<FaultSet>;

/// The moments of a trace, from the first: a value for each variable at each moment.
pub type MomentList = Items<Valuation>;

/// Traces, one for each of as many sets.
pub type TraceList = Items<MomentList>;
