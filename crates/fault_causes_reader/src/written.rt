//! Causes as they are written: [`Written`] has the names of the faults that a cause strikes, which may be names of no fault.
use base_values::{Items, Name, NameList};

/// The names of faults, each with the parts that dots join.
pub(crate) type PathList = Items<NameList>;

/// Causes as they are written, in order.
pub(crate) type WrittenList = Items<Written>;

/// A cause as it is written, with the names of the faults that it strikes.
#[derive(Drop)]
pub(crate) struct Written {
    pub(crate) name: Name,
    pub(crate) from: u64,
    pub(crate) to: u64,
    pub(crate) strikes: PathList,
}
