//! Pieces of text with numbers in them.
use base_values::{ByteList, OutOfMemory};
use std::alloc::Global;

/// Appends a text and a number behind it.
pub(crate) fn append_numbered(
    alloc: Global,
    text: &mut ByteList,
    head: &[u8],
    number: u64,
) -> Result<(), OutOfMemory> {
    text.append(head)?;
    text.append_number(alloc, number)
}

/// The number of what is at a place from 0: one more.
pub(crate) fn number_of(place: usize) -> u64 {
    (place as u64).saturating_add(1)
}
