//! Finds the item of a number in a file, by its tokens.
//!
//! The main function is [`find_item`]; which tokens begin an item is decided in `counting`.
ghost use Rattle.std.specs.Prelude.{◌≡◌, ◌≤◌, length, slice_range};

use crate::counting::{Counter, ItemRole};
use crate::finding::ItemsKind;
use smv_lexer::{LexFault, OutOfMemory, Token, tokens};
use std::alloc::Global;

/// Where an item stands in its file, in bytes from 0.
#[derive(Clone, Copy)]
pub(crate) struct ItemExtent {
    pub(crate) start: usize,
    pub(crate) end: usize,
}

/// The item of a number, from 1, where the file has tokens and so many items.
pub(crate) fn find_item(
    alloc: Global,
    bytes: &[u8],
    items: ItemsKind,
    number: u64,
) -> Result<Option<ItemExtent>, OutOfMemory> {
    if bytes.len() > u32::MAX as usize {
        return Ok(None);
    }
    match tokens(alloc, bytes) {
        Ok(list) => Ok(item_among(bytes, list.as_slice(), items, number)),
        Err(LexFault::OutOfMemory) => Err(OutOfMemory),
        Err(_) => Ok(None),
    }
}

/// The item of a number among the tokens of a file: from its first token to its last one.
fn item_among(bytes: &[u8], tokens: &[Token], items: ItemsKind, number: u64) -> Option<ItemExtent> {
    let mut counter = Counter::new(items);
    let mut count: u64 = 0;
    let mut found = None;
    for token in tokens {
        let start = token.start as usize;
        let end = token.end as usize;
        let role = counter.take(items, between(bytes, start, end));
        if matches!(role, ItemRole::First) {
            count = count.saturating_add(1);
        }
        if count == number && !matches!(role, ItemRole::Outer) {
            found = Some(grown(found, start, end));
        }
    }
    found
}

/// The item so far, with one token more.
fn grown(found: Option<ItemExtent>, start: usize, end: usize) -> ItemExtent {
    match found {
        Some(item) => ItemExtent {
            start: item.start,
            end,
        },
        None => ItemExtent { start, end },
    }
}

/// The bytes between two places, and none where there are none.
pub(crate) fn between(bytes: &[u8], start: usize, end: usize) -> &[u8]
    ensures { start ≤ end → end ≤ length bytes.now → result.now ≡ slice_range bytes.now start end }
{
    if start <= end && end <= bytes.len() {
        &bytes[start..end]
    } else {
        &[]
    }
}
