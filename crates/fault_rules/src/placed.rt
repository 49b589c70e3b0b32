//! Slices with what the rules found of them ([`Placed`]), as the layer above judges and weaves them, and the numbers of
//! items.
ghost use Rattle.std.specs.Prelude.{◌≡◌, ◌+◌, ◌^◌, ◌<◌, IfOk, IsOk};

use base_values::{Name, OutOfMemory};
use fault_instructions::Slice;
use smv_language::Declared;

/// A slice with the module that it extends, what its variable is declared to be, and its item. Its modes
/// are the items after it.
#[derive(Clone, Copy)]
pub struct Placed<'a> {
    pub owner: &'a Name,
    pub slice: &'a Slice,
    pub declared: &'a Declared,
    pub item: u32,
}

/// The item after another one. Instructions that pass the numbers of 32 bits count as want of memory.
pub fn item_after(item: u32) -> Result<u32, OutOfMemory>
    ensures next { IfOk result (λ next. next ≡ item + 1) }
    ensures fits { item + 1 < 2 ^ 32 → IsOk result }
{
    item.checked_add(1).ok_or(OutOfMemory)
}
