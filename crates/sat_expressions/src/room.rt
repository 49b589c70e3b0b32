//! Room for more gates. A circuit that would pass the highest variable, and a word that is wider than the
//! arithmetic of words takes, are told as want of memory, and only they are (`fits`). No list of an encodable model
//! comes to the first, where its inputs have at most 2^30 bits and its top event, faults and size are within their
//! limits: its circuit ends with room (`lists_use_states` of `sat_encoding_laws`), and circuits only grow.
//!
//! Two things are open. That the inputs of an accepted program have at most 2^30 bits: an input has at most 65, and
//! `flatten` says of the model that it makes that it has at most `MOST_VARIABLES` (`closed`), but no definition carries that
//! number to what is encoded. And that no word comes to the second, as each word of an expression that breaks no rule
//! of kinds would have at most 34 bits; the law says 66.
ghost use Rattle.std.specs.Prelude.{◌≤◌, ◌-◌, ◌^◌, length, IsOk, OnOk};

use base_values::OutOfMemory;
use sat_circuits::gates::Gates;
use sat_circuits::word::Word;

/// Any one operation still has its variables.
pub fn check_room(g: &Gates) -> Result<(), OutOfMemory>
    ensures room { OnOk result (g.now.free ≤ 2 ^ 31 - 20000) }
    ensures fits { g.now.free ≤ 2 ^ 31 - 20000 → IsOk result }
    ensures least { 2 ≤ g.now.free }
{
    if g.free() <= 2147463648 {
        Ok(())
    } else {
        Err(OutOfMemory)
    }
}

/// The word is no wider than arithmetic takes.
pub fn check_narrow(w: &Word) -> Result<(), OutOfMemory>
    ensures narrow { OnOk result (length w.now ≤ 34) }
    ensures fits { length w.now ≤ 34 → IsOk result }
{
    if w.len() <= 34 {
        Ok(())
    } else {
        Err(OutOfMemory)
    }
}

/// Words of this width are no wider than arithmetic takes.
pub fn check_width(width: u32) -> Result<(), OutOfMemory>
    ensures narrow { OnOk result (width ≤ 34) }
    ensures fits { width ≤ 34 → IsOk result }
{
    if width <= 34 {
        Ok(())
    } else {
        Err(OutOfMemory)
    }
}
