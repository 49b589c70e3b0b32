//! Words of constants: the two's complement of a number, each bit the constant true or false.
//!
//! [`number_word`] is the main function. It takes the fewest literals that hold the number, and [`number_at`] the same
//! at a given width. No gate is made.
ghost use Rattle.std.specs.Prelude.{◌≡◌, ◌≤◌, length, true, IfOk};
ghost use Rattle.sat_clauses.specs.Models.{TotalAssignment};
ghost use Rattle.sat_circuits.specs.Words.{IsWordOf, fit, word_value};
ghost use Rattle.sat_circuits.specs.Numbers.{number_word};

use crate::gates::Gates;
use crate::word::{Word, fitted};
use base_values::{Items, OutOfMemory};
use std::alloc::Global;

/// The word of a number, at the fewest literals that hold it, each of them a constant.
pub fn number_word(alloc: Global, g: &Gates, n: i64) -> Result<Word, OutOfMemory>
    ensures exact { IfOk result (λ w. w ≡ number_word n) }
    ensures value { IfOk result (λ w. (v : TotalAssignment) → v 1 ≡ true → word_value v w ≡ n) }
    ensures word { IfOk result (IsWordOf g.now) }
{
    let negative = n < 0;
    let mut rest = if negative { (-1 - n) as u64 } else { n as u64 };
    let mut word = Items::new(alloc);
    while rest > 0 {
        word.push(g.constant((rest % 2 == 1) != negative))?;
        rest /= 2;
    }
    word.push(g.constant(negative))?;
    Ok(word)
}

/// The word of a number at `width` bits.
pub fn number_at(alloc: Global, g: &Gates, n: i64, width: u32) -> Result<Word, OutOfMemory>
    requires { 1 ≤ width }
    ensures exact { IfOk result (λ w. w ≡ fit width (number_word n)) }
    ensures word { IfOk result (IsWordOf g.now) }
    ensures long { IfOk result (λ w. length w ≡ width) }
{
    // The variable of the constants is below the next free one.
    let _ = g.constant(true);
    let shortest = number_word(alloc, g, n)?;
    let word = fitted(alloc, &shortest, width)?;
    Ok(word)
}
