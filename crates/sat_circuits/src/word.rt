//! Words of literals: numbers in two's complement, bit by bit.
//!
//! [`Word`] is such a list, the least significant literal first and the sign last. [`fitted`] brings it to another width, which
//! keeps its number where it is no narrower. Nothing here makes a gate.
ghost use Rattle.std.specs.Prelude.{◌≡◌, ◌<◌, length, IfOk, map};
ghost use Rattle.sat_clauses.specs.Literal.{opposite};
ghost use Rattle.sat_circuits.specs.Words.{fit, sign_of, zeros};

use crate::gates::Gates;
use base_values::{Items, OutOfMemory};
use sat_clauses::lit::Lit;
use std::alloc::Global;

/// A list of literals, the least significant first, the last one the sign: a number in two's
/// complement, bit by bit.
pub type Word = Items<Lit>;

/// The word at `width` bits: its lowest literals, or its sign repeated.
pub fn fitted(alloc: Global, word: &Word, width: u32) -> Result<Word, OutOfMemory>
    requires { 0 < length word.now }
    ensures { IfOk result (λ w. w ≡ fit width word.now) }
{
    let last = word.len() - 1;
    let mut fitted = Items::new(alloc);
    for i in 0..width as usize {
        fitted.push(*word.at(i.min(last)))?;
    }
    Ok(fitted)
}

/// The word of the negated literals.
pub(crate) fn opposites(alloc: Global, word: &Word) -> Result<Word, OutOfMemory>
    ensures { IfOk result (λ w. w ≡ map opposite word.now) }
{
    let mut opposites = Items::new(alloc);
    for lit in word.as_slice() {
        opposites.push(lit.neg())?;
    }
    Ok(opposites)
}

/// The sign of a word.
pub(crate) fn sign(word: &Word) -> Lit
    requires { 0 < length word.now }
    ensures { result ≡ sign_of word.now }
{
    *word.at(word.len() - 1)
}

/// The word of `n` literals that are always false.
pub(crate) fn falses(alloc: Global, gates: &Gates, n: usize) -> Result<Word, OutOfMemory>
    ensures items { IfOk result (λ w. w ≡ zeros n) }
    ensures least { 1 < gates.now.free }
{
    let off = gates.constant(false);
    let mut word = Items::new(alloc);
    for _ in 0..n {
        word.push(off)?;
    }
    Ok(word)
}
