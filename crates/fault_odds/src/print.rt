//! The text of bounds and of their sum.
//!
//! The main function is [`print_odds`].
ghost use Rattle.std.specs.Prelude.{◌≡◌, ◌+◌, ◌-◌, ◌++◌, ◌<◌, ◌≤◌, ◌^◌, codes, decimal, length, map, All, IfOk, OnOk};
ghost use Rattle.fault_odds.specs.Bounds.{bound_sum, slack_of, units_in};
ghost use Rattle.fault_odds.specs.OddsText.{last_digits, units_text, odds_lines, odds_text};

use crate::odds::{ONE, OddsList, bound};
use base_values::{ByteList, FaultSet, OutOfMemory, SetList};
use std::alloc::Global;

/// A line for each set with its bound, and a line with the sum of the bounds and by how many units it may be above the
/// sum of the exact products.
#[tactic(auto, using(crate::proofs::OddsLemmas::text_rules))]
pub fn print_odds(alloc: Global, sets: &SetList, odds: &OddsList) -> Result<Vec<u8>, OutOfMemory>
    requires named { All (All (λ i. (0 < i) × (i ≤ length odds.now))) sets.now }
    ensures text { IfOk result (λ text. text.items ≡ odds_text odds.now sets.now) }
{
    let mut text = ByteList::new(alloc);
    append_lines(alloc, &mut text, sets.as_slice(), odds)?;
    let sum = sum_of(sets.as_slice(), odds);
    let slack = slack_of_sets(sets.as_slice(), odds);
    append_sum(alloc, &mut text, sum, slack)?;
    Ok(text.into_vec())
}

/// Appends a line for each set.
#[tactic(auto, using(crate::proofs::OddsLemmas::text_rules))]
fn append_lines(
    alloc: Global,
    text: &mut ByteList,
    sets: &[FaultSet],
    odds: &OddsList,
) -> Result<(), OutOfMemory>
    requires named { All (All (λ i. (0 < i) × (i ≤ length odds.now))) sets.now }
    ensures { OnOk result (text.new ≡ text.old ++ odds_lines 1 (map (units_in odds.now) sets.now)) }
{
    for (i, set) in sets.iter().enumerate() {
        append_line(alloc, text, i + 1, bound(odds, set.as_slice()))?;
    }
    Ok(())
}

/// Appends the line of a set's bound.
#[tactic(auto, using(crate::proofs::OddsLemmas::text_rules))]
fn append_line(
    alloc: Global,
    text: &mut ByteList,
    number: usize,
    bound: u128,
) -> Result<(), OutOfMemory>
    ensures { OnOk result (text.new ≡ text.old ++ (codes "odds " ++ (decimal number ++ (codes " " ++ (units_text bound ++ codes "\n"))))) }
{
    text.append(b"odds ")?;
    text.append_number(alloc, number as u64)?;
    text.append(b" ")?;
    append_units(alloc, text, bound)?;
    text.append(b"\n")
}

/// Appends the line of the sum.
#[tactic(auto, using(crate::proofs::OddsLemmas::text_rules))]
fn append_sum(alloc: Global, text: &mut ByteList, sum: u128, slack: u128) -> Result<(), OutOfMemory>
    ensures { OnOk result (text.new
        ≡ text.old ++ (codes "sum " ++ (units_text sum ++ (codes " within " ++ (decimal slack ++ codes "\n"))))) }
{
    text.append(b"sum ")?;
    append_units(alloc, text, sum)?;
    text.append(b" within ")?;
    append_wide(alloc, text, slack)?;
    text.append(b"\n")
}

/// The sum of the sets' bounds.
fn sum_of(sets: &[FaultSet], odds: &OddsList) -> u128
    requires named { All (All (λ i. (0 < i) × (i ≤ length odds.now))) sets.now }
    ensures { result ≡ bound_sum (map (units_in odds.now) sets.now) }
{
    let mut sum: u128 = 0;
    for set in sets {
        sum += bound(odds, set.as_slice());
    }
    sum
}

/// By how many units the sum of the bounds may be above: for each set its size less one.
fn slack_of_sets(sets: &[FaultSet], odds: &OddsList) -> u128
    ensures { result ≡ slack_of (map (units_in odds.now) sets.now) }
{
    let mut slack: u128 = 0;
    for set in sets {
        slack += u128::from(slack_of_set(set));
    }
    slack
}

/// A set's size less one, or 0 for the empty set.
fn slack_of_set(set: &FaultSet) -> u64
    ensures slack { result ≡ length set.now - 1 }
    ensures small { result < 2 ^ 64 }
{
    set.len().saturating_sub(1) as u64
}

/// Appends a number of units: its whole part, a point, and eighteen digits.
#[tactic(auto, using(crate::proofs::OddsLemmas::text_rules))]
fn append_units(alloc: Global, text: &mut ByteList, units: u128) -> Result<(), OutOfMemory>
    ensures { OnOk result (text.new ≡ text.old ++ units_text units) }
{
    append_wide(alloc, text, units / ONE)?;
    text.append(b".")?;
    append_last_digits(text, 18, units)
}

/// Appends so many last decimal digits of a number.
#[tactic(auto, using(crate::proofs::OddsLemmas::text_rules, crate::proofs::OddsLemmas::digits_more))]
fn append_last_digits(text: &mut ByteList, count: u32, number: u128) -> Result<(), OutOfMemory>
    ensures { OnOk result (text.new ≡ text.old ++ last_digits count number) }
{
    if count == 0 {
        return Ok(());
    }
    append_last_digits(text, count - 1, number / 10)?;
    text.push(b'0' + (number % 10) as u8)
}

/// Appends the digits of a large number.
fn append_wide(alloc: Global, text: &mut ByteList, number: u128) -> Result<(), OutOfMemory>
    ensures { OnOk result (text.new ≡ text.old ++ decimal number) }
{
    let digits = format!(in alloc; "{number}")?;
    text.append(digits.as_bytes())
}
