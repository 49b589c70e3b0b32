//! Tests of fault sets, each a slice of numbers of faults.
//!
//! [`is_contained`], [`is_rising`] and [`stands_before`] are the main functions: which set contains which, whether
//! a slice is in order and without repetition, and the order in which sets are listed. Each answers exactly what
//! its definition computes.
ghost use Rattle.std.specs.Prelude.{◌≡◌, ◌↔◌, IsTrue};
ghost use Rattle.cut_right_laws.specs.Sets.{IsRising, has_number as has, is_contained as contained, is_before_in_order};
ghost use Rattle.cut_right_laws.specs.Sets.{stands_before as before};
ghost use Rattle.cut_sets.specs.Tests.{is_rising as rising, are_apart as apart};

/// Whether the number is one of the set's.
pub fn has_number(set: &[u32], number: u64) -> bool
    ensures { result ≡ has set.now number }
{
    set.iter().any(|i| u64::from(*i) == number)
}

/// Whether each number of the one set is one of the other's.
pub fn is_contained(set: &[u32], other: &[u32]) -> bool
    ensures { result ≡ contained set.now other.now }
{
    set.iter().all(|i| has_number(other, u64::from(*i)))
}

/// Whether neither set contains the other.
pub fn are_apart(set: &[u32], other: &[u32]) -> bool
    ensures { result ≡ apart set.now other.now }
{
    !is_contained(set, other) && !is_contained(other, set)
}

/// Whether each number is greater than the one before it.
pub fn is_rising(set: &[u32]) -> bool
    ensures { IsTrue result ↔ IsRising set.now }
{
    rises(set)
}

// The same, as it is computed from the front on.
#[tactic(auto, using(crate::proofs::SetLemmas::rising_more, crate::proofs::SetLemmas::rising_none, crate::proofs::SetLemmas::rising_one))]
fn rises(set: &[u32]) -> bool
    ensures { result ≡ rising set.now }
{
    for k in 1..set.len() {
        if set[k] <= set[k - 1] {
            return false;
        }
    }
    true
}

// Whether the one set comes before the other by their numbers.
#[tactic(auto, using(crate::proofs::SetLemmas::before_steps))]
fn is_before(set: &[u32], other: &[u32]) -> bool
    ensures { result ≡ is_before_in_order set.now other.now }
{
    for (k, j) in other.iter().enumerate() {
        if k >= set.len() {
            return true;
        }
        if set[k] != *j {
            return set[k] < *j;
        }
    }
    false
}

/// Whether the one set stands before the other: smaller ones first, and those of one size by their numbers.
pub fn stands_before(set: &[u32], other: &[u32]) -> bool
    ensures { result ≡ before set.now other.now }
{
    if set.len() == other.len() {
        return is_before(set, other);
    }
    set.len() < other.len()
}
