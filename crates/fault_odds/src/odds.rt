//! The units of faults, and the bound of a set of them.
//!
//! [`OddsList`] has the units of each fault, and [`bound`] is the product of a set's units, rounded up at each factor.
ghost use Rattle.std.specs.Prelude.{◌≡◌, ◌≤◌, ◌<◌, ◌-◌, ◌*◌, [], ◌∷◌, ◌++◌, All, length, slice_index_or, IfOk, OnOk, OnErr};
ghost use Rattle.std.specs.Int.{div_ceil};
ghost use Rattle.fault_odds.specs.Units.{one_in_units};
ghost use Rattle.fault_odds.specs.Bounds.{Bounds, bound_of, multiplied, units_in};
ghost use Rattle.fault_odds.specs.Laws.{AreAtMostOne};

use base_values::OutOfMemory;
use std::alloc::Global;
use std::marker::Model;

/// How many units make one.
pub(crate) const ONE: u128 = 1_000_000_000_000_000_000;

/// The units of each fault, in fault order: each at most 10^18, which is one.
#[derive(Drop)]
pub struct OddsList {
    units: Vec<u64>,
}

impl Model for OddsList {
    ghost use Rattle.std.specs.Prelude.{List, ℕ};

    ghost Value = { List ℕ };

    ghost use Rattle.fault_odds.specs.Laws.{AreAtMostOne};

    ghost view = { λ odds. odds.units.items };

    ghost invariant = { λ odds. AreAtMostOne odds.units.items };
}

impl OddsList {
    /// No units, for no fault.
    pub fn new(alloc: Global) -> OddsList
        ensures { result ≡ [] }
    {
        OddsList {
            units: Vec::new(alloc),
        }
    }

    /// Appends the units of the next fault. Where there is no memory the list stays as it was.
    #[tactic(auto, using(crate::proofs::OddsLemmas::more_at_most_one))]
    pub fn push(&mut self, units: u64) -> Result<(), OutOfMemory>
        requires { units ≤ one_in_units }
        ensures ok { OnOk result (self.new ≡ self.old ++ units ∷ []) }
        ensures err { OnErr result (self.new ≡ self.old) }
    {
        self.units.push(units)?;
        Ok(())
    }

    /// A list of its own with the same units.
    pub fn copy(&self) -> Result<OddsList, OutOfMemory>
        ensures { IfOk result (λ odds. odds ≡ self.now) }
    {
        Ok(OddsList {
            units: Vec::from_slice(*self.units.allocator(), &self.units)?,
        })
    }

    /// For how many faults there are units.
    pub fn len(&self) -> usize
        ensures { result ≡ length self.now }
    {
        self.units.len()
    }
}

/// The bound of a set's probability in units: the first fault's units, multiplied by each further one's, each time
/// divided by 10^18 and rounded up; 10^18 for no fault. Takes no memory.
pub fn bound(odds: &OddsList, set: &[u32]) -> u128
    requires named { All (λ i. (0 < i) × (i ≤ length odds.now)) set.now }
    ensures bound { result ≡ bound_of (units_in odds.now set.now) }
    // So it is not below the exact product, and above it by at most one unit for each fault but the first.
    ensures bounds { Bounds (units_in odds.now set.now) result }
    ensures small { result ≤ one_in_units }
{
    bounded(&odds.units, set)
}

/// The bound by the units of all faults.
fn bounded(units: &[u64], set: &[u32]) -> u128
    requires small { AreAtMostOne units.now }
    requires named { All (λ i. (0 < i) × (i ≤ length units.now)) set.now }
    ensures bound { result ≡ bound_of (units_in units.now set.now) }
    ensures bounds { Bounds (units_in units.now set.now) result }
    ensures small { result ≤ one_in_units }
{
    rounded_product(units, set)
}

/// The product of a set's units, rounded up at each factor.
fn rounded_product(units: &[u64], set: &[u32]) -> u128
    requires small { AreAtMostOne units.now }
    requires named { All (λ i. (0 < i) × (i ≤ length units.now)) set.now }
    ensures { result ≡ bound_of (units_in units.now set.now) }
{
    let [first, more @ ..] = set else {
        return ONE;
    };
    multiplied_by(units, u128::from(of_fault(units, *first)), more)
}

/// A number of units, multiplied by the units of each fault in turn.
fn multiplied_by(units: &[u64], start: u128, faults: &[u32]) -> u128
    requires units { AreAtMostOne units.now }
    requires named { All (λ i. (0 < i) × (i ≤ length units.now)) faults.now }
    requires small { start ≤ one_in_units }
    ensures { result ≡ multiplied start (units_in units.now faults.now) }
{
    let mut product = start;
    for fault in faults {
        product = times(product, of_fault(units, *fault));
    }
    product
}

/// The units of the fault of a number from 1.
#[tactic(auto, using(crate::proofs::OddsLemmas::at_most_one))]
fn of_fault(units: &[u64], number: u32) -> u64
    requires small { AreAtMostOne units.now }
    requires some { 0 < number }
    requires within { number ≤ length units.now }
    ensures units { result ≡ slice_index_or units.now (number - 1) 0 }
    ensures small { result ≤ one_in_units }
{
    units[number as usize - 1]
}

/// A product of units, divided by 10^18 and rounded up.
#[tactic(auto, using(crate::proofs::OddsLemmas::product_small))]
fn times(units: u128, more: u64) -> u128
    requires units { units ≤ one_in_units }
    requires more { more ≤ one_in_units }
    ensures product { result ≡ div_ceil (units * more) one_in_units }
    ensures small { result ≤ one_in_units }
{
    (units * u128::from(more)).div_ceil(ONE)
}
