//! The values that a variable may have.
//! A [`Domain`] answers which values it has ([`Domain::has`]) and how many different ones ([`Domain::count`]). The words of
//! its contracts stand in `specs/Domains.antt`.
ghost use Rattle.std.specs.Prelude.{◌≡◌, ◌↔◌, IsTrue, IfOk, nat_eq};
ghost use Rattle.std.specs.Ordering.{int_eq};
ghost use Rattle.base_values.specs.Domains.{Has, IsCountable, count_of, different};

use crate::items::Items;
use crate::members::Members;
use crate::memory::OutOfMemory;
use crate::value::Value;

/// A list of numbers.
pub type NumList = Items<i64>;

/// A list of symbols, each by its number.
pub type SymList = Items<u32>;

/// The values that a variable may have: the two truth values, the numbers from `lo` to `hi`, or the
/// listed ones.
#[derive(Drop)]
pub enum Domain {
    Boolean,
    Range { lo: i64, hi: i64 },
    Numbers(Members<i64>),
    Symbols(Members<u32>),
}

impl Domain {
    /// A domain of its own with the same values.
    pub fn copy(&self) -> Result<Domain, OutOfMemory>
        ensures { IfOk result (λ domain. domain ≡ self.now) }
    {
        match self {
            Domain::Boolean => Ok(Domain::Boolean),
            Domain::Range { lo, hi } => Ok(Domain::Range { lo: *lo, hi: *hi }),
            Domain::Numbers(numbers) => Ok(Domain::Numbers(numbers.copy()?)),
            Domain::Symbols(symbols) => Ok(Domain::Symbols(symbols.copy()?)),
        }
    }

    /// Whether the value is one of the domain's. Takes no memory.
    pub fn has(&self, value: Value) -> bool
        ensures { IsTrue result ↔ Has self.now value }
    {
        match (self, value) {
            (Domain::Boolean, Value::Bool(_)) => true,
            (Domain::Range { lo, hi }, Value::Num(number)) => *lo <= number && number <= *hi,
            (Domain::Numbers(numbers), Value::Num(number)) => numbers.has(&number),
            (Domain::Symbols(symbols), Value::Sym(symbol)) => symbols.has(&symbol),
            _ => false,
        }
    }

    /// The number of the domain's values; a value that is listed twice counts once. Takes no memory.
    pub fn count(&self) -> u64
        requires { IsCountable self.now }
        ensures { result ≡ count_of self.now }
    {
        match self {
            Domain::Boolean => 2,
            Domain::Range { lo, hi } => (*hi - *lo + 1) as u64,
            Domain::Numbers(numbers) => different_numbers(numbers.as_slice()),
            Domain::Symbols(symbols) => different_symbols(symbols.as_slice()),
        }
    }
}

/// How many different numbers there are.
#[tactic(auto, using(crate::proofs::Different::counted))]
fn different_numbers(numbers: &[i64]) -> u64
    ensures { result ≡ different int_eq numbers.now }
{
    let mut count: u64 = 0;
    for (i, number) in numbers.iter().enumerate() {
        let later = numbers[i + 1..].contains(number);
        count += u64::from(!later);
    }
    count
}

/// How many different symbols there are.
#[tactic(auto, using(crate::proofs::Different::counted))]
fn different_symbols(symbols: &[u32]) -> u64
    ensures { result ≡ different nat_eq symbols.now }
{
    let mut count: u64 = 0;
    for (i, symbol) in symbols.iter().enumerate() {
        let later = symbols[i + 1..].contains(symbol);
        count += u64::from(!later);
    }
    count
}
