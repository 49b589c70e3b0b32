//! The values that a domain lists ([`Members`]), in their declared order, and in rising order, in which one is searched for.
ghost use Rattle.std.specs.Prelude.{◌≡◌, ◌↔◌, IsTrue, IfOk, Contains};

use crate::items::Items;
use crate::memory::OutOfMemory;
use std::marker::Model;

/// Values in declared order, which is what contracts see. The order for the search is made once, here.
#[derive(Drop)]
pub struct Members<T: Ord> {
    listed: Items<T>,
    rising: Vec<T>,
}

impl<T: Ord> Model for Members<T> {
    ghost use Rattle.std.specs.Prelude.{List};
    ghost use Rattle.std.specs.Coded.{coded_list};
    ghost use Rattle.base_values.specs.Rising.{IsRisingOf};

    ghost Value = { List T };

    ghost coded = { coded_list T.code };

    ghost view = { λ members. members.listed };

    ghost invariant = { λ members. IsRisingOf T.cmp members.listed members.rising.items };
}

impl<T: Ord> Members<T> {
    /// The values in declared order.
    pub fn as_slice(&self) -> &[T]
        ensures { result.now ≡ self.now }
    {
        self.listed.as_slice()
    }
}

impl<T: Ord + Copy + Drop> Members<T> {
    /// The values of a list, in its order.
    pub fn new(listed: Items<T>) -> Result<Members<T>, OutOfMemory>
        ensures { IfOk result (λ members. members ≡ listed) }
    {
        let mut rising = Vec::from_slice(listed.allocator(), listed.as_slice())?;
        rising.sort_unstable();
        Ok(Members { listed, rising })
    }

    /// Values of its own, the same in the same order.
    pub fn copy(&self) -> Result<Members<T>, OutOfMemory>
        ensures { IfOk result (λ members. members ≡ self.now) }
    {
        let listed = self.listed.copy()?;
        let rising = Vec::from_slice(*self.rising.allocator(), &self.rising)?;
        Ok(Members { listed, rising })
    }
}

impl Members<i64> {
    /// Whether the number is listed. Takes no memory, and as many steps as the count of members has digits.
    pub fn has(&self, number: &i64) -> bool
        ensures { IsTrue result ↔ Contains self.now number.now }
    {
        self.rising.binary_search(number).is_ok()
    }
}

impl Members<u32> {
    /// Whether the symbol is listed. Takes no memory, and as many steps as the count of members has digits.
    pub fn has(&self, symbol: &u32) -> bool
        ensures { IsTrue result ↔ Contains self.now symbol.now }
    {
        self.rising.binary_search(symbol).is_ok()
    }
}
