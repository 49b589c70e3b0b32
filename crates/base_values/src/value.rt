//! Values, and lists of them by the number of a variable: [`Value`] and [`Valuation`].
ghost use Rattle.std.specs.Prelude.{◌≡◌, ◌<◌, [], ◌∷◌, ◌++◌, length, slice_get, slice_set, Some, IfOk, OnOk, OnErr};

use crate::items::Items;
use crate::memory::OutOfMemory;
use std::alloc::Global;
use std::marker::Model;

/// A truth value, a number, or a symbol by its number in the program's list of symbols, from 0.
#[derive(Clone, Copy, Debug, PartialEq, Eq)]
pub enum Value {
    Bool(bool),
    Num(i64),
    Sym(u32),
}

/// A value for each variable, by the variable's number from 0.
#[derive(Drop)]
pub struct Valuation {
    values: Vec<Value>,
}

impl Model for Valuation {
    ghost use Rattle.std.specs.Prelude.{List};
    ghost use Rattle.base_values.specs.declared.value.Value.{Value as AValue};

    ghost Value = { List AValue };

    ghost view = { λ valuation. valuation.values.items };
}

impl Valuation {
    /// The valuation of no variable, which keeps the allocator.
    pub fn new(alloc: Global) -> Valuation
        ensures { result ≡ [] }
    {
        Valuation {
            values: Vec::new(alloc),
        }
    }

    /// Appends the value of the next variable. Where there is no memory the valuation stays as it was.
    pub fn push(&mut self, value: Value) -> Result<(), OutOfMemory>
        ensures ok { OnOk result (self.new ≡ self.old ++ value ∷ []) }
        ensures err { OnErr result (self.new ≡ self.old) }
    {
        self.values.push(value)?;
        Ok(())
    }

    /// The value of a variable.
    pub fn get(&self, i: usize) -> Value
        requires { i < length self.now }
        ensures { slice_get self.now i ≡ Some result }
    {
        self.values[i]
    }

    /// Gives a variable another value; all others keep theirs.
    pub fn set(&mut self, i: usize, value: Value)
        requires { i < length self.old }
        ensures { self.new ≡ slice_set self.old i value }
    {
        self.values[i] = value;
    }

    /// The number of variables.
    pub fn len(&self) -> usize
        ensures { result ≡ length self.now }
    {
        self.values.len()
    }

    /// A valuation of its own with the same values.
    pub fn copy(&self) -> Result<Valuation, OutOfMemory>
        ensures { IfOk result (λ valuation. valuation ≡ self.now) }
    {
        Ok(Valuation {
            values: Vec::from_slice(*self.values.allocator(), &self.values)?,
        })
    }
}

impl Items<Valuation> {
    /// A list of its own with a copy of each moment.
    pub fn copy(&self) -> Result<Items<Valuation>, OutOfMemory>
        ensures { IfOk result (λ moments. moments ≡ self.now) }
    {
        let mut moments = Items::new(self.allocator());
        for moment in self.as_slice() {
            moments.push(moment.copy()?)?;
        }
        Ok(moments)
    }
}

impl Items<Items<Valuation>> {
    /// A list of its own with a copy of each trace.
    pub fn copy(&self) -> Result<Items<Items<Valuation>>, OutOfMemory>
        ensures { IfOk result (λ traces. traces ≡ self.now) }
    {
        let mut traces = Items::new(self.allocator());
        for trace in self.as_slice() {
            traces.push(trace.copy()?)?;
        }
        Ok(traces)
    }
}
