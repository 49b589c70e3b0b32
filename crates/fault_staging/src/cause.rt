//! Common causes.
//!
//! A [`Cause`] is as its file gives it, but that the faults that it strikes go by their numbers.
ghost use Rattle.std.specs.Prelude.{◌≡◌, IfOk};

use base_values::{FaultSet, Items, Name, OutOfMemory};

/// Common causes, in the order of their file.
pub type CauseList = Items<Cause>;

/// A common cause: its name, from how many steps after its moment to how many its window goes, and the faults that
/// it strikes, by their numbers from 1.
#[derive(Drop)]
pub struct Cause {
    pub name: Name,
    pub from: u32,
    pub to: u32,
    pub strikes: FaultSet,
}

impl Cause {
    /// A copy of its own, which is the same cause.
    pub fn copy(&self) -> Result<Cause, OutOfMemory>
        ensures { IfOk result (λ made. made ≡ self.now) }
    {
        Ok(Cause {
            name: self.name.copy()?,
            from: self.from,
            to: self.to,
            strikes: self.strikes.copy()?,
        })
    }
}
