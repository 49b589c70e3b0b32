//! The variables that slices affect, each with its module: a variable is affected once.
ghost use Rattle.std.specs.Prelude.{◌≡◌, [], OnOk};
ghost use Rattle.fault_rules.specs.KeyedLists.{is_pair_among, with_pair};

use base_values::{Name, OutOfMemory};
use indexmap::IndexSet;
use std::alloc::Global;
use std::marker::Model;

/// The variables that slices affect, each with its module.
#[derive(Drop)]
pub(crate) struct Targets<'a> {
    set: IndexSet<(&'a [u8], &'a [u8])>,
}

impl<'a> Model for Targets<'a> {
    ghost use Rattle.std.specs.Prelude.{List, ℕ, map};

    ghost Value = { List (List ℕ × List ℕ) };

    ghost view = { λ targets. map (λ pair. (pair.0.now, pair.1.now)) targets.set.keys };
}

impl<'a> Targets<'a> {
    /// No variable.
    pub(crate) fn new(alloc: Global) -> Targets<'a>
        ensures { result ≡ [] }
    {
        Targets {
            set: IndexSet::new(alloc),
        }
    }

    /// Whether the variable of the module is one of these.
    pub(crate) fn has(&self, owner: &'a Name, target: &'a Name) -> bool
        ensures { result ≡ is_pair_among self.now (owner.now, target.now) }
    {
        self.set.contains(&(owner.text(), target.text()))
    }

    /// Adds a variable of a module.
    pub(crate) fn add(&mut self, owner: &'a Name, target: &'a Name) -> Result<(), OutOfMemory>
        ensures { OnOk result (self.new ≡ with_pair self.old (owner.now, target.now)) }
    {
        self.set.insert((owner.text(), target.text()))?;
        Ok(())
    }
}
