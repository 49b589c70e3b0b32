//! Sets of faults, each a rising list of numbers from 1 on, and the list of those found so far.
ghost use Rattle.std.specs.Prelude.{◌≡◌, ◌≤◌, ◌-◌, length, OnOk};
ghost use Rattle.cut_search_laws.specs.FoundSets.{without, placed, with_found};
ghost use Rattle.cut_search.specs.Places.{place_of};

use base_values::OutOfMemory;
pub use base_values::{FaultSet, MomentList, SetList, TraceList};
use cut_sets::{is_contained, stands_before};
use std::marker::Model;

/// A set of faults, and a trace that has failed exactly it.
#[derive(Drop)]
pub struct WitnessedSet {
    set: FaultSet,
    trace: MomentList,
}

impl Model for WitnessedSet {
    ghost use Rattle.std.specs.Prelude.{List};
    ghost use Rattle.base_values.specs.declared.value.Value.{Value as AValue};
    ghost use Rattle.cut_search_laws.specs.FoundSets.{Found as FoundSet};

    ghost Value = { FoundSet (List (List AValue)) };

    ghost view = { λ f. record { set = f.set; trace = f.trace } };
}

impl WitnessedSet {
    /// A set and its trace.
    pub fn new(set: FaultSet, trace: MomentList) -> WitnessedSet
        ensures set { result.set ≡ set }
        ensures trace { result.trace ≡ trace }
    {
        WitnessedSet { set, trace }
    }

    /// The set.
    pub fn set(&self) -> &[u32]
        ensures { result.now ≡ self.now.set }
    {
        self.set.as_slice()
    }

    /// The number of the trace's steps, one less than that of its moments.
    pub fn steps(&self) -> usize
        ensures { result ≡ length self.now.trace - 1 }
    {
        self.trace.len().saturating_sub(1)
    }

    /// The set and the trace.
    pub fn into_parts(self) -> (FaultSet, MomentList)
        ensures set { result.0 ≡ self.set }
        ensures trace { result.1 ≡ self.trace }
    {
        let WitnessedSet { set, trace } = self;
        (set, trace)
    }
}

/// Where a new set stands in a list of sets.
#[tactic(auto, using(crate::proofs::SetLemmas::place_steps))]
fn place_in(found: &[WitnessedSet], set: &[u32]) -> usize
    ensures place { result ≡ place_of set.now found.now }
    ensures within { result ≤ length found.now }
{
    for (k, f) in found.iter().enumerate() {
        if stands_before(set, f.set()) {
            return k;
        }
    }
    found.len()
}

/// Without the sets that contain this one.
fn take_out(found: &mut Vec<WitnessedSet>, set: &[u32])
    ensures { found.new.items ≡ without set.now found.old.items }
{
    found.retain(|f| !is_contained(set, f.set()));
}

/// Puts a new set at its place.
#[tactic(auto, using(crate::proofs::SetLemmas::placed_at))]
fn put_in(found: &mut Vec<WitnessedSet>, new: WitnessedSet) -> Result<(), OutOfMemory>
    ensures { OnOk result (found.new.items ≡ placed new found.old.items) }
{
    let at = place_in(found, new.set());
    found.insert(at, new)?;
    Ok(())
}

/// Takes out the sets that contain a new one, and puts it at its place.
pub fn list_found(found: &mut Vec<WitnessedSet>, new: WitnessedSet) -> Result<(), OutOfMemory>
    ensures { OnOk result (found.new.items ≡ with_found new found.old.items) }
{
    take_out(found, new.set());
    put_in(found, new)
}
