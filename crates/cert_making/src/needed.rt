//! Which clauses of an invariant its proof needs: those by which the bad states are excluded, those by which a step keeps these, and so on.
//! A search finds an invariant that says more than is asked, and what is left is often less than half of it. Contracts see only that the
//! clauses are among those of the invariant: whether they are an invariant is for [`crate::parts`] to show.
//!
//! The hints of derivations tell which clauses were used. [`needed`] is the main function.
ghost use Rattle.std.specs.Prelude.{◌≡◌, All, Contains, IfOk};
ghost use Rattle.sat_clauses.specs.Hints.{HasNoOpposites};
ghost use Rattle.sat_clauses.specs.States.{IsOverBits};

use crate::derive::derive;
use crate::parts::{both, derive_bad, moved};
use base_values::OutOfMemory;
use sat_adviser::Panel;
use sat_clauses::System;
use sat_clauses::clause::ClauseList;
use sat_clauses::recorder::StepsList;
use sat_clauses::step::Step;
use std::alloc::Global;

/// How many clauses are given for a derivation, and how many of them stand before those of the invariant.
#[derive(Clone, Copy)]
struct Givens {
    all: usize,
    others: usize,
}

impl Givens {
    /// These clauses, and then those of an invariant.
    fn of(others: &ClauseList, invariant: &ClauseList) -> Givens {
        Givens {
            all: others.len().saturating_add(invariant.len()),
            others: others.len(),
        }
    }
}

/// Which clauses of an invariant were found to be needed.
#[derive(Drop)]
struct Needs {
    /// For each clause whether it is needed.
    marks: Vec<bool>,
    /// The places of those that were found last, whose own proof was not looked at yet.
    found: Vec<usize>,
}

impl Needs {
    /// None of so many.
    fn none(alloc: Global, count: usize) -> Result<Needs, OutOfMemory> {
        let mut marks = Vec::new(alloc);
        marks.resize(count, false)?;
        Ok(Needs {
            marks,
            found: Vec::new(alloc),
        })
    }

    /// Notes the clause at a place as needed.
    fn need(&mut self, place: usize) -> Result<(), OutOfMemory> {
        if let Some(mark) = self.marks.get_mut(place) {
            if !*mark {
                *mark = true;
                self.found.push(place)?;
            }
        }
        Ok(())
    }

    /// Notes what a step names by its hints: clauses of the invariant, which stand behind the others among those given, and other steps.
    fn read(
        &mut self,
        step: &Step,
        givens: Givens,
        used: &mut Vec<bool>,
    ) -> Result<(), OutOfMemory> {
        for i in 0..step.hints.len() {
            let hint = *step.hints.at(i) as usize;
            if hint > givens.all {
                if let Some(mark) = used.get_mut(hint - givens.all - 1) {
                    *mark = true;
                }
            } else if hint > givens.others {
                self.need(hint - givens.others - 1)?;
            }
        }
        Ok(())
    }

    /// Notes what the used ones of the steps of a derivation name, and those that they use.
    fn read_all(
        &mut self,
        steps: &StepsList,
        givens: Givens,
        mut used: Vec<bool>,
    ) -> Result<(), OutOfMemory> {
        for i in (0..steps.len()).rev() {
            if used.get(i).copied().unwrap_or(false) {
                self.read(steps.at(i), givens, &mut used)?;
            }
        }
        Ok(())
    }

    /// Notes what the derivation needs that shows that the invariant excludes the bad states: what its last step uses.
    fn exclude(
        &mut self,
        invariant: &ClauseList,
        bad: &ClauseList,
        panel: &mut Panel,
    ) -> Result<(), OutOfMemory> {
        let alloc = *self.found.allocator();
        let Some(steps) = derive_bad(alloc, invariant, bad, panel)? else {
            return Ok(());
        };
        let mut used = Vec::new(alloc);
        used.resize(steps.len(), false)?;
        if let Some(last) = used.last_mut() {
            *last = true;
        }
        self.read_all(&steps, Givens::of(bad, invariant), used)
    }

    /// Notes what the derivation needs that shows that steps keep these clauses.
    fn keep(
        &mut self,
        system: &System,
        invariant: &ClauseList,
        clauses: &ClauseList,
        panel: &mut Panel,
    ) -> Result<(), OutOfMemory>
        requires over_bits { All (IsOverBits system.now) clauses.now }
        requires apart { All HasNoOpposites clauses.now }
    {
        let alloc = *self.found.allocator();
        let givens = both(&system.step, invariant)?;
        let goals = moved(alloc, system, clauses)?;
        let Some(steps) = derive(alloc, &givens, &goals, panel)? else {
            return Ok(());
        };
        let mut used = Vec::new(alloc);
        used.resize(steps.len(), true)?;
        self.read_all(&steps, Givens::of(&system.step, invariant), used)
    }

    /// The clauses at the places that were found last, which are no longer the last.
    fn take(&mut self, invariant: &ClauseList) -> Result<ClauseList, OutOfMemory>
        ensures { IfOk result (All (Contains invariant.now)) }
    {
        let alloc = *self.found.allocator();
        let found = std::mem::replace(&mut self.found, Vec::new(alloc));
        picked(alloc, invariant, found.as_slice())
    }

    /// The clauses that are needed, in the order of the invariant.
    fn chosen(&self, invariant: &ClauseList) -> Result<ClauseList, OutOfMemory>
        ensures { IfOk result (All (Contains invariant.now)) }
    {
        let alloc = *self.found.allocator();
        let mut places = Vec::new(alloc);
        for (i, mark) in self.marks.iter().enumerate() {
            if *mark {
                places.push(i)?;
            }
        }
        picked(alloc, invariant, places.as_slice())
    }
}

/// The clauses of a list at these places.
fn picked(alloc: Global, list: &ClauseList, places: &[usize]) -> Result<ClauseList, OutOfMemory>
    ensures { IfOk result (All (Contains list.now)) }
{
    let mut clauses = ClauseList::new(alloc);
    for place in places {
        if *place < list.len() {
            clauses.push(list.at(*place).copy()?)?;
        }
    }
    Ok(clauses)
}

/// The clauses of an invariant of a system that its proof needs, as far as the hints of one proof tell.
pub fn needed(
    alloc: Global,
    system: &System,
    invariant: &ClauseList,
    bad: &ClauseList,
    panel: &mut Panel,
) -> Result<ClauseList, OutOfMemory>
    requires over_bits { All (IsOverBits system.now) invariant.now }
    requires apart { All HasNoOpposites invariant.now }
    ensures { IfOk result (All (Contains invariant.now)) }
{
    let mut needs = Needs::none(alloc, invariant.len())?;
    needs.exclude(invariant, bad, panel)?;
    for _ in 0..invariant.len() {
        let clauses = needs.take(invariant)?;
        if clauses.is_empty() {
            break;
        }
        needs.keep(system, invariant, &clauses, panel)?;
    }
    needs.chosen(invariant)
}
