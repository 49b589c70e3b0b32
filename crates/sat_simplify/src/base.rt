//! The clause base: the clauses with their occurrence lists, and the changes that say the same of the places.
//!
//! What always holds is that each clause that stands is noted at each of its literals (`IsSound`): so elimination finds
//! all clauses of a variable. [`Base::eliminate`] and [`Base::propagate`] are the main calls. When which call pays is
//! asked elsewhere: each of them says the same of the places whenever it is called.
ghost use Rattle.std.specs.Prelude.{◌≡◌, ◌^◌, ◌↔◌, ◌<◌, ◌++◌, ◌∷◌, [], IsOk, IfOk, OnOk, IfSome, IsTrue, Some, map};
ghost use Rattle.std.specs.Option.{option_to_list};
ghost use Rattle.sat_simplify.specs.SamePlaces.{IsOwn};
ghost use Rattle.sat_simplify.specs.Changes.{slot_at, resolvents_in};
ghost use Rattle.sat_simplify.specs.Slots.{IsSimpler, AreNoted, standing as stands};
ghost use Rattle.sat_simplify.specs.ClauseBase.{IsSound, Becomes, Adds, AddsAll, TakesOut, Assigns, Covers};

use crate::lists::{close_up, standing};
use crate::occurrences::Occurrences;
use crate::resolving::resolve_all;
use crate::slots::{cover_each, drop_each, gather, shrink_each, slot_covered};
use crate::tally::Tally;
use base_values::OutOfMemory;
use sat_clauses::clause::{Clause, ClauseList};
use sat_clauses::lit::Lit;
use std::alloc::Global;

/// The most products of occurrences of a variable and of its negation with which it is eliminated.
pub const PRODUCT: usize = 16;

/// The most occurrences of a literal at which subsumed clauses are looked for.
pub const LOOKED_AT: usize = 64;

// The number of a slot. A base with 2^32 slots would take 171 GB.
fn number_of(slot: usize) -> Result<u32, OutOfMemory>
    ensures same { IfOk result (λ number. number ≡ slot) }
    ensures fits { slot < 2 ^ 32 → IsOk result }
{
    u32::try_from(slot).map_err(|_too_large| OutOfMemory)
}

/// Clauses with their occurrence lists.
#[derive(Drop)]
pub struct Base {
    alloc: Global,
    /// The highest place.
    pub places: u64,
    /// The clauses, or none where one was taken out.
    pub slots: Vec<Option<Clause>>,
    /// The slots of each literal.
    pub occurrences: Occurrences,
    /// Slots of clauses of one literal, which have still to be propagated.
    pub units: Vec<usize>,
    // What the passes ask.
    tally: Tally,
}

impl Base {
    /// No clause.
    pub fn new(alloc: Global, places: u64) -> Base
        ensures sound { IsSound result }
        ensures places { result.places ≡ places }
        ensures slots { result.slots.items ≡ [] }
    {
        Base {
            alloc,
            places,
            slots: Vec::new(alloc),
            occurrences: Occurrences::new(alloc),
            units: Vec::new(alloc),
            tally: Tally::new(alloc),
        }
    }

    /// Whether the variable is no place.
    pub fn is_own(&self, var: u64) -> bool
        ensures { IsTrue result ↔ IsOwn self.now.places var }
    {
        var < 2 || self.places < var
    }

    // How many clauses have a literal, counted up to a limit.
    fn count(&self, lit: Lit, limit: usize) -> usize {
        self.tally.count(lit).min(limit)
    }

    /// How many clauses have the variable of a literal, each sign counted up to a limit.
    pub fn uses(&self, lit: Lit, limit: usize) -> usize {
        self.count(lit, limit)
            .saturating_add(self.count(lit.neg(), limit))
    }

    // Whether the variable of a literal has so few clauses that eliminating it is tried.
    fn is_rare(&self, lit: Lit) -> bool {
        let limit = PRODUCT.saturating_add(1);
        let with = self.count(lit, limit);
        with.saturating_mul(self.count(lit.neg(), limit)) <= PRODUCT
    }

    /// Appends a clause.
    #[tactic(auto, using(crate::proofs::SlotLaws::noted_pushed))]
    pub fn add(&mut self, lits: &[Lit]) -> Result<(), OutOfMemory>
        requires { IsSound self.old }
        ensures { OnOk result (Adds self.old self.new lits.now) }
    {
        let clause = Clause::from_lits(self.alloc, lits)?;
        let slot = number_of(self.slots.len())?;
        self.occurrences.note_clause(lits, slot)?;
        self.tally.add_each(lits)?;
        self.slots.push(Some(clause))?;
        Ok(())
    }

    // Appends a clause; one of one literal is to be propagated.
    fn add_one(&mut self, lits: &[Lit]) -> Result<(), OutOfMemory>
        requires { IsSound self.old }
        ensures { OnOk result (Adds self.old self.new lits.now) }
    {
        if lits.len() == 1 {
            self.units.push(self.slots.len())?;
        }
        self.add(lits)
    }

    /// Appends a clause, if there is one.
    #[tactic(auto, using(crate::proofs::BaseLaws::adds_none, crate::proofs::BaseLaws::adds_some))]
    pub fn add_some(&mut self, one: &Option<Clause>) -> Result<(), OutOfMemory>
        requires { IsSound self.old }
        ensures { OnOk result (AddsAll self.old self.new (option_to_list one.now)) }
    {
        let Some(clause) = one else {
            return Ok(());
        };
        self.add_one(clause.lits())
    }

    /// Appends clauses; those of one literal are to be propagated.
    #[tactic(auto, using(crate::proofs::BaseLaws::adds_none, crate::proofs::BaseLaws::adds_more, crate::proofs::BaseLaws::adds_all))]
    pub fn add_all(&mut self, list: &ClauseList) -> Result<(), OutOfMemory>
        requires { IsSound self.old }
        ensures { OnOk result (AddsAll self.old self.new list.now) }
    {
        for clause in list.as_slice() {
            self.add_one(clause.lits())?;
        }
        Ok(())
    }

    // Takes out all clauses that have the literal or its opposite.
    fn take_out(&mut self, lit: Lit)
        requires { IsSound self.old }
        ensures { TakesOut self.old self.new lit }
    {
        drop_each(
            &mut self.slots,
            self.occurrences.at(lit),
            lit,
            &mut self.tally,
        );
        let opposite = lit.neg();
        drop_each(
            &mut self.slots,
            self.occurrences.at(opposite),
            opposite,
            &mut self.tally,
        );
    }

    // The resolvents on a literal, if they are at most so many, and few and short enough to stand in the place of their clauses.
    fn resolvents_of(&self, lit: Lit, most: usize) -> Result<Option<ClauseList>, OutOfMemory>
        ensures { IfOk result (λ o. IfSome o (λ list. list ≡ resolvents_in self.now.occurrences lit self.now.slots.items)) }
    {
        if !self.is_rare(lit) {
            return Ok(None);
        }
        let with = gather(self.alloc, &self.slots, self.occurrences.at(lit), lit)?;
        let opposite = lit.neg();
        let against = gather(
            self.alloc,
            &self.slots,
            self.occurrences.at(opposite),
            opposite,
        )?;
        let list = resolve_all(self.alloc, lit, with.as_slice(), against.as_slice(), most)?;
        Ok(list)
    }

    /// Eliminates the variable of a literal if it is no place, that makes the clauses no more, and it has at most so many resolvents;
    /// answers whether it did.
    #[tactic(auto, using(crate::proofs::BaseLaws::becomes_itself, crate::proofs::BaseLaws::becomes_eliminated))]
    pub fn eliminate(&mut self, lit: Lit, most: usize) -> Result<bool, OutOfMemory>
        requires { IsSound self.old }
        ensures { OnOk result (Becomes self.old self.new) }
    {
        if !self.is_own(lit.var()) {
            return Ok(false);
        }
        let Some(list) = self.resolvents_of(lit, most)? else {
            return Ok(false);
        };
        self.take_out(lit);
        self.add_all(&list)?;
        Ok(true)
    }

    // The literal of a clause that has no other.
    fn unit_at(&self, i: usize) -> Option<Lit>
        ensures { IfSome result (λ l. slot_at self.now.slots.items i ≡ Some (l ∷ [])) }
    {
        if i >= self.slots.len() {
            return None;
        }
        let Some(clause) = &self.slots[i] else {
            return None;
        };
        let lits = clause.lits();
        if lits.len() != 1 {
            return None;
        }
        Some(lits[0])
    }

    // Makes a literal true.
    fn assign(&mut self, lit: Lit) -> Result<(), OutOfMemory>
        requires { IsSound self.old }
        ensures { OnOk result (Assigns self.old self.new lit) }
    {
        drop_each(
            &mut self.slots,
            self.occurrences.at(lit),
            lit,
            &mut self.tally,
        );
        let opposite = lit.neg();
        shrink_each(
            &mut self.slots,
            self.occurrences.at(opposite),
            opposite,
            &mut self.units,
            &mut self.tally,
        )?;
        self.add(&[lit])?;
        Ok(())
    }

    /// Propagates the clause of a place if it has one literal.
    #[tactic(auto, using(crate::proofs::BaseLaws::becomes_itself, crate::proofs::BaseLaws::becomes_assigned))]
    pub fn propagate(&mut self, i: usize) -> Result<(), OutOfMemory>
        requires { IsSound self.old }
        ensures { OnOk result (Becomes self.old self.new) }
    {
        let Some(lit) = self.unit_at(i) else {
            return Ok(());
        };
        self.assign(lit)
    }

    // The literal of these with the fewest occurrences, if it has at most LOOKED_AT.
    fn rarest(&self, lits: &[Lit]) -> Option<Lit> {
        let mut fewest = LOOKED_AT;
        let mut rarest = None;
        for lit in lits {
            let count = self.occurrences.at(*lit).len();
            if count <= fewest {
                fewest = count;
                rarest = Some(*lit);
            }
        }
        rarest
    }

    // Whether the clause of a place subsumes another one of these places, which rise, from the place `from` on.
    fn covers_another(&self, i: usize, lits: &[Lit], at: &[u32], from: usize) -> bool {
        for j in at.iter().rev() {
            let j = *j as usize;
            if j < from {
                return false;
            }
            if j != i && j < self.slots.len() && slot_covered(&self.slots[j], lits) {
                return true;
            }
        }
        false
    }

    // From where on there can be clauses that the clause of a place subsumes, if those before `from` were looked at once.
    fn unseen_from(&self, i: usize, from: usize) -> usize {
        if i >= from || self.tally.is_shorter(i) {
            0
        } else {
            from
        }
    }

    // A literal all of whose clauses are to be looked at for those that the clause of a place subsumes, if there are any.
    fn covering(&self, i: usize, from: usize) -> Option<Lit> {
        if i >= self.slots.len() {
            return None;
        }
        let Some(clause) = &self.slots[i] else {
            return None;
        };
        let rarest = self.rarest(clause.lits())?;
        let from = self.unseen_from(i, from);
        if !self.covers_another(i, clause.lits(), self.occurrences.at(rarest), from) {
            return None;
        }
        Some(rarest)
    }

    // A copy of the clause of a place.
    fn copy_at(&self, i: usize) -> Result<Option<Clause>, OutOfMemory>
        ensures { IfOk result (λ o. IfSome o (λ c. slot_at self.now.slots.items i ≡ Some c)) }
    {
        if i >= self.slots.len() {
            return Ok(None);
        }
        let Some(clause) = &self.slots[i] else {
            return Ok(None);
        };
        let copy = clause.copy()?;
        Ok(Some(copy))
    }

    // Takes out what a clause subsumes among those of a literal, and appends the clause.
    fn cover(&mut self, lit: Lit, clause: &Clause) -> Result<(), OutOfMemory>
        requires { IsSound self.old }
        ensures { OnOk result (Covers self.old self.new lit clause.now) }
    {
        cover_each(
            &mut self.slots,
            self.occurrences.at(lit),
            clause.lits(),
            &mut self.tally,
        );
        self.add(clause.lits())?;
        Ok(())
    }

    // Takes out what the clause of a place subsumes among those of a literal.
    #[tactic(auto, using(crate::proofs::BaseLaws::becomes_itself))]
    fn cover_from(&mut self, i: usize, lit: Lit) -> Result<(), OutOfMemory>
        requires { IsSound self.old }
        ensures { OnOk result (Becomes self.old self.new) }
    {
        let Some(clause) = self.copy_at(i)? else {
            return Ok(());
        };
        self.cover(lit, &clause)?;
        Ok(())
    }

    /// Takes out what the clause of a place subsumes, if its literals are rare enough to look for that. The clauses of the slots before
    /// `from` have been looked at together.
    #[tactic(auto, using(crate::proofs::BaseLaws::becomes_itself))]
    pub fn subsume(&mut self, i: usize, from: usize) -> Result<(), OutOfMemory>
        requires { IsSound self.old }
        ensures { OnOk result (Becomes self.old self.new) }
    {
        let Some(lit) = self.covering(i, from) else {
            return Ok(());
        };
        self.cover_from(i, lit)
    }

    /// Whether a clause with the variable of a literal came or went since it was last tried; from now on it counts as tried.
    #[tactic(auto, using(crate::proofs::SimplerLaws::simpler_itself))]
    pub fn take_touched(&mut self, lit: Lit) -> bool
        requires { IsSound self.old }
        ensures { Becomes self.old self.new }
    {
        let is_touched = self.tally.is_touched(lit);
        self.tally.settle(lit);
        is_touched
    }

    /// Subsumed clauses were looked for everywhere.
    #[tactic(auto, using(crate::proofs::SimplerLaws::simpler_itself))]
    pub fn settle_slots(&mut self)
        requires { IsSound self.old }
        ensures { Becomes self.old self.new }
    {
        self.tally.settle_slots();
    }

    /// A slot whose clause is to be propagated, if there is one left.
    #[tactic(auto, using(crate::proofs::SimplerLaws::simpler_itself))]
    pub fn pop_unit(&mut self) -> Option<usize>
        requires { IsSound self.old }
        ensures { Becomes self.old self.new }
    {
        self.units.pop()
    }

    // The slots. What was kept beside them is let go.
    fn into_slots(self) -> Vec<Option<Clause>>
        ensures { result.items ≡ self.slots.items }
    {
        self.slots
    }

    /// The clauses that stand. Whatever else was kept is let go before they are listed.
    pub fn into_left(self) -> Result<ClauseList, OutOfMemory>
        ensures { IfOk result (λ list. list ≡ stands self.slots.items) }
    {
        let alloc = self.alloc;
        let mut slots = self.into_slots();
        close_up(&mut slots);
        standing(alloc, slots.as_slice())
    }

    /// One more than the highest variable.
    pub fn variables(&self) -> u64
        ensures { result < 2 ^ 63 }
    {
        self.occurrences.len() / 2
    }
}
