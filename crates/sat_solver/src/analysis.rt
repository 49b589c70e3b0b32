//! Conflict analysis: what clause a false clause teaches.
//!
//! [`analyse`] walks the trail downwards with a flag for each variable. An entry whose variable is marked
//! is resolved by the clause that implied it, or its negation joins the learned clause; the first entry
//! that stands alone above its decision is the first unique implication point, and is kept, as are all
//! marked ones below. The numbers of the clauses that were resolved, backwards, are the hints.
ghost use Rattle.std.specs.Prelude.{◌≡◌, ◌==◌, ◌&&◌, if◌then◌else◌, ◌<◌, ◌≤◌, Bool, false, length, reverse, replicate, All, IfOk, OnOk};
ghost use Rattle.std.specs.Prelude.{Some, slice_get, slice_index_or};
ghost use Rattle.sat_clauses.specs.Assignment.{IsInRange};
ghost use Rattle.sat_solver.specs.Trail.{below};
ghost use Rattle.sat_solver.specs.declared.trail.TrailEntry.{TrailEntry};
ghost use Rattle.sat_solver.specs.Analysis.{marked, is_decision, is_alone, may_resolve, resolver, visited_by, visited, analysed, begun};
ghost use Rattle.sat_solver.specs.Analysis.{IsWithin, NamesOne};

use crate::clauses::lits;
use crate::trail::{Reason, Trail, TrailEntry};
use base_values::OutOfMemory;
use sat_clauses::clause::Clause;
use sat_clauses::lit::Lit;
use sat_clauses::step::{HintList, Step};
use sat_clauses::store::Store;
use std::alloc::Global;
use std::marker::Model;

/// A flag for each variable.
#[derive(Drop)]
pub struct Marks {
    flags: Vec<bool>,
}

impl Model for Marks {
    ghost use Rattle.std.specs.Prelude.{List, Bool};

    ghost Value = { List Bool };

    ghost view = { λ m. m.flags.items };
}

impl Marks {
    /// No flag set.
    pub fn with_len(alloc: Global, len: usize) -> Result<Marks, OutOfMemory>
        ensures { IfOk result (λ m. m ≡ replicate len false) }
    {
        Ok(Marks {
            flags: vec![in alloc; false; len]?,
        })
    }

    /// Whether the flag of a literal's variable is set.
    pub fn has(&self, lit: Lit) -> bool
        requires { lit.var < length self.now }
        ensures { result ≡ slice_index_or self.now lit.var false }
    {
        self.flags[lit.var() as usize]
    }

    /// Sets the flags of all variables of a clause.
    pub fn set_all(&mut self, lits: &[Lit])
        requires { All (λ l. l.var < length self.old) lits.now }
        ensures { self.new ≡ marked self.old lits.now }
    {
        for lit in lits {
            self.flags[lit.var() as usize] = true;
        }
    }
}

/// How far the analysis of a false clause has come.
#[derive(Drop)]
pub struct ConflictAnalysis {
    marks: Marks,
    lits: Vec<Lit>,
    used: Vec<u64>,
    target: usize,
}

impl Model for ConflictAnalysis {
    ghost use Rattle.sat_solver.specs.AnalysisRecord.{AnalysisValue};

    ghost Value = { AnalysisValue };

    ghost view = { λ s. record { marks = s.marks; lits = s.lits.items; used = s.used.items; target = s.target } };
}

impl ConflictAnalysis {
    /// Begins with a false clause.
    fn begin<S: Store>(
        alloc: Global,
        len: usize,
        clauses: &S,
        conflict: u64,
    ) -> Result<ConflictAnalysis, OutOfMemory>
        requires in_range { All (All (λ l. l.var < len)) (S.held clauses.now).clauses }
        requires number { NamesOne (length (S.held clauses.now).clauses) conflict }
        ensures { IfOk result (λ s. s ≡ begun len (S.held clauses.now).clauses conflict) }
    {
        let mut marks = Marks::with_len(alloc, len)?;
        marks.set_all(lits(clauses, conflict as usize - 1));
        let mut used = Vec::new(alloc);
        used.push(conflict)?;
        Ok(ConflictAnalysis {
            marks,
            lits: Vec::new(alloc),
            used,
            target: 0,
        })
    }

    /// Whether the first entry before this place that is a decision or marked is an unmarked decision.
    fn is_alone(&self, trail: &Trail, place: usize) -> bool
        requires within { place ≤ length trail.now.entries }
        requires in_range { All (λ e. e.lit.var < length self.now.marks) trail.now.entries }
        ensures { result ≡ is_alone self.now.marks (below trail.now.entries place) }
    {
        let mut i = place;
        while i > 0 {
            i -= 1;
            let entry = trail.at(i);
            if self.marks.has(entry.lit) {
                return false;
            }
            if entry.reason.is_decision() {
                return true;
            }
        }
        false
    }

    /// Goes on with the entry at this place of the trail.
    fn visit<S: Store>(
        &mut self,
        clauses: &S,
        fully: bool,
        trail: &Trail,
        place: usize,
    ) -> Result<(), OutOfMemory>
        requires clauses_in_range { All (All (λ l. l.var < length self.old.marks)) (S.held clauses.now).clauses }
        requires within { place < length trail.now.entries }
        requires in_range { All (λ e. e.lit.var < length self.old.marks) trail.now.entries }
        requires reasons { All (λ e. IsWithin (length (S.held clauses.now).clauses) e.reason) trail.now.entries }
        ensures { OnOk result ((e : TrailEntry) → slice_get trail.now.entries place ≡ Some e
            → self.new ≡ visited (S.held clauses.now).clauses fully self.old e (below trail.now.entries place)) }
    {
        let entry = trail.at(place);
        if !self.marks.has(entry.lit) {
            self.pass(entry.reason, place);
            return Ok(());
        }
        let resolves = self.may_resolve(fully, trail, place);
        self.visit_marked(clauses, resolves, entry, place)
    }

    /// Goes on with an entry that is not marked.
    fn pass(&mut self, reason: Reason, place: usize)
        ensures { self.new ≡ record self.old {
          target = if length self.old.lits == 1
              && is_decision reason then place else self.old.target;
        } }
    {
        if self.lits.len() == 1 && reason.is_decision() {
            self.target = place;
        }
    }

    /// Whether a marked entry at this place may be resolved.
    fn may_resolve(&self, fully: bool, trail: &Trail, place: usize) -> bool
        requires within { place ≤ length trail.now.entries }
        requires in_range { All (λ e. e.lit.var < length self.now.marks) trail.now.entries }
        ensures { result ≡ may_resolve fully self.now (below trail.now.entries place) }
    {
        if fully {
            return true;
        }
        if !self.lits.is_empty() {
            return false;
        }
        !self.is_alone(trail, place)
    }

    /// Goes on with a marked entry.
    fn visit_marked<S: Store>(
        &mut self,
        clauses: &S,
        resolves: bool,
        entry: TrailEntry,
        place: usize,
    ) -> Result<(), OutOfMemory>
        requires clauses_in_range { All (All (λ l. l.var < length self.old.marks)) (S.held clauses.now).clauses }
        requires reason { IsWithin (length (S.held clauses.now).clauses) entry.reason }
        ensures { OnOk result (self.new ≡ visited_by (S.held clauses.now).clauses self.old entry place (resolver entry.reason resolves)) }
    {
        match entry.reason {
            Reason::Implied(number) if resolves => {
                self.used.push(number)?;
                self.marks.set_all(lits(clauses, number as usize - 1));
            }
            _ => {
                if self.lits.is_empty() {
                    self.target = place;
                }
                self.lits.push(entry.lit.neg())?;
            }
        }
        Ok(())
    }

    /// The clause and its hints.
    fn into_learned(self, alloc: Global) -> Result<Learned, OutOfMemory>
        ensures lits { IfOk result (λ learned. learned.step.clause ≡ self.lits) }
        ensures hints { IfOk result (λ learned. learned.step.hints ≡ reverse self.used) }
        ensures target { IfOk result (λ learned. learned.target ≡ self.target) }
    {
        let mut hints = HintList::new(alloc);
        for number in self.used.iter().rev().copied() {
            hints.push(number)?;
        }
        Ok(Learned {
            step: Step {
                clause: Clause::from_lits(alloc, self.lits.as_slice())?,
                hints,
            },
            target: self.target,
        })
    }
}

/// A clause that was learned, and how far the trail is to be kept.
#[derive(Drop)]
pub struct Learned {
    /// The clause, with the numbers of the clauses that show it by unit propagation.
    pub step: Step,
    /// How many literals of the trail are kept.
    pub target: usize,
}

/// What a false clause teaches. The clause's first literal is the one that becomes true at the target;
/// or, `fully`, it has negated decisions alone.
pub fn analyse<S: Store>(
    alloc: Global,
    trail: &Trail,
    clauses: &S,
    conflict: u64,
    fully: bool,
) -> Result<Learned, OutOfMemory>
    requires clauses_in_range { All (All (IsInRange trail.now.values)) (S.held clauses.now).clauses }
    requires in_range { All (λ e. e.lit.var < length trail.now.values) trail.now.entries }
    requires reasons { All (λ e. IsWithin (length (S.held clauses.now).clauses) e.reason) trail.now.entries }
    requires number { NamesOne (length (S.held clauses.now).clauses) conflict }
    ensures lits { IfOk result (λ learned. learned.step.clause
        ≡ (analysed (S.held clauses.now).clauses fully (begun (length trail.now.values) (S.held clauses.now).clauses conflict)
        (reverse trail.now.entries)).lits) }
    ensures hints { IfOk result (λ learned. learned.step.hints
        ≡ reverse (analysed (S.held clauses.now).clauses fully (begun (length trail.now.values) (S.held clauses.now).clauses conflict)
        (reverse trail.now.entries)).used) }
    ensures target { IfOk result (λ learned. learned.target
        ≡ (analysed (S.held clauses.now).clauses fully (begun (length trail.now.values) (S.held clauses.now).clauses conflict)
        (reverse trail.now.entries)).target) }
{
    let len = trail.assign().vars() as usize + 1;
    let mut analysis = ConflictAnalysis::begin(alloc, len, clauses, conflict)?;
    let mut i = trail.len();
    while i > 0 {
        i -= 1;
        analysis.visit(clauses, fully, trail, i)?;
    }
    analysis.into_learned(alloc)
}
