//! The trail: the literals that a search made true, in order, each with its reason.
//!
//! A level is what lies from one decision, an assumption or a free choice, up to the next; it needs no
//! number of its own. `undo` takes back whole levels, and propagation then goes on from there. The trail also knows
//! a variable below which none is free, and where a free choice stands, so that a decision need not look at all variables
//! and all assumptions anew.
ghost use Rattle.std.specs.Prelude.{◌≡◌, ◌≢◌, ℕ, ◌↔◌, IsTrue, ◌^◌, ◌<◌, ◌≤◌, [], ◌∷◌, ◌++◌, length, reverse, take, IfOk, OnOk, Some, None};
ghost use Rattle.std.specs.Prelude.{slice_get, slice_index_or};
ghost use Rattle.sat_clauses.specs.Assignment.{all_free, IsInRange, value_of, made_true};
ghost use Rattle.sat_solver.specs.declared.trail.Reason.TheVariants as reason;
ghost use Rattle.sat_solver.specs.Trail.{assigned, followed_whole, IsLawful, HasChoice, HasAssumed, IsLeast};
ghost use Rattle.sat_solver.specs.Analysis.{is_decision};

use crate::choose::least_free;
use base_values::OutOfMemory;
use sat_clauses::assign::Assign;
use sat_clauses::lit::Lit;
use std::alloc::Global;
use std::marker::Model;

/// Why a literal was made true.
#[derive(Clone, Copy, Debug, PartialEq, Eq)]
pub enum Reason {
    /// It is an assumption, and so many of the first assumptions were true.
    Assumed(usize),
    /// It was a free choice.
    Chosen,
    /// The clause of this number, from 1, was unit.
    Implied(u64),
}

impl Reason {
    /// Whether the literal was a free choice.
    pub fn is_choice(self) -> bool
        ensures { IsTrue result ↔ (self ≡ reason.Chosen) }
    {
        match self {
            Reason::Chosen => true,
            Reason::Assumed(_) | Reason::Implied(_) => false,
        }
    }

    /// Whether no clause made the literal true.
    pub fn is_decision(self) -> bool
        ensures { result ≡ is_decision self }
    {
        match self {
            Reason::Implied(_) => false,
            Reason::Assumed(_) | Reason::Chosen => true,
        }
    }
}

/// A literal, and why it was made true.
#[derive(Clone, Copy)]
pub struct TrailEntry {
    /// The literal that was made true.
    pub lit: Lit,
    /// Why.
    pub reason: Reason,
}

/// The numbers of clauses that are to be looked at.
#[derive(Drop)]
pub struct Agenda {
    // Those that nothing has to make unit, and how many of them were looked at.
    short: Vec<u64>,
    short_seen: usize,
    // The place of the first decision, and how many short clauses were looked at before it.
    decision: Option<usize>,
    settled: usize,
    // Those that were found, and how many of them were looked at.
    found: Vec<u64>,
    found_seen: usize,
    // How many clauses were looked at for short ones.
    known: usize,
    // Where answers are asked for before all variables have values: the place of the clause that is looked at first for one.
    open: Option<usize>,
}

impl Agenda {
    // Nothing is due.
    fn new(alloc: Global) -> Agenda {
        Agenda {
            short: Vec::new(alloc),
            short_seen: 0,
            decision: None,
            settled: 0,
            found: Vec::new(alloc),
            found_seen: 0,
            known: 0,
            open: None,
        }
    }

    // A literal is made true at this place, for this reason. Before the first decision all was looked at that was due.
    fn note_reason(&mut self, reason: Reason, place: usize) {
        if reason.is_decision() && self.decision.is_none() {
            self.decision = Some(place);
            self.settled = self.short_seen;
        }
    }

    // What short clauses made true before the first decision stays where that much is kept. Else they begin anew, since
    // what they made true may be gone.
    fn restart(&mut self, keep: usize) {
        self.short_seen = match self.decision {
            Some(first) if first <= keep => self.settled,
            _ => 0,
        };
        if let Some(first) = self.decision {
            if keep <= first {
                self.decision = None;
            }
        }
        self.found.clear();
        self.found_seen = 0;
    }

    // How many are still to be looked at.
    fn len(&self) -> usize {
        let short = self.short.len().saturating_sub(self.short_seen);
        short.saturating_add(self.found.len().saturating_sub(self.found_seen))
    }

    // The number of the next one, which is then looked at: the short ones first. 0 where none is due.
    fn next(&mut self) -> u64 {
        if self.short_seen < self.short.len() {
            let number = self.short[self.short_seen];
            self.short_seen += 1;
            return number;
        }
        if self.found_seen < self.found.len() {
            let number = self.found[self.found_seen];
            self.found_seen += 1;
            return number;
        }
        0
    }
}

/// The literals that were made true, in order, and the assignment that they make.
#[derive(Drop)]
pub struct Trail {
    assign: Assign,
    entries: Vec<TrailEntry>,
    // How many of the first literals the store has followed.
    followed: usize,
    // No variable below this one is free.
    least: u64,
    // The place of a free choice, where one stands there.
    choice: usize,
    // The place of the last assumption, where one stands there.
    assumed: usize,
    // Of this contracts see nothing.
    agenda: Agenda,
}

impl Model for Trail {
    ghost use Rattle.sat_solver.specs.TrailRecord.{TrailValue};

    ghost Value = { TrailValue };

    ghost use Rattle.sat_solver.specs.Trail.{IsLeast};

    ghost view = { λ t. record { values = t.assign; entries = t.entries.items; followed = t.followed } };

    ghost invariant = { λ t. IsLeast t.assign t.least };
}

impl Trail {
    /// All variables up to `vars`, free.
    pub fn with_vars(alloc: Global, vars: u64) -> Result<Trail, OutOfMemory>
        requires { vars < 2 ^ 62 }
        ensures values { IfOk result (λ t. t.values ≡ all_free vars) }
        ensures entries { IfOk result (λ t. t.entries ≡ []) }
        ensures followed { IfOk result (λ t. t.followed ≡ 0) }
    {
        Ok(Trail {
            assign: Assign::with_vars(alloc, vars)?,
            entries: Vec::new(alloc),
            followed: 0,
            least: 1,
            choice: 0,
            assumed: 0,
            agenda: Agenda::new(alloc),
        })
    }

    /// Raises the highest variable by one; the new variable is free.
    pub fn more(&mut self) -> Result<(), OutOfMemory>
        ensures values { OnOk result (self.new.values ≡ self.old.values ++ None ∷ []) }
        ensures entries { OnOk result (self.new.entries ≡ self.old.entries) }
        ensures followed { OnOk result (self.new.followed ≡ self.old.followed) }
    {
        self.assign.more()?;
        Ok(())
    }

    /// The assignment that makes exactly these literals true.
    pub fn assign(&self) -> &Assign
        ensures { result.now ≡ self.now.values }
    {
        &self.assign
    }

    /// How many of the first literals the store has followed.
    pub fn followed(&self) -> usize
        ensures { result ≡ self.now.followed }
    {
        self.followed
    }

    /// Notes that the store has followed all literals.
    pub fn note_followed(&mut self)
        ensures { self.new ≡ followed_whole self.old }
    {
        self.followed = self.entries.len();
    }

    /// How many clauses were looked at for short ones; from now on all are, up to this many.
    pub fn known(&mut self, count: usize) -> usize
        ensures { self.new ≡ self.old }
    {
        let known = self.agenda.known;
        self.agenda.known = count;
        known
    }

    /// How many clauses are to be looked at.
    pub fn due(&self) -> usize {
        self.agenda.len()
    }

    /// The number of the next clause that is to be looked at, or 0.
    pub fn next_due(&mut self) -> u64
        ensures { self.new ≡ self.old }
    {
        self.agenda.next()
    }

    /// Notes the clauses of these numbers, which are to be looked at.
    pub fn note(&mut self, numbers: &[u64]) -> Result<(), OutOfMemory>
        ensures { self.new ≡ self.old }
    {
        self.agenda.found.extend_from_slice(numbers)?;
        Ok(())
    }

    /// Notes a clause that nothing has to make unit.
    pub fn note_short(&mut self, number: u64) -> Result<(), OutOfMemory>
        ensures { self.new ≡ self.old }
    {
        self.agenda.short.push(number)?;
        Ok(())
    }

    /// The place of the clause that is looked at first for an answer before all variables have values, where such answers are
    /// asked for.
    pub fn open(&self) -> Option<usize> {
        self.agenda.open
    }

    /// Asks for answers before all variables have values; for the next one the clause at this place is looked at first.
    pub fn note_open(&mut self, place: usize)
        ensures { self.new ≡ self.old }
    {
        self.agenda.open = Some(place);
    }

    /// How many literals there are.
    pub fn len(&self) -> usize
        ensures { result ≡ length self.now.entries }
    {
        self.entries.len()
    }

    /// The literal at place `i`, from 0, and why.
    pub fn at(&self, i: usize) -> TrailEntry
        requires { i < length self.now.entries }
        ensures { slice_get self.now.entries i ≡ Some result }
    {
        self.entries[i]
    }

    /// A variable below which none is free, at most one above the highest.
    pub fn least(&self) -> u64
        ensures { IsLeast self.now.values result }
    {
        self.least
    }

    /// The least free variable. Those below the one that was found last are not looked at again before `undo` frees one.
    pub fn first_free(&mut self) -> Option<u64>
        ensures same { self.new ≡ self.old }
        ensures none { result ≡ None → (x : ℕ) → 0 < x → x < length self.old.values → slice_index_or self.old.values x None ≢ None }
        ensures some { (x : ℕ) → result ≡ Some x → (0 < x) × (x < length self.old.values) × (slice_index_or self.old.values x None ≡ None) }
    {
        let found = least_free(&self.assign, self.least);
        if let Some(var) = found {
            self.least = var;
        }
        found
    }

    /// Whether a free choice is known to stand among the literals.
    pub fn has_choice(&self) -> bool
        ensures { IsTrue result → HasChoice self.now }
    {
        self.choice < self.len() && self.at(self.choice).reason.is_choice()
    }

    /// So many of the first assumptions are known to be true, by the last one that was made true.
    pub fn known_assumptions(&self) -> usize
        ensures { result ≢ 0 → HasAssumed self.now result }
    {
        if self.assumed < self.len()
            && let Reason::Assumed(count) = self.at(self.assumed).reason
        {
            return count;
        }
        0
    }

    /// Makes one more literal true.
    pub fn set(&mut self, lit: Lit, reason: Reason) -> Result<(), OutOfMemory>
        requires in_range { IsInRange self.old.values lit }
        requires free { value_of self.old.values lit ≡ None }
        ensures values { OnOk result (self.new.values ≡ made_true self.old.values lit) }
        ensures entries { OnOk result (self.new.entries ≡ self.old.entries ++ (record { lit = lit; reason = reason }) ∷ []) }
        ensures followed { OnOk result (self.new.followed ≡ self.old.followed) }
    {
        let choice = self.next_choice(reason);
        let place = self.entries.len();
        self.entries.push(TrailEntry { lit, reason })?;
        self.assign.set(lit);
        self.choice = choice;
        if let Reason::Assumed(_) = reason {
            self.assumed = place;
        }
        self.agenda.note_reason(reason, place);
        Ok(())
    }

    // The place of a free choice once one more literal is made true for this reason.
    fn next_choice(&self, reason: Reason) -> usize {
        if reason.is_choice() && !self.has_choice() {
            return self.entries.len();
        }
        self.choice
    }

    /// Keeps the first `keep` literals.
    pub fn undo(&mut self, keep: usize)
        requires lawful { IsLawful self.old }
        requires within { keep ≤ length self.old.entries }
        ensures same_vars { length self.new.values ≡ length self.old.values }
        ensures entries { self.new.entries ≡ take keep self.old.entries }
        ensures values { self.new.values ≡ assigned (length self.old.values) (reverse (take keep self.old.entries)) }
        ensures followed { self.new.followed ≤ self.old.followed }
        ensures followed_within { self.new.followed ≤ keep }
    {
        self.agenda.restart(keep);
        self.followed = self.followed.min(keep);
        while self.entries.len() > keep {
            if let Some(entry) = self.entries.pop() {
                let var = entry.lit.var();
                self.assign.clear(var);
                if var < self.least {
                    self.least = var;
                }
            }
        }
    }
}
