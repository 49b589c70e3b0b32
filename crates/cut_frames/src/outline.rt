//! What is known of the first states: the value that all of them give a bit, where they agree, and some of them. A clause that says such a
//! value is true in every first state, and one that a known first state breaks is not, so nearly all questions about first states are
//! answered without the search. [`Outline::find`] asks once, one easy question for each state bit at most; [`Outline::core`] answers
//! which literals of a clause every first state makes true. Beside that, how often literals stood in clauses that block, the
//! states that wait to be raised, those that paths have reached, and the steps that spoiled smaller clauses.
ghost use Rattle.std.specs.Prelude.{◌≡◌, ◌≤◌, ◌<◌, ◌-◌, ◌^◌, [], IfOk, OnOk, IfSome, Some, None, All, Contains, not, slice_index_or, map};
ghost use Rattle.sat_clauses.specs.Hints.{HasNoOpposites};
ghost use Rattle.sat_clauses.specs.Literal.{opposite};
ghost use Rattle.cut_frames.specs.Bits.{literals_from};
ghost use Rattle.cut_frames.specs.Chain.{IsState, IsFirstState, IsOverBits};
ghost use Rattle.cut_frames.specs.Condition.{IsFit};
ghost use Rattle.cut_frames.specs.GuardedSearch.{HasAsked};
ghost use Rattle.cut_frames.specs.Parts.{IsPart, IsOfFirst, IsAgreed, AreAgreed, IsAskable};

use crate::bits::{State, broken_by, literals, read, turned};
use crate::guarded::{Beside, Guarded};
use crate::reached::{Reached, is_outside};
use crate::spoilers::Spoilers;
use crate::waiting::Raised;
use crate::weights::Weights;
use base_values::OutOfMemory;
use sat_adviser::Panel;
use sat_clauses::System;
use sat_clauses::assign::Assign;
use sat_clauses::clause::Clause;
use sat_clauses::lit::Lit;
use sat_solver::solve::Verdict;
use std::alloc::Global;

/// How many first states are kept.
const STARTS: usize = 64;

/// What is known of the first states.
#[derive(Drop)]
pub struct Outline {
    /// For each state bit the value that every first state gives it, where they are known to agree.
    pub agreed: Vec<Option<bool>>,
    /// How often literals stood in clauses that block.
    pub weights: Weights,
    /// The states that wait to be blocked in higher frames.
    pub raised: Raised,
    /// The states of the paths that were found.
    pub reached: Reached,
    /// The steps that spoiled smaller clauses.
    pub spoilers: Spoilers,
    /// First states that answers have shown, the newest last.
    starts: Vec<State>,
    /// Whether [`Outline::find`] has asked.
    is_found: bool,
}

impl Outline {
    /// Nothing is known yet.
    pub fn new(alloc: Global) -> Outline
        ensures { result.agreed.items ≡ [] }
    {
        Outline {
            agreed: Vec::new(alloc),
            weights: Weights::new(alloc),
            raised: Raised::new(alloc),
            reached: Reached::new(alloc),
            spoilers: Spoilers::new(alloc),
            starts: Vec::new(alloc),
            is_found: false,
        }
    }

    /// Keeps a first state that an answer has shown, in the place of the oldest one where there are many.
    fn note(&mut self, bits: u64, values: &Assign) -> Result<(), OutOfMemory>
        requires { bits < 2 ^ 31 }
        ensures { self.new.agreed.items ≡ self.old.agreed.items }
    {
        let state = read(*self.starts.allocator(), 2, bits, values)?;
        if self.starts.len() >= STARTS {
            let _oldest = self.starts.remove(0);
        }
        self.starts.push(state)?;
        Ok(())
    }

    /// Has the newest of obligations wait to be blocked in the frame above that of a number, in which a clause blocks it now.
    pub fn note_blocked(
        &mut self,
        system: &System,
        level: usize,
        owed: &[Assign],
        last: usize,
    ) -> Result<(), OutOfMemory>
        requires { IsFit system.now }
        ensures { self.new.agreed.items ≡ self.old.agreed.items }
    {
        let bits = u64::from(system.state_bits);
        self.raised.put_blocked(bits, level, owed, last)
    }

    /// The value that the known first states give a bit, where they agree.
    fn supposed(&self, x: usize) -> Option<bool> {
        let mut value = None;
        for start in &self.starts {
            let here = start.as_slice().get(x).copied();
            if value.is_some() && value != here {
                return None;
            }
            value = here;
        }
        value
    }

    /// The value that every first state gives a bit, if the known ones agree and a question shows that the others do.
    fn value_of(
        &mut self,
        system: &System,
        x: usize,
        kept: &mut Guarded,
        panel: &mut Panel,
    ) -> Result<Option<bool>, OutOfMemory>
        requires fit { IsFit system.now }
        requires bit { x < system.now.state_bits }
        requires kept { IsAskable system.now kept.old }
        ensures same { self.new.agreed.items ≡ self.old.agreed.items }
        ensures agreed { IfOk result (λ r. IfSome r (λ b. IsAgreed system.now x b)) }
        ensures asked { IfOk result (λ _. HasAsked kept.old kept.new) }
    {
        let Some(value) = self.supposed(x) else {
            return Ok(None);
        };
        let other = Lit::new(x as u64 + 2, value);
        match kept.ask(Beside::Nothing, 0, &[other], panel)? {
            Verdict::Sat(values) => {
                self.note(u64::from(system.state_bits), &values)?;
                Ok(None)
            }
            Verdict::Unsat(_core) => Ok(Some(value)),
        }
    }

    /// Asks once about each state bit on which the first states that are known agree.
    pub fn find(
        &mut self,
        system: &System,
        kept: &mut Guarded,
        panel: &mut Panel,
    ) -> Result<(), OutOfMemory>
        requires fit { IsFit system.now }
        requires agreed { AreAgreed system.now self.old.agreed.items }
        requires kept { IsAskable system.now kept.old }
        ensures agreed { AreAgreed system.now self.new.agreed.items }
        ensures asked { OnOk result (HasAsked kept.old kept.new) }
    {
        if self.is_found || !self.agreed.is_empty() {
            return Ok(());
        }
        self.is_found = true;
        match kept.ask(Beside::Nothing, 0, &[], panel)? {
            Verdict::Sat(values) => self.note(u64::from(system.state_bits), &values)?,
            Verdict::Unsat(_core) => return Ok(()),
        }
        'bits: for x in 0..system.state_bits as usize {
            let value = self.value_of(system, x, kept, panel)?;
            self.agreed.push(value)?;
        }
        Ok(())
    }

    /// One of these literals of state bits that every first state makes true, where one is known.
    fn agreed_in(&self, lits: &[Lit]) -> Option<Lit>
        requires { All (λ l. 2 ≤ l.var) lits.now }
        ensures { IfSome result (λ l. Contains lits.now l
            × (slice_index_or self.now.agreed.items (l.var - 2) None ≡ Some (not l.negated))) }
    {
        for lit in lits {
            let place = (lit.var() - 2) as usize;
            if place < self.agreed.len() && self.agreed[place] == Some(!lit.is_negated()) {
                return Some(*lit);
            }
        }
        None
    }

    /// Whether a known first state makes every literal of a clause false.
    fn has_start_outside(&self, clause: &Clause) -> bool {
        self.starts.iter().any(|start| is_outside(start, clause))
    }

    /// Asks which literals of a clause every first state makes true.
    fn ask(
        &mut self,
        system: &System,
        clause: &Clause,
        kept: &mut Guarded,
        panel: &mut Panel,
    ) -> Result<Option<Clause>, OutOfMemory>
        requires fit { IsFit system.now }
        requires over { IsOverBits system.now clause.now }
        requires apart { HasNoOpposites clause.now }
        requires kept { IsAskable system.now kept.old }
        ensures same { self.new.agreed.items ≡ self.old.agreed.items }
        ensures core { IfOk result (λ r. IfSome r (λ core. IsPart core clause.now × IsOfFirst system.now core)) }
        ensures asked { IfOk result (λ _. HasAsked kept.old kept.new) }
    {
        let against = turned(*self.starts.allocator(), clause.lits())?;
        match kept.ask(Beside::Nothing, 0, against.as_slice(), panel)? {
            Verdict::Sat(values) => {
                self.note(u64::from(system.state_bits), &values)?;
                Ok(None)
            }
            Verdict::Unsat(core) => Ok(Some(core)),
        }
    }

    /// Literals of a clause of which every first state makes one true; none where a first state makes all of them false.
    pub fn core(
        &mut self,
        system: &System,
        clause: &Clause,
        kept: &mut Guarded,
        panel: &mut Panel,
    ) -> Result<Option<Clause>, OutOfMemory>
        requires fit { IsFit system.now }
        requires agreed { AreAgreed system.now self.old.agreed.items }
        requires over { IsOverBits system.now clause.now }
        requires apart { HasNoOpposites clause.now }
        requires kept { IsAskable system.now kept.old }
        ensures same { self.new.agreed.items ≡ self.old.agreed.items }
        ensures core { IfOk result (λ r. IfSome r (λ core. IsPart core clause.now × IsOfFirst system.now core)) }
        ensures asked { IfOk result (λ _. HasAsked kept.old kept.new) }
    {
        if let Some(lit) = self.agreed_in(clause.lits()) {
            let one = Clause::from_lits(*self.starts.allocator(), &[lit])?;
            return Ok(Some(one));
        }
        if self.has_start_outside(clause) {
            return Ok(None);
        }
        let answer = self.ask(system, clause, kept, panel)?;
        Ok(answer)
    }

    /// Literals of the clause that a state alone breaks, of which every first state makes one true; none where the state is a first one.
    pub fn core_against(
        &mut self,
        system: &System,
        state: &State,
        kept: &mut Guarded,
        panel: &mut Panel,
    ) -> Result<Option<Clause>, OutOfMemory>
        requires fit { IsFit system.now }
        requires agreed { AreAgreed system.now self.old.agreed.items }
        requires state { IsState system.now state.now }
        requires kept { IsAskable system.now kept.old }
        ensures same { self.new.agreed.items ≡ self.old.agreed.items }
        ensures core { IfOk result (λ r. IfSome r (λ core. IsPart core (map opposite (literals_from 2 state.now))
            × IsOfFirst system.now core)) }
        ensures first { IfOk result (λ r. r ≡ None → IsFirstState system.now state.now) }
        ensures asked { IfOk result (λ _. HasAsked kept.old kept.new) }
    {
        let alloc = *self.starts.allocator();
        let now = literals(alloc, 2, state.as_slice())?;
        let broken = broken_by(alloc, state.as_slice())?;
        if let Some(lit) = self.agreed_in(broken.lits()) {
            let one = Clause::from_lits(alloc, &[lit])?;
            return Ok(Some(one));
        }
        match kept.ask(Beside::Nothing, 0, now.as_slice(), panel)? {
            Verdict::Sat(_values) => Ok(None),
            Verdict::Unsat(core) => Ok(Some(core)),
        }
    }
}
