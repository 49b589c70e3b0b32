//! One search over the lists of a system and the clauses of frames, each under a guard of its own.
//!
//! A guard is a variable above those of states and inputs. The first states, the steps and the bad states that are
//! asked about are made simpler (`src/apart.rt`) and stand in the search as `guard of the list -> clause`, with their gates
//! renamed, so that those of two lists never meet. A clause that holds in the frames up to a number is kept once, as `guard of that frame
//! -> clause`, and each guard implies the next frame's: so under the guard of a frame just its clauses have to hold.
//! The frame of number 0 is the list of the first states. Bad states and frames that are not asked about any more
//! are retired: their guard is false from then on. What the search learns stays as long as it is of use, and a clause whose place in the
//! frames another one took until the search is made anew ([`crate::fresh`]).
ghost use Rattle.std.specs.Prelude.{◌≡◌, ◌≤◌, ◌<◌, ◌+◌, ◌*◌, ◌^◌, ◌∷◌, ◌++◌, [], IfOk, IfSome, OnOk, All, length};
ghost use Rattle.sat_clauses.specs.Literal.{opposite};
ghost use Rattle.sat_clauses.specs.Derivation.{IsUpTo};
ghost use Rattle.sat_clauses.specs.Hints.{HasNoOpposites};
ghost use Rattle.cut_frames.specs.OwnVariables.{apart_system, apart_list};
ghost use Rattle.cut_frames.specs.Condition.{IsLow, IsNear, IsFit};
ghost use Rattle.cut_frames.specs.Roles.{renamed_literal, renamed_clause, under_list};
ghost use Rattle.cut_frames.specs.Guards.{unguarded};
ghost use Rattle.cut_frames.specs.GuardedSearch.{IsWell, IsHolding, IsGuardIn, HasRoomFor, IsEmpty, HasPut, HasWidened, HasNewBad};
ghost use Rattle.cut_frames.specs.GuardedSearch.{HasNewFrame, HasAsked, Tells, TakesBad, AddsBad, Puts, Grows, BeginsAgain, asked_guards, lone_guards, Finds};
ghost use Rattle.cut_frames.specs.GuardedSearch.{HoldsSimple, TakesSimple};
ghost use Rattle.sat_solver.specs.declared.solve.Verdict.TheVariants.{Unsat};

use crate::apart::simpler_apart;
use crate::bits::State;
use crate::highest::highest;
use crate::simple::SimpleLists;
use base_values::OutOfMemory;
use sat_adviser::Panel;
use sat_clauses::System;
use sat_clauses::assign::Assign;
use sat_clauses::clause::{Clause, ClauseList};
use sat_clauses::lit::Lit;
use sat_clauses::recorder::KeepNone;
use sat_solver::kept::Search;
use sat_solver::solve::Verdict;
use sat_solver::work::Work;
use std::alloc::Global;

/// How many clauses more than twice those that it begins with a search may have.
const SLACK: usize = 200;

/// How many clauses a search may have learned until it is made anew. It drops by itself those that are of no more use
/// ([`Guarded::forget`]), so there are as many only where nearly all of them are of use.
const MOST_LEARNED: usize = 200_000;

/// What is asked about beside a frame.
#[derive(Clone, Copy, Debug, PartialEq, Eq)]
pub enum Beside {
    /// The frame alone.
    Nothing,
    /// A step from a state of the frame.
    Step,
    /// The bad states.
    Bad,
}

/// What the searches before this one did, and how many clauses this one may have: of this contracts see nothing.
#[derive(Clone, Copy)]
pub struct Past {
    /// What they did, all in all.
    pub work: Work,
    /// How many clauses there may be until the search is made anew.
    pub most: usize,
}

/// The search, and which of its literals are guards.
#[derive(Drop)]
pub struct Guarded {
    /// The search that is kept from question to question.
    pub search: Search<KeepNone>,
    /// The highest variable of the search.
    pub vars: u64,
    /// The highest variable of states and inputs: these have their own numbers, all above are guards and renamed gates.
    pub places: u64,
    /// The guard of the steps.
    pub step: Lit,
    /// The guard of the bad states that are asked about.
    pub bad: Lit,
    /// The guard of each frame; that of number 0 is the guard of the first states.
    pub frames: Vec<Lit>,
    /// The lists that it was filled with, for the search that takes its place.
    pub simple: SimpleLists,
    /// What was before it.
    pub past: Past,
}

/// How many clauses a search may have that begins with so many.
fn most_of(count: usize) -> usize {
    count.saturating_mul(2).saturating_add(SLACK)
}

/// What a search did that was asked nothing.
fn no_work() -> Work {
    Work {
        questions: 0,
        literals: 0,
        visited: 0,
        listed: 0,
        learned: 0,
        clauses: 0,
    }
}

/// What two searches did, the later one last.
fn both(past: Work, now: Work) -> Work {
    Work {
        questions: past.questions.saturating_add(now.questions),
        literals: past.literals.saturating_add(now.literals),
        visited: past.visited.saturating_add(now.visited),
        listed: past.listed.saturating_add(now.listed),
        learned: past.learned.saturating_add(now.learned),
        clauses: now.clauses,
    }
}

/// The highest variable of states and inputs.
pub fn last_place(system: &System) -> u64
    requires { IsFit system.now }
    ensures value { result ≡ 2 * system.now.state_bits + system.now.input_bits + 1 }
    ensures low { result < 2 ^ 31 }
{
    2 * u64::from(system.state_bits) + u64::from(system.input_bits) + 1
}

/// That a guard implies a clause.
fn implied_by(alloc: Global, guard: Lit, lits: &[Lit]) -> Result<Clause, OutOfMemory>
    ensures { IfOk result (λ c. c ≡ opposite guard ∷ lits.now) }
{
    let mut all = Vec::new(alloc);
    all.push(guard.neg())?;
    all.extend_from_slice(lits)?;
    Clause::from_lits(alloc, all.as_slice())
}

/// A literal of a list, where the list's gates stand from another number on.
fn renamed(places: u64, base: u64, lit: Lit) -> Lit
    requires low { IsNear lit }
    requires base { base < 2 ^ 62 }
    ensures { result ≡ renamed_literal places base lit }
{
    if lit.var() <= places {
        lit
    } else {
        Lit::new(lit.var() - places + base, lit.is_negated())
    }
}

/// That a guard implies a clause of a list, with its gates renamed.
fn renamed_under(
    alloc: Global,
    guard: Lit,
    places: u64,
    base: u64,
    lits: &[Lit],
) -> Result<Clause, OutOfMemory>
    requires low { All IsNear lits.now }
    requires base { base < 2 ^ 62 }
    ensures { IfOk result (λ c. c ≡ opposite guard ∷ renamed_clause places base lits.now) }
{
    let mut all = Vec::new(alloc);
    all.push(guard.neg())?;
    for lit in lits {
        all.push(renamed(places, base, *lit))?;
    }
    Clause::from_lits(alloc, all.as_slice())
}

/// A core without its guards.
fn without_guards(alloc: Global, places: u64, core: &Clause) -> Result<Clause, OutOfMemory>
    ensures { IfOk result (λ c. c ≡ unguarded places core.now) }
{
    let mut kept = Vec::new(alloc);
    for lit in core.lits() {
        if lit.var() <= places {
            kept.push(*lit)?;
        }
    }
    Clause::from_lits(alloc, kept.as_slice())
}

impl Guarded {
    /// The search over the first states and the steps, with the frame of number 0 and no bad states.
    pub fn new(alloc: Global, system: &System) -> Result<Guarded, OutOfMemory>
        requires { IsFit system.now }
        ensures { IfOk result (λ g. IsHolding (apart_system system.now) [] ([] ∷ []) g) }
    {
        let places = last_place(system);
        let first = simpler_apart(alloc, places, system.first.as_slice())?;
        let step = simpler_apart(alloc, places, system.step.as_slice())?;
        Guarded::over(alloc, places, first, step)
    }

    /// The search over simple lists of the first states and the steps, with the frame of number 0 and no bad states.
    pub fn over(
        alloc: Global,
        places: u64,
        first: ClauseList,
        step: ClauseList,
    ) -> Result<Guarded, OutOfMemory>
        requires low { places < 2 ^ 31 }
        requires first { All (All IsNear) first }
        requires step { All (All IsNear) step }
        ensures { IfOk result (HoldsSimple places first step) }
    {
        let firsts = highest(&first).max(places) - places;
        let steps = highest(&step).max(places) - places;
        let most = most_of(first.len().saturating_add(step.len()));
        let mut held = Guarded::empty(alloc, places, places + 3 + firsts + steps, most)?;
        held.fill(Lit::new(places + 1, false), places + 3, &first)?;
        held.fill(Lit::new(places + 2, false), places + 3 + firsts, &step)?;
        held.simple = SimpleLists {
            first,
            step,
            bad: ClauseList::new(alloc),
        };
        Ok(held)
    }

    /// A search with no clause, with the guards of the three lists above the places, that may have so many clauses.
    fn empty(alloc: Global, places: u64, vars: u64, most: usize) -> Result<Guarded, OutOfMemory>
        requires low { places < 2 ^ 31 }
        requires room { places + 3 ≤ vars }
        requires small { vars < 2 ^ 62 }
        ensures { IfOk result (λ g. IsEmpty places vars g) }
    {
        let search = Search::forgetful(alloc, vars)?;
        let mut frames = Vec::new(alloc);
        frames.push(Lit::new(places + 1, false))?;
        Ok(Guarded {
            search,
            vars,
            places,
            step: Lit::new(places + 2, false),
            bad: Lit::new(places + 3, false),
            frames,
            simple: SimpleLists::none(alloc),
            past: Past {
                work: no_work(),
                most,
            },
        })
    }

    /// What this search and those before it have done.
    pub fn work(&self) -> Work {
        both(self.past.work, self.search.work())
    }

    /// Whether the search has no more clauses than it may have, given and learned.
    pub fn is_small(&self) -> bool {
        let learned = self.search.learned();
        let given = self.search.count().saturating_sub(learned);
        given <= self.past.most && learned <= MOST_LEARNED
    }

    /// Has the search drop what it learned and is of no more use, where that is much.
    pub fn forget(&mut self) -> Result<(), OutOfMemory>
        requires { IsWell self.old }
        ensures { OnOk result (HasAsked self.old self.new) }
    {
        self.search.forget()?;
        Ok(())
    }

    /// Notes what the searches before this one did. It may have twice the clauses that it has now.
    pub fn note_past(&mut self, work: Work)
        requires { IsWell self.old }
        ensures { HasAsked self.old self.new }
    {
        let most = most_of(self.search.count());
        self.past = Past { work, most };
    }

    /// The simple lists, for the search that takes the place of this one.
    pub fn take_lists(&mut self) -> SimpleLists
        ensures { result ≡ self.old.simple }
    {
        let alloc = *self.frames.allocator();
        std::mem::replace(&mut self.simple, SimpleLists::none(alloc))
    }

    /// Has the search make these literals false before any other choice where it is asked about bad states.
    pub fn shun(&mut self, lits: &[Lit])
        ensures { self.new ≡ self.old }
    {
        self.search.shun(self.bad, lits);
    }

    /// The values of so many variables from a number on, as the last question left them. After one that found no clause they are those of an
    /// assignment, in most cases; nothing is promised of them.
    pub fn guess(&self, from: u64, count: u64) -> Result<State, OutOfMemory> {
        let mut values = State::new(*self.frames.allocator());
        for i in 0..count {
            values.push(self.search.guess(from.saturating_add(i)))?;
        }
        Ok(values)
    }

    /// Adds a clause as it is.
    fn put(&mut self, clause: &Clause) -> Result<(), OutOfMemory>
        requires well { IsWell self.old }
        requires up_to { All (IsUpTo self.old.search.kept.vars) clause.now }
        ensures { OnOk result (HasPut self.old self.new (clause.now ∷ [])) }
    {
        self.search.add(clause)?;
        Ok(())
    }

    /// Adds the clauses of a list under a guard, with its gates renamed.
    fn fill(&mut self, guard: Lit, base: u64, list: &ClauseList) -> Result<(), OutOfMemory>
        requires well { IsWell self.old }
        requires guard { IsGuardIn self.old.places self.old.search.kept.vars guard }
        requires base { base < 2 ^ 62 }
        requires low { All (All IsNear) list.now }
        requires room { All (All (HasRoomFor self.old.places base self.old.search.kept.vars)) list.now }
        ensures { OnOk result (HasPut self.old self.new (under_list self.old.places base guard.var list.now)) }
    {
        let alloc = *self.frames.allocator();
        for clause in list.as_slice() {
            let under = renamed_under(alloc, guard, self.places, base, clause.lits())?;
            self.put(&under)?;
        }
        Ok(())
    }

    /// So many variables more.
    fn widen(&mut self, count: u64, panel: &mut Panel) -> Result<(), OutOfMemory>
        requires { IsWell self.old }
        ensures { OnOk result (HasWidened self.old self.new count) }
    {
        for _ in 0..count {
            let var = self.search.fresh(panel)?;
            self.vars = var;
        }
        Ok(())
    }

    /// Retires the bad states that were asked about, and makes a guard for others.
    fn renew_bad(&mut self, panel: &mut Panel) -> Result<(), OutOfMemory>
        requires { IsWell self.old }
        ensures { OnOk result (HasNewBad self.old self.new) }
    {
        let alloc = *self.frames.allocator();
        let past = Clause::from_lits(alloc, &[self.bad.neg()])?;
        self.put(&past)?;
        self.widen(1, panel)?;
        self.bad = Lit::new(self.vars, false);
        Ok(())
    }

    /// Retires the bad states that were asked about, and takes these.
    pub fn take_bad(&mut self, bad: &ClauseList, panel: &mut Panel) -> Result<(), OutOfMemory>
        requires well { IsWell self.old }
        requires low { All (All IsLow) bad.now }
        ensures { OnOk result (TakesBad self.old self.new (apart_list self.old.places bad.now)) }
    {
        let alloc = *self.frames.allocator();
        let simple = simpler_apart(alloc, self.places, bad.as_slice())?;
        self.take_simple(simple, panel)
    }

    /// Retires the bad states that were asked about, and takes those of a simple list.
    pub fn take_simple(&mut self, bad: ClauseList, panel: &mut Panel) -> Result<(), OutOfMemory>
        requires well { IsWell self.old }
        requires near { All (All IsNear) bad }
        ensures { OnOk result (TakesSimple self.old self.new bad) }
    {
        self.renew_bad(panel)?;
        let base = self.vars;
        self.widen(highest(&bad).max(self.places) - self.places, panel)?;
        self.fill(self.bad, base, &bad)?;
        self.simple.bad = bad;
        Ok(())
    }

    /// Adds a clause over states and inputs to those of the bad states that are asked about.
    pub fn add_bad(&mut self, clause: &Clause) -> Result<(), OutOfMemory>
        requires well { IsWell self.old }
        requires up_to { All (IsUpTo self.old.places) clause.now }
        ensures { OnOk result (AddsBad self.old self.new clause.now) }
    {
        let alloc = *self.frames.allocator();
        let under = implied_by(alloc, self.bad, clause.lits())?;
        self.put(&under)?;
        self.simple.bad.push_lits(clause.lits())?;
        Ok(())
    }

    /// Adds a clause that holds in the frames up to a number, at least 1.
    pub fn add(&mut self, frame: usize, clause: &Clause) -> Result<(), OutOfMemory>
        requires well { IsWell self.old }
        requires frame { 0 < frame }
        requires within { frame < length self.old.frames.items }
        requires up_to { All (IsUpTo self.old.places) clause.now }
        ensures { OnOk result (Puts self.old self.new frame clause.now) }
    {
        let alloc = *self.frames.allocator();
        let under = implied_by(alloc, self.frames[frame], clause.lits())?;
        self.put(&under)?;
        Ok(())
    }

    /// A frame more, without clauses.
    pub fn grow(&mut self, panel: &mut Panel) -> Result<(), OutOfMemory>
        requires well { IsWell self.old }
        ensures { OnOk result (Grows self.old self.new) }
    {
        let alloc = *self.frames.allocator();
        let last = self.frames.len() - 1;
        let guard = self.frames[last];
        self.add_guard(panel)?;
        if last == 0 {
            return Ok(());
        }
        let next = implied_by(alloc, guard, &[Lit::new(self.vars, false)])?;
        self.put(&next)?;
        Ok(())
    }

    /// The guard of a frame more.
    fn add_guard(&mut self, panel: &mut Panel) -> Result<(), OutOfMemory>
        requires { IsWell self.old }
        ensures { OnOk result (HasNewFrame self.old self.new) }
    {
        self.widen(1, panel)?;
        self.frames.push(Lit::new(self.vars, false))?;
        Ok(())
    }

    /// Retires all frames but that of number 0, with their clauses.
    pub fn begin_again(&mut self) -> Result<(), OutOfMemory>
        requires well { IsWell self.old }
        ensures { OnOk result (BeginsAgain self.old self.new) }
    {
        let alloc = *self.frames.allocator();
        let last = self.frames.len() - 1;
        if last == 0 {
            return Ok(());
        }
        let past = Clause::from_lits(alloc, &[self.frames[last].neg()])?;
        self.put(&past)?;
        self.frames.truncate(1);
        Ok(())
    }

    /// The guards under which a question is asked, and its assumptions.
    fn guards(
        &self,
        beside: Beside,
        frame: usize,
        assumptions: &[Lit],
    ) -> Result<Vec<Lit>, OutOfMemory>
        requires { frame < length self.now.frames.items }
        ensures { IfOk result (λ all. all.items ≡ asked_guards self.now beside frame ++ assumptions.now) }
    {
        let mut all = Vec::new(*self.frames.allocator());
        all.push(self.frames[frame])?;
        match beside {
            Beside::Nothing => {}
            Beside::Step => all.push(self.step)?,
            Beside::Bad => all.push(self.bad)?,
        }
        all.extend_from_slice(assumptions)?;
        Ok(all)
    }

    /// Looks for an assignment that makes what is asked about, the clauses of a frame and the assumptions true.
    pub fn ask(
        &mut self,
        beside: Beside,
        frame: usize,
        assumptions: &[Lit],
        panel: &mut Panel,
    ) -> Result<Verdict, OutOfMemory>
        requires well { IsWell self.old }
        requires frame { frame < length self.old.frames.items }
        requires up_to { All (IsUpTo self.old.places) assumptions.now }
        requires apart { HasNoOpposites assumptions.now }
        ensures asked { IfOk result (λ v. HasAsked self.old self.new) }
        ensures verdict { IfOk result (λ v. Tells self.old beside frame assumptions.now v) }
    {
        let alloc = *self.frames.allocator();
        let under = self.guards(beside, frame, assumptions)?;
        panel.ready(self.vars)?;
        match self.search.ask(under.as_slice(), panel)? {
            Verdict::Sat(values) => Ok(Verdict::Sat(values)),
            Verdict::Unsat(core) => Ok(Verdict::Unsat(without_guards(alloc, self.places, &core)?)),
        }
    }

    /// The guards under which a question about no frame is asked, and its assumptions.
    fn lone_guards(&self, beside: Beside, assumptions: &[Lit]) -> Result<Vec<Lit>, OutOfMemory>
        ensures { IfOk result (λ all. all.items ≡ lone_guards self.now beside ++ assumptions.now) }
    {
        let mut all = Vec::new(*self.frames.allocator());
        let guard = match beside {
            Beside::Nothing => None,
            Beside::Step => Some(self.step),
            Beside::Bad => Some(self.bad),
        };
        if let Some(guard) = guard {
            all.push(guard)?;
        }
        all.extend_from_slice(assumptions)?;
        Ok(all)
    }

    /// Looks for an assignment that makes what is asked about and the assumptions true, in no frame.
    pub fn find(
        &mut self,
        beside: Beside,
        assumptions: &[Lit],
        panel: &mut Panel,
    ) -> Result<Option<Assign>, OutOfMemory>
        requires well { IsWell self.old }
        requires up_to { All (IsUpTo self.old.places) assumptions.now }
        requires apart { HasNoOpposites assumptions.now }
        ensures asked { IfOk result (λ _. HasAsked self.old self.new) }
        ensures found { IfOk result (λ r. IfSome r (Finds self.old beside assumptions.now)) }
    {
        let under = self.lone_guards(beside, assumptions)?;
        panel.ready(self.vars)?;
        match self.search.ask(under.as_slice(), panel)? {
            Verdict::Sat(values) => Ok(Some(values)),
            Verdict::Unsat(_core) => Ok(None),
        }
    }

    /// Looks for a clause of negated assumptions that holds where what is asked about and the clauses of a frame do. Where none is answered
    /// there may be one.
    pub fn refute(
        &mut self,
        beside: Beside,
        frame: usize,
        assumptions: &[Lit],
        panel: &mut Panel,
    ) -> Result<Option<Clause>, OutOfMemory>
        requires well { IsWell self.old }
        requires frame { frame < length self.old.frames.items }
        requires up_to { All (IsUpTo self.old.places) assumptions.now }
        requires apart { HasNoOpposites assumptions.now }
        ensures asked { IfOk result (λ r. HasAsked self.old self.new) }
        ensures core { IfOk result (λ r. IfSome r (λ core. Tells self.old beside frame assumptions.now (Unsat core))) }
    {
        let alloc = *self.frames.allocator();
        let under = self.guards(beside, frame, assumptions)?;
        panel.ready(self.vars)?;
        match self.search.refute(under.as_slice(), panel)? {
            None => Ok(None),
            Some(core) => Ok(Some(without_guards(alloc, self.places, &core)?)),
        }
    }
}
