//! A search that keeps what it learned.
//!
//! Its clauses stand in one list by arrival, each marked as added or learned, with the numbers that a checker
//! gives when it is told the same in order. A learned clause is kept where it follows by its hints from those before it, so
//! each is true in every model of the added ones, and that stays so where learned ones go. A question is first asked of a kernel, whose
//! answer is looked at ([`crate::proposed`]), and where that has no right one of the search of [`crate::solve`]. A search whose steps
//! nobody is told can drop the learned clauses that the kernel has forgotten, so that memory is in proportion to what is alive.
ghost use Rattle.std.specs.Prelude.{◌≡◌, ◌+◌, ◌-◌, ◌^◌, ◌<◌, ◌≤◌, [], ◌∷◌, ◌++◌, true, false, length, replicate, All, Contains, IfOk};
ghost use Rattle.std.specs.Prelude.{IfSome, Some, OnOk, OnErr, IsErr};
ghost use Rattle.sat_solver.specs.declared.solve.Verdict.TheVariants.{Unsat};
ghost use Rattle.sat_clauses.specs.Models.{FollowsFrom};
ghost use Rattle.sat_clauses.specs.Derivation.{IsUpTo};
ghost use Rattle.sat_solver.specs.KeptRecord.{CanAssume, IsNextVariable};
ghost use Rattle.sat_solver.specs.LearnedClauses.{added_of, HasLearned, IsAnswer};
ghost use Rattle.sat_solver.specs.Search.{CanSolve, HasAdvised};
ghost use Rattle.sat_solver.specs.Trail.{IsIdle};
ghost use Rattle.sat_solver.specs.Proposals.{IsAnswered};

use crate::alive::still_alive;
use crate::arena::Arena;
use crate::proposed::{Proposer, proposed, refuted};
use crate::question::SearchQuestion;
use crate::solve::{Verdict, solve_on};
use crate::trail::Trail;
use crate::work::Work;
use base_values::OutOfMemory;
use sat_adviser::Panel;
use sat_clauses::clause::Clause;
use sat_clauses::lit::Lit;
use sat_clauses::recorder::{KeepNone, Recorder};
use sat_clauses::store::Store;
use sat_kernel::Kernel;
use std::alloc::Global;
use std::marker::Model;

/// How many clauses may be learned, beside twice those that were left the last time, until those go that the kernel has forgotten: so at
/// least so many are learned from one copy of the others to the next.
const SLACK: usize = 2000;

/// The clauses of a search, added and learned.
#[derive(Drop)]
pub struct Kept {
    store: Arena,
    // What a question makes true; between two questions it has no literal.
    trail: Trail,
    // For each clause whether it was learned.
    marks: Vec<bool>,
    // Whether memory was wanted: from then on nothing is answered.
    failed: bool,
    // How many questions were asked; how many clauses are learned ones, how many of these there may be until some go, and how many went:
    // of these contracts see nothing.
    questions: u64,
    learned: usize,
    most: usize,
    dropped: usize,
    // What proposes answers, unless it once learned what does not follow.
    kernel: Option<Kernel>,
}

impl Model for Kept {
    ghost use Rattle.sat_solver.specs.KeptRecord.{KeptValue};

    ghost Value = { KeptValue };

    ghost use Rattle.sat_solver.specs.KeptInside.{kept_of, IsSound};

    ghost view = { kept_of };

    ghost invariant = { IsSound };
}

impl Kept {
    /// No clause yet, over the variables from 1 to `vars`.
    fn new(alloc: Global, vars: u64) -> Result<Kept, OutOfMemory>
        requires { vars < 2 ^ 62 }
        ensures { IfOk result (λ k. k ≡ record { failed = false; vars = vars; clauses = []; marks = [] }) }
    {
        let trail = idle(alloc, vars)?;
        let kernel = kernel_over(alloc, vars)?;
        Ok(Kept {
            store: Arena::new(alloc, vars)?,
            trail,
            marks: Vec::new(alloc),
            failed: false,
            questions: 0,
            learned: 0,
            most: SLACK,
            dropped: 0,
            kernel,
        })
    }

    /// How many clauses there are, added and learned: each is true in every model of the added ones.
    fn count(&self) -> usize
        ensures value { result ≡ length self.now.clauses }
        ensures follow { self.now.failed ≡ false → All (FollowsFrom (added_of self.now.clauses self.now.marks)) self.now.clauses }
    {
        self.store.count() as usize
    }

    /// What the search has done so far.
    fn work(&self) -> Work {
        let (set, visited, listed) = match &self.kernel {
            Some(kernel) => (kernel.set, kernel.visited, kernel.listed),
            None => (0, 0, 0),
        };
        Work {
            questions: self.questions,
            literals: self.store.literals_set().saturating_add(set),
            visited: self.store.visited().saturating_add(visited),
            listed: self.store.listed().saturating_add(listed),
            learned: self.learned.saturating_add(self.dropped) as u64,
            clauses: self.store.count(),
        }
    }

    /// How many clauses are learned ones.
    fn learned(&self) -> usize {
        self.learned
    }

    /// Has these literals made false before any other choice in questions that assume a guard.
    fn shun(&mut self, guard: Lit, lits: &[Lit])
        ensures { self.new ≡ self.old }
    {
        if let Some(kernel) = &mut self.kernel {
            kernel.shun(guard, lits);
        }
    }

    /// Whether the last question left a variable true.
    fn guess(&self, var: u64) -> bool {
        match &self.kernel {
            Some(kernel) => kernel.is_true(var),
            None => false,
        }
    }

    /// Raises the highest variable by one, and answers it.
    fn fresh(&mut self, panel: &mut Panel) -> Result<u64, OutOfMemory>
        ensures var { IfOk result (IsNextVariable self.old.vars) }
        ensures ready { IfOk result (λ var. panel.new.vars ≡ var) }
        ensures rotated { panel.new.rotated ≡ panel.old.rotated }
        ensures ok { IfOk result (λ _. self.new ≡ record self.old { vars = self.old.vars + 1 }) }
        ensures failed { self.old.failed ≡ true → IsErr result }
        ensures fails { OnErr result (self.new.failed ≡ true) }
    {
        if self.failed {
            return Err(OutOfMemory);
        }
        self.failed = true;
        widen(&mut self.kernel)?;
        self.store.more()?;
        self.trail.more()?;
        let var = self.store.vars();
        ready_all(panel, var)?;
        self.failed = false;
        Ok(var)
    }

    /// Adds a clause.
    fn add(&mut self, lits: &[Lit]) -> Result<(), OutOfMemory>
        requires { All (IsUpTo self.old.vars) lits.now }
        ensures ok { OnOk result (self.new
            ≡ record self.old { clauses = self.old.clauses ++ lits.now ∷ []; marks = self.old.marks ++ false ∷ [] }) }
        ensures failed { self.old.failed ≡ true → IsErr result }
        ensures fails { OnErr result (self.new.failed ≡ true) }
    {
        if self.failed {
            return Err(OutOfMemory);
        }
        self.failed = true;
        tell(&mut self.kernel, lits, self.store.count())?;
        self.store.push(lits)?;
        self.marks.push(false)?;
        self.failed = false;
        Ok(())
    }

    /// Drops the learned clauses that the kernel has forgotten, where many are learned.
    fn forget(&mut self, alloc: Global) -> Result<(), OutOfMemory>
        ensures added { OnOk result (added_of self.new.clauses self.new.marks ≡ added_of self.old.clauses self.old.marks) }
        ensures marked { OnOk result (length self.new.marks ≡ length self.new.clauses) }
        ensures among { OnOk result (All (Contains self.old.clauses) self.new.clauses) }
        ensures fewer { OnOk result (length self.new.clauses ≤ length self.old.clauses) }
        ensures vars { OnOk result (self.new.vars ≡ self.old.vars) }
        ensures failed { self.old.failed ≡ true → IsErr result }
        ensures fails { OnErr result (self.new.failed ≡ true) }
    {
        if self.failed {
            return Err(OutOfMemory);
        }
        if self.learned <= self.most {
            return Ok(());
        }
        self.failed = true;
        let count = self.store.count();
        let stay = still_alive(alloc, &mut self.kernel, &self.store, &self.marks)?;
        self.trail = idle(alloc, stay.store.vars())?;
        self.store = stay.store;
        self.marks = stay.marks;
        let gone = count.saturating_sub(self.store.count()) as usize;
        self.learned = self.learned.saturating_sub(gone);
        self.dropped = self.dropped.saturating_add(gone);
        self.most = self.learned.saturating_mul(2).saturating_add(SLACK);
        self.failed = false;
        Ok(())
    }

    /// Asks for an assignment that makes all added clauses and the assumptions true. A clause that refutes the
    /// assumptions is kept with the others where `cores` holds.
    fn ask<R: Recorder>(
        &mut self,
        question: SearchQuestion<'_>,
        panel: &mut Panel,
        recorder: &mut R,
    ) -> Result<Verdict, OutOfMemory>
        requires can_assume { CanAssume self.old.vars question.assumptions.now }
        ensures answer { IfOk result
            (IsAnswer question.entry.cores self.old.vars (added_of self.old.clauses self.old.marks) self.new.clauses
            question.entry.assumptions.now) }
        ensures learned { IfOk result (λ _. HasLearned self.old.vars self.old.clauses self.old.marks
            (R.kept recorder.old) self.new.clauses self.new.marks (R.kept recorder.new)) }
        ensures vars { IfOk result (λ _. self.new.vars ≡ self.old.vars) }
        ensures advised { HasAdvised panel.old.vars panel.old.rotated panel.new.vars panel.new.rotated }
        ensures failed { self.old.failed ≡ true → IsErr result }
        ensures fails { OnErr result (self.new.failed ≡ true) }
    {
        if self.failed {
            return Err(OutOfMemory);
        }
        self.failed = true;
        self.questions = self.questions.saturating_add(1);
        let proposer = Proposer {
            kernel: &mut self.kernel,
            marks: &self.marks,
        };
        let verdict = answered(
            proposer,
            &mut self.trail,
            &mut self.store,
            question,
            panel,
            recorder,
        )?;
        let learned = mark(&mut self.marks, self.store.count() as usize)?;
        self.learned = self.learned.saturating_add(learned);
        self.failed = false;
        Ok(verdict)
    }

    /// Asks for a clause that refutes the assumptions, of which none is found where there is none, and may be found none elsewhere too. It
    /// is kept with the others where `cores` holds.
    fn refute<R: Recorder>(
        &mut self,
        question: SearchQuestion<'_>,
        panel: &mut Panel,
        recorder: &mut R,
    ) -> Result<Option<Clause>, OutOfMemory>
        requires can_assume { CanAssume self.old.vars question.assumptions.now }
        ensures answer { IfOk result
            (λ r. IfSome r (λ core. IsAnswer question.entry.cores self.old.vars (added_of self.old.clauses self.old.marks)
            self.new.clauses question.entry.assumptions.now (Unsat core))) }
        ensures learned { IfOk result (λ _. HasLearned self.old.vars self.old.clauses self.old.marks
            (R.kept recorder.old) self.new.clauses self.new.marks (R.kept recorder.new)) }
        ensures vars { IfOk result (λ _. self.new.vars ≡ self.old.vars) }
        ensures advised { HasAdvised panel.old.vars panel.old.rotated panel.new.vars panel.new.rotated }
        ensures failed { self.old.failed ≡ true → IsErr result }
        ensures fails { OnErr result (self.new.failed ≡ true) }
    {
        if self.failed {
            return Err(OutOfMemory);
        }
        self.failed = true;
        self.questions = self.questions.saturating_add(1);
        let told = refuted(&mut self.kernel, &mut self.store, question, panel, recorder)?;
        let learned = mark(&mut self.marks, self.store.count() as usize)?;
        self.learned = self.learned.saturating_add(learned);
        self.failed = false;
        Ok(core_of(told))
    }
}

// The clause of a verdict that refutes.
fn core_of(told: Option<Verdict>) -> Option<Clause>
    ensures { IfSome result (λ core. told ≡ Some (Unsat core)) }
{
    match told {
        Some(Verdict::Unsat(core)) => Some(core),
        _ => None,
    }
}

// The answer that the kernel proposes, where it is right, and else that of the search.
fn answered<R: Recorder>(
    proposer: Proposer<'_, '_>,
    trail: &mut Trail,
    store: &mut Arena,
    question: SearchQuestion<'_>,
    panel: &mut Panel,
    recorder: &mut R,
) -> Result<Verdict, OutOfMemory>
    requires can_solve { CanSolve store.old.vars store.old.clauses question.assumptions.now }
    requires empty { store.old.trail ≡ [] }
    requires idle { IsIdle store.old.vars trail.old }
    ensures answered { IfOk result (IsAnswered question.entry.cores question.entry.assumptions.now
        (added_of store.old.clauses proposer.entry.marks.now) store.old store.new (R.kept recorder.old) (R.kept recorder.new) trail.new) }
    ensures advised { HasAdvised panel.old.vars panel.old.rotated panel.new.vars panel.new.rotated }
{
    let told = proposed(proposer, store, question, panel, recorder)?;
    if let Some(verdict) = told {
        return Ok(verdict);
    }
    let found = solve_on(trail, store, question, panel, recorder)?;
    Ok(found)
}

// A trail without a literal, for answers before every variable has a value.
fn idle(alloc: Global, vars: u64) -> Result<Trail, OutOfMemory>
    requires { vars < 2 ^ 62 }
    ensures { IfOk result (IsIdle vars) }
{
    let mut trail = Trail::with_vars(alloc, vars)?;
    trail.note_open(0);
    Ok(trail)
}

// A kernel over the variables from 1 to `vars`.
fn kernel_over(alloc: Global, vars: u64) -> Result<Option<Kernel>, OutOfMemory> {
    let mut kernel = Kernel::new(alloc)?;
    for _ in 0..vars {
        kernel.more()?;
    }
    Ok(Some(kernel))
}

// Has the kernel know one more variable.
fn widen(kernel: &mut Option<Kernel>) -> Result<(), OutOfMemory> {
    if let Some(kernel) = kernel {
        kernel.more()?;
    }
    Ok(())
}

// Has the kernel know one more clause, where there were so many.
fn tell(kernel: &mut Option<Kernel>, lits: &[Lit], count: u64) -> Result<(), OutOfMemory> {
    if let Some(kernel) = kernel {
        kernel.add(lits, count.saturating_add(1))?;
    }
    Ok(())
}

// Makes room in each adviser.
fn ready_all(panel: &mut Panel, vars: u64) -> Result<(), OutOfMemory>
    requires { vars < 2 ^ 62 }
    ensures ready { OnOk result (panel.new.vars ≡ vars) }
    ensures rotated { panel.new.rotated ≡ panel.old.rotated }
{
    panel.ready(vars)
}

// Marks as learned all clauses up to so many, and tells how many had no mark.
fn mark(marks: &mut Vec<bool>, count: usize) -> Result<usize, OutOfMemory>
    ensures { OnOk result (marks.new.items ≡ marks.old.items ++ replicate (count - length marks.old.items) true) }
{
    let missing = count.saturating_sub(marks.len());
    for _ in 0..missing {
        marks.push(true)?;
    }
    Ok(missing)
}

/// A search over all clauses that were added so far, which hands its steps to a recorder.
#[derive(Drop)]
pub struct Search<R: Recorder + Drop> {
    alloc: Global,
    kept: Kept,
    /// Whether a clause that refutes a question's assumptions is kept with the others.
    cores: bool,
    recorder: R,
}

impl<R: Recorder + Drop> Search<R> {
    /// No clause yet, over the variables from 1 to `vars`. A clause that refutes a question's assumptions is kept
    /// with the others.
    pub fn new(alloc: Global, vars: u64, recorder: R) -> Result<Search<R>, OutOfMemory>
        requires { vars < 2 ^ 62 }
        ensures kept { IfOk result (λ s. s.kept ≡ record { failed = false; vars = vars; clauses = []; marks = [] }) }
        ensures recorder { IfOk result (λ s. R.kept s.recorder ≡ R.kept recorder) }
        ensures cores { IfOk result (λ s. s.cores ≡ true) }
    {
        let kept = Kept::new(alloc, vars)?;
        Ok(Search {
            alloc,
            kept,
            cores: true,
            recorder,
        })
    }

    /// How many clauses there are, added and learned: each is true in every model of the added ones.
    pub fn count(&self) -> usize
        ensures value { result ≡ length self.now.kept.clauses }
        ensures follow { self.now.kept.failed ≡ false →
            All (FollowsFrom (added_of self.now.kept.clauses self.now.kept.marks)) self.now.kept.clauses }
    {
        self.kept.count()
    }

    /// What the search has done so far.
    pub fn work(&self) -> Work {
        self.kept.work()
    }

    /// How many of its clauses are learned ones.
    pub fn learned(&self) -> usize {
        self.kept.learned()
    }

    /// What the steps are handed to.
    pub fn recorder(&self) -> &R
        ensures { result.now ≡ self.now.recorder }
    {
        &self.recorder
    }

    /// Has these literals made false before any other choice in the questions that assume a guard, in this order, as long as a question
    /// meets few conflicts. It changes which of the right answers is given: contracts see nothing of it.
    pub fn shun(&mut self, guard: Lit, lits: &[Lit])
        ensures { self.new ≡ self.old }
    {
        self.kept.shun(guard, lits);
    }

    /// Whether the last question left a variable true. After [`Search::refute`] found no clause the values are those of an assignment, in most
    /// cases; nothing is promised of them.
    pub fn guess(&self, var: u64) -> bool {
        self.kept.guess(var)
    }

    /// Raises the highest variable by one, and answers it.
    pub fn fresh(&mut self, panel: &mut Panel) -> Result<u64, OutOfMemory>
        ensures var { IfOk result (IsNextVariable self.old.kept.vars) }
        ensures ready { IfOk result (λ var. panel.new.vars ≡ var) }
        ensures rotated { panel.new.rotated ≡ panel.old.rotated }
        ensures ok { IfOk result (λ _. self.new.kept ≡ record self.old.kept { vars = self.old.kept.vars + 1 }) }
        ensures recorder { R.kept self.new.recorder ≡ R.kept self.old.recorder }
        ensures cores { self.new.cores ≡ self.old.cores }
        ensures failed { self.old.kept.failed ≡ true → IsErr result }
        ensures fails { OnErr result (self.new.kept.failed ≡ true) }
    {
        self.kept.fresh(panel)
    }

    /// Adds a clause.
    pub fn add(&mut self, clause: &Clause) -> Result<(), OutOfMemory>
        requires { All (IsUpTo self.old.kept.vars) clause.now }
        ensures ok { OnOk result (self.new.kept
            ≡ record self.old.kept { clauses = self.old.kept.clauses ++ clause.now ∷ []; marks = self.old.kept.marks ++ false ∷ [] }) }
        ensures recorder { R.kept self.new.recorder ≡ R.kept self.old.recorder }
        ensures cores { self.new.cores ≡ self.old.cores }
        ensures failed { self.old.kept.failed ≡ true → IsErr result }
        ensures fails { OnErr result (self.new.kept.failed ≡ true) }
    {
        self.kept.add(clause.lits())
    }

    /// Asks for an assignment that makes all added clauses and the assumptions true.
    pub fn ask(&mut self, assumptions: &[Lit], panel: &mut Panel) -> Result<Verdict, OutOfMemory>
        requires can_assume { CanAssume self.old.kept.vars assumptions.now }
        ensures answer { IfOk result (λ verdict. IsAnswer self.old.cores self.old.kept.vars
            (added_of self.old.kept.clauses self.old.kept.marks) self.new.kept.clauses assumptions.now verdict) }
        ensures learned { IfOk result (λ _. HasLearned self.old.kept.vars self.old.kept.clauses self.old.kept.marks
            (R.kept self.old.recorder) self.new.kept.clauses self.new.kept.marks (R.kept self.new.recorder)) }
        ensures vars { IfOk result (λ _. self.new.kept.vars ≡ self.old.kept.vars) }
        ensures cores { self.new.cores ≡ self.old.cores }
        ensures advised { HasAdvised panel.old.vars panel.old.rotated panel.new.vars panel.new.rotated }
        ensures failed { self.old.kept.failed ≡ true → IsErr result }
        ensures fails { OnErr result (self.new.kept.failed ≡ true) }
    {
        let question = SearchQuestion {
            alloc: self.alloc,
            assumptions,
            cores: self.cores,
        };
        self.kept.ask(question, panel, &mut self.recorder)
    }
}

impl<R: Recorder + Drop> Search<R> {
    /// Asks for a clause that refutes the assumptions. Where none is answered there may be one: for whoever needs no assignment this is
    /// the cheaper question.
    pub fn refute(
        &mut self,
        assumptions: &[Lit],
        panel: &mut Panel,
    ) -> Result<Option<Clause>, OutOfMemory>
        requires can_assume { CanAssume self.old.kept.vars assumptions.now }
        ensures answer { IfOk result (λ r. IfSome r (λ core. IsAnswer self.old.cores self.old.kept.vars
            (added_of self.old.kept.clauses self.old.kept.marks) self.new.kept.clauses assumptions.now (Unsat core))) }
        ensures learned { IfOk result (λ _. HasLearned self.old.kept.vars self.old.kept.clauses self.old.kept.marks
            (R.kept self.old.recorder) self.new.kept.clauses self.new.kept.marks (R.kept self.new.recorder)) }
        ensures vars { IfOk result (λ _. self.new.kept.vars ≡ self.old.kept.vars) }
        ensures cores { self.new.cores ≡ self.old.cores }
        ensures advised { HasAdvised panel.old.vars panel.old.rotated panel.new.vars panel.new.rotated }
        ensures failed { self.old.kept.failed ≡ true → IsErr result }
        ensures fails { OnErr result (self.new.kept.failed ≡ true) }
    {
        let question = SearchQuestion {
            alloc: self.alloc,
            assumptions,
            cores: self.cores,
        };
        self.kept.refute(question, panel, &mut self.recorder)
    }
}

impl Search<KeepNone> {
    /// No clause yet, over the variables from 1 to `vars`, for a search whose steps nobody is told: a clause that
    /// refutes a question's assumptions is answered and not kept.
    pub fn forgetful(alloc: Global, vars: u64) -> Result<Search<KeepNone>, OutOfMemory>
        requires { vars < 2 ^ 62 }
        ensures kept { IfOk result (λ s. s.kept ≡ record { failed = false; vars = vars; clauses = []; marks = [] }) }
        ensures cores { IfOk result (λ s. s.cores ≡ false) }
    {
        let kept = Kept::new(alloc, vars)?;
        Ok(Search {
            alloc,
            kept,
            cores: false,
            recorder: KeepNone,
        })
    }

    /// Drops learned clauses that are of no more use, once many were learned since the last time; the others take new numbers. Each
    /// added clause stays.
    pub fn forget(&mut self) -> Result<(), OutOfMemory>
        ensures added { OnOk result (added_of self.new.kept.clauses self.new.kept.marks
            ≡ added_of self.old.kept.clauses self.old.kept.marks) }
        ensures marked { OnOk result (length self.new.kept.marks ≡ length self.new.kept.clauses) }
        ensures among { OnOk result (All (Contains self.old.kept.clauses) self.new.kept.clauses) }
        ensures fewer { OnOk result (length self.new.kept.clauses ≤ length self.old.kept.clauses) }
        ensures vars { OnOk result (self.new.kept.vars ≡ self.old.kept.vars) }
        ensures cores { self.new.cores ≡ self.old.cores }
        ensures failed { self.old.kept.failed ≡ true → IsErr result }
        ensures fails { OnErr result (self.new.kept.failed ≡ true) }
    {
        self.kept.forget(self.alloc)
    }
}
