//! The kernel: its clauses, its trail, and one question after the other.
ghost use Rattle.std.specs.Prelude.{◌≡◌, ◌<◌, ◌^◌};

use crate::analysis::literal;
use crate::clauses::{Clauses, Watch, at, exchange, put, small};
use crate::trail::{FALSE, FREE, KernelTrail, TRUE};
use base_values::OutOfMemory;
use sat_adviser::Panel;
use sat_clauses::lit::Lit;
use sat_clauses::step::Step;
use std::alloc::Global;

/// How many learned clauses are kept from one question to the next.
const MOST_LESSONS: usize = 1000;

/// How many more may be kept each time that the older half was forgotten.
const MORE_LESSONS: usize = 200;

/// After how many conflicts of a question its wishes are given up.
const PATIENCE: u32 = 20;

/// What a kernel proposes.
#[derive(Drop)]
pub enum Proposal {
    /// All clauses and assumptions are true under the values that it has, where each free variable is false.
    Model,
    /// The clause of this step refutes the assumptions.
    Core(Step),
    /// It has no answer.
    Nothing,
}

/// A search over all clauses that were added so far.
#[derive(Drop)]
pub struct Kernel {
    pub alloc: Global,
    pub vars: u32,
    pub clauses: Clauses,
    pub trail: KernelTrail,
    /// The places of the given clauses.
    pub given: Vec<u32>,
    /// Those of them that may not hold once each free variable is false, each with the literal by which it held when last looked at.
    pub doubtful: Vec<Watch>,
    /// The places of those that were learned, and how many there may be.
    lessons: Vec<u32>,
    most: usize,
    /// Those that were not looked at since they were added, and that nobody watches for.
    fresh: Vec<u32>,
    /// The assumptions of the last question, the first of which are those of the trail's levels.
    asked: Vec<u32>,
    /// What is chosen before anything else where this literal is assumed, and how many of these are known not to be free.
    guard: Lit,
    pub wishes: Vec<u32>,
    pub granted: usize,
    /// How many more conflicts the present question may meet until its wishes are given up, and whether it has met none.
    pub patience: u32,
    pub is_calm: bool,
    /// The place among the doubtful clauses at which looking for one that does not hold ended.
    pub open: usize,
    /// Marked variables, and a list of them.
    pub marks: Vec<bool>,
    pub marked: Vec<usize>,
    /// What the last analysis learned, and the clauses that it used by places on the trail.
    pub learned: Vec<u32>,
    pub used: Vec<u64>,
    pub lits: Vec<Lit>,
    /// The places on the trail of literals that the last analysis used and that are true without any assumption, but not yet learned as
    /// clauses of their own; and for each variable whether that is wanted.
    pub owed: Vec<u32>,
    wanted: Vec<bool>,
    /// The steps of the present question.
    steps: Vec<Step>,
    /// The number of the next clause that is learned.
    next: u32,
    /// How many literals were made true, and how many clauses were visited.
    pub set: u64,
    pub visited: u64,
    /// How many clauses a search would have visited that looks through all of them for each literal.
    pub listed: u64,
}

impl Kernel {
    /// No clause and no variable yet.
    pub fn new(alloc: Global) -> Result<Kernel, OutOfMemory> {
        let mut kernel = Kernel {
            alloc,
            vars: 0,
            clauses: Clauses::new(alloc),
            trail: KernelTrail::new(alloc),
            given: Vec::new(alloc),
            doubtful: Vec::new(alloc),
            lessons: Vec::new(alloc),
            most: MOST_LESSONS,
            fresh: Vec::new(alloc),
            asked: Vec::new(alloc),
            guard: Lit::new(1, false),
            wishes: Vec::new(alloc),
            granted: 0,
            patience: 0,
            is_calm: true,
            open: 0,
            marks: Vec::new(alloc),
            marked: Vec::new(alloc),
            learned: Vec::new(alloc),
            used: Vec::new(alloc),
            lits: Vec::new(alloc),
            owed: Vec::new(alloc),
            wanted: Vec::new(alloc),
            steps: Vec::new(alloc),
            next: 1,
            set: 0,
            visited: 0,
            listed: 0,
        };
        // (there is no variable 0, but a place for it)
        kernel.make_room()?;
        Ok(kernel)
    }

    /// The codes of the clause at a place.
    pub fn lits_of(&self, place: u32) -> &[u32] {
        self.clauses.lits(place)
    }

    /// The number of the clause at a place, for who asks.
    pub fn number_of(&self, place: u32) -> u32 {
        self.clauses.number_at(place)
    }

    /// Makes room for one variable.
    fn make_room(&mut self) -> Result<(), OutOfMemory> {
        self.clauses.more()?;
        self.trail.more()?;
        self.marks.push(false)?;
        self.wanted.push(false)?;
        Ok(())
    }

    /// One more variable.
    pub fn more(&mut self) -> Result<(), OutOfMemory> {
        self.vars = self.vars.checked_add(1).ok_or(OutOfMemory)?;
        if self.vars >= 0x4000_0000 {
            return Err(OutOfMemory);
        }
        self.make_room()
    }

    /// Adds a clause with its number.
    pub fn add(&mut self, lits: &[Lit], number: u64) -> Result<(), OutOfMemory> {
        self.learned.clear();
        for lit in lits {
            let code = u32::try_from(lit.code()).or(Err(OutOfMemory))?;
            if self.learned.contains(&(code ^ 1)) {
                return Ok(());
            }
            if !self.learned.contains(&code) {
                self.learned.push(code)?;
            }
        }
        let number = u32::try_from(number).or(Err(OutOfMemory))?;
        let place = self.clauses.append(self.learned.as_slice(), number)?;
        self.given.push(place)?;
        self.doubt(place)?;
        self.fresh.push(place)?;
        Ok(())
    }

    /// Has these literals made false before any other choice in the questions that assume a guard, in this order, as long as a question
    /// meets few conflicts. Where there is no memory for all of them the last ones are not.
    pub fn shun(&mut self, guard: Lit, lits: &[Lit]) {
        self.guard = guard;
        self.wishes.clear();
        for lit in lits {
            let Ok(code) = u32::try_from(lit.code()) else {
                return;
            };
            if self.wishes.push(code ^ 1).is_err() {
                return;
            }
        }
    }

    /// The steps by which the clauses followed that the last question learned, in order.
    pub fn take_steps(&mut self) -> Vec<Step> {
        let alloc = self.alloc;
        std::mem::replace(&mut self.steps, Vec::new(alloc))
    }

    /// Whether a variable is true where all that are free are false.
    pub fn is_true(&self, var: u64) -> bool {
        match u32::try_from(var) {
            Ok(var) => self.trail.value(var.wrapping_mul(2)) == TRUE,
            Err(_) => false,
        }
    }

    /// Looks for an assignment that makes all clauses and the assumptions true, where so many clauses are numbered. What the first
    /// assumptions made true stays where the question before began with the same.
    pub fn ask(
        &mut self,
        assumptions: &[Lit],
        count: u64,
        panel: &mut Panel,
    ) -> Result<Proposal, OutOfMemory>
        requires { count < 2 ^ 64 }
        ensures vars { panel.new.vars ≡ panel.old.vars }
        ensures rotated { panel.new.rotated ≡ panel.old.rotated }
    {
        let vars = self.vars;
        let next = count.checked_add(1).ok_or(OutOfMemory)?;
        self.next = u32::try_from(next).or(Err(OutOfMemory))?;
        self.begin(assumptions)?;
        if let Some(place) = self.look_at_fresh()? {
            return self.contradiction(place);
        }
        for _ in 0..u64::MAX {
            if let Some(place) = self.propagate()? {
                if self.trail.level() == 0 {
                    return self.contradiction(place);
                }
                self.learn(place, panel)?;
            } else if self.trail.level() == 0 && self.has_forgotten()? {
                continue;
            } else if let Some(proposal) = self.go_on(assumptions, vars, panel)? {
                return Ok(proposal);
            }
        }
        Ok(Proposal::Nothing)
    }

    /// Whether so much is learned that some of it is forgotten.
    fn has_many(&self) -> bool {
        self.lessons.len() >= self.most
    }

    /// Where nothing is assumed, forgets where much is learned; answers whether there was something to do.
    fn has_forgotten(&mut self) -> Result<bool, OutOfMemory> {
        if !self.has_many() {
            return Ok(false);
        }
        self.forget()?;
        Ok(true)
    }

    /// Begins a question: takes back what does not follow from the assumptions that it begins with as the one before did.
    fn begin(&mut self, assumptions: &[Lit]) -> Result<(), OutOfMemory> {
        self.patience = if assumptions.contains(&self.guard) {
            PATIENCE
        } else {
            0
        };
        self.is_calm = true;
        self.granted = 0;
        let same = self.count_same(assumptions);
        self.trail.undo(same);
        self.asked.truncate(same);
        for lit in assumptions.iter().skip(self.asked.len()) {
            let code = u32::try_from(lit.code()).or(Err(OutOfMemory))?;
            self.asked.push(code)?;
        }
        if self.has_many() {
            self.trail.undo(0);
        }
        Ok(())
    }

    /// How many levels of the trail are those of the first assumptions.
    fn count_same(&self, assumptions: &[Lit]) -> usize {
        let mut same = 0;
        for lit in assumptions
            .iter()
            .take(self.trail.level().min(self.asked.len()))
        {
            if u64::from(at(&self.asked, same)) != lit.code() {
                return same;
            }
            same = same.saturating_add(1);
        }
        same
    }

    /// Forgets the older half of what was learned, at the beginning of a trail. The clauses that gave values there may be among them, so
    /// these values are learned first.
    fn forget(&mut self) -> Result<(), OutOfMemory> {
        for i in 0..self.trail.codes.len() {
            self.settle_unit(i)?;
        }
        let alloc = self.alloc;
        let old = std::mem::replace(&mut self.clauses, Clauses::new(alloc));
        for _ in 0..=self.vars {
            self.clauses.more()?;
        }
        self.doubtful.clear();
        let given = std::mem::replace(&mut self.given, Vec::new(alloc));
        for place in &given {
            let copy = self.copy_of(&old, *place)?;
            self.given.push(copy)?;
            self.doubt(copy)?;
        }
        let lessons = std::mem::replace(&mut self.lessons, Vec::new(alloc));
        self.most = self.most.saturating_add(MORE_LESSONS);
        let half = lessons.len() / 2;
        for place in lessons.iter().skip(half) {
            let copy = self.copy_of(&old, *place)?;
            self.lessons.push(copy)?;
        }
        Ok(())
    }

    /// Copies a clause, with two literals first that are not false, and answers its place.
    fn copy_of(&mut self, old: &Clauses, place: u32) -> Result<u32, OutOfMemory> {
        let copy = self.clauses.append(old.lits(place), old.number_at(place))?;
        let _is_free = self.is_free(copy);
        self.clauses.attach(copy)?;
        Ok(copy)
    }

    /// Puts two literals of the clause at a place first that are not false, and answers whether there are two.
    fn is_free(&mut self, place: u32) -> bool {
        let mut front = place as usize;
        let enough = front.saturating_add(2);
        for i in front..self.clauses.end_of(front) {
            let code = at(&self.clauses.codes, i);
            if front < enough && self.trail.value(code) != FALSE {
                exchange(&mut self.clauses.codes, front, i);
                front = front.saturating_add(1);
            }
        }
        front == enough
    }

    /// Whether each clause that was added since the last question has two literals that are not false.
    fn are_fresh_free(&mut self) -> bool {
        for i in 0..self.fresh.len() {
            let place = at(&self.fresh, i);
            if !self.is_free(place) {
                return false;
            }
        }
        true
    }

    /// Has the clauses that were added since the last question watch two literals: those that are unit give a value, and one that is
    /// false is answered. What was made true is taken back where one of them has less than two literals left.
    fn look_at_fresh(&mut self) -> Result<Option<u32>, OutOfMemory> {
        if !self.are_fresh_free() {
            self.trail.undo(0);
        }
        for i in 0..self.fresh.len() {
            let place = at(&self.fresh, i);
            let is_free = self.is_free(place);
            self.clauses.attach(place)?;
            if !is_free && self.is_broken(place)? {
                return Ok(Some(place));
            }
        }
        self.fresh.clear();
        Ok(None)
    }

    /// Makes the one literal of a clause true that is not false, and answers whether there is none.
    fn is_broken(&mut self, place: u32) -> Result<bool, OutOfMemory> {
        let lits = self.lits_of(place);
        let first = at(lits, 0);
        if lits.is_empty() || self.trail.value(first) == FALSE {
            return Ok(true);
        }
        if self.trail.value(first) == FREE {
            self.trail.set(first, place.saturating_add(1))?;
        }
        Ok(false)
    }

    /// Learns the literal at a place of the trail, which is true without any assumption, as a clause of its own, unless it is already.
    fn settle_unit(&mut self, place: usize) -> Result<(), OutOfMemory> {
        let code = at(&self.trail.codes, place);
        let var = (code / 2) as usize;
        if at(&self.trail.units, var) != 0 {
            return Ok(());
        }
        let by = at(&self.trail.reasons, var).saturating_sub(1);
        if self.lits_of(by).len() == 1 {
            let number = self.number_of(by);
            put(&mut self.trail.units, var, number);
            return Ok(());
        }
        self.imply(code, by)?;
        put(&mut self.trail.units, var, self.next);
        let step = self.step()?;
        self.take_step(step)
    }

    /// Wants the literals that gave the one at a place of the trail its value learned as clauses of their own.
    fn want_reasons(&mut self, place: usize) {
        let var = (at(&self.trail.codes, place) / 2) as usize;
        let by = at(&self.trail.reasons, var).saturating_sub(1);
        let length = self.lits_of(by).len();
        for i in 0..length {
            let other = (at(self.lits_of(by), i) / 2) as usize;
            self.want(other);
        }
    }

    /// Wants the value of a variable learned as a clause of its own, unless it is.
    fn want(&mut self, var: usize) {
        if at(&self.trail.units, var) == 0 {
            if let Some(wanted) = self.wanted.get_mut(var) {
                *wanted = true;
            }
        }
    }

    /// Whether the literal at a place of the trail is wanted as a clause of its own.
    fn is_wanted(&self, place: usize) -> bool {
        let var = (at(&self.trail.codes, place) / 2) as usize;
        self.wanted.get(var).copied().unwrap_or(false)
    }

    /// Learns the literals that are owed as clauses of their own, and before them those that they follow from.
    fn settle_owed(&mut self) -> Result<(), OutOfMemory> {
        let mut end = 0;
        for i in 0..self.owed.len() {
            let place = at(&self.owed, i) as usize;
            let var = (at(&self.trail.codes, place) / 2) as usize;
            self.want(var);
            end = end.max(place.saturating_add(1));
        }
        self.owed.clear();
        for place in (0..end).rev() {
            if self.is_wanted(place) {
                self.want_reasons(place);
            }
        }
        for place in 0..end {
            if self.is_wanted(place) {
                self.settle_unit(place)?;
                let var = (at(&self.trail.codes, place) / 2) as usize;
                if let Some(wanted) = self.wanted.get_mut(var) {
                    *wanted = false;
                }
            }
        }
        Ok(())
    }

    /// The step of what was learned, after those of the literals that it uses and that are true without any assumption.
    fn last_step(&mut self) -> Result<Step, OutOfMemory> {
        if self.owed.is_empty() {
            return self.step();
        }
        let alloc = self.alloc;
        let learned = std::mem::replace(&mut self.learned, Vec::new(alloc));
        let used = std::mem::replace(&mut self.used, Vec::new(alloc));
        self.settle_owed()?;
        self.learned = learned;
        self.used = used;
        self.step()
    }

    /// Keeps a step.
    fn take_step(&mut self, step: Step) -> Result<(), OutOfMemory> {
        self.steps.push(step)?;
        self.next = self.next.checked_add(1).ok_or(OutOfMemory)?;
        Ok(())
    }

    /// Learns from a clause that is false, and goes back.
    fn learn(&mut self, place: u32, panel: &mut Panel) -> Result<(), OutOfMemory>
        requires { place < 2 ^ 32 }
        ensures vars { panel.new.vars ≡ panel.old.vars }
        ensures rotated { panel.new.rotated ≡ panel.old.rotated }
    {
        self.patience = self.patience.saturating_sub(1);
        self.is_calm = false;
        self.granted = 0;
        let back = self.analyse(place)?;
        let step = self.last_step()?;
        panel.learned(step.clause.lits());
        let number = self.next;
        self.take_step(step)?;
        let learned = self.clauses.append(self.learned.as_slice(), number)?;
        self.clauses.attach(learned)?;
        self.lessons.push(learned)?;
        self.trail.undo(back);
        let first = at(&self.learned, 0);
        self.trail.set(first, learned.saturating_add(1))
    }

    /// That the clause at a place is false without any assumption.
    fn contradiction(&mut self, place: u32) -> Result<Proposal, OutOfMemory> {
        self.imply(0, place)?;
        Ok(Proposal::Core(self.last_step()?))
    }

    /// The next assumption, or choice, is made true; or an answer is given.
    fn go_on(
        &mut self,
        assumptions: &[Lit],
        vars: u32,
        panel: &mut Panel,
    ) -> Result<Option<Proposal>, OutOfMemory>
        requires { vars < 2 ^ 32 }
        ensures vars { panel.new.vars ≡ panel.old.vars }
        ensures rotated { panel.new.rotated ≡ panel.old.rotated }
    {
        if let Some(lit) = assumptions.get(self.trail.level()) {
            let code = u32::try_from(lit.code()).or(Err(OutOfMemory))?;
            let value = self.trail.value(code);
            if value == FALSE {
                self.refute(code)?;
                return Ok(Some(Proposal::Core(self.last_step()?)));
            }
            self.trail.begin_level()?;
            if value == FREE {
                self.trail.set(code, 0)?;
            }
            return Ok(None);
        }
        if !self.is_open() {
            return Ok(Some(Proposal::Model));
        }
        match self.choose(vars, panel) {
            Some(code) => {
                self.trail.begin_level()?;
                self.trail.set(code, 0)?;
                Ok(None)
            }
            None => Ok(Some(Proposal::Nothing)),
        }
    }
}
