//! Smaller clauses: what blocks a state holds more literals than it needs, and one with fewer blocks more states. [`smaller`] takes
//! literals out of a blocking clause one by one, first those that stand in few other clauses. Each try is made by the questions that showed
//! the clause, about the first states and about the steps from the frame before, and takes over what their answers need; where a state
//! that a path has reached breaks what is left, or one after a step that spoiled a try before, none is asked. After some tries in vain the
//! clause stays as it is.
ghost use Rattle.std.specs.Prelude.{◌≡◌, ◌≤◌, ◌<◌, ◌+◌, ◌^◌, ℕ, not, nat_eq, length, IfOk, IfSome, All, true, false, slice_index_or};
ghost use Rattle.std.specs.Prelude.{filter};
ghost use Rattle.cut_frames.specs.GuardedSearch.{HasAsked};
ghost use Rattle.cut_frames.specs.Levels.{frames_of};
ghost use Rattle.cut_frames.specs.Parts.{IsPart, IsAfter, AreAgreed, IsStateClause, AreCores, IsEnough, MayStand, HoldsFrames};
ghost use Rattle.cut_frames.specs.Problem.{IsFrameAt};

use crate::bits::{join, turn_next};
use crate::guarded::{Beside, Guarded};
use crate::outline::Outline;
use crate::problem::FrameAt;
use crate::weights::Weights;
use base_values::OutOfMemory;
use sat_adviser::Panel;
use sat_clauses::clause::Clause;
use sat_clauses::lit::Lit;
use std::alloc::Global;

/// How many literals are tried in vain before a clause is left as it is.
const TRIES: usize = 4;

/// Marks the variables of literals.
fn mark(marks: &mut Vec<bool>, lits: &[Lit])
    requires { All (λ l. l.var < length marks.old.items) lits.now }
    ensures same { length marks.new.items ≡ length marks.old.items }
    ensures marked { All (λ l. slice_index_or marks.new.items l.var false ≡ true) lits.now }
    ensures stay { (x : ℕ) → slice_index_or marks.old.items x false ≡ true → slice_index_or marks.new.items x false ≡ true }
{
    for lit in lits {
        marks[lit.var() as usize] = true;
    }
}

/// The literals of marked variables.
fn marked(alloc: Global, lits: &[Lit], marks: &Vec<bool>) -> Result<Clause, OutOfMemory>
    ensures { IfOk result (λ c. c ≡ filter (λ l. slice_index_or marks.now.items l.var false) lits.now) }
{
    let mut chosen = Vec::new(alloc);
    for lit in lits {
        if marks.get(lit.var() as usize).copied().unwrap_or(false) {
            chosen.push(*lit)?;
        }
    }
    Clause::from_lits(alloc, chosen.as_slice())
}

/// The literals of a clause that stand in one or another of two parts of it, in the clause's order.
pub fn chosen(
    alloc: Global,
    bits: u64,
    clause: &Clause,
    one: &Clause,
    other: &Clause,
) -> Result<Clause, OutOfMemory>
    requires bits { bits < 2 ^ 31 }
    requires over { All (λ l. l.var < bits + 2) clause.now }
    requires one { IsPart one.now clause.now }
    requires other { IsPart other.now clause.now }
    ensures part { IfOk result (λ c. IsPart c clause.now) }
    ensures one { IfOk result (λ c. IsPart one.now c) }
    ensures other { IfOk result (λ c. IsPart other.now c) }
{
    let mut marks = Vec::new(alloc);
    marks.resize(bits as usize + 2, false)?;
    mark(&mut marks, one.lits());
    mark(&mut marks, other.lits());
    let kept = marked(alloc, clause.lits(), &marks)?;
    Ok(kept)
}

/// The literals of other variables than this one.
fn without(alloc: Global, lits: &[Lit], var: u64) -> Result<Clause, OutOfMemory>
    ensures { IfOk result (λ c. c ≡ filter (λ l. not (nat_eq l.var var)) lits.now) }
{
    let mut rest = Vec::new(alloc);
    for lit in lits {
        if lit.var() != var {
            rest.push(*lit)?;
        }
    }
    Clause::from_lits(alloc, rest.as_slice())
}

/// Literals of a clause of which each step from the frame before that of a number makes one true; none where a step makes all of them
/// false.
fn step_core(
    at: FrameAt<'_>,
    clause: &Clause,
    kept: &mut Guarded,
    panel: &mut Panel,
) -> Result<Option<Clause>, OutOfMemory>
    requires at { IsFrameAt at }
    requires clause { IsStateClause at.system.now clause.now }
    requires kept { HoldsFrames at.system.now (frames_of at.frames.now) kept.old }
    ensures core { IfOk result (λ r. IfSome r (λ core. IsPart core clause.now
        × IsAfter at.entry.system.now (frames_of at.entry.frames.now) at.entry.level core)) }
    ensures asked { IfOk result (λ _. HasAsked kept.old kept.new) }
{
    let alloc = *at.frames.held.allocator();
    let bits = u64::from(at.system.state_bits);
    let against = turn_next(alloc, bits, clause)?;
    match kept.refute(Beside::Step, at.level - 1, against.as_slice(), panel)? {
        None => Ok(None),
        Some(core) => {
            let none = Clause::from_lits(alloc, &[])?;
            let back = join(alloc, bits, &none, &core)?;
            Ok(Some(back))
        }
    }
}

/// Parts of a clause that two questions showed.
#[derive(Drop)]
pub struct Cores {
    /// Literals of which every first state makes one true.
    pub first: Clause,
    /// Literals of which each step from the frame before makes one true.
    pub after: Clause,
}

/// The literals of a clause that are needed for a clause which first states make true, and steps from the frame before: those of the
/// part that steps make true alone, where first states make it true too.
fn needed(
    outline: &mut Outline,
    at: FrameAt<'_>,
    clause: &Clause,
    cores: &Cores,
    kept: &mut Guarded,
    panel: &mut Panel,
) -> Result<Clause, OutOfMemory>
    requires at { IsFrameAt at }
    requires agreed { AreAgreed at.system.now outline.old.agreed.items }
    requires clause { IsStateClause at.system.now clause.now }
    requires cores { AreCores at.system.now (frames_of at.frames.now) at.level clause.now cores.now }
    requires kept { HoldsFrames at.system.now (frames_of at.frames.now) kept.old }
    ensures same { outline.new.agreed.items ≡ outline.old.agreed.items }
    ensures enough { IfOk result (λ c. IsEnough at.entry.system.now clause.now cores.now.after c) }
    ensures asked { IfOk result (λ _. HasAsked kept.old kept.new) }
{
    let alloc = *outline.agreed.allocator();
    let bits = u64::from(at.system.state_bits);
    let alone = chosen(alloc, bits, clause, &cores.after, &cores.after)?;
    match outline.core(at.system, &alone, kept, panel)? {
        Some(_core) => Ok(alone),
        None => {
            let both = chosen(alloc, bits, clause, &cores.first, &cores.after)?;
            Ok(both)
        }
    }
}

/// A part of a clause that may be put into the frames up to a number, where questions show one.
fn part_of(
    outline: &mut Outline,
    at: FrameAt<'_>,
    clause: &Clause,
    kept: &mut Guarded,
    panel: &mut Panel,
) -> Result<Option<Clause>, OutOfMemory>
    requires at { IsFrameAt at }
    requires agreed { AreAgreed at.system.now outline.old.agreed.items }
    requires clause { IsStateClause at.system.now clause.now }
    requires kept { HoldsFrames at.system.now (frames_of at.frames.now) kept.old }
    ensures same { outline.new.agreed.items ≡ outline.old.agreed.items }
    ensures part { IfOk result (λ r. IfSome r (λ c. IsPart c clause.now)) }
    ensures stands { IfOk result (λ r. IfSome r (MayStand at.entry.system.now (frames_of at.entry.frames.now) at.entry.level)) }
    ensures asked { IfOk result (λ _. HasAsked kept.old kept.new) }
{
    if outline.reached.has_outside(at.level, clause)
        || outline.spoilers.has_outside(at.level - 1, clause)
    {
        return Ok(None);
    }
    let Some(first) = outline.core(at.system, clause, kept, panel)? else {
        return Ok(None);
    };
    let Some(after) = step_core(at, clause, kept, panel)? else {
        outline.spoilers.note(at, kept)?;
        return Ok(None);
    };
    let cores = Cores { first, after };
    let part = needed(outline, at, clause, &cores, kept, panel)?;
    Ok(Some(part))
}

/// A clause that is made smaller, and how far that has come.
#[derive(Drop)]
struct Attempt {
    /// The clause so far.
    clause: Clause,
    /// The variables of literals that were tried in vain.
    needed: Vec<u64>,
}

impl Attempt {
    /// The variable of the literal that is tried next, unless the clause stays as it is: of those that were not tried the one of the least
    /// weight.
    fn next(&self, weights: &Weights) -> Option<u64> {
        if self.needed.len() >= TRIES || self.clause.lits().len() < 2 {
            return None;
        }
        match weights.least(self.clause.lits(), self.needed.as_slice()) {
            Some(lit) => Some(lit.var()),
            None => None,
        }
    }
}

/// One literal tried: the clause without it and without those that the answers do not need, where they show that such a clause may be put
/// into the frames up to the number too.
fn try_next(
    outline: &mut Outline,
    at: FrameAt<'_>,
    attempt: Attempt,
    kept: &mut Guarded,
    panel: &mut Panel,
) -> Result<Attempt, OutOfMemory>
    requires at { IsFrameAt at }
    requires agreed { AreAgreed at.system.now outline.old.agreed.items }
    requires stands { MayStand at.system.now (frames_of at.frames.now) at.level attempt.clause }
    requires kept { HoldsFrames at.system.now (frames_of at.frames.now) kept.old }
    ensures same { outline.new.agreed.items ≡ outline.old.agreed.items }
    ensures part { IfOk result (λ a. IsPart a.clause attempt.clause) }
    ensures stands { IfOk result (λ a. MayStand at.entry.system.now (frames_of at.entry.frames.now) at.entry.level a.clause) }
    ensures asked { IfOk result (λ _. HasAsked kept.old kept.new) }
{
    let Some(var) = attempt.next(&outline.weights) else {
        return Ok(attempt);
    };
    let fewer = without(*at.frames.held.allocator(), attempt.clause.lits(), var)?;
    match part_of(outline, at, &fewer, kept, panel)? {
        Some(part) => Ok(Attempt {
            clause: part,
            needed: attempt.needed,
        }),
        None => {
            let mut needed = attempt.needed;
            needed.push(var)?;
            Ok(Attempt {
                clause: attempt.clause,
                needed,
            })
        }
    }
}

/// A part of a clause that may be put into the frames up to a number, as the clause may: literals are taken out one by one.
pub fn smaller(
    outline: &mut Outline,
    at: FrameAt<'_>,
    clause: Clause,
    kept: &mut Guarded,
    panel: &mut Panel,
) -> Result<Clause, OutOfMemory>
    requires at { IsFrameAt at }
    requires agreed { AreAgreed at.system.now outline.old.agreed.items }
    requires stands { MayStand at.system.now (frames_of at.frames.now) at.level clause }
    requires kept { HoldsFrames at.system.now (frames_of at.frames.now) kept.old }
    ensures same { outline.new.agreed.items ≡ outline.old.agreed.items }
    ensures part { IfOk result (λ c. IsPart c clause) }
    ensures stands { IfOk result (MayStand at.entry.system.now (frames_of at.entry.frames.now) at.entry.level) }
    ensures asked { IfOk result (λ _. HasAsked kept.old kept.new) }
{
    let turns = clause.lits().len();
    let mut attempt = Attempt {
        clause,
        needed: Vec::new(*at.frames.held.allocator()),
    };
    'turns: for _turn in 0..turns {
        attempt = try_next(outline, at, attempt, kept, panel)?;
    }
    Ok(attempt.clause)
}
