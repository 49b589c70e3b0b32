//! Shrinking: of the literals that a bad state makes true as few are left as the frame allows, each tried in turn. So the sets of faults
//! that paths show are minimal among the bad states of the frontier's frame, and a set that is listed later contains one of them.
//! [`shrink`] is the main function. First many literals are given up at once, half of them and then fewer; then each that is left is tried
//! alone. Each answer is taken over, so a literal that a later answer gives up is not tried.
ghost use Rattle.std.specs.Prelude.{◌≡◌, ◌≤◌, ◌<◌, ◌^◌, ◌++◌, ◌∷◌, [], if◌then◌else◌, map, All, Contains, IfOk, OnOk, IfSome};
ghost use Rattle.cut_frames.specs.Parts.{IsPart};
ghost use Rattle.sat_clauses.specs.Literal.{opposite};
ghost use Rattle.sat_clauses.specs.Models.{literal_value, values_of};
ghost use Rattle.cut_frames.specs.OwnVariables.{IsKept};
ghost use Rattle.cut_frames.specs.Levels.{frames_of, IsLevelled};
ghost use Rattle.cut_frames.specs.Minimal.{given_up};
ghost use Rattle.cut_frames.specs.Problem.{IsWellPosed, IsBadFound, IsLess, AreNeeded};

use crate::bits::value;
use crate::guarded::{Beside, Guarded};
use crate::levels::Levels;
use crate::problem::Problem;
use base_values::OutOfMemory;
use sat_adviser::Panel;
use sat_clauses::assign::Assign;
use sat_clauses::lit::Lit;
use sat_solver::solve::Verdict;
use std::alloc::Global;

/// Whether the values make a literal true; a variable without one counts as false.
fn is_true(values: &Assign, lit: Lit) -> bool
    requires positive { 1 ≤ lit.var }
    requires small { lit.var < 2 ^ 62 }
    ensures { result ≡ literal_value (values_of values.now) lit }
{
    value(values, lit.var()) != lit.is_negated()
}

/// Those of the literals that the values don't make true, turned round, and one more.
fn assumed(
    alloc: Global,
    history: &[Lit],
    values: &Assign,
    more: Lit,
) -> Result<Vec<Lit>, OutOfMemory>
    requires { All (λ l. (1 ≤ l.var) × (l.var < 2 ^ 62)) history.now }
    ensures { IfOk result (λ all. all.items ≡ given_up (values_of values.now) history.now ++ opposite more ∷ []) }
{
    let mut all = Vec::new(alloc);
    for lit in history {
        if !is_true(values, *lit) {
            all.push(lit.neg())?;
        }
    }
    all.push(more.neg())?;
    Ok(all)
}

/// Values of a bad state of the last frame that make no more of the literals true than these, and not this one, where there are any; else
/// these.
fn without_one(
    problem: Problem<'_>,
    frames: &Levels,
    lit: Lit,
    values: Assign,
    kept: &mut Guarded,
    panel: &mut Panel,
) -> Result<Assign, OutOfMemory>
    requires problem { IsWellPosed problem }
    requires framed { IsLevelled problem.system.now frames.now }
    requires one { Contains problem.history.now lit }
    requires values { IsBadFound problem frames.now values }
    requires kept { IsKept problem.system.now problem.bad.now (frames_of frames.now) kept.old }
    ensures less { IfOk result (λ found. IsLess problem.entry frames.now lit values found) }
    ensures kept { IfOk result (λ _. IsKept problem.entry.system.now problem.entry.bad.now (frames_of frames.now) kept.new) }
{
    if !is_true(&values, lit) {
        return Ok(values);
    }
    let all = assumed(*frames.held.allocator(), problem.history, &values, lit)?;
    match kept.ask(Beside::Bad, frames.last, all.as_slice(), panel)? {
        Verdict::Sat(found) => Ok(found),
        Verdict::Unsat(_core) => Ok(values),
    }
}

/// How many of the literals the values make true.
fn count_true(history: &[Lit], values: &Assign) -> usize
    requires { All (λ l. (1 ≤ l.var) × (l.var < 2 ^ 62)) history.now }
{
    let mut count = 0usize;
    for lit in history {
        if is_true(values, *lit) {
            count = count.saturating_add(1);
        }
    }
    count
}

/// Appends a literal turned round, if it is to be given up.
fn push_given(all: &mut Vec<Lit>, lit: Lit, gives: bool) -> Result<(), OutOfMemory>
    ensures { OnOk result (all.new.items ≡ (if gives then all.old.items ++ opposite lit ∷ [] else all.old.items)) }
{
    if gives {
        all.push(lit.neg())?;
    }
    Ok(())
}

/// How many are left of those that may be given up.
fn left_after(left: usize, is_on: bool) -> usize {
    if is_on { left.saturating_sub(1) } else { left }
}

/// Those of the literals that the values don't make true, and the first ones that they make true, so many, all turned round.
fn assumed_first(
    alloc: Global,
    history: &[Lit],
    values: &Assign,
    size: usize,
) -> Result<Vec<Lit>, OutOfMemory>
    requires { All (λ l. (1 ≤ l.var) × (l.var < 2 ^ 62)) history.now }
    ensures { IfOk result (λ all. IsPart all.items (map opposite history.now)) }
{
    let mut all = Vec::new(alloc);
    let mut left = size;
    for lit in history {
        let is_on = is_true(values, *lit);
        push_given(&mut all, *lit, !is_on || left > 0)?;
        left = left_after(left, is_on);
    }
    Ok(all)
}

/// Values of a bad state of the last frame that give up so many of the literals at once, where there are any.
fn without_first(
    problem: Problem<'_>,
    frames: &Levels,
    values: &Assign,
    size: usize,
    kept: &mut Guarded,
    panel: &mut Panel,
) -> Result<Option<Assign>, OutOfMemory>
    requires problem { IsWellPosed problem }
    requires framed { IsLevelled problem.system.now frames.now }
    requires kept { IsKept problem.system.now problem.bad.now (frames_of frames.now) kept.old }
    ensures values { IfOk result (λ r. IfSome r (λ found. IsBadFound problem.entry frames.now found)) }
    ensures kept { IfOk result (λ _. IsKept problem.entry.system.now problem.entry.bad.now (frames_of frames.now) kept.new) }
{
    let all = assumed_first(*frames.held.allocator(), problem.history, values, size)?;
    match kept.ask(Beside::Bad, frames.last, all.as_slice(), panel)? {
        Verdict::Sat(found) => Ok(Some(found)),
        Verdict::Unsat(_core) => Ok(None),
    }
}

/// How a search by halves goes on: the values so far, and how many literals are given up at once next.
#[derive(Drop)]
struct Halves {
    values: Assign,
    size: usize,
}

/// Half of the literals that are true given up, or as many as the turn before, or half as many as were tried in vain.
fn halve(
    problem: Problem<'_>,
    frames: &Levels,
    halves: Halves,
    kept: &mut Guarded,
    panel: &mut Panel,
) -> Result<Halves, OutOfMemory>
    requires problem { IsWellPosed problem }
    requires framed { IsLevelled problem.system.now frames.now }
    requires values { IsBadFound problem frames.now halves.values }
    requires kept { IsKept problem.system.now problem.bad.now (frames_of frames.now) kept.old }
    ensures values { IfOk result (λ h. IsBadFound problem.entry frames.now h.values) }
    ensures kept { IfOk result (λ _. IsKept problem.entry.system.now problem.entry.bad.now (frames_of frames.now) kept.new) }
{
    let size = halves
        .size
        .min(count_true(problem.history, &halves.values) / 2);
    if size < 2 {
        return Ok(Halves {
            values: halves.values,
            size: 0,
        });
    }
    match without_first(problem, frames, &halves.values, size, kept, panel)? {
        Some(values) => Ok(Halves { values, size }),
        None => Ok(Halves {
            values: halves.values,
            size: size / 2,
        }),
    }
}

/// Values of a bad state of the last frame that make fewer of the literals true, found by giving up many of them at once.
fn by_halves(
    problem: Problem<'_>,
    frames: &Levels,
    values: Assign,
    kept: &mut Guarded,
    panel: &mut Panel,
) -> Result<Assign, OutOfMemory>
    requires problem { IsWellPosed problem }
    requires framed { IsLevelled problem.system.now frames.now }
    requires values { IsBadFound problem frames.now values }
    requires kept { IsKept problem.system.now problem.bad.now (frames_of frames.now) kept.old }
    ensures values { IfOk result (λ found. IsBadFound problem.entry frames.now found) }
    ensures kept { IfOk result (λ _. IsKept problem.entry.system.now problem.entry.bad.now (frames_of frames.now) kept.new) }
{
    let mut halves = Halves {
        values,
        size: problem.history.len(),
    };
    'turns: for _turn in 0..problem.history.len() {
        if halves.size < 2 {
            return Ok(halves.values);
        }
        halves = halve(problem, frames, halves, kept, panel)?;
    }
    Ok(halves.values)
}

/// Values of a bad state of the last frame that make as few of the literals true as any that make no other of them true than these do.
pub fn shrink(
    problem: Problem<'_>,
    frames: &Levels,
    values: Assign,
    kept: &mut Guarded,
    panel: &mut Panel,
) -> Result<Assign, OutOfMemory>
    requires problem { IsWellPosed problem }
    requires framed { IsLevelled problem.system.now frames.now }
    requires values { IsBadFound problem frames.now values }
    requires kept { IsKept problem.system.now problem.bad.now (frames_of frames.now) kept.old }
    ensures values { IfOk result (λ found. IsBadFound problem.entry frames.now found) }
    ensures needed { IfOk result (AreNeeded problem.entry frames.now) }
    ensures kept { IfOk result (λ _. IsKept problem.entry.system.now problem.entry.bad.now (frames_of frames.now) kept.new) }
{
    let fewer = by_halves(problem, frames, values, kept, panel)?;
    let mut least = fewer;
    'literals: for i in 0..problem.history.len() {
        least = without_one(problem, frames, problem.history[i], least, kept, panel)?;
    }
    Ok(least)
}
