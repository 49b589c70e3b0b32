//! Clearing the last frame of bad states. A state that is bad, or from which a step leads to an obligation, is an obligation
//! of its own in the frame one lower; one of the frame of number 0 is a first state and ends a path. Where no
//! state leads to an obligation, a clause blocks it in the frames up to its own: of the literals of two cores, one of
//! the first states and one of the steps, as few as are needed. A bad state is shrunk before it is an obligation. Once it is blocked,
//! what was blocked on the way is tried in higher frames ([`crate::raise`]). `clear_noting` is the main function.
ghost use Rattle.std.specs.Prelude.{◌≡◌, ◌≤◌, ◌<◌, ◌+◌, ◌-◌, map, IfOk, IfSome, OnOk, OnErr};
ghost use Rattle.sat_clauses.specs.Literal.{opposite};
ghost use Rattle.cut_frames.specs.Bits.{literals_from};
ghost use Rattle.cut_frames.specs.GuardedSearch.{HasAsked};
ghost use Rattle.cut_frames.specs.Minimal.{FindsMinimal};
ghost use Rattle.cut_frames.specs.Parts.{IsPart, IsOfFirst, AreAgreed, AreCores, HoldsFrames};
ghost use Rattle.cut_frames.specs.FrameLists.{InNumber};
ghost use Rattle.cut_frames.specs.Levels.{frames_of, with_clause, IsLevelled, IsTightened};
ghost use Rattle.cut_frames.specs.Problem.{IsWellPosed, IsFrameAt};
ghost use Rattle.cut_frames.specs.ClearLooks.{Blocks, IsBadLook, IsStepLook, IsLook, IsCleared};
ghost use Rattle.cut_frames.specs.Chain.{IsState, IsOverBits};
ghost use Rattle.cut_frames.specs.Path.{AreOwed, IsPath};
ghost use Rattle.cut_frames.specs.OwnVariables.{IsKept};

use crate::bits::{State, broken_by, join, literals, read, state_moment, step_moment};
use crate::fresh::freshen;
use crate::guarded::{Beside, Guarded};
use crate::levels::Levels;
use crate::outline::Outline;
use crate::problem::{FrameAt, Problem};
use crate::raise::raise_all;
use crate::shrink::shrink;
use crate::smaller::{Cores, chosen, smaller};
use crate::steps::StepList;
use crate::walk::walk;
use base_values::OutOfMemory;
use sat_adviser::Panel;
use sat_clauses::assign::Assign;
use sat_clauses::clause::Clause;
use sat_solver::solve::Verdict;

/// What is found where the frames are looked at once.
#[derive(Drop)]
pub enum Look {
    /// There is no obligation, and no bad state in the last frame.
    Nothing,
    /// The newest obligation is a first state.
    IsFirst,
    /// A bad state, or one from which a step leads to the newest obligation: an obligation more.
    Deeper(Assign),
    /// No state leads to the newest obligation: this clause blocks it.
    Blocked(Clause),
}

/// The answer of `clear`.
#[derive(Drop)]
pub enum Cleared {
    /// No state of the frontier's frame is bad.
    Clear,
    /// A path from a first state into a bad one.
    Path(StepList),
}

/// Looks for a bad state in the last frame, one that makes as few of the history literals true as any that make no other of them true.
fn look_for_bad(
    problem: Problem<'_>,
    frames: &Levels,
    kept: &mut Guarded,
    panel: &mut Panel,
) -> Result<Look, OutOfMemory>
    requires problem { IsWellPosed problem }
    requires framed { IsLevelled problem.system.now frames.now }
    requires kept { IsKept problem.system.now problem.bad.now (frames_of frames.now) kept.old }
    ensures look { IfOk result (λ look. IsBadLook problem.entry.system.now problem.entry.bad.now (frames_of frames.now) look) }
    ensures minimal { IfOk result
        (FindsMinimal problem.entry.system.now problem.entry.bad.now (frames_of frames.now) problem.entry.history.now) }
    ensures kept { IfOk result (λ _. IsKept problem.entry.system.now problem.entry.bad.now (frames_of frames.now) kept.new) }
{
    match kept.ask(Beside::Bad, frames.last, &[], panel)? {
        Verdict::Unsat(_core) => Ok(Look::Nothing),
        Verdict::Sat(values) => {
            let least = shrink(problem, frames, values, kept, panel)?;
            let moment = state_moment(*frames.held.allocator(), problem.system, &least)?;
            Ok(Look::Deeper(moment))
        }
    }
}

/// A clause that blocks a state, of literals that every first state needs and of those that steps from the frame before need.
fn blocking(
    outline: &mut Outline,
    at: FrameAt<'_>,
    state: &State,
    cores: &Cores,
    kept: &mut Guarded,
    panel: &mut Panel,
) -> Result<Clause, OutOfMemory>
    requires at { IsFrameAt at }
    requires agreed { AreAgreed at.system.now outline.old.agreed.items }
    requires state { IsState at.system.now state.now }
    requires cores { AreCores at.system.now (frames_of at.frames.now) at.level (map opposite (literals_from 2 state.now)) cores.now }
    requires kept { HoldsFrames at.system.now (frames_of at.frames.now) kept.old }
    ensures same { outline.new.agreed.items ≡ outline.old.agreed.items }
    ensures blocks { IfOk result (Blocks at.entry.system.now (frames_of at.entry.frames.now) at.entry.level state.now) }
    ensures asked { IfOk result (λ _. HasAsked kept.old kept.new) }
{
    let alloc = *at.frames.held.allocator();
    let bits = u64::from(at.system.state_bits);
    let broken = broken_by(alloc, state.as_slice())?;
    let clause = chosen(alloc, bits, &broken, &cores.first, &cores.after)?;
    let least = smaller(outline, at, clause, kept, panel)?;
    outline.weights.note(least.lits())?;
    outline.spoilers.block(at.level, &least);
    Ok(least)
}

/// Looks from a state of the frame of a number, which is no first state, for one before it.
fn look_for_step(
    outline: &mut Outline,
    at: FrameAt<'_>,
    state: &State,
    first: Clause,
    kept: &mut Guarded,
    panel: &mut Panel,
) -> Result<Look, OutOfMemory>
    requires at { IsFrameAt at }
    requires agreed { AreAgreed at.system.now outline.old.agreed.items }
    requires state { IsState at.system.now state.now }
    requires first { IsPart first (map opposite (literals_from 2 state.now)) × IsOfFirst at.system.now first }
    requires kept { HoldsFrames at.system.now (frames_of at.frames.now) kept.old }
    ensures same { outline.new.agreed.items ≡ outline.old.agreed.items }
    ensures look { IfOk result (λ look. IsStepLook at.entry.system.now (frames_of at.entry.frames.now) at.entry.level state.now look) }
    ensures asked { IfOk result (λ _. HasAsked kept.old kept.new) }
{
    let alloc = *at.frames.held.allocator();
    let bits = u64::from(at.system.state_bits);
    let next = literals(alloc, bits + 2, state.as_slice())?;
    match kept.ask(Beside::Step, at.level - 1, next.as_slice(), panel)? {
        Verdict::Sat(values) => {
            let moment = step_moment(alloc, at.system, &values)?;
            Ok(Look::Deeper(moment))
        }
        Verdict::Unsat(core) => {
            let none = Clause::from_lits(alloc, &[])?;
            let after = join(alloc, bits, &none, &core)?;
            let cores = Cores { first, after };
            let clause = blocking(outline, at, state, &cores, kept, panel)?;
            Ok(Look::Blocked(clause))
        }
    }
}

/// Looks from a state for one before it in the frame below that of a number.
pub fn look_against(
    outline: &mut Outline,
    at: FrameAt<'_>,
    state: &State,
    kept: &mut Guarded,
    panel: &mut Panel,
) -> Result<Look, OutOfMemory>
    requires at { IsFrameAt at }
    requires agreed { AreAgreed at.system.now outline.old.agreed.items }
    requires state { IsState at.system.now state.now }
    requires kept { HoldsFrames at.system.now (frames_of at.frames.now) kept.old }
    ensures same { outline.new.agreed.items ≡ outline.old.agreed.items }
    ensures look { IfOk result (λ look. IsStepLook at.entry.system.now (frames_of at.entry.frames.now) at.entry.level state.now look) }
    ensures asked { IfOk result (λ _. HasAsked kept.old kept.new) }
{
    match outline.core_against(at.system, state, kept, panel)? {
        None => Ok(Look::IsFirst),
        Some(first) => {
            let look = look_for_step(outline, at, state, first, kept, panel)?;
            Ok(look)
        }
    }
}

/// Looks from a state of the frame of a number for one before it.
fn look_before(
    outline: &mut Outline,
    at: FrameAt<'_>,
    state: &State,
    kept: &mut Guarded,
    panel: &mut Panel,
) -> Result<Look, OutOfMemory>
    requires at { 0 < at.level → IsFrameAt at }
    requires agreed { AreAgreed at.system.now outline.old.agreed.items }
    requires state { IsState at.system.now state.now }
    requires inside { InNumber at.system.now (frames_of at.frames.now) at.level state.now }
    requires kept { HoldsFrames at.system.now (frames_of at.frames.now) kept.old }
    ensures same { outline.new.agreed.items ≡ outline.old.agreed.items }
    ensures look { IfOk result (λ look. IsStepLook at.entry.system.now (frames_of at.entry.frames.now) at.entry.level state.now look) }
    ensures asked { IfOk result (λ _. HasAsked kept.old kept.new) }
{
    if at.level == 0 {
        return Ok(Look::IsFirst);
    }
    let look = look_against(outline, at, state, kept, panel)?;
    Ok(look)
}

/// The number of the newest of so many obligations' frame.
fn level_of(frames: &Levels, owed: usize) -> usize
    requires some { 0 < owed }
    requires fits { owed ≤ frames.now.last + 1 }
    ensures { result ≡ frames.now.last + 1 - owed }
{
    frames.last - (owed - 1)
}

/// Looks at the newest obligation, or where there is none for a bad state.
fn look_once(
    outline: &mut Outline,
    problem: Problem<'_>,
    frames: &Levels,
    owed: &[Assign],
    kept: &mut Guarded,
    panel: &mut Panel,
) -> Result<Look, OutOfMemory>
    requires problem { IsWellPosed problem }
    requires framed { IsLevelled problem.system.now frames.now }
    requires agreed { AreAgreed problem.system.now outline.old.agreed.items }
    requires owed { AreOwed problem.system.now problem.bad.now (frames_of frames.now) owed.now }
    requires kept { IsKept problem.system.now problem.bad.now (frames_of frames.now) kept.old }
    ensures same { outline.new.agreed.items ≡ outline.old.agreed.items }
    ensures look { IfOk result (λ look. IsLook problem.entry.system.now problem.entry.bad.now (frames_of frames.now) owed.now look) }
    ensures kept { IfOk result (λ _. IsKept problem.entry.system.now problem.entry.bad.now (frames_of frames.now) kept.new) }
{
    if owed.is_empty() {
        kept.shun(problem.history);
        let last = look_for_bad(problem, frames, kept, panel)?;
        return Ok(last);
    }
    let system = problem.system;
    let level = level_of(frames, owed.len());
    let bits = u64::from(system.state_bits);
    let state = read(*frames.held.allocator(), 2, bits, &owed[owed.len() - 1])?;
    let at = FrameAt {
        system,
        frames,
        level,
    };
    let look = look_before(outline, at, &state, kept, panel)?;
    Ok(look)
}

/// Puts a clause into the frames up to a number, in the place of those that say no more, and into the search, where those stay.
pub fn block(
    problem: Problem<'_>,
    frames: &mut Levels,
    level: usize,
    clause: Clause,
    kept: &mut Guarded,
) -> Result<(), OutOfMemory>
    requires framed { IsLevelled problem.system.now frames.old }
    requires level { (0 < level) × (level ≤ frames.old.last) }
    requires clause { IsOverBits problem.system.now clause }
    requires kept { IsKept problem.system.now problem.bad.now (frames_of frames.old) kept.old }
    ensures last { frames.new.last ≡ frames.old.last }
    ensures ok { OnOk result (frames.new.held.items ≡ with_clause level clause frames.old.held.items) }
    ensures err { OnErr result (frames.new.held.items ≡ frames.old.held.items) }
    ensures kept { OnOk result (IsKept problem.entry.system.now problem.entry.bad.now (frames_of frames.new) kept.new) }
{
    kept.add(level, &clause)?;
    frames.put(level, clause)?;
    Ok(())
}

/// Raises what was blocked on the way to a bad state, and returns a path of at most so many steps where one is met.
fn raise(
    outline: &mut Outline,
    problem: Problem<'_>,
    frames: &mut Levels,
    most: usize,
    kept: &mut Guarded,
    panel: &mut Panel,
) -> Result<Option<StepList>, OutOfMemory>
    requires problem { IsWellPosed problem }
    requires framed { IsLevelled problem.system.now frames.old }
    requires agreed { AreAgreed problem.system.now outline.old.agreed.items }
    requires kept { IsKept problem.system.now problem.bad.now (frames_of frames.old) kept.old }
    ensures tightened { IsTightened problem.entry.system.now frames.old frames.new }
    ensures same { outline.new.agreed.items ≡ outline.old.agreed.items }
    ensures path { IfOk result (λ r. IfSome r (IsPath problem.entry.system.now problem.entry.bad.now most)) }
    ensures kept { IfOk result (λ _. IsKept problem.entry.system.now problem.entry.bad.now (frames_of frames.new) kept.new) }
{
    raise_all(outline, problem, frames, kept, panel)?;
    let path = walk(outline, problem, frames, most, kept, panel)?;
    Ok(path)
}

/// Returns a path from a first state into bad, of at most the frontier's number of steps or of at most so many, or that no state of the last
/// frame is bad.
fn clear_frames(
    outline: &mut Outline,
    problem: Problem<'_>,
    frames: &mut Levels,
    most: usize,
    kept: &mut Guarded,
    panel: &mut Panel,
) -> Result<Cleared, OutOfMemory>
    requires problem { IsWellPosed problem }
    requires framed { IsLevelled problem.system.now frames.old }
    requires agreed { AreAgreed problem.system.now outline.old.agreed.items }
    requires kept { IsKept problem.system.now problem.bad.now (frames_of frames.old) kept.old }
    ensures tightened { IsTightened problem.entry.system.now frames.old frames.new }
    ensures same { outline.new.agreed.items ≡ outline.old.agreed.items }
    ensures cleared { IfOk result (λ answer. IsCleared problem.entry.system.now problem.entry.bad.now (frames_of frames.new) most answer) }
    ensures kept { IfOk result (λ _. IsKept problem.entry.system.now problem.entry.bad.now (frames_of frames.new) kept.new) }
{
    let mut owed = StepList::new(*frames.held.allocator());
    'looks: loop {
        freshen(problem, frames, kept, panel)?;
        match look_once(outline, problem, frames, owed.as_slice(), kept, panel)? {
            Look::Nothing => return Ok(Cleared::Clear),
            Look::IsFirst => return Ok(Cleared::Path(owed.reversed())),
            Look::Deeper(moment) => owed.push(moment)?,
            Look::Blocked(clause) => {
                let level = level_of(frames, owed.len());
                outline.note_blocked(problem.system, level, owed.as_slice(), frames.last)?;
                block(problem, frames, level, clause, kept)?;
                owed.pop();
                if owed.is_empty() {
                    if let Some(path) = raise(outline, problem, frames, most, kept, panel)? {
                        return Ok(Cleared::Path(path));
                    }
                }
            }
        }
    }
}

/// Returns the same, where the states of a path are known to be reached from then on.
pub fn clear_noting(
    outline: &mut Outline,
    problem: Problem<'_>,
    frames: &mut Levels,
    most: usize,
    kept: &mut Guarded,
    panel: &mut Panel,
) -> Result<Cleared, OutOfMemory>
    requires problem { IsWellPosed problem }
    requires framed { IsLevelled problem.system.now frames.old }
    requires agreed { AreAgreed problem.system.now outline.old.agreed.items }
    requires kept { IsKept problem.system.now problem.bad.now (frames_of frames.old) kept.old }
    ensures tightened { IsTightened problem.entry.system.now frames.old frames.new }
    ensures same { outline.new.agreed.items ≡ outline.old.agreed.items }
    ensures cleared { IfOk result (λ answer. IsCleared problem.entry.system.now problem.entry.bad.now (frames_of frames.new) most answer) }
    ensures kept { IfOk result (λ _. IsKept problem.entry.system.now problem.entry.bad.now (frames_of frames.new) kept.new) }
{
    let answer = clear_frames(outline, problem, frames, most, kept, panel)?;
    if let Cleared::Path(path) = &answer {
        outline.reached.note(problem.system, path)?;
    }
    Ok(answer)
}
