//! A frame more: each clause that every step from its highest frame keeps goes to the next frame, lowest frames first. Where no
//! clause stays in a frame from number 1 on, that frame and the next are equal: an inductive invariant. What a question about one clause
//! of a frame shows is remembered for the others, and for later frontiers ([`crate::shown`]). `advance_frames` is the main function.
ghost use Rattle.std.specs.Prelude.{◌≡◌, ◌<◌, ◌+◌, length, All, IfOk, OnOk, OnErr, IfSome, None};
ghost use Rattle.cut_frames.specs.FrameLists.{frame_at};
ghost use Rattle.cut_frames.specs.Advance.{IsPushable, IsStrengthened, IsAhead, IsAdvanced};
ghost use Rattle.cut_frames.specs.GuardedSearch.{HasAsked};
ghost use Rattle.cut_frames.specs.OwnVariables.{IsKept};
ghost use Rattle.cut_frames.specs.FrontierGrowth.{DecidesKept};
ghost use Rattle.cut_frames.specs.LastingClauses.{AreLasting};
ghost use Rattle.cut_frames.specs.KnownSteps.{IsSeen, IsShown};
ghost use Rattle.cut_frames.specs.Levels.{frames_of, held_at, IsLevelled, IsTightened, IsPushedFrom, IsStuck, IsLevelPushed};
ghost use Rattle.cut_frames.specs.Levels.{AreLevelsPushed, IsEmptyLevel, AreFilledBelow};
ghost use Rattle.cut_frames.specs.Parts.{IsStateClause, HoldsFrames};
ghost use Rattle.cut_frames.specs.Problem.{IsWellPosed, IsFrameAt};

use crate::bits::{read, turn_next};
use crate::fresh::freshen;
use crate::guarded::{Beside, Guarded};
use crate::lasting::{Lasting, refill};
use crate::levels::Levels;
use crate::problem::{FrameAt, Problem};
use crate::shown::{Seen, forget, is_broken};
use base_values::OutOfMemory;
use sat_adviser::Panel;
use sat_clauses::clause::{Clause, ClauseList};
use sat_solver::solve::Verdict;

/// Tells whether each step from a state of the frame makes the clause true. Where a step that was seen there leads to a state that breaks
/// the clause nothing is asked, and the step that an answer shows is added.
fn keeps(
    at: FrameAt<'_>,
    clause: &Clause,
    seen: &mut Vec<Seen>,
    kept: &mut Guarded,
    panel: &mut Panel,
) -> Result<bool, OutOfMemory>
    requires at { IsFrameAt at }
    requires clause { IsStateClause at.system.now clause.now }
    requires seen { All (IsShown at.system.now (frame_at (frames_of at.frames.now) at.level) at.level) seen.old.items }
    requires kept { HoldsFrames at.system.now (frames_of at.frames.now) kept.old }
    ensures answer { IfOk result
        (λ answer. DecidesKept at.entry.system.now (frame_at (frames_of at.entry.frames.now) at.entry.level) clause.now answer) }
    ensures seen { IfOk result (λ _.
        All (IsShown at.entry.system.now (frame_at (frames_of at.entry.frames.now) at.entry.level) at.entry.level) seen.new.items) }
    ensures asked { IfOk result (λ _. HasAsked kept.old kept.new) }
{
    if is_broken(seen.as_slice(), at.level, clause) {
        return Ok(false);
    }
    let alloc = *at.frames.held.allocator();
    let bits = u64::from(at.system.state_bits);
    let against = turn_next(alloc, bits, clause)?;
    match kept.ask(Beside::Step, at.level, against.as_slice(), panel)? {
        Verdict::Sat(values) => {
            let from = read(alloc, 2, bits, &values)?;
            let to = read(alloc, bits + 2, bits, &values)?;
            seen.push(Seen {
                level: at.level,
                from,
                to,
            })?;
            Ok(false)
        }
        Verdict::Unsat(_core) => Ok(true),
    }
}

/// A clause that may go from the frame of a number to the next, by its place.
#[derive(Clone, Copy)]
struct Candidate {
    level: usize,
    place: usize,
}

/// Takes a clause from the frame of a number to the next, where it is its highest and a step keeps it.
fn push_clause(
    problem: Problem<'_>,
    frames: &mut Levels,
    candidate: Candidate,
    seen: &mut Vec<Seen>,
    kept: &mut Guarded,
    panel: &mut Panel,
) -> Result<(), OutOfMemory>
    requires frame { IsPushable problem frames.old candidate.level }
    requires place { candidate.place < length frames.old.held.items }
    requires seen { All (IsShown problem.system.now (frame_at (frames_of frames.old) candidate.level) candidate.level) seen.old.items }
    requires kept { IsKept problem.system.now problem.bad.now (frames_of frames.old) kept.old }
    ensures frames { IsPushedFrom problem.entry.system.now frames.old frames.new candidate.level }
    ensures pushed { OnOk result (IsStuck problem.entry.system.now frames.new candidate.level (held_at frames.new candidate.place)) }
    ensures seen { OnOk result
        (All (IsShown problem.entry.system.now (frame_at (frames_of frames.old) candidate.level) candidate.level) seen.new.items) }
    ensures kept { OnOk result (IsKept problem.entry.system.now problem.entry.bad.now (frames_of frames.new) kept.new) }
{
    let (level, place) = (candidate.level, candidate.place);
    let number = frames.number_at(place);
    if number != level {
        return Ok(());
    }
    let at = FrameAt {
        system: problem.system,
        frames,
        level,
    };
    if !keeps(at, frames.clause_at(place), seen, kept, panel)? {
        return Ok(());
    }
    kept.add(level + 1, frames.clause_at(place))?;
    frames.raise(place, level + 1);
    Ok(())
}

/// Takes each clause whose highest frame is i and that a step keeps to the next frame.
fn push_frame(
    problem: Problem<'_>,
    frames: &mut Levels,
    i: usize,
    seen: &mut Vec<Seen>,
    kept: &mut Guarded,
    panel: &mut Panel,
) -> Result<(), OutOfMemory>
    requires frame { IsPushable problem frames.old i }
    requires seen { All (IsSeen problem.system.now) seen.old.items }
    requires kept { IsKept problem.system.now problem.bad.now (frames_of frames.old) kept.old }
    ensures frames { IsPushedFrom problem.entry.system.now frames.old frames.new i }
    ensures pushed { OnOk result (IsLevelPushed problem.entry.system.now frames.new i) }
    ensures seen { OnOk result (All (IsSeen problem.entry.system.now) seen.new.items) }
    ensures kept { OnOk result (IsKept problem.entry.system.now problem.entry.bad.now (frames_of frames.new) kept.new) }
{
    freshen(problem, frames, kept, panel)?;
    forget(problem.system, frames, i, seen);
    let count = frames.held.len();
    'clauses: for k in 0..count {
        let candidate = Candidate { level: i, place: k };
        push_clause(problem, frames, candidate, seen, kept, panel)?;
    }
    Ok(())
}

/// Pushes in each frame from 1 on but the last.
fn push_all(
    problem: Problem<'_>,
    frames: &mut Levels,
    seen: &mut Vec<Seen>,
    kept: &mut Guarded,
    panel: &mut Panel,
) -> Result<(), OutOfMemory>
    requires problem { IsWellPosed problem }
    requires framed { IsLevelled problem.system.now frames.old }
    requires seen { All (IsSeen problem.system.now) seen.old.items }
    requires kept { IsKept problem.system.now problem.bad.now (frames_of frames.old) kept.old }
    ensures tightened { IsTightened problem.entry.system.now frames.old frames.new }
    ensures pushed { OnOk result (AreLevelsPushed problem.entry.system.now frames.new frames.new.last) }
    ensures seen { OnOk result (All (IsSeen problem.entry.system.now) seen.new.items) }
    ensures kept { OnOk result (IsKept problem.entry.system.now problem.entry.bad.now (frames_of frames.new) kept.new) }
{
    'frames: for i in 1..frames.last {
        push_frame(problem, frames, i, seen, kept, panel)?;
    }
    Ok(())
}

/// Finds a frame from number 1 on that no clause has as its highest: it and the next are equal.
fn find_fixed(frames: &Levels) -> Option<usize>
    ensures fixed { IfSome result (λ i. IsEmptyLevel frames.now i) }
    ensures none { result ≡ None → AreFilledBelow frames.now frames.now.last }
{
    'frames: for i in 1..frames.last {
        if frames.is_level_empty(i) {
            return Some(i);
        }
    }
    None
}

/// The answer of `advance`.
#[derive(Drop)]
pub enum Advanced {
    /// No two neighbouring frames are equal, and the frontier is one further.
    Further,
    /// Two are; these clauses hold first and are kept by every step.
    Fixed(ClauseList),
}

/// A frame more, without clauses.
fn grow(
    problem: Problem<'_>,
    frames: &mut Levels,
    kept: &mut Guarded,
    panel: &mut Panel,
) -> Result<(), OutOfMemory>
    requires framed { IsLevelled problem.system.now frames.old }
    requires kept { IsKept problem.system.now problem.bad.now (frames_of frames.old) kept.old }
    ensures held { frames.new.held.items ≡ frames.old.held.items }
    ensures ok { OnOk result (frames.new.last ≡ frames.old.last + 1) }
    ensures err { OnErr result (frames.new.last ≡ frames.old.last) }
    ensures kept { OnOk result (IsKept problem.entry.system.now problem.entry.bad.now (frames_of frames.new) kept.new) }
{
    kept.grow(panel)?;
    let count = kept.frames.len();
    frames.last = count.saturating_sub(1);
    Ok(())
}

/// Adds a frame and pushes clauses, and answers an invariant where two neighbouring frames are then equal.
pub fn advance_frames(
    problem: Problem<'_>,
    frames: &mut Levels,
    lasting: &mut Lasting,
    seen: &mut Vec<Seen>,
    kept: &mut Guarded,
    panel: &mut Panel,
) -> Result<Advanced, OutOfMemory>
    requires problem { IsWellPosed problem }
    requires framed { IsLevelled problem.system.now frames.old }
    requires lasting { AreLasting problem.system.now (frames_of frames.old) lasting.old }
    requires seen { All (IsSeen problem.system.now) seen.old.items }
    requires kept { IsKept problem.system.now problem.bad.now (frames_of frames.old) kept.old }
    ensures strengthened { IsStrengthened problem.entry.system.now frames.old frames.new }
    ensures ahead { OnOk result (IsAhead problem.entry frames.old frames.new lasting.new seen.new.items kept.new) }
    ensures advanced { IfOk result (λ answer. IsAdvanced problem.entry.system.now (frames_of frames.old) (frames_of frames.new) answer) }
{
    grow(problem, frames, kept, panel)?;
    refill(problem, frames, lasting, kept)?;
    push_all(problem, frames, seen, kept, panel)?;
    match find_fixed(frames) {
        Some(i) => {
            let found = frames.copy_frame(i)?;
            lasting.take(&found)?;
            Ok(Advanced::Fixed(found))
        }
        None => Ok(Advanced::Further),
    }
}
