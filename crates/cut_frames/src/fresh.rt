//! The search made anew. It drops what it learned and is of no more use, but keeps each clause whose place in the frames another one took
//! or that went to the next frame, so it grows with each question. Once it has more than twice the clauses that it began with, [`freshen`]
//! makes one over what is alive: the lists of the system, the bad states that are asked about, and each clause of the frames once. The
//! lists go over as they are, made simpler long before ([`crate::simple`]). So memory is in proportion to what is alive, and no question
//! pays for what was learned long ago.
ghost use Rattle.std.specs.Prelude.{◌≡◌, suc, [], ◌∷◌, IfOk, OnOk};
ghost use Rattle.cut_frames.specs.OwnVariables.{IsKept, AreSimpleFor};
ghost use Rattle.cut_frames.specs.Condition.{IsFit};
ghost use Rattle.cut_frames.specs.Levels.{frames_from, frames_of, IsLevelled};
ghost use Rattle.cut_frames.specs.Problem.{IsWellPosed};

use crate::guarded::{Guarded, last_place};
use crate::levels::Levels;
use crate::problem::Problem;
use crate::simple::SimpleLists;
use base_values::OutOfMemory;
use sat_adviser::Panel;
use sat_clauses::System;
use sat_clauses::clause::ClauseList;
use std::alloc::Global;

/// A search over simple lists of the system and these bad states, with the frame of number 0 alone.
fn bare(
    alloc: Global,
    system: &System,
    bad: &ClauseList,
    lists: SimpleLists,
    panel: &mut Panel,
) -> Result<Guarded, OutOfMemory>
    requires fit { IsFit system.now }
    requires simple { AreSimpleFor system.now bad.now lists }
    ensures { IfOk result (IsKept system.now bad.now ([] ∷ [])) }
{
    let mut kept = Guarded::over(alloc, last_place(system), lists.first, lists.step)?;
    kept.take_simple(lists.bad, panel)?;
    Ok(kept)
}

/// That, with the frames up to a number, without clauses.
fn with_frames(
    alloc: Global,
    system: &System,
    bad: &ClauseList,
    lists: SimpleLists,
    last: usize,
    panel: &mut Panel,
) -> Result<Guarded, OutOfMemory>
    requires fit { IsFit system.now }
    requires simple { AreSimpleFor system.now bad.now lists }
    ensures { IfOk result (IsKept system.now bad.now (frames_from 0 (suc last) [])) }
{
    let mut kept = bare(alloc, system, bad, lists, panel)?;
    for _ in 0..last {
        kept.grow(panel)?;
    }
    Ok(kept)
}

/// That, with the clauses of the frames.
fn renewed(
    system: &System,
    frames: &Levels,
    bad: &ClauseList,
    lists: SimpleLists,
    panel: &mut Panel,
) -> Result<Guarded, OutOfMemory>
    requires fit { IsFit system.now }
    requires framed { IsLevelled system.now frames.now }
    requires simple { AreSimpleFor system.now bad.now lists }
    ensures { IfOk result (IsKept system.now bad.now (frames_of frames.now)) }
{
    let alloc = *frames.held.allocator();
    let mut kept = with_frames(alloc, system, bad, lists, frames.last, panel)?;
    for held in &frames.held {
        if held.highest > 0 {
            kept.add(held.highest, &held.clause)?;
        }
    }
    Ok(kept)
}

/// Has the search drop what it learned and is of no more use, and makes it anew where it has too many clauses.
pub fn freshen(
    problem: Problem<'_>,
    frames: &Levels,
    kept: &mut Guarded,
    panel: &mut Panel,
) -> Result<(), OutOfMemory>
    requires problem { IsWellPosed problem }
    requires framed { IsLevelled problem.system.now frames.now }
    requires kept { IsKept problem.system.now problem.bad.now (frames_of frames.now) kept.old }
    ensures { OnOk result (IsKept problem.entry.system.now problem.entry.bad.now (frames_of frames.now) kept.new) }
{
    kept.forget()?;
    if kept.is_small() {
        return Ok(());
    }
    let past = kept.work();
    let lists = kept.take_lists();
    *kept = renewed(problem.system, frames, problem.bad, lists, panel)?;
    kept.note_past(past);
    Ok(())
}
