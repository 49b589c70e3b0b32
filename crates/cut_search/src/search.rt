//! The search: looks at one frontier after the other, until an invariant is found or the depth is reached.
ghost use Rattle.std.specs.Prelude.{◌≡◌, ◌↔◌, ◌<◌, ◌^◌, IfOk, true};
ghost use Rattle.cut_search_laws.specs.FoundSets.{sets_of};
ghost use Rattle.cut_search_laws.specs.FlatSearch.{IsBadFor};
ghost use Rattle.cut_frames.specs.Chain.{State, IsFirstState};
ghost use Rattle.cut_frames.specs.FramesRecord.{frontier};
ghost use Rattle.cut_frames.specs.FramesByNumber.{AreNumbered};
ghost use Rattle.cut_search.specs.Progress.{AreListed, IsLooked, AreClear, AreKept, AreLooking, IsBetween, HasGone};
ghost use Rattle.cut_search.specs.Answer.{IsEnd, IsAnswer};

use crate::answer::{Analysis, End, answer};
use crate::encoded::Encoded;
use crate::sets::{SetList, WitnessedSet, list_found};
use crate::show::show;
use base_values::OutOfMemory;
use cut_frames::{Advanced, Cleared, Frames};
use sat_adviser::{News, Panel};
use sat_clauses::clause::ClauseList;
use std::alloc::Global;

/// How far a search goes: to traces of at most so many steps, and sets of at most so many faults.
#[derive(Clone, Copy)]
struct Bounds {
    depth: u32,
    size: u32,
}

/// Tells the panel of a frontier.
fn tell_frontier(steps: usize, panel: &mut Panel)
    requires { steps < 2 ^ 64 }
{
    let news = News::Frontier(steps);
    panel.hears(&news);
}

/// Tells the panel of a set that was found, with a trace of so many steps.
fn tell_found(found: &WitnessedSet, steps: usize, panel: &mut Panel)
    requires { steps < 2 ^ 64 }
{
    let news = News::Set {
        faults: found.set(),
        steps,
    };
    panel.hears(&news);
}

/// Tells the panel that an invariant was found, where so many sets are listed.
fn tell_end(count: usize, panel: &mut Panel)
    requires { count < 2 ^ 64 }
{
    let news = News::Invariant;
    panel.hears(&news);
}

/// Looks once for a bad state of the frontier's frame: lists the set of a path into it, or finds the frame clear.
fn look<E: Encoded>(
    alloc: Global,
    model: &E,
    bounds: Bounds,
    frames: &mut Frames,
    found: Vec<WitnessedSet>,
    panel: &mut Panel,
) -> Result<(Vec<WitnessedSet>, bool), OutOfMemory>
    requires system { frames.old.system ≡ (E.problem model.now).system }
    requires numbered { AreNumbered (E.problem model.now).system frames.old.frames }
    requires listed { AreListed (E.problem model.now) bounds.size found.items }
    requires bad { IsBadFor (E.problem model.now) bounds.size (sets_of found.items) frames.old.bad }
    ensures system { frames.new.system ≡ frames.old.system }
    ensures kept { AreKept (E.problem model.now) frames.old.frames frames.new.frames }
    ensures looked { IfOk result (λ r. IsLooked (E.problem model.now) bounds.size found.items r.0.items frames.new r.1) }
{
    model.is_searched();
    match frames.clear(model.history(), bounds.depth as usize, panel)? {
        Cleared::Clear => Ok((found, true)),
        Cleared::Path(path) => {
            let new = show(alloc, model, &path)?;
            tell_found(&new, new.steps(), panel);
            let clause = model.set_clause(alloc, new.set())?;
            frames.add_bad(clause)?;
            let mut list = found;
            list_found(&mut list, new)?;
            Ok((list, false))
        }
    }
}

/// Lists sets until no state of the frontier's frame is bad.
fn clear_all<E: Encoded>(
    alloc: Global,
    model: &E,
    bounds: Bounds,
    frames: &mut Frames,
    found: Vec<WitnessedSet>,
    panel: &mut Panel,
) -> Result<Vec<WitnessedSet>, OutOfMemory>
    requires system { frames.old.system ≡ (E.problem model.now).system }
    requires numbered { AreNumbered (E.problem model.now).system frames.old.frames }
    requires listed { AreListed (E.problem model.now) bounds.size found.items }
    requires bad { IsBadFor (E.problem model.now) bounds.size (sets_of found.items) frames.old.bad }
    ensures system { frames.new.system ≡ frames.old.system }
    ensures looking { IfOk result
        (λ list. AreLooking (E.problem model.now) bounds.size found.items list.items frames.old.frames frames.new.frames) }
    ensures clear { IfOk result (λ list. AreClear (E.problem model.now) bounds.size list.items frames.new) }
{
    let mut list = found;
    'looks: loop {
        let (next, clear) = look(alloc, model, bounds, frames, list, panel)?;
        list = next;
        if clear {
            return Ok(list);
        }
    }
}

/// Goes a frontier further: an invariant, or the sets that are listed once the next frontier's frame is clear.
fn further<E: Encoded>(
    alloc: Global,
    model: &E,
    bounds: Bounds,
    frames: &mut Frames,
    found: Vec<WitnessedSet>,
    panel: &mut Panel,
) -> Result<(Vec<WitnessedSet>, Option<ClauseList>), OutOfMemory>
    requires system { frames.old.system ≡ (E.problem model.now).system }
    requires between { IsBetween (E.problem model.now) bounds.size found.items frames.old }
    ensures system { frames.new.system ≡ frames.old.system }
    ensures gone { IfOk result (λ r. HasGone (E.problem model.now) bounds.size found.items r.0.items frames.old.frames frames.new r.1) }
{
    model.is_searched();
    match frames.advance(panel)? {
        Advanced::Fixed(clauses) => Ok((found, Some(clauses))),
        Advanced::Further => {
            tell_frontier(frames.frontier(), panel);
            let list = clear_all(alloc, model, bounds, frames, found, panel)?;
            Ok((list, None))
        }
    }
}

/// Whether a first moment exists: whether frames that stand at frontier 0 have a state at all, as each one is bad where no clause is
/// asked about.
fn has_first(alloc: Global, frames: &mut Frames, panel: &mut Panel) -> Result<bool, OutOfMemory>
    requires { frontier frames.old ≡ 0 }
    ensures system { frames.new.system ≡ frames.old.system }
    ensures frontier { frontier frames.new ≡ frontier frames.old }
    ensures numbered { AreNumbered frames.new.system frames.new.frames }
    ensures first { IfOk result (λ b. (b ≡ true) ↔ ((s : State) × IsFirstState frames.old.system s)) }
{
    frames.ask_about(ClauseList::new(alloc), panel)?;
    match frames.clear(&[], 0, panel)? {
        Cleared::Clear => Ok(false),
        Cleared::Path(_path) => Ok(true),
    }
}

/// Has frames that stand at frontier 0 asked about the bad states of no listed set, and lists sets until no first state is bad.
fn begin<E: Encoded>(
    alloc: Global,
    model: &E,
    bounds: Bounds,
    frames: &mut Frames,
    panel: &mut Panel,
) -> Result<Vec<WitnessedSet>, OutOfMemory>
    requires system { frames.old.system ≡ (E.problem model.now).system }
    requires frontier { frontier frames.old ≡ 0 }
    requires numbered { AreNumbered (E.problem model.now).system frames.old.frames }
    ensures system { frames.new.system ≡ frames.old.system }
    ensures between { IfOk result (λ list. IsBetween (E.problem model.now) bounds.size list.items frames.new) }
    ensures frontier { IfOk result (λ _. frontier frames.new ≡ 0) }
{
    let none = SetList::new(alloc);
    let bad = model.bad_clauses(alloc, &none, bounds.size)?;
    frames.ask_about(bad, panel)?;
    tell_frontier(0, panel);
    let found = Vec::new(alloc);
    let begun = clear_all(alloc, model, bounds, frames, found, panel)?;
    Ok(begun)
}

/// Searches in frames that stand at frontier 0, frontier after frontier up to the depth.
fn search<E: Encoded>(
    alloc: Global,
    model: &E,
    bounds: Bounds,
    frames: &mut Frames,
    panel: &mut Panel,
) -> Result<(Vec<WitnessedSet>, End), OutOfMemory>
    requires system { frames.old.system ≡ (E.problem model.now).system }
    requires frontier { frontier frames.old ≡ 0 }
    requires numbered { AreNumbered (E.problem model.now).system frames.old.frames }
    ensures system { frames.new.system ≡ frames.old.system }
    ensures listed { IfOk result (λ r. AreListed (E.problem model.now) bounds.size r.0.items) }
    ensures ends { IfOk result (λ r. IsEnd (E.problem model.now) bounds.depth bounds.size r.0.items r.1) }
{
    model.is_searched();
    let mut list = begin(alloc, model, bounds, frames, panel)?;
    'frontiers: loop {
        if frames.frontier() >= bounds.depth as usize {
            return Ok((list, End::Bounded(bounds.depth)));
        }
        let (next, proof) = further(alloc, model, bounds, frames, list, panel)?;
        list = next;
        if let Some(clauses) = proof {
            tell_end(list.len(), panel);
            return Ok((list, End::Complete(clauses)));
        }
    }
}

/// The frames of a model. They know nothing of its top event, and serve for one after another.
pub fn frames_of<E: Encoded>(alloc: Global, model: &E) -> Result<Frames, OutOfMemory>
    ensures system { IfOk result (λ f. f.system ≡ (E.problem model.now).system) }
    ensures frontier { IfOk result (λ f. frontier f ≡ 0) }
{
    let system = model.encode(alloc)?;
    let frames = Frames::new(alloc, system)?;
    Ok(frames)
}

/// The minimal cut sets of at most so many faults, each with a trace that shows it: for all traces, or for those of at
/// most as many steps as the depth.
///
/// The frames are those of the model, and may have served for other top events. They begin again: the clauses of later
/// frames go, and the search stays with all that it has learned. What was learned under one top event's bad states stands under their
/// guard, which is false from then on.
pub fn analyse<E: Encoded>(
    alloc: Global,
    model: &E,
    depth: u32,
    size: u32,
    frames: &mut Frames,
    panel: &mut Panel,
) -> Result<Analysis, OutOfMemory>
    requires { frames.old.system ≡ (E.problem model.now).system }
    ensures system { frames.new.system ≡ frames.old.system }
    ensures answer { IfOk result (IsAnswer (E.problem model.now) depth size) }
{
    model.is_searched();
    frames.begin_again()?;
    let first = has_first(alloc, frames, panel)?;
    let bounds = Bounds { depth, size };
    let (found, end) = search(alloc, model, bounds, frames, panel)?;
    let made = answer(alloc, found, first, end, size)?;
    Ok(made)
}
