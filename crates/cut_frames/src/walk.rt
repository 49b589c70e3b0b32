//! Ways into bad states that were noted while states were raised. A way is walked again from its bad state back to its first one, with
//! a question for each step and in no frame, and is a path then. `walk` is the main function.
ghost use Rattle.std.specs.Prelude.{◌≡◌, ◌<◌, ◌-◌, ◌∷◌, ◌++◌, [], IfOk, IfSome, IsTrue, length, slice_index_or};
ghost use Rattle.cut_frames.specs.Chain.{IsState, IsFirstState};
ghost use Rattle.cut_frames.specs.Levels.{frames_of};
ghost use Rattle.cut_frames.specs.OwnVariables.{IsKept};
ghost use Rattle.cut_frames.specs.Parts.{AreAgreed};
ghost use Rattle.cut_frames.specs.Path.{AreLinked, EndsBad, IsPath, Leads, state_in};
ghost use Rattle.cut_frames.specs.Problem.{IsWellPosed};

use crate::bits::{State, literals, read, state_moment, step_moment};
use crate::guarded::{Beside, Guarded};
use crate::levels::Levels;
use crate::outline::Outline;
use crate::problem::Problem;
use crate::steps::StepList;
use base_values::OutOfMemory;
use sat_adviser::Panel;
use sat_clauses::assign::Assign;

/// The moment of a state that is bad, where it is.
fn begin(
    problem: Problem<'_>,
    frames: &Levels,
    state: &State,
    kept: &mut Guarded,
    panel: &mut Panel,
) -> Result<Option<Assign>, OutOfMemory>
    requires problem { IsWellPosed problem }
    requires state { IsState problem.system.now state.now }
    requires kept { IsKept problem.system.now problem.bad.now (frames_of frames.now) kept.old }
    ensures bad { IfOk result (λ r. IfSome r (EndsBad problem.entry.system.now problem.entry.bad.now)) }
    ensures kept { IfOk result (λ _. IsKept problem.entry.system.now problem.entry.bad.now (frames_of frames.now) kept.new) }
{
    let alloc = *frames.held.allocator();
    let now = literals(alloc, 2, state.as_slice())?;
    match kept.find(Beside::Bad, now.as_slice(), panel)? {
        Some(values) => Ok(Some(state_moment(alloc, problem.system, &values)?)),
        None => Ok(None),
    }
}

/// A moment of a state from which a step leads to the last of these moments, where there is one.
fn step_back(
    problem: Problem<'_>,
    frames: &Levels,
    owed: &[Assign],
    state: &State,
    kept: &mut Guarded,
    panel: &mut Panel,
) -> Result<Option<Assign>, OutOfMemory>
    requires problem { IsWellPosed problem }
    requires some { 0 < length owed.now }
    requires state { IsState problem.system.now state.now }
    requires kept { IsKept problem.system.now problem.bad.now (frames_of frames.now) kept.old }
    ensures leads { IfOk result (λ r. IfSome r (λ a. Leads problem.entry.system.now a
        (state_in problem.entry.system.now (slice_index_or owed.now (length owed.now - 1) [])))) }
    ensures kept { IfOk result (λ _. IsKept problem.entry.system.now problem.entry.bad.now (frames_of frames.now) kept.new) }
{
    let alloc = *frames.held.allocator();
    let bits = u64::from(problem.system.state_bits);
    let next = read(alloc, 2, bits, &owed[owed.len() - 1])?;
    let mut both = state.copy()?;
    both.append(next.as_slice())?;
    let lits = literals(alloc, 2, both.as_slice())?;
    match kept.find(Beside::Step, lits.as_slice(), panel)? {
        Some(values) => Ok(Some(step_moment(alloc, problem.system, &values)?)),
        None => Ok(None),
    }
}

/// One moment more of a way, where it goes on by a state.
fn go_on(
    problem: Problem<'_>,
    frames: &Levels,
    owed: &[Assign],
    state: &State,
    kept: &mut Guarded,
    panel: &mut Panel,
) -> Result<Option<Assign>, OutOfMemory>
    requires problem { IsWellPosed problem }
    requires linked { AreLinked problem.system.now problem.bad.now owed.now }
    requires state { IsState problem.system.now state.now }
    requires kept { IsKept problem.system.now problem.bad.now (frames_of frames.now) kept.old }
    ensures linked { IfOk result (λ r. IfSome r (λ a. AreLinked problem.entry.system.now problem.entry.bad.now (owed.now ++ a ∷ []))) }
    ensures kept { IfOk result (λ _. IsKept problem.entry.system.now problem.entry.bad.now (frames_of frames.now) kept.new) }
{
    if owed.is_empty() {
        let first = begin(problem, frames, state, kept, panel)?;
        return Ok(first);
    }
    let moment = step_back(problem, frames, owed, state, kept, panel)?;
    Ok(moment)
}

/// Whether the last of these moments has a first state.
fn is_at_first(
    outline: &mut Outline,
    problem: Problem<'_>,
    frames: &Levels,
    owed: &[Assign],
    kept: &mut Guarded,
    panel: &mut Panel,
) -> Result<bool, OutOfMemory>
    requires problem { IsWellPosed problem }
    requires agreed { AreAgreed problem.system.now outline.old.agreed.items }
    requires some { 0 < length owed.now }
    requires kept { IsKept problem.system.now problem.bad.now (frames_of frames.now) kept.old }
    ensures same { outline.new.agreed.items ≡ outline.old.agreed.items }
    ensures first { IfOk result (λ b. IsTrue b → IsFirstState problem.entry.system.now
        (state_in problem.entry.system.now (slice_index_or owed.now (length owed.now - 1) []))) }
    ensures kept { IfOk result (λ _. IsKept problem.entry.system.now problem.entry.bad.now (frames_of frames.now) kept.new) }
{
    let bits = u64::from(problem.system.state_bits);
    let state = read(*frames.held.allocator(), 2, bits, &owed[owed.len() - 1])?;
    let core = outline.core_against(problem.system, &state, kept, panel)?;
    Ok(core.is_none())
}

/// The moments of a way, its bad state's first, as far as it goes on by its states.
fn walked(
    problem: Problem<'_>,
    frames: &Levels,
    way: &[State],
    kept: &mut Guarded,
    panel: &mut Panel,
) -> Result<StepList, OutOfMemory>
    requires problem { IsWellPosed problem }
    requires kept { IsKept problem.system.now problem.bad.now (frames_of frames.now) kept.old }
    ensures linked { IfOk result (λ owed. AreLinked problem.entry.system.now problem.entry.bad.now owed) }
    ensures kept { IfOk result (λ _. IsKept problem.entry.system.now problem.entry.bad.now (frames_of frames.now) kept.new) }
{
    let bits = problem.system.state_bits as usize;
    let mut owed = StepList::new(*frames.held.allocator());
    'states: for state in way {
        if state.len() != bits {
            return Ok(owed);
        }
        match go_on(problem, frames, owed.as_slice(), state, kept, panel)? {
            Some(moment) => owed.push(moment)?,
            None => return Ok(owed),
        }
    }
    Ok(owed)
}

/// A path along a way that is told from its bad state back to its first one, of at most so many steps, where it is one.
pub fn walk(
    outline: &mut Outline,
    problem: Problem<'_>,
    frames: &Levels,
    most: usize,
    kept: &mut Guarded,
    panel: &mut Panel,
) -> Result<Option<StepList>, OutOfMemory>
    requires problem { IsWellPosed problem }
    requires agreed { AreAgreed problem.system.now outline.old.agreed.items }
    requires kept { IsKept problem.system.now problem.bad.now (frames_of frames.now) kept.old }
    ensures same { outline.new.agreed.items ≡ outline.old.agreed.items }
    ensures path { IfOk result (λ r. IfSome r (IsPath problem.entry.system.now problem.entry.bad.now most)) }
    ensures kept { IfOk result (λ _. IsKept problem.entry.system.now problem.entry.bad.now (frames_of frames.now) kept.new) }
{
    let way = outline.raised.take_way()?;
    outline.raised.clear();
    if way.is_empty() || way.len() - 1 > most {
        return Ok(None);
    }
    let owed = walked(problem, frames, way.as_slice(), kept, panel)?;
    if owed.is_empty() || owed.len() != way.len() {
        return Ok(None);
    }
    if !is_at_first(outline, problem, frames, owed.as_slice(), kept, panel)? {
        return Ok(None);
    }
    Ok(Some(owed.reversed()))
}
