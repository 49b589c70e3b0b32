//! Raising states: one that a clause blocks below the last frame is looked at in the frames above that one too, and so is each state from
//! which a step leads to it, the lowest frames first. A clause is then found once for many frontiers in place of anew at each, and it says
//! more; counters and timers gain most. Where a first state is met, the way from it into a bad state is noted: it may have more steps than the
//! frontier's number. `raise_all` is the main function.
ghost use Rattle.std.specs.Prelude.{◌≡◌, ◌≤◌, IfOk, OnOk};
ghost use Rattle.cut_frames.specs.Levels.{frames_of, IsLevelled, IsTightened};
ghost use Rattle.cut_frames.specs.OwnVariables.{IsKept};
ghost use Rattle.cut_frames.specs.Parts.{AreAgreed};
ghost use Rattle.cut_frames.specs.Problem.{IsWellPosed};

use crate::bits::read;
use crate::clear::{Look, block, look_against};
use crate::fresh::freshen;
use crate::guarded::Guarded;
use crate::levels::Levels;
use crate::outline::Outline;
use crate::problem::{FrameAt, Problem};
use crate::shown::is_inside;
use crate::waiting::Waiting;
use base_values::OutOfMemory;
use sat_adviser::Panel;

/// How often states are looked at after a bad state was blocked, beside once for each frame.
const TURNS: usize = 4096;

/// Looks once at a state that waits: what blocks it is put into the frames up to its own, and it waits for the frame above; or a state from
/// which a step leads to it waits before it.
fn raise_one(
    outline: &mut Outline,
    problem: Problem<'_>,
    frames: &mut Levels,
    next: Waiting,
    kept: &mut Guarded,
    panel: &mut Panel,
) -> Result<(), OutOfMemory>
    requires problem { IsWellPosed problem }
    requires framed { IsLevelled problem.system.now frames.old }
    requires agreed { AreAgreed problem.system.now outline.old.agreed.items }
    requires kept { IsKept problem.system.now problem.bad.now (frames_of frames.old) kept.old }
    ensures tightened { IsTightened problem.entry.system.now frames.old frames.new }
    ensures same { outline.new.agreed.items ≡ outline.old.agreed.items }
    ensures kept { OnOk result (IsKept problem.entry.system.now problem.entry.bad.now (frames_of frames.new) kept.new) }
{
    let system = problem.system;
    let bits = u64::from(system.state_bits);
    let (level, last) = (next.level, frames.last);
    if level == 0 || level > last || next.state.as_slice().len() as u64 != bits {
        return Ok(());
    }
    if !is_inside(frames, level, &next.state) {
        return outline.raised.put_back(next.above(), last);
    }
    let at = FrameAt {
        system,
        frames,
        level,
    };
    match look_against(outline, at, &next.state, kept, panel)? {
        Look::Nothing | Look::IsFirst => outline.raised.meet(next.place),
        Look::Deeper(moment) => {
            let before = read(*frames.held.allocator(), 2, bits, &moment)?;
            let place = next.place;
            outline.raised.put_back(next, last)?;
            outline.raised.put_before(level, before, place, last)?;
        }
        Look::Blocked(clause) => {
            block(problem, frames, level, clause, kept)?;
            outline.raised.put_back(next.above(), last)?;
        }
    }
    Ok(())
}

/// Looks at the states that wait, as often as the limit allows or until a first state is met, and drops those that are left.
pub fn raise_all(
    outline: &mut Outline,
    problem: Problem<'_>,
    frames: &mut Levels,
    kept: &mut Guarded,
    panel: &mut Panel,
) -> Result<(), OutOfMemory>
    requires problem { IsWellPosed problem }
    requires framed { IsLevelled problem.system.now frames.old }
    requires agreed { AreAgreed problem.system.now outline.old.agreed.items }
    requires kept { IsKept problem.system.now problem.bad.now (frames_of frames.old) kept.old }
    ensures tightened { IsTightened problem.entry.system.now frames.old frames.new }
    ensures same { outline.new.agreed.items ≡ outline.old.agreed.items }
    ensures kept { OnOk result (IsKept problem.entry.system.now problem.entry.bad.now (frames_of frames.new) kept.new) }
{
    let turns = frames.last.saturating_add(TURNS);
    for _ in 0..turns {
        let Some(next) = outline.raised.take() else {
            return Ok(());
        };
        freshen(problem, frames, kept, panel)?;
        raise_one(outline, problem, frames, next, kept, panel)?;
    }
    outline.raised.drop_waiting();
    Ok(())
}
