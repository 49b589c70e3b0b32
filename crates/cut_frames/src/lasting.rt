//! Clauses that last from one list of bad states to the next: those of the invariant that was found last. They hold in each first state and
//! every step keeps them, whatever is bad, so once the frames have begun again they are put into each new frame without a question.
//! `refill` is the main function.
ghost use Rattle.std.specs.Prelude.{◌≡◌, ◌<◌, ◌-◌, true, false, [], IfOk, OnOk};
ghost use Rattle.cut_frames.specs.OwnVariables.{IsKept};
ghost use Rattle.cut_frames.specs.Chain.{State, InFrame};
ghost use Rattle.cut_frames.specs.FrameLists.{frame_at, InNumber, IsInductive};
ghost use Rattle.cut_frames.specs.Levels.{frames_of, IsLevelled, IsTightened};

use crate::clear::block;
use crate::guarded::Guarded;
use crate::levels::Levels;
use crate::problem::Problem;
use base_values::OutOfMemory;
use sat_clauses::clause::{Clause, ClauseList};
use std::alloc::Global;

/// Clauses of an invariant.
#[derive(Drop)]
pub struct Lasting {
    /// The clauses.
    pub clauses: ClauseList,
    /// Whether each frame from number 1 on implies them.
    pub is_implied: bool,
}

impl Lasting {
    /// No clause.
    pub fn new(alloc: Global) -> Lasting
        ensures { result ≡ record { clauses = []; is_implied = true } }
    {
        Lasting {
            clauses: ClauseList::new(alloc),
            is_implied: true,
        }
    }

    /// Has the frames that begin again imply the clauses.
    pub fn begin_again(&mut self)
        ensures { self.new ≡ record { clauses = self.old.clauses; is_implied = true } }
    {
        self.is_implied = true;
    }

    /// Takes the clauses of an invariant that was found.
    pub fn take(&mut self, found: &ClauseList) -> Result<(), OutOfMemory>
        ensures { OnOk result (self.new ≡ record { clauses = found.now; is_implied = false }) }
    {
        self.clauses = found.copy()?;
        self.is_implied = false;
        Ok(())
    }
}

/// Puts the clauses of an invariant into the last frame, which each state of the frame before makes true.
fn put_all(
    problem: Problem<'_>,
    frames: &mut Levels,
    clauses: &[Clause],
    kept: &mut Guarded,
) -> Result<(), OutOfMemory>
    requires framed { IsLevelled problem.system.now frames.old }
    requires some { 0 < frames.old.last }
    requires inductive { IsInductive problem.system.now clauses.now }
    requires before { (s : State) → InNumber problem.system.now (frames_of frames.old) (frames.old.last - 1) s →
        InFrame problem.system.now clauses.now s }
    requires kept { IsKept problem.system.now problem.bad.now (frames_of frames.old) kept.old }
    ensures tightened { IsTightened problem.entry.system.now frames.old frames.new }
    ensures implied { OnOk result ((s : State) → InFrame problem.entry.system.now (frame_at (frames_of frames.new) frames.new.last) s →
        InFrame problem.entry.system.now clauses.now s) }
    ensures kept { OnOk result (IsKept problem.entry.system.now problem.entry.bad.now (frames_of frames.new) kept.new) }
{
    for clause in clauses {
        let level = frames.last;
        block(problem, frames, level, clause.copy()?, kept)?;
    }
    Ok(())
}

/// Puts the clauses that last into the last frame, which is new.
pub fn refill(
    problem: Problem<'_>,
    frames: &mut Levels,
    lasting: &Lasting,
    kept: &mut Guarded,
) -> Result<(), OutOfMemory>
    requires framed { IsLevelled problem.system.now frames.old }
    requires some { 0 < frames.old.last }
    requires inductive { IsInductive problem.system.now lasting.now.clauses }
    requires before { lasting.now.is_implied ≡ true → (s : State) →
        InNumber problem.system.now (frames_of frames.old) (frames.old.last - 1) s → InFrame problem.system.now lasting.now.clauses s }
    requires kept { IsKept problem.system.now problem.bad.now (frames_of frames.old) kept.old }
    ensures tightened { IsTightened problem.entry.system.now frames.old frames.new }
    ensures implied { OnOk result (lasting.now.is_implied ≡ true → (s : State) →
        InFrame problem.entry.system.now (frame_at (frames_of frames.new) frames.new.last) s →
        InFrame problem.entry.system.now lasting.now.clauses s) }
    ensures kept { OnOk result (IsKept problem.entry.system.now problem.entry.bad.now (frames_of frames.new) kept.new) }
{
    if !lasting.is_implied {
        return Ok(());
    }
    put_all(problem, frames, lasting.clauses.as_slice(), kept)
}
