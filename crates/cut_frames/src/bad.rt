//! The bad states that frames are asked about: a list that takes the place of the one before, and clauses that are added to it. A list
//! stands in the search under a guard of its own, so a clause that is added is one clause more under that guard, and nothing is made anew.
ghost use Rattle.std.specs.Prelude.{◌≡◌, ◌++◌, ◌∷◌, [], All, OnOk};
ghost use Rattle.cut_frames.specs.OwnVariables.{IsKept};
ghost use Rattle.cut_frames.specs.Chain.{IsOverBits};
ghost use Rattle.cut_frames.specs.Condition.{IsOverNow};
ghost use Rattle.cut_frames.specs.Levels.{frames_of};

use crate::guarded::Guarded;
use crate::levels::Levels;
use base_values::OutOfMemory;
use sat_adviser::Panel;
use sat_clauses::System;
use sat_clauses::clause::{Clause, ClauseList};

/// Has the search ask about these bad states in the place of those before.
pub fn take_bad(
    system: &System,
    frames: &Levels,
    asked: &ClauseList,
    bad: &ClauseList,
    kept: &mut Guarded,
    panel: &mut Panel,
) -> Result<(), OutOfMemory>
    requires bad { All (All (IsOverNow system.now)) bad.now }
    requires kept { IsKept system.now asked.now (frames_of frames.now) kept.old }
    ensures { OnOk result (IsKept system.now bad.now (frames_of frames.now) kept.new) }
{
    kept.take_bad(bad, panel)
}

/// Has the search ask about a clause over state bits beside those of the bad states so far.
pub fn add_bad(
    system: &System,
    frames: &Levels,
    asked: &mut ClauseList,
    clause: Clause,
    kept: &mut Guarded,
) -> Result<(), OutOfMemory>
    requires clause { IsOverBits system.now clause }
    requires kept { IsKept system.now asked.old (frames_of frames.now) kept.old }
    ensures asked { OnOk result (asked.new ≡ asked.old ++ clause ∷ []) }
    ensures kept { OnOk result (IsKept system.now asked.new (frames_of frames.now) kept.new) }
{
    kept.add_bad(&clause)?;
    asked.push(clause)?;
    Ok(())
}
