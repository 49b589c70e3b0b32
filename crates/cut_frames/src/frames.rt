//! Frames of a system with their frontier: the type that the layers above use.
//!
//! [`Frames`] has the clauses of the frames ([`crate::levels`]) and the one search that is asked about all of them
//! ([`crate::guarded`]). [`Frames::clear`] and [`Frames::advance`] are the two halves of property-directed
//! reachability, with the work done in [`crate::clear`] and [`crate::advance`]; [`Frames::begin_again`] goes back
//! to the frontier 0 for other bad states. Once memory was wanted the frames are spent, and each later call answers
//! want of memory.
ghost use Rattle.std.specs.Prelude.{◌≡◌, ◌↔◌, IsTrue, ◌+◌, ◌∷◌, ◌++◌, [], IfOk, OnOk, All, false};
ghost use Rattle.cut_frames.specs.Chain.{IsOverBits};
ghost use Rattle.cut_frames.specs.Condition.{IsOverNow, IsFit};
ghost use Rattle.cut_frames.specs.FrameLists.{AreStronger, ArePushed};
ghost use Rattle.cut_frames.specs.ClearLooks.{IsCleared};
ghost use Rattle.cut_frames.specs.Minimal.{IsHistory};
ghost use Rattle.cut_frames.specs.Advance.{IsAdvanced};
ghost use Rattle.cut_frames.specs.FramesRecord.{frontier, StaysSpent};
ghost use Rattle.cut_frames.specs.FramesByNumber.{AreNumbered};

use crate::advance::{Advanced, advance_frames};
use crate::bad::{add_bad, take_bad};
use crate::clear::{Cleared, clear_noting};
use crate::condition::are_over_now;
use crate::guarded::Guarded;
use crate::lasting::Lasting;
use crate::levels::Levels;
use crate::outline::Outline;
use crate::problem::Problem;
use crate::shown::Seen;
use base_values::OutOfMemory;
use sat_adviser::Panel;
use sat_clauses::System;
use sat_clauses::clause::{Clause, ClauseList};
use sat_clauses::lit::Lit;
use sat_solver::work::Work;
use std::alloc::Global;
use std::marker::Model;

/// Frames of a system, and their frontier.
#[derive(Drop)]
pub struct Frames {
    system: System,
    levels: Levels,
    // The search over the system's lists, and over the bad states that are asked about.
    kept: Guarded,
    bad: ClauseList,
    // The clauses of the invariant that was found last.
    lasting: Lasting,
    // Steps that were seen when clauses were pushed.
    seen: Vec<Seen>,
    // What is known of the first states, from the first call of `clear` on.
    outline: Outline,
    spent: bool,
    // How many clauses were added to bad states: of this contracts see nothing.
    found: u64,
}

impl Model for Frames {
    ghost use Rattle.cut_frames.specs.FramesRecord.{FramesValue};

    ghost Value = { FramesValue };

    ghost use Rattle.cut_frames.specs.FramesView.{value_of, AreSound};

    ghost view = { value_of };

    ghost invariant = { AreSound };
}

impl Frames {
    /// Frames with the frontier 0.
    pub fn new(alloc: Global, system: System) -> Result<Frames, OutOfMemory>
        requires { IsFit system }
        ensures system { IfOk result (λ f. f.system ≡ system) }
        ensures frontier { IfOk result (λ f. frontier f ≡ 0) }
        ensures numbered { IfOk result (λ f. AreNumbered f.system f.frames) }
        ensures bad { IfOk result (λ f. f.bad ≡ []) }
        ensures ready { IfOk result (λ f. f.spent ≡ false) }
    {
        let kept = Guarded::new(alloc, &system)?;
        Ok(Frames {
            system,
            levels: Levels::new(alloc),
            kept,
            bad: ClauseList::new(alloc),
            lasting: Lasting::new(alloc),
            seen: Vec::new(alloc),
            outline: Outline::new(alloc),
            spent: false,
            found: 0,
        })
    }

    /// The number of the last frame. Each frame implies the next, alone and with a step.
    pub fn frontier(&self) -> usize
        ensures value { result ≡ frontier self.now }
        ensures numbered { AreNumbered self.now.system self.now.frames }
    {
        self.levels.last
    }

    /// What the search has done so far. No contract speaks of it: it is for measuring.
    pub fn work(&self) -> Work {
        self.kept.work()
    }

    /// How many clauses were added to bad states so far, one by each call of [`Frames::add_bad`]: for measuring too.
    pub fn found(&self) -> u64 {
        self.found
    }

    /// How many clauses stand in frames, and how many in the list of the bad states: for measuring too.
    pub fn held(&self) -> (usize, usize) {
        (self.levels.held.len(), self.bad.len())
    }

    /// Whether a list may be asked about: its variables are 1, state bits now, and others above those of
    /// states and inputs, all below 2^31.
    pub fn can_clear(&self, bad: &ClauseList) -> bool
        ensures { IsTrue result ↔ All (All (IsOverNow self.now.system)) bad.now }
    {
        are_over_now(&self.system, bad)
    }

    /// Has the frames asked about these bad states in the place of those before.
    pub fn ask_about(&mut self, bad: ClauseList, panel: &mut Panel) -> Result<(), OutOfMemory>
        requires { All (All (IsOverNow self.old.system)) bad }
        ensures system { self.new.system ≡ self.old.system }
        ensures frames { self.new.frames ≡ self.old.frames }
        ensures numbered { AreNumbered self.new.system self.new.frames }
        ensures bad { OnOk result (self.new.bad ≡ bad) }
        ensures spent { StaysSpent self.old.spent self.new.spent result }
    {
        if self.spent {
            return Err(OutOfMemory);
        }
        let answer = take_bad(
            &self.system,
            &self.levels,
            &self.bad,
            &bad,
            &mut self.kept,
            panel,
        );
        self.bad = bad;
        self.spent = answer.is_err();
        answer
    }

    /// Adds a clause over state bits to those of the bad states that are asked about: from now on a state is bad only where it makes this
    /// clause true too.
    pub fn add_bad(&mut self, clause: Clause) -> Result<(), OutOfMemory>
        requires { IsOverBits self.old.system clause }
        ensures system { self.new.system ≡ self.old.system }
        ensures frames { self.new.frames ≡ self.old.frames }
        ensures numbered { AreNumbered self.new.system self.new.frames }
        ensures bad { OnOk result (self.new.bad ≡ self.old.bad ++ clause ∷ []) }
        ensures spent { StaysSpent self.old.spent self.new.spent result }
    {
        if self.spent {
            return Err(OutOfMemory);
        }
        let answer = add_bad(
            &self.system,
            &self.levels,
            &mut self.bad,
            clause,
            &mut self.kept,
        );
        self.spent = answer.is_err();
        self.found = self.found.saturating_add(1);
        answer
    }

    /// Returns a path from a first state into a bad one, of at most the frontier's number of steps or of at most so many, or that no state of
    /// the frontier's frame is bad. A bad state is taken that makes as few of these literals true as any bad state of that frame that makes
    /// no other of them true. A path of more steps than the frontier's number is met by the way, and may be there where none is answered.
    pub fn clear(
        &mut self,
        history: &[Lit],
        most: usize,
        panel: &mut Panel,
    ) -> Result<Cleared, OutOfMemory>
        requires history { IsHistory self.old.system history.now }
        ensures system { self.new.system ≡ self.old.system }
        ensures frontier { frontier self.new ≡ frontier self.old }
        ensures numbered { AreNumbered self.new.system self.new.frames }
        ensures stronger { AreStronger self.old.system self.old.frames self.new.frames }
        ensures bad { self.new.bad ≡ self.old.bad }
        ensures cleared { IfOk result (λ answer. IsCleared self.old.system self.old.bad self.new.frames most answer) }
        ensures spent { StaysSpent self.old.spent self.new.spent result }
    {
        if self.spent {
            return Err(OutOfMemory);
        }
        let found = self.outline.find(&self.system, &mut self.kept, panel);
        if found.is_err() {
            self.spent = true;
            return Err(OutOfMemory);
        }
        let problem = Problem {
            system: &self.system,
            bad: &self.bad,
            history,
        };
        let answer = clear_noting(
            &mut self.outline,
            problem,
            &mut self.levels,
            most,
            &mut self.kept,
            panel,
        );
        self.spent = answer.is_err();
        answer
    }

    /// Adds a frame and pushes clauses, and answers an invariant where two neighbouring frames are then
    /// equal.
    pub fn advance(&mut self, panel: &mut Panel) -> Result<Advanced, OutOfMemory>
        ensures system { self.new.system ≡ self.old.system }
        ensures frontier { OnOk result (frontier self.new ≡ frontier self.old + 1) }
        ensures numbered { AreNumbered self.new.system self.new.frames }
        ensures stronger { AreStronger self.old.system self.old.frames self.new.frames }
        ensures bad { self.new.bad ≡ self.old.bad }
        ensures pushed { OnOk result (ArePushed self.old.system self.new.frames) }
        ensures advanced { IfOk result (λ answer. IsAdvanced self.old.system self.old.frames self.new.frames answer) }
        ensures spent { StaysSpent self.old.spent self.new.spent result }
    {
        if self.spent {
            return Err(OutOfMemory);
        }
        let problem = Problem {
            system: &self.system,
            bad: &self.bad,
            history: &[],
        };
        let answer = advance_frames(
            problem,
            &mut self.levels,
            &mut self.lasting,
            &mut self.seen,
            &mut self.kept,
            panel,
        );
        self.spent = answer.is_err();
        answer
    }

    /// Back to the frontier 0, for a search for other bad states. The search stays, with all that it has learned, and the clauses of the
    /// invariant that was found last stand in each later frame; the other clauses of later frames go.
    pub fn begin_again(&mut self) -> Result<(), OutOfMemory>
        ensures system { self.new.system ≡ self.old.system }
        ensures frontier { OnOk result (frontier self.new ≡ 0) }
        ensures numbered { AreNumbered self.new.system self.new.frames }
        ensures empty { OnOk result (self.new.frames ≡ [] ∷ []) }
        ensures spent { StaysSpent self.old.spent self.new.spent result }
    {
        if self.spent {
            return Err(OutOfMemory);
        }
        self.levels = Levels::new(*self.levels.held.allocator());
        self.lasting.begin_again();
        let answer = self.kept.begin_again();
        self.spent = answer.is_err();
        answer
    }
}
