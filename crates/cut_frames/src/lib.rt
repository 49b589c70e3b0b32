//! Frames of property-directed reachability: over-approximations of what a system reaches in so many steps.
//!
//! Contracts see [`Frames`] as the system, a list of clause lists over the state bits now, and whether
//! memory ran out once. The frame of number 0 is exactly the system's first states; its list has the clauses of the
//! later ones, which every first state makes true. Each frame implies the next, alone and with a step,
//! from `new` on and whatever `clear` and `advance` answer (`specs/FramesByNumber.antt`). `clear` blocks the bad
//! states of the last frame, the frontier's, by cores, or finds a path into them, one assignment for each
//! moment (`specs/Path.antt`), and tries what it blocked in higher frames too (`src/raise.rt`); `advance` adds a frame
//! and pushes each clause that every step keeps. Clauses are compared as sets of literals. What a step, a chain and an
//! inductive list are stands in `specs/Chain.antt` and `specs/FrameLists.antt`; which systems frames are made of, and
//! which lists they clear, in `specs/Condition.antt`.
//!
//! A clause is kept once, with the number of the highest frame in which it holds, until a clause that says more takes its place
//! (`src/levels.rt`, `specs/Levels.antt`).
//! All queries go to one search that is kept, over the first states, the steps, the frames and the bad states that
//! are asked about, each under a guard of its own; so what it learns stays as long as it is of use (`src/guarded.rt`,
//! `specs/GuardedSearch.antt`), until it has twice the clauses that it began with: then it is made anew over what is alive
//! (`src/fresh.rt`).
//!
//! The same frames serve for other bad states: `begin_again` goes back to the frontier 0, and keeps the search with all that it
//! has learned. The clauses of an invariant that was found stand in each frame from then on (`src/lasting.rt`); what else was blocked in
//! later frames goes.
//!
//! ```text
//! let mut frames = Frames::new(alloc, system)?;    // one bit that is false first and stays
//! frames.ask_about(bad, &mut panel)?;
//! frames.clear(&[], 0, &mut panel)?                 // Clear: the bit is not true in a first state
//! frames.advance(&mut panel)?                      // Fixed or Further
//! ```
#![tactic(auto)]

ghost use Rattle.cut_frames.specs.Chain.{ChainsAreShort};

mod advance;
mod apart;
mod bad;
mod bits;
mod clear;
mod condition;
mod frames;
mod fresh;
mod guarded;
mod highest;
mod lasting;
mod levels;
mod outline;
mod problem;
mod raise;
mod reached;
mod shown;
mod shrink;
mod simple;
mod smaller;
mod spoilers;
mod steps;
mod waiting;
mod walk;
mod weights;

pub use advance::Advanced;
pub use clear::Cleared;
pub use condition::{are_over_now, can_frame};
pub use frames::Frames;
pub use steps::StepList;

/// A chain over b state bits has at most 2^b + 1 frames.
pub fn chains_are_short()
    ensures { ChainsAreShort }
{}
