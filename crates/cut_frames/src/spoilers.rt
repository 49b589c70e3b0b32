//! Steps that spoiled a smaller clause: an answer to a question about one has shown a state of the frame before and one after it that the
//! clause does not hold in. Such a step spoils most of the next tries too, as the state after it breaks every clause of fewer
//! literals that it makes false, as long as no clause took the state before it out of its frame; so no question is asked about those. A state
//! that was taken out unseen costs a try and nothing else: which tries are made changes which of the right clauses is found, and contracts see
//! nothing of it.
ghost use Rattle.cut_frames.specs.Problem.{IsFrameAt};

use crate::bits::State;
use crate::guarded::Guarded;
use crate::problem::FrameAt;
use crate::reached::is_outside;
use base_values::OutOfMemory;
use sat_clauses::clause::Clause;
use std::alloc::Global;

/// How many steps are kept.
const MOST: usize = 256;

/// A step, and the number of the least frame that its first state is taken to be in.
#[derive(Drop)]
struct SpoilingStep {
    from: State,
    to: State,
    least: usize,
}

/// The steps that spoiled smaller clauses, of late.
#[derive(Drop)]
pub struct Spoilers {
    steps: Vec<SpoilingStep>,
    /// The place of the oldest one, where there are as many as are kept.
    oldest: usize,
}

impl Spoilers {
    /// No step.
    pub fn new(alloc: Global) -> Spoilers {
        Spoilers {
            steps: Vec::new(alloc),
            oldest: 0,
        }
    }

    /// Keeps a step, in the place of the oldest one where there are many.
    fn put(&mut self, step: SpoilingStep) -> Result<(), OutOfMemory> {
        if self.steps.len() < MOST {
            self.steps.push(step)?;
            return Ok(());
        }
        if let Some(old) = self.steps.get_mut(self.oldest) {
            *old = step;
        }
        self.oldest = self.oldest.saturating_add(1) % MOST;
        Ok(())
    }

    /// Keeps the step from the frame before that of a number, which the question before this has shown.
    pub fn note(&mut self, at: FrameAt<'_>, kept: &Guarded) -> Result<(), OutOfMemory>
        requires { IsFrameAt at }
    {
        let bits = u64::from(at.system.state_bits);
        let from = kept.guess(2, bits)?;
        let to = kept.guess(bits + 2, bits)?;
        self.put(SpoilingStep {
            from,
            to,
            least: at.level - 1,
        })
    }

    /// Takes the states out of the frames up to a number that a clause blocks there.
    pub fn block(&mut self, level: usize, clause: &Clause) {
        for step in &mut self.steps {
            if step.least <= level && is_outside(&step.from, clause) {
                step.least = level.saturating_add(1);
            }
        }
    }

    /// Whether a step from the frame of a number leads to a state that makes every literal of a clause false.
    pub fn has_outside(&self, frame: usize, clause: &Clause) -> bool {
        self.steps
            .iter()
            .any(|step| step.least <= frame && is_outside(&step.to, clause))
    }
}
