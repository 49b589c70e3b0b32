//! What the parts of the search are about, handed down as one: a problem, and a frame of its system by number. Both borrow what
//! [`crate::Frames`] owns, and no part changes it through them.

use crate::levels::Levels;
use sat_clauses::System;
use sat_clauses::clause::ClauseList;
use sat_clauses::lit::Lit;

/// Whether a system reaches a bad state.
#[derive(Clone, Copy)]
pub struct Problem<'a> {
    /// The system.
    pub system: &'a System,
    /// The clauses that all hold in a bad state.
    pub bad: &'a ClauseList,
    /// The literals of which a bad state is to make as few true as it can; none where bad states are not looked for.
    pub history: &'a [Lit],
}

/// The frame of a number.
#[derive(Clone, Copy)]
pub struct FrameAt<'a> {
    /// The system that the frames are of.
    pub system: &'a System,
    /// All frames.
    pub frames: &'a Levels,
    /// The number.
    pub level: usize,
}
