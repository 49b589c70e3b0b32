//! Steps that answers have shown, kept from one frontier to the next, and the clauses that they break. The question whether every step from
//! a frame makes a clause true may show a step that does not; the state that it leads to breaks other clauses too, and of these it is then
//! known, without a question, that they don't go on to the next frame. That stays so for as long as the frame has the state that the
//! step comes from, which is seen by a look at the frame's clauses.
ghost use Rattle.std.specs.Prelude.{◌≡◌, ◌≤◌, All};
ghost use Rattle.std.specs.List.{list_any, list_all};
ghost use Rattle.sat_clauses.specs.Models.{literal_value, clause_value};
ghost use Rattle.cut_frames.specs.FrameLists.{frame_at};
ghost use Rattle.cut_frames.specs.Levels.{frames_of};
ghost use Rattle.cut_frames.specs.KnownSteps.{bits_of, breaks, shows, is_true_at, is_hit, counts, IsSeen, IsShown};

use crate::bits::State;
use crate::levels::{Held, Levels};
use sat_clauses::System;
use sat_clauses::clause::Clause;
use sat_clauses::lit::Lit;

/// A step of the system that an answer showed.
#[derive(Drop)]
pub struct Seen {
    /// The number of the frame that the step was asked for in.
    pub level: usize,
    /// The state that it comes from.
    pub from: State,
    /// The state that it leads to.
    pub to: State,
}

/// Whether the bits of a state make a literal true; a variable that is none of them counts as false.
fn is_true_in(state: &State, lit: Lit) -> bool
    ensures { result ≡ literal_value (bits_of state.now) lit }
{
    let place = lit.var().saturating_sub(2) as usize;
    let value = state.as_slice().get(place).copied().unwrap_or(false);
    value != lit.is_negated()
}

/// Whether the bits of a state make a clause true.
fn makes(state: &State, clause: &Clause) -> bool
    ensures { result ≡ clause_value (bits_of state.now) clause.now }
{
    clause.lits().iter().any(|lit| is_true_in(state, *lit))
}

/// Whether a step that was seen in the frame of a number leads to a state that breaks a clause.
fn is_against(seen: &Seen, i: usize, clause: &Clause) -> bool
    ensures { result ≡ shows i clause.now seen.now }
{
    seen.level == i && !makes(&seen.to, clause)
}

/// Whether one of the steps that were seen in the frame of a number leads to a state that breaks a clause.
pub fn is_broken(seen: &[Seen], i: usize, clause: &Clause) -> bool
    ensures { result ≡ list_any (shows i clause.now) seen.now }
{
    seen.iter().any(|step| is_against(step, i, clause))
}

/// Whether a state makes a clause true, unless that stands in lower frames alone.
fn is_true_at(state: &State, i: usize, held: &Held) -> bool
    ensures { result ≡ is_true_at state.now i held.now }
{
    held.highest < i || makes(state, &held.clause)
}

/// Whether a state breaks a clause of this number.
fn is_hit(state: &State, i: usize, held: &Held) -> bool
    ensures { result ≡ is_hit state.now i held.now }
{
    held.highest == i && !makes(state, &held.clause)
}

/// Whether a state breaks a clause of a number.
fn breaks_some(frames: &Levels, i: usize, state: &State) -> bool
    ensures { result ≡ list_any (is_hit state.now i) frames.now.held.items }
{
    frames.held.iter().any(|held| is_hit(state, i, held))
}

/// Whether the clauses of the frame of a number are true in a state.
pub fn is_inside(frames: &Levels, i: usize, state: &State) -> bool
    ensures { result ≡ list_all (is_true_at state.now i) frames.now.held.items }
{
    frames.held.iter().all(|held| is_true_at(state, i, held))
}

/// Whether a step still shows something of the frame of a number: it comes from a state of it, and breaks a clause of this number. A
/// step that was seen in another frame is not judged.
fn counts(frames: &Levels, i: usize, seen: &Seen) -> bool
    ensures { result ≡ counts i frames.now.held.items seen.now }
{
    seen.level != i || (breaks_some(frames, i, &seen.to) && is_inside(frames, i, &seen.from))
}

/// Forgets the steps that show nothing of the frame of a number any more.
pub fn forget(system: &System, frames: &Levels, i: usize, seen: &mut Vec<Seen>)
    requires within { i ≤ frames.now.last }
    requires seen { All (IsSeen system.now) seen.old.items }
    ensures { All (IsShown system.now (frame_at (frames_of frames.now) i) i) seen.new.items }
{
    seen.retain(|step| counts(frames, i, step));
}
