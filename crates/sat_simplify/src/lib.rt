//! Lists of clauses, made simpler before they are searched.
//!
//! A list says something of its places, the variables 2 to the highest place: a state now, the next one and inputs. All
//! other variables are the list's own. `IsMet places list v` says that some values which agree with v on the places make
//! the list true (`specs/SamePlaces.antt`). [`simplified`] is the one public call: its list is met exactly where the old
//! one is, and has no higher variables. The frames search such lists.
//!
//! A first pass over the list, from its end, leaves out the clauses of gates that nothing reads, [`unread`]: a model can have
//! millions of them, and they cost a look each and a number of memory.
//!
//! Of the others, clauses of one literal are propagated; a clause that another one subsumes is taken out; and a variable that is no
//! place is eliminated where its resolvents are no more than its clauses: all of them then stand in the place of the
//! clauses that have it (`specs/Resolution.antt`, `specs/Elimination.antt`). Each of these is one change of a clause
//! base, [`base`], with one law in `proofs/SimplerLaws.antt`. The clauses lie in slots with an occurrence list for each
//! literal, [`occurrences`], so that no change looks at all clauses. [`passes`] says what is tried when, by what [`tally`] counts and
//! marks: no proof depends on that. What is left above the places is numbered anew, without gaps, [`compact`].
//!
//! ```text
//! // places 2 and 3: the gate 4 is 2 and 3, and 4 is true
//! simplified(alloc, 3, [[-4, 2], [-4, 3], [4, -2, -3], [4]])      // [[2], [3]]
//! ```
#![tactic(auto)]

ghost use Rattle.std.specs.Prelude.{IfOk};
ghost use Rattle.sat_simplify.specs.SamePlaces.{AreMetAlike, HasNoHigherVariable};

mod base;
mod compact;
mod lists;
mod literals;
mod occurrences;
mod passes;
mod queue;
mod resolving;
mod slots;
mod tally;
mod unread;

use base_values::OutOfMemory;
use sat_clauses::clause::{Clause, ClauseList};
use std::alloc::Global;

/// A list of clauses that is met with the same values of the variables 2 to `places` as this one. Its variables above
/// the places are numbered without gaps, and none is higher than in this list. Takes memory for each number up to the
/// highest variable.
#[tactic(auto, using(crate::proofs::UnreadLaws::read_same, crate::proofs::UnreadLaws::read_low))]
pub fn simplified(alloc: Global, places: u64, list: &[Clause]) -> Result<ClauseList, OutOfMemory>
    ensures same { IfOk result (λ new. AreMetAlike places list.now new) }
    ensures low { IfOk result (λ new. HasNoHigherVariable list.now new) }
{
    let mut base = unread::read_base(alloc, places, list)?;
    passes::simplify(&mut base)?;
    let left = base.into_left()?;
    compact::compact(alloc, places, left.as_slice())
}
