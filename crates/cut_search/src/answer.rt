//! What an analysis answers: the sets with their traces, whether there is a first moment, and how the search ended.
//!
//! [`Analysis`] is the answer and [`answer`] makes it of what a search has found. `specs/Answer.antt` says when it is right.
ghost use Rattle.std.specs.Prelude.{◌≡◌, IfOk};
ghost use Rattle.cut_search_laws.specs.FoundSets.{sets_of, traces_of};

use crate::sets::{SetList, TraceList, WitnessedSet};
use base_values::OutOfMemory;
use sat_clauses::clause::ClauseList;
use std::alloc::Global;

/// How an analysis ends.
#[derive(Drop)]
pub enum End {
    /// The sets are right for all traces: these clauses hold first, are kept by every step, and exclude the unlisted
    /// bad states.
    Complete(ClauseList),
    /// The sets are right for the traces of at most so many steps.
    Bounded(u32),
}

/// Minimal cut sets, a trace for each, and how the search ended.
#[derive(Drop)]
pub struct Analysis {
    /// The sets, smaller ones first, and those of one size by their numbers.
    pub sets: SetList,
    /// For each set a trace that has failed exactly it; the moments have no history bits.
    pub traces: TraceList,
    /// Whether a first moment exists.
    pub first: bool,
    /// How the search ended.
    pub end: End,
    /// At most so many faults were looked for.
    pub size: u32,
}

/// The sets and the traces of what was found.
fn parted(alloc: Global, found: Vec<WitnessedSet>) -> Result<(SetList, TraceList), OutOfMemory>
    ensures sets { IfOk result (λ r. r.0 ≡ sets_of found.items) }
    ensures traces { IfOk result (λ r. r.1 ≡ traces_of found.items) }
{
    let mut sets = SetList::new(alloc);
    let mut traces = TraceList::new(alloc);
    for f in found {
        let (set, trace) = f.into_parts();
        sets.push(set)?;
        traces.push(trace)?;
    }
    Ok((sets, traces))
}

/// The answer of what was found, and how the search ended.
pub fn answer(
    alloc: Global,
    found: Vec<WitnessedSet>,
    first: bool,
    end: End,
    size: u32,
) -> Result<Analysis, OutOfMemory>
    ensures sets { IfOk result (λ a. a.sets ≡ sets_of found.items) }
    ensures traces { IfOk result (λ a. a.traces ≡ traces_of found.items) }
    ensures first { IfOk result (λ a. a.first ≡ first) }
    ensures end { IfOk result (λ a. a.end ≡ end) }
    ensures size { IfOk result (λ a. a.size ≡ size) }
{
    let (sets, traces) = parted(alloc, found)?;
    Ok(Analysis {
        sets,
        traces,
        first,
        end,
        size,
    })
}
