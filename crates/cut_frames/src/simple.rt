//! The lists of a search, made simpler once ([`crate::apart`]). The search keeps them as long as it asks about them, and whenever it is
//! made anew ([`crate::fresh`]) the new one takes them over: so no exact list is made simpler twice.
use sat_clauses::clause::ClauseList;
use std::alloc::Global;

/// Simple lists: of states and inputs they say what the exact ones say.
#[derive(Drop)]
pub struct SimpleLists {
    /// The first states.
    pub first: ClauseList,
    /// The steps.
    pub step: ClauseList,
    /// The bad states that are asked about, with each clause that was added to them.
    pub bad: ClauseList,
}

impl SimpleLists {
    /// Lists without clauses.
    pub fn none(alloc: Global) -> SimpleLists {
        SimpleLists {
            first: ClauseList::new(alloc),
            step: ClauseList::new(alloc),
            bad: ClauseList::new(alloc),
        }
    }
}
