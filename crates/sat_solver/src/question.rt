//! What a search is asked.
use sat_clauses::lit::Lit;
use std::alloc::Global;

/// A question: what is to be true beside the clauses, and how it is answered.
#[derive(Clone, Copy)]
pub(crate) struct SearchQuestion<'a> {
    /// Where the memory of answers and lessons comes from.
    pub alloc: Global,
    pub assumptions: &'a [Lit],
    /// Whether a clause that refutes the assumptions is kept with the others.
    pub cores: bool,
}
