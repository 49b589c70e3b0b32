//! What a search has done so far, in numbers. No contract speaks of them: they are for measuring.
/// How much a search has done since it began. Each count stays at the greatest number of 64 bits.
#[derive(Clone, Copy, Debug, PartialEq, Eq)]
pub struct Work {
    /// How many questions were asked.
    pub questions: u64,
    /// How many literals were made true, one for each time.
    pub literals: u64,
    /// How many clauses were visited for literals that became false, one for each time. The look at all clauses before an
    /// answer is not counted.
    pub visited: u64,
    /// How many a store that looks through all of its clauses for each literal would have visited.
    pub listed: u64,
    /// How many clauses were learned, one from each conflict.
    pub learned: u64,
    /// How many clauses there are, added and learned.
    pub clauses: u64,
}
