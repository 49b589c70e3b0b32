//! How an analysis ends: with sets that are right for all traces, or for those of a bounded length.
/// How an analysis ends.
#[derive(Clone, Copy, Debug, PartialEq, Eq)]
pub enum Ending {
    /// Its sets are right for all traces.
    Complete,
    /// They are right for the traces of at most so many steps.
    Bounded(u32),
}
