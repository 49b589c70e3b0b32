//! What a search has come to, as its panel tells it to an adviser. Nothing rests on it: it is there to be shown.
/// What a search has come to.
#[derive(Drop)]
pub enum News<'s> {
    /// It looks for paths of this many steps; those of fewer steps lead to no set that is not listed. At 0 the search for the sets of
    /// a top event begins.
    Frontier(usize),
    /// It has listed a cut set, which need not be minimal: listed sets that contain it are gone.
    Set {
        /// The numbers of its faults, from 1.
        faults: &'s [u32],
        /// The steps of the trace that shows it.
        steps: usize,
    },
    /// It has found an invariant: no other minimal set exists.
    Invariant,
    /// So many goals of a part of a certificate are derived, of so many.
    Goal {
        /// How many are derived.
        derived: usize,
        /// How many there are.
        count: usize,
    },
}
