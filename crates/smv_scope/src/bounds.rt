//! How many things a flat expression can name. [`Bounds`] goes with each expression that is made: its names are
//! below these numbers, and so a model's formulas never name what is not there.
/// The variables and symbols of a model, and those of its definitions that an expression may name: for a
/// formula all, for a definition the earlier ones.
#[derive(Clone, Copy)]
pub struct Bounds {
    pub variables: usize,
    pub symbols: usize,
    pub definitions: usize,
}
