//! What the first pass of a reader answers: how far a text can be read.
/// How far a text can be read.
#[derive(Clone, Copy, Debug, PartialEq, Eq)]
pub enum ReadExtent {
    /// The tokens spell a tree.
    Whole,
    /// No text goes on with the token of this number, counted from 0.
    Stopped(usize),
    /// The tokens spell no tree, but some text goes on after them.
    Unfinished,
}
