//! What is answered about a certificate: [`Judged`], which is that it is accepted, or the objection to it.
/// Whether a certificate is accepted; where it is not, the line of its text, from 1, and the number of the
/// rule that are its objection: the smallest line at which a rule is broken, and the smallest rule there.
#[derive(Clone, Copy, Debug, PartialEq, Eq)]
pub enum Judged {
    Yes,
    No(u64, u32),
}
