//! What a text of a certificate gives.
//!
//! [`Certificate`] has the parts of a certificate, its lists and its copy, and [`CertFault`] says why bytes are none.
ghost use Rattle.std.specs.Prelude.{◌≡◌, IfOk};

use crate::line_list::LineList;
use crate::packed::PackedSteps;
use base_values::{Items, OutOfMemory, SetList};
use sat_clauses::clause::ClauseList;

/// The texts of traces, each as its lines.
pub type TextList = Items<LineList>;

/// A certificate: the numbers of bits and of faults and the size, the listed sets with the text of a trace
/// for each, an invariant, and the derivations that it holds first, that every step keeps it, and that it
/// excludes each bad state.
#[derive(Drop)]
pub struct Certificate {
    pub bits: u32,
    pub faults: u32,
    pub size: u32,
    pub sets: SetList,
    pub traces: TextList,
    pub invariant: ClauseList,
    pub first: PackedSteps,
    pub next: PackedSteps,
    pub bad: PackedSteps,
}

impl Certificate {
    /// A copy of its own, which is the same certificate.
    pub fn copy(&self) -> Result<Certificate, OutOfMemory>
        ensures { IfOk result (λ made. made ≡ self.now) }
    {
        Ok(Certificate {
            bits: self.bits,
            faults: self.faults,
            size: self.size,
            sets: self.sets.copy()?,
            traces: copy_texts(&self.traces)?,
            invariant: self.invariant.copy()?,
            first: self.first.copy()?,
            next: self.next.copy()?,
            bad: self.bad.copy()?,
        })
    }
}

/// A list of its own with a copy of each text.
pub fn copy_texts(texts: &TextList) -> Result<TextList, OutOfMemory>
    ensures { IfOk result (λ made. made ≡ texts.now) }
{
    let mut made = Items::new(texts.allocator());
    for lines in texts.as_slice() {
        made.push(lines.copy()?)?;
    }
    Ok(made)
}

/// Why bytes are not taken for a certificate. Lines count from 1.
#[derive(Clone, Copy, Debug, PartialEq, Eq)]
pub enum CertFault {
    /// This line is the first that does not have its form, or comes after the end, or lacks its line feed.
    BadLine(u64),
    /// This line is missing, and the lines before it have their form.
    Ends(u64),
    /// Memory was wanting.
    OutOfMemory,
}
