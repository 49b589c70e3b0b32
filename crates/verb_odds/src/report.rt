//! The lines of sets and of how an analysis ends, as all reports have them.
ghost use Rattle.std.specs.Prelude.{◌≡◌, ◌++◌, OnOk};
ghost use Rattle.cut_text_laws.specs.Analysis.{told_ending};
ghost use Rattle.verb_odds.specs.Reports.{sets_text, ending_line};

use base_values::{ByteList, Ending, FaultSet, OutOfMemory};
use std::alloc::Global;

/// Appends the number of the sets, and a line for each with its numbers.
#[tactic(auto, using(verb_loading::proofs::ReportLaws::report_rules))]
pub(crate) fn append_sets(
    alloc: Global,
    text: &mut ByteList,
    sets: &[FaultSet],
) -> Result<(), OutOfMemory>
    ensures { OnOk result (text.new ≡ text.old ++ sets_text sets.now) }
{
    text.append(b"sets ")?;
    text.append_number(alloc, sets.len() as u64)?;
    text.append(b"\n")?;
    cut_report::append_sets(alloc, text, sets)
}

/// Appends the line of how an analysis ended, with the bits of a state where it is bounded.
#[tactic(auto, using(verb_loading::proofs::ReportLaws::report_rules))]
pub(crate) fn append_ending(
    alloc: Global,
    text: &mut ByteList,
    ending: Ending,
    bits: u32,
) -> Result<(), OutOfMemory>
    ensures { OnOk result (text.new ≡ text.old ++ ending_line (told_ending ending) bits) }
{
    cut_report::append_ending(alloc, text, ending, bits)?;
    text.append(b"\n")
}
