//! The lines of the faults of a report: their number, and each with its own number and name ([`print_faults`]).
ghost use Rattle.std.specs.Prelude.{◌≡◌, ◌++◌, map, IfOk, OnOk};
ghost use Rattle.cut_report.specs.FaultText.{fault_line, fault_lines, faults_text};
ghost use Rattle.smv_language.specs.ModelTree.{name_of_fault};

use base_values::{ByteList, OutOfMemory};
use smv_language::append_dotted;
use smv_language::model::{Fault, FaultList};
use std::alloc::Global;

/// The number of faults, and a line for each fault with its number, from 1, and its name.
#[tactic(auto, using(crate::proofs::TextLaws::text_rules))]
pub fn print_faults(alloc: Global, faults: &FaultList) -> Result<ByteList, OutOfMemory>
    ensures { IfOk result (λ text. text ≡ faults_text (map name_of_fault faults.now)) }
{
    let mut text = ByteList::from_slice(alloc, b"faults ")?;
    text.append_number(alloc, faults.len() as u64)?;
    text.append(b"\n")?;
    append_faults(alloc, &mut text, faults.as_slice())?;
    Ok(text)
}

/// Appends a line for each fault.
#[tactic(auto, using(crate::proofs::TextLaws::text_rules))]
fn append_faults(alloc: Global, text: &mut ByteList, faults: &[Fault]) -> Result<(), OutOfMemory>
    ensures { OnOk result (text.new ≡ text.old ++ fault_lines 1 (map name_of_fault faults.now)) }
{
    for (i, fault) in faults.iter().enumerate() {
        append_fault(alloc, text, i + 1, fault)?;
    }
    Ok(())
}

/// Appends the line of one fault.
#[tactic(auto, using(crate::proofs::TextLaws::text_rules))]
fn append_fault(
    alloc: Global,
    text: &mut ByteList,
    number: usize,
    fault: &Fault,
) -> Result<(), OutOfMemory>
    ensures { OnOk result (text.new ≡ text.old ++ fault_line number (name_of_fault fault.now)) }
{
    text.append(b"fault ")?;
    text.append_number(alloc, number as u64)?;
    text.append(b" ")?;
    append_dotted(text, &fault.name)?;
    text.append(b"\n")
}
