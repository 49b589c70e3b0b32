//! What is said once the extension is written: the number of faults, and each with its number and name. The name of a
//! fault is made here from its path, slice and mode ([`append_name`]).
ghost use Rattle.std.specs.Prelude.{◌≡◌, ◌++◌, IfOk, OnOk, codes, map};
ghost use Rattle.fault_extend.specs.WovenFaults.{fault_tree};
ghost use Rattle.cut_report.specs.FaultText.{faults_text};
ghost use Rattle.verb_loading.specs.Reports.{name_text, place_text, parts_text};
ghost use Rattle.smv_language.specs.ModelTree.{place_of, name_of_fault};

use base_values::{ByteList, Dotted, Name, OutOfMemory};
use cut_report::print_faults;
use fault_extend::WovenFault;
use smv_language::model::FaultList;
use std::alloc::Global;

/// The number of faults, each fault with its number and name, and that the extension is written.
pub(crate) fn report(alloc: Global, faults: &FaultList) -> Result<ByteList, OutOfMemory>
    ensures { IfOk result (λ text. text ≡ faults_text (map name_of_fault faults.now) ++ codes "extended\n") }
{
    let mut text = print_faults(alloc, faults)?;
    text.append(b"extended\n")?;
    Ok(text)
}

/// Appends a fault's name: its path, slice and mode, with dots between.
#[tactic(auto, using(crate::proofs::ReportLaws::report_rules))]
pub fn append_name(text: &mut ByteList, fault: &WovenFault) -> Result<(), OutOfMemory>
    ensures { OnOk result (text.new ≡ text.old ++ name_text (fault_tree fault.now)) }
{
    append_path(text, &fault.path)?;
    text.append(fault.slice.text())?;
    text.append(b".")?;
    text.append(fault.mode.text())
}

/// Appends the path of an instance, which `main` does not have, with a dot after each part.
#[tactic(auto, using(crate::proofs::ReportLaws::report_rules))]
fn append_path(text: &mut ByteList, path: &Option<Dotted>) -> Result<(), OutOfMemory>
    ensures { OnOk result (text.new ≡ text.old ++ place_text (place_of path.now)) }
{
    match path {
        Some(path) => append_parts(text, path.parts()),
        None => Ok(()),
    }
}

/// Appends names with a dot after each.
#[tactic(auto, using(crate::proofs::ReportLaws::report_rules))]
fn append_parts(text: &mut ByteList, parts: &[Name]) -> Result<(), OutOfMemory>
    ensures { OnOk result (text.new ≡ text.old ++ parts_text parts.now) }
{
    for part in parts {
        text.append(part.text())?;
        text.append(b".")?;
    }
    Ok(())
}
