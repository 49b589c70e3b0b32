//! The extension of a model by an instruction file, as the text that is written and what is said ([`load_extension`]). It is
//! read and tried as for the work that searches it.
ghost use Rattle.std.specs.Prelude.{◌≡◌, ◌++◌, codes, map, IfOk, IfSome, IsErrOf};
ghost use Rattle.base_files.specs.Desk.{OnlyReads, Rose};
ghost use Rattle.smv_language.specs.ProgramTree.{program_tree};
ghost use Rattle.smv_language.specs.ModelTree.{model_tree, name_of_fault};
ghost use Rattle.fault_extend.specs.InstanceLaws.{HasInstancesInVar};
ghost use Rattle.smv_language.specs.Text.{program_text};
ghost use Rattle.cut_report.specs.FaultText.{faults_text};
ghost use Rattle.verb_loading.specs.Models.{IsLawful, IsSpelled};
ghost use Rattle.verb_loading.specs.Inputs.{RefusesFaults, HoldsExtension};
ghost use Rattle.verb_loading.specs.declared.status.Refusal.{Refusal};
ghost use Rattle.verb_loading.specs.declared.input.Stop.TheVariants as stop;

use crate::input::Stop;
use crate::loaded::load_case;
use crate::model::LoadedModel;
use crate::report::report;
use base_files::Desk;
use base_values::{ByteList, OutOfMemory};
use smv_language::model::FaultList;
use smv_language::{Program, print_program};
use std::alloc::Global;

/// What is written and said once every refusal was tried.
#[derive(Drop)]
pub struct Made {
    pub text: Vec<u8>,
    pub report: ByteList,
}

/// The extension of a model by the instructions of a file.
pub fn load_extension<D: Desk>(
    alloc: Global,
    desk: &mut D,
    name: &str,
    model: &LoadedModel,
) -> Result<Made, Stop>
    requires lawful { IsLawful (program_tree model.now.program) (model_tree model.now.typed.model) }
    requires in_var { HasInstancesInVar (program_tree model.now.program) }
    requires spelled { IsSpelled (program_tree model.now.program) }
    ensures ok { IfOk result
        (λ made. IfSome (D.told desk.old).files (λ files. HoldsExtension files name.now (program_tree model.now.program) made)) }
    ensures refused { (r : Refusal) → IsErrOf result (stop.Refused r) →
        IfSome (D.told desk.old).files (λ files. RefusesFaults files name.now (program_tree model.now.program) r) }
    ensures failed { IsErrOf result stop.Desk → Rose (D.told desk.old).faults (D.told desk.new).faults }
    ensures stays { OnlyReads (D.told desk.old) (D.told desk.new) }
{
    let case = load_case(alloc, desk, name, model)?;
    let made = made_of(alloc, &case.limited.woven.program, &case.limited.faults)?;
    Ok(made)
}

/// The text of an extension, and what is said of its faults.
fn made_of(alloc: Global, program: &Program, faults: &FaultList) -> Result<Made, OutOfMemory>
    ensures text { IfOk result (λ made. made.text.items ≡ program_text (program_tree program.now)) }
    ensures report { IfOk result (λ made. made.report ≡ faults_text (map name_of_fault faults.now) ++ codes "extended\n") }
{
    let text = print_program(alloc, program)?;
    let report = report(alloc, faults)?;
    Ok(Made { text, report })
}
