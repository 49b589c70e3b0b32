//! A model file as a program, and that as a flat model with its kinds ([`load_model`]). The first reader or layer that
//! refuses it is told.
ghost use Rattle.std.specs.Prelude.{◌≡◌, ◌≤◌, length, IfOk, IfErr, IfSome, IsErrOf};
ghost use Rattle.base_values.specs.declared.limits.TheConstants.{MOST_FILE_BYTES};
ghost use Rattle.base_files.specs.Desk.{OnlyReads, Rose};
ghost use Rattle.smv_language.specs.ProgramTree.{program_tree};
ghost use Rattle.smv_language.specs.ModelTree.{model_tree};
ghost use Rattle.fault_extend.specs.InstanceLaws.{HasInstancesInVar};
ghost use Rattle.verb_loading.specs.Wrongs.{IfRefused};
ghost use Rattle.verb_loading.specs.Models.{IsModelText, IsLawful, IsSpelled, IsWrongModel};
ghost use Rattle.verb_loading.specs.Inputs.{RefusesModel, HoldsModel};
ghost use Rattle.verb_loading.specs.declared.status.Refusal.{Refusal};
ghost use Rattle.verb_loading.specs.declared.input.Stop.TheVariants as stop;

use crate::input::{Input, Stop, read_input};
use crate::wrong::Wrong;
use base_files::Desk;
use smv_flat::flatten;
use smv_language::Program;
use smv_model_reader::program;
use smv_types::{Typed, check_model};
use std::alloc::Global;

/// A model that is taken: its program, and the flat model of that with its kinds.
#[derive(Drop)]
pub struct LoadedModel {
    pub program: Program,
    pub typed: Typed,
}

/// The model of a file.
pub fn load_model<D: Desk>(alloc: Global, desk: &mut D, name: &str) -> Result<LoadedModel, Stop>
    ensures ok { IfOk result (λ l. IfSome (D.told desk.old).files (λ files. HoldsModel files name.now (program_tree l.program))) }
    ensures lawful { IfOk result (λ l. IsLawful (program_tree l.program) (model_tree l.typed.model)) }
    ensures in_var { IfOk result (λ l. HasInstancesInVar (program_tree l.program)) }
    ensures spelled { IfOk result (λ l. IsSpelled (program_tree l.program)) }
    ensures refused { (r : Refusal) → IsErrOf result (stop.Refused r) → IfSome (D.told desk.old).files
        (λ files. RefusesModel files name.now r) }
    ensures failed { IsErrOf result stop.Desk → Rose (D.told desk.old).faults (D.told desk.new).faults }
    ensures stays { OnlyReads (D.told desk.old) (D.told desk.new) }
{
    let bytes = read_input(alloc, desk, Input::Model, name)?;
    match model_of(alloc, &bytes) {
        Ok(model) => Ok(model),
        Err(wrong) => Err(Input::Model.stop(wrong)),
    }
}

/// The model that the bytes spell.
pub fn model_of(alloc: Global, bytes: &[u8]) -> Result<LoadedModel, Wrong>
    requires { length bytes.now ≤ MOST_FILE_BYTES }
    ensures ok { IfOk result (λ l. IsModelText bytes.now (program_tree l.program)) }
    ensures lawful { IfOk result (λ l. IsLawful (program_tree l.program) (model_tree l.typed.model)) }
    ensures in_var { IfOk result (λ l. HasInstancesInVar (program_tree l.program)) }
    ensures spelled { IfOk result (λ l. IsSpelled (program_tree l.program)) }
    ensures wrong { IfErr result (IfRefused (IsWrongModel bytes.now)) }
{
    let program = program(alloc, bytes)?;
    let flat = flatten(alloc, &program)?;
    let typed = check_model(alloc, flat)?;
    Ok(LoadedModel { program, typed })
}
