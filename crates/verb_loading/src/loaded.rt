//! An instruction file as the extension of a model in memory, with its faults and its flat model ([`load_case`]), for the
//! work that writes, reads and searches it. The whole is flattened and typed once more, for the limits that neither file passes alone.
ghost use Rattle.std.specs.Prelude.{◌≡◌, ◌≤◌, length, map, IfOk, OnOk, IfErr, IfSome, IsErrOf};
ghost use Rattle.base_values.specs.declared.limits.TheConstants.{MOST_FILE_BYTES};
ghost use Rattle.base_files.specs.Desk.{OnlyReads, Rose};
ghost use Rattle.smv_language.specs.ProgramTree.{program_tree};
ghost use Rattle.smv_language.specs.ModelTree.{model_tree};
ghost use Rattle.fault_extend.specs.InstanceLaws.{HasInstancesInVar};
ghost use Rattle.fault_extend.specs.WovenFaults.{fault_tree};
ghost use Rattle.smv_type_laws.specs.Models.{IsTyped};
ghost use Rattle.verb_loading.specs.Wrongs.{IfRefused};
ghost use Rattle.smv_flat_laws.specs.Rules.{IsAccepted};
ghost use Rattle.verb_loading.specs.Models.{IsModelOf, IsLawful, IsSpelled};
ghost use Rattle.verb_loading.specs.Wholes.{BreaksNames, BreaksKinds, HasItsModes};
ghost use Rattle.verb_loading.specs.Inputs.{IsWrongFaults, RefusesFaults};
ghost use Rattle.verb_loading.specs.LoadedCases.{IsLoaded, HoldsLoaded, IsLoadedFrom, IsLimited, IsWrongLimited};
ghost use Rattle.verb_loading.specs.declared.status.Refusal.{Refusal};
ghost use Rattle.verb_loading.specs.declared.input.Stop.TheVariants as stop;

use crate::input::{Input, Stop, read_input};
use crate::model::LoadedModel;
use crate::wrong::Wrong;
use base_files::Desk;
use fault_extend::{Woven, fault_list, weave_typed};
use fault_instructions::Instructions;
use fault_reader::instructions;
use smv_flat::{FlatFault, flatten, with_history};
use smv_language::Program;
use smv_language::model::{FaultList, FlatModel};
use smv_types::{TypeFault, Typed, check_model};
use std::alloc::Global;

/// The extension of a model by instructions: the program, the numbers of its faults, and its flat model with its
/// kinds.
#[derive(Drop)]
pub struct LoadedCase {
    pub instructions: Instructions,
    pub limited: Limited,
}

/// A woven program that passes no limit, with its flat model and the numbers of its faults there.
#[derive(Drop)]
pub struct Limited {
    pub woven: Woven,
    pub faults: FaultList,
    pub typed: Typed,
    /// The flat model with a history bit for each fault.
    pub full: Typed,
}

/// The extension of a model by the instructions of a file.
pub fn load_case<D: Desk>(
    alloc: Global,
    desk: &mut D,
    name: &str,
    model: &LoadedModel,
) -> Result<LoadedCase, Stop>
    requires lawful { IsLawful (program_tree model.now.program) (model_tree model.now.typed.model) }
    requires in_var { HasInstancesInVar (program_tree model.now.program) }
    requires spelled { IsSpelled (program_tree model.now.program) }
    ensures ok { IfOk result
        (λ l. IfSome (D.told desk.old).files (λ files. HoldsLoaded files name.now (program_tree model.now.program) l)) }
    ensures loaded { IfOk result (IsLoaded (program_tree model.now.program)) }
    ensures refused { (r : Refusal) → IsErrOf result (stop.Refused r) →
        IfSome (D.told desk.old).files (λ files. RefusesFaults files name.now (program_tree model.now.program) r) }
    ensures failed { IsErrOf result stop.Desk → Rose (D.told desk.old).faults (D.told desk.new).faults }
    ensures stays { OnlyReads (D.told desk.old) (D.told desk.new) }
{
    let bytes = read_input(alloc, desk, Input::Faults, name)?;
    match case_of(alloc, &bytes, model) {
        Ok(case) => Ok(case),
        Err(wrong) => Err(Input::Faults.stop(wrong)),
    }
}

/// The extension of the model by the instructions that the bytes spell.
pub fn case_of(alloc: Global, bytes: &[u8], model: &LoadedModel) -> Result<LoadedCase, Wrong>
    requires length { length bytes.now ≤ MOST_FILE_BYTES }
    requires lawful { IsLawful (program_tree model.now.program) (model_tree model.now.typed.model) }
    requires in_var { HasInstancesInVar (program_tree model.now.program) }
    requires spelled { IsSpelled (program_tree model.now.program) }
    ensures ok { IfOk result (IsLoadedFrom bytes.now) }
    ensures loaded { IfOk result (IsLoaded (program_tree model.now.program)) }
    ensures wrong { IfErr result (IfRefused (IsWrongFaults (program_tree model.now.program) bytes.now)) }
{
    let instructions = instructions(alloc, bytes)?;
    let woven = weave_typed(alloc, &model.program, &model.typed, &instructions)?;
    let limited = within_limits(alloc, woven)?;
    Ok(LoadedCase {
        instructions,
        limited,
    })
}

/// Refuses an extension that passes a limit of size, and else gives its flat model.
fn within_limits(alloc: Global, woven: Woven) -> Result<Limited, Wrong>
    requires modes { HasItsModes (program_tree woven.program) (map fault_tree woven.faults) }
    ensures ok { IfOk result (IsLimited woven) }
    ensures wrong { IfErr result (IfRefused (IsWrongLimited (program_tree woven.program) (map fault_tree woven.faults))) }
{
    let flat = flat_whole(alloc, &woven.program)?;
    let faults = fault_list(alloc, &woven, &flat)?;
    let whole = with_history(alloc, &flat, &faults)?;
    let full = typed_whole(alloc, whole)?;
    let typed = typed_whole(alloc, flat)?;
    Ok(Limited {
        woven,
        faults,
        typed,
        full,
    })
}

/// The flat model of an extension. What is wrong with it is wrong with the whole.
fn flat_whole(alloc: Global, program: &Program) -> Result<FlatModel, Wrong>
    ensures accepted { OnOk result (IsAccepted (program_tree program.now)) }
    ensures model { IfOk result (λ flat. IsModelOf (program_tree program.now) (model_tree flat)) }
    ensures wrong { IfErr result (IfRefused (BreaksNames (program_tree program.now))) }
{
    match flatten(alloc, program) {
        Ok(flat) => Ok(flat),
        Err(fault) => Err(Wrong::from(FlatFault {
            rule: fault.rule,
            item: 0,
        })),
    }
}

/// The flat model of an extension with its kinds.
pub fn typed_whole(alloc: Global, flat: FlatModel) -> Result<Typed, Wrong>
    ensures model { IfOk result (λ t. t.model ≡ flat) }
    ensures typed { OnOk result (IsTyped (model_tree flat)) }
    ensures wrong { IfErr result (IfRefused (BreaksKinds (model_tree flat))) }
{
    match check_model(alloc, flat) {
        Ok(typed) => Ok(typed),
        Err(fault) => Err(Wrong::from(TypeFault {
            rule: fault.rule,
            item: 0,
        })),
    }
}
