//! A model, its extension with common causes, and a top event, as the work on them has them in memory.
//!
//! The main function is [`load_staged`]: the model and the instructions are read first, then the causes, and the top event last.
ghost use Rattle.std.specs.Prelude.{◌≡◌, ◌≤◌, List, ℕ, length, map, IfOk, IfErr, IfSome, IsErrOf};
ghost use Rattle.base_files.specs.Desk.{OnlyReads, Rose};
ghost use Rattle.fault_staging.specs.CauseOf.{cause_of};
ghost use Rattle.verb_loading.specs.Cases.{HoldsCase};
ghost use Rattle.verb_loading.specs.Wrongs.{IfRefused};
ghost use Rattle.verb_loading.specs.LoadedEvents.{case_in};
ghost use Rattle.verb_loading.specs.Models.{IsLawful};
ghost use Rattle.verb_loading.specs.LoadedCases.{case_of, IsLoaded, IsTopIn};
ghost use Rattle.smv_language.specs.ProgramTree.{Text, program_tree};
ghost use Rattle.smv_language.specs.ModelTree.{model_tree, flat_tree};
ghost use Rattle.fault_causes_reader.specs.BrokenRules.{rule_of};
ghost use Rattle.verb_loading.specs.declared.status.Refusal.{Refusal};
ghost use Rattle.verb_loading.specs.declared.input.Stop.TheVariants as stop;
ghost use Rattle.verb_causes.specs.Causes.{flat_in, modes_in, faults_in, extension_in, IsSomeCase, AreCausesOf};
ghost use Rattle.verb_causes.specs.Causes.{HoldsCauses, HasCauses, IsStagedCase, IsStagedEvent};
ghost use Rattle.verb_causes.specs.Refusals.{cause_number, stop_of_causes, BreaksStaged, RefusesBytes, RefusesCauses};
ghost use Rattle.verb_causes.specs.Refusals.{RefusesStaged};

use base_files::Desk;
use base_values::limits::MOST_FILE_BYTES;
use fault_causes_reader::{CauseFault, CauseRule, read_causes};
use fault_staging::{CauseList, with_causes};
use smv_flat::with_history;
use smv_language::Expr;
use smv_language::model::{FaultList, Flat};
use smv_types::Typed;
use std::alloc::Global;
use verb_loading::event::LoadedEvent;
use verb_loading::input::{Input, Stop, read_input};
use verb_loading::loaded::{LoadedCase, load_case, typed_whole};
use verb_loading::model::{LoadedModel, load_model};
use verb_loading::status::{Part, Refusal};
use verb_loading::top::load_top;
use verb_loading::wrong::Wrong;

/// An extension with common causes, and a top event over it.
#[derive(Drop)]
pub struct StagedEvent<'a> {
    pub loaded: LoadedEvent,
    pub word: &'a str,
    pub causes: CauseList,
    /// The staged model.
    pub typed: Typed,
    /// The staged model with a history bit for each event.
    pub full: Typed,
    /// The events: the faults that begin by themselves, and then the causes.
    pub events: FaultList,
}

/// An extension with common causes: these, the staged model without and with a history bit for each event, and the
/// events.
#[derive(Drop)]
pub struct CausesCase {
    pub causes: CauseList,
    pub typed: Typed,
    pub full: Typed,
    pub events: FaultList,
}

/// An extension with common causes, and a top event over the extension.
#[derive(Drop)]
struct StagedTop {
    staged: CausesCase,
    top: Expr<Flat>,
}

/// The model, the instructions and the causes of three files, with the top event that a word spells.
pub(crate) fn load_staged<'a, D: Desk>(
    alloc: Global,
    desk: &mut D,
    model: &str,
    faults: &str,
    causes: &str,
    word: &'a str,
) -> Result<StagedEvent<'a>, Stop>
    ensures case { IfOk result (λ l. IfSome (D.told desk.old).files (λ files. HoldsCase files model.now faults.now (case_in l.loaded))) }
    ensures causes { IfOk result
        (λ l. IfSome (D.told desk.old).files (λ files. HasCauses files causes.now (case_in l.loaded) (map cause_of l.causes))) }
    ensures asked { IfOk result (λ l. l.word.now ≡ word.now) }
    ensures staged { IfOk result IsStagedEvent }
    ensures refused { (r : Refusal) → IsErrOf result (stop.Refused r) →
        IfSome (D.told desk.old).files (λ files. RefusesStaged files model.now faults.now causes.now word.now r) }
    ensures failed { IsErrOf result stop.Desk → Rose (D.told desk.old).faults (D.told desk.new).faults }
    ensures stays { OnlyReads (D.told desk.old) (D.told desk.new) }
{
    let model = load_model(alloc, desk, model)?;
    let case = load_case(alloc, desk, faults, &model)?;
    let found = load_causes_and_top(alloc, desk, causes, word, &model, &case)?;
    let StagedTop { staged, top } = found;
    let CausesCase {
        causes,
        typed,
        full,
        events,
    } = staged;
    Ok(StagedEvent {
        loaded: LoadedEvent { model, case, top },
        word,
        causes,
        typed,
        full,
        events,
    })
}

/// Lets go of what was loaded.
pub(crate) fn discard(_staged: StagedEvent<'_>) {}

/// The extension with the causes of a file, and the top event that a word spells over it.
fn load_causes_and_top<D: Desk>(
    alloc: Global,
    desk: &mut D,
    name: &str,
    word: &str,
    model: &LoadedModel,
    case: &LoadedCase,
) -> Result<StagedTop, Stop>
    requires lawful { IsLawful (program_tree model.now.program) (model_tree model.now.typed.model) }
    requires loaded { IsLoaded (program_tree model.now.program) case.now }
    ensures causes { IfOk result (λ l. IfSome (D.told desk.old).files (λ files.
        HoldsCauses files name.now (faults_in case.now) (extension_in case.now) (map cause_of l.staged.causes))) }
    ensures staged { IfOk result (λ l. IsStagedCase case.now l.staged) }
    ensures top { IfOk result (λ l. IsTopIn (case_of (program_tree model.now.program) case.now) word.now (flat_tree l.top)) }
    ensures refused { (r : Refusal) → IsErrOf result (stop.Refused r) → (of_model : Text) → (of_faults : Text) →
        IfSome (D.told desk.old).files (λ files. HoldsCase files of_model of_faults (case_of (program_tree model.now.program) case.now)) →
        IfSome (D.told desk.old).files (λ files. RefusesStaged files of_model of_faults name.now word.now r) }
    ensures failed { IsErrOf result stop.Desk → Rose (D.told desk.old).faults (D.told desk.new).faults }
    ensures stays { OnlyReads (D.told desk.old) (D.told desk.new) }
{
    let staged = load_causes(alloc, desk, name, case)?;
    match load_top(alloc, word, model, case) {
        Ok(top) => Ok(StagedTop { staged, top }),
        Err(stop) => {
            discard_case(staged);
            Err(stop)
        }
    }
}

/// Lets go of an extension with common causes.
fn discard_case(_staged: CausesCase) {}

/// The extension with the causes of a file.
fn load_causes<D: Desk>(
    alloc: Global,
    desk: &mut D,
    name: &str,
    case: &LoadedCase,
) -> Result<CausesCase, Stop>
    requires { IsSomeCase case.now }
    ensures ok { IfOk result (λ l. IfSome (D.told desk.old).files (λ files.
        HoldsCauses files name.now (faults_in case.now) (extension_in case.now) (map cause_of l.causes))) }
    ensures staged { IfOk result (IsStagedCase case.now) }
    ensures refused { (r : Refusal) → IsErrOf result (stop.Refused r) →
        IfSome (D.told desk.old).files
        (λ files. RefusesCauses files name.now (faults_in case.now) (extension_in case.now)
        (flat_in case.now) (modes_in case.now) r) }
    ensures failed { IsErrOf result stop.Desk → Rose (D.told desk.old).faults (D.told desk.new).faults }
    ensures stays { OnlyReads (D.told desk.old) (D.told desk.new) }
{
    let bytes = read_input(alloc, desk, Input::Causes, name)?;
    let causes = causes_of(alloc, &bytes, case)?;
    match staged_of(alloc, case, causes) {
        Ok(staged) => Ok(staged),
        Err(wrong) => Err(Input::Causes.stop(wrong)),
    }
}

/// The causes that the bytes spell for the extension.
fn causes_of(alloc: Global, bytes: &[u8], case: &LoadedCase) -> Result<CauseList, Stop>
    requires case { IsSomeCase case.now }
    requires short { length bytes.now ≤ MOST_FILE_BYTES }
    ensures read { IfOk result (λ causes. AreCausesOf case.now bytes.now (map cause_of causes)) }
    ensures refused { (r : Refusal) → IsErrOf result (stop.Refused r) →
        RefusesBytes (faults_in case.now) (extension_in case.now) (flat_in case.now) (modes_in case.now) bytes.now r }
    ensures desk { IsErrOf result stop.Desk → ⊥ }
{
    let limited = &case.limited;
    match read_causes(alloc, bytes, &limited.faults, &limited.woven.program) {
        Ok(causes) => Ok(causes),
        Err(fault) => Err(fault_stop(fault)),
    }
}

/// The extension with causes, where it passes no limit.
fn staged_of(alloc: Global, case: &LoadedCase, causes: CauseList) -> Result<CausesCase, Wrong>
    requires case { IsSomeCase case.now }
    requires causes { (bytes : List ℕ) × AreCausesOf case.now bytes (map cause_of causes) }
    ensures staged { IfOk result (IsStagedCase case.now) }
    ensures kept { IfOk result (λ l. l.causes ≡ causes) }
    ensures wrong { IfErr result (IfRefused (BreaksStaged (flat_in case.now) (modes_in case.now) (map cause_of causes))) }
{
    let limited = &case.limited;
    let staged = with_causes(alloc, limited.typed.model(), &limited.faults, &causes)?;
    let whole = with_history(alloc, &staged.model, &staged.events)?;
    let full = typed_whole(alloc, whole)?;
    let typed = typed_whole(alloc, staged.model)?;
    Ok(CausesCase {
        causes,
        typed,
        full,
        events: staged.events,
    })
}

/// The end of the work where bytes are no causes.
fn fault_stop(fault: CauseFault) -> Stop
    ensures { result ≡ stop_of_causes fault }
{
    match fault {
        CauseFault::Parse(fault) => Input::Causes.stop(Wrong::from(fault)),
        CauseFault::Broken(rule, number) => {
            Input::Causes.broken(Part::Cause, number_of(rule), u64::from(number))
        }
        CauseFault::OutOfMemory => Stop::Memory,
    }
}

/// The number of a rule of causes.
fn number_of(rule: CauseRule) -> u32
    ensures { result ≡ cause_number (rule_of rule) }
{
    rule as u32
}
