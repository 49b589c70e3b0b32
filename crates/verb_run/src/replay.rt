//! A trace judged over the extension, and what is said of one that reaches the top event.
//!
//! The main function is [`replay_file`]: [`judge_trace`] refuses moments that are none, and [`replay_report`] names the failed faults.
ghost use Rattle.std.specs.Prelude.{IfSome, ◌≡◌, ◌++◌, if◌then◌else◌, [], codes, false, length, IfOk, OnOk, IsErrOf};
ghost use Rattle.smv_language.specs.ModelTree.{model_tree, flat_tree};
ghost use Rattle.smv_flat_laws.specs.FaultModes.{mode_of};
ghost use Rattle.smv_flat_laws.specs.FlatTrace.{stands_in_some};
ghost use Rattle.smv_type_laws.specs.Laws.{ReadsOwn};
ghost use Rattle.smv_type_laws.specs.Models.{judged_in, broken_condition};
ghost use Rattle.smv_evaluation.specs.EvaluableModels.{IsEvaluable, CanBeReplayed};
ghost use Rattle.smv_evaluation.specs.Replay.{IsReaching};
ghost use Rattle.fault_extend.specs.WovenFaults.{fault_tree};
ghost use Rattle.fault_extend.specs.NumberedFaults.{IsNumbered, AreNumbered};
ghost use Rattle.base_files.specs.Desk.{OnlyReads, Rose};
ghost use Rattle.smv_language.specs.ProgramTree.{program_tree};
ghost use Rattle.verb_loading.specs.LoadedCases.{case_of, IsLoaded};
ghost use Rattle.verb_run.specs.Runs.{refuses, says, TraceComesTo};
ghost use Rattle.verb_loading.specs.Reports.{name_text};
ghost use Rattle.verb_run.specs.Replays.{RefusesMoment, failed_in};
ghost use Rattle.verb_loading.specs.declared.status.Refusal.{Refusal};
ghost use Rattle.verb_loading.specs.declared.status.Refusal.TheVariants as refusal;
ghost use Rattle.verb_loading.specs.declared.status.Objection.TheVariants as objection;
ghost use Rattle.verb_loading.specs.declared.input.Stop.TheVariants as stop;
ghost use Rattle.smv_language.specs.NumberedValues.{told_trace};

use crate::trace::load_trace;
use base_files::Desk;
use base_values::{ByteList, MomentList, OutOfMemory};
use fault_extend::WovenFault;
use smv_evaluation::{Replayed, Table, has_failed, replay};
use smv_language::Expr;
use smv_language::model::{Fault, Flat};
use smv_types::Typed;
use std::alloc::Global;
use verb_loading::input::Stop;
use verb_loading::loaded::LoadedCase;
use verb_loading::model::LoadedModel;
use verb_loading::report::append_name;
use verb_loading::status::{Objection, Refusal, Why};

/// Judges the trace of a file over the extension, and makes what is to be said of it.
pub(crate) fn replay_file<D: Desk>(
    alloc: Global,
    desk: &mut D,
    name: &str,
    model: &LoadedModel,
    case: &LoadedCase,
    top: &Expr<Flat>,
) -> Result<ByteList, Stop>
    requires loaded { IsLoaded (program_tree model.now.program) case.now }
    requires own { ReadsOwn (model_tree case.now.limited.typed.model) (flat_tree top.now) }
    requires kept { broken_condition (judged_in (model_tree case.now.limited.typed.model) false (flat_tree top.now)) ≡ [] }
    ensures ok { IfOk result (λ report. IfSome (D.told desk.old).files (λ files.
        TraceComesTo files (case_of (program_tree model.now.program) case.now) (flat_tree top.now) name.now (says report))) }
    ensures refused { (r : Refusal) → IsErrOf result (stop.Refused r) →
        IfSome (D.told desk.old).files
        (λ files. TraceComesTo files (case_of (program_tree model.now.program) case.now) (flat_tree top.now) name.now (refuses r)) }
    ensures failed { IsErrOf result stop.Desk → Rose (D.told desk.old).faults (D.told desk.new).faults }
    ensures stays { OnlyReads (D.told desk.old) (D.told desk.new) }
{
    let trace = load_trace(alloc, desk, name, &case.limited.typed)?;
    judge_trace(alloc, &case.limited.typed, &trace, top)?;
    Ok(replay_report(alloc, case, &trace)?)
}

/// Refuses moments that are no trace which reaches the top event.
pub(crate) fn judge_trace(
    alloc: Global,
    typed: &Typed,
    trace: &MomentList,
    top: &Expr<Flat>,
) -> Result<(), Stop>
    requires model { IsEvaluable (model_tree typed.now.model) }
    requires fit { CanBeReplayed (model_tree typed.now.model) trace.now }
    requires own { ReadsOwn (model_tree typed.now.model) (flat_tree top.now) }
    requires kept { broken_condition (judged_in (model_tree typed.now.model) false (flat_tree top.now)) ≡ [] }
    ensures ok { OnOk result (IsReaching (model_tree typed.now.model) (flat_tree top.now) (told_trace typed.now.model.symbols trace.now)) }
    ensures refused { (r : Refusal) → IsErrOf result (stop.Refused r) →
        RefusesMoment (model_tree typed.now.model) (flat_tree top.now) (told_trace typed.now.model.symbols trace.now) r }
    ensures desk { IsErrOf result stop.Desk → ⊥ }
{
    let mut now = Table::for_model(alloc, typed)?;
    let mut next = Table::for_model(alloc, typed)?;
    match replay(typed, trace, top, &mut now, &mut next) {
        Replayed::Reaches => Ok(()),
        Replayed::NoTop => Err(moment_stop((trace.len() - 1) as u32, Why::Top)),
        Replayed::BadFirst => Err(moment_stop(0, Why::First)),
        Replayed::BadStep(number) => Err(moment_stop(number, Why::Step)),
    }
}

/// The end of the work where a moment is not accepted.
fn moment_stop(number: u32, why: Why) -> Stop
    ensures { result ≡ stop.Refused (refusal.NotAccepted (objection.Moment number why)) }
{
    Stop::Refused(Refusal::NotAccepted(Objection::Moment(number, why)))
}

/// That the top event is reached, and the names of the faults that the trace has failed.
#[tactic(auto, using(verb_loading::proofs::ReportLaws::report_rules))]
pub(crate) fn replay_report(
    alloc: Global,
    case: &LoadedCase,
    trace: &MomentList,
) -> Result<ByteList, OutOfMemory>
    requires model { IsEvaluable (model_tree case.now.limited.typed.model) }
    requires fit { CanBeReplayed (model_tree case.now.limited.typed.model) trace.now }
    requires numbered { AreNumbered case.now.limited.typed.model case.now.limited.woven.faults case.now.limited.faults }
    ensures { IfOk result (λ text. text ≡ codes "reaches\nfailed" ++
        (failed_in case.now.limited.typed.model case.now.limited.woven.faults case.now.limited.faults trace.now ++ codes "\n")) }
{
    let mut text = ByteList::from_slice(alloc, b"reaches\nfailed")?;
    append_failed(
        &mut text,
        &case.limited.typed,
        case.limited.woven.faults.as_slice(),
        case.limited.faults.as_slice(),
        trace,
    )?;
    text.append(b"\n")?;
    Ok(text)
}

/// Appends the names of the faults that the trace has failed, each after a space.
#[tactic(auto, using(verb_loading::proofs::ReportLaws::report_rules))]
fn append_failed(
    text: &mut ByteList,
    typed: &Typed,
    woven: &[WovenFault],
    faults: &[Fault],
    trace: &MomentList,
) -> Result<(), OutOfMemory>
    requires model { IsEvaluable (model_tree typed.now.model) }
    requires fit { CanBeReplayed (model_tree typed.now.model) trace.now }
    requires numbered { AreNumbered typed.now.model woven.now faults.now }
    requires length { length woven.now ≡ length faults.now }
    ensures { OnOk result (text.new ≡ text.old ++ failed_in typed.now.model woven.now faults.now trace.now) }
{
    for (i, fault) in woven.iter().enumerate() {
        append_if_failed(text, typed, fault, &faults[i], trace)?;
    }
    Ok(())
}

/// Appends the name of a fault after a space, where the trace has failed it.
#[tactic(auto, using(verb_loading::proofs::ReportLaws::report_rules))]
fn append_if_failed(
    text: &mut ByteList,
    typed: &Typed,
    woven: &WovenFault,
    fault: &Fault,
    trace: &MomentList,
) -> Result<(), OutOfMemory>
    requires model { IsEvaluable (model_tree typed.now.model) }
    requires fit { CanBeReplayed (model_tree typed.now.model) trace.now }
    requires numbered { IsNumbered typed.now.model woven.now fault.now }
    ensures { OnOk result (text.new ≡ text.old ++ (if stands_in_some (model_tree typed.now.model)
        (mode_of fault.now) (told_trace typed.now.model.symbols trace.now) then codes " " ++ name_text (fault_tree woven.now) else [])) }
{
    if has_failed(typed, fault, trace) {
        text.append(b" ")?;
        append_name(text, woven)?;
    }
    Ok(())
}
