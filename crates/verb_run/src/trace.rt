//! The file of a trace, as moments of the extension.
//!
//! The main function is [`load_trace`].
ghost use Rattle.std.specs.Prelude.{◌≡◌, ◌≤◌, length, IfOk, IfSome, IsErrOf};
ghost use Rattle.base_files.specs.Desk.{OnlyReads, Rose};
ghost use Rattle.smv_language.specs.ModelTree.{model_tree};
ghost use Rattle.smv_language.specs.NumberedValues.{told_trace};
ghost use Rattle.cut_text_laws.specs.TraceOfText.{IsPrintable, HasItsSymbols};
ghost use Rattle.verb_run.specs.Replays.{RefusesTrace, HoldsTrace, stop_at_text};
ghost use Rattle.verb_loading.specs.declared.status.Refusal.{Refusal};
ghost use Rattle.verb_loading.specs.declared.input.Stop.TheVariants as stop;
ghost use Rattle.smv_evaluation.specs.EvaluableModels.{CanBeReplayed};

use base_files::Desk;
use base_values::MomentList;
use cut_report::{TraceFault, read_trace};
use smv_types::Typed;
use std::alloc::Global;
use verb_loading::input::{Input, Stop, read_input};
use verb_loading::status::{Part, Refusal};

/// The moments that the file of a trace gives, over the flat model of an extension.
pub(crate) fn load_trace<D: Desk>(
    alloc: Global,
    desk: &mut D,
    name: &str,
    typed: &Typed,
) -> Result<MomentList, Stop>
    requires printable { IsPrintable (model_tree typed.now.model) }
    requires symbols { HasItsSymbols (model_tree typed.now.model) }
    ensures ok { IfOk result (λ trace. IfSome (D.told desk.old).files (λ files.
        HoldsTrace files name.now (model_tree typed.now.model) (told_trace typed.now.model.symbols trace))) }
    ensures fit { IfOk result (CanBeReplayed (model_tree typed.now.model)) }
    ensures refused { (r : Refusal) → IsErrOf result (stop.Refused r) →
        IfSome (D.told desk.old).files (λ files. RefusesTrace files name.now (model_tree typed.now.model) r) }
    ensures failed { IsErrOf result stop.Desk → Rose (D.told desk.old).faults (D.told desk.new).faults }
    ensures stays { OnlyReads (D.told desk.old) (D.told desk.new) }
{
    let bytes = read_input(alloc, desk, Input::Trace, name)?;
    match read_trace(alloc, typed, &bytes) {
        Ok(trace) => Ok(trace),
        Err(fault) => Err(text_stop(fault)),
    }
}

/// The end of the work where this is wrong with the text of a trace.
fn text_stop(fault: TraceFault) -> Stop
    ensures { result ≡ stop_at_text fault }
{
    match fault {
        TraceFault::BadLine(line) => Input::Trace.broken(Part::Read, 1, line),
        TraceFault::UnknownName(line) => Input::Trace.broken(Part::Read, 2, line),
        TraceFault::Outside(line) => Input::Trace.broken(Part::Read, 3, line),
        TraceFault::MissingValue(moment) => Input::Trace.broken(Part::Read, 4, moment),
        TraceFault::Twice(line) => Input::Trace.broken(Part::Read, 5, line),
        TraceFault::OutOfMemory => Stop::Memory,
    }
}
