//! A model, its extension and a top event, as the work on them has them in memory ([`load_event`]): the three loads one
//! after the other, each with its refusal.
ghost use Rattle.std.specs.Prelude.{◌≡◌, ◌≤◌, IfOk, IfSome, IsErrOf};
ghost use Rattle.base_files.specs.Desk.{OnlyReads, Rose};
ghost use Rattle.verb_loading.specs.Cases.{HoldsCase};
ghost use Rattle.verb_loading.specs.Events.{RefusesEvent};
ghost use Rattle.verb_loading.specs.LoadedEvents.{case_in, IsEvent};
ghost use Rattle.verb_loading.specs.declared.status.Refusal.{Refusal};
ghost use Rattle.verb_loading.specs.declared.input.Stop.TheVariants as stop;

use crate::input::Stop;
use crate::loaded::{LoadedCase, load_case};
use crate::model::{LoadedModel, load_model};
use crate::top::load_top;
use base_files::Desk;
use smv_language::Expr;
use smv_language::model::Flat;
use std::alloc::Global;

/// A model, its extension, and a top event over that.
#[derive(Drop)]
pub struct LoadedEvent {
    pub model: LoadedModel,
    pub case: LoadedCase,
    pub top: Expr<Flat>,
}

/// The model and the instructions of two files, with the top event that a word spells.
pub fn load_event<D: Desk>(
    alloc: Global,
    desk: &mut D,
    model: &str,
    faults: &str,
    word: &str,
) -> Result<LoadedEvent, Stop>
    ensures ok { IfOk result (λ l. IfSome (D.told desk.old).files (λ files. HoldsCase files model.now faults.now (case_in l))) }
    ensures event { IfOk result (IsEvent word.now) }
    ensures refused { (r : Refusal) → IsErrOf result (stop.Refused r) →
        IfSome (D.told desk.old).files (λ files. RefusesEvent files model.now faults.now word.now r) }
    ensures failed { IsErrOf result stop.Desk → Rose (D.told desk.old).faults (D.told desk.new).faults }
    ensures stays { OnlyReads (D.told desk.old) (D.told desk.new) }
{
    let model = load_model(alloc, desk, model)?;
    let case = load_case(alloc, desk, faults, &model)?;
    let top = load_top(alloc, word, &model, &case)?;
    Ok(LoadedEvent { model, case, top })
}
