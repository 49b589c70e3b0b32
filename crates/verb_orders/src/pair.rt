//! A set of faults with two of them, and the extension staged for these two.
//!
//! The main function is [`load_pair`]: it reads the files, refuses a set with a number that is none of a fault, and stages the model.
ghost use Rattle.std.specs.Prelude.{◌≡◌, ◌≢◌, ℕ, false, IsTrue, length, map, IfOk, IfSome, IsErrOf, OnOk};
ghost use Rattle.base_files.specs.Desk.{OnlyReads, Rose};
ghost use Rattle.smv_language.specs.ModelTree.{model_tree};
ghost use Rattle.smv_flat_laws.specs.FaultModes.{mode_of};
ghost use Rattle.smv_type_laws.specs.Models.{IsTyped};
ghost use Rattle.sat_encoding_laws.specs.FlatTraces.{IsNumbered};
ghost use Rattle.fault_orders.specs.Stage.{stage as stage_of};
ghost use Rattle.cut_reach_laws.specs.Laws.{IsFaultNumber};
ghost use Rattle.verb_command_line.specs.Sets.{numbers_of};
ghost use Rattle.verb_loading.specs.declared.input.Input.TheVariants as input;
ghost use Rattle.verb_loading.specs.declared.status.InputFault.{InputFault};
ghost use Rattle.verb_loading.specs.Inputs.{stop_at};
ghost use Rattle.verb_loading.specs.Wholes.{BreaksKinds};
ghost use Rattle.verb_loading.specs.LoadedEvents.{case_in};
ghost use Rattle.verb_loading.specs.Cases.{HoldsCase};
ghost use Rattle.verb_loading.specs.declared.status.Refusal.{Refusal};
ghost use Rattle.verb_loading.specs.declared.input.Stop.TheVariants as stops;
ghost use Rattle.verb_orders.specs.Pairs.{IsPair, IsAsked, IsFirstOutside, outside_refusal, stage_refusal, RefusesStage, RefusesAsked};
ghost use Rattle.verb_orders.specs.Pairs.{IsStaged, IsStagedCase};

use base_files::Desk;
use cert_check::is_fault;
use cut_sets::has_number;
use fault_orders::stage;
use smv_language::model::FaultList;
use smv_types::Typed;
use std::alloc::Global;
use verb_command_line::set::set_numbers;
use verb_loading::event::LoadedEvent;
use verb_loading::input::{Input, Stop};
use verb_loading::loaded::{Limited, load_case, typed_whole};
use verb_loading::model::load_model;
use verb_loading::status::{InputFault, Part, Refusal};
use verb_loading::top::load_top;
use verb_loading::wrong::Wrong;

/// The files of a model and its instructions, and the words of a top event, a set of faults, and two of its numbers.
#[derive(Clone, Copy)]
pub struct PairWords<'a> {
    pub model: &'a str,
    pub faults: &'a str,
    pub top: &'a str,
    pub set: &'a str,
    pub first: u32,
    pub second: u32,
}

/// An extension with a top event, a set of its faults, and its flat model staged for two faults of the set. The staged model
/// has no faults of its own.
#[derive(Drop)]
pub struct PairCase<'a> {
    pub asked: PairWords<'a>,
    pub loaded: LoadedEvent,
    pub set: Vec<u32>,
    pub typed: Typed,
    pub none: FaultList,
}

/// Lets a staged case go. Its expressions are taken apart here, once for all that had it.
pub(crate) fn discard_case(_staged: PairCase<'_>) {}

/// The extension of two files, staged for two faults of a set, with a top event.
pub(crate) fn load_pair<'a, D: Desk>(
    alloc: Global,
    desk: &mut D,
    asked: &PairWords<'a>,
) -> Result<PairCase<'a>, Stop>
    ensures ok { IfOk result
        (λ s. IfSome (D.told desk.old).files (λ files. HoldsCase files asked.now.model.now asked.now.faults.now (case_in s.loaded))) }
    ensures staged { IfOk result IsStagedCase }
    ensures asked { IfOk result (λ s. s.asked ≡ asked.now) }
    ensures numbers { IfOk result (λ s. IsAsked asked.now → s.set.items ≡ numbers_of asked.now.set.now) }
    ensures refused { (r : Refusal) → IsErrOf result (stops.Refused r) → IsAsked asked.now →
        IfSome (D.told desk.old).files (λ files. RefusesAsked files asked.now r) }
    ensures failed { IsErrOf result stops.Desk → Rose (D.told desk.old).faults (D.told desk.new).faults }
    ensures stays { OnlyReads (D.told desk.old) (D.told desk.new) }
{
    let set = pair_set(alloc, asked)?;
    let model = load_model(alloc, desk, asked.model)?;
    let case = load_case(alloc, desk, asked.faults, &model)?;
    let typed = staged(alloc, &case.limited, &set, asked.first, asked.second)?;
    let top = load_top(alloc, asked.top, &model, &case)?;
    Ok(PairCase {
        asked: *asked,
        loaded: LoadedEvent { model, case, top },
        set,
        typed,
        none: FaultList::new(alloc),
    })
}

/// The numbers of the set, of which the two are different ones.
fn pair_set(alloc: Global, asked: &PairWords) -> Result<Vec<u32>, Stop>
    ensures pair { IfOk result (λ set. IsPair set.items asked.now.first asked.now.second) }
    ensures numbers { IfOk result (λ set. IsAsked asked.now → set.items ≡ numbers_of asked.now.set.now) }
    ensures kept { (r : Refusal) → IsErrOf result (stops.Refused r) → IsAsked asked.now → ⊥ }
    ensures desk { IsErrOf result stops.Desk → ⊥ }
{
    let set = set_numbers(alloc, asked.set)?;
    judge_pair(&set, asked.first, asked.second)?;
    Ok(set)
}

/// Refuses two numbers that are no two of the set, as the words of a command never are.
fn judge_pair(set: &[u32], first: u32, second: u32) -> Result<(), Stop>
    ensures ok { OnOk result (IsPair set.now first second) }
    ensures kept { (r : Refusal) → IsErrOf result (stops.Refused r) → IsPair set.now first second → ⊥ }
    ensures desk { IsErrOf result stops.Desk → ⊥ }
{
    if is_pair(set, first, second) {
        return Ok(());
    }
    Err(set_stop(0))
}

/// Whether the two numbers are different ones of the set.
fn is_pair(set: &[u32], first: u32, second: u32) -> bool
    ensures yes { IsTrue result → IsPair set.now first second }
    ensures no { result ≡ false → IsPair set.now first second → ⊥ }
{
    if first == second {
        return false;
    }
    if !has_number(set, u64::from(first)) {
        return false;
    }
    has_number(set, u64::from(second))
}

/// The flat model of an extension staged for two faults of a set, with its kinds. A number of the set that is none of a fault
/// is refused first. Where the staged model passes a limit, the instructions are refused.
fn staged(
    alloc: Global,
    limited: &Limited,
    set: &[u32],
    first: u32,
    second: u32,
) -> Result<Typed, Stop>
    requires { IsPair set.now first second }
    ensures ok { IfOk result (IsStaged limited.now set.now first second) }
    ensures refused { (r : Refusal) → IsErrOf result (stops.Refused r) → RefusesStage limited.now set.now first second r }
    ensures desk { IsErrOf result stops.Desk → ⊥ }
{
    judge_set(set, limited.faults.len())?;
    staged_model(alloc, limited, first, second)
}

/// The flat model of an extension staged for two faults, with its kinds.
fn staged_model(alloc: Global, limited: &Limited, first: u32, second: u32) -> Result<Typed, Stop>
    requires first { IsFaultNumber (length limited.now.faults) first }
    requires second { IsFaultNumber (length limited.now.faults) second }
    requires apart { first ≢ second }
    ensures ok { IfOk result (λ t. (model_tree t.model
        ≡ stage_of (model_tree limited.now.typed.model) (map mode_of limited.now.faults) first second)
        × IsTyped (model_tree t.model)) }
    ensures refused { (r : Refusal) → IsErrOf result (stops.Refused r) →
        (fault : InputFault) × (r ≡ stage_refusal fault)
        × BreaksKinds (stage_of (model_tree limited.now.typed.model) (map mode_of limited.now.faults) first second) fault }
    ensures desk { IsErrOf result stops.Desk → ⊥ }
{
    let model = stage(alloc, limited.typed.model(), &limited.faults, first, second)?;
    match typed_whole(alloc, model) {
        Ok(typed) => Ok(typed),
        Err(wrong) => Err(stage_stop(wrong)),
    }
}

/// The end of the work where this is wrong with a staged model.
fn stage_stop(wrong: Wrong) -> Stop
    ensures { result ≡ stop_at input.Faults wrong }
{
    Input::Faults.stop(wrong)
}

/// Refuses a set with a number that is none of a fault, by the position of the first such number, from 1.
fn judge_set(set: &[u32], faults: usize) -> Result<(), Stop>
    ensures ok { OnOk result (IsNumbered faults set.now) }
    ensures refused { (r : Refusal) → IsErrOf result (stops.Refused r) →
        (position : ℕ) × (r ≡ outside_refusal position) × IsFirstOutside faults set.now position }
    ensures desk { IsErrOf result stops.Desk → ⊥ }
{
    for (k, number) in set.iter().enumerate() {
        if !is_fault(*number, faults) {
            return Err(set_stop(k as u64 + 1));
        }
    }
    Ok(())
}

/// The end of the work where the number at a position of the set is none of a fault.
fn set_stop(position: u64) -> Stop
    ensures { result ≡ stops.Refused (outside_refusal position) }
{
    Stop::Refused(Refusal::Set(InputFault {
        part: Part::Count,
        number: 1,
        place: position,
    }))
}
