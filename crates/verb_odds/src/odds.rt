//! Bounds on the probabilities of minimal cut sets, by the marks of modes.
//!
//! The main function is [`find_odds`]. All files are read and judged in [`prepare_odds`], which also searches; then the report is said.
ghost use Rattle.std.specs.Prelude.{◌≡◌, ◌≤◌, ◌<◌, ◌++◌, ◌⊎◌, All, length, map, IfOk, IfSome, IsErrOf};
ghost use Rattle.base_values.specs.declared.limits.TheConstants.{GREATEST_DEPTH};
ghost use Rattle.base_files.specs.Desk.{OnlyReads, OnlySays, Rose};
ghost use Rattle.smv_language.specs.ProgramTree.{ProgramTree};
ghost use Rattle.smv_language.specs.ModelTree.{model_tree, name_of_fault};
ghost use Rattle.fault_instructions.specs.Instructions.{instruction_tree};
ghost use Rattle.fault_odds.specs.Marks.{HasProbabilities, AreOdds};
ghost use Rattle.fault_odds.specs.OddsText.{odds_text};
ghost use Rattle.cut_text_laws.specs.Analysis.{told_ending};
ghost use Rattle.cut_report.specs.FaultText.{faults_text};
ghost use Rattle.smv_type_laws.specs.Costs.{state_bits};
ghost use Rattle.verb_loading.specs.LoadedCases.{case_of, IsLoaded};
ghost use Rattle.verb_loading.specs.LoadedEvents.{case_in};
ghost use Rattle.verb_loading.specs.Cases.{HoldsCase};
ghost use Rattle.verb_loading.specs.declared.status.Refusal.{Refusal};
ghost use Rattle.verb_loading.specs.declared.input.Stop.TheVariants as stop;
ghost use Rattle.verb_odds.specs.Reports.{sets_text, ending_line};
ghost use Rattle.verb_loading.specs.Statuses.{ended_with, IsBoundedAt, IsFinished};
ghost use Rattle.verb_odds.specs.Odds.{mark_rule, mark_refusal, RefusesOdds, RefusesMark, IsMarked, IsOddsFinding, FindsOdds, HasOdds};
ghost use Rattle.verb_odds.specs.Odds.{SaysOddsInPart};

use crate::report::{append_ending, append_sets};
use base_files::{Desk, say_whole};
use base_values::{ByteList, Ending, OutOfMemory};
use cut_model_search::{FaultyModel, size_of, told};
use cut_report::print_faults;
use cut_search::answer::Analysis;
use fault_odds::{MarkFault, OddsFault, OddsList, marks, print_odds};
use sat_adviser::Panel;
use std::alloc::Global;
use verb_command_line::FindOdds;
use verb_loading::event::LoadedEvent;
use verb_loading::input::Stop;
use verb_loading::loaded::{LoadedCase, load_case};
use verb_loading::model::load_model;
use verb_loading::status::{InputFault, Part, Refusal, Status, ended_as};
use verb_loading::top::load_top;

/// A case with a top event and its word, the units of each of its faults, and how far it is to be searched.
#[derive(Drop)]
pub struct MarkedCase<'a> {
    pub loaded: LoadedEvent,
    pub word: &'a str,
    pub odds: OddsList,
    pub depth: u32,
}

/// What a search found: the report, and how it ended.
#[derive(Drop)]
pub struct FoundOdds {
    pub report: ByteList,
    pub ending: Ending,
}

/// Searches for the minimal cut sets, and says them with the bounds of their probabilities.
pub fn find_odds<D: Desk>(
    alloc: Global,
    desk: &mut D,
    asked: &FindOdds,
    panel: &mut Panel,
) -> Result<Status, Stop>
    requires { asked.now.depth ≤ GREATEST_DEPTH }
    ensures ok { IfOk result (λ s. IfSome (D.told desk.old).files (λ files.
        HasOdds files asked.now.model.now asked.now.faults.now asked.now.top.now asked.now.depth s (D.told desk.old).said
        (D.told desk.new).said)) }
    ensures finished { IfOk result IsFinished }
    ensures depth { IfOk result (IsBoundedAt asked.now.depth) }
    ensures refused { (r : Refusal) → IsErrOf result (stop.Refused r) →
        IfSome (D.told desk.old).files (λ files. RefusesOdds files asked.now.model.now asked.now.faults.now asked.now.top.now r) }
    ensures silent { (r : Refusal) → IsErrOf result (stop.Refused r) → (D.told desk.new).said ≡ (D.told desk.old).said }
    // However it ends, nothing was said, or a part of that.
    ensures left { ((D.told desk.new).said ≡ (D.told desk.old).said) ⊎ IfSome (D.told desk.old).files (λ files.
        SaysOddsInPart files asked.now.model.now asked.now.faults.now asked.now.top.now asked.now.depth (D.told desk.old).said
        (D.told desk.new).said) }
    ensures failed { IsErrOf result stop.Desk → Rose (D.told desk.old).faults (D.told desk.new).faults }
    ensures stays { OnlySays (D.told desk.old) (D.told desk.new) }
{
    let found = prepare_odds(alloc, desk, asked, panel)?;
    say_whole(desk, found.report.as_slice())?;
    Ok(ended_as(found.ending))
}

/// Reads both files and the top event, searches, and makes what is to be said.
fn prepare_odds<D: Desk>(
    alloc: Global,
    desk: &mut D,
    asked: &FindOdds,
    panel: &mut Panel,
) -> Result<FoundOdds, Stop>
    ensures ok { IfOk result (λ found. IfSome (D.told desk.old).files (λ files.
        FindsOdds files asked.now.model.now asked.now.faults.now asked.now.top.now asked.now.depth found)) }
    ensures depth { IfOk result (λ found. IsBoundedAt asked.now.depth (ended_with (told_ending found.ending))) }
    ensures refused { (r : Refusal) → IsErrOf result (stop.Refused r) →
        IfSome (D.told desk.old).files (λ files. RefusesOdds files asked.now.model.now asked.now.faults.now asked.now.top.now r) }
    ensures failed { IsErrOf result stop.Desk → Rose (D.told desk.old).faults (D.told desk.new).faults }
    ensures stays { OnlyReads (D.told desk.old) (D.told desk.new) }
{
    let marked = load_marked(alloc, desk, asked)?;
    let found = search_marked(alloc, &marked, panel);
    discard(marked);
    match found {
        Ok(found) => Ok(found),
        Err(OutOfMemory) => Err(Stop::Memory),
    }
}

/// Lets a case go.
fn discard(_marked: MarkedCase<'_>) {}

/// The model and the instructions of two files, whose marks are probabilities, with the top event.
fn load_marked<'a, D: Desk>(
    alloc: Global,
    desk: &mut D,
    asked: &FindOdds<'a>,
) -> Result<MarkedCase<'a>, Stop>
    ensures ok { IfOk result
        (λ l. IfSome (D.told desk.old).files (λ files. HoldsCase files asked.now.model.now asked.now.faults.now (case_in l.loaded))) }
    ensures marked { IfOk result IsMarked }
    ensures asked { IfOk result (λ l. (l.word.now ≡ asked.now.top.now) × (l.depth ≡ asked.now.depth)) }
    ensures refused { (r : Refusal) → IsErrOf result (stop.Refused r) →
        IfSome (D.told desk.old).files (λ files. RefusesOdds files asked.now.model.now asked.now.faults.now asked.now.top.now r) }
    ensures failed { IsErrOf result stop.Desk → Rose (D.told desk.old).faults (D.told desk.new).faults }
    ensures stays { OnlyReads (D.told desk.old) (D.told desk.new) }
{
    let model = load_model(alloc, desk, asked.model)?;
    let case = load_case(alloc, desk, asked.faults, &model)?;
    let odds = marks_of(alloc, &case)?;
    let top = load_top(alloc, asked.top, &model, &case)?;
    Ok(MarkedCase {
        loaded: LoadedEvent { model, case, top },
        word: asked.top,
        odds,
        depth: asked.depth,
    })
}

/// The units of each fault, where every mode has a mark that is a probability.
fn marks_of(alloc: Global, case: &LoadedCase) -> Result<OddsList, Stop>
    requires { (p : ProgramTree) × IsLoaded p case.now }
    ensures odds { (p : ProgramTree) → IfOk result (λ odds. AreOdds (case_of p case.now).instructions (case_of p case.now).faults odds) }
    ensures all { IfOk result (λ odds. HasProbabilities (instruction_tree case.now.instructions)) }
    ensures refused { (r : Refusal) → IsErrOf result (stop.Refused r) → (p : ProgramTree) → RefusesMark (case_of p case.now) r }
    ensures desk { IsErrOf result stop.Desk → ⊥ }
{
    match marks(
        alloc,
        &case.instructions,
        case.limited.woven.faults.as_slice(),
    ) {
        Ok(odds) => Ok(odds),
        Err(OddsFault::NoMark(item)) => Err(mark_stop(MarkFault::NoMark, item)),
        Err(OddsFault::BadMark(item)) => Err(mark_stop(MarkFault::BadMark, item)),
        Err(OddsFault::OutOfMemory) => Err(Stop::Memory),
    }
}

/// The end of the work where the mark of a mode breaks a rule.
fn mark_stop(fault: MarkFault, item: u32) -> Stop
    ensures { result ≡ stop.Refused (mark_refusal fault item) }
{
    Stop::Refused(Refusal::Faults(InputFault {
        part: Part::Mark,
        number: mark_rule_of(fault),
        place: u64::from(item),
    }))
}

/// The number of the rule that a mark breaks.
fn mark_rule_of(fault: MarkFault) -> u32
    ensures { result ≡ mark_rule fault }
{
    match fault {
        MarkFault::NoMark => 1,
        MarkFault::BadMark => 2,
    }
}

/// Searches a case for the minimal cut sets of its top event, and makes what is to be said.
fn search_marked(
    alloc: Global,
    marked: &MarkedCase,
    panel: &mut Panel,
) -> Result<FoundOdds, OutOfMemory>
    requires { IsMarked marked.now }
    ensures { IfOk result (IsOddsFinding (case_in marked.now.loaded) marked.now.word.now marked.now.depth marked.now.odds) }
{
    let case = &marked.loaded.case;
    let size = size_of(None, case.limited.faults.len());
    let model = FaultyModel::of_case(alloc, case, &marked.loaded.top)?;
    let a = model.analyse(alloc, marked.depth, size, panel)?;
    let ending = told(&a.end);
    let report = report_of(alloc, case, &a, &marked.odds, ending)?;
    Ok(FoundOdds { report, ending })
}

/// The lines of the faults, of the sets, of their bounds, and of how the analysis ended.
#[tactic(auto, using(verb_loading::proofs::ReportLaws::report_rules))]
fn report_of(
    alloc: Global,
    case: &LoadedCase,
    a: &Analysis,
    odds: &OddsList,
    ending: Ending,
) -> Result<ByteList, OutOfMemory>
    requires named { All (All (λ i. (0 < i) × (i ≤ length odds.now))) a.now.sets }
    ensures { IfOk result (λ text. text ≡ faults_text (map name_of_fault case.now.limited.faults) ++
        (sets_text a.now.sets
        ++ (odds_text odds.now a.now.sets
        ++ ending_line (told_ending ending) (state_bits (model_tree case.now.limited.full.model))))) }
{
    let mut text = print_faults(alloc, &case.limited.faults)?;
    append_sets(alloc, &mut text, a.sets.as_slice())?;
    let bounds = print_odds(alloc, &a.sets, odds)?;
    text.append(&bounds)?;
    append_ending(alloc, &mut text, ending, case.limited.full.bits())?;
    Ok(text)
}
