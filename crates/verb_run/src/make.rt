//! A generated case: its files, and the summary of its analysis.
//!
//! The case is read back from the two texts that are written, so that all that is known of a case from files is known of it, and
//! the files hold it. The reading refuses none of them, so that it ends for want of memory alone.
ghost use Rattle.std.specs.Prelude.{◌≡◌, ◌≤◌, ◌++◌, IfOk, OnOk, IsErrOf};
ghost use Rattle.base_values.specs.declared.limits.TheConstants.{MOST_STAGES};
ghost use Rattle.base_files.specs.Desk.{IsLater, Rose};
ghost use Rattle.base_files.specs.declared.desk.WriteStop.TheVariants as write_stop;
ghost use Rattle.smv_language.specs.ProgramTree.{program_tree};
ghost use Rattle.smv_language.specs.Text.{program_text};
ghost use Rattle.smv_language.specs.Bytes.{BytesSpellProgram};
ghost use Rattle.fault_instructions.specs.Instructions.{instruction_tree};
ghost use Rattle.fault_instructions.specs.InstructionText.{instructions_text};
ghost use Rattle.fault_instructions.specs.SpellsInstructions.{BytesSpellInstructions};
ghost use Rattle.smv_language.specs.ModelTree.{model_tree, flat_tree};
ghost use Rattle.fault_extend.specs.InstanceLaws.{HasInstancesInVar};
ghost use Rattle.fault_generator.specs.Generator as generator;
ghost use Rattle.cut_text_laws.specs.Analysis.{told_ending};
ghost use Rattle.verb_run.specs.AnswerTexts.{summary_ending};
ghost use Rattle.verb_loading.specs.Models.{IsModelText, IsLawful, IsSpelled};
ghost use Rattle.verb_loading.specs.Inputs.{IsInstructionText};
ghost use Rattle.verb_loading.specs.LoadedCases.{case_of as case_with, IsLoaded, IsLoadedFrom, IsTopIn};
ghost use Rattle.verb_loading.specs.LoadedEvents.{case_in, IsEvent};
ghost use Rattle.verb_loading.specs.declared.input.Stop.TheVariants as stops;
ghost use Rattle.verb_loading.specs.Wrongs.{IfRefused};
ghost use Rattle.verb_run.specs.GeneratedCase.{dead_word, IsOfGenerator, IsGeneratedText, HasMade, MakesInPart, summary_line, made_case};
ghost use Rattle.verb_run.specs.GeneratedCase.{IsMaking, IsSummary};

use base_files::{Desk, WriteStop, say_whole, write_whole};
use base_values::{ByteList, Ending, OutOfMemory};
use cut_model_search::{FaultyModel, size_of, told};
use fault_generator::{generated_instructions, generated_model};
use fault_instructions::print_instructions;
use sat_adviser::Panel;
use smv_language::model::Flat;
use smv_language::{Expr, print_program};
use std::alloc::Global;
use verb_loading::event::LoadedEvent;
use verb_loading::input::Stop;
use verb_loading::loaded::{LoadedCase, case_of};
use verb_loading::model::{LoadedModel, model_of};
use verb_loading::status::{Status, ended_as};
use verb_loading::top::load_top;
use verb_loading::wrong::Wrong;

/// A generated case with its top event, and the texts of its model and its instructions.
#[derive(Drop)]
pub struct Generated {
    pub loaded: LoadedEvent,
    pub program: Vec<u8>,
    pub instructions: Vec<u8>,
}

/// A generated case, and where its files go.
#[derive(Drop)]
pub struct Making<'a> {
    pub made: Generated,
    pub stages: u32,
    pub depth: u32,
    pub model: &'a str,
    pub faults: &'a str,
}

/// The line that is said of a generated case, and how its search ended.
#[derive(Drop)]
pub struct Summary {
    pub line: ByteList,
    pub ending: Ending,
}

/// Generates a case of a number and so many stages.
pub fn generate(alloc: Global, number: u32, stages: u32) -> Result<Generated, OutOfMemory>
    requires { stages ≤ MOST_STAGES }
    ensures event { IfOk result (λ g. IsEvent dead_word g.loaded) }
    ensures program { IfOk result (λ g. (case_in g.loaded).program ≡ generator.generated_model number stages) }
    ensures instructions { IfOk result (λ g. (case_in g.loaded).instructions ≡ generator.generated_instructions) }
    ensures model_text { IfOk result (λ g. g.program.items ≡ program_text (generator.generated_model number stages)) }
    ensures faults_text { IfOk result (λ g. g.instructions.items ≡ instructions_text generator.generated_instructions) }
{
    let program = model_text(alloc, number, stages)?;
    let instructions = instruction_text(alloc)?;
    let loaded = read_back(alloc, &program, &instructions)?;
    Ok(Generated {
        loaded,
        program,
        instructions,
    })
}

/// The text of the model of a number and so many stages.
fn model_text(alloc: Global, number: u32, stages: u32) -> Result<Vec<u8>, OutOfMemory>
    ensures text { IfOk result (λ text. text.items ≡ program_text (generator.generated_model number stages)) }
    ensures spells { IfOk result (λ text. BytesSpellProgram text.items (generator.generated_model number stages)) }
{
    let program = generated_model(alloc, number, stages)?;
    print_program(alloc, &program)
}

/// The text of the instructions.
fn instruction_text(alloc: Global) -> Result<Vec<u8>, OutOfMemory>
    ensures text { IfOk result (λ text. text.items ≡ instructions_text generator.generated_instructions) }
    ensures spells { IfOk result (λ text. BytesSpellInstructions text.items generator.generated_instructions) }
{
    let instructions = generated_instructions(alloc)?;
    print_instructions(alloc, &instructions)
}

/// The case of two texts, with the top event `dead`.
fn read_back(alloc: Global, program: &[u8], instructions: &[u8]) -> Result<LoadedEvent, OutOfMemory>
    requires program { IsGeneratedText program.now }
    requires instructions { instructions.now ≡ instructions_text generator.generated_instructions }
    ensures event { IfOk result (IsEvent dead_word) }
    ensures program { IfOk result (λ l. IsModelText program.now (program_tree l.model.program)) }
    ensures instructions { IfOk result (λ l. IsInstructionText instructions.now (instruction_tree l.case.instructions)) }
{
    let model = read_model(alloc, program)?;
    let case = read_case(alloc, instructions, &model)?;
    let top = read_top(alloc, &model, &case)?;
    Ok(LoadedEvent { model, case, top })
}

/// The model of the generator's text, which is not refused.
fn read_model(alloc: Global, bytes: &[u8]) -> Result<LoadedModel, OutOfMemory>
    requires { IsGeneratedText bytes.now }
    ensures text { IfOk result (λ l. IsModelText bytes.now (program_tree l.program)) }
    ensures lawful { IfOk result (λ l. IsLawful (program_tree l.program) (model_tree l.typed.model)) }
    ensures in_var { IfOk result (λ l. HasInstancesInVar (program_tree l.program)) }
    ensures spelled { IfOk result (λ l. IsSpelled (program_tree l.program)) }
{
    match model_of(alloc, bytes) {
        Ok(model) => Ok(model),
        Err(wrong) => Err(want_of(wrong)),
    }
}

/// The extension of a generated model by the generator's instructions, which are not refused.
fn read_case(alloc: Global, bytes: &[u8], model: &LoadedModel) -> Result<LoadedCase, OutOfMemory>
    requires text { bytes.now ≡ instructions_text generator.generated_instructions }
    requires generated { IsOfGenerator (program_tree model.now.program) }
    requires lawful { IsLawful (program_tree model.now.program) (model_tree model.now.typed.model) }
    requires in_var { HasInstancesInVar (program_tree model.now.program) }
    requires spelled { IsSpelled (program_tree model.now.program) }
    ensures text { IfOk result (IsLoadedFrom bytes.now) }
    ensures loaded { IfOk result (IsLoaded (program_tree model.now.program)) }
{
    match case_of(alloc, bytes, model) {
        Ok(case) => Ok(case),
        Err(wrong) => Err(want_of(wrong)),
    }
}

/// Want of memory, where nothing is refused.
fn want_of(wrong: Wrong) -> OutOfMemory
    requires { IfRefused (λ fault. ⊥) wrong }
{
    match wrong {
        Wrong::Memory => OutOfMemory,
        Wrong::Refused(_fault) => unreachable!(),
    }
}

/// The top event `dead` over the extension of a generated model, which is not refused.
fn read_top(
    alloc: Global,
    model: &LoadedModel,
    case: &LoadedCase,
) -> Result<Expr<Flat>, OutOfMemory>
    requires generated { IsOfGenerator (program_tree model.now.program) }
    requires lawful { IsLawful (program_tree model.now.program) (model_tree model.now.typed.model) }
    requires loaded { IsLoaded (program_tree model.now.program) case.now }
    ensures { IfOk result (λ tree. IsTopIn (case_with (program_tree model.now.program) case.now) dead_word (flat_tree tree)) }
{
    match load_top(alloc, "dead", model, case) {
        Ok(top) => Ok(top),
        Err(stop) => Err(want_at(stop)),
    }
}

/// Want of memory, where nothing else stops the work.
fn want_at(stop: Stop) -> OutOfMemory
    requires { stop ≡ stops.Memory }
{
    match stop {
        Stop::Memory => OutOfMemory,
        Stop::Desk | Stop::Refused(_) => unreachable!(),
    }
}

/// Writes both files, searches, and says the summary.
pub(crate) fn deliver_made<D: Desk>(
    alloc: Global,
    desk: &mut D,
    asked: &Making,
    panel: &mut Panel,
) -> Result<Status, WriteStop>
    requires { IsMaking asked.now }
    ensures ok { IfOk result (λ s. HasMade (made_case asked.now) asked.now.stages asked.now.depth asked.now.model.now asked.now.faults.now
        s (D.told desk.old).files (D.told desk.new).files (D.told desk.old).said (D.told desk.new).said) }
    ensures part { MakesInPart (made_case asked.now) asked.now.stages asked.now.depth asked.now.model.now asked.now.faults.now
        (D.told desk.old).files (D.told desk.new).files (D.told desk.old).said (D.told desk.new).said }
    ensures failed { IsErrOf result write_stop.Failed → Rose (D.told desk.old).faults (D.told desk.new).faults }
    ensures stays { IsLater (D.told desk.old) (D.told desk.new) }
{
    write_whole(desk, asked.model, &asked.made.program)?;
    write_whole(desk, asked.faults, &asked.made.instructions)?;
    let found = summarise(alloc, asked, panel)?;
    say_whole(desk, found.line.as_slice())?;
    Ok(ended_as(found.ending))
}

/// The numbers of a summary: the stages, the variables of the extension without history, its faults, the state bits with history, and
/// the sets that were found.
#[derive(Drop)]
struct Counts {
    stages: u32,
    variables: usize,
    faults: usize,
    bits: u32,
    sets: usize,
}

/// Searches a generated case for the minimal cut sets of its top event, and makes the line that is said of it.
fn summarise(alloc: Global, asked: &Making, panel: &mut Panel) -> Result<Summary, OutOfMemory>
    requires { IsEvent dead_word asked.now.made.loaded }
    ensures { IfOk result (IsSummary (made_case asked.now) asked.now.stages asked.now.depth) }
{
    let loaded = &asked.made.loaded;
    let limited = &loaded.case.limited;
    let size = size_of(None, limited.faults.len());
    let searched = FaultyModel::of_case(alloc, &loaded.case, &loaded.top)?;
    let a = searched.analyse(alloc, asked.depth, size, panel)?;
    let ending = told(&a.end);
    let counts = Counts {
        stages: asked.stages,
        variables: limited.typed.model().variables.len(),
        faults: limited.faults.len(),
        bits: limited.full.bits(),
        sets: a.sets.len(),
    };
    let line = summary_of(alloc, &counts, ending)?;
    Ok(Summary { line, ending })
}

/// The one line of a summary.
fn summary_of(alloc: Global, counts: &Counts, ending: Ending) -> Result<ByteList, OutOfMemory>
    ensures { IfOk result (λ line. line ≡ summary_line counts.now.stages counts.now.variables counts.now.faults counts.now.bits
        counts.now.sets (told_ending ending)) }
{
    let begin = format!(in alloc;
        "stages {} variables {} faults {} bits {} sets {} ",
        counts.stages, counts.variables, counts.faults, counts.bits, counts.sets
    )?;
    let mut line = ByteList::from_slice(alloc, begin.as_bytes())?;
    append_ending(alloc, &mut line, ending)?;
    Ok(line)
}

/// Appends how the search ended, and ends the line.
fn append_ending(alloc: Global, line: &mut ByteList, ending: Ending) -> Result<(), OutOfMemory>
    ensures { OnOk result (line.new ≡ line.old ++ summary_ending (told_ending ending)) }
{
    match ending {
        Ending::Complete => line.append(b"complete\n"),
        Ending::Bounded(steps) => {
            let text = format!(in alloc; "bounded {steps}\n")?;
            line.append(text.as_bytes())
        }
    }
}
