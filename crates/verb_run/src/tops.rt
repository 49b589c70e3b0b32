//! A file of top events, and the table of their analyses.
//!
//! [`load_table`] reads the three files and refuses; [`deliver_table`] searches for each event, in frames that are made once, and says
//! the table.
ghost use Rattle.std.specs.Prelude.{◌≡◌, ◌≤◌, List, All, [], false, length, map, IfOk, OnOk, IfErr, IfSome, IsErrOf};
ghost use Rattle.base_files.specs.Desk.{OnlyReads, IsLater, Rose};
ghost use Rattle.base_files.specs.declared.desk.WriteStop.TheVariants as write_stop;
ghost use Rattle.smv_language.specs.ProgramTree.{Formula, program_tree};
ghost use Rattle.smv_language.specs.Trace.{Each, EachBoth};
ghost use Rattle.smv_language.specs.ExpressionTree.{tree_of};
ghost use Rattle.smv_language.specs.ModelTree.{model_tree, flat_tree};
ghost use Rattle.smv_flat.specs.ScopeOf.{IsScopeOf};
ghost use Rattle.smv_flat_laws.specs.Model.{IsFlatOf};
ghost use Rattle.smv_flat_laws.specs.ResolvedAt.{IsResolvedAt};
ghost use Rattle.smv_flat_laws.specs.Rules.{IsAccepted};
ghost use Rattle.sat_encoding_laws.specs.Lists.{system_of};
ghost use Rattle.cut_tables.specs.Columns.{AreTold, NamesFaults};
ghost use Rattle.cut_text_laws.specs.Analysis.{told_ending};
ghost use Rattle.cut_report_laws.specs.ExtendedTraces.{Analysis};
ghost use Rattle.verb_loading.specs.Wrongs.{IfRefused};
ghost use Rattle.verb_loading.specs.Models.{IsLawful};
ghost use Rattle.verb_loading.specs.Cases.{IsTop, IsWrongTop, HoldsTops, HoldsCase, whole_of};
ghost use Rattle.verb_loading.specs.LoadedCases.{case_of, IsLoaded};
ghost use Rattle.verb_run.specs.Tables.{AreTopTexts, IsWrongList, IsFirstNoTop, IsWrongTops, RefusesTops, RefusesTable, IsEventOf};
ghost use Rattle.verb_run.specs.Tables.{IsExtensible, IsColumn, AreColumns, ended_with_all, table_of, tabulated_case, tabulated_events};
ghost use Rattle.verb_run.specs.Tables.{IsTabulable, HasTabulated, TabulatesInPart, told_at};
ghost use Rattle.verb_loading.specs.declared.status.InputFault.{InputFault};
ghost use Rattle.verb_loading.specs.declared.status.Refusal.{Refusal};
ghost use Rattle.verb_loading.specs.declared.input.Stop.TheVariants as stop;
ghost use Rattle.verb_loading.specs.declared.wrong.Wrong.{Wrong};
ghost use Rattle.smv_flat_laws.specs.ValueRules.{KeepsValue};

use base_files::{Desk, WriteStop, say_whole};
use base_values::limits::{MOST_FILE_BYTES, MOST_TOPS};
use base_values::{Dotted, Ending, Items, OutOfMemory};
use cut_frames::Frames;
use cut_model_search::{FaultyModel, size_of, told};
use cut_report::print_faults;
use cut_tables::{Column, ColumnList, print_table, table};
use sat_adviser::Panel;
use smv_expression_reader::expressions;
use smv_flat::Scope;
use smv_language::model::Flat;
use smv_language::{Expr, ExprList};
use std::alloc::Global;
use verb_command_line::Fmea;
use verb_loading::input::{Input, Stop, read_input};
use verb_loading::loaded::{LoadedCase, load_case};
use verb_loading::model::{LoadedModel, load_model};
use verb_loading::status::{InputFault, Part, Refusal, Status};
use verb_loading::top::{judge_top, over_extension, scope_of};
use verb_loading::wrong::Wrong;

/// Top events as a file spells them, and over the flat model of an extension.
#[derive(Drop)]
pub struct Tops {
    pub written: ExprList<Dotted>,
    pub over: ExprList<Flat>,
}

/// What a table is made of: a model, its extension, top events, the most faults of a row, and how far searches go.
#[derive(Drop)]
pub struct Tabulating {
    pub model: LoadedModel,
    pub case: LoadedCase,
    pub tops: Tops,
    pub size: u32,
    pub depth: u32,
}

/// The model and the instructions of two files, with the top events of a third.
pub fn load_table<D: Desk>(alloc: Global, desk: &mut D, asked: &Fmea) -> Result<Tabulating, Stop>
    requires { asked.now.size ≤ 2 }
    ensures ok { IfOk result (λ a. IfSome (D.told desk.old).files (λ files.
        HoldsCase files asked.now.model.now asked.now.faults.now (tabulated_case a))) }
    ensures tops { IfOk result (λ a. IfSome (D.told desk.old).files (λ files.
        HoldsTops files asked.now.tops.now (program_tree a.model.program) (tabulated_events a))) }
    ensures able { IfOk result IsTabulable }
    ensures asked { IfOk result (λ a. (a.size ≡ asked.now.size) × (a.depth ≡ asked.now.depth)) }
    ensures refused { (r : Refusal) → IsErrOf result (stop.Refused r) →
        IfSome (D.told desk.old).files (λ files. RefusesTable files asked.now.model.now asked.now.faults.now asked.now.tops.now r) }
    ensures failed { IsErrOf result stop.Desk → Rose (D.told desk.old).faults (D.told desk.new).faults }
    ensures stays { OnlyReads (D.told desk.old) (D.told desk.new) }
{
    let model = load_model(alloc, desk, asked.model)?;
    let case = load_case(alloc, desk, asked.faults, &model)?;
    let tops = load_tops(alloc, desk, asked.tops, &model, &case)?;
    Ok(Tabulating {
        model,
        case,
        tops,
        size: asked.size,
        depth: asked.depth,
    })
}

/// The top events of a file, over the flat model of the extension.
pub(crate) fn load_tops<D: Desk>(
    alloc: Global,
    desk: &mut D,
    name: &str,
    model: &LoadedModel,
    case: &LoadedCase,
) -> Result<Tops, Stop>
    requires lawful { IsLawful (program_tree model.now.program) (model_tree model.now.typed.model) }
    requires loaded { IsLoaded (program_tree model.now.program) case.now }
    ensures ok { IfOk result (λ t. IfSome (D.told desk.old).files (λ files.
        HoldsTops files name.now (program_tree model.now.program) (map tree_of t.written))) }
    ensures events { IfOk result
        (λ t. EachBoth (IsEventOf (case_of (program_tree model.now.program) case.now)) (map tree_of t.written) (map flat_tree t.over)) }
    ensures refused { (r : Refusal) → IsErrOf result (stop.Refused r) →
        IfSome (D.told desk.old).files (λ files. RefusesTops files name.now (program_tree model.now.program) r) }
    ensures failed { IsErrOf result stop.Desk → Rose (D.told desk.old).faults (D.told desk.new).faults }
    ensures stays { OnlyReads (D.told desk.old) (D.told desk.new) }
{
    let bytes = read_input(alloc, desk, Input::Top, name)?;
    match tops_of(alloc, &bytes, model, case) {
        Ok(tops) => Ok(tops),
        Err(wrong) => Err(Input::Top.stop(wrong)),
    }
}

/// The top events that the bytes spell, over the flat model of the extension.
fn tops_of(
    alloc: Global,
    bytes: &[u8],
    model: &LoadedModel,
    case: &LoadedCase,
) -> Result<Tops, Wrong>
    requires length { length bytes.now ≤ MOST_FILE_BYTES }
    requires lawful { IsLawful (program_tree model.now.program) (model_tree model.now.typed.model) }
    requires loaded { IsLoaded (program_tree model.now.program) case.now }
    ensures text { IfOk result (λ t. AreTopTexts bytes.now (map tree_of t.written)) }
    ensures tops { IfOk result (λ t. Each (IsTop (program_tree model.now.program)) (map tree_of t.written)) }
    ensures events { IfOk result
        (λ t. EachBoth (IsEventOf (case_of (program_tree model.now.program) case.now)) (map tree_of t.written) (map flat_tree t.over)) }
    ensures wrong { IfErr result (IfRefused (IsWrongTops (program_tree model.now.program) bytes.now)) }
{
    let written = written_tops(alloc, bytes)?;
    judge_tops(alloc, model, written.as_slice())?;
    let over = over_case(alloc, case, written.as_slice())?;
    Ok(Tops { written, over })
}

/// The expressions that the bytes spell, where they are not too many.
fn written_tops(alloc: Global, bytes: &[u8]) -> Result<ExprList<Dotted>, Wrong>
    requires { length bytes.now ≤ MOST_FILE_BYTES }
    ensures ok { IfOk result (λ es. AreTopTexts bytes.now (map tree_of es)) }
    ensures wrong { IfErr result (IfRefused (IsWrongList bytes.now)) }
{
    let written = expressions(alloc, bytes)?;
    if written.len() > MOST_TOPS {
        return Err(Wrong::Refused(InputFault {
            part: Part::Count,
            number: 1,
            place: MOST_TOPS as u64 + 1,
        }));
    }
    Ok(written)
}

/// Refuses the first expression that is no top event of the model, at its number from 1.
fn judge_tops(alloc: Global, model: &LoadedModel, tops: &[Expr<Dotted>]) -> Result<(), Wrong>
    requires lawful { IsLawful (program_tree model.now.program) (model_tree model.now.typed.model) }
    requires few { length tops.now ≤ MOST_TOPS }
    ensures ok { OnOk result (Each (IsTop (program_tree model.now.program)) (map tree_of tops.now)) }
    ensures wrong { IfErr result (IfRefused (IsFirstNoTop (program_tree model.now.program) (map tree_of tops.now))) }
{
    let scope = scope_of(alloc, &model.program)?;
    for (i, top) in tops.iter().enumerate() {
        judge_at(alloc, model, &scope, top, i as u64 + 1)?;
    }
    Ok(())
}

/// Refuses an expression that is no top event of the model, at this place.
fn judge_at(
    alloc: Global,
    model: &LoadedModel,
    scope: &Scope<'_>,
    top: &Expr<Dotted>,
    place: u64,
) -> Result<(), Wrong>
    requires lawful { IsLawful (program_tree model.now.program) (model_tree model.now.typed.model) }
    requires scope { IsScopeOf (program_tree model.now.program) scope.now }
    ensures ok { OnOk result (IsTop (program_tree model.now.program) (tree_of top.now)) }
    ensures wrong { IfErr result (IfRefused (IsWrongTop (program_tree model.now.program) (tree_of top.now) place)) }
{
    match judge_top(alloc, model, scope, top) {
        Ok(()) => Ok(()),
        Err(wrong) => Err(at_place(wrong, place)),
    }
}

/// The same wrong, told at this place.
fn at_place(wrong: Wrong, place: u64) -> Wrong
    ensures { result ≡ told_at place wrong }
{
    match wrong {
        Wrong::Refused(fault) => Wrong::Refused(InputFault { place, ..fault }),
        Wrong::Memory => Wrong::Memory,
    }
}

/// Expressions that break no rule of names over the extension, over its flat model.
fn over_case(
    alloc: Global,
    case: &LoadedCase,
    tops: &[Expr<Dotted>],
) -> Result<ExprList<Flat>, Wrong>
    requires accepted { IsAccepted (program_tree case.now.limited.woven.program) }
    requires flat { IsFlatOf (program_tree case.now.limited.woven.program) (model_tree case.now.limited.typed.model) }
    requires names { Each (λ e. KeepsValue (program_tree case.now.limited.woven.program) [] false (tree_of e)) tops.now }
    ensures ok { IfOk result (λ made. EachBoth (λ e tree. IsResolvedAt (program_tree case.now.limited.woven.program)
        (model_tree case.now.limited.typed.model) [] (tree_of e) (flat_tree tree)) tops.now made) }
    ensures wrong { IfErr result (IfRefused (λ fault. ⊥)) }
{
    let scope = scope_of(alloc, &case.limited.woven.program)?;
    let mut over = Items::new(alloc);
    for top in tops {
        over.push(over_extension(alloc, case, &scope, top)?)?;
    }
    Ok(over)
}

/// Searches for each top event, and says the table.
pub(crate) fn deliver_table<D: Desk>(
    alloc: Global,
    desk: &mut D,
    asked: &Tabulating,
    panel: &mut Panel,
) -> Result<Status, WriteStop>
    requires { IsTabulable asked.now }
    ensures ok { IfOk result (λ s. HasTabulated (tabulated_case asked.now) (tabulated_events asked.now) asked.now.size asked.now.depth
        s (D.told desk.old).files (D.told desk.new).files (D.told desk.old).said (D.told desk.new).said) }
    ensures part { TabulatesInPart (tabulated_case asked.now) (tabulated_events asked.now) asked.now.size asked.now.depth
        (D.told desk.old).files (D.told desk.new).files (D.told desk.old).said (D.told desk.new).said }
    ensures failed { IsErrOf result write_stop.Failed → Rose (D.told desk.old).faults (D.told desk.new).faults }
    ensures stays { IsLater (D.told desk.old) (D.told desk.new) }
{
    let columns = columns_of(alloc, asked, panel)?;
    let text = text_of(alloc, asked, &columns)?;
    say_whole(desk, &text)?;
    Ok(status_of_all(columns.as_slice()))
}

/// The columns of all top events, in their order. The frames in which they are searched are made once.
fn columns_of(
    alloc: Global,
    asked: &Tabulating,
    panel: &mut Panel,
) -> Result<ColumnList, OutOfMemory>
    requires { IsTabulable asked.now }
    ensures { IfOk result (AreColumns (tabulated_case asked.now) asked.now.depth (tabulated_events asked.now)) }
{
    let tops = asked.tops.over.as_slice();
    if tops.is_empty() {
        return Ok(ColumnList::new(alloc));
    }
    let model = FaultyModel::of_case(alloc, &asked.case, &tops[0])?;
    let mut frames = model.frames(alloc)?;
    columns_in(alloc, asked, &mut frames, panel)
}

/// The columns of all top events, in their order, each searched in these frames.
fn columns_in(
    alloc: Global,
    asked: &Tabulating,
    frames: &mut Frames,
    panel: &mut Panel,
) -> Result<ColumnList, OutOfMemory>
    requires able { IsTabulable asked.now }
    requires system { frames.old.system ≡ system_of (whole_of (tabulated_case asked.now)) }
    ensures { IfOk result (AreColumns (tabulated_case asked.now) asked.now.depth (tabulated_events asked.now)) }
{
    let mut columns = ColumnList::new(alloc);
    for top in asked.tops.over.as_slice() {
        columns.push(column_of(alloc, asked, top, frames, panel)?)?;
    }
    Ok(columns)
}

/// The column of a top event: what its analysis found, with the size of all faults. The frames keep their
/// search, with what it has learned for other columns.
fn column_of(
    alloc: Global,
    asked: &Tabulating,
    top: &Expr<Flat>,
    frames: &mut Frames,
    panel: &mut Panel,
) -> Result<Column, OutOfMemory>
    requires able { IsExtensible (program_tree asked.now.model.program) asked.now.case }
    requires event { (e : Formula) × IsEventOf (tabulated_case asked.now) e (flat_tree top.now) }
    requires system { frames.old.system ≡ system_of (whole_of (tabulated_case asked.now)) }
    ensures column { IfOk result (λ column. (e : Formula) → IsEventOf (tabulated_case asked.now) e (flat_tree top.now) →
        IsColumn (tabulated_case asked.now) asked.now.depth e column) }
    ensures system { frames.new.system ≡ frames.old.system }
{
    let size = size_of(None, asked.case.limited.faults.len());
    let model = FaultyModel::of_case(alloc, &asked.case, top)?;
    let a = model.analyse_in(alloc, asked.depth, size, frames, panel)?;
    let ending = told(&a.end);
    Ok(Column {
        sets: a.sets,
        ending,
    })
}

/// The text of the table of these columns.
fn text_of(alloc: Global, asked: &Tabulating, columns: &ColumnList) -> Result<Vec<u8>, OutOfMemory>
    requires able { IsTabulable asked.now }
    requires named { All (NamesFaults (length (tabulated_case asked.now).faults)) columns.now }
    ensures { IfOk result (λ text. (found : List Analysis) → AreTold found columns.now →
        text.items ≡ table_of (tabulated_case asked.now) asked.now.size found) }
{
    let limited = &asked.case.limited;
    let faults = size_of(None, limited.faults.len());
    let made = table(alloc, faults, asked.size, columns)?;
    let lines = print_faults(alloc, &limited.faults)?;
    print_table(alloc, lines.as_slice(), limited.full.bits(), &made)
}

/// The status of a run with these columns: bounded where one of them is.
fn status_of_all(columns: &[Column]) -> Status
    ensures { result ≡ ended_with_all (map (λ c. told_ending c.ending) columns.now) }
{
    for column in columns {
        if let Ending::Bounded(k) = column.ending {
            return Status::Bounded(k);
        }
    }
    Status::Done
}
