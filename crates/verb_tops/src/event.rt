//! The search for one of several top events of a case, and what is written and printed of it.
//!
//! The main function is [`search_event`]. The frames keep their search, with what it has learned for other events.
ghost use Rattle.std.specs.Prelude.{◌≡◌, ◌++◌, IfOk};
ghost use Rattle.std.specs.String.{string_bytes};
ghost use Rattle.smv_language.specs.ProgramTree.{Formula};
ghost use Rattle.smv_language.specs.ModelTree.{flat_tree};
ghost use Rattle.sat_encoding_laws.specs.Lists.{system_of};
ghost use Rattle.verb_loading.specs.Cases.{whole_of};
ghost use Rattle.verb_run.specs.Tables.{IsTabulable, IsEventOf};
ghost use Rattle.verb_tops.specs.Each.{event_line, certificate_name};
ghost use Rattle.verb_tops.specs.Work.{case_of_asked, size_of_asked, IsEventFinding};

use crate::each::Asked;
use base_values::{ByteList, OutOfMemory};
use cert_file::conclusion::Conclusion;
use cut_frames::Frames;
use cut_model_search::{FaultyModel, size_of, told};
use sat_adviser::Panel;
use smv_language::Expr;
use smv_language::model::Flat;
use std::alloc::Global;

/// Searches the case for the top event of a number in these frames, and makes what is to be written and printed.
pub(crate) fn search_event(
    alloc: Global,
    asked: &Asked,
    top: &Expr<Flat>,
    number: u64,
    frames: &mut Frames,
    panel: &mut Panel,
) -> Result<Conclusion, OutOfMemory>
    requires able { IsTabulable asked.now.loaded }
    requires event { (e : Formula) × IsEventOf (case_of_asked asked.now) e (flat_tree top.now) }
    requires system { frames.old.system ≡ system_of (whole_of (case_of_asked asked.now)) }
    ensures found { IfOk result (λ f. (e : Formula) → IsEventOf (case_of_asked asked.now) e (flat_tree top.now) →
        IsEventFinding (case_of_asked asked.now) e asked.now.loaded.depth (size_of_asked asked.now) number f) }
    ensures system { frames.new.system ≡ frames.old.system }
{
    let case = &asked.loaded.case;
    let model = FaultyModel::of_case(alloc, case, top)?;
    let size = size_of(asked.size, case.limited.faults.len());
    let a = model.analyse_in(alloc, asked.loaded.depth, size, frames, panel)?;
    let cert = model.certificate(alloc, &a, panel)?;
    let report = model.report(alloc, &a)?;
    let report = headed(alloc, number, &report)?;
    Ok(Conclusion {
        cert,
        report,
        ending: told(&a.end),
    })
}

/// A report after the line of the event of a number.
fn headed(alloc: Global, number: u64, report: &ByteList) -> Result<ByteList, OutOfMemory>
    ensures { IfOk result (λ text. text ≡ event_line number ++ report.now) }
{
    let mut text = event_head(alloc, number)?;
    text.append(report.as_slice())?;
    Ok(text)
}

/// The line of the event of a number.
fn event_head(alloc: Global, number: u64) -> Result<ByteList, OutOfMemory>
    ensures { IfOk result (λ text. text ≡ event_line number) }
{
    let line = format!(in alloc; "event {number}\n")?;
    ByteList::from_slice(alloc, line.as_bytes())
}

/// The name of the file of the certificate of the event of a number.
pub(crate) fn name_of(alloc: Global, stem: &str, number: u64) -> Result<String, OutOfMemory>
    ensures { IfOk result (λ name. string_bytes name ≡ certificate_name stem.now number) }
{
    let name = format!(in alloc; "{stem}{number}.cert")?;
    Ok(name)
}
