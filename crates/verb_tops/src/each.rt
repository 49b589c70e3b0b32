//! All top events of a case, one after the other.
//!
//! The main function is [`deliver_each`]: the extension is written first, and then each event searched in frames that are made once.
ghost use Rattle.std.specs.Prelude.{◌≡◌, IfOk, IsErrOf};
ghost use Rattle.base_files.specs.Desk.{IsLater, Rose};
ghost use Rattle.base_files.specs.declared.desk.WriteStop.TheVariants as write_stop;
ghost use Rattle.sat_encoding_laws.specs.Lists.{system_of};
ghost use Rattle.cut_text_laws.specs.Analysis.{told_ending};
ghost use Rattle.verb_loading.specs.Cases.{whole_of};
ghost use Rattle.verb_run.specs.Tables.{IsTabulable};
ghost use Rattle.verb_tops.specs.Each.{HasReported, HasAnalysedEach};
ghost use Rattle.verb_tops.specs.Work.{case_of_asked, events_of_asked, size_of_asked, joined_with};

use crate::event::{name_of, search_event};
use base_files::{Desk, WriteStop, write_whole};
use base_values::Ending;
use cert_file::conclusion::conclude;
use cut_frames::Frames;
use cut_model_search::FaultyModel;
use sat_adviser::Panel;
use smv_language::print_program;
use std::alloc::Global;
use verb_loading::status::Status;
use verb_run::tops::Tabulating;

/// What is analysed, of how many faults sets are at most, and where the extension and the certificates go.
#[derive(Drop)]
pub struct Asked<'a> {
    pub loaded: Tabulating,
    pub size: Option<u32>,
    pub extended: &'a str,
    pub stem: &'a str,
}

/// Writes the extension, and searches for each top event in frames that are made once; writes the certificates of complete answers,
/// and prints the reports.
pub(crate) fn deliver_each<D: Desk>(
    alloc: Global,
    desk: &mut D,
    asked: &Asked,
    panel: &mut Panel,
) -> Result<Status, WriteStop>
    requires { IsTabulable asked.now.loaded }
    ensures ok { IfOk result (λ s. HasAnalysedEach (case_of_asked asked.now) (events_of_asked asked.now) asked.now.loaded.depth
        (size_of_asked asked.now) asked.now.extended.now asked.now.stem.now
        s (D.told desk.old).files (D.told desk.new).files (D.told desk.old).said (D.told desk.new).said) }
    ensures failed { IsErrOf result write_stop.Failed → Rose (D.told desk.old).faults (D.told desk.new).faults }
    ensures stays { IsLater (D.told desk.old) (D.told desk.new) }
{
    let text = print_program(alloc, &asked.loaded.case.limited.woven.program)?;
    write_whole(desk, asked.extended, &text)?;
    search_each(alloc, desk, asked, panel)
}

/// Searches for each top event in frames that are made once, writes the certificates of complete answers, and prints the reports.
fn search_each<D: Desk>(
    alloc: Global,
    desk: &mut D,
    asked: &Asked,
    panel: &mut Panel,
) -> Result<Status, WriteStop>
    requires { IsTabulable asked.now.loaded }
    ensures ok { IfOk result (λ s. HasReported (case_of_asked asked.now) (events_of_asked asked.now) asked.now.loaded.depth
        (size_of_asked asked.now) asked.now.stem.now
        s (D.told desk.old).files (D.told desk.new).files (D.told desk.old).said (D.told desk.new).said) }
    ensures failed { IsErrOf result write_stop.Failed → Rose (D.told desk.old).faults (D.told desk.new).faults }
    ensures stays { IsLater (D.told desk.old) (D.told desk.new) }
{
    let tops = asked.loaded.tops.over.as_slice();
    if tops.is_empty() {
        return Ok(Status::Done);
    }
    let model = FaultyModel::of_case(alloc, &asked.loaded.case, &tops[0])?;
    let mut frames = model.frames(alloc)?;
    search_in(alloc, desk, asked, &mut frames, panel)
}

/// Searches for each top event in these frames, writes the certificates of complete answers, and prints the reports.
fn search_in<D: Desk>(
    alloc: Global,
    desk: &mut D,
    asked: &Asked,
    frames: &mut Frames,
    panel: &mut Panel,
) -> Result<Status, WriteStop>
    requires able { IsTabulable asked.now.loaded }
    requires system { frames.old.system ≡ system_of (whole_of (case_of_asked asked.now)) }
    ensures ok { IfOk result (λ s. HasReported (case_of_asked asked.now) (events_of_asked asked.now) asked.now.loaded.depth
        (size_of_asked asked.now) asked.now.stem.now
        s (D.told desk.old).files (D.told desk.new).files (D.told desk.old).said (D.told desk.new).said) }
    ensures failed { IsErrOf result write_stop.Failed → Rose (D.told desk.old).faults (D.told desk.new).faults }
    ensures stays { IsLater (D.told desk.old) (D.told desk.new) }
{
    let tops = asked.loaded.tops.over.as_slice();
    let mut status = Status::Done;
    for (i, top) in tops.iter().enumerate() {
        let number = i as u64 + 1;
        let found = search_event(alloc, asked, top, number, frames, panel)?;
        let name = name_of(alloc, asked.stem, number)?;
        conclude(desk, name.as_str(), &found)?;
        status = joined(status, found.ending);
    }
    Ok(status)
}

/// The status of a run whose events so far end with this one, after one more.
fn joined(status: Status, ending: Ending) -> Status
    ensures { result ≡ joined_with status (told_ending ending) }
{
    match (status, ending) {
        (Status::Done, Ending::Bounded(steps)) => Status::Bounded(steps),
        (status, _) => status,
    }
}
