//! An analysis: what is written and said.
//!
//! The main function is [`deliver_analysis`]: the extension is written first, and the report said last.
ghost use Rattle.std.specs.Prelude.{IfOk, IsErrOf};
ghost use Rattle.base_files.specs.Desk.{IsLater, Rose};
ghost use Rattle.base_files.specs.declared.desk.WriteStop.TheVariants as write_stop;
ghost use Rattle.verb_run.specs.Analyses.{HasAnalysed, AnalysesInPart};
ghost use Rattle.verb_loading.specs.LoadedEvents.{IsEvent};
ghost use Rattle.verb_run.specs.Findings.{analysed_case, analysed_size};

use crate::search::search;
use base_files::{Desk, WriteStop, write_whole};
use cert_file::conclusion::conclude;
use sat_adviser::Panel;
use smv_language::print_program;
use std::alloc::Global;
use verb_loading::event::LoadedEvent;
use verb_loading::status::{Status, ended_as};

/// What is to be analysed, and where its files go.
#[derive(Drop)]
pub struct Analysing<'a> {
    pub loaded: LoadedEvent,
    pub word: &'a str,
    pub depth: u32,
    pub size: Option<u32>,
    pub extended: &'a str,
    pub cert: &'a str,
}

/// Writes the extension, searches, writes the certificate of a complete answer, and says the report.
pub(crate) fn deliver_analysis<D: Desk>(
    alloc: Global,
    desk: &mut D,
    asked: &Analysing,
    panel: &mut Panel,
) -> Result<Status, WriteStop>
    requires { IsEvent asked.now.word.now asked.now.loaded }
    ensures ok { IfOk result (λ s. HasAnalysed (analysed_case asked.now) asked.now.word.now asked.now.depth
        (analysed_size asked.now) asked.now.extended.now asked.now.cert.now
        s (D.told desk.old).files (D.told desk.new).files (D.told desk.old).said (D.told desk.new).said) }
    ensures part { AnalysesInPart (analysed_case asked.now) asked.now.word.now asked.now.depth (analysed_size asked.now)
        asked.now.extended.now asked.now.cert.now
        (D.told desk.old).files (D.told desk.new).files (D.told desk.old).said (D.told desk.new).said }
    ensures failed { IsErrOf result write_stop.Failed → Rose (D.told desk.old).faults (D.told desk.new).faults }
    ensures stays { IsLater (D.told desk.old) (D.told desk.new) }
{
    let text = print_program(alloc, &asked.loaded.case.limited.woven.program)?;
    write_whole(desk, asked.extended, &text)?;
    let found = search(alloc, asked, panel)?;
    conclude(desk, asked.cert, &found)?;
    Ok(ended_as(found.ending))
}
