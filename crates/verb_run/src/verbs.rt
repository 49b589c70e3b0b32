//! The verbs: what each reads and refuses, and then writes and says.
//!
//! Each has two halves: `prepare_..` reads its files, tries every refusal, and changes nothing; what follows writes and says, and
//! refuses nothing. The main function is `carry_out`, which takes the verbs of `further` too.
ghost use Rattle.std.specs.Prelude.{◌≡◌, ◌≤◌, IfOk, IfSome, IsErrOf};
ghost use Rattle.base_values.specs.declared.limits.TheConstants.{MOST_STAGES};
ghost use Rattle.base_files.specs.Desk.{OnlyReads, IsLater, Rose};
ghost use Rattle.verb_loading.specs.declared.status.Refusal.{Refusal};
ghost use Rattle.verb_loading.specs.declared.input.Stop.TheVariants as stops;
ghost use Rattle.verb_command_line.specs.declared.command.Command.TheVariants as ask;
ghost use Rattle.verb_command_line.specs.CommandView.{seen};
ghost use Rattle.verb_run.specs.Runs.{refuses, extends, says, analyses, tabulates, makes, ComesTo, ReplayComesTo, CheckComesTo};
ghost use Rattle.verb_run.specs.Runs.{TableComesTo, MakeComesTo, CommandComesTo, IsAnswer, IsDelivered, IsDeliveredInPart, IsCarriedOut};
ghost use Rattle.verb_run.specs.Runs.{IsLeftInPart};
ghost use Rattle.verb_run.specs.BoundedAnswers.{IsOfCommand};
ghost use Rattle.verb_loading.specs.LoadedEvents.{IsEvent};
ghost use Rattle.verb_run.specs.Findings.{analysed_case, analysed_size};
ghost use Rattle.verb_run.specs.Tables.{IsTabulable, tabulated_case, tabulated_events};
ghost use Rattle.verb_run.specs.GeneratedCase.{IsMaking, made_case};

use crate::analysis::{Analysing, deliver_analysis};
use crate::asked::Askable;
use crate::certificate::check_file;
use crate::ending::{ended, finished, stopped, write_and_say};
use crate::further::{causes, checked_causes, checked_orders, odds, orders};
use crate::make::{Making, deliver_made, generate};
use crate::replay::replay_file;
use crate::tops::{Tabulating, deliver_table, load_table};
use base_files::{Desk, say_whole};
use base_values::{ByteList, OutOfMemory};
use sat_adviser::Panel;
use std::alloc::Global;
use verb_command_line::{Analyse, Check, Command, Extend, Fmea, Make, Replay};
use verb_loading::event::load_event;
use verb_loading::faults::{Made, load_extension};
use verb_loading::input::Stop;
use verb_loading::loaded::load_case;
use verb_loading::model::load_model;
use verb_loading::status::Status;
use verb_loading::top::load_top;

/// Carries out what was asked for.
pub(crate) fn carry_out<D: Desk>(
    alloc: Global,
    desk: &mut D,
    asked: &Askable,
    panel: &mut Panel,
) -> Status
    ensures answered { IsCarriedOut (seen asked.now) result
        (D.told desk.old).files (D.told desk.new).files (D.told desk.old).said (D.told desk.new).said }
    ensures left { IsLeftInPart (seen asked.now)
        (D.told desk.old).files (D.told desk.new).files (D.told desk.old).said (D.told desk.new).said }
    ensures status { IsOfCommand (seen asked.now) result }
    ensures failed { result ≡ Status.Desk → Rose (D.told desk.old).faults (D.told desk.new).faults }
    ensures stays { IsLater (D.told desk.old) (D.told desk.new) }
{
    match asked.command() {
        Command::Extend(files) => extend_model(alloc, desk, files),
        Command::Replay(files) => replay_trace(alloc, desk, files),
        Command::Analyse(asked) => analyse_event(alloc, desk, asked, panel),
        Command::Check(files) => check_certificate(alloc, desk, files),
        Command::Fmea(asked) => tabulate(alloc, desk, asked, panel),
        Command::Make(asked) => make_case(alloc, desk, asked, panel),
        Command::Causes(asked) => causes(alloc, desk, asked, panel),
        Command::CheckCauses(files) => checked_causes(alloc, desk, files),
        Command::Orders(asked) => orders(alloc, desk, asked, panel),
        Command::CheckOrders(files) => checked_orders(alloc, desk, files),
        Command::Odds(asked) => odds(alloc, desk, asked, panel),
    }
}

/// Reads both files, writes the extension, and says its faults.
fn extend_model<D: Desk>(alloc: Global, desk: &mut D, asked: &Extend) -> Status
    ensures answered { IsCarriedOut (seen (ask.Extend asked.now)) result
        (D.told desk.old).files (D.told desk.new).files (D.told desk.old).said (D.told desk.new).said }
    ensures left { IsLeftInPart (seen (ask.Extend asked.now))
        (D.told desk.old).files (D.told desk.new).files (D.told desk.old).said (D.told desk.new).said }
    ensures status { IsOfCommand (seen (ask.Extend asked.now)) result }
    ensures failed { result ≡ Status.Desk → Rose (D.told desk.old).faults (D.told desk.new).faults }
    ensures stays { IsLater (D.told desk.old) (D.told desk.new) }
{
    match prepare_extension(alloc, desk, asked) {
        Ok(made) => deliver_extension(desk, asked.extended, &made),
        Err(stop) => stopped(alloc, desk, stop),
    }
}

/// Reads the three files and the top event, and says what a reaching trace has failed.
fn replay_trace<D: Desk>(alloc: Global, desk: &mut D, asked: &Replay) -> Status
    ensures answered { IsCarriedOut (seen (ask.Replay asked.now)) result
        (D.told desk.old).files (D.told desk.new).files (D.told desk.old).said (D.told desk.new).said }
    ensures left { IsLeftInPart (seen (ask.Replay asked.now))
        (D.told desk.old).files (D.told desk.new).files (D.told desk.old).said (D.told desk.new).said }
    ensures status { IsOfCommand (seen (ask.Replay asked.now)) result }
    ensures failed { result ≡ Status.Desk → Rose (D.told desk.old).faults (D.told desk.new).faults }
    ensures stays { IsLater (D.told desk.old) (D.told desk.new) }
{
    match prepare_replay(alloc, desk, asked) {
        Ok(report) => deliver_report(desk, &report),
        Err(stop) => stopped(alloc, desk, stop),
    }
}

/// Reads both files and the top event, writes the extension, searches, and says the report.
fn analyse_event<D: Desk>(alloc: Global, desk: &mut D, asked: &Analyse, panel: &mut Panel) -> Status
    ensures answered { IsCarriedOut (seen (ask.Analyse asked.now)) result
        (D.told desk.old).files (D.told desk.new).files (D.told desk.old).said (D.told desk.new).said }
    ensures left { IsLeftInPart (seen (ask.Analyse asked.now))
        (D.told desk.old).files (D.told desk.new).files (D.told desk.old).said (D.told desk.new).said }
    ensures status { IsOfCommand (seen (ask.Analyse asked.now)) result }
    ensures failed { result ≡ Status.Desk → Rose (D.told desk.old).faults (D.told desk.new).faults }
    ensures stays { IsLater (D.told desk.old) (D.told desk.new) }
{
    match prepare_analysis(alloc, desk, asked) {
        Ok(analysing) => finished(deliver_analysis(alloc, desk, &analysing, panel)),
        Err(stop) => stopped(alloc, desk, stop),
    }
}

/// Reads the three files and the top event, and says that the certificate is accepted.
fn check_certificate<D: Desk>(alloc: Global, desk: &mut D, asked: &Check) -> Status
    ensures answered { IsCarriedOut (seen (ask.Check asked.now)) result
        (D.told desk.old).files (D.told desk.new).files (D.told desk.old).said (D.told desk.new).said }
    ensures left { IsLeftInPart (seen (ask.Check asked.now))
        (D.told desk.old).files (D.told desk.new).files (D.told desk.old).said (D.told desk.new).said }
    ensures status { IsOfCommand (seen (ask.Check asked.now)) result }
    ensures failed { result ≡ Status.Desk → Rose (D.told desk.old).faults (D.told desk.new).faults }
    ensures stays { IsLater (D.told desk.old) (D.told desk.new) }
{
    match prepare_check(alloc, desk, asked) {
        Ok(report) => deliver_report(desk, &report),
        Err(stop) => stopped(alloc, desk, stop),
    }
}

/// Reads the three files, searches for each top event, and says the table.
fn tabulate<D: Desk>(alloc: Global, desk: &mut D, asked: &Fmea, panel: &mut Panel) -> Status
    requires { asked.now.size ≤ 2 }
    ensures answered { IsCarriedOut (seen (ask.Fmea asked.now)) result
        (D.told desk.old).files (D.told desk.new).files (D.told desk.old).said (D.told desk.new).said }
    ensures left { IsLeftInPart (seen (ask.Fmea asked.now))
        (D.told desk.old).files (D.told desk.new).files (D.told desk.old).said (D.told desk.new).said }
    ensures status { IsOfCommand (seen (ask.Fmea asked.now)) result }
    ensures failed { result ≡ Status.Desk → Rose (D.told desk.old).faults (D.told desk.new).faults }
    ensures stays { IsLater (D.told desk.old) (D.told desk.new) }
{
    match prepare_table(alloc, desk, asked) {
        Ok(tabulating) => finished(deliver_table(alloc, desk, &tabulating, panel)),
        Err(stop) => stopped(alloc, desk, stop),
    }
}

/// Generates a case, writes it, searches it, and says its line.
fn make_case<D: Desk>(alloc: Global, desk: &mut D, asked: &Make, panel: &mut Panel) -> Status
    requires { asked.now.stages ≤ MOST_STAGES }
    ensures answered { IsCarriedOut (seen (ask.Make asked.now)) result
        (D.told desk.old).files (D.told desk.new).files (D.told desk.old).said (D.told desk.new).said }
    ensures left { IsLeftInPart (seen (ask.Make asked.now))
        (D.told desk.old).files (D.told desk.new).files (D.told desk.old).said (D.told desk.new).said }
    ensures status { IsOfCommand (seen (ask.Make asked.now)) result }
    ensures failed { result ≡ Status.Desk → Rose (D.told desk.old).faults (D.told desk.new).faults }
    ensures stays { IsLater (D.told desk.old) (D.told desk.new) }
{
    match prepare_made(alloc, asked) {
        Ok(making) => finished(deliver_made(alloc, desk, &making, panel)),
        Err(OutOfMemory) => Status::Memory,
    }
}

/// Reads both files, and makes what is to be written and said.
fn prepare_extension<D: Desk>(alloc: Global, desk: &mut D, asked: &Extend) -> Result<Made, Stop>
    ensures ok { IfOk result (λ made. IfSome (D.told desk.old).files (λ files.
        ComesTo files asked.now.model.now asked.now.faults.now asked.now.extended.now
        (extends asked.now.extended.now made.text.items made.report))) }
    ensures refused { (r : Refusal) → IsErrOf result (stops.Refused r) → IfSome (D.told desk.old).files (λ files.
        ComesTo files asked.now.model.now asked.now.faults.now asked.now.extended.now (refuses r)) }
    ensures failed { IsErrOf result stops.Desk → Rose (D.told desk.old).faults (D.told desk.new).faults }
    ensures stays { OnlyReads (D.told desk.old) (D.told desk.new) }
{
    let model = load_model(alloc, desk, asked.model)?;
    load_extension(alloc, desk, asked.faults, &model)
}

/// Reads the three files and the top event, and makes what is to be said of the trace.
fn prepare_replay<D: Desk>(alloc: Global, desk: &mut D, asked: &Replay) -> Result<ByteList, Stop>
    ensures ok { IfOk result (λ report. IfSome (D.told desk.old).files (λ files.
        ReplayComesTo files asked.now.model.now asked.now.faults.now asked.now.trace.now asked.now.top.now (says report))) }
    ensures refused { (r : Refusal) → IsErrOf result (stops.Refused r) → IfSome (D.told desk.old).files (λ files.
        ReplayComesTo files asked.now.model.now asked.now.faults.now asked.now.trace.now asked.now.top.now (refuses r)) }
    ensures failed { IsErrOf result stops.Desk → Rose (D.told desk.old).faults (D.told desk.new).faults }
    ensures stays { OnlyReads (D.told desk.old) (D.told desk.new) }
{
    let model = load_model(alloc, desk, asked.model)?;
    let case = load_case(alloc, desk, asked.faults, &model)?;
    let top = load_top(alloc, asked.top, &model, &case)?;
    replay_file(alloc, desk, asked.trace, &model, &case, &top)
}

/// Reads both files and the top event of an analysis.
fn prepare_analysis<'a, D: Desk>(
    alloc: Global,
    desk: &mut D,
    asked: &Analyse<'a>,
) -> Result<Analysing<'a>, Stop>
    ensures ok { IfOk result (λ a. IfSome (D.told desk.old).files (λ files.
        CommandComesTo files (seen (ask.Analyse asked.now))
        (analyses (analysed_case a) a.word.now a.depth (analysed_size a) a.extended.now a.cert.now))) }
    ensures event { IfOk result (λ a. IsEvent a.word.now a.loaded) }
    ensures asked { IfOk result (λ a. a.depth ≡ asked.now.depth) }
    ensures refused { (r : Refusal) → IsErrOf result (stops.Refused r) →
        IfSome (D.told desk.old).files (λ files. CommandComesTo files (seen (ask.Analyse asked.now)) (refuses r)) }
    ensures failed { IsErrOf result stops.Desk → Rose (D.told desk.old).faults (D.told desk.new).faults }
    ensures stays { OnlyReads (D.told desk.old) (D.told desk.new) }
{
    let loaded = load_event(alloc, desk, asked.model, asked.faults, asked.top)?;
    Ok(Analysing {
        loaded,
        word: asked.top,
        depth: asked.depth,
        size: asked.size,
        extended: asked.extended,
        cert: asked.cert,
    })
}

/// Reads the three files and the top event, and makes what is to be said of the certificate.
fn prepare_check<D: Desk>(alloc: Global, desk: &mut D, asked: &Check) -> Result<ByteList, Stop>
    ensures ok { IfOk result (λ report. IfSome (D.told desk.old).files (λ files.
        CheckComesTo files asked.now.model.now asked.now.faults.now asked.now.top.now asked.now.cert.now (says report))) }
    ensures refused { (r : Refusal) → IsErrOf result (stops.Refused r) → IfSome (D.told desk.old).files (λ files.
        CheckComesTo files asked.now.model.now asked.now.faults.now asked.now.top.now asked.now.cert.now (refuses r)) }
    ensures failed { IsErrOf result stops.Desk → Rose (D.told desk.old).faults (D.told desk.new).faults }
    ensures stays { OnlyReads (D.told desk.old) (D.told desk.new) }
{
    let loaded = load_event(alloc, desk, asked.model, asked.faults, asked.top)?;
    check_file(alloc, desk, asked.cert, &loaded)
}

/// Reads the three files of a table.
fn prepare_table<D: Desk>(alloc: Global, desk: &mut D, asked: &Fmea) -> Result<Tabulating, Stop>
    requires { asked.now.size ≤ 2 }
    ensures ok { IfOk result (λ a. IfSome (D.told desk.old).files (λ files.
        TableComesTo files asked.now.model.now asked.now.faults.now asked.now.tops.now asked.now.size asked.now.depth
        (tabulates (tabulated_case a) (tabulated_events a) a.size a.depth))) }
    ensures able { IfOk result IsTabulable }
    ensures asked { IfOk result (λ a. (a.size ≡ asked.now.size) × (a.depth ≡ asked.now.depth)) }
    ensures refused { (r : Refusal) → IsErrOf result (stops.Refused r) → IfSome (D.told desk.old).files (λ files.
        TableComesTo files asked.now.model.now asked.now.faults.now asked.now.tops.now asked.now.size asked.now.depth (refuses r)) }
    ensures failed { IsErrOf result stops.Desk → Rose (D.told desk.old).faults (D.told desk.new).faults }
    ensures stays { OnlyReads (D.told desk.old) (D.told desk.new) }
{
    load_table(alloc, desk, asked)
}

/// Generates a case, with where its files go.
fn prepare_made<'a>(alloc: Global, asked: &Make<'a>) -> Result<Making<'a>, OutOfMemory>
    requires { asked.now.stages ≤ MOST_STAGES }
    ensures ok { IfOk result (λ m. MakeComesTo asked.now.number asked.now.stages asked.now.depth asked.now.model.now asked.now.faults.now
        (makes (made_case m) m.stages m.depth m.model.now m.faults.now)) }
    ensures making { IfOk result IsMaking }
    ensures asked { IfOk result (λ m. m.depth ≡ asked.now.depth) }
{
    let made = generate(alloc, asked.number, asked.stages)?;
    Ok(Making {
        made,
        stages: asked.stages,
        depth: asked.depth,
        model: asked.model,
        faults: asked.faults,
    })
}

/// Writes an extension to its file and says its report.
fn deliver_extension<D: Desk>(desk: &mut D, file: &str, made: &Made) -> Status
    ensures done { IsAnswer result → IsDelivered (extends file.now made.now.text.items made.now.report) result
        (D.told desk.old).files (D.told desk.new).files (D.told desk.old).said (D.told desk.new).said }
    ensures part { IsDeliveredInPart (extends file.now made.now.text.items made.now.report)
        (D.told desk.old).files (D.told desk.new).files (D.told desk.old).said (D.told desk.new).said }
    ensures failed { result ≡ Status.Desk → Rose (D.told desk.old).faults (D.told desk.new).faults }
    ensures stays { IsLater (D.told desk.old) (D.told desk.new) }
{
    ended(Status::Done, write_and_say(desk, file, made))
}

/// Says a report alone.
fn deliver_report<D: Desk>(desk: &mut D, report: &ByteList) -> Status
    ensures done { IsAnswer result →
        IsDelivered (says report.now) result (D.told desk.old).files (D.told desk.new).files (D.told desk.old).said (D.told desk.new).said }
    ensures part { IsDeliveredInPart (says report.now)
        (D.told desk.old).files (D.told desk.new).files (D.told desk.old).said (D.told desk.new).said }
    ensures failed { result ≡ Status.Desk → Rose (D.told desk.old).faults (D.told desk.new).faults }
    ensures stays { IsLater (D.told desk.old) (D.told desk.new) }
{
    ended(Status::Done, say_whole(desk, report.as_slice()))
}
