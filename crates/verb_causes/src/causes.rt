//! Common causes: their minimal cut sets, and certificates of them.
//!
//! The main functions are [`find_causes`] and [`check_causes`], one for each verb. What both load stands in `staged`.
ghost use Rattle.std.specs.Prelude.{◌≡◌, ◌<◌, ◌≤◌, ◌^◌, length, IfOk, IsOk, OnOk, IfSome, IsErrOf};
ghost use Rattle.base_values.specs.declared.limits.TheConstants.{GREATEST_DEPTH};
ghost use Rattle.base_files.specs.Desk.{OnlyReads, OnlySays, IsLater, Rose};
ghost use Rattle.smv_language.specs.ModelTree.{flat_tree};
ghost use Rattle.cert_text.specs.CertificateView.{seen};
ghost use Rattle.cert_check.specs.Fit.{IsCheckable};
ghost use Rattle.cut_text_laws.specs.Analysis.{told_ending};
ghost use Rattle.cut_model_search.specs.FaultyModels.{faulty_of};
ghost use Rattle.verb_loading.specs.declared.status.Refusal.{Refusal};
ghost use Rattle.verb_loading.specs.declared.input.Stop.TheVariants as stop;
ghost use Rattle.verb_loading.specs.Statuses.{ended_with, EndsWithin, IsBoundedAt, IsFinished};
ghost use Rattle.verb_causes.specs.Causes.{staged_in, events_in, IsStagedEvent, CertifiesStaged, AcceptsStaged, AcceptsCauses};
ghost use Rattle.verb_causes.specs.Causes.{HasCheckedCauses, LeavesCheck, IsCausesFinding, FindsCauses, HasFoundCauses, LeavesCauses};
ghost use Rattle.verb_causes.specs.Refusals.{RefusesStaged, BreaksLine, RefusesJudged, RefusesCauseCheck};

use crate::staged::{StagedEvent, discard, load_staged};
use base_files::{Desk, say_whole};
use base_values::limits::MOST_SYMBOLS;
use base_values::{ByteList, OutOfMemory};
use cert_check::{Judged, check};
use cert_file::certificate::{accepted_report, line_stop, load_certificate};
use cert_file::conclusion::{Conclusion, conclude};
use cert_text::Certificate;
use cut_model_search::{FaultyModel, told};
use sat_adviser::Panel;
use smv_scope::items::number_of;
use std::alloc::Global;
use verb_command_line::{CheckCauses, FindCauses};
use verb_loading::input::Stop;
use verb_loading::status::{Status, ended_as};

/// Searches for the minimal cut sets of faults and common causes, writes a certificate of a complete answer, and says the
/// report.
pub fn find_causes<D: Desk>(
    alloc: Global,
    desk: &mut D,
    asked: &FindCauses,
    panel: &mut Panel,
) -> Result<Status, Stop>
    requires { asked.now.depth ≤ GREATEST_DEPTH }
    ensures ok { IfOk result (λ s. IfSome (D.told desk.old).files (λ files.
        HasFoundCauses files asked.now.model.now asked.now.faults.now asked.now.causes.now asked.now.top.now
        asked.now.cert.now asked.now.depth s
        (D.told desk.old).files (D.told desk.new).files (D.told desk.old).said (D.told desk.new).said)) }
    ensures ends { IfOk result (EndsWithin asked.now.depth) }
    ensures refused { (r : Refusal) → IsErrOf result (stop.Refused r) →
        IfSome (D.told desk.old).files
        (λ files. RefusesStaged files asked.now.model.now asked.now.faults.now asked.now.causes.now asked.now.top.now r) }
    ensures untouched { (r : Refusal) → IsErrOf result (stop.Refused r) →
        ((D.told desk.new).files ≡ (D.told desk.old).files) × ((D.told desk.new).said ≡ (D.told desk.old).said) }
    ensures left { LeavesCauses asked.now.model.now asked.now.faults.now asked.now.causes.now asked.now.top.now
        asked.now.cert.now asked.now.depth
        (D.told desk.old).files (D.told desk.new).files (D.told desk.old).said (D.told desk.new).said }
    ensures failed { IsErrOf result stop.Desk → Rose (D.told desk.old).faults (D.told desk.new).faults }
    ensures stays { IsLater (D.told desk.old) (D.told desk.new) }
{
    let found = prepare_causes(alloc, desk, asked, panel)?;
    conclude(desk, asked.cert, &found)?;
    Ok(ended_as(found.ending))
}

/// Judges a certificate of faults and common causes, and says that it is accepted.
pub fn check_causes<D: Desk>(
    alloc: Global,
    desk: &mut D,
    asked: &CheckCauses,
) -> Result<Status, Stop>
    ensures ok { IfOk result (λ s. IfSome (D.told desk.old).files (λ files.
        HasCheckedCauses files asked.now.model.now asked.now.faults.now asked.now.causes.now asked.now.top.now asked.now.cert.now
        (D.told desk.old).said (D.told desk.new).said)) }
    ensures ends { IfOk result (λ s. s ≡ Status.Done) }
    ensures finished { IfOk result IsFinished }
    ensures refused { (r : Refusal) → IsErrOf result (stop.Refused r) →
        IfSome (D.told desk.old).files
        (λ files. RefusesCauseCheck files asked.now.model.now asked.now.faults.now asked.now.causes.now
        asked.now.top.now asked.now.cert.now r) }
    ensures untouched { (r : Refusal) → IsErrOf result (stop.Refused r) →
        ((D.told desk.new).files ≡ (D.told desk.old).files) × ((D.told desk.new).said ≡ (D.told desk.old).said) }
    ensures left { LeavesCheck asked.now.model.now asked.now.faults.now asked.now.causes.now asked.now.top.now asked.now.cert.now
        (D.told desk.old).files (D.told desk.old).said (D.told desk.new).said }
    ensures failed { IsErrOf result stop.Desk → Rose (D.told desk.old).faults (D.told desk.new).faults }
    ensures stays { OnlySays (D.told desk.old) (D.told desk.new) }
{
    let report = prepare_check(alloc, desk, asked)?;
    say_whole(desk, report.as_slice())?;
    Ok(Status::Done)
}

/// Reads the three files and the top event, searches, and makes what is to be written and said.
fn prepare_causes<D: Desk>(
    alloc: Global,
    desk: &mut D,
    asked: &FindCauses,
    panel: &mut Panel,
) -> Result<Conclusion, Stop>
    ensures ok { IfOk result (λ found. IfSome (D.told desk.old).files (λ files.
        FindsCauses files asked.now.model.now asked.now.faults.now asked.now.causes.now asked.now.top.now asked.now.depth found)) }
    ensures depth { IfOk result (λ found. IsBoundedAt asked.now.depth (ended_with (told_ending found.ending))) }
    ensures refused { (r : Refusal) → IsErrOf result (stop.Refused r) →
        IfSome (D.told desk.old).files
        (λ files. RefusesStaged files asked.now.model.now asked.now.faults.now asked.now.causes.now asked.now.top.now r) }
    ensures failed { IsErrOf result stop.Desk → Rose (D.told desk.old).faults (D.told desk.new).faults }
    ensures stays { OnlyReads (D.told desk.old) (D.told desk.new) }
{
    let staged = load_staged(
        alloc,
        desk,
        asked.model,
        asked.faults,
        asked.causes,
        asked.top,
    )?;
    let found = search(alloc, &staged, asked.depth, panel);
    discard(staged);
    match found {
        Ok(found) => Ok(found),
        Err(OutOfMemory) => Err(Stop::Memory),
    }
}

/// Reads the four files and the top event, and makes what is to be said of the certificate.
fn prepare_check<D: Desk>(
    alloc: Global,
    desk: &mut D,
    asked: &CheckCauses,
) -> Result<ByteList, Stop>
    ensures ok { IfOk result (λ report. IfSome (D.told desk.old).files (λ files.
        AcceptsCauses files asked.now.model.now asked.now.faults.now asked.now.causes.now asked.now.top.now asked.now.cert.now report)) }
    ensures refused { (r : Refusal) → IsErrOf result (stop.Refused r) →
        IfSome (D.told desk.old).files
        (λ files. RefusesCauseCheck files asked.now.model.now asked.now.faults.now asked.now.causes.now
        asked.now.top.now asked.now.cert.now r) }
    ensures failed { IsErrOf result stop.Desk → Rose (D.told desk.old).faults (D.told desk.new).faults }
    ensures stays { OnlyReads (D.told desk.old) (D.told desk.new) }
{
    let staged = load_staged(
        alloc,
        desk,
        asked.model,
        asked.faults,
        asked.causes,
        asked.top,
    )?;
    let report = judge_file(alloc, desk, &staged, asked.cert);
    discard(staged);
    report
}

/// Judges the certificate of a file over the staged model, and makes what is to be said of it.
fn judge_file<D: Desk>(
    alloc: Global,
    desk: &mut D,
    staged: &StagedEvent,
    name: &str,
) -> Result<ByteList, Stop>
    requires { IsStagedEvent staged.now }
    ensures ok { IfOk result (λ report. IfSome (D.told desk.old).files (λ files. AcceptsStaged files staged.now name.now report)) }
    ensures refused { (r : Refusal) → IsErrOf result (stop.Refused r) →
        IfSome (D.told desk.old).files
        (λ files. RefusesJudged files (staged_in staged.now) (events_in staged.now) (flat_tree staged.now.loaded.top) name.now r) }
    ensures failed { IsErrOf result stop.Desk → Rose (D.told desk.old).faults (D.told desk.new).faults }
    ensures stays { OnlyReads (D.told desk.old) (D.told desk.new) }
{
    let certificate = load_certificate(alloc, desk, name)?;
    judge(alloc, staged, &certificate)?;
    let report = accepted_report(alloc, certificate.size, staged.events.len())?;
    Ok(report)
}

/// Want of memory where the staged model has more symbols than a search has numbers for, and only there.
fn count_symbols(staged: &StagedEvent) -> Result<(), OutOfMemory>
    ensures few { OnOk result (length staged.now.typed.model.symbols < 2 ^ 31) }
    ensures fits { length staged.now.typed.model.symbols < 2 ^ 31 → IsOk result }
{
    if staged.typed.model().symbols.len() >= MOST_SYMBOLS {
        return Err(OutOfMemory);
    }
    Ok(())
}

/// Refuses a certificate that breaks a rule. More symbols than numbers of them are want of memory.
fn judge(alloc: Global, staged: &StagedEvent, certificate: &Certificate) -> Result<(), Stop>
    requires event { IsStagedEvent staged.now }
    requires checkable { IsCheckable (seen certificate.now) }
    ensures ok { OnOk result (CertifiesStaged staged.now (seen certificate.now)) }
    ensures refused { (r : Refusal) → IsErrOf result (stop.Refused r) →
        BreaksLine (staged_in staged.now) (events_in staged.now) (flat_tree staged.now.loaded.top) (seen certificate.now) r }
    ensures desk { IsErrOf result stop.Desk → ⊥ }
{
    count_symbols(staged)?;
    let judged = check(
        alloc,
        &staged.full,
        &staged.typed,
        &staged.events,
        &staged.loaded.top,
        certificate,
    )?;
    match judged {
        Judged::Yes => Ok(()),
        Judged::No(line, rule) => Err(line_stop(line, rule)),
    }
}

/// Searches for the minimal cut sets of the top event among the events, with as many events in a set as there are, and makes what is to
/// be written and said.
fn search(
    alloc: Global,
    staged: &StagedEvent,
    depth: u32,
    panel: &mut Panel,
) -> Result<Conclusion, OutOfMemory>
    requires { IsStagedEvent staged.now }
    ensures { IfOk result (IsCausesFinding staged.now depth) }
{
    let model = staged_model(alloc, staged)?;
    let size = number_of(staged.events.len())?;
    let a = model.analyse(alloc, depth, size, panel)?;
    let cert = model.certificate(alloc, &a, panel)?;
    let report = model.report(alloc, &a)?;
    Ok(Conclusion {
        cert,
        report,
        ending: told(&a.end),
    })
}

/// The staged model with the events, for the top event. More symbols than numbers of them are want of memory.
fn staged_model<'a>(alloc: Global, staged: &'a StagedEvent) -> Result<FaultyModel<'a>, OutOfMemory>
    requires { IsStagedEvent staged.now }
    ensures few { OnOk result (length staged.now.typed.model.symbols < 2 ^ 31) }
    ensures model { IfOk result (λ m. m ≡ faulty_of staged.now.typed.model staged.now.events staged.now.loaded.top) }
{
    count_symbols(staged)?;
    let model = FaultyModel::new(
        alloc,
        &staged.typed,
        &staged.full,
        &staged.events,
        &staged.loaded.top,
    )?;
    Ok(model)
}
