//! A certificate judged over the extension.
//!
//! The main function is [`check_file`]: `cert_file` reads the certificate, and `cert_check` judges it.
ghost use Rattle.std.specs.Prelude.{◌<◌, ◌^◌, length, IfOk, IsOk, OnOk, IfSome, IsErrOf};
ghost use Rattle.base_files.specs.Desk.{OnlyReads, Rose};
ghost use Rattle.smv_language.specs.ModelTree.{flat_tree};
ghost use Rattle.cert_text.specs.CertificateView.{seen};
ghost use Rattle.cert_check.specs.Fit.{IsCheckable};
ghost use Rattle.verb_loading.specs.LoadedEvents.{case_in};
ghost use Rattle.verb_run.specs.Certificates.{RefusesLine, IsAcceptedFor, CertRefuses, CertSays, IsSomeEvent};
ghost use Rattle.verb_loading.specs.declared.status.Refusal.{Refusal};
ghost use Rattle.verb_loading.specs.declared.input.Stop.TheVariants as stop;

use base_files::Desk;
use base_values::limits::MOST_SYMBOLS;
use base_values::{ByteList, OutOfMemory};
use cert_check::{Judged, check};
use cert_file::certificate::{accepted_report, line_stop, load_certificate};
use cert_text::Certificate;
use std::alloc::Global;
use verb_loading::event::LoadedEvent;
use verb_loading::input::Stop;
use verb_loading::status::Refusal;

/// Judges the certificate of a file over the extension, for its top event, and makes what is to be said of it.
pub fn check_file<D: Desk>(
    alloc: Global,
    desk: &mut D,
    name: &str,
    loaded: &LoadedEvent,
) -> Result<ByteList, Stop>
    requires { IsSomeEvent loaded.now }
    ensures ok { IfOk result (λ report. IfSome (D.told desk.old).files (λ files.
        CertSays files (case_in loaded.now) (flat_tree loaded.now.top) name.now report)) }
    ensures refused { (r : Refusal) → IsErrOf result (stop.Refused r) →
        IfSome (D.told desk.old).files (λ files. CertRefuses files (case_in loaded.now) (flat_tree loaded.now.top) name.now r) }
    ensures failed { IsErrOf result stop.Desk → Rose (D.told desk.old).faults (D.told desk.new).faults }
    ensures stays { OnlyReads (D.told desk.old) (D.told desk.new) }
{
    let certificate = load_certificate(alloc, desk, name)?;
    judge_certificate(alloc, loaded, &certificate)?;
    Ok(accepted_report(alloc, certificate.size, loaded.case.limited.faults.len())?)
}

/// Want of memory where the extension has more symbols than a judgement has numbers for, and only there.
fn count_symbols(loaded: &LoadedEvent) -> Result<(), OutOfMemory>
    ensures few { OnOk result (length loaded.now.case.limited.typed.model.symbols < 2 ^ 31) }
    ensures fits { length loaded.now.case.limited.typed.model.symbols < 2 ^ 31 → IsOk result }
{
    if loaded.case.limited.typed.model().symbols.len() >= MOST_SYMBOLS {
        return Err(OutOfMemory);
    }
    Ok(())
}

/// Refuses a certificate that breaks a rule. More symbols than numbers of them are want of memory.
fn judge_certificate(
    alloc: Global,
    loaded: &LoadedEvent,
    certificate: &Certificate,
) -> Result<(), Stop>
    requires event { IsSomeEvent loaded.now }
    requires checkable { IsCheckable (seen certificate.now) }
    ensures ok { OnOk result (IsAcceptedFor (case_in loaded.now) (flat_tree loaded.now.top) (seen certificate.now)) }
    ensures refused { (r : Refusal) → IsErrOf result (stop.Refused r) →
        RefusesLine (case_in loaded.now) (flat_tree loaded.now.top) (seen certificate.now) r }
    ensures desk { IsErrOf result stop.Desk → ⊥ }
{
    count_symbols(loaded)?;
    let limited = &loaded.case.limited;
    let judged = check(
        alloc,
        &limited.full,
        &limited.typed,
        &limited.faults,
        &loaded.top,
        certificate,
    )?;
    match judged {
        Judged::Yes => Ok(()),
        Judged::No(line, rule) => Err(line_stop(line, rule)),
    }
}
