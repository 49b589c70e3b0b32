//! The file of a certificate, the end of the work where one is refused, and what is said of one that is accepted.
//!
//! The main function is [`load_certificate`]: it reads the file through the desk, and its bytes by `cert_text`.
ghost use Rattle.std.specs.Prelude.{◌≡◌, ◌≤◌, ◌++◌, codes, length, IfOk, IfSome, IsErrOf};
ghost use Rattle.base_files.specs.Desk.{OnlyReads, Rose};
ghost use Rattle.cert_text.specs.CertificateView.{seen};
ghost use Rattle.cert_check.specs.Fit.{IsCheckable};
ghost use Rattle.cut_text_laws.specs.AnalysisText.{size_line};
ghost use Rattle.cert_file.specs.CertificateFiles.{RefusesCertificate, HoldsCertificate};
ghost use Rattle.verb_loading.specs.declared.status.Refusal.{Refusal};
ghost use Rattle.verb_loading.specs.declared.status.Refusal.TheVariants as refusal;
ghost use Rattle.verb_loading.specs.declared.status.Objection.TheVariants as objection;
ghost use Rattle.verb_loading.specs.declared.input.Stop.TheVariants as stop;

use base_files::Desk;
use base_values::{ByteList, OutOfMemory};
use cert_check::spelled_are_checkable;
use cert_text::{CertFault, Certificate, read};
use std::alloc::Global;
use verb_loading::input::{Input, Stop, read_input};
use verb_loading::status::{Objection, Part, Refusal};

/// The certificate that the file spells.
pub fn load_certificate<D: Desk>(
    alloc: Global,
    desk: &mut D,
    name: &str,
) -> Result<Certificate, Stop>
    ensures ok { IfOk result (λ a. IfSome (D.told desk.old).files (λ files. HoldsCertificate files name.now (seen a))) }
    ensures checkable { IfOk result (λ a. IsCheckable (seen a)) }
    ensures refused { (r : Refusal) → IsErrOf result (stop.Refused r) →
        IfSome (D.told desk.old).files (λ files. RefusesCertificate files name.now r) }
    ensures failed { IsErrOf result stop.Desk → Rose (D.told desk.old).faults (D.told desk.new).faults }
    ensures stays { OnlyReads (D.told desk.old) (D.told desk.new) }
{
    let bytes = read_input(alloc, desk, Input::Certificate, name)?;
    // The law by which what is read can be judged.
    spelled_are_checkable();
    match read(alloc, &bytes) {
        Ok(certificate) => Ok(certificate),
        Err(CertFault::BadLine(line)) => Err(Input::Certificate.broken(Part::Read, 1, line)),
        Err(CertFault::Ends(line)) => Err(Input::Certificate.broken(Part::Read, 2, line)),
        Err(CertFault::OutOfMemory) => Err(Stop::Memory),
    }
}

/// The end of the work where a line of a certificate breaks a rule.
pub fn line_stop(line: u64, rule: u32) -> Stop
    ensures { result ≡ stop.Refused (refusal.NotAccepted (objection.Line line rule)) }
{
    Stop::Refused(Refusal::NotAccepted(Objection::Line(line, rule)))
}

/// What is said of an accepted certificate: that it is, and its size where that is below the number of faults.
pub fn accepted_report(alloc: Global, size: u32, faults: usize) -> Result<ByteList, OutOfMemory>
    ensures { IfOk result (λ text. text ≡ codes "accepted\n" ++ size_line size faults) }
{
    let mut text = ByteList::from_slice(alloc, b"accepted\n")?;
    if (size as usize) < faults {
        let line = format!(in alloc; "size {size}\n")?;
        text.append(line.as_bytes())?;
    }
    Ok(text)
}
