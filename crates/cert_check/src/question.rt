//! What is asked: a certificate with the model, the faults and the top event that it is about.
//!
//! [`CertificateQuestion`] is handed through all files of the checker, and [`CheckedPart`] names the three derivations.
ghost use Rattle.std.specs.Prelude.{◌≡◌};
ghost use Rattle.cert_laws.specs.Certificate.{steps_in};
ghost use Rattle.cert_check.specs.QuestionMatter.{asked};
ghost use Rattle.cert_check.specs.Parts.{part_of};

use cert_text::{Certificate, PackedSteps};
use smv_language::Expr;
use smv_language::model::{FaultList, Flat};
use smv_types::Typed;

/// A certificate, and what it is about: a model, the same with history, its faults and a top event.
#[derive(Drop)]
pub(crate) struct CertificateQuestion<'a> {
    pub(crate) full: &'a Typed,
    pub(crate) plain: &'a Typed,
    pub(crate) faults: &'a FaultList,
    pub(crate) top: &'a Expr<Flat>,
    pub(crate) certificate: &'a Certificate,
}

/// One of the three derivations: that the invariant holds first, that every step keeps it, and that it
/// excludes the bad states.
#[derive(Clone, Copy, Debug, PartialEq, Eq)]
pub(crate) enum CheckedPart {
    First,
    Next,
    Bad,
}

/// The steps of a derivation.
pub(crate) fn steps_of<'a>(q: &'a CertificateQuestion<'_>, part: CheckedPart) -> &'a PackedSteps
    ensures { result.now ≡ steps_in (asked q.now).certificate (part_of part) }
{
    match part {
        CheckedPart::First => &q.certificate.first,
        CheckedPart::Next => &q.certificate.next,
        CheckedPart::Bad => &q.certificate.bad,
    }
}
