//! A certificate's text read line by line.
//!
//! The main function is [`read`]. It gives line after line to `reading`, and a text is whole where none is missing at its end.
ghost use Rattle.std.specs.Prelude.{◌≡◌, ◌≢◌, ℕ, IfOk, IfErr, IsErrOf};
ghost use Rattle.cert_laws.specs.CertificateText.{SpellsCertificate, IsBadLine, EndsBefore};
ghost use Rattle.cert_text.specs.CertificateView.{seen};
ghost use Rattle.cert_text.specs.Faults.{IsFaultOf};
ghost use Rattle.cert_text.specs.declared.certificate.CertFault.TheVariants as fault;
ghost use Rattle.cert_text.specs.declared.reading.Expect.TheVariants as expect;

use crate::certificate::{CertFault, Certificate};
use crate::reading::{CertificateReading, Expect};
use base_values::first_line;
use std::alloc::Global;

/// The certificate that a text spells, in version 1 or 2, or the line that is wrong first or missing.
///
/// Bytes spell at most one certificate, and where they spell one no line of them is wrong or missing
/// (`cert_laws`). So the certificate is answered exactly where the bytes spell it; where they spell none,
/// `BadLine` is answered with the first line that does not have its form, comes after the end, or lacks its
/// line feed, and `Ends` with the line that is missing, unless memory is wanting.
pub fn read(alloc: Global, bytes: &[u8]) -> Result<Certificate, CertFault>
    ensures ok { IfOk result (λ c. SpellsCertificate bytes.now (seen c)) }
    ensures bad { (n : ℕ) → IsErrOf result (fault.BadLine n) → IsBadLine bytes.now n }
    ensures ends { (n : ℕ) → IsErrOf result (fault.Ends n) → EndsBefore bytes.now n }
{
    read_lines(alloc, bytes)
}

/// Reads line after line.
fn read_lines(alloc: Global, bytes: &[u8]) -> Result<Certificate, CertFault>
    ensures ok { IfOk result (λ c. SpellsCertificate bytes.now (seen c)) }
    ensures err { IfErr result (IsFaultOf bytes.now) }
{
    let mut reading = CertificateReading::new(alloc);
    let mut rest = bytes;
    let mut number: u64 = 1;
    while let Some((line, after)) = first_line(rest) {
        if let Err(refusal) = reading.take(alloc, line) {
            return Err(refusal.at_line(number));
        }
        rest = after;
        number += 1;
    }
    if rest.len() > 0 {
        return Err(CertFault::BadLine(number));
    }
    finished(reading, number)
}

/// The certificate of all lines, where none is missing.
fn finished(reading: CertificateReading, number: u64) -> Result<Certificate, CertFault>
    ensures ok { IfOk result (λ c. (reading.expect ≡ expect.NoLine) × (c ≡ reading.certificate)) }
    ensures err { IfErr result (λ f. (f ≡ fault.Ends number) × (reading.expect ≢ expect.NoLine)) }
{
    let CertificateReading {
        expect,
        trace: _,
        certificate,
    } = reading;
    match expect {
        Expect::NoLine => Ok(certificate),
        _ => Err(CertFault::Ends(number)),
    }
}
