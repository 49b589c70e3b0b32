//! At which lines of its text the parts of a certificate stand.
//!
//! The main function is [`invariant_line`], by the lines of the sets and of their traces before it.
ghost use Rattle.std.specs.Prelude.{◌≡◌, ◌+◌, ◌<◌, ◌^◌};
ghost use Rattle.cert_laws.specs.Certificate.{lines_of_sets, invariant_line};
ghost use Rattle.cert_check.specs.QuestionMatter.{asked};
ghost use Rattle.cert_check.specs.Fit.{IsCheckable};

use crate::question::CertificateQuestion;
use cert_text::LineList;

/// The line that begins the invariant.
pub(crate) fn invariant_line(q: &CertificateQuestion<'_>) -> u64
    requires { IsCheckable (asked q.now).certificate }
    ensures { result ≡ invariant_line (asked q.now).certificate }
{
    4 + lines_of_sets(q.certificate.traces.as_slice())
}

/// How many lines sets with these trace texts have.
fn lines_of_sets(texts: &[LineList]) -> u64
    requires { lines_of_sets texts.now < 2 ^ 64 }
    ensures { result ≡ lines_of_sets texts.now }
{
    let mut lines = 0;
    for text in texts {
        lines += text.len() as u64 + 2;
    }
    lines
}
