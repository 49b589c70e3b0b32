//! The sets of a certificate, each with its trace.
//!
//! The main function is [`judge_sets`]: it asks `sets` about each set and `traces` about the trace that stands with it.
ghost use Rattle.std.specs.Prelude.{◌≡◌, ◌+◌, ◌<◌, ◌^◌, [], ◌∷◌, IfOk, slice_get, take, Some};
ghost use Rattle.smv_language.specs.ModelTree.{model_tree};
ghost use Rattle.cert_laws.specs.Certificate.{a_set, a_trace, lines_of_sets};
ghost use Rattle.cert_laws.specs.Sites.{set_sites};
ghost use Rattle.cert_check.specs.QuestionMatter.{asked};
ghost use Rattle.cert_check.specs.Fit.{CanBeJudged, IsFit, IsShortText};
ghost use Rattle.cert_check.specs.SiteFindings.{Finds};
ghost use Rattle.cert_check.specs.Order.{AreInOrder};

use crate::judged::Judged;
use crate::question::CertificateQuestion;
use crate::sets::set_rule;
use crate::traces::trace_rule;
use base_values::{FaultSet, OutOfMemory, SetList};
use cert_text::{LineList, TextList};
use std::alloc::Global;

/// Judges each set and its trace.
pub(crate) fn judge_sets(alloc: Global, q: &CertificateQuestion<'_>) -> Result<Judged, OutOfMemory>
    requires { CanBeJudged (model_tree q.now.full.now.model) (asked q.now) }
    ensures { IfOk result (Finds (asked q.now) (set_sites 0 q.now.certificate.now.sets q.now.certificate.now.traces)) }
{
    let sets: &SetList = &q.certificate.sets;
    let texts: &TextList = &q.certificate.traces;
    let mut line = 4;
    for k in 0..sets.len() {
        let text = texts.at(k);
        if let Judged::No(at, rule) = judge_set(alloc, q, k, sets.at(k), text, line)? {
            return Ok(Judged::No(at, rule));
        }
        line += text.len() as u64 + 2;
    }
    Ok(Judged::Yes)
}

/// Judges the set of a place, at this line, and then its trace. The sets before it are in order.
fn judge_set(
    alloc: Global,
    q: &CertificateQuestion<'_>,
    k: usize,
    set: &FaultSet,
    text: &LineList,
    line: u64,
) -> Result<Judged, OutOfMemory>
    requires fit { IsFit (asked q.now).model (asked q.now).modes (asked q.now).top }
    requires set { slice_get q.now.certificate.now.sets k ≡ Some set.now }
    requires order { AreInOrder q.now.certificate.now.sets k }
    requires short { IsShortText text.now }
    requires line { line ≡ 4 + lines_of_sets (take k q.now.certificate.now.traces) }
    requires room { line + 1 < 2 ^ 64 }
    ensures { IfOk result (Finds (asked q.now) (a_set k set.now ∷ a_trace k set.now text.now ∷ [])) }
{
    if let Some(rule) = set_rule(q, k, set.as_slice()) {
        return Ok(Judged::No(line, rule));
    }
    if let Some(rule) = trace_rule(alloc, q, k, set.as_slice(), text)? {
        return Ok(Judged::No(line + 1, rule));
    }
    Ok(Judged::Yes)
}
