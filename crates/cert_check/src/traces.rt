//! The trace texts of a certificate: rules 4 to 7.
//!
//! The main function is [`trace_rule`]: it reads a text as moments, and asks of these that they are a trace which reaches the top event
//! and has failed exactly the faults of its set.
ghost use Rattle.std.specs.Prelude.{◌≡◌, ◌↔◌, Some, IsTrue, IfOk, map};
ghost use Rattle.smv_flat_laws.specs.FaultModes.{mode_of};
ghost use Rattle.smv_flat_laws.specs.FlatTrace.{stands_in_some};
ghost use Rattle.smv_evaluation.specs.EvaluableModels.{CanBeReplayed};
ghost use Rattle.smv_evaluation.specs.Replay.{IsReaching};
ghost use Rattle.cert_laws.specs.Certificate.{a_trace};
ghost use Rattle.cert_check.specs.QuestionMatter.{asked};
ghost use Rattle.cert_check.specs.Fit.{IsFit, IsShortText};
ghost use Rattle.cert_check.specs.SiteFindings.{FindsAt};
ghost use Rattle.cert_check.specs.Moments.{FindsMoments, FailsExactly, IsTextFault, are_those_of};
ghost use Rattle.smv_language.specs.NumberedValues.{told_trace};

use crate::question::CertificateQuestion;
use crate::sets::are_faults;
use base_values::{MomentList, OutOfMemory};
use cert_text::LineList;
use cut_report::{TraceFault, read_trace};
use cut_sets::has_number;
use smv_evaluation::{Replayed, Table, has_failed, replay};
use std::alloc::Global;

/// The rule that is broken first at the text of a trace for a set.
pub(crate) fn trace_rule(
    alloc: Global,
    q: &CertificateQuestion<'_>,
    k: usize,
    set: &[u32],
    text: &LineList,
) -> Result<Option<u32>, OutOfMemory>
    requires fit { IsFit (asked q.now).model (asked q.now).modes (asked q.now).top }
    requires short { IsShortText text.now }
    ensures { IfOk result (FindsAt (asked q.now) (a_trace k set.now text.now)) }
{
    match read_trace(alloc, q.plain, text.text()) {
        Ok(trace) => moments_rule(alloc, q, set, &trace),
        Err(fault) => text_rule(fault),
    }
}

/// Rule 4, where something is wrong with a text.
fn text_rule(fault: TraceFault) -> Result<Option<u32>, OutOfMemory>
    ensures { IfOk result (λ rule. (rule ≡ Some 4) × IsTextFault fault) }
{
    match fault {
        TraceFault::OutOfMemory => Err(OutOfMemory),
        TraceFault::BadLine(_)
        | TraceFault::UnknownName(_)
        | TraceFault::Outside(_)
        | TraceFault::MissingValue(_)
        | TraceFault::Twice(_) => Ok(Some(4)),
    }
}

/// The rule from 5 on that moments break first: they are no trace, do not reach the top event, or have failed
/// other faults than the set's.
fn moments_rule(
    alloc: Global,
    q: &CertificateQuestion<'_>,
    set: &[u32],
    trace: &MomentList,
) -> Result<Option<u32>, OutOfMemory>
    requires fit { IsFit (asked q.now).model (asked q.now).modes (asked q.now).top }
    requires replayed { CanBeReplayed (asked q.now).model trace.now }
    ensures { IfOk result (FindsMoments (asked q.now) set.now (told_trace q.now.plain.now.model.symbols trace.now)) }
{
    let mut now = Table::for_model(alloc, q.plain)?;
    let mut next = Table::for_model(alloc, q.plain)?;
    match replay(q.plain, trace, q.top, &mut now, &mut next) {
        Replayed::BadFirst => Ok(Some(5)),
        Replayed::BadStep(_number) => Ok(Some(5)),
        Replayed::NoTop => Ok(Some(6)),
        Replayed::Reaches => Ok(failed_rule(q, set, trace)),
    }
}

/// Rule 7, where the faults that moments have failed are not those of the set.
fn failed_rule(q: &CertificateQuestion<'_>, set: &[u32], trace: &MomentList) -> Option<u32>
    requires fit { IsFit (asked q.now).model (asked q.now).modes (asked q.now).top }
    requires replayed { CanBeReplayed (asked q.now).model trace.now }
    requires reaching { IsReaching (asked q.now).model (asked q.now).top (told_trace q.now.plain.now.model.symbols trace.now) }
    ensures { FindsMoments (asked q.now) set.now (told_trace q.now.plain.now.model.symbols trace.now) result }
{
    if has_failed_exactly(q, set, trace) {
        None
    } else {
        Some(7)
    }
}

/// Whether the faults whose modes stand at some moment are those of the set.
fn has_failed_exactly(q: &CertificateQuestion<'_>, set: &[u32], trace: &MomentList) -> bool
    requires fit { IsFit (asked q.now).model (asked q.now).modes (asked q.now).top }
    requires replayed { CanBeReplayed (asked q.now).model trace.now }
    ensures { IsTrue result ↔ FailsExactly (asked q.now) set.now (told_trace q.now.plain.now.model.symbols trace.now) }
{
    if !are_faults(set, q.faults.len()) {
        return false;
    }
    are_failed(q, set, trace)
}

/// Whether each fault has a mode that stands at some moment exactly where its number is one of the set's.
fn are_failed(q: &CertificateQuestion<'_>, set: &[u32], trace: &MomentList) -> bool
    requires fit { IsFit (asked q.now).model (asked q.now).modes (asked q.now).top }
    requires replayed { CanBeReplayed (asked q.now).model trace.now }
    ensures { result ≡ are_those_of (λ f. stands_in_some (asked q.now).model f (told_trace q.now.plain.now.model.symbols trace.now))
        set.now 1
        (map mode_of q.now.faults.now) }
{
    for i in 0..q.faults.len() {
        let failed = has_failed(q.plain, q.faults.at(i), trace);
        if failed != has_number(set, i as u64 + 1) {
            return false;
        }
    }
    true
}
