//! Certificates that may list no set.
//!
//! The main function is [`check_unlisted`]: it judges as `judge` does, but that a listed set breaks a rule of its own.
ghost use Rattle.std.specs.Prelude.{◌≡◌, Some, slice_get, map, IfOk};
ghost use Rattle.smv_language.specs.ModelTree.{model_tree, flat_tree};
ghost use Rattle.smv_flat_laws.specs.FaultModes.{mode_of};
ghost use Rattle.smv_flat_laws.specs.History.{with_history};
ghost use Rattle.cert_text.specs.CertificateView.{seen};
ghost use Rattle.cert_laws.specs.Certificate.{a_set};
ghost use Rattle.cert_laws.specs.Acceptance.{HasNumbers};
ghost use Rattle.cert_check.specs.QuestionMatter.{asked};
ghost use Rattle.cert_check.specs.Fit.{IsProvable, IsCheckable, CanBeProved};
ghost use Rattle.cert_check.specs.SiteFindings.{IsJudgedUnlisted, FindsUnlisted};
ghost use Rattle.cert_check.specs.Matter.{matter_of};

use crate::judge::judge_proof;
use crate::judged::Judged;
use crate::question::CertificateQuestion;
use crate::sets::{has_numbers, set_rule};
use base_values::{OutOfMemory, SetList};
use cert_text::Certificate;
use smv_language::Expr;
use smv_language::model::{FaultList, Flat};
use smv_types::Typed;
use std::alloc::Global;

/// The line of the first set of a certificate.
const SET_LINE: u64 = 4;

/// The rule that a set breaks by being listed.
const NO_SET: u32 = 12;

/// Whether a certificate that lists no set is accepted for a model, its faults and a top event, or the objection to it. One
/// that lists a set breaks rule 12 at the line of its first set, after the other rules of that line. No trace is read. `full` is
/// `plain` with the history of the faults.
pub fn check_unlisted(
    alloc: Global,
    full: &Typed,
    plain: &Typed,
    faults: &FaultList,
    top: &Expr<Flat>,
    c: &Certificate,
) -> Result<Judged, OutOfMemory>
    requires history { model_tree full.now.model ≡ with_history (model_tree plain.now.model) (map mode_of faults.now) }
    requires fit { IsProvable (model_tree plain.now.model) (map mode_of faults.now) (flat_tree top.now) }
    requires checkable { IsCheckable (seen c.now) }
    ensures { IfOk result (IsJudgedUnlisted (matter_of full.now.model plain.now.model faults.now top.now (seen c.now))) }
{
    let question = CertificateQuestion {
        full,
        plain,
        faults,
        top,
        certificate: c,
    };
    judge_unlisted(alloc, &question)
}

/// Judges the numbers, and then the rest.
fn judge_unlisted(alloc: Global, q: &CertificateQuestion<'_>) -> Result<Judged, OutOfMemory>
    requires { CanBeProved (model_tree q.now.full.now.model) (asked q.now) }
    ensures { IfOk result (IsJudgedUnlisted (asked q.now)) }
{
    if !has_numbers(q) {
        return Ok(Judged::No(2, 1));
    }
    judge_numbered(alloc, q)
}

/// Judges that there is no set, and then the rest.
fn judge_numbered(alloc: Global, q: &CertificateQuestion<'_>) -> Result<Judged, OutOfMemory>
    requires fit { CanBeProved (model_tree q.now.full.now.model) (asked q.now) }
    requires numbers { HasNumbers (asked q.now).subject (asked q.now).certificate }
    ensures { IfOk result (IsJudgedUnlisted (asked q.now)) }
{
    let sets: &SetList = &q.certificate.sets;
    if sets.is_empty() {
        return judge_proof(alloc, q);
    }
    let set = sets.at(0);
    let rule = listed_rule(q, set.as_slice());
    Ok(Judged::No(SET_LINE, rule))
}

/// The rule that is broken first at the first set, which is rule 12 where every other is kept there.
fn listed_rule(q: &CertificateQuestion<'_>, set: &[u32]) -> u32
    requires { slice_get q.now.certificate.now.sets 0 ≡ Some set.now }
    ensures { FindsUnlisted (asked q.now) (a_set 0 set.now) result }
{
    match set_rule(q, 0, set) {
        Some(rule) => rule,
        None => NO_SET,
    }
}
