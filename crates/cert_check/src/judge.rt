//! All sites of a certificate judged in the order of their lines.
//!
//! The main function is [`check`]: the numbers first, then each set with its trace, the invariant's clauses, and the derivations.
ghost use Rattle.std.specs.Prelude.{◌≡◌, ◌++◌, map, IfOk};
ghost use Rattle.smv_language.specs.ModelTree.{model_tree, flat_tree};
ghost use Rattle.smv_flat_laws.specs.FaultModes.{mode_of};
ghost use Rattle.smv_flat_laws.specs.History.{with_history};
ghost use Rattle.cert_text.specs.CertificateView.{seen};
ghost use Rattle.cert_laws.specs.Acceptance.{HasNumbers};
ghost use Rattle.cert_laws.specs.Sites.{sites_of, set_sites};
ghost use Rattle.cert_check.specs.Matter.{matter_of};
ghost use Rattle.cert_check.specs.SiteFindings.{Finds, IsJudged};
ghost use Rattle.cert_check.specs.QuestionMatter.{asked, proof_sites};
ghost use Rattle.cert_check.specs.Fit.{IsFit, IsCheckable, CanBeJudged, CanBeProved};

use crate::clauses::judge_clauses;
use crate::judged::Judged;
use crate::lines::invariant_line;
use crate::listed::judge_sets;
use crate::parts::judge_parts;
use crate::question::CertificateQuestion;
use crate::sets::has_numbers;
use base_values::OutOfMemory;
use cert_text::Certificate;
use smv_language::Expr;
use smv_language::model::{FaultList, Flat};
use smv_types::Typed;
use std::alloc::Global;

/// Whether a certificate is accepted for a model, its faults and a top event, or the objection to it. `full`
/// is `plain` with the history of the faults.
pub fn check(
    alloc: Global,
    full: &Typed,
    plain: &Typed,
    faults: &FaultList,
    top: &Expr<Flat>,
    c: &Certificate,
) -> Result<Judged, OutOfMemory>
    requires history { model_tree full.now.model ≡ with_history (model_tree plain.now.model) (map mode_of faults.now) }
    requires fit { IsFit (model_tree plain.now.model) (map mode_of faults.now) (flat_tree top.now) }
    requires checkable { IsCheckable (seen c.now) }
    ensures { IfOk result (IsJudged (matter_of full.now.model plain.now.model faults.now top.now (seen c.now))) }
{
    let question = CertificateQuestion {
        full,
        plain,
        faults,
        top,
        certificate: c,
    };
    judge(alloc, &question)
}

/// Judges all sites.
fn judge(alloc: Global, q: &CertificateQuestion<'_>) -> Result<Judged, OutOfMemory>
    requires { CanBeJudged (model_tree q.now.full.now.model) (asked q.now) }
    ensures { IfOk result (IsJudged (asked q.now)) }
{
    judge_sites(alloc, q)
}

/// What is found at all sites.
fn judge_sites(alloc: Global, q: &CertificateQuestion<'_>) -> Result<Judged, OutOfMemory>
    requires { CanBeJudged (model_tree q.now.full.now.model) (asked q.now) }
    ensures { IfOk result (Finds (asked q.now) (sites_of (asked q.now).certificate)) }
{
    if !has_numbers(q) {
        return Ok(Judged::No(2, 1));
    }
    judge_listed(alloc, q)
}

/// Judges the sets with their traces, and then the rest.
fn judge_listed(alloc: Global, q: &CertificateQuestion<'_>) -> Result<Judged, OutOfMemory>
    requires fit { CanBeJudged (model_tree q.now.full.now.model) (asked q.now) }
    requires numbers { HasNumbers (asked q.now).subject (asked q.now).certificate }
    ensures { IfOk result (Finds (asked q.now) (set_sites 0 q.now.certificate.now.sets q.now.certificate.now.traces
        ++ proof_sites (asked q.now).certificate)) }
{
    match judge_sets(alloc, q)? {
        Judged::Yes => judge_proof(alloc, q),
        Judged::No(line, rule) => Ok(Judged::No(line, rule)),
    }
}

/// Judges the invariant, and then the derivations.
pub(crate) fn judge_proof(alloc: Global, q: &CertificateQuestion<'_>) -> Result<Judged, OutOfMemory>
    requires fit { CanBeProved (model_tree q.now.full.now.model) (asked q.now) }
    requires numbers { HasNumbers (asked q.now).subject (asked q.now).certificate }
    ensures { IfOk result (Finds (asked q.now) (proof_sites (asked q.now).certificate)) }
{
    let line = invariant_line(q);
    match judge_clauses(q, line + 1) {
        Judged::Yes => judge_parts(alloc, q, line + q.certificate.invariant.len() as u64 + 1),
        Judged::No(at, rule) => Ok(Judged::No(at, rule)),
    }
}
