//! The three derivations of a certificate, each from the clauses that it is given.
//!
//! The main function is [`judge_parts`]. A derivation starts from a list of the model and from the invariant, and is to show clauses
//! of its own; its steps are judged in `steps`. A list of the model is large: it is made for its derivation by [`checker_for`], and no
//! other is there then.
ghost use Rattle.std.specs.Prelude.{◌≡◌, ◌++◌, IfOk, All};
ghost use Rattle.sat_clauses.specs.States.{IsOverBits};
ghost use Rattle.smv_language.specs.ModelTree.{model_tree};
ghost use Rattle.cert_laws.specs.Certificate.{part_first, part_next, part_bad, head_line, steps_in, first_line, next_line, bad_line};
ghost use Rattle.cert_laws.specs.Sites.{step_sites};
ghost use Rattle.cert_laws.specs.Acceptance.{HasNumbers};
ghost use Rattle.cert_check.specs.QuestionMatter.{asked};
ghost use Rattle.cert_check.specs.Fit.{CanBeProved};
ghost use Rattle.cert_check.specs.SiteFindings.{Finds};
ghost use Rattle.cert_check.specs.Parts.{part_of, list_of, also_given, IsAtStart};

use crate::judged::Judged;
use crate::question::{CertificateQuestion, CheckedPart};
use crate::steps::judge_derivation;
use base_values::OutOfMemory;
use cert_derivations::checker_of;
use sat_clauses::checker::Checker;
use sat_clauses::clause::{Clause, ClauseList};
use sat_encoding::{bad_clauses, first_gates, step_gates};
use std::alloc::Global;

/// Judges the three derivations, the first of which begins at this line.
pub(crate) fn judge_parts(
    alloc: Global,
    q: &CertificateQuestion<'_>,
    line: u64,
) -> Result<Judged, OutOfMemory>
    requires fit { CanBeProved (model_tree q.now.full.now.model) (asked q.now) }
    requires numbers { HasNumbers (asked q.now).subject (asked q.now).certificate }
    requires over_bits { All (IsOverBits (asked q.now).subject.system) q.now.certificate.now.invariant }
    requires line { line ≡ first_line (asked q.now).certificate }
    ensures { IfOk result (Finds (asked q.now) (step_sites part_first 0 q.now.certificate.now.first
        ++ (step_sites part_next 0 q.now.certificate.now.next ++ step_sites part_bad 0 q.now.certificate.now.bad))) }
{
    let next = line + q.certificate.first.len() as u64 + 1;
    match judge_part(alloc, q, CheckedPart::First, line)? {
        Judged::Yes => judge_later(alloc, q, next),
        Judged::No(at, rule) => Ok(Judged::No(at, rule)),
    }
}

/// Judges the second and the third derivation.
fn judge_later(alloc: Global, q: &CertificateQuestion<'_>, line: u64) -> Result<Judged, OutOfMemory>
    requires fit { CanBeProved (model_tree q.now.full.now.model) (asked q.now) }
    requires numbers { HasNumbers (asked q.now).subject (asked q.now).certificate }
    requires over_bits { All (IsOverBits (asked q.now).subject.system) q.now.certificate.now.invariant }
    requires line { line ≡ next_line (asked q.now).certificate }
    ensures { IfOk result (Finds (asked q.now) (step_sites part_next 0 q.now.certificate.now.next
        ++ step_sites part_bad 0 q.now.certificate.now.bad)) }
{
    let next = line + q.certificate.next.len() as u64 + 1;
    match judge_part(alloc, q, CheckedPart::Next, line)? {
        Judged::Yes => judge_last(alloc, q, next),
        Judged::No(at, rule) => Ok(Judged::No(at, rule)),
    }
}

/// Judges the third derivation.
fn judge_last(alloc: Global, q: &CertificateQuestion<'_>, line: u64) -> Result<Judged, OutOfMemory>
    requires fit { CanBeProved (model_tree q.now.full.now.model) (asked q.now) }
    requires numbers { HasNumbers (asked q.now).subject (asked q.now).certificate }
    requires over_bits { All (IsOverBits (asked q.now).subject.system) q.now.certificate.now.invariant }
    requires line { line ≡ bad_line (asked q.now).certificate }
    ensures { IfOk result (Finds (asked q.now) (step_sites part_bad 0 q.now.certificate.now.bad)) }
{
    judge_part(alloc, q, CheckedPart::Bad, line)
}

/// Judges one derivation, whose head has this line.
fn judge_part(
    alloc: Global,
    q: &CertificateQuestion<'_>,
    part: CheckedPart,
    line: u64,
) -> Result<Judged, OutOfMemory>
    requires fit { CanBeProved (model_tree q.now.full.now.model) (asked q.now) }
    requires numbers { HasNumbers (asked q.now).subject (asked q.now).certificate }
    requires over_bits { All (IsOverBits (asked q.now).subject.system) q.now.certificate.now.invariant }
    requires line { line ≡ head_line (asked q.now).certificate (part_of part) }
    ensures { IfOk result (Finds (asked q.now) (step_sites (part_of part) 0 (steps_in (asked q.now).certificate (part_of part)))) }
{
    let checker = checker_for(alloc, q, part)?;
    judge_derivation(alloc, q, part, checker, line + 1)
}

/// The checker of a derivation, with the clauses that this starts from. The list of the model is made for it, and dropped before
/// its steps are judged, so that one such list is there at a time.
fn checker_for(
    alloc: Global,
    q: &CertificateQuestion<'_>,
    part: CheckedPart,
) -> Result<Checker, OutOfMemory>
    requires fit { CanBeProved (model_tree q.now.full.now.model) (asked q.now) }
    requires numbers { HasNumbers (asked q.now).subject (asked q.now).certificate }
    ensures { IfOk result (IsAtStart (asked q.now) (part_of part)) }
{
    match part {
        CheckedPart::First => checker_of_first(alloc, q),
        CheckedPart::Next => checker_of_steps(alloc, q),
        CheckedPart::Bad => checker_of_bad(alloc, q),
    }
}

/// The checker that starts from the first states.
fn checker_of_first(alloc: Global, q: &CertificateQuestion<'_>) -> Result<Checker, OutOfMemory>
    requires fit { CanBeProved (model_tree q.now.full.now.model) (asked q.now) }
    ensures { IfOk result (IsAtStart (asked q.now) part_first) }
{
    let gates = first_gates(alloc, q.full)?;
    let given = gates.clauses().as_slice();
    let checker = checker_of(alloc, given, also_given(q, CheckedPart::First))?;
    Ok(checker)
}

/// The checker that starts from the steps, and from the invariant.
fn checker_of_steps(alloc: Global, q: &CertificateQuestion<'_>) -> Result<Checker, OutOfMemory>
    requires fit { CanBeProved (model_tree q.now.full.now.model) (asked q.now) }
    ensures { IfOk result (IsAtStart (asked q.now) part_next) }
{
    let gates = step_gates(alloc, q.full)?;
    let given = gates.clauses().as_slice();
    let checker = checker_of(alloc, given, also_given(q, CheckedPart::Next))?;
    Ok(checker)
}

/// The checker that starts from the bad states, and from the invariant.
fn checker_of_bad(alloc: Global, q: &CertificateQuestion<'_>) -> Result<Checker, OutOfMemory>
    requires fit { CanBeProved (model_tree q.now.full.now.model) (asked q.now) }
    requires numbers { HasNumbers (asked q.now).subject (asked q.now).certificate }
    ensures { IfOk result (IsAtStart (asked q.now) part_bad) }
{
    let list = bad_list(alloc, q)?;
    let given = list.as_slice();
    let checker = checker_of(alloc, given, also_given(q, CheckedPart::Bad))?;
    Ok(checker)
}

/// The list of the bad states that the certificate's sets and size leave.
fn bad_list(alloc: Global, q: &CertificateQuestion<'_>) -> Result<ClauseList, OutOfMemory>
    requires fit { CanBeProved (model_tree q.now.full.now.model) (asked q.now) }
    requires numbers { HasNumbers (asked q.now).subject (asked q.now).certificate }
    ensures { IfOk result (λ list. list ≡ list_of (asked q.now) part_bad) }
{
    let c = q.certificate;
    bad_clauses(alloc, q.full, q.top, &c.sets, c.faults, c.size)
}

/// The clauses that a derivation is given besides the list of the model.
fn also_given<'a>(q: &'a CertificateQuestion<'_>, part: CheckedPart) -> &'a [Clause]
    ensures { result.now ≡ also_given (asked q.now) (part_of part) }
{
    match part {
        CheckedPart::First => &[],
        CheckedPart::Next | CheckedPart::Bad => q.certificate.invariant.as_slice(),
    }
}
