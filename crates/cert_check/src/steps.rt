//! One derivation of a certificate: rules 8 to 11.
//!
//! The main function is [`judge_derivation`]: each step follows from the clauses before it by unit propagation along its hints, and at
//! the end each clause that is to be shown is there.
ghost use Rattle.std.specs.Prelude.{◌≡◌, ◌↔◌, ◌+◌, ◌<◌, ◌^◌, [], ◌∷◌, All, IfOk, IsTrue, length};
ghost use Rattle.sat_clauses.specs.States.{IsOverBits};
ghost use Rattle.cert_laws.specs.Certificate.{an_end, head_line, steps_in};
ghost use Rattle.cert_laws.specs.Sites.{step_sites};
ghost use Rattle.cert_laws.specs.Acceptance.{Covers, known_at, vars_of, goals};
ghost use Rattle.cert_check.specs.QuestionMatter.{asked};
ghost use Rattle.cert_check.specs.SiteFindings.{Finds};
ghost use Rattle.cert_check.specs.Parts.{FindsSteps, part_of};

use crate::judged::Judged;
use crate::question::{CertificateQuestion, CheckedPart, steps_of};
use base_values::OutOfMemory;
use cert_derivations::{covers_all, covers_all_next, only_empty, take_step};
use sat_clauses::checker::Checker;
use std::alloc::Global;

/// Judges the steps of a derivation, the first of which has this line, and then its end. The checker has the
/// clauses that the derivation starts from.
pub(crate) fn judge_derivation(
    alloc: Global,
    q: &CertificateQuestion<'_>,
    part: CheckedPart,
    checker: Checker,
    line: u64,
) -> Result<Judged, OutOfMemory>
    requires over_bits { All (IsOverBits (asked q.now).subject.system) q.now.certificate.now.invariant }
    requires vars { checker.vars ≡ vars_of (asked q.now).subject (asked q.now).certificate (part_of part) }
    requires clauses { checker.clauses ≡ known_at (asked q.now).subject (asked q.now).certificate (part_of part) 0 }
    requires line { line ≡ head_line (asked q.now).certificate (part_of part) + 1 }
    requires room { line + length (steps_in (asked q.now).certificate (part_of part)) < 2 ^ 64 }
    ensures { IfOk result (Finds (asked q.now) (step_sites (part_of part) 0 (steps_in (asked q.now).certificate (part_of part)))) }
{
    let mut checker = checker;
    match judge_steps(q, part, &mut checker, line)? {
        Judged::Yes => judge_end(alloc, q, part, &checker, line),
        Judged::No(at, rule) => Ok(Judged::No(at, rule)),
    }
}

/// Judges the end of a derivation whose first step has this line. The checker has the clauses of all steps.
fn judge_end(
    alloc: Global,
    q: &CertificateQuestion<'_>,
    part: CheckedPart,
    checker: &Checker,
    line: u64,
) -> Result<Judged, OutOfMemory>
    requires over_bits { All (IsOverBits (asked q.now).subject.system) q.now.certificate.now.invariant }
    requires clauses { checker.now.clauses
        ≡ known_at (asked q.now).subject (asked q.now).certificate (part_of part)
        (length (steps_in (asked q.now).certificate (part_of part))) }
    requires line { line ≡ head_line (asked q.now).certificate (part_of part) + 1 }
    requires room { line + length (steps_in (asked q.now).certificate (part_of part)) < 2 ^ 64 }
    ensures { IfOk result (Finds (asked q.now) (an_end (part_of part) ∷ [])) }
{
    let covers = covers_goals(alloc, q, part, checker)?;
    if covers {
        return Ok(Judged::Yes);
    }
    Ok(Judged::No(line + steps_of(q, part).len() as u64, 11))
}

/// Whether the clauses of a derivation cover those that it is to show. No list of these is made beside the invariant.
fn covers_goals(
    alloc: Global,
    q: &CertificateQuestion<'_>,
    part: CheckedPart,
    checker: &Checker,
) -> Result<bool, OutOfMemory>
    requires over_bits { All (IsOverBits (asked q.now).subject.system) q.now.certificate.now.invariant }
    ensures { IfOk result (λ covers. IsTrue covers
        ↔ All (Covers checker.now.clauses) (goals (asked q.now).subject (asked q.now).certificate (part_of part))) }
{
    let invariant = q.certificate.invariant.as_slice();
    match part {
        CheckedPart::First => Ok(covers_all(checker, invariant)),
        CheckedPart::Next => covers_all_next(alloc, checker, invariant, q.full.bits()),
        CheckedPart::Bad => covers_empty(alloc, checker),
    }
}

/// Whether the clauses of a derivation cover the clause without literals.
fn covers_empty(alloc: Global, checker: &Checker) -> Result<bool, OutOfMemory>
    ensures { IfOk result (λ covers. IsTrue covers ↔ All (Covers checker.now.clauses) ([] ∷ [])) }
{
    let goals = only_empty(alloc)?;
    Ok(covers_all(checker, goals.as_slice()))
}

/// Judges the steps. Where every rule is kept, the checker has all of their clauses.
fn judge_steps(
    q: &CertificateQuestion<'_>,
    part: CheckedPart,
    checker: &mut Checker,
    line: u64,
) -> Result<Judged, OutOfMemory>
    requires vars { checker.old.vars ≡ vars_of (asked q.now).subject (asked q.now).certificate (part_of part) }
    requires clauses { checker.old.clauses ≡ known_at (asked q.now).subject (asked q.now).certificate (part_of part) 0 }
    requires line { line ≡ head_line (asked q.now).certificate (part_of part) + 1 }
    requires room { line + length (steps_in (asked q.now).certificate (part_of part)) < 2 ^ 64 }
    ensures found { IfOk result (FindsSteps (asked q.now) (part_of part)) }
    ensures known { result ≡ Ok Judged.Yes → checker.new.clauses
        ≡ known_at (asked q.now).subject (asked q.now).certificate (part_of part)
        (length (steps_in (asked q.now).certificate (part_of part))) }
{
    let steps = steps_of(q, part);
    for i in 0..steps.len() {
        let step = steps.at(i)?;
        if let Some(rule) = take_step(checker, &step)? {
            return Ok(Judged::No(line + i as u64, rule));
        }
    }
    Ok(Judged::Yes)
}
