//! The clauses of an invariant: rule 8.
//!
//! The main function is [`judge_clauses`]: each clause is over the state bits now, and no literal stands in it with its opposite.
ghost use Rattle.std.specs.Prelude.{◌≡◌, ◌↔◌, ◌+◌, ◌<◌, ◌≤◌, ◌^◌, IsTrue, All, length};
ghost use Rattle.sat_clauses.specs.Hints.{HasNoOpposites};
ghost use Rattle.sat_clauses.specs.States.{IsOverBits};
ghost use Rattle.cert_laws.specs.Certificate.{invariant_line};
ghost use Rattle.cert_laws.specs.Sites.{clause_sites};
ghost use Rattle.cert_check.specs.QuestionMatter.{asked};
ghost use Rattle.cert_check.specs.SiteFindings.{Finds};

use crate::judged::Judged;
use crate::question::CertificateQuestion;
use cert_derivations::has_no_opposites;
use sat_clauses::clause::ClauseList;
use sat_clauses::lit::Lit;

/// Judges the clauses of the invariant, the first of which has this line.
pub(crate) fn judge_clauses(q: &CertificateQuestion<'_>, line: u64) -> Judged
    requires line { line ≡ invariant_line (asked q.now).certificate + 1 }
    requires room { line + length q.now.certificate.now.invariant < 2 ^ 64 }
    ensures { Finds (asked q.now) (clause_sites 0 q.now.certificate.now.invariant) result }
{
    let clauses: &ClauseList = &q.certificate.invariant;
    for i in 0..clauses.len() {
        if !is_invariant_clause(q, clauses.at(i).lits()) {
            return Judged::No(line + i as u64, 8);
        }
    }
    Judged::Yes
}

/// Whether a clause is over the state bits now, and none of its literals stands with its opposite.
fn is_invariant_clause(q: &CertificateQuestion<'_>, clause: &[Lit]) -> bool
    ensures { IsTrue result ↔ (IsOverBits (asked q.now).subject.system clause.now × HasNoOpposites clause.now) }
{
    if !are_over_bits(clause, u64::from(q.full.bits())) {
        return false;
    }
    has_no_opposites(clause)
}

/// Whether the variables of the literals are state bits now, of which there are so many.
fn are_over_bits(lits: &[Lit], bits: u64) -> bool
    requires { bits < 2 ^ 32 }
    ensures { IsTrue result ↔ All (λ l. (2 ≤ l.var) × (l.var < bits + 2)) lits.now }
{
    lits.iter().all(|lit| is_bit(*lit, bits))
}

/// Whether the variable of a literal is one of so many state bits now.
fn is_bit(lit: Lit, bits: u64) -> bool
    requires { bits < 2 ^ 32 }
    ensures { IsTrue result ↔ ((2 ≤ lit.var) × (lit.var < bits + 2)) }
{
    2 <= lit.var() && lit.var() < bits + 2
}
