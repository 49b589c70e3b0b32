//! Pieces of a certificate's text, each appended to the end of one buffer, so that the work is linear in the
//! text.
ghost use Rattle.std.specs.Prelude.{◌≡◌, [], ◌∷◌, ◌++◌, OnOk, map};
ghost use Rattle.std.specs.Fmt.{decimal};
ghost use Rattle.cut_text_laws.specs.Lines.{counted};
ghost use Rattle.cert_laws.specs.CertificateText.{literal_text, set_line, clause_line, step_line};
ghost use Rattle.cert_text.specs.Pieces.{after_spaces};

use base_values::{ByteList, FaultSet, OutOfMemory};
use sat_clauses::clause::Clause;
use sat_clauses::lit::Lit;
use sat_clauses::step::Step;
use std::alloc::Global;

/// Appends the line of a word and a count.
#[tactic(auto, using(crate::proofs::PieceLaws::piece_rules))]
pub(crate) fn append_counted(
    alloc: Global,
    text: &mut ByteList,
    word: &[u8],
    count: usize,
) -> Result<(), OutOfMemory>
    ensures { OnOk result (text.new ≡ text.old ++ (counted word.now count ++ 10 ∷ [])) }
{
    text.append(word)?;
    text.append(b" ")?;
    text.append_number(alloc, count as u64)?;
    text.append(b"\n")
}

/// Appends the line of a set.
#[tactic(auto, using(crate::proofs::PieceLaws::piece_rules))]
pub(crate) fn append_set(
    alloc: Global,
    text: &mut ByteList,
    set: &FaultSet,
) -> Result<(), OutOfMemory>
    ensures { OnOk result (text.new ≡ text.old ++ (set_line set.now ++ 10 ∷ [])) }
{
    text.append(b"set")?;
    append_faults(alloc, text, set.as_slice())?;
    text.append(b"\n")
}

/// Appends the numbers of faults, with a space before each.
#[tactic(auto, using(crate::proofs::PieceLaws::piece_rules))]
fn append_faults(alloc: Global, text: &mut ByteList, faults: &[u32]) -> Result<(), OutOfMemory>
    ensures { OnOk result (text.new ≡ text.old ++ after_spaces (map decimal faults.now)) }
{
    for fault in faults {
        text.append(b" ")?;
        text.append_number(alloc, u64::from(*fault))?;
    }
    Ok(())
}

/// Appends the line of a clause.
#[tactic(auto, using(crate::proofs::PieceLaws::piece_rules))]
pub(crate) fn append_clause(
    alloc: Global,
    text: &mut ByteList,
    clause: &Clause,
) -> Result<(), OutOfMemory>
    ensures { OnOk result (text.new ≡ text.old ++ (clause_line clause.now ++ 10 ∷ [])) }
{
    text.append(b"clause")?;
    append_literals(alloc, text, clause.lits())?;
    text.append(b"\n")
}

/// Appends literals, with a space before each.
#[tactic(auto, using(crate::proofs::PieceLaws::piece_rules))]
fn append_literals(alloc: Global, text: &mut ByteList, lits: &[Lit]) -> Result<(), OutOfMemory>
    ensures { OnOk result (text.new ≡ text.old ++ after_spaces (map literal_text lits.now)) }
{
    for lit in lits {
        text.append(b" ")?;
        append_literal(alloc, text, *lit)?;
    }
    Ok(())
}

/// Appends a literal: its variable, after `-` where it is negated.
#[tactic(auto, using(crate::proofs::PieceLaws::piece_rules))]
fn append_literal(alloc: Global, text: &mut ByteList, lit: Lit) -> Result<(), OutOfMemory>
    ensures { OnOk result (text.new ≡ text.old ++ literal_text lit) }
{
    if lit.is_negated() {
        text.append(b"-")?;
    }
    text.append_number(alloc, lit.var())
}

/// Appends the line of a step.
#[tactic(auto, using(crate::proofs::PieceLaws::piece_rules))]
pub(crate) fn append_step(
    alloc: Global,
    text: &mut ByteList,
    step: &Step,
) -> Result<(), OutOfMemory>
    ensures { OnOk result (text.new ≡ text.old ++ (step_line step.now ++ 10 ∷ [])) }
{
    text.append(b"step")?;
    append_literals(alloc, text, step.clause.lits())?;
    text.append(b" :")?;
    append_hints(alloc, text, step.hints.as_slice())?;
    text.append(b"\n")
}

/// Appends hints, with a space before each.
#[tactic(auto, using(crate::proofs::PieceLaws::piece_rules))]
fn append_hints(alloc: Global, text: &mut ByteList, hints: &[u64]) -> Result<(), OutOfMemory>
    ensures { OnOk result (text.new ≡ text.old ++ after_spaces (map decimal hints.now)) }
{
    for hint in hints {
        text.append(b" ")?;
        text.append_number(alloc, *hint)?;
    }
    Ok(())
}
