//! A certificate written.
//!
//! The main function is [`write`]. Each part of a certificate has a function that appends its lines, by the `pieces` below.
ghost use Rattle.std.specs.Prelude.{◌≡◌, [], ◌∷◌, ◌++◌, IfOk, OnOk, codes, map};
ghost use Rattle.std.specs.Fmt.{decimal};
ghost use Rattle.cut_text_laws.specs.Lines.{fed};
ghost use Rattle.cert_laws.specs.CertificateText.{IsWritable, SpellsCertificate, version_two, lines_of, set_lines, clause_line, step_line};
ghost use Rattle.cert_laws.specs.CertificateText.{part_lines};
ghost use Rattle.cert_text.specs.Pieces.{head_text, traced_lines, listed_lines, invariant_lines, derived_lines};
ghost use Rattle.cert_text.specs.CertificateView.{seen};

use crate::certificate::Certificate;
use crate::line_list::LineList;
use crate::packed::PackedSteps;
use crate::pieces::{append_clause, append_counted, append_set, append_step};
use base_values::{ByteList, FaultSet, OutOfMemory};
use sat_clauses::clause::{Clause, ClauseList};
use std::alloc::Global;

/// The text of a certificate, in version 2.
pub fn write(alloc: Global, c: &Certificate) -> Result<ByteList, OutOfMemory>
    requires { IsWritable (seen c.now) }
    ensures text { IfOk result (λ text. text ≡ fed (lines_of version_two (seen c.now))) }
    // What is written spells the certificate.
    ensures spells { IfOk result (λ text. SpellsCertificate text (seen c.now)) }
{
    let mut text = ByteList::new(alloc);
    append_certificate(alloc, &mut text, c)?;
    Ok(text)
}

/// Appends all lines.
fn append_certificate(
    alloc: Global,
    text: &mut ByteList,
    c: &Certificate,
) -> Result<(), OutOfMemory>
    ensures { OnOk result (text.new ≡ text.old ++ fed (lines_of version_two (seen c.now))) }
{
    append_head(alloc, text, c)?;
    append_listed(alloc, text, c)?;
    append_invariant(alloc, text, &c.invariant)?;
    append_derived(alloc, text, c)
}

/// Appends the version and the numbers.
#[tactic(auto, using(crate::proofs::PieceLaws::piece_rules))]
fn append_head(alloc: Global, text: &mut ByteList, c: &Certificate) -> Result<(), OutOfMemory>
    ensures { OnOk result (text.new ≡ text.old ++ head_text c.now.bits c.now.faults c.now.size) }
{
    append_named(alloc, text, b"xsap-certificate 2\nbits ", c.bits)?;
    append_faults_and_size(alloc, text, c)
}

/// Appends the number of faults and the size.
#[tactic(auto, using(crate::proofs::PieceLaws::piece_rules))]
fn append_faults_and_size(
    alloc: Global,
    text: &mut ByteList,
    c: &Certificate,
) -> Result<(), OutOfMemory>
    ensures { OnOk result (text.new
        ≡ text.old ++ (codes " faults " ++ (decimal c.now.faults ++ (codes " size " ++ (decimal c.now.size ++ 10 ∷ []))))) }
{
    append_named(alloc, text, b" faults ", c.faults)?;
    append_named(alloc, text, b" size ", c.size)?;
    text.append(b"\n")
}

/// Appends a text and a number.
#[tactic(auto, using(crate::proofs::PieceLaws::piece_rules))]
fn append_named(
    alloc: Global,
    text: &mut ByteList,
    name: &[u8],
    number: u32,
) -> Result<(), OutOfMemory>
    ensures { OnOk result (text.new ≡ text.old ++ (name.now ++ decimal number)) }
{
    text.append(name)?;
    text.append_number(alloc, u64::from(number))
}

/// Appends the number of sets, and the sets with their traces.
#[tactic(auto, using(crate::proofs::PieceLaws::piece_rules))]
fn append_listed(alloc: Global, text: &mut ByteList, c: &Certificate) -> Result<(), OutOfMemory>
    ensures { OnOk result (text.new ≡ text.old ++ fed (listed_lines c.now.sets c.now.traces)) }
{
    append_counted(alloc, text, b"sets", c.sets.len())?;
    append_sets(alloc, text, c.sets.as_slice(), c.traces.as_slice())
}

/// Appends each set with its trace.
#[tactic(auto, using(crate::proofs::PieceLaws::piece_rules))]
fn append_sets(
    alloc: Global,
    text: &mut ByteList,
    sets: &[FaultSet],
    traces: &[LineList],
) -> Result<(), OutOfMemory>
    ensures { OnOk result (text.new ≡ text.old ++ fed (set_lines sets.now traces.now)) }
{
    let mut sets = sets;
    let mut traces = traces;
    while let ([set, more_sets @ ..], [trace, more_traces @ ..]) = (sets, traces) {
        append_traced(alloc, text, set, trace)?;
        sets = more_sets;
        traces = more_traces;
    }
    Ok(())
}

/// Appends a set with its trace.
#[tactic(auto, using(crate::proofs::PieceLaws::piece_rules))]
fn append_traced(
    alloc: Global,
    text: &mut ByteList,
    set: &FaultSet,
    trace: &LineList,
) -> Result<(), OutOfMemory>
    ensures { OnOk result (text.new ≡ text.old ++ fed (traced_lines set.now trace.now)) }
{
    append_set(alloc, text, set)?;
    append_counted(alloc, text, b"trace", trace.len())?;
    text.append(trace.text())
}

/// Appends the number of clauses, and the clauses.
#[tactic(auto, using(crate::proofs::PieceLaws::piece_rules))]
fn append_invariant(
    alloc: Global,
    text: &mut ByteList,
    clauses: &ClauseList,
) -> Result<(), OutOfMemory>
    ensures { OnOk result (text.new ≡ text.old ++ fed (invariant_lines clauses.now)) }
{
    append_counted(alloc, text, b"invariant", clauses.len())?;
    append_clauses(alloc, text, clauses.as_slice())
}

/// Appends the line of each clause.
#[tactic(auto, using(crate::proofs::PieceLaws::piece_rules))]
fn append_clauses(alloc: Global, text: &mut ByteList, clauses: &[Clause]) -> Result<(), OutOfMemory>
    ensures { OnOk result (text.new ≡ text.old ++ fed (map clause_line clauses.now)) }
{
    for clause in clauses {
        append_clause(alloc, text, clause)?;
    }
    Ok(())
}

/// Appends the three derivations and the last line.
#[tactic(auto, using(crate::proofs::PieceLaws::piece_rules))]
fn append_derived(alloc: Global, text: &mut ByteList, c: &Certificate) -> Result<(), OutOfMemory>
    ensures { OnOk result (text.new ≡ text.old ++ fed (derived_lines c.now.first c.now.next c.now.bad)) }
{
    append_part(alloc, text, b"first", &c.first)?;
    append_part(alloc, text, b"next", &c.next)?;
    append_part(alloc, text, b"bad", &c.bad)?;
    text.append(b"end\n")
}

/// Appends the number of a derivation's steps after its word, and the steps.
#[tactic(auto, using(crate::proofs::PieceLaws::piece_rules))]
fn append_part(
    alloc: Global,
    text: &mut ByteList,
    word: &[u8],
    steps: &PackedSteps,
) -> Result<(), OutOfMemory>
    ensures { OnOk result (text.new ≡ text.old ++ fed (part_lines word.now steps.now)) }
{
    append_counted(alloc, text, word, steps.len())?;
    append_steps(alloc, text, steps)
}

/// Appends the line of each step.
#[tactic(auto, using(crate::proofs::PieceLaws::piece_rules))]
fn append_steps(alloc: Global, text: &mut ByteList, steps: &PackedSteps) -> Result<(), OutOfMemory>
    ensures { OnOk result (text.new ≡ text.old ++ fed (map step_line steps.now)) }
{
    for i in 0..steps.len() {
        let step = steps.at(i)?;
        append_step(alloc, text, &step)?;
    }
    Ok(())
}
