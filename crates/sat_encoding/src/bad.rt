//! The clause list of a model's bad states: what a search for cut sets asks for.
//!
//! [`bad_clauses`] is the main function. A bad state is one at which the top event is TRUE, of which no more
//! history bits are TRUE than the size says, and at least one of each listed set is FALSE. The clauses are those of
//! the states, the top event and a counter, with one more for each listed set. [`unlisted_clause`] is that one, and
//! [`history_literals`] the literals of the history bits that it is made of.
ghost use Rattle.std.specs.Prelude.{◌≡◌, ◌≤◌, ◌-◌, ◌+◌, ◌*◌, ◌^◌, ◌++◌, IfOk, IsOk, OnOk, length, map};
ghost use Rattle.std.specs.List.{range_with_len};
ghost use Rattle.smv_language.specs.Trace.{Each};
ghost use Rattle.smv_language.specs.ModelTree.{model_tree, flat_tree};
ghost use Rattle.smv_type_laws.specs.Costs.{state_bits};
ghost use Rattle.sat_circuits.specs.Meaning.{AllBelow};
ghost use Rattle.sat_encoding_laws.specs.Meanings.{IsSignal};
ghost use Rattle.sat_encoding_laws.specs.Encodable.{IsEncodable, IsFitTop};
ghost use Rattle.sat_encoding_laws.specs.Layout.{literals_from};
ghost use Rattle.sat_encoding_laws.specs.Lists.{size_gates, history_literals, unlisted_clause, literal_at, bad_list};
ghost use Rattle.sat_expressions.specs.BuiltSignals.{signals_of};
ghost use Rattle.sat_encoding.specs.History.{last_numbers, literal_of};
ghost use Rattle.sat_encoding.specs.Copies.{source_model, IsSource};
ghost use Rattle.sat_encoding_laws.specs.Variables.{bad_circuit};

use crate::layout::{END_OF_VARIABLES, literals_from};
use crate::lists::{ListsSource, holds, source_of, state_copy};
use base_values::limits::MOST_BITS;
use base_values::{Items, OutOfMemory, SetList};
use sat_circuits::counts::at_most;
use sat_circuits::gates::Gates;
use sat_circuits::word::Word;
use sat_clauses::clause::{Clause, ClauseList};
use sat_clauses::lit::Lit;
use sat_expressions::names::{NamedSignals, SignalList};
use smv_language::Expr;
use smv_language::model::Flat;
use smv_types::Typed;
use std::alloc::Global;

/// The clauses that are true with the states at which the top event is TRUE, that have failed at most
/// `size` of the faults, whose history bits are the last `faults` variables, and all of none of the listed
/// sets. A size of as many as there are faults or more asks nothing. Where gates would pass the highest
/// variable the answer is want of memory, too.
pub fn bad_clauses(
    alloc: Global,
    t: &Typed,
    top: &Expr<Flat>,
    listed: &SetList,
    faults: u32,
    size: u32,
) -> Result<ClauseList, OutOfMemory>
    requires encodable { IsEncodable (model_tree t.now.model) }
    requires top { IsFitTop (model_tree t.now.model) (flat_tree top.now) }
    requires faults { faults ≤ length t.now.model.variables }
    ensures exact { IfOk result (λ c. c
        ≡ bad_list (model_tree t.now.model) (flat_tree top.now) (last_numbers (model_tree t.now.model) faults) listed.now size) }
{
    let source = source_of(alloc, t)?;
    let (clauses, history) = counted(alloc, &source, top, faults, size)?;
    let bad = unlisted(alloc, clauses, history.as_slice(), listed)?;
    Ok(bad)
}

/// The clauses of the states at which the top event is TRUE, and at most so many faults have failed; and
/// the literals of the history bits now.
fn counted(
    alloc: Global,
    source: &ListsSource<'_>,
    top: &Expr<Flat>,
    faults: u32,
    size: u32,
) -> Result<(ClauseList, Word), OutOfMemory>
    requires source { IsSource source.now }
    requires encodable { IsEncodable (source_model source.now) }
    requires top { IsFitTop (source_model source.now) (flat_tree top.now) }
    requires faults { faults ≤ length source.now.model.now.model.variables }
    ensures clauses { IfOk result (λ r. r.0 ≡ (bad_circuit (source_model source.now) (flat_tree top.now)
        (last_numbers (source_model source.now) faults) size).clauses) }
    ensures history { IfOk result (λ r. r.1 ≡ history_literals (source_model source.now) (last_numbers (source_model source.now) faults)) }
{
    let (mut g, now) = state_copy(alloc, source)?;
    let names = NamedSignals::at(source.model, &now, source.symbols);
    holds(alloc, &mut g, &names, top)?;
    let history = last_literals(alloc, &g, &now.variables, faults)?;
    few(alloc, &mut g, history.as_slice(), size)?;
    Ok((g.into_clauses(), history))
}

/// The literals of the last so many signals.
fn last_literals(
    alloc: Global,
    g: &Gates,
    signals: &SignalList,
    count: u32,
) -> Result<Word, OutOfMemory>
    requires usable { Each (IsSignal g.now) (signals_of signals.now) }
    requires few { count ≤ length signals.now }
    ensures literals { IfOk result (λ w. w
        ≡ map (literal_of (signals_of signals.now)) (range_with_len (length signals.now - count) count)) }
    ensures below { IfOk result (AllBelow g.now.free) }
{
    let mut literals = Items::new(alloc);
    for i in signals.len() - count as usize..signals.len() {
        literals.push(signals.at(i).literal(g))?;
    }
    Ok(literals)
}

/// At most so many of the faults have failed; where that is every number of them nothing is asked.
fn few(alloc: Global, g: &mut Gates, history: &[Lit], size: u32) -> Result<(), OutOfMemory>
    requires { AllBelow g.old.free history.now }
    ensures { OnOk result (size_gates history.now size g.old ≡ g.new) }
{
    if (size as usize) < history.len() {
        check_counters(g, history.len(), size)?;
        let few = at_most(alloc, g, history, size)?;
        g.assert_true(few)?;
    }
    Ok(())
}

/// Counters of so many faults still have their variables.
fn check_counters(g: &Gates, faults: usize, size: u32) -> Result<(), OutOfMemory>
    ensures room { OnOk result (g.now.free + 4 * (size + 1) * (faults + 1) ≤ 2 ^ 31) }
    ensures fits { faults ≤ MOST_BITS → size ≤ MOST_BITS → g.now.free + 4 * (size + 1) * (faults + 1) ≤ 2 ^ 31 → IsOk result }
{
    if faults > MOST_BITS as usize || size > MOST_BITS as u32 {
        return Err(OutOfMemory);
    }
    if g.free() + 4 * (size as u64 + 1) * (faults as u64 + 1) <= END_OF_VARIABLES {
        Ok(())
    } else {
        Err(OutOfMemory)
    }
}

/// With the clause of each listed set: some fault of it has not failed.
fn unlisted(
    alloc: Global,
    clauses: ClauseList,
    history: &[Lit],
    listed: &SetList,
) -> Result<ClauseList, OutOfMemory>
    ensures { IfOk result (λ c. c ≡ clauses ++ map (unlisted_clause history.now) listed.now) }
{
    let mut all = clauses;
    for set in listed.as_slice() {
        let clause = unlisted_clause(alloc, history, set.as_slice())?;
        all.push(clause)?;
    }
    Ok(all)
}

/// The negated history bits of a set: some fault of it has not failed.
pub fn unlisted_clause(alloc: Global, history: &[Lit], set: &[u32]) -> Result<Clause, OutOfMemory>
    ensures { IfOk result (λ c. c ≡ unlisted_clause history.now set.now) }
{
    let mut lits = Items::new(alloc);
    for n in set {
        lits.push(history_literal(history, *n).neg())?;
    }
    let clause = Clause::from_lits(alloc, lits.as_slice())?;
    Ok(clause)
}

/// The literals of the history bits now, which are the last bits of the state.
pub fn history_literals(alloc: Global, t: &Typed, faults: u32) -> Result<Word, OutOfMemory>
    requires encodable { IsEncodable (model_tree t.now.model) }
    requires faults { faults ≤ state_bits (model_tree t.now.model) }
    ensures { IfOk result (λ w. w ≡ literals_from faults (state_bits (model_tree t.now.model) - faults + 2)) }
{
    let first = t.bits() as u64 - faults as u64 + 2;
    let literals = literals_from(alloc, faults, first)?;
    Ok(literals)
}

/// The history bit of a fault, by its number from 1; of none, FALSE.
fn history_literal(history: &[Lit], n: u32) -> Lit
    ensures { result ≡ literal_at history.now (n - 1) }
{
    let place = if n > 0 { n - 1 } else { 0 };
    match history.get(place as usize) {
        Some(l) => *l,
        None => Lit::new(1, true),
    }
}
