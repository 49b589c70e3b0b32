//! How the order of two faults is said, and what the moments of a staged trace tell of it.
//!
//! [`relation_of`] reads the relation from a trace; [`report_claim`] and [`report_either`] make the reports.
ghost use Rattle.std.specs.Prelude.{◌≡◌, ℕ, ◌-◌, ◌++◌, codes, map, take, length, slice_get, IfOk, OnOk};
ghost use Rattle.std.specs.Fmt.{decimal};
ghost use Rattle.smv_language.specs.ModelTree.{model_tree};
ghost use Rattle.cut_text_laws.specs.TraceText.{trace_text};
ghost use Rattle.cut_text_laws.specs.Analysis.{told_ending};
ghost use Rattle.smv_language.specs.NumberedValues.{told_trace};
ghost use Rattle.verb_orders.specs.Orders.{claimed, either, claim_word, order_text, reach_text, traces_text};
ghost use Rattle.verb_orders.specs.ClaimSearch.{is_true_value, relation_at as relation_at_end, relation_in};

use crate::pair::PairCase;
use base_values::{ByteList, Ending, MomentList, OutOfMemory, Valuation, Value};
use cut_report::print_trace;
use fault_orders::Relation;
use smv_types::Typed;
use std::alloc::Global;

/// The relation of the pair that a trace of the staged model has: its last two values say whether the first fault came
/// ahead of the second, and whether it came behind it.
pub(crate) fn relation_of(trace: &MomentList) -> Relation
    ensures { result ≡ relation_in trace.now }
{
    let count = trace.len();
    if count == 0 {
        return Relation::Together;
    }
    relation_at(trace.at(count - 1))
}

/// The relation that the last two values of a moment say.
fn relation_at(moment: &Valuation) -> Relation
    ensures { result ≡ relation_at_end moment.now }
{
    if is_true(moment, 2) {
        return Relation::Before;
    }
    if is_true(moment, 1) {
        return Relation::After;
    }
    Relation::Together
}

/// Whether the value at this place from the end, from 1, is there and TRUE; where there are fewer values, whether the first is.
fn is_true(moment: &Valuation, place: usize) -> bool
    ensures { result ≡ is_true_value (slice_get moment.now (length moment.now - place)) }
{
    let at = moment.len().saturating_sub(place);
    if at >= moment.len() {
        return false;
    }
    match moment.get(at) {
        Value::Bool(truth) => truth,
        Value::Num(_) | Value::Sym(_) => false,
    }
}

/// The first values of each moment of a trace, so many.
pub(crate) fn cut(
    alloc: Global,
    trace: &MomentList,
    variables: usize,
) -> Result<MomentList, OutOfMemory>
    ensures { IfOk result (λ cut. cut ≡ map (take variables) trace.now) }
{
    let mut cut = MomentList::new(alloc);
    for moment in trace.as_slice() {
        cut.push(cut_moment(alloc, moment, variables)?)?;
    }
    Ok(cut)
}

/// The first values of a moment, so many as there are.
fn cut_moment(alloc: Global, moment: &Valuation, variables: usize) -> Result<Valuation, OutOfMemory>
    ensures { IfOk result (λ cut. cut ≡ take variables moment.now) }
{
    let mut cut = Valuation::new(alloc);
    for i in 0..variables.min(moment.len()) {
        cut.push(moment.get(i))?;
    }
    Ok(cut)
}

/// The report of a claim that holds: the line of the pair.
#[tactic(auto, using(verb_loading::proofs::ReportLaws::report_rules))]
pub(crate) fn report_claim(
    alloc: Global,
    staged: &PairCase,
    claim: Option<Relation>,
    ending: Ending,
    bits: u32,
) -> Result<ByteList, OutOfMemory>
    ensures { IfOk result (λ text. text
        ≡ order_text (model_tree staged.now.loaded.case.limited.typed.model) staged.now.asked.first staged.now.asked.second
        (claimed claim) (told_ending ending) bits) }
{
    let mut text = pair(alloc, staged.asked.first, staged.asked.second)?;
    text.append(claim_name(claim))?;
    append_reach(alloc, &mut text, ending, bits)?;
    Ok(text)
}

/// The report of two traces that differ: the line of the pair, and their texts.
#[tactic(auto, using(verb_loading::proofs::ReportLaws::report_rules))]
pub(crate) fn report_either(
    alloc: Global,
    staged: &PairCase,
    one: &MomentList,
    other: &MomentList,
) -> Result<ByteList, OutOfMemory>
    ensures { IfOk result (λ text. (bits : ℕ) → text
        ≡ order_text (model_tree staged.now.loaded.case.limited.typed.model) staged.now.asked.first staged.now.asked.second
        (either (told_trace staged.now.loaded.case.limited.typed.model.symbols one.now)
        (told_trace staged.now.loaded.case.limited.typed.model.symbols other.now)) (told_ending Ending.Complete) bits) }
{
    let mut text = pair(alloc, staged.asked.first, staged.asked.second)?;
    text.append(b"either")?;
    text.append(b"\n")?;
    append_traces(
        alloc,
        &mut text,
        &staged.loaded.case.limited.typed,
        one,
        other,
    )?;
    Ok(text)
}

/// Appends two traces, each under its number.
#[tactic(auto, using(verb_loading::proofs::ReportLaws::report_rules))]
fn append_traces(
    alloc: Global,
    text: &mut ByteList,
    typed: &Typed,
    one: &MomentList,
    other: &MomentList,
) -> Result<(), OutOfMemory>
    ensures { OnOk result (text.new ≡ text.old ++ traces_text (model_tree typed.now.model)
        (either (told_trace typed.now.model.symbols one.now) (told_trace typed.now.model.symbols other.now))) }
{
    text.append(b"trace 1\n")?;
    append_trace(alloc, text, typed, one)?;
    text.append(b"trace 2\n")?;
    append_trace(alloc, text, typed, other)
}

/// Appends the text of a trace.
fn append_trace(
    alloc: Global,
    text: &mut ByteList,
    typed: &Typed,
    trace: &MomentList,
) -> Result<(), OutOfMemory>
    ensures { OnOk result (text.new ≡ text.old ++ trace_text (model_tree typed.now.model) (told_trace typed.now.model.symbols trace.now)) }
{
    let lines = print_trace(alloc, typed, trace)?;
    text.append(lines.as_slice())
}

/// The word of the pair with its two numbers.
#[tactic(auto, using(verb_loading::proofs::ReportLaws::report_rules))]
fn pair(alloc: Global, first: u32, second: u32) -> Result<ByteList, OutOfMemory>
    ensures { IfOk result (λ text. text ≡ codes "pair " ++ (decimal first ++ (codes " " ++ (decimal second ++ codes " ")))) }
{
    let mut text = ByteList::from_slice(alloc, b"pair ")?;
    append_number(alloc, &mut text, first)?;
    append_number(alloc, &mut text, second)?;
    Ok(text)
}

/// Appends a number, and a space after it.
#[tactic(auto, using(verb_loading::proofs::ReportLaws::report_rules))]
fn append_number(alloc: Global, text: &mut ByteList, number: u32) -> Result<(), OutOfMemory>
    ensures { OnOk result (text.new ≡ text.old ++ (decimal number ++ codes " ")) }
{
    text.append_number(alloc, u64::from(number))?;
    text.append(b" ")
}

/// The word of a claim.
fn claim_name(claim: Option<Relation>) -> &'static [u8]
    ensures { result.now ≡ claim_word claim }
{
    match claim {
        None => b"none",
        Some(Relation::Before) => b"before",
        Some(Relation::After) => b"after",
        Some(Relation::Together) => b"together",
    }
}

/// Ends the line: where the search was bounded it says how far it went, and over how many bits.
#[tactic(auto, using(verb_loading::proofs::ReportLaws::report_rules))]
fn append_reach(
    alloc: Global,
    text: &mut ByteList,
    ending: Ending,
    bits: u32,
) -> Result<(), OutOfMemory>
    ensures { OnOk result (text.new ≡ text.old ++ reach_text (told_ending ending) bits) }
{
    match ending {
        Ending::Complete => text.append(b"\n"),
        Ending::Bounded(steps) => append_steps(alloc, text, steps, bits),
    }
}

/// Appends so many steps, over so many bits.
#[tactic(auto, using(verb_loading::proofs::ReportLaws::report_rules))]
fn append_steps(
    alloc: Global,
    text: &mut ByteList,
    steps: u32,
    bits: u32,
) -> Result<(), OutOfMemory>
    ensures { OnOk result (text.new ≡ text.old ++ (codes " to " ++ (decimal steps ++ (codes " bits " ++ (decimal bits ++ codes "\n"))))) }
{
    text.append(b" to ")?;
    text.append_number(alloc, u64::from(steps))?;
    text.append(b" bits ")?;
    text.append_number(alloc, u64::from(bits))?;
    text.append(b"\n")
}
