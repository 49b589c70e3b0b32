//! The sets of a report as a fault tree in the Open-PSA Model Exchange Format. [`open_psa_of`] is the main function.
//!
//! The gate `top` is an `or` of the gates `s1`, `s2`, .. of the sets, and each of these an `and` of the basic events `f1`, `f2`, .. of its
//! faults. Names of faults are no names of that format, so they are the events' labels. Where one argument is left there is no `and` and
//! no `or`, since readers want two; the empty set is the constant true, and no set at all the constant false.
ghost use Rattle.std.specs.Prelude.{◌≡◌, ◌<◌, ◌^◌, ◌++◌, IfOk, OnOk, codes, length, map};
ghost use Rattle.std.specs.Fmt.{decimal};
ghost use Rattle.xsap_reports.specs.Mef.{sets_in_tree};
ghost use Rattle.xsap_reports.specs.MefText.{all_of, any_of, definition, definition_begin, definition_end, definitions, end_of_events};
ghost use Rattle.xsap_reports.specs.MefText.{event_of, events_of, gate_begin, gate_end, gate_of, gates_of, head, middle, set_gate};
ghost use Rattle.xsap_reports.specs.MefText.{set_gates, tree_text};
ghost use Rattle.xsap_reports.specs.Reports.{HasNames, set_names};

use crate::endings::append_ending;
use crate::escapes::append_characters;
use crate::report::Report;
use base_values::{ByteList, OutOfMemory};
use std::alloc::Global;

/// The tree, with how the analysis ended in a comment at the end. It has no probabilities, since a report has none.
pub fn open_psa_of(alloc: Global, report: &Report<'_>) -> Result<Vec<u8>, OutOfMemory>
    // What a reader of such trees finds to be the sets of the gate `top`, by the labels of their events, are the sets.
    ensures read_back { HasNames report.now → IfOk result (λ text. sets_in_tree (codes "top") text.items ≡ set_names report.now) }
{
    let (_faults, _sets) = counts_of(report);
    let rest = rest_of(alloc, report)?;
    with_tree(alloc, report, rest.as_slice())
}

/// How many faults and sets there are: so few that no two of them have the same name in the tree.
fn counts_of(report: &Report<'_>) -> (usize, usize)
    ensures { (length report.now.faults.items < 2 ^ 64) × (length report.now.sets.items < 2 ^ 64) }
{
    (report.faults.len(), report.sets.len())
}

/// What stands behind the tree.
fn rest_of(alloc: Global, report: &Report<'_>) -> Result<ByteList, OutOfMemory> {
    let mut text = ByteList::new(alloc);
    text.append(b"<!-- ")?;
    append_ending(alloc, &mut text, report)?;
    text.append(b" -->\n</opsa-mef>\n")?;
    Ok(text)
}

/// The tree, with this behind it.
#[tactic(auto, using(crate::proofs::TextRules::text_rules))]
fn with_tree(alloc: Global, report: &Report<'_>, rest: &[u8]) -> Result<Vec<u8>, OutOfMemory>
    ensures { IfOk result (λ text. text.items ≡ tree_text report.now rest.now) }
{
    let mut text = ByteList::new(alloc);
    append_gates(alloc, &mut text, &report.sets)?;
    append_events(alloc, &mut text, &report.faults)?;
    text.append(rest)?;
    Ok(text.into_vec())
}

/// Appends the head of the text and the gates of all sets.
#[tactic(auto, using(crate::proofs::TextRules::text_rules))]
fn append_gates(alloc: Global, text: &mut ByteList, sets: &[Vec<u32>]) -> Result<(), OutOfMemory>
    ensures { OnOk result (text.new ≡ text.old
        ++ (head ++ (any_of (map (λ set. set.items) sets.now) ++ (gate_end ++ set_gates 1 (map (λ set. set.items) sets.now))))) }
{
    append_head(text)?;
    append_any(alloc, text, sets)?;
    append_gate_end(text)?;
    append_set_gates(alloc, text, sets)
}

/// Appends what stands before the formula of the gate `top`.
#[tactic(auto, unfolding(crate::specs::MefText::head))]
fn append_head(text: &mut ByteList) -> Result<(), OutOfMemory>
    ensures { OnOk result (text.new ≡ text.old ++ head) }
{
    text.append(
        b"<?xml version=\"1.0\" encoding=\"UTF-8\"?>\n<opsa-mef>\n<define-fault-tree name=\"report\">\n<define-gate name=\"top\">\n",
    )
}

/// Appends the begin of the definition of a gate.
#[tactic(auto, unfolding(crate::specs::MefText::gate_begin))]
fn append_gate_begin(alloc: Global, text: &mut ByteList, number: u64) -> Result<(), OutOfMemory>
    ensures { OnOk result (text.new ≡ text.old ++ gate_begin number) }
{
    append_between(alloc, text, b"<define-gate name=\"s", number, b"\">\n")
}

/// Appends the end of the definition of a gate.
#[tactic(auto, unfolding(crate::specs::MefText::gate_end))]
fn append_gate_end(text: &mut ByteList) -> Result<(), OutOfMemory>
    ensures { OnOk result (text.new ≡ text.old ++ gate_end) }
{
    text.append(b"</define-gate>\n")
}

/// Appends a number between two texts.
#[tactic(auto, using(crate::proofs::TextRules::text_rules))]
fn append_between(
    alloc: Global,
    text: &mut ByteList,
    before: &[u8],
    number: u64,
    after: &[u8],
) -> Result<(), OutOfMemory>
    ensures { OnOk result (text.new ≡ text.old ++ (before.now ++ (decimal number ++ after.now))) }
{
    text.append(before)?;
    text.append_number(alloc, number)?;
    text.append(after)
}

/// Appends that some set fails whole.
#[tactic(auto, using(crate::proofs::TextRules::text_rules))]
fn append_any(alloc: Global, text: &mut ByteList, sets: &[Vec<u32>]) -> Result<(), OutOfMemory>
    ensures { OnOk result (text.new ≡ text.old ++ any_of (map (λ set. set.items) sets.now)) }
{
    match sets {
        [] => text.append(b"<constant value=\"false\"/>\n"),
        [_] => append_gate(alloc, text, 1),
        _ => {
            text.append(b"<or>\n")?;
            append_gates_of(alloc, text, sets)?;
            text.append(b"</or>\n")
        }
    }
}

/// Appends the gate of each set as an argument.
#[tactic(auto, using(crate::proofs::TextRules::text_rules))]
fn append_gates_of(alloc: Global, text: &mut ByteList, sets: &[Vec<u32>]) -> Result<(), OutOfMemory>
    ensures { OnOk result (text.new ≡ text.old ++ gates_of 1 (map (λ set. set.items) sets.now)) }
{
    for (i, _) in sets.iter().enumerate() {
        append_gate(alloc, text, (i + 1) as u64)?;
    }
    Ok(())
}

/// Appends the gate of a set as an argument.
#[tactic(auto, unfolding(crate::specs::MefText::gate_of))]
fn append_gate(alloc: Global, text: &mut ByteList, number: u64) -> Result<(), OutOfMemory>
    ensures { OnOk result (text.new ≡ text.old ++ gate_of number) }
{
    append_between(alloc, text, b"<gate name=\"s", number, b"\"/>\n")
}

/// Appends the definition of the gate of each set.
#[tactic(auto, using(crate::proofs::TextRules::text_rules))]
fn append_set_gates(
    alloc: Global,
    text: &mut ByteList,
    sets: &[Vec<u32>],
) -> Result<(), OutOfMemory>
    ensures { OnOk result (text.new ≡ text.old ++ set_gates 1 (map (λ set. set.items) sets.now)) }
{
    for (i, set) in sets.iter().enumerate() {
        append_set_gate(alloc, text, i + 1, set)?;
    }
    Ok(())
}

/// Appends the definition of the gate of a set.
#[tactic(auto, using(crate::proofs::TextRules::text_rules))]
fn append_set_gate(
    alloc: Global,
    text: &mut ByteList,
    number: usize,
    set: &[u32],
) -> Result<(), OutOfMemory>
    ensures { OnOk result (text.new ≡ text.old ++ set_gate number set.now) }
{
    append_gate_begin(alloc, text, number as u64)?;
    append_all(alloc, text, set)?;
    append_gate_end(text)
}

/// Appends that all faults of a set fail.
#[tactic(auto, using(crate::proofs::TextRules::text_rules))]
fn append_all(alloc: Global, text: &mut ByteList, set: &[u32]) -> Result<(), OutOfMemory>
    ensures { OnOk result (text.new ≡ text.old ++ all_of set.now) }
{
    match set {
        [] => text.append(b"<constant value=\"true\"/>\n"),
        [number] => append_event(alloc, text, u64::from(*number)),
        _ => {
            text.append(b"<and>\n")?;
            append_events_of(alloc, text, set)?;
            text.append(b"</and>\n")
        }
    }
}

/// Appends the basic event of each fault of a set as an argument.
#[tactic(auto, using(crate::proofs::TextRules::text_rules))]
fn append_events_of(alloc: Global, text: &mut ByteList, set: &[u32]) -> Result<(), OutOfMemory>
    ensures { OnOk result (text.new ≡ text.old ++ events_of set.now) }
{
    for number in set {
        append_event(alloc, text, u64::from(*number))?;
    }
    Ok(())
}

/// Appends the basic event of a fault as an argument.
#[tactic(auto, unfolding(crate::specs::MefText::event_of))]
fn append_event(alloc: Global, text: &mut ByteList, number: u64) -> Result<(), OutOfMemory>
    ensures { OnOk result (text.new ≡ text.old ++ event_of number) }
{
    append_between(alloc, text, b"<basic-event name=\"f", number, b"\"/>\n")
}

/// Appends the definitions of the basic events, between what parts the gates from them and what ends the tree.
#[tactic(auto, using(crate::proofs::TextRules::text_rules))]
fn append_events(alloc: Global, text: &mut ByteList, names: &[&[u8]]) -> Result<(), OutOfMemory>
    ensures { OnOk result (text.new ≡ text.old ++ (middle ++ (definitions 1 (map (λ name. name.now) names.now) ++ end_of_events))) }
{
    append_middle(text)?;
    append_definitions(alloc, text, names)?;
    append_end(text)
}

/// Appends what parts the basic events from the gates.
#[tactic(auto, unfolding(crate::specs::MefText::middle))]
fn append_middle(text: &mut ByteList) -> Result<(), OutOfMemory>
    ensures { OnOk result (text.new ≡ text.old ++ middle) }
{
    text.append(b"</define-fault-tree>\n<model-data>\n")
}

/// Appends what stands behind the basic events.
#[tactic(auto, unfolding(crate::specs::MefText::end_of_events))]
fn append_end(text: &mut ByteList) -> Result<(), OutOfMemory>
    ensures { OnOk result (text.new ≡ text.old ++ end_of_events) }
{
    text.append(b"</model-data>\n")
}

/// Appends the definition of each basic event.
#[tactic(auto, using(crate::proofs::TextRules::text_rules))]
fn append_definitions(
    alloc: Global,
    text: &mut ByteList,
    names: &[&[u8]],
) -> Result<(), OutOfMemory>
    ensures { OnOk result (text.new ≡ text.old ++ definitions 1 (map (λ name. name.now) names.now)) }
{
    for (i, name) in names.iter().enumerate() {
        append_definition(alloc, text, i + 1, name)?;
    }
    Ok(())
}

/// Appends the definition of a basic event.
#[tactic(auto, using(crate::proofs::TextRules::text_rules))]
fn append_definition(
    alloc: Global,
    text: &mut ByteList,
    number: usize,
    name: &[u8],
) -> Result<(), OutOfMemory>
    ensures { OnOk result (text.new ≡ text.old ++ definition number name.now) }
{
    append_definition_begin(alloc, text, number as u64)?;
    append_characters(text, name)?;
    append_definition_end(text)
}

/// Appends the begin of the definition of a basic event.
#[tactic(auto, unfolding(crate::specs::MefText::definition_begin))]
fn append_definition_begin(
    alloc: Global,
    text: &mut ByteList,
    number: u64,
) -> Result<(), OutOfMemory>
    ensures { OnOk result (text.new ≡ text.old ++ definition_begin number) }
{
    append_between(
        alloc,
        text,
        b"<define-basic-event name=\"f",
        number,
        b"\">\n<label>",
    )
}

/// Appends the end of the definition of a basic event.
#[tactic(auto, unfolding(crate::specs::MefText::definition_end))]
fn append_definition_end(text: &mut ByteList) -> Result<(), OutOfMemory>
    ensures { OnOk result (text.new ≡ text.old ++ definition_end) }
{
    text.append(b"</label>\n</define-basic-event>\n")
}
