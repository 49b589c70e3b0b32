//! The sets of a report as a fault tree for Graphviz: the tree that [`crate::open_psa`] writes. [`dot_of`] is the main function.
//!
//! A house is an `or` and a trapezium an `and`; a box passes on what stands below it, or is always true or always false. An ellipse is a
//! fault. Faults that are in no set are left out.
use crate::endings::append_ending;
use crate::pieces::{append_numbered, number_of};
use crate::report::Report;
use base_values::{ByteList, OutOfMemory};
use std::alloc::Global;

/// The tree in the language DOT: the node `top`, the nodes `s1`, `s2`, .. of the sets and `f1`, `f2`, .. of the faults, each with its label
/// in a line of its own, and a line for the edges from a node. How the analysis ended is the label of the graph.
pub fn dot_of(alloc: Global, report: &Report<'_>) -> Result<Vec<u8>, OutOfMemory> {
    let mut text = ByteList::new(alloc);
    text.append(b"digraph sets {\n  graph [fontname=\"Helvetica\", labelloc=b, label=\"")?;
    append_ending(alloc, &mut text, report)?;
    text.append(b"\"];\n  node [fontname=\"Helvetica\", shape=box];\n  edge [dir=none];\n  top [")?;
    append_top(alloc, &mut text, report.sets.len())?;
    append_sets(alloc, &mut text, &report.sets)?;
    append_faults(alloc, &mut text, &report.faults, &report.sets)?;
    text.append(b"}\n")?;
    Ok(text.into_vec())
}

/// Appends the rest of the node of the top event, and the edges to so many sets.
fn append_top(alloc: Global, text: &mut ByteList, count: usize) -> Result<(), OutOfMemory> {
    match count {
        0 => return text.append(b"label=\"top\\nnever: no set\"];\n"),
        1 => text.append(b"label=\"top\"];\n  top -> {")?,
        _ => text.append(b"shape=house, label=\"top\\nOR\"];\n  top -> {")?,
    }
    for i in 0..count {
        append_numbered(alloc, text, b" s", number_of(i))?;
    }
    text.append(b" };\n")
}

/// Appends the node of each set and its edges.
fn append_sets(alloc: Global, text: &mut ByteList, sets: &[Vec<u32>]) -> Result<(), OutOfMemory> {
    for (i, set) in sets.iter().enumerate() {
        append_set(alloc, text, number_of(i), set)?;
    }
    Ok(())
}

/// Appends the node of a set and its edges.
fn append_set(
    alloc: Global,
    text: &mut ByteList,
    number: u64,
    set: &[u32],
) -> Result<(), OutOfMemory> {
    append_numbered(alloc, text, b"  s", number)?;
    append_numbered(alloc, text, label_of(set.len()), number)?;
    match set.len() {
        0 => return text.append(b"\\nalways: no fault\"];\n"),
        1 => text.append(b"\"];\n")?,
        _ => text.append(b"\\nAND\"];\n")?,
    }
    append_numbered(alloc, text, b"  s", number)?;
    text.append(b" -> {")?;
    for fault in set {
        append_numbered(alloc, text, b" f", u64::from(*fault))?;
    }
    text.append(b" };\n")
}

/// What stands before the number of a set of so many faults.
fn label_of(size: usize) -> &'static [u8] {
    match size {
        0 | 1 => b" [label=\"set ",
        _ => b" [shape=trapezium, label=\"set ",
    }
}

/// Appends the node of each fault that is in a set.
fn append_faults(
    alloc: Global,
    text: &mut ByteList,
    faults: &[&[u8]],
    sets: &[Vec<u32>],
) -> Result<(), OutOfMemory> {
    let used = used_in(alloc, faults.len(), sets)?;
    for (i, (name, is_used)) in faults.iter().zip(used.iter()).enumerate() {
        if *is_used {
            append_fault(alloc, text, number_of(i), name)?;
        }
    }
    Ok(())
}

/// Appends the node of a fault.
fn append_fault(
    alloc: Global,
    text: &mut ByteList,
    number: u64,
    name: &[u8],
) -> Result<(), OutOfMemory> {
    append_numbered(alloc, text, b"  f", number)?;
    text.append(b" [shape=ellipse, label=\"")?;
    append_label(text, name)?;
    text.append(b"\"];\n")
}

/// Of each of so many faults whether it is in a set.
fn used_in(alloc: Global, count: usize, sets: &[Vec<u32>]) -> Result<Vec<bool>, OutOfMemory> {
    let mut used = Vec::new(alloc);
    for _ in 0..count {
        used.push(false)?;
    }
    for set in sets {
        mark(&mut used, set);
    }
    Ok(used)
}

/// Marks the faults of a set.
fn mark(used: &mut Vec<bool>, set: &[u32]) {
    for number in set {
        if let Some(it) = used.get_mut((*number as usize).saturating_sub(1)) {
            *it = true;
        }
    }
}

/// Appends bytes as they stand in a label. Graphviz reads references there too, so that an `&` is one.
fn append_label(text: &mut ByteList, bytes: &[u8]) -> Result<(), OutOfMemory> {
    for byte in bytes {
        match *byte {
            b'"' => text.append(b"\\\"")?,
            b'\\' => text.append(b"\\\\")?,
            b'&' => text.append(b"&amp;")?,
            other => text.push(other)?,
        }
    }
    Ok(())
}
