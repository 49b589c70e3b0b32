//! The sets of a report as comma-separated values, a row for each (RFC 4180, with line feeds alone). [`csv_of_sets`] is the main
//! function.
ghost use Rattle.std.specs.Prelude.{◌≡◌, ◌++◌, IfOk, OnOk, codes, map};
ghost use Rattle.std.specs.Fmt.{decimal};
ghost use Rattle.std.specs.List.{list_any};
ghost use Rattle.xsap_reports.specs.Csv.{csv_text, field, is_special, quoted, quoted_byte, row, rows, sets_read};
ghost use Rattle.xsap_reports.specs.Reports.{HasNames, names_in, set_names};

use crate::names::append_names;
use crate::report::Report;
use base_values::{ByteList, OutOfMemory};
use std::alloc::Global;

/// A table with the head `set,size,faults`, and a row for each set: its number from 1, how many faults it has, and their names with a
/// space between them. A field with a comma, a quote or the end of a line in it stands in quotes.
pub fn csv_of_sets(alloc: Global, report: &Report<'_>) -> Result<Vec<u8>, OutOfMemory>
    ensures text { IfOk result (λ text. text.items ≡ csv_text (set_names report.now)) }
    // What any reader of such tables reads back are the sets.
    ensures read_back { HasNames report.now → IfOk result (λ text. sets_read text.items ≡ set_names report.now) }
{
    csv_of(alloc, report)
}

/// The table, as it is written.
#[tactic(auto, using(crate::proofs::TextRules::text_rules))]
fn csv_of(alloc: Global, report: &Report<'_>) -> Result<Vec<u8>, OutOfMemory>
    ensures { IfOk result (λ text. text.items ≡ csv_text (set_names report.now)) }
{
    let mut text = ByteList::new(alloc);
    text.append(b"set,size,faults\n")?;
    append_rows(alloc, &mut text, &report.faults, &report.sets)?;
    Ok(text.into_vec())
}

/// Appends a row for each set.
#[tactic(auto, using(crate::proofs::TextRules::text_rules))]
fn append_rows(
    alloc: Global,
    text: &mut ByteList,
    names: &[&[u8]],
    sets: &[Vec<u32>],
) -> Result<(), OutOfMemory>
    ensures { OnOk result (text.new ≡ text.old ++ rows 1 (map (λ set. names_in names.now set.items) sets.now)) }
{
    for (i, set) in sets.iter().enumerate() {
        append_row(alloc, text, i + 1, names, set)?;
    }
    Ok(())
}

/// Appends the row of a set.
#[tactic(auto, using(crate::proofs::TextRules::text_rules))]
fn append_row(
    alloc: Global,
    text: &mut ByteList,
    number: usize,
    names: &[&[u8]],
    set: &[u32],
) -> Result<(), OutOfMemory>
    ensures { OnOk result (text.new ≡ text.old ++ row number (names_in names.now set.now)) }
{
    append_counts(alloc, text, number, set.len())?;
    let mut joined = ByteList::new(alloc);
    append_names(&mut joined, names, set)?;
    append_field(text, joined.as_slice())?;
    text.append(b"\n")
}

/// Appends two numbers, each before a comma.
#[tactic(auto, using(crate::proofs::TextRules::text_rules))]
fn append_counts(
    alloc: Global,
    text: &mut ByteList,
    number: usize,
    size: usize,
) -> Result<(), OutOfMemory>
    ensures { OnOk result (text.new ≡ text.old ++ (decimal number ++ (codes "," ++ (decimal size ++ codes ",")))) }
{
    text.append_number(alloc, number as u64)?;
    text.append(b",")?;
    text.append_number(alloc, size as u64)?;
    text.append(b",")
}

/// Appends a field, in quotes where it needs them.
#[tactic(auto, using(crate::proofs::TextRules::text_rules))]
fn append_field(text: &mut ByteList, bytes: &[u8]) -> Result<(), OutOfMemory>
    ensures { OnOk result (text.new ≡ text.old ++ field bytes.now) }
{
    if needs_quotes(bytes) {
        text.append(b"\"")?;
        append_quoted(text, bytes)?;
        text.append(b"\"")
    } else {
        text.append(bytes)
    }
}

/// Whether a field stands in quotes.
fn needs_quotes(bytes: &[u8]) -> bool
    ensures { result ≡ list_any is_special bytes.now }
{
    bytes.iter().any(|byte| is_special(*byte))
}

/// Whether a field with this byte stands in quotes.
fn is_special(byte: u8) -> bool
    ensures { result ≡ is_special byte }
{
    byte == b'"' || byte == b',' || byte == b'\n' || byte == b'\r'
}

/// Appends bytes as they stand in quotes.
#[tactic(auto, using(crate::proofs::TextRules::text_rules))]
fn append_quoted(text: &mut ByteList, bytes: &[u8]) -> Result<(), OutOfMemory>
    ensures { OnOk result (text.new ≡ text.old ++ quoted bytes.now) }
{
    for byte in bytes {
        append_quoted_byte(text, *byte)?;
    }
    Ok(())
}

/// Appends a byte as it stands in quotes.
fn append_quoted_byte(text: &mut ByteList, byte: u8) -> Result<(), OutOfMemory>
    ensures { OnOk result (text.new ≡ text.old ++ quoted_byte byte) }
{
    if byte == b'"' {
        text.append(b"\"\"")
    } else {
        text.push(byte)
    }
}
