//! The text of a table. All text goes to the end of one buffer, so the work is linear in the text.
//!
//! The main function is [`print_table`].
ghost use Rattle.std.specs.Prelude.{◌≡◌, ◌+◌, ◌++◌, ℕ, List, codes, map, length, IfOk, OnOk};
ghost use Rattle.std.specs.Fmt.{decimal};
ghost use Rattle.cut_text_laws.specs.Analysis.{Analysis};
ghost use Rattle.cut_text_laws.specs.AnalysisText.{numbers_text, ending_text as text_of_ending};
ghost use Rattle.cut_tables.specs.Tables.{entry_text as text_of_entry, entries_text, table_text};
ghost use Rattle.cut_tables.specs.Columns.{told_entry, IsTableOf, ending_line, ending_lines, entry_line, entry_lines, line_at};
ghost use Rattle.cut_tables.specs.Columns.{printed_table};
ghost use Rattle.cut_text_laws.specs.Analysis.{told_ending};

use crate::columns::{EntryList, FmeaTable, TableEntry};
use base_values::{ByteList, Ending, FaultSet, OutOfMemory};
use std::alloc::Global;

/// The text of a table after the lines of the faults, which the caller gives: how many columns there are, how each
/// ends, and a line for each row. The bits are those of a state.
pub fn print_table(
    alloc: Global,
    fault_lines: &[u8],
    bits: u32,
    t: &FmeaTable,
) -> Result<Vec<u8>, OutOfMemory>
    ensures text { IfOk result (λ text. text.items ≡ printed_table fault_lines.now bits t.now) }
    // The text of a table of analyses is theirs.
    ensures table { IfOk result (λ text. (faults size : ℕ) (columns : List Analysis) →
        IsTableOf faults size columns t.now → text.items ≡ table_text fault_lines.now bits faults size columns) }
{
    text_of(alloc, fault_lines, bits, t)
}

/// The text of a table, by its own fields.
#[tactic(auto, using(crate::proofs::TextLaws::text_rules))]
fn text_of(
    alloc: Global,
    fault_lines: &[u8],
    bits: u32,
    t: &FmeaTable,
) -> Result<Vec<u8>, OutOfMemory>
    ensures { IfOk result (λ text. text.items ≡ printed_table fault_lines.now bits t.now) }
{
    let mut text = ByteList::new(alloc);
    text.append(fault_lines)?;
    append_table(alloc, &mut text, bits, t)?;
    Ok(text.into_vec())
}

/// Appends the lines of a table.
#[tactic(auto, using(crate::proofs::TextLaws::text_rules))]
fn append_table(
    alloc: Global,
    text: &mut ByteList,
    bits: u32,
    t: &FmeaTable,
) -> Result<(), OutOfMemory>
    ensures { OnOk result (text.new ≡ text.old ++ (codes "tops " ++ (decimal (length t.now.endings)
        ++ (codes "\n" ++ (ending_lines bits 1 (map told_ending t.now.endings)
        ++ entry_lines t.now.rows (map (map told_entry) t.now.entries)))))) }
{
    text.append(b"tops ")?;
    text.append_number(alloc, t.endings.len() as u64)?;
    text.append(b"\n")?;
    append_endings(alloc, text, bits, t.endings.as_slice())?;
    append_rows(alloc, text, t.rows.as_slice(), t.entries.as_slice())
}

/// Appends a line for each column's ending.
#[tactic(auto, using(crate::proofs::TextLaws::text_rules))]
fn append_endings(
    alloc: Global,
    text: &mut ByteList,
    bits: u32,
    endings: &[Ending],
) -> Result<(), OutOfMemory>
    ensures { OnOk result (text.new ≡ text.old ++ ending_lines bits 1 (map told_ending endings.now)) }
{
    for (i, ending) in endings.iter().enumerate() {
        append_ending_line(alloc, text, bits, i + 1, *ending)?;
    }
    Ok(())
}

/// Appends the line of a column's ending.
#[tactic(auto, using(crate::proofs::TextLaws::text_rules))]
fn append_ending_line(
    alloc: Global,
    text: &mut ByteList,
    bits: u32,
    number: usize,
    ending: Ending,
) -> Result<(), OutOfMemory>
    ensures { OnOk result (text.new ≡ text.old ++ ending_line bits number (told_ending ending)) }
{
    text.append(b"top ")?;
    text.append_number(alloc, number as u64)?;
    text.append(b" ")?;
    append_ending(alloc, text, bits, ending)?;
    text.append(b"\n")
}

/// Appends how a column ends.
#[tactic(auto, using(crate::proofs::TextLaws::text_rules))]
fn append_ending(
    alloc: Global,
    text: &mut ByteList,
    bits: u32,
    ending: Ending,
) -> Result<(), OutOfMemory>
    ensures { OnOk result (text.new ≡ text.old ++ text_of_ending (told_ending ending) bits) }
{
    match ending {
        Ending::Complete => text.append(b"complete"),
        Ending::Bounded(steps) => {
            text.append(b"bounded ")?;
            text.append_number(alloc, u64::from(steps))?;
            text.append(b" bits ")?;
            text.append_number(alloc, u64::from(bits))
        }
    }
}

/// Appends a line for each row that has entries.
#[tactic(auto, using(crate::proofs::TextLaws::text_rules))]
fn append_rows(
    alloc: Global,
    text: &mut ByteList,
    rows: &[FaultSet],
    entries: &[EntryList],
) -> Result<(), OutOfMemory>
    ensures { OnOk result (text.new ≡ text.old ++ entry_lines rows.now (map (map told_entry) entries.now)) }
{
    for (i, row) in rows.iter().enumerate() {
        append_row_at(alloc, text, row.as_slice(), entries, i)?;
    }
    Ok(())
}

/// Appends the line of a row, where the place has entries.
fn append_row_at(
    alloc: Global,
    text: &mut ByteList,
    row: &[u32],
    entries: &[EntryList],
    place: usize,
) -> Result<(), OutOfMemory>
    ensures { OnOk result (text.new ≡ text.old ++ line_at row.now (map (map told_entry) entries.now) place) }
{
    match entries.get(place) {
        Some(list) => append_row(alloc, text, row, list.as_slice()),
        None => Ok(()),
    }
}

/// Appends the line of a row.
#[tactic(auto, using(crate::proofs::TextLaws::text_rules))]
fn append_row(
    alloc: Global,
    text: &mut ByteList,
    row: &[u32],
    entries: &[TableEntry],
) -> Result<(), OutOfMemory>
    ensures { OnOk result (text.new ≡ text.old ++ entry_line row.now (map told_entry entries.now)) }
{
    text.append(b"row")?;
    append_numbers(alloc, text, row)?;
    text.append(b" :")?;
    append_entries(text, entries)?;
    text.append(b"\n")
}

/// Appends each number after a space.
#[tactic(auto, using(crate::proofs::TextLaws::text_rules))]
fn append_numbers(alloc: Global, text: &mut ByteList, numbers: &[u32]) -> Result<(), OutOfMemory>
    ensures { OnOk result (text.new ≡ text.old ++ numbers_text numbers.now) }
{
    for number in numbers {
        text.append(b" ")?;
        text.append_number(alloc, u64::from(*number))?;
    }
    Ok(())
}

/// Appends each entry after a space.
#[tactic(auto, using(crate::proofs::TextLaws::text_rules))]
fn append_entries(text: &mut ByteList, entries: &[TableEntry]) -> Result<(), OutOfMemory>
    ensures { OnOk result (text.new ≡ text.old ++ entries_text (map told_entry entries.now)) }
{
    for entry in entries {
        text.append(entry_text(*entry))?;
    }
    Ok(())
}

/// The text of an entry, after a space.
fn entry_text(entry: TableEntry) -> &'static [u8]
    ensures { result.now ≡ text_of_entry (told_entry entry) }
{
    match entry {
        TableEntry::Yes => b" yes",
        TableEntry::No => b" no",
        TableEntry::Unknown => b" unknown",
    }
}
