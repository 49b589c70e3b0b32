//! The sets of a report as JSON: strings, numbers, and an object for each set.
ghost use Rattle.std.specs.Prelude.{◌≡◌, ◌<◌, ◌++◌, OnOk, codes, map};
ghost use Rattle.std.specs.Fmt.{decimal};
ghost use Rattle.xsap_reports.specs.JsonText.{behind_commas, escaped, escaped_byte, hex_digit, more_numbers, more_strings, numbers};
ghost use Rattle.xsap_reports.specs.JsonText.{quoted_string, set_object, strings, with_commas};
ghost use Rattle.xsap_reports.specs.Reports.{names_in};

use crate::names::name_at;
use crate::words::is_plain;
use base_values::{ByteList, OutOfMemory};
use std::alloc::Global;

/// Appends an object for each set, with commas between.
#[tactic(auto, using(crate::proofs::TextRules::text_rules))]
pub(crate) fn append_sets(
    alloc: Global,
    text: &mut ByteList,
    faults: &[&[u8]],
    sets: &[Vec<u32>],
) -> Result<(), OutOfMemory>
    ensures { OnOk result (text.new
        ≡ text.old ++ with_commas (map (λ set. set_object (names_in faults.now set.items) set.items) sets.now)) }
{
    match sets {
        [] => Ok(()),
        [first, more @ ..] => {
            append_set(alloc, text, faults, first)?;
            append_more_sets(alloc, text, faults, more)
        }
    }
}

/// Appends an object for each set, behind a comma.
#[tactic(auto, using(crate::proofs::TextRules::text_rules))]
fn append_more_sets(
    alloc: Global,
    text: &mut ByteList,
    faults: &[&[u8]],
    sets: &[Vec<u32>],
) -> Result<(), OutOfMemory>
    ensures { OnOk result (text.new
        ≡ text.old ++ behind_commas (map (λ set. set_object (names_in faults.now set.items) set.items) sets.now)) }
{
    for set in sets {
        text.append(b",")?;
        append_set(alloc, text, faults, set)?;
    }
    Ok(())
}

/// Appends the object of a set.
#[tactic(auto, using(crate::proofs::TextRules::text_rules), unfolding(crate::specs::JsonText::set_object))]
fn append_set(
    alloc: Global,
    text: &mut ByteList,
    faults: &[&[u8]],
    set: &[u32],
) -> Result<(), OutOfMemory>
    ensures { OnOk result (text.new ≡ text.old ++ set_object (names_in faults.now set.now) set.now) }
{
    text.append(b"{\"names\":[")?;
    append_names(text, faults, set)?;
    text.append(b"],\"numbers\":[")?;
    append_numbers(alloc, text, set)?;
    text.append(b"]}")
}

/// Appends the names of a set as strings, with commas between.
#[tactic(auto, using(crate::proofs::TextRules::text_rules))]
fn append_names(text: &mut ByteList, faults: &[&[u8]], set: &[u32]) -> Result<(), OutOfMemory>
    ensures { OnOk result (text.new ≡ text.old ++ strings (names_in faults.now set.now)) }
{
    match set {
        [] => Ok(()),
        [first, more @ ..] => {
            append_string(text, name_at(faults, *first))?;
            append_more_names(text, faults, more)
        }
    }
}

/// Appends names as strings, each behind a comma.
#[tactic(auto, using(crate::proofs::TextRules::text_rules))]
fn append_more_names(text: &mut ByteList, faults: &[&[u8]], set: &[u32]) -> Result<(), OutOfMemory>
    ensures { OnOk result (text.new ≡ text.old ++ more_strings (names_in faults.now set.now)) }
{
    for number in set {
        text.append(b",")?;
        append_string(text, name_at(faults, *number))?;
    }
    Ok(())
}

/// Appends numbers with commas between.
#[tactic(auto, using(crate::proofs::TextRules::text_rules))]
fn append_numbers(alloc: Global, text: &mut ByteList, list: &[u32]) -> Result<(), OutOfMemory>
    ensures { OnOk result (text.new ≡ text.old ++ numbers list.now) }
{
    match list {
        [] => Ok(()),
        [first, more @ ..] => {
            text.append_number(alloc, u64::from(*first))?;
            append_more_numbers(alloc, text, more)
        }
    }
}

/// Appends numbers, each behind a comma.
#[tactic(auto, using(crate::proofs::TextRules::text_rules))]
fn append_more_numbers(alloc: Global, text: &mut ByteList, list: &[u32]) -> Result<(), OutOfMemory>
    ensures { OnOk result (text.new ≡ text.old ++ more_numbers list.now) }
{
    for number in list {
        text.append(b",")?;
        text.append_number(alloc, u64::from(*number))?;
    }
    Ok(())
}

/// Appends bytes as a string.
#[tactic(auto, using(crate::proofs::TextRules::text_rules))]
pub(crate) fn append_string(text: &mut ByteList, bytes: &[u8]) -> Result<(), OutOfMemory>
    ensures { OnOk result (text.new ≡ text.old ++ quoted_string bytes.now) }
{
    text.append(b"\"")?;
    append_escaped(text, bytes)?;
    text.append(b"\"")
}

/// Appends bytes as they stand in a string.
#[tactic(auto, using(crate::proofs::TextRules::text_rules))]
fn append_escaped(text: &mut ByteList, bytes: &[u8]) -> Result<(), OutOfMemory>
    ensures { OnOk result (text.new ≡ text.old ++ escaped bytes.now) }
{
    for byte in bytes {
        append_escaped_byte(text, *byte)?;
    }
    Ok(())
}

/// Appends a byte as it stands in a string.
#[tactic(auto, using(crate::proofs::TextRules::text_rules))]
fn append_escaped_byte(text: &mut ByteList, byte: u8) -> Result<(), OutOfMemory>
    ensures { OnOk result (text.new ≡ text.old ++ escaped_byte byte) }
{
    if byte == b'"' {
        text.append(b"\\\"")
    } else if byte == b'\\' {
        text.append(b"\\\\")
    } else if is_plain(byte) {
        text.push(byte)
    } else {
        text.append(&[
            b'\\',
            b'u',
            b'0',
            b'0',
            hex_digit(byte / 16),
            hex_digit(byte % 16),
        ])
    }
}

/// The hexadecimal digit of a number below 16.
fn hex_digit(number: u8) -> u8
    requires { number < 16 }
    ensures { result ≡ hex_digit number }
{
    if number < 10 {
        b'0' + number
    } else {
        87 + number
    }
}
