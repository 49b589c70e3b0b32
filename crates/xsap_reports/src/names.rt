//! The names of the faults of a set.
ghost use Rattle.std.specs.Prelude.{◌≡◌, ◌++◌, OnOk};
ghost use Rattle.xsap_reports.specs.Csv.{joined, spaced};
ghost use Rattle.xsap_reports.specs.Reports.{name_at, names_in};

use base_values::{ByteList, OutOfMemory};

/// Appends the names of the faults of these numbers, with a space between them.
#[tactic(auto, using(crate::proofs::TextRules::text_rules))]
pub(crate) fn append_names(
    text: &mut ByteList,
    names: &[&[u8]],
    numbers: &[u32],
) -> Result<(), OutOfMemory>
    ensures { OnOk result (text.new ≡ text.old ++ joined (names_in names.now numbers.now)) }
{
    match numbers {
        [] => Ok(()),
        [first, more @ ..] => {
            text.append(name_at(names, *first))?;
            append_spaced(text, names, more)
        }
    }
}

/// Appends each name after a space.
#[tactic(auto, using(crate::proofs::TextRules::text_rules))]
fn append_spaced(text: &mut ByteList, names: &[&[u8]], numbers: &[u32]) -> Result<(), OutOfMemory>
    ensures { OnOk result (text.new ≡ text.old ++ spaced (names_in names.now numbers.now)) }
{
    for number in numbers {
        text.append(b" ")?;
        text.append(name_at(names, *number))?;
    }
    Ok(())
}

/// Appends the names of a set, or that it has none.
pub(crate) fn append_set(
    text: &mut ByteList,
    names: &[&[u8]],
    numbers: &[u32],
) -> Result<(), OutOfMemory> {
    if numbers.is_empty() {
        text.append(b"no fault")
    } else {
        append_names(text, names, numbers)
    }
}

/// The name of the fault of a number, from 1; nothing where there is none.
pub(crate) fn name_at<'a>(names: &[&'a [u8]], number: u32) -> &'a [u8]
    ensures { result.now ≡ name_at names.now number }
{
    match names.get((number as usize).saturating_sub(1)) {
        Some(name) => name,
        None => b"",
    }
}
