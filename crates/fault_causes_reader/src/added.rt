//! The names that causes add, and whether they are taken.
//!
//! [`cause_names`] are the names that one cause adds, and [`own_names`] those that are added for a fault after all causes.
ghost use Rattle.std.specs.Prelude.{◌≡◌, IfOk, OnOk};
ghost use Rattle.std.specs.List.{list_any};
ghost use Rattle.smv_language.specs.Texts.{is_among};
ghost use Rattle.fault_rules.specs.KeyedLists.{with_texts};
ghost use Rattle.fault_cause_laws.specs.CauseRules.{names_of_cause, own_names as names_of_own};
ghost use Rattle.fault_causes_reader.specs.StageView.{written_tree};

use crate::written::Written;
use base_values::{NameList, OutOfMemory};
use fault_rules::TextSet;
use fault_staging::names::{joined, numbered};
use std::alloc::Global;

/// The names that a cause adds.
pub(crate) fn cause_names(alloc: Global, cause: &Written) -> Result<NameList, OutOfMemory>
    ensures { IfOk result (λ names. names ≡ names_of_cause (written_tree cause.now)) }
{
    let mut names = NameList::new(alloc);
    let text = cause.name.text();
    names.push(joined(alloc, text, b"#age")?)?;
    names.push(joined(alloc, text, b"#event")?)?;
    names.push(joined(alloc, text, b"#quiet")?)?;
    names.push(joined(alloc, text, b"#now")?)?;
    for i in 0..cause.strikes.len() {
        names.push(numbered(alloc, text, b"#hit#", i + 1)?)?;
    }
    Ok(names)
}

/// The names that are added for the fault of a number.
pub(crate) fn own_names(alloc: Global, number: usize) -> Result<NameList, OutOfMemory>
    ensures { IfOk result (λ names. names ≡ names_of_own number 1) }
{
    let mut names = NameList::new(alloc);
    names.push(numbered(alloc, b"own#", b"", number)?)?;
    names.push(numbered(alloc, b"none#", b"", number)?)?;
    names.push(numbered(alloc, b"self#", b"", number)?)?;
    Ok(names)
}

/// Whether some name is among the texts.
pub(crate) fn is_any_taken(taken: &TextSet, names: &NameList) -> bool
    ensures { result ≡ list_any (λ x. is_among taken.now x) names.now }
{
    names.as_slice().iter().any(|name| taken.has(name.text()))
}

/// Adds names to the texts.
pub(crate) fn add_names(taken: &mut TextSet, names: &NameList) -> Result<(), OutOfMemory>
    ensures { OnOk result (taken.new ≡ with_texts taken.old names.now) }
{
    let names = names.as_slice();
    for i in 0..names.len() {
        taken.add(names[i].text())?;
    }
    Ok(())
}
