//! The marks of modes as probabilities in units, and the first mode whose mark is none.
//!
//! The main function is [`marks`]: it judges every mode of the instructions in the order of their items, and then gives each fault the
//! units of its mode, which it finds by the names of slice and mode.
ghost use Rattle.std.specs.Prelude.{◌≡◌, ◌^◌, ◌<◌, ◌≤◌, ◌⊎◌, ◌++◌, flat_map, map, None, IfOk, IfErr, OnOk};
ghost use Rattle.smv_language.specs.ProgramTree.{ProgramTree};
ghost use Rattle.smv_language.specs.Texts.{same_text};
ghost use Rattle.fault_instructions.specs.Instructions.{instruction_tree, extension_tree, slice_tree, mode_tree};
ghost use Rattle.fault_weave.specs.Faults.{HasFaults};
ghost use Rattle.fault_extend.specs.WovenFaults.{fault_tree};
ghost use Rattle.fault_odds.specs.Units.{one_in_units};
ghost use Rattle.fault_odds.specs.Marks.{item_marks as marks_of_items, extension_marks, slice_marks, fault_of_mark};
ghost use Rattle.fault_odds.specs.Marks.{fault_of_units as fault_of_number, HasProbabilities, AreOdds};
ghost use Rattle.fault_odds.specs.FirstMark.{IsWant, IsMarkFault, IsFaultOf, fault_at as fault_at_item, first_of, mark_units};
ghost use Rattle.fault_odds.specs.FirstMark.{mode_units as units_of_modes, units_in_slice as units_of_slice};
ghost use Rattle.fault_odds.specs.FirstMark.{slice_units as units_of_slices, extension_units as units_of_extensions, units_at};

use crate::odds::OddsList;
use crate::units::units_of_mark;
use base_values::{Items, Name, OutOfMemory};
use fault_extend::WovenFault;
use fault_instructions::{Extension, Instructions, MarkList, ModeRule, Slice};
use std::alloc::Global;

/// What is wrong with the mark of a mode.
#[derive(Clone, Copy, Debug, PartialEq, Eq)]
pub enum MarkFault {
    /// It has no mark.
    NoMark,
    /// Its mark is no probability.
    BadMark,
}

/// The first mode whose mark is wrong, by its item number in the instructions, or want of memory.
#[derive(Clone, Copy, Debug, PartialEq, Eq)]
pub enum OddsFault {
    NoMark(u32),
    BadMark(u32),
    OutOfMemory,
}

impl From<OutOfMemory> for OddsFault {
    ghost from_gives = { λ _ fault. IsWant fault };

    fn from(_refused: OutOfMemory) -> OddsFault {
        OddsFault::OutOfMemory
    }
}

/// The units of each fault by the mark of its mode, where every mode of the instructions has a mark that is a
/// probability; else the first mode that has none.
pub fn marks(alloc: Global, i: &Instructions, faults: &[WovenFault]) -> Result<OddsList, OddsFault>
    requires woven { (p : ProgramTree) × HasFaults p (instruction_tree i.now) (map fault_tree faults.now) }
    ensures odds { IfOk result (λ odds. AreOdds (instruction_tree i.now) (map fault_tree faults.now) odds) }
    ensures all { IfOk result (λ odds. HasProbabilities (instruction_tree i.now)) }
    ensures fault { IfErr result (IsMarkFault (instruction_tree i.now)) }
{
    judge(alloc, i)?;
    let odds = odds_of(alloc, i, faults)?;
    Ok(odds)
}

/// Whether every mode has a mark that is a probability; else the first that has none.
fn judge(alloc: Global, i: &Instructions) -> Result<(), OddsFault>
    ensures all { OnOk result (HasProbabilities (instruction_tree i.now)) }
    ensures fault { IfErr result (IsMarkFault (instruction_tree i.now)) }
{
    let marks = item_marks(alloc, i)?;
    judged(first_wrong(marks.as_slice()))
}

/// The number of the first item whose mark is wrong, from 1, and what is wrong with it.
fn first_wrong(marks: &[Option<MarkFault>]) -> Option<(usize, MarkFault)>
    ensures { result ≡ first_of 0 marks.now }
{
    for (i, mark) in marks.iter().enumerate() {
        if let Some(fault) = mark {
            return Some((i + 1, *fault));
        }
    }
    None
}

/// What is told of the first wrong mark.
fn judged(first: Option<(usize, MarkFault)>) -> Result<(), OddsFault>
    ensures all { OnOk result (first ≡ None) }
    ensures fault { IfErr result (IsFaultOf first) }
{
    match first {
        Some((number, fault)) => Err(wrong_at(fault, number)),
        None => Ok(()),
    }
}

/// The fault of an item. More than 2^32 items are too many to be told.
fn wrong_at(fault: MarkFault, number: usize) -> OddsFault
    ensures told { IsWant result ⊎ (result ≡ fault_at_item fault number) }
    ensures fits { number < 2 ^ 32 → result ≡ fault_at_item fault number }
{
    match u32::try_from(number) {
        Ok(item) => fault_at(fault, item),
        Err(_) => OddsFault::OutOfMemory,
    }
}

/// The fault of the item of a number.
fn fault_at(fault: MarkFault, item: u32) -> OddsFault
    ensures { result ≡ fault_at_item fault item }
{
    match fault {
        MarkFault::NoMark => OddsFault::NoMark(item),
        MarkFault::BadMark => OddsFault::BadMark(item),
    }
}

/// What is wrong at each item of the instructions.
#[tactic(auto, using(crate::proofs::MarkLemmas::list_rules))]
fn item_marks(alloc: Global, i: &Instructions) -> Result<Items<Option<MarkFault>>, OutOfMemory>
    ensures { IfOk result (λ marks. marks ≡ marks_of_items (instruction_tree i.now)) }
{
    let mut marks = Items::new(alloc);
    for extension in i.extensions.as_slice() {
        add_extension(extension, &mut marks)?;
    }
    Ok(marks)
}

/// Appends what is wrong at the items of an extension: nothing at its own, and then those of its slices.
#[tactic(auto, using(crate::proofs::MarkLemmas::list_rules))]
fn add_extension(
    extension: &Extension,
    marks: &mut Items<Option<MarkFault>>,
) -> Result<(), OutOfMemory>
    ensures { OnOk result (marks.new ≡ marks.old ++ extension_marks (extension_tree extension.now)) }
{
    marks.push(None)?;
    add_slices(extension.slices.as_slice(), marks)
}

/// Appends what is wrong at the items of slices.
#[tactic(auto, using(crate::proofs::MarkLemmas::list_rules))]
fn add_slices(slices: &[Slice], marks: &mut Items<Option<MarkFault>>) -> Result<(), OutOfMemory>
    ensures { OnOk result (marks.new ≡ marks.old ++ flat_map slice_marks (map slice_tree slices.now)) }
{
    for slice in slices {
        add_slice(slice, marks)?;
    }
    Ok(())
}

/// Appends what is wrong at the items of a slice: nothing at its own, and then those of its modes.
#[tactic(auto, using(crate::proofs::MarkLemmas::list_rules))]
fn add_slice(slice: &Slice, marks: &mut Items<Option<MarkFault>>) -> Result<(), OutOfMemory>
    ensures { OnOk result (marks.new ≡ marks.old ++ slice_marks (slice_tree slice.now)) }
{
    marks.push(None)?;
    add_modes(slice.modes.as_slice(), marks)
}

/// Appends what is wrong with the mark of each mode.
#[tactic(auto, using(crate::proofs::MarkLemmas::list_rules))]
fn add_modes(modes: &[ModeRule], marks: &mut Items<Option<MarkFault>>) -> Result<(), OutOfMemory>
    ensures { OnOk result (marks.new ≡ marks.old ++ map (λ m. fault_of_mark m.mark) (map mode_tree modes.now)) }
{
    for mode in modes {
        marks.push(fault_of(&mode.mark))?;
    }
    Ok(())
}

/// What is wrong with a mark.
fn fault_of(mark: &Option<MarkList>) -> Option<MarkFault>
    ensures { result ≡ fault_of_mark mark.now }
{
    match mark {
        Some(tokens) => fault_of_units(units_of_mark(tokens.as_slice())),
        None => Some(MarkFault::NoMark),
    }
}

/// What is wrong with a mark of these units.
fn fault_of_units(units: Option<u64>) -> Option<MarkFault>
    ensures { result ≡ fault_of_number units }
{
    match units {
        Some(_) => None,
        None => Some(MarkFault::BadMark),
    }
}

/// The units of each fault, by its slice and mode.
#[tactic(auto, using(crate::proofs::MarkLemmas::list_rules))]
fn odds_of(alloc: Global, i: &Instructions, faults: &[WovenFault]) -> Result<OddsList, OutOfMemory>
    ensures { IfOk result (λ odds. odds ≡ map (λ f. units_at (instruction_tree i.now) f.slice f.mode) faults.now) }
{
    let mut odds = OddsList::new(alloc);
    for fault in faults {
        odds.push(units_of_fault(i, &fault.slice, &fault.mode))?;
    }
    Ok(odds)
}

/// The units of a mode of a slice, which are at most one.
fn units_of_fault(i: &Instructions, slice: &Name, mode: &Name) -> u64
    ensures units { result ≡ units_at (instruction_tree i.now) slice.now mode.now }
    ensures small { result ≤ one_in_units }
{
    units_or_zero(i, slice, mode)
}

/// The units of a mode of a slice, or 0 where the instructions have none for it.
fn units_or_zero(i: &Instructions, slice: &Name, mode: &Name) -> u64
    ensures { result ≡ units_at (instruction_tree i.now) slice.now mode.now }
{
    extension_units(i.extensions.as_slice(), slice, mode).unwrap_or(0)
}

/// The units of a mode of a slice in the first extension that has units for it.
fn extension_units(extensions: &[Extension], slice: &Name, mode: &Name) -> Option<u64>
    ensures units { result ≡ units_of_extensions slice.now mode.now (map extension_tree extensions.now) }
{
    for extension in extensions {
        let units = slice_units(extension.slices.as_slice(), slice, mode);
        if units.is_some() {
            return units;
        }
    }
    None
}

/// The units of a mode in the first slice of the name that has units for it.
fn slice_units(slices: &[Slice], slice: &Name, mode: &Name) -> Option<u64>
    ensures { result ≡ units_of_slices slice.now mode.now (map slice_tree slices.now) }
{
    for other in slices {
        let units = units_in_slice(other, slice, mode);
        if units.is_some() {
            return units;
        }
    }
    None
}

/// The units of the mode, where the slice has the name.
fn units_in_slice(other: &Slice, slice: &Name, mode: &Name) -> Option<u64>
    ensures { result ≡ units_of_slice slice.now mode.now (slice_tree other.now) }
{
    if is_named(&other.name, slice) {
        mode_units(other.modes.as_slice(), mode)
    } else {
        None
    }
}

/// The units of the first mode of the name.
fn mode_units(modes: &[ModeRule], mode: &Name) -> Option<u64>
    ensures { result ≡ units_of_modes mode.now (map mode_tree modes.now) }
{
    for other in modes {
        if is_named(&other.name, mode) {
            return units_of_some(&other.mark);
        }
    }
    None
}

/// The units of a mark, where there is one.
fn units_of_some(mark: &Option<MarkList>) -> Option<u64>
    ensures { result ≡ mark_units mark.now }
{
    match mark {
        Some(tokens) => units_of_mark(tokens.as_slice()),
        None => None,
    }
}

/// Whether two names have the same text.
fn is_named(name: &Name, other: &Name) -> bool
    ensures { result ≡ same_text name.now other.now }
{
    name.is_same(other)
}
