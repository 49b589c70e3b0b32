//! What changed from one report to another: [`changes_of`] compares their sets by the names of their faults, and
//! [`Changes::text`] writes what came of it.
ghost use Rattle.std.specs.Prelude.{◌≡◌, ◌||◌, IfOk, map, not};
ghost use Rattle.std.specs.List.{list_any};
ghost use Rattle.xsap_reports.specs.Changes.{is_among, is_listed, is_same_set, is_within};
ghost use Rattle.xsap_reports.specs.Reports.{names_in, set_names};

use crate::endings::append_ending;
use crate::names::{append_set, name_at};
use crate::report::{Report, ReportEnding};
use base_values::{ByteList, OutOfMemory};
use std::alloc::Global;

/// What two reports have in common.
#[derive(Drop)]
pub struct Changes {
    /// Of each set of the old report, whether it is one of the new one.
    pub stays: Vec<bool>,
    /// Of each set of the new report, whether it is one of the old one.
    pub was_there: Vec<bool>,
    /// Whether both ended alike: complete, or bounded by as many steps; with as large sets, and a first moment in both or in none.
    pub ends_alike: bool,
}

/// Compares two reports. Two sets are the same where they have the same names, whatever the numbers of the faults are.
pub fn changes_of(alloc: Global, old: &Report<'_>, new: &Report<'_>) -> Result<Changes, OutOfMemory>
    ensures stays { IfOk result (λ changes. changes.stays.items ≡ map (is_listed (set_names new.now)) (set_names old.now)) }
    ensures was_there { IfOk result (λ changes. changes.was_there.items ≡ map (is_listed (set_names old.now)) (set_names new.now)) }
{
    let stays = listed_in(alloc, old, new)?;
    let was_there = listed_in(alloc, new, old)?;
    Ok(Changes {
        stays,
        was_there,
        ends_alike: end_alike(old, new),
    })
}

/// Of each set of a report, whether it is one of another.
fn listed_in(
    alloc: Global,
    report: &Report<'_>,
    other: &Report<'_>,
) -> Result<Vec<bool>, OutOfMemory>
    ensures { IfOk result (λ listed. listed.items ≡ map (is_listed (set_names other.now)) (set_names report.now)) }
{
    let mut listed = Vec::new(alloc);
    for set in &report.sets {
        listed.push(is_listed(other, &report.faults, set))?;
    }
    Ok(listed)
}

/// Whether a set, by the names of its faults, is one of a report.
#[tactic(auto, unfolding(crate::specs::Changes::is_listed))]
fn is_listed(report: &Report<'_>, faults: &[&[u8]], set: &[u32]) -> bool
    ensures { result ≡ is_listed (set_names report.now) (names_in faults.now set.now) }
{
    for other in &report.sets {
        if is_same_set(faults, set, &report.faults, other) {
            return true;
        }
    }
    false
}

/// Whether two sets have the same names.
#[tactic(auto, unfolding(crate::specs::Changes::is_same_set))]
fn is_same_set(faults: &[&[u8]], set: &[u32], others: &[&[u8]], other: &[u32]) -> bool
    ensures { result ≡ is_same_set (names_in faults.now set.now) (names_in others.now other.now) }
{
    is_within(others, other, faults, set) && is_within(faults, set, others, other)
}

/// Whether each name of a set is one of another.
fn is_within(others: &[&[u8]], other: &[u32], faults: &[&[u8]], set: &[u32]) -> bool
    ensures { result ≡ is_within (names_in others.now other.now) (names_in faults.now set.now) }
{
    for number in set {
        if !is_among(others, other, name_at(faults, *number)) {
            return false;
        }
    }
    true
}

/// Whether a name is one of a set.
fn is_among(faults: &[&[u8]], set: &[u32], name: &[u8]) -> bool
    ensures { result ≡ is_among (names_in faults.now set.now) name.now }
{
    for number in set {
        if name_at(faults, *number) == name {
            return true;
        }
    }
    false
}

/// Whether two reports ended alike.
fn end_alike(old: &Report<'_>, new: &Report<'_>) -> bool {
    old.has_first == new.has_first && old.size == new.size && reach_alike(old.ending, new.ending)
}

/// Whether the sets of two reports are all for the same traces.
fn reach_alike(old: ReportEnding, new: ReportEnding) -> bool {
    match (old, new) {
        (ReportEnding::Complete, ReportEnding::Complete) => true,
        (ReportEnding::Bounded { steps: old, .. }, ReportEnding::Bounded { steps: new, .. }) => old
            == new,
        _ => false,
    }
}

impl Changes {
    /// Whether a set is gone or has come, or the reports did not end alike.
    pub fn is_any(&self) -> bool
        ensures { result ≡ (not self.now.ends_alike || (list_any not self.now.stays.items || list_any not self.now.was_there.items)) }
    {
        !self.ends_alike || has_false(&self.stays) || has_false(&self.was_there)
    }

    /// How both reports ended, and the sets that are gone, those that have come, and those that stay, each group in the order of its
    /// report, with `-`, `+` or `=` before each set.
    pub fn text(
        &self,
        alloc: Global,
        old: &Report<'_>,
        new: &Report<'_>,
    ) -> Result<Vec<u8>, OutOfMemory> {
        let mut text = ByteList::new(alloc);
        append_head(alloc, &mut text, b"old: sets ", old)?;
        append_head(alloc, &mut text, b"new: sets ", new)?;
        append_count(alloc, &mut text, b"gone ", count_of(&self.stays, false))?;
        append_sets(&mut text, b"- ", old, &self.stays, false)?;
        append_count(alloc, &mut text, b"come ", count_of(&self.was_there, false))?;
        append_sets(&mut text, b"+ ", new, &self.was_there, false)?;
        append_count(alloc, &mut text, b"same ", count_of(&self.stays, true))?;
        append_sets(&mut text, b"= ", old, &self.stays, true)?;
        Ok(text.into_vec())
    }
}

/// Whether one of these is false.
fn has_false(listed: &[bool]) -> bool
    ensures { result ≡ list_any not listed.now }
{
    listed.iter().any(|it| !*it)
}

/// How many of these are as wanted.
fn count_of(listed: &[bool], wanted: bool) -> usize {
    listed.iter().filter(|it| **it == wanted).count()
}

/// Appends how many sets a report has, and how it ended.
fn append_head(
    alloc: Global,
    text: &mut ByteList,
    head: &[u8],
    report: &Report<'_>,
) -> Result<(), OutOfMemory> {
    text.append(head)?;
    text.append_number(alloc, report.sets.len() as u64)?;
    text.append(b"; ")?;
    append_ending(alloc, text, report)?;
    text.append(b"\n")
}

/// Appends the head of a group of so many sets.
fn append_count(
    alloc: Global,
    text: &mut ByteList,
    head: &[u8],
    count: usize,
) -> Result<(), OutOfMemory> {
    text.append(b"\n")?;
    text.append(head)?;
    text.append_number(alloc, count as u64)?;
    text.append(b"\n")
}

/// Appends the sets of which it was found as wanted.
fn append_sets(
    text: &mut ByteList,
    sign: &[u8],
    report: &Report<'_>,
    listed: &[bool],
    wanted: bool,
) -> Result<(), OutOfMemory> {
    for (set, found) in report.sets.iter().zip(listed.iter()) {
        if *found == wanted {
            text.append(sign)?;
            append_set(text, &report.faults, set)?;
            text.append(b"\n")?;
        }
    }
    Ok(())
}
