//! The rules of causes, over the faults of an extension and the names of the woven program.
//!
//! The main function is [`lawful`]: it judges the causes in the order of their file, and then gives each the faults that it strikes by
//! their numbers.
ghost use Rattle.std.specs.Prelude.{◌≡◌, ◌^◌, ◌<◌, None, [], true, false, length, map, flat_map, option_map, IfOk, IfErr, IsOk, OnOk};
ghost use Rattle.std.specs.List.{list_any};
ghost use Rattle.smv_language.specs.Texts.{same_text};
ghost use Rattle.smv_language.specs.ProgramTree.{program_tree};
ghost use Rattle.fault_rules.specs.KeyedLists.{with_texts};
ghost use Rattle.fault_cause_laws.specs.CauseRules.{names_of_cause, is_path_among};
ghost use Rattle.fault_staging.specs.CauseOf.{cause_of};
ghost use Rattle.fault_causes_reader.specs.FaultPaths.{paths_of};
ghost use Rattle.fault_causes_reader.specs.declared.written.Written.{Written};
ghost use Rattle.fault_causes_reader.specs.StageView.{written_tree, written_trees};
ghost use Rattle.fault_causes_reader.specs.BrokenRules.{rule_of, bound_broken, broken_by, first_broken, are_owns_among, owns_told, Tells};
ghost use Rattle.fault_causes_reader.specs.BrokenRules.{TellsFirst, taken_in};
ghost use Rattle.fault_causes_reader.specs.CausesFile.{IsNumberOf, IsReadIn};
ghost use Rattle.smv_language.specs.Trace.{EachBoth};

use crate::added::{add_names, cause_names, is_any_taken, own_names};
use crate::fault::{CauseFault, CauseRule};
use crate::paths::{has_double, has_text, is_same_path, names_no_fault};
use crate::written::{Written, WrittenList};
use base_values::limits::{LONGEST_WINDOW, MOST_EVENTS};
use base_values::{FaultSet, Name, NameList, OutOfMemory};
use fault_rules::{TextSet, program_names};
use fault_staging::{Cause, CauseList};
use smv_language::Program;
use smv_language::model::{Fault, FaultList};
use std::alloc::Global;

/// The causes with the faults that they strike by their numbers, where no rule is broken.
pub(crate) fn lawful(
    alloc: Global,
    faults: &FaultList,
    w: &Program,
    written: &WrittenList,
) -> Result<CauseList, CauseFault>
    ensures kept { OnOk result (first_broken (paths_of faults.now) (taken_in (program_tree w.now)) [] (written_trees written.now) ≡ None) }
    ensures free { OnOk result
        (are_owns_among (with_texts (taken_in (program_tree w.now)) (flat_map names_of_cause (written_trees written.now)))
        (length faults.now) ≡ false) }
    ensures read { IfOk result (λ causes. EachBoth (IsReadIn (paths_of faults.now)) (written_trees written.now) (map cause_of causes)) }
    ensures told { IfErr result
        (λ fault. TellsFirst fault (first_broken (paths_of faults.now) (taken_in (program_tree w.now)) [] (written_trees written.now))
        (are_owns_among (with_texts (taken_in (program_tree w.now)) (flat_map names_of_cause (written_trees written.now)))
        (length faults.now))) }
{
    let mut names = program_names(alloc, w)?;
    judge_causes(alloc, faults.as_slice(), written.as_slice(), &mut names)?;
    judge_owns(alloc, faults.len(), &names)?;
    Ok(numbered_causes(alloc, faults.as_slice(), written.as_slice())?)
}

/// Refuses the first cause that breaks a rule. The names that causes add are put to those that are taken.
fn judge_causes(
    alloc: Global,
    faults: &[Fault],
    written: &[Written],
    names: &mut TextSet,
) -> Result<(), CauseFault>
    ensures kept { OnOk result (first_broken (paths_of faults.now) names.old [] (written_trees written.now) ≡ None) }
    ensures names { OnOk result (names.new ≡ with_texts names.old (flat_map names_of_cause (written_trees written.now))) }
    ensures told { IfErr result (λ fault. Tells fault (first_broken (paths_of faults.now) names.old [] (written_trees written.now))) }
{
    for i in 0..written.len() {
        let cause = &written[i];
        if let Some(rule) = broken(alloc, faults, &written[..i], names, cause)? {
            return Err(CauseFault::Broken(rule, number_of(i + 1)?));
        }
        add_names(names, &cause_names(alloc, cause)?)?;
    }
    Ok(())
}

/// A count as a number of 32 bits. A larger one counts as want of memory.
fn number_of(count: usize) -> Result<u32, OutOfMemory>
    ensures same { IfOk result (λ number. number ≡ count) }
    ensures fits { count < 2 ^ 32 → IsOk result }
{
    u32::try_from(count).map_err(|_too_large| OutOfMemory)
}

/// The first rule that a cause breaks after others.
fn broken(
    alloc: Global,
    faults: &[Fault],
    before: &[Written],
    names: &TextSet,
    cause: &Written,
) -> Result<Option<CauseRule>, OutOfMemory>
    ensures { IfOk result (λ o. option_map rule_of o
        ≡ broken_by (paths_of faults.now) names.now (written_trees before.now) (written_tree cause.now)) }
{
    if names_no_fault(faults, cause.strikes.as_slice()) {
        Ok(Some(CauseRule::NoSuchFault))
    } else if has_cause(before, &cause.name) {
        Ok(Some(CauseRule::DoubleCause))
    } else if has_double(cause.strikes.as_slice()) {
        Ok(Some(CauseRule::DoubleStrike))
    } else {
        broken_bound(alloc, faults.len(), before.len(), names, cause)
    }
}

/// The first of the rules from 4 to 7 that a cause breaks, after so many others.
fn broken_bound(
    alloc: Global,
    faults: usize,
    before: usize,
    names: &TextSet,
    cause: &Written,
) -> Result<Option<CauseRule>, OutOfMemory>
    ensures { IfOk result (λ o. option_map rule_of o ≡ bound_broken faults names.now before (written_tree cause.now)) }
{
    if cause.to < cause.from {
        Ok(Some(CauseRule::EmptyWindow))
    } else if cause.to > LONGEST_WINDOW {
        Ok(Some(CauseRule::TooWide))
    } else if before >= MOST_EVENTS || faults >= MOST_EVENTS - before {
        Ok(Some(CauseRule::TooMany))
    } else if is_any_taken(names, &cause_names(alloc, cause)?) {
        Ok(Some(CauseRule::NameTaken))
    } else {
        Ok(None)
    }
}

/// Whether a cause has the name.
fn has_cause(causes: &[Written], name: &Name) -> bool
    ensures { result ≡ list_any (λ b. same_text b.name name.now) (written_trees causes.now) }
{
    has_name(causes, name)
}

/// Whether some cause, as it is kept, has the name.
fn has_name(causes: &[Written], name: &Name) -> bool
    ensures { result ≡ list_any (λ (c : Written). same_text c.name name.now) causes.now }
{
    causes.iter().any(|cause| has_text(&cause.name, name))
}

/// Refuses names that are added after all causes, for so many faults, where one is taken.
fn judge_owns(alloc: Global, faults: usize, taken: &TextSet) -> Result<(), CauseFault>
    ensures free { OnOk result (are_owns_among taken.now faults ≡ false) }
    ensures told { IfErr result (λ fault. Tells fault (owns_told (are_owns_among taken.now faults))) }
{
    for i in 0..faults {
        if is_any_taken(taken, &own_names(alloc, i + 1)?) {
            return Err(CauseFault::Broken(CauseRule::NameTaken, 0));
        }
    }
    Ok(())
}

/// Causes that break no rule, with the faults that they strike by their numbers.
fn numbered_causes(
    alloc: Global,
    faults: &[Fault],
    written: &[Written],
) -> Result<CauseList, OutOfMemory>
    ensures { IfOk result (λ causes. EachBoth (IsReadIn (paths_of faults.now)) (written_trees written.now) (map cause_of causes)) }
{
    let mut causes = CauseList::new(alloc);
    for cause in written {
        causes.push(numbered_cause(alloc, faults, cause)?)?;
    }
    Ok(causes)
}

/// A cause that breaks no rule. A number beyond 32 bits, which such a cause does not have, is want of memory.
fn numbered_cause(alloc: Global, faults: &[Fault], cause: &Written) -> Result<Cause, OutOfMemory>
    ensures { IfOk result (λ made. IsReadIn (paths_of faults.now) (written_tree cause.now) (cause_of made)) }
{
    Ok(Cause {
        name: cause.name.copy()?,
        from: small(cause.from)?,
        to: small(cause.to)?,
        strikes: strikes_of(alloc, faults, cause.strikes.as_slice())?,
    })
}

/// A number of 32 bits.
fn small(number: u64) -> Result<u32, OutOfMemory>
    ensures same { IfOk result (λ made. made ≡ number) }
    ensures fits { number < 2 ^ 32 → IsOk result }
{
    u32::try_from(number).map_err(|_too_large| OutOfMemory)
}

/// The numbers of the faults with these names.
fn strikes_of(alloc: Global, faults: &[Fault], names: &[NameList]) -> Result<FaultSet, OutOfMemory>
    ensures { IfOk result (λ strikes. EachBoth (IsNumberOf (paths_of faults.now)) names.now strikes) }
{
    let mut strikes = FaultSet::new(alloc);
    for name in names {
        strikes.push(fault_named(faults, name)?)?;
    }
    Ok(strikes)
}

/// The number of the fault with this name. A name of no fault, which a cause that breaks no rule does not have, is want of
/// memory.
fn fault_named(faults: &[Fault], name: &NameList) -> Result<u32, OutOfMemory>
    ensures number { IfOk result (IsNumberOf (paths_of faults.now) name.now) }
    ensures found { is_path_among (paths_of faults.now) name.now ≡ true → length faults.now < 2 ^ 32 → IsOk result }
{
    for (place, fault) in faults.iter().enumerate() {
        if is_same_path(fault.name.parts(), name.as_slice()) {
            let number = number_of(place + 1)?;
            return Ok(number);
        }
    }
    Err(OutOfMemory)
}
