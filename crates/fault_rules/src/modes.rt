//! The rules that are tried at the items of modes ([`take_modes`]): a mode's name is new in its slice, its effect may stand
//! at the variable, and the symbol that it adds is free.
ghost use Rattle.std.specs.Prelude.{◌≡◌, ◌≢◌, ◌+◌, [], IfOk, IfErr, OnOk, Some, None, map, length};
ghost use Rattle.fault_instructions.specs.Instructions.{mode_tree};
ghost use Rattle.fault_rules.specs.KeyedLists.{with_text, with_texts};
ghost use Rattle.fault_rules.specs.Faults.{IsKnown, faults_of, mode_symbols};
ghost use Rattle.fault_rules.specs.Symbols.{AreSymbolsOf, rule_among, has_symbol};
ghost use Rattle.fault_rules.specs.declared.fault.InstructionRule.TheVariants as broken;

use crate::fault::{InstructionRule, RuleFault};
use crate::modules::KnownProgram;
use crate::placed::item_after;
use crate::texts::{After, TextSet};
use base_values::Name;
use fault_instructions::{ModeRule, Slice, allowed};
use smv_language::Declared;
use std::alloc::Global;

/// What the modes of a slice are judged by: the program, the names of own values, and what the slice's
/// variable is declared to be.
#[derive(Clone, Copy)]
pub(crate) struct JudgedSlice<'a, 'b> {
    pub(crate) known: &'a KnownProgram<'b>,
    pub(crate) owns: &'a TextSet,
    pub(crate) declared: &'a Declared,
    pub(crate) slice: &'a Slice,
}

/// Takes the modes of the slice at this item, with their symbols. The number of the last item.
pub(crate) fn take_modes(
    alloc: Global,
    judged: &JudgedSlice<'_, '_>,
    states: &mut TextSet,
    item: u32,
) -> Result<u32, RuleFault>
    requires { IsKnown judged.now.known.now }
    ensures kept { OnOk result (faults_of judged.now states.old [] item (map mode_tree judged.now.slice.now.modes) ≡ None) }
    ensures states { OnOk result (states.new
        ≡ with_texts states.old (mode_symbols judged.now.slice.now.name (map mode_tree judged.now.slice.now.modes))) }
    ensures last { IfOk result (λ last. last ≡ item + length judged.now.slice.now.modes) }
    ensures told { IfErr result (λ fault. fault.rule ≢ broken.OutOfMemory →
        faults_of judged.now states.old [] item (map mode_tree judged.now.slice.now.modes) ≡ Some fault) }
{
    let modes = judged.slice.modes.as_slice();
    let last = judge_each(alloc, judged, states, item, modes)?;
    states.add_symbols(&judged.slice.name, modes)?;
    Ok(last)
}

/// The names among which a slice's symbols would be taken. The slice's own symbols need no look: they differ as their modes do.
#[derive(Drop)]
pub(crate) struct TakenSymbols<'a, 's> {
    pub(crate) known: After<'a, 'a>,
    pub(crate) states: After<'s, 'a>,
    pub(crate) owns: After<'a, 'a>,
}

/// Judges modes in their order, before any symbol of theirs is added. The number of the last item.
fn judge_each(
    alloc: Global,
    judged: &JudgedSlice<'_, '_>,
    states: &TextSet,
    item: u32,
    modes: &[ModeRule],
) -> Result<u32, RuleFault>
    requires { IsKnown judged.now.known.now }
    ensures kept { OnOk result (faults_of judged.now states.now [] item (map mode_tree modes.now) ≡ None) }
    ensures last { IfOk result (λ last. last ≡ item + length modes.now) }
    ensures told { IfErr result (λ fault. fault.rule ≢ broken.OutOfMemory →
        faults_of judged.now states.now [] item (map mode_tree modes.now) ≡ Some fault) }
{
    let symbols = symbols_of(judged, states);
    let mut names = TextSet::new(alloc);
    let mut last = item;
    for mode in modes {
        last = judge_mode(judged, &symbols, &mut names, last, mode)?;
    }
    Ok(last)
}

/// The names among which the symbols of the slice would be taken.
fn symbols_of<'a, 's>(judged: &JudgedSlice<'a, '_>, states: &'s TextSet) -> TakenSymbols<'a, 's>
    requires { IsKnown judged.now.known.now }
    ensures { AreSymbolsOf judged.now states.now result }
{
    let slice = judged.slice.name.text();
    TakenSymbols {
        known: judged.known.names.after(slice),
        states: states.after(slice),
        owns: judged.owns.after(slice),
    }
}

/// Judges a mode after the item of this number, after the modes of these names. The number of its item.
fn judge_mode(
    judged: &JudgedSlice<'_, '_>,
    symbols: &TakenSymbols<'_, '_>,
    names: &mut TextSet,
    last: u32,
    mode: &ModeRule,
) -> Result<u32, RuleFault>
    ensures kept { OnOk result (rule_among judged.now symbols.now names.old (mode_tree mode.now) ≡ None) }
    ensures item { IfOk result (λ item. item ≡ last + 1) }
    ensures names { OnOk result (names.new ≡ with_text names.old mode.now.name) }
    ensures told { IfErr result (λ fault. fault.rule ≢ broken.OutOfMemory →
        rule_among judged.now symbols.now names.old (mode_tree mode.now) ≡ Some fault.rule) }
    ensures told_item { IfErr result (λ fault. fault.rule ≢ broken.OutOfMemory → fault.item ≡ last + 1) }
{
    let item = item_after(last)?;
    if let Some(rule) = broken_rule(judged, symbols, names, mode) {
        return Err(RuleFault { rule, item });
    }
    names.add(mode.name.text())?;
    Ok(item)
}

/// The first rule that a mode's item breaks.
fn broken_rule(
    judged: &JudgedSlice<'_, '_>,
    symbols: &TakenSymbols<'_, '_>,
    names: &TextSet,
    mode: &ModeRule,
) -> Option<InstructionRule>
    ensures { result ≡ rule_among judged.now symbols.now names.now (mode_tree mode.now) }
{
    if names.has(mode.name.text()) {
        return Some(InstructionRule::DoubleMode);
    }
    if let Err(fault) = allowed(&mode.effect, judged.declared) {
        return Some(InstructionRule::Effect(fault));
    }
    if symbols.has(&mode.name) {
        return Some(InstructionRule::NameTaken);
    }
    None
}

impl TakenSymbols<'_, '_> {
    /// Whether the symbol of the mode of this name is taken.
    fn has(&self, mode: &Name) -> bool
        ensures { result ≡ has_symbol self.now mode.now }
    {
        self.known.has(mode.text()) || (self.states.has(mode.text()) || self.owns.has(mode.text()))
    }
}
