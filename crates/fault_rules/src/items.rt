//! The rules that are tried at each item of the instructions, in written order. [`placed_slices`] is the main function.
//!
//! [`MetItems`] has what the items so far add, so that each item is judged after those before it: an EXTENSION by its module; a
//! SLICE by its variable, its name, whether the variable is affected already, and the names that it adds, in this order;
//! and then its modes (`modes`). What is added is noted only for an item that breaks no rule.
ghost use Rattle.std.specs.Prelude.{◌≡◌, ◌≢◌, ◌||◌, ◌++◌, [], ◌∷◌, IfOk, IfErr, OnOk, Some, None, map, option_map};
ghost use Rattle.std.specs.Result.{result_err};
ghost use Rattle.std.specs.List.{list_any};
ghost use Rattle.smv_language.specs.ProgramTree.{program_tree, declared_tree};
ghost use Rattle.smv_language.specs.Scope.{find_module};
ghost use Rattle.fault_instructions.specs.Instructions.{instruction_tree, extension_tree, slice_tree};
ghost use Rattle.fault_instructions.specs.KindTypes.{type_of_kind};
ghost use Rattle.fault_rules.specs.Sites.{owned, a_slice, item_sites, mode_sites, slice_sites, extension_sites};
ghost use Rattle.fault_rules.specs.Rules.{broken_at, target_kind, is_program_name, is_local_member, hides_symbol as hides_symbol_of};
ghost use Rattle.fault_rules.specs.FirstBroken.{AllKept, IsFirstBroken};
ghost use Rattle.fault_rules.specs.Locals.{local_tree, variable};
ghost use Rattle.fault_rules.specs.Faults.{IsKnown, IsMet, IsTaken, IsFirstAfter, program_known, later_rule as later_rule_of, sites_of};
ghost use Rattle.fault_rules.specs.Faults.{slices_in, names_of, target_rule, is_taken_with, adds_taken as adds_taken_by, owned_slices};
ghost use Rattle.fault_rules.specs.Faults.{file_slices, placed_tree};
ghost use Rattle.fault_rules.specs.KeyedLists.{with_text, with_texts, with_pair};
ghost use Rattle.fault_rules.specs.PlacedSlices.{placed_from, seen_placed, places_in};
ghost use Rattle.smv_language.specs.Texts.{same_text, is_among};
ghost use Rattle.fault_rules.specs.declared.fault.InstructionRule.TheVariants as broken;

use crate::fault::{InstructionRule, RuleFault};
use crate::modes::{JudgedSlice, take_modes};
use crate::modules::{KnownProgram, LocalName};
use crate::placed::{Placed, item_after};
use crate::targets::Targets;
use crate::texts::TextSet;
use base_values::{Name, OutOfMemory};
use fault_instructions::{Extension, Instructions, Slice, mode_variable, nominal_symbol, own_name};
use smv_language::{Declared, Member, Program};
use std::alloc::Global;

/// What the items so far have: the names that they add, slices, the variables that they affect, and the last
/// item's number. The names of own values stand apart, since two own values may have one name, in two modules.
#[derive(Drop)]
pub(crate) struct MetItems<'a> {
    pub(crate) states: TextSet,
    pub(crate) owns: TextSet,
    pub(crate) slices: TextSet,
    pub(crate) targets: Targets<'a>,
    pub(crate) placed: Vec<Placed<'a>>,
    pub(crate) last: u32,
}

/// The names that a slice adds: of its variable's own value, of its state, and of the state in which no mode
/// stands.
#[derive(Drop)]
pub(crate) struct SliceNames {
    pub(crate) own: Name,
    pub(crate) switch: Name,
    pub(crate) nominal: Name,
}

/// The slices of instructions that break no rule from 1 to 8, in written order.
pub fn placed_slices<'a>(
    alloc: Global,
    p: &'a Program,
    i: &'a Instructions,
) -> Result<Vec<Placed<'a>>, RuleFault>
    ensures placed { IfOk result (λ placed. map placed_tree placed.items ≡ file_slices (instruction_tree i.now).extensions) }
    ensures items { IfOk result (λ placed. map seen_placed placed.items
        ≡ placed_from (program_tree p.now) 0 (item_sites (instruction_tree i.now))) }
    ensures kept { OnOk result (AllKept (broken_at (program_tree p.now)) (item_sites (instruction_tree i.now))) }
    ensures first { IfErr result (λ fault. fault.rule ≢ broken.OutOfMemory →
        IsFirstBroken (broken_at (program_tree p.now)) (item_sites (instruction_tree i.now)) fault.rule fault.item) }
{
    let known = KnownProgram::read(alloc, p)?;
    let mut met = MetItems::none(alloc);
    met.take_extensions(alloc, &known, i.extensions.as_slice())?;
    Ok(met.placed)
}

impl<'a> MetItems<'a> {
    /// Before the first item.
    fn none(alloc: Global) -> MetItems<'a>
        ensures met { IsMet result }
        ensures last { result.last ≡ 0 }
        ensures slices { slices_in result ≡ [] }
        ensures places { places_in result ≡ [] }
    {
        MetItems {
            states: TextSet::new(alloc),
            owns: TextSet::new(alloc),
            slices: TextSet::new(alloc),
            targets: Targets::new(alloc),
            placed: Vec::new(alloc),
            last: 0,
        }
    }

    /// Takes extensions in their order.
    fn take_extensions(
        &mut self,
        alloc: Global,
        known: &KnownProgram<'a>,
        extensions: &'a [Extension],
    ) -> Result<(), RuleFault>
        requires known { IsKnown known.now }
        requires met { IsMet self.old }
        ensures kept { OnOk result (IsTaken (program_known known.now) self.old.last self.old self.new
            (extension_sites (slices_in self.old) (map extension_tree extensions.now)) (file_slices (map extension_tree extensions.now))) }
        ensures places { OnOk result (places_in self.new
            ≡ places_in self.old ++ placed_from (program_known known.now) self.old.last
            (extension_sites (slices_in self.old) (map extension_tree extensions.now))) }
        ensures told { IfErr result (IsFirstAfter (program_known known.now) self.old.last
            (extension_sites (slices_in self.old) (map extension_tree extensions.now))) }
    {
        for extension in extensions {
            self.take_extension(alloc, known, extension)?;
        }
        Ok(())
    }

    /// Takes an extension, whose module must be there, and its slices.
    fn take_extension(
        &mut self,
        alloc: Global,
        known: &KnownProgram<'a>,
        extension: &'a Extension,
    ) -> Result<(), RuleFault>
        requires known { IsKnown known.now }
        requires met { IsMet self.old }
        ensures kept { OnOk result (IsTaken (program_known known.now) self.old.last self.old self.new
            (sites_of (slices_in self.old) (extension_tree extension.now)) (owned_slices (extension_tree extension.now))) }
        ensures places { OnOk result (places_in self.new
            ≡ places_in self.old ++ placed_from (program_known known.now) self.old.last
            (sites_of (slices_in self.old) (extension_tree extension.now))) }
        ensures told { IfErr result
            (IsFirstAfter (program_known known.now) self.old.last (sites_of (slices_in self.old) (extension_tree extension.now))) }
    {
        let item = item_after(self.last)?;
        if !known.has_module(&extension.module) {
            return Err(RuleFault {
                rule: InstructionRule::NoSuchModule,
                item,
            });
        }
        self.last = item;
        self.take_slices(alloc, known, &extension.module, extension.slices.as_slice())
    }

    /// Takes the slices of an extension in their order.
    fn take_slices(
        &mut self,
        alloc: Global,
        known: &KnownProgram<'a>,
        owner: &'a Name,
        slices: &'a [Slice],
    ) -> Result<(), RuleFault>
        requires known { IsKnown known.now }
        requires met { IsMet self.old }
        ensures kept { OnOk result (IsTaken (program_known known.now) self.old.last self.old self.new
            (slice_sites (slices_in self.old) owner.now (map slice_tree slices.now)) (map (owned owner.now) (map slice_tree slices.now))) }
        ensures places { OnOk result (places_in self.new
            ≡ places_in self.old ++ placed_from (program_known known.now) self.old.last
            (slice_sites (slices_in self.old) owner.now (map slice_tree slices.now))) }
        ensures told { IfErr result
            (IsFirstAfter (program_known known.now) self.old.last
            (slice_sites (slices_in self.old) owner.now (map slice_tree slices.now))) }
    {
        for slice in slices {
            self.take_slice(alloc, known, owner, slice)?;
        }
        Ok(())
    }

    /// Takes a slice, if it breaks no rule, and its modes.
    fn take_slice(
        &mut self,
        alloc: Global,
        known: &KnownProgram<'a>,
        owner: &'a Name,
        slice: &'a Slice,
    ) -> Result<(), RuleFault>
        requires known { IsKnown known.now }
        requires met { IsMet self.old }
        ensures kept { OnOk result (IsTaken (program_known known.now) self.old.last self.old self.new
            (slice_sites (slices_in self.old) owner.now (slice_tree slice.now ∷ [])) (owned owner.now (slice_tree slice.now) ∷ [])) }
        ensures places { OnOk result (places_in self.new
            ≡ places_in self.old ++ placed_from (program_known known.now) self.old.last
            (slice_sites (slices_in self.old) owner.now (slice_tree slice.now ∷ []))) }
        ensures told { IfErr result
            (IsFirstAfter (program_known known.now) self.old.last (slice_sites (slices_in self.old) owner.now (slice_tree slice.now
            ∷ []))) }
    {
        let item = item_after(self.last)?;
        let names = SliceNames::of(alloc, slice)?;
        let declared = match self.judge_slice(known, owner, slice, &names) {
            Ok(declared) => declared,
            Err(rule) => return Err(RuleFault { rule, item }),
        };
        let placed = Placed {
            owner,
            slice,
            declared,
            item,
        };
        self.place(alloc, known, &names, &placed)
    }

    /// Takes a slice that breaks no rule itself, with its modes.
    fn place(
        &mut self,
        alloc: Global,
        known: &KnownProgram<'a>,
        names: &SliceNames,
        placed: &Placed<'a>,
    ) -> Result<(), RuleFault>
        requires known { IsKnown known.now }
        requires met { IsMet self.old }
        requires names { names.now ≡ names_of (slice_tree placed.now.slice.now) }
        requires declared { declared_tree placed.now.declared.now
            ≡ type_of_kind (target_kind (program_known known.now) (placed_tree placed.now)) }
        ensures kept { OnOk result (IsTaken (program_known known.now) placed.now.item self.old self.new
            (mode_sites (slices_in self.old) (placed_tree placed.now) [] (placed_tree placed.now).slice.modes) (placed_tree placed.now
            ∷ [])) }
        ensures places { OnOk result (places_in self.new ≡ places_in self.old ++ seen_placed placed.now ∷ []) }
        ensures told { IfErr result (IsFirstAfter (program_known known.now) placed.now.item
            (mode_sites (slices_in self.old) (placed_tree placed.now) [] (placed_tree placed.now).slice.modes)) }
    {
        self.add_slice(names, placed)?;
        let judged = JudgedSlice {
            known,
            owns: &self.owns,
            declared: placed.declared,
            slice: placed.slice,
        };
        self.last = take_modes(alloc, &judged, &mut self.states, placed.item)?;
        self.placed.push(*placed)?;
        Ok(())
    }

    /// Takes the names of a slice, and the variable that it affects.
    fn add_slice(&mut self, names: &SliceNames, placed: &Placed<'a>) -> Result<(), OutOfMemory>
        ensures states { OnOk result (self.new.states ≡ with_texts self.old.states (names.now.switch ∷ names.now.nominal ∷ [])) }
        ensures owns { OnOk result (self.new.owns ≡ with_text self.old.owns names.now.own) }
        ensures slices { OnOk result (self.new.slices ≡ with_text self.old.slices placed.now.slice.now.name) }
        ensures targets { OnOk result (self.new.targets ≡ with_pair self.old.targets (placed.now.owner.now, placed.now.slice.now.target)) }
        ensures placed { OnOk result (self.new.placed ≡ self.old.placed) }
    {
        self.targets.add(placed.owner, &placed.slice.target)?;
        self.slices.add(placed.slice.name.text())?;
        self.owns.add(names.own.text())?;
        self.add_states(names)
    }

    /// Notes the names that a slice adds for its state.
    fn add_states(&mut self, names: &SliceNames) -> Result<(), OutOfMemory>
        ensures states { OnOk result (self.new.states ≡ with_texts self.old.states (names.now.switch ∷ names.now.nominal ∷ [])) }
        ensures owns { OnOk result (self.new.owns ≡ self.old.owns) }
        ensures slices { OnOk result (self.new.slices ≡ self.old.slices) }
        ensures targets { OnOk result (self.new.targets ≡ self.old.targets) }
        ensures placed { OnOk result (self.new.placed ≡ self.old.placed) }
    {
        self.states.add(names.switch.text())?;
        self.states.add(names.nominal.text())
    }

    /// What the slice's variable is declared to be, or the first rule that the slice's item breaks.
    fn judge_slice(
        &self,
        known: &KnownProgram<'a>,
        owner: &'a Name,
        slice: &'a Slice,
        names: &SliceNames,
    ) -> Result<&'a Declared, InstructionRule>
        requires known { IsKnown known.now }
        requires met { IsMet self.now }
        requires names { names.now ≡ names_of (slice_tree slice.now) }
        ensures rule { result_err result
            ≡ broken_at (program_known known.now) (a_slice (slices_in self.now) (owned owner.now (slice_tree slice.now))) }
        ensures declared { IfOk result (λ declared.
            declared_tree declared.now ≡ type_of_kind (target_kind (program_known known.now) (owned owner.now (slice_tree slice.now)))) }
    {
        let declared = target_of(known.local(owner, &slice.target))?;
        match self.later_rule(known, owner, slice, names, declared) {
            Some(rule) => Err(rule),
            None => Ok(declared),
        }
    }

    /// The first rule after those on the target that the slice's item breaks.
    fn later_rule(
        &self,
        known: &KnownProgram<'a>,
        owner: &'a Name,
        slice: &'a Slice,
        names: &SliceNames,
        declared: &Declared,
    ) -> Option<InstructionRule>
        requires known { IsKnown known.now }
        ensures { result ≡ later_rule_of (program_known known.now) self.now owner.now slice.now names.now (declared_tree declared.now) }
    {
        if self.slices.has(slice.name.text()) {
            return Some(InstructionRule::DoubleSlice);
        }
        if self.targets.has(owner, &slice.target) {
            return Some(InstructionRule::VariableTaken);
        }
        if self.adds_taken(known, names) || hides_symbol(known, owner, declared) {
            return Some(InstructionRule::NameTaken);
        }
        None
    }

    /// Whether a name that the slice adds is taken.
    fn adds_taken(&self, known: &KnownProgram<'a>, names: &SliceNames) -> bool
        requires { IsKnown known.now }
        ensures { result ≡ adds_taken_by (program_known known.now) self.now.states self.now.owns names.now }
    {
        self.is_own_taken(known, &names.own)
            || (self.is_taken(known, &names.own, &names.switch)
                || self.is_taken(known, &names.own, &names.nominal))
    }

    /// Whether the name is taken for that of an own value.
    fn is_own_taken(&self, known: &KnownProgram<'a>, own: &Name) -> bool
        requires { IsKnown known.now }
        ensures { result ≡ (is_program_name (program_known known.now) own.now || is_among self.now.states own.now) }
    {
        known.has_name(own) || self.states.has(own.text())
    }

    /// Whether the name is taken, also by the name of an own value that comes with it.
    fn is_taken(&self, known: &KnownProgram<'a>, own: &Name, name: &Name) -> bool
        requires { IsKnown known.now }
        ensures { result ≡ is_taken_with (program_known known.now) self.now.states self.now.owns own.now name.now }
    {
        known.has_name(name) || (self.states.has(name.text()) || self.is_own(own, name))
    }

    /// Whether the name is that of an own value: of an earlier slice, or of this one.
    fn is_own(&self, own: &Name, name: &Name) -> bool
        ensures { result ≡ (is_among self.now.owns name.now || same_text own.now name.now) }
    {
        self.owns.has(name.text()) || has_text(own, name)
    }
}

impl SliceNames {
    /// The names that the slice adds.
    fn of(alloc: Global, slice: &Slice) -> Result<SliceNames, OutOfMemory>
        ensures { IfOk result (λ names. names ≡ names_of (slice_tree slice.now)) }
    {
        let own = own_name(alloc, &slice.target)?;
        let switch = mode_variable(alloc, &slice.name)?;
        let nominal = nominal_symbol(alloc, &slice.name)?;
        Ok(SliceNames {
            own,
            switch,
            nominal,
        })
    }
}

/// What the variable that a slice affects is declared to be.
fn target_of<'a>(local: Option<LocalName<'a>>) -> Result<&'a Declared, InstructionRule>
    ensures rule { result_err result ≡ target_rule (option_map local_tree local.entry) }
    ensures declared { IfOk result (λ declared. option_map local_tree local.entry ≡ Some (variable (declared_tree declared.now))) }
{
    match local {
        Some(LocalName::Variable(declared)) => Ok(declared),
        Some(LocalName::Other) => Err(InstructionRule::NotAStateVariable),
        Some(LocalName::Formal) | None => Err(InstructionRule::NoSuchVariable),
    }
}

/// Whether a symbol of the type is a name of the module, so that a template would mean that.
fn hides_symbol(known: &KnownProgram<'_>, owner: &Name, declared: &Declared) -> bool
    requires { IsKnown known.now }
    ensures { result ≡ hides_symbol_of (find_module (program_known known.now) owner.now) (declared_tree declared.now) }
{
    match declared {
        Declared::Members(members) => has_local(known, owner, members.as_slice()),
        Declared::Boolean | Declared::Range(_, _) | Declared::Instance(_, _) => false,
    }
}

/// Whether a symbol among the members is a name that the module declares.
#[tactic(auto, using(fault_instructions::proofs::AllowedLaws::any_more))]
fn has_local(known: &KnownProgram<'_>, owner: &Name, members: &[Member]) -> bool
    requires { IsKnown known.now }
    ensures { result ≡ list_any (is_local_member (find_module (program_known known.now) owner.now)) members.now }
{
    for member in members {
        if is_local(known, owner, member) {
            return true;
        }
    }
    false
}

/// Whether the member is a symbol that the module declares as a name.
fn is_local(known: &KnownProgram<'_>, owner: &Name, member: &Member) -> bool
    requires { IsKnown known.now }
    ensures { result ≡ is_local_member (find_module (program_known known.now) owner.now) member.now }
{
    match member {
        Member::Number(_) => false,
        Member::Symbol(name) => known.has_local(owner, name),
    }
}

/// Whether both names have the same text.
fn has_text(x: &Name, y: &Name) -> bool
    ensures { result ≡ same_text x.now y.now }
{
    x.is_same(y)
}
