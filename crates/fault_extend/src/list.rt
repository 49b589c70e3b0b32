//! The faults with the numbers that they have in the woven program's flat model ([`fault_list`]): of the variable that holds
//! a slice's state and of the symbol that stands for a mode. A search reads by them in a state which modes stand.
ghost use Rattle.std.specs.Prelude.{◌≡◌, ◌↔◌, ◌∷◌, ◌++◌, [], IfOk, OnOk, Some, IsTrue, slice_get};
ghost use Rattle.smv_language.specs.Trace.{Each};
ghost use Rattle.smv_language.specs.ProgramTree.{Text};
ghost use Rattle.fault_instructions.specs.AddedNames.{mode_variable as mode_variable_of, mode_symbol as mode_symbol_of};
ghost use Rattle.fault_extend.specs.NumberedFaults.{parts_of, HasMode, HaveModes, IsNumbered, AreNumbered, AreSymbols, KnowsSymbol};
ghost use Rattle.fault_extend.specs.NumberedFaults.{HasPath, IsThere};

use crate::faults::{Woven, WovenFault};
use base_values::{Dotted, Items, Name, OutOfMemory};
use fault_instructions::{mode_symbol, mode_variable};
use indexmap::IndexMap;
use smv_language::model::{Fault, FaultList, FlatModel, Variable};
use smv_scope::items::number_of;
use std::alloc::Global;

/// The symbols of a model by their texts, with their numbers.
#[derive(Drop)]
pub(crate) struct SymbolNumbers<'a> {
    pub(crate) names: &'a [Name],
    pub(crate) numbers: IndexMap<&'a [u8], u32>,
}

/// The faults of a woven program, each with the number of the variable that holds its slice's state and of
/// the symbol of its mode. The model has both of each fault, as the flat model of `w.program` does where `w`
/// is an answer of the weave.
pub fn fault_list(alloc: Global, w: &Woven, m: &FlatModel) -> Result<FaultList, OutOfMemory>
    requires modes { HaveModes m.now w.now.faults }
    ensures { IfOk result (λ list. AreNumbered m.now w.now.faults list) }
{
    numbered_list(alloc, m, w.faults.as_slice())
}

/// The faults with their numbers, in order.
fn numbered_list(
    alloc: Global,
    m: &FlatModel,
    woven: &[WovenFault],
) -> Result<FaultList, OutOfMemory>
    requires modes { HaveModes m.now woven.now }
    ensures { IfOk result (λ list. AreNumbered m.now woven.now list) }
{
    let symbols = SymbolNumbers::of_names(alloc, m.symbols.as_slice())?;
    let mut faults = Items::new(alloc);
    for fault in woven {
        faults.push(numbered(alloc, m, &symbols, fault)?)?;
    }
    Ok(faults)
}

/// A fault with its name and its numbers.
fn numbered(
    alloc: Global,
    m: &FlatModel,
    symbols: &SymbolNumbers<'_>,
    fault: &WovenFault,
) -> Result<Fault, OutOfMemory>
    requires own { symbols.now.names.now ≡ m.now.symbols }
    requires symbols { AreSymbols symbols.now }
    requires known { Each (KnowsSymbol symbols.now) symbols.now.names.now }
    requires mode { HasMode m.now fault.now }
    ensures { IfOk result (λ made. IsNumbered m.now fault.now made) }
{
    let variable = variable_of(alloc, m, fault)?;
    let symbol = symbols.of_fault(alloc, fault)?;
    let name = name_of(alloc, fault)?;
    Ok(Fault {
        name,
        variable,
        symbol,
    })
}

/// The fault's path, slice and mode as one dotted name.
fn name_of(alloc: Global, fault: &WovenFault) -> Result<Dotted, OutOfMemory>
    ensures { IfOk result (λ name. name ≡ parts_of fault.now.path ++ (fault.now.slice ∷ fault.now.mode ∷ [])) }
{
    let slice = fault.slice.copy()?;
    let mut name = path_below(alloc, &fault.path, slice)?;
    name.push(fault.mode.copy()?)?;
    Ok(name)
}

/// The name from `main` on of a name at an instance.
fn path_below(alloc: Global, path: &Option<Dotted>, name: Name) -> Result<Dotted, OutOfMemory>
    ensures { IfOk result (λ made. made ≡ parts_of path.now ++ name ∷ []) }
{
    match path {
        Some(path) => {
            let mut below = path.copy()?;
            below.push(name)?;
            Ok(below)
        }
        None => Dotted::new(alloc, name),
    }
}

/// The number of the variable that holds the state of the fault's slice.
fn variable_of(alloc: Global, m: &FlatModel, fault: &WovenFault) -> Result<u32, OutOfMemory>
    requires { IsThere m.now.variables 0 (parts_of fault.now.path ++ mode_variable_of fault.now.slice ∷ []) }
    ensures { IfOk result (λ number. HasPath m.now.variables number (parts_of fault.now.path ++ mode_variable_of fault.now.slice ∷ [])) }
{
    let state = mode_variable(alloc, &fault.slice)?;
    let path = path_below(alloc, &fault.path, state)?;
    number_of(place_of(m.variables.as_slice(), &path))
}

/// The place of the variable of a name, which one of them has. There are few faults and few variables.
fn place_of(variables: &[Variable], path: &Dotted) -> usize
    requires { IsThere variables.now 0 path.now }
    ensures { HasPath variables.now result path.now }
{
    for place in 0..variables.len() {
        if is_same(variables[place].path.parts(), path.parts()) {
            return place;
        }
    }
    unreachable!()
}

/// Whether both are the same names.
fn is_same(x: &[Name], y: &[Name]) -> bool
    ensures { IsTrue result ↔ (x.now ≡ y.now) }
{
    if x.len() != y.len() {
        return false;
    }
    for i in 0..x.len() {
        if !x[i].is_same(&y[i]) {
            return false;
        }
    }
    true
}

impl<'a> SymbolNumbers<'a> {
    /// The symbols of these names, each with its number.
    fn of_names(alloc: Global, names: &'a [Name]) -> Result<SymbolNumbers<'a>, OutOfMemory>
        ensures own { IfOk result (λ symbols. symbols.names.now ≡ names.now) }
        ensures symbols { IfOk result AreSymbols }
        ensures known { IfOk result (λ symbols. Each (KnowsSymbol symbols) names.now) }
    {
        let mut symbols = SymbolNumbers {
            names,
            numbers: IndexMap::new(alloc),
        };
        for (place, symbol) in names.iter().enumerate() {
            symbols.add(symbol, number_of(place)?)?;
        }
        Ok(symbols)
    }

    /// Adds a symbol with its number.
    fn add(&mut self, symbol: &'a Name, number: u32) -> Result<(), OutOfMemory>
        requires is { slice_get self.old.names.now number ≡ Some symbol.now }
        requires symbols { AreSymbols self.old }
        ensures own { OnOk result (self.new.names ≡ self.old.names) }
        ensures symbols { OnOk result (AreSymbols self.new) }
        ensures kept { (x : Text) → KnowsSymbol self.old x → OnOk result (KnowsSymbol self.new x) }
        ensures added { OnOk result (KnowsSymbol self.new symbol.now) }
    {
        self.numbers.insert(symbol.text(), number)?;
        Ok(())
    }

    /// The number of the symbol of a fault's mode.
    fn of_fault(&self, alloc: Global, fault: &WovenFault) -> Result<u32, OutOfMemory>
        requires symbols { AreSymbols self.now }
        requires known { KnowsSymbol self.now (mode_symbol_of fault.now.slice (Some fault.now.mode)) }
        ensures { IfOk result (λ number. slice_get self.now.names.now number
            ≡ Some (mode_symbol_of fault.now.slice (Some fault.now.mode))) }
    {
        let symbol = mode_symbol(alloc, &fault.slice, &fault.mode)?;
        Ok(self.number_of(&symbol))
    }

    /// The number of a symbol that is known.
    fn number_of(&self, symbol: &Name) -> u32
        requires symbols { AreSymbols self.now }
        requires known { KnowsSymbol self.now symbol.now }
        ensures { slice_get self.now.names.now result ≡ Some symbol.now }
    {
        let Some(number) = self.numbers.get(symbol.text()) else {
            unreachable!();
        };
        *number
    }
}
