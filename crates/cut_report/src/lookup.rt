//! The variables of a model by their printed names, and their values by their texts ([`Lookup`]), as the lines of a trace
//! name them.
ghost use Rattle.std.specs.Prelude.{◌≡◌, ◌<◌, length, map, IfOk, IfSome};
ghost use Rattle.smv_language.specs.ModelTree.{model_tree};
ghost use Rattle.cut_text_laws.specs.TraceOfText.{IsPrintable};
ghost use Rattle.cut_report.specs.Names.{printed_name};
ghost use Rattle.cut_text_laws.specs.TraceOfText.{HasItsSymbols};
ghost use Rattle.cut_report.specs.Lookups.{IsPlaceOf, IsFoundAt};

use crate::text::append_variable;
use crate::values::value_of;
use base_values::{ByteList, Name, NameList, OutOfMemory, Value};
use smv_language::model::Variable;
use smv_types::{TextNumbers, Typed};
use std::alloc::Global;

/// The variables of a model by their printed names, and its symbols by theirs.
#[derive(Drop)]
pub(crate) struct Lookup<'a> {
    pub(crate) typed: &'a Typed,
    names: TextNumbers<'a>,
    symbols: TextNumbers<'a>,
    ghost named: { names.texts.now ≡ map printed_name typed.now.model.variables },
    ghost own: { symbols.texts.now ≡ typed.now.model.symbols },
}

impl<'a> Lookup<'a> {
    /// The tables of a model whose variables have these names.
    pub(crate) fn of(
        alloc: Global,
        typed: &'a Typed,
        names: &'a [Name],
    ) -> Result<Lookup<'a>, OutOfMemory>
        requires { names.now ≡ map printed_name typed.now.model.variables }
        ensures { IfOk result (λ lookup. lookup.typed.now ≡ typed.now) }
    {
        let names = TextNumbers::of(alloc, names)?;
        let symbols = TextNumbers::of(alloc, typed.model().symbols.as_slice())?;
        Ok(Lookup {
            typed,
            names,
            symbols,
        })
    }

    /// The number of the variable that is printed so.
    pub(crate) fn place(&self, name: &[u8]) -> Option<usize>
        ensures place { IsPlaceOf (model_tree self.now.typed.now.model) name.now result }
        ensures within { IfSome result (λ place. place < length self.now.typed.now.model.variables) }
    {
        match self.names.number_of(name) {
            Some(number) => Some(number as usize),
            None => None,
        }
    }

    /// The value of a variable's type that has this text.
    pub(crate) fn value(
        &self,
        alloc: Global,
        place: usize,
        text: &[u8],
    ) -> Result<Option<Value>, OutOfMemory>
        requires within { place < length self.now.typed.now.model.variables }
        requires printable { IsPrintable (model_tree self.now.typed.now.model) }
        requires symbols { HasItsSymbols (model_tree self.now.typed.now.model) }
        ensures { IfOk result (IsFoundAt (model_tree self.now.typed.now.model) place text.now) }
    {
        value_of(alloc, self.typed.domain(place), &self.symbols, text)
    }
}

/// The names of variables, with dots between their parts.
pub(crate) fn printed_names(alloc: Global, variables: &[Variable]) -> Result<NameList, OutOfMemory>
    ensures { IfOk result (λ names. names ≡ map printed_name variables.now) }
{
    let mut names = NameList::new(alloc);
    for variable in variables {
        names.push(name_of(alloc, variable)?)?;
    }
    Ok(names)
}

/// The name of a variable, with dots between its parts.
fn name_of(alloc: Global, variable: &Variable) -> Result<Name, OutOfMemory>
    ensures { IfOk result (λ name. name ≡ printed_name variable.now) }
{
    let mut text = ByteList::new(alloc);
    append_variable(&mut text, variable)?;
    Name::new(alloc, text.as_slice())
}
