//! The values of a model's variables and definitions at a moment ([`Table`]). Definitions are evaluated once for each
//! moment ([`fill`]), so that what names them costs no more than its own size.
ghost use Rattle.std.specs.Prelude.{◌≡◌, [], length, IfOk};
ghost use Rattle.smv_language.specs.ModelTree.{model_tree};
ghost use Rattle.smv_evaluation.specs.MomentTables.{definition_value, definition_values, filled, HasRoom, HasValues};
ghost use Rattle.smv_evaluation.specs.EvaluableModels.{IsEvaluable, IsLawful, IsFilled};

use crate::ask::{AskedValue, KnownValues, ask};
use base_values::{OutOfMemory, Valuation, Value};
use smv_language::model::{FlatModel, Formula};
use smv_types::Typed;
use std::alloc::Global;
use std::marker::Model;

/// A value for each variable and each definition of a model, by their numbers from 0.
#[derive(Drop)]
pub struct Table {
    variables: Vec<Value>,
    definitions: Vec<Value>,
}

impl Model for Table {
    ghost use Rattle.smv_evaluation.specs.Entries.{Entries};

    ghost Value = { Entries };

    ghost view = { λ t. record { variables = t.variables.items; definitions = t.definitions.items } };
}

impl Table {
    /// A table with room for the values of a model's variables and definitions, which are all FALSE.
    pub fn for_model(alloc: Global, t: &Typed) -> Result<Table, OutOfMemory>
        ensures { IfOk result (HasRoom t.now.model) }
    {
        let variables = t.model().variables.len();
        let definitions = t.model().definitions.len();
        Ok(Table {
            variables: vec![in alloc; Value::Bool(false); variables]?,
            definitions: vec![in alloc; Value::Bool(false); definitions]?,
        })
    }

    /// What the table has.
    pub(crate) fn known(&self) -> KnownValues<'_>
        ensures variables { result.variables.now ≡ self.now.variables }
        ensures definitions { result.definitions.now ≡ self.now.definitions }
    {
        KnownValues {
            variables: &self.variables,
            definitions: &self.definitions,
        }
    }

    /// Gives the table these values of variables, and those that the model's definitions then have.
    pub(crate) fn write(&mut self, m: &FlatModel, v: &Valuation)
        requires values { HasValues m.now v.now }
        requires room { HasRoom m.now self.old }
        ensures entries { self.new ≡ filled m.now v.now }
        ensures room { HasRoom m.now self.new }
    {
        write_variables(v, &mut self.variables);
        write_definitions(
            m.definitions.as_slice(),
            &self.variables,
            &mut self.definitions,
        );
    }
}

/// Gives the table the values of a moment and of the definitions there. The definitions are evaluated once
/// each, in their order. Takes no memory.
pub fn fill(t: &Typed, v: &Valuation, into: &mut Table)
    requires model { IsEvaluable (model_tree t.now.model) }
    requires lawful { IsLawful (model_tree t.now.model) v.now }
    requires room { HasRoom t.now.model into.old }
    ensures entries { into.new ≡ filled t.now.model v.now }
    ensures filled { IsFilled (model_tree t.now.model) into.new }
    ensures room { HasRoom t.now.model into.new }
{
    into.write(t.model(), v);
}

/// Writes the values of all variables.
fn write_variables(v: &Valuation, into: &mut [Value])
    requires { length into.old ≡ length v.now }
    ensures { into.new ≡ v.now }
{
    for i in 0..v.len() {
        into[i] = v.get(i);
    }
}

/// Writes the values of definitions, each over those before it.
#[tactic(auto, using(crate::proofs::LoopLaws::definitions_more))]
fn write_definitions(definitions: &[Formula], variables: &[Value], into: &mut [Value])
    requires { length into.old ≡ length definitions.now }
    ensures { into.new ≡ definition_values variables.now [] definitions.now }
{
    for (i, definition) in definitions.iter().enumerate() {
        let value = definition_value(definition, variables, &into[..i]);
        into[i] = value;
    }
}

/// The value of a definition, over those of the definitions before it.
fn definition_value(definition: &Formula, variables: &[Value], definitions: &[Value]) -> Value
    ensures { result ≡ definition_value variables.now definitions.now definition.now }
{
    let known = KnownValues {
        variables,
        definitions,
    };
    ask(&known, &known, AskedValue::ItsValue, &definition.value)
}
