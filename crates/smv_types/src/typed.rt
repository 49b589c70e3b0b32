//! Models that break no rule. [`check_model`] is the main function: a [`Typed`] model, or the first rule that is broken.
//! The fields of a typed model are private and their ghost fields say what holds of it, so whoever has one knows that.
ghost use Rattle.std.specs.Prelude.{◌≡◌, ◌<◌, ◌≤◌, map, length, slice_get, Some, IfOk, IfErr};
ghost use Rattle.base_values.specs.declared.limits.TheConstants.{MOST_BITS, MOST_COST};
ghost use Rattle.smv_language.specs.ModelTree.{model_tree, leaf_of};
ghost use Rattle.smv_type_laws.specs.Costs.{model_cost, state_bits};
ghost use Rattle.smv_type_laws.specs.Models.{IsTyped, kind_of_leaf};
ghost use Rattle.smv_types.specs.Answers.{told_sort};
ghost use Rattle.smv_types.specs.KeptKinds.{AreKindsOf};
ghost use Rattle.smv_types.specs.Types.{variable_domain, AreValuesOf};
ghost use Rattle.smv_types.specs.Faults.{IsToldOf};

use crate::cost::model_cost;
use crate::fault::TypeFault;
use crate::judge::{Sorts, name_sort};
use crate::sort::Sort;
use crate::whole::{ModelFindings, fault_of, find_all};
use base_values::Domain;
use smv_language::model::{Flat, FlatModel};
use std::alloc::Global;

/// A flat model that breaks no rule of kinds and keeps the limits, with the domains of its variables.
#[derive(Drop)]
pub struct Typed {
    model: FlatModel,
    domains: Vec<Domain>,
    sorts: Sorts,
    cost: u64,
    bits: u32,
    ghost domains_are: { domains.items ≡ map (variable_domain model.symbols) model.variables },
    ghost kinds: { AreKindsOf (model_tree model) sorts },
    ghost typed: { IsTyped (model_tree model) },
    ghost cost_is: { cost ≡ model_cost (model_tree model) },
    ghost bits_are: { bits ≡ state_bits (model_tree model) },
}

impl Typed {
    /// The flat model, which breaks no rule.
    pub fn model(&self) -> &FlatModel
        ensures model { result.now ≡ self.now.model }
        ensures typed { IsTyped (model_tree self.now.model) }
    {
        &self.model
    }

    /// The values of a variable, by its number in the model: those of its declared type, a symbol by its
    /// number. Takes no memory.
    pub fn domain(&self, i: usize) -> &Domain
        requires { i < length self.now.model.variables }
        ensures domain { slice_get (map (variable_domain self.now.model.symbols) self.now.model.variables) i ≡ Some result.now }
        ensures values { AreValuesOf self.now.model i result.now }
    {
        &self.domains[i]
    }

    /// The cost: 1 for each node of a formula or definition, 64 in place of 1 for `*`, `/` and `mod`, and
    /// for each variable the number of its listed members, 3 for a range and 0 for a boolean.
    pub fn cost(&self) -> u64
        ensures field { result ≡ self.now.cost }
        ensures cost { result ≡ model_cost (model_tree self.now.model) }
    {
        self.cost
    }

    /// The number of state bits: those of state and frozen variables.
    pub fn bits(&self) -> u32
        ensures field { result ≡ self.now.bits }
        ensures bits { result ≡ state_bits (model_tree self.now.model) }
    {
        self.bits
    }

    /// What is known of the values of a name of the model: of a variable, of a symbol, or of a definition.
    /// Takes no memory.
    pub fn sort_of(&self, name: Flat) -> Sort
        ensures { result ≡ told_sort (kind_of_leaf (model_tree self.now.model) (leaf_of name)) }
    {
        name_sort(&self.sorts, name)
    }

    /// What is known of the values of variables and definitions.
    pub(crate) fn sorts(&self) -> &Sorts
        ensures sorts { result.now ≡ self.now.sorts }
        ensures kinds { AreKindsOf (model_tree self.now.model) self.now.sorts }
    {
        &self.sorts
    }
}

/// The model with the domains of its variables and its sizes, or the first rule that it breaks.
///
/// Rules are told by instances, then items, then numbers; last and with item 0 that the model passes a
/// limit: `MOST_COST`, or `MOST_BITS`.
pub fn check_model(alloc: Global, m: FlatModel) -> Result<Typed, TypeFault>
    ensures model { IfOk result (λ t. t.model ≡ m) }
    ensures typed { IfOk result (λ t. IsTyped (model_tree m)) }
    ensures cost { IfOk result (λ t. t.cost ≡ model_cost (model_tree m)) }
    ensures bits { IfOk result (λ t. t.bits ≡ state_bits (model_tree m)) }
    ensures limits { IfOk result (λ t. (t.cost ≤ MOST_COST) × (t.bits ≤ MOST_BITS)) }
    ensures fault { IfErr result (λ fault. IsToldOf (model_tree m) fault) }
{
    let found = find_all(alloc, &m)?;
    let cost = model_cost(&m);
    if let Some(fault) = fault_of(found.first, cost, found.bits) {
        return Err(fault);
    }
    let ModelFindings {
        domains,
        sorts,
        first: _,
        bits,
    } = found;
    Ok(Typed {
        model: m,
        domains,
        sorts,
        cost,
        bits: bits as u32,
    })
}
