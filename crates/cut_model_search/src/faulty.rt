//! A model with faults and a top event: what is searched.
//!
//! [`FaultyModel`] is the one type that carries these. Contracts see its flat model, its faults and its top event, of which
//! `specs/FaultyModels.antt` speaks; that they can be searched, and that the model with history belongs to them, holds of every one.
ghost use Rattle.std.specs.Prelude.{◌≡◌, ◌≤◌, ◌<◌, ◌^◌, IfOk, OnOk, IsOk, length, map};
ghost use Rattle.base_values.specs.declared.limits.TheConstants.{MOST_BITS};
ghost use Rattle.smv_language.specs.ModelTree.{model_tree, flat_tree};
ghost use Rattle.smv_flat_laws.specs.FaultModes.{mode_of};
ghost use Rattle.smv_flat_laws.specs.History.{with_history};
ghost use Rattle.smv_type_laws.specs.Costs.{state_bits};
ghost use Rattle.cut_search_laws.specs.Searchable.{IsSearchable};
ghost use Rattle.cut_model_search.specs.FaultyModels.{faulty_of, faulty_case, modes_in, whole_in, history_in, CanBeSearched};

use base_values::limits::MOST_SYMBOLS;
use base_values::{Items, OutOfMemory};
use sat_clauses::lit::Lit;
use sat_encoding::history_literals;
use smv_language::Expr;
use smv_language::model::{FaultList, Flat};
use smv_types::Typed;
use std::alloc::Global;
use std::marker::Model;
use verb_loading::loaded::LoadedCase;

/// A model, its faults, and a top event that can be searched for.
#[derive(Drop)]
pub struct FaultyModel<'a> {
    plain: &'a Typed,
    // The model with the history of its faults.
    full: &'a Typed,
    faults: &'a FaultList,
    top: &'a Expr<Flat>,
    // The literals of the history bits, in the order of the faults.
    history: Items<Lit>,
}

impl<'a> Model for FaultyModel<'a> {
    ghost use Rattle.std.specs.Coded.{codes};
    ghost use Rattle.base_values.specs.contracts.name.Dotted as dotted;
    ghost use Rattle.smv_language.specs.contracts.expr.Expr as expr;
    ghost use Rattle.smv_language.specs.contracts.model.Flat as flat;
    ghost use Rattle.cut_model_search.specs.FaultyModels.{FaultyValue, faulty_of, IsFaultyModel};

    ghost Value = { FaultyValue };

    ghost coded = { Prim.hlevel (codes, (expr.the_row flat.the_row).coded, (expr.the_row dotted.the_row).coded) };

    ghost view = { λ f. faulty_of f.plain.now.model f.faults.now f.top.now };

    ghost invariant = { λ f. IsFaultyModel (faulty_of f.plain.now.model f.faults.now f.top.now) f.full.now.model f.history };
}

impl<'a> FaultyModel<'a> {
    /// The faults of a model, whose history the full model has, with a top event.
    pub fn new(
        alloc: Global,
        plain: &'a Typed,
        full: &'a Typed,
        faults: &'a FaultList,
        top: &'a Expr<Flat>,
    ) -> Result<FaultyModel<'a>, OutOfMemory>
        requires whole { model_tree full.now.model ≡ with_history (model_tree plain.now.model) (map mode_of faults.now) }
        requires searchable { IsSearchable (model_tree plain.now.model) (map mode_of faults.now) (flat_tree top.now) }
        ensures { IfOk result (λ f. f ≡ faulty_of plain.now.model faults.now top.now) }
    {
        let history = history_literals(alloc, full, faults.len() as u32)?;
        Ok(FaultyModel {
            plain,
            full,
            faults,
            top,
            history,
        })
    }

    /// The model of a case with a top event. More symbols than a search has numbers for are want of memory.
    pub fn of_case(
        alloc: Global,
        case: &'a LoadedCase,
        top: &'a Expr<Flat>,
    ) -> Result<FaultyModel<'a>, OutOfMemory>
        requires whole { model_tree case.now.limited.full.model
            ≡ with_history (model_tree case.now.limited.typed.model) (map mode_of case.now.limited.faults) }
        requires searchable { length case.now.limited.typed.model.symbols < 2 ^ 31 →
            IsSearchable (model_tree case.now.limited.typed.model) (map mode_of case.now.limited.faults) (flat_tree top.now) }
        ensures few { OnOk result (length case.now.limited.typed.model.symbols < 2 ^ 31) }
        ensures model { IfOk result (λ f. f ≡ faulty_case case.now top.now) }
    {
        count_symbols(case)?;
        let limited = &case.limited;
        let model = FaultyModel::new(alloc, &limited.typed, &limited.full, &limited.faults, top)?;
        Ok(model)
    }

    /// That the model can be searched: a law, carried as a call that does nothing.
    pub(crate) fn can_be_searched(&self)
        ensures { CanBeSearched self.now }
    {
        // What always holds of a model is known where a field of it is read.
        let _plain = self.plain;
    }

    /// The model without history.
    pub(crate) fn plain(&self) -> &Typed
        ensures { result.now.model ≡ self.now.model }
    {
        self.plain
    }

    /// The model with the history of its faults.
    pub(crate) fn full(&self) -> &Typed
        ensures { model_tree result.now.model ≡ whole_in self.now }
    {
        self.full
    }

    /// The number of its state bits.
    pub(crate) fn bits(&self) -> u32
        ensures { result ≡ state_bits (whole_in self.now) }
    {
        self.full().bits()
    }

    /// The faults.
    pub(crate) fn listed(&self) -> &FaultList
        ensures { result.now ≡ self.now.faults }
    {
        self.faults
    }

    /// The number of the faults.
    pub(crate) fn count(&self) -> u32
        ensures count { result ≡ length (modes_in self.now) }
        ensures few { result ≤ MOST_BITS }
    {
        self.can_be_searched();
        self.listed().len() as u32
    }

    /// The top event.
    pub(crate) fn top(&self) -> &Expr<Flat>
        ensures { result.now ≡ self.now.top }
    {
        self.top
    }

    /// The literals of the history bits, in the order of the faults.
    pub(crate) fn literals(&self) -> &[Lit]
        ensures { result.now ≡ history_in self.now }
    {
        self.history.as_slice()
    }
}

/// Want of memory where a flat model has more symbols than a search has numbers for.
fn count_symbols(case: &LoadedCase) -> Result<(), OutOfMemory>
    ensures few { OnOk result (length case.now.limited.typed.model.symbols < 2 ^ 31) }
    ensures fits { length case.now.limited.typed.model.symbols < 2 ^ 31 → IsOk result }
{
    if case.limited.typed.model().symbols.len() >= MOST_SYMBOLS {
        return Err(OutOfMemory);
    }
    Ok(())
}
