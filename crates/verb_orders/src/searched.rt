//! The search of a staged model for a trace that speaks against a claim.
//!
//! The main function is [`search`].
ghost use Rattle.std.specs.Prelude.{◌≡◌, [], IfOk, IsOk, OnOk};
ghost use Rattle.smv_language.specs.ModelTree.{model_tree, flat_tree};
ghost use Rattle.cut_search_laws.specs.Searchable.{IsSearchable};
ghost use Rattle.cut_model_search.specs.FaultyModels.{faulty_of};
ghost use Rattle.verb_orders.specs.Pairs.{IsStagedCase};
ghost use Rattle.verb_orders.specs.ClaimSearch.{HasFew, SpeaksFor, IsAnswerAlone, IsSearchOf};

use crate::pair::PairCase;
use base_values::OutOfMemory;
use base_values::limits::{MOST_FAULTS, MOST_SYMBOLS};
use cut_model_search::FaultyModel;
use cut_search::answer::Analysis;
use fault_orders::{Relation, against};
use sat_adviser::Panel;
use smv_language::Expr;
use smv_language::model::Flat;
use std::alloc::Global;

/// The expression of a claim, and what a search for a trace of it came to.
#[derive(Drop)]
pub struct Searched {
    pub top: Expr<Flat>,
    pub analysis: Analysis,
}

/// Lets a search go. Its expression is taken apart here, once for all that had it.
pub(crate) fn discard_search(_searched: Searched) {}

/// The search for a trace that reaches the top event with exactly the set, against a claim where there is one. More symbols
/// than numbers of them are want of memory, and so are more faults than a weave takes.
pub(crate) fn search(
    alloc: Global,
    staged: &PairCase,
    claim: Option<Relation>,
    depth: u32,
    panel: &mut Panel,
) -> Result<Searched, OutOfMemory>
    requires { IsStagedCase staged.now }
    ensures { IfOk result (IsSearchOf staged.now claim depth) }
{
    count_few(staged)?;
    let top = expression(alloc, staged, claim)?;
    let analysis = analysed(alloc, staged, &top, depth, panel)?;
    Ok(Searched { top, analysis })
}

/// Want of memory where there are more symbols than a search has numbers for, or more faults than a weave takes, and only
/// there.
pub(crate) fn count_few(staged: &PairCase) -> Result<(), OutOfMemory>
    ensures few { OnOk result (HasFew staged.now) }
    ensures fits { HasFew staged.now → IsOk result }
{
    if staged.loaded.case.limited.typed.model().symbols.len() >= MOST_SYMBOLS {
        return Err(OutOfMemory);
    }
    if staged.loaded.case.limited.faults.len() > MOST_FAULTS {
        return Err(OutOfMemory);
    }
    Ok(())
}

/// What speaks against a claim.
pub(crate) fn expression(
    alloc: Global,
    staged: &PairCase,
    claim: Option<Relation>,
) -> Result<Expr<Flat>, OutOfMemory>
    requires staged { IsStagedCase staged.now }
    requires few { HasFew staged.now }
    ensures speaks { IfOk result (λ e. SpeaksFor staged.now claim (flat_tree e)) }
    ensures searchable { IfOk result (λ e. IsSearchable (model_tree staged.now.typed.model) [] (flat_tree e)) }
{
    let faults = staged.loaded.case.limited.faults.len() as u32;
    against(
        alloc,
        staged.typed.model(),
        faults,
        &staged.loaded.top,
        &staged.set,
        claim,
    )
}

/// The analysis of a staged model for an expression.
fn analysed(
    alloc: Global,
    staged: &PairCase,
    top: &Expr<Flat>,
    depth: u32,
    panel: &mut Panel,
) -> Result<Analysis, OutOfMemory>
    requires none { staged.now.none ≡ [] }
    requires searchable { IsSearchable (model_tree staged.now.typed.model) [] (flat_tree top.now) }
    ensures { IfOk result (IsAnswerAlone (model_tree staged.now.typed.model) (flat_tree top.now) depth) }
{
    let model = model_of(alloc, staged, top)?;
    let analysis = model.analyse(alloc, depth, 0, panel)?;
    Ok(analysis)
}

/// The staged model, which has no faults of its own, with an expression.
pub(crate) fn model_of<'a>(
    alloc: Global,
    staged: &'a PairCase,
    top: &'a Expr<Flat>,
) -> Result<FaultyModel<'a>, OutOfMemory>
    requires none { staged.now.none ≡ [] }
    requires searchable { IsSearchable (model_tree staged.now.typed.model) [] (flat_tree top.now) }
    ensures { IfOk result (λ m. m ≡ faulty_of staged.now.typed.model [] top.now) }
{
    let model = FaultyModel::new(alloc, &staged.typed, &staged.typed, &staged.none, top)?;
    Ok(model)
}
