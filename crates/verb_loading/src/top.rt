//! The word of a top event, judged on the model and read over its extension ([`load_top`]). What is wrong with it is told
//! over the model that the user wrote; over the extension it then breaks no rule.
ghost use Rattle.std.specs.Prelude.{◌≡◌, [], false, IfOk, OnOk, IfErr, IsErrOf};
ghost use Rattle.smv_language.specs.ProgramTree.{program_tree};
ghost use Rattle.smv_language.specs.ExpressionTree.{tree_of};
ghost use Rattle.smv_language.specs.ModelTree.{model_tree, flat_tree};
ghost use Rattle.smv_flat.specs.ScopeOf.{IsScopeOf};
ghost use Rattle.smv_flat_laws.specs.Model.{IsFlatOf};
ghost use Rattle.smv_flat_laws.specs.ResolvedAt.{IsResolvedAt};
ghost use Rattle.smv_flat_laws.specs.Rules.{IsAccepted};
ghost use Rattle.verb_loading.specs.Wrongs.{IfRefused};
ghost use Rattle.verb_loading.specs.Models.{IsLawful};
ghost use Rattle.verb_loading.specs.Cases.{IsTop, IsWrongTop, IsWrongWord};
ghost use Rattle.verb_loading.specs.LoadedCases.{case_of, IsLoaded, IsTopIn, IsTopText, IsWrongTopText};
ghost use Rattle.verb_loading.specs.declared.status.Refusal.{Refusal};
ghost use Rattle.verb_loading.specs.declared.status.InputFault.{InputFault};
ghost use Rattle.verb_loading.specs.declared.status.Refusal.TheVariants as refusal;
ghost use Rattle.verb_loading.specs.declared.input.Stop.TheVariants as stop;
ghost use Rattle.smv_flat_laws.specs.ValueRules.{KeepsValue};

use crate::input::{Input, Stop};
use crate::loaded::LoadedCase;
use crate::model::LoadedModel;
use crate::status::{InputFault, Part};
use crate::wrong::Wrong;
use base_values::Dotted;
use base_values::limits::MOST_TOP_BYTES;
use smv_expression_reader::expression;
use smv_flat::Scope;
use smv_language::model::Flat;
use smv_language::{Expr, Program};
use smv_types::check_top;
use std::alloc::Global;

/// The top event that a word spells, over the flat model of the extension.
pub fn load_top(
    alloc: Global,
    word: &str,
    model: &LoadedModel,
    case: &LoadedCase,
) -> Result<Expr<Flat>, Stop>
    requires lawful { IsLawful (program_tree model.now.program) (model_tree model.now.typed.model) }
    requires loaded { IsLoaded (program_tree model.now.program) case.now }
    ensures ok { IfOk result (λ tree. IsTopIn (case_of (program_tree model.now.program) case.now) word.now (flat_tree tree)) }
    ensures refused { (r : Refusal) → IsErrOf result (stop.Refused r) →
        (fault : InputFault) × (r ≡ refusal.Top fault) × IsWrongWord (program_tree model.now.program) word.now fault }
    ensures desk { IsErrOf result stop.Desk → ⊥ }
{
    match top_of(alloc, word.as_bytes(), model, case) {
        Ok(top) => Ok(top),
        Err(wrong) => Err(Input::Top.stop(wrong)),
    }
}

/// The top event that the bytes spell, over the flat model of the extension.
fn top_of(
    alloc: Global,
    bytes: &[u8],
    model: &LoadedModel,
    case: &LoadedCase,
) -> Result<Expr<Flat>, Wrong>
    requires lawful { IsLawful (program_tree model.now.program) (model_tree model.now.typed.model) }
    requires loaded { IsLoaded (program_tree model.now.program) case.now }
    ensures ok { IfOk result (λ tree. IsTopIn (case_of (program_tree model.now.program) case.now) bytes.now (flat_tree tree)) }
    ensures wrong { IfErr result (IfRefused (IsWrongWord (program_tree model.now.program) bytes.now)) }
{
    let written = written_top(alloc, bytes)?;
    let scope = scope_of(alloc, &model.program)?;
    judge_top(alloc, model, &scope, &written)?;
    let wide = scope_of(alloc, &case.limited.woven.program)?;
    over_extension(alloc, case, &wide, &written)
}

/// The expression that the bytes spell, where they are not too many.
fn written_top(alloc: Global, bytes: &[u8]) -> Result<Expr<Dotted>, Wrong>
    ensures ok { IfOk result (λ e. IsTopText bytes.now (tree_of e)) }
    ensures wrong { IfErr result (IfRefused (IsWrongTopText bytes.now)) }
{
    if bytes.len() > MOST_TOP_BYTES {
        return Err(Wrong::Refused(InputFault {
            part: Part::Length,
            number: 1,
            place: MOST_TOP_BYTES as u64,
        }));
    }
    let written = expression(alloc, bytes)?;
    Ok(written)
}

/// The tables of a program that breaks no rule, for the expressions that are read over it.
pub fn scope_of<'a>(alloc: Global, program: &'a Program) -> Result<Scope<'a>, Wrong>
    requires { IsAccepted (program_tree program.now) }
    ensures ok { IfOk result (IsScopeOf (program_tree program.now)) }
    ensures wrong { IfErr result (IfRefused (λ fault. ⊥)) }
{
    let scope = Scope::of_accepted(alloc, program)?;
    Ok(scope)
}

/// Refuses an expression that is no top event of the model, by the scope of its program.
pub fn judge_top(
    alloc: Global,
    model: &LoadedModel,
    scope: &Scope<'_>,
    top: &Expr<Dotted>,
) -> Result<(), Wrong>
    requires lawful { IsLawful (program_tree model.now.program) (model_tree model.now.typed.model) }
    requires scope { IsScopeOf (program_tree model.now.program) scope.now }
    ensures ok { OnOk result (IsTop (program_tree model.now.program) (tree_of top.now)) }
    ensures wrong { IfErr result (IfRefused (IsWrongTop (program_tree model.now.program) (tree_of top.now) 0)) }
{
    let flat = scope.resolve_at(alloc, model.typed.model(), 0, false, top)?;
    check_top(&model.typed, &flat)?;
    Ok(())
}

/// A top event that breaks no rule of names over the extension, over its flat model, by the scope of its program.
pub fn over_extension(
    alloc: Global,
    case: &LoadedCase,
    scope: &Scope<'_>,
    top: &Expr<Dotted>,
) -> Result<Expr<Flat>, Wrong>
    requires accepted { IsAccepted (program_tree case.now.limited.woven.program) }
    requires flat { IsFlatOf (program_tree case.now.limited.woven.program) (model_tree case.now.limited.typed.model) }
    requires scope { IsScopeOf (program_tree case.now.limited.woven.program) scope.now }
    requires names { KeepsValue (program_tree case.now.limited.woven.program) [] false (tree_of top.now) }
    ensures ok { IfOk result (λ made. IsResolvedAt (program_tree case.now.limited.woven.program)
        (model_tree case.now.limited.typed.model) [] (tree_of top.now) (flat_tree made)) }
    ensures wrong { IfErr result (IfRefused (λ fault. ⊥)) }
{
    let made = scope.resolve_at(alloc, case.limited.typed.model(), 0, false, top)?;
    Ok(made)
}
