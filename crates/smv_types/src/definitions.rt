//! The definitions of a model, judged in order ([`judge_definitions`]): each names earlier ones alone, so one pass knows
//! what it needs.
ghost use Rattle.std.specs.Prelude.{◌≡◌, false, [], ◌∷◌, ◌++◌, IfOk};
ghost use Rattle.smv_language.specs.ExpressionTree.{tree_of};
ghost use Rattle.smv_language.specs.ModelTree.{model_tree};
ghost use Rattle.smv_type_laws.specs.ExpressionKinds.{judge};
ghost use Rattle.smv_type_laws.specs.Models.{judged_variables};
ghost use Rattle.smv_types.specs.Answers.{told_rules};
ghost use Rattle.smv_types.specs.KeptKinds.{kept_sort, kept_sorts};
ghost use Rattle.smv_types.specs.Names.{name_kind};
ghost use Rattle.smv_types.specs.Parts.{AreDefined};
ghost use Rattle.smv_types.specs.Sites.{earlier_site, site_at};

use crate::judge::{Sorts, judge};
use crate::site::{Site, earlier, site_of};
use crate::sort::Sort;
use base_values::OutOfMemory;
use smv_language::model::{FlatModel, Formula};
use std::alloc::Global;

/// The definitions in order, each judged over those before it: what is known of them and of the variables,
/// and the first rule that one breaks.
#[derive(Drop)]
pub(crate) struct JudgedDefinitions {
    pub sorts: Sorts,
    pub first: Option<Site>,
}

/// The definitions of a model, over what is known of its variables.
pub(crate) fn judge_definitions(
    alloc: Global,
    m: &FlatModel,
    variables: Vec<Sort>,
) -> Result<JudgedDefinitions, OutOfMemory>
    requires { variables.items ≡ kept_sorts (judged_variables (model_tree m.now).variables) }
    ensures { IfOk result (λ d. AreDefined (judged_variables (model_tree m.now).variables) m.now.definitions d) }
{
    let mut defined = JudgedDefinitions {
        sorts: Sorts {
            variables,
            definitions: Vec::new(alloc),
        },
        first: None,
    };
    for definition in m.definitions.as_slice() {
        defined = add_definition(defined, definition)?;
    }
    Ok(defined)
}

/// One more definition.
fn add_definition(
    before: JudgedDefinitions,
    definition: &Formula,
) -> Result<JudgedDefinitions, OutOfMemory>
    ensures variables { IfOk result (λ d. d.sorts.variables.items ≡ before.sorts.variables.items) }
    ensures kinds { IfOk result (λ d. d.sorts.definitions.items
        ≡ before.sorts.definitions.items ++ kept_sort (judge (name_kind before.sorts) false (tree_of definition.now.value)) ∷ []) }
    ensures first { IfOk result (λ d. d.first ≡ earlier_site before.first
        (site_at definition.now.«instance» definition.now.item
        (told_rules (judge (name_kind before.sorts) false (tree_of definition.now.value)).broken))) }
{
    let JudgedDefinitions { sorts, first } = before;
    let judged = judge(&sorts, false, &definition.value);
    let found = site_of(definition.instance, definition.item, judged.broken);
    let Sorts {
        variables,
        mut definitions,
    } = sorts;
    let Sort { class, interval } = judged.sort;
    definitions.push(Sort { class, interval })?;
    Ok(JudgedDefinitions {
        sorts: Sorts {
            variables,
            definitions,
        },
        first: earlier(first, found),
    })
}
