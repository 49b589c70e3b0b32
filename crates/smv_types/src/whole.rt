//! All that is known of a model ([`find_all`]), and the first rule that it breaks ([`fault_of`]): the earliest of its
//! variables, definitions and formulas, and the limits of size last.
ghost use Rattle.std.specs.Prelude.{◌≡◌, ◌+◌, ◌||◌, min, nat_lt, map, IfOk};
ghost use Rattle.smv_language.specs.ModelTree.{model_tree};
ghost use Rattle.smv_type_laws.specs.Costs.{state_bits};
ghost use Rattle.smv_type_laws.specs.FirstBreach.{first_of};
ghost use Rattle.smv_type_laws.specs.Models.{judged_definitions, variable_breaches, definition_breaches, breaches};
ghost use Rattle.smv_types.specs.KeptKinds.{AreKindsOf};
ghost use Rattle.smv_types.specs.Sites.{told_first_site, fault_by};
ghost use Rattle.smv_types.specs.Types.{variable_domain};

use crate::conditions::judge_conditions;
use crate::definitions::{JudgedDefinitions, judge_definitions};
use crate::fault::{TypeFault, TypeRule};
use crate::judge::Sorts;
use crate::site::{Site, earlier};
use crate::variables::{Declarations, declare_all};
use base_values::limits::{MOST_BITS, MOST_COST};
use base_values::{Domain, OutOfMemory};
use smv_language::model::FlatModel;
use std::alloc::Global;

/// The domains of a model's variables, what is known of the values of variables and definitions, the first
/// rule that an item breaks, and the state bits, where one more than the limit of costs stands for every
/// greater number.
#[derive(Drop)]
pub(crate) struct ModelFindings {
    pub domains: Vec<Domain>,
    pub sorts: Sorts,
    pub first: Option<Site>,
    pub bits: u64,
}

/// What is found in a model.
pub(crate) fn find_all(alloc: Global, m: &FlatModel) -> Result<ModelFindings, OutOfMemory>
    ensures domains { IfOk result (λ f. f.domains.items ≡ map (variable_domain m.now.symbols) m.now.variables) }
    ensures kinds { IfOk result (λ f. AreKindsOf (model_tree m.now) f.sorts) }
    ensures first { IfOk result (λ f. f.first ≡ told_first_site (first_of (breaches (model_tree m.now)))) }
    ensures bits { IfOk result (λ f. f.bits ≡ min (state_bits (model_tree m.now)) (MOST_COST + 1)) }
{
    let Declarations {
        domains,
        sorts,
        first,
        bits,
    } = declare_all(alloc, m)?;
    let defined = judge_definitions(alloc, m, sorts)?;
    let first = first_in_all(m, &defined.sorts, first, defined.first);
    let JudgedDefinitions { sorts, first: _ } = defined;
    Ok(ModelFindings {
        domains,
        sorts,
        first,
        bits,
    })
}

/// The first rule that is broken in a model, where these are the first that its variables and its
/// definitions break.
fn first_in_all(
    m: &FlatModel,
    sorts: &Sorts,
    variables: Option<Site>,
    definitions: Option<Site>,
) -> Option<Site>
    requires kinds { AreKindsOf (model_tree m.now) sorts.now }
    requires variables { variables ≡ told_first_site (first_of (variable_breaches (model_tree m.now).variables)) }
    requires definitions { definitions
        ≡ told_first_site (first_of (definition_breaches (model_tree m.now).definitions (judged_definitions (model_tree m.now)))) }
    ensures { result ≡ told_first_site (first_of (breaches (model_tree m.now))) }
{
    let conditions = judge_conditions(sorts, m);
    earlier(variables, earlier(definitions, conditions))
}

/// The fault of a model with this first breach and these sizes.
pub(crate) fn fault_of(first: Option<Site>, cost: u64, bits: u64) -> Option<TypeFault>
    ensures { result ≡ fault_by first (nat_lt MOST_COST cost || nat_lt MOST_BITS bits) }
{
    match first {
        Some(site) => Some(TypeFault {
            rule: site.rule,
            item: site.item,
        }),
        None if cost > MOST_COST || bits > MOST_BITS => Some(TypeFault {
            rule: TypeRule::TooLarge,
            item: 0,
        }),
        None => None,
    }
}
