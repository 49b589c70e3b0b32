//! The variables of a model: their domains, what is known of their values, their state bits, and the first rule that a
//! declaration breaks ([`declare_all`]).
ghost use Rattle.std.specs.Prelude.{◌≡◌, ◌+◌, [], ◌∷◌, ◌++◌, min, map, IfOk};
ghost use Rattle.base_values.specs.declared.limits.TheConstants.{MOST_COST};
ghost use Rattle.smv_language.specs.ProgramTree.{declared_tree};
ghost use Rattle.smv_language.specs.ModelTree.{model_tree, variable_tree};
ghost use Rattle.smv_type_laws.specs.DeclaredKinds.{judged_declared};
ghost use Rattle.smv_type_laws.specs.FirstBreach.{first_of};
ghost use Rattle.smv_type_laws.specs.Models.{judged_variables, variable_breaches};
ghost use Rattle.smv_types.specs.Answers.{told_rules};
ghost use Rattle.smv_types.specs.KeptKinds.{kept_sort, kept_sorts};
ghost use Rattle.smv_types.specs.Sites.{told_first_site, earlier_site, site_at};
ghost use Rattle.smv_types.specs.Sizes.{variable_bits, variables_bits};
ghost use Rattle.smv_types.specs.Types.{variable_domain};

use crate::bits::declared_bits;
use crate::cost::both;
use crate::declare::{declare, judge_declared};
use crate::numbers::TextNumbers;
use crate::site::{Site, earlier, site_of};
use crate::sort::Sort;
use base_values::{Domain, OutOfMemory};
use smv_language::model::{FlatModel, Role, Variable};
use std::alloc::Global;

/// Variables: their domains, what is known of their values, the first rule that a declaration breaks, and
/// their state bits, where one more than the limit of costs stands for every greater number.
#[derive(Drop)]
pub(crate) struct Declarations {
    pub domains: Vec<Domain>,
    pub sorts: Vec<Sort>,
    pub first: Option<Site>,
    pub bits: u64,
}

/// The variables of a model.
pub(crate) fn declare_all(alloc: Global, m: &FlatModel) -> Result<Declarations, OutOfMemory>
    ensures domains { IfOk result (λ d. d.domains.items ≡ map (variable_domain m.now.symbols) m.now.variables) }
    ensures kinds { IfOk result (λ d. d.sorts.items ≡ kept_sorts (judged_variables (model_tree m.now).variables)) }
    ensures first { IfOk result (λ d. d.first ≡ told_first_site (first_of (variable_breaches (model_tree m.now).variables))) }
    ensures bits { IfOk result (λ d. d.bits ≡ min (variables_bits m.now.symbols m.now.variables) (MOST_COST + 1)) }
{
    let numbers = TextNumbers::of(alloc, m.symbols.as_slice())?;
    declare_each(alloc, &numbers, m.variables.as_slice())
}

/// These variables, one after the other.
fn declare_each(
    alloc: Global,
    numbers: &TextNumbers<'_>,
    variables: &[Variable],
) -> Result<Declarations, OutOfMemory>
    ensures domains { IfOk result (λ d. d.domains.items ≡ map (variable_domain numbers.now.texts.now) variables.now) }
    ensures kinds { IfOk result (λ d. d.sorts.items ≡ kept_sorts (judged_variables (map variable_tree variables.now))) }
    ensures first { IfOk result (λ d. d.first ≡ told_first_site (first_of (variable_breaches (map variable_tree variables.now)))) }
    ensures bits { IfOk result (λ d. d.bits ≡ min (variables_bits numbers.now.texts.now variables.now) (MOST_COST + 1)) }
{
    let mut all = Declarations {
        domains: Vec::new(alloc),
        sorts: Vec::new(alloc),
        first: None,
        bits: 0,
    };
    for variable in variables {
        all = add_variable(alloc, numbers, all, variable)?;
    }
    Ok(all)
}

/// One more variable.
fn add_variable(
    alloc: Global,
    numbers: &TextNumbers<'_>,
    before: Declarations,
    variable: &Variable,
) -> Result<Declarations, OutOfMemory>
    ensures domains { IfOk result (λ d. d.domains.items ≡ before.domains.items ++ variable_domain numbers.now.texts.now variable.now ∷ []) }
    ensures kinds { IfOk result (λ d. d.sorts.items
        ≡ before.sorts.items ++ kept_sort (judged_declared (declared_tree variable.now.declared)) ∷ []) }
    ensures first { IfOk result (λ d. d.first ≡ earlier_site before.first
        (site_at variable.now.«instance» variable.now.item (told_rules (judged_declared (declared_tree variable.now.declared)).broken))) }
    ensures bits { IfOk result (λ d. d.bits ≡ min (before.bits + variable_bits numbers.now.texts.now variable.now) (MOST_COST + 1)) }
{
    let Declarations {
        mut domains,
        mut sorts,
        first,
        bits,
    } = before;
    let judged = judge_declared(alloc, &variable.declared)?;
    let found = site_of(variable.instance, variable.item, judged.broken);
    domains.push(declare(alloc, numbers, &variable.declared)?)?;
    let Sort { class, interval } = judged.sort;
    sorts.push(Sort { class, interval })?;
    Ok(Declarations {
        domains,
        sorts,
        first: earlier(first, found),
        bits: both(bits, variable_bits(numbers, variable)),
    })
}

/// The state bits of a variable; inputs are no part of a state.
fn variable_bits(numbers: &TextNumbers<'_>, variable: &Variable) -> u64
    ensures { result ≡ variable_bits numbers.now.texts.now variable.now }
{
    match variable.role {
        Role::State | Role::Frozen => declared_bits(numbers, &variable.declared) as u64,
        Role::Input => 0,
    }
}
