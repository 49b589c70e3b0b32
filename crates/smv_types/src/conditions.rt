//! The conditions of a model: each formula must be one truth value ([`judge_conditions`]).
ghost use Rattle.std.specs.Prelude.{◌≡◌, ◌++◌};
ghost use Rattle.smv_type_laws.specs.FirstBreach.{first_of};
ghost use Rattle.smv_types.specs.KeptKinds.{formula_breaches};
ghost use Rattle.smv_types.specs.Names.{name_kind};
ghost use Rattle.smv_types.specs.Sites.{told_first_site};

use crate::judge::{Sorts, judge};
use crate::site::{Site, earlier, site_of};
use crate::sort::broken_condition;
use smv_language::model::{FlatModel, Formula};

/// The first rule that a model's formulas break.
pub(crate) fn judge_conditions(sorts: &Sorts, m: &FlatModel) -> Option<Site>
    ensures { result ≡ told_first_site (first_of (formula_breaches (name_kind sorts.now) m.now.init
        ++ (formula_breaches (name_kind sorts.now) m.now.invar ++ formula_breaches (name_kind sorts.now) m.now.trans))) }
{
    let init = judge_formulas(sorts, m.init.as_slice());
    let invar = judge_formulas(sorts, m.invar.as_slice());
    let trans = judge_formulas(sorts, m.trans.as_slice());
    earlier(init, earlier(invar, trans))
}

/// The first rule that some formulas break.
fn judge_formulas(sorts: &Sorts, formulas: &[Formula]) -> Option<Site>
    ensures { result ≡ told_first_site (first_of (formula_breaches (name_kind sorts.now) formulas.now)) }
{
    let mut first = None;
    for formula in formulas {
        let judged = judge(sorts, false, &formula.value);
        let broken = broken_condition(judged);
        first = earlier(first, site_of(formula.instance, formula.item, broken));
    }
    first
}
