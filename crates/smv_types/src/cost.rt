//! The cost of expressions ([`cost`]) and of models ([`model_cost`]), by which large models are refused. It counts nodes,
//! and more for arithmetic, whose circuits are large: what passes the limit would make long clause lists. An expression costs
//! the same before its names are resolved, so that the layer above counts a program by these before its model is made.
ghost use Rattle.std.specs.Prelude.{◌≡◌, ◌+◌, min};
ghost use Rattle.smv_language.specs.ExpressionTree.{tree_of, trees_of, branches_of};
ghost use Rattle.smv_language.specs.ProgramTree.{declared_tree};
ghost use Rattle.smv_language.specs.ModelTree.{model_tree};
ghost use Rattle.smv_type_laws.specs.Costs.{op_cost, cost_of, trees_cost, branches_cost, declared_cost, model_cost};
ghost use Rattle.smv_types.specs.Sizes.{formulas_cost, variables_cost};

use base_values::limits::MOST_COST;
use smv_language::model::{FlatModel, Formula, Variable};
use smv_language::{Declared, Expr, Op};

/// One more than the limit stands for every greater cost.
const PAST_LIMIT: u64 = MOST_COST + 1;

/// Both costs together; one more than the limit stands for every greater one.
pub fn both(a: u64, b: u64) -> u64
    ensures { result ≡ min (a + b) (MOST_COST + 1) }
{
    (a.min(PAST_LIMIT) + b.min(PAST_LIMIT)).min(PAST_LIMIT)
}

/// The cost of an expression over names of any kind: 1 for each node, and 64 for `*`, `/` and `mod`. A name counts as one
/// node, also where it stands for a definition. One more than the limit stands for every greater cost. Takes no memory.
#[cycle(cost)]
#[tactic(auto, using(smv_language::proofs::WrittenLaws::tree_of_case, smv_language::proofs::WrittenLaws::tree_of_set))]
pub fn cost<L>(e: &Expr<L>) -> u64
    ensures { result ≡ min (cost_of (tree_of e.now)) (MOST_COST + 1) }
{
    match e {
        Expr::Truth(_) | Expr::Number(_) | Expr::Leaf(_) | Expr::Span(_, _) => 1,
        Expr::Not(a) | Expr::Negate(a) | Expr::Next(a) => both(1, cost(a)),
        Expr::Binary(op, a, b) => both(weight(*op), both(cost(a), cost(b))),
        Expr::Choice(c, a, b) => both(1, both(cost(c), both(cost(a), cost(b)))),
        Expr::Case(branches) => both(1, parts_cost(branches.as_slice())),
        Expr::SetOf(members) => both(1, members_cost(members.as_slice())),
    }
}

/// The cost of the members of a set.
#[cycle(cost)]
#[tactic(auto, using(crate::proofs::TreeLaws::trees_cost_more))]
fn members_cost<L>(members: &[Expr<L>]) -> u64
    ensures { result ≡ min (trees_cost (trees_of members.now)) (MOST_COST + 1) }
{
    let mut total = 0;
    for member in members {
        total = both(total, cost(member));
    }
    total
}

/// The cost of the branches of a case.
#[cycle(cost)]
#[tactic(auto, using(crate::proofs::TreeLaws::branches_cost_more))]
fn parts_cost<L>(branches: &[(Expr<L>, Expr<L>)]) -> u64
    ensures { result ≡ min (branches_cost (branches_of branches.now)) (MOST_COST + 1) }
{
    let mut total = 0;
    for (condition, value) in branches {
        total = both(total, both(cost(condition), cost(value)));
    }
    total
}

/// The cost of the node of an operator.
fn weight(op: Op) -> u64
    ensures { result ≡ op_cost op }
{
    match op {
        Op::Times | Op::Over | Op::Mod => 64,
        _ => 1,
    }
}

/// The cost of a model, which is that of its variables, definitions and formulas; one more than the limit
/// stands for every greater one.
#[tactic(auto, using(crate::proofs::SizeLaws::whole_cost))]
pub(crate) fn model_cost(m: &FlatModel) -> u64
    ensures { result ≡ min (model_cost (model_tree m.now)) (MOST_COST + 1) }
{
    let conditions = both(
        formulas_cost(m.init.as_slice()),
        both(
            formulas_cost(m.invar.as_slice()),
            formulas_cost(m.trans.as_slice()),
        ),
    );
    both(
        variables_cost(m.variables.as_slice()),
        both(formulas_cost(m.definitions.as_slice()), conditions),
    )
}

/// The cost of some formulas.
#[tactic(auto, using(crate::proofs::SizeLaws::formulas_cost_more))]
fn formulas_cost(formulas: &[Formula]) -> u64
    ensures { result ≡ min (formulas_cost formulas.now) (MOST_COST + 1) }
{
    let mut total = 0;
    for formula in formulas {
        total = both(total, cost(&formula.value));
    }
    total
}

/// The cost of the declared types of variables.
#[tactic(auto, using(crate::proofs::SizeLaws::variables_cost_more))]
fn variables_cost(variables: &[Variable]) -> u64
    ensures { result ≡ min (variables_cost variables.now) (MOST_COST + 1) }
{
    let mut total = 0;
    for variable in variables {
        total = both(total, declared_cost(&variable.declared));
    }
    total
}

/// The cost of a declared type: as many as its members, and 3 for a range. An instance has none of its own.
pub fn declared_cost(declared: &Declared) -> u64
    ensures { result ≡ declared_cost (declared_tree declared.now) }
{
    match declared {
        Declared::Boolean | Declared::Instance(_, _) => 0,
        Declared::Range(_, _) => 3,
        Declared::Members(members) => members.len() as u64,
    }
}
