//! Copies of written expressions: [`Expr::copy`] gives the same tree in memory of its own.
ghost use Rattle.std.specs.Prelude.{◌≡◌, IfOk, map};
ghost use Rattle.smv_language.specs.ExpressionTree.{tree_of, branch_trees};

use crate::expr::{BranchList, Expr, ExprList};
use base_values::{Dotted, Items, OutOfMemory};
use std::alloc::Global;

impl Expr<Dotted> {
    /// A copy of its own, which is the same tree.
    #[cycle(copy)]
    #[tactic(auto, using(crate::proofs::WrittenLaws::tree_of_case, crate::proofs::WrittenLaws::tree_of_set))]
    pub fn copy(&self, alloc: Global) -> Result<Expr<Dotted>, OutOfMemory>
        ensures { IfOk result (λ made. tree_of made ≡ tree_of self.now) }
    {
        match self {
            Expr::Truth(b) => Ok(Expr::Truth(*b)),
            Expr::Number(n) => Ok(Expr::Number(*n)),
            Expr::Leaf(name) => Ok(Expr::Leaf(name.copy()?)),
            Expr::Not(a) => Ok(Expr::Not(copy_boxed(alloc, a)?)),
            Expr::Negate(a) => Ok(Expr::Negate(copy_boxed(alloc, a)?)),
            Expr::Next(a) => Ok(Expr::Next(copy_boxed(alloc, a)?)),
            Expr::Binary(op, a, b) => {
                Ok(Expr::Binary(*op, copy_boxed(alloc, a)?, copy_boxed(alloc, b)?))
            }
            Expr::Choice(c, a, b) => Ok(Expr::Choice(
                copy_boxed(alloc, c)?,
                copy_boxed(alloc, a)?,
                copy_boxed(alloc, b)?,
            )),
            Expr::Case(branches) => Ok(Expr::Case(copy_branches(alloc, branches.as_slice())?)),
            Expr::SetOf(members) => Ok(Expr::SetOf(copy_expressions(alloc, members.as_slice())?)),
            Expr::Span(lo, hi) => Ok(Expr::Span(*lo, *hi)),
        }
    }
}

/// A copy in a box of its own.
#[cycle(copy)]
fn copy_boxed(alloc: Global, e: &Expr<Dotted>) -> Result<Box<Expr<Dotted>>, OutOfMemory>
    ensures { IfOk result (λ made. tree_of made.value ≡ tree_of e.now) }
{
    let made = e.copy(alloc)?;
    Box::new(alloc, made).map_err(|_refused| OutOfMemory)
}

/// A list of its own with a copy of each expression.
#[cycle(copy)]
pub fn copy_expressions(
    alloc: Global,
    expressions: &[Expr<Dotted>],
) -> Result<ExprList<Dotted>, OutOfMemory>
    ensures { IfOk result (λ made. map tree_of made ≡ map tree_of expressions.now) }
{
    let mut made = Items::new(alloc);
    for expression in expressions {
        made.push(expression.copy(alloc)?)?;
    }
    Ok(made)
}

/// A list of its own with a copy of each branch.
#[cycle(copy)]
pub fn copy_branches(
    alloc: Global,
    branches: &[(Expr<Dotted>, Expr<Dotted>)],
) -> Result<BranchList<Dotted>, OutOfMemory>
    ensures { IfOk result (λ made. map branch_trees made ≡ map branch_trees branches.now) }
{
    let mut made = Items::new(alloc);
    for (condition, value) in branches {
        let condition = condition.copy(alloc)?;
        made.push((condition, value.copy(alloc)?))?;
    }
    Ok(made)
}
