//! Small expressions, from which branches and rules are made: a function for each form.
//! A negative number is the negation of a number ([`number_expr`]).
ghost use Rattle.std.specs.Prelude.{◌≡◌, ◌≤ℤ◌, negsuc, IfOk};
ghost use Rattle.smv_language.specs.Tree.{not_of, negate, next_of, binary as binary_of, choice as choice_of, set_of, tree_then, no_tree};
ghost use Rattle.smv_language.specs.ExpressionTree.{tree_of};
ghost use Rattle.fault_instructions.specs.Templates.{named as named_tree, number_tree};

use base_values::limits::{GREATEST_NUMBER, LEAST_NUMBER};
use base_values::{Dotted, Items, Name, OutOfMemory};
use smv_language::{Expr, Op};
use std::alloc::Global;

/// The single name, as an expression.
pub fn named(alloc: Global, name: Name) -> Result<Expr<Dotted>, OutOfMemory>
    ensures { IfOk result (λ made. tree_of made ≡ named_tree name) }
{
    Ok(Expr::Leaf(Dotted::new(alloc, name)?))
}

/// The negation of a truth value.
pub fn not(alloc: Global, a: Expr<Dotted>) -> Result<Expr<Dotted>, OutOfMemory>
    ensures { IfOk result (λ made. tree_of made ≡ not_of (tree_of a)) }
{
    Ok(Expr::Not(Box::new(alloc, a)?))
}

/// The negation of a number.
pub fn negated(alloc: Global, a: Expr<Dotted>) -> Result<Expr<Dotted>, OutOfMemory>
    ensures { IfOk result (λ made. tree_of made ≡ negate (tree_of a)) }
{
    Ok(Expr::Negate(Box::new(alloc, a)?))
}

/// The expression at the next moment.
pub fn next(alloc: Global, a: Expr<Dotted>) -> Result<Expr<Dotted>, OutOfMemory>
    ensures { IfOk result (λ made. tree_of made ≡ next_of (tree_of a)) }
{
    Ok(Expr::Next(Box::new(alloc, a)?))
}

/// An operator on two expressions.
pub fn binary(
    alloc: Global,
    op: Op,
    a: Expr<Dotted>,
    b: Expr<Dotted>,
) -> Result<Expr<Dotted>, OutOfMemory>
    ensures { IfOk result (λ made. tree_of made ≡ binary_of op (tree_of a) (tree_of b)) }
{
    Ok(Expr::Binary(op, Box::new(alloc, a)?, Box::new(alloc, b)?))
}

/// The second where the first is TRUE, else the third.
pub fn choice(
    alloc: Global,
    c: Expr<Dotted>,
    a: Expr<Dotted>,
    b: Expr<Dotted>,
) -> Result<Expr<Dotted>, OutOfMemory>
    ensures { IfOk result (λ made. tree_of made ≡ choice_of (tree_of c) (tree_of a) (tree_of b)) }
{
    let c = Box::new(alloc, c)?;
    Ok(Expr::Choice(c, Box::new(alloc, a)?, Box::new(alloc, b)?))
}

/// The set of one expression.
#[tactic(auto, using(smv_language::proofs::WrittenLaws::tree_of_set))]
pub fn set_of_one(alloc: Global, a: Expr<Dotted>) -> Result<Expr<Dotted>, OutOfMemory>
    ensures { IfOk result (λ made. tree_of made ≡ set_of (tree_then (tree_of a) no_tree)) }
{
    let mut members = Items::new(alloc);
    members.push(a)?;
    Ok(Expr::SetOf(members))
}

/// The set of two expressions.
#[tactic(auto, using(smv_language::proofs::WrittenLaws::tree_of_set))]
pub fn set_of_two(
    alloc: Global,
    a: Expr<Dotted>,
    b: Expr<Dotted>,
) -> Result<Expr<Dotted>, OutOfMemory>
    ensures { IfOk result (λ made. tree_of made ≡ set_of (tree_then (tree_of a) (tree_then (tree_of b) no_tree))) }
{
    let mut members = Items::new(alloc);
    members.push(a)?;
    members.push(b)?;
    Ok(Expr::SetOf(members))
}

/// A number, where a negative one is the negation of a number, so that every number in it is within
/// 32 bits where it is so itself.
pub fn number_expr(alloc: Global, n: i64) -> Result<Expr<Dotted>, OutOfMemory>
    requires { negsuc 9223372036854775806 ≤ℤ n }
    ensures { IfOk result (λ made. tree_of made ≡ number_tree n) }
{
    if n >= 0 {
        return Ok(Expr::Number(n));
    }
    if n != LEAST_NUMBER {
        return negated(alloc, Expr::Number(-n));
    }
    let greatest = negated(alloc, Expr::Number(GREATEST_NUMBER))?;
    binary(alloc, Op::Minus, greatest, Expr::Number(1))
}
