//! The branches of effects, a function for each form: what the read value is assigned while a mode stands.
//! The trees are those of `branch_tree` in `specs/Templates.antt`.
ghost use Rattle.std.specs.Prelude.{◌≡◌, IfOk, map, All};
ghost use Rattle.smv_language.specs.ProgramTree.{declared_tree, range};
ghost use Rattle.smv_language.specs.Tree.{binary as binary_of, choice as choice_of, not_of};
ghost use Rattle.smv_language.specs.ExpressionTree.{tree_of};
ghost use Rattle.fault_instructions.specs.Instructions.{constant_value};
ghost use Rattle.fault_instructions.specs.AddedNames.{own_name as own_name_of};
ghost use Rattle.fault_instructions.specs.Numbers.{HasNegation, ValueHasNegation, MemberHasNegation, TypeHasNegations};
ghost use Rattle.fault_instructions.specs.Templates.{named as named_tree, number_tree, value_tree, domain_tree, clipped_tree};
ghost use Rattle.smv_language.specs.Trace.{value_of_member};

use crate::Constant;
use crate::build::{binary, choice, named, not, number_expr, set_of_two};
use crate::names::own_name;
use base_values::{Dotted, Items, Name, OutOfMemory};
use smv_language::{Declared, Expr, ExprList, Member, Op};
use std::alloc::Global;

/// The own value of a variable.
pub fn own_value(alloc: Global, variable: &Name) -> Result<Expr<Dotted>, OutOfMemory>
    ensures { IfOk result (λ made. tree_of made ≡ named_tree (own_name_of variable.now)) }
{
    let name = own_name(alloc, variable)?;
    named(alloc, name)
}

/// A name of the program.
pub fn name_of(alloc: Global, name: &Name) -> Result<Expr<Dotted>, OutOfMemory>
    ensures { IfOk result (λ made. tree_of made ≡ named_tree name.now) }
{
    let name = name.copy()?;
    named(alloc, name)
}

/// The opposite of the own value.
pub(crate) fn inverted(alloc: Global, target: &Name) -> Result<Expr<Dotted>, OutOfMemory>
    ensures { IfOk result (λ made. tree_of made ≡ not_of (named_tree (own_name_of target.now))) }
{
    let own = own_value(alloc, target)?;
    not(alloc, own)
}

/// The own value and the distance, clipped to the range.
pub(crate) fn moved(
    alloc: Global,
    target: &Name,
    distance: i64,
    d: &Declared,
) -> Result<Expr<Dotted>, OutOfMemory>
    requires distance { HasNegation distance }
    requires declared { TypeHasNegations (declared_tree d.now) }
    ensures { IfOk result (λ made. tree_of made ≡ clipped_tree (declared_tree d.now)
        (binary_of Op.Plus (named_tree (own_name_of target.now)) (number_tree distance))) }
{
    let own = own_value(alloc, target)?;
    let distance = number_expr(alloc, distance)?;
    let sum = binary(alloc, Op::Plus, own, distance)?;
    clipped(alloc, d, sum)
}

/// A constant, as an expression.
pub(crate) fn constant(alloc: Global, c: &Constant) -> Result<Expr<Dotted>, OutOfMemory>
    requires { ValueHasNegation (constant_value c.now) }
    ensures { IfOk result (λ made. tree_of made ≡ value_tree (constant_value c.now)) }
{
    match c {
        Constant::Truth(b) => Ok(Expr::Truth(*b)),
        Constant::Number(n) => number_expr(alloc, *n),
        Constant::Symbol(x) => name_of(alloc, x),
    }
}

/// A member of a type, as an expression.
fn member(alloc: Global, member: &Member) -> Result<Expr<Dotted>, OutOfMemory>
    requires { MemberHasNegation member.now }
    ensures { IfOk result (λ made. tree_of made ≡ value_tree (value_of_member member.now)) }
{
    match member {
        Member::Number(n) => number_expr(alloc, *n),
        Member::Symbol(x) => name_of(alloc, x),
    }
}

/// The members of a type, as expressions.
fn members(alloc: Global, members: &[Member]) -> Result<ExprList<Dotted>, OutOfMemory>
    requires { All MemberHasNegation members.now }
    ensures { IfOk result (λ made. map tree_of made ≡ map (λ m. value_tree (value_of_member m)) members.now) }
{
    let mut made = Items::new(alloc);
    for one in members {
        made.push(member(alloc, one)?)?;
    }
    Ok(made)
}

/// The set of the values of a type.
#[tactic(auto, using(smv_language::proofs::WrittenLaws::tree_of_set))]
pub(crate) fn domain(alloc: Global, d: &Declared) -> Result<Expr<Dotted>, OutOfMemory>
    requires { TypeHasNegations (declared_tree d.now) }
    ensures { IfOk result (λ made. tree_of made ≡ domain_tree (declared_tree d.now)) }
{
    match d {
        Declared::Boolean => set_of_two(alloc, Expr::Truth(false), Expr::Truth(true)),
        Declared::Range(lo, hi) => Ok(Expr::Span(*lo, *hi)),
        Declared::Members(list) => Ok(Expr::SetOf(members(alloc, list.as_slice())?)),
        Declared::Instance(_, _) => Ok(Expr::SetOf(Items::new(alloc))),
    }
}

/// A comparison of an expression with a number.
pub fn compared(
    alloc: Global,
    op: Op,
    e: &Expr<Dotted>,
    n: i64,
) -> Result<Expr<Dotted>, OutOfMemory>
    requires { HasNegation n }
    ensures { IfOk result (λ made. tree_of made ≡ binary_of op (tree_of e.now) (number_tree n)) }
{
    let copy = e.copy(alloc)?;
    let n = number_expr(alloc, n)?;
    binary(alloc, op, copy, n)
}

/// The number where the test is TRUE, else the expression.
fn replaced(
    alloc: Global,
    test: Expr<Dotted>,
    n: i64,
    e: Expr<Dotted>,
) -> Result<Expr<Dotted>, OutOfMemory>
    requires { HasNegation n }
    ensures { IfOk result (λ made. tree_of made ≡ choice_of (tree_of test) (number_tree n) (tree_of e)) }
{
    let n = number_expr(alloc, n)?;
    choice(alloc, test, n, e)
}

/// The number of the range that is nearest to that of the expression.
fn clipped(alloc: Global, d: &Declared, e: Expr<Dotted>) -> Result<Expr<Dotted>, OutOfMemory>
    requires { TypeHasNegations (declared_tree d.now) }
    ensures { IfOk result (λ made. tree_of made ≡ clipped_tree (declared_tree d.now) (tree_of e)) }
{
    match d {
        Declared::Range(lo, hi) => clipped_to(alloc, *lo, *hi, e),
        Declared::Boolean | Declared::Members(_) | Declared::Instance(_, _) => Ok(e),
    }
}

/// The number from `lo` to `hi` that is nearest to that of the expression.
fn clipped_to(alloc: Global, lo: i64, hi: i64, e: Expr<Dotted>) -> Result<Expr<Dotted>, OutOfMemory>
    requires lo { HasNegation lo }
    requires hi { HasNegation hi }
    ensures { IfOk result (λ made. tree_of made ≡ clipped_tree (range lo hi) (tree_of e)) }
{
    let above = compared(alloc, Op::Greater, &e, hi)?;
    let below = compared(alloc, Op::Less, &e, lo)?;
    let inner = replaced(alloc, below, lo, e)?;
    replaced(alloc, above, hi, inner)
}
