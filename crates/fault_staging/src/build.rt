//! Expressions, formulas and variables that are added to a flat model.
//!
//! Each function makes one form, and `staging` and `events` put them together. Those of any model are public.
ghost use Rattle.std.specs.Prelude.{◌≡◌, ◌<◌, ◌^◌, ◌∷◌, [], false, IfOk};
ghost use Rattle.smv_language.specs.declared.expr.Op.TheVariants as op;
ghost use Rattle.smv_language.specs.declared.program.Member.TheVariants as member;
ghost use Rattle.smv_language.specs.Tree.{not_of, next_of, binary as binary_tree, choice as choice_tree, leaf, truth};
ghost use Rattle.smv_language.specs.ProgramTree.{declared_tree, members};
ghost use Rattle.smv_language.specs.Flat.{flat_symbol};
ghost use Rattle.smv_flat_laws.specs.History.{added as added_tree};
ghost use Rattle.smv_language.specs.ModelTree.{variable_tree, formula_tree, flat_tree};
ghost use Rattle.fault_cause_laws.specs.StagedModel.{added_variable, value_of, whole as whole_tree, only as only_tree};
ghost use Rattle.fault_cause_laws.specs.StagedModel.{zero_or_one as zero_or_one_tree};

use base_values::{Dotted, Items, Name, OutOfMemory};
use smv_language::copy_model::boxed;
use smv_language::model::{Flat, Formula, Role, Variable};
use smv_language::{Declared, Expr, Member, Op};
use std::alloc::Global;

/// The value of a variable.
pub(crate) fn value(variable: u32) -> Expr<Flat>
    ensures { flat_tree result ≡ value_of variable }
{
    Expr::Leaf(Flat::Var(variable))
}

/// A symbol.
pub(crate) fn symbol(number: u32) -> Expr<Flat>
    ensures { flat_tree result ≡ leaf (flat_symbol number) }
{
    Expr::Leaf(Flat::Symbol(number))
}

/// FALSE.
pub(crate) fn falsehood() -> Expr<Flat>
    ensures { flat_tree result ≡ truth false }
{
    Expr::Truth(false)
}

/// A number.
pub(crate) fn whole(number: u64) -> Expr<Flat>
    requires { number < 2 ^ 63 }
    ensures { flat_tree result ≡ whole_tree number }
{
    Expr::Number(number as i64)
}

/// Two expressions with an operator between them.
pub fn binary(
    alloc: Global,
    op: Op,
    a: Expr<Flat>,
    b: Expr<Flat>,
) -> Result<Expr<Flat>, OutOfMemory>
    ensures { IfOk result (λ made. flat_tree made ≡ binary_tree op (flat_tree a) (flat_tree b)) }
{
    Ok(Expr::Binary(op, boxed(alloc, a)?, boxed(alloc, b)?))
}

/// The opposite of a truth value.
pub fn opposite(alloc: Global, a: Expr<Flat>) -> Result<Expr<Flat>, OutOfMemory>
    ensures { IfOk result (λ made. flat_tree made ≡ not_of (flat_tree a)) }
{
    Ok(Expr::Not(boxed(alloc, a)?))
}

/// An expression at the next moment.
pub(crate) fn next(alloc: Global, a: Expr<Flat>) -> Result<Expr<Flat>, OutOfMemory>
    ensures { IfOk result (λ made. flat_tree made ≡ next_of (flat_tree a)) }
{
    Ok(Expr::Next(boxed(alloc, a)?))
}

/// One expression where a condition is TRUE, and another elsewhere.
pub(crate) fn choice(
    alloc: Global,
    condition: Expr<Flat>,
    a: Expr<Flat>,
    b: Expr<Flat>,
) -> Result<Expr<Flat>, OutOfMemory>
    ensures { IfOk result (λ made. flat_tree made ≡ choice_tree (flat_tree condition) (flat_tree a) (flat_tree b)) }
{
    Ok(Expr::Choice(boxed(alloc, condition)?, boxed(alloc, a)?, boxed(alloc, b)?))
}

/// The set of one expression.
pub(crate) fn only(alloc: Global, a: Expr<Flat>) -> Result<Expr<Flat>, OutOfMemory>
    ensures { IfOk result (λ made. flat_tree made ≡ only_tree (flat_tree a)) }
{
    let mut members = Items::new(alloc);
    members.push(a)?;
    Ok(Expr::SetOf(members))
}

/// The set of 0 and 1.
pub(crate) fn zero_or_one(alloc: Global) -> Result<Expr<Flat>, OutOfMemory>
    ensures { IfOk result (λ made. flat_tree made ≡ zero_or_one_tree) }
{
    let mut members = Items::new(alloc);
    members.push(whole(0))?;
    members.push(whole(1))?;
    Ok(Expr::SetOf(members))
}

/// A formula that no item has.
pub fn added(value: Expr<Flat>) -> Formula
    ensures { formula_tree result ≡ added_tree (flat_tree value) }
{
    Formula {
        value,
        item: 0,
        instance: 0,
    }
}

/// The formula that a variable has one of an expression's values.
pub(crate) fn within(alloc: Global, variable: u32, a: Expr<Flat>) -> Result<Formula, OutOfMemory>
    ensures { IfOk result (λ made. formula_tree made ≡ added_tree (binary_tree op.Within (value_of variable) (flat_tree a))) }
{
    Ok(added(binary(alloc, Op::Within, value(variable), a)?))
}

/// The formula that a variable next has one of an expression's values.
pub(crate) fn within_next(
    alloc: Global,
    variable: u32,
    a: Expr<Flat>,
) -> Result<Formula, OutOfMemory>
    ensures { IfOk result (λ made. formula_tree made ≡ added_tree (binary_tree op.Within (next_of (value_of variable)) (flat_tree a))) }
{
    let target = next(alloc, value(variable))?;
    Ok(added(binary(alloc, Op::Within, target, a)?))
}

/// A state variable of `main` that no item declares.
pub(crate) fn state(alloc: Global, name: Name, declared: Declared) -> Result<Variable, OutOfMemory>
    ensures { IfOk result (λ made. variable_tree made ≡ added_variable name (declared_tree declared)) }
{
    Ok(Variable {
        path: Dotted::new(alloc, name)?,
        role: Role::State,
        declared,
        item: 0,
        instance: 0,
    })
}

/// The type of two symbols.
pub(crate) fn two_symbols(alloc: Global, a: Name, b: Name) -> Result<Declared, OutOfMemory>
    ensures { IfOk result (λ made. declared_tree made ≡ members (member.Symbol a ∷ member.Symbol b ∷ [])) }
{
    let mut members = Items::new(alloc);
    members.push(Member::Symbol(a))?;
    members.push(Member::Symbol(b))?;
    Ok(Declared::Members(members))
}
