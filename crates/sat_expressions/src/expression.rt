//! Expressions as gates: operands first, from left to right.
ghost use Rattle.std.specs.Prelude.{IfOk};
ghost use Rattle.smv_language.specs.ExpressionTree.{trees_of, branches_of};
ghost use Rattle.smv_language.specs.Leaves.{trees_map, branches_map};
ghost use Rattle.smv_language.specs.ModelTree.{leaf_of, flat_tree};
ghost use Rattle.sat_encoding_laws.specs.Laws.{IsAskedIn};
ghost use Rattle.sat_expressions.specs.ModelNames.{IsNamed};
ghost use Rattle.sat_expressions.specs.Parts.{asked_of, BuildsPart, BuildsMembers};
ghost use Rattle.sat_expressions.specs.Branches.{BuildsBranches};

use crate::branches::{BranchSignals, first_of, no_parts, with_condition, with_value};
use crate::names::NamedSignals;
use crate::part::{
    Applied, AskedSignal, ExpressionSignal, Form, answer, applied_part, as_truth, chosen_part,
    form_of, leaf_part, negated_part, not_part, number_part, or_part, span_part, truth, truth_part,
    union_part,
};
use base_values::OutOfMemory;
use sat_circuits::gates::Gates;
use sat_clauses::lit::Lit;
use smv_language::Expr;
use smv_language::model::Flat;
use std::alloc::Global;

/// An expression's value, or whether that of a signal is among its values, as on the right of `in`.
#[cycle(encode)]
pub fn expression(
    alloc: Global,
    g: &mut Gates,
    names: &NamedSignals<'_>,
    asked: AskedSignal<'_>,
    e: &Expr<Flat>,
) -> Result<ExpressionSignal, OutOfMemory>
    requires named { IsNamed g.old names.now }
    requires asked { IsAskedIn g.old (asked_of asked) }
    ensures { IfOk result (BuildsPart names.now (asked_of asked.entry) (flat_tree e.now) g.old g.new) }
{
    match e {
        Expr::Truth(b) => truth_part(alloc, g, asked, *b),
        Expr::Number(n) => number_part(alloc, g, asked, *n),
        Expr::Leaf(name) => leaf_part(alloc, g, names, asked, *name),
        Expr::Not(a) => {
            let part = expression(alloc, g, names, AskedSignal::ItsValue, a)?;
            not_part(alloc, g, asked, part)
        }
        Expr::Negate(a) => {
            let part = expression(alloc, g, names, AskedSignal::ItsValue, a)?;
            negated_part(alloc, g, names, asked, part)
        }
        Expr::Next(a) => {
            let part = expression(alloc, g, &names.at_next(), AskedSignal::ItsValue, a)?;
            answer(alloc, g, asked, part)
        }
        Expr::Binary(op, a, b) => match form_of(*op) {
            Form::Union => {
                let left = expression(alloc, g, names, asked, a)?;
                let right = expression(alloc, g, names, asked, b)?;
                union_part(g, left, right)
            }
            Form::Within => {
                let left = expression(alloc, g, names, AskedSignal::ItsValue, a)?;
                let found = expression(alloc, g, names, AskedSignal::WhetherHas(&left.signal), b)?;
                answer(alloc, g, asked, as_truth(found))
            }
            Form::Values => {
                let left = expression(alloc, g, names, AskedSignal::ItsValue, a)?;
                let right = expression(alloc, g, names, AskedSignal::ItsValue, b)?;
                let of = Applied {
                    op: *op,
                    left,
                    right,
                };
                applied_part(alloc, g, names, asked, of)
            }
        },
        Expr::Choice(c, a, b) => {
            let condition = expression(alloc, g, names, AskedSignal::ItsValue, c)?;
            let first = expression(alloc, g, names, asked, a)?;
            let second = expression(alloc, g, names, asked, b)?;
            chosen_part(alloc, g, names, condition, first, second)
        }
        Expr::Case(branches) => {
            let parts = each_branch(alloc, g, names, asked, branches.as_slice())?;
            first_of(alloc, g, names, parts)
        }
        Expr::SetOf(members) => {
            let l = some_member(alloc, g, names, asked, members.as_slice())?;
            Ok(truth(l))
        }
        Expr::Span(lo, hi) => span_part(alloc, g, asked, *lo, *hi),
    }
}

/// Whether what is asked of a member of a set is TRUE of some.
#[cycle(encode)]
fn some_member(
    alloc: Global,
    g: &mut Gates,
    names: &NamedSignals<'_>,
    asked: AskedSignal<'_>,
    members: &[Expr<Flat>],
) -> Result<Lit, OutOfMemory>
    requires named { IsNamed g.old names.now }
    requires asked { IsAskedIn g.old (asked_of asked) }
    ensures { IfOk result (BuildsMembers names.now (asked_of asked.entry) (trees_map leaf_of (trees_of members.now)) g.old g.new) }
{
    let mut found = g.constant(false);
    for member in members {
        let here = expression(alloc, g, names, asked, member)?;
        found = or_part(g, found, here)?;
    }
    Ok(found)
}

/// The conditions, but the last, and the values of a case's branches, in written order.
#[cycle(encode)]
fn each_branch(
    alloc: Global,
    g: &mut Gates,
    names: &NamedSignals<'_>,
    asked: AskedSignal<'_>,
    branches: &[(Expr<Flat>, Expr<Flat>)],
) -> Result<BranchSignals, OutOfMemory>
    requires named { IsNamed g.old names.now }
    requires asked { IsAskedIn g.old (asked_of asked) }
    ensures { IfOk result (BuildsBranches names.now (asked_of asked.entry) (branches_map leaf_of (branches_of branches.now)) g.old g.new) }
{
    let mut parts = no_parts(alloc);
    let mut left = branches.len();
    for (condition, value) in branches {
        left -= 1;
        if left > 0 {
            let c = expression(alloc, g, names, AskedSignal::ItsValue, condition)?;
            parts = with_condition(g, parts, c)?;
        }
        let value = expression(alloc, g, names, asked, value)?;
        parts = with_value(parts, value)?;
    }
    Ok(parts)
}
