//! What waits for an operand to its right, on a stack of `Pending`s.
//!
//! `reduce` gives an operand to all that take it before the operator which follows, and so makes the order of operators:
//! the tighter one takes its operand first, and of two in one line the left one.
ghost use Rattle.std.specs.Prelude.{◌≡◌, ◌<◌, ◌∷◌, [], None, Err, IfOk, IfSome, length};
ghost use Rattle.base_values.specs.declared.limits.TheConstants.{MOST_HEIGHT};
ghost use Rattle.smv_language.specs.Spells.{line_of};
ghost use Rattle.smv_language.specs.Tree.{height_of};
ghost use Rattle.smv_expression_reader.specs.TreeBuilder as machine;
ghost use Rattle.smv_expression_reader.specs.PartViews.{part_view, parts_of, held};
ghost use Rattle.smv_language.specs.ExpressionTree.{tree_of};
ghost use Rattle.smv_expression_reader.specs.Heights.{held_height};

use crate::fault::GrowFault;
use crate::grown::{Grown, GrownBranches, GrownList};
use crate::lines::{
    AT_AND, AT_CHOICE, AT_EXPRESSION, AT_IFF, AT_NEGATION, AT_NOT, AT_OR, AT_PRODUCT, AT_RELATION,
    AT_SUM, AT_UNION, AT_WITHIN,
};
use base_values::OutOfMemory;
use smv_language::Op;
use std::alloc::Global;

/// What waits for the operand to its right.
#[derive(Drop)]
pub enum Pending {
    Minus,
    Bang,
    Left(Op, Grown),
    Answered(Grown, Grown),
    Asked(Grown),
    Group,
    Next,
    Set(GrownList),
    Condition(GrownBranches),
    Outcome(GrownBranches, Grown),
}

/// One part more waits.
#[tactic(auto, using(crate::proofs::PartStacks::pushed_part))]
pub fn push(parts: &mut Vec<Pending>, part: Pending) -> Result<(), OutOfMemory>
    ensures { IfOk result (λ _. parts_of parts.new.items ≡ part_view part ∷ parts_of parts.old.items) }
{
    match parts.push(part) {
        Ok(()) => Ok(()),
        Err(_refused) => Err(OutOfMemory),
    }
}

/// The innermost part, taken away.
#[tactic(auto, using(crate::proofs::PartStacks::pushed_part, crate::proofs::PartStacks::no_parts))]
pub fn pop(parts: &mut Vec<Pending>) -> Option<Pending>
    ensures some { IfSome result (λ part. parts_of parts.old.items ≡ part_view part ∷ parts_of parts.new.items) }
    ensures none { result ≡ None → parts_of parts.old.items ≡ [] }
    ensures gone { result ≡ None → parts_of parts.new.items ≡ [] }
    ensures fewer { IfSome result (λ _. length parts.new.items < length parts.old.items) }
{
    match parts.pop() {
        Some(part) => Some(part),
        None => None,
    }
}

/// The part, with its operand.
fn join(alloc: Global, part: Pending, operand: Grown) -> Result<Grown, GrowFault>
    ensures ok { IfOk result (λ made. tree_of made.tree ≡ machine.joined (part_view part) (tree_of operand.tree)) }
    ensures deep { result ≡ Err GrowFault.TooDeep → MOST_HEIGHT < height_of (machine.joined (part_view part) (tree_of operand.tree)) }
{
    match part {
        Pending::Minus => Grown::negate(alloc, operand),
        Pending::Bang => Grown::not(alloc, operand),
        Pending::Left(op, left) => Grown::binary(alloc, op, left, operand),
        Pending::Answered(test, first) => Grown::choice(alloc, test, first, operand),
        _ => Ok(operand),
    }
}

/// The line of an operator, and the loosest for `->`.
fn looseness(op: Op) -> u32
    ensures { result ≡ machine.looseness (line_of op) }
{
    match op {
        Op::Times | Op::Over | Op::Mod => AT_PRODUCT,
        Op::Plus | Op::Minus => AT_SUM,
        Op::Union => AT_UNION,
        Op::Within => AT_WITHIN,
        Op::Equal | Op::Differs | Op::Less | Op::Greater | Op::AtMost | Op::AtLeast => AT_RELATION,
        Op::And => AT_AND,
        Op::Or | Op::Xor | Op::Xnor => AT_OR,
        Op::Iff => AT_IFF,
        Op::Implies => AT_EXPRESSION,
    }
}

/// The level to which an operator lets what waits take its operand: `->` nests to the right.
pub fn level(op: Op) -> u32
    ensures { result ≡ machine.level (line_of op) }
{
    match op {
        Op::Implies => AT_IFF,
        _ => looseness(op),
    }
}

/// Whether a part takes its operand before what follows of this level.
fn takes_operand(level: u32, part: &Pending) -> bool
    ensures { result ≡ machine.takes_operand level (part_view part.now) }
{
    match part {
        Pending::Minus => level <= AT_NEGATION,
        Pending::Bang => level <= AT_NOT,
        Pending::Left(op, _) => level <= looseness(*op),
        Pending::Answered(_, _) => level <= AT_CHOICE,
        _ => false,
    }
}

/// The operand, with each part that takes it before what follows of this level.
#[tactic(auto, using(crate::proofs::PartStacks::takes, crate::proofs::PartStacks::stays, crate::proofs::Tallest::reduced_high))]
pub fn reduce(
    alloc: Global,
    parts: &mut Vec<Pending>,
    level: u32,
    operand: Grown,
) -> Result<Grown, GrowFault>
    ensures ok { IfOk result (λ made. held (tree_of made.tree) (parts_of parts.new.items)
        ≡ machine.reduce level (tree_of operand.tree) (parts_of parts.old.items)) }
    ensures deep { result ≡ Err GrowFault.TooDeep →
        MOST_HEIGHT < held_height (machine.reduce level (tree_of operand.tree) (parts_of parts.old.items)) }
{
    let mut made = operand;
    while let Some(part) = pop(parts) {
        if !takes_operand(level, &part) {
            push(parts, part)?;
            return Ok(made);
        }
        made = join(alloc, part, made)?;
    }
    Ok(made)
}
