//! The tree of an expression, from the tokens that spell it: `tree`.
//!
//! One token after another is taken (`step`), in the state `Build`: what has just been read, and beside it the stack of what
//! waits for an operand (`parts`). No function calls itself, so the depth of an expression takes no stack of calls.
ghost use Rattle.std.specs.Prelude.{◌≡◌, ◌<◌, ◌≤◌, ◌∷◌, List, None, Some, Err, IfOk};
ghost use Rattle.base_values.specs.declared.limits.TheConstants.{MOST_HEIGHT};
ghost use Rattle.smv_language.specs.Tree.{height_of};
ghost use Rattle.smv_language.specs.ExpressionTree.{tree_of};
ghost use Rattle.smv_language.specs.ProgramTree.{Formula};
ghost use Rattle.smv_expression_reader.specs.TreeBuilder as machine;
ghost use Rattle.smv_expression_reader.specs.PartViews.{part_view, parts_of};
ghost use Rattle.smv_expression_reader.specs.BuildViews.{hand_view, build_view};
ghost use Rattle.smv_expression_reader.specs.Heights.{TooHigh};

use crate::fault::{BuildFault, GrowFault};
use crate::grown::{Grown, GrownBranches, GrownList};
use crate::lines::{AT_EXPRESSION, AT_OR, AT_SUM};
use crate::machine::TokenRole;
use crate::parts::{Pending, level, pop, push, reduce};
use crate::token::{Digits, TokenText};
use base_values::{Dotted, OutOfMemory};
use smv_language::{Expr, Op};
use std::alloc::Global;

/// The operand that stands last.
#[derive(Drop)]
pub enum Hand {
    Number(Digits),
    Name(Dotted),
    Other(Grown),
}

/// What was read last, before what waits.
#[derive(Drop)]
pub enum Build {
    Ready,
    NameOn(Dotted),
    HighOn(i64),
    MinusHighOn(i64),
    NextOn,
    BranchOn(GrownBranches),
    Holds(Hand),
    Broken,
}

/// The tree of an operand.
fn value(hand: Hand) -> Grown
    ensures { tree_of result.tree ≡ machine.value (hand_view hand) }
{
    match hand {
        Hand::Number(digits) => Grown::constant(digits.plain()),
        Hand::Name(name) => Grown::name(name),
        Hand::Other(grown) => grown,
    }
}

/// One part more waits.
fn wait(parts: &mut Vec<Pending>, part: Pending) -> Result<Build, OutOfMemory>
    ensures { IfOk result (λ made. build_view made (parts_of parts.new.items)
        ≡ machine.ready (part_view part ∷ (parts_of parts.old.items))) }
{
    push(parts, part)?;
    Ok(Build::Ready)
}

/// What follows a member of a set.
fn shut_set(
    parts: &mut Vec<Pending>,
    members: GrownList,
    operand: Grown,
    role: TokenRole,
) -> Result<Build, GrowFault>
    ensures ok { IfOk result (λ made. build_view made (parts_of parts.new.items)
        ≡ machine.shut (tree_of operand.tree) (part_view (Pending.Set members) ∷ parts_of parts.old.items) role) }
    ensures deep { result ≡ Err GrowFault.TooDeep →
        TooHigh (machine.shut (tree_of operand.tree) (part_view (Pending.Set members) ∷ parts_of parts.old.items) role) }
{
    match role {
        TokenRole::Comma => {
            let members = members.with(operand)?;
            Ok(wait(parts, Pending::Set(members))?)
        }
        TokenRole::ClosesSet => {
            let members = members.with(operand)?;
            Ok(Build::Holds(Hand::Other(Grown::set(members)?)))
        }
        _ => Ok(Build::Broken),
    }
}

/// What follows the value of a branch.
fn shut_branch(
    branches: GrownBranches,
    condition: Grown,
    operand: Grown,
    role: TokenRole,
) -> Result<Build, OutOfMemory>
    ensures { (ps : List machine.Part) → IfOk result (λ made.
        build_view made ps ≡ machine.shut (tree_of operand.tree) (part_view (Pending.Outcome branches condition) ∷ ps) role) }
{
    match role {
        TokenRole::Semicolon => Ok(Build::BranchOn(branches.with(condition, operand)?)),
        _ => Ok(Build::Broken),
    }
}

/// What closes this part, or goes on inside it.
fn shut_part(
    alloc: Global,
    parts: &mut Vec<Pending>,
    part: Pending,
    operand: Grown,
    role: TokenRole,
) -> Result<Build, GrowFault>
    ensures ok { IfOk result (λ made. build_view made (parts_of parts.new.items)
        ≡ machine.shut (tree_of operand.tree) (part_view part ∷ parts_of parts.old.items) role) }
    ensures deep { result ≡ Err GrowFault.TooDeep →
        TooHigh (machine.shut (tree_of operand.tree) (part_view part ∷ parts_of parts.old.items) role) }
{
    match part {
        Pending::Group => match role {
            TokenRole::Closes => Ok(Build::Holds(Hand::Other(operand))),
            _ => Ok(Build::Broken),
        },
        Pending::Next => match role {
            TokenRole::Closes => Ok(Build::Holds(Hand::Other(Grown::next(alloc, operand)?))),
            _ => Ok(Build::Broken),
        },
        Pending::Set(members) => shut_set(parts, members, operand, role),
        Pending::Asked(test) => match role {
            TokenRole::Colon => Ok(wait(parts, Pending::Answered(test, operand))?),
            _ => Ok(Build::Broken),
        },
        Pending::Condition(branches) => match role {
            TokenRole::Colon => Ok(wait(parts, Pending::Outcome(branches, operand))?),
            _ => Ok(Build::Broken),
        },
        Pending::Outcome(branches, condition) => Ok(shut_branch(
            branches, condition, operand, role,
        )?),
        Pending::Minus | Pending::Bang | Pending::Left(_, _) | Pending::Answered(_, _) => Ok(
            Build::Broken,
        ),
    }
}

/// What closes the innermost part, or goes on inside it.
fn shut(
    alloc: Global,
    parts: &mut Vec<Pending>,
    operand: Grown,
    role: TokenRole,
) -> Result<Build, GrowFault>
    ensures ok { IfOk result (λ made. build_view made (parts_of parts.new.items)
        ≡ machine.shut (tree_of operand.tree) (parts_of parts.old.items) role) }
    ensures deep { result ≡ Err GrowFault.TooDeep →
        TooHigh (machine.shut (tree_of operand.tree) (parts_of parts.old.items) role) }
{
    match pop(parts) {
        Some(part) => shut_part(alloc, parts, part, operand, role),
        None => Ok(Build::Broken),
    }
}

/// What follows an operand.
#[tactic(auto, using(crate::proofs::PartStacks::part_rules, crate::proofs::Tallest::high_rules))]
fn go_on(
    alloc: Global,
    parts: &mut Vec<Pending>,
    operand: Grown,
    role: TokenRole,
) -> Result<Build, GrowFault>
    ensures ok { IfOk result (λ made. build_view made (parts_of parts.new.items)
        ≡ machine.go_on (tree_of operand.tree) (parts_of parts.old.items) role) }
    ensures deep { result ≡ Err GrowFault.TooDeep →
        TooHigh (machine.go_on (tree_of operand.tree) (parts_of parts.old.items) role) }
{
    match role {
        TokenRole::Joins(op) => {
            let left = reduce(alloc, parts, level(op), operand)?;
            Ok(wait(parts, Pending::Left(op, left))?)
        }
        TokenRole::Minus => {
            let left = reduce(alloc, parts, AT_SUM, operand)?;
            Ok(wait(parts, Pending::Left(Op::Minus, left))?)
        }
        TokenRole::Asks => {
            let test = reduce(alloc, parts, AT_OR, operand)?;
            Ok(wait(parts, Pending::Asked(test))?)
        }
        _ => {
            let operand = reduce(alloc, parts, AT_EXPRESSION, operand)?;
            shut(alloc, parts, operand, role)
        }
    }
}

/// A span from this number on: a `-` that waits for the number is its own.
fn span_from(parts: &mut Vec<Pending>, digits: Digits) -> Result<Build, OutOfMemory>
    ensures { IfOk result (λ made. build_view made (parts_of parts.new.items) ≡ machine.span_from digits.value (parts_of parts.old.items)) }
{
    match pop(parts) {
        Some(Pending::Minus) => Ok(Build::HighOn(digits.negated())),
        Some(part) => {
            push(parts, part)?;
            Ok(Build::HighOn(digits.plain()))
        }
        None => Ok(Build::HighOn(digits.plain())),
    }
}

/// What follows a number.
fn after_number(
    alloc: Global,
    parts: &mut Vec<Pending>,
    digits: Digits,
    role: TokenRole,
) -> Result<Build, GrowFault>
    ensures ok { IfOk result (λ made. build_view made (parts_of parts.new.items)
        ≡ machine.after_hand (machine.number_hand digits.value) (parts_of parts.old.items) role) }
    ensures deep { result ≡ Err GrowFault.TooDeep →
        TooHigh (machine.after_hand (machine.number_hand digits.value) (parts_of parts.old.items) role) }
{
    match role {
        TokenRole::Dots => Ok(span_from(parts, digits)?),
        _ => go_on(alloc, parts, Grown::constant(digits.plain()), role),
    }
}

/// What follows a name.
fn after_name(
    alloc: Global,
    parts: &mut Vec<Pending>,
    name: Dotted,
    role: TokenRole,
) -> Result<Build, GrowFault>
    ensures ok { IfOk result (λ made. build_view made (parts_of parts.new.items)
        ≡ machine.after_hand (machine.name_hand name) (parts_of parts.old.items) role) }
    ensures deep { result ≡ Err GrowFault.TooDeep →
        TooHigh (machine.after_hand (machine.name_hand name) (parts_of parts.old.items) role) }
{
    match role {
        TokenRole::Dot => Ok(Build::NameOn(name)),
        _ => go_on(alloc, parts, Grown::name(name), role),
    }
}

/// What follows an operand that stands last.
fn after_hand(
    alloc: Global,
    parts: &mut Vec<Pending>,
    hand: Hand,
    role: TokenRole,
) -> Result<Build, GrowFault>
    ensures ok { IfOk result (λ made. build_view made (parts_of parts.new.items)
        ≡ machine.after_hand (hand_view hand) (parts_of parts.old.items) role) }
    ensures deep { result ≡ Err GrowFault.TooDeep →
        TooHigh (machine.after_hand (hand_view hand) (parts_of parts.old.items) role) }
{
    match hand {
        Hand::Number(digits) => after_number(alloc, parts, digits, role),
        Hand::Name(name) => after_name(alloc, parts, name, role),
        Hand::Other(grown) => go_on(alloc, parts, grown, role),
    }
}

/// What begins an operand.
fn open_operand(
    alloc: Global,
    parts: &mut Vec<Pending>,
    token: &TokenText,
    role: TokenRole,
) -> Result<Build, OutOfMemory>
    ensures { IfOk result (λ made. build_view made (parts_of parts.new.items)
        ≡ machine.open_operand (parts_of parts.old.items) token.now role) }
{
    match role {
        TokenRole::Truth(value) => Ok(Build::Holds(Hand::Other(Grown::truth(value)))),
        TokenRole::Name => {
            let name = Dotted::new(alloc, token.name(alloc)?)?;
            Ok(Build::Holds(Hand::Name(name)))
        }
        TokenRole::Number => Ok(Build::Holds(Hand::Number(token.digits()))),
        TokenRole::Next => Ok(Build::NextOn),
        TokenRole::Case => wait(parts, Pending::Condition(GrownBranches::new(alloc))),
        TokenRole::Minus => wait(parts, Pending::Minus),
        TokenRole::Bang => wait(parts, Pending::Bang),
        TokenRole::Opens => wait(parts, Pending::Group),
        TokenRole::OpensSet => wait(parts, Pending::Set(GrownList::new(alloc))),
        _ => Ok(Build::Broken),
    }
}

/// What follows a `.`.
fn after_dot(
    alloc: Global,
    name: Dotted,
    token: &TokenText,
    role: TokenRole,
) -> Result<Build, OutOfMemory>
    ensures { (ps : List machine.Part) → IfOk result (λ made.
        build_view made ps ≡ machine.build_step (machine.name_on name ps) token.now role) }
{
    match role {
        TokenRole::Name => {
            let mut name = name;
            name.push(token.name(alloc)?)?;
            Ok(Build::Holds(Hand::Name(name)))
        }
        _ => Ok(Build::Broken),
    }
}

/// What follows a `..`.
fn after_dots(lo: i64, token: &TokenText, role: TokenRole) -> Build
    ensures { (ps : List machine.Part) → build_view result ps ≡ machine.build_step (machine.high_on lo ps) token.now role }
{
    match role {
        TokenRole::Minus => Build::MinusHighOn(lo),
        TokenRole::Number => Build::Holds(Hand::Other(Grown::span(lo, token.digits().plain()))),
        _ => Build::Broken,
    }
}

/// What follows a `..` and a `-`.
fn after_minus(lo: i64, token: &TokenText, role: TokenRole) -> Build
    ensures { (ps : List machine.Part) →
        build_view result ps ≡ machine.build_step (machine.minus_high_on lo ps) token.now role }
{
    match role {
        TokenRole::Number => Build::Holds(Hand::Other(Grown::span(lo, token.digits().negated()))),
        _ => Build::Broken,
    }
}

/// What follows a `next`.
fn after_next(
    parts: &mut Vec<Pending>,
    token: &TokenText,
    role: TokenRole,
) -> Result<Build, OutOfMemory>
    ensures { IfOk result (λ made. build_view made (parts_of parts.new.items)
        ≡ machine.build_step (machine.next_on (parts_of parts.old.items)) token.now role) }
{
    match role {
        TokenRole::Opens => wait(parts, Pending::Next),
        _ => Ok(Build::Broken),
    }
}

/// What follows a branch.
fn after_branch(
    alloc: Global,
    parts: &mut Vec<Pending>,
    branches: GrownBranches,
    token: &TokenText,
    role: TokenRole,
) -> Result<Build, GrowFault>
    ensures ok { IfOk result (λ made. build_view made (parts_of parts.new.items)
        ≡ machine.build_step (build_view (Build.BranchOn branches) (parts_of parts.old.items)) token.now role) }
    ensures deep { result ≡ Err GrowFault.TooDeep →
        TooHigh (machine.build_step (build_view (Build.BranchOn branches) (parts_of parts.old.items)) token.now role) }
{
    match role {
        TokenRole::Esac => Ok(Build::Holds(Hand::Other(Grown::case(branches)?))),
        _ => {
            push(parts, Pending::Condition(branches))?;
            Ok(open_operand(alloc, parts, token, role)?)
        }
    }
}

/// One more token.
fn step(
    alloc: Global,
    build: Build,
    parts: &mut Vec<Pending>,
    token: &TokenText,
    role: TokenRole,
) -> Result<Build, GrowFault>
    ensures ok { IfOk result (λ made. build_view made (parts_of parts.new.items)
        ≡ machine.build_step (build_view build (parts_of parts.old.items)) token.now role) }
    ensures deep { result ≡ Err GrowFault.TooDeep →
        TooHigh (machine.build_step (build_view build (parts_of parts.old.items)) token.now role) }
{
    match build {
        Build::Ready => Ok(open_operand(alloc, parts, token, role)?),
        Build::NameOn(name) => Ok(after_dot(alloc, name, token, role)?),
        Build::HighOn(lo) => Ok(after_dots(lo, token, role)),
        Build::MinusHighOn(lo) => Ok(after_minus(lo, token, role)),
        Build::NextOn => Ok(after_next(parts, token, role)?),
        Build::BranchOn(branches) => after_branch(alloc, parts, branches, token, role),
        Build::Holds(hand) => after_hand(alloc, parts, hand, role),
        Build::Broken => Ok(Build::Broken),
    }
}

/// The tree, where the text ends here.
#[tactic(auto, using(crate::proofs::Tallest::finish_high, crate::proofs::PartStacks::finished_rules))]
fn finish(alloc: Global, build: Build, parts: Vec<Pending>) -> Result<Expr<Dotted>, BuildFault>
    ensures ok { IfOk result (λ made. machine.finish (build_view build (parts_of parts.items)) ≡ Some (tree_of made)) }
    ensures within { IfOk result (λ made. height_of (tree_of made) ≤ MOST_HEIGHT) }
    ensures deep { (t : Formula) → result ≡ Err BuildFault.TooDeep →
        machine.finish (build_view build (parts_of parts.items)) ≡ Some t → MOST_HEIGHT < height_of t }
    ensures none { result ≡ Err BuildFault.NoTree → machine.finish (build_view build (parts_of parts.items)) ≡ None }
{
    match build {
        Build::Holds(hand) => {
            let mut parts = parts;
            let made = reduce(alloc, &mut parts, AT_EXPRESSION, value(hand))?;
            match pop(&mut parts) {
                None => Ok(made.into_tree()),
                Some(_) => Err(BuildFault::NoTree),
            }
        }
        _ => Err(BuildFault::NoTree),
    }
}

/// The tree that the tokens spell.
#[tactic(auto, using(crate::proofs::PartStacks::no_parts))]
pub fn tree(alloc: Global, tokens: &[TokenText]) -> Result<Expr<Dotted>, BuildFault>
    ensures ok { IfOk result (λ made. machine.built tokens.now ≡ Some (tree_of made)) }
    ensures within { IfOk result (λ made. height_of (tree_of made) ≤ MOST_HEIGHT) }
    ensures deep { (t : Formula) → result ≡ Err BuildFault.TooDeep → machine.built tokens.now ≡ Some t → MOST_HEIGHT < height_of t }
    ensures none { result ≡ Err BuildFault.NoTree → machine.built tokens.now ≡ None }
{
    let mut parts = Vec::new(alloc);
    let mut build = Build::Ready;
    for token in tokens {
        build = match step(alloc, build, &mut parts, token, token.role()) {
            Ok(build) => build,
            Err(GrowFault::TooDeep) => return Err(BuildFault::TooDeep),
            Err(GrowFault::OutOfMemory) => return Err(BuildFault::OutOfMemory),
        };
    }
    finish(alloc, build, parts)
}
