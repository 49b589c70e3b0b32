//! How many nodes an expression has, and how high it is: [`size`] and [`height`].
ghost use Rattle.std.specs.Prelude.{◌≡◌, ◌<◌, ◌≤◌, ◌^◌, ◌+◌};
ghost use Rattle.smv_language.specs.Tree.{size_of, trees_size, branches_size, height_of, trees_height, branches_height};
ghost use Rattle.smv_language.specs.ExpressionTree.{tree_of, trees_of, branches_of};

use crate::expr::Expr;
use base_values::Dotted;

/// The number of nodes.
#[cycle(size)]
pub fn size(e: &Expr<Dotted>) -> u64
    requires { size_of (tree_of e.now) < 2 ^ 32 }
    ensures { result ≡ size_of (tree_of e.now) }
{
    match e {
        Expr::Truth(_) | Expr::Number(_) | Expr::Leaf(_) | Expr::Span(_, _) => 1,
        Expr::Not(a) | Expr::Negate(a) | Expr::Next(a) => size(a) + 1,
        Expr::Binary(_, a, b) => size(a) + size(b) + 1,
        Expr::Choice(c, a, b) => size(c) + size(a) + size(b) + 1,
        Expr::Case(branches) => branches_total(branches.as_slice()) + 1,
        Expr::SetOf(members) => members_total(members.as_slice()) + 1,
    }
}

/// The nodes of all members of a set.
#[cycle(size)]
#[tactic(auto, using(crate::proofs::Parts::trees_size_more))]
fn members_total(members: &[Expr<Dotted>]) -> u64
    requires { trees_size (trees_of members.now) < 2 ^ 32 }
    ensures { result ≡ trees_size (trees_of members.now) }
{
    let mut total = 0;
    for member in members {
        total += size(member);
    }
    total
}

/// The nodes of all branches of a case.
#[cycle(size)]
#[tactic(auto, using(crate::proofs::Parts::branches_size_more))]
fn branches_total(branches: &[(Expr<Dotted>, Expr<Dotted>)]) -> u64
    requires { branches_size (branches_of branches.now) < 2 ^ 32 }
    ensures { result ≡ branches_size (branches_of branches.now) }
{
    let mut total = 0;
    for (condition, value) in branches {
        total += size(condition) + size(value);
    }
    total
}

/// The nodes of the longest way from the root down.
#[cycle(height)]
#[tactic(auto, using(crate::proofs::WrittenLaws::tree_of_case, crate::proofs::WrittenLaws::tree_of_set))]
pub fn height(e: &Expr<Dotted>) -> u32
    requires { size_of (tree_of e.now) < 2 ^ 32 }
    ensures value { result ≡ height_of (tree_of e.now) }
    ensures within { result ≤ size_of (tree_of e.now) }
{
    match e {
        Expr::Truth(_) | Expr::Number(_) | Expr::Leaf(_) | Expr::Span(_, _) => 1,
        Expr::Not(a) | Expr::Negate(a) | Expr::Next(a) => height(a) + 1,
        Expr::Binary(_, a, b) => height(a).max(height(b)) + 1,
        Expr::Choice(c, a, b) => height(c).max(height(a).max(height(b))) + 1,
        Expr::Case(branches) => branches_top(branches.as_slice()) + 1,
        Expr::SetOf(members) => members_top(members.as_slice()) + 1,
    }
}

/// The height of the highest member, and 0 where there is none.
#[cycle(height)]
#[tactic(auto, using(crate::proofs::Parts::trees_size_more, crate::proofs::Parts::trees_height_more))]
fn members_top(members: &[Expr<Dotted>]) -> u32
    requires { trees_size (trees_of members.now) < 2 ^ 32 }
    ensures value { result ≡ trees_height (trees_of members.now) }
    ensures within { result ≤ trees_size (trees_of members.now) }
{
    let mut top = 0;
    for member in members {
        top = height(member).max(top);
    }
    top
}

/// The height of the highest expression in the branches, and 0 where there is none.
#[cycle(height)]
#[tactic(auto, using(crate::proofs::Parts::branches_size_more, crate::proofs::Parts::branches_height_more))]
fn branches_top(branches: &[(Expr<Dotted>, Expr<Dotted>)]) -> u32
    requires { branches_size (branches_of branches.now) < 2 ^ 32 }
    ensures value { result ≡ branches_height (branches_of branches.now) }
    ensures within { result ≤ branches_size (branches_of branches.now) }
{
    let mut top = 0;
    for (condition, value) in branches {
        top = height(condition).max(height(value)).max(top);
    }
    top
}
