//! Trees that are at most `MOST_HEIGHT` high, with their heights: `Grown`.
//!
//! That the height is exact and within the limit is part of the type, and a function that joins operands refuses a tree that
//! would be higher. So no tree above the limit is ever made or dropped.
ghost use Rattle.std.specs.Prelude.{◌≡◌, ◌<◌, ◌≤◌, ◌+◌, ◌++◌, ◌∷◌, [], Err, IfOk, map};
ghost use Rattle.base_values.specs.declared.limits.TheConstants.{MOST_HEIGHT};
ghost use Rattle.smv_language.specs.Tree.{truth, number, leaf, not_of, negate, next_of, binary, choice, case_of, set_of, span, trees_from};
ghost use Rattle.smv_language.specs.Tree.{branches_from, height_of, trees_height, branches_height};
ghost use Rattle.smv_language.specs.ExpressionTree.{tree_of, branch_trees};

use crate::fault::GrowFault;
use base_values::limits::MOST_HEIGHT;
use base_values::{Dotted, Items, OutOfMemory};
use smv_language::{BranchList, Expr, ExprList, Op};
use std::alloc::Global;

/// A tree that is at most [`MOST_HEIGHT`] high.
#[derive(Drop)]
pub struct Grown {
    pub tree: Expr<Dotted>,
    pub height: u32,
    ghost exact: { height ≡ height_of (tree_of tree) },
    ghost within: { height ≤ MOST_HEIGHT },
}

/// Trees that are at most [`MOST_HEIGHT`] high.
#[derive(Drop)]
pub struct GrownList {
    pub trees: ExprList<Dotted>,
    pub height: u32,
    ghost exact: { height ≡ trees_height (trees_from (map tree_of trees)) },
    ghost within: { height ≤ MOST_HEIGHT },
}

/// Branches whose trees are at most [`MOST_HEIGHT`] high.
#[derive(Drop)]
pub struct GrownBranches {
    pub branches: BranchList<Dotted>,
    pub height: u32,
    ghost exact: { height ≡ branches_height (branches_from (map branch_trees branches)) },
    ghost within: { height ≤ MOST_HEIGHT },
}

/// The tree in a box.
fn boxed(alloc: Global, tree: Expr<Dotted>) -> Result<Box<Expr<Dotted>>, OutOfMemory>
    ensures { IfOk result (λ made. tree_of made.value ≡ tree_of tree) }
{
    Box::new(alloc, tree).map_err(|_refused| OutOfMemory)
}

/// The height of a node over children of this height.
fn height_over(below: u32) -> Result<u32, GrowFault>
    requires { below ≤ MOST_HEIGHT }
    ensures ok { IfOk result (λ height. (height ≡ below + 1) × (height ≤ MOST_HEIGHT)) }
    ensures deep { result ≡ Err GrowFault.TooDeep → MOST_HEIGHT < below + 1 }
{
    if below < MOST_HEIGHT {
        Ok(below + 1)
    } else {
        Err(GrowFault::TooDeep)
    }
}

impl Grown {
    /// `TRUE` or `FALSE`, which is 1 high.
    pub fn truth(value: bool) -> Grown
        ensures { tree_of result.tree ≡ truth value }
    {
        Grown {
            tree: Expr::Truth(value),
            height: 1,
        }
    }

    /// A number, which is 1 high.
    pub fn constant(value: i64) -> Grown
        ensures { tree_of result.tree ≡ number value }
    {
        Grown {
            tree: Expr::Number(value),
            height: 1,
        }
    }

    /// A dotted name, which is 1 high.
    pub fn name(name: Dotted) -> Grown
        ensures { tree_of result.tree ≡ leaf name }
    {
        Grown {
            tree: Expr::Leaf(name),
            height: 1,
        }
    }

    /// The numbers from `lo` to `hi`, which is 1 high.
    pub fn span(lo: i64, hi: i64) -> Grown
        ensures { tree_of result.tree ≡ span lo hi }
    {
        Grown {
            tree: Expr::Span(lo, hi),
            height: 1,
        }
    }

    /// The negation of a truth value; `TooDeep` where it would be too high.
    pub fn not(alloc: Global, operand: Grown) -> Result<Grown, GrowFault>
        ensures ok { IfOk result (λ made. tree_of made.tree ≡ not_of (tree_of operand.tree)) }
        ensures deep { result ≡ Err GrowFault.TooDeep → MOST_HEIGHT < height_of (not_of (tree_of operand.tree)) }
    {
        let height = height_over(operand.height)?;
        Ok(Grown {
            tree: Expr::Not(boxed(alloc, operand.tree)?),
            height,
        })
    }

    /// The negation of a number; `TooDeep` where it would be too high.
    pub fn negate(alloc: Global, operand: Grown) -> Result<Grown, GrowFault>
        ensures ok { IfOk result (λ made. tree_of made.tree ≡ negate (tree_of operand.tree)) }
        ensures deep { result ≡ Err GrowFault.TooDeep → MOST_HEIGHT < height_of (negate (tree_of operand.tree)) }
    {
        let height = height_over(operand.height)?;
        Ok(Grown {
            tree: Expr::Negate(boxed(alloc, operand.tree)?),
            height,
        })
    }

    /// The operand at the next moment; `TooDeep` where it would be too high.
    pub fn next(alloc: Global, operand: Grown) -> Result<Grown, GrowFault>
        ensures ok { IfOk result (λ made. tree_of made.tree ≡ next_of (tree_of operand.tree)) }
        ensures deep { result ≡ Err GrowFault.TooDeep → MOST_HEIGHT < height_of (next_of (tree_of operand.tree)) }
    {
        let height = height_over(operand.height)?;
        Ok(Grown {
            tree: Expr::Next(boxed(alloc, operand.tree)?),
            height,
        })
    }

    /// An operator between two operands; `TooDeep` where it would be too high.
    pub fn binary(alloc: Global, op: Op, left: Grown, right: Grown) -> Result<Grown, GrowFault>
        ensures ok { IfOk result (λ made. tree_of made.tree ≡ binary op (tree_of left.tree) (tree_of right.tree)) }
        ensures deep { result ≡ Err GrowFault.TooDeep → MOST_HEIGHT < height_of (binary op (tree_of left.tree) (tree_of right.tree)) }
    {
        let height = height_over(left.height.max(right.height))?;
        let left = boxed(alloc, left.tree)?;
        let right = boxed(alloc, right.tree)?;
        Ok(Grown {
            tree: Expr::Binary(op, left, right),
            height,
        })
    }

    /// `first` where the test holds, and else `last`; `TooDeep` where it would be too high.
    pub fn choice(alloc: Global, test: Grown, first: Grown, last: Grown) -> Result<Grown, GrowFault>
        ensures ok { IfOk result (λ made. tree_of made.tree ≡ choice (tree_of test.tree) (tree_of first.tree) (tree_of last.tree)) }
        ensures deep { result ≡ Err GrowFault.TooDeep →
            MOST_HEIGHT < height_of (choice (tree_of test.tree) (tree_of first.tree) (tree_of last.tree)) }
    {
        let height = height_over(test.height.max(first.height.max(last.height)))?;
        let test = boxed(alloc, test.tree)?;
        let first = boxed(alloc, first.tree)?;
        let last = boxed(alloc, last.tree)?;
        Ok(Grown {
            tree: Expr::Choice(test, first, last),
            height,
        })
    }

    /// The set of the members; `TooDeep` where it would be too high.
    #[tactic(auto, using(smv_language::proofs::WrittenLaws::tree_of_set))]
    pub fn set(members: GrownList) -> Result<Grown, GrowFault>
        ensures ok { IfOk result (λ made. tree_of made.tree ≡ set_of (trees_from (map tree_of members.trees))) }
        ensures deep { result ≡ Err GrowFault.TooDeep → MOST_HEIGHT < height_of (set_of (trees_from (map tree_of members.trees))) }
    {
        let height = height_over(members.height)?;
        Ok(Grown {
            tree: Expr::SetOf(members.trees),
            height,
        })
    }

    /// The case of the branches; `TooDeep` where it would be too high.
    #[tactic(auto, using(smv_language::proofs::WrittenLaws::tree_of_case))]
    pub fn case(branches: GrownBranches) -> Result<Grown, GrowFault>
        ensures ok { IfOk result (λ made. tree_of made.tree ≡ case_of (branches_from (map branch_trees branches.branches))) }
        ensures deep { result ≡ Err GrowFault.TooDeep →
            MOST_HEIGHT < height_of (case_of (branches_from (map branch_trees branches.branches))) }
    {
        let height = height_over(branches.height)?;
        Ok(Grown {
            tree: Expr::Case(branches.branches),
            height,
        })
    }

    /// The tree, which is at most [`MOST_HEIGHT`] high.
    pub fn into_tree(self) -> Expr<Dotted>
        ensures same { tree_of result ≡ tree_of self.tree }
        ensures within { height_of (tree_of result) ≤ MOST_HEIGHT }
    {
        self.tree
    }
}

impl GrownList {
    /// No trees.
    pub fn new(alloc: Global) -> GrownList
        ensures { result.trees ≡ [] }
    {
        GrownList {
            trees: Items::new(alloc),
            height: 0,
        }
    }

    /// The list with one tree more.
    #[tactic(auto, using(crate::proofs::Heights::member_height, crate::proofs::Heights::pushed_member))]
    pub fn with(self, member: Grown) -> Result<GrownList, OutOfMemory>
        ensures { IfOk result (λ made. map tree_of made.trees ≡ map tree_of self.trees ++ tree_of member.tree ∷ []) }
    {
        let height = self.height.max(member.height);
        let mut trees = self.trees;
        trees.push(member.tree)?;
        Ok(GrownList { trees, height })
    }
}

impl GrownBranches {
    /// No branches.
    pub fn new(alloc: Global) -> GrownBranches
        ensures { result.branches ≡ [] }
    {
        GrownBranches {
            branches: Items::new(alloc),
            height: 0,
        }
    }

    /// The branches with one more.
    #[tactic(auto, using(crate::proofs::Heights::branch_height, crate::proofs::Heights::pushed_branch))]
    pub fn with(self, condition: Grown, value: Grown) -> Result<GrownBranches, OutOfMemory>
        ensures { IfOk result (λ made. map branch_trees made.branches
            ≡ map branch_trees self.branches ++ (tree_of condition.tree, tree_of value.tree) ∷ []) }
    {
        let height = self.height.max(condition.height.max(value.height));
        let mut branches = self.branches;
        branches.push((condition.tree, value.tree))?;
        Ok(GrownBranches { branches, height })
    }
}
