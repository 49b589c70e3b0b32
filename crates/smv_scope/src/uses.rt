//! The names of an expression, gathered by one pass over its tree ([`Uses::of_value`]). The rules of names and moments
//! ask of each name what it means and whether it stands under `next`, and of the whole expression where it has `next`.
ghost use Rattle.std.specs.Prelude.{◌≡◌, false, IfOk, OnOk};
ghost use Rattle.smv_language.specs.ExpressionTree.{tree_of, trees_of, branches_of};
ghost use Rattle.smv_flat_laws.specs.NameResolution.{has_next};
ghost use Rattle.smv_flat_laws.specs.Rules.{next_under_next};
ghost use Rattle.smv_scope.specs.NextFlags.{flagged};
ghost use Rattle.smv_scope.specs.SeenNames.{seen_in, seen_after, seen_after_trees, seen_after_branches};

use base_values::{Dotted, OutOfMemory};
use smv_language::Expr;
use std::alloc::Global;
use std::marker::Model;

/// A name of an expression, and whether it stands under `next`.
#[derive(Drop)]
pub struct Use<'a> {
    name: &'a Dotted,
    next: bool,
}

impl<'a> Model for Use<'a> {
    ghost use Rattle.std.specs.Prelude.{List, ℕ, Bool};

    ghost Value = { List (List ℕ) × Bool };

    ghost view = { λ each. (each.name.now, each.next) };
}

impl<'a> Use<'a> {
    /// The name.
    pub fn name(&self) -> &'a Dotted
        ensures { result.now ≡ self.now.0 }
    {
        self.name
    }

    /// Whether it stands under `next`.
    pub fn is_next(&self) -> bool
        ensures { result ≡ self.now.1 }
    {
        self.next
    }
}

/// The names of an expression in written order, and where it has `next`: somewhere, and under another.
#[derive(Drop)]
pub struct Uses<'a> {
    pub names: Vec<Use<'a>>,
    pub has_next: bool,
    pub nested_next: bool,
}

impl<'a> Uses<'a> {
    /// The names of an expression.
    #[tactic(auto, using(crate::proofs::UsesLaws::names_seen, crate::proofs::UsesLaws::next_seen, crate::proofs::UsesLaws::nested_seen))]
    pub fn of_value(alloc: Global, e: &'a Expr<Dotted>) -> Result<Uses<'a>, OutOfMemory>
        ensures names { IfOk result (λ uses. uses.names.items ≡ flagged false (tree_of e.now)) }
        ensures next { IfOk result (λ uses. uses.has_next ≡ has_next (tree_of e.now)) }
        ensures nested { IfOk result (λ uses. uses.nested_next ≡ next_under_next (tree_of e.now)) }
    {
        let mut uses = Uses {
            names: Vec::new(alloc),
            has_next: false,
            nested_next: false,
        };
        uses.add(e, false)?;
        Ok(uses)
    }

    /// Adds the names of an expression that stands under `next`, or not.
    #[cycle(uses)]
    fn add(&mut self, e: &'a Expr<Dotted>, next: bool) -> Result<(), OutOfMemory>
        ensures { OnOk result (seen_in self.new ≡ seen_after next (tree_of e.now) (seen_in self.old)) }
    {
        match e {
            Expr::Truth(_) | Expr::Number(_) | Expr::Span(_, _) => Ok(()),
            Expr::Leaf(name) => Ok(self.names.push(Use { name, next })?),
            Expr::Not(a) | Expr::Negate(a) => self.add(a, next),
            Expr::Next(a) => {
                self.has_next = true;
                self.nested_next = self.nested_next || next;
                self.add(a, true)
            }
            Expr::Binary(_, a, b) => {
                self.add(a, next)?;
                self.add(b, next)
            }
            Expr::Choice(c, a, b) => {
                self.add(c, next)?;
                self.add(a, next)?;
                self.add(b, next)
            }
            Expr::Case(branches) => self.add_branches(branches.as_slice(), next),
            Expr::SetOf(members) => self.add_members(members.as_slice(), next),
        }
    }

    /// Adds the names of the members of a set.
    #[cycle(uses)]
    fn add_members(&mut self, members: &'a [Expr<Dotted>], next: bool) -> Result<(), OutOfMemory>
        ensures { OnOk result (seen_in self.new ≡ seen_after_trees next (trees_of members.now) (seen_in self.old)) }
    {
        for member in members {
            self.add(member, next)?;
        }
        Ok(())
    }

    /// Adds the names of the branches of a case, each condition before its value.
    #[cycle(uses)]
    fn add_branches(
        &mut self,
        branches: &'a [(Expr<Dotted>, Expr<Dotted>)],
        next: bool,
    ) -> Result<(), OutOfMemory>
        ensures { OnOk result (seen_in self.new ≡ seen_after_branches next (branches_of branches.now) (seen_in self.old)) }
    {
        for (condition, value) in branches {
            self.add(condition, next)?;
            self.add(value, next)?;
        }
        Ok(())
    }
}
