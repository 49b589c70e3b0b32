//! Copies of a flat model and of its parts: [`FlatModel::copy`], and [`copy_flat`] for a single expression.
ghost use Rattle.std.specs.Prelude.{◌≡◌, IfOk, map};
ghost use Rattle.smv_language.specs.ExpressionTree.{tree_of, branch_trees};
ghost use Rattle.smv_language.specs.ModelTree.{instance_tree, variable_tree, formula_tree, model_tree};

use crate::expr::{BranchList, Expr, ExprList};
use crate::model::{
    Fault, FaultList, Flat, FlatList, FlatModel, Formula, Instance, InstanceList, Variable,
    VariableList,
};
use base_values::{Dotted, Items, NameList, OutOfMemory};
use std::alloc::Global;

/// A copy of a flat expression, which is the same tree.
#[cycle(copy_flat)]
#[tactic(auto, using(crate::proofs::WrittenLaws::tree_of_case, crate::proofs::WrittenLaws::tree_of_set))]
pub fn copy_flat(alloc: Global, e: &Expr<Flat>) -> Result<Expr<Flat>, OutOfMemory>
    ensures { IfOk result (λ made. tree_of made ≡ tree_of e.now) }
{
    match e {
        Expr::Truth(b) => Ok(Expr::Truth(*b)),
        Expr::Number(n) => Ok(Expr::Number(*n)),
        Expr::Leaf(leaf) => Ok(Expr::Leaf(*leaf)),
        Expr::Not(a) => Ok(Expr::Not(copy_boxed(alloc, a)?)),
        Expr::Negate(a) => Ok(Expr::Negate(copy_boxed(alloc, a)?)),
        Expr::Next(a) => Ok(Expr::Next(copy_boxed(alloc, a)?)),
        Expr::Binary(op, a, b) => {
            Ok(Expr::Binary(*op, copy_boxed(alloc, a)?, copy_boxed(alloc, b)?))
        }
        Expr::Choice(c, a, b) => Ok(Expr::Choice(
            copy_boxed(alloc, c)?,
            copy_boxed(alloc, a)?,
            copy_boxed(alloc, b)?,
        )),
        Expr::Case(branches) => Ok(Expr::Case(copy_branches(alloc, branches.as_slice())?)),
        Expr::SetOf(members) => Ok(Expr::SetOf(copy_expressions(alloc, members.as_slice())?)),
        Expr::Span(lo, hi) => Ok(Expr::Span(*lo, *hi)),
    }
}

/// A copy in a box of its own.
#[cycle(copy_flat)]
fn copy_boxed(alloc: Global, e: &Expr<Flat>) -> Result<Box<Expr<Flat>>, OutOfMemory>
    ensures { IfOk result (λ made. tree_of made.value ≡ tree_of e.now) }
{
    let made = copy_flat(alloc, e)?;
    boxed(alloc, made)
}

/// A copy of its own of these expressions, in their order.
#[cycle(copy_flat)]
pub fn copy_expressions(
    alloc: Global,
    members: &[Expr<Flat>],
) -> Result<ExprList<Flat>, OutOfMemory>
    ensures { IfOk result (λ made. map tree_of made ≡ map tree_of members.now) }
{
    let mut made = Items::new(alloc);
    for member in members {
        made.push(copy_flat(alloc, member)?)?;
    }
    Ok(made)
}

/// A copy of its own of these branches, in their order.
#[cycle(copy_flat)]
pub fn copy_branches(
    alloc: Global,
    branches: &[(Expr<Flat>, Expr<Flat>)],
) -> Result<BranchList<Flat>, OutOfMemory>
    ensures { IfOk result (λ made. map branch_trees made ≡ map branch_trees branches.now) }
{
    let mut made = Items::new(alloc);
    for (condition, value) in branches {
        let condition = copy_flat(alloc, condition)?;
        made.push((condition, copy_flat(alloc, value)?))?;
    }
    Ok(made)
}

impl Instance {
    /// A copy of its own, which is the same instance.
    pub fn copy(&self) -> Result<Instance, OutOfMemory>
        ensures { IfOk result (λ made. made ≡ self.now) }
    {
        let path = copy_path(&self.path)?;
        let module = self.module.copy()?;
        Ok(Instance { path, module })
    }
}

/// A copy of an instance's path; `main` has none.
pub fn copy_path(path: &Option<Dotted>) -> Result<Option<Dotted>, OutOfMemory>
    ensures { IfOk result (λ made. made ≡ path.now) }
{
    match path {
        Some(path) => Ok(Some(path.copy()?)),
        None => Ok(None),
    }
}

impl Variable {
    /// A copy of its own, which is the same variable.
    pub fn copy(&self) -> Result<Variable, OutOfMemory>
        ensures { IfOk result (λ made. variable_tree made ≡ variable_tree self.now) }
    {
        let path = self.path.copy()?;
        let declared = self.declared.copy()?;
        Ok(Variable {
            path,
            role: self.role,
            declared,
            item: self.item,
            instance: self.instance,
        })
    }
}

impl Formula {
    /// A copy of its own, which is the same formula.
    pub fn copy(&self, alloc: Global) -> Result<Formula, OutOfMemory>
        ensures { IfOk result (λ made. formula_tree made ≡ formula_tree self.now) }
    {
        let value = copy_flat(alloc, &self.value)?;
        Ok(Formula {
            value,
            item: self.item,
            instance: self.instance,
        })
    }
}

impl FlatModel {
    /// A copy of its own, which is the same model.
    pub fn copy(&self) -> Result<FlatModel, OutOfMemory>
        ensures { IfOk result (λ made. model_tree made ≡ model_tree self.now) }
    {
        let alloc = self.instances.allocator();
        let instances = copy_instances(alloc, self.instances.as_slice())?;
        let variables = copy_variables(alloc, self.variables.as_slice())?;
        let symbols = self.symbols.copy()?;
        self.with_lists(instances, variables, symbols)
    }

    /// A model of these lists with copies of the definitions and formulas of another one.
    fn with_lists(
        &self,
        instances: InstanceList,
        variables: VariableList,
        symbols: NameList,
    ) -> Result<FlatModel, OutOfMemory>
        requires instances { map instance_tree instances ≡ map instance_tree self.now.instances }
        requires variables { map variable_tree variables ≡ map variable_tree self.now.variables }
        requires symbols { symbols ≡ self.now.symbols }
        ensures { IfOk result (λ made. model_tree made ≡ model_tree self.now) }
    {
        let alloc = self.instances.allocator();
        let definitions = copy_formulas(alloc, self.definitions.as_slice())?;
        let init = copy_formulas(alloc, self.init.as_slice())?;
        let invar = copy_formulas(alloc, self.invar.as_slice())?;
        let trans = copy_formulas(alloc, self.trans.as_slice())?;
        Ok(FlatModel {
            instances,
            variables,
            definitions,
            symbols,
            init,
            invar,
            trans,
        })
    }
}

/// A copy of its own of these instances, in their order.
pub fn copy_instances(alloc: Global, instances: &[Instance]) -> Result<InstanceList, OutOfMemory>
    ensures { IfOk result (λ made. made ≡ instances.now) }
{
    let mut made = Items::new(alloc);
    for instance in instances {
        made.push(instance.copy()?)?;
    }
    Ok(made)
}

/// A copy of its own of these variables, in their order.
pub fn copy_variables(alloc: Global, variables: &[Variable]) -> Result<VariableList, OutOfMemory>
    ensures { IfOk result (λ made. map variable_tree made ≡ map variable_tree variables.now) }
{
    let mut made = Items::new(alloc);
    for variable in variables {
        made.push(variable.copy()?)?;
    }
    Ok(made)
}

/// A copy of its own of these formulas, in their order.
pub fn copy_formulas(alloc: Global, formulas: &[Formula]) -> Result<FlatList, OutOfMemory>
    ensures { IfOk result (λ made. map formula_tree made ≡ map formula_tree formulas.now) }
{
    let mut made = Items::new(alloc);
    for formula in formulas {
        made.push(formula.copy(alloc)?)?;
    }
    Ok(made)
}

impl Fault {
    /// A copy of its own, which is the same fault.
    pub fn copy(&self) -> Result<Fault, OutOfMemory>
        ensures { IfOk result (λ made. made ≡ self.now) }
    {
        Ok(Fault {
            name: self.name.copy()?,
            variable: self.variable,
            symbol: self.symbol,
        })
    }
}

/// A list of its own with a copy of each fault.
pub fn copy_faults(alloc: Global, faults: &[Fault]) -> Result<FaultList, OutOfMemory>
    ensures { IfOk result (λ made. made ≡ faults.now) }
{
    let mut made = Items::new(alloc);
    for fault in faults {
        made.push(fault.copy()?)?;
    }
    Ok(made)
}

/// An expression in a box.
pub fn boxed(alloc: Global, e: Expr<Flat>) -> Result<Box<Expr<Flat>>, OutOfMemory>
    ensures { IfOk result (λ made. made.value ≡ e) }
{
    Box::new(alloc, e).map_err(|_refused| OutOfMemory)
}
