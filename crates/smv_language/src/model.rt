//! Flat models as values: one list of variables, and formulas over them, whose names are numbers.
use crate::expr::Expr;
use crate::program::Declared;
use base_values::{Dotted, Items, Name, NameList};

/// What a name of a flat expression stands for: a variable, a symbol or a definition, by its number in
/// the model's lists, counted from 0.
#[derive(Clone, Copy, Debug, PartialEq, Eq)]
pub enum Flat {
    Var(u32),
    Symbol(u32),
    Definition(u32),
}

/// Who chooses a variable's values: the state moves, an input is free at each moment, and a frozen
/// variable keeps its first value.
#[derive(Clone, Copy, Debug, PartialEq, Eq)]
pub enum Role {
    State,
    Input,
    Frozen,
}

/// An instance of a module. The path names it from `main` on, which has no path of its own.
#[derive(Drop)]
pub struct Instance {
    pub path: Option<Dotted>,
    pub module: Name,
}

/// A variable of an instance: its name from `main` on, what it is declared to be, the item of its
/// declaration, and the number of the instance that it stands in.
#[derive(Drop)]
pub struct Variable {
    pub path: Dotted,
    pub role: Role,
    pub declared: Declared,
    pub item: u32,
    pub instance: u32,
}

/// A flat expression with the item and the instance that it comes from: a definition's value, or a
/// condition on each trace.
#[derive(Drop)]
pub struct Formula {
    pub value: Expr<Flat>,
    pub item: u32,
    pub instance: u32,
}

/// Instances, in depth-first order from `main`, which is number 0.
pub type InstanceList = Items<Instance>;

/// Variables, in the order in which the walk over the instances meets their declarations.
pub type VariableList = Items<Variable>;

/// Definitions or formulas.
pub type FlatList = Items<Formula>;

/// A program as one list of variables and of formulas over them. A definition uses earlier ones alone.
/// `init` holds at the first moment, `invar` at each, and `trans` at each with the moment after it.
#[derive(Drop)]
pub struct FlatModel {
    pub instances: InstanceList,
    pub variables: VariableList,
    pub definitions: FlatList,
    pub symbols: NameList,
    pub init: FlatList,
    pub invar: FlatList,
    pub trans: FlatList,
}

/// A fault of an analysis: its name, the number of its state variable, and the number of the symbol that
/// the variable has while the fault's mode stands.
#[derive(Drop)]
pub struct Fault {
    pub name: Dotted,
    pub variable: u32,
    pub symbol: u32,
}

/// Faults, in the order in which reports number them from 1.
pub type FaultList = Items<Fault>;
