//! Programs as they are written: [`Program`], with its modules, their sections, and what stands in these.
//! Nothing is judged here: a program may name what is not declared, and give a name twice.
use crate::expr::{Expr, ExprList};
use base_values::{Dotted, Items, Name, NameList};

/// The modules of a program, in written order.
pub type ModuleList = Items<Module>;

/// The sections of a module, in written order.
pub type SectionList = Items<Section>;

/// The declarations of a section.
pub type DeclList = Items<Decl>;

/// The defines of a section.
pub type DefineList = Items<Define>;

/// The assignments of a section.
pub type AssignList = Items<Assignment>;

/// The members of a type that lists its values.
pub type MemberList = Items<Member>;

/// A program is its modules. It starts at the module `main`.
#[derive(Drop)]
pub struct Program {
    pub modules: ModuleList,
}

/// A module: its name, its formal parameters, and its sections. No formals are written without
/// parentheses.
#[derive(Drop)]
pub struct Module {
    pub name: Name,
    pub formals: NameList,
    pub sections: SectionList,
}

/// A section of a module. `Var`, `Ivar` and `Frozen` declare state, input and frozen variables, and
/// `Var` instances too.
#[derive(Drop)]
pub enum Section {
    Var(DeclList),
    Ivar(DeclList),
    Frozen(DeclList),
    Define(DefineList),
    Constants(NameList),
    Assign(AssignList),
    Init(Expr<Dotted>),
    Invar(Expr<Dotted>),
    Trans(Expr<Dotted>),
}

/// A name and what it is declared to be.
#[derive(Drop)]
pub struct Decl {
    pub name: Name,
    pub what: Declared,
}

/// What a name is declared to be: a variable with its values, or an instance with its module and its
/// actual parameters.
#[derive(Drop)]
pub enum Declared {
    Boolean,
    Range(i64, i64),
    Members(MemberList),
    Instance(Name, ExprList<Dotted>),
}

/// A value that a type lists.
#[derive(Drop)]
pub enum Member {
    Number(i64),
    Symbol(Name),
}

/// A name that stands for an expression.
#[derive(Drop)]
pub struct Define {
    pub name: Name,
    pub value: Expr<Dotted>,
}

/// The target has one of the values of the expression, at the moments that `when` says.
#[derive(Drop)]
pub struct Assignment {
    pub when: Moment,
    pub target: Dotted,
    pub value: Expr<Dotted>,
}

/// When an assignment speaks: at each moment (`x := e`), at the first (`init(x) := e`), or at the
/// moment after each (`next(x) := e`).
#[derive(Clone, Copy, Debug, PartialEq, Eq)]
pub enum Moment {
    Always,
    First,
    After,
}
