//! Expressions: [`Expr`], a tree over leaves of any kind.
//! A written expression has dotted names as its leaves, a flat one variables, symbols and definitions by number (`model`).
use base_values::Items;

/// An operator between two operands. `Within` is written `in`, `Differs` is `!=`, `Over` is `/`; `Union`
/// gives the values of both sides.
#[derive(Clone, Copy, Debug, PartialEq, Eq)]
pub enum Op {
    Times,
    Over,
    Mod,
    Plus,
    Minus,
    Union,
    Within,
    Equal,
    Differs,
    Less,
    Greater,
    AtMost,
    AtLeast,
    And,
    Or,
    Xor,
    Xnor,
    Iff,
    Implies,
}

/// A list of expressions.
pub type ExprList<L> = Items<Expr<L>>;

/// The branches of a `case`, each a condition and a value.
pub type BranchList<L> = Items<(Expr<L>, Expr<L>)>;

/// An expression over leaves of type `L`. `Choice(c, a, b)` is written `c ? a : b`; `SetOf` is the set of
/// its members; `Span` has the numbers from the first to the second, both included.
#[derive(Drop)]
pub enum Expr<L> {
    Truth(bool),
    Number(i64),
    Leaf(L),
    Not(Box<Expr<L>>),
    Negate(Box<Expr<L>>),
    Next(Box<Expr<L>>),
    Binary(Op, Box<Expr<L>>, Box<Expr<L>>),
    Choice(Box<Expr<L>>, Box<Expr<L>>, Box<Expr<L>>),
    Case(BranchList<L>),
    SetOf(ExprList<L>),
    Span(i64, i64),
}
