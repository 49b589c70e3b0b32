//! Instructions as they are written: [`Instructions`], with extensions, slices, modes and their effects.
use crate::effects::{ConstantEffect, ExpressionEffect, NumberEffect, NumbersEffect, PlainEffect};
use base_values::{Dotted, Items, Name};
use smv_language::Expr;

/// The extensions of a file, in written order.
pub type ExtensionList = Items<Extension>;

/// The slices of an extension, in written order.
pub type SliceList = Items<Slice>;

/// The modes of a slice, in written order.
pub type ModeList = Items<ModeRule>;

/// The texts of a mark's tokens, in written order.
pub type MarkList = Items<Name>;

/// An instruction file: the name that it gives itself, where it does, and its extensions.
#[derive(Drop)]
pub struct Instructions {
    pub name: Option<Name>,
    pub extensions: ExtensionList,
}

/// The slices that one EXTENSION gives a module. A file may extend a module more than once.
#[derive(Drop)]
pub struct Extension {
    pub module: Name,
    pub slices: SliceList,
}

/// A slice: the variable of the module that it affects, the states that it may start in, and the modes
/// in which that variable fails.
#[derive(Drop)]
pub struct Slice {
    pub name: Name,
    pub target: Name,
    pub start: Start,
    pub modes: ModeList,
}

/// Which states a slice may start in: nominal alone, or nominal and each of its modes.
#[derive(Clone, Copy, Debug, PartialEq, Eq)]
pub enum Start {
    Nominal,
    Any,
}

/// A mode of a slice: how the variable fails while it stands, when it may be entered and whether it
/// may be left.
#[derive(Drop)]
pub struct ModeRule {
    pub name: Name,
    /// The texts of the tokens in braces, which have no meaning here.
    pub mark: Option<MarkList>,
    pub dynamics: Dynamics,
    pub effect: Effect,
    /// The mode is entered only where this was TRUE at the moment before; none means TRUE.
    pub guard: Option<Expr<Dotted>>,
}

/// Whether a mode can be left: a permanent one stays, a transient one stays or returns to nominal.
#[derive(Clone, Copy, Debug, PartialEq, Eq)]
pub enum Dynamics {
    Permanent,
    Transient,
}

/// What is read of the affected variable while the mode stands. Its own value is what it would have
/// been without faults, and the value before is what was read at the moment before. A variant for each
/// shape of arguments; each effect has a row in `effects`.
#[derive(Drop)]
pub enum Effect {
    Plain(PlainEffect),
    OfConstant(ConstantEffect, Constant),
    OfExpression(ExpressionEffect, Expr<Dotted>),
    OfNumber(NumberEffect, i64),
    OfNumbers(NumbersEffect, i64, i64),
}

/// A constant of an instruction: a truth value, a number, or a symbol.
#[derive(Drop)]
pub enum Constant {
    Truth(bool),
    Number(i64),
    Symbol(Name),
}
