//! The lines of the grammar by number, from the loosest to the tightest: `at_expr` to `at_not` of `Spells` in `smv_language`.
//!
//! An operator of a line takes operands of that line or a tighter one, so the numbers say which operator groups first.
//! `looseness` and `level` of `parts` give the line of an operator and of what waits for an operand.
/// An expression: `->`, which groups to the right, and whatever stands below.
pub const AT_EXPRESSION: u32 = 0;

/// `<->`.
pub const AT_IFF: u32 = 1;

/// `a ? b : c`, which groups to the right.
pub const AT_CHOICE: u32 = 2;

/// `|`, `xor` and `xnor`.
pub const AT_OR: u32 = 3;

/// `&`.
pub const AT_AND: u32 = 4;

/// `=`, `!=`, `<`, `>`, `<=` and `>=`.
pub const AT_RELATION: u32 = 5;

/// `in`.
pub const AT_WITHIN: u32 = 6;

/// `union`.
pub const AT_UNION: u32 = 7;

/// `+` and `-` between operands.
pub const AT_SUM: u32 = 8;

/// `*`, `/` and `mod`.
pub const AT_PRODUCT: u32 = 9;

/// `-` before an operand.
pub const AT_NEGATION: u32 = 10;

/// `!`; what stands below it is an atom.
pub const AT_NOT: u32 = 11;
