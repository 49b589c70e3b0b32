//! Literals: a variable or its negation, in one number.
//!
//! [`Lit`] is that number, its code: twice the variable, and one more for a negation. Contracts see the variable and the sign
//! alone; [`Lit::code`] serves for tables with a place for each literal. [`contains`] looks for a literal in a slice.
ghost use Rattle.std.specs.Prelude.{◌≡◌, ◌↔◌, ◌<◌, ◌≤◌, ◌^◌, All, IsTrue, Contains};
ghost use Rattle.sat_clauses.specs.Literal.{opposite};
ghost use Rattle.sat_clauses.specs.Code.{code_of};
ghost use Rattle.sat_clauses.specs.Derivation.{IsUpTo};

use std::marker::Model;

/// A variable or its negation, kept as its code: `2v` for the variable `v`, and `2v + 1` for its
/// negation.
#[derive(Clone, Copy, Debug, PartialEq, Eq)]
pub struct Lit(u64);

impl Model for Lit {
    ghost use Rattle.sat_clauses.specs.Literal.{Literal};

    ghost Value = { Literal };

    ghost use Rattle.std.specs.Prelude.{◌≤◌};
    ghost use Rattle.sat_clauses.specs.Code.{code_of, literal_of};

    ghost view = { λ l. literal_of l.0 };

    ghost invariant = { λ l. 2 ≤ l.0 };

    ghost inverse = { λ l. record { 0 = code_of l } };
}

impl Lit {
    /// The literal of a variable, numbered from 1, or of its negation.
    pub fn new(var: u64, negated: bool) -> Lit
        requires positive { 1 ≤ var }
        requires in_range { var < 2 ^ 63 }
        ensures { result ≡ record { var = var; negated = negated } }
    {
        Lit(2 * var + u64::from(negated))
    }

    /// The variable.
    pub fn var(self) -> u64
        ensures value { result ≡ self.var }
        ensures positive { 1 ≤ result }
        ensures in_range { result < 2 ^ 63 }
    {
        self.0 / 2
    }

    /// Whether this is the negation of its variable.
    pub fn is_negated(self) -> bool
        ensures { result ≡ self.negated }
    {
        self.0 % 2 == 1
    }

    /// The literal of the same variable that is true exactly where this one is false.
    pub fn neg(self) -> Lit
        ensures { result ≡ opposite self }
    {
        Lit(self.0 ^ 1)
    }

    /// The literal's code: twice the variable, and one more for a negation.
    pub fn code(self) -> u64
        ensures value { result ≡ code_of self }
        ensures positive { 2 ≤ result }
    {
        self.0
    }
}

/// Blanks for the places of a short clause that hold no literal.
impl Default for Lit {
    // The literal of variable 1.
    fn default() -> Lit {
        Lit(2)
    }
}

/// Whether a literal is among these.
pub fn contains(lits: &[Lit], lit: Lit) -> bool
    ensures { IsTrue result ↔ Contains lits.now lit }
{
    lits.contains(&lit)
}

/// Whether the variables of all these literals are at most `vars`.
pub fn are_up_to(lits: &[Lit], vars: u64) -> bool
    ensures { IsTrue result ↔ All (IsUpTo vars) lits.now }
{
    lits.iter().all(|lit| lit.var() <= vars)
}
