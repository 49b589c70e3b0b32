//! Literals of clauses: a clause without one of them, each literal once, and the resolvent of two clauses.
//!
//! [`resolvent`] is the main function. Each function answers exactly what its definition computes
//! (`specs/Resolution.antt`). Clauses are short, so all of them look through the literals.
ghost use Rattle.std.specs.Prelude.{◌≡◌, ◌++◌, ◌∷◌, [], IfOk, OnOk};
ghost use Rattle.sat_simplify.specs.Resolution.{has_literal, is_tautology as tautology, joined, each_once as once, resolvent as resolved};
ghost use Rattle.sat_simplify.specs.Resolution.{with_literal, without as rest_of};

use base_values::OutOfMemory;
use sat_clauses::clause::Clause;
use sat_clauses::lit::Lit;
use smallvec::SmallVec;
use std::alloc::Global;

// The literals of a clause that is made. Those of most clauses take no memory.
type Literals = SmallVec<Lit, 12>;

/// Whether the literal is one of these.
pub fn has(lits: &[Lit], lit: Lit) -> bool
    ensures { result ≡ has_literal lit lits.now }
{
    lits.contains(&lit)
}

/// Whether a literal and its opposite are among these.
pub fn is_tautology(lits: &[Lit]) -> bool
    ensures { result ≡ tautology lits.now }
{
    lits.iter().any(|lit| has(lits, lit.neg()))
}

// Appends the literal, unless it is there.
fn push_missing(out: &mut Literals, lit: Lit) -> Result<(), OutOfMemory>
    ensures { OnOk result (out.new.items ≡ with_literal out.old.items lit) }
{
    if !has(out.as_slice(), lit) {
        out.push(lit)?;
    }
    Ok(())
}

// Appends the literals but one that are not there.
fn push_rest(out: &mut Literals, lits: &[Lit], but: Lit) -> Result<(), OutOfMemory>
    ensures { OnOk result (out.new.items ≡ joined out.old.items (rest_of but lits.now)) }
{
    for lit in lits {
        if *lit != but {
            push_missing(out, *lit)?;
        }
    }
    Ok(())
}

/// The clause of these literals, each once.
pub fn each_once(alloc: Global, lits: &[Lit]) -> Result<Clause, OutOfMemory>
    ensures { IfOk result (λ c. c ≡ once lits.now) }
{
    let mut out = SmallVec::new(alloc);
    for lit in lits {
        push_missing(&mut out, *lit)?;
    }
    Clause::from_lits(alloc, out.as_slice())
}

/// The clause of these literals but one, each once.
pub fn without(alloc: Global, lits: &[Lit], lit: Lit) -> Result<Clause, OutOfMemory>
    ensures { IfOk result (λ c. c ≡ once (rest_of lit lits.now)) }
{
    let mut out = SmallVec::new(alloc);
    push_rest(&mut out, lits, lit)?;
    Clause::from_lits(alloc, out.as_slice())
}

/// The resolvent of a clause with a literal and one with its opposite.
pub fn resolvent(
    alloc: Global,
    lit: Lit,
    with: &[Lit],
    other: &[Lit],
) -> Result<Clause, OutOfMemory>
    ensures { IfOk result (λ c. c ≡ resolved lit with.now other.now) }
{
    let mut out = SmallVec::new(alloc);
    push_rest(&mut out, with, lit)?;
    push_rest(&mut out, other, lit.neg())?;
    Clause::from_lits(alloc, out.as_slice())
}
