//! A checker of derivations with the clauses that a derivation starts from.
ghost use Rattle.std.specs.Prelude.{◌≡◌, ◌≤◌, ◌++◌, IfOk, OnOk};
ghost use Rattle.cert_laws.specs.Acceptance.{highest, highest_in};

use base_values::OutOfMemory;
use sat_clauses::checker::Checker;
use sat_clauses::clause::Clause;
use sat_clauses::lit::Lit;
use std::alloc::Global;

/// The highest variable that a checker can have.
const MOST_VARS: u64 = 4_611_686_018_427_387_903;

/// A checker with the given clauses of two lists, over variables up to the highest of them.
pub fn checker_of(alloc: Global, given: &[Clause], more: &[Clause]) -> Result<Checker, OutOfMemory>
    ensures vars { IfOk result (λ checker. checker.vars ≡ highest (given.now ++ more.now)) }
    ensures clauses { IfOk result (λ checker. checker.clauses ≡ given.now ++ more.now) }
{
    let vars = highest(given).max(highest(more));
    if vars > MOST_VARS {
        // So many variables have no room in any memory.
        return Err(OutOfMemory);
    }
    let mut checker = Checker::new(alloc, vars)?;
    add_all(&mut checker, given)?;
    add_all(&mut checker, more)?;
    Ok(checker)
}

/// Adds given clauses to a checker.
fn add_all(checker: &mut Checker, clauses: &[Clause]) -> Result<(), OutOfMemory>
    requires { highest clauses.now ≤ checker.old.vars }
    ensures vars { OnOk result (checker.new.vars ≡ checker.old.vars) }
    ensures clauses { OnOk result (checker.new.clauses ≡ checker.old.clauses ++ clauses.now) }
{
    for clause in clauses {
        checker.add_given(clause)?;
    }
    Ok(())
}

/// The highest variable of clauses, at least 1.
fn highest(clauses: &[Clause]) -> u64
    ensures { result ≡ highest clauses.now }
{
    let mut most = 1;
    for clause in clauses {
        most = most.max(highest_in(clause.lits()));
    }
    most
}

/// The highest variable of a clause, at least 1.
pub(crate) fn highest_in(lits: &[Lit]) -> u64
    ensures { result ≡ highest_in lits.now }
{
    let mut most = 1;
    for lit in lits {
        most = most.max(lit.var());
    }
    most
}
