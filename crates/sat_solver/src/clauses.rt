//! The clauses of a store, by their places.
//!
//! This is all that the search asks of its clauses: how many there are, the literals of each, one more
//! clause at the end, and which clauses a literal that was made true leaves false or unit. Each such
//! clause is tried before it is used, and before an answer all clauses are looked at.
ghost use Rattle.std.specs.Prelude.{◌≡◌, ◌+◌, ◌<◌, [], ◌∷◌, ◌++◌, length, All, OnOk, OnErr, Some, slice_get};
ghost use Rattle.sat_clauses.specs.Models.{ClauseBelow};
ghost use Rattle.sat_clauses.specs.Derivation.{IsUpTo};

use base_values::OutOfMemory;
use sat_clauses::clause::ClauseList;
use sat_clauses::lit::Lit;
use sat_clauses::store::Store;

/// How many clauses there are.
pub fn len<S: Store>(store: &S) -> usize
    ensures { result ≡ length (S.held store.now).clauses }
{
    store.count() as usize
}

/// The literals of the clause at place `i`, from 0.
pub fn lits<S: Store>(store: &S, i: usize) -> &[Lit]
    requires { i < length (S.held store.now).clauses }
    ensures { slice_get (S.held store.now).clauses i ≡ Some result.now }
{
    // The number of clauses is one of 64 bits.
    let _count = store.count();
    store.lits(i as u64 + 1)
}

/// Appends a clause.
pub fn append<S: Store>(store: &mut S, lits: &[Lit]) -> Result<(), OutOfMemory>
    requires { ClauseBelow ((S.held store.old).vars + 1) lits.now }
    ensures ok { OnOk result ((S.held store.new).clauses ≡ (S.held store.old).clauses ++ lits.now ∷ []) }
    ensures err { OnErr result ((S.held store.new).clauses ≡ (S.held store.old).clauses) }
    ensures vars { (S.held store.new).vars ≡ (S.held store.old).vars }
    ensures trail { (S.held store.new).trail ≡ (S.held store.old).trail }
{
    store.push(lits)?;
    Ok(())
}

/// Appends the clauses of a list.
pub fn fill<S: Store>(store: &mut S, clauses: &ClauseList) -> Result<(), OutOfMemory>
    requires { All (All (IsUpTo (S.held store.old).vars)) clauses.now }
    ensures clauses { OnOk result ((S.held store.new).clauses ≡ (S.held store.old).clauses ++ clauses.now) }
    ensures vars { (S.held store.new).vars ≡ (S.held store.old).vars }
    ensures trail { (S.held store.new).trail ≡ (S.held store.old).trail }
{
    let mut i = 0;
    while i < clauses.len() {
        store.push(clauses.at(i).lits())?;
        i += 1;
    }
    Ok(())
}
