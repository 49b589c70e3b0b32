//! The store follows the trail.
//!
//! The store's own trail begins with those literals of the search's trail that it has followed. After literals
//! were taken back or made true, [`follow`] takes back what the store has beyond these, makes the others true in
//! order, and notes the clauses that the store then finds; after it the two trails are one. What is found is tried
//! before it is used.
ghost use Rattle.std.specs.Prelude.{◌≡◌, ◌+◌, length, OnOk};
ghost use Rattle.sat_solver.specs.Trail.{lits_of, followed_whole, IsLawful, IsFollowed};

use crate::clauses::{len, lits};
use crate::trail::Trail;
use base_values::OutOfMemory;
use sat_clauses::lit::Lit;
use sat_clauses::store::Store;

// Notes the short ones of the clauses that are new: a literal twice is one literal.
fn note_short<S: Store>(store: &S, trail: &mut Trail) -> Result<(), OutOfMemory>
    ensures { trail.new ≡ trail.old }
{
    let count = len(store);
    let known = trail.known(count);
    for i in known..count {
        if is_short(lits(store, i)) {
            trail.note_short(i as u64 + 1)?;
        }
    }
    Ok(())
}

// Whether all literals are one.
fn is_short(lits: &[Lit]) -> bool {
    for lit in lits {
        if *lit != lits[0] {
            return false;
        }
    }
    true
}

/// Makes the store's trail as this one, and notes what is found.
pub fn follow<S: Store>(store: &mut S, trail: &mut Trail) -> Result<(), OutOfMemory>
    requires lawful { IsLawful trail.old }
    requires places { (S.held store.old).vars + 1 ≡ length trail.old.values }
    requires followed { IsFollowed (S.held store.old).trail trail.old }
    ensures trail { OnOk result (trail.new ≡ followed_whole trail.old) }
    ensures one { OnOk result ((S.held store.new).trail ≡ lits_of trail.old.entries) }
    ensures clauses { (S.held store.new).clauses ≡ (S.held store.old).clauses }
    ensures vars { (S.held store.new).vars ≡ (S.held store.old).vars }
{
    note_short(store, trail)?;
    let keep = trail.followed();
    store.undo(keep as u64);
    let mut i = keep;
    while i < trail.len() {
        store.set(trail.at(i).lit);
        trail.note(store.found())?;
        i += 1;
    }
    trail.note_followed();
    Ok(())
}
