//! Unit propagation: what the literals of the trail make unit or false.
//!
//! [`propagate`] looks at the clauses that the store found when literals were made true, and stops at the
//! first that is unit or false. Each clause is tried anew, so what it finds is right whatever was found; that
//! it misses nothing is promised nowhere, and [`crate::find`] looks at all clauses before an answer.
ghost use Rattle.std.specs.Prelude.{◌≡◌, All};
ghost use Rattle.sat_clauses.specs.Assignment.{IsInRange};
ghost use Rattle.sat_solver.specs.ClauseFindings.{IsUseful};

use crate::find::{FoundClause, try_clause};
use crate::trail::Trail;
use sat_clauses::store::Store;

/// The next clause that the literals of the trail make unit or false, as far as it is found.
pub fn propagate<S: Store>(store: &S, trail: &mut Trail) -> FoundClause
    requires { All (All (IsInRange trail.old.values)) (S.held store.now).clauses }
    ensures same { trail.new ≡ trail.old }
    ensures found { IsUseful (S.held store.now).clauses trail.old.values result }
{
    let due = trail.due();
    for _ in 0..due {
        let number = trail.next_due();
        let found = try_clause(store, trail.assign(), number);
        match found {
            FoundClause::Nothing => {}
            _ => return found,
        }
    }
    FoundClause::Nothing
}
