//! The highest variable of a list of clauses: [`highest`] tells how many variables a list that is added to the search takes.
ghost use Rattle.std.specs.Prelude.{◌<◌, ◌^◌, All};
ghost use Rattle.sat_clauses.specs.Derivation.{IsUpTo};
ghost use Rattle.cut_frames.specs.Condition.{IsNear};

use sat_clauses::clause::ClauseList;
use sat_clauses::lit::Lit;

/// The highest variable of literals.
fn highest_of(lits: &[Lit]) -> u64
    requires { All IsNear lits.now }
    ensures up_to { All (IsUpTo result) lits.now }
    ensures low { result < 2 ^ 32 }
{
    let mut most = 0;
    for lit in lits {
        most = most.max(lit.var());
    }
    most
}

/// The highest variable of clauses.
pub fn highest(list: &ClauseList) -> u64
    requires { All (All IsNear) list.now }
    ensures up_to { All (All (IsUpTo result)) list.now }
    ensures low { result < 2 ^ 32 }
{
    let mut most = 0;
    for clause in list.as_slice() {
        most = most.max(highest_of(clause.lits()));
    }
    most
}
