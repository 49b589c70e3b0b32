//! The literals of a new clause that are watched.
//!
//! Under an empty trail any two different ones would do. A clause may come under any trail, and then the two
//! that became false last are watched, where one that is not false counts as the last of all: so each time that
//! literals are taken back, a watched one is free before the others are.
ghost use Rattle.std.specs.Prelude.{◌+◌, ◌≤◌, [], ◌∷◌, ◌++◌, List};
ghost use Rattle.sat_clauses.specs.Literal.{Literal};
ghost use Rattle.sat_clauses.specs.Models.{ClauseBelow};
ghost use Rattle.sat_solver.specs.Pick.{IsRank, IsBest, IsPick};

use sat_clauses::lit::Lit;
use sat_clauses::trail::LiteralTrail;

// The code of a literal, or 0, and how late it became false.
#[derive(Clone, Copy)]
struct Best {
    code: u64,
    rank: usize,
}

// The place on the trail at which a literal became false, or the trail's length.
fn rank(trail: &LiteralTrail, lit: Lit) -> usize
    requires { lit.var ≤ trail.now.vars }
    ensures { IsRank trail.now.vars trail.now.lits lit result }
{
    match trail.assign().value(lit) {
        None => trail.lits().len(),
        Some(is_true) => {
            if is_true {
                trail.lits().len()
            } else {
                trail.place(lit)
            }
        }
    }
}

// The better of the best one so far and one more literal.
fn better(trail: &LiteralTrail, best: Best, lit: Lit, but: u64) -> Best
    requires { lit.var ≤ trail.now.vars }
    ensures { (c : List Literal) → IsBest trail.now.vars trail.now.lits but c best.code best.rank →
        IsBest trail.now.vars trail.now.lits but (c ++ lit ∷ []) result.code result.rank }
{
    let code = lit.code();
    if code == but {
        return best;
    }
    let rank = rank(trail, lit);
    if best.code > 0 && rank <= best.rank {
        return best;
    }
    Best { code, rank }
}

/// The code of a literal of the clause that became false last, other than the one with this code, or 0.
pub fn pick(lits: &[Lit], trail: &LiteralTrail, but: u64) -> u64
    requires { ClauseBelow (trail.now.vars + 1) lits.now }
    ensures { IsPick trail.now.vars trail.now.lits lits.now but result }
{
    let mut best = Best { code: 0, rank: 0 };
    for lit in lits {
        best = better(trail, best, *lit, but);
    }
    best.code
}
