//! Literals marked in a table of a fixed size: whether a clause has opposites, in time by its length and without memory.
//!
//! The table has a place for each code of a window, which are so many codes one after the other. [`has_no_opposites`] goes
//! through a long clause twice for each window of the codes up to the highest, and marks its literals in the table. A short
//! clause is looked through literal by literal.
ghost use Rattle.std.specs.Prelude.{◌≡◌, ◌↔◌, ◌<◌, ◌/◌, not, false, IsTrue, All, fold, length, replicate};
ghost use Rattle.std.specs.List.{list_all};
ghost use Rattle.sat_clauses.specs.Code.{code_of};
ghost use Rattle.sat_clauses.specs.Literal.{opposite};
ghost use Rattle.sat_clauses.specs.Hints.{HasNoOpposites};
ghost use Rattle.cert_derivations.specs.Marks.{is_marked, marked, LacksIn};

use crate::given::highest_in;
use sat_clauses::hints;
use sat_clauses::lit::Lit;

/// How many codes a window has, two for each variable.
pub(crate) const WINDOW: u64 = 4096;

/// How many literals are compared each with each.
const FEW: usize = 64;

/// Whether no literal has its opposite among them. Takes no memory.
pub fn has_no_opposites(lits: &[Lit]) -> bool
    ensures { IsTrue result ↔ HasNoOpposites lits.now }
{
    if lits.len() <= FEW {
        return hints::has_no_opposites(lits);
    }
    lack_opposites(lits, highest_in(lits) / (WINDOW / 2) + 1)
}

/// Whether no literal has its opposite among them, all of which have their codes in so many windows.
fn lack_opposites(lits: &[Lit], windows: u64) -> bool
    requires { All (λ l. code_of l / 4096 < windows) lits.now }
    ensures { IsTrue result ↔ HasNoOpposites lits.now }
{
    for window in 0..windows {
        if !lack_opposites_in(lits, window) {
            return false;
        }
    }
    true
}

/// Whether no literal has an opposite among them whose code is in the window.
fn lack_opposites_in(lits: &[Lit], window: u64) -> bool
    ensures { IsTrue result ↔ All (LacksIn window lits.now) lits.now }
{
    let mut marks = [false; WINDOW as usize];
    mark_all(&mut marks, window, lits);
    have_unmarked(&marks, window, lits)
}

/// Whether the opposite of no literal is marked.
fn have_unmarked(marks: &[bool], window: u64, lits: &[Lit]) -> bool
    requires { length marks.now ≡ 4096 }
    ensures { result ≡ list_all (λ l. not (is_marked marks.now window (opposite l))) lits.now }
{
    lits.iter().all(|lit| !is_marked(marks, window, lit.neg()))
}

/// Whether a literal is marked in the table of a window.
pub(crate) fn is_marked(marks: &[bool], window: u64, lit: Lit) -> bool
    requires { length marks.now ≡ 4096 }
    ensures { result ≡ is_marked marks.now window lit }
{
    let code = lit.code();
    if code / WINDOW != window {
        return false;
    }
    marks[(code % WINDOW) as usize]
}

/// Marks those of the literals whose codes are in a window.
pub(crate) fn mark_all(marks: &mut [bool], window: u64, lits: &[Lit])
    requires { length marks.old ≡ 4096 }
    ensures { marks.new ≡ fold (marked window) marks.old lits.now }
{
    for lit in lits {
        mark(marks, window, *lit);
    }
}

/// Marks a literal where its code is in a window.
fn mark(marks: &mut [bool], window: u64, lit: Lit)
    requires { length marks.old ≡ 4096 }
    ensures { marks.new ≡ marked window marks.old lit }
{
    let code = lit.code();
    if code / WINDOW == window {
        marks[(code % WINDOW) as usize] = true;
    }
}
