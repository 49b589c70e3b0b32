//! Free choices, which the present adviser of a panel is asked for.
ghost use Rattle.std.specs.Prelude.{◌≡◌, ◌≢◌, ◌<◌, ◌≤◌, ◌^◌, ◌+◌, ℕ, length, IfSome, IfNone, Some, None, map, slice_index_or};
ghost use Rattle.sat_clauses.specs.Literal.{Literal};
ghost use Rattle.sat_clauses.specs.Assignment.{IsInRange, value_of};
ghost use Rattle.sat_adviser.specs.Count.{risen_at};
ghost use Rattle.sat_adviser.specs.Heard.{Gives};
ghost use Rattle.sat_adviser.specs.Judges.{Judges};
ghost use Rattle.sat_solver.specs.Choice.{HasFree, IsTaken, IsFallback, IsChoice};
ghost use Rattle.sat_solver.specs.Trail.{IsLeast};
ghost use Rattle.base_values.specs.Counts.{next_count};

use sat_adviser::{Adviser, Panel};
use sat_clauses::assign::Assign;
use sat_clauses::lit::Lit;

/// A literal to make true where nothing forces one. The panel's present adviser is asked once. Where its
/// answer is the code of a free literal in range, that literal is chosen, and else the negation of the
/// least free variable. The panel then judges whether its answer was taken, and may drop that adviser.
pub fn choose(panel: &mut Panel, assign: &Assign) -> Lit
    requires { HasFree assign.now }
    ensures asked { panel.new.asked ≡ next_count panel.old.asked }
    ensures answer { Gives (map (λ b. (⟦<dyn Adviser as Adviser>⟧ b.vtable).answer b.value) panel.old.advisers.items)
        panel.old.present panel.new.last }
    ensures choice { IsChoice assign.now panel.new.last result }
    ensures judged { Judges (IsTaken assign.now panel.new.last result)
        (risen_at (map (λ b. (⟦<dyn Adviser as Adviser>⟧ b.vtable).asked b.value) panel.old.advisers.items) panel.old.present)
        panel.old.present panel.old.misses
        (map (λ b. (⟦<dyn Adviser as Adviser>⟧ b.vtable).asked b.value) panel.new.advisers.items)
        panel.new.present panel.new.misses }
    ensures vars { panel.new.vars ≡ panel.old.vars }
    ensures rotated { panel.new.rotated ≡ panel.old.rotated }
{
    choose_from(panel, assign, 1)
}

/// [`choose`] where no variable below one is free, so that the search for a free one begins there.
pub fn choose_from(panel: &mut Panel, assign: &Assign, from: u64) -> Lit
    requires free { HasFree assign.now }
    requires from { IsLeast assign.now from }
    ensures asked { panel.new.asked ≡ next_count panel.old.asked }
    ensures answer { Gives (map (λ b. (⟦<dyn Adviser as Adviser>⟧ b.vtable).answer b.value) panel.old.advisers.items)
        panel.old.present panel.new.last }
    ensures choice { IsChoice assign.now panel.new.last result }
    ensures judged { Judges (IsTaken assign.now panel.new.last result)
        (risen_at (map (λ b. (⟦<dyn Adviser as Adviser>⟧ b.vtable).asked b.value) panel.old.advisers.items) panel.old.present)
        panel.old.present panel.old.misses
        (map (λ b. (⟦<dyn Adviser as Adviser>⟧ b.vtable).asked b.value) panel.new.advisers.items)
        panel.new.present panel.new.misses }
    ensures vars { panel.new.vars ≡ panel.old.vars }
    ensures rotated { panel.new.rotated ≡ panel.old.rotated }
{
    let code = panel.pick();
    match named(code, assign) {
        Some(lit) => {
            panel.judge(true);
            lit
        }
        None => {
            panel.judge(false);
            fallback(assign, from)
        }
    }
}

// The free literal in range that has this code.
fn named(code: u64, assign: &Assign) -> Option<Lit>
    ensures some { IfSome result (IsTaken assign.now code) }
    ensures none { IfNone result ((m : Literal) → ¬ (IsTaken assign.now code m)) }
{
    if code < 2 || code / 2 > assign.vars() {
        return None;
    }
    let lit = Lit::new(code / 2, code % 2 == 1);
    match assign.value(lit) {
        None => Some(lit),
        Some(_) => None,
    }
}

// The negation of the least free variable, which is not below this one.
fn fallback(assign: &Assign, from: u64) -> Lit
    requires free { HasFree assign.now }
    requires from { IsLeast assign.now from }
    ensures { IsFallback assign.now result }
{
    match least_free(assign, from) {
        Some(var) => Lit::new(var, true),
        None => unreachable!(),
    }
}

/// The least free variable, where no variable below this one is free.
pub fn least_free(assign: &Assign, from: u64) -> Option<u64>
    requires { IsLeast assign.now from }
    ensures none { result ≡ None → (x : ℕ) → 0 < x → x < length assign.now → slice_index_or assign.now x None ≢ None }
    ensures some { (x : ℕ) → result ≡ Some x → (0 < x) × (x < length assign.now) × (slice_index_or assign.now x None ≡ None) }
    ensures small { (x : ℕ) → result ≡ Some x → x < 2 ^ 62 }
    ensures least { (x : ℕ) → result ≡ Some x → (y : ℕ) → 0 < y → y < x → slice_index_or assign.now y None ≢ None }
{
    let vars = assign.vars();
    let mut var = from;
    while var <= vars {
        if assign.value(Lit::new(var, false)).is_none() {
            return Some(var);
        }
        var += 1;
    }
    None
}
