//! Tests of the conditions under which frames are made of a system, and asked about a list of bad states.
//!
//! [`can_frame`] tests a system and [`are_over_now`] a list; `specs/Condition.antt` says what they mean. They look
//! at each literal once and take no memory. A layer above that knows its lists need not call them.
ghost use Rattle.std.specs.Prelude.{◌↔◌, IsTrue, All};
ghost use Rattle.cut_frames.specs.Condition.{IsLow, IsOverNow, IsFit};

use sat_clauses::System;
use sat_clauses::clause::{Clause, ClauseList};
use sat_clauses::lit::Lit;

// The first number that no variable has.
const END: u64 = 2147483648;

// Whether the variable is below 2^31.
fn is_low(lit: Lit) -> bool
    ensures { IsTrue result ↔ IsLow lit }
{
    lit.var() < END
}

// Whether the variable is 0 or 1, a bit of the state now, or one above those of states and inputs.
fn is_over_now(system: &System, lit: Lit) -> bool
    ensures { IsTrue result ↔ IsOverNow system.now lit }
{
    let bits = u64::from(system.state_bits);
    let inputs = u64::from(system.input_bits);
    let variable = lit.var();
    variable < END && (variable < bits + 2 || variable > 2 * bits + inputs + 1)
}

// Whether each variable of the clause is below 2^31.
fn is_clause_low(clause: &Clause) -> bool
    ensures { IsTrue result ↔ All IsLow clause.now }
{
    clause.lits().iter().all(|lit| is_low(*lit))
}

// Whether each literal of the clause says something of a state.
fn is_clause_over_now(system: &System, clause: &Clause) -> bool
    ensures { IsTrue result ↔ All (IsOverNow system.now) clause.now }
{
    clause.lits().iter().all(|lit| is_over_now(system, *lit))
}

// Whether each variable of the list is below 2^31.
fn are_low(list: &ClauseList) -> bool
    ensures { IsTrue result ↔ All (All IsLow) list.now }
{
    list.as_slice().iter().all(|clause| is_clause_low(clause))
}

/// Whether a list is one that says something of a state: its variables are 1, state bits now, and others
/// above those of states and inputs, all below 2^31.
pub fn are_over_now(system: &System, list: &ClauseList) -> bool
    ensures { IsTrue result ↔ All (All (IsOverNow system.now)) list.now }
{
    list.as_slice()
        .iter()
        .all(|clause| is_clause_over_now(system, clause))
}

/// Whether frames can be made of a system: its bits and the variables of its lists are below 2^31, and
/// `first` says something of a state.
pub fn can_frame(system: &System) -> bool
    ensures { IsTrue result ↔ IsFit system.now }
{
    let bits = u64::from(system.state_bits);
    let inputs = u64::from(system.input_bits);
    if 2 * bits + inputs + 1 >= END {
        return false;
    }
    are_over_now(system, &system.first) && are_low(&system.step)
}
