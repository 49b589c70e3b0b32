//! The passes over a clause base, and how many there are.
//!
//! [`simplify`] is the main function: clauses of one literal are propagated, and then round by round clauses are taken out
//! that others subsume, and variables are eliminated, until a round eliminates none. Variables with few clauses are tried
//! first, and those of the resolvents once more (`src/queue.rt`). What a pass tries is a matter of what pays: that the
//! clauses say the same of the places holds for each of its changes.
ghost use Rattle.sat_simplify.specs.ClauseBase.{IsSound, Becomes};
ghost use Rattle.std.specs.Prelude.{OnOk};

use crate::base::Base;
use crate::queue::{MANY, Queue};
use base_values::OutOfMemory;
use sat_clauses::clause::Clause;
use sat_clauses::lit::Lit;

/// How many rounds there are at most.
pub const ROUNDS: u32 = 8;

// Propagates all clauses of one literal.
#[tactic(auto, using(crate::proofs::BaseLaws::becomes_itself, crate::proofs::BaseLaws::becomes_all))]
fn propagate_all(base: &mut Base) -> Result<(), OutOfMemory>
    requires { IsSound base.old }
    ensures { OnOk result (Becomes base.old base.new) }
{
    for _round in 0..u64::MAX {
        let Some(i) = base.pop_unit() else {
            return Ok(());
        };
        base.propagate(i)?;
    }
    Ok(())
}

// All variables that may be eliminated.
fn queue_of(base: &Base) -> Result<Queue, OutOfMemory> {
    let mut queue = Queue::new(*base.slots.allocator(), base.variables())?;
    for var in 1..base.variables() {
        put(&mut queue, base, Lit::new(var, false))?;
    }
    Ok(queue)
}

// Puts the variable of a literal into the queue if it is no place.
fn put(queue: &mut Queue, base: &Base, lit: Lit) -> Result<(), OutOfMemory> {
    if base.is_own(lit.var()) && queue.has_room_for(lit) {
        queue.put(lit, base.uses(lit, MANY))?;
    }
    Ok(())
}

// Puts the variables of a clause into the queue.
fn put_each(queue: &mut Queue, base: &Base, slot: &Option<Clause>) -> Result<(), OutOfMemory> {
    let Some(clause) = slot else {
        return Ok(());
    };
    for lit in clause.lits() {
        put(queue, base, Lit::new(lit.var(), false))?;
    }
    Ok(())
}

// Puts the variables of the clauses from a place on into the queue.
fn put_from(queue: &mut Queue, base: &Base, from: usize) -> Result<(), OutOfMemory> {
    for i in from..base.slots.len() {
        put_each(queue, base, &base.slots[i])?;
    }
    Ok(())
}

// Tries to eliminate a variable, and puts those of its resolvents into the queue; answers whether it was.
fn try_one(base: &mut Base, queue: &mut Queue, lit: Lit) -> Result<bool, OutOfMemory>
    requires { IsSound base.old }
    ensures { OnOk result (Becomes base.old base.new) }
{
    if !base.take_touched(lit) {
        return Ok(false);
    }
    let from = base.slots.len();
    let is_gone = base.eliminate(lit, usize::MAX)?;
    if is_gone {
        put_from(queue, base, from)?;
    }
    Ok(is_gone)
}

// Tries to eliminate each variable; answers whether one was.
#[tactic(auto, using(crate::proofs::BaseLaws::becomes_itself, crate::proofs::BaseLaws::becomes_all))]
fn eliminate_all(base: &mut Base) -> Result<bool, OutOfMemory>
    requires { IsSound base.old }
    ensures { OnOk result (Becomes base.old base.new) }
{
    let mut queue = queue_of(base)?;
    let mut changed = false;
    for _turn in 0..u64::MAX {
        let Some(lit) = queue.pop() else {
            return Ok(changed);
        };
        if try_one(base, &mut queue, lit)? {
            changed = true;
        }
    }
    Ok(changed)
}

// Takes out the clauses that others subsume. Of those before `from` only the ones that are shorter by now are compared.
#[tactic(auto, using(crate::proofs::BaseLaws::becomes_itself, crate::proofs::BaseLaws::becomes_all))]
fn subsume_all(base: &mut Base, from: usize) -> Result<(), OutOfMemory>
    requires { IsSound base.old }
    ensures { OnOk result (Becomes base.old base.new) }
{
    for i in 0..base.slots.len() {
        base.subsume(i, from)?;
    }
    base.settle_slots();
    Ok(())
}

// One round: subsumed clauses are taken out, variables are eliminated, and what that left of one literal is propagated. Answers whether one
// was.
#[tactic(auto, using(crate::proofs::BaseLaws::becomes_all))]
fn one_round(base: &mut Base, from: usize) -> Result<bool, OutOfMemory>
    requires { IsSound base.old }
    ensures { OnOk result (Becomes base.old base.new) }
{
    subsume_all(base, from)?;
    let changed = eliminate_all(base)?;
    propagate_all(base)?;
    Ok(changed)
}

// Eliminates the variables that have no resolvents, the highest first. Gates are numbered from what they read upwards, so all
// that nothing reads go before others grow into them.
#[tactic(auto, using(crate::proofs::BaseLaws::becomes_itself, crate::proofs::BaseLaws::becomes_all))]
fn eliminate_unread(base: &mut Base) -> Result<(), OutOfMemory>
    requires { IsSound base.old }
    ensures { OnOk result (Becomes base.old base.new) }
{
    for var in (1..base.variables()).rev() {
        base.eliminate(Lit::new(var, false), 0)?;
    }
    Ok(())
}

/// Makes the clauses of a base simpler.
#[tactic(auto, using(crate::proofs::BaseLaws::becomes_itself, crate::proofs::BaseLaws::becomes_all))]
pub fn simplify(base: &mut Base) -> Result<(), OutOfMemory>
    requires { IsSound base.old }
    ensures { OnOk result (Becomes base.old base.new) }
{
    propagate_all(base)?;
    eliminate_unread(base)?;
    let mut from = 0;
    for _round in 0..ROUNDS {
        let slots = base.slots.len();
        let changed = one_round(base, from)?;
        if !changed {
            return Ok(());
        }
        from = slots;
    }
    Ok(())
}
