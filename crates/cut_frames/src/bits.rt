//! States as literals, and literals and assignments as states: what goes between frames and the search that they
//! ask.
//!
//! [`literals`] spells a state for a question and [`read`] reads one from an answer; [`join`] and [`turn_next`] put
//! cores and clauses between the state now and the state next; [`state_moment`] and [`step_moment`] cut an answer
//! down to a moment of a path. A state's bits have the variables from 2 on, as the head of `sat_clauses` says.
ghost use Rattle.std.specs.Prelude.{◌≡◌, ◌≤◌, ◌<◌, ◌+◌, ◌^◌, length, map, IfOk, All};
ghost use Rattle.sat_clauses.specs.Literal.{opposite};
ghost use Rattle.cut_frames.specs.Bits.{literals_from, read_from, joined, against_next, moved_back, moved_on};
ghost use Rattle.cut_frames.specs.Condition.{IsLow, IsFit};
ghost use Rattle.cut_frames.specs.Path.{AreFree, AreTaken, AreKept, IsStateMoment, IsStepMoment};
ghost use Rattle.sat_clauses.specs.Models.{values_of};

use base_values::{Items, OutOfMemory};
use sat_clauses::System;
use sat_clauses::assign::Assign;
use sat_clauses::clause::Clause;
use sat_clauses::lit::Lit;
use std::alloc::Global;

/// A state: the values of the state bits, in order.
pub type State = Items<bool>;

/// The literals that say that the variables from a number on have the state's values.
#[tactic(auto, using(crate::proofs::BitLemmas::literals_more))]
pub fn literals(alloc: Global, from: u64, state: &[bool]) -> Result<Vec<Lit>, OutOfMemory>
    requires positive { 1 ≤ from }
    requires small { from + length state.now < 2 ^ 62 }
    ensures { IfOk result (λ lits. lits.items ≡ literals_from from state.now) }
{
    let mut lits = Vec::new(alloc);
    for (i, value) in state.iter().enumerate() {
        lits.push(Lit::new(from + i as u64, !*value))?;
    }
    Ok(lits)
}

/// Literals turned round.
pub fn turned(alloc: Global, lits: &[Lit]) -> Result<Vec<Lit>, OutOfMemory>
    ensures { IfOk result (λ all. all.items ≡ map opposite lits.now) }
{
    let mut all = Vec::new(alloc);
    for lit in lits {
        all.push(lit.neg())?;
    }
    Ok(all)
}

/// The clause that a state alone breaks.
pub fn broken_by(alloc: Global, state: &[bool]) -> Result<Clause, OutOfMemory>
    requires { 2 + length state.now < 2 ^ 62 }
    ensures { IfOk result (λ c. c ≡ map opposite (literals_from 2 state.now)) }
{
    let now = literals(alloc, 2, state)?;
    let broken = turned(alloc, now.as_slice())?;
    Clause::from_lits(alloc, broken.as_slice())
}

/// The value of a variable, false where none is given.
pub fn value(assign: &Assign, variable: u64) -> bool
    requires positive { 1 ≤ variable }
    requires small { variable < 2 ^ 62 }
    ensures { result ≡ values_of assign.now variable }
{
    if variable > assign.vars() {
        return false;
    }
    assign.value(Lit::new(variable, false)).unwrap_or(false)
}

/// The values of so many variables from a number on.
#[tactic(auto, using(crate::proofs::BitLemmas::read_more))]
pub fn read(alloc: Global, from: u64, bits: u64, assign: &Assign) -> Result<State, OutOfMemory>
    requires positive { 1 ≤ from }
    requires small { from + bits < 2 ^ 62 }
    ensures { IfOk result (λ s. s ≡ read_from from bits assign.now) }
{
    let mut state = State::new(alloc);
    for i in 0..bits {
        state.push(value(assign, from + i))?;
    }
    Ok(state)
}

/// The literal of a variable so many places further back.
fn back(bits: u64, lit: Lit) -> Lit
    requires { bits + 2 ≤ lit.var }
    ensures { result ≡ moved_back bits lit }
{
    Lit::new(lit.var() - bits, lit.is_negated())
}

/// The opposite of a literal, of a variable so many places further on.
fn turned_on(bits: u64, lit: Lit) -> Lit
    requires bits { bits < 2 ^ 31 }
    requires low { IsLow lit }
    ensures { result ≡ moved_on bits (opposite lit) }
{
    Lit::new(lit.var() + bits, !lit.is_negated())
}

/// A clause, and one over state bits next put back to state bits now.
pub fn join(alloc: Global, bits: u64, clause: &Clause, next: &Clause) -> Result<Clause, OutOfMemory>
    requires { All (λ l. bits + 2 ≤ l.var) next.now }
    ensures { IfOk result (λ c. c ≡ joined bits clause.now next.now) }
{
    let mut both = Vec::from_slice(alloc, clause.lits())?;
    for lit in next.lits() {
        both.push(back(bits, *lit))?;
    }
    Clause::from_lits(alloc, both.as_slice())
}

/// The literals of a clause turned round, over state bits next.
pub fn turn_next(alloc: Global, bits: u64, clause: &Clause) -> Result<Vec<Lit>, OutOfMemory>
    requires bits { bits < 2 ^ 31 }
    requires low { All IsLow clause.now }
    ensures { IfOk result (λ lits. lits.items ≡ against_next bits clause.now) }
{
    let mut turned = Vec::new(alloc);
    for lit in clause.lits() {
        turned.push(turned_on(bits, *lit))?;
    }
    Ok(turned)
}

/// Gives so many variables from a number on the values that they have elsewhere, false where they have none.
fn give(given: &mut Assign, from: u64, count: u64, values: &Assign)
    requires positive { 1 ≤ from }
    requires small { from + count < 2 ^ 62 }
    requires within { from + count ≤ length given.old }
    requires free { AreFree from count given.old }
    ensures same { length given.new ≡ length given.old }
    ensures taken { AreTaken from count values.now given.new }
    ensures others { AreKept from count given.old given.new }
{
    for i in 0..count {
        let variable = from + i;
        given.set(Lit::new(variable, !value(values, variable)));
    }
}

/// A moment that gives the state bits now, and no other variable.
pub fn state_moment(alloc: Global, system: &System, values: &Assign) -> Result<Assign, OutOfMemory>
    requires { IsFit system.now }
    ensures { IfOk result (λ m. IsStateMoment system.now values.now m) }
{
    let bits = u64::from(system.state_bits);
    let inputs = u64::from(system.input_bits);
    let mut given = Assign::with_vars(alloc, 2 * bits + inputs + 1)?;
    give(&mut given, 2, bits, values);
    Ok(given)
}

/// A moment that gives the state bits and the input bits now.
pub fn step_moment(alloc: Global, system: &System, values: &Assign) -> Result<Assign, OutOfMemory>
    requires { IsFit system.now }
    ensures { IfOk result (λ m. IsStepMoment system.now values.now m) }
{
    let bits = u64::from(system.state_bits);
    let inputs = u64::from(system.input_bits);
    let mut given = state_moment(alloc, system, values)?;
    give(&mut given, 2 * bits + 2, inputs, values);
    Ok(given)
}
