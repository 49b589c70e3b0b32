//! Which variable a gate takes and which clauses it appends.
ghost use Rattle.std.specs.Prelude.{◌<◌, IsTrue};

use crate::clauses::{are, literal, number_of};
use base_values::OutOfMemory;
use sat_circuits::gates::Gates;
use sat_clauses::clause::ClauseList;
use sat_clauses::lit::Lit;
use std::alloc::Global;
use std::test::Fail;

// Whether the clauses are these, in their order.
fn are_all(clauses: &ClauseList, wanted: &[&[i64]]) -> bool {
    if clauses.len() != wanted.len() {
        return false;
    }
    for (clause, numbers) in clauses.as_slice().iter().zip(wanted) {
        if !are(clause.lits(), numbers) {
            return false;
        }
    }
    true
}

// A gate, that of choice with the number of the literal that chooses.
#[derive(Clone, Copy)]
enum GateKind {
    And,
    Or,
    Xor,
    Mux(i64),
}

// Whether a gate may take these literals.
fn may_take(gates: &Gates, a: Lit, b: Lit) -> bool
    ensures left { IsTrue result → a.var < gates.now.free }
    ensures right { IsTrue result → b.var < gates.now.free }
    ensures room { IsTrue result → gates.now.free < 1000 }
{
    let free = gates.free();
    a.var() < free && b.var() < free && free < 1000
}

// The literal of a gate, or else that of 1.
fn made(gates: &mut Gates, kind: GateKind, a: Lit, b: Lit) -> Result<Lit, OutOfMemory> {
    if !may_take(gates, a, b) {
        return Ok(literal(1));
    }
    match kind {
        GateKind::And => gates.and(a, b),
        GateKind::Or => gates.or(a, b),
        GateKind::Xor => gates.xor(a, b),
        GateKind::Mux(number) => chosen(gates, literal(number), a, b),
    }
}

fn chosen(gates: &mut Gates, choice: Lit, a: Lit, b: Lit) -> Result<Lit, OutOfMemory> {
    if may_take(gates, a, b) && choice.var() < gates.free() {
        gates.mux(choice, a, b)
    } else {
        Ok(literal(1))
    }
}

// The number of the literal of a gate over those of these numbers.
fn gate(gates: &mut Gates, kind: GateKind, a: i64, b: i64) -> Result<i64, OutOfMemory> {
    let lit = made(gates, kind, literal(a), literal(b))?;
    Ok(number_of(lit))
}

#[test]
fn a_gate_takes_the_next_variable_and_appends_its_clauses(rt: HostRuntime) -> Result<(), Fail> {
    let mut gates = Gates::new(rt.alloc(), 4)?;
    assert_eq!(rt; gate(&mut gates, GateKind::And, 2, 3)?, 4);
    let wanted: [&[i64]; 4] = [&[1], &[-4, 2], &[-4, 3], &[4, -2, -3]];
    assert!(rt; are_all(gates.clauses(), &wanted));
    Ok(())
}

// The literals of a gate of a gate, and of a difference from a choice, which has to be; and the next free
// variable.
fn gates_of_gates(alloc: Global) -> Result<(i64, i64, u64), OutOfMemory> {
    let mut gates = Gates::new(alloc, 4)?;
    let both = gate(&mut gates, GateKind::And, 2, 3)?;
    let either = gate(&mut gates, GateKind::Or, 2, both)?;
    let choice = gate(&mut gates, GateKind::Mux(2), 3, either)?;
    let differ = gate(&mut gates, GateKind::Xor, choice, 3)?;
    gates.assert_true(literal(differ))?;
    Ok((either, differ, gates.free()))
}

#[test]
fn gates_of_gates_take_variables_in_order(rt: HostRuntime) -> Result<(), Fail> {
    assert_eq!(rt; gates_of_gates(rt.alloc())?, (-5, 7, 8));
    Ok(())
}
