//! The lists of small models over all patterns of bits: states, first states and steps.
ghost use Rattle.smv_language.specs.ModelTree.{model_tree};
ghost use Rattle.sat_encoding_laws.specs.Encodable.{IsEncodable};
ghost use Rattle.smv_evaluation.specs.EvaluableModels.{IsEvaluable};

use crate::clauses::{can_be_true, holds_in, push_bits};
use crate::models::{Bits, BitsPlace, is_first, is_step, model_of};
use base_values::OutOfMemory;
use sat_clauses::System;
use sat_clauses::clause::ClauseList;
use sat_clauses::lit::Lit;
use sat_encoding::{encode, state_gates};
use smv_types::Typed;
use std::alloc::Global;
use std::process::Abort;
use std::test::Fail;

/// A model in two parts, what holds at each moment and what holds of first moments and steps; the bits of its
/// variables, how many those of a state and of the inputs are; and how many states, first states and steps there are.
#[derive(Clone, Copy)]
struct Row<'a> {
    still: &'a [u8],
    moves: &'a [u8],
    places: &'a [BitsPlace],
    bits: u32,
    inputs: u32,
    counts: [u32; 3],
}

/// How often the answer that is wanted was yes, and whether each that was found was the same.
#[derive(Clone, Copy)]
struct Tally {
    yes: u32,
    same: bool,
}

impl Tally {
    fn new() -> Tally {
        Tally { yes: 0, same: true }
    }

    fn note(&mut self, found: Option<bool>, wanted: bool) {
        self.same = self.same && found == Some(wanted);
        self.yes = self.yes.saturating_add(u32::from(wanted));
    }

    fn is(&self, count: u32) -> bool {
        self.same && self.yes == count
    }
}

/// How many patterns so many bits have.
fn patterns(bits: u32) -> u32 {
    match bits {
        0 => 1,
        1 => 2,
        2 => 4,
        3 => 8,
        4 => 16,
        _ => 32,
    }
}

/// Whether a list can be made true with the bits of a state exactly where this is a first moment of the model, and of
/// so many states.
fn has_firsts(
    alloc: Global,
    t: &Typed,
    row: &Row<'_>,
    list: &ClauseList,
    count: u32,
) -> Result<bool, OutOfMemory>
    requires encodable { IsEncodable (model_tree t.now.model) }
    requires evaluable { IsEvaluable (model_tree t.now.model) }
{
    let mut tally = Tally::new();
    for state in 0..patterns(row.bits) {
        let found = holds_in(alloc, list, row.bits, state)?;
        let bits = Bits { state, inputs: 0 };
        let wanted = is_first(alloc, t, row.places, bits)?;
        tally.note(found, wanted);
    }
    Ok(tally.is(count))
}

/// The literals of the bits of a state and of inputs, and of the next state.
fn step_lits(alloc: Global, row: &Row<'_>, now: Bits, next: u32) -> Result<Vec<Lit>, OutOfMemory> {
    let bits = u64::from(row.bits);
    let after = bits.wrapping_add(2);
    let inputs = bits.wrapping_add(after);
    let mut lits = Vec::new(alloc);
    push_bits(&mut lits, 2, row.bits, now.state)?;
    push_bits(&mut lits, after, row.bits, next)?;
    push_bits(&mut lits, inputs, row.inputs, now.inputs)?;
    Ok(lits)
}

/// Whether a list can be made true with those.
fn leads_in(
    alloc: Global,
    list: &ClauseList,
    row: &Row<'_>,
    now: Bits,
    next: u32,
) -> Result<Option<bool>, OutOfMemory> {
    let lits = step_lits(alloc, row, now, next)?;
    can_be_true(alloc, list, &lits)
}

/// Notes for each next state whether the list can be made true, and whether a step leads there. A step leads from a
/// moment, which is a first one of the model that has only what holds at each moment.
fn note_steps(
    alloc: Global,
    models: (&Typed, &Typed),
    row: &Row<'_>,
    list: &ClauseList,
    now: Bits,
    tally: &mut Tally,
) -> Result<(), OutOfMemory>
    requires encodable { IsEncodable (model_tree models.0.now.model) }
    requires evaluable { IsEvaluable (model_tree models.0.now.model) }
    requires encodable_still { IsEncodable (model_tree models.1.now.model) }
    requires evaluable_still { IsEvaluable (model_tree models.1.now.model) }
{
    let (whole, still) = models;
    let is_moment = is_first(alloc, still, row.places, now)?;
    for state in 0..patterns(row.bits) {
        let found = leads_in(alloc, list, row, now, state)?;
        let next = Bits { state, inputs: 0 };
        let leads = is_step(alloc, whole, row.places, now, next)?;
        tally.note(found, is_moment && leads);
    }
    Ok(())
}

/// Whether a list can be made true with the bits of a state, of inputs and of a next state exactly where a step of the
/// model leads there, and of so many steps.
fn has_steps(
    alloc: Global,
    models: (&Typed, &Typed),
    row: &Row<'_>,
    list: &ClauseList,
    count: u32,
) -> Result<bool, OutOfMemory>
    requires encodable { IsEncodable (model_tree models.0.now.model) }
    requires evaluable { IsEvaluable (model_tree models.0.now.model) }
    requires encodable_still { IsEncodable (model_tree models.1.now.model) }
    requires evaluable_still { IsEvaluable (model_tree models.1.now.model) }
{
    let mut tally = Tally::new();
    for state in 0..patterns(row.bits) {
        for inputs in 0..patterns(row.inputs) {
            let now = Bits { state, inputs };
            note_steps(alloc, models, row, list, now, &mut tally)?;
        }
    }
    Ok(tally.is(count))
}

/// Whether the lists of states and of first states mean these models.
fn have_states(
    alloc: Global,
    models: (&Typed, &Typed),
    row: &Row<'_>,
    lists: &System,
) -> Result<bool, OutOfMemory>
    requires encodable { IsEncodable (model_tree models.0.now.model) }
    requires evaluable { IsEvaluable (model_tree models.0.now.model) }
    requires encodable_still { IsEncodable (model_tree models.1.now.model) }
    requires evaluable_still { IsEvaluable (model_tree models.1.now.model) }
{
    let (whole, still) = models;
    let states = state_gates(alloc, whole)?;
    let right = has_firsts(alloc, still, row, states.clauses(), row.counts[0])?;
    if !right {
        return Ok(false);
    }
    has_firsts(alloc, whole, row, &lists.first, row.counts[1])
}

/// Whether all lists do.
fn have_lists(
    alloc: Global,
    whole: &Typed,
    still: &Typed,
    row: &Row<'_>,
) -> Result<bool, OutOfMemory>
    requires encodable { IsEncodable (model_tree whole.now.model) }
    requires evaluable { IsEvaluable (model_tree whole.now.model) }
    requires encodable_still { IsEncodable (model_tree still.now.model) }
    requires evaluable_still { IsEvaluable (model_tree still.now.model) }
{
    let lists = encode(alloc, whole)?;
    if lists.state_bits != row.bits || lists.input_bits != row.inputs {
        return Ok(false);
    }
    let right = have_states(alloc, (whole, still), row, &lists)?;
    if !right {
        return Ok(false);
    }
    has_steps(alloc, (whole, still), row, &lists.step, row.counts[2])
}

/// Whether the lists of a row's model mean it.
fn is_right(rt: &impl Abort, alloc: Global, row: &Row<'_>) -> Result<bool, Fail> {
    let whole = model_of(rt, alloc, &[row.still, row.moves])?;
    let still = model_of(rt, alloc, &[row.still])?;
    let right = have_lists(alloc, &whole, &still, row)?;
    Ok(right)
}

/// The number of the first row whose lists do not, or None.
fn first_wrong(rt: &impl Abort, alloc: Global, rows: &[Row<'_>]) -> Result<Option<usize>, Fail> {
    for (i, row) in rows.iter().enumerate() {
        if !is_right(rt, alloc, row)? {
            return Ok(Some(i));
        }
    }
    Ok(None)
}

const TRUTHS_NUMBERS_SYMBOLS_AND_INPUTS: &[Row<'static>] = &[
    // truth values
    Row {
        still: b"MODULE main VAR a : boolean; b : boolean; c : boolean; INVAR a | b;",
        moves: b" INIT a xor b; INIT b <-> c; TRANS next(a) = (b & c | !a); TRANS next(b) <-> (c xnor a); TRANS next(c) -> a;",
        places: &[
            BitsPlace::Plain(2),
            BitsPlace::Plain(2),
            BitsPlace::Plain(2),
        ],
        bits: 3,
        inputs: 0,
        counts: [6, 2, 6],
    },
    // numbers below 0
    Row {
        still: b"MODULE main VAR x : -3..2;",
        moves: b" ASSIGN init(x) := -3..-1; next(x) := x < 2 ? x + 1 : -x;",
        places: &[BitsPlace::Signed(8)],
        bits: 3,
        inputs: 0,
        counts: [6, 3, 6],
    },
    // symbols, of which the second type has the numbers 3 and 4
    Row {
        still: b"MODULE main VAR m : {red, amber, green}; lamp : {off, on};",
        moves: b" ASSIGN init(m) := red; next(m) := case m = red : {red, green}; m = green : amber; TRUE : red; esac; next(lamp) := m = \
            green ? on : off;",
        places: &[BitsPlace::Plain(4), BitsPlace::Plain(8)],
        bits: 5,
        inputs: 0,
        counts: [6, 2, 8],
    },
    // an input, which is declared first
    Row {
        still: b"MODULE main IVAR k : 0..2; VAR x : 0..3;",
        moves: b" ASSIGN init(x) := 0; next(x) := k = 2 ? x : (x + k) mod 4;",
        places: &[BitsPlace::Input(4), BitsPlace::Plain(4)],
        bits: 2,
        inputs: 2,
        counts: [4, 1, 12],
    },
];

#[test]
fn lists_of_truths_numbers_symbols_and_inputs(rt: HostRuntime) -> Result<(), Fail> {
    let wrong = first_wrong(&rt, rt.alloc(), TRUTHS_NUMBERS_SYMBOLS_AND_INPUTS)?;
    assert_eq!(rt; wrong, None);
    Ok(())
}

const DEFINITIONS_CASES_AND_QUOTIENTS: &[Row<'static>] = &[
    // definitions, one of which reads an input
    Row {
        still: b"MODULE main VAR n : 0..3; a : boolean; IVAR i : boolean; DEFINE both := a & i; low := n < 2; INVAR low | a;",
        moves: b" INIT low; TRANS next(n) = (both ? 3 : n); TRANS next(low) | i;",
        places: &[
            BitsPlace::Plain(4),
            BitsPlace::Plain(2),
            BitsPlace::Input(2),
        ],
        bits: 3,
        inputs: 1,
        counts: [6, 4, 16],
    },
    // cases
    Row {
        still: b"MODULE main VAR s : {idle, busy, done}; t : 0..3; INVAR s != idle | t < 3;",
        moves: b" INIT s = idle & t = 0; TRANS next(s) in case s = idle : {idle, busy}; t = 3 : done; s = busy : busy; TRUE : idle; esac; \
            TRANS next(t) = case s = busy : t < 3 ? t + 1 : 3; TRUE : 0; esac;",
        places: &[BitsPlace::Plain(4), BitsPlace::Plain(4)],
        bits: 4,
        inputs: 0,
        counts: [11, 1, 14],
    },
    // quotients and remainders of numbers below 0
    Row {
        still: b"MODULE main VAR x : -4..3; y : -2..1;",
        moves: b" INIT x / -2 = y; TRANS next(x) = x mod (y - 2) + y / 2; TRANS next(y) = (-(x / 3) - 1) mod 2;",
        places: &[BitsPlace::Signed(8), BitsPlace::Signed(4)],
        bits: 5,
        inputs: 0,
        counts: [32, 7, 32],
    },
];

#[test]
fn lists_of_definitions_cases_and_quotients(rt: HostRuntime) -> Result<(), Fail> {
    let wrong = first_wrong(&rt, rt.alloc(), DEFINITIONS_CASES_AND_QUOTIENTS)?;
    assert_eq!(rt; wrong, None);
    Ok(())
}

const SUMS_AND_SETS: &[Row<'static>] = &[
    // sums, products and comparisons
    Row {
        still: b"MODULE main VAR x : 0..5; y : 0..3; INVAR x + y <= 7 & x * y != 6;",
        moves: b" INIT x - y >= 2 & x * y > 2; TRANS next(x) - x >= y - 2 & next(y) * 2 < x + 1 & -next(x) <= y - 4;",
        places: &[BitsPlace::Plain(8), BitsPlace::Plain(4)],
        bits: 5,
        inputs: 0,
        counts: [21, 5, 97],
    },
    // sets
    Row {
        still: b"MODULE main VAR x : {1, 4, 6}; y : 0..3; INVAR x + y in (2 union 4..7);",
        moves: b" INIT y in {0, 2, 3} & !(x in {4}); TRANS next(y) in (y union x - 4); TRANS next(x) in (y < 2 ? {1, 4} : {6});",
        places: &[BitsPlace::Plain(8), BitsPlace::Plain(4)],
        bits: 5,
        inputs: 0,
        counts: [8, 2, 13],
    },
];

#[test]
fn lists_of_sums_and_sets(rt: HostRuntime) -> Result<(), Fail> {
    let wrong = first_wrong(&rt, rt.alloc(), SUMS_AND_SETS)?;
    assert_eq!(rt; wrong, None);
    Ok(())
}

const FROZEN_VARIABLES_AND_COUNTERS: &[Row<'static>] = &[
    // no first moment, and a variable that is frozen
    Row {
        still: b"MODULE main FROZENVAR f : boolean; VAR x : 0..2;",
        moves: b" INIT x = 1; INIT x = 2; TRANS next(x) = 2 | f;",
        places: &[BitsPlace::Plain(2), BitsPlace::Plain(4)],
        bits: 3,
        inputs: 0,
        counts: [6, 0, 12],
    },
    // a counter of three bits
    Row {
        still: b"MODULE main VAR c : 0..7;",
        moves: b" ASSIGN init(c) := 0; next(c) := case c = 5 : 0; TRUE : c + 1; esac;",
        places: &[BitsPlace::Plain(8)],
        bits: 3,
        inputs: 0,
        counts: [8, 1, 7],
    },
];

#[test]
fn lists_of_frozen_variables_and_counters(rt: HostRuntime) -> Result<(), Fail> {
    let wrong = first_wrong(&rt, rt.alloc(), FROZEN_VARIABLES_AND_COUNTERS)?;
    assert_eq!(rt; wrong, None);
    Ok(())
}
