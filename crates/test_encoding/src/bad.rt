//! The lists of bad states over all patterns of bits, and the lists of one model that were worked out by hand.
ghost use Rattle.std.specs.Prelude.{◌≡◌, ◌↔◌, false, true, IsTrue, IfOk, All, length};
ghost use Rattle.smv_scope.specs.ClosedModels.{is_closed, bounds_of};
ghost use Rattle.smv_language.specs.ModelTree.{model_tree, flat_tree, role_of};
ghost use Rattle.sat_encoding_laws.specs.Inputs.{is_input};
ghost use Rattle.sat_encoding_laws.specs.Encodable.{IsEncodable, IsFitTop};
ghost use Rattle.smv_evaluation.specs.EvaluableModels.{IsEvaluable};

use crate::clauses::{holds_in, is_list_of};
use crate::models::{Bits, BitsPlace, is_first, model_of, program_of, typed_of};
use base_values::{Dotted, FaultSet, OutOfMemory, SetList};
use sat_clauses::clause::ClauseList;
use sat_encoding::{bad_clauses, encode};
use smv_expression_reader::expression;
use smv_flat::{FlatFault, resolve_top};
use smv_language::model::{Flat, FlatModel, Role, Variable};
use smv_language::{Expr, Program};
use smv_types::{TypeFault, Typed, check_top};
use std::alloc::Global;
use std::process::Abort;
use std::test::Fail;

/// A number and three switches, which are the history bits: of three bits by their variables, those of the number two.
const SWITCHES: &[u8] =
    b"MODULE main VAR x : 0..2; a : boolean; b : boolean; c : boolean; INVAR x > 0 -> a | b;";

/// The bits of the number and of the switches.
const BITS: u32 = 5;

/// How these lie.
const PLACES: &[BitsPlace] = &[
    BitsPlace::Plain(4),
    BitsPlace::Plain(2),
    BitsPlace::Plain(2),
    BitsPlace::Plain(2),
];

/// A top event, the sets that are listed, each with a 0 after it, how many of the last bits are history and how many
/// faults may have failed; and how many states are bad.
#[derive(Clone, Copy)]
struct BadQuestion<'a> {
    top: &'a [u8],
    listed: &'a [u32],
    faults: u32,
    size: u32,
    count: u32,
}

/// Whether a variable is no input.
fn is_no_input(role: Role) -> bool
    ensures { IsTrue result ↔ (is_input (role_of role) ≡ false) }
{
    !matches!(role, Role::Input)
}

/// Whether no variable is one.
fn have_no_input(variables: &[Variable]) -> bool
    ensures { IsTrue result ↔ All (λ x. is_input (role_of x.role) ≡ false) variables.now }
{
    variables.iter().all(|x| is_no_input(x.role))
}

/// Whether a model has neither inputs nor definitions.
fn is_plain_model(m: &FlatModel) -> bool
    ensures definitions { IsTrue result → (length m.now.definitions ≡ 0) }
    ensures inputs { IsTrue result → All (λ x. is_input (role_of x.role) ≡ false) m.now.variables }
{
    m.definitions.is_empty() && have_no_input(m.variables.as_slice())
}

/// The same of a typed model.
fn is_plain(t: &Typed) -> bool
    ensures definitions { IsTrue result → (length t.now.model.definitions ≡ 0) }
    ensures inputs { IsTrue result → All (λ x. is_input (role_of x.role) ≡ false) t.now.model.variables }
{
    is_plain_model(t.model())
}

/// Ends the test where a model has one.
fn check_plain(rt: &impl Abort, t: &Typed)
    ensures definitions { length t.now.model.definitions ≡ 0 }
    ensures inputs { All (λ x. is_input (role_of x.role) ≡ false) t.now.model.variables }
{
    assert!(rt; is_plain(t));
}

/// A top event over the numbers of a model's names.
fn resolved(
    alloc: Global,
    p: &Program,
    t: &Typed,
    read: &Expr<Dotted>,
) -> Result<Expr<Flat>, FlatFault>
    ensures { IfOk result (λ top. is_closed (bounds_of t.now.model) top ≡ true) }
{
    resolve_top(alloc, p, t.model(), read)
}

/// A top event that breaks no rule.
fn judged(t: &Typed, top: Expr<Flat>) -> Result<Expr<Flat>, TypeFault>
    requires closed { is_closed (bounds_of t.now.model) top ≡ true }
    requires definitions { length t.now.model.definitions ≡ 0 }
    requires inputs { All (λ x. is_input (role_of x.role) ≡ false) t.now.model.variables }
    ensures { IfOk result (λ made. IsFitTop (model_tree t.now.model) (flat_tree made)) }
{
    match check_top(t, &top) {
        Ok(()) => Ok(top),
        Err(fault) => Err(fault),
    }
}

/// The top event of a text, over a model without inputs and definitions.
fn top_of(
    rt: &impl Abort,
    alloc: Global,
    p: &Program,
    t: &Typed,
    text: &[u8],
) -> Result<Expr<Flat>, Fail>
    ensures { IfOk result (λ top. IsFitTop (model_tree t.now.model) (flat_tree top)) }
{
    assert!(rt; text.len() < 1000);
    let read = expression(alloc, text)?;
    let made = resolved(alloc, p, t, &read)?;
    check_plain(rt, t);
    let top = judged(t, made)?;
    Ok(top)
}

/// These sets as a list.
fn sets_of(alloc: Global, listed: &[u32]) -> Result<SetList, OutOfMemory> {
    let mut list = SetList::new(alloc);
    let mut set = FaultSet::new(alloc);
    for number in listed {
        if *number == 0 {
            list.push(set)?;
            set = FaultSet::new(alloc);
        } else {
            set.push(*number)?;
        }
    }
    Ok(list)
}

/// Whether the fault of a number from 1 has failed, where so many last bits of a state are history.
fn has_failed(state: u32, faults: u32, number: u32) -> bool {
    let switch = match number.saturating_add(3).saturating_sub(faults) {
        1 => state / 4,
        2 => state / 8,
        _ => state / 16,
    };
    switch % 2 == 1
}

/// Whether all faults of some listed set have.
fn has_failed_some(state: u32, q: &BadQuestion<'_>) -> bool {
    let mut whole = true;
    for number in q.listed {
        if *number > 0 {
            whole = whole && has_failed(state, q.faults, *number);
        } else if whole {
            return true;
        } else {
            whole = true;
        }
    }
    false
}

/// How many faults have failed.
fn failed_in(state: u32, faults: u32) -> u32 {
    let mut failed: u32 = 0;
    for before in 0..faults {
        let has = has_failed(state, faults, before.saturating_add(1));
        failed = failed.saturating_add(u32::from(has));
    }
    failed
}

/// Whether a state is within the size, and has failed none of the listed sets whole.
fn is_open(state: u32, q: &BadQuestion<'_>) -> bool {
    failed_in(state, q.faults) <= q.size && !has_failed_some(state, q)
}

/// Whether a list can be made true with the bits of a state exactly where this is a first moment of the model with the
/// top event, and is open; and of so many states.
fn has_bad_states(
    alloc: Global,
    event: &Typed,
    q: &BadQuestion<'_>,
    list: &ClauseList,
) -> Result<bool, OutOfMemory>
    requires encodable { IsEncodable (model_tree event.now.model) }
    requires evaluable { IsEvaluable (model_tree event.now.model) }
{
    let mut count: u32 = 0;
    for state in 0..32u32 {
        let found = holds_in(alloc, list, BITS, state)?;
        let bits = Bits { state, inputs: 0 };
        let wanted = is_first(alloc, event, PLACES, bits)? && is_open(state, q);
        if found != Some(wanted) {
            return Ok(false);
        }
        count = count.saturating_add(u32::from(wanted));
    }
    Ok(count == q.count)
}

/// Whether the list of a question means its bad states.
fn has_list(
    alloc: Global,
    t: &Typed,
    event: &Typed,
    top: &Expr<Flat>,
    q: &BadQuestion<'_>,
) -> Result<bool, OutOfMemory>
    requires encodable { IsEncodable (model_tree t.now.model) }
    requires top { IsFitTop (model_tree t.now.model) (flat_tree top.now) }
    requires encodable_event { IsEncodable (model_tree event.now.model) }
    requires evaluable_event { IsEvaluable (model_tree event.now.model) }
{
    if q.faults as usize > t.model().variables.len() {
        return Ok(false);
    }
    let listed = sets_of(alloc, q.listed)?;
    let list = bad_clauses(alloc, t, top, &listed, q.faults, q.size)?;
    has_bad_states(alloc, event, q, &list)
}

/// Whether the model of a question, with its top event, does.
fn is_right(rt: &impl Abort, alloc: Global, q: &BadQuestion<'_>) -> Result<bool, Fail> {
    let p = program_of(rt, alloc, &[SWITCHES])?;
    let t = typed_of(rt, alloc, &p)?;
    let top = top_of(rt, alloc, &p, &t, q.top)?;
    let event = model_of(rt, alloc, &[SWITCHES, b" INVAR ", q.top])?;
    let right = has_list(alloc, &t, &event, &top, q)?;
    Ok(right)
}

/// The number of the first question whose list does not, or None.
fn first_wrong(
    rt: &impl Abort,
    alloc: Global,
    questions: &[BadQuestion<'_>],
) -> Result<Option<usize>, Fail> {
    for (i, q) in questions.iter().enumerate() {
        if !is_right(rt, alloc, q)? {
            return Ok(Some(i));
        }
    }
    Ok(None)
}

const QUESTIONS: &[BadQuestion<'static>] = &[
    // as many as there are: nothing is asked
    BadQuestion {
        top: b"x = 2 | a & c",
        listed: &[],
        faults: 3,
        size: 3,
        count: 10,
    },
    BadQuestion {
        top: b"x = 2 | a & c",
        listed: &[],
        faults: 3,
        size: 2,
        count: 7,
    },
    BadQuestion {
        top: b"x = 2 | a & c",
        listed: &[],
        faults: 3,
        size: 1,
        count: 2,
    },
    BadQuestion {
        top: b"x = 2 | a & c",
        listed: &[],
        faults: 3,
        size: 0,
        count: 0,
    },
    // the sets of one fault and of two
    BadQuestion {
        top: b"x = 2 | a & c",
        listed: &[1, 0],
        faults: 3,
        size: 3,
        count: 2,
    },
    BadQuestion {
        top: b"x = 2 | a & c",
        listed: &[1, 3, 0, 2, 0],
        faults: 3,
        size: 4,
        count: 1,
    },
    // the empty set has failed whole in every state
    BadQuestion {
        top: b"x = 2 | a & c",
        listed: &[0],
        faults: 3,
        size: 3,
        count: 0,
    },
    // the last two bits alone are history
    BadQuestion {
        top: b"x > 0",
        listed: &[1, 2, 0],
        faults: 2,
        size: 1,
        count: 8,
    },
    // no history
    BadQuestion {
        top: b"TRUE",
        listed: &[],
        faults: 0,
        size: 0,
        count: 20,
    },
];

#[test]
fn lists_mean_their_bad_states(rt: HostRuntime) -> Result<(), Fail> {
    let wrong = first_wrong(&rt, rt.alloc(), QUESTIONS)?;
    assert_eq!(rt; wrong, None);
    Ok(())
}

const FIRST: &[&[i64]] = &[
    &[1],
    &[-4, 2, -1],
    &[-4, -2, 1],
    &[4, -2, -1],
    &[4, 2, 1],
    &[-4],
];

const STEP: &[&[i64]] = &[
    &[1],
    &[-4, 3, 2],
    &[-4, -3, -2],
    &[4, -3, 2],
    &[4, 3, -2],
    &[-4],
];

const BAD: &[&[i64]] = &[&[1], &[2]];

/// Whether the model's lists are those above: of first states, and of steps.
fn has_lists(alloc: Global, t: &Typed) -> Result<(bool, bool), OutOfMemory>
    requires { IsEncodable (model_tree t.now.model) }
{
    let lists = encode(alloc, t)?;
    if lists.state_bits != 1 || lists.input_bits != 0 {
        return Ok((false, false));
    }
    let is_first = is_list_of(&lists.first, FIRST);
    Ok((is_first, is_list_of(&lists.step, STEP)))
}

/// Whether that of bad states is.
fn has_bad_list(alloc: Global, t: &Typed, top: &Expr<Flat>) -> Result<bool, OutOfMemory>
    requires encodable { IsEncodable (model_tree t.now.model) }
    requires top { IsFitTop (model_tree t.now.model) (flat_tree top.now) }
{
    let none = SetList::new(alloc);
    let bad = bad_clauses(alloc, t, top, &none, 0, 0)?;
    Ok(is_list_of(&bad, BAD))
}

/// Whether the lists of first states, steps and bad states are.
fn worked_out(rt: &impl Abort, alloc: Global) -> Result<((bool, bool), bool), Fail> {
    let text = b"MODULE main VAR x : boolean; ASSIGN init(x) := FALSE; next(x) := x;";
    let p = program_of(rt, alloc, &[text])?;
    let t = typed_of(rt, alloc, &p)?;
    let lists = has_lists(alloc, &t)?;
    let top = top_of(rt, alloc, &p, &t, b"x")?;
    let bad = has_bad_list(alloc, &t, &top)?;
    Ok((lists, bad))
}

#[test]
fn lists_are_those_worked_out(rt: HostRuntime) -> Result<(), Fail> {
    let found = worked_out(&rt, rt.alloc())?;
    assert_eq!(rt; found, ((true, true), true));
    Ok(())
}
