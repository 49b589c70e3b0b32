//! Which effects a type refuses, and what effects come to in a woven program.
use crate::texts::is_text;
use base_values::{Name, OutOfMemory};
use fault_instructions::EffectFault::{OneValueOnly, Outside, WrongKind};
use fault_instructions::{
    Constant, ConstantEffect, Effect, EffectFault, NumberEffect, NumbersEffect, PlainEffect,
    allowed, branch, first_rule, rule,
};
use smv_language::{Declared, Section, print_expr};
use std::alloc::Global;

/// The variable `x`, the slice `S` and its mode `m`.
#[derive(Drop)]
struct EffectNames {
    x: Name,
    slice: Name,
    mode: Name,
}

fn made_names(alloc: Global) -> Result<EffectNames, OutOfMemory> {
    Ok(EffectNames {
        x: Name::new(alloc, b"x")?,
        slice: Name::new(alloc, b"S")?,
        mode: Name::new(alloc, b"m")?,
    })
}

/// The text of the rule section by which `x` falls in steps of 4 to 1.
fn ramp_text(alloc: Global) -> Option<Vec<u8>> {
    let names = made_names(alloc).ok()?;
    let effect = Effect::OfNumbers(NumbersEffect::RampDown, 4, 1);
    match rule(alloc, &effect, &names.slice, &names.mode, &names.x) {
        Ok(Some(Section::Trans(made))) => print_expr(alloc, &made).ok(),
        _ => None,
    }
}

/// The text of the first rule section by which `x` starts frozen.
fn frozen_text(alloc: Global) -> Option<Vec<u8>> {
    let names = made_names(alloc).ok()?;
    match first_rule(
        alloc,
        &Effect::Plain(PlainEffect::Frozen),
        &names.slice,
        &names.mode,
        &names.x,
    ) {
        Ok(Some(Section::Init(made))) => print_expr(alloc, &made).ok(),
        _ => None,
    }
}

/// The text of the branch by which `x : 0..9` is read 5 too high.
fn offset_text(alloc: Global) -> Option<Vec<u8>> {
    let x = Name::new(alloc, b"x").ok()?;
    let made = branch(
        alloc,
        &Effect::OfNumber(NumberEffect::Offset, 5),
        &x,
        &Declared::Range(0, 9),
    )
    .ok()?;
    print_expr(alloc, &made).ok()
}

static OFFSET: &[u8] =
    b"(((x#nominal + 5) > 9) ? 9 : (((x#nominal + 5) < 0) ? 0 : (x#nominal + 5)))";

static RAMP: &[u8] = b"((next(S#mode) = S#m) -> (next(x) = (((x - 4) > 1) ? (x - 4) : 1)))";

static FROZEN: &[u8] = b"((S#mode = S#m) -> (x = x#nominal))";

#[test]
fn offsets_ramps_and_frozen_values_have_their_texts(rt: HostRuntime) {
    assert!(rt; is_text(offset_text(rt.alloc()), OFFSET));
    assert!(rt; is_text(ramp_text(rt.alloc()), RAMP));
    assert!(rt; is_text(frozen_text(rt.alloc()), FROZEN));
}

/// An effect that is judged, as plain data.
#[derive(Clone, Copy)]
enum JudgedEffect {
    Erroneous,
    StuckAtNumber(i64),
    StuckAtTruth(bool),
    RampDown(i64, i64),
    Offset(i64),
    Frozen,
}

fn effect_of(judged: JudgedEffect) -> Effect {
    match judged {
        JudgedEffect::Erroneous => Effect::Plain(PlainEffect::Erroneous),
        JudgedEffect::StuckAtNumber(n) => Effect::OfConstant(
            ConstantEffect::StuckAt,
            Constant::Number(n),
        ),
        JudgedEffect::StuckAtTruth(b) => Effect::OfConstant(
            ConstantEffect::StuckAt,
            Constant::Truth(b),
        ),
        JudgedEffect::RampDown(step, floor) => Effect::OfNumbers(
            NumbersEffect::RampDown,
            step,
            floor,
        ),
        JudgedEffect::Offset(distance) => Effect::OfNumber(NumberEffect::Offset, distance),
        JudgedEffect::Frozen => Effect::Plain(PlainEffect::Frozen),
    }
}

/// The type of a range, or that of truth values.
fn declared_of(range: Option<(i64, i64)>) -> Declared {
    match range {
        Some((lo, hi)) => Declared::Range(lo, hi),
        None => Declared::Boolean,
    }
}

/// An effect, the range of the type that it is to stand at, and its fault where it has one.
type Row = (JudgedEffect, Option<(i64, i64)>, Option<EffectFault>);

static ROWS: [Row; 7] = [
    (JudgedEffect::Erroneous, Some((3, 3)), Some(OneValueOnly)),
    (JudgedEffect::StuckAtNumber(4), Some((0, 3)), Some(Outside)),
    (
        JudgedEffect::StuckAtTruth(true),
        Some((0, 3)),
        Some(WrongKind),
    ),
    (JudgedEffect::RampDown(0, 0), Some((0, 3)), Some(Outside)),
    (
        JudgedEffect::Offset(2_147_483_647),
        Some((1, 2)),
        Some(Outside),
    ),
    (
        JudgedEffect::RampDown(2_147_483_648, 2_147_483_647),
        Some((2_147_483_647, 2_147_483_647)),
        Some(Outside),
    ),
    (JudgedEffect::Frozen, None, None),
];

fn refusal(judged: JudgedEffect, range: Option<(i64, i64)>) -> Option<EffectFault> {
    allowed(&effect_of(judged), &declared_of(range)).err()
}

#[test]
fn an_effect_is_refused_for_its_first_broken_demand(rt: HostRuntime) {
    for (i, (judged, range, fault)) in ROWS.iter().enumerate() {
        assert_eq!(rt; refusal(*judged, *range), *fault, "row {i}");
    }
}
