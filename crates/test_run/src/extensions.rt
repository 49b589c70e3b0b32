//! Rows of extensions, of every kind of refusal, and of desks that fail on the way.
ghost use Rattle.std.specs.Prelude.{◌<◌, ◌^◌, length};

use crate::desks::{DARK, LAMP, declared, desk_of, joined, ran, rest_from};
use base_files::{CallKind, Fail, MemoryDesk};
use base_values::OutOfMemory;
use smv_expression_reader::expression;
use smv_language::print_expr;
use std::alloc::Global;

const EXTENDED: &[u8] =
    b"MODULE main\nVAR\n  on : boolean;\nASSIGN\n  init(on#nominal) := TRUE;\n  next(on#nominal) := on;\nVAR\n  on#nominal : boolean;\n  \
        Lamp#mode : {Lamp#nominal, Lamp#dark};\nASSIGN\n  init(Lamp#mode) := Lamp#nominal;\n  next(Lamp#mode) := case (Lamp#mode = \
        Lamp#dark) : Lamp#dark; TRUE : ({Lamp#nominal} union (TRUE ? {Lamp#dark} : {Lamp#nominal})); esac;\n  on := case (Lamp#mode = \
        Lamp#dark) : FALSE; TRUE : on#nominal; esac;\n";

/// A lamp that may be frozen from the first moment on, and its extension.
const HOLDING: &[u8] =
    b"EXTENSION OF MODULE main SLICE Lamp AFFECTS on INITIALLY ANY WITH MODE hold : Permanent Frozen;";

const HELD: &[u8] =
    b"MODULE main\nVAR\n  on : boolean;\nASSIGN\n  init(on#nominal) := TRUE;\n  next(on#nominal) := on;\nVAR\n  on#nominal : boolean;\n  \
        Lamp#mode : {Lamp#nominal, Lamp#hold};\nASSIGN\n  init(Lamp#mode) := {Lamp#nominal, Lamp#hold};\n  next(Lamp#mode) := case \
        (Lamp#mode = Lamp#hold) : Lamp#hold; TRUE : ({Lamp#nominal} union (TRUE ? {Lamp#hold} : {Lamp#nominal})); esac;\n  on := case \
        (Lamp#mode = Lamp#hold) : {FALSE, TRUE}; TRUE : on#nominal; esac;\nTRANS\n  ((next(Lamp#mode) = Lamp#hold) -> (next(on) = on));\n\
        INIT\n  ((Lamp#mode = Lamp#hold) -> (on = on#nominal));\n";

/// A number that may fall from the first moment on.
const FALLING: &[u8] =
    b"EXTENSION OF MODULE main SLICE S AFFECTS x INITIALLY ANY WITH MODE m : Permanent RampDown(4, 1);";

const FALLS: &[u8] =
    b"INIT\n  ((S#mode = S#m) -> (x = (((x#nominal - 4) > 1) ? (x#nominal - 4) : 1)));\n";

const SIDES: &[u8] =
    b"MODULE Left VAR out : boolean; ASSIGN out := TRUE; MODULE Right VAR out : boolean; ASSIGN out := TRUE; MODULE main VAR a : Left; b \
        : Right;";

const SIDES_OFF: &[u8] =
    b"EXTENSION OF MODULE Left SLICE SA AFFECTS out WITH MODE off : Permanent StuckAt(FALSE); EXTENSION OF MODULE Right SLICE SB AFFECTS \
        out WITH MODE off : Permanent StuckAt(FALSE);";

const SIDES_EXTENDED: &[u8] =
    b"MODULE Left\nVAR\n  out : boolean;\nASSIGN\n  out#nominal := TRUE;\nVAR\n  out#nominal : boolean;\n  SA#mode : {SA#nominal, SA#off};\
        \nASSIGN\n  init(SA#mode) := SA#nominal;\n  next(SA#mode) := case (SA#mode = SA#off) : SA#off; TRUE : ({SA#nominal} union (TRUE ? \
        {SA#off} : {SA#nominal})); esac;\n  out := case (SA#mode = SA#off) : FALSE; TRUE : out#nominal; esac;\nMODULE Right\nVAR\n  out : \
        boolean;\nASSIGN\n  out#nominal := TRUE;\nVAR\n  out#nominal : boolean;\n  SB#mode : {SB#nominal, SB#off};\nASSIGN\n  \
        init(SB#mode) := SB#nominal;\n  next(SB#mode) := case (SB#mode = SB#off) : SB#off; TRUE : ({SB#nominal} union (TRUE ? {SB#off} : \
        {SB#nominal})); esac;\n  out := case (SB#mode = SB#off) : FALSE; TRUE : out#nominal; esac;\nMODULE main\nVAR\n  a : Left;\n  b : \
        Right;\n";

const POWER: &[u8] =
    b"MODULE Generator\nVAR live : boolean;\nASSIGN live := TRUE;\nMODULE Battery\nVAR charge : 0..3;\nASSIGN init(charge) := 3; \
        next(charge) := charge;\nMODULE Sensor(line)\nVAR seen : boolean;\nASSIGN seen := line;\nMODULE main\nVAR g1 : Generator; g2 : \
        Generator; b1 : Battery; b2 : Battery;\n    v1 : Sensor(feed1); use2 : boolean;\nDEFINE feed1 := g1.live | b1.charge > 0;\n  \
        feed2 := g2.live | b2.charge > 0;\n  bus := use2 ? feed2 : feed1;\nASSIGN init(use2) := FALSE; next(use2) := !v1.seen;\nCTLSPEC \
        AG bus\n";

const POWER_FAULTS: &[u8] =
    b"FAULT EXTENSION Power\nEXTENSION OF MODULE Generator\n  SLICE Gen AFFECTS live WITH MODE off : Permanent StuckAt(FALSE);\nEXTENSION \
        OF MODULE Battery\n  SLICE Cell AFFECTS charge WITH MODE drain : Permanent RampDown(1, 0);\nEXTENSION OF MODULE Sensor\n  SLICE \
        Eye AFFECTS seen WITH\n    MODE wild {0.001} : Transient Random;\n    MODE hold : Permanent Frozen;\n";

const POWER_SAID: &[u8] =
    b"faults 6\nfault 1 g1.Gen.off\nfault 2 g2.Gen.off\nfault 3 b1.Cell.drain\nfault 4 b2.Cell.drain\nfault 5 v1.Eye.wild\nfault 6 \
        v1.Eye.hold\nextended\n";

const TWO_SLICES: &[u8] =
    b"EXTENSION OF MODULE main SLICE Lamp AFFECTS on WITH MODE dark : Permanent StuckAt(FALSE); SLICE Light AFFECTS on WITH MODE dark : \
        Permanent StuckAt(FALSE);";

const ONE_SLICE_TWICE: &[u8] =
    b"EXTENSION OF MODULE main SLICE Lamp AFFECTS on WITH MODE dark : Permanent StuckAt(FALSE); SLICE Lamp AFFECTS on WITH MODE dark : \
        Permanent StuckAt(FALSE);";

/// Instructions that add two variables.
const TWO_MORE: &[u8] =
    b"EXTENSION OF MODULE main SLICE S AFFECTS x1 WITH MODE m : Permanent Random;";

/// The module of the sensors with its faults, as it stands in the extension.
const SENSOR: &[u8] =
    b"MODULE Sensor(line)\nVAR\n  seen : boolean;\nASSIGN\n  seen#nominal := line;\nVAR\n  seen#nominal : boolean;\n  Eye#mode : \
        {Eye#nominal, Eye#wild, Eye#hold};\nASSIGN\n  init(Eye#mode) := Eye#nominal;\n  next(Eye#mode) := case (Eye#mode = Eye#wild) : \
        {Eye#wild, Eye#nominal}; (Eye#mode = Eye#hold) : Eye#hold; TRUE : (({Eye#nominal} union (TRUE ? {Eye#wild} : {Eye#nominal})) \
        union (TRUE ? {Eye#hold} : {Eye#nominal})); esac;\n  seen := case (Eye#mode = Eye#wild) : {FALSE, TRUE}; (Eye#mode = Eye#hold) : \
        {FALSE, TRUE}; TRUE : seen#nominal; esac;\nTRANS\n  ((next(Eye#mode) = Eye#hold) -> (next(seen) = seen));\n";

const LOOP_OF_FORMALS: &[u8] =
    b"MODULE M(p) VAR x : boolean; ASSIGN x := p; MODULE main VAR a : M(b.p); b : M(a.p);";

/// Two instances that assign to one another, and what is written of them where there is no fault.
const LOOP_OF_ASSIGNMENTS: &[u8] =
    b"MODULE M(p) VAR x : boolean; ASSIGN x := p; MODULE main VAR a : M(b.x); b : M(a.x);";

const LOOP_WRITTEN: &[u8] =
    b"MODULE M(p)\nVAR\n  x : boolean;\nASSIGN\n  x := p;\nMODULE main\nVAR\n  a : M(b.x);\n  b : M(a.x);\n";

static WORDS: [&str; 7] = ["extend", "--model", "m", "--faults", "f", "--extended", "x"];

/// Files, and how a run over them ends: its number, what it says, and the file that it writes, if any.
#[derive(Clone, Copy)]
struct Row<'a> {
    model: Option<&'a [u8]>,
    faults: Option<&'a [u8]>,
    number: i32,
    said: &'a [u8],
    written: Option<&'a [u8]>,
}

/// The row of a model that is refused.
fn no_model<'a>(model: &'a [u8], said: &'a [u8]) -> Row<'a> {
    Row {
        model: Some(model),
        faults: Some(DARK),
        number: 3,
        said,
        written: None,
    }
}

/// The row of instructions that are refused for a model.
fn refused_for<'a>(model: &'a [u8], faults: &'a [u8], said: &'a [u8]) -> Row<'a> {
    Row {
        model: Some(model),
        faults: Some(faults),
        number: 4,
        said,
        written: None,
    }
}

/// The row of instructions that are refused for the lamp.
fn no_faults<'a>(faults: &'a [u8], said: &'a [u8]) -> Row<'a> {
    refused_for(LAMP, faults, said)
}

/// The row of a model that is written as it is, without faults.
fn as_it_is<'a>(model: &'a [u8], written: &'a [u8]) -> Row<'a> {
    Row {
        model: Some(model),
        faults: Some(b""),
        number: 0,
        said: b"faults 0\nextended\n",
        written: Some(written),
    }
}

/// Whether this was said and this file written, if any.
fn is_left(desk: &MemoryDesk, said: &[u8], written: Option<&[u8]>) -> bool {
    desk.said() == said && desk.file("x") == written
}

/// Whether a run over the files of a row, whose calls fail as told, ends as the row says.
fn holds(alloc: Global, words: &[&str], row: &Row, fails: &[Fail]) -> Result<bool, OutOfMemory> {
    let mut desk = desk_of(alloc, &[("m", row.model), ("f", row.faults)], fails)?;
    let number = ran(alloc, words, &mut desk, Vec::new(alloc));
    Ok(number == row.number && is_left(&desk, row.said, row.written))
}

static LAMP_EXTENDED: Row = Row {
    model: Some(LAMP),
    faults: Some(DARK),
    number: 0,
    said: b"faults 1\nfault 1 Lamp.dark\nextended\n",
    written: Some(EXTENDED),
};

/// A first call that fails with the bytes that it keeps, and the file that it leaves, if any.
type StoppedCall = (CallKind, u64, Option<&'static [u8]>);

static STOPS: [StoppedCall; 4] = [
    (CallKind::Read, 0, None),
    (CallKind::Start, 0, None),
    (CallKind::Append, 10, Some(b"MODULE mai")),
    (CallKind::Say, 0, Some(EXTENDED)),
];

/// Whether a run over the lamp whose call fails says nothing and leaves its file.
fn stops(alloc: Global, stop: &StoppedCall) -> Result<bool, OutOfMemory> {
    let fail = Fail {
        call: stop.0,
        nth: 1,
        kept: stop.1,
    };
    let row = Row {
        model: Some(LAMP),
        faults: Some(DARK),
        number: 7,
        said: b"",
        written: stop.2,
    };
    holds(alloc, &WORDS, &row, &[fail])
}

#[test]
fn the_lamp_is_extended_and_a_failing_desk_leaves_a_part(
    rt: HostRuntime,
) -> Result<(), OutOfMemory> {
    assert!(rt; holds(rt.alloc(), &WORDS, &LAMP_EXTENDED, &[])?);
    for (i, stop) in STOPS.iter().enumerate() {
        assert!(rt; stops(rt.alloc(), stop)?, "stop {i}");
    }
    Ok(())
}

static NO_WORDS: Row = Row {
    model: Some(LAMP),
    faults: Some(DARK),
    number: 2,
    said: b"refused words 1 at 0\n",
    written: None,
};

static NO_MODEL_FILE: Row = Row {
    model: None,
    faults: Some(DARK),
    number: 3,
    said: b"refused model absent 1 at 0\n",
    written: None,
};

static NO_FAULTS_FILE: Row = Row {
    model: Some(LAMP),
    faults: None,
    number: 4,
    said: b"refused faults absent 1 at 0\n",
    written: None,
};

/// Models that are refused, and the line of each.
static MODELS: [(&[u8], &[u8]); 12] = [
    (b"MODULE main @", b"refused model lex 1 at 12\n"),
    (
        b"MODULE main FAIRNESS TRUE",
        b"refused model parse 4 at 12\n",
    ),
    (b"", b"refused model flat 1 at 0\n"),
    (
        b"MODULE main VAR m : M; MODULE M VAR n : M;",
        b"refused model flat 7 at 4\n",
    ),
    (
        b"MODULE main DEFINE a := b; b := a;",
        b"refused model flat 11 at 2\n",
    ),
    (
        b"MODULE main VAR x : boolean; ASSIGN x := TRUE; next(x) := x;",
        b"refused model flat 10 at 4\n",
    ),
    (LOOP_OF_FORMALS, b"refused model flat 11 at 5\n"),
    (b"MODULE main VAR x : 3..1;", b"refused model type 6 at 2\n"),
    (
        b"MODULE main VAR x : {1, b};",
        b"refused model type 7 at 2\n",
    ),
    (
        b"MODULE main VAR x : {b, b};",
        b"refused model type 10 at 2\n",
    ),
    (
        b"MODULE main VAR x : 0..2147483648;",
        b"refused model type 5 at 2\n",
    ),
    (
        b"MODULE main VAR x : 0..3; y : 0..3; ASSIGN next(y) := y / x;",
        b"refused model type 4 at 4\n",
    ),
];

/// Instructions that are refused for the lamp, and the line of each.
static FAULTS: [(&[u8], &[u8]); 9] = [
    (b"FAULT ?", b"refused faults parse 1 at 6\n"),
    (
        b"EXTENSION OF MODULE main SLICE L AFFECTS z WITH MODE d : Permanent Random;",
        b"refused faults weave 2 at 2\n",
    ),
    (TWO_SLICES, b"refused faults weave 6 at 4\n"),
    (ONE_SLICE_TWICE, b"refused faults weave 4 at 4\n"),
    (
        b"EXTENSION OF MODULE main SLICE on AFFECTS on WITH MODE dark : Permanent StuckAt(FALSE);",
        b"refused faults weave 8 at 2\n",
    ),
    (
        b"EXTENSION OF MODULE main SLICE L AFFECTS on WITH MODE d : Permanent Offset(1);",
        b"refused faults effect 1 at 3\n",
    ),
    (
        b"EXTENSION OF MODULE main SLICE L AFFECTS on WITH MODE d : Permanent Random WHEN z;",
        b"refused faults flat 8 at 3\n",
    ),
    (
        b"EXTENSION OF MODULE main SLICE L AFFECTS on WITH MODE d : Permanent Random WHEN 3;",
        b"refused faults type 2 at 3\n",
    ),
    (
        b"EXTENSION OF MODULE main SLICE L AFFECTS on WITH MODE nominal : Permanent Random;",
        b"refused faults weave 8 at 3\n",
    ),
];

#[test]
fn each_refusal_says_its_line(rt: HostRuntime) -> Result<(), OutOfMemory> {
    assert!(rt; holds(rt.alloc(), &[], &NO_WORDS, &[])?);
    assert!(rt; holds(rt.alloc(), &WORDS, &NO_MODEL_FILE, &[])?);
    assert!(rt; holds(rt.alloc(), &WORDS, &NO_FAULTS_FILE, &[])?);
    Ok(())
}

#[test]
fn models_are_refused(rt: HostRuntime) -> Result<(), OutOfMemory> {
    for (i, (model, said)) in MODELS.iter().enumerate() {
        let row = no_model(model, said);
        assert!(rt; holds(rt.alloc(), &WORDS, &row, &[])?, "model {i}");
    }
    Ok(())
}

#[test]
fn instructions_are_refused(rt: HostRuntime) -> Result<(), OutOfMemory> {
    for (i, (faults, said)) in FAULTS.iter().enumerate() {
        let row = no_faults(faults, said);
        assert!(rt; holds(rt.alloc(), &WORDS, &row, &[])?, "instructions {i}");
    }
    Ok(())
}

/// The lamp and spaces behind it, one byte longer than a file may be.
fn too_long(alloc: Global) -> Result<Vec<u8>, OutOfMemory> {
    let mut long = joined(alloc, &[LAMP])?;
    long.resize(1_048_577, b' ')?;
    Ok(long)
}

fn long_model_is_refused(alloc: Global) -> Result<bool, OutOfMemory> {
    let long = too_long(alloc)?;
    let row = no_model(&long, b"refused model length 1 at 1048576\n");
    holds(alloc, &WORDS, &row, &[])
}

fn long_faults_are_refused(alloc: Global) -> Result<bool, OutOfMemory> {
    let long = too_long(alloc)?;
    let row = no_faults(&long, b"refused faults length 1 at 1048576\n");
    holds(alloc, &WORDS, &row, &[])
}

/// Whether instructions that add two variables to 1,999 are refused.
fn wide_model_is_refused(alloc: Global) -> Result<bool, OutOfMemory> {
    let wide = declared(alloc, b"MODULE main VAR", "x", "boolean", 0, 1_999)?;
    let row = refused_for(&wide, TWO_MORE, b"refused faults flat 14 at 0\n");
    holds(alloc, &WORDS, &row, &[])
}

#[test]
fn long_files_and_wide_models_are_refused(rt: HostRuntime) -> Result<(), OutOfMemory> {
    assert!(rt; long_model_is_refused(rt.alloc())?);
    assert!(rt; long_faults_are_refused(rt.alloc())?);
    assert!(rt; wide_model_is_refused(rt.alloc())?);
    Ok(())
}

/// A model, its instructions, what a run over them says, and a part of what it writes.
type WrittenPart = (&'static [u8], &'static [u8], &'static [u8], &'static [u8]);

static FALLING_PART: WrittenPart = (
    b"MODULE main VAR x : 0..9;",
    FALLING,
    b"faults 1\nfault 1 S.m\nextended\n",
    FALLS,
);

static SENSOR_PART: WrittenPart = (POWER, POWER_FAULTS, POWER_SAID, SENSOR);

/// Whether a part stands in a file, if there is one.
fn contains(file: Option<&[u8]>, part: &[u8]) -> bool {
    match file {
        Some(bytes) => !rest_from(bytes, part).is_empty(),
        None => false,
    }
}

fn has_part(alloc: Global, row: &WrittenPart) -> Result<bool, OutOfMemory> {
    let mut desk = desk_of(alloc, &[("m", Some(row.0)), ("f", Some(row.1))], &[])?;
    let number = ran(alloc, &WORDS, &mut desk, Vec::new(alloc));
    Ok(number == 0 && desk.said() == row.2 && contains(desk.file("x"), row.3))
}

static HOLDING_EXTENDED: Row = Row {
    model: Some(LAMP),
    faults: Some(HOLDING),
    number: 0,
    said: b"faults 1\nfault 1 Lamp.hold\nextended\n",
    written: Some(HELD),
};

#[test]
fn a_slice_may_start_in_any_mode(rt: HostRuntime) -> Result<(), OutOfMemory> {
    assert!(rt; holds(rt.alloc(), &WORDS, &HOLDING_EXTENDED, &[])?);
    assert!(rt; has_part(rt.alloc(), &FALLING_PART)?);
    Ok(())
}

/// Models that are written without faults, and what is written.
static AS_THEY_ARE: [(&[u8], &[u8]); 3] = [
    (LAMP, LAMP),
    (LOOP_OF_ASSIGNMENTS, LOOP_WRITTEN),
    (
        b"MODULE main VAR x : 0..2147483647;",
        b"MODULE main\nVAR\n  x : 0..2147483647;\n",
    ),
];

static BOTH_SIDES: Row = Row {
    model: Some(SIDES),
    faults: Some(SIDES_OFF),
    number: 0,
    said: b"faults 2\nfault 1 a.SA.off\nfault 2 b.SB.off\nextended\n",
    written: Some(SIDES_EXTENDED),
};

#[test]
fn modules_are_extended_at_each_instance(rt: HostRuntime) -> Result<(), OutOfMemory> {
    for (i, (model, written)) in AS_THEY_ARE.iter().enumerate() {
        let row = as_it_is(model, written);
        assert!(rt; holds(rt.alloc(), &WORDS, &row, &[])?, "model {i}");
    }
    assert!(rt; holds(rt.alloc(), &WORDS, &BOTH_SIDES, &[])?);
    assert!(rt; has_part(rt.alloc(), &SENSOR_PART)?);
    Ok(())
}

/// An expression, and how it is printed.
static PRINTED: [(&[u8], &[u8]); 11] = [
    (b"a -> b -> c", b"(a -> (b -> c))"),
    (b"!a = b", b"((!a) = b)"),
    (b"a->b", b"(a -> b)"),
    (b"a-b", b"a-b"),
    (b"a - b", b"(a - b)"),
    (b"a--b", b"a"),
    (b"a /-- x --/ & b", b"(a & b)"),
    (b"a | b xor c & d", b"((a | b) xor (c & d))"),
    (b"a ? b : c ? d : e", b"(a ? b : (c ? d : e))"),
    (b"a <-> b -> c", b"((a <-> b) -> c)"),
    (b"-(1..3) in {a, b}", b"((-(1..3)) in {a, b})"),
];

/// What is printed of an expression that is read, and nothing of what is not.
fn read_and_printed(alloc: Global, text: &[u8]) -> Option<Vec<u8>>
    requires { length text.now < 2 ^ 32 }
{
    let read = expression(alloc, text).ok()?;
    print_expr(alloc, &read).ok()
}

/// Whether the expression of a text is printed so.
fn is_printed(alloc: Global, text: &[u8], wanted: &[u8]) -> bool {
    if text.len() >= 100 {
        return false;
    }
    match read_and_printed(alloc, text) {
        Some(made) => made.as_slice() == wanted,
        None => false,
    }
}

#[test]
fn an_expression_is_printed_as_it_groups(rt: HostRuntime) {
    for (i, (text, wanted)) in PRINTED.iter().enumerate() {
        assert!(rt; is_printed(rt.alloc(), text, wanted), "row {i}");
    }
}
