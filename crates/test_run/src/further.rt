//! Rows of common causes, orders of two faults and odds over desks in memory: how each run ends and what it says, that what it has
//! written is accepted, and what stands where a call of the desk fails.
use crate::desks::{BOTH, DARK, FLASH, File, LAMP, SWITCHES, desk_of, ran, shows, written};
use base_files::{CallKind, Fail, write_whole};
use base_values::OutOfMemory;
use std::alloc::Global;

/// The switch b may be stuck only where a is.
const AFTER: &[u8] =
    b"EXTENSION OF MODULE main SLICE A AFFECTS a WITH MODE on : Permanent StuckAt(TRUE); SLICE B AFFECTS b WITH MODE on : Permanent \
        StuckAt(TRUE) WHEN a;";

const MARKED: &[u8] =
    b"EXTENSION OF MODULE main SLICE A AFFECTS a WITH MODE on {0.1} : Permanent StuckAt(TRUE); SLICE B AFFECTS b WITH MODE on {0.25} : \
        Permanent StuckAt(TRUE);";

const SMALL: &[u8] =
    b"EXTENSION OF MODULE main SLICE A AFFECTS a WITH MODE on {0.000000000000000001} : Permanent StuckAt(TRUE); SLICE B AFFECTS b WITH \
        MODE on {0.5} : Permanent StuckAt(TRUE);";

const CERTAIN: &[u8] =
    b"FAULT EXTENSION F EXTENSION OF MODULE main SLICE Lamp AFFECTS on WITH MODE dark {1.0} : Permanent StuckAt(FALSE);";

const ABOVE_ONE: &[u8] =
    b"FAULT EXTENSION F EXTENSION OF MODULE main SLICE Lamp AFFECTS on WITH MODE dark {1.5} : Permanent StuckAt(FALSE);";

const CAUSES: [&str; 13] = [
    "causes", "--model", "m", "--faults", "f", "--causes", "s", "--top", "!on", "--depth", "60",
    "--cert", "c",
];

const CHECK_CAUSES: [&str; 11] = [
    "check-causes",
    "--model",
    "m",
    "--faults",
    "f",
    "--causes",
    "s",
    "--top",
    "!on",
    "--cert",
    "c",
];

const BEFORE: [&str; 17] = [
    "orders", "--model", "m", "--faults", "f", "--top", "a & b", "--set", "1 2", "--first", "1",
    "--second", "2", "--depth", "200", "--cert", "c",
];

const AFTER_IT: [&str; 17] = [
    "orders", "--model", "m", "--faults", "f", "--top", "a & b", "--set", "1 2", "--first", "2",
    "--second", "1", "--depth", "200", "--cert", "c",
];

const AT_ONCE: [&str; 17] = [
    "orders", "--model", "m", "--faults", "f", "--top", "a & b", "--set", "1 2", "--first", "1",
    "--second", "2", "--depth", "0", "--cert", "c",
];

const THIRD: [&str; 17] = [
    "orders", "--model", "m", "--faults", "f", "--top", "a & b", "--set", "1 3", "--first", "1",
    "--second", "3", "--depth", "200", "--cert", "c",
];

const OUTSIDE: [&str; 17] = [
    "orders", "--model", "m", "--faults", "f", "--top", "a & b", "--set", "1 2", "--first", "1",
    "--second", "3", "--depth", "200", "--cert", "c",
];

const CHECK_BEFORE: [&str; 17] = [
    "check-orders",
    "--model",
    "m",
    "--faults",
    "f",
    "--top",
    "a & b",
    "--set",
    "1 2",
    "--first",
    "1",
    "--second",
    "2",
    "--claim",
    "before",
    "--cert",
    "c",
];

const CHECK_AFTER: [&str; 17] = [
    "check-orders",
    "--model",
    "m",
    "--faults",
    "f",
    "--top",
    "a & b",
    "--set",
    "1 2",
    "--first",
    "2",
    "--second",
    "1",
    "--claim",
    "after",
    "--cert",
    "c",
];

const CHECK_TOGETHER: [&str; 17] = [
    "check-orders",
    "--model",
    "m",
    "--faults",
    "f",
    "--top",
    "a & b",
    "--set",
    "1 2",
    "--first",
    "1",
    "--second",
    "2",
    "--claim",
    "together",
    "--cert",
    "c",
];

const ODDS: [&str; 9] = [
    "odds", "--model", "m", "--faults", "f", "--top", "a & b", "--depth", "2050",
];

const LAMP_ODDS: [&str; 9] = [
    "odds", "--model", "m", "--faults", "f", "--top", "on", "--depth", "18",
];

const FLASHED: [File; 3] = [("m", Some(LAMP)), ("f", Some(DARK)), ("s", Some(FLASH))];

const ORDERED: [File; 2] = [("m", Some(SWITCHES)), ("f", Some(AFTER))];

const TWO: [File; 2] = [("m", Some(SWITCHES)), ("f", Some(BOTH))];

const EMPTY_WINDOW: [File; 3] = [
    ("m", Some(LAMP)),
    ("f", Some(DARK)),
    ("s", Some(b"CAUSE Flash WITHIN 2..1 STRIKES Lamp.dark;")),
];

const NO_SUCH_FAULT: [File; 3] = [
    ("m", Some(LAMP)),
    ("f", Some(DARK)),
    ("s", Some(b"CAUSE Flash WITHIN 0..0 STRIKES Lamp.dim;")),
];

const MARKS: [File; 2] = [("m", Some(SWITCHES)), ("f", Some(MARKED))];

const SMALL_MARKS: [File; 2] = [("m", Some(SWITCHES)), ("f", Some(SMALL))];

const CERTAIN_LAMP: [File; 2] = [("m", Some(LAMP)), ("f", Some(CERTAIN))];

const WRONG_MARK: [File; 2] = [("m", Some(LAMP)), ("f", Some(ABOVE_ONE))];

const NO_MARK: [File; 2] = [("m", Some(LAMP)), ("f", Some(DARK))];

/// The files of a run and its words; and how it ends: its number, and how what it says begins and ends.
type Row = (
    &'static [File<'static>],
    &'static [&'static str],
    i32,
    &'static [u8],
    &'static [u8],
);

static ROWS: [Row; 13] = [
    (
        &EMPTY_WINDOW,
        &CAUSES,
        9,
        b"refused causes cause 4 at 1\n",
        b"at 1\n",
    ),
    (
        &EMPTY_WINDOW,
        &CHECK_CAUSES,
        9,
        b"refused causes cause 4 at 1\n",
        b"at 1\n",
    ),
    (
        &NO_SUCH_FAULT,
        &CAUSES,
        9,
        b"refused causes cause 1 at 1\n",
        b"at 1\n",
    ),
    (
        &TWO,
        &CAUSES,
        9,
        b"refused causes absent 1 at 0\n",
        b"at 0\n",
    ),
    (
        &TWO,
        &BEFORE,
        0,
        b"pair 1 2 either\ntrace 1\nmoment 0\n",
        b"\n",
    ),
    (
        &TWO,
        &AT_ONCE,
        1,
        b"pair 1 2 none to 0 bits 11\n",
        b"bits 11\n",
    ),
    (&TWO, &THIRD, 10, b"refused set count 1 at 2\n", b"at 2\n"),
    (&TWO, &OUTSIDE, 2, b"refused words 9 at 13\n", b"at 13\n"),
    (
        &MARKS,
        &ODDS,
        0,
        b"faults 2\nfault 1 A.on\nfault 2 B.on\nsets 1\nset 1 2\nodds 1 0.025000000000000000\nsum 0.025000000000000000 within 1\n\
            complete\n",
        b"complete\n",
    ),
    (
        &SMALL_MARKS,
        &ODDS,
        0,
        b"faults 2\nfault 1 A.on\nfault 2 B.on\nsets 1\nset 1 2\nodds 1 0.000000000000000001\nsum 0.000000000000000001 within 1\n\
            complete\n",
        b"complete\n",
    ),
    (
        &CERTAIN_LAMP,
        &LAMP_ODDS,
        0,
        b"faults 1\nfault 1 Lamp.dark\nsets 1\nset\nodds 1 1.000000000000000000\nsum 1.000000000000000000 within 0\ncomplete\n",
        b"complete\n",
    ),
    (
        &WRONG_MARK,
        &LAMP_ODDS,
        4,
        b"refused faults mark 2 at 3\n",
        b"at 3\n",
    ),
    (
        &NO_MARK,
        &LAMP_ODDS,
        4,
        b"refused faults mark 1 at 3\n",
        b"at 3\n",
    ),
];

#[test]
fn refusals_and_odds_are_said(rt: HostRuntime) -> Result<(), OutOfMemory> {
    for (i, (given, words, number, begins, closes)) in ROWS.iter().enumerate() {
        assert!(rt;
            shows(rt.alloc(), given, words, *number, begins, closes)?,
            "row {i}"
        );
    }
    Ok(())
}

/// The number that a check of these bytes ends with.
fn checked(alloc: Global, given: &[File], cert: &[u8], words: &[&str]) -> Result<i32, OutOfMemory> {
    let mut desk = desk_of(alloc, given, &[])?;
    match write_whole(&mut desk, "c", cert) {
        Ok(()) => Ok(ran(alloc, words, &mut desk, Vec::new(alloc))),
        Err(_stop) => Err(OutOfMemory),
    }
}

#[test]
fn causes_are_said_and_accepted(rt: HostRuntime) -> Result<(), OutOfMemory> {
    let alloc = rt.alloc();
    let begins = b"faults 2\nfault 1 Lamp.dark\nfault 2 Flash\nsets 2\nset 1\nset 2\ntrace 1\n";
    assert!(rt; shows(alloc, &FLASHED, &CAUSES, 0, begins, b"\ncomplete\n")?);
    let cert = written(alloc, &FLASHED, &CAUSES, "c")?;
    assert!(rt; checked(alloc, &FLASHED, cert.as_slice(), &CHECK_CAUSES)? == 0);
    Ok(())
}

#[test]
fn an_order_is_said(rt: HostRuntime) -> Result<(), OutOfMemory> {
    let text = b"pair 1 2 before\n";
    assert!(rt; shows(rt.alloc(), &ORDERED, &BEFORE, 0, text, text)?);
    Ok(())
}

#[test]
fn an_order_is_accepted_as_it_was_found(rt: HostRuntime) -> Result<(), OutOfMemory> {
    let alloc = rt.alloc();
    let cert = written(alloc, &ORDERED, &BEFORE, "c")?;
    assert!(rt; checked(alloc, &ORDERED, cert.as_slice(), &CHECK_BEFORE)? == 0);
    assert!(rt; checked(alloc, &ORDERED, cert.as_slice(), &CHECK_TOGETHER)? == 6);
    Ok(())
}

#[test]
fn the_order_turned_over_is_said_and_accepted(rt: HostRuntime) -> Result<(), OutOfMemory> {
    let alloc = rt.alloc();
    let text = b"pair 2 1 after\n";
    assert!(rt; shows(alloc, &ORDERED, &AFTER_IT, 0, text, text)?);
    let cert = written(alloc, &ORDERED, &AFTER_IT, "c")?;
    assert!(rt; checked(alloc, &ORDERED, cert.as_slice(), &CHECK_AFTER)? == 0);
    Ok(())
}

/// The files of a run and its words; a call that fails, which of its kind it is, and the bytes that it keeps; and how many bytes then
/// stand of the certificate, where there is one, and of what is said.
type Failing = (
    &'static [File<'static>],
    &'static [&'static str],
    CallKind,
    u64,
    u64,
    Option<usize>,
    usize,
);

static FAILING: [Failing; 9] = [
    (&FLASHED, &CAUSES, CallKind::Read, 1, 0, None, 0),
    (&FLASHED, &CHECK_CAUSES, CallKind::Read, 2, 0, None, 0),
    (&EMPTY_WINDOW, &CAUSES, CallKind::Say, 1, 3, None, 3),
    (&ORDERED, &BEFORE, CallKind::Read, 2, 0, None, 0),
    (&ORDERED, &CHECK_BEFORE, CallKind::Read, 1, 0, None, 0),
    (&TWO, &THIRD, CallKind::Say, 1, 7, None, 7),
    (&MARKS, &ODDS, CallKind::Read, 1, 0, None, 0),
    (&MARKS, &ODDS, CallKind::Say, 1, 5, None, 5),
    (&MARKS, &ODDS, CallKind::Say, 1, 0, None, 0),
];

/// Whether so many bytes stand in a file, or none where it is not there.
fn stands(file: Option<&[u8]>, count: Option<usize>) -> bool {
    match (file, count) {
        (Some(bytes), Some(count)) => bytes.len() == count,
        (None, None) => true,
        _ => false,
    }
}

/// Whether the run ends with the number of a desk that failed, and leaves so much.
fn stops(alloc: Global, row: &Failing) -> Result<bool, OutOfMemory> {
    let (given, words, call, nth, kept, cert, said) = *row;
    let mut desk = desk_of(alloc, given, &[Fail { call, nth, kept }])?;
    let number = ran(alloc, words, &mut desk, Vec::new(alloc));
    Ok(number == 7 && stands(desk.file("c"), cert) && desk.said().len() == said)
}

#[test]
fn a_failing_desk_leaves_a_part_of_them(rt: HostRuntime) -> Result<(), OutOfMemory> {
    for (i, row) in FAILING.iter().enumerate() {
        assert!(rt; stops(rt.alloc(), row)?, "row {i}");
    }
    Ok(())
}

static CUT_CAUSES: Failing = (&FLASHED, &CAUSES, CallKind::Append, 1, 10, Some(10), 0);

static CUT_ORDER: Failing = (&ORDERED, &BEFORE, CallKind::Append, 1, 4, Some(4), 0);

/// A certificate that can't be written stands in part, and nothing is said of it.
#[test]
fn causes_that_cannot_be_written_leave_a_part(rt: HostRuntime) -> Result<(), OutOfMemory> {
    assert!(rt; stops(rt.alloc(), &CUT_CAUSES)?);
    Ok(())
}

#[test]
fn an_order_that_cannot_be_written_leaves_a_part(rt: HostRuntime) -> Result<(), OutOfMemory> {
    assert!(rt; stops(rt.alloc(), &CUT_ORDER)?);
    Ok(())
}

/// A run with causes whose report can't be said has written its certificate whole.
#[test]
fn the_certificate_is_written_before_the_report(rt: HostRuntime) -> Result<(), OutOfMemory> {
    let alloc = rt.alloc();
    let cert = written(alloc, &FLASHED, &CAUSES, "c")?;
    let fail = Fail {
        call: CallKind::Say,
        nth: 1,
        kept: 8,
    };
    let mut desk = desk_of(alloc, &FLASHED, &[fail])?;
    let number = ran(alloc, &CAUSES, &mut desk, Vec::new(alloc));
    assert!(rt; number == 7 && desk.said() == b"faults 2".as_slice());
    assert!(rt; desk.file("c") == Some(cert.as_slice()));
    Ok(())
}

/// No causes at all leave the sets of the faults.
#[test]
fn no_causes_change_nothing(rt: HostRuntime) -> Result<(), OutOfMemory> {
    let alloc = rt.alloc();
    let given: [File; 3] = [
        ("m", Some(LAMP)),
        ("f", Some(DARK)),
        ("s", Some(b"".as_slice())),
    ];
    let begins = b"faults 1\nfault 1 Lamp.dark\nsets 1\nset 1\ntrace 1\n";
    assert!(rt; shows(alloc, &given, &CAUSES, 0, begins, b"\ncomplete\n")?);
    Ok(())
}
