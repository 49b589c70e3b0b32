//! Each verb ends as one whose desk failed, and not for want of memory, wherever a read, a start, an append or a say fails.
use crate::desks::{FLASH, File, LAMP, SWITCHES, desk_of, ran};
use base_files::{CallKind, Fail};
use base_values::OutOfMemory;
use std::alloc::Global;

/// The switch b may be stuck only where a is, and both modes have a mark.
const MARKED: &[u8] =
    b"EXTENSION OF MODULE main SLICE A AFFECTS a WITH MODE on {0.1} : Permanent StuckAt(TRUE); SLICE B AFFECTS b WITH MODE on {0.25} : \
        Permanent StuckAt(TRUE) WHEN a;";

/// The instructions of the lamp, with a mark.
const DIM: &[u8] =
    b"EXTENSION OF MODULE main SLICE Lamp AFFECTS on WITH MODE dark {0.5} : Permanent StuckAt(FALSE);";

/// The files of all verbs, of which the trace and the certificate are refused by the line that a run says.
static GIVEN: [File; 8] = [
    ("m", Some(SWITCHES)),
    ("f", Some(MARKED)),
    ("l", Some(LAMP)),
    ("d", Some(DIM)),
    ("s", Some(FLASH)),
    ("r", Some(b"moment 0\n")),
    ("t", Some(b"a & b")),
    ("k", Some(b"xsap-certificate 2\n")),
];

const EXTEND: [&str; 7] = ["extend", "--model", "m", "--faults", "f", "--extended", "x"];

const REPLAY: [&str; 9] = [
    "replay", "--model", "m", "--faults", "f", "--trace", "r", "--top", "a & b",
];

const ANALYSE: [&str; 13] = [
    "analyse",
    "--model",
    "m",
    "--faults",
    "f",
    "--top",
    "a & b",
    "--depth",
    "300",
    "--extended",
    "x",
    "--cert",
    "c",
];

const CHECK: [&str; 9] = [
    "check", "--model", "m", "--faults", "f", "--top", "a & b", "--cert", "k",
];

const FMEA: [&str; 11] = [
    "fmea", "--model", "m", "--faults", "f", "--tops", "t", "--size", "1", "--depth", "3",
];

const MAKE: [&str; 11] = [
    "make", "--number", "1", "--stages", "2", "--depth", "3", "--model", "a", "--faults", "b",
];

const CAUSES: [&str; 13] = [
    "causes", "--model", "l", "--faults", "d", "--causes", "s", "--top", "!on", "--depth", "0",
    "--cert", "c",
];

const ALL_CAUSES: [&str; 13] = [
    "causes", "--model", "l", "--faults", "d", "--causes", "s", "--top", "!on", "--depth", "60",
    "--cert", "c",
];

const CHECK_CAUSES: [&str; 11] = [
    "check-causes",
    "--model",
    "l",
    "--faults",
    "d",
    "--causes",
    "s",
    "--top",
    "!on",
    "--cert",
    "k",
];

const ORDERS: [&str; 17] = [
    "orders", "--model", "m", "--faults", "f", "--top", "a & b", "--set", "1 2", "--first", "1",
    "--second", "2", "--depth", "0", "--cert", "c",
];

const ALL_ORDERS: [&str; 17] = [
    "orders", "--model", "m", "--faults", "f", "--top", "a & b", "--set", "1 2", "--first", "1",
    "--second", "2", "--depth", "200", "--cert", "c",
];

const CHECK_ORDERS: [&str; 17] = [
    "check-orders",
    "--model",
    "m",
    "--faults",
    "f",
    "--top",
    "a & b",
    "--set",
    "1 2",
    "--first",
    "1",
    "--second",
    "2",
    "--claim",
    "before",
    "--cert",
    "k",
];

const ODDS: [&str; 9] = [
    "odds", "--model", "m", "--faults", "f", "--top", "a & b", "--depth", "3",
];

/// The words of a run, a kind of call, and which of its kind fails.
type Row = (&'static [&'static str], CallKind, u64);

static ROWS: [Row; 46] = [
    (&EXTEND, CallKind::Read, 1),
    (&EXTEND, CallKind::Read, 2),
    (&EXTEND, CallKind::Start, 1),
    (&EXTEND, CallKind::Append, 1),
    (&EXTEND, CallKind::Say, 1),
    (&REPLAY, CallKind::Read, 1),
    (&REPLAY, CallKind::Read, 2),
    (&REPLAY, CallKind::Read, 3),
    (&REPLAY, CallKind::Say, 1),
    (&ANALYSE, CallKind::Read, 1),
    (&ANALYSE, CallKind::Read, 2),
    (&ANALYSE, CallKind::Start, 1),
    (&ANALYSE, CallKind::Append, 1),
    (&ANALYSE, CallKind::Say, 1),
    (&CHECK, CallKind::Read, 1),
    (&CHECK, CallKind::Read, 2),
    (&CHECK, CallKind::Read, 3),
    (&CHECK, CallKind::Say, 1),
    (&FMEA, CallKind::Read, 1),
    (&FMEA, CallKind::Read, 2),
    (&FMEA, CallKind::Read, 3),
    (&FMEA, CallKind::Say, 1),
    (&MAKE, CallKind::Start, 1),
    (&MAKE, CallKind::Start, 2),
    (&MAKE, CallKind::Append, 1),
    (&MAKE, CallKind::Append, 2),
    (&MAKE, CallKind::Say, 1),
    (&CAUSES, CallKind::Read, 1),
    (&CAUSES, CallKind::Read, 2),
    (&CAUSES, CallKind::Read, 3),
    (&CAUSES, CallKind::Say, 1),
    (&CHECK_CAUSES, CallKind::Read, 1),
    (&CHECK_CAUSES, CallKind::Read, 2),
    (&CHECK_CAUSES, CallKind::Read, 3),
    (&CHECK_CAUSES, CallKind::Read, 4),
    (&CHECK_CAUSES, CallKind::Say, 1),
    (&ORDERS, CallKind::Read, 1),
    (&ORDERS, CallKind::Read, 2),
    (&ORDERS, CallKind::Say, 1),
    (&CHECK_ORDERS, CallKind::Read, 1),
    (&CHECK_ORDERS, CallKind::Read, 2),
    (&CHECK_ORDERS, CallKind::Read, 3),
    (&CHECK_ORDERS, CallKind::Say, 1),
    (&ODDS, CallKind::Read, 1),
    (&ODDS, CallKind::Read, 2),
    (&ODDS, CallKind::Say, 1),
];

/// Whether the run ends with the number of a desk that failed.
fn fails(alloc: Global, row: &Row) -> Result<bool, OutOfMemory> {
    let (words, call, nth) = *row;
    let fail = Fail { call, nth, kept: 0 };
    let mut desk = desk_of(alloc, &GIVEN, &[fail])?;
    Ok(ran(alloc, words, &mut desk, Vec::new(alloc)) == 7)
}

#[test]
fn a_failed_call_is_never_told_as_want_of_memory(rt: HostRuntime) -> Result<(), OutOfMemory> {
    for (i, row) in ROWS.iter().enumerate() {
        assert!(rt; fails(rt.alloc(), row)?, "row {i}");
    }
    Ok(())
}

#[test]
fn causes_that_cannot_be_written_are_no_want_of_memory(rt: HostRuntime) -> Result<(), OutOfMemory> {
    assert!(rt; fails(rt.alloc(), &(&ALL_CAUSES, CallKind::Start, 1))?);
    assert!(rt; fails(rt.alloc(), &(&ALL_CAUSES, CallKind::Append, 1))?);
    Ok(())
}

#[test]
fn orders_that_cannot_be_written_are_no_want_of_memory(rt: HostRuntime) -> Result<(), OutOfMemory> {
    assert!(rt; fails(rt.alloc(), &(&ALL_ORDERS, CallKind::Start, 1))?);
    assert!(rt; fails(rt.alloc(), &(&ALL_ORDERS, CallKind::Append, 1))?);
    Ok(())
}
