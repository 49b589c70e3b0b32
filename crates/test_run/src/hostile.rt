//! Hostile use over desks in memory: desks that fail on the way of an analysis, files that are cut or stand at a limit, and
//! certificates that were altered.
use crate::desks::{
    DARK, File, GLITCH, LAMP, PULSE, TINY, declared, desk_of, ends, joined, ran, rest_from, spaces,
    written,
};
use base_files::{CallKind, Fail};
use base_values::OutOfMemory;
use std::alloc::Global;

const PASSED: &str = "seen & !pulse";

static ANALYSE: [&str; 13] = [
    "analyse",
    "--model",
    "m",
    "--faults",
    "f",
    "--top",
    PASSED,
    "--depth",
    "34",
    "--extended",
    "x",
    "--cert",
    "c",
];

static EXTEND: [&str; 7] = ["extend", "--model", "m", "--faults", "f", "--extended", "x"];

static GIVEN: [File; 2] = [("m", Some(PULSE)), ("f", Some(GLITCH))];

/// What stands of a file.
#[derive(Clone, Copy)]
enum Stands {
    Nothing,
    First(usize),
    Whole,
}

/// A call that fails, which of its kind it is, and the bytes that it keeps; what then stands of the extension and of the
/// certificate, and how many bytes of what is said.
type Failing = (CallKind, u64, u64, Stands, Stands, usize);

static FAILING: [Failing; 7] = [
    (CallKind::Read, 1, 0, Stands::Nothing, Stands::Nothing, 0),
    (CallKind::Read, 2, 0, Stands::Nothing, Stands::Nothing, 0),
    (CallKind::Start, 1, 0, Stands::Nothing, Stands::Nothing, 0),
    (
        CallKind::Append,
        1,
        10,
        Stands::First(10),
        Stands::Nothing,
        0,
    ),
    (CallKind::Start, 2, 0, Stands::Whole, Stands::Nothing, 0),
    (CallKind::Append, 2, 0, Stands::Whole, Stands::First(0), 0),
    (CallKind::Say, 1, 5, Stands::Whole, Stands::Whole, 5),
];

/// Whether so much of the whole stands in a file.
fn is_there(file: Option<&[u8]>, whole: &[u8], part: Stands) -> bool {
    match part {
        Stands::Nothing => file.is_none(),
        Stands::First(count) => match file {
            Some(bytes) => count <= whole.len() && bytes == &whole[..count],
            None => false,
        },
        Stands::Whole => file == Some(whole),
    }
}

/// Whether the analysis of the pulse ends so, where its call fails and it would write these files.
fn stops(alloc: Global, row: &Failing, extended: &[u8], cert: &[u8]) -> Result<bool, OutOfMemory> {
    let (call, nth, kept, _, _, _) = *row;
    let mut desk = desk_of(alloc, &GIVEN, &[Fail { call, nth, kept }])?;
    let number = ran(alloc, &ANALYSE, &mut desk, Vec::new(alloc));
    Ok(
        number == 7
            && is_there(desk.file("x"), extended, row.3)
            && is_there(desk.file("c"), cert, row.4)
            && is_there(Some(desk.said()), b"faults 1\n", Stands::First(row.5)),
    )
}

#[test]
fn a_failing_desk_leaves_a_part_of_an_analysis(rt: HostRuntime) -> Result<(), OutOfMemory> {
    let extended = written(rt.alloc(), &GIVEN, &EXTEND, "x")?;
    let cert = written(rt.alloc(), &GIVEN, &ANALYSE, "c")?;
    assert!(rt; extended.starts_with(b"MODULE mai") && !cert.is_empty());
    for (i, row) in FAILING.iter().enumerate() {
        assert!(rt; stops(rt.alloc(), row, &extended, &cert)?, "row {i}");
    }
    Ok(())
}

/// Whether the model is extended by no instructions with this number and this text.
fn extends(alloc: Global, model: &[u8], number: i32, said: &[u8]) -> Result<bool, OutOfMemory> {
    let given = [("m", Some(model)), ("f", Some(b"".as_slice()))];
    ends(alloc, &given, &EXTEND, number, said)
}

/// Models that are cut, and what is said of them.
static CUT: [(&[u8], &[u8]); 2] = [
    (b"MODULE", b"refused model parse 2 at 6\n"),
    (
        b"MODULE main VAR x : boolean",
        b"refused model parse 2 at 27\n",
    ),
];

fn longest_model_is_read(alloc: Global) -> Result<bool, OutOfMemory> {
    let blank = spaces(alloc, 1_048_576)?;
    extends(alloc, &blank, 3, b"refused model flat 1 at 0\n")
}

/// The number behind that of the last of a model's instances, which count from 1, the number that its extension ends
/// with, and what it says.
static INSTANCES: [(u32, i32, &[u8]); 2] = [
    (1000, 0, b"faults 0\nextended\n"),
    (1001, 3, b"refused model flat 14 at 1002\n"),
];

fn instances_hold(alloc: Global, last: u32, number: i32, said: &[u8]) -> Result<bool, OutOfMemory> {
    let model = declared(alloc, b"MODULE Leaf MODULE main VAR", "e", "Leaf", 1, last)?;
    extends(alloc, &model, number, said)
}

#[test]
fn cut_models_and_limits_are_told(rt: HostRuntime) -> Result<(), OutOfMemory> {
    for (i, (model, said)) in CUT.iter().enumerate() {
        assert!(rt; extends(rt.alloc(), model, 3, said)?, "row {i}");
    }
    assert!(rt; longest_model_is_read(rt.alloc())?);
    for (last, number, said) in &INSTANCES {
        assert!(rt;
            instances_hold(rt.alloc(), *last, *number, said)?,
            "before {last}"
        );
    }
    Ok(())
}

/// A text that stands so many times, joined by a sign.
fn times(alloc: Global, count: u32, text: &str, sign: &str) -> Result<String, OutOfMemory> {
    let mut all = String::new(alloc);
    for i in 0..count {
        if i > 0 {
            all.push_str(sign)?;
        }
        all.push_str(text)?;
    }
    Ok(all)
}

/// Whether the lamp with these bytes as trace is replayed for this top event with this number and this text.
fn replays(
    alloc: Global,
    trace: &[u8],
    top: &str,
    number: i32,
    said: &[u8],
) -> Result<bool, OutOfMemory> {
    let words = [
        "replay", "--model", "m", "--faults", "f", "--trace", "t", "--top", top,
    ];
    let given = [("m", Some(LAMP)), ("f", Some(DARK)), ("t", Some(trace))];
    ends(alloc, &given, &words, number, said)
}

fn long_trace_is_refused(alloc: Global) -> Result<bool, OutOfMemory> {
    let long = spaces(alloc, 16_777_217)?;
    replays(
        alloc,
        &long,
        "on",
        6,
        b"refused trace length 1 at 16777216\n",
    )
}

/// How often a text stands in a top event, the text, the sign that joins them, and what is said.
type Repeated = (u32, &'static str, &'static str, &'static [u8]);

static TOPS: [Repeated; 2] = [
    (65_537, " ", "", b"refused top length 1 at 65536\n"),
    (725, "0*0=0", "&", b"refused top type 9 at 0\n"),
];

fn top_is_refused(alloc: Global, row: &Repeated) -> Result<bool, OutOfMemory> {
    let top = times(alloc, row.0, row.1, row.2)?;
    replays(alloc, b"", &top, 5, row.3)
}

#[test]
fn long_traces_and_long_or_costly_tops_are_told(rt: HostRuntime) -> Result<(), OutOfMemory> {
    assert!(rt; long_trace_is_refused(rt.alloc())?);
    for (i, row) in TOPS.iter().enumerate() {
        assert!(rt; top_is_refused(rt.alloc(), row)?, "row {i}");
    }
    Ok(())
}

/// The lines of the certificate of the pulse before those of its set.
const HEAD: &[u8] = b"xsap-certificate 2\nbits 5 faults 1 size 1\nsets 1\n";

/// The three moments of a trace with a glitch that was seen.
const FIRST: &[u8] =
    b"moment 0\npulse = FALSE\nseen = FALSE\npulse#nominal = FALSE\nP#mode = P#nominal\n";

const SECOND: &[u8] =
    b"moment 1\npulse = TRUE\nseen = FALSE\npulse#nominal = FALSE\nP#mode = P#glitch\n";

const THIRD: &[u8] =
    b"moment 2\npulse = FALSE\nseen = TRUE\npulse#nominal = FALSE\nP#mode = P#nominal\n";

/// The lines of a set with its trace, in pieces.
type Set = [&'static [u8]; 4];

static TRUE_SET: Set = [b"set 1\ntrace 15\n", FIRST, SECOND, THIRD];

/// Sets with which the certificate is not accepted, and the line that says it.
static ALTERED: [(Set, &[u8]); 5] = [
    (
        [b"set 2\ntrace 15\n", FIRST, SECOND, THIRD],
        b"not accepted line 4 rule 2\n",
    ),
    (
        [b"set\ntrace 15\n", FIRST, SECOND, THIRD],
        b"not accepted line 5 rule 7\n",
    ),
    (
        [
            b"set 1\ntrace 15\n",
            FIRST,
            b"moment 1\npulse = FALSE\nseen = FALSE\npulse#nominal = FALSE\nP#mode = P#glitch\n",
            THIRD,
        ],
        b"not accepted line 5 rule 5\n",
    ),
    (
        [b"set 1\ntrace 10\n", FIRST, SECOND, b""],
        b"not accepted line 5 rule 6\n",
    ),
    (
        [
            b"set 1\ntrace 15\n",
            b"moment 0\npulse = FALSE\nseen = 2\npulse#nominal = FALSE\nP#mode = P#nominal\n",
            SECOND,
            THIRD,
        ],
        b"not accepted line 5 rule 4\n",
    ),
];

static CHECK: [&str; 9] = [
    "check", "--model", "m", "--faults", "f", "--top", PASSED, "--cert", "c",
];

/// Whether the check of a certificate with this set and these lines behind it ends with this number and says this text.
fn is_judged(
    alloc: Global,
    set: &Set,
    tail: &[u8],
    number: i32,
    said: &[u8],
) -> Result<bool, OutOfMemory> {
    let set = joined(alloc, set)?;
    let bytes = joined(alloc, &[HEAD, &set, tail])?;
    let given = [
        ("m", Some(PULSE)),
        ("f", Some(GLITCH)),
        ("c", Some(bytes.as_slice())),
    ];
    ends(alloc, &given, &CHECK, number, said)
}

#[test]
fn altered_certificates_are_not_accepted(rt: HostRuntime) -> Result<(), OutOfMemory> {
    let cert = written(rt.alloc(), &GIVEN, &ANALYSE, "c")?;
    let tail = rest_from(&cert, b"invariant ");
    assert!(rt; is_judged(rt.alloc(), &TRUE_SET, tail, 0, b"accepted\n")?);
    for (i, (set, said)) in ALTERED.iter().enumerate() {
        assert!(rt; is_judged(rt.alloc(), set, tail, 6, said)?, "row {i}");
    }
    Ok(())
}

/// A certificate of the lamp with a set that contains another.
const CONTAINING: &[u8] =
    b"xsap-certificate 2\nbits 4 faults 1 size 1\nsets 2\nset\ntrace 4\nmoment 0\non = TRUE\non#nominal = TRUE\nLamp#mode = Lamp#nominal\n\
        set 1\ntrace 1\nany\ninvariant 0\nfirst 0\nnext 0\nbad 0\nend\n";

/// A certificate of the model that stays FALSE whose clause is not true in the first states.
const FLIPPED: &[u8] =
    b"xsap-certificate 1\nbits 1 faults 0\nsets 0\ninvariant 1\nclause 1\nfirst 1\nstep -2 : 1 6 4\nnext 1\nstep -3 : 6 4 7\nbad 1\nstep \
        : 2 3\nend\n";

static CONTAINING_FILES: [File; 3] = [
    ("m", Some(LAMP)),
    ("f", Some(DARK)),
    ("c", Some(CONTAINING)),
];

static CONTAINING_WORDS: [&str; 9] = [
    "check", "--model", "m", "--faults", "f", "--top", "on", "--cert", "c",
];

static FLIPPED_FILES: [File; 3] = [("m", Some(TINY)), ("f", Some(b"")), ("c", Some(FLIPPED))];

static FLIPPED_WORDS: [&str; 9] = [
    "check", "--model", "m", "--faults", "f", "--top", "x", "--cert", "c",
];

#[test]
fn sets_and_clauses_are_judged_in_their_lines(rt: HostRuntime) -> Result<(), OutOfMemory> {
    let line = b"not accepted line 10 rule 3\n";
    assert!(rt;
        ends(rt.alloc(), &CONTAINING_FILES, &CONTAINING_WORDS, 6, line)?,
        "a set that contains another"
    );
    let line = b"not accepted line 5 rule 8\n";
    assert!(rt;
        ends(rt.alloc(), &FLIPPED_FILES, &FLIPPED_WORDS, 6, line)?,
        "a clause that is not true first"
    );
    Ok(())
}
