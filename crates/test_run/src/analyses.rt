//! Rows of analyses, tables and generated cases over desks in memory: how each run ends, and what it says but for the traces, which
//! are free.
use crate::desks::{BOTH, GLITCH, LAMP, PAIR, PULSE, desk_of, ends, ran};
use base_files::MemoryDesk;
use base_values::OutOfMemory;
use sat_adviser::{Active, Adviser, CodeList, InOrder, Scripted};
use std::alloc::Global;

/// The lamp, whose first moment is none.
const NEVER: &[u8] =
    b"MODULE main\nVAR\n  on : boolean;\nASSIGN\n  init(on) := TRUE;\n  next(on) := on;\nINIT !on;\n";

/// A number that goes round without its highest values.
const COUNTER: &[u8] =
    b"MODULE main VAR c : 0..7; ASSIGN init(c) := 0; next(c) := case c = 5 : 0; TRUE : c + 1; esac;";

/// A lamp that may be dark from the first moment on.
const BORN_DARK: &[u8] =
    b"EXTENSION OF MODULE main SLICE Lamp AFFECTS on INITIALLY ANY WITH MODE dark : Permanent StuckAt(FALSE);";

const HELD: &[u8] = b"faults 0\nsets 1\nset\ntrace 1\nmoment 0\non = TRUE\n";

/// The files of a case, its top event and a depth; and how an analysis ends: its number, how what it says begins and
/// ends, and whether a certificate is written.
struct Row {
    model: &'static [u8],
    faults: &'static [u8],
    top: &'static str,
    depth: &'static str,
    number: i32,
    begins: &'static [u8],
    ends: &'static [u8],
    certified: bool,
}

static ROWS: [Row; 11] = [
    Row {
        model: LAMP,
        faults: b"",
        top: "on",
        depth: "0",
        number: 1,
        begins: HELD,
        ends: b"TRUE\nbounded 0 bits 1\n",
        certified: false,
    },
    Row {
        model: LAMP,
        faults: b"",
        top: "!on",
        depth: "4",
        number: 0,
        begins: b"faults 0\nsets 0\ncomplete\n",
        ends: b"complete\n",
        certified: true,
    },
    Row {
        model: NEVER,
        faults: b"",
        top: "on",
        depth: "4",
        number: 0,
        begins: b"faults 0\nsets 0\nno first moment\ncomplete\n",
        ends: b"complete\n",
        certified: true,
    },
    Row {
        model: LAMP,
        faults: b"",
        top: "-7 / 2 = -3 & -7 mod 2 = -1",
        depth: "0",
        number: 1,
        begins: HELD,
        ends: b"TRUE\nbounded 0 bits 1\n",
        certified: false,
    },
    Row {
        model: LAMP,
        faults: b"",
        top: "-7 / 2 = -4",
        depth: "0",
        number: 1,
        begins: b"faults 0\nsets 0\nbounded 0 bits 1\n",
        ends: b"bits 1\n",
        certified: false,
    },
    Row {
        model: PULSE,
        faults: GLITCH,
        top: "seen & !pulse",
        depth: "1",
        number: 1,
        begins: b"faults 1\nfault 1 P.glitch\nsets 0\nbounded 1 bits 5\n",
        ends: b"bits 5\n",
        certified: false,
    },
    Row {
        model: PULSE,
        faults: GLITCH,
        top: "seen & !pulse",
        depth: "34",
        number: 0,
        begins: b"faults 1\nfault 1 P.glitch\nsets 1\nset 1\ntrace 1\nmoment 0\n",
        ends: b"\ncomplete\n",
        certified: true,
    },
    Row {
        model: PAIR,
        faults: BOTH,
        top: "a & b | n = 3",
        depth: "3",
        number: 1,
        begins: b"faults 2\nfault 1 A.on\nfault 2 B.on\nsets 1\nset 1 2\ntrace 1\n",
        ends: b"\nbounded 3 bits 11\n",
        certified: false,
    },
    Row {
        model: LAMP,
        faults: BORN_DARK,
        top: "!on",
        depth: "0",
        number: 1,
        begins: b"faults 1\nfault 1 Lamp.dark\nsets 1\nset 1\ntrace 1\nmoment 0\non = FALSE\non#nominal = TRUE\n",
        ends: b"Lamp#mode = Lamp#dark\nbounded 0 bits 4\n",
        certified: false,
    },
    Row {
        model: COUNTER,
        faults: b"",
        top: "c = 7",
        depth: "10",
        number: 0,
        begins: b"faults 0\nsets 0\ncomplete\n",
        ends: b"complete\n",
        certified: true,
    },
    Row {
        model: LAMP,
        faults: b"",
        top: "on & 3",
        depth: "4",
        number: 5,
        begins: b"refused top type 2 at 0\n",
        ends: b"0\n",
        certified: false,
    },
];

/// The pair, whose sets are the same whatever the search tries first.
static SAME: Row = Row {
    model: PAIR,
    faults: BOTH,
    top: "a & b | n = 3",
    depth: "2050",
    number: 0,
    begins: b"faults 2\nfault 1 A.on\nfault 2 B.on\nsets 1\nset 1\ntrace 1\n",
    ends: b"complete\n",
    certified: true,
};

/// Whether what was said and written is what the row says.
fn is_left(desk: &MemoryDesk, row: &Row) -> bool {
    let said = desk.said();
    said.starts_with(row.begins)
        && said.ends_with(row.ends)
        && desk.file("c").is_some() == row.certified
}

/// Whether the analysis with these advisers ends as its row says.
fn holds(alloc: Global, row: &Row, advisers: Vec<Box<dyn Adviser>>) -> Result<bool, OutOfMemory> {
    let words = [
        "analyse",
        "--model",
        "m",
        "--faults",
        "f",
        "--top",
        row.top,
        "--depth",
        row.depth,
        "--extended",
        "x",
        "--cert",
        "c",
    ];
    let given = [
        ("m", Some(row.model)),
        ("f", Some(row.faults)),
        ("t", Some(b"".as_slice())),
    ];
    let mut desk = desk_of(alloc, &given, &[])?;
    let number = ran(alloc, &words, &mut desk, advisers);
    Ok(number == row.number && is_left(&desk, row))
}

fn in_order(alloc: Global) -> Result<Vec<Box<dyn Adviser>>, OutOfMemory> {
    let mut advisers: Vec<Box<dyn Adviser>> = Vec::new(alloc);
    advisers.push(Box::new(alloc, InOrder::new())?)?;
    Ok(advisers)
}

#[test]
fn an_analysis_is_bounded_or_complete(rt: HostRuntime) -> Result<(), OutOfMemory> {
    for (i, row) in ROWS.iter().enumerate() {
        let advisers = in_order(rt.alloc())?;
        assert!(rt; holds(rt.alloc(), row, advisers)?, "row {i}");
    }
    Ok(())
}

const TABLE: [&str; 11] = [
    "fmea", "--model", "m", "--faults", "f", "--tops", "t", "--size", "2", "--depth", "2050",
];

const MAKE: [&str; 11] = [
    "make", "--number", "1", "--stages", "3", "--depth", "50", "--model", "a", "--faults", "b",
];

/// The top events of a run over the pair, its words, the number that it ends with and what it says.
type Said = (&'static [u8], &'static [&'static str], i32, &'static [u8]);

static SAID: [Said; 3] = [
    (
        b"a & b; n = 3",
        &TABLE,
        0,
        b"faults 2\nfault 1 A.on\nfault 2 B.on\ntops 2\ntop 1 complete\ntop 2 complete\nrow : no no\nrow 1 : no yes\nrow 2 : no no\nrow 1 \
            2 : yes yes\n",
    ),
    (b"a & b; next(a)", &TABLE, 5, b"refused top flat 12 at 2\n"),
    (
        b"",
        &MAKE,
        0,
        b"stages 3 variables 9 faults 3 bits 12 sets 2 complete\n",
    ),
];

fn says(alloc: Global, row: &Said) -> Result<bool, OutOfMemory> {
    let given = [("m", Some(PAIR)), ("f", Some(BOTH)), ("t", Some(row.0))];
    ends(alloc, &given, row.1, row.2, row.3)
}

#[test]
fn tables_and_generated_cases_are_said(rt: HostRuntime) -> Result<(), OutOfMemory> {
    for (i, row) in SAID.iter().enumerate() {
        assert!(rt; says(rt.alloc(), row)?, "row {i}");
    }
    Ok(())
}

/// An adviser that picks a small number, it again, and one beyond all.
fn picking(alloc: Global) -> Result<Vec<Box<dyn Adviser>>, OutOfMemory> {
    let codes = CodeList::from_slice(alloc, &[7, 7, 4_000_000_000])?;
    let mut advisers: Vec<Box<dyn Adviser>> = Vec::new(alloc);
    advisers.push(Box::new(alloc, Scripted::new(codes))?)?;
    Ok(advisers)
}

fn two(alloc: Global) -> Result<Vec<Box<dyn Adviser>>, OutOfMemory> {
    let mut advisers = in_order(alloc)?;
    advisers.push(Box::new(alloc, Active::new(alloc))?)?;
    Ok(advisers)
}

#[test]
fn every_adviser_serves(rt: HostRuntime) -> Result<(), OutOfMemory> {
    let alloc = rt.alloc();
    assert!(rt; holds(alloc, &SAME, picking(alloc)?)?);
    assert!(rt; holds(alloc, &SAME, two(alloc)?)?);
    assert!(rt; holds(alloc, &SAME, Vec::new(alloc))?);
    Ok(())
}
