//! Advisers that count show that each verb that searches asks them, and tells them what was learned; and others that an analysis tells
//! them how far it is.
//!
//! A run owns its advisers, so what they counted is shown by how it ends: an adviser that has no room for a further search once it was
//! asked, or once it was told, ends the run with want of memory. One that was neither would not. The same holds of what one has heard.
use crate::desks::{BOTH, File, PAIR, SWITCHES, desk_of, joined, ran};
use base_values::OutOfMemory;
use sat_adviser::{Active, Adviser, InOrder, News};
use sat_clauses::lit::Lit;
use std::alloc::Global;

/// What an adviser has no room after.
#[derive(Clone, Copy, PartialEq, Eq)]
enum Until {
    Asked,
    Told,
    Ever,
}

/// An adviser that picks nothing and counts.
#[derive(Drop)]
struct Counting {
    until: Until,
    told: u64,
    asked: u64,
}

impl Adviser for Counting {
    ghost told = { λ c. c.told };

    ghost asked = { λ c. c.asked };

    fn ready(&mut self, _vars: u64) -> Result<(), OutOfMemory> {
        let full = match self.until {
            Until::Asked => self.asked > 0,
            Until::Told => self.told > 0,
            Until::Ever => false,
        };
        if full { Err(OutOfMemory) } else { Ok(()) }
    }

    fn pick(&mut self) -> u64 {
        self.asked = self.asked.saturating_add(1);
        0
    }

    fn learned(&mut self, _lits: &[Lit]) {
        self.told = self.told.saturating_add(1);
    }

    fn told(&self) -> u64 {
        self.told
    }

    fn asked(&self) -> u64 {
        self.asked
    }
}

const SURGE: &[u8] = b"CAUSE Surge WITHIN 0..0 STRIKES A.on, B.on;";

const MARKED: &[u8] =
    b"EXTENSION OF MODULE main SLICE A AFFECTS a WITH MODE on {0.1} : Permanent StuckAt(TRUE); SLICE B AFFECTS b WITH MODE on {0.25} : \
        Permanent StuckAt(TRUE);";

/// The switch b may be stuck only where a is.
const AFTER: &[u8] =
    b"EXTENSION OF MODULE main SLICE A AFFECTS a WITH MODE on : Permanent StuckAt(TRUE); SLICE B AFFECTS b WITH MODE on : Permanent \
        StuckAt(TRUE) WHEN a;";

static GIVEN: [File; 3] = [
    ("m", Some(PAIR)),
    ("f", Some(BOTH)),
    ("t", Some(b"a & b | n = 3; n = 3")),
];

static SURGED: [File; 3] = [("m", Some(PAIR)), ("f", Some(BOTH)), ("s", Some(SURGE))];

static ORDERED: [File; 2] = [("m", Some(SWITCHES)), ("f", Some(AFTER))];

static MARKS: [File; 2] = [("m", Some(PAIR)), ("f", Some(MARKED))];

const ANALYSE: [&str; 13] = [
    "analyse",
    "--model",
    "m",
    "--faults",
    "f",
    "--top",
    "a & b | n = 3",
    "--depth",
    "2050",
    "--extended",
    "x",
    "--cert",
    "c",
];

const FMEA: [&str; 11] = [
    "fmea", "--model", "m", "--faults", "f", "--tops", "t", "--size", "2", "--depth", "2050",
];

const MAKE: [&str; 11] = [
    "make", "--number", "1", "--stages", "3", "--depth", "50", "--model", "a", "--faults", "b",
];

const CAUSES: [&str; 13] = [
    "causes",
    "--model",
    "m",
    "--faults",
    "f",
    "--causes",
    "s",
    "--top",
    "a & b | n = 3",
    "--depth",
    "2050",
    "--cert",
    "c",
];

const ORDERS: [&str; 17] = [
    "orders", "--model", "m", "--faults", "f", "--top", "a & b", "--set", "1 2", "--first", "1",
    "--second", "2", "--depth", "200", "--cert", "c",
];

const ODDS: [&str; 9] = [
    "odds",
    "--model",
    "m",
    "--faults",
    "f",
    "--top",
    "a & b | n = 3",
    "--depth",
    "2050",
];

/// The number that a run over these files with these words ends with, where its one adviser has room until then.
fn ends_with(
    alloc: Global,
    given: &[File],
    words: &[&str],
    until: Until,
) -> Result<i32, OutOfMemory> {
    let adviser = Counting {
        until,
        told: 0,
        asked: 0,
    };
    let mut advisers: Vec<Box<dyn Adviser>> = Vec::new(alloc);
    advisers.push(Box::new(alloc, adviser)?)?;
    let mut desk = desk_of(alloc, given, &[])?;
    Ok(ran(alloc, words, &mut desk, advisers))
}

/// Whether the run ends with this number, and for want of memory where its adviser has no room once it was asked, or told.
fn counts(alloc: Global, given: &[File], words: &[&str], number: i32) -> Result<bool, OutOfMemory> {
    let ever = ends_with(alloc, given, words, Until::Ever)?;
    let asked = ends_with(alloc, given, words, Until::Asked)?;
    let told = ends_with(alloc, given, words, Until::Told)?;
    Ok(ever == number && asked == 8 && told == 8)
}

#[test]
fn an_analysis_asks_and_tells_its_adviser(rt: HostRuntime) -> Result<(), OutOfMemory> {
    assert!(rt; counts(rt.alloc(), &GIVEN, &ANALYSE, 0)?);
    Ok(())
}

#[test]
fn a_table_asks_and_tells_its_adviser(rt: HostRuntime) -> Result<(), OutOfMemory> {
    assert!(rt; counts(rt.alloc(), &GIVEN, &FMEA, 0)?);
    Ok(())
}

#[test]
fn a_generated_case_asks_and_tells_its_adviser(rt: HostRuntime) -> Result<(), OutOfMemory> {
    assert!(rt; counts(rt.alloc(), &GIVEN, &MAKE, 0)?);
    Ok(())
}

#[test]
fn causes_ask_and_tell_their_adviser(rt: HostRuntime) -> Result<(), OutOfMemory> {
    assert!(rt; counts(rt.alloc(), &SURGED, &CAUSES, 0)?);
    Ok(())
}

#[test]
fn orders_ask_and_tell_their_adviser(rt: HostRuntime) -> Result<(), OutOfMemory> {
    assert!(rt; counts(rt.alloc(), &ORDERED, &ORDERS, 0)?);
    Ok(())
}

#[test]
fn odds_ask_and_tell_their_adviser(rt: HostRuntime) -> Result<(), OutOfMemory> {
    assert!(rt; counts(rt.alloc(), &MARKS, &ODDS, 0)?);
    Ok(())
}

/// A piece of news: a frontier, a set of one fault with the steps of its trace, an invariant, or so many goals.
#[derive(Clone, Copy, PartialEq, Eq)]
enum Piece {
    Frontier(usize),
    Set(u32, usize),
    Invariant,
    Goals(usize),
}

impl Piece {
    fn says(self, news: &News<'_>) -> bool {
        match news {
            News::Frontier(number) => self == Piece::Frontier(*number),
            News::Set { faults, steps } => {
                faults.len() == 1 && self == Piece::Set(faults[0], *steps)
            }
            News::Invariant => self == Piece::Invariant,
            News::Goal { derived, .. } => self == Piece::Goals(*derived),
        }
    }
}

/// An adviser that picks nothing, and has no room for a further search once it has heard this.
#[derive(Drop)]
struct Hearing {
    piece: Piece,
    heard: bool,
    told: u64,
    asked: u64,
}

impl Adviser for Hearing {
    ghost told = { λ h. h.told };

    ghost asked = { λ h. h.asked };

    fn ready(&mut self, _vars: u64) -> Result<(), OutOfMemory> {
        if self.heard { Err(OutOfMemory) } else { Ok(()) }
    }

    fn pick(&mut self) -> u64 {
        self.asked = self.asked.saturating_add(1);
        0
    }

    fn learned(&mut self, _lits: &[Lit]) {
        self.told = self.told.saturating_add(1);
    }

    fn hears(&mut self, news: &News<'_>) {
        self.heard = self.heard || self.piece.says(news);
    }

    fn told(&self) -> u64 {
        self.told
    }

    fn asked(&self) -> u64 {
        self.asked
    }
}

/// The number that an analysis of the pair ends with whose adviser has room until it hears this. The fault A leads to the event in
/// four steps: no fault is there at first, and three steps count from the moment on at which it is.
fn ends_after(alloc: Global, piece: Piece) -> Result<i32, OutOfMemory> {
    let adviser = Hearing {
        piece,
        heard: false,
        told: 0,
        asked: 0,
    };
    let mut advisers: Vec<Box<dyn Adviser>> = Vec::new(alloc);
    advisers.push(Box::new(alloc, adviser)?)?;
    let mut desk = desk_of(alloc, &GIVEN, &[])?;
    Ok(ran(alloc, &ANALYSE, &mut desk, advisers))
}

#[test]
fn an_analysis_tells_its_adviser_how_far_it_is(rt: HostRuntime) -> Result<(), OutOfMemory> {
    let alloc = rt.alloc();
    assert!(rt; ends_after(alloc, Piece::Frontier(0))? == 8);
    assert!(rt; ends_after(alloc, Piece::Frontier(4))? == 8);
    assert!(rt; ends_after(alloc, Piece::Set(1, 4))? == 8);
    assert!(rt; ends_after(alloc, Piece::Invariant)? == 8);
    assert!(rt; ends_after(alloc, Piece::Goals(0))? == 8);
    assert!(rt; ends_after(alloc, Piece::Set(2, 4))? == 0);
    Ok(())
}

/// Two switches, one of which is on.
const EITHER: &[u8] = b"MODULE main VAR x : boolean; y : boolean; INIT x xor y;";

static LOOSE: [File; 2] = [("m", Some(EITHER)), ("f", Some(b""))];

static ANY: [&str; 13] = [
    "analyse",
    "--model",
    "m",
    "--faults",
    "f",
    "--top",
    "TRUE",
    "--depth",
    "0",
    "--extended",
    "x",
    "--cert",
    "c",
];

/// An adviser that picks each variable from a first one on, all as TRUE or all as FALSE.
#[derive(Drop)]
struct Rising {
    first: u64,
    code: u64,
    told: u64,
    asked: u64,
}

impl Adviser for Rising {
    ghost told = { λ r. r.told };

    ghost asked = { λ r. r.asked };

    fn ready(&mut self, _vars: u64) -> Result<(), OutOfMemory> {
        self.code = self.first;
        Ok(())
    }

    fn pick(&mut self) -> u64 {
        let code = self.code;
        self.code = code.saturating_add(2);
        self.asked = self.asked.saturating_add(1);
        code
    }

    fn learned(&mut self, _lits: &[Lit]) {
        self.told = self.told.saturating_add(1);
    }

    fn told(&self) -> u64 {
        self.told
    }

    fn asked(&self) -> u64 {
        self.asked
    }
}

/// What an analysis of the switches says whose adviser begins with this code.
fn said_with(alloc: Global, first: u64) -> Result<Vec<u8>, OutOfMemory> {
    let adviser = Rising {
        first,
        code: first,
        told: 0,
        asked: 0,
    };
    let mut advisers: Vec<Box<dyn Adviser>> = Vec::new(alloc);
    advisers.push(Box::new(alloc, adviser)?)?;
    let mut desk = desk_of(alloc, &LOOSE, &[])?;
    let _number = ran(alloc, &ANY, &mut desk, advisers);
    joined(alloc, &[desk.said()])
}

#[test]
fn what_an_adviser_picks_is_tried_first(rt: HostRuntime) -> Result<(), OutOfMemory> {
    let one = said_with(rt.alloc(), 4)?;
    let other = said_with(rt.alloc(), 6)?;
    assert!(rt;
        one.starts_with(b"faults 0\nsets 1\nset\ntrace 1\nmoment 0\nx = TRUE\ny = FALSE\n")
    );
    assert!(rt;
        other.starts_with(b"faults 0\nsets 1\nset\ntrace 1\nmoment 0\nx = FALSE\ny = TRUE\n")
    );
    Ok(())
}

/// Four switches that are off, each with a fault that turns it on for good.
const FOUR: &[u8] =
    b"MODULE main VAR a : boolean; b : boolean; c : boolean; d : boolean; ASSIGN a := FALSE; b := FALSE; c := FALSE; d := FALSE;";

const ON: &[u8] =
    b"EXTENSION OF MODULE main SLICE A AFFECTS a WITH MODE on : Permanent StuckAt(TRUE); SLICE B AFFECTS b WITH MODE on : Permanent \
        StuckAt(TRUE); SLICE C AFFECTS c WITH MODE on : Permanent StuckAt(TRUE); SLICE D AFFECTS d WITH MODE on : Permanent StuckAt(TRUE);";

static TURNED_ON: [File; 2] = [("m", Some(FOUR)), ("f", Some(ON))];

static PAIRS: [&str; 13] = [
    "analyse",
    "--model",
    "m",
    "--faults",
    "f",
    "--top",
    "a & b | c & d | a & c",
    "--depth",
    "2050",
    "--extended",
    "x",
    "--cert",
    "c",
];

const THREE_SETS: &[u8] =
    b"faults 4\nfault 1 A.on\nfault 2 B.on\nfault 3 C.on\nfault 4 D.on\nsets 3\nset 1 2\nset 1 3\nset 3 4\ntrace 1\n";

/// Whether an analysis with these advisers ends complete with the three sets.
fn lists_three(alloc: Global, advisers: Vec<Box<dyn Adviser>>) -> Result<bool, OutOfMemory> {
    let mut desk = desk_of(alloc, &TURNED_ON, &[])?;
    let number = ran(alloc, &PAIRS, &mut desk, advisers);
    Ok(number == 0 && desk.said().starts_with(THREE_SETS))
}

/// One adviser, who begins with this code.
fn rising_from(alloc: Global, first: u64) -> Result<Vec<Box<dyn Adviser>>, OutOfMemory> {
    let adviser = Rising {
        first,
        code: first,
        told: 0,
        asked: 0,
    };
    let mut advisers: Vec<Box<dyn Adviser>> = Vec::new(alloc);
    advisers.push(Box::new(alloc, adviser)?)?;
    Ok(advisers)
}

#[test]
fn the_sets_are_the_same_without_advisers(rt: HostRuntime) -> Result<(), OutOfMemory> {
    assert!(rt; lists_three(rt.alloc(), Vec::new(rt.alloc()))?);
    Ok(())
}

#[test]
fn the_sets_are_the_same_with_the_advisers_of_the_program(
    rt: HostRuntime,
) -> Result<(), OutOfMemory> {
    let alloc = rt.alloc();
    let mut advisers: Vec<Box<dyn Adviser>> = Vec::new(alloc);
    advisers.push(Box::new(alloc, InOrder::new())?)?;
    advisers.push(Box::new(alloc, Active::new(alloc))?)?;
    assert!(rt; lists_three(alloc, advisers)?);
    Ok(())
}

#[test]
fn the_sets_are_the_same_where_each_variable_is_tried_true(
    rt: HostRuntime,
) -> Result<(), OutOfMemory> {
    let alloc = rt.alloc();
    assert!(rt; lists_three(alloc, rising_from(alloc, 2)?)?);
    Ok(())
}
