//! What the rows share: models, runs over desks in memory, and what runs leave.
//!
//! The proof of a test shows only that it is safe, and each call leaves what it promises to all that follows. The promise
//! of `run` is long, so it is called in one place, by a function that promises nothing; and the rows are tables of
//! plain data, each walked by one short loop.
use base_files::{Fail, FailList, FileList, MemoryDesk, NamedFile};
use base_values::OutOfMemory;
use sat_adviser::Adviser;
use std::alloc::Global;
use verb_run::run::run;

pub const LAMP: &[u8] =
    b"MODULE main\nVAR\n  on : boolean;\nASSIGN\n  init(on) := TRUE;\n  next(on) := on;\n";

pub const DARK: &[u8] =
    b"FAULT EXTENSION F EXTENSION OF MODULE main SLICE Lamp AFFECTS on WITH MODE dark : Permanent StuckAt(FALSE);";

/// A pulse that is never raised but by a glitch, and whether one was seen.
pub const PULSE: &[u8] =
    b"MODULE main VAR pulse : boolean; seen : boolean; ASSIGN pulse := FALSE; init(seen) := FALSE; next(seen) := seen | pulse;";

pub const GLITCH: &[u8] =
    b"EXTENSION OF MODULE main SLICE P AFFECTS pulse WITH MODE glitch : Transient StuckAt(TRUE);";

/// Two switches, and a number that one of them raises.
pub const PAIR: &[u8] =
    b"MODULE main VAR a : boolean; b : boolean; n : 0..3; ASSIGN a := FALSE; b := FALSE; init(n) := 0; next(n) := a & n < 3 ? n + 1 : n;";

pub const BOTH: &[u8] =
    b"EXTENSION OF MODULE main SLICE A AFFECTS a WITH MODE on : Permanent StuckAt(TRUE); SLICE B AFFECTS b WITH MODE on : Permanent \
        StuckAt(TRUE);";

/// The two switches alone.
pub const SWITCHES: &[u8] =
    b"MODULE main VAR a : boolean; b : boolean; ASSIGN a := FALSE; b := FALSE;";

/// A cause that strikes the lamp.
pub const FLASH: &[u8] = b"CAUSE Flash WITHIN 0..0 STRIKES Lamp.dark;";

/// A model whose one variable stays FALSE.
pub const TINY: &[u8] = b"MODULE main VAR x : boolean; ASSIGN init(x) := FALSE; next(x) := x;";

/// The name of a file and its bytes, where it is given.
pub type File<'a> = (&'a str, Option<&'a [u8]>);

/// A desk with the files that are given, whose calls fail as told.
pub fn desk_of(alloc: Global, given: &[File], fails: &[Fail]) -> Result<MemoryDesk, OutOfMemory> {
    let mut files = FileList::new(alloc);
    for (name, bytes) in given {
        if let Some(bytes) = bytes {
            files.push(NamedFile::new(alloc, name, bytes)?)?;
        }
    }
    let fails = FailList::from_slice(alloc, fails)?;
    Ok(MemoryDesk::new(alloc, files, fails))
}

/// The number that a run with these words ends with.
pub fn ran(
    alloc: Global,
    words: &[&str],
    desk: &mut MemoryDesk,
    advisers: Vec<Box<dyn Adviser>>,
) -> i32 {
    run(alloc, words, desk, advisers).exit_code()
}

/// Whether a run with these words over these files ends with this number and says this text.
pub fn ends(
    alloc: Global,
    given: &[File],
    words: &[&str],
    number: i32,
    said: &[u8],
) -> Result<bool, OutOfMemory> {
    let mut desk = desk_of(alloc, given, &[])?;
    let found = ran(alloc, words, &mut desk, Vec::new(alloc));
    Ok(found == number && desk.said() == said)
}

/// Whether a run with these words over these files ends with this number and says a text that begins and ends so.
pub fn shows(
    alloc: Global,
    given: &[File],
    words: &[&str],
    number: i32,
    begins: &[u8],
    closes: &[u8],
) -> Result<bool, OutOfMemory> {
    let mut desk = desk_of(alloc, given, &[])?;
    let found = ran(alloc, words, &mut desk, Vec::new(alloc));
    let said = desk.said();
    Ok(found == number && said.starts_with(begins) && said.ends_with(closes))
}

/// The bytes of the file that a run with these words over these files writes under this name, or none.
pub fn written(
    alloc: Global,
    given: &[File],
    words: &[&str],
    name: &str,
) -> Result<Vec<u8>, OutOfMemory> {
    let mut desk = desk_of(alloc, given, &[])?;
    let _number = ran(alloc, words, &mut desk, Vec::new(alloc));
    match desk.file(name) {
        Some(bytes) => joined(alloc, &[bytes]),
        None => Ok(Vec::new(alloc)),
    }
}

/// The bytes of these pieces.
pub fn joined(alloc: Global, pieces: &[&[u8]]) -> Result<Vec<u8>, OutOfMemory> {
    let mut bytes = Vec::new(alloc);
    for piece in pieces {
        bytes.extend_from_slice(piece)?;
    }
    Ok(bytes)
}

/// So many spaces.
pub fn spaces(alloc: Global, count: usize) -> Result<Vec<u8>, OutOfMemory> {
    let mut bytes = Vec::new(alloc);
    bytes.resize(count, b' ')?;
    Ok(bytes)
}

/// The front, and declarations that are named with the numbers from the first on, without the last.
pub fn declared(
    alloc: Global,
    front: &[u8],
    name: &str,
    of: &str,
    first: u32,
    last: u32,
) -> Result<Vec<u8>, OutOfMemory> {
    let mut text = joined(alloc, &[front])?;
    for i in first..last {
        let more = format!(in alloc; " {name}{i} : {of};")?;
        text.extend_from_slice(more.as_bytes())?;
    }
    Ok(text)
}

/// The rest of the bytes from the first place on where this part stands, or none.
pub fn rest_from<'a>(bytes: &'a [u8], part: &[u8]) -> &'a [u8] {
    for at in 0..bytes.len() {
        let rest = &bytes[at..];
        if rest.starts_with(part) {
            return rest;
        }
    }
    &[]
}
