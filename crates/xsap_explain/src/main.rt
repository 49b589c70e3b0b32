//! Explains the line by which `xsap_program` refuses an input.
//!
//! The words are `explain FILE`, and the line stands on standard input. What it means, how its place is found, and the place in FILE go
//! to standard output; [`xsap_refusals`] makes that text. FILE is read only where the place lies in a file. Where nothing can be explained
//! one sentence says why, and the status is not 0.
//!
//! ```text
//! xsap_program extend --model m.smv --faults m.fei --extended out.smv | xsap_explain explain m.smv
//! ```
#![tactic(auto)]

use base_values::limits::MOST_CERT_BYTES;
use smv_lexer::OutOfMemory;
use std::alloc::{AllocError, Global};
use std::io::{ErrorKind, Read};
use std::process::ExitCode;
use std::rt::Files;
use std::str::from_utf8;
use std::{env, io};
use xsap_refusals::{Explanation, look_up, read_refusal};

/// No line of a refusal has so many bytes.
const LONGEST_LINE: u64 = 256;

/// How a run ends, by the number that the system gets; from 7 on as for `xsap_program`.
#[derive(Clone, Copy)]
enum ExplainEnd {
    /// The line is explained.
    Explained = 0,
    /// The words are not `explain FILE`.
    Words = 2,
    /// The line is no refusal.
    NoRefusal = 3,
    /// The file is not there, or can't be read.
    NoFile = 4,
    /// Standard input or output failed.
    Failed = 7,
    /// There was no memory.
    Memory = 8,
    /// A word is no text.
    NotText = 11,
}

/// Why a run could not go on.
#[derive(Clone, Copy)]
enum ExplainStop {
    Failed,
    Memory,
}

impl From<io::Error> for ExplainStop {
    fn from(error: io::Error) -> ExplainStop {
        if error.kind() == ErrorKind::OutOfMemory {
            ExplainStop::Memory
        } else {
            ExplainStop::Failed
        }
    }
}

impl From<AllocError> for ExplainStop {
    fn from(_refused: AllocError) -> ExplainStop {
        ExplainStop::Memory
    }
}

impl From<OutOfMemory> for ExplainStop {
    fn from(_refused: OutOfMemory) -> ExplainStop {
        ExplainStop::Memory
    }
}

fn main(rt: HostRuntime) -> ExitCode {
    let alloc = rt.alloc();
    let end = match env::args(&rt) {
        Ok(args) => match args.skip(1).collect::<Vec<String>>(alloc) {
            Ok(words) => end_of(&rt, alloc, &words),
            Err(AllocError) => ExplainEnd::Memory,
        },
        Err(error) if error.kind() == ErrorKind::OutOfMemory => ExplainEnd::Memory,
        Err(_) => ExplainEnd::NotText,
    };
    ExitCode::from(end as u8)
}

/// How a run with these words ends.
fn end_of<R: Files + Input + Print>(rt: &R, alloc: Global, words: &[String]) -> ExplainEnd {
    match run(rt, alloc, words) {
        Ok(end) => end,
        Err(ExplainStop::Failed) => ExplainEnd::Failed,
        Err(ExplainStop::Memory) => ExplainEnd::Memory,
    }
}

/// Explains the line on standard input, or says why it can't.
fn run<R: Files + Input + Print>(
    rt: &R,
    alloc: Global,
    words: &[String],
) -> Result<ExplainEnd, ExplainStop> {
    let Some(name) = name_in(words) else {
        return ended(
            rt,
            ExplainEnd::Words,
            b"The words are `explain FILE`, where FILE is what was refused.\n",
        );
    };
    match explanation_of(rt, alloc)? {
        Some(explanation) => explained(rt, alloc, &explanation, name),
        None => ended(
            rt,
            ExplainEnd::NoRefusal,
            b"The line on standard input is no refusal of xsap_program.\n",
        ),
    }
}

/// The name in `explain FILE`.
fn name_in(words: &[String]) -> Option<&str> {
    match words {
        [verb, name] if verb.as_str() == "explain" => Some(name.as_str()),
        _ => None,
    }
}

/// Says a text, after which the run ends so.
fn ended<R: Print>(rt: &R, end: ExplainEnd, text: &[u8]) -> Result<ExplainEnd, ExplainStop> {
    rt.write_all(text)?;
    Ok(end)
}

/// Says what an explanation has to say of the file of this name.
fn explained<R: Files + Print>(
    rt: &R,
    alloc: Global,
    explanation: &Explanation,
    name: &str,
) -> Result<ExplainEnd, ExplainStop> {
    if !explanation.needs_file() {
        let text = explanation.text(alloc, b"")?;
        return ended(rt, ExplainEnd::Explained, text.as_slice());
    }
    match bytes_of(rt, alloc, name) {
        Ok(file) => {
            let text = explanation.text(alloc, file.as_slice())?;
            ended(rt, ExplainEnd::Explained, text.as_slice())
        }
        Err(error) if error.kind() == ErrorKind::OutOfMemory => Err(ExplainStop::Memory),
        Err(error) if error.kind() == ErrorKind::NotFound => {
            let text = format!(in alloc; "There is no file {name}.\n")?;
            ended(rt, ExplainEnd::NoFile, text.as_bytes())
        }
        Err(_) => {
            let text = format!(in alloc; "The file {name} can't be read.\n")?;
            ended(rt, ExplainEnd::NoFile, text.as_bytes())
        }
    }
}

/// The bytes of a file, as far as the program would read it.
fn bytes_of<R: Files>(rt: &R, alloc: Global, name: &str) -> io::Result<Vec<u8>> {
    let mut bytes = Vec::new(alloc);
    std::fs::open(rt, name)?
        .take(MOST_CERT_BYTES)
        .read_to_end(&mut bytes)?;
    Ok(bytes)
}

/// The explanation of the first line on standard input, where it is a refusal.
fn explanation_of<R: Input>(rt: &R, alloc: Global) -> Result<Option<Explanation>, ExplainStop> {
    let mut bytes = Vec::new(alloc);
    rt.reader().take(LONGEST_LINE).read_to_end(&mut bytes)?;
    let Ok(line) = from_utf8(first_line(bytes.as_slice())) else {
        return Ok(None);
    };
    match read_refusal(alloc, line)? {
        Some(refusal) => Ok(look_up(&refusal)),
        None => Ok(None),
    }
}

/// The bytes before the first line feed.
fn first_line(bytes: &[u8]) -> &[u8] {
    match bytes.iter().position(|byte| *byte == b'\n') {
        Some(end) => &bytes[..end],
        None => bytes,
    }
}
