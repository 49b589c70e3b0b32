//! Shows the report of an analysis in forms for people and for other tools, and tells how two reports differ.
//!
//! The words are `show FILE`, with `--format FORM` and `--full` or not, or `diff OLD NEW`; `-` is standard input. A file is the report
//! that `xsap_program` prints. [`xsap_reports`] reads it and makes the texts. All goes to standard output, and nothing before each file was
//! read and judged; where there is nothing to show one sentence says why, and the status is not 0.
//!
//! ```text
//! xsap_program analyse --model m.smv --faults m.fei .. | xsap_show show - --format markdown
//! ```
#![tactic(auto)]

use base_values::OutOfMemory;
use std::alloc::{AllocError, Global};
use std::io::{ErrorKind, Read};
use std::process::ExitCode;
use std::rt::Files;
use std::{env, io};
use xsap_reports::{
    Report, ReportFault, Values, WrongLine, changes_of, csv_of_sets, dot_of, html_of, json_of,
    markdown_of, open_psa_of, read, text_of, vcd_of,
};

/// A longer file is no report.
const LONGEST_FILE: u64 = 1_073_741_824;

/// How a run ends, by the number that the system gets; from 7 on as for `xsap_program`.
#[derive(Clone, Copy)]
enum ShowEnd {
    /// The report is shown, or two of them have the same sets and ended alike.
    Shown = 0,
    /// Two reports differ.
    Differ = 1,
    /// The words are none of the two forms.
    Words = 2,
    /// A file is no report.
    NoReport = 3,
    /// A file is not there, or can't be read.
    NoFile = 4,
    /// Standard output failed.
    Failed = 7,
    /// There was no memory.
    Memory = 8,
    /// A word is no text.
    NotText = 11,
}

/// What is printed, and how the run then ends.
#[derive(Drop)]
struct Answer {
    text: Vec<u8>,
    end: ShowEnd,
}

/// Why a run goes no further.
#[derive(Drop)]
enum ShowStop {
    Memory,
    Answered(Answer),
}

impl From<AllocError> for ShowStop {
    fn from(_refused: AllocError) -> ShowStop {
        ShowStop::Memory
    }
}

impl From<OutOfMemory> for ShowStop {
    fn from(_refused: OutOfMemory) -> ShowStop {
        ShowStop::Memory
    }
}

/// A form in which a report is shown.
#[derive(Clone, Copy)]
enum Format {
    Text,
    Csv,
    Json,
    Markdown,
    Html,
    OpenPsa,
    Dot,
    Vcd,
}

/// What the words ask for.
#[derive(Clone, Copy)]
enum ShowCommand<'a> {
    Show {
        name: &'a str,
        format: Format,
        values: Values,
    },
    Diff {
        old: &'a str,
        new: &'a str,
    },
}

/// What is said of other words.
static USAGE: &str =
    "The words are `show FILE [--format text|csv|json|markdown|html|open-psa|dot|vcd] [--full]` or `diff OLD NEW`, where each file is a \
        report of an analysis, and one of them may be `-` for standard input.\n";

fn main(rt: HostRuntime) -> ExitCode {
    let alloc = rt.alloc();
    let end = match env::args(&rt) {
        Ok(args) => match args.skip(1).collect::<Vec<String>>(alloc) {
            Ok(words) => end_of(&rt, alloc, &words),
            Err(AllocError) => ShowEnd::Memory,
        },
        Err(error) if error.kind() == ErrorKind::OutOfMemory => ShowEnd::Memory,
        Err(_) => ShowEnd::NotText,
    };
    ExitCode::from(end as u8)
}

/// How a run with these words ends.
fn end_of<R: Files + Input + Print>(rt: &R, alloc: Global, words: &[String]) -> ShowEnd {
    match answer_to(rt, alloc, words) {
        Ok(answer) => printed(rt, &answer),
        Err(ShowStop::Answered(answer)) => printed(rt, &answer),
        Err(ShowStop::Memory) => ShowEnd::Memory,
    }
}

/// Prints an answer, and tells how the run ends.
fn printed<R: Print>(rt: &R, answer: &Answer) -> ShowEnd {
    match rt.write_all(answer.text.as_slice()) {
        Ok(()) => answer.end,
        Err(error) if error.kind() == ErrorKind::OutOfMemory => ShowEnd::Memory,
        Err(_) => ShowEnd::Failed,
    }
}

/// The answer to these words.
fn answer_to<R: Files + Input>(
    rt: &R,
    alloc: Global,
    words: &[String],
) -> Result<Answer, ShowStop> {
    match command_in(words) {
        Some(
            ShowCommand::Show {
                name,
                format,
                values,
            },
        ) => shown(rt, alloc, name, format, values),
        Some(ShowCommand::Diff { old, new }) => compared(rt, alloc, old, new),
        None => Err(sentence(alloc, USAGE, ShowEnd::Words)),
    }
}

/// What the words ask for.
fn command_in(words: &[String]) -> Option<ShowCommand<'_>> {
    match words {
        [verb, name, options @ ..] if verb.as_str() == "show" => show_of(name.as_str(), options),
        [verb, old, new] if verb.as_str() == "diff" => diff_of(old.as_str(), new.as_str()),
        _ => None,
    }
}

/// A report that is shown with these options.
fn show_of<'a>(name: &'a str, options: &[String]) -> Option<ShowCommand<'a>> {
    let (format, values) = options_in(options)?;
    Some(ShowCommand::Show {
        name,
        format,
        values,
    })
}

/// Two files that are compared. Standard input is read but once.
fn diff_of<'a>(old: &'a str, new: &'a str) -> Option<ShowCommand<'a>> {
    if old == "-" && new == "-" {
        None
    } else {
        Some(ShowCommand::Diff { old, new })
    }
}

/// The form and the values that options ask for.
fn options_in(options: &[String]) -> Option<(Format, Values)> {
    match options {
        [] => Some((Format::Text, Values::Changes)),
        [full] if is_full(full) => Some((Format::Text, Values::All)),
        [option, form] => Some((format_in(option, form)?, Values::Changes)),
        [full, option, form] if is_full(full) => Some((format_in(option, form)?, Values::All)),
        [option, form, full] if is_full(full) => Some((format_in(option, form)?, Values::All)),
        _ => None,
    }
}

/// Whether a word asks for all values.
fn is_full(word: &String) -> bool {
    word.as_str() == "--full"
}

/// The form in `--format FORM`.
fn format_in(option: &String, form: &String) -> Option<Format> {
    if option.as_str() != "--format" {
        return None;
    }
    match form.as_str() {
        "text" => Some(Format::Text),
        "csv" => Some(Format::Csv),
        "json" => Some(Format::Json),
        "markdown" => Some(Format::Markdown),
        "html" => Some(Format::Html),
        "open-psa" => Some(Format::OpenPsa),
        "dot" => Some(Format::Dot),
        "vcd" => Some(Format::Vcd),
        _ => None,
    }
}

/// The stop at which a sentence is said.
fn sentence(alloc: Global, text: &str, end: ShowEnd) -> ShowStop {
    match Vec::from_slice(alloc, text.as_bytes()) {
        Ok(text) => ShowStop::Answered(Answer { text, end }),
        Err(AllocError) => ShowStop::Memory,
    }
}

/// The report in a file, in a form.
fn shown<R: Files + Input>(
    rt: &R,
    alloc: Global,
    name: &str,
    format: Format,
    values: Values,
) -> Result<Answer, ShowStop> {
    let bytes = bytes_of(rt, alloc, name)?;
    let report = report_of(alloc, name, bytes.as_slice())?;
    let text = text_in(alloc, &report, format, values)?;
    Ok(Answer {
        text,
        end: ShowEnd::Shown,
    })
}

/// A report in a form.
fn text_in(
    alloc: Global,
    report: &Report<'_>,
    format: Format,
    values: Values,
) -> Result<Vec<u8>, OutOfMemory> {
    match format {
        Format::Text => text_of(alloc, report, values),
        Format::Csv => csv_of_sets(alloc, report),
        Format::Json => json_of(alloc, report, values),
        Format::Markdown => markdown_of(alloc, report, values),
        Format::Html => html_of(alloc, report, values),
        Format::OpenPsa => open_psa_of(alloc, report),
        Format::Dot => dot_of(alloc, report),
        Format::Vcd => vcd_of(alloc, report),
    }
}

/// How the reports in two files differ.
fn compared<R: Files + Input>(
    rt: &R,
    alloc: Global,
    old: &str,
    new: &str,
) -> Result<Answer, ShowStop> {
    let old_bytes = bytes_of(rt, alloc, old)?;
    let new_bytes = bytes_of(rt, alloc, new)?;
    let old_report = report_of(alloc, old, old_bytes.as_slice())?;
    let new_report = report_of(alloc, new, new_bytes.as_slice())?;
    difference(alloc, &old_report, &new_report)
}

/// How two reports differ.
fn difference(alloc: Global, old: &Report<'_>, new: &Report<'_>) -> Result<Answer, ShowStop> {
    let changes = changes_of(alloc, old, new)?;
    let text = changes.text(alloc, old, new)?;
    let end = if changes.is_any() {
        ShowEnd::Differ
    } else {
        ShowEnd::Shown
    };
    Ok(Answer { text, end })
}

/// The report that these bytes of a file are.
fn report_of<'a>(alloc: Global, name: &str, bytes: &'a [u8]) -> Result<Report<'a>, ShowStop> {
    match read(alloc, bytes) {
        Ok(report) => Ok(report),
        Err(ReportFault::OutOfMemory) => Err(ShowStop::Memory),
        Err(ReportFault::At(fault)) => Err(no_report(alloc, name, fault)),
    }
}

/// The stop at which it is said where a file stops being a report.
fn no_report(alloc: Global, name: &str, fault: WrongLine) -> ShowStop {
    let title = title_of(name);
    let line = fault.line;
    let expected = fault.expected.text();
    match format!(in alloc; "{title} is no report: in line {line} there should be {expected}.\n") {
        Ok(text) => sentence(alloc, text.as_str(), ShowEnd::NoReport),
        Err(AllocError) => ShowStop::Memory,
    }
}

/// What a file is called in a sentence.
fn title_of(name: &str) -> &str {
    if name == "-" { "standard input" } else { name }
}

/// The bytes of a file.
fn bytes_of<R: Files + Input>(rt: &R, alloc: Global, name: &str) -> Result<Vec<u8>, ShowStop> {
    let mut bytes = Vec::new(alloc);
    match read_into(rt, name, &mut bytes) {
        Ok(()) => of_a_length(alloc, name, bytes),
        Err(error) if error.kind() == ErrorKind::OutOfMemory => Err(ShowStop::Memory),
        Err(error) if error.kind() == ErrorKind::NotFound => {
            let text = format!(in alloc; "There is no file {name}.\n")?;
            Err(sentence(alloc, text.as_str(), ShowEnd::NoFile))
        }
        Err(_) => {
            let title = title_of(name);
            let text = format!(in alloc; "{title} can't be read.\n")?;
            Err(sentence(alloc, text.as_str(), ShowEnd::NoFile))
        }
    }
}

/// These bytes, where they are not as many as were read at most.
fn of_a_length(alloc: Global, name: &str, bytes: Vec<u8>) -> Result<Vec<u8>, ShowStop> {
    if (bytes.len() as u64) < LONGEST_FILE {
        return Ok(bytes);
    }
    let title = title_of(name);
    let text = format!(in alloc; "{title} is no report: it has {LONGEST_FILE} bytes or more.\n")?;
    Err(sentence(alloc, text.as_str(), ShowEnd::NoReport))
}

/// Reads a file to its end, or up to the length at which it is no report.
fn read_into<R: Files + Input>(rt: &R, name: &str, bytes: &mut Vec<u8>) -> io::Result<()> {
    if name == "-" {
        rt.reader().take(LONGEST_FILE).read_to_end(bytes)?;
    } else {
        std::fs::open(rt, name)?
            .take(LONGEST_FILE)
            .read_to_end(bytes)?;
    }
    Ok(())
}
