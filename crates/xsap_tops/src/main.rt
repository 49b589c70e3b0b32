//! The program that analyses a case for each of several top events, in one search: the words of `analyse`, with the file of the top
//! events after `--top`, and after `--cert` the beginning of the names of the certificates. On standard error it prints the news of the
//! search, as `xsap_watched` does.
//!
//! `main` hands [`verb_tops::run::run_each`] the words of the command line, a desk over real files, and the two advisers of
//! `xsap_watched`, and ends with the number of the status; what is promised of a run stands at that call.
//!
//! ```text
//! xsap_tops analyse --model lamp.smv --faults lamp.fei --top lamp.tops --depth 4 --extended out.smv --cert out.
//! ```
#![tactic(auto)]

ghost use Rattle.std.specs.Prelude.{IfOk, map};
ghost use Rattle.xsap_tops.specs.Ended.{HasRun, IsEnded};

use base_files::Desk;
use base_values::OutOfMemory;
use sat_adviser::{Active, Adviser, InOrder};
use sat_news::Watched;
use std::alloc::{AllocError, Global};
use std::env;
use std::io::{ErrorKind, Stderr};
use std::process::ExitCode;
use verb_loading::status::Status;
use verb_tops::run::run_each;
use xsap_main::{NOT_TEXT, RealDesk, exit_number};

/// Runs what the words of the command line ask for, and ends with the number of its status.
fn main(rt: HostRuntime) -> ExitCode {
    let alloc = rt.alloc();
    let number = match env::args(&rt) {
        Ok(args) => match args.skip(1).collect::<Vec<String>>(alloc) {
            Ok(words) => number_of(rt, alloc, &words),
            Err(AllocError) => exit_number(&Status::Memory),
        },
        Err(error) if error.kind() == ErrorKind::OutOfMemory => exit_number(&Status::Memory),
        Err(_) => NOT_TEXT,
    };
    ExitCode::from(number)
}

/// The number with which a run with these words over real files ends.
fn number_of(rt: HostRuntime, alloc: Global, words: &[String]) -> u8 {
    match words
        .iter()
        .map(|word| word.as_str())
        .collect::<Vec<&str>>(alloc)
    {
        Ok(words) => {
            let errors = rt.stderr();
            let mut desk = RealDesk::new(rt);
            ended(alloc, &words, &mut desk, errors)
        }
        Err(AllocError) => exit_number(&Status::Memory),
    }
}

/// The number of the status with which a run with these words over a desk ends.
fn ended<D: Desk>(alloc: Global, words: &[&str], desk: &mut D, errors: Stderr) -> u8
    ensures { IsEnded (map (λ w. w.now) words.now) result
        (D.told desk.old).files (D.told desk.new).files (D.told desk.old).said (D.told desk.new).said
        (D.told desk.old).faults (D.told desk.new).faults }
{
    match advised(alloc, words, desk, errors) {
        Ok(status) => exit_number(&status),
        Err(OutOfMemory) => exit_number(&Status::Memory),
    }
}

/// The status of a run. Two advisers serve its searches: one in the order of the variables, one that prefers what was learned
/// lately; both print what they hear.
fn advised<D: Desk>(
    alloc: Global,
    words: &[&str],
    desk: &mut D,
    errors: Stderr,
) -> Result<Status, OutOfMemory>
    ensures { IfOk result
        (λ s. HasRun (map (λ w. w.now) words.now) s
        (D.told desk.old).files (D.told desk.new).files (D.told desk.old).said (D.told desk.new).said
        (D.told desk.old).faults (D.told desk.new).faults) }
{
    let mut advisers: Vec<Box<dyn Adviser>> = Vec::new(alloc);
    advisers.push(Box::new(alloc, Watched::new(InOrder::new(), errors))?)?;
    advisers.push(Box::new(alloc, Watched::new(Active::new(alloc), errors))?)?;
    Ok(run_each(alloc, words, desk, advisers))
}
