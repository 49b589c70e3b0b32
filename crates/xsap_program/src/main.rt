//! Extends SMV models with faults, replays traces of the extensions, finds their minimal cut sets, checks
//! certificates of them, makes tables of them, generates cases, bounds probabilities, and takes in common causes and orders of faults.
//!
//! `main` hands [`verb_run::run::run`] the words of the command line, a desk over real files, and the advisers of the searches, and ends
//! with the number of its status; all that is promised of a run stands at that call, and `ended` promises that the number is that
//! of the status. The desk over real files is that of `xsap_main`.
//!
//! ```text
//! xsap_program extend --model lamp.smv --faults lamp.fei --extended out.smv
//! xsap_program replay --model lamp.smv --faults lamp.fei --trace dark.trace --top '!on'
//! xsap_program analyse --model lamp.smv --faults lamp.fei --top '!on' --depth 4 --extended out.smv --cert out.cert
//! xsap_program check --model lamp.smv --faults lamp.fei --top '!on' --cert out.cert
//! xsap_program fmea --model lamp.smv --faults lamp.fei --tops lamp.tops --size 1 --depth 4
//! xsap_program make --number 1 --stages 8 --depth 50 --model rails.smv --faults rails.fei
//! xsap_program odds --model lamp.smv --faults lamp.fei --top '!on' --depth 4
//! xsap_program causes --model lamp.smv --faults lamp.fei --causes lamp.causes --top '!on' --depth 4 --cert out.cert
//! xsap_program check-causes --model lamp.smv --faults lamp.fei --causes lamp.causes --top '!on' --cert out.cert
//! xsap_program orders --model m.smv --faults m.fei --top bad --set "1 2" --first 1 --second 2 --depth 4 --cert out.cert
//! xsap_program check-orders --model m.smv --faults m.fei --top bad --set "1 2" --first 1 --second 2 --claim before --cert out.cert
//! ```
#![tactic(auto)]

ghost use Rattle.std.specs.Prelude.{IfOk, map};
ghost use Rattle.xsap_main.specs.ProgramEnding.{HasRun, IsEnded};

use base_files::Desk;
use base_values::OutOfMemory;
use sat_adviser::{Active, Adviser, InOrder};
use std::alloc::{AllocError, Global};
use std::env;
use std::io::ErrorKind;
use std::process::ExitCode;
use verb_loading::status::Status;
use verb_run::run::run;
use xsap_main::{NOT_TEXT, RealDesk, exit_number};

/// Runs what the words of the command line ask for, and ends with the number of its status.
fn main(rt: HostRuntime) -> ExitCode {
    let alloc = rt.alloc();
    let number = match env::args(&rt) {
        Ok(args) => match args.skip(1).collect::<Vec<String>>(alloc) {
            Ok(words) => number_of(rt, alloc, &words),
            Err(AllocError) => exit_number(&Status::Memory),
        },
        Err(error) if error.kind() == ErrorKind::OutOfMemory => exit_number(&Status::Memory),
        Err(_) => NOT_TEXT,
    };
    ExitCode::from(number)
}

/// The number with which a run with these words over real files ends.
fn number_of(rt: HostRuntime, alloc: Global, words: &[String]) -> u8 {
    match words
        .iter()
        .map(|word| word.as_str())
        .collect::<Vec<&str>>(alloc)
    {
        Ok(words) => {
            let mut desk = RealDesk::new(rt);
            ended(alloc, &words, &mut desk)
        }
        Err(AllocError) => exit_number(&Status::Memory),
    }
}

/// The number of the status with which a run with these words over a desk ends.
fn ended<D: Desk>(alloc: Global, words: &[&str], desk: &mut D) -> u8
    ensures { IsEnded (map (λ w. w.now) words.now) result
        (D.told desk.old).files (D.told desk.new).files (D.told desk.old).said (D.told desk.new).said
        (D.told desk.old).faults (D.told desk.new).faults }
{
    match advised(alloc, words, desk) {
        Ok(status) => exit_number(&status),
        Err(OutOfMemory) => exit_number(&Status::Memory),
    }
}

/// The status of a run. Two advisers serve its searches: one in the order of the variables, one that prefers what was learned
/// lately.
fn advised<D: Desk>(alloc: Global, words: &[&str], desk: &mut D) -> Result<Status, OutOfMemory>
    ensures { IfOk result
        (λ s. HasRun (map (λ w. w.now) words.now) s
        (D.told desk.old).files (D.told desk.new).files (D.told desk.old).said (D.told desk.new).said
        (D.told desk.old).faults (D.told desk.new).faults) }
{
    let mut advisers: Vec<Box<dyn Adviser>> = Vec::new(alloc);
    advisers.push(Box::new(alloc, InOrder::new())?)?;
    advisers.push(Box::new(alloc, Active::new(alloc))?)?;
    Ok(run(alloc, words, desk, advisers))
}
