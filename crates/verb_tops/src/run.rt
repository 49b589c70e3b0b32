//! The top call.
//!
//! The main function is [`run_each`]. Its contract has all that is promised of a run.
ghost use Rattle.std.specs.Prelude.{◌≡◌, ◌≤◌, IfSome, map};
ghost use Rattle.base_files.specs.Desk.{Rose};
ghost use Rattle.verb_loading.specs.Statuses.{IsAnswer};
ghost use Rattle.verb_tops.specs.Each.{AnswersEach, HasAnsweredEach};

use crate::each::{Asked, deliver_each};
use base_files::Desk;
use sat_adviser::{Adviser, Panel};
use std::alloc::Global;
use verb_command_line::{Analyse, Command, Fmea, WordFault, read_words};
use verb_loading::status::Status;
use verb_run::ending::{finished, reject, stopped};
use verb_run::tops::load_table;

/// Does what the words ask for, which are those of `analyse`, for each top event of a file: `--top` has the name of the file, with `;`
/// between the events, and `--cert` the beginning of the names of the certificates, which is followed by the number of an event and
/// `.cert`. The files are read, and refused, as `fmea` does it, before anything is written or printed. Then the extension is written, and
/// event after event searched in frames that stay: the certificate of a complete answer is written, and its report is printed after a
/// line with the number of the event. The run is bounded where one of the events is. The words of another verb are refused as those of no
/// verb. The advisers say what each search tries first; no answer is trusted to them.
pub fn run_each<D: Desk>(
    alloc: Global,
    words: &[&str],
    desk: &mut D,
    advisers: Vec<Box<dyn Adviser>>,
) -> Status
    // Unless the desk failed or memory ran out, the words were refused, or the whole of what the files come to stands.
    ensures answered { IsAnswer result → IfSome (D.told desk.old).files (λ files.
        HasAnsweredEach files (map (λ w. w.now) words.now) result
        (D.told desk.old).files (D.told desk.new).files (D.told desk.old).said (D.told desk.new).said) }
    // The desk's status comes only where its count of faults rose.
    ensures failed { result ≡ Status.Desk → Rose (D.told desk.old).faults (D.told desk.new).faults }
    ensures later { (D.told desk.old).faults ≤ (D.told desk.new).faults }
    ensures quiet { (D.told desk.old).quiet → (D.told desk.new).quiet × ((D.told desk.new).faults ≡ (D.told desk.old).faults) }
{
    answer(alloc, words, desk, &mut Panel::new(advisers))
}

/// Reads the words, and carries out what they ask for.
fn answer<D: Desk>(alloc: Global, words: &[&str], desk: &mut D, panel: &mut Panel) -> Status
    ensures answered { IsAnswer result → IfSome (D.told desk.old).files (λ files.
        HasAnsweredEach files (map (λ w. w.now) words.now) result
        (D.told desk.old).files (D.told desk.new).files (D.told desk.old).said (D.told desk.new).said) }
    ensures failed { result ≡ Status.Desk → Rose (D.told desk.old).faults (D.told desk.new).faults }
    ensures later { (D.told desk.old).faults ≤ (D.told desk.new).faults }
    ensures quiet { (D.told desk.old).quiet → (D.told desk.new).quiet × ((D.told desk.new).faults ≡ (D.told desk.old).faults) }
{
    match read_words(words) {
        Ok(Command::Analyse(asked)) => analyse_each(alloc, desk, &asked, panel),
        Ok(_) => reject(alloc, desk, WordFault::UnknownVerb { at: 1 }),
        Err(fault) => reject(alloc, desk, fault),
    }
}

/// Reads the three files, writes the extension, searches for each event, and prints the reports.
fn analyse_each<D: Desk>(alloc: Global, desk: &mut D, asked: &Analyse, panel: &mut Panel) -> Status
    ensures answered { IsAnswer result → IfSome (D.told desk.old).files (λ files.
        AnswersEach files asked.now.model.now asked.now.faults.now asked.now.top.now asked.now.depth asked.now.extended.now
        asked.now.cert.now asked.now.size
        result (D.told desk.old).files (D.told desk.new).files (D.told desk.old).said (D.told desk.new).said) }
    ensures failed { result ≡ Status.Desk → Rose (D.told desk.old).faults (D.told desk.new).faults }
    ensures later { (D.told desk.old).faults ≤ (D.told desk.new).faults }
    ensures quiet { (D.told desk.old).quiet → (D.told desk.new).quiet × ((D.told desk.new).faults ≡ (D.told desk.old).faults) }
{
    // (the rows of a table are not asked for)
    let table = Fmea {
        model: asked.model,
        faults: asked.faults,
        tops: asked.top,
        size: 0,
        depth: asked.depth,
    };
    match load_table(alloc, desk, &table) {
        Ok(loaded) => {
            let asked = Asked {
                loaded,
                size: asked.size,
                extended: asked.extended,
                stem: asked.cert,
            };
            finished(deliver_each(alloc, desk, &asked, panel))
        }
        Err(stop) => stopped(alloc, desk, stop),
    }
}
