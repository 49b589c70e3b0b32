//! The top call.
//!
//! The main function is [`run`]. Its contract has all that is promised of a run; `verbs` and `further` do the work of each verb.
ghost use Rattle.std.specs.Prelude.{◌≡◌, ◌≤◌, ◌⊎◌, IfSome, IsSomeAnd, ℕ, Option, Some, map};
ghost use Rattle.base_files.specs.Desk.{Rose};
ghost use Rattle.smv_language.specs.ProgramTree.{Text};
ghost use Rattle.verb_command_line.specs.Commands.{Command as Asked};
ghost use Rattle.verb_command_line.specs.Meaning.{Means as WordsMean, BreaksFirst};
ghost use Rattle.verb_command_line.specs.CommandView.{rule_of, place_of};
ghost use Rattle.verb_command_line.specs.Sets.{numbers_of};
ghost use Rattle.verb_command_line.specs.declared.fault.WordFault.{WordFault};
ghost use Rattle.verb_run.specs.Runs.{Outcome, Means, IsAnswer, IsFinished, IsDelivered, HasAnswered, HasStopped};
ghost use Rattle.verb_run.specs.Headline.{IsComplete, IsBounded};
ghost use Rattle.verb_run.specs.Requests.{AsksToExtend, AsksToReplay, AsksToAnalyse, AsksToCheck, AsksToTabulate, AsksToMake};
ghost use Rattle.verb_run.specs.Requests.{AsksForCauses, AsksToCheckCauses, AsksForOrder, AsksToCheckOrder, AsksForOdds, RefusesWords};
ghost use Rattle.verb_run.specs.Requests.{depth_of};
ghost use Rattle.verb_run.specs.BoundedAnswers.{IsShort};
ghost use Rattle.verb_run.specs.LaterChecks.{AnalysesAreAccepted, CausesAreAccepted, OrdersAreAccepted};
ghost use Rattle.verb_run.specs.Extension.{IsExtended};
ghost use Rattle.verb_run.specs.ReplayFindings.{HoldsReaching, IsReplayed};
ghost use Rattle.verb_run.specs.Certificates.{IsChecked};
ghost use Rattle.verb_run.specs.Tables.{IsTabulated};
ghost use Rattle.verb_run.specs.GeneratedCase.{IsMade};
ghost use Rattle.verb_causes.specs.Causes.{HasFoundCauses, HasCheckedCauses};
ghost use Rattle.verb_orders.specs.Orders.{HasOrder, HasCheckedOrder};
ghost use Rattle.verb_odds.specs.Odds.{HasOdds};

use crate::asked::{Askable, command_asked};
use crate::ending::reject;
use crate::verbs::carry_out;
use base_files::Desk;
use sat_adviser::{Adviser, Panel};
use std::alloc::Global;
use verb_loading::status::Status;

/// Does what the words ask for. `extend` reads a model and instructions, writes the model extended with
/// the faults, and says the faults. `replay` reads a model, instructions, a top event and a trace of the
/// extension, and says that the trace reaches the event, and which faults it has failed; it writes nothing.
/// `analyse` reads a model, instructions and a top event, writes the extension, searches it for the minimal cut
/// sets of the event, writes a certificate of a complete answer, and says the report; an answer that holds for the
/// traces of at most so many steps as the depth ends bounded, and has no certificate.
/// `check` reads a model, instructions, a top event and a certificate, and says that the certificate is accepted, and its
/// size where that is below the number of faults; it writes nothing.
/// `fmea` reads a model, instructions and a file of top events, analyses each event, and says a table with a row for each
/// set of at most so many faults; it writes nothing. `make` writes a generated model and its instructions, analyses them,
/// and says one line. `causes` searches for the minimal cut sets of faults and common causes, writes a certificate of a complete
/// answer, and says the report, and `check-causes` judges such a certificate. `orders` finds in which order two faults of a set
/// come wherever exactly the set leads to the top event, writes a certificate of a complete answer, and says the line of the pair,
/// and `check-orders` judges such a certificate. `odds` analyses the top event, and says the sets with bounds of their
/// probabilities by the marks of the modes; it writes nothing.
/// All files are read, and every refusal is tried, before anything is written or said. A refusal says its one
/// line and changes no file. The words are those of the command line without the program's own name. The advisers
/// say what each search tries first; no answer is trusted to them.
pub fn run<D: Desk>(
    alloc: Global,
    words: &[&str],
    desk: &mut D,
    advisers: Vec<Box<dyn Adviser>>,
) -> Status
    // Unless the desk failed or memory ran out, the whole of what words and files come to stands.
    ensures answered { IsAnswer result → IfSome (D.told desk.old).files (λ files.
        HasAnswered files (map (λ w. w.now) words.now) result
        (D.told desk.old).files (D.told desk.new).files (D.told desk.old).said (D.told desk.new).said) }
    // What the words and files come to is one, and it is the answer and what stands: the first rule that is broken, at its
    // place, the first moment that stops the trace from reaching the event, the extension and its report, the report of a
    // trace that reaches it, or the case and the event that were analysed.
    ensures exact { IsAnswer result → IfSome (D.told desk.old).files (λ files. (o : Outcome) → Means files (map (λ w. w.now) words.now) o →
        IsDelivered o result (D.told desk.old).files (D.told desk.new).files (D.told desk.old).said (D.told desk.new).said) }
    // A run that is done has written the woven program, as the one program that the model spells and the instructions make it:
    // its traces are the extended traces, and its faultless ones the model's. It has said the list of its faults.
    ensures extended { (model faults extended : Text) → result ≡ Status.Done →
        AsksToExtend (map (λ w. w.now) words.now) model faults extended →
        IfSome (D.told desk.old).files (λ before. IsSomeAnd (D.told desk.new).files (λ after.
        IsExtended before after (D.told desk.old).said (D.told desk.new).said model faults extended)) }
    // A run that is done has replayed the trace: its values are cut to an extended trace that reaches the event, and the names of
    // exactly the faults that it has failed were said; no file was changed.
    ensures replayed { (model faults trace top : Text) → result ≡ Status.Done →
        AsksToReplay (map (λ w. w.now) words.now) model faults trace top →
        IfSome (D.told desk.old).files (λ files. IsReplayed files (D.told desk.old).said (D.told desk.new).said model faults trace top
        × ((D.told desk.new).files ≡ (D.told desk.old).files)) }
    // And such a trace is refused for nothing.
    ensures reaching { (model faults trace top : Text) → IsAnswer result →
        AsksToReplay (map (λ w. w.now) words.now) model faults trace top →
        IfSome (D.told desk.old).files (λ files. HoldsReaching files model faults trace top → result ≡ Status.Done) }
    // A run that is done has analysed the extended traces, of every length: it has written the extension, found exactly the sets
    // that the headline says, shown a trace for each, and written an accepted certificate.
    ensures complete { (model faults top extended cert : Text) (depth : ℕ) (size : Option ℕ) →
        result ≡ Status.Done → AsksToAnalyse (map (λ w. w.now) words.now) model faults top depth extended cert size →
        IfSome (D.told desk.old).files (λ before. IsSomeAnd (D.told desk.new).files (λ after.
        IsComplete before after (D.told desk.old).said (D.told desk.new).said model faults top extended cert size)) }
    // And one that is bounded has analysed those of at most so many steps as the depth.
    ensures bounded { (model faults top extended cert : Text) (depth : ℕ) (size : Option ℕ) (k : ℕ) →
        result ≡ Status.Bounded k → AsksToAnalyse (map (λ w. w.now) words.now) model faults top depth extended cert size →
        IfSome (D.told desk.old).files (λ before. IsSomeAnd (D.told desk.new).files (λ after.
        (k ≡ depth) × IsBounded before after (D.told desk.old).said (D.told desk.new).said model faults top extended cert depth size)) }
    // A run that is done has checked the certificate: the sets that its bytes spell are right for all extended traces, of every
    // length, with the traces that its texts give; no file was changed.
    ensures accepted { (model faults top cert : Text) → result ≡ Status.Done →
        AsksToCheck (map (λ w. w.now) words.now) model faults top cert →
        IfSome (D.told desk.old).files (λ files. IsChecked files (D.told desk.old).said (D.told desk.new).said model faults top cert
        × ((D.told desk.new).files ≡ (D.told desk.old).files)) }
    // A run that has finished a table has said it: each entry means what it says of the extended traces; no file was changed.
    ensures tabulated { (model faults tops : Text) (size depth : ℕ) → IsFinished result →
        AsksToTabulate (map (λ w. w.now) words.now) model faults tops size depth →
        IfSome (D.told desk.old).files
        (λ files. IsTabulated files (D.told desk.old).said (D.told desk.new).said model faults tops size depth result
        × ((D.told desk.new).files ≡ (D.told desk.old).files)) }
    // A run that has finished a generated case has written the generator's model and instructions, and said what they are and what
    // an analysis of them found.
    ensures made { (number stages depth : ℕ) (model faults : Text) → IsFinished result →
        AsksToMake (map (λ w. w.now) words.now) number stages depth model faults →
        IfSome (D.told desk.old).files (λ files. IsSomeAnd (D.told desk.new).files (λ after.
        IsMade after (D.told desk.old).said (D.told desk.new).said number stages depth model faults result)) }
    // A run that has finished a search with common causes has written and said what it found: an analysis that is right for all
    // caused traces, or for those of at most so many steps, and where it is complete an accepted certificate.
    ensures caused { (model faults file top cert : Text) (depth : ℕ) → IsFinished result →
        AsksForCauses (map (λ w. w.now) words.now) model faults file top depth cert →
        IfSome (D.told desk.old).files (λ files.
        HasFoundCauses files model faults file top cert depth result
        (D.told desk.old).files (D.told desk.new).files (D.told desk.old).said (D.told desk.new).said) }
    // A run that is done has checked such a certificate: its sets are shown for all caused traces, of every length; no file was
    // changed.
    ensures caused_accepted { (model faults file top cert : Text) → result ≡ Status.Done →
        AsksToCheckCauses (map (λ w. w.now) words.now) model faults file top cert →
        IfSome (D.told desk.old).files
        (λ files. HasCheckedCauses files model faults file top cert (D.told desk.old).said (D.told desk.new).said
        × ((D.told desk.new).files ≡ (D.told desk.old).files)) }
    // A run that has finished with an order has written and said one that is so of all extended traces that reach the event and
    // have failed exactly the set, or of those of at most so many steps.
    ensures ordered { (model faults top set cert : Text) (first second depth : ℕ) → IsFinished result →
        AsksForOrder (map (λ w. w.now) words.now) model faults top set first second depth cert →
        IfSome (D.told desk.old).files (λ files.
        HasOrder files model faults top (numbers_of set) first second depth cert result
        (D.told desk.old).files (D.told desk.new).files (D.told desk.old).said (D.told desk.new).said) }
    // A run that is done has checked a certificate of what is claimed of two faults, and the claim holds; no file was changed.
    ensures order_accepted { (model faults top set claim cert : Text) (first second : ℕ) → result ≡ Status.Done →
        AsksToCheckOrder (map (λ w. w.now) words.now) model faults top set first second claim cert →
        IfSome (D.told desk.old).files (λ files.
        HasCheckedOrder files model faults top (numbers_of set) first second claim cert result (D.told desk.old).said (D.told desk.new).said
        × ((D.told desk.new).files ≡ (D.told desk.old).files)) }
    // A run that has finished with odds has said the sets of an analysis, and bounds of their probabilities that are right; no file
    // was changed.
    ensures bounds { (model faults top : Text) (depth : ℕ) → IsFinished result →
        AsksForOdds (map (λ w. w.now) words.now) model faults top depth →
        IfSome (D.told desk.old).files (λ files. HasOdds files model faults top depth result (D.told desk.old).said (D.told desk.new).said
        × ((D.told desk.new).files ≡ (D.told desk.old).files)) }
    // A bounded answer is bounded by the depth that the words give, whatever the desk tells.
    ensures depth { (c : Asked) (k : ℕ) → WordsMean (map (λ w. w.now) words.now) c → result ≡ Status.Bounded k → depth_of c ≡ Some k }
    // And never where the depth is two more than the number of states of the searched model, or above that.
    ensures short { (c : Asked) (k : ℕ) → WordsMean (map (λ w. w.now) words.now) c → result ≡ Status.Bounded k →
        IfSome (D.told desk.old).files (λ files. IsShort c files k) }
    // Words that mean no command are refused by the rule that they break first, at its place, whatever the desk tells;
    ensures words { (rule place : ℕ) → IsAnswer result → BreaksFirst (map (λ w. w.now) words.now) rule place →
        (f : WordFault) × (rule_of f ≡ rule) × (place_of f ≡ place) × (result ≡ Status.Words f) }
    // and no others are.
    ensures meant { (f : WordFault) → result ≡ Status.Words f → RefusesWords (map (λ w. w.now) words.now) f }
    // However it ends, nothing was done, or a part of that stands: a prefix of what would be written and said.
    ensures left { (((D.told desk.new).files ≡ (D.told desk.old).files) × ((D.told desk.new).said ≡ (D.told desk.old).said)) ⊎ IfSome
        (D.told desk.old).files (λ files.
        HasStopped files (map (λ w. w.now) words.now)
        (D.told desk.old).files (D.told desk.new).files (D.told desk.old).said (D.told desk.new).said) }
    // The desk's status comes only where its count of faults rose.
    ensures failed { result ≡ Status.Desk → Rose (D.told desk.old).faults (D.told desk.new).faults }
    ensures later { (D.told desk.old).faults ≤ (D.told desk.new).faults }
    ensures quiet { (D.told desk.old).quiet → (D.told desk.new).quiet × ((D.told desk.new).faults ≡ (D.told desk.old).faults) }
{
    answer(alloc, words, desk, &mut Panel::new(advisers))
}

/// Reads the words, and carries out what they ask for.
fn answer<D: Desk>(alloc: Global, words: &[&str], desk: &mut D, panel: &mut Panel) -> Status
    ensures answered { IsAnswer result → IfSome (D.told desk.old).files (λ files.
        HasAnswered files (map (λ w. w.now) words.now) result
        (D.told desk.old).files (D.told desk.new).files (D.told desk.old).said (D.told desk.new).said) }
    ensures left { (((D.told desk.new).files ≡ (D.told desk.old).files) × ((D.told desk.new).said ≡ (D.told desk.old).said)) ⊎ IfSome
        (D.told desk.old).files (λ files.
        HasStopped files (map (λ w. w.now) words.now)
        (D.told desk.old).files (D.told desk.new).files (D.told desk.old).said (D.told desk.new).said) }
    ensures depth { (c : Asked) (k : ℕ) → WordsMean (map (λ w. w.now) words.now) c → result ≡ Status.Bounded k → depth_of c ≡ Some k }
    ensures words { (rule place : ℕ) → IsAnswer result → BreaksFirst (map (λ w. w.now) words.now) rule place →
        (f : WordFault) × (rule_of f ≡ rule) × (place_of f ≡ place) × (result ≡ Status.Words f) }
    ensures meant { (f : WordFault) → result ≡ Status.Words f → RefusesWords (map (λ w. w.now) words.now) f }
    ensures failed { result ≡ Status.Desk → Rose (D.told desk.old).faults (D.told desk.new).faults }
    ensures later { (D.told desk.old).faults ≤ (D.told desk.new).faults }
    ensures quiet { (D.told desk.old).quiet → (D.told desk.new).quiet × ((D.told desk.new).faults ≡ (D.told desk.old).faults) }
{
    match command_asked(words) {
        Ok(command) => carry_out(alloc, desk, &Askable::new(command), panel),
        Err(fault) => reject(alloc, desk, fault),
    }
}

/// The certificates that runs write are accepted by the runs that check them, over files that hold what the first run was given and
/// the certificate, within its limit.
pub fn certificates_are_accepted()
    ensures analyses { AnalysesAreAccepted }
    ensures causes { CausesAreAccepted }
    ensures orders { OrdersAreAccepted }
{}
