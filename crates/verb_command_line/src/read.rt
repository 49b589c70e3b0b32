//! The command that words mean.
ghost use Rattle.std.specs.Prelude.{◌≡◌, IfOk, IfErr};
ghost use Rattle.verb_command_line.specs.declared.command.Command.TheVariants as command;
ghost use Rattle.verb_command_line.specs.Meaning.{Means, BreaksFirst};
ghost use Rattle.verb_command_line.specs.Laws.{OneCommand, OneFault, CommandsHaveNoFault};
ghost use Rattle.verb_command_line.specs.WordReading.{pairs_of, reading, fault_after, made};
ghost use Rattle.verb_command_line.specs.CommandView.{texts, seen, seen_result, rule_of, place_of};

use crate::command::{
    Analyse, Check, CheckCauses, CheckOrders, Command, Extend, FindCauses, FindOdds, FindOrders,
    Fmea, Make, Replay,
};
use crate::fault::WordFault;
use crate::faults::fault_in;
use crate::pair::not_in_set;
use crate::pairs::{number_given, optional_number, text};
use crate::verb::Verb;

/// The command that the words of a command line mean, without the program's own name, or the first rule that
/// they break.
pub fn read_words<'a>(words: &'a [&'a str]) -> Result<Command<'a>, WordFault>
    ensures ok { IfOk result (λ c. Means (texts words.now) (seen c)) }
    ensures fault { IfErr result (λ f. BreaksFirst (texts words.now) (rule_of f) (place_of f)) }
    ensures one_command { OneCommand (texts words.now) }
    ensures one_fault { OneFault (texts words.now) }
    ensures apart { CommandsHaveNoFault (texts words.now) }
{
    read(words)
}

/// Tries the rules in their order.
fn read<'a>(words: &'a [&'a str]) -> Result<Command<'a>, WordFault>
    ensures { seen_result result ≡ reading (texts words.now) }
{
    let [name, words @ ..] = words else {
        return Err(WordFault::NoVerb { at: 0 });
    };
    let Some(verb) = Verb::named(name) else {
        return Err(WordFault::UnknownVerb { at: 1 });
    };
    if let Some(fault) = broken_by(verb, words) {
        return Err(fault);
    }
    Ok(command(verb, words))
}

/// The first rule that the words after a verb break.
fn broken_by(verb: Verb, words: &[&str]) -> Option<WordFault>
    ensures { result ≡ fault_after verb (texts words.now) }
{
    let fault = fault_in(verb.options(), words);
    if fault.is_some() {
        return fault;
    }
    not_in_set(words)
}

/// The command of a verb and the values that the words give its options.
fn command<'a>(verb: Verb, words: &[&'a str]) -> Command<'a>
    ensures { seen result ≡ made verb (pairs_of (texts words.now)) }
{
    match verb {
        Verb::Extend => Command::Extend(extend(words)),
        Verb::Replay => Command::Replay(replay(words)),
        Verb::Analyse => Command::Analyse(analyse(words)),
        Verb::Check => Command::Check(check(words)),
        Verb::Fmea => Command::Fmea(fmea(words)),
        Verb::Make => Command::Make(make(words)),
        Verb::Causes => Command::Causes(causes(words)),
        Verb::CheckCauses => Command::CheckCauses(check_causes(words)),
        Verb::Orders => Command::Orders(orders(words)),
        Verb::CheckOrders => Command::CheckOrders(check_orders(words)),
        Verb::Odds => Command::Odds(odds(words)),
    }
}

fn extend<'a>(words: &[&'a str]) -> Extend<'a>
    ensures { seen (command.Extend result) ≡ made Verb.Extend (pairs_of (texts words.now)) }
{
    Extend {
        model: text(words, "--model"),
        faults: text(words, "--faults"),
        extended: text(words, "--extended"),
    }
}

fn replay<'a>(words: &[&'a str]) -> Replay<'a>
    ensures { seen (command.Replay result) ≡ made Verb.Replay (pairs_of (texts words.now)) }
{
    Replay {
        model: text(words, "--model"),
        faults: text(words, "--faults"),
        trace: text(words, "--trace"),
        top: text(words, "--top"),
    }
}

fn analyse<'a>(words: &[&'a str]) -> Analyse<'a>
    ensures { seen (command.Analyse result) ≡ made Verb.Analyse (pairs_of (texts words.now)) }
{
    Analyse {
        model: text(words, "--model"),
        faults: text(words, "--faults"),
        top: text(words, "--top"),
        depth: number_given(words, "--depth"),
        extended: text(words, "--extended"),
        cert: text(words, "--cert"),
        size: optional_number(words, "--size"),
    }
}

fn check<'a>(words: &[&'a str]) -> Check<'a>
    ensures { seen (command.Check result) ≡ made Verb.Check (pairs_of (texts words.now)) }
{
    Check {
        model: text(words, "--model"),
        faults: text(words, "--faults"),
        top: text(words, "--top"),
        cert: text(words, "--cert"),
    }
}

fn fmea<'a>(words: &[&'a str]) -> Fmea<'a>
    ensures { seen (command.Fmea result) ≡ made Verb.Fmea (pairs_of (texts words.now)) }
{
    Fmea {
        model: text(words, "--model"),
        faults: text(words, "--faults"),
        tops: text(words, "--tops"),
        size: number_given(words, "--size"),
        depth: number_given(words, "--depth"),
    }
}

fn make<'a>(words: &[&'a str]) -> Make<'a>
    ensures { seen (command.Make result) ≡ made Verb.Make (pairs_of (texts words.now)) }
{
    Make {
        number: number_given(words, "--number"),
        stages: number_given(words, "--stages"),
        depth: number_given(words, "--depth"),
        model: text(words, "--model"),
        faults: text(words, "--faults"),
    }
}

fn causes<'a>(words: &[&'a str]) -> FindCauses<'a>
    ensures { seen (command.Causes result) ≡ made Verb.Causes (pairs_of (texts words.now)) }
{
    FindCauses {
        model: text(words, "--model"),
        faults: text(words, "--faults"),
        causes: text(words, "--causes"),
        top: text(words, "--top"),
        depth: number_given(words, "--depth"),
        cert: text(words, "--cert"),
    }
}

fn check_causes<'a>(words: &[&'a str]) -> CheckCauses<'a>
    ensures { seen (command.CheckCauses result) ≡ made Verb.CheckCauses (pairs_of (texts words.now)) }
{
    CheckCauses {
        model: text(words, "--model"),
        faults: text(words, "--faults"),
        causes: text(words, "--causes"),
        top: text(words, "--top"),
        cert: text(words, "--cert"),
    }
}

fn orders<'a>(words: &[&'a str]) -> FindOrders<'a>
    ensures { seen (command.Orders result) ≡ made Verb.Orders (pairs_of (texts words.now)) }
{
    FindOrders {
        model: text(words, "--model"),
        faults: text(words, "--faults"),
        top: text(words, "--top"),
        set: text(words, "--set"),
        first: number_given(words, "--first"),
        second: number_given(words, "--second"),
        depth: number_given(words, "--depth"),
        cert: text(words, "--cert"),
    }
}

fn check_orders<'a>(words: &[&'a str]) -> CheckOrders<'a>
    ensures { seen (command.CheckOrders result) ≡ made Verb.CheckOrders (pairs_of (texts words.now)) }
{
    CheckOrders {
        model: text(words, "--model"),
        faults: text(words, "--faults"),
        top: text(words, "--top"),
        set: text(words, "--set"),
        first: number_given(words, "--first"),
        second: number_given(words, "--second"),
        claim: text(words, "--claim"),
        cert: text(words, "--cert"),
    }
}

fn odds<'a>(words: &[&'a str]) -> FindOdds<'a>
    ensures { seen (command.Odds result) ≡ made Verb.Odds (pairs_of (texts words.now)) }
{
    FindOdds {
        model: text(words, "--model"),
        faults: text(words, "--faults"),
        top: text(words, "--top"),
        depth: number_given(words, "--depth"),
    }
}
