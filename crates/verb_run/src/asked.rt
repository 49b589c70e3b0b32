//! What the words of a command line ask for, and what is known of its numbers.
ghost use Rattle.std.specs.Prelude.{◌≡◌, IfOk, IfErr, map};
ghost use Rattle.verb_command_line.specs.Meaning.{Means as WordsMean};
ghost use Rattle.verb_command_line.specs.CommandView.{seen};
ghost use Rattle.verb_run.specs.Requests.{RefusesWords};
ghost use Rattle.verb_run.specs.CommandNumbers.{IsAskable};

use std::marker::Model;
use verb_command_line::{Command, WordFault, read_words};

/// A command with numbers that its verb takes.
#[derive(Drop)]
pub(crate) struct Askable<'a> {
    command: Command<'a>,
}

impl<'a> Model for Askable<'a> {
    ghost use Rattle.verb_command_line.specs.declared.command.Command.{Command as Asks};
    ghost use Rattle.verb_run.specs.CommandNumbers.{IsAskable};

    ghost Value = { Asks };

    ghost view = { λ a. a.command };

    ghost invariant = { λ a. IsAskable a.command };
}

impl<'a> Askable<'a> {
    /// The command as one whose numbers its verb takes.
    pub(crate) fn new(command: Command<'a>) -> Askable<'a>
        requires { IsAskable command }
        ensures { result ≡ command.entry }
    {
        Askable { command }
    }

    /// The command.
    pub(crate) fn command(&self) -> &Command<'a>
        ensures same { result.now ≡ self.now }
        ensures askable { IsAskable result.now }
    {
        &self.command
    }
}

/// What the words ask for.
pub(crate) fn command_asked<'a>(words: &'a [&'a str]) -> Result<Command<'a>, WordFault>
    ensures found { IfOk result (λ c. WordsMean (map (λ w. w.now) words.now) (seen c)) }
    ensures askable { IfOk result IsAskable }
    ensures refused { IfErr result (RefusesWords (map (λ w. w.now) words.now)) }
{
    read_words(words)
}
