//! The rules that words may break.
ghost use Rattle.std.specs.Prelude.{◌≡◌};
ghost use Rattle.verb_command_line.specs.CommandView.{rule_of, place_of};

use thiserror::Error;

/// The first rule that words break, with the place of the word that breaks it. Places of words count from 1,
/// and that of a missing option is its place among the verb's options, from 1.
#[derive(Clone, Copy, Debug, PartialEq, Eq, Error)]
pub enum WordFault {
    /// There are no words; the place is 0.
    #[error("there is no verb")]
    NoVerb { at: u32 },
    /// The first word is no verb.
    #[error("word {at} is no verb")]
    UnknownVerb { at: u32 },
    /// A word in the place of an option is none of the verb's.
    #[error("word {at} is no option of the verb")]
    UnknownOption { at: u32 },
    /// An option came before.
    #[error("the option at word {at} came before")]
    Twice { at: u32 },
    /// An option that the verb needs is not there.
    #[error("option {at} of the verb is missing")]
    Missing { at: u32 },
    /// No word follows an option.
    #[error("the option at word {at} has no value")]
    NoValue { at: u32 },
    /// A value is no number of 1 to 10 digits, or lies outside its limits.
    #[error("word {at} is no number in its limits")]
    BadNumber { at: u32 },
    /// A file has the name of an earlier one.
    #[error("word {at} names the file of an earlier option")]
    SameName { at: u32 },
    /// One of the two faults of a set is not in it, or both are one.
    #[error("word {at} is no other fault of the set")]
    NotInSet { at: u32 },
}

impl WordFault {
    /// The number of the rule, from 1 to 9.
    pub fn rule_number(&self) -> u32
        ensures { result ≡ rule_of self.now }
    {
        match self {
            WordFault::NoVerb { .. } => 1,
            WordFault::UnknownVerb { .. } => 2,
            WordFault::UnknownOption { .. } => 3,
            WordFault::Twice { .. } => 4,
            WordFault::Missing { .. } => 5,
            WordFault::NoValue { .. } => 6,
            WordFault::BadNumber { .. } => 7,
            WordFault::SameName { .. } => 8,
            WordFault::NotInSet { .. } => 9,
        }
    }

    /// The place of the word that breaks it.
    pub fn place(&self) -> u32
        ensures { result ≡ place_of self.now }
    {
        match self {
            WordFault::NoVerb { at }
            | WordFault::UnknownVerb { at }
            | WordFault::UnknownOption { at }
            | WordFault::Twice { at }
            | WordFault::Missing { at }
            | WordFault::NoValue { at }
            | WordFault::BadNumber { at }
            | WordFault::SameName { at }
            | WordFault::NotInSet { at } => *at,
        }
    }
}
