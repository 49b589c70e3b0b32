//! The options of verbs, and what their values may be.
ghost use Rattle.std.specs.Prelude.{◌≡◌};
ghost use Rattle.verb_command_line.specs.WordReading.{fits, is_claim as is_claim_text, is_file_kind};

use crate::number::read_number;
use crate::set::is_set;

/// What the value of an option is.
#[derive(Clone, Copy, Debug, PartialEq, Eq)]
pub enum OptionKind {
    /// The name of a file.
    File,
    /// The text of a top event.
    Event,
    /// A number of 1 to 10 digits within these limits.
    Number { least: u32, most: u32 },
    /// At least two rising numbers from 1 to `MOST_FAULTS` with one space between.
    Set,
    /// What is claimed of two faults: `before`, `after`, `together` or `none`.
    Claim,
}

impl OptionKind {
    /// Whether the word may be the value.
    pub(crate) fn takes(self, word: &str) -> bool
        ensures { result ≡ fits self word.now }
    {
        match self {
            OptionKind::File | OptionKind::Event => true,
            OptionKind::Number { least, most } => match read_number(word) {
                Some(number) => u64::from(least) <= number && number <= u64::from(most),
                None => false,
            },
            OptionKind::Set => is_set(word),
            OptionKind::Claim => is_claim(word),
        }
    }

    /// Whether the value is the name of a file.
    pub(crate) fn is_file(self) -> bool
        ensures { result ≡ is_file_kind self }
    {
        self == OptionKind::File
    }
}

/// Whether the word is a claim.
fn is_claim(word: &str) -> bool
    ensures { result ≡ is_claim_text word.now }
{
    match word {
        "before" | "after" | "together" | "none" => true,
        _ => false,
    }
}

/// An option of a verb: its name, what its value is, and whether it may not be left out.
#[derive(Clone, Copy)]
pub struct Choice {
    pub name: &'static str,
    pub kind: OptionKind,
    pub required: bool,
}
