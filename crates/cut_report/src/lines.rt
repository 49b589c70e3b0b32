//! Lines cut into words: [`equation_words`] gives the two words of an equation. What is cut off is borrowed from the
//! text, and nothing is copied.
ghost use Rattle.std.specs.Prelude.{◌≡◌, ◌≢◌, ◌↔◌, ℕ, ◌∷◌, ◌++◌, List, codes, IsTrue, IfOk, MatchOption};
ghost use Rattle.cut_text_laws.specs.Lines.{IsLine};
ghost use Rattle.cut_text_laws.specs.TraceText.{moment_line};
ghost use Rattle.cut_text_laws.specs.TraceFaults.{IsEquation};
ghost use Rattle.cut_report.specs.Cuts.{IsNoEquation, IsSpaceless};

use base_values::{OutOfMemory, cut, length_before};
use std::alloc::Global;

/// The name and the value of a line that is a word, ` = ` and a word.
pub(crate) fn equation_words(line: &[u8]) -> Option<(&[u8], &[u8])>
    requires { IsLine line.now }
    ensures { MatchOption result (IsNoEquation line.now) (λ p. IsEquation p.0.now p.1.now line.now) }
{
    let (name, rest) = cut(line, b' ');
    match after_equals(rest) {
        Some(value) => {
            if are_words(name, value) {
                Some((name, value))
            } else {
                None
            }
        }
        None => None,
    }
}

/// What stands after ` = `.
fn after_equals(bytes: &[u8]) -> Option<&[u8]>
    ensures { MatchOption result ((value : List ℕ) → bytes.now ≢ 32 ∷ 61 ∷ 32 ∷ value) (λ value. bytes.now ≡ 32 ∷ 61 ∷ 32 ∷ value.now) }
{
    match bytes {
        [b' ', b'=', b' ', value @ ..] => Some(value),
        _ => None,
    }
}

/// Whether both are words.
fn are_words(name: &[u8], value: &[u8]) -> bool
    ensures { IsTrue result ↔ IsSpaceless name.now × IsSpaceless value.now }
{
    is_word(name) && is_word(value)
}

/// Whether there is a byte, and none is a space.
fn is_word(bytes: &[u8]) -> bool
    ensures { IsTrue result ↔ IsSpaceless bytes.now }
{
    0 < bytes.len() && length_before(bytes, b' ') == bytes.len()
}

/// Whether the line is that of the moment of this number.
pub(crate) fn is_moment_line(alloc: Global, line: &[u8], number: u64) -> Result<bool, OutOfMemory>
    ensures { IfOk result (λ is. IsTrue is ↔ (line.now ≡ moment_line number)) }
{
    match after_moment(line) {
        Some(digits) => {
            let wanted = format!(in alloc; "{number}")?;
            Ok(digits == wanted.as_bytes())
        }
        None => Ok(false),
    }
}

/// What stands after the word `moment` and a space.
fn after_moment(line: &[u8]) -> Option<&[u8]>
    ensures { MatchOption result ((digits : List ℕ) →
        line.now ≢ codes "moment " ++ digits) (λ digits. line.now ≡ codes "moment " ++ digits.now) }
{
    match line {
        [b'm', b'o', b'm', b'e', b'n', b't', b' ', digits @ ..] => Some(digits),
        _ => None,
    }
}
