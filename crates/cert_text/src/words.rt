//! Lines cut into words: [`after_word`] and [`next_word`] cut a word off a line at its space.
ghost use Rattle.std.specs.Prelude.{◌≡◌, [], MatchOption};
ghost use Rattle.cert_text.specs.LineWords.{IsWordThen, LacksWord, IsAfterWord};

use base_values::cut;

/// What stands after the first word, where that is this one: nothing, or a space and more words.
pub(crate) fn after_word<'a>(line: &'a [u8], name: &[u8]) -> Option<&'a [u8]>
    ensures { MatchOption result (LacksWord line.now name.now) (λ rest. IsAfterWord line.now name.now rest.now) }
{
    let (word, rest) = cut(line, b' ');
    if word == name { Some(rest) } else { None }
}

/// The first word in what stands after a word, and what stands after it.
pub(crate) fn next_word(words: &[u8]) -> Option<(&[u8], &[u8])>
    ensures { MatchOption result (words.now ≡ []) (λ p. IsWordThen words.now p.0.now p.1.now) }
{
    match words {
        [_, bytes @ ..] => Some(cut(bytes, b' ')),
        [] => None,
    }
}
