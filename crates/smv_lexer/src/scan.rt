//! The piece that begins at a place, and how long it is: `piece_at`.
//!
//! A comment is tried first; then the first byte decides between a blank, a word, a number and a sign. Nothing here takes
//! memory.
ghost use Rattle.std.specs.Prelude.{◌≡◌, None, Some, ◌≤◌, ◌<◌, ◌-◌, ◌^◌, [], length, nat_le, IfSome};
ghost use Rattle.smv_lexer.specs.Bytes.{is_word_start, is_word_byte, is_blank};
ghost use Rattle.smv_lexer.specs.Runs.{Runs, run_len, ends_word, takes_word, takes_digit, takes_line, number_from, block_len};
ghost use Rattle.smv_lexer.specs.Scan.{number_found, token_at, piece_at};

use crate::TokenKind;
use crate::sign::sign_at;

/// The largest number that is a token.
const MAX_NUMBER: u128 = i64::MAX as u128;

/// A piece of the text by its length: a token, or a blank, which has no kind.
#[derive(Clone, Copy, Debug, PartialEq, Eq)]
pub(crate) struct FoundPiece {
    pub(crate) kind: Option<TokenKind>,
    pub(crate) len: usize,
}

impl FoundPiece {
    /// A blank of so many bytes.
    fn blank(len: usize) -> FoundPiece
        ensures { result ≡ record { kind = None; len = len } }
    {
        FoundPiece { kind: None, len }
    }

    /// A token of so many bytes.
    fn token(kind: TokenKind, len: usize) -> FoundPiece
        ensures { result ≡ record { kind = Some kind; len = len } }
    {
        FoundPiece {
            kind: Some(kind),
            len,
        }
    }
}

/// Why no piece begins at a place.
#[derive(Clone, Copy, Debug, PartialEq, Eq)]
pub(crate) enum TokenStop {
    BadByte,
    OpenComment,
    NumberTooBig,
}

/// Whether a word may begin with the byte.
fn is_word_start(byte: u8) -> bool
    ensures { result ≡ is_word_start byte }
{
    byte.is_ascii_alphabetic() || byte == b'_'
}

/// Whether a word may go on with the byte; a `-` hangs on what is behind it (`takes_word`).
fn is_word_byte(byte: u8) -> bool
    ensures { result ≡ is_word_byte byte }
{
    is_word_start(byte) || byte.is_ascii_digit() || byte == b'$' || byte == b'#' || byte == b'-'
}

/// Whether the byte is a blank: no vertical tab is.
fn is_blank(byte: u8) -> bool
    ensures { result ≡ is_blank byte }
{
    byte == b' ' || byte == b'\t' || byte == b'\r' || byte == b'\x0c' || byte == b'\n'
}

/// Whether a `-` before these bytes ends a word, since it begins a comment or an arrow.
fn ends_word(bytes: &[u8]) -> bool
    ensures { result ≡ ends_word bytes.now }
{
    match bytes {
        [first, ..] => *first == b'-' || *first == b'>',
        [] => false,
    }
}

/// Whether a word goes on with the first byte.
fn takes_word(bytes: &[u8]) -> bool
    ensures { result ≡ takes_word bytes.now }
{
    match bytes {
        [first, after @ ..] => is_word_byte(*first) && !(*first == b'-' && ends_word(after)),
        [] => false,
    }
}

/// Whether a number goes on with the first byte.
fn takes_digit(bytes: &[u8]) -> bool
    ensures { result ≡ takes_digit bytes.now }
{
    match bytes {
        [first, ..] => first.is_ascii_digit(),
        [] => false,
    }
}

/// Whether a comment to the end of its line goes on with the first byte.
fn takes_line(bytes: &[u8]) -> bool
    ensures { result ≡ takes_line bytes.now }
{
    match bytes {
        [first, ..] => *first != b'\n',
        [] => false,
    }
}

/// How many bytes of a word there are, after its first.
#[tactic(auto, using(crate::proofs::RunLemmas::run_steps))]
fn word_len(bytes: &[u8]) -> usize
    ensures run { result ≡ run_len takes_word bytes.now }
    ensures bound { result ≤ length bytes.now }
{
    for i in 0..bytes.len() {
        if !takes_word(&bytes[i..]) {
            return i;
        }
    }
    bytes.len()
}

/// How many digits there are.
#[tactic(auto, using(crate::proofs::RunLemmas::run_steps))]
fn digits_len(bytes: &[u8]) -> usize
    ensures run { result ≡ run_len takes_digit bytes.now }
    ensures bound { result ≤ length bytes.now }
{
    for i in 0..bytes.len() {
        if !takes_digit(&bytes[i..]) {
            return i;
        }
    }
    bytes.len()
}

/// How many bytes there are up to the end of the line.
#[tactic(auto, using(crate::proofs::RunLemmas::run_steps))]
fn line_len(bytes: &[u8]) -> usize
    ensures run { result ≡ run_len takes_line bytes.now }
    ensures bound { result ≤ length bytes.now }
{
    for i in 0..bytes.len() {
        if !takes_line(&bytes[i..]) {
            return i;
        }
    }
    bytes.len()
}

/// How many bytes there are up to the end of the first `--/`.
#[tactic(auto, using(crate::proofs::RunLemmas::block_steps))]
fn block_len(bytes: &[u8]) -> Option<usize>
    ensures first { result ≡ block_len bytes.now }
    ensures bound { IfSome result (λ len. len ≤ length bytes.now) }
{
    for i in 0..bytes.len() {
        if bytes[i..].starts_with(b"--/") {
            return Some(i + 3);
        }
    }
    None
}

/// Whether the number that the digits stand for is small enough.
fn is_small(digits: &[u8]) -> bool
    requires { Runs takes_digit digits.now [] }
    ensures { result ≡ nat_le (number_from 0 digits.now) (2 ^ 63 - 1) }
{
    let mut value = 0;
    let mut rest = digits;
    while let [digit, after @ ..] = rest {
        value = value * 10 + u128::from(*digit - b'0');
        if value > MAX_NUMBER {
            return false;
        }
        rest = after;
    }
    true
}

/// The number at the front, which has so many digits.
fn number_at(bytes: &[u8]) -> Result<FoundPiece, TokenStop>
    ensures { result ≡ number_found bytes.now (run_len takes_digit bytes.now) }
{
    let len = digits_len(bytes);
    if is_small(&bytes[..len]) {
        Ok(FoundPiece::token(TokenKind::Number, len))
    } else {
        Err(TokenStop::NumberTooBig)
    }
}

/// The token or the blank byte at the front, where no comment begins.
fn token_at(bytes: &[u8]) -> Result<FoundPiece, TokenStop>
    ensures { result ≡ token_at bytes.now }
{
    let [first, after @ ..] = bytes else {
        return Err(TokenStop::BadByte);
    };
    if is_blank(*first) {
        Ok(FoundPiece::blank(1))
    } else if is_word_start(*first) {
        Ok(FoundPiece::token(TokenKind::Word, word_len(after) + 1))
    } else if first.is_ascii_digit() {
        number_at(bytes)
    } else {
        match sign_at(bytes) {
            Some(sign) => Ok(FoundPiece::token(sign.kind, sign.text.len())),
            None => Err(TokenStop::BadByte),
        }
    }
}

/// The piece at the front.
pub(crate) fn piece_at(bytes: &[u8]) -> Result<FoundPiece, TokenStop>
    ensures { result ≡ piece_at bytes.now }
{
    if bytes.starts_with(b"--") {
        return Ok(FoundPiece::blank(line_len(&bytes[2..]) + 2));
    }
    if bytes.starts_with(b"/--") {
        return match block_len(&bytes[3..]) {
            Some(len) => Ok(FoundPiece::blank(len + 3)),
            None => Err(TokenStop::OpenComment),
        };
    }
    token_at(bytes)
}
