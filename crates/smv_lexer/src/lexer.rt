//! The split of a text, piece by piece: `tokens` is the crate's one call.
//!
//! Each round takes the piece that begins where the last one ended, keeps it where it is a token, and stops at the first
//! place where no piece begins. Of the pieces themselves `scan` knows.
ghost use Rattle.std.specs.Prelude.{◌≡◌, ◌⊎◌, ◌<◌, ◌+◌, ◌^◌, ◌++◌, List, length, All, OnOk, IfOk, IfErr};
ghost use Rattle.smv_lexer.specs.declared.token.Token.{Token};
ghost use Rattle.smv_lexer.specs.declared.token.LexFault.{LexFault};
ghost use Rattle.smv_lexer.specs.Tokens.{token_of, HasTokens, StandsIn};
ghost use Rattle.smv_lexer.specs.Faults.{HasNoSplit, IsFaultOf, fault_at};

use crate::scan::{FoundPiece, TokenStop, piece_at};
use crate::{LexFault, OutOfMemory, Token, TokenList};
use std::alloc::Global;

impl TokenStop {
    /// The fault of this stop at a place.
    fn at(self, place: u32) -> LexFault
        ensures { result ≡ fault_at self place }
    {
        match self {
            TokenStop::BadByte => LexFault::BadByte(place),
            TokenStop::OpenComment => LexFault::OpenComment(place),
            TokenStop::NumberTooBig => LexFault::NumberTooBig(place),
        }
    }
}

/// Appends the token of a piece, and nothing for a blank.
fn push_found(tokens: &mut TokenList, start: u32, found: FoundPiece) -> Result<(), OutOfMemory>
    requires { start + found.len < 2 ^ 32 }
    ensures ok { OnOk result (tokens.new ≡ tokens.old ++ token_of start found.kind found.len) }
{
    match found.kind {
        Some(kind) => tokens.push(Token {
            kind,
            start,
            end: start + found.len as u32,
        }),
        None => Ok(()),
    }
}

/// The tokens of the one split of the bytes, in their order, with their places. `BadByte`,
/// `OpenComment` and `NumberTooBig` come exactly where the bytes have no split, with the place up to
/// which pieces reach: the smallest at which none begins. It takes time in proportion to the bytes.
///
/// Signs, words, numbers and comments are those of the lexical part of the NuSMV 2.6 manual, chapter
/// "Input Language"; that a word takes no `-` before a `-` or a `>` is this project's own rule.
pub fn tokens(alloc: Global, bytes: &[u8]) -> Result<TokenList, LexFault>
    requires { length bytes.now < 2 ^ 32 }
    ensures split { IfOk result (λ tokens. HasTokens bytes.now tokens) }
    // The bytes at each token's place are a token of its kind; a number's are at most 2 ^ 63 - 1.
    ensures stand { IfOk result (λ tokens. All (StandsIn bytes.now) tokens) }
    // No other split has other tokens.
    ensures only { IfOk result (λ tokens. (others : List Token) → HasTokens bytes.now others → others ≡ tokens) }
    // Unless memory ran out there is no split then, the fault says where the pieces stop and why, and the bytes have no other.
    ensures none { IfErr result (λ fault. (fault ≡ LexFault.OutOfMemory) ⊎ HasNoSplit bytes.now) }
    ensures fault { IfErr result (λ fault. (fault ≡ LexFault.OutOfMemory) ⊎ IsFaultOf bytes.now fault) }
    ensures smallest { IfErr result (λ fault. (fault ≡ LexFault.OutOfMemory)
        ⊎ ((other : LexFault) → IsFaultOf bytes.now other → other ≡ fault)) }
{
    let mut tokens = TokenList::new(alloc);
    let mut rest = bytes;
    while !rest.is_empty() {
        let start = (bytes.len() - rest.len()) as u32;
        let found = match piece_at(rest) {
            Ok(found) => found,
            Err(stop) => return Err(stop.at(start)),
        };
        let (_, after) = rest.split_at(found.len);
        push_found(&mut tokens, start, found)?;
        rest = after;
    }
    Ok(tokens)
}
