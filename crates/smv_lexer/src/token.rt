//! Tokens (`Token`), their kinds and places, and why bytes have none (`LexFault`).
ghost use Rattle.std.specs.Prelude.{◌≡◌, ◌<◌, ◌↔◌, [], ◌∷◌, ◌++◌, length, IsTrue, OnOk, OnErr, IfOk, Some, slice_get};
ghost use Rattle.smv_lexer.specs.declared.token.LexFault.TheVariants as fault;

use crate::memory::OutOfMemory;
use std::alloc::Global;
use std::marker::Model;

/// What a token is: a word, a number or one of the signs.
#[derive(Clone, Copy, Debug, PartialEq, Eq)]
pub enum TokenKind {
    /// A letter or `_`, then letters, digits, `_`, `$`, `#` and `-`, but no `-` before a `-` or a `>`.
    Word,
    /// A run of digits, whose number is at most 9,223,372,036,854,775,807.
    Number,
    /// `:=`.
    Becomes,
    /// `..`.
    Dots,
    /// `!=`.
    NotEqual,
    /// `<=`.
    AtMost,
    /// `>=`.
    AtLeast,
    /// `<->`.
    Iff,
    /// `->`.
    Implies,
    /// `(`.
    Open,
    /// `)`.
    Close,
    /// `{`.
    OpenBrace,
    /// `}`.
    CloseBrace,
    /// `[`.
    OpenSquare,
    /// `]`.
    CloseSquare,
    /// `,`.
    Comma,
    /// `;`.
    Semicolon,
    /// `:`.
    Colon,
    /// `.`.
    Dot,
    /// `!`.
    Bang,
    /// `&`.
    And,
    /// `|`.
    Bar,
    /// `=`.
    Equal,
    /// `<`.
    Less,
    /// `>`.
    Greater,
    /// `+`.
    Plus,
    /// `-`.
    Minus,
    /// `*`.
    Star,
    /// `/`.
    Slash,
    /// `?`.
    Question,
}

/// A token of a text.
#[derive(Clone, Copy, Debug, PartialEq, Eq)]
pub struct Token {
    /// What it is.
    pub kind: TokenKind,
    /// The place of its first byte, in bytes from 0.
    pub start: u32,
    /// The place behind its last byte.
    pub end: u32,
}

/// Why bytes have no tokens, with the place, in bytes from 0, at which the pieces stop.
#[derive(Clone, Copy, Debug, PartialEq, Eq)]
pub enum LexFault {
    /// Neither a token nor a blank begins here.
    BadByte(u32),
    /// A `/--` stands here, and no `--/` after it.
    OpenComment(u32),
    /// A run of digits stands here whose number is above 9,223,372,036,854,775,807.
    NumberTooBig(u32),
    /// There was no memory.
    OutOfMemory,
}

impl From<OutOfMemory> for LexFault {
    ghost from_gives = { λ _ result. result ≡ fault.OutOfMemory };

    fn from(_: OutOfMemory) -> LexFault {
        LexFault::OutOfMemory
    }
}

/// A list of tokens over a vector, which contracts see as the list of its tokens.
#[derive(Drop)]
pub struct TokenList {
    tokens: Vec<Token>,
}

impl Model for TokenList {
    ghost use Rattle.std.specs.Prelude.{List};
    ghost use Rattle.smv_lexer.specs.declared.token.Token.{Token};

    ghost Value = { List Token };

    ghost view = { λ list. list.tokens.items };
}

impl TokenList {
    /// The empty list, which takes no memory and keeps the allocator.
    pub fn new(alloc: Global) -> TokenList
        ensures { result ≡ [] }
    {
        TokenList {
            tokens: Vec::new(alloc),
        }
    }

    /// The number of tokens.
    pub fn len(&self) -> usize
        ensures { result ≡ length self.now }
    {
        self.tokens.len()
    }

    /// Whether there is no token.
    pub fn is_empty(&self) -> bool
        ensures { IsTrue result ↔ (length self.now ≡ 0) }
    {
        self.tokens.is_empty()
    }

    /// The token at a place of the list, counted from 0.
    pub fn at(&self, i: usize) -> &Token
        requires { i < length self.now }
        ensures { slice_get self.now i ≡ Some result.now }
    {
        &self.tokens[i]
    }

    /// The tokens as a slice.
    pub fn as_slice(&self) -> &[Token]
        ensures { result.now ≡ self.now }
    {
        &self.tokens
    }

    /// Appends a token. Where there is no memory the list stays as it was.
    pub fn push(&mut self, token: Token) -> Result<(), OutOfMemory>
        ensures ok { OnOk result (self.new ≡ self.old ++ token ∷ []) }
        ensures err { OnErr result (self.new ≡ self.old) }
    {
        self.tokens.push(token)?;
        Ok(())
    }

    /// A list of its own with the same tokens.
    pub fn copy(&self) -> Result<TokenList, OutOfMemory>
        ensures { IfOk result (λ list. list ≡ self.now) }
    {
        let tokens = Vec::from_slice(*self.tokens.allocator(), &self.tokens)?;
        Ok(TokenList { tokens })
    }
}
