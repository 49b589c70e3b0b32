//! A token with its text, as the grammar sees it: `TokenText`.
//!
//! Its role is what it is within an expression and its mark what it is outside, and it gives the name, the number or the
//! word that its text has. `token_texts` makes all of them from the tokens of a text.
ghost use Rattle.std.specs.Prelude.{◌≡◌, ◌<◌, ◌≤◌, ◌-◌, ◌^◌, All, IfOk, pos};
ghost use Rattle.smv_language.specs.Lexemes.{lexemes_of};
ghost use Rattle.smv_language.specs.Spells.{minus};
ghost use Rattle.smv_lexer.specs.Tokens.{number_of, StandsIn};
ghost use Rattle.smv_expression_reader.specs.Recogniser.{role_of};
ghost use Rattle.smv_expression_reader.specs.Marks.{mark_of, is_section};
ghost use Rattle.smv_expression_reader.specs.TreeBuilder.{name_in, number_in};
ghost use Rattle.smv_expression_reader.specs.Places.{lexeme_at, is_word, text_in};
ghost use Rattle.smv_expression_reader.specs.Stops.{is_left_out};

use crate::machine::TokenRole;
use crate::mark::Mark;
use crate::words::{begins_section, is_left_out, is_same, word_mark, word_role};
use base_values::{Name, OutOfMemory};
use smv_language::Op;
use smv_lexer::{Token, TokenKind, TokenList};
use std::alloc::Global;
use std::marker::Model;

/// The value of a number token.
#[derive(Clone, Copy, Debug, PartialEq, Eq)]
pub struct Digits {
    pub value: u64,
    ghost small: { value < 2 ^ 63 },
}

impl Digits {
    /// The number.
    pub fn plain(self) -> i64
        ensures { result ≡ pos self.value }
    {
        self.value as i64
    }

    /// The number below 0.
    pub fn negated(self) -> i64
        ensures { result ≡ minus self.value }
    {
        -(self.value as i64)
    }
}

/// A token with its text.
#[derive(Drop)]
pub struct TokenText<'a> {
    kind: TokenKind,
    text: &'a [u8],
}

impl<'a> Model for TokenText<'a> {
    ghost use Rattle.std.specs.Prelude.{◌≡◌, ◌≤◌, ◌-◌, ◌^◌};
    ghost use Rattle.smv_lexer.specs.Tokens.{number_of};
    ghost use Rattle.smv_lexer.specs.declared.token.TokenKind.TheVariants.{Number};
    ghost use Rattle.smv_language.specs.Lexemes.{Lexeme, lexeme_of};
    ghost use Rattle.smv_expression_reader.specs.Places.{text_in};

    ghost Value = { Lexeme };

    ghost view = { λ token. lexeme_of token.kind token.text.now };

    ghost invariant = { λ token. (token.kind ≡ Number → number_of token.text.now ≤ 2 ^ 63 - 1)
        × (text_in (lexeme_of token.kind token.text.now) ≡ token.text.now) };
}

/// The number of these digits.
#[tactic(auto, using(crate::proofs::Texts::number_more))]
fn value_of(text: &[u8]) -> u64
    requires { number_of text.now ≤ 2 ^ 63 - 1 }
    ensures { result ≡ number_of text.now }
{
    let mut value = 0;
    for digit in text {
        value = value * 10 + u64::from(digit.saturating_sub(48));
    }
    value
}

impl<'a> TokenText<'a> {
    /// What the token is in an expression.
    pub fn role(&self) -> TokenRole
        ensures { result ≡ role_of self.now }
    {
        match self.kind {
            TokenKind::Word => word_role(self.text),
            TokenKind::Number => TokenRole::Number,
            TokenKind::Minus => TokenRole::Minus,
            TokenKind::Bang => TokenRole::Bang,
            TokenKind::Star => TokenRole::Joins(Op::Times),
            TokenKind::Slash => TokenRole::Joins(Op::Over),
            TokenKind::Plus => TokenRole::Joins(Op::Plus),
            TokenKind::Equal => TokenRole::Joins(Op::Equal),
            TokenKind::NotEqual => TokenRole::Joins(Op::Differs),
            TokenKind::Less => TokenRole::Joins(Op::Less),
            TokenKind::Greater => TokenRole::Joins(Op::Greater),
            TokenKind::AtMost => TokenRole::Joins(Op::AtMost),
            TokenKind::AtLeast => TokenRole::Joins(Op::AtLeast),
            TokenKind::And => TokenRole::Joins(Op::And),
            TokenKind::Bar => TokenRole::Joins(Op::Or),
            TokenKind::Iff => TokenRole::Joins(Op::Iff),
            TokenKind::Implies => TokenRole::Joins(Op::Implies),
            TokenKind::Question => TokenRole::Asks,
            TokenKind::Colon => TokenRole::Colon,
            TokenKind::Semicolon => TokenRole::Semicolon,
            TokenKind::Comma => TokenRole::Comma,
            TokenKind::Dot => TokenRole::Dot,
            TokenKind::Dots => TokenRole::Dots,
            TokenKind::Open => TokenRole::Opens,
            TokenKind::Close => TokenRole::Closes,
            TokenKind::OpenBrace => TokenRole::OpensSet,
            TokenKind::CloseBrace => TokenRole::ClosesSet,
            TokenKind::Becomes | TokenKind::OpenSquare | TokenKind::CloseSquare =>
                TokenRole::Nothing,
        }
    }

    /// What the token is outside expressions.
    pub fn mark(&self) -> Mark
        ensures { result ≡ mark_of self.now }
    {
        match self.kind {
            TokenKind::Word => word_mark(self.text),
            TokenKind::Number => Mark::Number,
            TokenKind::Becomes => Mark::Becomes,
            TokenKind::Dots => Mark::Dots,
            TokenKind::Open => Mark::Open,
            TokenKind::Close => Mark::Close,
            TokenKind::OpenBrace => Mark::OpenBrace,
            TokenKind::CloseBrace => Mark::CloseBrace,
            TokenKind::Comma => Mark::Comma,
            TokenKind::Semicolon => Mark::Semicolon,
            TokenKind::Colon => Mark::Colon,
            TokenKind::Dot => Mark::Dot,
            TokenKind::Minus => Mark::Minus,
            _ => Mark::Nothing,
        }
    }

    /// Whether the token begins a module or a section.
    pub fn is_section(&self) -> bool
        ensures { result ≡ is_section self.now }
    {
        match self.kind {
            TokenKind::Word => begins_section(self.text),
            _ => false,
        }
    }

    /// Whether the token is a word of what is left out.
    pub fn is_left_out(&self) -> bool
        ensures { result ≡ is_left_out self.now }
    {
        match self.kind {
            TokenKind::Word => is_left_out(self.text),
            _ => false,
        }
    }

    /// Whether the token is this word.
    pub fn is_word(&self, word: &[u8]) -> bool
        ensures { result ≡ is_word self.now word.now }
    {
        match self.kind {
            TokenKind::Word => is_same(self.text, word),
            _ => false,
        }
    }

    /// The token's text.
    pub fn text(&self) -> &[u8]
        ensures { result.now ≡ text_in self.now }
    {
        self.text
    }

    /// A word's text as a name, and the empty one of another token.
    pub fn name(&self, alloc: Global) -> Result<Name, OutOfMemory>
        ensures { IfOk result (λ name. name ≡ name_in self.now) }
    {
        match self.kind {
            TokenKind::Word => Name::new(alloc, self.text),
            _ => Name::new(alloc, &[]),
        }
    }

    /// A number's value, and 0 of another token.
    pub fn digits(&self) -> Digits
        ensures { result.value ≡ number_in self.now }
    {
        match self.kind {
            TokenKind::Number => Digits {
                value: value_of(self.text),
            },
            _ => Digits { value: 0 },
        }
    }
}

/// A token lies within the bytes, and the value of a number is below 2 ^ 63.
fn token_text<'a>(bytes: &'a [u8], token: &Token) -> TokenText<'a>
    requires { StandsIn bytes.now token.now }
    ensures { result ≡ lexeme_at bytes.now token.now }
{
    TokenText {
        kind: token.kind,
        text: &bytes[token.start as usize..token.end as usize],
    }
}

/// The tokens of a split of the bytes, with their texts.
pub fn token_texts<'a>(
    alloc: Global,
    bytes: &'a [u8],
    tokens: &TokenList,
) -> Result<Vec<TokenText<'a>>, OutOfMemory>
    requires { All (StandsIn bytes.now) tokens.now }
    ensures { IfOk result (λ texts. texts.items ≡ lexemes_of bytes.now tokens.now) }
{
    let mut texts = Vec::new(alloc);
    for token in tokens.as_slice() {
        texts.push(token_text(bytes, token))?;
    }
    Ok(texts)
}
