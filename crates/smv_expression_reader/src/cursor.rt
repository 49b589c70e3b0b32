//! What is left of the tokens of a text, for the second pass of each reader.
//!
//! Contracts say what a call reads by the functions on lexemes of `specs/SecondPass.antt`: a part and what is behind it,
//! that an expression is too deep, or that no part stands there.
ghost use Rattle.std.specs.Prelude.{◌≡◌, Err, IfOk, length, drop, if◌then◌else◌};
ghost use Rattle.smv_language.specs.ExpressionTree.{tree_of};
ghost use Rattle.smv_expression_reader.specs.declared.fault.BuildFault.TheVariants as stop;
ghost use Rattle.smv_expression_reader.specs.SecondPass.{got, deep, none, mark_at, rest_of, has_next, expect_at, has_word, word_at, end_at};
ghost use Rattle.smv_expression_reader.specs.SecondPass.{name_at, number_at, int_at, text_at, expr_at, goes_on, is_past};

use crate::extent::reach;
use crate::fault::BuildFault;
use crate::mark::{Mark, is_same};
use crate::token::{Digits, TokenText};
use crate::tree::tree;
use base_values::{Dotted, Name};
use smv_language::Expr;
use std::alloc::Global;
use std::marker::Model;

/// What is left of the tokens, which contracts see as a list.
#[derive(Drop)]
pub struct Cursor<'t, 'a> {
    rest: &'t [TokenText<'a>],
}

impl<'t, 'a> Model for Cursor<'t, 'a> {
    ghost use Rattle.std.specs.Prelude.{List};
    ghost use Rattle.smv_language.specs.Lexemes.{Lexeme};

    ghost Value = { List Lexeme };

    ghost view = { λ cursor. cursor.rest.now };
}

impl<'t, 'a> Cursor<'t, 'a> {
    /// All of a text's tokens, before any is read.
    pub fn new(rest: &'t [TokenText<'a>]) -> Cursor<'t, 'a>
        ensures { result ≡ rest.now }
    {
        Cursor { rest }
    }

    /// What the next token is, and nothing at the end.
    pub fn mark(&self) -> Mark
        ensures { result ≡ mark_at self.now }
    {
        match self.rest {
            [token, ..] => token.mark(),
            [] => Mark::Nothing,
        }
    }

    /// The number of tokens that are left.
    pub fn len(&self) -> usize
        ensures { result ≡ length self.now }
    {
        self.rest.len()
    }

    /// Whether the next token begins a module or a section, or there is none.
    pub fn ends_skip(&self) -> bool
        ensures { result ≡ is_past self.now }
    {
        match self.rest {
            [token, ..] => token.is_section(),
            [] => true,
        }
    }

    /// Passes over the next token, if there is one.
    pub fn skip(&mut self)
        ensures { self.new ≡ rest_of self.old }
    {
        if let [_, rest @ ..] = self.rest {
            self.rest = rest;
        }
    }

    /// Whether a semicolon stands next, and another token behind it.
    pub fn goes_on(&self) -> bool
        ensures { result ≡ goes_on self.now }
    {
        match self.rest {
            [token, rest @ ..] => is_same(Mark::Semicolon, token.mark()) && rest.len() > 0,
            [] => false,
        }
    }

    /// Whether the next token has this mark.
    pub fn is_next(&self, mark: Mark) -> bool
        ensures { result ≡ has_next mark self.now }
    {
        is_same(mark, self.mark())
    }

    /// Whether the next token is this word.
    pub fn is_word(&self, word: &[u8]) -> bool
        ensures { result ≡ has_word word.now self.now }
    {
        match self.rest {
            [token, ..] => token.is_word(word),
            [] => false,
        }
    }

    /// Passes over the next token where it has this mark.
    pub fn take(&mut self, mark: Mark) -> bool
        ensures taken { result ≡ has_next mark self.old }
        ensures rest { self.new ≡ (if has_next mark self.old then rest_of self.old else self.old) }
    {
        if self.is_next(mark) {
            self.skip();
            true
        } else {
            false
        }
    }

    /// Passes over the next token, which has this mark.
    pub fn expect(&mut self, mark: Mark) -> Result<(), BuildFault>
        ensures ok { IfOk result (λ _. expect_at mark self.old ≡ got tt self.new) }
        ensures deep { result ≡ Err stop.TooDeep → expect_at mark self.old ≡ deep }
        ensures none { result ≡ Err stop.NoTree → expect_at mark self.old ≡ none }
    {
        if self.take(mark) {
            Ok(())
        } else {
            Err(BuildFault::NoTree)
        }
    }

    /// Passes over the next token, which is this word.
    pub fn expect_word(&mut self, word: &[u8]) -> Result<(), BuildFault>
        ensures ok { IfOk result (λ _. word_at word.now self.old ≡ got tt self.new) }
        ensures deep { result ≡ Err stop.TooDeep → word_at word.now self.old ≡ deep }
        ensures none { result ≡ Err stop.NoTree → word_at word.now self.old ≡ none }
    {
        if self.is_word(word) {
            self.skip();
            Ok(())
        } else {
            Err(BuildFault::NoTree)
        }
    }

    /// No token is left.
    pub fn expect_end(&mut self) -> Result<(), BuildFault>
        ensures ok { IfOk result (λ _. end_at self.old ≡ got tt self.new) }
        ensures deep { result ≡ Err stop.TooDeep → end_at self.old ≡ deep }
        ensures none { result ≡ Err stop.NoTree → end_at self.old ≡ none }
    {
        match self.rest {
            [_, ..] => Err(BuildFault::NoTree),
            [] => Ok(()),
        }
    }

    /// The next token, which is a name.
    pub fn name(&mut self, alloc: Global) -> Result<Name, BuildFault>
        ensures ok { IfOk result (λ name. name_at self.old ≡ got name self.new) }
        ensures deep { result ≡ Err stop.TooDeep → name_at self.old ≡ deep }
        ensures none { result ≡ Err stop.NoTree → name_at self.old ≡ none }
    {
        match self.rest {
            [token, rest @ ..] => match token.mark() {
                Mark::Name => {
                    let name = token.name(alloc)?;
                    self.rest = rest;
                    Ok(name)
                }
                _ => Err(BuildFault::NoTree),
            },
            [] => Err(BuildFault::NoTree),
        }
    }

    /// The next token, which is a number.
    fn digits(&mut self) -> Result<Digits, BuildFault>
        ensures ok { IfOk result (λ digits. number_at self.old ≡ got digits.value self.new) }
        ensures deep { result ≡ Err stop.TooDeep → number_at self.old ≡ deep }
        ensures none { result ≡ Err stop.NoTree → number_at self.old ≡ none }
    {
        match self.rest {
            [token, rest @ ..] => match token.mark() {
                Mark::Number => {
                    let digits = token.digits();
                    self.rest = rest;
                    Ok(digits)
                }
                _ => Err(BuildFault::NoTree),
            },
            [] => Err(BuildFault::NoTree),
        }
    }

    /// The number that stands next, with its sign.
    pub fn read_number(&mut self) -> Result<i64, BuildFault>
        ensures ok { IfOk result (λ n. int_at self.old ≡ got n self.new) }
        ensures deep { result ≡ Err stop.TooDeep → int_at self.old ≡ deep }
        ensures none { result ≡ Err stop.NoTree → int_at self.old ≡ none }
    {
        if self.is_next(Mark::Minus) {
            self.skip();
            Ok(self.digits()?.negated())
        } else {
            Ok(self.digits()?.plain())
        }
    }

    /// The text of the next token.
    pub fn text(&mut self, alloc: Global) -> Result<Name, BuildFault>
        ensures ok { IfOk result (λ text. text_at self.old ≡ got text self.new) }
        ensures deep { result ≡ Err stop.TooDeep → text_at self.old ≡ deep }
        ensures none { result ≡ Err stop.NoTree → text_at self.old ≡ none }
    {
        match self.rest {
            [token, rest @ ..] => {
                let text = Name::new(alloc, token.text())?;
                self.rest = rest;
                Ok(text)
            }
            [] => Err(BuildFault::NoTree),
        }
    }

    /// Passes over so many tokens.
    #[tactic(auto, using(crate::proofs::ReadLaws::rest_drop))]
    fn skip_all(&mut self, count: usize)
        ensures { self.new ≡ drop count self.old }
    {
        for i in 0..count {
            self.skip();
        }
    }

    /// The longest expression that stands next.
    #[tactic(auto, using(crate::proofs::ReadLaws::expr_rules))]
    pub fn expression(&mut self, alloc: Global) -> Result<Expr<Dotted>, BuildFault>
        ensures ok { IfOk result (λ e. expr_at self.old ≡ got (tree_of e) self.new) }
        ensures deep { result ≡ Err stop.TooDeep → expr_at self.old ≡ deep }
        ensures none { result ≡ Err stop.NoTree → expr_at self.old ≡ none }
    {
        let extent = reach(alloc, self.rest)?;
        if !extent.whole {
            return Err(BuildFault::NoTree);
        }
        if extent.deep {
            return Err(BuildFault::TooDeep);
        }
        let (front, _) = self.rest.split_at(extent.len);
        match tree(alloc, front) {
            Ok(made) => {
                self.skip_all(extent.len);
                Ok(made)
            }
            Err(BuildFault::TooDeep) => Err(BuildFault::TooDeep),
            Err(BuildFault::NoTree) => Err(BuildFault::NoTree),
            Err(BuildFault::OutOfMemory) => Err(BuildFault::OutOfMemory),
        }
    }
}
