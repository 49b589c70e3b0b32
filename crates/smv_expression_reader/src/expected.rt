//! How far a text can be read, for any grammar in which one token decides: a stack of what is still expected.
//!
//! Between expressions one token decides what comes. So the stack holds the symbols that may still come, and an
//! expression that has begun is kept beside it, in whatever state its own recogniser is. A reader has an enum of
//! symbols, and says by [`GrammarSymbol`] what comes of each with a token. [`read_through`] is then its first pass.
ghost use Rattle.std.specs.Prelude.{◌≡◌, ◌∷◌, ◌++◌, [], List, Some, None, false, map, OnOk, IfOk, IfSome};
ghost use Rattle.smv_expression_reader.specs.Recogniser as machine;
ghost use Rattle.smv_expression_reader.specs.Recogniser.{role_of};
ghost use Rattle.smv_expression_reader.specs.Views.{state_with};
ghost use Rattle.smv_expression_reader.specs.PredictiveReader.{step as one_step, all_empty};
ghost use Rattle.smv_expression_reader.specs.Readings.{stepped, ReadsTo};
ghost use Rattle.smv_expression_reader.specs.Expected.{live, position_view, after_view, Taken, Fits};

use crate::frames::OpenFrames;
use crate::machine::{Mode, is_stuck, is_whole, step};
use crate::reading::ReadExtent;
use crate::token::TokenText;
use base_values::OutOfMemory;
use std::alloc::Global;
use std::marker::Model;

/// What comes of a symbol with a token.
pub enum Taking<'a, S> {
    /// It does not go on with the token.
    Nothing,
    /// These are expected behind the token.
    Then(&'a [S]),
    /// These are expected behind the expression that the token begins, if it begins one.
    Begins(&'a [S]),
}

/// A symbol of a grammar in which one token decides what is still expected.
pub trait GrammarSymbol: Copy + Drop + 'static {
    ghost use Rattle.std.specs.Prelude.{◌≡◌, false};
    ghost use Rattle.smv_expression_reader.specs.PredictiveReader.{Grammar};
    ghost use Rattle.smv_expression_reader.specs.Recogniser.{State, is_stuck};
    ghost use Rattle.smv_expression_reader.specs.Expected.{taking_view, HasFormulas};

    /// The symbols of the grammar, in which an expression may have begun.
    ghost Sym: { Type 0 };

    /// The grammar.
    ghost grammar: { Grammar Sym };

    /// What is left of an expression that has come to a state.
    ghost formula: { (st : State) → is_stuck st ≡ false → Sym };

    /// Which symbol of the grammar it is.
    ghost view: { Self → Sym };

    /// Whether it may be nothing.
    fn may_be_empty(self) -> bool
        ensures { result ≡ grammar.empty (view self) };

    /// What comes of it with a token.
    fn after(self, token: &TokenText) -> Taking<'static, Self>
        ensures { taking_view formula view result token.now ≡ grammar.next (view self) token.now };

    /// That expressions are read by their own recogniser.
    ghost formulas: { HasFormulas grammar formula };
}

/// All that is still expected, which contracts see as a list with what comes first at its head.
#[derive(Drop)]
struct ExpectedSymbols<S> {
    symbols: Vec<S>,
}

impl<S> Model for ExpectedSymbols<S> {
    ghost use Rattle.std.specs.Prelude.{List};
    ghost use mathlib.Core.List.{reverse};

    ghost Value = { List S };

    ghost view = { λ stack. reverse stack.symbols.items };
}

impl<S: Copy> ExpectedSymbols<S> {
    /// Nothing is expected.
    fn new(alloc: Global) -> ExpectedSymbols<S>
        ensures { result ≡ [] }
    {
        ExpectedSymbols {
            symbols: Vec::new(alloc),
        }
    }

    /// Expects a symbol before all others.
    #[tactic(auto, using(crate::proofs::ExpectedLaws::pushed))]
    fn push(&mut self, symbol: S) -> Result<(), OutOfMemory>
        ensures { OnOk result (self.new ≡ symbol ∷ self.old) }
    {
        self.symbols.push(symbol)?;
        Ok(())
    }

    /// The symbol that comes first, which is no longer expected.
    #[tactic(auto, using(crate::proofs::ExpectedLaws::pushed))]
    fn pop(&mut self) -> Option<S>
        ensures some { IfSome result (λ symbol. self.old ≡ symbol ∷ self.new) }
        ensures none { result ≡ None → (self.old ≡ []) × (self.new ≡ []) }
    {
        match self.symbols.pop() {
            Some(symbol) => Some(symbol),
            None => None,
        }
    }

    /// Expects these before all others, the first of them first.
    fn expect(&mut self, symbols: &[S]) -> Result<(), OutOfMemory>
        ensures { OnOk result (self.new ≡ symbols.now ++ self.old) }
    {
        let mut left = symbols.len();
        while left > 0 {
            left -= 1;
            self.push(symbols[left])?;
        }
        Ok(())
    }
}

/// Where a text is read.
#[derive(Clone, Copy, Debug, PartialEq, Eq)]
pub(crate) enum Position {
    /// Between expressions.
    Between,
    /// In an expression, before what the symbols expect.
    Inside(Mode),
}

/// The first token of an expression, before these symbols.
fn begin_formula<S: GrammarSymbol>(
    frames: &mut OpenFrames,
    symbols: &mut ExpectedSymbols<S>,
    behind: &[S],
    token: &TokenText,
) -> Result<Option<Position>, OutOfMemory>
    requires { frames.old ≡ [] }
    ensures next { IfOk result (λ position. Taken S.grammar S.formula S.view position
        (live S.formula (machine.step machine.start (role_of token.now)) (map S.view behind.now)) symbols.old frames.new symbols.new) }
    ensures fits { IfOk result (λ position. IfSome position (λ p. Fits p frames.new)) }
{
    let mode = step(Mode::Wants, frames, token.role())?;
    if is_stuck(mode) {
        frames.clear();
        Ok(None)
    } else {
        symbols.expect(behind)?;
        Ok(Some(Position::Inside(mode)))
    }
}

/// What comes of a symbol with a token, and nothing where it does not go on with it.
fn take<S: GrammarSymbol>(
    frames: &mut OpenFrames,
    symbols: &mut ExpectedSymbols<S>,
    symbol: S,
    token: &TokenText,
) -> Result<Option<Position>, OutOfMemory>
    requires { frames.old ≡ [] }
    ensures next { IfOk result (λ position. Taken S.grammar S.formula S.view position
        (S.grammar.next (S.view symbol) token.now) symbols.old frames.new symbols.new) }
    ensures fits { IfOk result (λ position. IfSome position (λ p. Fits p frames.new)) }
{
    match symbol.after(token) {
        Taking::Nothing => Ok(None),
        Taking::Then(behind) => {
            symbols.expect(behind)?;
            Ok(Some(Position::Between))
        }
        Taking::Begins(behind) => begin_formula(frames, symbols, behind, token),
    }
}

/// One more token between expressions, and nothing where no text goes on with it.
fn symbols_step<S: GrammarSymbol>(
    frames: &mut OpenFrames,
    symbols: &mut ExpectedSymbols<S>,
    token: &TokenText,
) -> Result<Option<Position>, OutOfMemory>
    requires { frames.old ≡ [] }
    ensures next { IfOk result (λ position. after_view S.formula S.view position frames.new symbols.new
        ≡ one_step S.Sym S.grammar (map S.view symbols.old) token.now) }
    ensures fits { IfOk result (λ position. IfSome position (λ p. Fits p frames.new)) }
{
    while let Some(symbol) = symbols.pop() {
        match take(frames, symbols, symbol, token)? {
            Some(position) => return Ok(Some(position)),
            None => {
                if !symbol.may_be_empty() {
                    return Ok(None);
                }
            }
        }
    }
    Ok(None)
}

/// One more token in an expression, or behind it.
fn inside_step<S: GrammarSymbol>(
    mode: Mode,
    frames: &mut OpenFrames,
    symbols: &mut ExpectedSymbols<S>,
    token: &TokenText,
) -> Result<Option<Position>, OutOfMemory>
    requires { machine.is_stuck (state_with mode frames.old) ≡ false }
    ensures next { IfOk result (λ position. after_view S.formula S.view position frames.new symbols.new
        ≡ stepped S.Sym S.grammar (live S.formula (state_with mode frames.old) (map S.view symbols.old)) token.now) }
    ensures fits { IfOk result (λ position. IfSome position (λ p. Fits p frames.new)) }
{
    let whole = is_whole(mode, frames);
    let next = step(mode, frames, token.role())?;
    if !is_stuck(next) {
        Ok(Some(Position::Inside(next)))
    } else if whole {
        frames.clear();
        symbols_step(frames, symbols, token)
    } else {
        Ok(None)
    }
}

/// One more token, and nothing where no text goes on with it.
fn position_step<S: GrammarSymbol>(
    position: Position,
    frames: &mut OpenFrames,
    symbols: &mut ExpectedSymbols<S>,
    token: &TokenText,
) -> Result<Option<Position>, OutOfMemory>
    requires { Fits position frames.old }
    ensures next { IfOk result (λ new. after_view S.formula S.view new frames.new symbols.new
        ≡ stepped S.Sym S.grammar (position_view S.formula S.view position frames.old symbols.old) token.now) }
    ensures fits { IfOk result (λ new. IfSome new (λ p. Fits p frames.new)) }
{
    match position {
        Position::Between => symbols_step(frames, symbols, token),
        Position::Inside(mode) => inside_step(mode, frames, symbols, token),
    }
}

/// Whether all that is expected may be nothing. Nothing is expected any more after it.
fn may_all_be_empty<S: GrammarSymbol>(symbols: &mut ExpectedSymbols<S>) -> bool
    ensures { result ≡ all_empty S.Sym S.grammar (map S.view symbols.old) }
{
    while let Some(symbol) = symbols.pop() {
        if !symbol.may_be_empty() {
            return false;
        }
    }
    true
}

/// Whether the text may end here.
fn may_end<S: GrammarSymbol>(
    position: Position,
    frames: &OpenFrames,
    symbols: &mut ExpectedSymbols<S>,
) -> bool
    ensures { (s : List S.Sym) → position_view S.formula S.view position frames.now symbols.old ≡ Some s →
        result ≡ all_empty S.Sym S.grammar s }
{
    match position {
        Position::Between => may_all_be_empty(symbols),
        Position::Inside(mode) => is_whole(mode, frames) && may_all_be_empty(symbols),
    }
}

/// How far the tokens can be read as what this symbol stands for.
pub fn read_through<S: GrammarSymbol>(
    alloc: Global,
    start: S,
    tokens: &[TokenText],
) -> Result<ReadExtent, OutOfMemory>
    ensures { IfOk result (λ reading. ReadsTo S.Sym S.grammar (S.view start) tokens.now reading) }
{
    let mut frames = OpenFrames::new(alloc);
    let mut symbols = ExpectedSymbols::new(alloc);
    symbols.push(start)?;
    let mut position = Position::Between;
    for (i, token) in tokens.iter().enumerate() {
        match position_step(position, &mut frames, &mut symbols, token)? {
            Some(next) => position = next,
            None => return Ok(ReadExtent::Stopped(i)),
        }
    }
    if may_end(position, &frames, &mut symbols) {
        Ok(ReadExtent::Whole)
    } else {
        Ok(ReadExtent::Unfinished)
    }
}
