//! How far a list of expressions can be read, and its trees: `read_list` and `list_trees`.
//!
//! A semicolon ends each expression but the last, where it may be left out, and there is at least one.
ghost use Rattle.std.specs.Prelude.{◌≡◌, ◌∷◌, [], List, Some, false, Err, IfOk, IfSome, map};
ghost use Rattle.smv_expression_reader.specs.Recogniser as machine;
ghost use Rattle.smv_expression_reader.specs.Views.{state_with};
ghost use Rattle.smv_expression_reader.specs.Recogniser.{role_of};
ghost use Rattle.smv_expression_reader.specs.PredictiveReader.{all_empty};
ghost use Rattle.smv_expression_reader.specs.Formulas as lists;
ghost use Rattle.smv_expression_reader.specs.declared.fault.BuildFault.TheVariants as stop;
ghost use Rattle.smv_expression_reader.specs.SecondPass.{got, deep, none, some_at, goes_on, expr_at, next_expr, exprs_at};
ghost use Rattle.smv_language.specs.ExpressionTree.{tree_of};
ghost use Rattle.smv_expression_reader.specs.Lists.{place_view, after_view, stepped, Fits, ListReads};

use crate::cursor::Cursor;
use crate::fault::BuildFault;
use crate::frames::OpenFrames;
use crate::machine::{Mode, TokenRole, is_stuck, is_whole, step};
use crate::mark::Mark;
use crate::reading::ReadExtent;
use crate::token::TokenText;
use base_values::{Dotted, Items, OutOfMemory};
use smv_language::ExprList;
use std::alloc::Global;

/// Where a list of expressions is read.
#[derive(Clone, Copy, Debug, PartialEq, Eq)]
pub enum ListPlace {
    /// At its first expression.
    First,
    /// After a semicolon.
    Again,
    /// In an expression.
    Inside(Mode),
}

/// The first token of an expression.
#[tactic(auto, using(crate::proofs::ListLaws::live_stuck))]
fn begin_step(frames: &mut OpenFrames, token: &TokenText) -> Result<Option<ListPlace>, OutOfMemory>
    requires { frames.old ≡ [] }
    ensures next { IfOk result (λ place. after_view place frames.new
        ≡ lists.live (machine.step machine.start (role_of token.now)) (lists.more ∷ [])) }
    ensures fits { IfOk result (λ place. IfSome place (λ p. Fits p frames.new)) }
{
    let mode = step(Mode::Wants, frames, token.role())?;
    if is_stuck(mode) {
        Ok(None)
    } else {
        Ok(Some(ListPlace::Inside(mode)))
    }
}

/// One more token in an expression, or the semicolon behind it.
fn inside_step(
    mode: Mode,
    frames: &mut OpenFrames,
    token: &TokenText,
) -> Result<Option<ListPlace>, OutOfMemory>
    requires { machine.is_stuck (state_with mode frames.old) ≡ false }
    ensures next { IfOk result (λ place. after_view place frames.new
        ≡ stepped (lists.live (state_with mode frames.old) (lists.more ∷ [])) token.now) }
    ensures fits { IfOk result (λ place. IfSome place (λ p. Fits p frames.new)) }
{
    let whole = is_whole(mode, frames);
    let role = token.role();
    let next = step(mode, frames, role)?;
    if !is_stuck(next) {
        Ok(Some(ListPlace::Inside(next)))
    } else if whole && is_semicolon(role) {
        frames.clear();
        Ok(Some(ListPlace::Again))
    } else {
        Ok(None)
    }
}

/// Whether a token ends an expression of a list.
fn is_semicolon(role: TokenRole) -> bool
    ensures { result ≡ lists.is_semicolon role }
{
    match role {
        TokenRole::Semicolon => true,
        _ => false,
    }
}

/// One more token, and nothing where no list goes on with it.
#[tactic(auto, using(crate::proofs::ListLaws::begins_first, crate::proofs::ListLaws::begins_again))]
fn list_step(
    place: ListPlace,
    frames: &mut OpenFrames,
    token: &TokenText,
) -> Result<Option<ListPlace>, OutOfMemory>
    requires { Fits place frames.old }
    ensures next { IfOk result (λ new. after_view new frames.new ≡ stepped (place_view place frames.old) token.now) }
    ensures fits { IfOk result (λ new. IfSome new (λ p. Fits p frames.new)) }
{
    match place {
        ListPlace::First => begin_step(frames, token),
        ListPlace::Again => begin_step(frames, token),
        ListPlace::Inside(mode) => inside_step(mode, frames, token),
    }
}

/// Whether the list may end here.
#[tactic(auto, using(crate::proofs::ListLaws::inside_ends))]
fn may_end(place: ListPlace, frames: &OpenFrames) -> bool
    ensures { (s : List lists.Sym) → place_view place frames.now ≡ Some s → result ≡ all_empty lists.Sym lists.formulas s }
{
    match place {
        ListPlace::First => false,
        ListPlace::Again => true,
        ListPlace::Inside(mode) => is_whole(mode, frames),
    }
}

/// How far a list of expressions can be read, and its trees.
pub fn read_list(alloc: Global, tokens: &[TokenText]) -> Result<ReadExtent, OutOfMemory>
    ensures { IfOk result (λ reading. ListReads tokens.now reading) }
{
    let mut frames = OpenFrames::new(alloc);
    let mut place = ListPlace::First;
    for (i, token) in tokens.iter().enumerate() {
        match list_step(place, &mut frames, token)? {
            Some(next) => place = next,
            None => return Ok(ReadExtent::Stopped(i)),
        }
    }
    if may_end(place, &frames) {
        Ok(ReadExtent::Whole)
    } else {
        Ok(ReadExtent::Unfinished)
    }
}

/// The expressions that are left, with semicolons between.
fn joined_trees(alloc: Global, cursor: &mut Cursor) -> Result<ExprList<Dotted>, BuildFault>
    ensures ok { IfOk result (λ trees. some_at goes_on expr_at next_expr cursor.old ≡ got (map tree_of trees) cursor.new) }
    ensures deep { result ≡ Err stop.TooDeep → some_at goes_on expr_at next_expr cursor.old ≡ deep }
    ensures none { result ≡ Err stop.NoTree → some_at goes_on expr_at next_expr cursor.old ≡ none }
{
    let mut trees = Items::new(alloc);
    trees.push(cursor.expression(alloc)?)?;
    let most = cursor.len();
    for round in 0..most {
        if !cursor.goes_on() {
            return Ok(trees);
        }
        cursor.skip();
        trees.push(cursor.expression(alloc)?)?;
    }
    Ok(trees)
}

/// The expressions that are left, with semicolons between and one more at the end allowed.
pub fn list_trees(alloc: Global, cursor: &mut Cursor) -> Result<ExprList<Dotted>, BuildFault>
    ensures ok { IfOk result (λ trees. exprs_at cursor.old ≡ got (map tree_of trees) cursor.new) }
    ensures deep { result ≡ Err stop.TooDeep → exprs_at cursor.old ≡ deep }
    ensures none { result ≡ Err stop.NoTree → exprs_at cursor.old ≡ none }
{
    let trees = joined_trees(alloc, cursor)?;
    let _ended = cursor.take(Mark::Semicolon);
    Ok(trees)
}
