//! The two calls, and what each reader begins with: tokens, then how far they can be read, then the tree.
ghost use Rattle.std.specs.Prelude.{◌≡◌, ◌<◌, ◌≤◌, ◌^◌, List, Some, true, false, All, IfOk, IfErr, length, map, slice_get};
ghost use Rattle.base_values.specs.declared.limits.TheConstants.{MOST_HEIGHT};
ghost use Rattle.smv_lexer.specs.declared.token.Token.{Token};
ghost use Rattle.smv_lexer.specs.Tokens.{HasTokens, StandsIn};
ghost use Rattle.smv_language.specs.Tree.{height_of};
ghost use Rattle.smv_language.specs.ProgramTree.{Formula};
ghost use Rattle.smv_language.specs.ExpressionTree.{tree_of};
ghost use Rattle.smv_language.specs.Lexemes.{Lexeme, lexemes_of};
ghost use Rattle.smv_language.specs.Bytes.{BytesSpellExpr, HasDepths};
ghost use Rattle.smv_expression_reader.specs.Recogniser as machine;
ghost use Rattle.smv_expression_reader.specs.TreeBuilder.{built as machine_built};
ghost use Rattle.smv_expression_reader.specs.Extents.{is_deep};
ghost use Rattle.smv_expression_reader.specs.Lists.{IsExpressions, BytesSpellExpressions};
ghost use Rattle.smv_expression_reader.specs.ExpressionDepths.{HaveDepths, AreTooDeep};
ghost use Rattle.smv_expression_reader.specs.Stops.{IsExpression, IsTooDeep, FaultMeans, IsOfTokens, is_left_out, stop_fault};

use crate::cursor::Cursor;
use crate::extent::reach;
use crate::fault::{BuildFault, ParseFault};
use crate::list::{list_trees, read_list};
use crate::reading::ReadExtent;
use crate::token::{TokenText, token_texts};
use crate::tree::tree;
use base_values::Dotted;
use smv_language::{Expr, ExprList};
use smv_lexer::{LexFault, TokenList, tokens};
use std::alloc::Global;

/// The tokens of the bytes.
#[tactic(auto, using(crate::proofs::FaultLaws::lexical))]
pub fn split(alloc: Global, bytes: &[u8]) -> Result<TokenList, ParseFault>
    requires { length bytes.now < 2 ^ 32 }
    ensures split { IfOk result (λ tokens. HasTokens bytes.now tokens) }
    ensures stand { IfOk result (λ tokens. All (StandsIn bytes.now) tokens) }
    ensures only { IfOk result (λ tokens. (others : List Token) → HasTokens bytes.now others → others ≡ tokens) }
    ensures fault { IfErr result (λ fault. IsOfTokens bytes.now fault) }
{
    match tokens(alloc, bytes) {
        Ok(tokens) => Ok(tokens),
        Err(LexFault::OutOfMemory) => Err(ParseFault::OutOfMemory),
        Err(fault) => Err(ParseFault::Lex(fault)),
    }
}

/// The fault of a text that goes on up to the token of this number.
pub fn stop_at(tokens: &TokenList, texts: &[TokenText], i: usize) -> ParseFault
    requires token { i < length tokens.now }
    requires text { i < length texts.now }
    ensures { (token : Token) (lexeme : Lexeme) → slice_get tokens.now i ≡ Some token → slice_get texts.now i ≡ Some lexeme →
        result ≡ stop_fault (is_left_out lexeme) token.start }
{
    let place = tokens.at(i).start;
    if texts[i].is_left_out() {
        ParseFault::LeftOut(place)
    } else {
        ParseFault::Unexpected(place)
    }
}

/// Refuses what is no expression, and one whose parentheses are nested too deep.
fn check_expression(
    alloc: Global,
    bytes: &[u8],
    tokens: &TokenList,
    texts: &[TokenText],
) -> Result<(), ParseFault>
    requires short { length bytes.now < 2 ^ 32 }
    requires split { HasTokens bytes.now tokens.now }
    requires same { texts.now ≡ lexemes_of bytes.now tokens.now }
    ensures whole { IfOk result (λ _. machine.is_whole (machine.run machine.start texts.now) ≡ true) }
    ensures flat { IfOk result (λ _. is_deep machine.start texts.now ≡ false) }
    ensures fault { IfErr result (λ fault. FaultMeans IsExpression (IsTooDeep bytes.now) bytes.now fault) }
{
    let extent = reach(alloc, texts)?;
    if extent.len < texts.len() {
        Err(stop_at(tokens, texts, extent.len))
    } else if !extent.whole {
        Err(ParseFault::End(bytes.len() as u32))
    } else if extent.deep {
        Err(ParseFault::TooDeep)
    } else {
        Ok(())
    }
}

/// The tree of tokens that are an expression.
fn make_expression(
    alloc: Global,
    bytes: &[u8],
    tokens: &TokenList,
    texts: &[TokenText],
) -> Result<Expr<Dotted>, ParseFault>
    requires split { HasTokens bytes.now tokens.now }
    requires same { texts.now ≡ lexemes_of bytes.now tokens.now }
    requires whole { machine.is_whole (machine.run machine.start texts.now) ≡ true }
    ensures made { IfOk result (λ e. machine_built texts.now ≡ Some (tree_of e)) }
    ensures within { IfOk result (λ e. height_of (tree_of e) ≤ MOST_HEIGHT) }
    ensures fault { IfErr result (λ fault. FaultMeans IsExpression (IsTooDeep bytes.now) bytes.now fault) }
{
    match tree(alloc, texts) {
        Ok(tree) => Ok(tree),
        Err(BuildFault::TooDeep) => Err(ParseFault::TooDeep),
        Err(BuildFault::OutOfMemory) => Err(ParseFault::OutOfMemory),
        Err(BuildFault::NoTree) => unreachable!(),
    }
}

/// The tree of tokens, where they are an expression.
fn read_expression(
    alloc: Global,
    bytes: &[u8],
    tokens: &TokenList,
    texts: &[TokenText],
) -> Result<Expr<Dotted>, ParseFault>
    requires short { length bytes.now < 2 ^ 32 }
    requires split { HasTokens bytes.now tokens.now }
    requires only { (others : List Token) → HasTokens bytes.now others → others ≡ tokens.now }
    requires same { texts.now ≡ lexemes_of bytes.now tokens.now }
    ensures spelled { IfOk result (λ e. BytesSpellExpr bytes.now (tree_of e)) }
    ensures depths { IfOk result (λ e. HasDepths bytes.now (tree_of e)) }
    ensures only { IfOk result (λ e. (t : Formula) → BytesSpellExpr bytes.now t → tree_of e ≡ t) }
    ensures fault { IfErr result (λ fault. FaultMeans IsExpression (IsTooDeep bytes.now) bytes.now fault) }
{
    check_expression(alloc, bytes, tokens, texts)?;
    make_expression(alloc, bytes, tokens, texts)
}

/// Refuses what is no list of expressions.
fn check_list(
    alloc: Global,
    bytes: &[u8],
    tokens: &TokenList,
    texts: &[TokenText],
) -> Result<(), ParseFault>
    requires short { length bytes.now < 2 ^ 32 }
    requires split { HasTokens bytes.now tokens.now }
    requires same { texts.now ≡ lexemes_of bytes.now tokens.now }
    ensures spelled { IfOk result (λ _. IsExpressions texts.now) }
    ensures fault { IfErr result (λ fault. FaultMeans IsExpressions (AreTooDeep bytes.now) bytes.now fault) }
{
    match read_list(alloc, texts)? {
        ReadExtent::Whole => Ok(()),
        ReadExtent::Unfinished => Err(ParseFault::End(bytes.len() as u32)),
        ReadExtent::Stopped(i) => Err(stop_at(tokens, texts, i)),
    }
}

/// The trees of tokens that are a list of expressions.
fn make_list(
    alloc: Global,
    bytes: &[u8],
    tokens: &TokenList,
    texts: &[TokenText],
) -> Result<ExprList<Dotted>, ParseFault>
    requires split { HasTokens bytes.now tokens.now }
    requires only { (others : List Token) → HasTokens bytes.now others → others ≡ tokens.now }
    requires same { texts.now ≡ lexemes_of bytes.now tokens.now }
    requires spelled { IsExpressions texts.now }
    ensures spelled { IfOk result (λ trees. BytesSpellExpressions bytes.now (map tree_of trees)) }
    ensures depths { IfOk result (λ trees. HaveDepths bytes.now (map tree_of trees)) }
    ensures only { IfOk result (λ trees. (es : List Formula) → BytesSpellExpressions bytes.now es → map tree_of trees ≡ es) }
    ensures fault { IfErr result (λ fault. FaultMeans IsExpressions (AreTooDeep bytes.now) bytes.now fault) }
{
    let mut cursor = Cursor::new(texts);
    match list_trees(alloc, &mut cursor) {
        Ok(trees) => Ok(trees),
        Err(BuildFault::TooDeep) => Err(ParseFault::TooDeep),
        Err(BuildFault::OutOfMemory) => Err(ParseFault::OutOfMemory),
        Err(BuildFault::NoTree) => unreachable!(),
    }
}

/// The expression that the bytes spell.
///
/// The operators and how they group are those of the grammar of the language: `->` and the last part of
/// `? :` group to the right, all others to the left. Parentheses leave nothing in the tree. It takes
/// time in proportion to the bytes.
#[tactic(auto, using(crate::proofs::FaultLaws::of_tokens))]
pub fn expression(alloc: Global, bytes: &[u8]) -> Result<Expr<Dotted>, ParseFault>
    requires { length bytes.now < 2 ^ 32 }
    ensures spelled { IfOk result (λ e. BytesSpellExpr bytes.now (tree_of e)) }
    ensures depths { IfOk result (λ e. HasDepths bytes.now (tree_of e)) }
    ensures only { IfOk result (λ e. (t : Formula) → BytesSpellExpr bytes.now t → tree_of e ≡ t) }
    ensures fault { IfErr result (λ fault. FaultMeans IsExpression (IsTooDeep bytes.now) bytes.now fault) }
{
    let tokens = split(alloc, bytes)?;
    let texts = token_texts(alloc, bytes, &tokens)?;
    read_expression(alloc, bytes, &tokens, &texts)
}

/// The expressions that the bytes spell: one or more, with semicolons between, and one more semicolon
/// allowed at the end. It takes time in proportion to the bytes.
#[tactic(auto, using(crate::proofs::FaultLaws::of_tokens))]
pub fn expressions(alloc: Global, bytes: &[u8]) -> Result<ExprList<Dotted>, ParseFault>
    requires { length bytes.now < 2 ^ 32 }
    ensures spelled { IfOk result (λ trees. BytesSpellExpressions bytes.now (map tree_of trees)) }
    ensures depths { IfOk result (λ trees. HaveDepths bytes.now (map tree_of trees)) }
    ensures only { IfOk result (λ trees. (es : List Formula) → BytesSpellExpressions bytes.now es → map tree_of trees ≡ es) }
    ensures fault { IfErr result (λ fault. FaultMeans IsExpressions (AreTooDeep bytes.now) bytes.now fault) }
{
    let tokens = split(alloc, bytes)?;
    let texts = token_texts(alloc, bytes, &tokens)?;
    check_list(alloc, bytes, &tokens, &texts)?;
    make_list(alloc, bytes, &tokens, &texts)
}
