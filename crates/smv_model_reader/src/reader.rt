//! The call `program`: tokens, then how far they can be read, then the program.
ghost use Rattle.std.specs.Prelude.{◌≡◌, ◌<◌, ◌^◌, List, IfOk, IfErr, length};
ghost use Rattle.smv_lexer.specs.declared.token.Token.{Token};
ghost use Rattle.smv_lexer.specs.Tokens.{HasTokens};
ghost use Rattle.smv_language.specs.ProgramTree.{ProgramTree, program_tree as tree_of_program};
ghost use Rattle.smv_language.specs.Lexemes.{lexemes_of};
ghost use Rattle.smv_language.specs.Bytes.{BytesSpellProgram};
ghost use Rattle.smv_model_reader.specs.ProgramDepths.{HasProgramDepths, IsProgramTooDeep};
ghost use Rattle.smv_model_reader.specs.Symbols.{IsProgram};
ghost use Rattle.smv_expression_reader.specs.Stops.{FaultMeans};

use crate::sections::program_tree;
use crate::symbols::Symbol;
use smv_expression_reader::ParseFault;
use smv_expression_reader::cursor::Cursor;
use smv_expression_reader::expected::read_through;
use smv_expression_reader::fault::BuildFault;
use smv_expression_reader::reader::{split, stop_at};
use smv_expression_reader::reading::ReadExtent;
use smv_expression_reader::token::{TokenText, token_texts};
use smv_language::Program;
use smv_lexer::TokenList;
use std::alloc::Global;

/// Refuses what is no program.
fn check_program(
    alloc: Global,
    bytes: &[u8],
    tokens: &TokenList,
    texts: &[TokenText],
) -> Result<(), ParseFault>
    requires short { length bytes.now < 2 ^ 32 }
    requires split { HasTokens bytes.now tokens.now }
    requires same { texts.now ≡ lexemes_of bytes.now tokens.now }
    ensures spelled { IfOk result (λ _. IsProgram texts.now) }
    ensures fault { IfErr result (λ fault. FaultMeans IsProgram (IsProgramTooDeep bytes.now) bytes.now fault) }
{
    match read_through(alloc, Symbol::Modules, texts)? {
        ReadExtent::Whole => Ok(()),
        ReadExtent::Unfinished => Err(ParseFault::End(bytes.len() as u32)),
        ReadExtent::Stopped(i) => Err(stop_at(tokens, texts, i)),
    }
}

/// The tree of tokens that are a program.
fn make_program(
    alloc: Global,
    bytes: &[u8],
    tokens: &TokenList,
    texts: &[TokenText],
) -> Result<Program, ParseFault>
    requires split { HasTokens bytes.now tokens.now }
    requires only { (others : List Token) → HasTokens bytes.now others → others ≡ tokens.now }
    requires same { texts.now ≡ lexemes_of bytes.now tokens.now }
    requires spelled { IsProgram texts.now }
    ensures spelled { IfOk result (λ p. BytesSpellProgram bytes.now (tree_of_program p)) }
    ensures depths { IfOk result (λ p. HasProgramDepths bytes.now (tree_of_program p)) }
    ensures only { IfOk result (λ p. (q : ProgramTree) → BytesSpellProgram bytes.now q → tree_of_program p ≡ q) }
    ensures fault { IfErr result (λ fault. FaultMeans IsProgram (IsProgramTooDeep bytes.now) bytes.now fault) }
{
    let mut cursor = Cursor::new(texts);
    match program_tree(alloc, &mut cursor) {
        Ok(program) => Ok(program),
        Err(BuildFault::TooDeep) => Err(ParseFault::TooDeep),
        Err(BuildFault::OutOfMemory) => Err(ParseFault::OutOfMemory),
        Err(BuildFault::NoTree) => unreachable!(),
    }
}

/// The program that the bytes spell. Sections that are passed over leave nothing in it. It takes time in
/// proportion to the bytes.
#[tactic(auto, using(smv_expression_reader::proofs::FaultLaws::of_tokens))]
pub fn program(alloc: Global, bytes: &[u8]) -> Result<Program, ParseFault>
    requires { length bytes.now < 2 ^ 32 }
    ensures spelled { IfOk result (λ p. BytesSpellProgram bytes.now (tree_of_program p)) }
    ensures depths { IfOk result (λ p. HasProgramDepths bytes.now (tree_of_program p)) }
    ensures only { IfOk result (λ p. (q : ProgramTree) → BytesSpellProgram bytes.now q → tree_of_program p ≡ q) }
    ensures fault { IfErr result (λ fault. FaultMeans IsProgram (IsProgramTooDeep bytes.now) bytes.now fault) }
{
    let tokens = split(alloc, bytes)?;
    let texts = token_texts(alloc, bytes, &tokens)?;
    check_program(alloc, bytes, &tokens, &texts)?;
    make_program(alloc, bytes, &tokens, &texts)
}
