//! The call `instructions`: tokens, then how far they can be read, then the instructions.
ghost use Rattle.std.specs.Prelude.{◌≡◌, ◌<◌, ◌^◌, IfOk, IfErr, List, length};
ghost use Rattle.smv_lexer.specs.declared.token.Token.{Token};
ghost use Rattle.smv_lexer.specs.Tokens.{HasTokens};
ghost use Rattle.smv_language.specs.Lexemes.{lexemes_of};
ghost use Rattle.smv_expression_reader.specs.Stops.{FaultMeans};
ghost use Rattle.fault_reader.specs.Symbols.{IsInstructions};
ghost use Rattle.fault_reader.specs.InstructionDepths.{HaveInstructionDepths, AreInstructionsTooDeep};
ghost use Rattle.fault_instructions.specs.Instructions.{InstructionTree, instruction_tree};
ghost use Rattle.fault_instructions.specs.SpellsInstructions.{BytesSpellInstructions};

use crate::build::file;
use crate::symbols::Symbol;
use fault_instructions::Instructions;
use smv_expression_reader::ParseFault;
use smv_expression_reader::cursor::Cursor;
use smv_expression_reader::expected::read_through;
use smv_expression_reader::fault::BuildFault;
use smv_expression_reader::reader::{split, stop_at};
use smv_expression_reader::reading::ReadExtent;
use smv_expression_reader::token::{TokenText, token_texts};
use smv_lexer::TokenList;
use std::alloc::Global;

/// Refuses what is no file of instructions.
fn check(
    alloc: Global,
    bytes: &[u8],
    tokens: &TokenList,
    texts: &[TokenText],
) -> Result<(), ParseFault>
    requires short { length bytes.now < 2 ^ 32 }
    requires split { HasTokens bytes.now tokens.now }
    requires same { texts.now ≡ lexemes_of bytes.now tokens.now }
    ensures spelled { IfOk result (λ _. IsInstructions texts.now) }
    ensures fault { IfErr result (λ fault. FaultMeans IsInstructions (AreInstructionsTooDeep bytes.now) bytes.now fault) }
{
    match read_through(alloc, Symbol::File, texts)? {
        ReadExtent::Whole => Ok(()),
        ReadExtent::Unfinished => Err(ParseFault::End(bytes.len() as u32)),
        ReadExtent::Stopped(i) => Err(stop_at(tokens, texts, i)),
    }
}

/// The instructions of tokens that spell some, which the second pass reads or finds too deep.
fn make(
    alloc: Global,
    bytes: &[u8],
    tokens: &TokenList,
    texts: &[TokenText],
) -> Result<Instructions, ParseFault>
    requires split { HasTokens bytes.now tokens.now }
    requires only { (others : List Token) → HasTokens bytes.now others → others ≡ tokens.now }
    requires same { texts.now ≡ lexemes_of bytes.now tokens.now }
    requires spelled { IsInstructions texts.now }
    ensures spelled { IfOk result (λ i. BytesSpellInstructions bytes.now (instruction_tree i)) }
    ensures depths { IfOk result (λ i. HaveInstructionDepths bytes.now (instruction_tree i)) }
    ensures only { IfOk result (λ i. (j : InstructionTree) → BytesSpellInstructions bytes.now j → instruction_tree i ≡ j) }
    ensures fault { IfErr result (λ fault. FaultMeans IsInstructions (AreInstructionsTooDeep bytes.now) bytes.now fault) }
{
    let mut cursor = Cursor::new(texts);
    match file(alloc, &mut cursor) {
        Ok(instructions) => Ok(instructions),
        Err(BuildFault::TooDeep) => Err(ParseFault::TooDeep),
        Err(BuildFault::OutOfMemory) => Err(ParseFault::OutOfMemory),
        Err(BuildFault::NoTree) => unreachable!(),
    }
}

/// The instructions that the bytes spell, where each expression in them is at most `MOST_HEIGHT` high and nested at most
/// as deep. It takes time in proportion to the bytes.
#[tactic(auto, using(smv_expression_reader::proofs::FaultLaws::of_tokens))]
pub fn instructions(alloc: Global, bytes: &[u8]) -> Result<Instructions, ParseFault>
    requires { length bytes.now < 2 ^ 32 }
    ensures spelled { IfOk result (λ i. BytesSpellInstructions bytes.now (instruction_tree i)) }
    ensures depths { IfOk result (λ i. HaveInstructionDepths bytes.now (instruction_tree i)) }
    ensures only { IfOk result (λ i. (j : InstructionTree) → BytesSpellInstructions bytes.now j → instruction_tree i ≡ j) }
    ensures fault { IfErr result (λ fault. FaultMeans IsInstructions (AreInstructionsTooDeep bytes.now) bytes.now fault) }
{
    let tokens = split(alloc, bytes)?;
    let texts = token_texts(alloc, bytes, &tokens)?;
    check(alloc, bytes, &tokens, &texts)?;
    make(alloc, bytes, &tokens, &texts)
}
