//! The call: tokens, then the causes that they spell, then the rules.
//!
//! The main function is [`read_causes`].
ghost use Rattle.std.specs.Prelude.{◌≡◌, ◌<◌, ◌^◌, List, [], length, map, IfOk, IfErr};
ghost use Rattle.smv_lexer.specs.declared.token.Token.{Token};
ghost use Rattle.smv_lexer.specs.Tokens.{HasTokens};
ghost use Rattle.smv_language.specs.Lexemes.{lexemes_of};
ghost use Rattle.smv_language.specs.ProgramTree.{program_tree};
ghost use Rattle.smv_expression_reader.specs.Stops.{FaultMeans};
ghost use Rattle.fault_cause_laws.specs.CausesText.{WrittenCause, BytesSpellCauses};
ghost use Rattle.fault_staging.specs.CauseOf.{cause_of};
ghost use Rattle.fault_causes_reader.specs.CauseStages.{IsCauses};
ghost use Rattle.fault_causes_reader.specs.StageView.{stage_of, is_start, reading_at, written_trees, ReadsTo};
ghost use Rattle.fault_causes_reader.specs.CausesFile.{IsReading, IsRefusal};

use crate::fault::CauseFault;
use crate::rules::lawful;
use crate::step::{CauseState, step};
use crate::written::WrittenList;
use base_values::OutOfMemory;
use fault_staging::CauseList;
use smv_expression_reader::ParseFault;
use smv_expression_reader::reader::{split, stop_at};
use smv_expression_reader::reading::ReadExtent;
use smv_expression_reader::token::{TokenText, token_texts};
use smv_language::Program;
use smv_language::model::FaultList;
use smv_lexer::TokenList;
use std::alloc::Global;

/// How far the tokens can be read as causes, which are put into the list.
fn read_through(
    alloc: Global,
    tokens: &[TokenText],
    causes: &mut WrittenList,
) -> Result<ReadExtent, OutOfMemory>
    requires { causes.old ≡ [] }
    ensures { IfOk result (ReadsTo tokens.now (written_trees causes.new)) }
{
    let mut state = CauseState::Start;
    for (i, token) in tokens.iter().enumerate() {
        match step(alloc, state, causes, token)? {
            Some(next) => state = next,
            None => return Ok(ReadExtent::Stopped(i)),
        }
    }
    Ok(ending(state))
}

/// How reading ends where the tokens do.
fn ending(state: CauseState) -> ReadExtent
    ensures { result ≡ reading_at (is_start (stage_of state)) }
{
    match state {
        CauseState::Start => ReadExtent::Whole,
        _ => ReadExtent::Unfinished,
    }
}

/// The causes that the tokens of bytes spell.
fn written_of(
    alloc: Global,
    bytes: &[u8],
    tokens: &TokenList,
    texts: &[TokenText],
) -> Result<WrittenList, ParseFault>
    requires short { length bytes.now < 2 ^ 32 }
    requires split { HasTokens bytes.now tokens.now }
    requires only { (others : List Token) → HasTokens bytes.now others → others ≡ tokens.now }
    requires same { texts.now ≡ lexemes_of bytes.now tokens.now }
    ensures spelled { IfOk result (λ cs. BytesSpellCauses bytes.now (written_trees cs)) }
    ensures only { IfOk result (λ cs. (ds : List WrittenCause) → BytesSpellCauses bytes.now ds → written_trees cs ≡ ds) }
    ensures fault { IfErr result (FaultMeans IsCauses ⊥ bytes.now) }
{
    let mut causes = WrittenList::new(alloc);
    match read_through(alloc, texts, &mut causes)? {
        ReadExtent::Whole => Ok(causes),
        ReadExtent::Unfinished => Err(ParseFault::End(bytes.len() as u32)),
        ReadExtent::Stopped(i) => Err(stop_at(tokens, texts, i)),
    }
}

/// The causes that the bytes spell.
#[tactic(auto, using(smv_expression_reader::proofs::FaultLaws::of_tokens))]
fn written_causes(alloc: Global, bytes: &[u8]) -> Result<WrittenList, ParseFault>
    requires { length bytes.now < 2 ^ 32 }
    ensures spelled { IfOk result (λ cs. BytesSpellCauses bytes.now (written_trees cs)) }
    ensures only { IfOk result (λ cs. (ds : List WrittenCause) → BytesSpellCauses bytes.now ds → written_trees cs ≡ ds) }
    ensures fault { IfErr result (FaultMeans IsCauses ⊥ bytes.now) }
{
    let tokens = split(alloc, bytes)?;
    let texts = token_texts(alloc, bytes, &tokens)?;
    written_of(alloc, bytes, &tokens, &texts)
}

/// The causes that the bytes spell, for these faults of an extension and its woven program, where they break no rule.
pub fn read_causes(
    alloc: Global,
    bytes: &[u8],
    faults: &FaultList,
    w: &Program,
) -> Result<CauseList, CauseFault>
    requires { length bytes.now < 2 ^ 32 }
    ensures read { IfOk result (λ causes. IsReading faults.now (program_tree w.now) bytes.now (map cause_of causes)) }
    ensures fault { IfErr result (IsRefusal faults.now (program_tree w.now) bytes.now) }
{
    let written = match written_causes(alloc, bytes) {
        Ok(written) => written,
        Err(ParseFault::OutOfMemory) => return Err(CauseFault::OutOfMemory),
        Err(fault) => return Err(CauseFault::Parse(fault)),
    };
    match lawful(alloc, faults, w, &written) {
        Ok(causes) => Ok(causes),
        Err(fault) => Err(fault),
    }
}
