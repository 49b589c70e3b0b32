//! How far an expression reaches, and how deep its parentheses are nested: `reach`.
//!
//! The second pass asks this before it makes a tree: an expression within a program or an instruction ends at the first
//! token with which its recogniser is stuck.
ghost use Rattle.std.specs.Prelude.{◌≡◌, ◌≤◌, IfOk, length};
ghost use Rattle.smv_expression_reader.specs.Recogniser as machine;
ghost use Rattle.smv_expression_reader.specs.Extents.{reach_of, is_deep, ends_whole};

use crate::frames::OpenFrames;
use crate::machine::{Mode, is_stuck, is_whole, step};
use crate::token::TokenText;
use base_values::OutOfMemory;
use base_values::limits::MOST_NESTED;
use std::alloc::Global;

/// How far an expression reaches.
#[derive(Clone, Copy, Debug, PartialEq, Eq)]
pub struct Extent {
    /// The number of its tokens.
    pub len: usize,
    /// Whether parentheses are nested deeper than [`MOST_NESTED`].
    pub deep: bool,
    /// Whether these tokens together are an expression.
    pub whole: bool,
}

/// How far the expression reaches that the tokens begin with.
#[tactic(auto, using(crate::proofs::ExtentLaws::reach_more, crate::proofs::ExtentLaws::deep_more, crate::proofs::ExtentLaws::whole_more))]
pub fn reach(alloc: Global, tokens: &[TokenText]) -> Result<Extent, OutOfMemory>
    ensures len { IfOk result (λ extent. extent.len ≡ reach_of machine.start tokens.now) }
    ensures within { IfOk result (λ extent. extent.len ≤ length tokens.now) }
    ensures deep { IfOk result (λ extent. extent.deep ≡ is_deep machine.start tokens.now) }
    ensures whole { IfOk result (λ extent. extent.whole ≡ ends_whole machine.start tokens.now) }
{
    let mut frames = OpenFrames::new(alloc);
    let mut mode = Mode::Wants;
    let mut deep = false;
    for (len, token) in tokens.iter().enumerate() {
        let whole = is_whole(mode, &frames);
        mode = step(mode, &mut frames, token.role())?;
        if is_stuck(mode) {
            return Ok(Extent { len, deep, whole });
        }
        deep = deep || frames.groups() > MOST_NESTED;
    }
    Ok(Extent {
        len: tokens.len(),
        deep,
        whole: is_whole(mode, &frames),
    })
}
