//! What texts spell, long texts of parts that are repeated, and how a case that fails is told.
//!
//! The proof of a test shows only that it is safe, and what it costs is its form: each call leaves what it promises to
//! all that follows. So the tests are tables of plain data, each walked by one short function that answers with the
//! place of the first case that fails, and a call whose contract is long stands in a function that promises nothing.
use base_values::{Dotted, OutOfMemory};
use fault_instructions::Instructions;
use fault_reader::instructions;
use smv_expression_reader::expression;
use smv_flat::flatten;
use smv_language::model::FlatModel;
use smv_language::{Expr, Program};
use smv_model_reader::program;
use std::alloc::Global;

/// The program that a text spells.
pub fn program_of(alloc: Global, text: &[u8]) -> Option<Program> {
    if text.len() < 100_000 {
        program(alloc, text).ok()
    } else {
        None
    }
}

/// The instructions that a text spells.
pub fn instructions_of(alloc: Global, text: &[u8]) -> Option<Instructions> {
    if text.len() < 100_000 {
        instructions(alloc, text).ok()
    } else {
        None
    }
}

/// The expression that a text spells.
pub fn expression_of(alloc: Global, text: &[u8]) -> Option<Expr<Dotted>> {
    if text.len() < 100_000 {
        expression(alloc, text).ok()
    } else {
        None
    }
}

/// The flat model of a program.
pub fn model_of(alloc: Global, program: &Program) -> Option<FlatModel> {
    flatten(alloc, program).ok()
}

/// Whether there is a text, and it is this one.
pub fn is_text(found: Option<Vec<u8>>, wanted: &[u8]) -> bool {
    match found {
        Some(text) => text.as_slice() == wanted,
        None => false,
    }
}

/// Appends a part so many times.
fn push_times(text: &mut Vec<u8>, part: &[u8], times: usize) -> Result<(), OutOfMemory> {
    for _ in 0..times {
        text.extend_from_slice(part)?;
    }
    Ok(())
}

/// The front, so many times what opens, an `a`, as many times what closes, and the back.
pub fn nested(
    alloc: Global,
    front: &[u8],
    open: &[u8],
    times: usize,
    close: &[u8],
    back: &[u8],
) -> Result<Vec<u8>, OutOfMemory> {
    let mut text = Vec::new(alloc);
    push_times(&mut text, front, 1)?;
    push_times(&mut text, open, times)?;
    push_times(&mut text, b"a", 1)?;
    push_times(&mut text, close, times)?;
    push_times(&mut text, back, 1)?;
    Ok(text)
}

/// The text of these parts.
pub fn joined(alloc: Global, parts: &[&[u8]]) -> Result<Vec<u8>, OutOfMemory> {
    let mut text = Vec::new(alloc);
    for part in parts {
        text.extend_from_slice(part)?;
    }
    Ok(text)
}
