//! Printing instructions: [`print_instructions`]. All text goes to the end of one buffer, so the work is linear in the text.
ghost use Rattle.std.specs.Prelude.{◌≡◌, ◌++◌, ℕ, List, codes, IfOk, OnOk, map};
ghost use Rattle.smv_language.specs.Text.{text_of, all_of, joined};
ghost use Rattle.smv_language.specs.ExpressionTree.{tree_of};
ghost use Rattle.fault_instructions.specs.Instructions.{instruction_tree, extension_tree, slice_tree, mode_tree, effect_tree};
ghost use Rattle.fault_instructions.specs.Instructions.{constant_value, guard_tree};
ghost use Rattle.fault_instructions.specs.SpellsInstructions.{BytesSpellInstructions};
ghost use Rattle.fault_instructions.specs.WritableInstructions.{IsWritableInstructions};
ghost use Rattle.fault_instructions.specs.InstructionText.{instructions_text, extension_text, slice_text, start_text, mode_line, mode_head};
ghost use Rattle.fault_instructions.specs.InstructionText.{mark_text, guard_text, effect_text, dynamics_text, name_text, name_line};
ghost use Rattle.fault_instructions.specs.InstructionText.{arguments_text};
ghost use Rattle.fault_instructions.specs.InstructionText.{file_words as file_words_text, extension_words as extension_words_text};
ghost use Rattle.smv_language.specs.Values.{value_text};

use crate::instructions::{
    Constant, Dynamics, Effect, Extension, Instructions, MarkList, ModeRule, Slice, Start,
};
use base_values::{ByteList, Dotted, Name, OutOfMemory};
use smv_language::{Expr, print_expr};
use std::alloc::Global;

/// The text of instructions: a line for the name that they give themselves, where they do, and then
/// each extension with its slices, and each slice with its modes, on lines of their own.
#[tactic(auto, using(smv_language::proofs::TextLaws::print_rules))]
pub fn print_instructions(alloc: Global, i: &Instructions) -> Result<Vec<u8>, OutOfMemory>
    ensures text { IfOk result (λ text. text.items ≡ instructions_text (instruction_tree i.now)) }
    // What can be written is spelled by its text, and so is what some text spells.
    ensures spells { IfOk result (λ text. IsWritableInstructions (instruction_tree i.now) →
        BytesSpellInstructions text.items (instruction_tree i.now)) }
    ensures again { IfOk result (λ text. (bytes : List ℕ) → BytesSpellInstructions bytes (instruction_tree i.now) →
        BytesSpellInstructions text.items (instruction_tree i.now)) }
{
    let mut text = ByteList::new(alloc);
    append_file_name(&mut text, &i.name)?;
    append_extensions(alloc, &mut text, i.extensions.as_slice())?;
    Ok(text.into_vec())
}

/// Appends the line of a file's own name, where it has one.
#[tactic(auto, using(smv_language::proofs::TextLaws::print_rules))]
fn append_file_name(text: &mut ByteList, name: &Option<Name>) -> Result<(), OutOfMemory>
    ensures { OnOk result (text.new ≡ text.old ++ name_text name.now) }
{
    match name {
        Some(name) => append_name_line(text, name),
        None => Ok(()),
    }
}

/// Appends the line of a file's own name.
#[tactic(auto, using(smv_language::proofs::TextLaws::print_rules))]
fn append_name_line(text: &mut ByteList, name: &Name) -> Result<(), OutOfMemory>
    ensures { OnOk result (text.new ≡ text.old ++ name_line name.now) }
{
    text.append(file_words())?;
    text.append(name.text())?;
    text.append(b"\n")
}

/// Appends extensions, one after another.
#[tactic(auto, using(smv_language::proofs::TextLaws::print_rules))]
fn append_extensions(
    alloc: Global,
    text: &mut ByteList,
    extensions: &[Extension],
) -> Result<(), OutOfMemory>
    ensures { OnOk result (text.new ≡ text.old ++ all_of (map extension_text (map extension_tree extensions.now))) }
{
    for extension in extensions {
        append_extension(alloc, text, extension)?;
    }
    Ok(())
}

/// Appends the line of an extension's module, and then its slices.
#[tactic(auto, using(smv_language::proofs::TextLaws::print_rules))]
fn append_extension(
    alloc: Global,
    text: &mut ByteList,
    extension: &Extension,
) -> Result<(), OutOfMemory>
    ensures { OnOk result (text.new ≡ text.old ++ extension_text (extension_tree extension.now)) }
{
    text.append(extension_words())?;
    text.append(extension.module.text())?;
    text.append(b"\n")?;
    append_slices(alloc, text, extension.slices.as_slice())
}

/// Appends slices, one after another.
#[tactic(auto, using(smv_language::proofs::TextLaws::print_rules))]
fn append_slices(alloc: Global, text: &mut ByteList, slices: &[Slice]) -> Result<(), OutOfMemory>
    ensures { OnOk result (text.new ≡ text.old ++ all_of (map slice_text (map slice_tree slices.now))) }
{
    for slice in slices {
        append_slice(alloc, text, slice)?;
    }
    Ok(())
}

/// Appends the line of a slice, and then its modes.
#[tactic(auto, using(smv_language::proofs::TextLaws::print_rules))]
fn append_slice(alloc: Global, text: &mut ByteList, slice: &Slice) -> Result<(), OutOfMemory>
    ensures { OnOk result (text.new ≡ text.old ++ slice_text (slice_tree slice.now)) }
{
    text.append(b"  SLICE ")?;
    text.append(slice.name.text())?;
    text.append(b" AFFECTS ")?;
    text.append(slice.target.text())?;
    append_start(text, slice.start)?;
    text.append(b" WITH\n")?;
    append_modes(alloc, text, slice.modes.as_slice())
}

/// Appends the words of a start that is not nominal alone.
#[tactic(auto, using(smv_language::proofs::TextLaws::print_rules))]
fn append_start(text: &mut ByteList, start: Start) -> Result<(), OutOfMemory>
    ensures { OnOk result (text.new ≡ text.old ++ start_text start) }
{
    match start {
        Start::Nominal => Ok(()),
        Start::Any => text.append(b" INITIALLY ANY"),
    }
}

/// Appends modes, each on a line.
#[tactic(auto, using(smv_language::proofs::TextLaws::print_rules))]
fn append_modes(alloc: Global, text: &mut ByteList, modes: &[ModeRule]) -> Result<(), OutOfMemory>
    ensures { OnOk result (text.new ≡ text.old ++ all_of (map mode_line (map mode_tree modes.now))) }
{
    for mode in modes {
        append_mode(alloc, text, mode)?;
    }
    Ok(())
}

/// Appends the line of a mode.
#[tactic(auto, using(smv_language::proofs::TextLaws::print_rules))]
fn append_mode(alloc: Global, text: &mut ByteList, mode: &ModeRule) -> Result<(), OutOfMemory>
    ensures { OnOk result (text.new ≡ text.old ++ mode_line (mode_tree mode.now)) }
{
    append_mode_head(text, mode)?;
    append_dynamics(text, mode.dynamics)?;
    append_effect(alloc, text, &mode.effect)?;
    append_guard(alloc, text, &mode.guard)?;
    text.append(b";\n")
}

/// Appends the line of a mode up to its colon.
#[tactic(auto, using(smv_language::proofs::TextLaws::print_rules))]
fn append_mode_head(text: &mut ByteList, mode: &ModeRule) -> Result<(), OutOfMemory>
    ensures { OnOk result (text.new ≡ text.old ++ mode_head (mode_tree mode.now)) }
{
    text.append(b"    MODE ")?;
    text.append(mode.name.text())?;
    append_mark(text, &mode.mark)?;
    text.append(b" : ")
}

/// Appends the word that says whether a mode can be left.
fn append_dynamics(text: &mut ByteList, dynamics: Dynamics) -> Result<(), OutOfMemory>
    ensures { OnOk result (text.new ≡ text.old ++ dynamics_text dynamics) }
{
    match dynamics {
        Dynamics::Permanent => text.append(b"Permanent "),
        Dynamics::Transient => text.append(b"Transient "),
    }
}

/// Appends a mode's mark in braces, where it has one.
#[tactic(auto, using(smv_language::proofs::TextLaws::print_rules))]
fn append_mark(text: &mut ByteList, mark: &Option<MarkList>) -> Result<(), OutOfMemory>
    ensures { OnOk result (text.new ≡ text.old ++ mark_text mark.now) }
{
    match mark {
        Some(tokens) => {
            text.append(b" {")?;
            append_tokens(text, tokens.as_slice())?;
            text.append(b"}")
        }
        None => Ok(()),
    }
}

/// Appends the texts of a mark's tokens, with spaces between.
#[tactic(auto, using(smv_language::proofs::TextLaws::print_rules))]
fn append_tokens(text: &mut ByteList, tokens: &[Name]) -> Result<(), OutOfMemory>
    ensures { OnOk result (text.new ≡ text.old ++ joined (codes " ") tokens.now) }
{
    let [first, more @ ..] = tokens else {
        return Ok(());
    };
    text.append(first.text())?;
    for token in more {
        text.append(b" ")?;
        text.append(token.text())?;
    }
    Ok(())
}

/// Appends the guard of a mode, where it has one.
#[tactic(auto, using(smv_language::proofs::TextLaws::print_rules))]
fn append_guard(
    alloc: Global,
    text: &mut ByteList,
    guard: &Option<Expr<Dotted>>,
) -> Result<(), OutOfMemory>
    ensures { OnOk result (text.new ≡ text.old ++ guard_text (guard_tree guard.now)) }
{
    match guard {
        Some(guard) => {
            text.append(b" WHEN ")?;
            append_expression(alloc, text, guard)
        }
        None => Ok(()),
    }
}

/// Appends the text of an expression.
fn append_expression(
    alloc: Global,
    text: &mut ByteList,
    e: &Expr<Dotted>,
) -> Result<(), OutOfMemory>
    ensures { OnOk result (text.new ≡ text.old ++ text_of (tree_of e.now)) }
{
    let part = print_expr(alloc, e)?;
    text.append(&part)
}

/// Appends an effect with its arguments.
#[tactic(auto, using(smv_language::proofs::TextLaws::print_rules))]
fn append_effect(alloc: Global, text: &mut ByteList, effect: &Effect) -> Result<(), OutOfMemory>
    ensures { OnOk result (text.new ≡ text.old ++ effect_text (effect_tree effect.now)) }
{
    text.append(effect.kind().keyword())?;
    append_arguments(alloc, text, effect)
}

/// Appends the arguments of an effect in parentheses, where it has some.
#[tactic(auto, using(smv_language::proofs::TextLaws::print_rules))]
fn append_arguments(alloc: Global, text: &mut ByteList, effect: &Effect) -> Result<(), OutOfMemory>
    ensures { OnOk result (text.new ≡ text.old ++ arguments_text (effect_tree effect.now)) }
{
    match effect {
        Effect::Plain(_) => Ok(()),
        Effect::OfConstant(_, c) => {
            text.append(b"(")?;
            append_constant(alloc, text, c)?;
            text.append(b")")
        }
        Effect::OfExpression(_, e) => {
            text.append(b"(")?;
            append_expression(alloc, text, e)?;
            text.append(b")")
        }
        Effect::OfNumber(_, n) => {
            text.append(b"(")?;
            text.append_signed(alloc, *n)?;
            text.append(b")")
        }
        Effect::OfNumbers(_, m, n) => {
            text.append(b"(")?;
            text.append_signed(alloc, *m)?;
            text.append(b", ")?;
            text.append_signed(alloc, *n)?;
            text.append(b")")
        }
    }
}

/// Appends a constant.
fn append_constant(alloc: Global, text: &mut ByteList, c: &Constant) -> Result<(), OutOfMemory>
    ensures { OnOk result (text.new ≡ text.old ++ value_text (constant_value c.now)) }
{
    match c {
        Constant::Truth(true) => text.append(b"TRUE"),
        Constant::Truth(false) => text.append(b"FALSE"),
        Constant::Number(n) => text.append_signed(alloc, *n),
        Constant::Symbol(x) => text.append(x.text()),
    }
}

/// The words before a file's own name.
#[tactic(auto, unfolding(crate::specs::InstructionText::file_words))]
fn file_words() -> &'static [u8]
    ensures { result.now ≡ file_words_text }
{
    b"FAULT EXTENSION "
}

/// The words before an extension's module.
#[tactic(auto, unfolding(crate::specs::InstructionText::extension_words))]
fn extension_words() -> &'static [u8]
    ensures { result.now ≡ extension_words_text }
{
    b"EXTENSION OF MODULE "
}
