//! The instructions, from the tokens that spell them.
//!
//! Each function goes along with a function on lexemes of `specs/InstructionParts.antt`. What stands behind the word of an effect
//! has a function of its own. Each round of a loop here takes a token at least, so that no loop has more rounds than
//! tokens are left.
ghost use Rattle.std.specs.Prelude.{◌≡◌, Err, IfOk, map};
ghost use Rattle.smv_expression_reader.specs.declared.fault.BuildFault.TheVariants as stop;
ghost use Rattle.smv_expression_reader.specs.SecondPass.{got, deep, none, has_word};
ghost use Rattle.fault_instructions.specs.Effects.{first_kind};
ghost use Rattle.fault_instructions.specs.Instructions.{constant_value, effect_tree, guard_tree, mode_tree, slice_tree, extension_tree};
ghost use Rattle.fault_instructions.specs.Instructions.{instruction_tree};
ghost use Rattle.fault_reader.specs.InstructionParts as part;

use base_values::{Dotted, Name};
use fault_instructions::{
    Constant, ConstantEffect, Dynamics, Effect, EffectKind, ExpressionEffect, Extension,
    ExtensionList, Instructions, MarkList, ModeList, ModeRule, NumberEffect, NumbersEffect, Slice,
    SliceList, Start, effect_kinds,
};
use smv_expression_reader::cursor::Cursor;
use smv_expression_reader::fault::BuildFault;
use smv_expression_reader::mark::Mark;
use smv_language::Expr;
use std::alloc::Global;

/// A constant: a truth value, a name or a number.
fn constant(alloc: Global, cursor: &mut Cursor) -> Result<Constant, BuildFault>
    ensures ok { IfOk result (λ made. part.const_at cursor.old ≡ got (constant_value made) cursor.new) }
    ensures deep { result ≡ Err stop.TooDeep → part.const_at cursor.old ≡ deep }
    ensures none { result ≡ Err stop.NoTree → part.const_at cursor.old ≡ none }
{
    if cursor.is_word(b"TRUE") {
        cursor.skip();
        Ok(Constant::Truth(true))
    } else if cursor.is_word(b"FALSE") {
        cursor.skip();
        Ok(Constant::Truth(false))
    } else if cursor.is_next(Mark::Name) {
        Ok(Constant::Symbol(cursor.name(alloc)?))
    } else {
        Ok(Constant::Number(cursor.read_number()?))
    }
}

/// A constant in parentheses.
fn of_constant(
    alloc: Global,
    kind: ConstantEffect,
    cursor: &mut Cursor,
) -> Result<Effect, BuildFault>
    ensures ok { IfOk result (λ made. part.constant_from kind cursor.old ≡ got (effect_tree made) cursor.new) }
    ensures deep { result ≡ Err stop.TooDeep → part.constant_from kind cursor.old ≡ deep }
    ensures none { result ≡ Err stop.NoTree → part.constant_from kind cursor.old ≡ none }
{
    cursor.expect(Mark::Open)?;
    let constant = constant(alloc, cursor)?;
    cursor.expect(Mark::Close)?;
    Ok(Effect::OfConstant(kind, constant))
}

/// An expression in parentheses.
fn of_expression(
    alloc: Global,
    kind: ExpressionEffect,
    cursor: &mut Cursor,
) -> Result<Effect, BuildFault>
    ensures ok { IfOk result (λ made. part.expression_from kind cursor.old ≡ got (effect_tree made) cursor.new) }
    ensures deep { result ≡ Err stop.TooDeep → part.expression_from kind cursor.old ≡ deep }
    ensures none { result ≡ Err stop.NoTree → part.expression_from kind cursor.old ≡ none }
{
    cursor.expect(Mark::Open)?;
    let value = cursor.expression(alloc)?;
    cursor.expect(Mark::Close)?;
    Ok(Effect::OfExpression(kind, value))
}

/// A number in parentheses.
fn of_number(kind: NumberEffect, cursor: &mut Cursor) -> Result<Effect, BuildFault>
    ensures ok { IfOk result (λ made. part.number_from kind cursor.old ≡ got (effect_tree made) cursor.new) }
    ensures deep { result ≡ Err stop.TooDeep → part.number_from kind cursor.old ≡ deep }
    ensures none { result ≡ Err stop.NoTree → part.number_from kind cursor.old ≡ none }
{
    cursor.expect(Mark::Open)?;
    let number = cursor.read_number()?;
    cursor.expect(Mark::Close)?;
    Ok(Effect::OfNumber(kind, number))
}

/// Two numbers in parentheses.
fn of_numbers(kind: NumbersEffect, cursor: &mut Cursor) -> Result<Effect, BuildFault>
    ensures ok { IfOk result (λ made. part.numbers_from kind cursor.old ≡ got (effect_tree made) cursor.new) }
    ensures deep { result ≡ Err stop.TooDeep → part.numbers_from kind cursor.old ≡ deep }
    ensures none { result ≡ Err stop.NoTree → part.numbers_from kind cursor.old ≡ none }
{
    cursor.expect(Mark::Open)?;
    let first = cursor.read_number()?;
    cursor.expect(Mark::Comma)?;
    let second = cursor.read_number()?;
    cursor.expect(Mark::Close)?;
    Ok(Effect::OfNumbers(kind, first, second))
}

/// What stands behind the word of an effect.
fn arguments(alloc: Global, kind: EffectKind, cursor: &mut Cursor) -> Result<Effect, BuildFault>
    ensures ok { IfOk result (λ made. part.arguments_at kind cursor.old ≡ got (effect_tree made) cursor.new) }
    ensures deep { result ≡ Err stop.TooDeep → part.arguments_at kind cursor.old ≡ deep }
    ensures none { result ≡ Err stop.NoTree → part.arguments_at kind cursor.old ≡ none }
{
    match kind {
        EffectKind::Plain(kind) => Ok(Effect::Plain(kind)),
        EffectKind::OfConstant(kind) => of_constant(alloc, kind, cursor),
        EffectKind::OfExpression(kind) => of_expression(alloc, kind, cursor),
        EffectKind::OfNumber(kind) => of_number(kind, cursor),
        EffectKind::OfNumbers(kind) => of_numbers(kind, cursor),
    }
}

/// The first of the effects whose word stands next.
#[tactic(auto, using(fault_instructions::proofs::EffectRows::kinds_more))]
fn effect_among(kinds: &[EffectKind], cursor: &Cursor) -> Option<EffectKind>
    ensures { result ≡ first_kind (λ w. has_word w cursor.now) kinds.now }
{
    for kind in kinds {
        if cursor.is_word(kind.keyword()) {
            return Some(*kind);
        }
    }
    None
}

/// An effect, by the word that it begins with.
fn effect(alloc: Global, cursor: &mut Cursor) -> Result<Effect, BuildFault>
    ensures ok { IfOk result (λ made. part.effect_at cursor.old ≡ got (effect_tree made) cursor.new) }
    ensures deep { result ≡ Err stop.TooDeep → part.effect_at cursor.old ≡ deep }
    ensures none { result ≡ Err stop.NoTree → part.effect_at cursor.old ≡ none }
{
    match effect_among(effect_kinds(), cursor) {
        Some(kind) => {
            cursor.skip();
            arguments(alloc, kind, cursor)
        }
        None => Err(BuildFault::NoTree),
    }
}

/// Whether a mode can be left: `Permanent` or `Transient`.
fn dynamics(cursor: &mut Cursor) -> Result<Dynamics, BuildFault>
    ensures ok { IfOk result (λ made. part.dynamics_at cursor.old ≡ got made cursor.new) }
    ensures deep { result ≡ Err stop.TooDeep → part.dynamics_at cursor.old ≡ deep }
    ensures none { result ≡ Err stop.NoTree → part.dynamics_at cursor.old ≡ none }
{
    if cursor.is_word(b"Permanent") {
        cursor.skip();
        Ok(Dynamics::Permanent)
    } else {
        cursor.expect_word(b"Transient")?;
        Ok(Dynamics::Transient)
    }
}

/// The condition of a mode, where it has one.
fn guard(alloc: Global, cursor: &mut Cursor) -> Result<Option<Expr<Dotted>>, BuildFault>
    ensures ok { IfOk result (λ made. part.guard_at cursor.old ≡ got (guard_tree made) cursor.new) }
    ensures deep { result ≡ Err stop.TooDeep → part.guard_at cursor.old ≡ deep }
    ensures none { result ≡ Err stop.NoTree → part.guard_at cursor.old ≡ none }
{
    if cursor.is_word(b"WHEN") {
        cursor.skip();
        Ok(Some(cursor.expression(alloc)?))
    } else {
        Ok(None)
    }
}

/// The texts of a mark's tokens, up to its closing brace.
fn mark_texts(alloc: Global, cursor: &mut Cursor) -> Result<MarkList, BuildFault>
    ensures ok { IfOk result (λ made. part.texts_at cursor.old ≡ got made cursor.new) }
    ensures deep { result ≡ Err stop.TooDeep → part.texts_at cursor.old ≡ deep }
    ensures none { result ≡ Err stop.NoTree → part.texts_at cursor.old ≡ none }
{
    let mut list = MarkList::new(alloc);
    let most = cursor.len();
    for round in 0..most {
        if cursor.is_next(Mark::CloseBrace) {
            return Ok(list);
        }
        list.push(cursor.text(alloc)?)?;
    }
    Ok(list)
}

/// The mark of a mode, where it has one.
fn mark(alloc: Global, cursor: &mut Cursor) -> Result<Option<MarkList>, BuildFault>
    ensures ok { IfOk result (λ made. part.marked_at cursor.old ≡ got made cursor.new) }
    ensures deep { result ≡ Err stop.TooDeep → part.marked_at cursor.old ≡ deep }
    ensures none { result ≡ Err stop.NoTree → part.marked_at cursor.old ≡ none }
{
    if cursor.is_next(Mark::OpenBrace) {
        cursor.skip();
        let texts = mark_texts(alloc, cursor)?;
        cursor.expect(Mark::CloseBrace)?;
        Ok(Some(texts))
    } else {
        Ok(None)
    }
}

/// What stands before the effect of a mode.
#[derive(Drop)]
struct ModeHead {
    name: Name,
    mark: Option<MarkList>,
    dynamics: Dynamics,
}

/// A mode up to its dynamics.
fn mode_head(alloc: Global, cursor: &mut Cursor) -> Result<ModeHead, BuildFault>
    ensures ok { IfOk result (λ made. part.head_at cursor.old ≡ got (part.head_tree made.name made.mark made.dynamics) cursor.new) }
    ensures deep { result ≡ Err stop.TooDeep → part.head_at cursor.old ≡ deep }
    ensures none { result ≡ Err stop.NoTree → part.head_at cursor.old ≡ none }
{
    cursor.expect_word(b"MODE")?;
    let name = cursor.name(alloc)?;
    let mark = mark(alloc, cursor)?;
    cursor.expect(Mark::Colon)?;
    let dynamics = dynamics(cursor)?;
    Ok(ModeHead {
        name,
        mark,
        dynamics,
    })
}

/// A mode, and the semicolon behind it.
fn mode(alloc: Global, cursor: &mut Cursor) -> Result<ModeRule, BuildFault>
    ensures ok { IfOk result (λ made. part.mode_at cursor.old ≡ got (mode_tree made) cursor.new) }
    ensures deep { result ≡ Err stop.TooDeep → part.mode_at cursor.old ≡ deep }
    ensures none { result ≡ Err stop.NoTree → part.mode_at cursor.old ≡ none }
{
    let head = mode_head(alloc, cursor)?;
    let effect = effect(alloc, cursor)?;
    let guard = guard(alloc, cursor)?;
    cursor.expect(Mark::Semicolon)?;
    Ok(ModeRule {
        name: head.name,
        mark: head.mark,
        dynamics: head.dynamics,
        effect,
        guard,
    })
}

/// One mode or more.
fn modes(alloc: Global, cursor: &mut Cursor) -> Result<ModeList, BuildFault>
    ensures ok { IfOk result (λ made. part.modes_at cursor.old ≡ got (map mode_tree made) cursor.new) }
    ensures deep { result ≡ Err stop.TooDeep → part.modes_at cursor.old ≡ deep }
    ensures none { result ≡ Err stop.NoTree → part.modes_at cursor.old ≡ none }
{
    let mut list = ModeList::new(alloc);
    list.push(mode(alloc, cursor)?)?;
    let most = cursor.len();
    for round in 0..most {
        if !cursor.is_word(b"MODE") {
            return Ok(list);
        }
        list.push(mode(alloc, cursor)?)?;
    }
    Ok(list)
}

/// Which states a slice may start in: nominal alone, where no words say it.
fn start(cursor: &mut Cursor) -> Result<Start, BuildFault>
    ensures ok { IfOk result (λ made. part.start_at cursor.old ≡ got made cursor.new) }
    ensures deep { result ≡ Err stop.TooDeep → part.start_at cursor.old ≡ deep }
    ensures none { result ≡ Err stop.NoTree → part.start_at cursor.old ≡ none }
{
    if cursor.is_word(b"INITIALLY") {
        cursor.skip();
        cursor.expect_word(b"ANY")?;
        Ok(Start::Any)
    } else {
        Ok(Start::Nominal)
    }
}

/// A slice with its modes.
fn slice(alloc: Global, cursor: &mut Cursor) -> Result<Slice, BuildFault>
    ensures ok { IfOk result (λ made. part.slice_at cursor.old ≡ got (slice_tree made) cursor.new) }
    ensures deep { result ≡ Err stop.TooDeep → part.slice_at cursor.old ≡ deep }
    ensures none { result ≡ Err stop.NoTree → part.slice_at cursor.old ≡ none }
{
    cursor.expect_word(b"SLICE")?;
    let name = cursor.name(alloc)?;
    cursor.expect_word(b"AFFECTS")?;
    let target = cursor.name(alloc)?;
    let start = start(cursor)?;
    cursor.expect_word(b"WITH")?;
    let modes = modes(alloc, cursor)?;
    Ok(Slice {
        name,
        target,
        start,
        modes,
    })
}

/// The slices of an extension, of which there may be none.
fn slices(alloc: Global, cursor: &mut Cursor) -> Result<SliceList, BuildFault>
    ensures ok { IfOk result (λ made. part.slices_at cursor.old ≡ got (map slice_tree made) cursor.new) }
    ensures deep { result ≡ Err stop.TooDeep → part.slices_at cursor.old ≡ deep }
    ensures none { result ≡ Err stop.NoTree → part.slices_at cursor.old ≡ none }
{
    let mut list = SliceList::new(alloc);
    let most = cursor.len();
    for round in 0..most {
        if !cursor.is_word(b"SLICE") {
            return Ok(list);
        }
        list.push(slice(alloc, cursor)?)?;
    }
    Ok(list)
}

/// An extension with its slices.
fn extension(alloc: Global, cursor: &mut Cursor) -> Result<Extension, BuildFault>
    ensures ok { IfOk result (λ made. part.extension_at cursor.old ≡ got (extension_tree made) cursor.new) }
    ensures deep { result ≡ Err stop.TooDeep → part.extension_at cursor.old ≡ deep }
    ensures none { result ≡ Err stop.NoTree → part.extension_at cursor.old ≡ none }
{
    cursor.expect_word(b"EXTENSION")?;
    cursor.expect_word(b"OF")?;
    cursor.expect_word(b"MODULE")?;
    let module = cursor.name(alloc)?;
    let slices = slices(alloc, cursor)?;
    Ok(Extension { module, slices })
}

/// The extensions of a file, of which there may be none.
fn extensions(alloc: Global, cursor: &mut Cursor) -> Result<ExtensionList, BuildFault>
    ensures ok { IfOk result (λ made. part.extensions_at cursor.old ≡ got (map extension_tree made) cursor.new) }
    ensures deep { result ≡ Err stop.TooDeep → part.extensions_at cursor.old ≡ deep }
    ensures none { result ≡ Err stop.NoTree → part.extensions_at cursor.old ≡ none }
{
    let mut list = ExtensionList::new(alloc);
    let most = cursor.len();
    for round in 0..most {
        if !cursor.is_word(b"EXTENSION") {
            return Ok(list);
        }
        list.push(extension(alloc, cursor)?)?;
    }
    Ok(list)
}

/// The name behind the word `FAULT`.
fn given_name(alloc: Global, cursor: &mut Cursor) -> Result<Name, BuildFault>
    ensures ok { IfOk result (λ made. part.given_name_at cursor.old ≡ got made cursor.new) }
    ensures deep { result ≡ Err stop.TooDeep → part.given_name_at cursor.old ≡ deep }
    ensures none { result ≡ Err stop.NoTree → part.given_name_at cursor.old ≡ none }
{
    cursor.expect_word(b"EXTENSION")?;
    cursor.name(alloc)
}

/// The name that a file gives itself, where it does.
fn file_name(alloc: Global, cursor: &mut Cursor) -> Result<Option<Name>, BuildFault>
    ensures ok { IfOk result (λ made. part.file_name_at cursor.old ≡ got made cursor.new) }
    ensures deep { result ≡ Err stop.TooDeep → part.file_name_at cursor.old ≡ deep }
    ensures none { result ≡ Err stop.NoTree → part.file_name_at cursor.old ≡ none }
{
    if cursor.is_word(b"FAULT") {
        cursor.skip();
        Ok(Some(given_name(alloc, cursor)?))
    } else {
        Ok(None)
    }
}

/// The instructions that all of the tokens spell.
pub fn file(alloc: Global, cursor: &mut Cursor) -> Result<Instructions, BuildFault>
    ensures ok { IfOk result (λ made. part.file_at cursor.old ≡ got (instruction_tree made) cursor.new) }
    ensures deep { result ≡ Err stop.TooDeep → part.file_at cursor.old ≡ deep }
    ensures none { result ≡ Err stop.NoTree → part.file_at cursor.old ≡ none }
{
    let name = file_name(alloc, cursor)?;
    let extensions = extensions(alloc, cursor)?;
    cursor.expect_end()?;
    Ok(Instructions { name, extensions })
}
