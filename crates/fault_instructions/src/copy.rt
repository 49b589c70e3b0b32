//! Copies of instructions and of their parts. A collection keeps its allocator, so a copy of what holds one takes no other;
//! an effect may hold none, so its copy is given one.
ghost use Rattle.std.specs.Prelude.{◌≡◌, IfOk, map};
ghost use Rattle.fault_instructions.specs.Instructions.{instruction_tree, extension_tree, slice_tree, mode_tree, effect_tree, guard_tree};

use crate::instructions::{
    Constant, Effect, Extension, ExtensionList, Instructions, MarkList, ModeList, ModeRule, Slice,
    SliceList,
};
use base_values::{Dotted, Items, Name, OutOfMemory};
use smv_language::Expr;
use std::alloc::Global;

impl Instructions {
    /// A copy of their own, which is the same instructions.
    pub fn copy(&self) -> Result<Instructions, OutOfMemory>
        ensures { IfOk result (λ made. instruction_tree made ≡ instruction_tree self.now) }
    {
        let name = copy_name(&self.name)?;
        let extensions = copy_extensions(self.extensions.allocator(), self.extensions.as_slice())?;
        Ok(Instructions { name, extensions })
    }
}

impl Extension {
    /// A copy of its own, which is the same extension.
    pub fn copy(&self) -> Result<Extension, OutOfMemory>
        ensures { IfOk result (λ made. extension_tree made ≡ extension_tree self.now) }
    {
        let module = self.module.copy()?;
        let slices = copy_slices(self.slices.allocator(), self.slices.as_slice())?;
        Ok(Extension { module, slices })
    }
}

impl Slice {
    /// A copy of its own, which is the same slice.
    pub fn copy(&self) -> Result<Slice, OutOfMemory>
        ensures { IfOk result (λ made. slice_tree made ≡ slice_tree self.now) }
    {
        let name = self.name.copy()?;
        let target = self.target.copy()?;
        let modes = copy_modes(self.modes.allocator(), self.modes.as_slice())?;
        Ok(Slice {
            name,
            target,
            start: self.start,
            modes,
        })
    }
}

impl ModeRule {
    /// A copy of its own, which is the same mode.
    pub fn copy(&self) -> Result<ModeRule, OutOfMemory>
        ensures { IfOk result (λ made. mode_tree made ≡ mode_tree self.now) }
    {
        let name = self.name.copy()?;
        let mark = copy_mark(&self.mark)?;
        let effect = self.effect.copy(self.name.allocator())?;
        let guard = copy_guard(self.name.allocator(), &self.guard)?;
        Ok(ModeRule {
            name,
            mark,
            dynamics: self.dynamics,
            effect,
            guard,
        })
    }
}

impl Effect {
    /// A copy of its own, which is the same effect.
    pub fn copy(&self, alloc: Global) -> Result<Effect, OutOfMemory>
        ensures { IfOk result (λ made. effect_tree made ≡ effect_tree self.now) }
    {
        match self {
            Effect::Plain(kind) => Ok(Effect::Plain(*kind)),
            Effect::OfConstant(kind, c) => Ok(Effect::OfConstant(*kind, c.copy()?)),
            Effect::OfExpression(kind, e) => Ok(Effect::OfExpression(*kind, e.copy(alloc)?)),
            Effect::OfNumber(kind, n) => Ok(Effect::OfNumber(*kind, *n)),
            Effect::OfNumbers(kind, m, n) => Ok(Effect::OfNumbers(*kind, *m, *n)),
        }
    }
}

impl Constant {
    /// A copy of its own, which is the same constant.
    pub fn copy(&self) -> Result<Constant, OutOfMemory>
        ensures { IfOk result (λ made. made ≡ self.now) }
    {
        match self {
            Constant::Truth(b) => Ok(Constant::Truth(*b)),
            Constant::Number(n) => Ok(Constant::Number(*n)),
            Constant::Symbol(name) => Ok(Constant::Symbol(name.copy()?)),
        }
    }
}

/// A list of its own with a copy of each extension.
pub fn copy_extensions(
    alloc: Global,
    extensions: &[Extension],
) -> Result<ExtensionList, OutOfMemory>
    ensures { IfOk result (λ made. map extension_tree made ≡ map extension_tree extensions.now) }
{
    let mut made = Items::new(alloc);
    for extension in extensions {
        made.push(extension.copy()?)?;
    }
    Ok(made)
}

/// A list of its own with a copy of each slice.
pub fn copy_slices(alloc: Global, slices: &[Slice]) -> Result<SliceList, OutOfMemory>
    ensures { IfOk result (λ made. map slice_tree made ≡ map slice_tree slices.now) }
{
    let mut made = Items::new(alloc);
    for slice in slices {
        made.push(slice.copy()?)?;
    }
    Ok(made)
}

/// A list of its own with a copy of each mode.
pub fn copy_modes(alloc: Global, modes: &[ModeRule]) -> Result<ModeList, OutOfMemory>
    ensures { IfOk result (λ made. map mode_tree made ≡ map mode_tree modes.now) }
{
    let mut made = Items::new(alloc);
    for mode in modes {
        made.push(mode.copy()?)?;
    }
    Ok(made)
}

/// A copy of a file's own name, where it has one.
fn copy_name(name: &Option<Name>) -> Result<Option<Name>, OutOfMemory>
    ensures { IfOk result (λ made. made ≡ name.now) }
{
    match name {
        Some(name) => Ok(Some(name.copy()?)),
        None => Ok(None),
    }
}

/// A copy of a mode's mark, where it has one.
fn copy_mark(mark: &Option<MarkList>) -> Result<Option<MarkList>, OutOfMemory>
    ensures { IfOk result (λ made. made ≡ mark.now) }
{
    match mark {
        Some(texts) => Ok(Some(texts.copy()?)),
        None => Ok(None),
    }
}

/// A copy of a mode's guard, where it has one.
fn copy_guard(
    alloc: Global,
    guard: &Option<Expr<Dotted>>,
) -> Result<Option<Expr<Dotted>>, OutOfMemory>
    ensures { IfOk result (λ made. guard_tree made ≡ guard_tree guard.now) }
{
    match guard {
        Some(formula) => Ok(Some(formula.copy(alloc)?)),
        None => Ok(None),
    }
}
