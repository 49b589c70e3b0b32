//! The instructions of generated models: each relay's output may be stuck at FALSE for good.
//!
//! The main function is [`generated_instructions`]; they are the same for every number and so many stages.
ghost use Rattle.std.specs.Prelude.{◌≡◌, IfOk};
ghost use Rattle.fault_instructions.specs.Instructions.{mode_tree, slice_tree, extension_tree, instruction_tree};
ghost use Rattle.fault_instructions.specs.WritableInstructions.{IsWritableInstructions};
ghost use Rattle.fault_generator.specs.Generator.{generated_instructions as instructions_tree, relay_extension as extension_of_relay};
ghost use Rattle.fault_generator.specs.Generator.{relay_slice as slice_of_relay, off_mode as off_tree};

use crate::parts::one;
use base_values::{Name, OutOfMemory};
use fault_instructions::{
    Constant, ConstantEffect, Dynamics, Effect, Extension, Instructions, ModeRule, Slice, Start,
};
use std::alloc::Global;

/// The instructions of every generated model. They can be written.
pub fn generated_instructions(alloc: Global) -> Result<Instructions, OutOfMemory>
    ensures instructions { IfOk result (λ i. instruction_tree i ≡ instructions_tree) }
    ensures writable { IfOk result (λ i. IsWritableInstructions (instruction_tree i)) }
{
    one_extension(alloc)
}

/// The instructions of one extension.
fn one_extension(alloc: Global) -> Result<Instructions, OutOfMemory>
    ensures { IfOk result (λ i. instruction_tree i ≡ instructions_tree) }
{
    let relay = relay_extension(alloc)?;
    let extensions = one(alloc, relay)?;
    Ok(Instructions {
        name: None,
        extensions,
    })
}

/// The extension of the module of relays.
fn relay_extension(alloc: Global) -> Result<Extension, OutOfMemory>
    ensures { IfOk result (λ made. extension_tree made ≡ extension_of_relay) }
{
    let module = Name::new(alloc, b"Relay")?;
    let slice = relay_slice(alloc)?;
    let slices = one(alloc, slice)?;
    Ok(Extension { module, slices })
}

/// The slice of a relay's output.
fn relay_slice(alloc: Global) -> Result<Slice, OutOfMemory>
    ensures { IfOk result (λ made. slice_tree made ≡ slice_of_relay) }
{
    let name = Name::new(alloc, b"R")?;
    let target = Name::new(alloc, b"out")?;
    let off = off_mode(alloc)?;
    let modes = one(alloc, off)?;
    Ok(Slice {
        name,
        target,
        start: Start::Nominal,
        modes,
    })
}

/// The mode in which a relay is off for good.
fn off_mode(alloc: Global) -> Result<ModeRule, OutOfMemory>
    ensures { IfOk result (λ made. mode_tree made ≡ off_tree) }
{
    let name = Name::new(alloc, b"off")?;
    Ok(ModeRule {
        name,
        mark: None,
        dynamics: Dynamics::Permanent,
        effect: Effect::OfConstant(ConstantEffect::StuckAt, Constant::Truth(false)),
        guard: None,
    })
}
