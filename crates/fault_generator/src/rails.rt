//! The stages of a model: on which rail each is, and by which it is fed.
//!
//! The main function is [`rails`]. Each stage has the number that follows the one before it, and a bit of that chooses the rail.
ghost use Rattle.std.specs.Prelude.{◌≡◌, ◌<◌, ◌^◌, true, false, IfOk, OnOk};
ghost use Rattle.smv_language.specs.ProgramTree.{decl_tree};
ghost use Rattle.fault_generator.specs.Generator.{next_number as number_after, is_on_rail_a as is_on_a, with_stage, rails_of};
ghost use Rattle.fault_generator.specs.Generator.{stage as stage_of};
ghost use Rattle.fault_generator.specs.Stages.{told_rails};

use crate::parts::{one, output_of, stage_name};
use base_values::{Name, OutOfMemory};
use smv_language::{Decl, DeclList, Declared};
use std::alloc::Global;

/// Stages, and the last one of each rail.
#[derive(Drop)]
pub(crate) struct TwoRails {
    pub stages: DeclList,
    pub last_a: Option<u32>,
    pub last_b: Option<u32>,
}

/// So many stages, each on the rail that the numbers after this one give it.
pub(crate) fn rails(alloc: Global, number: u32, stages: u32) -> Result<TwoRails, OutOfMemory>
    ensures { IfOk result (λ rails. told_rails rails ≡ rails_of number stages) }
{
    let mut rails = TwoRails {
        stages: DeclList::new(alloc),
        last_a: None,
        last_b: None,
    };
    let mut seed = u64::from(number);
    for i in 0..stages {
        seed = next_number(seed);
        rails.add(alloc, is_on_rail_a(seed), i + 1)?;
    }
    Ok(rails)
}

/// The number after this one.
fn next_number(seed: u64) -> u64
    requires { seed < 2 ^ 32 }
    ensures next { result ≡ number_after seed }
    ensures small { result < 2 ^ 32 }
{
    (1_103_515_245 * seed + 12_345) % 2_147_483_648
}

/// Whether a stage with this number is on rail A.
fn is_on_rail_a(seed: u64) -> bool
    ensures { result ≡ is_on_a seed }
{
    seed / 65_536 % 2 == 0
}

impl TwoRails {
    /// Adds a stage to the rail, which its last stage feeds.
    fn add(&mut self, alloc: Global, on_a: bool, number: u32) -> Result<(), OutOfMemory>
        ensures { OnOk result (told_rails self.new ≡ with_stage on_a number (told_rails self.old)) }
    {
        if on_a {
            self.add_to_a(alloc, number)
        } else {
            self.add_to_b(alloc, number)
        }
    }

    /// Adds a stage to rail A.
    fn add_to_a(&mut self, alloc: Global, number: u32) -> Result<(), OutOfMemory>
        ensures { OnOk result (told_rails self.new ≡ with_stage true number (told_rails self.old)) }
    {
        let stage = stage(alloc, number, self.last_a)?;
        self.stages.push(stage)?;
        self.last_a = Some(number);
        Ok(())
    }

    /// Adds a stage to rail B.
    fn add_to_b(&mut self, alloc: Global, number: u32) -> Result<(), OutOfMemory>
        ensures { OnOk result (told_rails self.new ≡ with_stage false number (told_rails self.old)) }
    {
        let stage = stage(alloc, number, self.last_b)?;
        self.stages.push(stage)?;
        self.last_b = Some(number);
        Ok(())
    }
}

/// A stage: a relay that is fed by the last stage of its rail before it.
fn stage(alloc: Global, number: u32, before: Option<u32>) -> Result<Decl, OutOfMemory>
    ensures { IfOk result (λ made. decl_tree made ≡ stage_of number before) }
{
    let name = stage_name(alloc, number)?;
    let relay = Name::new(alloc, b"Relay")?;
    let feed = output_of(alloc, before)?;
    let actuals = one(alloc, feed)?;
    Ok(Decl {
        name,
        what: Declared::Instance(relay, actuals),
    })
}
