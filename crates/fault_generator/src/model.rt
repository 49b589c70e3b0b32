//! The model and its top event: a module of relays, and `main` with the stages and the event.
//!
//! The main functions are [`generated_model`] and [`generated_top`]. The stages come from `rails`.
ghost use Rattle.std.specs.Prelude.{◌≡◌, [], ◌∷◌, IfOk};
ghost use Rattle.smv_language.specs.Tree.{not_of};
ghost use Rattle.smv_language.specs.ExpressionTree.{tree_of};
ghost use Rattle.smv_language.specs.ProgramTree.{section_tree, module_tree, program_tree};
ghost use Rattle.smv_language.specs.PrintedTokens.{IsWritable};
ghost use Rattle.smv_language.specs.WritableProgram.{IsWritableProgram};
ghost use Rattle.fault_generator.specs.Generator.{generated_model as model_of, generated_top as top_tree, relay_module as relay_tree};
ghost use Rattle.fault_generator.specs.Generator.{relay_variables as relay_variables_tree, relay_assignments as relay_assignments_tree};
ghost use Rattle.fault_generator.specs.Generator.{main_module as main_tree, dead_section, dead_formula, output_of as output_tree};
ghost use Rattle.fault_generator.specs.Stages.{told_rails};

use crate::parts::{named, one, output_of, single};
use crate::rails::{TwoRails, rails};
use base_values::{Dotted, Name, NameList, OutOfMemory};
use smv_language::{
    Assignment, Decl, Declared, Define, Expr, Module, ModuleList, Moment, Op, Program, Section,
    SectionList,
};
use std::alloc::Global;

/// The model of a number and so many stages. It can be written.
pub fn generated_model(alloc: Global, number: u32, stages: u32) -> Result<Program, OutOfMemory>
    ensures model { IfOk result (λ p. program_tree p ≡ model_of number stages) }
    ensures writable { IfOk result (λ p. IsWritableProgram (program_tree p)) }
{
    both_modules(alloc, number, stages)
}

/// The modules of the model.
fn both_modules(alloc: Global, number: u32, stages: u32) -> Result<Program, OutOfMemory>
    ensures { IfOk result (λ p. program_tree p ≡ model_of number stages) }
{
    let relay = relay_module(alloc)?;
    let rails = rails(alloc, number, stages)?;
    let main = main_module(alloc, rails)?;
    let mut modules = ModuleList::new(alloc);
    modules.push(relay)?;
    modules.push(main)?;
    Ok(Program { modules })
}

/// The event that both rails are dead, as a formula of `main`. It can be written.
pub fn generated_top(alloc: Global) -> Result<Expr<Dotted>, OutOfMemory>
    ensures top { IfOk result (λ top. tree_of top ≡ top_tree) }
    ensures writable { IfOk result (λ top. IsWritable (tree_of top)) }
{
    named(alloc, b"dead")
}

/// The module of relays, whose output is what feeds them.
fn relay_module(alloc: Global) -> Result<Module, OutOfMemory>
    ensures { IfOk result (λ made. module_tree made ≡ relay_tree) }
{
    let name = Name::new(alloc, b"Relay")?;
    let feed = Name::new(alloc, b"feed")?;
    let formals = one(alloc, feed)?;
    let variables = relay_variables(alloc)?;
    let assignments = relay_assignments(alloc)?;
    let sections = two(alloc, variables, assignments)?;
    Ok(Module {
        name,
        formals,
        sections,
    })
}

/// A module's two sections.
fn two(alloc: Global, first: Section, second: Section) -> Result<SectionList, OutOfMemory>
    ensures { IfOk result (λ made. made ≡ first ∷ second ∷ []) }
{
    let mut sections = SectionList::new(alloc);
    sections.push(first)?;
    sections.push(second)?;
    Ok(sections)
}

/// The declaration of a relay's output.
fn relay_variables(alloc: Global) -> Result<Section, OutOfMemory>
    ensures { IfOk result (λ made. section_tree made ≡ relay_variables_tree) }
{
    let name = Name::new(alloc, b"out")?;
    let out = Decl {
        name,
        what: Declared::Boolean,
    };
    let list = one(alloc, out)?;
    Ok(Section::Var(list))
}

/// That a relay's output is always what feeds it.
fn relay_assignments(alloc: Global) -> Result<Section, OutOfMemory>
    ensures { IfOk result (λ made. section_tree made ≡ relay_assignments_tree) }
{
    let target = single(alloc, b"out")?;
    let value = named(alloc, b"feed")?;
    let out = Assignment {
        when: Moment::Always,
        target,
        value,
    };
    let list = one(alloc, out)?;
    Ok(Section::Assign(list))
}

/// The module of the stages and the event.
fn main_module(alloc: Global, rails: TwoRails) -> Result<Module, OutOfMemory>
    ensures { IfOk result (λ made. module_tree made ≡ main_tree (told_rails rails)) }
{
    let TwoRails {
        stages,
        last_a,
        last_b,
    } = rails;
    let name = Name::new(alloc, b"main")?;
    let defines = defines(alloc, last_a, last_b)?;
    let sections = two(alloc, Section::Var(stages), defines)?;
    Ok(Module {
        name,
        formals: NameList::new(alloc),
        sections,
    })
}

/// The define of the event.
fn defines(alloc: Global, last_a: Option<u32>, last_b: Option<u32>) -> Result<Section, OutOfMemory>
    ensures { IfOk result (λ made. section_tree made ≡ dead_section last_a last_b) }
{
    let name = Name::new(alloc, b"dead")?;
    let value = dead(alloc, last_a, last_b)?;
    let list = one(alloc, Define { name, value })?;
    Ok(Section::Define(list))
}

/// The formula of the event: neither rail's last output is TRUE.
fn dead(
    alloc: Global,
    last_a: Option<u32>,
    last_b: Option<u32>,
) -> Result<Expr<Dotted>, OutOfMemory>
    ensures { IfOk result (λ made. tree_of made ≡ dead_formula last_a last_b) }
{
    let a = no_output(alloc, last_a)?;
    let b = no_output(alloc, last_b)?;
    let a = Box::new(alloc, a)?;
    let b = Box::new(alloc, b)?;
    Ok(Expr::Binary(Op::And, a, b))
}

/// That the last output of a rail is not TRUE.
fn no_output(alloc: Global, last: Option<u32>) -> Result<Expr<Dotted>, OutOfMemory>
    ensures { IfOk result (λ made. tree_of made ≡ not_of (output_tree last)) }
{
    let output = output_of(alloc, last)?;
    let output = Box::new(alloc, output)?;
    Ok(Expr::Not(output))
}
