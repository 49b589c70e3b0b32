//! Names of own values in the nominal text: targets of assignments, single names in an INIT, and single names under
//! `next` in a TRANS. [`renamed_sections`] is the main function. There the text says what a variable is by itself;
//! everywhere else it reads the variable, and the name stays.
ghost use Rattle.std.specs.Prelude.{◌≡◌, [], ◌∷◌, IfOk, map};
ghost use Rattle.smv_language.specs.ExpressionTree.{tree_of, trees_of, branches_of};
ghost use Rattle.smv_language.specs.ProgramTree.{section_tree, assignment_tree};
ghost use Rattle.fault_instructions.specs.Instructions.{instruction_tree, is_affected as is_affected_in};
ghost use Rattle.fault_weave.specs.WovenProgram.{rename, renaming, tree_map_both, trees_map_both, branches_map_both, woven_assignment};
ghost use Rattle.fault_weave.specs.WovenProgram.{woven_section};

use crate::lookup::is_affected;
use base_values::{Dotted, Items, Name, OutOfMemory};
use fault_instructions::{Instructions, own_name};
use smv_language::{AssignList, Assignment, BranchList, Expr, ExprList, Section, SectionList};
use std::alloc::Global;

/// The module's sections, with the names of own values.
pub fn renamed_sections(
    alloc: Global,
    i: &Instructions,
    owner: &Name,
    sections: &[Section],
) -> Result<SectionList, OutOfMemory>
    ensures { IfOk result (λ made. map section_tree made
        ≡ map (woven_section (is_affected_in (instruction_tree i.now) owner.now)) (map section_tree sections.now)) }
{
    let mut made = Items::new(alloc);
    for section in sections {
        made.push(renamed_section(alloc, i, owner, section)?)?;
    }
    Ok(made)
}

/// A section, with the names of own values where its kind has them.
fn renamed_section(
    alloc: Global,
    i: &Instructions,
    owner: &Name,
    section: &Section,
) -> Result<Section, OutOfMemory>
    ensures { IfOk result (λ made. section_tree made
        ≡ woven_section (is_affected_in (instruction_tree i.now) owner.now) (section_tree section.now)) }
{
    match section {
        Section::Assign(list) => {
            let list = renamed_assignments(alloc, i, owner, list.as_slice())?;
            Ok(Section::Assign(list))
        }
        Section::Init(e) => Ok(Section::Init(renamed(alloc, i, owner, true, false, e)?)),
        Section::Trans(e) => Ok(Section::Trans(renamed(alloc, i, owner, false, true, e)?)),
        Section::Invar(e) => Ok(Section::Invar(e.copy(alloc)?)),
        Section::Var(_)
        | Section::Ivar(_)
        | Section::Frozen(_)
        | Section::Define(_)
        | Section::Constants(_) => section.copy(alloc),
    }
}

/// The assignments of a section, with the names of own values as targets.
fn renamed_assignments(
    alloc: Global,
    i: &Instructions,
    owner: &Name,
    assignments: &[Assignment],
) -> Result<AssignList, OutOfMemory>
    ensures { IfOk result (λ made. map assignment_tree made
        ≡ map (woven_assignment (is_affected_in (instruction_tree i.now) owner.now)) (map assignment_tree assignments.now)) }
{
    let mut made = Items::new(alloc);
    for assignment in assignments {
        made.push(renamed_assignment(alloc, i, owner, assignment)?)?;
    }
    Ok(made)
}

/// An assignment; its value reads variables, and so keeps its names.
fn renamed_assignment(
    alloc: Global,
    i: &Instructions,
    owner: &Name,
    assignment: &Assignment,
) -> Result<Assignment, OutOfMemory>
    ensures { IfOk result (λ made. assignment_tree made
        ≡ woven_assignment (is_affected_in (instruction_tree i.now) owner.now) (assignment_tree assignment.now)) }
{
    let target = renamed_name(alloc, i, owner, &assignment.target)?;
    let value = assignment.value.copy(alloc)?;
    Ok(Assignment {
        when: assignment.when,
        target,
        value,
    })
}

/// The name of the own value where this is the single name of an affected variable.
#[tactic(auto, using(crate::proofs::RenameLaws::rename_other))]
fn renamed_name(
    alloc: Global,
    i: &Instructions,
    owner: &Name,
    name: &Dotted,
) -> Result<Dotted, OutOfMemory>
    ensures { IfOk result (λ made. made ≡ rename (is_affected_in (instruction_tree i.now) owner.now) name.now) }
{
    match name.parts() {
        [single] => renamed_single(alloc, i, owner, single),
        _ => name.copy(),
    }
}

/// A name of one part: that of the own value, where a slice affects the variable.
fn renamed_single(
    alloc: Global,
    i: &Instructions,
    owner: &Name,
    x: &Name,
) -> Result<Dotted, OutOfMemory>
    ensures { IfOk result (λ made. made ≡ rename (is_affected_in (instruction_tree i.now) owner.now) (x.now ∷ [])) }
{
    if is_affected(i, owner, x) {
        let own = own_name(alloc, x)?;
        return Dotted::new(alloc, own);
    }
    let same = x.copy()?;
    Dotted::new(alloc, same)
}

/// A name of an expression, renamed where it speaks of own values.
fn renamed_leaf(
    alloc: Global,
    i: &Instructions,
    owner: &Name,
    owned: bool,
    name: &Dotted,
) -> Result<Dotted, OutOfMemory>
    ensures { IfOk result (λ made. made ≡ renaming owned (is_affected_in (instruction_tree i.now) owner.now) name.now) }
{
    if owned {
        renamed_name(alloc, i, owner, name)
    } else {
        name.copy()
    }
}

/// A copy of an expression with the names of own values outside `next` where `outside`, and under it
/// where `under`.
#[cycle(renamed)]
#[tactic(auto, using(smv_language::proofs::WrittenLaws::tree_of_case, smv_language::proofs::WrittenLaws::tree_of_set))]
fn renamed(
    alloc: Global,
    i: &Instructions,
    owner: &Name,
    outside: bool,
    under: bool,
    e: &Expr<Dotted>,
) -> Result<Expr<Dotted>, OutOfMemory>
    ensures { IfOk result (λ made. tree_of made ≡ tree_map_both (renaming outside (is_affected_in (instruction_tree i.now) owner.now))
        (renaming under (is_affected_in (instruction_tree i.now) owner.now)) (tree_of e.now)) }
{
    match e {
        Expr::Truth(b) => Ok(Expr::Truth(*b)),
        Expr::Number(n) => Ok(Expr::Number(*n)),
        Expr::Leaf(name) => Ok(Expr::Leaf(renamed_leaf(alloc, i, owner, outside, name)?)),
        Expr::Not(a) => Ok(Expr::Not(renamed_boxed(alloc, i, owner, outside, under, a)?)),
        Expr::Negate(a) => Ok(Expr::Negate(renamed_boxed(alloc, i, owner, outside, under, a)?)),
        Expr::Next(a) => Ok(Expr::Next(renamed_boxed(alloc, i, owner, under, under, a)?)),
        Expr::Binary(op, a, b) => Ok(Expr::Binary(
            *op,
            renamed_boxed(alloc, i, owner, outside, under, a)?,
            renamed_boxed(alloc, i, owner, outside, under, b)?,
        )),
        Expr::Choice(c, a, b) => Ok(Expr::Choice(
            renamed_boxed(alloc, i, owner, outside, under, c)?,
            renamed_boxed(alloc, i, owner, outside, under, a)?,
            renamed_boxed(alloc, i, owner, outside, under, b)?,
        )),
        Expr::Case(list) => {
            let branches = renamed_branches(alloc, i, owner, outside, under, list.as_slice())?;
            Ok(Expr::Case(branches))
        }
        Expr::SetOf(list) => {
            let members = renamed_members(alloc, i, owner, outside, under, list.as_slice())?;
            Ok(Expr::SetOf(members))
        }
        Expr::Span(lo, hi) => Ok(Expr::Span(*lo, *hi)),
    }
}

/// An operand, renamed and boxed.
#[cycle(renamed)]
fn renamed_boxed(
    alloc: Global,
    i: &Instructions,
    owner: &Name,
    outside: bool,
    under: bool,
    e: &Expr<Dotted>,
) -> Result<Box<Expr<Dotted>>, OutOfMemory>
    ensures { IfOk result (λ made. tree_of made.value
        ≡ tree_map_both (renaming outside (is_affected_in (instruction_tree i.now) owner.now))
        (renaming under (is_affected_in (instruction_tree i.now) owner.now)) (tree_of e.now)) }
{
    let made = renamed(alloc, i, owner, outside, under, e)?;
    match Box::new(alloc, made) {
        Ok(boxed) => Ok(boxed),
        Err(_refused) => Err(OutOfMemory),
    }
}

/// The members of a set, renamed.
#[cycle(renamed)]
fn renamed_members(
    alloc: Global,
    i: &Instructions,
    owner: &Name,
    outside: bool,
    under: bool,
    members: &[Expr<Dotted>],
) -> Result<ExprList<Dotted>, OutOfMemory>
    ensures { IfOk result (λ made. trees_of made ≡ trees_map_both (renaming outside (is_affected_in (instruction_tree i.now) owner.now))
        (renaming under (is_affected_in (instruction_tree i.now) owner.now)) (trees_of members.now)) }
{
    let mut made = Items::new(alloc);
    for member in members {
        made.push(renamed(alloc, i, owner, outside, under, member)?)?;
    }
    Ok(made)
}

/// The branches of a case, renamed.
#[cycle(renamed)]
fn renamed_branches(
    alloc: Global,
    i: &Instructions,
    owner: &Name,
    outside: bool,
    under: bool,
    branches: &[(Expr<Dotted>, Expr<Dotted>)],
) -> Result<BranchList<Dotted>, OutOfMemory>
    ensures { IfOk result (λ made. branches_of made
        ≡ branches_map_both (renaming outside (is_affected_in (instruction_tree i.now) owner.now))
        (renaming under (is_affected_in (instruction_tree i.now) owner.now)) (branches_of branches.now)) }
{
    let mut made = Items::new(alloc);
    for (condition, value) in branches {
        let condition = renamed(alloc, i, owner, outside, under, condition)?;
        made.push((condition, renamed(alloc, i, owner, outside, under, value)?))?;
    }
    Ok(made)
}
