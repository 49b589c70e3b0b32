//! Which definitions and expressions of a model read an input, themselves or through definitions.
ghost use Rattle.std.specs.Prelude.{◌≡◌, [], map, IfOk, slice_get};
ghost use Rattle.smv_language.specs.ExpressionTree.{trees_of, branches_of};
ghost use Rattle.smv_language.specs.Leaves.{trees_map, branches_map};
ghost use Rattle.smv_language.specs.ModelTree.{leaf_of, flat_tree, model_tree, variable_tree};
ghost use Rattle.sat_encoding_laws.specs.Inputs.{is_input_variable, reading_after};
ghost use Rattle.sat_encoding.specs.Reading.{names_read, tree_any, trees_any, branches_any};
ghost use Rattle.base_values.specs.Marks.{is_set};

use base_values::OutOfMemory;
use smv_language::Expr;
use smv_language::model::{Flat, FlatModel, Role, Variable};
use std::alloc::Global;

/// What is known of reading inputs: the model's variables, and for each definition whether it reads one.
#[derive(Drop)]
pub(crate) struct InputReads<'a> {
    /// The variables, by number.
    pub variables: &'a [Variable],
    /// Whether the definition of a number reads an input, as far as they were looked at.
    pub definitions: Vec<bool>,
}

/// For each definition whether it reads an input, from what those before it do.
pub(crate) fn reading_of<'a>(alloc: Global, m: &'a FlatModel) -> Result<InputReads<'a>, OutOfMemory>
    ensures variables { IfOk result (λ r. r.variables.now ≡ m.now.variables) }
    ensures reading { IfOk result (λ r. r.definitions.items
        ≡ reading_after (model_tree m.now).variables [] (model_tree m.now).definitions) }
{
    let mut reading = InputReads {
        variables: m.variables.as_slice(),
        definitions: Vec::new(alloc),
    };
    for definition in m.definitions.as_slice() {
        let reads = reads_input(&reading, &definition.value);
        reading.definitions.push(reads)?;
    }
    Ok(reading)
}

/// Whether a name is an input, or a definition that reads one.
fn names_input(reading: &InputReads<'_>, name: Flat) -> bool
    ensures { result ≡ names_read reading.now (leaf_of name) }
{
    match name {
        Flat::Var(i) => is_input(reading.variables, i),
        Flat::Symbol(_) => false,
        Flat::Definition(i) => is_flagged(&reading.definitions, i),
    }
}

// Whether the variable of a number is an input.
fn is_input(variables: &[Variable], i: u32) -> bool
    ensures { result ≡ is_input_variable (slice_get (map variable_tree variables.now) i) }
{
    match variables.get(i as usize) {
        Some(variable) => matches!(variable.role, Role::Input),
        None => false,
    }
}

// Whether the definition of a number reads one.
fn is_flagged(flags: &[bool], i: u32) -> bool
    ensures { result ≡ is_set (slice_get flags.now i) }
{
    match flags.get(i as usize) {
        Some(flag) => *flag,
        None => false,
    }
}

/// Whether an expression reads an input. Takes no memory.
#[cycle(reads)]
#[tactic(auto, using(smv_language::proofs::WrittenLaws::tree_of_case, smv_language::proofs::WrittenLaws::tree_of_set))]
pub(crate) fn reads_input(reading: &InputReads<'_>, e: &Expr<Flat>) -> bool
    ensures { result ≡ tree_any (names_read reading.now) (flat_tree e.now) }
{
    match e {
        Expr::Truth(_) | Expr::Number(_) | Expr::Span(_, _) => false,
        Expr::Leaf(name) => names_input(reading, *name),
        Expr::Not(a) | Expr::Negate(a) | Expr::Next(a) => reads_input(reading, a),
        Expr::Binary(_, a, b) => reads_input(reading, a) || reads_input(reading, b),
        Expr::Choice(c, a, b) => {
            reads_input(reading, c) | (reads_input(reading, a) | reads_input(reading, b))
        }
        Expr::Case(branches) => branch_reads(reading, branches.as_slice()),
        Expr::SetOf(members) => member_reads(reading, members.as_slice()),
    }
}

// Whether a member of a set does.
#[cycle(reads)]
fn member_reads(reading: &InputReads<'_>, members: &[Expr<Flat>]) -> bool
    ensures { result ≡ trees_any (names_read reading.now) (trees_map leaf_of (trees_of members.now)) }
{
    for member in members {
        if reads_input(reading, member) {
            return true;
        }
    }
    false
}

// Whether a condition or a value of a case does.
#[cycle(reads)]
fn branch_reads(reading: &InputReads<'_>, branches: &[(Expr<Flat>, Expr<Flat>)]) -> bool
    ensures { result ≡ branches_any (names_read reading.now) (branches_map leaf_of (branches_of branches.now)) }
{
    for (condition, value) in branches {
        if reads_input(reading, condition) || reads_input(reading, value) {
            return true;
        }
    }
    false
}
