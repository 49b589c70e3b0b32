//! The sections that a slice adds to its module: [`slice_variables`] declares the own value of its variable and the
//! slice's state, [`slice_assignments`] says how the state begins and moves and what the variable reads in each state, and
//! [`add_rules`] appends what the effects demand of steps and of the first moment.
//!
//! A state is nominal or one of the slice's modes. From nominal it may stay or enter a mode whose guard is TRUE, and a
//! permanent mode is never left. The text of each branch and rule is that of `fault_instructions`, effect by effect.
ghost use Rattle.std.specs.Prelude.{◌≡◌, true, [], ◌∷◌, ◌++◌, IfOk, OnOk, map, Some, None};
ghost use Rattle.smv_language.specs.Tree.{choice as choice_of, case_of, truth, branches_from};
ghost use Rattle.smv_language.specs.ExpressionTree.{tree_of, branch_trees};
ghost use Rattle.smv_language.specs.ProgramTree.{declared_tree, decl_tree, assignment_tree, section_tree};
ghost use Rattle.fault_instructions.specs.Instructions.{effect_tree, guard_tree, mode_tree, slice_tree};
ghost use Rattle.fault_instructions.specs.AddedNames.{own_name as own_name_of, mode_variable as mode_variable_of};
ghost use Rattle.fault_instructions.specs.AddedNames.{mode_symbol as mode_symbol_of};
ghost use Rattle.fault_instructions.specs.Templates.{named, stands as stands_tree, branch as branch_of, rules as rules_of};
ghost use Rattle.fault_instructions.specs.Templates.{first_rules as first_rules_of};
ghost use Rattle.fault_instructions.specs.Numbers.{TypeHasNegations};
ghost use Rattle.fault_weave.specs.WovenProgram.{set_one, guard_formula, entries as entries_tree, stay_branch as stay_tree, moves_tree};
ghost use Rattle.fault_weave.specs.WovenProgram.{read_tree, mode_type, slice_variables as slice_variables_of};
ghost use Rattle.fault_weave.specs.WovenProgram.{slice_assignments as slice_assignments_of, slice_rules, start_tree, start_rules};
ghost use Rattle.fault_weave.specs.WovenProgram.{mode_rules as mode_rules_of};
ghost use Rattle.fault_instructions.specs.WeaveNumbers.{ModeHasNegations, SliceHasNegations};

use base_values::{Dotted, Items, Name, OutOfMemory};
use fault_instructions::{
    Dynamics, ModeRule, Slice, Start, binary, branch, choice, first_rule, mode_symbol,
    mode_variable, named as name_expr, nominal_symbol, own_name, own_value, rule, set_of_one,
    set_of_two, stands, symbol_of,
};
use smv_language::{
    AssignList, Assignment, BranchList, Decl, DeclList, Declared, Expr, ExprList, Member,
    MemberList, Moment, Op, SectionList,
};
use std::alloc::Global;

/// The declarations of the own value, which has the variable's type, and of the slice's state.
pub fn slice_variables(alloc: Global, d: &Declared, s: &Slice) -> Result<DeclList, OutOfMemory>
    ensures { IfOk result (λ made. map decl_tree made ≡ slice_variables_of (declared_tree d.now) (slice_tree s.now)) }
{
    let own = own_declaration(alloc, d, &s.target)?;
    let state = state_declaration(alloc, s)?;
    let mut made = Items::new(alloc);
    made.push(own)?;
    made.push(state)?;
    Ok(made)
}

/// The declaration of the own value, of the variable's type.
fn own_declaration(alloc: Global, d: &Declared, target: &Name) -> Result<Decl, OutOfMemory>
    ensures { IfOk result (λ made. decl_tree made ≡ record { name = own_name_of target.now; what = declared_tree d.now }) }
{
    let name = own_name(alloc, target)?;
    let what = d.copy()?;
    Ok(Decl { name, what })
}

/// The declaration of the slice's state: nominal, or one of its modes.
fn state_declaration(alloc: Global, s: &Slice) -> Result<Decl, OutOfMemory>
    ensures { IfOk result (λ made. decl_tree made ≡ record { name = mode_variable_of s.now.name; what = mode_type (slice_tree s.now) }) }
{
    let name = mode_variable(alloc, &s.name)?;
    let states = states(alloc, s)?;
    Ok(Decl {
        name,
        what: Declared::Members(states),
    })
}

/// The symbols of the slice's states: nominal first, then the modes in order.
fn states(alloc: Global, s: &Slice) -> Result<MemberList, OutOfMemory>
    ensures { IfOk result (λ made. made ≡ Member.Symbol (mode_symbol_of s.now.name None) ∷ map (λ m. Member.Symbol
        (mode_symbol_of s.now.name (Some m.name))) (map mode_tree s.now.modes)) }
{
    let mut made = Items::new(alloc);
    made.push(Member::Symbol(nominal_symbol(alloc, &s.name)?))?;
    for mode in s.modes.as_slice() {
        made.push(Member::Symbol(mode_symbol(alloc, &s.name, &mode.name)?))?;
    }
    Ok(made)
}

/// The assignments of the state, at first and next, and of the read value.
pub fn slice_assignments(alloc: Global, d: &Declared, s: &Slice) -> Result<AssignList, OutOfMemory>
    requires numbers { SliceHasNegations s.now }
    requires declared { TypeHasNegations (declared_tree d.now) }
    ensures { IfOk result (λ made. map assignment_tree made ≡ slice_assignments_of (declared_tree d.now) (slice_tree s.now)) }
{
    let first = first_state(alloc, s)?;
    let after = next_state(alloc, s)?;
    let read = read_value(alloc, d, s)?;
    let mut made = Items::new(alloc);
    made.push(first)?;
    made.push(after)?;
    made.push(read)?;
    Ok(made)
}

/// The assignment that says how the state begins.
fn first_state(alloc: Global, s: &Slice) -> Result<Assignment, OutOfMemory>
    ensures { IfOk result (λ made. assignment_tree made
        ≡ record {
          when = Moment.First;
          target = mode_variable_of s.now.name ∷ [];
          value = start_tree s.now.name s.now.start (map mode_tree s.now.modes);
        }) }
{
    let state = mode_variable(alloc, &s.name)?;
    let target = Dotted::new(alloc, state)?;
    let value = start(alloc, s)?;
    Ok(Assignment {
        when: Moment::First,
        target,
        value,
    })
}

/// The assignment that says how the state moves.
fn next_state(alloc: Global, s: &Slice) -> Result<Assignment, OutOfMemory>
    ensures { IfOk result (λ made. assignment_tree made
        ≡ record { when = Moment.After; target = mode_variable_of s.now.name ∷ []; value = moves_tree (slice_tree s.now) }) }
{
    let state = mode_variable(alloc, &s.name)?;
    let target = Dotted::new(alloc, state)?;
    let value = moves(alloc, s)?;
    Ok(Assignment {
        when: Moment::After,
        target,
        value,
    })
}

/// The assignment that says what the variable reads.
fn read_value(alloc: Global, d: &Declared, s: &Slice) -> Result<Assignment, OutOfMemory>
    requires numbers { SliceHasNegations s.now }
    requires declared { TypeHasNegations (declared_tree d.now) }
    ensures { IfOk result (λ made. assignment_tree made
        ≡ record { when = Moment.Always; target = s.now.target ∷ []; value = read_tree (declared_tree d.now) (slice_tree s.now) }) }
{
    let variable = s.target.copy()?;
    let target = Dotted::new(alloc, variable)?;
    let value = read(alloc, d, s)?;
    Ok(Assignment {
        when: Moment::Always,
        target,
        value,
    })
}

/// The states that the slice may start in.
fn start(alloc: Global, s: &Slice) -> Result<Expr<Dotted>, OutOfMemory>
    ensures { IfOk result (λ made. tree_of made ≡ start_tree s.now.name s.now.start (map mode_tree s.now.modes)) }
{
    match s.start {
        Start::Nominal => nominal(alloc, &s.name),
        Start::Any => any_state(alloc, s),
    }
}

/// The set of the slice's states.
#[tactic(auto, using(smv_language::proofs::WrittenLaws::tree_of_set))]
fn any_state(alloc: Global, s: &Slice) -> Result<Expr<Dotted>, OutOfMemory>
    ensures { IfOk result (λ made. tree_of made ≡ start_tree s.now.name Start.Any (map mode_tree s.now.modes)) }
{
    let symbols = state_symbols(alloc, s)?;
    Ok(Expr::SetOf(symbols))
}

/// The symbols of the slice's states, as formulas: nominal first, then the modes in order.
fn state_symbols(alloc: Global, s: &Slice) -> Result<ExprList<Dotted>, OutOfMemory>
    ensures { IfOk result (λ made. map tree_of made
        ≡ named (mode_symbol_of s.now.name None) ∷ map (λ m. named (mode_symbol_of s.now.name (Some m.name))) (map mode_tree s.now.modes)) }
{
    let mut made = Items::new(alloc);
    made.push(nominal(alloc, &s.name)?)?;
    for mode in s.modes.as_slice() {
        made.push(symbol_of(alloc, &s.name, &mode.name)?)?;
    }
    Ok(made)
}

/// The symbol of the state in which no mode stands.
fn nominal(alloc: Global, slice: &Name) -> Result<Expr<Dotted>, OutOfMemory>
    ensures { IfOk result (λ made. tree_of made ≡ named (mode_symbol_of slice.now None)) }
{
    let name = nominal_symbol(alloc, slice)?;
    name_expr(alloc, name)
}

/// The next state: by cases on the state that stands.
fn moves(alloc: Global, s: &Slice) -> Result<Expr<Dotted>, OutOfMemory>
    ensures { IfOk result (λ made. tree_of made ≡ moves_tree (slice_tree s.now)) }
{
    let branches = stay_branches(alloc, s)?;
    let last = entries(alloc, s)?;
    closed(branches, last)
}

/// The case of the branches, and of a last one that always applies.
#[tactic(auto, using(smv_language::proofs::WrittenLaws::tree_of_case))]
fn closed(mut branches: BranchList<Dotted>, last: Expr<Dotted>) -> Result<Expr<Dotted>, OutOfMemory>
    ensures { IfOk result (λ made. tree_of made ≡ case_of (branches_from (map branch_trees branches ++ (truth true, tree_of last) ∷ []))) }
{
    branches.push((Expr::Truth(true), last))?;
    Ok(Expr::Case(branches))
}

/// For each mode the branch of the next state where it stands.
fn stay_branches(alloc: Global, s: &Slice) -> Result<BranchList<Dotted>, OutOfMemory>
    ensures { IfOk result (λ made. map branch_trees made
        ≡ map (λ m. (stands_tree s.now.name m.name, stay_tree s.now.name m.dynamics m.name)) (map mode_tree s.now.modes)) }
{
    let mut made = Items::new(alloc);
    for mode in s.modes.as_slice() {
        let test = stands(alloc, &s.name, &mode.name)?;
        made.push((test, stay_branch(alloc, &s.name, mode)?))?;
    }
    Ok(made)
}

/// A permanent mode stays, and a transient one may return.
fn stay_branch(alloc: Global, slice: &Name, mode: &ModeRule) -> Result<Expr<Dotted>, OutOfMemory>
    ensures { IfOk result (λ made. tree_of made ≡ stay_tree slice.now mode.now.dynamics mode.now.name) }
{
    match mode.dynamics {
        Dynamics::Permanent => symbol_of(alloc, slice, &mode.name),
        Dynamics::Transient => {
            let symbol = symbol_of(alloc, slice, &mode.name)?;
            let back = nominal(alloc, slice)?;
            set_of_two(alloc, symbol, back)
        }
    }
}

/// From nominal: it stays, or enters a mode whose guard is TRUE.
fn entries(alloc: Global, s: &Slice) -> Result<Expr<Dotted>, OutOfMemory>
    ensures { IfOk result (λ made. tree_of made ≡ entries_tree s.now.name (map mode_tree s.now.modes)) }
{
    let mut so_far = nominal_set(alloc, &s.name)?;
    for mode in s.modes.as_slice() {
        let entry = entry(alloc, &s.name, mode)?;
        so_far = binary(alloc, Op::Union, so_far, entry)?;
    }
    Ok(so_far)
}

/// The set of the nominal state alone.
fn nominal_set(alloc: Global, slice: &Name) -> Result<Expr<Dotted>, OutOfMemory>
    ensures { IfOk result (λ made. tree_of made ≡ set_one (mode_symbol_of slice.now None)) }
{
    let symbol = nominal(alloc, slice)?;
    set_of_one(alloc, symbol)
}

/// The mode where its guard is TRUE, and else nominal.
fn entry(alloc: Global, slice: &Name, mode: &ModeRule) -> Result<Expr<Dotted>, OutOfMemory>
    ensures { IfOk result (λ made. tree_of made ≡ choice_of (guard_formula (guard_tree mode.now.guard))
        (set_one (mode_symbol_of slice.now (Some mode.now.name))) (set_one (mode_symbol_of slice.now None))) }
{
    let test = guard(alloc, &mode.guard)?;
    let symbol = symbol_of(alloc, slice, &mode.name)?;
    let entered = set_of_one(alloc, symbol)?;
    let stays = nominal_set(alloc, slice)?;
    choice(alloc, test, entered, stays)
}

/// The guard of a mode; TRUE where none is written.
fn guard(alloc: Global, guard: &Option<Expr<Dotted>>) -> Result<Expr<Dotted>, OutOfMemory>
    ensures { IfOk result (λ made. tree_of made ≡ guard_formula (guard_tree guard.now)) }
{
    match guard {
        Some(formula) => formula.copy(alloc),
        None => Ok(Expr::Truth(true)),
    }
}

/// The read value: by cases on the state that stands.
fn read(alloc: Global, d: &Declared, s: &Slice) -> Result<Expr<Dotted>, OutOfMemory>
    requires numbers { SliceHasNegations s.now }
    requires declared { TypeHasNegations (declared_tree d.now) }
    ensures { IfOk result (λ made. tree_of made ≡ read_tree (declared_tree d.now) (slice_tree s.now)) }
{
    let branches = effect_branches(alloc, d, s)?;
    let last = own_value(alloc, &s.target)?;
    closed(branches, last)
}

/// For each mode the branch of what its effect lets be read.
fn effect_branches(
    alloc: Global,
    d: &Declared,
    s: &Slice,
) -> Result<BranchList<Dotted>, OutOfMemory>
    requires numbers { SliceHasNegations s.now }
    requires declared { TypeHasNegations (declared_tree d.now) }
    ensures { IfOk result (λ made. map branch_trees made
        ≡ map (λ m. (stands_tree s.now.name m.name, branch_of m.effect (declared_tree d.now) s.now.target)) (map mode_tree s.now.modes)) }
{
    let mut made = Items::new(alloc);
    for mode in s.modes.as_slice() {
        let test = stands(alloc, &s.name, &mode.name)?;
        made.push((test, branch(alloc, &mode.effect, &s.target, d)?))?;
    }
    Ok(made)
}

/// Appends the rule sections of the slice's modes, in order.
#[tactic(auto, using(crate::proofs::SliceLaws::weave_rules))]
pub fn add_rules(alloc: Global, s: &Slice, sections: &mut SectionList) -> Result<(), OutOfMemory>
    requires { SliceHasNegations s.now }
    ensures { OnOk result (map section_tree sections.new ≡ map section_tree sections.old ++ slice_rules (slice_tree s.now)) }
{
    for mode in s.modes.as_slice() {
        add_mode_rules(alloc, s, mode, sections)?;
    }
    Ok(())
}

/// Appends the rule sections of a mode, and behind them its first ones where the slice may start in it.
#[tactic(auto, using(crate::proofs::SliceLaws::weave_rules))]
fn add_mode_rules(
    alloc: Global,
    s: &Slice,
    mode: &ModeRule,
    sections: &mut SectionList,
) -> Result<(), OutOfMemory>
    requires { ModeHasNegations mode.now }
    ensures { OnOk result (map section_tree sections.new
        ≡ map section_tree sections.old ++ mode_rules_of s.now.start (effect_tree mode.now.effect) s.now.name mode.now.name s.now.target) }
{
    add_rule(alloc, s, mode, sections)?;
    add_start_rule(alloc, s, mode, sections)
}

/// Appends the rule of the first moment of a mode in which the slice may start.
#[tactic(auto, using(crate::proofs::SliceLaws::weave_rules))]
fn add_start_rule(
    alloc: Global,
    s: &Slice,
    mode: &ModeRule,
    sections: &mut SectionList,
) -> Result<(), OutOfMemory>
    requires { ModeHasNegations mode.now }
    ensures { OnOk result (map section_tree sections.new
        ≡ map section_tree sections.old ++ start_rules s.now.start (effect_tree mode.now.effect) s.now.name mode.now.name s.now.target) }
{
    match s.start {
        Start::Nominal => Ok(()),
        Start::Any => add_first_rule(alloc, s, mode, sections),
    }
}

/// Appends the rule of the first moment that an effect has, if it has one.
#[tactic(auto, using(crate::proofs::SliceLaws::weave_rules))]
fn add_first_rule(
    alloc: Global,
    s: &Slice,
    mode: &ModeRule,
    sections: &mut SectionList,
) -> Result<(), OutOfMemory>
    requires { ModeHasNegations mode.now }
    ensures { OnOk result (map section_tree sections.new
        ≡ map section_tree sections.old ++ first_rules_of (effect_tree mode.now.effect) s.now.name mode.now.name s.now.target) }
{
    match first_rule(alloc, &mode.effect, &s.name, &mode.name, &s.target)? {
        Some(section) => sections.push(section),
        None => Ok(()),
    }
}

/// Appends the rule of steps that an effect has, if it has one.
#[tactic(auto, using(crate::proofs::SliceLaws::weave_rules))]
fn add_rule(
    alloc: Global,
    s: &Slice,
    mode: &ModeRule,
    sections: &mut SectionList,
) -> Result<(), OutOfMemory>
    requires { ModeHasNegations mode.now }
    ensures { OnOk result (map section_tree sections.new
        ≡ map section_tree sections.old ++ rules_of (effect_tree mode.now.effect) s.now.name mode.now.name s.now.target) }
{
    match rule(alloc, &mode.effect, &s.name, &mode.name, &s.target)? {
        Some(section) => sections.push(section),
        None => Ok(()),
    }
}
