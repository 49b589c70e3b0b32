//! The tree of a program, from the tokens that spell it.
//!
//! Each function goes along with the function on lexemes of the same name in `specs/ProgramParts.antt`. Each round of a
//! loop here takes a token at least, so that no loop has more rounds than tokens are left.
ghost use Rattle.std.specs.Prelude.{◌≡◌, Err, IfOk, map, length};
ghost use Rattle.smv_language.specs.ExpressionTree.{tree_of};
ghost use Rattle.smv_language.specs.ProgramTree.{declared_tree, decl_tree, define_tree, assignment_tree, section_tree, module_tree};
ghost use Rattle.smv_language.specs.ProgramTree.{program_tree as tree_of_program};
ghost use Rattle.smv_expression_reader.specs.declared.fault.BuildFault.TheVariants as stop;
ghost use Rattle.smv_expression_reader.specs.SecondPass.{got, deep, none};
ghost use Rattle.smv_model_reader.specs.ProgramParts as part;

use base_values::{Dotted, Items};
use smv_expression_reader::cursor::Cursor;
use smv_expression_reader::fault::BuildFault;
use smv_expression_reader::mark::Mark;
use smv_language::{
    AssignList, Assignment, Decl, DeclList, Declared, Define, DefineList, Expr, ExprList, Member,
    MemberList, Module, ModuleList, Moment, NameList, Program, Section, SectionList,
};
use std::alloc::Global;

/// One or more names with dots between.
fn dotted(alloc: Global, cursor: &mut Cursor) -> Result<Dotted, BuildFault>
    ensures ok { IfOk result (λ v. part.dotted_at cursor.old ≡ got v cursor.new) }
    ensures deep { result ≡ Err stop.TooDeep → part.dotted_at cursor.old ≡ deep }
    ensures none { result ≡ Err stop.NoTree → part.dotted_at cursor.old ≡ none }
{
    let mut parts = Dotted::new(alloc, cursor.name(alloc)?)?;
    let most = cursor.len();
    for round in 0..most {
        if !cursor.is_next(Mark::Dot) {
            return Ok(parts);
        }
        cursor.skip();
        parts.push(cursor.name(alloc)?)?;
    }
    Ok(parts)
}

/// One or more names with commas between.
fn names(alloc: Global, cursor: &mut Cursor) -> Result<NameList, BuildFault>
    ensures ok { IfOk result (λ v. part.names_at cursor.old ≡ got v cursor.new) }
    ensures deep { result ≡ Err stop.TooDeep → part.names_at cursor.old ≡ deep }
    ensures none { result ≡ Err stop.NoTree → part.names_at cursor.old ≡ none }
{
    let mut names = Items::new(alloc);
    names.push(cursor.name(alloc)?)?;
    let most = cursor.len();
    for round in 0..most {
        if !cursor.is_next(Mark::Comma) {
            return Ok(names);
        }
        cursor.skip();
        names.push(cursor.name(alloc)?)?;
    }
    Ok(names)
}

/// A symbol or a number.
fn member(alloc: Global, cursor: &mut Cursor) -> Result<Member, BuildFault>
    ensures ok { IfOk result (λ v. part.member_at cursor.old ≡ got v cursor.new) }
    ensures deep { result ≡ Err stop.TooDeep → part.member_at cursor.old ≡ deep }
    ensures none { result ≡ Err stop.NoTree → part.member_at cursor.old ≡ none }
{
    if cursor.is_next(Mark::Name) {
        Ok(Member::Symbol(cursor.name(alloc)?))
    } else {
        Ok(Member::Number(cursor.read_number()?))
    }
}

/// One or more members with commas between.
fn members(alloc: Global, cursor: &mut Cursor) -> Result<MemberList, BuildFault>
    ensures ok { IfOk result (λ v. part.members_at cursor.old ≡ got v cursor.new) }
    ensures deep { result ≡ Err stop.TooDeep → part.members_at cursor.old ≡ deep }
    ensures none { result ≡ Err stop.NoTree → part.members_at cursor.old ≡ none }
{
    let mut members = Items::new(alloc);
    members.push(member(alloc, cursor)?)?;
    let most = cursor.len();
    for round in 0..most {
        if !cursor.is_next(Mark::Comma) {
            return Ok(members);
        }
        cursor.skip();
        members.push(member(alloc, cursor)?)?;
    }
    Ok(members)
}

/// Members, and the brace behind them.
fn braced(alloc: Global, cursor: &mut Cursor) -> Result<Declared, BuildFault>
    ensures ok { IfOk result (λ v. part.braced_at cursor.old ≡ got (declared_tree v) cursor.new) }
    ensures deep { result ≡ Err stop.TooDeep → part.braced_at cursor.old ≡ deep }
    ensures none { result ≡ Err stop.NoTree → part.braced_at cursor.old ≡ none }
{
    let members = members(alloc, cursor)?;
    cursor.expect(Mark::CloseBrace)?;
    Ok(Declared::Members(members))
}

/// Two numbers with dots between.
fn range(cursor: &mut Cursor) -> Result<Declared, BuildFault>
    ensures ok { IfOk result (λ v. part.range_at cursor.old ≡ got (declared_tree v) cursor.new) }
    ensures deep { result ≡ Err stop.TooDeep → part.range_at cursor.old ≡ deep }
    ensures none { result ≡ Err stop.NoTree → part.range_at cursor.old ≡ none }
{
    let lo = cursor.read_number()?;
    cursor.expect(Mark::Dots)?;
    let hi = cursor.read_number()?;
    Ok(Declared::Range(lo, hi))
}

/// The type of a variable.
fn type_of(alloc: Global, cursor: &mut Cursor) -> Result<Declared, BuildFault>
    ensures ok { IfOk result (λ v. part.type_at cursor.old ≡ got (declared_tree v) cursor.new) }
    ensures deep { result ≡ Err stop.TooDeep → part.type_at cursor.old ≡ deep }
    ensures none { result ≡ Err stop.NoTree → part.type_at cursor.old ≡ none }
{
    if cursor.is_next(Mark::Boolean) {
        cursor.skip();
        Ok(Declared::Boolean)
    } else if cursor.is_next(Mark::OpenBrace) {
        cursor.skip();
        braced(alloc, cursor)
    } else {
        range(cursor)
    }
}

/// One or more expressions with commas between.
fn actuals(alloc: Global, cursor: &mut Cursor) -> Result<ExprList<Dotted>, BuildFault>
    ensures ok { IfOk result (λ v. part.commas_at cursor.old ≡ got (map tree_of v) cursor.new) }
    ensures deep { result ≡ Err stop.TooDeep → part.commas_at cursor.old ≡ deep }
    ensures none { result ≡ Err stop.NoTree → part.commas_at cursor.old ≡ none }
{
    let mut actuals = Items::new(alloc);
    actuals.push(cursor.expression(alloc)?)?;
    let most = cursor.len();
    for round in 0..most {
        if !cursor.is_next(Mark::Comma) {
            return Ok(actuals);
        }
        cursor.skip();
        actuals.push(cursor.expression(alloc)?)?;
    }
    Ok(actuals)
}

/// Expressions, and the parenthesis behind them.
fn closed_actuals(alloc: Global, cursor: &mut Cursor) -> Result<ExprList<Dotted>, BuildFault>
    ensures ok { IfOk result (λ v. part.closed_at part.commas_at cursor.old ≡ got (map tree_of v) cursor.new) }
    ensures deep { result ≡ Err stop.TooDeep → part.closed_at part.commas_at cursor.old ≡ deep }
    ensures none { result ≡ Err stop.NoTree → part.closed_at part.commas_at cursor.old ≡ none }
{
    let actuals = actuals(alloc, cursor)?;
    cursor.expect(Mark::Close)?;
    Ok(actuals)
}

/// No actuals, or actuals in parentheses.
fn bracketed_actuals(alloc: Global, cursor: &mut Cursor) -> Result<ExprList<Dotted>, BuildFault>
    ensures ok { IfOk result (λ v. part.bracketed_at part.commas_at cursor.old ≡ got (map tree_of v) cursor.new) }
    ensures deep { result ≡ Err stop.TooDeep → part.bracketed_at part.commas_at cursor.old ≡ deep }
    ensures none { result ≡ Err stop.NoTree → part.bracketed_at part.commas_at cursor.old ≡ none }
{
    if !cursor.is_next(Mark::Open) {
        return Ok(Items::new(alloc));
    }
    cursor.skip();
    if cursor.is_next(Mark::Close) {
        cursor.skip();
        Ok(Items::new(alloc))
    } else {
        closed_actuals(alloc, cursor)
    }
}

/// A module, and its actuals where there are any.
fn instance(alloc: Global, cursor: &mut Cursor) -> Result<Declared, BuildFault>
    ensures ok { IfOk result (λ v. part.instance_at cursor.old ≡ got (declared_tree v) cursor.new) }
    ensures deep { result ≡ Err stop.TooDeep → part.instance_at cursor.old ≡ deep }
    ensures none { result ≡ Err stop.NoTree → part.instance_at cursor.old ≡ none }
{
    let module = cursor.name(alloc)?;
    let actuals = bracketed_actuals(alloc, cursor)?;
    Ok(Declared::Instance(module, actuals))
}

/// What a name is declared as: an instance, where a name follows, or else a variable by its type.
fn declared(alloc: Global, cursor: &mut Cursor) -> Result<Declared, BuildFault>
    ensures ok { IfOk result (λ v. part.declared_at cursor.old ≡ got (declared_tree v) cursor.new) }
    ensures deep { result ≡ Err stop.TooDeep → part.declared_at cursor.old ≡ deep }
    ensures none { result ≡ Err stop.NoTree → part.declared_at cursor.old ≡ none }
{
    if cursor.is_next(Mark::Name) {
        instance(alloc, cursor)
    } else {
        type_of(alloc, cursor)
    }
}

/// A declaration of a variable or an instance.
fn decl(alloc: Global, cursor: &mut Cursor) -> Result<Decl, BuildFault>
    ensures ok { IfOk result (λ v. part.decl_at part.declared_at cursor.old ≡ got (decl_tree v) cursor.new) }
    ensures deep { result ≡ Err stop.TooDeep → part.decl_at part.declared_at cursor.old ≡ deep }
    ensures none { result ≡ Err stop.NoTree → part.decl_at part.declared_at cursor.old ≡ none }
{
    let name = cursor.name(alloc)?;
    cursor.expect(Mark::Colon)?;
    let what = declared(alloc, cursor)?;
    cursor.expect(Mark::Semicolon)?;
    Ok(Decl { name, what })
}

/// A declaration of a variable.
fn type_decl(alloc: Global, cursor: &mut Cursor) -> Result<Decl, BuildFault>
    ensures ok { IfOk result (λ v. part.decl_at part.type_at cursor.old ≡ got (decl_tree v) cursor.new) }
    ensures deep { result ≡ Err stop.TooDeep → part.decl_at part.type_at cursor.old ≡ deep }
    ensures none { result ≡ Err stop.NoTree → part.decl_at part.type_at cursor.old ≡ none }
{
    let name = cursor.name(alloc)?;
    cursor.expect(Mark::Colon)?;
    let what = type_of(alloc, cursor)?;
    cursor.expect(Mark::Semicolon)?;
    Ok(Decl { name, what })
}

/// Declarations of variables and instances.
fn decls(alloc: Global, cursor: &mut Cursor) -> Result<DeclList, BuildFault>
    ensures ok { IfOk result (λ v. part.decls_at part.declared_at cursor.old ≡ got (map decl_tree v) cursor.new) }
    ensures deep { result ≡ Err stop.TooDeep → part.decls_at part.declared_at cursor.old ≡ deep }
    ensures none { result ≡ Err stop.NoTree → part.decls_at part.declared_at cursor.old ≡ none }
{
    let mut list = Items::new(alloc);
    let most = cursor.len();
    for round in 0..most {
        if !cursor.is_next(Mark::Name) {
            return Ok(list);
        }
        list.push(decl(alloc, cursor)?)?;
    }
    Ok(list)
}

/// Declarations of variables alone.
fn type_decls(alloc: Global, cursor: &mut Cursor) -> Result<DeclList, BuildFault>
    ensures ok { IfOk result (λ v. part.decls_at part.type_at cursor.old ≡ got (map decl_tree v) cursor.new) }
    ensures deep { result ≡ Err stop.TooDeep → part.decls_at part.type_at cursor.old ≡ deep }
    ensures none { result ≡ Err stop.NoTree → part.decls_at part.type_at cursor.old ≡ none }
{
    let mut list = Items::new(alloc);
    let most = cursor.len();
    for round in 0..most {
        if !cursor.is_next(Mark::Name) {
            return Ok(list);
        }
        list.push(type_decl(alloc, cursor)?)?;
    }
    Ok(list)
}

/// An expression, and the semicolon behind it.
fn value(alloc: Global, cursor: &mut Cursor) -> Result<Expr<Dotted>, BuildFault>
    ensures ok { IfOk result (λ v. part.value_at cursor.old ≡ got (tree_of v) cursor.new) }
    ensures deep { result ≡ Err stop.TooDeep → part.value_at cursor.old ≡ deep }
    ensures none { result ≡ Err stop.NoTree → part.value_at cursor.old ≡ none }
{
    let value = cursor.expression(alloc)?;
    cursor.expect(Mark::Semicolon)?;
    Ok(value)
}

/// A name and its value.
fn define(alloc: Global, cursor: &mut Cursor) -> Result<Define, BuildFault>
    ensures ok { IfOk result (λ v. part.define_at cursor.old ≡ got (define_tree v) cursor.new) }
    ensures deep { result ≡ Err stop.TooDeep → part.define_at cursor.old ≡ deep }
    ensures none { result ≡ Err stop.NoTree → part.define_at cursor.old ≡ none }
{
    let name = cursor.name(alloc)?;
    cursor.expect(Mark::Becomes)?;
    let value = value(alloc, cursor)?;
    Ok(Define { name, value })
}

/// The defines of a section.
fn defines(alloc: Global, cursor: &mut Cursor) -> Result<DefineList, BuildFault>
    ensures ok { IfOk result (λ v. part.defines_at cursor.old ≡ got (map define_tree v) cursor.new) }
    ensures deep { result ≡ Err stop.TooDeep → part.defines_at cursor.old ≡ deep }
    ensures none { result ≡ Err stop.NoTree → part.defines_at cursor.old ≡ none }
{
    let mut list = Items::new(alloc);
    let most = cursor.len();
    for round in 0..most {
        if !cursor.is_next(Mark::Name) {
            return Ok(list);
        }
        list.push(define(alloc, cursor)?)?;
    }
    Ok(list)
}

/// A name, and the parenthesis behind it.
fn closed_target(alloc: Global, cursor: &mut Cursor) -> Result<Dotted, BuildFault>
    ensures ok { IfOk result (λ v. part.closed_at part.dotted_at cursor.old ≡ got v cursor.new) }
    ensures deep { result ≡ Err stop.TooDeep → part.closed_at part.dotted_at cursor.old ≡ deep }
    ensures none { result ≡ Err stop.NoTree → part.closed_at part.dotted_at cursor.old ≡ none }
{
    let target = dotted(alloc, cursor)?;
    cursor.expect(Mark::Close)?;
    Ok(target)
}

/// A name in parentheses.
fn bracketed_target(alloc: Global, cursor: &mut Cursor) -> Result<Dotted, BuildFault>
    ensures ok { IfOk result (λ v. part.opened_at cursor.old ≡ got v cursor.new) }
    ensures deep { result ≡ Err stop.TooDeep → part.opened_at cursor.old ≡ deep }
    ensures none { result ≡ Err stop.NoTree → part.opened_at cursor.old ≡ none }
{
    cursor.expect(Mark::Open)?;
    closed_target(alloc, cursor)
}

/// The moment that an assignment is for, by the word that it begins with.
fn moment(cursor: &mut Cursor) -> Moment
    ensures moment { result ≡ part.moment_at cursor.old }
    ensures rest { cursor.new ≡ part.past_moment cursor.old }
{
    if cursor.is_next(Mark::First) {
        cursor.skip();
        Moment::First
    } else if cursor.is_next(Mark::After) {
        cursor.skip();
        Moment::After
    } else {
        Moment::Always
    }
}

/// What is assigned: a name, and in parentheses where it is for the first moment or the next ones.
fn target(alloc: Global, cursor: &mut Cursor, when: Moment) -> Result<Dotted, BuildFault>
    ensures ok { IfOk result (λ v. part.target_at when cursor.old ≡ got v cursor.new) }
    ensures deep { result ≡ Err stop.TooDeep → part.target_at when cursor.old ≡ deep }
    ensures none { result ≡ Err stop.NoTree → part.target_at when cursor.old ≡ none }
{
    match when {
        Moment::Always => dotted(alloc, cursor),
        Moment::First => bracketed_target(alloc, cursor),
        Moment::After => bracketed_target(alloc, cursor),
    }
}

/// A target and its value.
fn assignment(alloc: Global, cursor: &mut Cursor) -> Result<Assignment, BuildFault>
    ensures ok { IfOk result (λ v. part.assignment_at cursor.old ≡ got (assignment_tree v) cursor.new) }
    ensures deep { result ≡ Err stop.TooDeep → part.assignment_at cursor.old ≡ deep }
    ensures none { result ≡ Err stop.NoTree → part.assignment_at cursor.old ≡ none }
{
    let when = moment(cursor);
    let target = target(alloc, cursor, when)?;
    cursor.expect(Mark::Becomes)?;
    let value = value(alloc, cursor)?;
    Ok(Assignment {
        when,
        target,
        value,
    })
}

/// Whether an assignment begins here.
fn begins_assignment(cursor: &Cursor) -> bool
    ensures { result ≡ part.begins_assignment cursor.now }
{
    cursor.is_next(Mark::Name) || cursor.is_next(Mark::First) || cursor.is_next(Mark::After)
}

/// The assignments of a section.
fn assignments(alloc: Global, cursor: &mut Cursor) -> Result<AssignList, BuildFault>
    ensures ok { IfOk result (λ v. part.assigns_at cursor.old ≡ got (map assignment_tree v) cursor.new) }
    ensures deep { result ≡ Err stop.TooDeep → part.assigns_at cursor.old ≡ deep }
    ensures none { result ≡ Err stop.NoTree → part.assigns_at cursor.old ≡ none }
{
    let mut list = Items::new(alloc);
    let most = cursor.len();
    for round in 0..most {
        if !begins_assignment(cursor) {
            return Ok(list);
        }
        list.push(assignment(alloc, cursor)?)?;
    }
    Ok(list)
}

/// One or more names, and the semicolon behind them.
fn constants(alloc: Global, cursor: &mut Cursor) -> Result<NameList, BuildFault>
    ensures ok { IfOk result (λ v. part.constants_at cursor.old ≡ got v cursor.new) }
    ensures deep { result ≡ Err stop.TooDeep → part.constants_at cursor.old ≡ deep }
    ensures none { result ≡ Err stop.NoTree → part.constants_at cursor.old ≡ none }
{
    let names = names(alloc, cursor)?;
    cursor.expect(Mark::Semicolon)?;
    Ok(names)
}

/// An expression, and a semicolon if one follows.
fn formula(alloc: Global, cursor: &mut Cursor) -> Result<Expr<Dotted>, BuildFault>
    ensures ok { IfOk result (λ v. part.formula_at cursor.old ≡ got (tree_of v) cursor.new) }
    ensures deep { result ≡ Err stop.TooDeep → part.formula_at cursor.old ≡ deep }
    ensures none { result ≡ Err stop.NoTree → part.formula_at cursor.old ≡ none }
{
    let formula = cursor.expression(alloc)?;
    let _ended = cursor.take(Mark::Semicolon);
    Ok(formula)
}

/// Passes over all tokens up to the next section.
#[tactic(auto, using(crate::proofs::PartLaws::skipped_more, crate::proofs::PartLaws::skipped_end, crate::proofs::PartLaws::skipped_spent))]
fn pass_over(cursor: &mut Cursor)
    ensures { cursor.new ≡ part.past_skipped cursor.old }
{
    let most = cursor.len();
    for round in 0..most {
        if cursor.ends_skip() {
            return;
        }
        cursor.skip();
    }
}

/// What follows the word of a section.
fn section(alloc: Global, cursor: &mut Cursor, word: Mark) -> Result<Section, BuildFault>
    ensures ok { IfOk result (λ v. part.section_at word cursor.old ≡ got (section_tree v) cursor.new) }
    ensures deep { result ≡ Err stop.TooDeep → part.section_at word cursor.old ≡ deep }
    ensures none { result ≡ Err stop.NoTree → part.section_at word cursor.old ≡ none }
{
    match word {
        Mark::Var => Ok(Section::Var(decls(alloc, cursor)?)),
        Mark::Ivar => Ok(Section::Ivar(type_decls(alloc, cursor)?)),
        Mark::Frozen => Ok(Section::Frozen(type_decls(alloc, cursor)?)),
        Mark::Define => Ok(Section::Define(defines(alloc, cursor)?)),
        Mark::Constants => Ok(Section::Constants(constants(alloc, cursor)?)),
        Mark::Assign => Ok(Section::Assign(assignments(alloc, cursor)?)),
        Mark::Init => Ok(Section::Init(formula(alloc, cursor)?)),
        Mark::Invar => Ok(Section::Invar(formula(alloc, cursor)?)),
        Mark::Trans => Ok(Section::Trans(formula(alloc, cursor)?)),
        _ => Err(BuildFault::NoTree),
    }
}

/// Whether the mark is the word of a section that is kept.
fn begins_section(mark: Mark) -> bool
    ensures { result ≡ part.is_kept mark }
{
    match mark {
        Mark::Var => true,
        Mark::Ivar => true,
        Mark::Frozen => true,
        Mark::Define => true,
        Mark::Constants => true,
        Mark::Assign => true,
        Mark::Init => true,
        Mark::Invar => true,
        Mark::Trans => true,
        _ => false,
    }
}

/// The sections of a module, without those that are passed over.
fn sections(alloc: Global, cursor: &mut Cursor) -> Result<SectionList, BuildFault>
    ensures ok { IfOk result (λ v. part.sections_at (length cursor.old) cursor.old ≡ got (map section_tree v) cursor.new) }
    ensures deep { result ≡ Err stop.TooDeep → part.sections_at (length cursor.old) cursor.old ≡ deep }
    ensures none { result ≡ Err stop.NoTree → part.sections_at (length cursor.old) cursor.old ≡ none }
{
    let mut sections = Items::new(alloc);
    let most = cursor.len();
    for round in 0..most {
        let word = cursor.mark();
        if cursor.is_next(Mark::Skipped) {
            cursor.skip();
            pass_over(cursor);
        } else if begins_section(word) {
            cursor.skip();
            sections.push(section(alloc, cursor, word)?)?;
        } else {
            return Ok(sections);
        }
    }
    Ok(sections)
}

/// Names, and the parenthesis behind them.
fn closed_formals(alloc: Global, cursor: &mut Cursor) -> Result<NameList, BuildFault>
    ensures ok { IfOk result (λ v. part.closed_at part.names_at cursor.old ≡ got v cursor.new) }
    ensures deep { result ≡ Err stop.TooDeep → part.closed_at part.names_at cursor.old ≡ deep }
    ensures none { result ≡ Err stop.NoTree → part.closed_at part.names_at cursor.old ≡ none }
{
    let formals = names(alloc, cursor)?;
    cursor.expect(Mark::Close)?;
    Ok(formals)
}

/// No formals, or formals in parentheses.
fn formals(alloc: Global, cursor: &mut Cursor) -> Result<NameList, BuildFault>
    ensures ok { IfOk result (λ v. part.bracketed_at part.names_at cursor.old ≡ got v cursor.new) }
    ensures deep { result ≡ Err stop.TooDeep → part.bracketed_at part.names_at cursor.old ≡ deep }
    ensures none { result ≡ Err stop.NoTree → part.bracketed_at part.names_at cursor.old ≡ none }
{
    if !cursor.is_next(Mark::Open) {
        return Ok(Items::new(alloc));
    }
    cursor.skip();
    if cursor.is_next(Mark::Close) {
        cursor.skip();
        Ok(Items::new(alloc))
    } else {
        closed_formals(alloc, cursor)
    }
}

/// What follows the word of a module.
fn module(alloc: Global, cursor: &mut Cursor) -> Result<Module, BuildFault>
    ensures ok { IfOk result (λ v. part.module_at cursor.old ≡ got (module_tree v) cursor.new) }
    ensures deep { result ≡ Err stop.TooDeep → part.module_at cursor.old ≡ deep }
    ensures none { result ≡ Err stop.NoTree → part.module_at cursor.old ≡ none }
{
    let name = cursor.name(alloc)?;
    let formals = formals(alloc, cursor)?;
    let sections = sections(alloc, cursor)?;
    Ok(Module {
        name,
        formals,
        sections,
    })
}

/// The modules of a program, in written order.
fn modules(alloc: Global, cursor: &mut Cursor) -> Result<ModuleList, BuildFault>
    ensures ok { IfOk result (λ v. part.program_at cursor.old ≡ got (map module_tree v) cursor.new) }
    ensures deep { result ≡ Err stop.TooDeep → part.program_at cursor.old ≡ deep }
    ensures none { result ≡ Err stop.NoTree → part.program_at cursor.old ≡ none }
{
    let mut list = Items::new(alloc);
    let most = cursor.len();
    for round in 0..most {
        if !cursor.is_next(Mark::Module) {
            return Ok(list);
        }
        cursor.skip();
        list.push(module(alloc, cursor)?)?;
    }
    Ok(list)
}

/// The program that the tokens spell.
pub fn program_tree(alloc: Global, cursor: &mut Cursor) -> Result<Program, BuildFault>
    ensures ok { IfOk result (λ v. part.program_at cursor.old ≡ got (tree_of_program v) cursor.new) }
    ensures deep { result ≡ Err stop.TooDeep → part.program_at cursor.old ≡ deep }
    ensures none { result ≡ Err stop.NoTree → part.program_at cursor.old ≡ none }
{
    let modules = modules(alloc, cursor)?;
    Ok(Program { modules })
}
