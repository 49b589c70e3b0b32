//! Printing a program: [`print_program`]. All text goes to the end of one buffer, so the work is linear in the text.
ghost use Rattle.std.specs.Prelude.{◌≡◌, ◌++◌, IfOk, OnOk, map};
ghost use Rattle.smv_language.specs.ProgramTree.{program_tree, module_tree, section_tree, decl_tree, declared_tree, define_tree};
ghost use Rattle.smv_language.specs.ProgramTree.{assignment_tree};
ghost use Rattle.smv_language.specs.Text.{program_text, module_text, section_text, decl_line, declared_text, define_line, assignment_line};
ghost use Rattle.smv_language.specs.Text.{target_text, member_text, constants_text, in_brackets, commas, line, all_of, text_of};
ghost use Rattle.smv_language.specs.ExpressionTree.{tree_of};
ghost use Rattle.smv_language.specs.WritableProgram.{IsWritableProgram};
ghost use Rattle.smv_language.specs.Bytes.{BytesSpellProgram};

use crate::expr::Expr;
use crate::print::{append_dotted, append_expr, append_expressions, append_names, append_span};
use crate::program::{
    Assignment, Decl, Declared, Define, Member, Module, Moment, Program, Section,
};
use base_values::{ByteList, Dotted, Name, OutOfMemory};
use std::alloc::Global;

/// The text of a program: each module's header, then its sections in order, each section's word on a line
/// of its own and each item on a line after two spaces.
pub fn print_program(alloc: Global, p: &Program) -> Result<Vec<u8>, OutOfMemory>
    ensures text { IfOk result (λ text. text.items ≡ program_text (program_tree p.now)) }
    // What can be written is read back as itself.
    ensures spells { IfOk result (λ text. IsWritableProgram (program_tree p.now) → BytesSpellProgram text.items (program_tree p.now)) }
{
    let mut text = ByteList::new(alloc);
    append_modules(alloc, &mut text, p.modules.as_slice())?;
    Ok(text.into_vec())
}

/// Appends modules, one after another.
#[tactic(auto, using(crate::proofs::TextLaws::print_rules))]
fn append_modules(alloc: Global, text: &mut ByteList, modules: &[Module]) -> Result<(), OutOfMemory>
    ensures { OnOk result (text.new ≡ text.old ++ all_of (map module_text (map module_tree modules.now))) }
{
    for module in modules {
        append_module(alloc, text, module)?;
    }
    Ok(())
}

/// Appends the line of a module's name and formals, and then its sections.
#[tactic(auto, using(crate::proofs::TextLaws::print_rules))]
fn append_module(alloc: Global, text: &mut ByteList, written: &Module) -> Result<(), OutOfMemory>
    ensures { OnOk result (text.new ≡ text.old ++ module_text (module_tree written.now)) }
{
    text.append(b"MODULE ")?;
    text.append(written.name.text())?;
    append_formals(text, written.formals.as_slice())?;
    text.append(b"\n")?;
    append_sections(alloc, text, written.sections.as_slice())
}

/// Appends the formals in parentheses, and nothing where there are none.
#[tactic(auto, using(crate::proofs::TextLaws::print_rules))]
fn append_formals(text: &mut ByteList, formals: &[Name]) -> Result<(), OutOfMemory>
    ensures { OnOk result (text.new ≡ text.old ++ in_brackets formals.now) }
{
    if formals.is_empty() {
        return Ok(());
    }
    text.append(b"(")?;
    append_names(text, formals, b", ")?;
    text.append(b")")
}

/// Appends sections, one after another.
#[tactic(auto, using(crate::proofs::TextLaws::print_rules))]
fn append_sections(
    alloc: Global,
    text: &mut ByteList,
    sections: &[Section],
) -> Result<(), OutOfMemory>
    ensures { OnOk result (text.new ≡ text.old ++ all_of (map section_text (map section_tree sections.now))) }
{
    for section in sections {
        append_section(alloc, text, section)?;
    }
    Ok(())
}

/// Appends a section: its word on a line of its own, and then what it holds.
#[tactic(auto, using(crate::proofs::TextLaws::print_rules))]
fn append_section(alloc: Global, text: &mut ByteList, section: &Section) -> Result<(), OutOfMemory>
    ensures { OnOk result (text.new ≡ text.old ++ section_text (section_tree section.now)) }
{
    match section {
        Section::Var(list) => {
            text.append(b"VAR\n")?;
            append_decls(alloc, text, list.as_slice())
        }
        Section::Ivar(list) => {
            text.append(b"IVAR\n")?;
            append_decls(alloc, text, list.as_slice())
        }
        Section::Frozen(list) => {
            text.append(b"FROZENVAR\n")?;
            append_decls(alloc, text, list.as_slice())
        }
        Section::Define(list) => {
            text.append(b"DEFINE\n")?;
            append_defines(alloc, text, list.as_slice())
        }
        Section::Constants(names) => {
            text.append(b"CONSTANTS\n")?;
            append_constants(text, names.as_slice())
        }
        Section::Assign(list) => {
            text.append(b"ASSIGN\n")?;
            append_assignments(alloc, text, list.as_slice())
        }
        Section::Init(e) => append_formula(alloc, text, b"INIT\n", e),
        Section::Invar(e) => append_formula(alloc, text, b"INVAR\n", e),
        Section::Trans(e) => append_formula(alloc, text, b"TRANS\n", e),
    }
}

/// Appends the word of a section, with the end of its line, and the line of its formula.
#[tactic(auto, using(crate::proofs::TextLaws::print_rules))]
fn append_formula(
    alloc: Global,
    text: &mut ByteList,
    word: &[u8],
    e: &Expr<Dotted>,
) -> Result<(), OutOfMemory>
    ensures { OnOk result (text.new ≡ text.old ++ (word.now ++ line (text_of (tree_of e.now)))) }
{
    text.append(word)?;
    text.append(b"  ")?;
    append_expr(alloc, text, e)?;
    text.append(b";\n")
}

/// Appends the one line of all constants, and nothing where there are none.
#[tactic(auto, using(crate::proofs::TextLaws::print_rules))]
fn append_constants(text: &mut ByteList, names: &[Name]) -> Result<(), OutOfMemory>
    ensures { OnOk result (text.new ≡ text.old ++ constants_text names.now) }
{
    if names.is_empty() {
        return Ok(());
    }
    text.append(b"  ")?;
    append_names(text, names, b", ")?;
    text.append(b";\n")
}

/// Appends declarations, each on a line.
#[tactic(auto, using(crate::proofs::TextLaws::print_rules))]
fn append_decls(alloc: Global, text: &mut ByteList, decls: &[Decl]) -> Result<(), OutOfMemory>
    ensures { OnOk result (text.new ≡ text.old ++ all_of (map decl_line (map decl_tree decls.now))) }
{
    for decl in decls {
        append_decl(alloc, text, decl)?;
    }
    Ok(())
}

/// Appends the line of a declaration.
#[tactic(auto, using(crate::proofs::TextLaws::print_rules))]
fn append_decl(alloc: Global, text: &mut ByteList, decl: &Decl) -> Result<(), OutOfMemory>
    ensures { OnOk result (text.new ≡ text.old ++ decl_line (decl_tree decl.now)) }
{
    text.append(b"  ")?;
    text.append(decl.name.text())?;
    text.append(b" : ")?;
    append_declared(alloc, text, &decl.what)?;
    text.append(b";\n")
}

/// Appends a type, or a module with its actuals.
#[tactic(auto, using(crate::proofs::TextLaws::print_rules))]
fn append_declared(alloc: Global, text: &mut ByteList, what: &Declared) -> Result<(), OutOfMemory>
    ensures { OnOk result (text.new ≡ text.old ++ declared_text (declared_tree what.now)) }
{
    match what {
        Declared::Boolean => text.append(b"boolean"),
        Declared::Range(lo, hi) => append_span(alloc, text, *lo, *hi),
        Declared::Members(list) => {
            text.append(b"{")?;
            append_members(alloc, text, list.as_slice())?;
            text.append(b"}")
        }
        Declared::Instance(module, actuals) => {
            text.append(module.text())?;
            append_actuals(alloc, text, actuals.as_slice())
        }
    }
}

/// Appends the actuals in parentheses, and nothing where there are none.
#[tactic(auto, using(crate::proofs::TextLaws::print_rules))]
fn append_actuals(
    alloc: Global,
    text: &mut ByteList,
    actuals: &[Expr<Dotted>],
) -> Result<(), OutOfMemory>
    ensures { OnOk result (text.new ≡ text.old ++ in_brackets (map text_of (map tree_of actuals.now))) }
{
    if actuals.is_empty() {
        return Ok(());
    }
    text.append(b"(")?;
    append_expressions(alloc, text, actuals)?;
    text.append(b")")
}

/// Appends the members of a type, with commas between.
#[tactic(auto, using(crate::proofs::TextLaws::print_rules))]
fn append_members(alloc: Global, text: &mut ByteList, members: &[Member]) -> Result<(), OutOfMemory>
    ensures { OnOk result (text.new ≡ text.old ++ commas (map member_text members.now)) }
{
    let [first, more @ ..] = members else {
        return Ok(());
    };
    append_member(alloc, text, first)?;
    for member in more {
        text.append(b", ")?;
        append_member(alloc, text, member)?;
    }
    Ok(())
}

/// Appends a number or a symbol.
fn append_member(alloc: Global, text: &mut ByteList, member: &Member) -> Result<(), OutOfMemory>
    ensures { OnOk result (text.new ≡ text.old ++ member_text member.now) }
{
    match member {
        Member::Number(n) => text.append_signed(alloc, *n),
        Member::Symbol(name) => text.append(name.text()),
    }
}

/// Appends defines, each on a line.
#[tactic(auto, using(crate::proofs::TextLaws::print_rules))]
fn append_defines(alloc: Global, text: &mut ByteList, defines: &[Define]) -> Result<(), OutOfMemory>
    ensures { OnOk result (text.new ≡ text.old ++ all_of (map define_line (map define_tree defines.now))) }
{
    for define in defines {
        append_define(alloc, text, define)?;
    }
    Ok(())
}

/// Appends the line of a define.
#[tactic(auto, using(crate::proofs::TextLaws::print_rules))]
fn append_define(alloc: Global, text: &mut ByteList, define: &Define) -> Result<(), OutOfMemory>
    ensures { OnOk result (text.new ≡ text.old ++ define_line (define_tree define.now)) }
{
    text.append(b"  ")?;
    text.append(define.name.text())?;
    text.append(b" := ")?;
    append_expr(alloc, text, &define.value)?;
    text.append(b";\n")
}

/// Appends assignments, each on a line.
#[tactic(auto, using(crate::proofs::TextLaws::print_rules))]
fn append_assignments(
    alloc: Global,
    text: &mut ByteList,
    assignments: &[Assignment],
) -> Result<(), OutOfMemory>
    ensures { OnOk result (text.new ≡ text.old ++ all_of (map assignment_line (map assignment_tree assignments.now))) }
{
    for assignment in assignments {
        append_assignment(alloc, text, assignment)?;
    }
    Ok(())
}

/// Appends the line of an assignment.
#[tactic(auto, using(crate::proofs::TextLaws::print_rules))]
fn append_assignment(
    alloc: Global,
    text: &mut ByteList,
    assignment: &Assignment,
) -> Result<(), OutOfMemory>
    ensures { OnOk result (text.new ≡ text.old ++ assignment_line (assignment_tree assignment.now)) }
{
    text.append(b"  ")?;
    append_target(text, assignment.when, &assignment.target)?;
    text.append(b" := ")?;
    append_expr(alloc, text, &assignment.value)?;
    text.append(b";\n")
}

/// Appends what is assigned: a name, alone or within `init(..)` or `next(..)`.
#[tactic(auto, using(crate::proofs::TextLaws::print_rules))]
fn append_target(text: &mut ByteList, when: Moment, target: &Dotted) -> Result<(), OutOfMemory>
    ensures { OnOk result (text.new ≡ text.old ++ target_text when target.now) }
{
    match when {
        Moment::Always => append_dotted(text, target),
        Moment::First => {
            text.append(b"init(")?;
            append_dotted(text, target)?;
            text.append(b")")
        }
        Moment::After => {
            text.append(b"next(")?;
            append_dotted(text, target)?;
            text.append(b")")
        }
    }
}
