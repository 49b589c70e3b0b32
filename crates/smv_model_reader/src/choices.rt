//! What comes of each symbol of the grammar of programs with a token.
//!
//! One function stands for one symbol, as one case of `next` in `specs/ProgramGrammar.antt`.
ghost use Rattle.std.specs.Prelude.{◌≡◌};
ghost use Rattle.smv_expression_reader.specs.Marks.{mark_of, is_mark};
ghost use Rattle.smv_model_reader.specs.ProgramGrammar as read;
ghost use Rattle.smv_model_reader.specs.Symbols.{comes};

use crate::symbols::Symbol;
use smv_expression_reader::expected::{GrammarSymbol, Taking};
use smv_expression_reader::mark::{Mark, is_same};
use smv_expression_reader::token::TokenText;

/// Modules: one with its name, formals and sections, and more modules.
fn after_modules(token: &TokenText) -> Taking<'static, Symbol>
    ensures { comes result token.now ≡ read.next read.modules token.now }
{
    match token.mark() {
        Mark::Module => Taking::Then(&[
            Symbol::Name,
            Symbol::Formals,
            Symbol::Sections,
            Symbol::Modules,
        ]),
        _ => Taking::Nothing,
    }
}

/// The formals of a module, where a parenthesis opens them.
fn after_formals(token: &TokenText) -> Taking<'static, Symbol>
    ensures { comes result token.now ≡ read.next read.formals token.now }
{
    match token.mark() {
        Mark::Open => Taking::Then(&[Symbol::FirstFormal]),
        _ => Taking::Nothing,
    }
}

/// The first formal, or the parenthesis that closes none.
fn after_first_formal(token: &TokenText) -> Taking<'static, Symbol>
    ensures { comes result token.now ≡ read.next read.first_formal token.now }
{
    match token.mark() {
        Mark::Close => Taking::Then(&[]),
        Mark::Name => Taking::Then(&[Symbol::MoreFormals]),
        _ => Taking::Nothing,
    }
}

/// Behind a formal: a comma and one more, or the parenthesis that closes them.
fn after_more_formals(token: &TokenText) -> Taking<'static, Symbol>
    ensures { comes result token.now ≡ read.next read.more_formals token.now }
{
    match token.mark() {
        Mark::Close => Taking::Then(&[]),
        Mark::Comma => Taking::Then(&[Symbol::Name, Symbol::MoreFormals]),
        _ => Taking::Nothing,
    }
}

/// A section by its word, and more sections.
fn after_section(token: &TokenText) -> Taking<'static, Symbol>
    ensures { comes result token.now ≡ read.next read.sections token.now }
{
    match token.mark() {
        Mark::Var => Taking::Then(&[Symbol::Decls, Symbol::Sections]),
        Mark::Ivar => Taking::Then(&[Symbol::TypeDecls, Symbol::Sections]),
        Mark::Frozen => Taking::Then(&[Symbol::TypeDecls, Symbol::Sections]),
        Mark::Define => Taking::Then(&[Symbol::Defines, Symbol::Sections]),
        Mark::Constants => Taking::Then(&[Symbol::Name, Symbol::MoreConstants, Symbol::Sections]),
        Mark::Assign => Taking::Then(&[Symbol::Assigns, Symbol::Sections]),
        Mark::Init => Taking::Then(&[Symbol::Formula, Symbol::LastSemicolon, Symbol::Sections]),
        Mark::Invar => Taking::Then(&[Symbol::Formula, Symbol::LastSemicolon, Symbol::Sections]),
        Mark::Trans => Taking::Then(&[Symbol::Formula, Symbol::LastSemicolon, Symbol::Sections]),
        Mark::Skipped => Taking::Then(&[Symbol::Skip, Symbol::Sections]),
        _ => Taking::Nothing,
    }
}

/// A declaration of a variable or an instance, and more of them.
fn after_decls(token: &TokenText) -> Taking<'static, Symbol>
    ensures { comes result token.now ≡ read.next read.decls token.now }
{
    match token.mark() {
        Mark::Name => Taking::Then(&[
            Symbol::Colon,
            Symbol::Declared,
            Symbol::Semicolon,
            Symbol::Decls,
        ]),
        _ => Taking::Nothing,
    }
}

/// A declaration of a variable, and more of them.
fn after_type_decls(token: &TokenText) -> Taking<'static, Symbol>
    ensures { comes result token.now ≡ read.next read.type_decls token.now }
{
    match token.mark() {
        Mark::Name => Taking::Then(&[
            Symbol::Colon,
            Symbol::Type,
            Symbol::Semicolon,
            Symbol::TypeDecls,
        ]),
        _ => Taking::Nothing,
    }
}

/// A type: `boolean`, a range, or members in braces.
fn after_type(token: &TokenText) -> Taking<'static, Symbol>
    ensures { comes result token.now ≡ read.after_type (mark_of token.now) }
{
    match token.mark() {
        Mark::Boolean => Taking::Then(&[]),
        Mark::Number => Taking::Then(&[Symbol::Dots, Symbol::Int]),
        Mark::Minus => Taking::Then(&[Symbol::Number, Symbol::Dots, Symbol::Int]),
        Mark::OpenBrace => Taking::Then(&[Symbol::Member, Symbol::MoreMembers]),
        _ => Taking::Nothing,
    }
}

/// A module with its actuals, or a type.
fn after_declared(token: &TokenText) -> Taking<'static, Symbol>
    ensures { comes result token.now ≡ read.next read.declared token.now }
{
    match token.mark() {
        Mark::Name => Taking::Then(&[Symbol::Actuals]),
        _ => after_type(token),
    }
}

/// The actuals of an instance, where a parenthesis opens them.
fn after_actuals(token: &TokenText) -> Taking<'static, Symbol>
    ensures { comes result token.now ≡ read.next read.actuals token.now }
{
    match token.mark() {
        Mark::Open => Taking::Then(&[Symbol::FirstActual]),
        _ => Taking::Nothing,
    }
}

/// Behind an actual: a comma and one more, or the parenthesis that closes them.
fn after_more_actuals(token: &TokenText) -> Taking<'static, Symbol>
    ensures { comes result token.now ≡ read.next read.more_actuals token.now }
{
    match token.mark() {
        Mark::Close => Taking::Then(&[]),
        Mark::Comma => Taking::Then(&[Symbol::Formula, Symbol::MoreActuals]),
        _ => Taking::Nothing,
    }
}

/// A number, with a minus or without.
fn after_int(token: &TokenText) -> Taking<'static, Symbol>
    ensures { comes result token.now ≡ read.next read.int token.now }
{
    match token.mark() {
        Mark::Number => Taking::Then(&[]),
        Mark::Minus => Taking::Then(&[Symbol::Number]),
        _ => Taking::Nothing,
    }
}

/// A member of a type: a symbol or a number.
fn after_member(token: &TokenText) -> Taking<'static, Symbol>
    ensures { comes result token.now ≡ read.next read.member token.now }
{
    match token.mark() {
        Mark::Name => Taking::Then(&[]),
        Mark::Number => Taking::Then(&[]),
        Mark::Minus => Taking::Then(&[Symbol::Number]),
        _ => Taking::Nothing,
    }
}

/// Behind a member: a comma and one more, or the brace that closes them.
fn after_more_members(token: &TokenText) -> Taking<'static, Symbol>
    ensures { comes result token.now ≡ read.next read.more_members token.now }
{
    match token.mark() {
        Mark::CloseBrace => Taking::Then(&[]),
        Mark::Comma => Taking::Then(&[Symbol::Member, Symbol::MoreMembers]),
        _ => Taking::Nothing,
    }
}

/// A define, and more of them.
fn after_defines(token: &TokenText) -> Taking<'static, Symbol>
    ensures { comes result token.now ≡ read.next read.defines token.now }
{
    match token.mark() {
        Mark::Name => Taking::Then(&[
            Symbol::Becomes,
            Symbol::Formula,
            Symbol::Semicolon,
            Symbol::Defines,
        ]),
        _ => Taking::Nothing,
    }
}

/// Behind a constant: a comma and one more, or the semicolon that ends them.
fn after_more_constants(token: &TokenText) -> Taking<'static, Symbol>
    ensures { comes result token.now ≡ read.next read.more_constants token.now }
{
    match token.mark() {
        Mark::Semicolon => Taking::Then(&[]),
        Mark::Comma => Taking::Then(&[Symbol::Name, Symbol::MoreConstants]),
        _ => Taking::Nothing,
    }
}

/// An assignment, for all moments, the first or the next ones, and more of them.
fn after_assigns(token: &TokenText) -> Taking<'static, Symbol>
    ensures { comes result token.now ≡ read.next read.assigns token.now }
{
    match token.mark() {
        Mark::Name => Taking::Then(&[
            Symbol::MoreDots,
            Symbol::Becomes,
            Symbol::Formula,
            Symbol::Semicolon,
            Symbol::Assigns,
        ]),
        Mark::First => Taking::Then(&[
            Symbol::Open,
            Symbol::Name,
            Symbol::MoreDots,
            Symbol::Close,
            Symbol::Becomes,
            Symbol::Formula,
            Symbol::Semicolon,
            Symbol::Assigns,
        ]),
        Mark::After => Taking::Then(&[
            Symbol::Open,
            Symbol::Name,
            Symbol::MoreDots,
            Symbol::Close,
            Symbol::Becomes,
            Symbol::Formula,
            Symbol::Semicolon,
            Symbol::Assigns,
        ]),
        _ => Taking::Nothing,
    }
}

/// Behind a name: a dot and one more.
fn after_more_dots(token: &TokenText) -> Taking<'static, Symbol>
    ensures { comes result token.now ≡ read.next read.more_dots token.now }
{
    match token.mark() {
        Mark::Dot => Taking::Then(&[Symbol::Name, Symbol::MoreDots]),
        _ => Taking::Nothing,
    }
}

/// The semicolon of a formula, which may be left out.
fn after_last_semicolon(token: &TokenText) -> Taking<'static, Symbol>
    ensures { comes result token.now ≡ read.next read.last_semicolon token.now }
{
    match token.mark() {
        Mark::Semicolon => Taking::Then(&[]),
        _ => Taking::Nothing,
    }
}

/// A token of what is passed over.
fn after_skip(token: &TokenText) -> Taking<'static, Symbol>
    ensures { comes result token.now ≡ read.next read.skip token.now }
{
    if token.is_section() {
        Taking::Nothing
    } else {
        Taking::Then(&[Symbol::Skip])
    }
}

/// The first actual, or the parenthesis that closes none.
fn after_first_actual(token: &TokenText) -> Taking<'static, Symbol>
    ensures { comes result token.now ≡ read.next read.first_actual token.now }
{
    match token.mark() {
        Mark::Close => Taking::Then(&[]),
        _ => Taking::Begins(&[Symbol::MoreActuals]),
    }
}

/// Nothing more, where the token has this mark.
fn alone(token: &TokenText, mark: Mark) -> Taking<'static, Symbol>
    ensures { comes result token.now ≡ read.alone (is_mark (mark_of token.now) mark) }
{
    if is_same(token.mark(), mark) {
        Taking::Then(&[])
    } else {
        Taking::Nothing
    }
}

impl GrammarSymbol for Symbol {
    ghost use Rattle.std.specs.Prelude.{refl};
    ghost use Rattle.smv_model_reader.specs.ProgramGrammar as read;
    ghost use Rattle.smv_model_reader.specs.Symbols.{symbol_view};

    ghost Sym = { read.Sym };

    ghost grammar = { read.programs };

    ghost formula = { read.formula };

    ghost view = { symbol_view };

    fn may_be_empty(self) -> bool {
        match self {
            Symbol::Modules | Symbol::Formals | Symbol::Sections | Symbol::Decls => true,
            Symbol::TypeDecls | Symbol::Actuals | Symbol::Defines | Symbol::Assigns => true,
            Symbol::MoreDots | Symbol::Skip | Symbol::LastSemicolon => true,
            _ => false,
        }
    }

    fn after(self, token: &TokenText) -> Taking<'static, Symbol> {
        match self {
            Symbol::Name => alone(token, Mark::Name),
            Symbol::Number => alone(token, Mark::Number),
            Symbol::Colon => alone(token, Mark::Colon),
            Symbol::Becomes => alone(token, Mark::Becomes),
            Symbol::Semicolon => alone(token, Mark::Semicolon),
            Symbol::Open => alone(token, Mark::Open),
            Symbol::Close => alone(token, Mark::Close),
            Symbol::Dots => alone(token, Mark::Dots),
            Symbol::Formula => Taking::Begins(&[]),
            Symbol::Modules => after_modules(token),
            Symbol::Formals => after_formals(token),
            Symbol::FirstFormal => after_first_formal(token),
            Symbol::MoreFormals => after_more_formals(token),
            Symbol::Sections => after_section(token),
            Symbol::Decls => after_decls(token),
            Symbol::TypeDecls => after_type_decls(token),
            Symbol::Declared => after_declared(token),
            Symbol::Type => after_type(token),
            Symbol::Actuals => after_actuals(token),
            Symbol::FirstActual => after_first_actual(token),
            Symbol::MoreActuals => after_more_actuals(token),
            Symbol::Int => after_int(token),
            Symbol::Member => after_member(token),
            Symbol::MoreMembers => after_more_members(token),
            Symbol::Defines => after_defines(token),
            Symbol::MoreConstants => after_more_constants(token),
            Symbol::Assigns => after_assigns(token),
            Symbol::MoreDots => after_more_dots(token),
            Symbol::Skip => after_skip(token),
            Symbol::LastSemicolon => after_last_semicolon(token),
        }
    }

    ghost formulas = { record { whole = λ st h. refl; next = λ st h t. refl } };
}
