//! The symbols of the grammar of instructions, and what comes of each with a token.
//!
//! A word of the grammar is expected only where no name is, and the other way round.
ghost use Rattle.std.specs.Prelude.{◌≡◌, ◌||◌, codes, map};
ghost use Rattle.smv_language.specs.Lexemes.{Lexeme};
ghost use Rattle.smv_expression_reader.specs.Marks.{mark_of};
ghost use Rattle.smv_expression_reader.specs.Places.{is_word};
ghost use Rattle.fault_instructions.specs.Effects.{first_kind};
ghost use Rattle.fault_reader.specs.InstructionGrammar as read;
ghost use Rattle.fault_reader.specs.Symbols.{symbol_view, comes};

use fault_instructions::{EffectKind, effect_kinds};
use smv_expression_reader::expected::{GrammarSymbol, Taking};
use smv_expression_reader::mark::Mark;
use smv_expression_reader::token::TokenText;

/// A token that stands alone between others.
#[derive(Clone, Copy, Debug, PartialEq, Eq)]
pub enum Single {
    Name,
    Number,
    Open,
    Close,
    Comma,
    Colon,
    Semicolon,
}

/// A part of the grammar that may still come.
#[derive(Clone, Copy, Debug, PartialEq, Eq)]
pub enum Symbol {
    Single(Single),
    /// The words `EXTENSION`, `OF`, `MODULE`, `AFFECTS`, `ANY` and `WITH`.
    ExtensionWord,
    OfWord,
    ModuleWord,
    AffectsWord,
    AnyWord,
    WithWord,
    Formula,
    File,
    Extensions,
    Slices,
    /// Which states a slice may start in.
    Start,
    Mode,
    Modes,
    /// A mode after its first word.
    ModeRest,
    Mark,
    /// A mark after its brace.
    InMark,
    Dynamics,
    Effect,
    Constant,
    Int,
    Guard,
}

/// Whether the token has the mark that is wanted.
fn is_single(single: Single, token: &TokenText) -> bool
    ensures { result ≡ read.is_single single (mark_of token.now) }
{
    match (single, token.mark()) {
        (Single::Name, Mark::Name) => true,
        (Single::Number, Mark::Number) => true,
        (Single::Open, Mark::Open) => true,
        (Single::Close, Mark::Close) => true,
        (Single::Comma, Mark::Comma) => true,
        (Single::Colon, Mark::Colon) => true,
        (Single::Semicolon, Mark::Semicolon) => true,
        _ => false,
    }
}

/// These, where the token fits.
fn where_so(fits: bool, behind: &'static [Symbol]) -> Taking<'static, Symbol>
    ensures { (t : Lexeme) → comes result t ≡ read.where_so fits (map symbol_view behind.now) }
{
    if fits {
        Taking::Then(behind)
    } else {
        Taking::Nothing
    }
}

/// An extension, and more of them.
fn after_extensions(token: &TokenText) -> Taking<'static, Symbol>
    ensures { comes result token.now ≡ read.after_extensions token.now }
{
    let behind = &[
        Symbol::OfWord,
        Symbol::ModuleWord,
        Symbol::Single(Single::Name),
        Symbol::Slices,
        Symbol::Extensions,
    ];
    where_so(token.is_word(b"EXTENSION"), behind)
}

/// The name of the file, where it gives itself one, and its extensions.
fn after_file(token: &TokenText) -> Taking<'static, Symbol>
    ensures { comes result token.now ≡ read.next read.file token.now }
{
    if token.is_word(b"FAULT") {
        Taking::Then(&[
            Symbol::ExtensionWord,
            Symbol::Single(Single::Name),
            Symbol::Extensions,
        ])
    } else {
        after_extensions(token)
    }
}

/// A slice, and more of them.
fn after_slices(token: &TokenText) -> Taking<'static, Symbol>
    ensures { comes result token.now ≡ read.next read.slices token.now }
{
    let behind = &[
        Symbol::Single(Single::Name),
        Symbol::AffectsWord,
        Symbol::Single(Single::Name),
        Symbol::Start,
        Symbol::WithWord,
        Symbol::Mode,
        Symbol::Modes,
        Symbol::Slices,
    ];
    where_so(token.is_word(b"SLICE"), behind)
}

/// A mode after its first word.
fn after_mode_rest(token: &TokenText) -> Taking<'static, Symbol>
    ensures { comes result token.now ≡ read.next read.mode_rest token.now }
{
    let behind = &[
        Symbol::Mark,
        Symbol::Single(Single::Colon),
        Symbol::Dynamics,
        Symbol::Effect,
        Symbol::Guard,
        Symbol::Single(Single::Semicolon),
    ];
    where_so(is_single(Single::Name, token), behind)
}

/// The brace that opens a mark.
fn after_mark(token: &TokenText) -> Taking<'static, Symbol>
    ensures { comes result token.now ≡ read.next read.mark token.now }
{
    match token.mark() {
        Mark::OpenBrace => Taking::Then(&[Symbol::InMark]),
        _ => Taking::Nothing,
    }
}

/// A token of a mark: every token but the closing brace goes on inside.
fn after_in_mark(token: &TokenText) -> Taking<'static, Symbol>
    ensures { comes result token.now ≡ read.next read.in_mark token.now }
{
    match token.mark() {
        Mark::CloseBrace => Taking::Then(&[]),
        _ => Taking::Then(&[Symbol::InMark]),
    }
}

/// Whether the token is `Permanent` or `Transient`.
fn is_dynamics(token: &TokenText) -> bool
    ensures { result ≡ (is_word token.now (codes "Permanent") || is_word token.now (codes "Transient")) }
{
    token.is_word(b"Permanent") || token.is_word(b"Transient")
}

/// The first of the effects whose word the token is.
#[tactic(auto, using(fault_instructions::proofs::EffectRows::kinds_more))]
fn effect_among(kinds: &[EffectKind], token: &TokenText) -> Option<EffectKind>
    ensures { result ≡ first_kind (λ w. is_word token.now w) kinds.now }
{
    for kind in kinds {
        if token.is_word(kind.keyword()) {
            return Some(*kind);
        }
    }
    None
}

/// The arguments of an effect in parentheses, where it has some.
fn arguments(kind: EffectKind) -> &'static [Symbol]
    ensures { map symbol_view result.now ≡ read.arguments kind }
{
    match kind {
        EffectKind::Plain(_) => &[],
        EffectKind::OfConstant(_) => &[
            Symbol::Single(Single::Open),
            Symbol::Constant,
            Symbol::Single(Single::Close),
        ],
        EffectKind::OfExpression(_) => &[
            Symbol::Single(Single::Open),
            Symbol::Formula,
            Symbol::Single(Single::Close),
        ],
        EffectKind::OfNumber(_) => &[
            Symbol::Single(Single::Open),
            Symbol::Int,
            Symbol::Single(Single::Close),
        ],
        EffectKind::OfNumbers(_) => &[
            Symbol::Single(Single::Open),
            Symbol::Int,
            Symbol::Single(Single::Comma),
            Symbol::Int,
            Symbol::Single(Single::Close),
        ],
    }
}

/// An effect, by its word.
#[tactic(auto, using(crate::proofs::Through::effect_comes))]
fn after_effect(token: &TokenText) -> Taking<'static, Symbol>
    ensures { comes result token.now ≡ read.next read.effect token.now }
{
    match effect_among(effect_kinds(), token) {
        Some(kind) => Taking::Then(arguments(kind)),
        None => Taking::Nothing,
    }
}

/// Whether the token is a truth value.
fn is_truth(token: &TokenText) -> bool
    ensures { result ≡ (is_word token.now (codes "TRUE") || is_word token.now (codes "FALSE")) }
{
    token.is_word(b"TRUE") || token.is_word(b"FALSE")
}

/// A number, with a minus or without.
fn after_int(token: &TokenText) -> Taking<'static, Symbol>
    ensures { comes result token.now ≡ read.next read.int token.now }
{
    match token.mark() {
        Mark::Number => Taking::Then(&[]),
        Mark::Minus => Taking::Then(&[Symbol::Single(Single::Number)]),
        _ => Taking::Nothing,
    }
}

/// A constant that is no truth value.
fn after_other_constant(token: &TokenText) -> Taking<'static, Symbol>
    ensures { comes result token.now ≡ read.after_constant (mark_of token.now) }
{
    match token.mark() {
        Mark::Name => Taking::Then(&[]),
        _ => after_int(token),
    }
}

/// A constant.
fn after_constant(token: &TokenText) -> Taking<'static, Symbol>
    ensures { comes result token.now ≡ read.next read.constant token.now }
{
    if is_truth(token) {
        Taking::Then(&[])
    } else {
        after_other_constant(token)
    }
}

impl GrammarSymbol for Symbol {
    ghost use Rattle.std.specs.Prelude.{refl};
    ghost use Rattle.fault_reader.specs.InstructionGrammar as read;
    ghost use Rattle.fault_reader.specs.Symbols.{symbol_view};

    ghost Sym = { read.Sym };

    ghost grammar = { read.instructions };

    ghost formula = { read.formula };

    ghost view = { symbol_view };

    fn may_be_empty(self) -> bool {
        match self {
            Symbol::File | Symbol::Extensions | Symbol::Slices | Symbol::Start => true,
            Symbol::Modes | Symbol::Mark | Symbol::Guard => true,
            _ => false,
        }
    }

    fn after(self, token: &TokenText) -> Taking<'static, Symbol> {
        match self {
            Symbol::Single(single) => where_so(is_single(single, token), &[]),
            Symbol::ExtensionWord => where_so(token.is_word(b"EXTENSION"), &[]),
            Symbol::OfWord => where_so(token.is_word(b"OF"), &[]),
            Symbol::ModuleWord => where_so(token.is_word(b"MODULE"), &[]),
            Symbol::AffectsWord => where_so(token.is_word(b"AFFECTS"), &[]),
            Symbol::AnyWord => where_so(token.is_word(b"ANY"), &[]),
            Symbol::WithWord => where_so(token.is_word(b"WITH"), &[]),
            Symbol::Formula => Taking::Begins(&[]),
            Symbol::File => after_file(token),
            Symbol::Extensions => after_extensions(token),
            Symbol::Slices => after_slices(token),
            Symbol::Start => where_so(token.is_word(b"INITIALLY"), &[Symbol::AnyWord]),
            Symbol::Mode => where_so(token.is_word(b"MODE"), &[Symbol::ModeRest]),
            Symbol::Modes => where_so(token.is_word(b"MODE"), &[Symbol::ModeRest, Symbol::Modes]),
            Symbol::ModeRest => after_mode_rest(token),
            Symbol::Mark => after_mark(token),
            Symbol::InMark => after_in_mark(token),
            Symbol::Dynamics => where_so(is_dynamics(token), &[]),
            Symbol::Effect => after_effect(token),
            Symbol::Constant => after_constant(token),
            Symbol::Int => after_int(token),
            Symbol::Guard => where_so(token.is_word(b"WHEN"), &[Symbol::Formula]),
        }
    }

    ghost formulas = { record { whole = λ st h. refl; next = λ st h t. refl } };
}
