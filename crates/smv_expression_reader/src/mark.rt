//! What a token is outside expressions: a `Mark`.
//!
//! The readers of programs and of instructions decide by it what comes next. The words of instructions are names here.
ghost use Rattle.std.specs.Prelude.{◌≡◌};
ghost use Rattle.smv_expression_reader.specs.Marks.{is_mark};

/// What a token is outside expressions.
#[derive(Clone, Copy, Debug, PartialEq, Eq)]
pub enum Mark {
    Module,
    Var,
    Ivar,
    Frozen,
    Define,
    Constants,
    Assign,
    Init,
    Invar,
    Trans,
    Skipped,
    Boolean,
    First,
    After,
    Name,
    Number,
    Becomes,
    Dots,
    Open,
    Close,
    OpenBrace,
    CloseBrace,
    Comma,
    Semicolon,
    Colon,
    Dot,
    Minus,
    Nothing,
}

/// Whether two marks are the same.
pub fn is_same(one: Mark, other: Mark) -> bool
    ensures { result ≡ is_mark one other }
{
    one == other
}
