//! Where the reading of expressions, lists and programs stops, and that depth costs no stack.
ghost use Rattle.std.specs.Prelude.{◌<◌, ◌^◌, length};

use crate::texts::nested;
use base_values::OutOfMemory;
use smv_expression_reader::{ParseFault, expression, expressions};
use smv_model_reader::program;
use std::alloc::Global;
use std::test::Fail;

/// What a text is read as.
#[derive(Clone, Copy, Debug, PartialEq, Eq)]
enum TextKind {
    Expression,
    List,
    Program,
}

/// A text, what it is read as, and its refusal where it has one.
type Case = (TextKind, &'static [u8], Option<ParseFault>);

static CASES: [Case; 56] = [
    (TextKind::Expression, b"a -> b -> c", None),
    (TextKind::Expression, b"a - b - c", None),
    (TextKind::Expression, b"!-1..3", None),
    (TextKind::Expression, b"!-1", Some(ParseFault::End(3))),
    (
        TextKind::Expression,
        b"!-x",
        Some(ParseFault::Unexpected(2)),
    ),
    (
        TextKind::Expression,
        b"!-1 + 2",
        Some(ParseFault::Unexpected(4)),
    ),
    (TextKind::Expression, b"- -1..3", None),
    (
        TextKind::Expression,
        b"1..3..5",
        Some(ParseFault::Unexpected(4)),
    ),
    (TextKind::Expression, b"1..", Some(ParseFault::End(3))),
    (TextKind::Expression, b"a ? b : c ? d : e", None),
    (TextKind::Expression, b"a ? b", Some(ParseFault::End(5))),
    (
        TextKind::Expression,
        b"a : b",
        Some(ParseFault::Unexpected(2)),
    ),
    (TextKind::Expression, b"case a : b; esac", None),
    (
        TextKind::Expression,
        b"case esac",
        Some(ParseFault::Unexpected(5)),
    ),
    (
        TextKind::Expression,
        b"case a : b esac",
        Some(ParseFault::Unexpected(11)),
    ),
    (TextKind::Expression, b"{}", Some(ParseFault::Unexpected(1))),
    (TextKind::Expression, b"{a, 1..2} union b", None),
    (TextKind::Expression, b"next(a.b) in c", None),
    (
        TextKind::Expression,
        b"next a",
        Some(ParseFault::Unexpected(5)),
    ),
    (
        TextKind::Expression,
        b"a.self",
        Some(ParseFault::LeftOut(2)),
    ),
    (
        TextKind::Expression,
        b"FAIRNESS",
        Some(ParseFault::LeftOut(0)),
    ),
    (
        TextKind::Expression,
        b"init",
        Some(ParseFault::Unexpected(0)),
    ),
    (TextKind::Expression, b"(a", Some(ParseFault::End(2))),
    (TextKind::Expression, b"", Some(ParseFault::End(0))),
    (TextKind::List, b"a; b;", None),
    (TextKind::List, b"a;; b", Some(ParseFault::Unexpected(2))),
    (TextKind::List, b"", Some(ParseFault::End(0))),
    (TextKind::List, b"a;", None),
    (TextKind::List, b"a b", Some(ParseFault::Unexpected(2))),
    (TextKind::List, b"a; self", Some(ParseFault::LeftOut(3))),
    (TextKind::List, b"(a", Some(ParseFault::End(2))),
    (TextKind::Program, b"", None),
    (TextKind::Program, b"MODULE", Some(ParseFault::End(6))),
    (TextKind::Program, b"main", Some(ParseFault::Unexpected(0))),
    (TextKind::Program, b"MODULE main VAR x : boolean;", None),
    (
        TextKind::Program,
        b"MODULE main VAR x boolean;",
        Some(ParseFault::Unexpected(18)),
    ),
    (
        TextKind::Program,
        b"MODULE main VAR x : boolean",
        Some(ParseFault::End(27)),
    ),
    (
        TextKind::Program,
        b"MODULE main VAR process : boolean;",
        Some(ParseFault::LeftOut(16)),
    ),
    (
        TextKind::Program,
        b"MODULE main IVAR x : m;",
        Some(ParseFault::Unexpected(21)),
    ),
    (TextKind::Program, b"MODULE main INIT TRUE VAR", None),
    (
        TextKind::Program,
        b"MODULE main INIT TRUE; TRUE",
        Some(ParseFault::Unexpected(23)),
    ),
    (
        TextKind::Program,
        b"MODULE main SPEC AG self process x; MODULE b",
        None,
    ),
    (
        TextKind::Program,
        b"MODULE main SPEC x FAIRNESS y",
        Some(ParseFault::LeftOut(19)),
    ),
    (
        TextKind::Program,
        b"MODULE m() VAR a : m(); b : m(1, x);",
        None,
    ),
    (
        TextKind::Program,
        b"MODULE m(a, )",
        Some(ParseFault::Unexpected(12)),
    ),
    (
        TextKind::Program,
        b"MODULE main ASSIGN init(x.y) := 1; next(z) := {1, 2}; w := z;",
        None,
    ),
    (
        TextKind::Program,
        b"MODULE main ASSIGN init x := 1;",
        Some(ParseFault::Unexpected(24)),
    ),
    (TextKind::Program, b"MODULE main VAR x : {a, -1, 2};", None),
    (
        TextKind::Program,
        b"MODULE main VAR x : {};",
        Some(ParseFault::Unexpected(21)),
    ),
    (
        TextKind::Program,
        b"MODULE main VAR x : 1..y;",
        Some(ParseFault::Unexpected(23)),
    ),
    (TextKind::Program, b"MODULE main CONSTANTS a, b;", None),
    (
        TextKind::Program,
        b"MODULE main CONSTANTS ;",
        Some(ParseFault::Unexpected(22)),
    ),
    (
        TextKind::Program,
        b"MODULE main DEFINE d := a + ;",
        Some(ParseFault::Unexpected(28)),
    ),
    (
        TextKind::Program,
        b"MODULE main FROZENVAR f : -1..2; LTLSPEC G f",
        None,
    ),
    (
        TextKind::Program,
        b"MODULE main TRANS next(x) = array",
        Some(ParseFault::LeftOut(28)),
    ),
    (
        TextKind::Program,
        b"MODULE main ISA m",
        Some(ParseFault::LeftOut(12)),
    ),
];

/// The refusal of a text that is read as this.
fn refusal(alloc: Global, kind: TextKind, text: &[u8]) -> Option<ParseFault>
    requires { length text.now < 2 ^ 32 }
{
    match kind {
        TextKind::Expression => expression(alloc, text).err(),
        TextKind::List => expressions(alloc, text).err(),
        TextKind::Program => program(alloc, text).err(),
    }
}

#[test]
fn stops_where_no_text_goes_on(rt: HostRuntime) -> Result<(), Fail> {
    for (i, (kind, text, expected)) in CASES.iter().enumerate() {
        assert!(rt; text.len() < 100);
        let found = refusal(rt.alloc(), *kind, text);
        assert!(rt; found == *expected, "case {i}");
    }
    Ok(())
}

/// What a text is read as, the text, and its refusal where it has one. The text is its front, so many times what
/// opens, its middle, as many times what closes, and its back.
type Repeated = (
    TextKind,
    &'static [u8],
    &'static [u8],
    usize,
    &'static [u8],
    &'static [u8],
    Option<ParseFault>,
);

static REPEATED: [Repeated; 13] = [
    (TextKind::Expression, b"", b"(", 1000, b")", b"", None),
    (
        TextKind::Expression,
        b"",
        b"(",
        1001,
        b")",
        b"",
        Some(ParseFault::TooDeep),
    ),
    (
        TextKind::Expression,
        b"",
        b"(",
        1001,
        b")",
        b")",
        Some(ParseFault::Unexpected(2003)),
    ),
    (TextKind::Expression, b"", b"!", 999, b"", b"", None),
    (
        TextKind::Expression,
        b"",
        b"!",
        1000,
        b"",
        b"",
        Some(ParseFault::TooDeep),
    ),
    (
        TextKind::List,
        b"a; ",
        b"(",
        1001,
        b")",
        b";",
        Some(ParseFault::TooDeep),
    ),
    (
        TextKind::List,
        b"a; ",
        b"(",
        1001,
        b")",
        b";;",
        Some(ParseFault::Unexpected(2007)),
    ),
    (
        TextKind::Program,
        b"MODULE m INIT ",
        b"(",
        1000,
        b")",
        b"",
        None,
    ),
    (
        TextKind::Program,
        b"MODULE m INIT ",
        b"(",
        1001,
        b")",
        b"",
        Some(ParseFault::TooDeep),
    ),
    (
        TextKind::Expression,
        b"",
        b"(",
        1000000,
        b")",
        b"",
        Some(ParseFault::TooDeep),
    ),
    (
        TextKind::Expression,
        b"",
        b"!",
        1000000,
        b"",
        b"",
        Some(ParseFault::TooDeep),
    ),
    (
        TextKind::Expression,
        b"",
        b"a+",
        1000000,
        b"",
        b"",
        Some(ParseFault::TooDeep),
    ),
    (
        TextKind::Program,
        b"MODULE m INIT ",
        b"a+",
        1000000,
        b"",
        b"",
        Some(ParseFault::TooDeep),
    ),
];

/// Whether the text of a row is refused as it says.
fn is_refused(alloc: Global, row: &Repeated) -> Result<bool, OutOfMemory> {
    let text = nested(alloc, row.1, row.2, row.3, row.4, row.5)?;
    Ok(text.len() < 3_000_000 && refusal(alloc, row.0, &text) == row.6)
}

#[test]
fn is_too_deep_only_where_it_is_spelled(rt: HostRuntime) -> Result<(), Fail> {
    for (i, row) in REPEATED.iter().enumerate() {
        assert!(rt; is_refused(rt.alloc(), row)?, "case {i}");
    }
    Ok(())
}
