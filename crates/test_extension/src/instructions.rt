//! Where the reading of instructions stops, and how deep a guard may be.
ghost use Rattle.std.specs.Prelude.{◌<◌, ◌^◌, length};

use crate::texts::nested;
use base_values::OutOfMemory;
use fault_reader::instructions;
use smv_expression_reader::ParseFault;
use smv_lexer::LexFault;
use std::alloc::Global;
use std::test::Fail;

/// A text, and its refusal where it has one.
type Case = (&'static [u8], Option<ParseFault>);

static CASES: [Case; 36] = [
    (b"", None),
    (b"EXTENSION OF Lamp", Some(ParseFault::Unexpected(13))),
    (b"EXTENSION OF MODULE Lamp", None),
    (b"FAULT ", Some(ParseFault::End(6))),
    (b"FAULT EXTENSION f", None),
    (b"FAULT FAULT", Some(ParseFault::Unexpected(6))),
    (b"FAULT EXTENSION EXTENSION EXTENSION OF MODULE FAULT", None),
    (
        b"EXTENSION OF MODULE MODULE",
        Some(ParseFault::Unexpected(20)),
    ),
    (b"EXTENSION OF MODULE self", Some(ParseFault::LeftOut(20))),
    (b"EXTENSION of MODULE m", Some(ParseFault::LeftOut(10))),
    (
        b"EXTENSION OF MODULE OF SLICE MODE AFFECTS WITH WITH MODE Random : Permanent Random;",
        None,
    ),
    (
        b"EXTENSION OF MODULE m SLICE s AFFECTS x WITH",
        Some(ParseFault::End(44)),
    ),
    (
        b"EXTENSION OF MODULE m SLICE INITIALLY AFFECTS ANY INITIALLY ANY WITH MODE d : Permanent Random;",
        None,
    ),
    (
        b"EXTENSION OF MODULE m SLICE s AFFECTS x INITIALLY WITH",
        Some(ParseFault::Unexpected(50)),
    ),
    (
        b"EXTENSION OF MODULE m SLICE s AFFECTS x INITIALLY ANY",
        Some(ParseFault::End(53)),
    ),
    (
        b"EXTENSION OF MODULE m SLICE s AFFECTS x MODE d : Permanent Random;",
        Some(ParseFault::Unexpected(40)),
    ),
    (
        b"EXTENSION OF MODULE m SLICE s AFFECTS x WITH SLICE",
        Some(ParseFault::Unexpected(45)),
    ),
    (
        b"EXTENSION OF MODULE m SLICE s AFFECTS x WITH MODE d {} : Transient Random; MODE e {0.50 MODULE self;} : Permanent Frozen;",
        None,
    ),
    (
        b"EXTENSION OF MODULE m SLICE s AFFECTS x WITH MODE d {{} } : Permanent Random;",
        Some(ParseFault::Unexpected(56)),
    ),
    (
        b"EXTENSION OF MODULE m SLICE s AFFECTS x WITH MODE d {a",
        Some(ParseFault::End(54)),
    ),
    (
        b"EXTENSION OF MODULE m SLICE s AFFECTS x WITH MODE d : Random;",
        Some(ParseFault::Unexpected(54)),
    ),
    (
        b"EXTENSION OF MODULE m SLICE s AFFECTS x WITH MODE d : Permanent StuckAt(-5) WHEN case a : b; TRUE : c; esac;",
        None,
    ),
    (
        b"EXTENSION OF MODULE m SLICE s AFFECTS x WITH MODE d : Permanent StuckAt(-x);",
        Some(ParseFault::Unexpected(73)),
    ),
    (
        b"EXTENSION OF MODULE m SLICE s AFFECTS x WITH MODE d : Permanent StuckAt(next);",
        Some(ParseFault::Unexpected(72)),
    ),
    (
        b"EXTENSION OF MODULE m SLICE s AFFECTS x WITH MODE d : Permanent StuckAt(red); SLICE t AFFECTS y WITH MODE d : Permanent \
            StuckAtPick;",
        None,
    ),
    (
        b"EXTENSION OF MODULE m SLICE s AFFECTS x WITH MODE d : Permanent Follows(a -> b ? c : d);",
        None,
    ),
    (
        b"EXTENSION OF MODULE m SLICE s AFFECTS x WITH MODE d : Permanent Follows();",
        Some(ParseFault::Unexpected(72)),
    ),
    (
        b"EXTENSION OF MODULE m SLICE s AFFECTS x WITH MODE d : Permanent Follows((a;",
        Some(ParseFault::Unexpected(74)),
    ),
    (
        b"EXTENSION OF MODULE m SLICE s AFFECTS x WITH MODE d : Permanent Offset(1..2);",
        Some(ParseFault::Unexpected(72)),
    ),
    (
        b"EXTENSION OF MODULE m SLICE s AFFECTS x WITH MODE d : Permanent RampDown(1, -2);",
        None,
    ),
    (
        b"EXTENSION OF MODULE m SLICE s AFFECTS x WITH MODE d : Permanent RampDown(1);",
        Some(ParseFault::Unexpected(74)),
    ),
    (
        b"EXTENSION OF MODULE m SLICE s AFFECTS x WITH MODE d : Permanent Inverted WHEN ;",
        Some(ParseFault::Unexpected(78)),
    ),
    (
        b"EXTENSION OF MODULE m SLICE s AFFECTS x WITH MODE d : Permanent Inverted WHEN self;",
        Some(ParseFault::LeftOut(78)),
    ),
    (
        b"EXTENSION OF MODULE m SLICE s AFFECTS x WITH MODE d : Permanent Erroneous",
        Some(ParseFault::End(73)),
    ),
    (
        b"EXTENSION OF MODULE m SLICE s AFFECTS x WITH MODE d : Permanent Random; Random",
        Some(ParseFault::Unexpected(72)),
    ),
    (b"@", Some(ParseFault::Lex(LexFault::BadByte(0)))),
];

/// The refusal of a text.
fn refusal(alloc: Global, text: &[u8]) -> Option<ParseFault>
    requires { length text.now < 2 ^ 32 }
{
    match instructions(alloc, text) {
        Ok(_) => None,
        Err(fault) => Some(fault),
    }
}

#[test]
fn texts_are_read_or_refused_where_they_stop(rt: HostRuntime) -> Result<(), Fail> {
    for (i, (text, wanted)) in CASES.iter().enumerate() {
        assert!(rt; text.len() < 1000);
        let given = refusal(rt.alloc(), text);
        assert_eq!(rt; given, *wanted, "case {i}");
    }
    Ok(())
}

/// What opens a guard and what closes it, so many times each, what follows, and the refusal where there is one.
type DeepCase = (
    &'static [u8],
    usize,
    &'static [u8],
    &'static [u8],
    Option<ParseFault>,
);

static DEEP: [DeepCase; 6] = [
    (b"(", 1000, b")", b";", None),
    (b"(", 1001, b")", b";", Some(ParseFault::TooDeep)),
    (b"(", 1001, b")", b"; )", Some(ParseFault::Unexpected(2081))),
    (b"!", 999, b"", b";", None),
    (b"!", 1000, b"", b";", Some(ParseFault::TooDeep)),
    (b"(", 1001, b")", b"", Some(ParseFault::End(2079))),
];

static FRONT: &[u8] =
    b"EXTENSION OF MODULE m SLICE s AFFECTS x WITH MODE d : Permanent Random WHEN ";

/// Whether instructions whose one guard is a name so deep are refused as the case says.
fn is_refused(alloc: Global, case: &DeepCase) -> Result<bool, OutOfMemory> {
    let text = nested(alloc, FRONT, case.0, case.1, case.2, case.3)?;
    Ok(text.len() < 10_000 && refusal(alloc, &text) == case.4)
}

#[test]
fn a_guard_is_too_deep_only_where_the_whole_text_is_spelled(rt: HostRuntime) -> Result<(), Fail> {
    for (i, case) in DEEP.iter().enumerate() {
        assert!(rt; is_refused(rt.alloc(), case)?, "case {i}");
    }
    Ok(())
}
