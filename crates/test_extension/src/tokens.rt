//! Where the tokens of texts stand, and where a text has none.
use smv_lexer::TokenKind::{And, AtMost, Dots, Iff, Implies, Minus, Number, Word};
use smv_lexer::{LexFault, OutOfMemory, TokenKind, TokenList, tokens};
use std::alloc::Global;
use std::test::Fail;

/// A token's kind, its first place and the place behind it.
type TokenSpot = (TokenKind, u32, u32);

/// A text, and its tokens or its fault.
type Case = (&'static str, &'static [TokenSpot], Option<LexFault>);

static CASES: [Case; 16] = [
    ("", &[], None),
    ("a->b", &[(Word, 0, 1), (Implies, 1, 3), (Word, 3, 4)], None),
    ("a-b", &[(Word, 0, 3)], None),
    ("a - b", &[(Word, 0, 1), (Minus, 2, 3), (Word, 4, 5)], None),
    ("a--b", &[(Word, 0, 1)], None),
    ("x--y\n9", &[(Word, 0, 1), (Number, 5, 6)], None),
    (
        "a /-- x --/ & b",
        &[(Word, 0, 1), (And, 12, 13), (Word, 14, 15)],
        None,
    ),
    (
        "1..3",
        &[(Number, 0, 1), (Dots, 1, 3), (Number, 3, 4)],
        None,
    ),
    (
        "<-><=-",
        &[(Iff, 0, 3), (AtMost, 3, 5), (Minus, 5, 6)],
        None,
    ),
    ("9223372036854775807", &[(Number, 0, 19)], None),
    (
        "9223372036854775808 @",
        &[],
        Some(LexFault::NumberTooBig(0)),
    ),
    ("a @", &[], Some(LexFault::BadByte(2))),
    ("/-- x", &[], Some(LexFault::OpenComment(0))),
    ("/--/", &[], Some(LexFault::OpenComment(0))),
    ("/---/", &[], Some(LexFault::OpenComment(0))),
    ("\u{b}", &[], Some(LexFault::BadByte(0))),
];

fn are_at(list: &TokenList, spots: &[TokenSpot]) -> bool {
    if list.len() != spots.len() {
        return false;
    }
    for (i, (kind, start, end)) in spots.iter().enumerate() {
        match list.as_slice().get(i) {
            Some(token) => {
                if token.kind != *kind || token.start != *start || token.end != *end {
                    return false;
                }
            }
            None => return false,
        }
    }
    true
}

fn holds(alloc: Global, case: &Case) -> Result<bool, OutOfMemory> {
    let (text, spots, fault) = *case;
    if text.len() > 100 {
        return Ok(false);
    }
    match tokens(alloc, text.as_bytes()) {
        Ok(list) => Ok(fault.is_none() && are_at(&list.copy()?, spots)),
        Err(found) => Ok(fault == Some(found)),
    }
}

#[test]
fn texts_have_their_tokens_or_their_fault(rt: HostRuntime) -> Result<(), Fail> {
    for (i, case) in CASES.iter().enumerate() {
        assert!(rt; holds(rt.alloc(), case)?, "case {i}");
    }
    Ok(())
}
