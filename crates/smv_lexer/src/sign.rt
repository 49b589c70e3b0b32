//! The signs, and which of them begins at a place: `sign_at`.
//!
//! The table has the longest first, so that the first sign that fits is the longest.
ghost use Rattle.std.specs.Prelude.{◌≡◌, map};
ghost use Rattle.std.specs.Option.{option_map};
ghost use Rattle.smv_lexer.specs.Tokens.{signs};
ghost use Rattle.smv_lexer.specs.Scan.{sign_at};
ghost use Rattle.smv_lexer.specs.SignView.{viewed};

use crate::TokenKind;

/// A sign and its text.
#[derive(Clone, Copy)]
pub(crate) struct Sign {
    pub(crate) kind: TokenKind,
    pub(crate) text: &'static [u8],
}

/// The signs, the longest first.
static SIGNS: [Sign; 28] = [
    Sign {
        kind: TokenKind::Iff,
        text: b"<->",
    },
    Sign {
        kind: TokenKind::Becomes,
        text: b":=",
    },
    Sign {
        kind: TokenKind::Dots,
        text: b"..",
    },
    Sign {
        kind: TokenKind::NotEqual,
        text: b"!=",
    },
    Sign {
        kind: TokenKind::AtMost,
        text: b"<=",
    },
    Sign {
        kind: TokenKind::AtLeast,
        text: b">=",
    },
    Sign {
        kind: TokenKind::Implies,
        text: b"->",
    },
    Sign {
        kind: TokenKind::Open,
        text: b"(",
    },
    Sign {
        kind: TokenKind::Close,
        text: b")",
    },
    Sign {
        kind: TokenKind::OpenBrace,
        text: b"{",
    },
    Sign {
        kind: TokenKind::CloseBrace,
        text: b"}",
    },
    Sign {
        kind: TokenKind::OpenSquare,
        text: b"[",
    },
    Sign {
        kind: TokenKind::CloseSquare,
        text: b"]",
    },
    Sign {
        kind: TokenKind::Comma,
        text: b",",
    },
    Sign {
        kind: TokenKind::Semicolon,
        text: b";",
    },
    Sign {
        kind: TokenKind::Colon,
        text: b":",
    },
    Sign {
        kind: TokenKind::Dot,
        text: b".",
    },
    Sign {
        kind: TokenKind::Bang,
        text: b"!",
    },
    Sign {
        kind: TokenKind::And,
        text: b"&",
    },
    Sign {
        kind: TokenKind::Bar,
        text: b"|",
    },
    Sign {
        kind: TokenKind::Equal,
        text: b"=",
    },
    Sign {
        kind: TokenKind::Less,
        text: b"<",
    },
    Sign {
        kind: TokenKind::Greater,
        text: b">",
    },
    Sign {
        kind: TokenKind::Plus,
        text: b"+",
    },
    Sign {
        kind: TokenKind::Minus,
        text: b"-",
    },
    Sign {
        kind: TokenKind::Star,
        text: b"*",
    },
    Sign {
        kind: TokenKind::Slash,
        text: b"/",
    },
    Sign {
        kind: TokenKind::Question,
        text: b"?",
    },
];

/// The longest sign with which the bytes begin.
pub(crate) fn sign_at(bytes: &[u8]) -> Option<Sign>
    ensures { option_map viewed result ≡ sign_at signs bytes.now }
{
    first_of(&SIGNS, bytes)
}

/// The first of these signs with which the bytes begin.
fn first_of(signs: &[Sign], bytes: &[u8]) -> Option<Sign>
    ensures { option_map viewed result ≡ sign_at (map viewed signs.now) bytes.now }
{
    for sign in signs {
        if bytes.starts_with(sign.text) {
            return Some(*sign);
        }
    }
    None
}
