//! The words that are no names, a row each, and tests of a word's text.
//!
//! A row has the text, what the word is in an expression, what it is outside, and whether it begins a module or a
//! section. A word that is nothing in either place is left out of the language.
ghost use Rattle.std.specs.Prelude.{◌≡◌, map};
ghost use Rattle.smv_language.specs.Texts.{same_text, is_among, first_with};
ghost use Rattle.smv_language.specs.Lexemes.{section_words};
ghost use Rattle.smv_expression_reader.specs.Words.{row_view, use_or_name, use_of, is_nothing};

use crate::machine::TokenRole;
use crate::mark::Mark;
use smv_language::Op;

/// The words that are no names.
static WORDS: [(&[u8], TokenRole, Mark, bool); 44] = [
    (b"MODULE", TokenRole::Nothing, Mark::Module, true),
    (b"VAR", TokenRole::Nothing, Mark::Var, true),
    (b"IVAR", TokenRole::Nothing, Mark::Ivar, true),
    (b"FROZENVAR", TokenRole::Nothing, Mark::Frozen, true),
    (b"DEFINE", TokenRole::Nothing, Mark::Define, true),
    (b"CONSTANTS", TokenRole::Nothing, Mark::Constants, true),
    (b"ASSIGN", TokenRole::Nothing, Mark::Assign, true),
    (b"INIT", TokenRole::Nothing, Mark::Init, true),
    (b"INVAR", TokenRole::Nothing, Mark::Invar, true),
    (b"TRANS", TokenRole::Nothing, Mark::Trans, true),
    (b"CTLSPEC", TokenRole::Nothing, Mark::Skipped, true),
    (b"SPEC", TokenRole::Nothing, Mark::Skipped, true),
    (b"LTLSPEC", TokenRole::Nothing, Mark::Skipped, true),
    (b"PSLSPEC", TokenRole::Nothing, Mark::Skipped, true),
    (b"INVARSPEC", TokenRole::Nothing, Mark::Skipped, true),
    (b"COMPUTE", TokenRole::Nothing, Mark::Skipped, true),
    (b"FAIRNESS", TokenRole::Nothing, Mark::Nothing, true),
    (b"JUSTICE", TokenRole::Nothing, Mark::Nothing, true),
    (b"COMPASSION", TokenRole::Nothing, Mark::Nothing, true),
    (b"case", TokenRole::Case, Mark::Nothing, false),
    (b"esac", TokenRole::Esac, Mark::Nothing, false),
    (b"mod", TokenRole::Joins(Op::Mod), Mark::Nothing, false),
    (b"next", TokenRole::Next, Mark::After, false),
    (b"init", TokenRole::Nothing, Mark::First, false),
    (b"union", TokenRole::Joins(Op::Union), Mark::Nothing, false),
    (b"in", TokenRole::Joins(Op::Within), Mark::Nothing, false),
    (b"xor", TokenRole::Joins(Op::Xor), Mark::Nothing, false),
    (b"xnor", TokenRole::Joins(Op::Xnor), Mark::Nothing, false),
    (b"TRUE", TokenRole::Truth(true), Mark::Nothing, false),
    (b"FALSE", TokenRole::Truth(false), Mark::Nothing, false),
    (b"boolean", TokenRole::Nothing, Mark::Boolean, false),
    (b"process", TokenRole::Nothing, Mark::Nothing, false),
    (b"self", TokenRole::Nothing, Mark::Nothing, false),
    (b"count", TokenRole::Nothing, Mark::Nothing, false),
    (b"toint", TokenRole::Nothing, Mark::Nothing, false),
    (b"bool", TokenRole::Nothing, Mark::Nothing, false),
    (b"word", TokenRole::Nothing, Mark::Nothing, false),
    (b"array", TokenRole::Nothing, Mark::Nothing, false),
    (b"of", TokenRole::Nothing, Mark::Nothing, false),
    (b"real", TokenRole::Nothing, Mark::Nothing, false),
    (b"integer", TokenRole::Nothing, Mark::Nothing, false),
    (b"signed", TokenRole::Nothing, Mark::Nothing, false),
    (b"unsigned", TokenRole::Nothing, Mark::Nothing, false),
    (b"ISA", TokenRole::Nothing, Mark::Nothing, false),
];

/// Whether both texts have the same bytes.
#[tactic(auto, using(crate::proofs::Texts::same_bytes))]
pub fn is_same(text: &[u8], word: &[u8]) -> bool
    ensures { result ≡ same_text text.now word.now }
{
    text == word
}

/// The rest of the first row of a text; without one it is a name.
#[tactic(auto, using(crate::proofs::Texts::first_more))]
fn use_in(rows: &[(&[u8], TokenRole, Mark, bool)], text: &[u8]) -> (TokenRole, Mark, bool)
    ensures { result ≡ use_or_name (first_with (map row_view rows.now) text.now) }
{
    for row in rows {
        let (word, role, mark, begins) = *row;
        if is_same(word, text) {
            return (role, mark, begins);
        }
    }
    (TokenRole::Name, Mark::Name, false)
}

/// The rest of a word's row.
fn word_use(text: &[u8]) -> (TokenRole, Mark, bool)
    ensures { result ≡ use_of text.now }
{
    use_in(&WORDS, text)
}

/// What a word is in an expression.
pub fn word_role(text: &[u8]) -> TokenRole
    ensures { result ≡ (use_of text.now).0 }
{
    word_use(text).0
}

/// What a word is outside expressions.
pub fn word_mark(text: &[u8]) -> Mark
    ensures { result ≡ (use_of text.now).1 }
{
    word_use(text).1
}

/// Whether a word begins a module or a section.
#[tactic(auto, using(crate::proofs::WordLaws::section_row))]
pub fn begins_section(text: &[u8]) -> bool
    ensures { result ≡ is_among section_words text.now }
{
    word_use(text).2
}

/// Whether a word is left out of the language.
pub fn is_left_out(text: &[u8]) -> bool
    ensures { result ≡ is_nothing (use_of text.now).0 (use_of text.now).1 }
{
    matches!(word_use(text), (TokenRole::Nothing, Mark::Nothing, _))
}
