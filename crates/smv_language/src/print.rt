//! Printing an expression: [`print_expr`]. All text goes to the end of one buffer, so the work is linear in the text.
ghost use Rattle.std.specs.Prelude.{◌≡◌, ◌++◌, IfOk, OnOk, map};
ghost use Rattle.smv_language.specs.Text.{text_of, op_text, after_minus, span_text, dotted_text, commas, branches_text, joined};
ghost use Rattle.smv_language.specs.ExpressionTree.{tree_of, branches_of};
ghost use Rattle.smv_language.specs.PrintedTokens.{IsWritable};
ghost use Rattle.smv_language.specs.Bytes.{BytesSpellExpr};

use crate::expr::{Expr, Op};
use base_values::{ByteList, Dotted, Name, OutOfMemory};
use std::alloc::Global;

/// The text of an expression: atoms are bare, and every other expression stands in parentheses. A span
/// under a unary minus stands in parentheses too, since that minus would be read as the sign of its
/// first number.
pub fn print_expr(alloc: Global, e: &Expr<Dotted>) -> Result<Vec<u8>, OutOfMemory>
    ensures text { IfOk result (λ text. text.items ≡ text_of (tree_of e.now)) }
    // What can be written is read back as itself.
    ensures spells { IfOk result (λ text. IsWritable (tree_of e.now) → BytesSpellExpr text.items (tree_of e.now)) }
{
    let mut text = ByteList::new(alloc);
    append_expr(alloc, &mut text, e)?;
    Ok(text.into_vec())
}

/// Appends the text of an expression.
#[cycle(print)]
#[tactic(auto, using(crate::proofs::TextLaws::print_rules))]
pub(crate) fn append_expr(
    alloc: Global,
    text: &mut ByteList,
    e: &Expr<Dotted>,
) -> Result<(), OutOfMemory>
    ensures { OnOk result (text.new ≡ text.old ++ text_of (tree_of e.now)) }
{
    match e {
        Expr::Truth(true) => text.append(b"TRUE"),
        Expr::Truth(false) => text.append(b"FALSE"),
        Expr::Number(n) => text.append_signed(alloc, *n),
        Expr::Leaf(name) => append_dotted(text, name),
        Expr::Not(a) => append_between(alloc, text, b"(!", a, b")"),
        Expr::Negate(a) => {
            text.append(b"(-")?;
            append_after_minus(alloc, text, a)?;
            text.append(b")")
        }
        Expr::Next(a) => append_between(alloc, text, b"next(", a, b")"),
        Expr::Binary(op, a, b) => {
            text.append(b"(")?;
            append_expr(alloc, text, a)?;
            text.append(bytes_of(*op))?;
            append_expr(alloc, text, b)?;
            text.append(b")")
        }
        Expr::Choice(c, a, b) => {
            append_between(alloc, text, b"(", c, b" ? ")?;
            append_between(alloc, text, b"", a, b" : ")?;
            append_between(alloc, text, b"", b, b")")
        }
        Expr::Case(branches) => {
            text.append(b"case ")?;
            append_branches(alloc, text, branches.as_slice())?;
            text.append(b"esac")
        }
        Expr::SetOf(members) => {
            text.append(b"{")?;
            append_expressions(alloc, text, members.as_slice())?;
            text.append(b"}")
        }
        Expr::Span(lo, hi) => append_span(alloc, text, *lo, *hi),
    }
}

/// Appends what stands before an expression, the expression, and what stands behind it.
#[cycle(print)]
#[tactic(auto, using(crate::proofs::TextLaws::print_rules))]
fn append_between(
    alloc: Global,
    text: &mut ByteList,
    front: &[u8],
    e: &Expr<Dotted>,
    back: &[u8],
) -> Result<(), OutOfMemory>
    ensures { OnOk result (text.new ≡ text.old ++ (front.now ++ (text_of (tree_of e.now) ++ back.now))) }
{
    text.append(front)?;
    append_expr(alloc, text, e)?;
    text.append(back)
}

/// Appends the operand of a unary minus.
#[cycle(print)]
#[tactic(auto, using(crate::proofs::TextLaws::print_rules))]
fn append_after_minus(
    alloc: Global,
    text: &mut ByteList,
    e: &Expr<Dotted>,
) -> Result<(), OutOfMemory>
    ensures { OnOk result (text.new ≡ text.old ++ after_minus (tree_of e.now) (text_of (tree_of e.now))) }
{
    match e {
        Expr::Span(lo, hi) => {
            text.append(b"(")?;
            append_span(alloc, text, *lo, *hi)?;
            text.append(b")")
        }
        _ => append_expr(alloc, text, e),
    }
}

/// Appends expressions with commas between.
#[cycle(print)]
#[tactic(auto, using(crate::proofs::TextLaws::print_rules))]
pub(crate) fn append_expressions(
    alloc: Global,
    text: &mut ByteList,
    expressions: &[Expr<Dotted>],
) -> Result<(), OutOfMemory>
    ensures { OnOk result (text.new ≡ text.old ++ commas (map text_of (map tree_of expressions.now))) }
{
    let [first, more @ ..] = expressions else {
        return Ok(());
    };
    append_expr(alloc, text, first)?;
    for expression in more {
        text.append(b", ")?;
        append_expr(alloc, text, expression)?;
    }
    Ok(())
}

/// Appends the branches of a case.
#[cycle(print)]
#[tactic(auto, using(crate::proofs::TextLaws::print_rules))]
fn append_branches(
    alloc: Global,
    text: &mut ByteList,
    branches: &[(Expr<Dotted>, Expr<Dotted>)],
) -> Result<(), OutOfMemory>
    ensures { OnOk result (text.new ≡ text.old ++ branches_text (branches_of branches.now)) }
{
    for (condition, value) in branches {
        append_expr(alloc, text, condition)?;
        text.append(b" : ")?;
        append_expr(alloc, text, value)?;
        text.append(b"; ")?;
    }
    Ok(())
}

/// Appends the numbers of a span.
#[tactic(auto, using(crate::proofs::TextLaws::print_rules))]
pub(crate) fn append_span(
    alloc: Global,
    text: &mut ByteList,
    lo: i64,
    hi: i64,
) -> Result<(), OutOfMemory>
    ensures { OnOk result (text.new ≡ text.old ++ span_text lo hi) }
{
    text.append_signed(alloc, lo)?;
    text.append(b"..")?;
    text.append_signed(alloc, hi)
}

/// Appends the parts of a name, with dots between.
pub fn append_dotted(text: &mut ByteList, name: &Dotted) -> Result<(), OutOfMemory>
    ensures { OnOk result (text.new ≡ text.old ++ dotted_text name.now) }
{
    append_names(text, name.parts(), b".")
}

/// Appends names with a mark between.
#[tactic(auto, using(crate::proofs::TextLaws::print_rules))]
pub fn append_names(text: &mut ByteList, names: &[Name], mark: &[u8]) -> Result<(), OutOfMemory>
    ensures { OnOk result (text.new ≡ text.old ++ joined mark.now names.now) }
{
    let [first, more @ ..] = names else {
        return Ok(());
    };
    text.append(first.text())?;
    for name in more {
        text.append(mark)?;
        text.append(name.text())?;
    }
    Ok(())
}

/// The text of an operator, with a space on each side.
fn bytes_of(op: Op) -> &'static [u8]
    ensures { result.now ≡ op_text op }
{
    match op {
        Op::Times => b" * ",
        Op::Over => b" / ",
        Op::Mod => b" mod ",
        Op::Plus => b" + ",
        Op::Minus => b" - ",
        Op::Union => b" union ",
        Op::Within => b" in ",
        Op::Equal => b" = ",
        Op::Differs => b" != ",
        Op::Less => b" < ",
        Op::Greater => b" > ",
        Op::AtMost => b" <= ",
        Op::AtLeast => b" >= ",
        Op::And => b" & ",
        Op::Or => b" | ",
        Op::Xor => b" xor ",
        Op::Xnor => b" xnor ",
        Op::Iff => b" <-> ",
        Op::Implies => b" -> ",
    }
}
