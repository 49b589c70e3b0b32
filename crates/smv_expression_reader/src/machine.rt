//! The recogniser of expressions: what may come next, and a stack of what is open.
//!
//! Every list of operands with operators between them is an expression, whatever the operators are,
//! so no precedence is needed to say which lists go on. `step` takes one token.
ghost use Rattle.std.specs.Prelude.{◌≡◌, ◌∷◌, [], List, IfOk};
ghost use Rattle.smv_expression_reader.specs.Recogniser as machine;
ghost use Rattle.smv_expression_reader.specs.Views.{state_with};
ghost use Rattle.smv_expression_reader.specs.declared.frames.OpenFrame.{OpenFrame};

use crate::frames::{OpenFrame, OpenFrames};
use base_values::OutOfMemory;
use smv_language::Op;

/// What a token is in an expression.
#[derive(Clone, Copy, Debug, PartialEq, Eq)]
pub enum TokenRole {
    Truth(bool),
    Name,
    Number,
    Next,
    Case,
    Esac,
    Minus,
    Bang,
    Joins(Op),
    Asks,
    Colon,
    Semicolon,
    Comma,
    Dot,
    Dots,
    Opens,
    Closes,
    OpensSet,
    ClosesSet,
    Nothing,
}

/// What may come next.
#[derive(Clone, Copy, Debug, PartialEq, Eq)]
pub enum Mode {
    Wants,
    WantsNot,
    WantsLow,
    WantsDots,
    WantsHigh,
    WantsDigits,
    WantsName,
    WantsOpen,
    WantsBranch,
    HadNumber,
    HadName,
    Had,
    Stuck,
}

/// Opens a part, at the beginning of which an operand is wanted.
fn open(frames: &mut OpenFrames, frame: OpenFrame) -> Result<Mode, OutOfMemory>
    ensures { IfOk result (λ mode. state_with mode frames.new ≡ machine.wants (frame ∷ frames.old)) }
{
    frames.push(frame)?;
    Ok(Mode::Wants)
}

/// What begins an operand, other than `-`.
fn begin(frames: &mut OpenFrames, role: TokenRole) -> Result<Mode, OutOfMemory>
    ensures { IfOk result (λ mode. state_with mode frames.new ≡ machine.begin frames.old role) }
{
    match role {
        TokenRole::Truth(_) => Ok(Mode::Had),
        TokenRole::Name => Ok(Mode::HadName),
        TokenRole::Number => Ok(Mode::HadNumber),
        TokenRole::Next => Ok(Mode::WantsOpen),
        TokenRole::Case => open(frames, OpenFrame::Condition),
        TokenRole::Bang => Ok(Mode::WantsNot),
        TokenRole::Opens => open(frames, OpenFrame::Group),
        TokenRole::OpensSet => open(frames, OpenFrame::Members),
        _ => Ok(Mode::Stuck),
    }
}

/// What closes this frame, or goes on inside it.
fn shut(frames: &mut OpenFrames, frame: OpenFrame, role: TokenRole) -> Result<Mode, OutOfMemory>
    ensures { IfOk result (λ mode. state_with mode frames.new ≡ machine.close (frame ∷ frames.old) role) }
{
    match (frame, role) {
        (OpenFrame::Group, TokenRole::Closes) => Ok(Mode::Had),
        (OpenFrame::Moment, TokenRole::Closes) => Ok(Mode::Had),
        (OpenFrame::Members, TokenRole::ClosesSet) => Ok(Mode::Had),
        (OpenFrame::Members, TokenRole::Comma) => open(frames, OpenFrame::Members),
        (OpenFrame::FirstChoice, TokenRole::Colon) => Ok(Mode::Wants),
        (OpenFrame::Condition, TokenRole::Colon) => open(frames, OpenFrame::Outcome),
        (OpenFrame::Outcome, TokenRole::Semicolon) => Ok(Mode::WantsBranch),
        _ => Ok(Mode::Stuck),
    }
}

/// What closes the innermost frame, or goes on inside it.
fn close(frames: &mut OpenFrames, role: TokenRole) -> Result<Mode, OutOfMemory>
    ensures { IfOk result (λ mode. state_with mode frames.new ≡ machine.close frames.old role) }
{
    match frames.pop() {
        Some(frame) => shut(frames, frame, role),
        None => Ok(Mode::Stuck),
    }
}

/// What follows an operand.
fn follow(frames: &mut OpenFrames, role: TokenRole) -> Result<Mode, OutOfMemory>
    ensures { IfOk result (λ mode. state_with mode frames.new ≡ machine.follow frames.old role) }
{
    match role {
        TokenRole::Joins(_) | TokenRole::Minus => Ok(Mode::Wants),
        TokenRole::Asks => open(frames, OpenFrame::FirstChoice),
        _ => close(frames, role),
    }
}

/// What may come after one more token.
pub fn step(mode: Mode, frames: &mut OpenFrames, role: TokenRole) -> Result<Mode, OutOfMemory>
    ensures { IfOk result (λ new. state_with new frames.new ≡ machine.step (state_with mode frames.old) role) }
{
    match (mode, role) {
        (Mode::Wants, TokenRole::Minus) => Ok(Mode::Wants),
        (Mode::Wants, _) => begin(frames, role),
        (Mode::WantsNot, TokenRole::Minus) => Ok(Mode::WantsLow),
        (Mode::WantsNot, _) => begin(frames, role),
        (Mode::WantsLow, TokenRole::Number) => Ok(Mode::WantsDots),
        (Mode::WantsDots, TokenRole::Dots) => Ok(Mode::WantsHigh),
        (Mode::WantsHigh, TokenRole::Minus) => Ok(Mode::WantsDigits),
        (Mode::WantsHigh, TokenRole::Number) => Ok(Mode::Had),
        (Mode::WantsDigits, TokenRole::Number) => Ok(Mode::Had),
        (Mode::WantsName, TokenRole::Name) => Ok(Mode::HadName),
        (Mode::WantsOpen, TokenRole::Opens) => open(frames, OpenFrame::Moment),
        (Mode::WantsBranch, TokenRole::Esac) => Ok(Mode::Had),
        (Mode::WantsBranch, TokenRole::Minus) => open(frames, OpenFrame::Condition),
        (Mode::WantsBranch, _) => {
            frames.push(OpenFrame::Condition)?;
            begin(frames, role)
        }
        (Mode::HadNumber, TokenRole::Dots) => Ok(Mode::WantsHigh),
        (Mode::HadName, TokenRole::Dot) => Ok(Mode::WantsName),
        (Mode::HadNumber | Mode::HadName | Mode::Had, _) => follow(frames, role),
        _ => Ok(Mode::Stuck),
    }
}

/// Whether no list goes on.
pub fn is_stuck(mode: Mode) -> bool
    ensures { (frames : List OpenFrame) → result ≡ machine.is_stuck (state_with mode frames) }
{
    mode == Mode::Stuck
}

/// Whether an operand stands here.
fn has_operand(mode: Mode) -> bool
    ensures { result ≡ machine.is_whole (state_with mode []) }
{
    match mode {
        Mode::HadNumber | Mode::HadName | Mode::Had => true,
        _ => false,
    }
}

/// Whether an operand stands here and nothing is open.
pub fn is_whole(mode: Mode, frames: &OpenFrames) -> bool
    ensures { result ≡ machine.is_whole (state_with mode frames.now) }
{
    has_operand(mode) && frames.is_empty()
}
