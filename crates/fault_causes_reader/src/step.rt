//! What is read of a cause so far, and what one more token makes of it.
//!
//! The main function is [`step`]; [`CauseState`] has a case for each place in the line of a cause.
ghost use Rattle.std.specs.Prelude.{◌≡◌, [], codes, option_map, IfOk};
ghost use Rattle.smv_expression_reader.specs.Marks.{mark_of};
ghost use Rattle.smv_expression_reader.specs.Places.{is_word};
ghost use Rattle.fault_causes_reader.specs.CauseStages.{part, stepped, stage_where, name_stage, first_stage, is_dots as is_dots_mark};
ghost use Rattle.fault_causes_reader.specs.CauseStages.{last_stage, part_stage, after_read, cause_read};
ghost use Rattle.fault_causes_reader.specs.StageView.{stage_of, read_view, written_tree, written_trees};

use crate::written::{PathList, Written, WrittenList};
use base_values::{Name, NameList, OutOfMemory};
use smv_expression_reader::mark::Mark;
use smv_expression_reader::token::TokenText;
use std::alloc::Global;

/// What stands before the names of the faults that a cause strikes.
#[derive(Drop)]
pub(crate) struct Head {
    pub(crate) name: Name,
    pub(crate) from: u64,
    pub(crate) to: u64,
}

/// What is read of a cause so far, with what comes next.
#[derive(Drop)]
pub(crate) enum CauseState {
    /// A cause, or the end.
    Start,
    /// After `CAUSE`.
    Named,
    Within(Name),
    From(Name),
    Dots(Name, u64),
    To(Name, u64),
    Strikes(Head),
    /// A part of a fault's name, behind the faults and the parts before it.
    Part(Head, PathList, NameList),
    /// A dot, a comma or a semicolon.
    After(Head, PathList, NameList),
}

/// What one more token makes of what is read so far, and nothing where no text goes on with it. A cause that ends is put
/// to those before it.
pub(crate) fn step(
    alloc: Global,
    state: CauseState,
    causes: &mut WrittenList,
    token: &TokenText,
) -> Result<Option<CauseState>, OutOfMemory>
    ensures { IfOk result (λ next. read_view next causes.new ≡ stepped (stage_of state) (written_trees causes.old) token.now) }
{
    match state {
        CauseState::Start => Ok(where_so(token.is_word(b"CAUSE"), CauseState::Named)),
        CauseState::Named => name_step(alloc, token),
        CauseState::Within(name) => Ok(where_so(token.is_word(b"WITHIN"), CauseState::From(name))),
        CauseState::From(name) => Ok(from_step(name, token)),
        CauseState::Dots(name, from) => Ok(where_so(is_dots(token), CauseState::To(name, from))),
        CauseState::To(name, from) => Ok(to_step(name, from, token)),
        CauseState::Strikes(head) => strikes_step(alloc, head, token),
        CauseState::Part(head, strikes, parts) => part_step(alloc, head, strikes, parts, token),
        CauseState::After(head, strikes, parts) => {
            after_step(alloc, head, strikes, parts, causes, token)
        }
    }
}

/// This state, where the token leads to it.
fn where_so(fits: bool, to: CauseState) -> Option<CauseState>
    ensures { option_map stage_of result ≡ stage_where fits (stage_of to) }
{
    if fits { Some(to) } else { None }
}

/// Whether the token is the two dots of a window.
fn is_dots(token: &TokenText) -> bool
    ensures { result ≡ is_dots_mark (mark_of token.now) }
{
    match token.mark() {
        Mark::Dots => true,
        _ => false,
    }
}

/// After the token where a cause's name comes.
fn name_step(alloc: Global, token: &TokenText) -> Result<Option<CauseState>, OutOfMemory>
    ensures { IfOk result (λ next. option_map stage_of next ≡ name_stage (mark_of token.now) token.now) }
{
    match token.mark() {
        Mark::Name => Ok(Some(CauseState::Within(token.name(alloc)?))),
        _ => Ok(None),
    }
}

/// After the token where the window's first number comes.
fn from_step(name: Name, token: &TokenText) -> Option<CauseState>
    ensures { option_map stage_of result ≡ first_stage (mark_of token.now) name token.now }
{
    match token.mark() {
        Mark::Number => Some(CauseState::Dots(name, token.digits().value)),
        _ => None,
    }
}

/// After the token where the window's last number comes.
fn to_step(name: Name, from: u64, token: &TokenText) -> Option<CauseState>
    ensures { option_map stage_of result ≡ last_stage (mark_of token.now) name from token.now }
{
    match token.mark() {
        Mark::Number => Some(CauseState::Strikes(Head {
            name,
            from,
            to: token.digits().value,
        })),
        _ => None,
    }
}

/// After the token where `STRIKES` comes.
fn strikes_step(
    alloc: Global,
    head: Head,
    token: &TokenText,
) -> Result<Option<CauseState>, OutOfMemory>
    ensures { IfOk result (λ next. option_map stage_of next
        ≡ stage_where (is_word token.now (codes "STRIKES")) (part head.name head.from head.to [] [])) }
{
    let to = CauseState::Part(head, PathList::new(alloc), NameList::new(alloc));
    Ok(where_so(token.is_word(b"STRIKES"), to))
}

/// After the token where a part of a fault's name comes.
fn part_step(
    alloc: Global,
    head: Head,
    strikes: PathList,
    mut parts: NameList,
    token: &TokenText,
) -> Result<Option<CauseState>, OutOfMemory>
    ensures { IfOk result (λ next. option_map stage_of next
        ≡ part_stage (mark_of token.now) head.name head.from head.to strikes parts token.now) }
{
    match token.mark() {
        Mark::Name => {
            parts.push(token.name(alloc)?)?;
            Ok(Some(CauseState::After(head, strikes, parts)))
        }
        _ => Ok(None),
    }
}

/// After the token behind a part of a fault's name.
fn after_step(
    alloc: Global,
    head: Head,
    mut strikes: PathList,
    parts: NameList,
    causes: &mut WrittenList,
    token: &TokenText,
) -> Result<Option<CauseState>, OutOfMemory>
    ensures { IfOk result (λ next. read_view next causes.new
        ≡ after_read (mark_of token.now) head.name head.from head.to strikes parts (written_trees causes.old)) }
{
    match token.mark() {
        Mark::Dot => Ok(Some(CauseState::Part(head, strikes, parts))),
        Mark::Comma => {
            strikes.push(parts)?;
            Ok(Some(CauseState::Part(head, strikes, NameList::new(alloc))))
        }
        Mark::Semicolon => {
            strikes.push(parts)?;
            causes.push(written(head, strikes))?;
            Ok(Some(CauseState::Start))
        }
        _ => Ok(None),
    }
}

/// The cause of this head that strikes these faults.
fn written(head: Head, strikes: PathList) -> Written
    ensures { written_tree result ≡ cause_read head.name head.from head.to strikes }
{
    let Head { name, from, to } = head;
    Written {
        name,
        from,
        to,
        strikes,
    }
}
