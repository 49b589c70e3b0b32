//! A first pass over a list, from its end: the clauses of gates that nothing reads are not entered into the base.
//!
//! [`read_base`] is the main function. A gate's clauses stand side by side, its variable is the highest of theirs, and what reads
//! it stands behind them. So a gate that nothing reads is one whose variable no clause has that was kept before, and none
//! that stands before its own. It may go where some value of it makes its clauses true, whatever the other variables are: where all
//! resolvents on it are tautologies. Many definitions are in no formula of a list, and their clauses cost here a look at each, and one
//! number.
ghost use Rattle.std.specs.Prelude.{◌≡◌, ◌+◌, ◌-◌, ◌≤◌, ◌<◌, IfOk, OnOk, [], All, true, false, length, slice_index_or, map};
ghost use Rattle.std.specs.Prelude.{take, drop};
ghost use Rattle.std.specs.List.{list_all};
ghost use Rattle.sat_clauses.specs.Derivation.{IsUpTo};
ghost use Rattle.sat_simplify.specs.ClauseBase.{IsEntered};
ghost use Rattle.sat_simplify.specs.Unread.{is_clash as clash_at, clash as clash_of, clashes as clash_if, is_closed_at as closed_at};
ghost use Rattle.sat_simplify.specs.Unread.{is_closed as closed, AreTops, IsPlaceIn, IsLeft, CanGo, compacted_at, HasRead};

use crate::base::Base;
use crate::compact::{clause_of, gaps_of, mark_clause};
use crate::lists::entered;
use crate::literals::has;
use base_values::OutOfMemory;
use sat_clauses::clause::Clause;
use sat_clauses::lit::Lit;
use std::alloc::Global;

/// The most clauses of a gate.
pub const MOST: usize = 16;

// Whether a literal other than `lit` has its opposite in the clause.
fn is_clash(lit: Lit, other: &[Lit], m: Lit) -> bool
    ensures { result ≡ clash_at lit other.now m }
{
    if m == lit { false } else { has(other, m.neg()) }
}

// Whether the resolvent of two clauses on a literal is a tautology.
fn clash(lit: Lit, lits: &[Lit], other: &[Lit]) -> bool
    ensures { result ≡ clash_of lit lits.now other.now }
{
    lits.iter().any(|m| is_clash(lit, other, *m))
}

// Whether that is so if the second clause has the opposite.
fn clashes(lit: Lit, lits: &[Lit], other: &[Lit]) -> bool
    ensures { result ≡ clash_if lit lits.now other.now }
{
    if has(other, lit.neg()) {
        clash(lit, lits, other)
    } else {
        true
    }
}

// Whether all resolvents of a clause with these on a literal are tautologies.
fn clashes_all(lit: Lit, lits: &[Lit], group: &[Clause]) -> bool
    ensures { result ≡ list_all (clash_if lit lits.now) group.now }
{
    group.iter().all(|other| clashes(lit, lits, other.lits()))
}

// Whether a clause has the literal, with all its resolvents with these clauses tautologies, or the opposite.
fn is_closed_at(lit: Lit, group: &[Clause], lits: &[Lit]) -> bool
    ensures { result ≡ closed_at lit group.now lits.now }
{
    if has(lits, lit) {
        clashes_all(lit, lits, group)
    } else {
        has(lits, lit.neg())
    }
}

// Whether each of these clauses has the literal's variable, and all their resolvents are tautologies.
fn is_closed(lit: Lit, group: &[Clause]) -> bool
    ensures { result ≡ closed lit group.now }
{
    group
        .iter()
        .all(|clause| is_closed_at(lit, group, clause.lits()))
}

// A literal of the highest variable.
fn highest(lits: &[Lit]) -> Option<Lit> {
    let mut most = 0;
    let mut highest = None;
    for lit in lits {
        if lit.var() > most {
            most = lit.var();
            highest = Some(*lit);
        }
    }
    highest
}

// The highest variable, or a number that is higher than it.
fn top_of(top: u64, lits: &[Lit]) -> u64
    ensures least { top ≤ result }
    ensures up_to { All (IsUpTo result) lits.now }
{
    let mut most = top;
    for lit in lits {
        most = most.max(lit.var());
    }
    most
}

// For each beginning of a list a number that no variable of it is above.
fn tops_of(alloc: Global, list: &[Clause]) -> Result<Vec<u64>, OutOfMemory>
    ensures { IfOk result (λ tops. AreTops list.now tops.items) }
{
    let mut tops = Vec::new(alloc);
    let mut top = 0;
    for clause in list {
        tops.push(top)?;
        top = top_of(top, clause.lits());
    }
    Ok(tops)
}

// The pass: how many clauses are left, the places of those that were kept, and the variables of these.
#[derive(Drop)]
struct Pass {
    left: usize,
    kept: Vec<usize>,
    marks: Vec<bool>,
}

// Where the clauses with the variable of a literal begin that stand before a place.
fn begin_of(list: &[Clause], left: usize, lit: Lit) -> usize {
    let mut begin = left;
    for _ in 0..MOST {
        if begin == 0 || begin > list.len() {
            return begin;
        }
        let lits = list[begin - 1].lits();
        if !has(lits, lit) && !has(lits, lit.neg()) {
            return begin;
        }
        begin -= 1;
    }
    begin
}

// Whether no clause that was kept has the variable of a literal, which is no place.
fn is_unread(places: u64, marks: &[bool], lit: Lit) -> bool
    ensures own { result ≡ true → places < lit.var }
    ensures unmarked { result ≡ true → slice_index_or marks.now (lit.var - places - 1) false ≡ false }
{
    if lit.var() <= places {
        return false;
    }
    match marks.get((lit.var() - places - 1) as usize) {
        Some(is_marked) => !*is_marked,
        None => true,
    }
}

// Whether the clauses from the one place to the other are such.
fn is_closed_between(lit: Lit, list: &[Clause], begin: usize, left: usize) -> bool
    requires begin { begin ≤ left }
    requires left { left ≤ length list.now }
    ensures { result ≡ closed lit (drop begin (take left list.now)) }
{
    let before = &list[..left];
    is_closed(lit, &before[begin..])
}

// Whether the clauses from the one place to the other are those of the variable of a literal, which may go.
fn can_go(places: u64, list: &[Clause], tops: &[u64], pass: &Pass, begin: usize, lit: Lit) -> bool
    requires tops { AreTops list.now tops.now }
    requires within { pass.now.left ≤ length list.now }
    ensures { result ≡ true → CanGo places list.now pass.now.marks.items pass.now.left begin }
{
    if begin >= pass.left || begin >= tops.len() {
        return false;
    }
    if !is_unread(places, pass.marks.as_slice(), lit) || tops[begin] >= lit.var() {
        return false;
    }
    is_closed_between(lit, list, begin, pass.left)
}

// The literals of the clause of a place.
fn lits_at(list: &[Clause], i: usize) -> &[Lit]
    requires { i < length list.now }
    ensures { result.now ≡ slice_index_or list.now i [] }
{
    list[i].lits()
}

impl Pass {
    // Keeps the last clause that is left.
    fn keep(&mut self, places: u64, list: &[Clause], last: usize) -> Result<(), OutOfMemory>
        requires last { last + 1 ≡ self.old.left }
        requires left { IsLeft places list.now self.old.left self.old.kept.items self.old.marks.items }
        ensures { OnOk result (IsLeft places list.now self.new.left self.new.kept.items self.new.marks.items) }
    {
        mark_clause(&mut self.marks, places, lits_at(list, last))?;
        self.kept.push(last)?;
        self.left = last;
        Ok(())
    }

    // Lets the clauses of a gate that nothing reads go, if they are the last that are left, or keeps the last one.
    fn turn(&mut self, places: u64, list: &[Clause], tops: &[u64]) -> Result<(), OutOfMemory>
        requires some { 0 < self.old.left }
        requires tops { AreTops list.now tops.now }
        requires left { IsLeft places list.now self.old.left self.old.kept.items self.old.marks.items }
        ensures { OnOk result (IsLeft places list.now self.new.left self.new.kept.items self.new.marks.items) }
    {
        let last = self.left - 1;
        let Some(lit) = highest(list[last].lits()) else {
            return self.keep(places, list, last);
        };
        let begin = begin_of(list, self.left, lit);
        if can_go(places, list, tops, self, begin, lit) {
            self.left = begin;
            return Ok(());
        }
        self.keep(places, list, last)
    }
}

// The pass over a list.
#[tactic(auto, using(crate::proofs::UnreadLaws::left_first))]
fn passed(alloc: Global, places: u64, list: &[Clause]) -> Result<Pass, OutOfMemory>
    ensures none { IfOk result (λ p. p.left ≡ 0) }
    ensures left { IfOk result (λ p. IsLeft places list.now p.left p.kept.items p.marks.items) }
{
    let tops = tops_of(alloc, list)?;
    let mut pass = Pass {
        left: list.len(),
        kept: Vec::new(alloc),
        marks: Vec::new(alloc),
    };
    for _turn in 0..u64::MAX {
        if pass.left == 0 {
            return Ok(pass);
        }
        pass.turn(places, list, tops.as_slice())?;
    }
    Err(OutOfMemory)
}

// The literals of the clause whose place is the one of a number among these.
fn lits_of<'a>(list: &'a [Clause], at: &[usize], k: usize) -> &'a [Lit]
    requires number { k < length at.now }
    requires places { All (IsPlaceIn list.now) at.now }
    ensures { result.now ≡ slice_index_or list.now (slice_index_or at.now k 0) [] }
{
    list[at[k]].lits()
}

// A base of the clauses of these places, their variables brought down.
fn base_at(
    alloc: Global,
    places: u64,
    gaps: &[u64],
    list: &[Clause],
    at: &[usize],
) -> Result<Base, OutOfMemory>
    requires { All (IsPlaceIn list.now) at.now }
    ensures { IfOk result (λ b. IsEntered places (map (compacted_at places gaps.now list.now) at.now) b) }
{
    let mut base = Base::new(alloc, places);
    for k in 0..at.len() {
        let clause = clause_of(alloc, places, gaps, lits_of(list, at, k))?;
        let one = entered(alloc, clause.lits())?;
        base.add_some(&one)?;
    }
    Ok(base)
}

/// A base that says the same of the places as a list, without the clauses of gates that nothing reads, and with the variables above the
/// places numbered without gaps. The clauses are entered one by one, so that beside the list and the base no other copy stands.
pub fn read_base(alloc: Global, places: u64, list: &[Clause]) -> Result<Base, OutOfMemory>
    ensures { IfOk result (λ b. HasRead places list.now b) }
{
    let pass = passed(alloc, places, list)?;
    let gaps = gaps_of(alloc, pass.marks.as_slice())?;
    let mut kept = pass.kept;
    kept.reverse();
    let base = base_at(alloc, places, gaps.as_slice(), list, kept.as_slice())?;
    Ok(base)
}
