//! Verdicts on formulas that were made by hand, each derivation taken by a checker, and a search that keeps
//! what was added.
ghost use Rattle.std.specs.Prelude.{◌≡◌, None, OnOk};

use crate::advisers::add_in_order;
use crate::clauses::{add, are_up_to, crowd, list_of, literal, lits_of};
use crate::stores::push;
use base_values::OutOfMemory;
use sat_adviser::{Adviser, Panel};
use sat_clauses::assign::Assign;
use sat_clauses::checker::Checker;
use sat_clauses::clause::{Clause, ClauseList, Truth};
use sat_clauses::hints::has_no_opposites;
use sat_clauses::lit::Lit;
use sat_clauses::recorder::{KeepAll, KeepNone, Recorder};
use sat_clauses::step::Step;
use sat_clauses::store::{PlainStore, Store};
use sat_clauses::truth::truth;
use sat_solver::arena::Arena;
use sat_solver::kept::Search;
use sat_solver::solve::{Verdict, can_solve, solve, solve_in};
use std::alloc::Global;
use std::test::Fail;

// Picks no literal, but tells by its picks how often it was asked and told.
#[derive(Drop)]
struct CountingSearch {
    asked: u64,
    told: u64,
}

impl Adviser for CountingSearch {
    ghost told = { λ c. c.told };

    ghost asked = { λ c. c.asked };

    fn ready(&mut self, _vars: u64) -> Result<(), OutOfMemory> {
        Ok(())
    }

    fn pick(&mut self) -> u64 {
        self.asked = self.asked.saturating_add(1);
        self.asked
            .saturating_add(self.told.saturating_mul(1000))
            .saturating_add(1000000)
    }

    fn learned(&mut self, _lits: &[Lit]) {
        self.told = self.told.saturating_add(1);
    }

    fn told(&self) -> u64 {
        self.told
    }

    fn asked(&self) -> u64 {
        self.asked
    }
}

// A recorder that never has room.
#[derive(Clone, Copy)]
struct Full;

impl Recorder for Full {
    ghost kept = { λ _. None };

    fn keep(&mut self, _step: &Step) -> Result<(), OutOfMemory> {
        Err(OutOfMemory)
    }
}

// A checker that was given the clauses; it lacks those that are out of range.
fn checker_of(alloc: Global, vars: u64, list: &ClauseList) -> Result<Checker, OutOfMemory> {
    let mut checker = Checker::new(alloc, vars.min(10_000))?;
    for clause in list.as_slice() {
        if are_up_to(clause.lits(), checker.vars()) {
            checker.add_given(clause)?;
        }
    }
    Ok(checker)
}

// Whether a checker takes a step.
fn takes(checker: &mut Checker, step: &Step) -> Result<bool, OutOfMemory> {
    checker.reserve(1, step.clause.lits().len())?;
    Ok(checker.can_take(&step.clause) && checker.step(step).is_ok())
}

// Whether it takes each.
fn takes_all(checker: &mut Checker, kept: &KeepAll) -> Result<bool, OutOfMemory> {
    for i in 0..kept.steps().len() {
        if !takes(checker, kept.steps().at(i))? {
            return Ok(false);
        }
    }
    Ok(true)
}

// Whether an assignment makes a clause true.
fn is_true(clause: &Clause, assign: &Assign) -> bool {
    are_up_to(clause.lits(), assign.vars()) && truth(clause, assign) == Truth::True
}

// Whether it makes all true.
fn are_true(list: &ClauseList, assign: &Assign) -> bool {
    list.as_slice().iter().all(|clause| is_true(clause, assign))
}

// What comes of a search, as a number: the length of a clause that refutes, or one of these.
const MODEL: usize = 1000;
// It could not be asked for, a step was not taken, or an assignment does not make all true.
const WRONG: usize = 2000;

fn judged(list: &ClauseList, verdict: &Verdict) -> usize {
    match verdict {
        Verdict::Sat(assign) if are_true(list, assign) => MODEL,
        Verdict::Sat(_) => WRONG,
        Verdict::Unsat(clause) => clause.lits().len(),
    }
}

fn solved(
    alloc: Global,
    vars: u64,
    list: &ClauseList,
    assumptions: &[Lit],
    panel: &mut Panel,
    kept: &mut KeepAll,
) -> Result<usize, OutOfMemory> {
    if !can_solve(list, vars, assumptions) {
        return Ok(WRONG);
    }
    let verdict = solve(alloc, list, vars, assumptions, panel, kept)?;
    Ok(judged(list, &verdict))
}

// What comes of a search under assumptions, and how many steps were kept.
fn search(
    alloc: Global,
    vars: u64,
    list: &ClauseList,
    assumptions: &[i64],
    panel: &mut Panel,
) -> Result<(usize, usize), OutOfMemory> {
    let lits = lits_of(alloc, assumptions)?;
    let mut kept = KeepAll::new(alloc);
    let found = solved(alloc, vars, list, &lits, panel, &mut kept)?;
    let mut checker = checker_of(alloc, vars, list)?;
    if takes_all(&mut checker, &kept)? {
        Ok((found, kept.steps().len()))
    } else {
        Ok((WRONG, 0))
    }
}

// Nothing to make true, and the empty clause.
fn edges(alloc: Global) -> Result<(usize, (usize, usize)), OutOfMemory> {
    let mut nobody = Panel::new(Vec::new(alloc));
    let list = ClauseList::new(alloc);
    let (nothing, _) = search(alloc, 0, &list, &[], &mut nobody)?;
    let list = list_of(alloc, &[0])?;
    Ok((nothing, search(alloc, 0, &list, &[], &mut nobody)?))
}

// [1 2] [-1 2] under the assumption -2 and under none.
fn two_clauses(alloc: Global, panel: &mut Panel) -> Result<(usize, usize), OutOfMemory> {
    let list = list_of(alloc, &[1, 2, 0, -1, 2, 0])?;
    let (under, _) = search(alloc, 2, &list, &[-2], panel)?;
    let (alone, _) = search(alloc, 2, &list, &[], panel)?;
    Ok((under, alone))
}

// Whether a search fails for a recorder without room.
fn fails(alloc: Global, vars: u64, list: &ClauseList, panel: &mut Panel) -> bool {
    can_solve(list, vars, &[]) && solve(alloc, list, vars, &[], panel, &mut Full).is_err()
}

// The four clauses over two variables, of which an adviser must hear, and a recorder without room.
fn four_clauses(alloc: Global, panel: &mut Panel) -> Result<((usize, usize), bool), OutOfMemory> {
    let list = list_of(alloc, &[1, 2, 0, -1, 2, 0, 1, -2, 0, -1, -2, 0])?;
    let found = search(alloc, 2, &list, &[], panel)?;
    Ok((found, fails(alloc, 2, &list, panel)))
}

// Three pigeons in three holes, and four.
fn holes(alloc: Global, panel: &mut Panel) -> Result<(usize, usize), OutOfMemory> {
    let list = crowd(alloc, 3, 3)?;
    let (three, _) = search(alloc, 9, &list, &[], panel)?;
    let list = crowd(alloc, 3, 4)?;
    let (four, _) = search(alloc, 12, &list, &[], panel)?;
    Ok((three, four))
}

// Variable i + 1 differs from variable i exactly where variable 100 + i is true.
fn differ(alloc: Global, list: &mut ClauseList, i: i64) -> Result<(), OutOfMemory> {
    let next = i.wrapping_add(1);
    let other = i.wrapping_add(100);
    let (not_i, not_next, not_other) = (
        i.wrapping_neg(),
        next.wrapping_neg(),
        other.wrapping_neg(),
    );
    add(
        alloc,
        list,
        &[not_other, i, next, 0, not_other, not_i, not_next, 0],
    )?;
    add(alloc, list, &[other, not_i, next, 0, other, i, not_next, 0])
}

// The clauses of a chain of 50 variables.
fn chain(alloc: Global) -> Result<ClauseList, OutOfMemory> {
    let mut list = ClauseList::new(alloc);
    for i in 1..50i64 {
        differ(alloc, &mut list, i)?;
    }
    Ok(list)
}

// Each two neighbours of it have one value.
fn be_alike(alloc: Global, list: &mut ClauseList) -> Result<(), OutOfMemory> {
    for i in 101..150i64 {
        add(alloc, list, &[i.wrapping_neg(), 0])?;
    }
    Ok(())
}

// The first and the last variable of a chain of 196 clauses can differ, and no longer once every
// step must keep the value.
fn ends(alloc: Global, panel: &mut Panel) -> Result<(usize, usize), OutOfMemory> {
    let mut list = chain(alloc)?;
    let (free, _) = search(alloc, 150, &list, &[1, -50], panel)?;
    be_alike(alloc, &mut list)?;
    let (alike, _) = search(alloc, 150, &list, &[1, -50], panel)?;
    Ok((free, alike))
}

// A panel of an adviser that counts and one that answers the variables in order.
fn panel_of_two(alloc: Global) -> Result<Panel, OutOfMemory> {
    let mut advisers: Vec<Box<dyn Adviser>> = Vec::new(alloc);
    advisers.push(Box::new(alloc, CountingSearch { asked: 0, told: 0 })?)?;
    add_in_order(alloc, &mut advisers)?;
    Ok(Panel::new(advisers))
}

// Whether the counting adviser was asked and told, and then the other one has its turn.
fn turn(panel: &mut Panel) -> Result<bool, OutOfMemory> {
    let counts = panel.pick();
    panel.rotate();
    panel.ready(150)?;
    Ok(counts % 1000 > 1 && counts / 1000 > 1000)
}

#[test]
fn answers(rt: HostRuntime) -> Result<(), Fail> {
    let alloc = rt.alloc();
    assert_eq!(rt; edges(alloc)?, (MODEL, (0, 0)));
    let mut panel = panel_of_two(alloc)?;
    assert_eq!(rt; two_clauses(alloc, &mut panel)?, (1, MODEL));
    assert_eq!(rt; four_clauses(alloc, &mut panel)?, ((0, 2), true));
    assert!(rt; turn(&mut panel)?);
    assert_eq!(rt; holes(alloc, &mut panel)?, (MODEL, 0));
    assert_eq!(rt; ends(alloc, &mut panel)?, (MODEL, 2));
    Ok(())
}

// What comes of a search in a store under assumptions.
fn search_in<S: Store>(
    alloc: Global,
    store: &mut S,
    assumptions: &[Lit],
    panel: &mut Panel,
) -> Result<usize, OutOfMemory> {
    let vars = store.vars();
    if vars >= 100 || !store.trail().is_empty() {
        return Ok(WRONG);
    }
    if !are_up_to(assumptions, vars) || !has_no_opposites(assumptions) {
        return Ok(WRONG);
    }
    match solve_in(alloc, store, assumptions, panel, &mut KeepNone)? {
        Verdict::Sat(_) => Ok(MODEL),
        Verdict::Unsat(clause) => Ok(clause.lits().len()),
    }
}

// Two clauses over two variables refute an assumption, and the four have no model.
fn refutes_in<S: Store>(alloc: Global, store: &mut S) -> Result<(usize, usize), OutOfMemory> {
    let mut panel = Panel::new(Vec::new(alloc));
    push(alloc, store, &[1, 2])?;
    push(alloc, store, &[-1, 2])?;
    let under = search_in(alloc, store, &[literal(-2)], &mut panel)?;
    push(alloc, store, &[1, -2])?;
    push(alloc, store, &[-1, -2])?;
    let alone = search_in(alloc, store, &[], &mut panel)?;
    Ok((under, alone))
}

#[test]
fn searches_either_store(rt: HostRuntime) -> Result<(), Fail> {
    let mut plain = PlainStore::new(rt.alloc(), 2)?;
    assert_eq!(rt; refutes_in(rt.alloc(), &mut plain)?, (1, 0));
    let mut watched = Arena::new(rt.alloc(), 2)?;
    assert_eq!(rt; refutes_in(rt.alloc(), &mut watched)?, (1, 0));
    Ok(())
}

// What comes of one assumption or none.
fn ask(
    search: &mut Search<KeepNone>,
    vars: u64,
    assumptions: &[Lit],
    panel: &mut Panel,
) -> Result<usize, OutOfMemory>
    requires { search.old.kept.vars ≡ vars }
    ensures { OnOk result (search.new.kept.vars ≡ vars) }
{
    if !are_up_to(assumptions, vars) || !has_no_opposites(assumptions) {
        return Ok(WRONG);
    }
    match search.ask(assumptions, panel)? {
        Verdict::Sat(_) => Ok(MODEL),
        Verdict::Unsat(clause) => Ok(clause.lits().len()),
    }
}

// Adds the clause of these numbers to a search, if its variables are in range.
fn add_to(
    alloc: Global,
    search: &mut Search<KeepNone>,
    vars: u64,
    numbers: &[i64],
) -> Result<(), OutOfMemory>
    requires { search.old.kept.vars ≡ vars }
    ensures { OnOk result (search.new.kept.vars ≡ vars) }
{
    let lits = lits_of(alloc, numbers)?;
    let clause = Clause::from_lits(alloc, &lits)?;
    if !are_up_to(clause.lits(), vars) {
        return Ok(());
    }
    search.add(&clause)
}

// What comes of the assumption of a number once a clause was added.
fn then(
    alloc: Global,
    search: &mut Search<KeepNone>,
    vars: u64,
    numbers: &[i64],
    assumption: i64,
    panel: &mut Panel,
) -> Result<usize, OutOfMemory>
    requires { search.old.kept.vars ≡ vars }
    ensures { OnOk result (search.new.kept.vars ≡ vars) }
{
    add_to(alloc, search, vars, numbers)?;
    ask(search, vars, &[literal(assumption)], panel)
}

// What comes of -1 with [1 2], and with [-2] too, and then of nothing.
fn over_two(
    alloc: Global,
    search: &mut Search<KeepNone>,
    panel: &mut Panel,
) -> Result<(usize, usize, usize), OutOfMemory>
    requires { search.old.kept.vars ≡ 2 }
    ensures { OnOk result (search.new.kept.vars ≡ 2) }
{
    let free = then(alloc, search, 2, &[1, 2], -1, panel)?;
    let refuted = then(alloc, search, 2, &[-2], -1, panel)?;
    let nothing = ask(search, 2, &[], panel)?;
    Ok((free, refuted, nothing))
}

// The same, then a variable that comes, and what comes of it with [-3 -1].
fn over_three(alloc: Global) -> Result<((usize, usize, usize), u64, usize), OutOfMemory> {
    let mut panel = Panel::new(Vec::new(alloc));
    let mut search = Search::new(alloc, 2, KeepNone)?;
    let before = over_two(alloc, &mut search, &mut panel)?;
    let three = search.fresh(&mut panel)?;
    let after = then(alloc, &mut search, 3, &[-3, -1], 3, &mut panel)?;
    Ok((before, three, after))
}

#[test]
fn keeps_what_was_added(rt: HostRuntime) -> Result<(), Fail> {
    assert_eq!(rt; over_three(rt.alloc())?, ((MODEL, 1, MODEL), 3, 1));
    Ok(())
}

// The same questions over two variables, and how many clauses there are then.
fn counted(
    alloc: Global,
    mut search: Search<KeepNone>,
) -> Result<((usize, usize, usize), usize), OutOfMemory>
    requires { search.kept.vars ≡ 2 }
{
    let mut panel = Panel::new(Vec::new(alloc));
    let found = over_two(alloc, &mut search, &mut panel)?;
    Ok((found, search.count()))
}

#[test]
fn forgets_what_refuted(rt: HostRuntime) -> Result<(), Fail> {
    let alloc = rt.alloc();
    let kept = counted(alloc, Search::new(alloc, 2, KeepNone)?)?;
    assert_eq!(rt; kept, ((MODEL, 1, MODEL), 4));
    let forgotten = counted(alloc, Search::forgetful(alloc, 2)?)?;
    assert_eq!(rt; forgotten, ((MODEL, 1, MODEL), 3));
    Ok(())
}

// Adds a clause that counts only while a variable is true.
fn add_under(
    alloc: Global,
    search: &mut Search<KeepNone>,
    clause: &Clause,
    guard: Lit,
) -> Result<(), OutOfMemory>
    requires { search.old.kept.vars ≡ 75 }
    ensures { OnOk result (search.new.kept.vars ≡ 75) }
{
    let mut lits = Vec::new(alloc);
    lits.extend_from_slice(clause.lits())?;
    lits.push(guard.neg())?;
    let under = Clause::from_lits(alloc, &lits)?;
    if !are_up_to(under.lits(), 75) {
        return Ok(());
    }
    search.add(&under)
}

// Adds the clauses of nine pigeons in eight holes, which count only while a variable is true.
fn crowd_under(alloc: Global, search: &mut Search<KeepNone>, guard: Lit) -> Result<(), OutOfMemory>
    requires { search.old.kept.vars ≡ 75 }
    ensures { OnOk result (search.new.kept.vars ≡ 75) }
{
    let list = crowd(alloc, 8, 9)?;
    'clauses: for clause in list.as_slice() {
        add_under(alloc, search, clause, guard)?;
    }
    Ok(())
}

// How long the clause is that refutes the pigeons of a variable, and then, with what is of no more use dropped, that of the same question.
fn asked_twice(
    search: &mut Search<KeepNone>,
    guard: Lit,
    panel: &mut Panel,
) -> Result<(usize, usize), OutOfMemory>
    requires { search.old.kept.vars ≡ 75 }
    ensures { OnOk result (search.new.kept.vars ≡ 75) }
{
    let first = ask(search, 75, &[guard], panel)?;
    search.forget()?;
    let again = ask(search, 75, &[guard], panel)?;
    Ok((first, again))
}

// What comes of the pigeons of three variables, which hundreds of clauses are learned for each, and of no assumption; and whether fewer
// than 2,000 learned clauses are left.
fn forgetful_answers(alloc: Global) -> Result<([(usize, usize); 3], (usize, bool)), OutOfMemory> {
    let mut panel = Panel::new(Vec::new(alloc));
    let (one, two, three) = (
        Lit::new(73, false),
        Lit::new(74, false),
        Lit::new(75, false),
    );
    let mut search = Search::forgetful(alloc, 75)?;
    crowd_under(alloc, &mut search, one)?;
    crowd_under(alloc, &mut search, two)?;
    crowd_under(alloc, &mut search, three)?;
    let first = asked_twice(&mut search, one, &mut panel)?;
    let second = asked_twice(&mut search, two, &mut panel)?;
    let third = asked_twice(&mut search, three, &mut panel)?;
    let free = ask(&mut search, 75, &[], &mut panel)?;
    Ok(([first, second, third], (free, search.learned() < 2000)))
}

#[test]
fn drops_what_it_learned_and_answers_alike(rt: HostRuntime) -> Result<(), Fail> {
    let (refuted, rest) = forgetful_answers(rt.alloc())?;
    assert_eq!(rt; refuted, [(1, 1), (1, 1), (1, 1)]);
    assert_eq!(rt; rest, (MODEL, true));
    Ok(())
}
