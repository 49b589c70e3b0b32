//! What is chosen where a panel's adviser answers this or that, and when an adviser is dropped.
use crate::advisers::{add_in_order, add_scripted};
use crate::clauses::make_true;
use base_values::OutOfMemory;
use sat_adviser::{Adviser, Panel};
use sat_clauses::assign::Assign;
use sat_solver::choose::{choose, least_free};
use std::alloc::Global;
use std::test::Fail;

// The code of the literal that is chosen, or 0 where no variable is free.
fn chosen(panel: &mut Panel, assign: &Assign) -> u64 {
    if assign.vars() >= 100 {
        return 0;
    }
    match least_free(assign, 1) {
        Some(_) => choose(panel, assign).code(),
        None => 0,
    }
}

// A panel of one adviser, which answers these codes in turn.
fn panel_of(alloc: Global, codes: &[u64]) -> Result<Panel, OutOfMemory> {
    let mut advisers: Vec<Box<dyn Adviser>> = Vec::new(alloc);
    add_scripted(alloc, &mut advisers, codes)?;
    Ok(Panel::new(advisers))
}

// The first choice that is not the wanted one.
fn first_wrong(panel: &mut Panel, assign: &Assign, codes: &[u64]) -> Option<usize> {
    for (i, code) in codes.iter().enumerate() {
        if chosen(panel, assign) != *code {
            return Some(i);
        }
    }
    None
}

// Variable 1 is false, so 3 is the code of an assigned variable, and -2 the negation of the least
// free one.
#[test]
fn chooses(rt: HostRuntime) -> Result<(), Fail> {
    let mut panel = panel_of(rt.alloc(), &[6, 0, 4000000000, 3, 5])?;
    let mut assign = Assign::with_vars(rt.alloc(), 3)?;
    make_true(&mut assign, -1);
    let wrong = first_wrong(&mut panel, &assign, &[6, 5, 5, 5, 5, 6]);
    assert_eq!(rt; wrong, None);
    Ok(())
}

// A panel of an adviser whose picks are never taken and one that is made ready for one variable.
fn panel_of_two(alloc: Global) -> Result<Panel, OutOfMemory> {
    let mut advisers: Vec<Box<dyn Adviser>> = Vec::new(alloc);
    add_scripted(alloc, &mut advisers, &[0])?;
    add_in_order(alloc, &mut advisers)?;
    let mut panel = Panel::new(advisers);
    panel.ready(1)?;
    Ok(panel)
}

// So many free choices over one free variable, and how many advisers are left then.
fn left(panel: &mut Panel, assign: &Assign, times: usize) -> usize {
    for _ in 0..times {
        let _code = chosen(panel, assign);
    }
    panel.count()
}

// How many advisers are left of two after 999 choices and one more, and of one after 5000.
fn counts(alloc: Global) -> Result<(usize, usize, usize), OutOfMemory> {
    let assign = Assign::with_vars(alloc, 1)?;
    let mut two = panel_of_two(alloc)?;
    let before = left(&mut two, &assign, 999);
    let after = left(&mut two, &assign, 1);
    let mut one = panel_of(alloc, &[0])?;
    Ok((before, after, left(&mut one, &assign, 5000)))
}

// An adviser whose picks are never taken is dropped after a thousand, but not the last one.
#[test]
fn drops_advisers(rt: HostRuntime) -> Result<(), Fail> {
    assert_eq!(rt; counts(rt.alloc())?, (2, 1, 1));
    Ok(())
}
