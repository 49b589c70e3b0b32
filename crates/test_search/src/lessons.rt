//! What advisers hear of a search: each clause that it learned, and as often as it restarted another one of
//! them has the word.
use crate::clauses::crowd;
use base_values::OutOfMemory;
use sat_adviser::{Adviser, Panel};
use sat_clauses::lit::Lit;
use sat_clauses::recorder::{KeepAll, Recorder};
use sat_solver::solve::{Verdict, can_solve, solve};
use std::alloc::Global;
use std::test::Fail;

// Picks no literal, but tells by its picks what it heard: the mix of all literals, and one more for each
// clause.
#[derive(Drop)]
struct HearingLessons {
    told: u64,
    asked: u64,
    mix: u64,
}

impl Adviser for HearingLessons {
    ghost told = { λ h. h.told };

    ghost asked = { λ h. h.asked };

    fn ready(&mut self, _vars: u64) -> Result<(), OutOfMemory> {
        Ok(())
    }

    fn pick(&mut self) -> u64 {
        self.asked = self.asked.saturating_add(1);
        self.mix.saturating_add(1_000_000)
    }

    fn learned(&mut self, lits: &[Lit]) {
        self.told = self.told.saturating_add(1);
        self.mix = mixed(self.mix, lits);
    }

    fn told(&self) -> u64 {
        self.told
    }

    fn asked(&self) -> u64 {
        self.asked
    }
}

// The literals of a clause mixed into a number, of which the order and each literal make another one.
fn mixed(mix: u64, lits: &[Lit]) -> u64 {
    let mut mixed = mix;
    for lit in lits {
        mixed = mixed.wrapping_mul(31).wrapping_add(lit.code()) % 1_000_003;
    }
    mixed.wrapping_add(1) % 1_000_003
}

// A panel of one adviser, which heard nothing.
fn panel_of_hearing(alloc: Global) -> Result<Panel, OutOfMemory> {
    let mut advisers: Vec<Box<dyn Adviser>> = Vec::new(alloc);
    let hearing = HearingLessons {
        told: 0,
        asked: 0,
        mix: 0,
    };
    advisers.push(Box::new(alloc, hearing)?)?;
    Ok(Panel::new(advisers))
}

// Whether a search of so many holes for one pigeon more finds no places.
fn is_crowded(
    alloc: Global,
    holes: i64,
    panel: &mut Panel,
    kept: &mut KeepAll,
) -> Result<bool, OutOfMemory> {
    let list = crowd(alloc, holes, holes.wrapping_add(1))?;
    if !can_solve(&list, 500, &[]) {
        return Ok(false);
    }
    match solve(alloc, &list, 500, &[], panel, kept)? {
        Verdict::Sat(_) => Ok(false),
        Verdict::Unsat(clause) => Ok(clause.lits().is_empty()),
    }
}

// The mix of the clauses that were kept.
fn mix_of(kept: &KeepAll) -> u64 {
    let mut mix = 0;
    for i in 0..kept.steps().len() {
        mix = mixed(mix, kept.steps().at(i).clause.lits());
    }
    mix
}

// The mix that an adviser tells by its pick.
fn mix_told(panel: &mut Panel) -> u64 {
    panel.pick().saturating_sub(1_000_000)
}

// The lessons of a search, how often it restarted, and whether the mix of what was kept is that of what was told.
fn heard(alloc: Global, holes: i64) -> Result<Option<(usize, u64, bool)>, OutOfMemory> {
    let mut panel = panel_of_hearing(alloc)?;
    let mut kept = KeepAll::new(alloc);
    if !is_crowded(alloc, holes, &mut panel, &mut kept)? {
        return Ok(None);
    }
    let is_told = mix_of(&kept) == mix_told(&mut panel);
    Ok(Some((kept.steps().len(), panel.rotated(), is_told)))
}

// Whether there were many lessons, a restart after each hundred, and all were told.
fn are_told(heard: Option<(usize, u64, bool)>) -> bool {
    match heard {
        Some((lessons, restarts, is_told)) => {
            lessons > 300 && restarts == lessons as u64 / 100 && is_told
        }
        None => false,
    }
}

#[test]
fn each_lesson_is_told(rt: HostRuntime) -> Result<(), Fail> {
    let heard = heard(rt.alloc(), 7)?;
    assert!(rt; are_told(heard), "{heard:?}");
    Ok(())
}
