//! Free choices: whether any is needed, and which literal an adviser or the order of the variables gives.
ghost use Rattle.std.specs.Prelude.{◌≡◌, ◌<◌, ◌^◌};

use crate::clauses::{Watch, at, put_watch};
use crate::kernel::Kernel;
use crate::trail::{FREE, TRUE};
use base_values::OutOfMemory;
use sat_adviser::Panel;

impl Kernel {
    /// Whether a literal is true, or would be once each free variable is false.
    fn would_be_true(&self, code: u32) -> bool {
        // (where it is free, TRUE is what the code of a negation adds to FREE)
        u32::from(self.trail.value(code)) | (code % 2) == u32::from(TRUE)
    }

    /// Whether the clause at a place of the list of doubtful ones would hold. The literal by which it does is looked at first the next
    /// time.
    fn would_hold(&mut self, i: usize) -> bool {
        let Some(watch) = self.doubtful.get(i).copied() else {
            return true;
        };
        if self.would_be_true(watch.glance) {
            return true;
        }
        for code in self.lits_of(watch.place) {
            if self.would_be_true(*code) {
                let glance = *code;
                put_watch(&mut self.doubtful, i, watch.place, glance);
                return true;
            }
        }
        false
    }

    /// The place in the list of doubtful clauses from one on up to another of the first that would not hold.
    fn open_between(&mut self, from: usize, to: usize) -> Option<usize> {
        for i in from..to {
            if !self.would_hold(i) {
                return Some(i);
            }
        }
        None
    }

    /// Notes a given clause as doubtful, if it has two literals that are no negations. Any other holds once each free variable is false,
    /// where all is propagated: it has a literal that is true, or two that are free, of which one is a negation.
    pub fn doubt(&mut self, place: u32) -> Result<(), OutOfMemory> {
        let lits = self.lits_of(place);
        let glance = at(lits, 0);
        if lits.iter().filter(|code| **code % 2 == 0).count() >= 2 {
            self.doubtful.push(Watch { place, glance })?;
        }
        Ok(())
    }

    /// Whether a given clause would not hold once each free variable is false; that at which the last look ended is looked at first.
    pub fn is_open(&mut self) -> bool {
        let count = self.doubtful.len();
        let from = self.open.min(count);
        let found = match self.open_between(from, count) {
            Some(place) => Some(place),
            None => self.open_between(0, from),
        };
        self.open = found.unwrap_or(0);
        found.is_some()
    }

    /// The first wish that is free, as long as the question has met few conflicts.
    fn wished(&mut self) -> Option<u32> {
        if self.patience == 0 {
            return None;
        }
        for i in self.granted..self.wishes.len() {
            let code = at(&self.wishes, i);
            if self.trail.value(code) == FREE {
                return Some(code);
            }
            self.granted = i;
        }
        None
    }

    /// The code of a literal over the variables up to this one to make true: a wish, or else the adviser's, where it is free and the
    /// question has met no conflict, and else the least free variable's negation.
    pub fn choose(&mut self, vars: u32, panel: &mut Panel) -> Option<u32>
        requires { vars < 2 ^ 32 }
        ensures vars { panel.new.vars ≡ panel.old.vars }
        ensures rotated { panel.new.rotated ≡ panel.old.rotated }
    {
        if let Some(code) = self.wished() {
            return Some(code);
        }
        if self.is_calm {
            let code = panel.pick();
            let picked = (code & 0xffff_ffff) as u32;
            let is_free = code >= 2
                && code / 2 <= u64::from(vars)
                && self.trail.value(picked) == FREE;
            panel.judge(is_free);
            if is_free {
                return Some(picked);
            }
        }
        let var = self.trail.first_free(vars)?;
        Some(var.wrapping_mul(2) | 1)
    }
}
