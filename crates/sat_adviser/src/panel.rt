//! The advisers of a search, one of which is present: it is asked, hears what was learned, and is dropped where too
//! many of its picks in a row were not taken. Another one is present once the search turns to the next one, and
//! where one is dropped.
//!
//! How often each was told and asked, its room, what it answers next and which clause it heard last stand in contracts as the lists of
//! these meanings over the boxes.
ghost use Rattle.std.specs.Prelude.{◌≡◌, ◌<◌, ◌≤◌, ◌^◌, IsTrue, IfSome, OnOk, OnErr, length, map};
ghost use Rattle.std.specs.Option.{option_map};
ghost use Rattle.sat_adviser.specs.Count.{risen_at};
ghost use Rattle.sat_adviser.specs.Drops.{Drops};
ghost use Rattle.sat_adviser.specs.Heard.{Gives, heard_at};
ghost use Rattle.sat_adviser.specs.Judges.{Judges};
ghost use Rattle.sat_adviser.specs.Room.{AreSomeReady};
ghost use Rattle.sat_adviser.specs.Round.{place_after};
ghost use Rattle.base_values.specs.Counts.{next_count};

use crate::adviser::Adviser;
use crate::news::News;
use crate::round::place_after;
use base_values::OutOfMemory;
use sat_clauses::lit::Lit;

/// An adviser of a caller.
pub type Boxed = Box<dyn Adviser>;

/// The advisers of a search, one of which is present.
#[derive(Drop)]
pub struct Panel {
    advisers: Vec<Boxed>,
    present: usize,
    last: u64,
    asked: u64,
    misses: u64,
    // The number of variables that the panel was last made ready for.
    vars: u64,
    rotated: u64,
}

// After how many picks in a row that were not taken an adviser is dropped.
const MOST_MISSES: u64 = 1000;

// Readies the adviser.
fn ready(adviser: &mut Boxed, vars: u64) -> Result<(), OutOfMemory>
    requires { vars < 2 ^ 62 }
    ensures told { told adviser.new ≡ told adviser.old }
    ensures asked { asked adviser.new ≡ asked adviser.old }
    ensures room { OnOk result (room adviser.new ≡ option_map (λ _. vars) (room adviser.old)) }
    ensures room_stays { OnErr result (room adviser.new ≡ room adviser.old) }
{
    adviser.ready(vars)
}

// The adviser's answer.
fn ask(adviser: &mut Boxed) -> u64
    ensures answer { IfSome (answer adviser.old) (λ n. result ≡ n) }
    ensures told { told adviser.new ≡ told adviser.old }
    ensures asked { asked adviser.new ≡ next_count (asked adviser.old) }
    ensures room { room adviser.new ≡ room adviser.old }
{
    adviser.pick()
}

// Tells the adviser a learned clause.
fn tell(adviser: &mut Boxed, lits: &[Lit])
    ensures heard { heard adviser.new ≡ option_map (λ _. lits.now) (heard adviser.old) }
    ensures told { told adviser.new ≡ next_count (told adviser.old) }
    ensures asked { asked adviser.new ≡ asked adviser.old }
    ensures room { room adviser.new ≡ room adviser.old }
{
    adviser.learned(lits);
}

// Tells the adviser what the search has come to.
fn tell_news(adviser: &mut Boxed, news: &News<'_>)
    ensures told { told adviser.new ≡ told adviser.old }
    ensures asked { asked adviser.new ≡ asked adviser.old }
    ensures room { room adviser.new ≡ room adviser.old }
{
    adviser.hears(news);
}

impl Panel {
    /// The first adviser is present.
    pub fn new(advisers: Vec<Boxed>) -> Panel
        ensures { result ≡ record { advisers = advisers; present = 0; last = 0; asked = 0; misses = 0; vars = 0; rotated = 0 } }
    {
        Panel {
            advisers,
            present: 0,
            last: 0,
            asked: 0,
            misses: 0,
            vars: 0,
            rotated: 0,
        }
    }

    /// The answer of the last pick, or 0 before the first.
    pub fn last(&self) -> u64
        ensures { result ≡ self.now.last }
    {
        self.last
    }

    /// How many picks were asked for; the count stays at the greatest number of 64 bits.
    pub fn asked(&self) -> u64
        ensures { result ≡ self.now.asked }
    {
        self.asked
    }

    /// The number of variables that the panel was last made ready for, or 0 before that.
    pub fn vars(&self) -> u64
        ensures { result ≡ self.now.vars }
    {
        self.vars
    }

    /// How often another adviser was made present by `rotate`; the count stays at the greatest number of
    /// 64 bits.
    pub fn rotated(&self) -> u64
        ensures { result ≡ self.now.rotated }
    {
        self.rotated
    }

    /// Makes room in each adviser for a problem with the variables from 1 to `vars`. After want of memory
    /// the first of them may have this room, and the others have what they had; nothing else is changed.
    pub fn ready(&mut self, vars: u64) -> Result<(), OutOfMemory>
        requires { vars < 2 ^ 62 }
        ensures room { OnOk result (map (λ b. (⟦<dyn Adviser as Adviser>⟧ b.vtable).room b.value) self.new.advisers.items
            ≡ map (option_map (λ _. vars)) (map (λ b. (⟦<dyn Adviser as Adviser>⟧ b.vtable).room b.value) self.old.advisers.items)) }
        ensures some_ready { OnErr result
            (AreSomeReady vars (map (λ b. (⟦<dyn Adviser as Adviser>⟧ b.vtable).room b.value) self.old.advisers.items)
            (map (λ b. (⟦<dyn Adviser as Adviser>⟧ b.vtable).room b.value) self.new.advisers.items)) }
        ensures vars { OnOk result (self.new.vars ≡ vars) }
        ensures vars_stay { OnErr result (self.new.vars ≡ self.old.vars) }
        ensures told { map (λ b. (⟦<dyn Adviser as Adviser>⟧ b.vtable).told b.value) self.new.advisers.items
            ≡ map (λ b. (⟦<dyn Adviser as Adviser>⟧ b.vtable).told b.value) self.old.advisers.items }
        ensures asks { map (λ b. (⟦<dyn Adviser as Adviser>⟧ b.vtable).asked b.value) self.new.advisers.items
            ≡ map (λ b. (⟦<dyn Adviser as Adviser>⟧ b.vtable).asked b.value) self.old.advisers.items }
        ensures same { self.new ≡ record self.old { advisers = self.new.advisers; vars = self.new.vars } }
    {
        let mut i = 0;
        while i < self.advisers.len() {
            ready(&mut self.advisers[i], vars)?;
            i += 1;
        }
        self.vars = vars;
        Ok(())
    }

    /// Asks the present adviser and no other, and answers 0 where there is none.
    pub fn pick(&mut self) -> u64
        ensures answer { Gives (map (λ b. (⟦<dyn Adviser as Adviser>⟧ b.vtable).answer b.value) self.old.advisers.items)
            self.old.present result }
        ensures nobody { length self.old.advisers.items ≤ self.old.present → result ≡ 0 }
        ensures last { self.new.last ≡ result }
        ensures asked { self.new.asked ≡ next_count self.old.asked }
        ensures same { self.new
            ≡ record self.old { advisers = self.new.advisers; last = self.new.last; asked = self.new.asked } }
        ensures room { map (λ b. (⟦<dyn Adviser as Adviser>⟧ b.vtable).room b.value) self.new.advisers.items
            ≡ map (λ b. (⟦<dyn Adviser as Adviser>⟧ b.vtable).room b.value) self.old.advisers.items }
        ensures told { map (λ b. (⟦<dyn Adviser as Adviser>⟧ b.vtable).told b.value) self.new.advisers.items
            ≡ map (λ b. (⟦<dyn Adviser as Adviser>⟧ b.vtable).told b.value) self.old.advisers.items }
        ensures asks { map (λ b. (⟦<dyn Adviser as Adviser>⟧ b.vtable).asked b.value) self.new.advisers.items
            ≡ risen_at (map (λ b. (⟦<dyn Adviser as Adviser>⟧ b.vtable).asked b.value) self.old.advisers.items) self.old.present }
    {
        let answer = self.present_answer();
        self.last = answer;
        self.asked = self.asked.saturating_add(1);
        answer
    }

    // The answer of the present adviser, or 0 where there is none.
    fn present_answer(&mut self) -> u64
        ensures answer { Gives (map (λ b. (⟦<dyn Adviser as Adviser>⟧ b.vtable).answer b.value) self.old.advisers.items)
            self.old.present result }
        ensures nobody { length self.old.advisers.items ≤ self.old.present → result ≡ 0 }
        ensures same { self.new ≡ record self.old { advisers = self.new.advisers } }
        ensures room { map (λ b. (⟦<dyn Adviser as Adviser>⟧ b.vtable).room b.value) self.new.advisers.items
            ≡ map (λ b. (⟦<dyn Adviser as Adviser>⟧ b.vtable).room b.value) self.old.advisers.items }
        ensures told { map (λ b. (⟦<dyn Adviser as Adviser>⟧ b.vtable).told b.value) self.new.advisers.items
            ≡ map (λ b. (⟦<dyn Adviser as Adviser>⟧ b.vtable).told b.value) self.old.advisers.items }
        ensures asks { map (λ b. (⟦<dyn Adviser as Adviser>⟧ b.vtable).asked b.value) self.new.advisers.items
            ≡ risen_at (map (λ b. (⟦<dyn Adviser as Adviser>⟧ b.vtable).asked b.value) self.old.advisers.items) self.old.present }
    {
        if self.present < self.advisers.len() {
            ask(&mut self.advisers[self.present])
        } else {
            0
        }
    }

    /// Tells the present adviser, and no other, a learned clause.
    pub fn learned(&mut self, lits: &[Lit])
        ensures heard { map (λ b. (⟦<dyn Adviser as Adviser>⟧ b.vtable).heard b.value) self.new.advisers.items
            ≡ heard_at (map (λ b. (⟦<dyn Adviser as Adviser>⟧ b.vtable).heard b.value) self.old.advisers.items) self.old.present lits.now }
        ensures told { map (λ b. (⟦<dyn Adviser as Adviser>⟧ b.vtable).told b.value) self.new.advisers.items
            ≡ risen_at (map (λ b. (⟦<dyn Adviser as Adviser>⟧ b.vtable).told b.value) self.old.advisers.items) self.old.present }
        ensures asks { map (λ b. (⟦<dyn Adviser as Adviser>⟧ b.vtable).asked b.value) self.new.advisers.items
            ≡ map (λ b. (⟦<dyn Adviser as Adviser>⟧ b.vtable).asked b.value) self.old.advisers.items }
        ensures room { map (λ b. (⟦<dyn Adviser as Adviser>⟧ b.vtable).room b.value) self.new.advisers.items
            ≡ map (λ b. (⟦<dyn Adviser as Adviser>⟧ b.vtable).room b.value) self.old.advisers.items }
        ensures same { self.new ≡ record self.old { advisers = self.new.advisers } }
    {
        if self.present < self.advisers.len() {
            tell(&mut self.advisers[self.present], lits);
        }
    }

    /// Tells the present adviser, and no other, what the search has come to: each piece of news is heard once. Takes no memory.
    pub fn hears(&mut self, news: &News<'_>)
        ensures told { map (λ b. (⟦<dyn Adviser as Adviser>⟧ b.vtable).told b.value) self.new.advisers.items
            ≡ map (λ b. (⟦<dyn Adviser as Adviser>⟧ b.vtable).told b.value) self.old.advisers.items }
        ensures asks { map (λ b. (⟦<dyn Adviser as Adviser>⟧ b.vtable).asked b.value) self.new.advisers.items
            ≡ map (λ b. (⟦<dyn Adviser as Adviser>⟧ b.vtable).asked b.value) self.old.advisers.items }
        ensures room { map (λ b. (⟦<dyn Adviser as Adviser>⟧ b.vtable).room b.value) self.new.advisers.items
            ≡ map (λ b. (⟦<dyn Adviser as Adviser>⟧ b.vtable).room b.value) self.old.advisers.items }
        ensures same { self.new ≡ record self.old { advisers = self.new.advisers } }
    {
        if self.present < self.advisers.len() {
            tell_news(&mut self.advisers[self.present], news);
        }
    }

    /// Makes the next adviser present, after the last one the first, with no misses.
    pub fn rotate(&mut self)
        ensures { self.new
            ≡ record self.old {
              present = place_after self.old.present (length self.old.advisers.items);
              misses = 0;
              rotated = next_count self.old.rotated;
            } }
    {
        self.present = place_after(self.present, self.advisers.len());
        self.misses = 0;
        self.rotated = self.rotated.saturating_add(1);
    }

    /// The number of advisers that are left.
    pub fn count(&self) -> usize
        ensures { result ≡ length self.now.advisers.items }
    {
        self.advisers.len()
    }

    /// Hears whether the last pick was taken. After 1,000 picks in a row that were not, the present adviser
    /// is dropped, if it is not the only one, and the next one is present. Takes no memory.
    pub fn judge(&mut self, used: bool)
        ensures judged { Judges (IsTrue used) self.old.advisers.items self.old.present self.old.misses
            self.new.advisers.items self.new.present self.new.misses }
        ensures kept { length self.new.advisers.items ≡ length self.old.advisers.items → self.new.advisers ≡ self.old.advisers }
        ensures within { self.old.present < length self.old.advisers.items → self.new.present < length self.new.advisers.items }
        ensures last { self.new.last ≡ self.old.last }
        ensures asked { self.new.asked ≡ self.old.asked }
        ensures vars { self.new.vars ≡ self.old.vars }
        ensures rotated { self.new.rotated ≡ self.old.rotated }
    {
        let count = self.advisers.len();
        if count == 0 {
            return;
        }
        if used {
            self.misses = 0;
            return;
        }
        self.misses = self.misses.saturating_add(1).min(MOST_MISSES);
        if self.misses < MOST_MISSES || count == 1 {
            return;
        }
        self.drop_present();
    }

    // Drops the present adviser.
    fn drop_present(&mut self)
        ensures kept { length self.new.advisers.items ≡ length self.old.advisers.items → self.new.advisers ≡ self.old.advisers }
        ensures dropped { self.old.present < length self.old.advisers.items
            → Drops self.old.advisers.items self.old.present self.new.advisers.items self.new.present self.new.misses }
        ensures within { self.old.present < length self.old.advisers.items → 1 < length self.old.advisers.items →
            self.new.present < length self.new.advisers.items }
        ensures last { self.new.last ≡ self.old.last }
        ensures asked { self.new.asked ≡ self.old.asked }
        ensures vars { self.new.vars ≡ self.old.vars }
        ensures rotated { self.new.rotated ≡ self.old.rotated }
    {
        if self.present < self.advisers.len() {
            let _gone = self.advisers.remove(self.present);
            if self.present >= self.advisers.len() {
                self.present = 0;
            }
        }
        self.misses = 0;
    }
}
