//! States that wait to be blocked in frames above those where they are. [`Raised`] has them in the order in which they are looked at: those
//! of the lowest frame first, and of these the newest. Beside them it notes how each leads into a bad state, one step after the other.
//! Which states are raised changes which of the right clauses are found, and a way that is noted is walked again ([`crate::walk`]) before
//! it is a path; contracts see nothing of it.
ghost use Rattle.std.specs.Prelude.{◌<◌, ◌^◌};

use crate::bits::{State, read};
use base_values::OutOfMemory;
use sat_clauses::assign::Assign;
use std::alloc::Global;

/// How many states are noted at most on ways into bad states.
const MOST_NOTED: usize = 16_384;

/// A state on the way into a bad one.
#[derive(Drop)]
struct Noted {
    state: State,
    /// The place of the state that a step leads to from it; a bad state has none.
    next: Option<usize>,
}

/// A state that is to be blocked in the frame of a number.
#[derive(Drop)]
pub struct Waiting {
    /// The number of the frame.
    pub level: usize,
    /// The state.
    pub state: State,
    /// The higher, the later it came.
    pub stamp: u64,
    /// Its place among the noted states, where it is noted.
    pub place: Option<usize>,
}

impl Waiting {
    /// The same state, for the frame above.
    pub fn above(self) -> Waiting {
        let Waiting {
            level,
            state,
            stamp,
            place,
        } = self;
        Waiting {
            level: level.saturating_add(1),
            state,
            stamp,
            place,
        }
    }
}

/// The states that wait.
#[derive(Drop)]
pub struct Raised {
    /// The states, in no order.
    waiting: Vec<Waiting>,
    /// The states on ways into bad ones.
    noted: Vec<Noted>,
    /// The place of a first state among them that was met.
    met: Option<usize>,
    /// How many came so far.
    count: u64,
}

impl Raised {
    /// No state.
    pub fn new(alloc: Global) -> Raised {
        Raised {
            waiting: Vec::new(alloc),
            noted: Vec::new(alloc),
            met: None,
            count: 0,
        }
    }

    /// Notes a state from which a step leads to one that is noted, or a bad one, and answers its place, where there is room.
    pub fn note(
        &mut self,
        state: &State,
        next: Option<usize>,
    ) -> Result<Option<usize>, OutOfMemory> {
        let place = self.noted.len();
        if place >= MOST_NOTED {
            return Ok(None);
        }
        let state = state.copy()?;
        self.noted.push(Noted { state, next })?;
        Ok(Some(place))
    }

    /// Notes that a first state was met at a place, and drops all that wait.
    pub fn meet(&mut self, place: Option<usize>) {
        self.met = place;
        self.waiting.clear();
    }

    /// The way from the first state that was met into a bad one, the bad one first; it is no longer noted.
    pub fn take_way(&mut self) -> Result<Vec<State>, OutOfMemory> {
        let mut way = Vec::new(*self.waiting.allocator());
        let mut place = self.met.take();
        for _ in 0..self.noted.len() {
            let Some(noted) = place.and_then(|it| self.noted.get(it)) else {
                break;
            };
            way.push(noted.state.copy()?)?;
            place = noted.next;
        }
        way.reverse();
        Ok(way)
    }

    /// Has a new state wait to be blocked in the frame of a number.
    pub fn put(
        &mut self,
        level: usize,
        state: State,
        place: Option<usize>,
        last: usize,
    ) -> Result<(), OutOfMemory> {
        self.count = self.count.saturating_add(1);
        let stamp = self.count;
        self.put_back(
            Waiting {
                level,
                state,
                stamp,
                place,
            },
            last,
        )
    }

    /// Has the newest of obligations wait to be blocked in the frame above that of a number, in which a clause blocks it now, with the way
    /// from it into the bad state that is the oldest.
    pub fn put_blocked(
        &mut self,
        bits: u64,
        level: usize,
        owed: &[Assign],
        last: usize,
    ) -> Result<(), OutOfMemory>
        requires { bits < 2 ^ 31 }
    {
        let Some(newest) = owed.last() else {
            return Ok(());
        };
        if level >= last {
            return Ok(());
        }
        let alloc = *self.waiting.allocator();
        let mut place = None;
        for (i, values) in owed.iter().enumerate() {
            let state = read(alloc, 2, bits, values)?;
            let is_noted = i == 0 || place.is_some();
            place = if is_noted {
                self.note(&state, place)?
            } else {
                None
            };
        }
        let state = read(alloc, 2, bits, newest)?;
        self.put(level.saturating_add(1), state, place, last)
    }

    /// Has a state wait, unless that is for a frame above the last.
    pub fn put_back(&mut self, waiting: Waiting, last: usize) -> Result<(), OutOfMemory> {
        if waiting.level <= last {
            self.waiting.push(waiting)?;
        }
        Ok(())
    }

    /// Has a state wait from which a step leads to one of the frame of a number, which is noted at a place. In frame 1 that is a first
    /// state: it is met.
    pub fn put_before(
        &mut self,
        level: usize,
        state: State,
        next: Option<usize>,
        last: usize,
    ) -> Result<(), OutOfMemory> {
        let place = match next {
            Some(_) => self.note(&state, next)?,
            None => None,
        };
        if level < 2 {
            self.meet(place);
            return Ok(());
        }
        self.put(level - 1, state, place, last)
    }

    /// Whether the state of one place is looked at before that of another: it waits for a lower frame, or came later.
    fn is_before(&self, one: usize, other: usize) -> bool {
        match (self.waiting.get(one), self.waiting.get(other)) {
            (Some(a), Some(b)) => a.level < b.level || (a.level == b.level && a.stamp > b.stamp),
            _ => false,
        }
    }

    /// The place of the state that is looked at next.
    fn place(&self) -> usize {
        let mut place = 0;
        for k in 1..self.waiting.len() {
            if self.is_before(k, place) {
                place = k;
            }
        }
        place
    }

    /// Takes the state that is looked at next.
    pub fn take(&mut self) -> Option<Waiting> {
        let place = self.place();
        if place < self.waiting.len() {
            return Some(self.waiting.swap_remove(place));
        }
        None
    }

    /// Drops the states that wait.
    pub fn drop_waiting(&mut self) {
        self.waiting.clear();
    }

    /// Drops all states, and all ways.
    pub fn clear(&mut self) {
        self.waiting.clear();
        self.noted.clear();
        self.met = None;
    }
}
