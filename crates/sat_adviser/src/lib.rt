//! Advisers, which suggest free choices to the clause search.
//!
//! An [`Adviser`] is code of the caller's own behind a box. Contracts see of it two counts, how many
//! learned clauses it was told and how often it was asked, and where it tells that also what it answers
//! next and which clause it heard last: so a panel answers what its present adviser does, and hands on
//! the learned clause itself. What an adviser picks is any number at all, so nothing rests on it. The
//! layer above hands one [`Panel`] of them to the search, which asks the present adviser at each free
//! choice, tells it each learned clause, and goes on to the next one at each restart. The panel hears
//! whether what it picked was taken, and drops an adviser after a thousand misses in a row. No call but
//! `ready` takes memory. [`InOrder`] and [`Scripted`] are seen as an endless round of answers, [`Active`]
//! as its counts alone. What counts and rounds are, and what becomes of advisers that are judged, stands
//! in `specs/`.
//!
//! ```text
//! let mut panel = Panel::new(advisers);    // InOrder and Active, say
//! panel.ready(9)?;
//! panel.pick();       // 3, the code of the negation of variable 1
//! panel.rotate();     // Active is present
//! ```
#![tactic(auto)]

mod active;
mod adviser;
mod in_order;
mod news;
mod panel;
mod round;
mod scripted;

pub use active::Active;
pub use adviser::Adviser;
pub use in_order::InOrder;
pub use news::News;
pub use panel::Panel;
pub use scripted::{CodeList, Scripted};
