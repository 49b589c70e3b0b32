//! The clause search: an assignment that makes clauses and assumptions true, or a clause that refutes them.
//!
//! Contracts see clauses as lists of literals and an assignment as a list of optional values, as below
//! them. [`solve::solve`] answers `Sat` with an assignment under which every clause and assumption is
//! true, or `Unsat` with a clause of negated assumptions that is true in every model of the clauses. It
//! hands each clause that it learns to a recorder, with the numbers of the clauses that show it by unit
//! propagation, so that a checker which shares no code with the search accepts the derivation.
//! `specs/Search.antt` says what these answers mean (`IsSolution`, `IsRefutation`, `AreSteps`), `specs/SearchSteps.antt`
//! what holds between two steps of the search, and `specs/Choice.antt` what [`choose::choose`] answers, whatever the
//! panel's advisers pick.
//!
//! The layer above uses `solve`, `solve_in`, `can_solve`, `Verdict`, `kept::Search`, `work::Work` and `choose` alone.
//! A question to a [`kept::Search`] goes first to the kernel of `sat_kernel`, which is fast and of which nothing is proved but that it
//! returns. What it proposes is answered where it is seen to be right (`proposed`), and else `solve_in`'s search answers.
//! Within, `trail` has the literals made true with their reasons, `follow` makes the store's own trail the same,
//! `clauses` has the clauses by their places, `propagate` unit propagation, `find` the look at all clauses, `complete`
//! answers of a kept search before every variable has a value, `analysis` what a false clause teaches, `lesson` what is
//! kept and told of it, `alive` which clauses stay where a kept search drops learned ones. That propagation misses
//! nothing is promised nowhere: before `Sat` all clauses are looked at.
//!
//! ```text
//! let mut panel = Panel::new(Vec::new(alloc));
//! let clauses = list([[1, 2], [-1, 2]]);
//! solve(alloc, &clauses, 2, &[lit(-2)], &mut panel, &mut KeepNone)?    // Unsat: the clause [2]
//! solve(alloc, &clauses, 2, &[], &mut panel, &mut KeepNone)?           // Sat: 2 is true
//! ```
//!
//! The clauses lie in an [`arena::Arena`], a flat store with two watched literals behind the trait `Store` of `sat_clauses`.
//! It means what a plain list of clauses with a trail means: clauses as they were pushed, the
//! literals made true in order, and after each of these exactly the clauses that it made false or unit. Each
//! clause is filed under two of its literals, in lists threaded through arrays, so that making a literal true
//! visits only the clauses filed under its opposite and takes no memory. The watches of a clause are ready
//! after every beginning of the trail, so that taking literals off the trail touches no clause. Its files:
//! `threads` files numbers in lists, `pick` chooses the watches of a new clause, `pass` visits the clauses of a
//! literal, and `arena` is the store; `Threads`, `Pick`, `Pass`, `Watch` and `Arena` of `specs/` say what filed numbers,
//! watches and a visit of one list are.
#![tactic(auto)]

mod alive;
mod analysis;
pub mod arena;
pub mod choose;
mod clauses;
mod complete;
mod find;
mod follow;
pub mod kept;
mod lesson;
mod pass;
mod pick;
mod propagate;
mod proposed;
mod question;
pub mod solve;
mod threads;
mod trail;
pub mod work;
