//! Expressions of a typed model as gates, and the gates of each operator.
//!
//! What the values of an expression are in a circuit is a [`signal::Signal`]: a truth value is a literal, and a
//! number or a symbol a word of literals. Contracts see `signal_of` it, the signal of `sat_encoding_laws`, and the call
//! of each operator promises the circuit that the definitions give, clause for clause: `BuildsSignal s r t e` of
//! `specs/BuiltSignals.antt` says that r, which was built onto the circuit s, is t with the signal e, whose variables
//! stand in t.
//!
//! [`expression::expression`] makes the gates of an expression over the [`names::NamedSignals`] of a model, operands
//! first and from left to right, in one go: it answers the signal of the value with what is known of it, or
//! whether the value of another signal is among its values, as on the right of `in`. Contracts say that what
//! was built is `encoded` of `sat_encoding_laws`, clause for clause (`BuildsPart` of `specs/Parts.antt`).
//!
//! The files from below: `room` (when there are variables left), `signal` (sameness, choices and spans),
//! `operator` (the gates of each operator) and `choices` (those of a case); then `width` (bits of words), `names`,
//! `part` (one node over its parts), `branches` (those of a case) and `expression`.
//!
//! ```text
//! let both = operator(alloc, &mut g, Op::And, 1, Signal::Bit(two), Signal::Bit(three))?;    // [-4 2] [-4 3] [4 -2 -3]
//!
//! let part = expression(alloc, &mut g, &names, Asked::ItsValue, e)?;
//! g.assert_true(part.signal.literal(&g))?;    // e holds
//! ```
#![tactic(auto)]

pub mod branches;
pub mod choices;
pub mod expression;
pub mod names;
pub mod operator;
pub mod part;
pub mod room;
pub mod signal;
pub mod width;
