//! In which order two faults of a set begin.
//!
//! `specs/Relations.antt` says when a trace has a relation: by the first moments at which the two modes stand. `Stage` adds
//! two booleans to a model with history, of which one tells that the first fault came before the other and one the other way
//! round, and makes the expression that speaks against a claim. `Laws` has the theorems, which the contracts below carry:
//! what the booleans tell, and that a trace makes the expression TRUE at its end exactly where it reaches the top event, has
//! failed exactly the set, and breaks the claim. `KindLaws` has that the staged model breaks no rule of kinds but, it may be, that of
//! its size. [`stage`] and [`against`] make that model and that expression in memory.
//!
//! ```text
//! // ahead is TRUE from a moment on at which failed#1 is TRUE and failed#2 is not
//! ```
#![tactic(auto)]

mod expression;
mod staging;

ghost use Rattle.fault_orders.specs.Laws.{OrdersAreTold, AgainstIsExact, EndsTellOrders, OwnValuesAreKept};
ghost use Rattle.fault_orders.specs.KindLaws.{StageBreaksNone, StageBreaksSizeAlone};

pub use expression::against;
pub use staging::stage;

/// How the first moment of one fault stands to that of another.
#[derive(Clone, Copy)]
pub enum Relation {
    Before,
    After,
    Together,
}

/// The traces of the staged model are those of the model, each with its history and with what the two booleans tell.
pub fn orders_are_told()
    ensures { OrdersAreTold }
{}

/// The expression is TRUE at the end of a trace of the staged model exactly where the trace reaches the top event, has
/// failed exactly the set, and breaks the claim.
pub fn against_is_exact()
    ensures { AgainstIsExact }
{}

/// A trace of the staged model begins each valuation with the model's own values, and its last two values tell the relation.
pub fn staged_traces_show()
    ensures tell { EndsTellOrders }
    ensures keep { OwnValuesAreKept }
{}

/// The staged model breaks no rule of kinds at an item where the model breaks none and the two numbers are those of faults: the
/// one rule for which it may be refused is that of its size, which has item 0.
pub fn stage_breaks_size_alone()
    ensures none { StageBreaksNone }
    ensures size { StageBreaksSizeAlone }
{}
