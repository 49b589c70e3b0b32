//! Loads what files and words hold, and judges it: models, instructions as extensions of them, and top events.
//!
//! [`model::load_model`] reads the file of a model, [`loaded::load_case`] that of its instructions, and [`top::load_top`] the word
//! of a top event; [`event::load_event`] is the three together. Each gives what it has read in memory, or why the work can't go
//! on: the first refusal, a call of the desk that failed, or want of memory. The verbs stand above, in `verb_run` and the crates
//! `verb_odds`, `verb_causes` and `verb_orders`; no crate of the search and no checker stands below. How a run of any
//! of them ends, and what each refusal says, stands here, in `status`.
//!
//! What is wrong with a file and what it holds stands in `specs/Inputs.antt`, cases and top events in `specs/Cases.antt`, what is
//! in memory in `specs/LoadedCases.antt` and `specs/LoadedEvents.antt`, the numbers and lines of refusals in `specs/Wrongs.antt` and
//! `specs/Statuses.antt`. That what files hold is one, and so what is wrong with them, are the laws `proofs/One*`.
//!
//! The files stand in the order of the work: `input` (a file's bytes), `model` (program, flat model, kinds), `loaded`
//! (instructions, the weave, the limits of the whole, and its flat model), `report` (the names of faults), `faults` (the extension
//! as a text that is written), `top` (the top event) and `event` (model, extension and top event together). `wrong` has what each
//! refusal tells.
//!
//! ```text
//! let model = load_model(alloc, desk, "lamp.smv")?;
//! let case = load_case(alloc, desk, "lamp.fei", &model)?;
//! let top = load_top(alloc, "!on", &model, &case)?;
//! ```
#![tactic(auto)]

pub mod event;
pub mod faults;
pub mod input;
pub mod loaded;
pub mod model;
pub mod report;
pub mod status;
pub mod top;
pub mod wrong;
