//! Reads the report of an analysis, and writes it in forms for people and for other tools.
//!
//! [`read`] takes the text that `analyse` and `causes` print, to the byte: a text that was cut, or that is none, is refused with the
//! line at which it stops being one, and with what was expected there. The names and values of a [`Report`] lie in the text that it was
//! read from, and are not copied.
//!
//! ```text
//! let report = read(alloc, said)?;    // said: faults 1 / fault 1 Lamp.dark / sets 1 / set 1 / trace 1 / ..
//! ```
#![tactic(auto)]

mod changes;
mod columns;
mod csv;
mod dot;
mod endings;
mod escapes;
mod fault;
mod html;
mod json;
mod json_sets;
mod lanes;
mod markdown;
mod moments;
mod names;
mod open_psa;
mod page;
mod pieces;
mod reader;
mod report;
mod svg;
mod text;
mod traces;
mod vcd;
mod words;

pub use changes::{Changes, changes_of};
pub use csv::csv_of_sets;
pub use dot::dot_of;
pub use fault::{Expected, ReportFault, WrongLine};
pub use html::html_of;
pub use json::json_of;
pub use markdown::markdown_of;
pub use moments::Values;
pub use open_psa::open_psa_of;
pub use reader::read;
pub use report::{Line, Report, ReportEnding, ReportMoment, ReportTrace};
pub use text::text_of;
pub use vcd::vcd_of;
