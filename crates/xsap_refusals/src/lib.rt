//! What the lines mean by which `xsap_program` refuses its inputs.
//!
//! A line, as `refused model flat 8 at 2`, is read to a [`RefusalLine`] by [`read_refusal`], which takes exactly lines that spell one.
//! [`look_up`] finds what it means and how its place is found, in the words of docs/MANUAL.md, where the program says such a line at
//! all; and [`Explanation::text`] makes the text, with the place in the bytes of the file that was refused. [`spot_of`] is the one
//! rule on lines and columns. Items are counted by tokens (`counting`): that is right for files that the program could read, since
//! only these are refused at an item. What contracts cite stands in `specs/`: `Spelled` has the line of each refusal, `Lines` what a
//! line and a column are, and `Items` where a cause begins.
//!
//! ```text
//! read_refusal(alloc, "refused model flat 8 at 2")   // Some(File { subject: Model, part: Flat, number: 8, place: 2 })
//! spot_of(b"MODULE main\nVAR x", 16)                 // line 2, column 5, VAR x
//! ```
#![tactic(auto)]

mod counting;
mod explanation;
mod finding;
mod items;
mod lines;
mod meanings;
mod reading;
mod refusal;
mod showing;

pub use explanation::{Explanation, look_up};
pub use lines::{FileSpot, spot_of};
pub use reading::read_refusal;
pub use refusal::{MomentReason, RefusalLine, RefusedPart, Subject};
