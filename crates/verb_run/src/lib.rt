//! Extends SMV models with faults, replays traces of the extensions, finds their minimal cut sets, checks
//! certificates of them, makes tables of them, and generates cases: the whole program over any desk.
//!
//! [`run::run`] reads the words and the files that they name, and writes and says the answer. Its contract says
//! what a run comes to (`specs/Runs.antt`): the one line of the first refusal; the extension and its fault list;
//! that a trace reaches the top event and what it has failed; the analysis of a case; that a certificate is
//! accepted; a table; or a generated case; and what is left where the desk fails on the way. What words ask for stands in
//! `specs/Requests.antt`, traces in `specs/Replays.antt`, analyses in `specs/Analyses.antt` and `specs/Headline.antt`, certificates in
//! `specs/Certificates.antt`, tables in `specs/Tables.antt`, generated cases in `specs/GeneratedCase.antt`,
//! and that the written file is the extension in `specs/Extension.antt`.
//!
//! Models, instructions and top events are loaded in `verb_loading`, where also stands what is wrong with each and what a refusal
//! says; the files of certificates are read in `cert_file`, and cases searched in `cut_model_search`. The further verbs
//! stand beside this crate on these three.
//!
//! The files here stand in the order of the work: `trace` (the file
//! of a trace), `replay` (what a trace comes to), `search` (what a search finds), `analysis` (what is written and said of it),
//! `certificate` (what a certificate comes to), `tops` (tables of top events), `make` (generated cases), `verbs` (each verb as a
//! whole) and `run`. `asked` has what words ask for, and `ending` how a run ends.
#![tactic(auto)]

pub mod analysis;
mod asked;
pub mod certificate;
pub mod ending;
mod further;
pub mod make;
mod replay;
pub mod run;
pub mod search;
pub mod tops;
mod trace;
mod verbs;
