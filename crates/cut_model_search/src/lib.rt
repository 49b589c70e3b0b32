//! Searches a model with faults for the minimal cut sets of a top event, and makes a certificate of what was found.
//!
//! [`FaultyModel`] is what is searched: a typed model, the model with the history of its faults, the faults, and a top event. That it can
//! be searched holds of every value (`IsSearchable` of `cut_search_laws`), so no call asks it. [`FaultyModel::of_case`] makes one of a
//! case that `verb_loading` gives, and more symbols than the search has numbers for are want of memory. The verbs that search stand above.
//!
//! [`FaultyModel::analyse`] is the generic search of `cut_search` over the clause lists that `sat_encoding` makes, by its trait
//! `cut_search::encoded::Encoded`. What is answered is `IsAnswer` of `cut_search`, over the exact lists and bits of
//! `sat_encoding_laws`. The last moment of a trace gives no inputs: they get the least values of their domains. Frames know a model with
//! its faults and no top event. So for many events of one model [`FaultyModel::frames`] makes them once, and [`FaultyModel::analyse_in`]
//! searches in them for one event after another: the search that they keep has all that it has learned.
//!
//! [`FaultyModel::certificate`] prints the traces of a complete analysis, derives the three parts of its invariant by searches over the
//! exact lists of the model with history, and spells all together. The certificate is accepted for that model, whoever judges it
//! (`specs/Certifiable.antt` says of what one can be made). Nothing here is trusted: what an accepted certificate shows is a law of
//! `cert_laws`, which uses nothing of the search. [`FaultyModel::report`] prints what was found, and [`told`] is how a report tells the
//! ending of a search.
//!
//! What an analysis of a case is, and which bytes certify one, stands in `specs/CaseAnalysis.antt`, what a search answered of a model in
//! `specs/Searches.antt`. That a case with a top event can be searched is the law `proofs/Analysable.antt`, and that a complete
//! answer is certified `proofs/Certifying.antt`.
//!
//! The files: `faulty` (what is searched), `lists` (its exact clause lists, as the search asks for them), `search` (the analysis), `texts`
//! (the lines of traces), `making` (the certificate), and `report`.
//!
//! ```text
//! let model = FaultyModel::of_case(alloc, &case, &top)?;
//! let size = size_of(None, case.limited.faults.len());
//! let a = model.analyse(alloc, 50, size, &mut panel)?;
//! let certificate = model.certificate(alloc, &a, &mut panel)?;    // Some("xsap-certificate 2\nbits 30 faults 6 size 6\n..")
//! let report = model.report(alloc, &a)?;
//! ```
#![tactic(auto)]

mod faulty;
mod lists;
mod making;
mod report;
mod search;
mod texts;

pub use faulty::FaultyModel;
pub use report::told;
pub use search::size_of;
