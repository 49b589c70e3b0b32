//! The search for minimal cut sets over frames.
//!
//! At each frontier the frames are asked for a path into a bad state until there is none. A path is read as a
//! trace, the set that it failed is listed, and listed sets that contain it go. The frames have one list of bad states,
//! to which the clause of each new set is added, in the order in which sets are found. Then the frames advance, until
//! they are inductive or the frontier is the depth. [`search::analyse`] does this for any model with clause
//! lists (the trait [`encoded::Encoded`], which is all that it knows of the encoding) and answers the sets in
//! order, a trace for each, and how the search ended. The frames of the model ([`search::frames_of`]) serve for one top event after
//! another; they begin again for each: their clauses go, and all that their search has learned stays.
//!
//! `specs/` says what that answer means (`IsAnswer`): sets that are right for all traces where it is complete,
//! and for traces of at most as many steps as the depth where it is bounded. The laws stand in `cut_search_laws`.
//! Of the files, `sets` has lists of sets, `show` reads a path as a trace, and `search` is the main one.
#![tactic(auto)]

pub mod answer;
pub mod encoded;
pub mod search;
pub mod sets;
pub mod show;
