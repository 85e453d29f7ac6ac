//! Histories: lists of entries with the number of who made each, the newest first.
//!
//! It stands on std's lists alone. The history lock and the paging model both speak of these lists, so what they have in
//! common is said here once: the calls of one owner, one history going on to another, and others alone having made the
//! entries in between. The definitions are in `specs/Histories.antt`, their laws in the contracts of `laws`.
#![tactic(auto)]

pub mod laws;
