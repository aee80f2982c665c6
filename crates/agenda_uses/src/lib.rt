//! Uses of `agenda`, as a caller writes them: each with the clauses that its user wants, proved from the contracts alone, with no proof file but a
//! line on `retain`.
#![tactic(auto, using(agenda::proofs::CallerLemmas::words))]

pub mod periodic;
pub mod reminders;
pub mod sessions;
