//! An ordered arena for C: signed keys, unsigned values, and a handle that owns the arena between two calls.
//!
//! Each call takes the arena out of its handle, works on it, and puts it back; a call on a closed handle changes nothing and answers
//! `CLOSED`. A call answers a status and writes each of its results exactly on `OK`. A handle belongs to one thread at a time.
#![tactic(auto)]

mod batch;
mod content;
mod deed;
mod entry;
mod handle;
mod insert;
mod life;
mod pointed;
mod pop;
mod run;
mod search;
mod slot;
mod status;
mod transfer;
