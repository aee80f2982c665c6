//! Arenas from a program's view.
mod calls;
mod clone;
mod compress;
mod drain;
mod growth;
mod numbers;
mod recast;
mod remove;
mod support;
mod texts;
mod traits;
mod walks;
