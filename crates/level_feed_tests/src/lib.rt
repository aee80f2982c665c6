//! Tests of `level_feed`: random days whose levels are published, the examples of its docs, and refused memory.
#![tactic(auto)]

#[cfg(test)]
mod days;
#[cfg(test)]
mod examples;
#[cfg(test)]
mod refused;
