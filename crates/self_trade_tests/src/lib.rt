//! Tests of `self_trade` from a dependent program's view: every sequence of a few orders beside a plain list, and refused memory.
#![tactic(auto)]

#[cfg(test)]
mod examples;
#[cfg(test)]
mod plain;
#[cfg(test)]
mod refused;
#[cfg(test)]
mod sequences;
