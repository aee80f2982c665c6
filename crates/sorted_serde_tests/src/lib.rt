//! Tests of sorted arenas that are written and read, in JSON: worked examples, texts that are refused, and fields of derived types.
#![tactic(auto)]

#[cfg(test)]
mod examples;
#[cfg(test)]
mod fields;
#[cfg(test)]
mod refused;
#[cfg(test)]
mod round_trips;
