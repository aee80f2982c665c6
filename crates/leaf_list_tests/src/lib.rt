//! Tests of `leaf_list` from a dependent program's view: leaves at the borders of their sizes, every call beside a plain vector, and refused
//! memory.
#![tactic(auto)]

#[cfg(test)]
mod borders;
#[cfg(test)]
mod calls;
#[cfg(test)]
mod refusals;
#[cfg(test)]
mod support;
