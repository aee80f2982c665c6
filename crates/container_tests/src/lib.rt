//! Tests of the containers under the ordered arena (`arena_base`, `chain_base` and `ord_tree`) from a dependent program's view: worked
//! examples, and facts that no clause states.
#![tactic(auto)]

#[cfg(test)]
mod arenas;
#[cfg(test)]
mod chains;
#[cfg(test)]
mod trees;
