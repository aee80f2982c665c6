//! Tests of `sorted_arena`, as a program that depends on it sees it: every order of up to six keys and all ranges beside a plain vector,
//! pairs in order and out of order, parts that are taken out and arenas that are merged, and refused memory.
#![tactic(auto)]

#[cfg(test)]
mod append;
#[cfg(test)]
mod between;
#[cfg(test)]
mod capacity;
#[cfg(test)]
mod clone;
#[cfg(test)]
mod compare;
#[cfg(test)]
mod debug;
#[cfg(test)]
mod drain;
#[cfg(test)]
mod entries;
#[cfg(test)]
mod every_order;
#[cfg(test)]
mod examples;
#[cfg(test)]
mod extend;
#[cfg(test)]
mod extract;
#[cfg(test)]
mod range;
#[cfg(test)]
mod refusals;
#[cfg(test)]
mod retain;
#[cfg(test)]
mod split;
#[cfg(test)]
mod support;
