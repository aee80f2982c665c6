//! Tests of `ord_script` from a dependent program's view: worked examples, broken input, failing devices, small heaps, and facts that no
//! clause states.
#![tactic(auto)]

#[cfg(test)]
mod devices;
#[cfg(test)]
mod fault;
#[cfg(test)]
mod hostile;
#[cfg(test)]
mod memory;
#[cfg(test)]
mod running;
#[cfg(test)]
mod script_end;
#[cfg(test)]
mod serving;
#[cfg(test)]
mod support;
#[cfg(test)]
mod watched;
