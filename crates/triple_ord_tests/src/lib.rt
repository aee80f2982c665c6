//! Tests of `triple_ord` from the outside: worked examples, those in the text of calls, every call, failing memory, and what no clause can
//! say.
#![tactic(auto)]

#[cfg(test)]
mod examples;
#[cfg(test)]
mod tests;
