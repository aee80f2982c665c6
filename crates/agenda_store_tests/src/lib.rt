//! The examples in the text of the durable agenda's calls, over rows in memory.
#![tactic(auto)]

#[cfg(test)]
mod examples;
