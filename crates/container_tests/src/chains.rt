//! Chains, as a program builds them.
mod calls;
mod clone;
mod compress;
mod growth;
mod support;
mod transfer;
