//! The examples in the text of public calls, as tests: the same lines.
mod jobs;
mod orders;
mod spans;
