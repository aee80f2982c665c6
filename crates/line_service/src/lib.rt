//! What programs share that answer lines of standard input: their command lines, the loop over the lines, numbers as words, and how they end.
#![tactic(auto)]

mod failure;
mod json;
mod numbers;
mod parsing;
mod program;
mod session;
mod status;
mod style;
mod times;

pub use failure::{Failure, ended};
pub use json::{blank_value, complaint, done_value, json_line, write_json};
pub use numbers::{NumberError, number};
pub use parsing::{Request, VERSION, arguments, flag, parse_arguments};
pub use program::Program;
pub use session::{Session, serve};
pub use status::{BAD_DATA, IO_FAILED, NO_INPUT, NO_MEMORY, NOT_CREATED, WRONG_USAGE};
pub use style::Style;
pub use times::{DateError, ShownTime, TimeError, now, time};
