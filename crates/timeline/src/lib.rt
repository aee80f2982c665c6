//! Values over time: a value holds from one time until the next change.
#![tactic(auto)]

mod changes;
mod debug;
mod ends;
mod gaps;
mod list;
mod paint;
mod span;
mod spans;
mod text;
mod timeline;
mod value;
mod walk;

pub use gaps::Gaps;
pub use list::ChangesByTime;
pub use sorted_arena::ReallocationError;
pub use span::{Gap, Span, WholeSpan};
pub use spans::Spans;
pub use text::Text;
pub use timeline::Timeline;
pub use value::TimelineValue;
