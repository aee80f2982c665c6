//! An agenda: jobs that leave by deadline, equal deadlines in the order of scheduling. Each job has a ticket, which cancels,
//! reschedules or moves it.
#![tactic(auto)]

mod agenda;
mod due;
mod iter;
pub mod laws;
mod ticket;

pub use agenda::{Agenda, IntoIter, IterFrom};
pub use due::Due;
pub use iter::Iter;
pub use ticket::Ticket;
pub use triple_ord::ReallocationError;
