//! `Ticket`: what names a job.

ghost use Rattle.std.specs.Prelude.{◌≡◌};

use std::marker::Model;
use triple_ord::{BasePtr, P0};

/// The name of a job on an agenda.
///
/// It names its job until the job leaves or [`move_to`](crate::Agenda::move_to) moves it, and nothing from then on.
/// [`reschedule`](crate::Agenda::reschedule) keeps it. In contracts it is the pair of an index and a generation. A ticket of another
/// agenda may name a job of this one. Its two numbers can be stored or sent, and make the ticket again. Tickets are ordered by index, then
/// by generation, which says nothing of deadlines.
#[derive(Debug, Clone, Copy, PartialEq, Eq, PartialOrd, Ord, Hash)]
pub struct Ticket {
    pub(crate) pointer: P0,
}

impl Model for Ticket {
    ghost use Rattle.std.specs.Prelude.{ℕ};

    ghost Value = { ℕ × ℕ };

    ghost view = { λ t. t.pointer };

    ghost inverse = { λ t. record { pointer = t } };
}

impl Ticket {
    /// Makes the ticket of these two numbers.
    pub fn new(index: u32, generation: u64) -> Ticket
        ensures { result ≡ (index, generation) }
    {
        Ticket {
            pointer: P0::_from_raw(index, generation),
        }
    }

    /// Returns the index: from 1 to 4,294,967,294 if the ticket names a job.
    pub fn index(self) -> u32
        ensures { result ≡ self.0 }
    {
        self.pointer.inx()
    }

    /// Returns the generation: at least 2 if the ticket names a job.
    pub fn generation(self) -> u64
        ensures { result ≡ self.1 }
    {
        self.pointer.generation()
    }
}
