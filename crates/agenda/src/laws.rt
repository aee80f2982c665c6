//! Laws of agendas. The function here does nothing, and its contract is the law: a fact about every run of calls.

ghost use Rattle.agenda.specs.Tickets.{EndedTicketLaw};

pub use listing::laws::kept_pointer_law;

/// A ticket that has ended names no job again, however many calls follow, until the generations overflow.
///
/// A ticket has ended if it names no job and its generation is below the agenda's. If no ticket has a generation above the agenda's, a
/// ticket that names a job before a call and none after it has ended. That is so of a new agenda, and stays so until an overflow. Every
/// call that changes an agenda has a clause `step`, to which the law applies.
pub fn ended_ticket_law<J>()
    ensures { EndedTicketLaw J }
{}
