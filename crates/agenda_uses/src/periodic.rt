//! Periodic jobs: each comes again a period after its deadline, and needs no memory for that.

ghost use Rattle.std.specs.Prelude.{◌≡◌, ◌≢◌, ◌+◌, ◌^◌, ◌-◌, ℕ, min, Some, None, IfSome, IfNone, OnOk, OnErr};
ghost use Rattle.std.specs.Option.{option_map};
ghost use Rattle.agenda.specs.Gap.{first_of};
ghost use Rattle.agenda.specs.Agenda.{get, count, key_of, value_of, first_due, Updates};

use agenda::{Agenda, ReallocationError, Ticket};

/// Numbers of jobs by time.
pub type Rounds = Agenda<u64>;

/// Takes the first job that is due, and schedules it again a period later, under a new ticket. Returns the job and its ticket.
pub fn run_due(rounds: &mut Rounds, now: u64, period: u64) -> Option<(u64, Ticket)>
    ensures due { option_map (λ run. run.0) result
        ≡ option_map (λ due. due.1) (first_due now rounds.old.entries) }
    ensures again { IfSome result (λ run. option_map (λ job. job.1) (get rounds.new run.1)
        ≡ Some run.0) }
    ensures count { count rounds.new ≡ count rounds.old }
    ensures none { IfNone result (rounds.new ≡ rounds.old) }
{
    let (deadline, job) = rounds.pop_due(now)?;
    match rounds.schedule(deadline.saturating_add(period), job) {
        Ok(ticket) => Some((job, ticket)),
        // the job that was taken out has left its room
        Err(_) => unreachable!(),
    }
}

/// Gives the first job that is due its next deadline, a period later. Its ticket stays valid. Returns the job and its ticket.
pub fn put_off_due(rounds: &mut Rounds, now: u64, period: u64) -> Option<(u64, Ticket)>
    ensures count { count rounds.new ≡ count rounds.old }
    ensures none { IfNone result (rounds.new ≡ rounds.old) }
    ensures names { IfSome result (λ run. IfSome (get rounds.old run.1)
        (λ job. Updates rounds.old rounds.new run.1 (Some (min (2 ^ 64 - 1) (job.0 + period), job.1)))) }
{
    let (ticket, deadline, job) = match rounds.peek() {
        Some((ticket, deadline, job)) => (ticket, deadline, *job),
        None => return None,
    };
    if deadline > now {
        return None;
    }
    rounds.reschedule(ticket, deadline.saturating_add(period));
    Some((job, ticket))
}

/// Schedules two jobs, or neither if there is no room for both.
pub fn schedule_both(
    rounds: &mut Rounds,
    deadline: u64,
    first: u64,
    second: u64,
) -> Result<(Ticket, Ticket), ReallocationError>
    ensures count { OnOk result (count rounds.new ≡ count rounds.old + 2) }
    ensures refused { OnErr result (rounds.new ≡ rounds.old) }
{
    rounds.reserve(2)?;
    let one = match rounds.schedule(deadline, first) {
        Ok(ticket) => ticket,
        // there is room for two
        Err(_) => unreachable!(),
    };
    match rounds.schedule(deadline, second) {
        Ok(other) => Ok((one, other)),
        Err(_) => unreachable!(),
    }
}

/// Returns the number of the job that comes next, and its time.
pub fn next_run(rounds: &Rounds) -> Option<(u64, u64)>
    ensures { result ≡ option_map (λ next. (key_of next, value_of next)) (first_of rounds.now.entries) }
{
    match rounds.peek() {
        Some((_, deadline, job)) => Some((deadline, *job)),
        None => None,
    }
}
