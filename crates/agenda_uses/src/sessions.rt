//! Sessions: users by the time at which their session ends. A map from user to ticket is kept in step by the tickets that come back.

ghost use Rattle.std.specs.Prelude.{◌≡◌, ◌≢◌, ◌==◌, ◌+◌, ◌-◌, ◌<◌, ℕ, nat_lt, not, filter, length, vec_len, Some, None, IfSome, IfNone, IfOk, IfErr, OnSome, OnOk, OnErr, IsSome, map};
ghost use Rattle.std.specs.List.{All};
ghost use Rattle.std.specs.Option.{option_map};
ghost use Rattle.std.specs.Ordering.{nat_cmp};
ghost use Rattle.agenda.specs.Gap.{first_of};
ghost use Rattle.agenda.specs.Agenda.{get, count, key_of, value_of, from_index, entries_until, shown_job};

use agenda::{Agenda, Ticket};
use std::alloc::{AllocError, Global};

/// Users by the time at which their session ends.
pub type Sessions = Agenda<u64>;

/// Ends the first session whose time has come, and returns its ticket, by which its user is found elsewhere. It names nothing any more.
pub fn end_first(sessions: &mut Sessions, now: u64) -> Option<(Ticket, u64)>
    ensures named { IfSome result (λ ended. option_map (λ session. session.1) (get sessions.old ended.0)
        ≡ Some ended.1) }
    ensures ended { IfSome result (λ ended. get sessions.new ended.0 ≡ None) }
    ensures others { IfSome result (λ ended. (t : ℕ × ℕ) → t ≢ ended.0
        → get sessions.new t ≡ get sessions.old t) }
    ensures count { OnSome result (count sessions.old ≡ count sessions.new + 1) }
    ensures none { IfNone result (sessions.new ≡ sessions.old) }
{
    let (ticket, _, user) = sessions.pop_due_entry(now)?;
    Some((ticket, user))
}

/// Ends all sessions whose time has come, and appends them to a vector. On `Err` none has ended.
pub fn end_all(
    sessions: &mut Sessions,
    now: u64,
    ended: &mut Vec<(Ticket, u64, u64)>,
) -> Result<(), AllocError>
    ensures left { OnOk result (All (λ session. now < key_of session) sessions.new.entries) }
    ensures refused { OnErr result (sessions.new ≡ sessions.old) }
{
    sessions.pop_all_due(now, ended)
}

/// Whether more sessions than this wait to be ended.
pub fn is_behind(sessions: &Sessions, now: u64, most: usize) -> bool
    ensures { result ≡ nat_lt most (length (entries_until nat_cmp now sessions.now.entries)) }
{
    sessions.count_due(now) > most
}

/// The session that is the first to be ended now, with its ticket.
pub fn first_due(sessions: &Sessions, now: u64) -> Option<(Ticket, u64, &u64)>
    ensures { option_map shown_job result ≡ first_of (entries_until nat_cmp now sessions.now.entries) }
{
    sessions.due(now).next()
}

/// The user of the session of a ticket, by an iterator that goes on to the sessions that end after it.
pub fn user_of(sessions: &Sessions, ticket: Ticket) -> Option<u64>
    ensures open { IfSome result (λ user. IsSome (get sessions.now ticket)) }
    ensures first { IfSome result (λ user. option_map (λ session. value_of session)
        (first_of (from_index sessions.now.entries ticket.0)) ≡ Some user) }
{
    let mut from = sessions.iter_from(ticket)?;
    match from.next() {
        Some((_, _, user)) => Some(*user),
        None => None,
    }
}

/// Ends all sessions of a user.
pub fn end_user(sessions: &mut Sessions, user: u64)
    ensures left { sessions.new.entries
        ≡ filter (λ session. not (value_of session == user)) sessions.old.entries }
{
    sessions.retain(|_, _, of| *of != user);
}

/// Opens many sessions, or none if one is refused: all come back then.
pub fn open_all(
    sessions: &mut Sessions,
    opened: Vec<(u64, u64)>,
    tickets: &mut Vec<Ticket>,
) -> Result<(), Vec<(u64, u64)>>
    ensures count { OnOk result (count sessions.new ≡ count sessions.old + vec_len opened) }
    ensures others { OnOk result ((t : ℕ × ℕ) → IsSome (get sessions.old t)
        → get sessions.new t ≡ get sessions.old t) }
    ensures back { IfErr result (λ refused. refused ≡ opened) }
    ensures refused { OnErr result (sessions.new ≡ sessions.old) }
{
    match sessions.schedule_all(opened, tickets) {
        Ok(()) => Ok(()),
        Err((refused, _)) => Err(refused),
    }
}

/// Ends all sessions at once, and returns their users, first the one whose session was to end first.
pub fn close(alloc: Global, sessions: Sessions) -> Result<Vec<u64>, AllocError>
    ensures { IfOk result (λ users. users.items ≡ map value_of sessions.entries) }
{
    sessions.into_iter().map(|(_, _, user)| user).collect(alloc)
}

/// The session that ends first, with its ticket.
pub fn first_open(sessions: &Sessions) -> Option<(Ticket, u64, &u64)>
    ensures { option_map shown_job result ≡ first_of sessions.now.entries }
{
    sessions.into_iter().next()
}

/// How many sessions are left behind those that one passes over.
pub fn count_behind(sessions: &Sessions, passed: usize) -> usize
    ensures { result ≡ count sessions.now - passed }
{
    sessions.into_iter().skip(passed).count()
}
