//! Reminders: notes by the time at which they are to be shown.

ghost use Rattle.std.specs.Prelude.{◌≡◌, ◌≢◌, ◌+◌, ◌-◌, ◌≤◌, ℕ};
ghost use Rattle.std.specs.Prelude.{Some, None, IfOk, OnOk, IfErr, OnErr, IfSome, IfNone, OnSome, is_some};
ghost use Rattle.std.specs.{Option.option_map, Bool.OnFalse};
ghost use Rattle.agenda.specs.Gap.{first_of};
ghost use Rattle.agenda.specs.Agenda.{get, count, value_of, first_deadline, first_due};
ghost use Rattle.agenda.specs.Tickets.{HasNoLaterTicket, HasEnded};

use agenda::laws::ended_ticket_law;
use agenda::{Agenda, Ticket};

/// Notes by time.
pub type Reminders = Agenda<String>;

/// Puts a note down for a time. One that is refused comes back.
pub fn remind(reminders: &mut Reminders, time: u64, note: String) -> Result<Ticket, String>
    ensures names { IfOk result (λ ticket. get reminders.new ticket
        ≡ Some (time, note)) }
    ensures others { IfOk result (λ ticket. (t : ℕ × ℕ) → t ≢ ticket
        → get reminders.new t ≡ get reminders.old t) }
    ensures unused { IfOk result (λ ticket. get reminders.old ticket ≡ None) }
    ensures count { OnOk result (count reminders.new ≡ count reminders.old + 1) }
    ensures back { IfErr result (λ refused. refused ≡ note) }
    ensures refused { OnErr result (reminders.new ≡ reminders.old) }
{
    match reminders.schedule(time, note) {
        Ok(ticket) => Ok(ticket),
        Err((note, _)) => Err(note),
    }
}

/// Takes a note off again. `None` where the ticket names none.
pub fn forget(reminders: &mut Reminders, ticket: Ticket) -> Option<String>
    ensures note { result
        ≡ option_map (λ reminder. reminder.1) (get reminders.old ticket) }
    ensures gone { get reminders.new ticket ≡ None }
    ensures others { (t : ℕ × ℕ) → t ≢ ticket
        → get reminders.new t ≡ get reminders.old t }
    ensures count { OnSome result (count reminders.old ≡ count reminders.new + 1) }
    ensures none { IfNone result (reminders.new ≡ reminders.old) }
{
    let (_, note) = reminders.cancel(ticket)?;
    Some(note)
}

/// Puts a note down and takes it off again: it comes back with its time. `None` where it was refused.
pub fn try_out(reminders: &mut Reminders, time: u64, note: String) -> Option<(u64, String)>
    ensures back { IfSome result (λ reminder. reminder ≡ (time, note)) }
    ensures count { count reminders.new ≡ count reminders.old }
    ensures refused { IfNone result (reminders.new ≡ reminders.old) }
{
    let ticket = reminders.schedule(time, note).ok()?;
    reminders.cancel(ticket)
}

/// Puts a note off to another time, and returns its new ticket. `None` where the ticket names none.
pub fn put_off(reminders: &mut Reminders, ticket: Ticket, time: u64) -> Option<Ticket>
    ensures named { is_some result ≡ is_some (get reminders.old ticket) }
    ensures names { IfSome result (λ later. get reminders.new later
        ≡ option_map (λ reminder. (time, reminder.1)) (get reminders.old ticket)) }
    ensures ended { IfSome result (λ later. later ≢ ticket
        → get reminders.new ticket ≡ None) }
    ensures others { IfSome result (λ later. (t : ℕ × ℕ) → t ≢ ticket → t ≢ later
        → get reminders.new t ≡ get reminders.old t) }
    ensures count { count reminders.new ≡ count reminders.old }
    ensures none { IfNone result (reminders.new ≡ reminders.old) }
{
    reminders.move_to(ticket, time)
}

/// Puts a note off to another time. It keeps its ticket. Tells whether the ticket names a note.
pub fn snooze(reminders: &mut Reminders, ticket: Ticket, time: u64) -> bool
    ensures named { result ≡ is_some (get reminders.old ticket) }
    ensures names { get reminders.new ticket
        ≡ option_map (λ reminder. (time, reminder.1)) (get reminders.old ticket) }
    ensures others { (t : ℕ × ℕ) → t ≢ ticket
        → get reminders.new t ≡ get reminders.old t }
    ensures count { count reminders.new ≡ count reminders.old }
    ensures none { OnFalse result (reminders.new ≡ reminders.old) }
{
    reminders.reschedule(ticket, time)
}

/// Takes off the note that is to be shown now, if there is one: its time has come.
pub fn next_due(reminders: &mut Reminders, now: u64) -> Option<(u64, String)>
    ensures due { IfSome result (λ reminder. reminder.0 ≤ now) }
    ensures gone { IfSome result (λ reminder. (ticket : ℕ × ℕ)
        × (get reminders.old ticket ≡ Some reminder)
        × (get reminders.new ticket ≡ None)) }
    ensures count { OnSome result (count reminders.old ≡ count reminders.new + 1) }
    ensures none { IfNone result (reminders.new ≡ reminders.old) }
{
    reminders.pop_due(now)
}

/// Takes off the note that is to be shown now and puts down another one. Returns the first, and the ticket of the second. The ticket of
/// the note that was taken off has ended, unless the generations of tickets begin again: it doesn't name the new note either.
pub fn show_next(
    reminders: &mut Reminders,
    now: u64,
    time: u64,
    note: String,
) -> Result<(String, Ticket), String>
    ensures names { IfOk result
        (λ shown. get reminders.new shown.1 ≡ Some (time, note)) }
    ensures ended { HasNoLaterTicket reminders.old
        → reminders.old.generation ≤ reminders.new.generation
        → OnOk result ((ticket : ℕ × ℕ)
        × (get reminders.old ticket ≡ first_due now reminders.old.entries)
        × HasEnded reminders.new ticket) }
    ensures no_later { HasNoLaterTicket reminders.old
        → reminders.old.generation ≤ reminders.new.generation
        → HasNoLaterTicket reminders.new }
{
    ended_ticket_law::<String>();
    let Some((_, shown)) = reminders.pop_due(now) else {
        return Err(note);
    };
    match reminders.schedule(time, note) {
        Ok(ticket) => Ok((shown, ticket)),
        Err((note, _)) => Err(note),
    }
}

/// How long no note is to be shown: 0 where one is due, and `None` where there is none.
pub fn idle_for(reminders: &Reminders, now: u64) -> Option<u64>
    ensures wait { result ≡ option_map (λ time. time - now) (first_deadline reminders.now.entries) }
    ensures none { IfNone result (count reminders.now ≡ 0) }
{
    let time = reminders.next_deadline()?;
    Some(time.saturating_sub(now))
}

/// Gives the reminders up. Returns how many there were, and the first note.
pub fn first_note(reminders: Reminders) -> (usize, Option<String>)
    ensures count { result.0 ≡ count reminders }
    ensures first { result.1 ≡ option_map value_of (first_of reminders.entries) }
{
    let mut notes = reminders.into_iter();
    let left = notes.len();
    match notes.next() {
        Some((_, _, note)) => (left, Some(note)),
        None => (left, None),
    }
}
