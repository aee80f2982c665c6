//! Sessions: each is named by its token, and ends at its deadline.

ghost use Rattle.std.specs.Prelude.{◌≡◌, ◌≢◌, ◌==◌, ◌+◌, ◌≤◌, ◌<◌, ℕ, ◌++◌, Some, None, IfOk, IfSome, OnOk, OnErr, is_some, not, map, filter};
ghost use Rattle.std.specs.List.{All};
ghost use Rattle.std.specs.Option.{option_map};
ghost use Rattle.std.specs.Ordering.{nat_cmp};
ghost use Rattle.std.specs.declared.cmp.Ordering.TheVariants.{Greater};
ghost use Rattle.sorted_arena.specs.Sorted.{get, count, key_of, value_of, pair_of, is_named_by, entries_until, Updates};

use sorted_arena::{P0, ReallocationError, SortedArena};
use std::alloc::AllocError;

/// Users by the deadlines of their sessions.
pub type Sessions = SortedArena<u64, u64>;

/// Opens a session of a user until a deadline, and returns its token.
pub fn open(sessions: &mut Sessions, deadline: u64, user: u64) -> Result<P0, ReallocationError>
    ensures opened { IfOk result
        (λ token. Updates sessions.old sessions.new token (Some (deadline, user))) }
    ensures refused { OnErr result (sessions.new ≡ sessions.old) }
{
    match sessions.insert(deadline, user) {
        Ok(token) => Ok(token),
        Err((_, refusal)) => Err(refusal),
    }
}

/// The user of the session that the token names.
pub fn user_of(sessions: &Sessions, token: P0) -> Option<u64>
    ensures { result ≡ option_map (λ session. session.1) (get sessions.now token) }
{
    let (_, user) = sessions.get(token)?;
    Some(*user)
}

/// Ends the session that the token names, and tells whether there was one.
pub fn close(sessions: &mut Sessions, token: P0) -> bool
    ensures closed { result ≡ is_some (get sessions.old token) }
    ensures updates { Updates sessions.old sessions.new token None }
{
    sessions.remove(token).is_some()
}

#[tactic(auto, using(sorted_arena::proofs::CallerLemmas::written))]
/// Gives the session of a token to another user.
pub fn hand_over(sessions: &mut Sessions, token: P0, user: u64) -> bool
    ensures named { result ≡ is_some (get sessions.old token) }
    ensures handed { get sessions.new token
        ≡ option_map (λ s. (s.0, user)) (get sessions.old token) }
    ensures others { (q : ℕ × ℕ) → q ≢ token → get sessions.new q ≡ get sessions.old q }
    ensures count { count sessions.new ≡ count sessions.old }
{
    match sessions.value_mut(token) {
        Some(of) => {
            *of = user;
            true
        }
        None => false,
    }
}

/// Ends the first session where its deadline has come, and returns its user.
pub fn expire_one(sessions: &mut Sessions, now: u64) -> Option<u64>
    ensures less { IfSome result (λ user. count sessions.new < count sessions.old) }
    ensures none { result ≡ None
        → All (λ s. nat_cmp (key_of s) now ≡ Greater) sessions.new.entries }
{
    let (_, user) = sessions.pop_first_until(&now)?;
    Some(user)
}

/// Lets a session go on until another deadline. Its token stays valid. Returns whether the token names a session.
pub fn touch(sessions: &mut Sessions, token: P0, deadline: u64) -> bool
    ensures named { result ≡ is_some (get sessions.old token) }
    ensures touched { Updates sessions.old sessions.new token
        (option_map (λ s. (deadline, s.1)) (get sessions.old token)) }
    ensures count { count sessions.new ≡ count sessions.old }
{
    sessions.rekey(token, deadline).is_ok()
}

/// Ends all sessions whose deadline has come, and adds them to a list in the order of their deadlines. If memory is refused to the list,
/// nothing changes.
pub fn expire_all(
    sessions: &mut Sessions,
    now: u64,
    ended: &mut Vec<(u64, u64)>,
) -> Result<(), AllocError>
    ensures ended { OnOk result (ended.new.items
        ≡ ended.old.items ++ map pair_of (entries_until nat_cmp now sessions.old.entries)) }
    ensures left { OnOk result
        (All (λ s. nat_cmp (key_of s) now ≡ Greater) sessions.new.entries) }
    ensures refused { OnErr result (sessions.new ≡ sessions.old) }
{
    sessions.pop_until(&now, ended)
}

/// Ends all sessions whose deadline has come, and tells how many there were.
pub fn drop_due(sessions: &mut Sessions, now: u64) -> usize
    ensures left { All (λ s. nat_cmp (key_of s) now ≡ Greater) sessions.new.entries }
    ensures count { count sessions.new + result ≡ count sessions.old }
{
    sessions.remove_until(&now)
}

/// Ends all sessions of a user.
pub fn end_user(sessions: &mut Sessions, user: u64)
    ensures left { sessions.new.entries
        ≡ filter (λ s. not (value_of s == user)) sessions.old.entries }
{
    sessions.retain(|_, of| *of != user);
}

/// Ends all sessions but that of a token.
pub fn end_others(sessions: &mut Sessions, token: P0)
    ensures left { sessions.new.entries ≡ filter (is_named_by token) sessions.old.entries }
{
    sessions.retain_entries(|p, _, _| p == token);
}

/// The deadline of the session that ends first.
pub fn next_deadline(sessions: &Sessions) -> Option<u64>
    ensures least { IfSome result
        (λ d. All (λ s. nat_cmp d (key_of s) ≢ Greater) sessions.now.entries) }
{
    let first = sessions.first()?;
    let (deadline, _) = sessions.get(first)?;
    Some(*deadline)
}
