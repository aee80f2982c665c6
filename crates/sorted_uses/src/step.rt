//! Sessions by their deadlines, and a map from each user to the token of a session, in step with them.

ghost use Rattle.std.specs.Prelude.{◌≡◌, ◌≢◌, ◌==◌, ℕ, false, [], Some, None, IfOk, IfSome, IfNone, OnOk, OnErr, map, count_by, filter, length, slice_get};
ghost use Rattle.std.specs.List.{All};
ghost use Rattle.std.specs.Option.{option_map};
ghost use Rattle.std.specs.Ordering.{is_eq, is_gt, nat_cmp};
ghost use Rattle.std.specs.declared.cmp.Ordering.TheVariants.{Equal, Greater};
ghost use Rattle.std.specs.declared.ops.Bound.TheVariants.{Included, Excluded, Unbounded};
ghost use Rattle.sorted_arena.specs.{Given.given_entry, Given.entries_behind, Range.entries_between, Range.entries_from_to};
ghost use Rattle.sorted_arena.specs.Sorted.{get, key_of, value_of, pointer_of, first_where, entries_until, Updates};

use crate::sessions::Sessions;
use sorted_arena::{Entry, P0, ReallocationError, SortedArena};
use std::alloc::AllocError;

/// Tokens by users.
pub type Tokens = SortedArena<u64, P0>;

/// Ends the session that ends first, if its deadline has come, and takes its user's entry out of the map. Returns the token that ended.
pub fn expire_one(sessions: &mut Sessions, tokens: &mut Tokens, now: u64) -> Option<P0>
    ensures ended { IfSome result
        (λ token. Updates sessions.old sessions.new token None) }
    ensures user { IfSome result (λ token. IfSome (get sessions.old token)
        (λ s. (q : ℕ × ℕ)
        → Some q ≡ first_where (λ e. is_eq (nat_cmp s.1 (key_of e))) tokens.old.entries
        → get tokens.new q ≡ None)) }
    ensures none { IfNone result
        (All (λ s. nat_cmp (key_of s) now ≡ Greater) sessions.new.entries) }
    ensures kept { IfNone result (tokens.new ≡ tokens.old) }
{
    let (token, _, user) = sessions.pop_first_entry_until(&now)?;
    let _ = tokens.remove_key(&user);
    Some(token)
}

/// Ends all sessions whose deadline has come, and returns them with their tokens.
pub fn expire_all(
    sessions: &mut Sessions,
    now: u64,
    ended: &mut Vec<(P0, u64, u64)>,
) -> Result<(), AllocError>
    requires { ended.old.items ≡ [] }
    ensures ended { OnOk result
        (map (given_entry (λ p. p)) ended.new.items
        ≡ entries_until nat_cmp now sessions.old.entries) }
    ensures left { OnOk result
        (All (λ s. nat_cmp (key_of s) now ≡ Greater) sessions.new.entries) }
    ensures refused { OnErr result (sessions.new ≡ sessions.old) }
{
    sessions.pop_entries_until(&now, ended)
}

/// Gives a user a token, unless the user has one. Returns whether it does.
pub fn enter(tokens: &mut Tokens, user: u64, token: P0) -> Result<bool, ReallocationError>
    ensures kept { IfOk result (λ is_new. is_new ≡ false → tokens.new ≡ tokens.old) }
    ensures refused { OnErr result (tokens.new ≡ tokens.old) }
{
    match tokens.find_or_insert(user, token) {
        Ok((_, None)) => Ok(true),
        Ok((_, Some(_))) => Ok(false),
        Err((_, refusal)) => Err(refusal),
    }
}

/// The token of a session that ends at a deadline.
pub fn ending_at(sessions: &Sessions, deadline: u64) -> Option<P0>
    ensures { IfNone result
        (All (λ s. nat_cmp deadline (key_of s) ≢ Equal) sessions.now.entries) }
{
    sessions.find_by(|d| d.cmp(&deadline))
}

/// How many sessions end at a deadline.
pub fn count_ending_at(sessions: &Sessions, deadline: u64) -> usize
    ensures { result ≡ length (entries_between nat_cmp (Included deadline) (Included deadline)
        sessions.now.entries) }
{
    sessions.range_by(|d| d.cmp(&deadline)).count()
}

/// How many sessions there are from that of one token to that of another, both counted. `None` if one of them has ended.
pub fn count_from_to(sessions: &Sessions, first: P0, last: P0) -> Option<usize>
    ensures { IfSome result (λ n. n ≡ length (entries_from_to first.0 last.0 sessions.now.entries)) }
{
    Some(sessions.iter_between(first, last)?.count())
}

/// Moves the sessions of a user that end before a time out, each with its token.
pub fn take_of_user(
    sessions: &mut Sessions,
    user: u64,
    time: u64,
    taken: &mut Vec<(P0, u64, u64)>,
) -> Result<(), AllocError>
    ensures taken { OnOk result (entries_behind (λ p. p) taken.old taken.new
        ≡ filter (λ s. value_of s == user)
        (entries_between nat_cmp Unbounded (Excluded time) sessions.old.entries)) }
    ensures refused { OnErr result (sessions.new ≡ sessions.old) }
{
    sessions.extract_if(..time, |_, _, of| *of == user, taken)
}

/// Whether a user has a token.
pub fn has_token(tokens: &Tokens, user: u64) -> bool
    ensures none { result ≡ false
        → All (λ e. nat_cmp user (key_of e) ≢ Equal) tokens.now.entries }
{
    tokens.get_by_key(&user).is_some()
}

/// How many sessions end before a deadline.
pub fn ended_before(sessions: &Sessions, deadline: u64) -> usize
    ensures { result
        ≡ count_by (λ s. is_gt (nat_cmp deadline (key_of s))) sessions.now.entries }
{
    sessions.rank(&deadline)
}

/// Which session in the order of the deadlines a token names; the session there is the token's.
pub fn place_of(sessions: &Sessions, token: P0) -> Option<usize>
    ensures { IfSome result (λ i.
        option_map pointer_of (slice_get sessions.now.entries i) ≡ Some token) }
{
    sessions.rank_of(token)
}

/// Counts a visit of a user. Nothing changes if memory for a user's first visit is refused.
pub fn count_visit(visits: &mut SortedArena<u64, u64>, user: u64) -> Result<(), ReallocationError>
    ensures { OnErr result (visits.new ≡ visits.old) }
{
    match visits.entry(user) {
        Entry::Occupied(mut entry) => {
            let count = entry.value().saturating_add(1);
            entry.set_value(count);
            Ok(())
        }
        Entry::Vacant(entry) => match entry.insert(1) {
            Ok(_) => Ok(()),
            Err((_, refusal)) => Err(refusal),
        },
    }
}
