//! Sessions by deadline. Each is named by a token and ends at its deadline unless it is touched before; touching keeps the token.

ghost use Rattle.std.specs.Prelude.{◌≡◌, ◌≢◌, ◌+◌, ◌-◌, ◌≤◌, ℕ, Some, None, IfOk, OnErr, IfSome, IfNone, is_some, map};
ghost use Rattle.std.specs.Option.{option_map};
ghost use Rattle.std.specs.Ordering.{nat_cmp};
ghost use Rattle.triple_ord.specs.Arena.{item_of, items, count, Updates};
ghost use Rattle.triple_ord.specs.Order.{IsInOrder};

use std::alloc::Global;
use triple_ord::order_laws::rekey_order_law;
use triple_ord::{Advancer, OrdInsertKind, OrdInsertionError, OrdPair, P0, SimpleOrdArena};

/// Users by the deadline of their session. Sessions may end at the same time.
pub type Sessions = SimpleOrdArena<P0, OrdPair<u64, u64>>;

/// Opens a session of a user until a deadline and returns its token.
pub fn open(sessions: &mut Sessions, deadline: u64, user: u64) -> Result<P0, OrdInsertionError>
    ensures opened { IfOk result
        (λ token. item_of sessions.new token ≡ Some (deadline, user)) }
    ensures others { IfOk result (λ token. (t : ℕ × ℕ) → t ≢ token
        → item_of sessions.new t ≡ item_of sessions.old t) }
    ensures refused { OnErr result (sessions.new ≡ sessions.old) }
{
    let entry = sessions.entry_insert(OrdInsertKind::Nonhereditary(&deadline))?;
    let token = entry.ptr().any();
    let _ = entry.insert(OrdPair::new(deadline, user));
    Ok(token)
}

/// Moves the deadline of a session. Its token stays valid. Returns whether the token names a session.
pub fn touch(sessions: &mut Sessions, token: P0, deadline: u64) -> bool
    ensures named { result ≡ is_some (item_of sessions.old token) }
    ensures touched { item_of sessions.new token
        ≡ option_map (λ session. (deadline, session.1)) (item_of sessions.old token) }
    ensures others { (t : ℕ × ℕ) → t ≢ token
        → item_of sessions.new t ≡ item_of sessions.old t }
    ensures count { count sessions.new ≡ count sessions.old }
    ensures in_order { IsInOrder (λ s. s.0) nat_cmp sessions.old.list.entries
        → IsInOrder (λ s. s.0) nat_cmp sessions.new.list.entries }
{
    rekey_order_law::<OrdPair<u64, u64>>();
    sessions.rekey_pair(token, deadline).is_ok()
}

/// Gives a session another user and another deadline, and returns the old user, or `None` if the token names no session.
pub fn hand_over(sessions: &mut Sessions, token: P0, deadline: u64, user: u64) -> Option<u64>
    ensures before { result
        ≡ option_map (λ session. session.1) (item_of sessions.old token) }
    ensures given { is_some result ≡ is_some (item_of sessions.new token) }
    ensures found { IfSome result (λ before. Updates sessions.old sessions.new token
        (Some (deadline, user))) }
    ensures count { count sessions.new ≡ count sessions.old }
    ensures none { IfNone result (sessions.new ≡ sessions.old) }
{
    match sessions.rekey(token, OrdPair::new(deadline, user)) {
        Ok(session) => Some(*session.v()),
        Err(_refused) => None,
    }
}

/// Shortens a session by `by`. Returns whether the token names a session.
#[tactic(auto, using(triple_ord::proofs::CallerLemmas::written))]
pub fn shorten(sessions: &mut Sessions, token: P0, by: u64) -> bool
    ensures named { result ≡ is_some (item_of sessions.old token) }
    ensures shortened { item_of sessions.new token
        ≡ option_map (λ session. (session.0 - by, session.1)) (item_of sessions.old token) }
    ensures others { (t : ℕ × ℕ) → t ≢ token
        → item_of sessions.new t ≡ item_of sessions.old t }
    ensures count { count sessions.new ≡ count sessions.old }
{
    if let Some(session) = sessions.get_mut(token) {
        let deadline = session.k().saturating_sub(by);
        *session = OrdPair::new(deadline, *session.v());
    }
    sessions.reposition(token)
}

/// Returns the token and the deadline of the last session whose deadline has come, in O(log n).
pub fn last_due(sessions: &Sessions, now: u64) -> Option<(P0, u64)>
    ensures due { IfSome result (λ last. last.1 ≤ now) }
    ensures named { IfSome result
        (λ last. option_map (λ s. s.0) (item_of sessions.now last.0) ≡ Some last.1) }
{
    let (beside, order) = sessions.find_behind_key(&now)?;
    let mut back = sessions.advancer_ordered(beside, true)?;
    let mut token = back.advance(sessions)?;
    if order.is_lt() {
        token = back.advance(sessions)?;
    }
    let deadline = *sessions.get(token)?.k();
    if deadline <= now {
        Some((token, deadline))
    } else {
        None
    }
}

/// Ends the first session if its deadline has come, and returns its user.
pub fn expire_one(sessions: &mut Sessions, now: u64) -> Option<u64>
    ensures ended { IfSome result (λ user. (token : ℕ × ℕ) × (deadline : ℕ) × (deadline ≤ now)
        × (item_of sessions.old token ≡ Some (deadline, user))
        × Updates sessions.old sessions.new token None) }
    ensures none { IfNone result (sessions.new ≡ sessions.old) }
{
    let token = sessions.first()?;
    if *sessions.get(token)?.k() > now {
        return None;
    }
    let session = sessions.remove(token).allow()?;
    Some(*session.v())
}

/// Moves all sessions to the least indexes, which gives each a new token, and removes its user. The deadlines stay, in the same order.
pub fn forget_users(sessions: &mut Sessions)
    ensures deadlines { map (λ s. s.0) (items sessions.new) ≡ map (λ s. s.0) (items sessions.old) }
    ensures count { count sessions.new ≡ count sessions.old }
{
    let _ = sessions.compress_keeping_keys(
        false,
        |_old, session, _new| OrdPair::new(*session.k(), 0),
    );
}
