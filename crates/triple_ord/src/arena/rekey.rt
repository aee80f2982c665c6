//! Moving an entry to the place of its key. The entry keeps its pointer.
ghost use Rattle.std.specs.Prelude.{◌≡◌, ◌≢◌, ◌↔◌, ◌⊎◌, Some, OnOk, IfOk, IfSome, IsTrue, is_some, length};
ghost use Rattle.std.specs.Bool.{OnFalse};
ghost use Rattle.std.specs.Option.{option_map};
ghost use Rattle.ord_tree.specs.Chain.{IsOccupied};
ghost use Rattle.ord_tree.specs.ChainMove.{with_entry_moved, without_entry};
ghost use Rattle.ord_tree.specs.Move.{IsRearranged};
ghost use Rattle.ord_tree.specs.Tree.{CanPutAt, put_on, with_item};
ghost use Rattle.triple_ord.specs.Arena.{item_of, entry_at, count, Updates, FindSame};
ghost use Rattle.triple_ord.specs.Around.{FindsAround};
ghost use Rattle.triple_ord.specs.Prepared.{order_on, beside_by};
ghost use Rattle.triple_ord.specs.Rekey.{Rekeys, RekeysCounted, MovesOrReturns};
ghost use Rattle.triple_ord.specs.VisitBounds.{IsWithinBounds, IsBoundedSearch};

use super::SimpleOrdArena;
use crate::around::descend_around;
use crate::item::SimpleOrdItem;
use crate::pair::OrdPair;
use crate::prepared::side_by;
use crate::probe::Probe;
use crate::visits::Visits;
use arena_base::{BasePtr, BasePtrInx, ItemsMut};
use ord_tree::Side;
use std::alloc::Allocator;
use std::cmp::Ordering;

impl<P: BasePtr, T: SimpleOrdItem, A: Allocator> SimpleOrdArena<P, T, A> {
    /// Replaces the item of the entry at `p` by `t`, moves the entry to the place of its new key, and returns the old item.
    ///
    /// The entry keeps its pointer. It goes into a gap between the other entries, as a new entry of the kind `Nonhereditary` does: the one
    /// before it, if any, has a key of at most the new one, and the one after it, if any, a greater key. If the other entries are in the
    /// order of their keys, it comes after every other entry with a key at most the new one, and all entries are in order afterwards, whatever
    /// key the entry had before ([`rekey_order_law`](crate::order_laws::rekey_order_law)).
    ///
    /// # Errors
    ///
    /// If `p` is stale, `t` is returned and the arena is unchanged.
    ///
    /// # Complexity
    ///
    /// O(log n), and no memory. At most fifteen nodes get a new parent in the tree. The amortized number of rank changes is at most 14.
    pub fn rekey(&mut self, p: P, t: T) -> Result<T, T>
        ensures rekeys { OnOk result
            (Rekeys T.key_of T.Key.cmp self.old (P.numbers p) t self.new) }
        ensures before { IfOk result (λ before. item_of self.old (P.numbers p) ≡ Some before) }
        ensures updates { OnOk result (Updates self.old self.new (P.numbers p) (Some t)) }
        ensures otherwise { MovesOrReturns P.Inx.most P.Gen.greatest
            self.old (P.numbers p) t result self.new }
    {
        match self.rekey_counted(p, t) {
            Ok((before, _visits)) => Ok(before),
            Err(t) => Err(t),
        }
    }

    /// `rekey`, with the number of entries that the search for the new place visited, within the bounds of `find_key_counted`.
    ///
    /// # Errors
    ///
    /// If `p` is stale, `t` is returned and the arena is unchanged.
    pub fn rekey_counted(&mut self, p: P, t: T) -> Result<(T, Visits), T>
        ensures rekeys { IfOk result
            (λ r. RekeysCounted T.key_of T.Key.cmp self.old (P.numbers p) t r.1 self.new) }
        ensures before { IfOk result (λ r. item_of self.old (P.numbers p) ≡ Some r.0) }
        ensures visits { IfOk result
            (λ r. IsWithinBounds (length self.old.list.entries) self.old.shape r.1) }
        ensures updates { OnOk result (Updates self.old self.new (P.numbers p) (Some t)) }
        ensures otherwise { MovesOrReturns P.Inx.most P.Gen.greatest
            self.old (P.numbers p) t result self.new }
    {
        if !self.contains(p) {
            return Err(t);
        }
        let (found, visits) = self.place_around(p, t.key());
        let before = self.replace(p.inx(), t);
        self.go_beside(p, found);
        Ok((before, visits))
    }

    /// Moves the entry at `p` to the place of its key, and returns whether `p` names an entry.
    ///
    /// This is `rekey` without a new item, for a key that was written through `get_mut` or `arena[p]`: if all other entries are in the
    /// order of their keys, all entries are afterwards. If `p` is stale, the arena is unchanged. Cost and bounds are those of `rekey`.
    pub fn reposition(&mut self, p: P) -> bool
        ensures found { result ≡ is_some (item_of self.old (P.numbers p)) }
        ensures rekeys { IfSome (item_of self.old (P.numbers p))
            (λ t. Rekeys T.key_of T.Key.cmp self.old (P.numbers p) t self.new) }
        ensures same { FindSame self.old self.new }
        ensures count { count self.new ≡ count self.old }
        ensures stale { OnFalse result (self.new ≡ self.old) }
    {
        let Some(item) = self.get(p) else {
            return false;
        };
        let (found, _) = self.place_around(p, item.key());
        self.go_beside(p, found);
        true
    }

    // The place of a key among all entries but that of a pointer, and the number of entries that its search visited.
    fn place_around(&self, p: P, k: &T::Key) -> (Option<(P, Side)>, Visits)
        ensures { IsBoundedSearch self.now result.1 (FindsAround T.key_of T.Key.cmp
            self.now.list.entries (P.numbers p).0 k.now
            (option_map (λ a. (P.numbers a.0, order_on a.1)) result.0) result.1) }
    {
        let mut probe = Probe::new(&self.tree);
        let found = beside(descend_around(&mut probe, p.inx(), k));
        (found, probe.visits())
    }
}

impl<P: BasePtr, K: Ord, V, A: Allocator> SimpleOrdArena<P, OrdPair<K, V>, A> {
    /// Gives the pair at `p` the key `k`, moves the entry to the place of that key, and returns the old key. The value stays.
    ///
    /// This is `rekey` for a pair whose value can't be passed again. Cost and bounds are those of `rekey`.
    ///
    /// ```
    /// let (two, _) = pairs.insert(OrdPair::new(2, "tea"))?;
    /// let (five, _) = pairs.insert(OrdPair::new(5, "cake"))?;
    /// assert_eq!(rt; pairs.rekey_pair(two, 9), Ok(2));
    /// assert_eq!(rt; pairs.get(two), Some(&OrdPair::new(9, "tea")));
    /// assert_eq!(rt; pairs.first(), Some(five));
    /// ```
    ///
    /// # Errors
    ///
    /// If `p` is stale, `k` is returned and the arena is unchanged.
    pub fn rekey_pair(&mut self, p: P, k: K) -> Result<K, K>
        ensures rekeys { OnOk result (IfSome (item_of self.old (P.numbers p)) (λ pair.
            Rekeys (λ pair. pair.0) K.cmp self.old (P.numbers p) (k, pair.1) self.new)) }
        ensures before { IfOk result (λ before.
            option_map (λ pair. pair.0) (item_of self.old (P.numbers p)) ≡ Some before) }
        ensures updates { Updates self.old self.new (P.numbers p)
            (option_map (λ pair. (k, pair.1)) (item_of self.old (P.numbers p))) }
        ensures otherwise { MovesOrReturns P.Inx.most P.Gen.greatest
            self.old (P.numbers p) k result self.new }
    {
        let Some(_pair) = self.get(p) else {
            return Err(k);
        };
        let (found, _) = self.place_around(p, &k);
        let before = self.replace_key(p.inx(), k);
        self.go_beside(p, found);
        Ok(before)
    }

    // Replaces the key of the pair at an occupied index, and returns the old one.
    fn replace_key(&mut self, i: P::Inx, k: K) -> K
        requires { IsOccupied self.old.list (P.Inx.number i) }
        ensures before { IfSome (entry_at self.old (P.Inx.number i)) (λ e. result ≡ e.1.0) }
        ensures after { IfSome (entry_at self.old (P.Inx.number i))
            (λ e. self.new ≡ with_item self.old (P.Inx.number i) (k, e.1.1)) }
    {
        let pair = self.tree.pair_mut(i);
        let place = pair.1;
        place.replace_k(k)
    }
}

impl<P: BasePtr, T, A: Allocator> SimpleOrdArena<P, T, A> {
    // Moves the entry of a pointer beside another, if one is given and has another index. If it is already there, nothing moves.
    fn go_beside(&mut self, p: P, at: Option<(P, Side)>)
        requires entry { IsOccupied self.old.list (P.numbers p).0 }
        requires place { IfSome at (λ a. (P.numbers a.0).0 ≢ (P.numbers p).0
            → CanPutAt (λ q. (P.numbers q).0) (Some a) (without_entry self.old.list (P.numbers p).0)) }
        ensures stays { IfSome at (λ a. (P.numbers a.0).0 ≡ (P.numbers p).0 → self.new ≡ self.old) }
        ensures list { IfSome at (λ a. (P.numbers a.0).0 ≢ (P.numbers p).0
            → self.new.list ≡ with_entry_moved self.old.list (P.numbers p).0 (put_on a.1 (P.numbers a.0).0)) }
        ensures shape { IfSome at (λ a. (P.numbers a.0).0 ≢ (P.numbers p).0
            → (self.new.shape ≡ self.old.shape) ⊎ IsRearranged self.old.shape self.new.shape) }
    {
        let Some(at) = at else {
            return;
        };
        if share_index(at.0, p) {
            return;
        }
        if self.stands_beside(p.inx(), at) {
            return;
        }
        self.tree.move_beside(p.inx(), (at.0.inx(), at.1));
    }

    // Whether the entry at an index is already directly on this side of another.
    fn stands_beside(&self, i: P::Inx, at: (P, Side)) -> bool
        requires { IsOccupied self.now.list (P.Inx.number i) }
        ensures { IsTrue result → (P.numbers at.0).0 ≢ P.Inx.number i
            → self.now.list ≡ with_entry_moved self.now.list (P.Inx.number i) (put_on at.1 (P.numbers at.0).0) }
    {
        let Some((_, link)) = self.get_inx_node(at.0.inx()) else {
            return false;
        };
        match at.1 {
            Side::Lesser => is_named(link.prev(), i),
            Side::Greater => is_named(link.next(), i),
        }
    }
}

// The entry beside which a search ended, and the side.
fn beside<P: Copy>(found: Option<(P, Ordering)>) -> Option<(P, Side)>
    ensures { result ≡ beside_by found }
{
    let (p, order) = found?;
    let side = side_by(order)?;
    Some((p, side))
}

// Whether two pointers have the same index.
fn share_index<P: BasePtr>(p: P, q: P) -> bool
    ensures { IsTrue result ↔ ((P.numbers p).0 ≡ (P.numbers q).0) }
{
    p.inx() == q.inx()
}

// Whether there is an index, and it is this one.
fn is_named<I: BasePtrInx>(neighbour: Option<I>, i: I) -> bool
    ensures { IsTrue result ↔ (option_map I.number neighbour ≡ Some (I.number i)) }
{
    match neighbour {
        Some(j) => j == i,
        None => false,
    }
}
