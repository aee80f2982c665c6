//! Other names for entries.
ghost use Rattle.std.specs.Prelude.{◌≡◌, Some, IsSome, IfSome};
ghost use Rattle.leaf_list.specs.House.{Renames, SwapsNames};
ghost use Rattle.leaf_list.specs.Leaves.{entries_of, IsFree};
ghost use Rattle.leaf_list.specs.Place.{entry_at, position, renamed, with_name};

use super::LeafList;
use crate::place::Place;
use std::alloc::Allocator;
use triple_ord::BasePtr;

impl<K: Ord, P: BasePtr, A: Allocator> LeafList<K, P, A> {
    /// Replaces the name of the entry at a place by one that no entry has. O(1).
    pub fn rename(&mut self, p: Place<P::Inx>, name: P::Inx)
        requires place { IsSome (entry_at self.old.leaves (P.Inx.number p.leaf, p.at)) }
        requires free { IsFree self.old (P.Inx.number name) }
        ensures leaves { self.new ≡ record self.old {
          leaves = with_name self.old.leaves (P.Inx.number p.leaf, p.at) (P.Inx.number name);
        } }
        ensures entries { entries_of self.new.leaves ≡ renamed (entries_of self.old.leaves)
            (position self.old.leaves (Some (P.Inx.number p.leaf, p.at))) (P.Inx.number name) }
        ensures houses { IfSome (entry_at self.old.leaves (P.Inx.number p.leaf, p.at))
            (λ e. Renames self.old self.new (P.Inx.number p.leaf, p.at) e.1
            (P.Inx.number name)) }
    {
        self.store.set_name(p.leaf, p.at, name);
    }

    /// Exchanges the names of the entries at two places. O(1).
    pub fn swap_names(&mut self, p: Place<P::Inx>, q: Place<P::Inx>)
        requires first { IsSome (entry_at self.old.leaves (P.Inx.number p.leaf, p.at)) }
        requires second { IsSome (entry_at self.old.leaves (P.Inx.number q.leaf, q.at)) }
        ensures leaves { IfSome (entry_at self.old.leaves (P.Inx.number p.leaf, p.at))
            (λ d. IfSome (entry_at self.old.leaves (P.Inx.number q.leaf, q.at))
            (λ e. self.new ≡ record self.old {
              leaves = with_name
                  (with_name self.old.leaves (P.Inx.number p.leaf, p.at) e.1)
                  (P.Inx.number q.leaf, q.at) d.1;
            })) }
        ensures entries { IfSome (entry_at self.old.leaves (P.Inx.number p.leaf, p.at))
            (λ d. IfSome (entry_at self.old.leaves (P.Inx.number q.leaf, q.at))
            (λ e. entries_of self.new.leaves ≡ renamed
            (renamed (entries_of self.old.leaves)
            (position self.old.leaves (Some (P.Inx.number p.leaf, p.at))) e.1)
            (position self.old.leaves (Some (P.Inx.number q.leaf, q.at))) d.1)) }
        ensures houses { IfSome (entry_at self.old.leaves (P.Inx.number p.leaf, p.at))
            (λ d. IfSome (entry_at self.old.leaves (P.Inx.number q.leaf, q.at))
            (λ e. SwapsNames self.old self.new (P.Inx.number p.leaf, p.at)
            (P.Inx.number q.leaf, q.at) d.1 e.1)) }
    {
        let first = self.store.entry(p.leaf, p.at).1;
        let second = self.store.entry(q.leaf, q.at).1;
        self.store.set_name(p.leaf, p.at, second);
        self.store.set_name(q.leaf, q.at, first);
    }
}
