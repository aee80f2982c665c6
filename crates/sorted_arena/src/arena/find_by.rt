//! Entries by how a closure compares their keys with what is sought.

ghost use Rattle.std.specs.Prelude.{◌≡◌, IsSome, IfSome};
ghost use Rattle.std.specs.Option.{option_map};
ghost use Rattle.std.specs.Ordering.{is_eq, is_ge, is_gt};
ghost use Rattle.std.specs.declared.cmp.Ordering.{Ordering};
ghost use Rattle.sorted_arena.specs.Compare.{ComparesBy, IsMonotone};
ghost use Rattle.sorted_arena.specs.Find.{FindsFirstEqual, FindsLowerBound, FindsUpperBound};
ghost use Rattle.sorted_arena.specs.Sorted.{get, first_where, key_of};

use super::SortedArena;
use crate::met::{first_behind_in, first_from_in};
use std::alloc::Allocator;
use std::cmp::Ordering;
use triple_ord::BasePtr;

impl<K: Ord, V, P: BasePtr, A: Allocator> SortedArena<K, V, P, A> {
    /// Returns the pointer of the first entry for whose key `f` answers `Equal`, in O(log n) calls. `None` if there is none.
    ///
    /// `f` answers how a key compares with what is sought, as for a slice's `binary_search_by`. If the answers along the entries are not
    /// first `Less`, then `Equal`, and then `Greater`, an entry may be missed.
    ///
    /// ```
    /// let name = String::from_str(rt.alloc(), "Ada")?;
    /// let ada = ids.insert(name, 7).map_err(|refused| refused.1)?;
    /// assert_eq!(rt; ids.find_by(|name| name.as_str().cmp("Ada")), Some(ada));
    /// assert_eq!(rt; ids.find_by(|name| name.as_str().cmp("Alan")), None);
    /// ```
    pub fn find_by<F: Fn(&K) -> Ordering + Drop>(&self, f: F) -> Option<P>
        requires { F.IsAlwaysCallable f }
        ensures named { IfSome result (λ p. IsSome (get self.now (P.numbers p))) }
        ensures first { (order : K → Ordering) → ComparesBy F.Fn f order
            → IsMonotone order self.now.entries → option_map P.numbers result
            ≡ first_where (λ e. is_eq (order (key_of e))) self.now.entries }
        ensures finds { (k : K) → ComparesBy F.Fn f (λ x. K.cmp x k)
            → FindsFirstEqual K.cmp P.Inx.most P.numbers self.now k result }
    {
        let p = first_from_in(self.pairs(), &f)?;
        let k = self.key(p)?;
        if f(k).is_eq() { Some(p) } else { None }
    }

    /// Returns the pointer of the first entry for whose key `f` doesn't answer `Less`, in O(log n) calls. `None` if there is none.
    ///
    /// `f` answers as for [`find_by`](Self::find_by). If its answers are in another order along the entries, the result is some entry or
    /// `None`.
    pub fn lower_bound_by<F: Fn(&K) -> Ordering + Drop>(&self, f: F) -> Option<P>
        requires { F.IsAlwaysCallable f }
        ensures named { IfSome result (λ p. IsSome (get self.now (P.numbers p))) }
        ensures first { (order : K → Ordering) → ComparesBy F.Fn f order
            → IsMonotone order self.now.entries → option_map P.numbers result
            ≡ first_where (λ e. is_ge (order (key_of e))) self.now.entries }
        ensures finds { (k : K) → ComparesBy F.Fn f (λ x. K.cmp x k)
            → FindsLowerBound K.cmp P.Inx.most P.numbers self.now k result }
    {
        first_from_in(self.pairs(), &f)
    }

    /// Returns the pointer of the first entry for whose key `f` answers `Greater`, in O(log n) calls. `None` if there is none.
    ///
    /// `f` answers as for [`find_by`](Self::find_by). If its answers are in another order along the entries, the result is some entry or
    /// `None`.
    pub fn upper_bound_by<F: Fn(&K) -> Ordering + Drop>(&self, f: F) -> Option<P>
        requires { F.IsAlwaysCallable f }
        ensures named { IfSome result (λ p. IsSome (get self.now (P.numbers p))) }
        ensures first { (order : K → Ordering) → ComparesBy F.Fn f order
            → IsMonotone order self.now.entries → option_map P.numbers result
            ≡ first_where (λ e. is_gt (order (key_of e))) self.now.entries }
        ensures finds { (k : K) → ComparesBy F.Fn f (λ x. K.cmp x k)
            → FindsUpperBound K.cmp P.Inx.most P.numbers self.now k result }
    {
        first_behind_in(self.pairs(), &f)
    }
}
