//! An ordered arena as an arena among others.
use super::support::{at, keys};
use arena_base::{BasePtr, P0, laws};
use triple_ord::{ArenaTrait, OrdPair};

#[test]
fn an_ordered_arena_keeps_the_laws_of_a_finite_map(rt: HostRuntime) {
    let mut a = keys(rt.alloc(), &[50, 30, 70]);
    assert!(rt; laws::put(&mut a, at(2), OrdPair::new(40, ())));
    assert!(rt; laws::take(&mut a, at(2)) == Some(OrdPair::new(40, ())));
    assert!(rt; laws::renew(&mut a, at(3)) == Some(P0::_from_raw(3, 4)));
    let generation = ArenaTrait::<P0, OrdPair<u64, ()>>::singular_generation(&a);
    assert!(rt; generation == Some(4));
    laws::empty(&mut a);
    assert!(rt; a.is_empty());
}
