//! Pairs of a key and a value.
use std::hash::{DefaultHasher, Hasher};
use triple_ord::{OrdPair, laws};

#[test]
fn a_pair_prints_and_comes_apart_as_a_tuple(rt: HostRuntime) {
    let mut pair = OrdPair::new(1u8, 2u8);
    *pair.v_mut() = 5;
    assert!(rt;
        format!(in rt.alloc(); "{pair:?}")
            .expect(&rt, "memory")
            .as_str()
            == "(1, 5)"
    );
    assert!(rt; pair.into_k_v() == (1, 5));
}

#[test]
fn a_pair_hashes_as_its_parts(rt: HostRuntime) {
    let mut of_pair = DefaultHasher::new();
    laws::pair_hash(&OrdPair::new(2u8, 7u64), &mut of_pair);
    let mut of_parts = DefaultHasher::new();
    of_parts.write_u8(2);
    of_parts.write_u64(7);
    assert!(rt; of_pair.finish() == of_parts.finish());
}
