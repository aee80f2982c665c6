//! Printed arenas.
use super::support::keys;

#[test]
fn entries_print_in_order(rt: HostRuntime) {
    let a = keys(rt.alloc(), &[50, 30]);
    let short = format!(in rt.alloc(); "{a:?}").expect(&rt, "memory");
    assert!(rt; short.as_str() == "{P0[2](2): (30, ()), P0[1](2): (50, ())}");
    let long = format!(in rt.alloc(); "{a:#?}").expect(&rt, "memory");
    assert!(rt;
        long.as_str()
            == "{\n    P0[2](2): (\n        30,\n        (),\n    ),\n    P0[1](2): (\n        50,\n        (),\n    ),\n}"
    );
}
