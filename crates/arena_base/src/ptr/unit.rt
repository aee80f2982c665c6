//! `()` as a generation that never changes.
ghost use Rattle.std.specs.Prelude.{None, refl};

use super::{BasePtrGen, PtrGen};

impl BasePtrGen for () {
    ghost number = { λ _. 0 };

    ghost greatest = { None };

    ghost one_each = { λ g h e. refl };

    ghost eq_is = { λ g h. refl };

    fn one() {}

    fn two() {}

    fn generational_inc(self) -> ((), bool) {
        ((), false)
    }

    fn is_lawful(self) -> bool {
        true
    }
}

impl PtrGen for () {}
