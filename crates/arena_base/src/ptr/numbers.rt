//! Unsigned numbers as indexes and generations.
ghost use Rattle.std.specs.Prelude.{◌≡◌, ℕ, ◌^◌, ◌-◌, Option, Some, None, refl};
ghost use Rattle.std.proofs.Common.{rules};

use super::{BasePtrGen, BasePtrInx, PtrGen, PtrInx};

impl BasePtrInx for u8 {
    ghost number = { λ i. i };

    ghost most = { 254 };

    ghost one_each = { λ i j e. e };

    ghost eq_is = { λ i j. refl };

    ghost fits = { Prim.search rules };

    fn try_into_usize(self) -> Option<usize> {
        if self == 0 { None } else { Some(self as usize) }
    }

    fn zero() -> u8 {
        0
    }

    fn try_from_usize(n: usize) -> Option<u8> {
        if n == 0 || n > Self::limit() {
            None
        } else {
            Some(n as u8)
        }
    }

    fn limit() -> usize {
        u8::MAX as usize - 1
    }
}

impl BasePtrInx for u16 {
    ghost number = { λ i. i };

    ghost most = { 65534 };

    ghost one_each = { λ i j e. e };

    ghost eq_is = { λ i j. refl };

    ghost fits = { Prim.search rules };

    fn try_into_usize(self) -> Option<usize> {
        if self == 0 { None } else { Some(self as usize) }
    }

    fn zero() -> u16 {
        0
    }

    fn try_from_usize(n: usize) -> Option<u16> {
        if n == 0 || n > Self::limit() {
            None
        } else {
            Some(n as u16)
        }
    }

    fn limit() -> usize {
        u16::MAX as usize - 1
    }
}

impl BasePtrInx for u32 {
    ghost number = { λ i. i };

    ghost most = { 4294967294 };

    ghost one_each = { λ i j e. e };

    ghost eq_is = { λ i j. refl };

    ghost fits = { Prim.search rules };

    fn try_into_usize(self) -> Option<usize> {
        if self == 0 { None } else { Some(self as usize) }
    }

    fn zero() -> u32 {
        0
    }

    fn try_from_usize(n: usize) -> Option<u32> {
        if n == 0 || n > Self::limit() {
            None
        } else {
            Some(n as u32)
        }
    }

    fn limit() -> usize {
        u32::MAX as usize - 1
    }
}

impl BasePtrInx for u64 {
    ghost number = { λ i. i };

    ghost most = { 18446744073709551614 };

    ghost one_each = { λ i j e. e };

    ghost eq_is = { λ i j. refl };

    ghost fits = { Prim.search rules };

    fn try_into_usize(self) -> Option<usize> {
        if self == 0 { None } else { Some(self as usize) }
    }

    fn zero() -> u64 {
        0
    }

    fn try_from_usize(n: usize) -> Option<u64> {
        if n == 0 || n > Self::limit() {
            None
        } else {
            Some(n as u64)
        }
    }

    fn limit() -> usize {
        u64::MAX as usize - 1
    }
}

impl BasePtrInx for usize {
    ghost number = { λ i. i };

    ghost most = { 18446744073709551614 };

    ghost one_each = { λ i j e. e };

    ghost eq_is = { λ i j. refl };

    ghost fits = { Prim.search rules };

    fn try_into_usize(self) -> Option<usize> {
        if self == 0 { None } else { Some(self) }
    }

    fn zero() -> usize {
        0
    }

    fn try_from_usize(n: usize) -> Option<usize> {
        if n == 0 || n > Self::limit() {
            None
        } else {
            Some(n)
        }
    }

    fn limit() -> usize {
        usize::MAX - 1
    }
}

impl BasePtrGen for u8 {
    ghost number = { λ g. g };

    ghost greatest = { Some 255 };

    ghost one_each = { λ g h e. e };

    ghost eq_is = { λ g h. refl };

    fn one() -> u8 {
        1
    }

    fn two() -> u8 {
        2
    }

    fn generational_inc(self) -> (u8, bool) {
        if self == u8::MAX {
            (2, true)
        } else {
            (self + 1, false)
        }
    }

    fn is_lawful(self) -> bool {
        self >= 2
    }
}

impl BasePtrGen for u16 {
    ghost number = { λ g. g };

    ghost greatest = { Some 65535 };

    ghost one_each = { λ g h e. e };

    ghost eq_is = { λ g h. refl };

    fn one() -> u16 {
        1
    }

    fn two() -> u16 {
        2
    }

    fn generational_inc(self) -> (u16, bool) {
        if self == u16::MAX {
            (2, true)
        } else {
            (self + 1, false)
        }
    }

    fn is_lawful(self) -> bool {
        self >= 2
    }
}

impl BasePtrGen for u32 {
    ghost number = { λ g. g };

    ghost greatest = { Some 4294967295 };

    ghost one_each = { λ g h e. e };

    ghost eq_is = { λ g h. refl };

    fn one() -> u32 {
        1
    }

    fn two() -> u32 {
        2
    }

    fn generational_inc(self) -> (u32, bool) {
        if self == u32::MAX {
            (2, true)
        } else {
            (self + 1, false)
        }
    }

    fn is_lawful(self) -> bool {
        self >= 2
    }
}

impl BasePtrGen for u64 {
    ghost number = { λ g. g };

    ghost greatest = { Some 18446744073709551615 };

    ghost one_each = { λ g h e. e };

    ghost eq_is = { λ g h. refl };

    fn one() -> u64 {
        1
    }

    fn two() -> u64 {
        2
    }

    fn generational_inc(self) -> (u64, bool) {
        if self == u64::MAX {
            (2, true)
        } else {
            (self + 1, false)
        }
    }

    fn is_lawful(self) -> bool {
        self >= 2
    }
}

impl PtrInx for u8 {}

impl PtrInx for u16 {}

impl PtrInx for u32 {}

impl PtrInx for u64 {}

impl PtrInx for usize {}

impl PtrGen for u8 {}

impl PtrGen for u16 {}

impl PtrGen for u32 {}

impl PtrGen for u64 {}
