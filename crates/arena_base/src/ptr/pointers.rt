//! The pointer types. In contracts a pointer is the pair of its index and its generation; without a generation it is its index.
ghost use Rattle.std.specs.Prelude.{refl};
ghost use Rattle.std.proofs.Common.{ap};

use super::{BasePtr, Ptr};
use crate::recast::{Recast, Recaster};
use std::fmt;
use std::marker::Model;

/// The usual pointer: more than four billion indexes, and generations that don't run out in practice.
#[derive(Clone, Copy, PartialEq, Eq, PartialOrd, Ord, Hash)]
pub struct P0 {
    inx: u32,
    generation: u64,
}

impl Model for P0 {
    ghost use Rattle.std.specs.Prelude.{ℕ};

    ghost Value = { ℕ × ℕ };

    ghost view = { λ p. (p.inx, p.generation) };

    ghost inverse = { λ p. record { inx = p.0; generation = p.1 } };
}

impl BasePtr for P0 {
    type Inx = u32;

    type Gen = u64;

    ghost numbers = { λ p. p };

    ghost one_each = { λ p q e. e };

    ghost eq_is = { λ p q. refl };

    fn inx(self) -> u32 {
        self.inx
    }

    fn generation(self) -> u64 {
        self.generation
    }

    fn invalid() -> P0 {
        P0 {
            inx: u32::MAX,
            generation: 1,
        }
    }

    fn _from_raw(inx: u32, generation: u64) -> P0 {
        P0 { inx, generation }
    }
}

impl Ptr for P0 {}

impl fmt::Debug for P0 {
    fn fmt<W: fmt::Write>(&self, f: &mut fmt::Formatter<W>) -> fmt::Result {
        write!(f, "P0[{}]({})", self.inx, self.generation)
    }
}

impl Recast<P0> for P0 {
    ghost recast_gives = { λ gives old result new. gives old result new };

    fn recast<R: Recaster<Item = P0>>(&mut self, recaster: &R) -> Result<(), P0> {
        recaster.recast_item(self)
    }
}

/// A second pointer type like [`P0`], for a second arena, so that pointers of the two can't be mixed up.
#[derive(Clone, Copy, PartialEq, Eq, PartialOrd, Ord, Hash)]
pub struct Q0 {
    inx: u32,
    generation: u64,
}

impl Model for Q0 {
    ghost use Rattle.std.specs.Prelude.{ℕ};

    ghost Value = { ℕ × ℕ };

    ghost view = { λ p. (p.inx, p.generation) };

    ghost inverse = { λ p. record { inx = p.0; generation = p.1 } };
}

impl BasePtr for Q0 {
    type Inx = u32;

    type Gen = u64;

    ghost numbers = { λ p. p };

    ghost one_each = { λ p q e. e };

    ghost eq_is = { λ p q. refl };

    fn inx(self) -> u32 {
        self.inx
    }

    fn generation(self) -> u64 {
        self.generation
    }

    fn invalid() -> Q0 {
        Q0 {
            inx: u32::MAX,
            generation: 1,
        }
    }

    fn _from_raw(inx: u32, generation: u64) -> Q0 {
        Q0 { inx, generation }
    }
}

impl Ptr for Q0 {}

impl fmt::Debug for Q0 {
    fn fmt<W: fmt::Write>(&self, f: &mut fmt::Formatter<W>) -> fmt::Result {
        write!(f, "Q0[{}]({})", self.inx, self.generation)
    }
}

impl Recast<Q0> for Q0 {
    ghost recast_gives = { λ gives old result new. gives old result new };

    fn recast<R: Recaster<Item = Q0>>(&mut self, recaster: &R) -> Result<(), Q0> {
        recaster.recast_item(self)
    }
}

/// A pointer of eight bytes: an index and a generation of 32 bits each. Slots are 8 bytes smaller than with [`P0`].
///
/// An ordered arena of two words an entry takes 48 bytes a slot instead of 56.
///
/// The generation overflows after 2^32 - 2 removals, which that removal reports, and begins again. A stale pointer that is kept for so
/// long can then name a later entry at its index. Take this type if an arena removes fewer entries than that while a pointer is kept;
/// otherwise take `P0`.
#[derive(Clone, Copy, PartialEq, Eq, PartialOrd, Ord, Hash)]
pub struct P32 {
    inx: u32,
    generation: u32,
}

impl Model for P32 {
    ghost use Rattle.std.specs.Prelude.{ℕ};

    ghost Value = { ℕ × ℕ };

    ghost view = { λ p. (p.inx, p.generation) };

    ghost inverse = { λ p. record { inx = p.0; generation = p.1 } };
}

impl BasePtr for P32 {
    type Inx = u32;

    type Gen = u32;

    ghost numbers = { λ p. p };

    ghost one_each = { λ p q e. e };

    ghost eq_is = { λ p q. refl };

    fn inx(self) -> u32 {
        self.inx
    }

    fn generation(self) -> u32 {
        self.generation
    }

    fn invalid() -> P32 {
        P32 {
            inx: u32::MAX,
            generation: 1,
        }
    }

    fn _from_raw(inx: u32, generation: u32) -> P32 {
        P32 { inx, generation }
    }
}

impl Ptr for P32 {}

impl fmt::Debug for P32 {
    fn fmt<W: fmt::Write>(&self, f: &mut fmt::Formatter<W>) -> fmt::Result {
        write!(f, "P32[{}]({})", self.inx, self.generation)
    }
}

impl Recast<P32> for P32 {
    ghost recast_gives = { λ gives old result new. gives old result new };

    fn recast<R: Recaster<Item = P32>>(&mut self, recaster: &R) -> Result<(), P32> {
        recaster.recast_item(self)
    }
}

/// A pointer of two bytes, for small arenas. Its generations overflow after 254 removals.
#[derive(Clone, Copy, PartialEq, Eq, PartialOrd, Ord, Hash)]
pub struct P8 {
    inx: u8,
    generation: u8,
}

impl Model for P8 {
    ghost use Rattle.std.specs.Prelude.{ℕ};

    ghost Value = { ℕ × ℕ };

    ghost view = { λ p. (p.inx, p.generation) };

    ghost inverse = { λ p. record { inx = p.0; generation = p.1 } };
}

impl BasePtr for P8 {
    type Inx = u8;

    type Gen = u8;

    ghost numbers = { λ p. p };

    ghost one_each = { λ p q e. e };

    ghost eq_is = { λ p q. refl };

    fn inx(self) -> u8 {
        self.inx
    }

    fn generation(self) -> u8 {
        self.generation
    }

    fn invalid() -> P8 {
        P8 {
            inx: u8::MAX,
            generation: 1,
        }
    }

    fn _from_raw(inx: u8, generation: u8) -> P8 {
        P8 { inx, generation }
    }
}

impl Ptr for P8 {}

impl fmt::Debug for P8 {
    fn fmt<W: fmt::Write>(&self, f: &mut fmt::Formatter<W>) -> fmt::Result {
        write!(f, "P8[{}]({})", self.inx, self.generation)
    }
}

impl Recast<P8> for P8 {
    ghost recast_gives = { λ gives old result new. gives old result new };

    fn recast<R: Recaster<Item = P8>>(&mut self, recaster: &R) -> Result<(), P8> {
        recaster.recast_item(self)
    }
}

/// A pointer without a generation: it names whichever entry is at its index.
#[derive(Clone, Copy, PartialEq, Eq, PartialOrd, Ord, Hash)]
pub struct PN {
    inx: u32,
    generation: (),
}

impl Model for PN {
    ghost use Rattle.std.specs.Prelude.{ℕ};

    ghost Value = { ℕ };

    ghost view = { λ p. p.inx };

    ghost inverse = { λ n. record { inx = n; generation = tt } };
}

impl BasePtr for PN {
    type Inx = u32;

    type Gen = ();

    ghost numbers = { λ p. (p, 0) };

    ghost one_each = { λ p q e. ap (λ n. n.0) e };

    ghost eq_is = { λ p q. refl };

    fn inx(self) -> u32 {
        self.inx
    }

    fn generation(self) -> () {
        self.generation
    }

    fn invalid() -> PN {
        PN {
            inx: u32::MAX,
            generation: (),
        }
    }

    fn _from_raw(inx: u32, generation: ()) -> PN {
        PN { inx, generation }
    }
}

impl Ptr for PN {}

impl fmt::Debug for PN {
    fn fmt<W: fmt::Write>(&self, f: &mut fmt::Formatter<W>) -> fmt::Result {
        write!(f, "PN[{}](())", self.inx)
    }
}

impl Recast<PN> for PN {
    ghost recast_gives = { λ gives old result new. gives old result new };

    fn recast<R: Recaster<Item = PN>>(&mut self, recaster: &R) -> Result<(), PN> {
        recaster.recast_item(self)
    }
}
