//! Pointers into an arena: an index, and a generation that distinguishes the entries of that index.
ghost use Rattle.std.specs.Prelude.{◌≡◌, ◌==◌, ◌+◌, ◌<◌, ◌≤◌, ◌^◌, ◌↔◌, ◌&&◌, ℕ, Bool, Option, Some, None, IsTrue, IsSome, IfSome, refl};
ghost use Rattle.arena_base.specs.Generation.{invalid_generation, first_generation, next_generation, overflows_after, IsLawfulGeneration};
ghost use Rattle.arena_base.specs.Pointer.{index_number};

mod numbers;
mod pointers;
mod unit;

pub use pointers::{P0, P8, P32, PN, Q0};
use std::fmt::Debug;
use std::hash::Hash;

/// The index part of a pointer, as arenas need it.
///
/// Index 0 and the greatest index name nothing: entries have the indexes from 1 to `limit()`.
pub trait BasePtrInx: Copy + Eq {
    // The index as a number.
    ghost number: { Self → ℕ };

    // The greatest index that an entry may have.
    ghost most: { ℕ };

    /// Returns the index as a number; `None` for 0.
    fn try_into_usize(self) -> Option<usize>
        ensures { result ≡ index_number (number self) };

    /// Returns the index with number `n`; `None` if `n` is 0 or beyond `limit()`.
    fn try_from_usize(n: usize) -> Option<Self>
        ensures variant { IsSome result ↔ (0 < n × n ≤ most) }
        ensures value { IfSome result (λ i. number i ≡ n) };

    /// Returns index 0, which names nothing.
    fn zero() -> Self
        ensures { number result ≡ 0 };

    /// Returns the greatest index that an entry may have: the greatest of the type less one.
    fn limit() -> usize
        ensures { result ≡ most };

    // Indexes with the same number are equal.
    ghost one_each: { (i j : Self) → number i ≡ number j → i ≡ j };

    // `==` compares the numbers.
    ghost eq_is: { (i j : Self) → Self.PartialEq.eq i j ≡ (number i == number j) };

    // The number after the greatest index fits in 64 bits.
    ghost fits: { most + 1 < 2 ^ 64 };
}

/// The generation part of a pointer, as arenas need it.
///
/// Generation 0 is unused and 1 belongs to invalid pointers, so entries have the generations from `two()` on. After the greatest comes
/// `two()` again. The type `()` has one generation, which never changes.
pub trait BasePtrGen: Copy + Eq {
    // The generation as a number; 0 for `()`.
    ghost number: { Self → ℕ };

    // The greatest generation of a number type; `None` for `()`.
    ghost greatest: { Option ℕ };

    /// Returns the generation of invalid pointers.
    fn one() -> Self
        ensures { number result ≡ invalid_generation greatest };

    /// Returns the generation of a new arena.
    fn two() -> Self
        ensures value { number result ≡ first_generation greatest }
        ensures lawful { IsLawfulGeneration greatest (number result) };

    /// Returns the next generation, and whether it starts again at `two()`.
    fn generational_inc(self) -> (Self, bool)
        requires { IsLawfulGeneration greatest (number self) }
        ensures next { number result.0 ≡ next_generation greatest (number self) }
        ensures lawful { IsLawfulGeneration greatest (number result.0) }
        ensures overflow { result.1 ≡ overflows_after greatest (number self) };

    /// Returns whether an entry or an arena may have this generation. In a number type, 0 and 1 are excluded.
    fn is_lawful(self) -> bool
        ensures { IsTrue result ↔ IsLawfulGeneration greatest (number self) };

    // Generations with the same number are equal.
    ghost one_each: { (g h : Self) → number g ≡ number h → g ≡ h };

    // `==` compares the numbers.
    ghost eq_is: { (g h : Self) → Self.PartialEq.eq g h ≡ (number g == number h) };
}

/// A pointer to an entry of an arena: the index and the generation of the entry.
///
/// Arenas only copy and compare pointers, so their calls need this trait alone. Code that sorts, hashes or prints pointers of any type
/// needs [`Ptr`].
pub trait BasePtr: Copy + Eq {
    /// The type of the index.
    type Inx: BasePtrInx;

    /// The type of the generation.
    type Gen: BasePtrGen;

    // The numbers of the index and of the generation.
    ghost numbers: { Self → ℕ × ℕ };

    /// Returns the index of the entry that it names.
    fn inx(self) -> Self::Inx
        ensures { Self.Inx.number result ≡ (numbers self).0 };

    /// Returns the generation that the entry must have.
    fn generation(self) -> Self::Gen
        ensures { Self.Gen.number result ≡ (numbers self).1 };

    /// Returns a pointer that names no entry of any arena.
    fn invalid() -> Self
        ensures { numbers result ≡ (Self.Inx.most + 1, invalid_generation Self.Gen.greatest) };

    /// Returns the pointer with these numbers, whether or not it names an entry.
    #[doc(hidden)]
    fn _from_raw(inx: Self::Inx, generation: Self::Gen) -> Self
        ensures { numbers result ≡ (Self.Inx.number inx, Self.Gen.number generation) };

    // Pointers with the same numbers are equal.
    ghost one_each: { (p q : Self) → numbers p ≡ numbers q → p ≡ q };

    // `==` compares both numbers.
    ghost eq_is: { (p q : Self) → Self.PartialEq.eq p q
        ≡ (((numbers p).0 == (numbers q).0) && ((numbers p).1 == (numbers q).1)) };
}

/// The index part of a pointer, with an order, a hash and `Debug`.
pub trait PtrInx: BasePtrInx + Ord + Hash + Debug {}

/// The generation part of a pointer, with `Debug`.
pub trait PtrGen: BasePtrGen + Debug {}

/// A pointer to an entry of an arena, with an order, a hash and `Debug`.
///
/// Its members are those of [`BasePtr`]. `P0`, `Q0`, `P32`, `P8` and `PN` implement it. For a pointer type of your own, derive the other traits
/// and write `impl Ptr for` it.
pub trait Ptr: BasePtr<Inx: PtrInx, Gen: PtrGen> + Ord + Hash + Debug {}
