//! Results of calls that end or renew a pointer, and so raise the arena's generation.
ghost use Rattle.std.specs.Prelude.{◌≡◌, ◌↔◌, IsSome, MatchOption, IfSome, Some};
ghost use Rattle.std.specs.Option.{ForSome};

/// The result of a call on a pointer.
#[derive(Debug, Clone, Copy, PartialEq, Eq, Drop)]
pub enum InvalidationResult<T> {
    /// The pointer was valid, and the generations didn't overflow.
    Success(T),
    /// The pointer was valid, and the generations overflowed: old pointers may become valid again.
    GenerationOverflow(T),
    /// The pointer named no entry, and nothing changed.
    InvalidPtr,
}

/// The result of a call that always succeeds.
#[derive(Debug, Clone, Copy, PartialEq, Eq, Drop)]
pub enum InvalidationOption<T> {
    /// The generations didn't overflow.
    Success(T),
    /// The generations overflowed: old pointers may become valid again.
    GenerationOverflow(T),
}

impl<T> InvalidationResult<T> {
    ghost use Rattle.arena_base.specs.Invalidation.{valid_value, has_overflowed, allowed_value, is_overflow};

    /// Returns the value, with or without an overflow; `None` for an invalid pointer.
    pub fn allow(self) -> Option<T>
        ensures { result ≡ valid_value self }
    {
        match self {
            InvalidationResult::Success(value) | InvalidationResult::GenerationOverflow(value) => {
                Some(value)
            }
            InvalidationResult::InvalidPtr => None,
        }
    }

    /// Applies `f` to the value, if any. An overflow stays one.
    pub fn map<U, F: FnOnce(T) -> U + Drop>(self, f: F) -> InvalidationResult<U>
        requires { ForSome (valid_value self) (F.pre f) }
        ensures value { MatchOption (valid_value self) (result ≡ InvalidationResult.InvalidPtr)
            (λ x. IfSome (valid_value result) (F.post f x)) }
        ensures variant { IsSome (valid_value self) ↔ IsSome (valid_value result) }
        ensures overflow { has_overflowed result ≡ has_overflowed self }
    {
        match self {
            InvalidationResult::Success(value) => InvalidationResult::Success(f(value)),
            InvalidationResult::GenerationOverflow(value) => {
                InvalidationResult::GenerationOverflow(f(value))
            }
            InvalidationResult::InvalidPtr => InvalidationResult::InvalidPtr,
        }
    }

    /// Converts the result for a pointer that is known to have been valid.
    pub fn unwrap(self) -> InvalidationOption<T>
        requires { IsSome (valid_value self) }
        ensures value { valid_value self ≡ Some (allowed_value result) }
        ensures overflow { is_overflow result ≡ has_overflowed self }
    {
        match self {
            InvalidationResult::Success(value) => InvalidationOption::Success(value),
            InvalidationResult::GenerationOverflow(value) => {
                InvalidationOption::GenerationOverflow(value)
            }
            InvalidationResult::InvalidPtr => unreachable!(),
        }
    }
}

impl<T> InvalidationOption<T> {
    ghost use Rattle.arena_base.specs.Invalidation.{valid_value, has_overflowed, allowed_value, is_overflow};

    /// Converts the result to that of a call on a valid pointer.
    pub fn valid(self) -> InvalidationResult<T>
        ensures value { valid_value result ≡ Some (allowed_value self) }
        ensures overflow { has_overflowed result ≡ is_overflow self }
    {
        match self {
            InvalidationOption::Success(value) => InvalidationResult::Success(value),
            InvalidationOption::GenerationOverflow(value) => {
                InvalidationResult::GenerationOverflow(value)
            }
        }
    }

    /// Returns the value, with or without an overflow.
    pub fn allow(self) -> T
        ensures { result ≡ allowed_value self }
    {
        match self {
            InvalidationOption::Success(value) | InvalidationOption::GenerationOverflow(value) => {
                value
            }
        }
    }

    /// Applies `f` to the value. An overflow stays one.
    pub fn map<U, F: FnOnce(T) -> U>(self, f: F) -> InvalidationOption<U>
        requires { F.pre f (allowed_value self) }
        ensures value { F.post f (allowed_value self) (allowed_value result) }
        ensures overflow { is_overflow result ≡ is_overflow self }
    {
        match self {
            InvalidationOption::Success(value) => InvalidationOption::Success(f(value)),
            InvalidationOption::GenerationOverflow(value) => {
                InvalidationOption::GenerationOverflow(f(value))
            }
        }
    }
}
