//! `TimelineValue`: what a timeline holds.

ghost use Rattle.std.specs.Prelude.{◌≡◌, ◌↔◌, IsTrue, IfOk, IfErr, IsSomeAnd};
ghost use Rattle.std.specs.Option.{option_copied};

use std::alloc::AllocError;

/// A value that a timeline holds: two values that are `==` are one, and a clone is the value that it was made of.
///
/// A type with memory of its own, as `String`, goes into a struct with an `impl Model` that shows the text alone.
pub trait TimelineValue: Clone + Eq {
    // values are equal where they are the same, and only there
    ghost eq_is: { (x y : Self) → IsTrue (Self.PartialEq.eq x y) ↔ (x ≡ y) };

    // a clone is the same
    ghost clone_is: { (x y : Self) → Self.is_clone x y → y ≡ x };
}

impl TimelineValue for bool {
    ghost use Rattle.std.specs.Cmp.{booleans_Decides};

    ghost eq_is = { booleans_Decides };

    ghost clone_is = { λ x y is. is };
}

impl TimelineValue for u8 {
    ghost use Rattle.std.specs.Cmp.{unsigned_Decides};

    ghost eq_is = { unsigned_Decides };

    ghost clone_is = { λ x y is. is };
}

impl TimelineValue for u32 {
    ghost use Rattle.std.specs.Cmp.{unsigned_Decides};

    ghost eq_is = { unsigned_Decides };

    ghost clone_is = { λ x y is. is };
}

impl TimelineValue for u64 {
    ghost use Rattle.std.specs.Cmp.{unsigned_Decides};

    ghost eq_is = { unsigned_Decides };

    ghost clone_is = { λ x y is. is };
}

/// Whether two are the same value, or both none.
pub(crate) fn is_same<V: TimelineValue>(a: Option<&V>, b: Option<&V>) -> bool
    ensures { IsTrue result ↔ (option_copied a.entry ≡ option_copied b.entry) }
{
    match (a, b) {
        (Some(a), Some(b)) => *a == *b,
        (None, None) => true,
        _ => false,
    }
}

/// A clone of a value, or none.
pub(crate) fn clone_of<V: TimelineValue>(value: Option<&V>) -> Result<Option<V>, AllocError>
    ensures same { IfOk result (λ clone. clone ≡ option_copied value.entry) }
    ensures refused { IfErr result
        (λ _. IsSomeAnd (option_copied value.entry) (λ v. ¬ (V.is_infallible v))) }
{
    match value {
        Some(value) => match value.clone() {
            Ok(clone) => Ok(Some(clone)),
            Err(refused) => Err(refused),
        },
        None => Ok(None),
    }
}
