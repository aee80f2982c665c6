//! `Text`: a string that a timeline can hold.

use crate::value::TimelineValue;
use std::alloc::{AllocError, Allocator, Global};
use std::fmt;
use std::marker::Model;

/// A string as a value of a timeline. In contracts it is its bytes, so two texts are one if they read the same.
#[derive(Drop)]
pub struct Text<A: Allocator = Global> {
    string: String<A>,
}

impl<A: Allocator> Model for Text<A> {
    ghost use Rattle.std.specs.Prelude.{ℕ, List, string_bytes};

    ghost Value = { List ℕ };

    ghost view = { λ t. string_bytes t.string };
}

impl<A: Allocator> Text<A> {
    ghost use Rattle.std.specs.Prelude.{◌≡◌, string_bytes};

    /// Makes a text of a string.
    pub fn new(string: String<A>) -> Text<A>
        ensures { result ≡ string_bytes string }
    {
        Text { string }
    }

    /// The string.
    pub fn as_str(&self) -> &str
        ensures { result.now ≡ self.now }
    {
        self.string.as_str()
    }
}

impl<A: Allocator + Clone> Clone for Text<A> {
    ghost use Rattle.std.specs.Prelude.{◌≡◌};

    ghost is_clone = { λ x y. y ≡ x };

    fn clone(&self) -> Result<Text<A>, AllocError> {
        Ok(Text {
            string: self.string.clone()?,
        })
    }
}

impl<A: Allocator> PartialEq for Text<A> {
    ghost use Rattle.std.specs.Prelude.{nat_eq};
    ghost use Rattle.std.specs.Cmp.{partial_equiv_from_equiv};
    ghost use Rattle.std.specs.Cmp.Lexicographic.{pointwise, nat_list_eq_equiv};

    ghost eq = { pointwise nat_eq };

    ghost laws = { partial_equiv_from_equiv nat_list_eq_equiv };

    fn eq(&self, other: &Text<A>) -> bool {
        *self.as_str() == *other.as_str()
    }
}

impl<A: Allocator> Eq for Text<A> {
    ghost use Rattle.std.specs.Cmp.Lexicographic.{nat_list_eq_equiv};

    ghost laws = { nat_list_eq_equiv };
}

impl<A: Allocator + Clone> TimelineValue for Text<A> {
    ghost use Rattle.std.specs.Cmp.Lexicographic.{bytes_decides};

    ghost eq_is = { bytes_decides };

    ghost clone_is = { λ x y is. is };
}

impl<A: Allocator> fmt::Debug for Text<A> {
    fn fmt<W: fmt::Write>(&self, f: &mut fmt::Formatter<W>) -> fmt::Result {
        self.string.fmt(f)
    }
}
