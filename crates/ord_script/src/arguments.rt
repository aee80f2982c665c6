//! Reading the arguments of a command.
ghost use Rattle.std.specs.Prelude.{◌≡◌, None, Some, MatchOption};
ghost use Rattle.ord_script.specs.Arguments.{arguments_in};

use crate::cutting::Words;
use crate::fault::FaultKind;
use crate::numbers::{flag_of, index_of, key_of, pointer_of, value_of};
use crate::pairs::Pair;
use triple_ord::{OrdPair, P0};

/// A value read from some words of a line.
pub trait Arguments: Sized + Drop {
    ghost use Rattle.ord_script.specs.Arguments.{Reader};

    ghost reader: { Reader Self };

    /// Reads a value from the front of the words: `None` if there are too few, `Some(None)` if one of them is invalid.
    fn read(words: &mut Words<'_>) -> Option<Option<Self>>
        ensures { MatchOption result (reader words.old ≡ None)
            (λ read. reader words.old ≡ Some (read, words.new)) };
}

/// Reads a value from all of the words. Their number is checked first.
#[tactic(auto, unfolding(crate::specs::Arguments::arguments_in))]
pub fn arguments_in<T: Arguments>(mut words: Words<'_>) -> Result<T, FaultKind>
    ensures { result ≡ arguments_in T.reader words.entry }
{
    let read = T::read(&mut words).ok_or(FaultKind::WrongArguments)?;
    if words.next().is_some() {
        return Err(FaultKind::WrongArguments);
    }
    read.ok_or(FaultKind::BadNumber)
}

/// No argument.
impl Arguments for () {
    ghost use Rattle.ord_script.specs.Arguments.{nothing};

    ghost reader = { nothing };

    fn read(_words: &mut Words<'_>) -> Option<Option<()>> {
        Some(Some(()))
    }
}

/// A key.
impl Arguments for i64 {
    ghost use Rattle.ord_script.specs.Arguments.{one};
    ghost use Rattle.ord_script.specs.Numbers.{key_of};

    ghost reader = { one key_of };

    fn read(words: &mut Words<'_>) -> Option<Option<i64>> {
        let word = words.next()?;
        Some(key_of(word))
    }
}

/// A value.
impl Arguments for u64 {
    ghost use Rattle.ord_script.specs.Arguments.{one};
    ghost use Rattle.ord_script.specs.Numbers.{value_of};

    ghost reader = { one value_of };

    fn read(words: &mut Words<'_>) -> Option<Option<u64>> {
        let word = words.next()?;
        Some(value_of(word))
    }
}

/// An index.
impl Arguments for u32 {
    ghost use Rattle.ord_script.specs.Arguments.{one};
    ghost use Rattle.ord_script.specs.Numbers.{index_of};

    ghost reader = { one index_of };

    fn read(words: &mut Words<'_>) -> Option<Option<u32>> {
        let word = words.next()?;
        Some(index_of(word))
    }
}

/// A pointer.
impl Arguments for P0 {
    ghost use Rattle.ord_script.specs.Arguments.{one};
    ghost use Rattle.ord_script.specs.Numbers.{pointer_of};

    ghost reader = { one pointer_of };

    fn read(words: &mut Words<'_>) -> Option<Option<P0>> {
        let word = words.next()?;
        Some(pointer_of(word))
    }
}

/// A number of steps or of entries.
impl Arguments for usize {
    ghost use Rattle.ord_script.specs.Arguments.{one};
    ghost use Rattle.ord_script.specs.Numbers.{value_of};

    ghost reader = { one value_of };

    fn read(words: &mut Words<'_>) -> Option<Option<usize>> {
        let word = words.next()?;
        Some(value_of(word).map(|count| count as usize))
    }
}

/// A flag.
impl Arguments for bool {
    ghost use Rattle.ord_script.specs.Arguments.{one};
    ghost use Rattle.ord_script.specs.Numbers.{flag_of};

    ghost reader = { one flag_of };

    fn read(words: &mut Words<'_>) -> Option<Option<bool>> {
        let word = words.next()?;
        Some(flag_of(word))
    }
}

/// A key and its value.
impl Arguments for Pair {
    ghost use Rattle.ord_script.specs.Arguments.{key_and_value};

    ghost reader = { key_and_value };

    fn read(words: &mut Words<'_>) -> Option<Option<Pair>> {
        let pair = <(i64, u64)>::read(words)?;
        Some(pair.map(|(key, value)| OrdPair::new(key, value)))
    }
}

/// Two values, one after the other.
impl<A: Arguments, B: Arguments> Arguments for (A, B) {
    ghost use Rattle.ord_script.specs.Arguments.{both};

    ghost reader = { both A.reader B.reader };

    fn read(words: &mut Words<'_>) -> Option<Option<(A, B)>> {
        let first = A::read(words)?;
        let second = B::read(words)?;
        Some(first.zip(second))
    }
}
