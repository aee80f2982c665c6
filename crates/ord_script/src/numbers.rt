//! Reading the numbers and pointers of a script.
ghost use Rattle.std.specs.Prelude.{◌≡◌, position};
ghost use Rattle.ord_script.specs.Numbers.{number_up_to, key_of, value_of, index_of, flag_of, pointer_of, is_point};

use triple_ord::{BasePtr, P0};

/// Reads a key: decimal digits, with an optional `-` before them.
pub fn key_of(word: &[u8]) -> Option<i64>
    ensures { result ≡ key_of word.now }
{
    match word {
        [b'-', digits @ ..] => {
            let magnitude = number_up_to(i64::MIN.unsigned_abs(), digits)?;
            0i64.checked_sub_unsigned(magnitude)
        }
        _ => {
            let number = number_up_to(i64::MAX.unsigned_abs(), word)?;
            Some(number as i64)
        }
    }
}

/// Reads a value or a generation: decimal digits.
pub fn value_of(word: &[u8]) -> Option<u64>
    ensures { result ≡ value_of word.now }
{
    number_up_to(u64::MAX, word)
}

/// Reads an index: decimal digits.
pub fn index_of(word: &[u8]) -> Option<u32>
    ensures { result ≡ index_of word.now }
{
    let number = number_up_to(u64::from(u32::MAX), word)?;
    Some(number as u32)
}

/// Reads a flag: the number 0 or 1.
pub fn flag_of(word: &[u8]) -> Option<bool>
    ensures { result ≡ flag_of word.now }
{
    let number = number_up_to(1, word)?;
    Some(number == 1)
}

/// Reads a pointer: an index and a generation, with a point between them.
pub fn pointer_of(word: &[u8]) -> Option<P0>
    ensures { result ≡ pointer_of word.now }
{
    let point = first_point(word)?;
    let index = index_of(&word[..point])?;
    let generation = value_of(&word[point + 1..])?;
    Some(P0::_from_raw(index, generation))
}

/// Returns the position of the first point.
fn first_point(word: &[u8]) -> Option<usize>
    ensures { result ≡ position is_point word.now }
{
    word.iter().position(|b| *b == b'.')
}

/// Returns the number in decimal digits, if it is at most `greatest`. It is exact: leading zeros are allowed, and a number that is too
/// great is never taken for another one.
fn number_up_to(greatest: u64, word: &[u8]) -> Option<u64>
    ensures { result ≡ number_up_to greatest word.now }
{
    if word.is_empty() {
        return None;
    }
    let mut number = 0;
    for digit in word {
        if !digit.is_ascii_digit() {
            return None;
        }
        let next = u128::from(number) * 10 + u128::from(*digit - b'0');
        if next > u128::from(greatest) {
            return None;
        }
        number = next as u64;
    }
    Some(number)
}
