//! Numbers as words of a line.

ghost use Rattle.std.specs.Prelude.{◌≡◌, ◌↔◌, ◌<◌, ◌^◌, Err, None, IfOk, IfSome, IsOk, IsSomeAnd};
ghost use Rattle.std.specs.Str.Parse.{IsNumeral, digits_value};

use thiserror::Error;

/// Why a word is no number.
#[derive(Debug, Clone, Copy, PartialEq, Eq, Drop, Error)]
pub enum NumberError {
    /// There is no word.
    #[error("a number is missing")]
    Missing,
    /// The word has something else in it than decimal digits, such as a sign.
    #[error("not a number")]
    NotDecimal,
    /// The number is above 18,446,744,073,709,551,615.
    #[error("a number is too large")]
    TooLarge,
}

/// Returns the number that a word spells in decimal digits alone.
///
/// # Errors
///
/// - `Missing`: there is no word.
/// - `NotDecimal`: the word is empty or has something else in it than digits, as `+1` has.
/// - `TooLarge`: the number has more than 64 bits.
pub fn number(word: Option<&str>) -> Result<u64, NumberError>
    ensures missing { (result ≡ Err NumberError.Missing) ↔ (word.entry ≡ None) }
    ensures value { IfOk result (λ n.
        IsSomeAnd word.entry (λ w. IsNumeral 10 w.now × (n ≡ digits_value 10 w.now))) }
    ensures ok { IfSome word.entry (λ w.
        IsNumeral 10 w.now → digits_value 10 w.now < 2 ^ 64 → IsOk result) }
{
    let Some(word) = word else {
        return Err(NumberError::Missing);
    };
    // `parse` would accept a plus sign.
    if let [b'+', ..] = word.as_bytes() {
        return Err(NumberError::NotDecimal);
    }
    match word.parse::<u64>() {
        Ok(number) => Ok(number),
        Err(_) if !word.is_empty() && word.bytes().all(|byte| byte.is_ascii_digit()) => {
            Err(NumberError::TooLarge)
        }
        Err(_) => Err(NumberError::NotDecimal),
    }
}
