//! Reading the command of a line.
ghost use Rattle.std.specs.Prelude.{◌≡◌};
ghost use Rattle.ord_script.specs.Commands.{said_by};
ghost use Rattle.ord_script.specs.Commands as spec;
ghost use Rattle.ord_script.specs.Script.{words_of};

use crate::cutting::Words;
use crate::fault::FaultKind;
use crate::pairs::PairCommand;
use crate::word::{command_by, word_in};

/// Returns the command of a line, or its fault; `None` if the line has no words or begins with `#`. The first word is checked first, then
/// the number of words, then each argument from the left.
pub fn command_in(line: &[u8]) -> Option<Result<PairCommand, FaultKind>>
    ensures { result ≡ said_by (words_of line.now) }
{
    let mut words = Words::new(line);
    let first = words.next()?;
    if first.starts_with(b"#") {
        return None;
    }
    Some(command_of(first, words))
}

fn command_of(first: &[u8], arguments: Words<'_>) -> Result<PairCommand, FaultKind>
    ensures { result ≡ spec.command_of first.now arguments.entry }
{
    let word = word_in(first).ok_or(FaultKind::UnknownCommand)?;
    command_by(word, arguments)
}
