//! The first words of commands: their text, and the command that each begins.
ghost use Rattle.std.specs.Prelude.{◌≡◌};
ghost use Rattle.ord_script.specs.Commands.{word_text, all_words, word_in, without_arguments, command_by, nonhereditary, linear, nonhereditary_linear, entry_beside, set, rekey, find_linear, similar_linear};

use crate::arguments::arguments_in;
use crate::cutting::Words;
use crate::fault::FaultKind;
use crate::pairs::{Pair, PairCommand};
use ord_machine::Command;
use std::cmp::Ordering;
use triple_ord::{OrdInsertKind, P0};

/// The first word of a command.
#[derive(Clone, Copy, Debug)]
pub enum Word {
    Insert,
    Within,
    Empty,
    Nonhereditary,
    Linear,
    NonhereditaryLinear,
    Before,
    At,
    After,
    Set,
    Rekey,
    Remove,
    RemoveInx,
    Invalidate,
    Clear,
    IncGeneration,
    Compress,
    Canonical,
    Find,
    FindLinear,
    Similar,
    SimilarLinear,
    Visits,
    Get,
    First,
    Last,
    Neighbours,
    List,
    Ranks,
    Check,
    Reserve,
    SetMax,
    DrainOrdered,
    Stats,
}

/// All words.
const WORDS: [Word; 34] = [
    Word::Insert,
    Word::Within,
    Word::Empty,
    Word::Nonhereditary,
    Word::Linear,
    Word::NonhereditaryLinear,
    Word::Before,
    Word::At,
    Word::After,
    Word::Set,
    Word::Rekey,
    Word::Remove,
    Word::RemoveInx,
    Word::Invalidate,
    Word::Clear,
    Word::IncGeneration,
    Word::Compress,
    Word::Canonical,
    Word::Find,
    Word::FindLinear,
    Word::Similar,
    Word::SimilarLinear,
    Word::Visits,
    Word::Get,
    Word::First,
    Word::Last,
    Word::Neighbours,
    Word::List,
    Word::Ranks,
    Word::Check,
    Word::Reserve,
    Word::SetMax,
    Word::DrainOrdered,
    Word::Stats,
];

impl Word {
    /// Returns the text of the word in a script.
    pub fn text(self) -> &'static str
        ensures { result.now ≡ word_text self }
    {
        match self {
            Word::Insert => "insert",
            Word::Within => "within",
            Word::Empty => "empty",
            Word::Nonhereditary => "nonhereditary",
            Word::Linear => "linear",
            Word::NonhereditaryLinear => "nonhereditary-linear",
            Word::Before => "before",
            Word::At => "at",
            Word::After => "after",
            Word::Set => "set",
            Word::Rekey => "rekey",
            Word::Remove => "remove",
            Word::RemoveInx => "remove-index",
            Word::Invalidate => "invalidate",
            Word::Clear => "clear",
            Word::IncGeneration => "next-generation",
            Word::Compress => "compress",
            Word::Canonical => "canonical",
            Word::Find => "find",
            Word::FindLinear => "find-linear",
            Word::Similar => "similar",
            Word::SimilarLinear => "similar-linear",
            Word::Visits => "visits",
            Word::Get => "get",
            Word::First => "first",
            Word::Last => "last",
            Word::Neighbours => "neighbours",
            Word::List => "list",
            Word::Ranks => "ranks",
            Word::Check => "check",
            Word::Reserve => "reserve",
            Word::SetMax => "max",
            Word::DrainOrdered => "drain",
            Word::Stats => "stats",
        }
    }
}

/// Returns the word with this text.
pub fn word_in(text: &[u8]) -> Option<Word>
    ensures { result ≡ word_in all_words text.now }
{
    for word in WORDS {
        if text == word.text().as_bytes() {
            return Some(word);
        }
    }
    None
}

/// Returns the command that begins with a word, read from the words behind it.
pub fn command_by(word: Word, arguments: Words<'_>) -> Result<PairCommand, FaultKind>
    ensures { result ≡ command_by word arguments.entry }
{
    match word {
        Word::Insert => Ok(Command::Insert(arguments_in(arguments)?)),
        Word::Within => Ok(Command::InsertWithin(arguments_in(arguments)?)),
        Word::Empty => Ok(Command::Entry(OrdInsertKind::Empty, arguments_in(arguments)?)),
        Word::Nonhereditary => Ok(nonhereditary(arguments_in(arguments)?)),
        Word::Linear => Ok(linear(arguments_in(arguments)?)),
        Word::NonhereditaryLinear => Ok(nonhereditary_linear(arguments_in(arguments)?)),
        Word::Before => Ok(entry_beside(Ordering::Less, arguments_in(arguments)?)),
        Word::At => Ok(entry_beside(Ordering::Equal, arguments_in(arguments)?)),
        Word::After => Ok(entry_beside(Ordering::Greater, arguments_in(arguments)?)),
        Word::Set => Ok(set(arguments_in(arguments)?)),
        Word::Rekey => Ok(rekey(arguments_in(arguments)?)),
        Word::Remove => Ok(Command::Remove(arguments_in(arguments)?)),
        Word::RemoveInx => Ok(Command::RemoveInx(arguments_in(arguments)?)),
        Word::Invalidate => Ok(Command::Invalidate(arguments_in(arguments)?)),
        Word::Clear => without_arguments(Command::Clear, arguments),
        Word::IncGeneration => without_arguments(Command::IncGeneration, arguments),
        Word::Compress => Ok(Command::Compress(arguments_in(arguments)?)),
        Word::Canonical => Ok(Command::Canonical(arguments_in(arguments)?)),
        Word::Find => Ok(Command::Find(arguments_in(arguments)?)),
        Word::FindLinear => Ok(find_linear(arguments_in(arguments)?)),
        Word::Similar => Ok(Command::Similar(arguments_in(arguments)?)),
        Word::SimilarLinear => Ok(similar_linear(arguments_in(arguments)?)),
        Word::Visits => Ok(Command::Visits(arguments_in(arguments)?)),
        Word::Get => Ok(Command::Get(arguments_in(arguments)?)),
        Word::First => without_arguments(Command::First, arguments),
        Word::Last => without_arguments(Command::Last, arguments),
        Word::Neighbours => Ok(Command::Neighbours(arguments_in(arguments)?)),
        Word::List => without_arguments(Command::List, arguments),
        Word::Ranks => without_arguments(Command::Ranks, arguments),
        Word::Check => without_arguments(Command::Check, arguments),
        Word::Reserve => Ok(Command::Reserve(arguments_in(arguments)?)),
        Word::SetMax => Ok(Command::SetMax(arguments_in(arguments)?)),
        Word::DrainOrdered => Ok(Command::DrainOrdered(arguments_in(arguments)?)),
        Word::Stats => without_arguments(Command::Stats, arguments),
    }
}

/// Returns the insertion of a pair as a new entry beside those with an equal key.
fn nonhereditary(pair: Pair) -> PairCommand
    ensures { result ≡ nonhereditary pair }
{
    Command::Entry(OrdInsertKind::Nonhereditary(*pair.k()), pair)
}

/// Returns the insertion of a pair by its key, from a hint: an index and a number of steps.
fn linear(arguments: (u32, (usize, Pair))) -> PairCommand
    ensures { result ≡ linear arguments }
{
    let (p_init, (num, pair)) = arguments;
    let k = *pair.k();
    Command::Entry(OrdInsertKind::Linear { p_init, num, k }, pair)
}

/// Returns the same insertion, as a new entry beside those with an equal key.
fn nonhereditary_linear(arguments: (u32, (usize, Pair))) -> PairCommand
    ensures { result ≡ nonhereditary_linear arguments }
{
    let (p_init, (num, pair)) = arguments;
    let k = *pair.k();
    Command::Entry(OrdInsertKind::NonhereditaryLinear { p_init, num, k }, pair)
}

/// Returns the insertion of a pair before, at or after the entry with an index.
fn entry_beside(direction: Ordering, arguments: (u32, Pair)) -> PairCommand
    ensures { result ≡ entry_beside direction arguments }
{
    let (p_target, pair) = arguments;
    Command::Entry(
        OrdInsertKind::Manual {
            p_target,
            direction,
        },
        pair,
    )
}

/// Returns the replacement of the item of a pointer's entry.
fn set(arguments: (P0, Pair)) -> PairCommand
    ensures { result ≡ set arguments }
{
    let (p, pair) = arguments;
    Command::Set(p, pair)
}

/// Returns the same replacement, with a move of the entry to the place of the new key.
fn rekey(arguments: (P0, Pair)) -> PairCommand
    ensures { result ≡ rekey arguments }
{
    let (p, pair) = arguments;
    Command::Rekey(p, pair)
}

/// Returns the search for a key from the entry of a pointer.
fn find_linear(arguments: (P0, (usize, i64))) -> PairCommand
    ensures { result ≡ find_linear arguments }
{
    let (p, (num, key)) = arguments;
    Command::FindLinear(p, num, key)
}

/// Returns the search for a similar key from the entry at an index.
fn similar_linear(arguments: (u32, (usize, i64))) -> PairCommand
    ensures { result ≡ similar_linear arguments }
{
    let (i, (num, key)) = arguments;
    Command::SimilarLinear(i, num, key)
}

/// Returns a command without arguments.
fn without_arguments(command: PairCommand, arguments: Words<'_>) -> Result<PairCommand, FaultKind>
    ensures { result ≡ without_arguments command arguments.entry }
{
    arguments_in::<()>(arguments)?;
    Ok(command)
}
