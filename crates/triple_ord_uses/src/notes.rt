//! Notes by time, with an item that owns text: how such an item defines what its clone is.

ghost use Rattle.std.specs.Prelude.{◌≡◌, ℕ, Some, IfOk, OnErr};
ghost use Rattle.triple_ord.specs.Arena.{item_of, count, FindSame};

use std::alloc::AllocError;
use std::marker::Model;
use triple_ord::{BasePtr, OrdInsertionError, P0, SimpleOrdArena, SimpleOrdItem};

/// A note: the time by which it is found, and its text.
#[derive(Drop)]
pub struct Note {
    time: u64,
    text: String,
}

// In clauses a note is its time and the bytes of its text; the capacity of the text doesn't count. So a clone, whose text may have
// another capacity, is the same note.
impl Model for Note {
    ghost use Rattle.std.specs.Prelude.{ℕ, List, string_bytes};

    ghost Value = { ℕ × List ℕ };

    ghost view = { λ n. (n.time, string_bytes n.text) };
}

impl Clone for Note {
    ghost is_clone = { λ x y. y ≡ x };

    fn clone(&self) -> Result<Note, AllocError> {
        Ok(Note {
            time: self.time,
            text: self.text.clone()?,
        })
    }
}

impl SimpleOrdItem for Note {
    type Key = u64;

    ghost key_of = { λ n. n.0 };

    fn key(&self) -> &u64 {
        &self.time
    }
}

/// Notes by time.
pub type Notes = SimpleOrdArena<P0, Note>;

/// Adds a note.
pub fn put(notes: &mut Notes, note: Note) -> Result<P0, OrdInsertionError>
    ensures finds { IfOk result (λ p. item_of notes.new p ≡ Some note) }
    ensures refused { OnErr result (notes.new ≡ notes.old) }
{
    let (p, _) = notes.insert(note)?;
    Ok(p)
}

/// Returns a copy of all notes, in which each pointer finds the same note.
pub fn copy(notes: &Notes) -> Result<Notes, AllocError>
    ensures found { IfOk result (λ all. FindSame notes.now all) }
    ensures count { IfOk result (λ all. count all ≡ count notes.now) }
{
    notes.clone()
}
