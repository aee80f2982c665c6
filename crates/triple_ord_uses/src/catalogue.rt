//! A catalogue of books by number, with its own item type and pointer type.

ghost use Rattle.std.specs.Prelude.{◌≡◌, ◌≢◌, ◌+◌, ℕ, false, Some, IfOk, OnErr, IfSome, IsSomeAnd, is_some, refl, if◌then◌else◌};
ghost use Rattle.std.specs.Option.{option_map};
ghost use Rattle.triple_ord.specs.Arena.{item_of, count};

use std::alloc::Global;
use std::marker::Model;
use triple_ord::{BasePtr, OrdInsertionError, Ptr, SimpleOrdArena, SimpleOrdItem};

/// The pointer of a book: its own type, so that no other pointer is mistaken for it.
#[derive(Clone, Copy, PartialEq, Eq, PartialOrd, Ord, Hash, Debug)]
pub struct BookPtr {
    inx: u32,
    generation: u64,
}

impl Model for BookPtr {
    ghost Value = { ℕ × ℕ };

    ghost view = { λ p. (p.inx, p.generation) };

    ghost inverse = { λ p. record { inx = p.0; generation = p.1 } };
}

impl BasePtr for BookPtr {
    type Inx = u32;

    type Gen = u64;

    ghost numbers = { λ p. p };

    ghost one_each = { λ p q e. e };

    ghost eq_is = { λ p q. refl };

    fn inx(self) -> u32 {
        self.inx
    }

    fn generation(self) -> u64 {
        self.generation
    }

    fn invalid() -> BookPtr {
        BookPtr {
            inx: u32::MAX,
            generation: 1,
        }
    }

    fn _from_raw(inx: u32, generation: u64) -> BookPtr {
        BookPtr { inx, generation }
    }
}

impl Ptr for BookPtr {}

/// A book: its number, by which it is found, and its number of pages.
#[derive(Clone, Copy, PartialEq, Eq, Debug)]
pub struct Book {
    pub number: u64,
    pub pages: u64,
}

impl SimpleOrdItem for Book {
    type Key = u64;

    ghost key_of = { λ r. r.number };

    fn key(&self) -> &u64 {
        &self.number
    }
}

/// Books by number.
pub type Catalogue = SimpleOrdArena<BookPtr, Book>;

/// Adds a book to the catalogue, replacing the one with its number, if any.
pub fn put(catalogue: &mut Catalogue, book: Book) -> Result<BookPtr, OrdInsertionError>
    ensures finds { IfOk result (λ p. item_of catalogue.new p ≡ Some book) }
    ensures others { IfOk result (λ p. (q : ℕ × ℕ) → q ≢ p
        → item_of catalogue.new q ≡ item_of catalogue.old q) }
    ensures refused { OnErr result (catalogue.new ≡ catalogue.old) }
{
    let (p, _) = catalogue.insert(book)?;
    Ok(p)
}

/// Returns the number of pages of a book.
pub fn pages(catalogue: &Catalogue, p: BookPtr) -> Option<u64>
    ensures { result ≡ option_map (λ r. r.pages) (item_of catalogue.now p) }
{
    Some(catalogue.get(p)?.pages)
}

/// Returns the pointer of a book with this number.
pub fn find(catalogue: &Catalogue, number: u64) -> Option<BookPtr>
    ensures { IfSome result
        (λ p. IsSomeAnd (item_of catalogue.now p) (λ book. book.number ≡ number)) }
{
    catalogue.find_key(&number)
}

/// Gives a book another number, and returns its new pointer, or `None` if the old pointer names no book. A book that already has the
/// number is replaced. On `Err` the book is gone.
pub fn renumber(
    catalogue: &mut Catalogue,
    p: BookPtr,
    number: u64,
) -> Result<Option<BookPtr>, OrdInsertionError>
    ensures finds { IfOk result (λ o. IfSome o (λ q. item_of catalogue.new q
        ≡ option_map (λ b. record { number = number; pages = b.pages })
        (item_of catalogue.old p))) }
    ensures none { IfOk result (λ o. is_some o ≡ is_some (item_of catalogue.old p)) }
{
    let Some(book) = catalogue.remove(p).allow() else {
        return Ok(None);
    };
    let q = put(catalogue, Book { number, ..book })?;
    Ok(Some(q))
}

/// Removes the first book, if any, and returns it.
pub fn take_first(catalogue: &mut Catalogue) -> Option<Book>
    ensures count { count catalogue.old
        ≡ (if is_some result then count catalogue.new + 1 else count catalogue.new) }
    ensures none { is_some result ≡ false → count catalogue.old ≡ 0 }
{
    let p = catalogue.first()?;
    catalogue.remove(p).allow()
}
