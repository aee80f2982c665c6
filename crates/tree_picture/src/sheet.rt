//! Pictures in rows.
ghost use Rattle.std.specs.Prelude.{◌≡◌, ◌+◌, ◌≤◌, ◌<◌, ◌↔◌, ◌⊎◌, ◌++◌, ◌∷◌, [], max, map, length, IsErrOf, OnOk, OnErr, string_bytes, vec_capacity, vec_len};
ghost use Rattle.tree_picture.specs.Text.{shortened_text};
ghost use Rattle.tree_picture.specs.Layout.{text_width, caption_height, panel_width, panel_height};
ghost use Rattle.tree_picture.specs.Rows.{next_left, next_top};

use crate::error::PictureError;
use crate::key_text::{char_count, shortened};
use crate::picture::Picture;
use crate::place::MARGIN;
use std::alloc::{Allocator, Global};

/// The number of characters of a caption that are shown.
pub const CAPTION_CHARS: usize = 56;

/// The width of a character, in pixels.
pub const CHARACTER_WIDTH: u32 = 7;

/// The height of the line of a caption, in pixels.
pub const CAPTION_HEIGHT: u32 = 24;

/// The number of pictures in a row.
pub const PANELS_A_ROW: usize = 3;

/// The greatest width and the greatest height of a sheet, in pixels.
pub const MOST_SIDE: u32 = 2_000_000;

/// A picture with its caption, somewhere on a sheet.
#[derive(Drop)]
pub struct Panel<P, A: Allocator = Global> {
    /// Where it begins from the left, in pixels.
    pub left: u32,
    /// Where it begins from the top, in pixels.
    pub top: u32,
    /// The caption, as far as it fits; may be empty.
    pub caption: String<A>,
    /// The picture.
    pub picture: Picture<P, A>,
}

/// Pictures in rows of [`PANELS_A_ROW`], from left to right.
#[derive(Drop)]
pub struct Sheet<P, A: Allocator = Global> {
    /// The pictures.
    pub panels: Vec<Panel<P, A>, A>,
    /// The width of the widest row, in pixels.
    pub width: u32,
    /// The height of all rows, in pixels.
    pub height: u32,
    /// Where the last row begins from the top, in pixels.
    pub row_top: u32,
    /// Where the last row ends from the left, in pixels.
    pub row_end: u32,
}

/// Returns the width of a key or a caption, in pixels.
pub(crate) fn text_width(text: &str) -> u32
    ensures { result ≡ text_width text.now }
{
    CHARACTER_WIDTH * char_count(text).min(CAPTION_CHARS) as u32
}

/// Returns how far below its caption's upper end a picture begins, in pixels.
pub(crate) fn caption_height(caption: &str) -> u32
    ensures { result ≡ caption_height caption.now }
{
    if caption.is_empty() {
        0
    } else {
        CAPTION_HEIGHT
    }
}

/// Returns the width of a panel, in pixels: that of its picture, or that of its caption if it is wider.
fn panel_width<P, A: Allocator>(caption: &str, picture: &Picture<P, A>) -> u32
    ensures { result ≡ panel_width caption.now (length picture.now.nodes.items) }
{
    picture.width().max(2 * MARGIN + text_width(caption))
}

/// Returns the height of a panel, in pixels: that of its picture and of its caption.
fn panel_height<P, A: Allocator>(caption: &str, picture: &Picture<P, A>) -> u32
    ensures { result ≡ panel_height caption.now picture.now.levels }
{
    caption_height(caption) + picture.height()
}

impl<P: Drop, A: Allocator + Copy> Sheet<P, A> {
    /// Creates a sheet without pictures.
    pub fn new(alloc: A) -> Self
        ensures panels { result.panels.items ≡ [] }
        ensures width { result.width ≡ 0 }
        ensures height { result.height ≡ 0 }
        ensures row { (result.row_top ≡ 0) × (result.row_end ≡ 0) }
    {
        Sheet {
            panels: Vec::new(alloc),
            width: 0,
            height: 0,
            row_top: 0,
            row_end: 0,
        }
    }

    /// Returns where the next picture begins from the left.
    fn next_left(&self) -> u32
        ensures { result ≡ next_left self.now }
    {
        if self.panels.len() % PANELS_A_ROW == 0 {
            0
        } else {
            self.row_end
        }
    }

    /// Returns where the next picture begins from the top.
    fn next_top(&self) -> u32
        ensures { result ≡ next_top self.now }
    {
        if self.panels.len() % PANELS_A_ROW == 0 {
            self.height
        } else {
            self.row_top
        }
    }

    /// Adds a picture at the end of the last row, or in a row of its own below if that one is full, under a caption, of which at most
    /// [`CAPTION_CHARS`] characters are shown.
    ///
    /// # Errors
    ///
    /// The sheet is unchanged and the picture is dropped.
    /// - `TooLarge`: the sheet would be wider or higher than [`MOST_SIDE`].
    /// - `AllocError`: an allocation failed. None is needed for an empty caption if the list of panels has room.
    pub fn push(
        &mut self,
        alloc: A,
        caption: &str,
        picture: Picture<P, A>,
    ) -> Result<(), PictureError>
        ensures lefts { OnOk result (map (λ p. p.left) self.new.panels.items
            ≡ map (λ p. p.left) self.old.panels.items ++ next_left self.old ∷ []) }
        ensures tops { OnOk result (map (λ p. p.top) self.new.panels.items
            ≡ map (λ p. p.top) self.old.panels.items ++ next_top self.old ∷ []) }
        ensures captions { OnOk result (map (λ p. string_bytes p.caption) self.new.panels.items
            ≡ map (λ p. string_bytes p.caption) self.old.panels.items
            ++ shortened_text CAPTION_CHARS caption.now ∷ []) }
        ensures pictures { OnOk result (map (λ p. p.picture) self.new.panels.items
            ≡ map (λ p. p.picture) self.old.panels.items ++ picture ∷ []) }
        ensures row { OnOk result ((self.new.row_top ≡ next_top self.old)
            × (self.new.row_end
            ≡ next_left self.old + panel_width caption.now (length picture.nodes.items))) }
        ensures width { OnOk result (self.new.width ≡ max self.old.width self.new.row_end) }
        ensures height { OnOk result (self.new.height
            ≡ max self.old.height (next_top self.old + panel_height caption.now picture.levels)) }
        ensures too_large { IsErrOf result PictureError.TooLarge
            ↔ ((MOST_SIDE
            < next_left self.old + panel_width caption.now (length picture.nodes.items))
            ⊎ (MOST_SIDE < next_top self.old + panel_height caption.now picture.levels)) }
        ensures memory { IsErrOf result PictureError.AllocError
            → (vec_capacity self.old.panels ≤ vec_len self.old.panels)
            ⊎ (0 < length caption.now) }
        ensures panels_err { OnErr result (self.new.panels.items ≡ self.old.panels.items) }
        ensures size_err { OnErr result ((self.new.width ≡ self.old.width)
            × (self.new.height ≡ self.old.height)) }
        ensures row_err { OnErr result ((self.new.row_top ≡ self.old.row_top)
            × (self.new.row_end ≡ self.old.row_end)) }
    {
        let (left, top) = (self.next_left(), self.next_top());
        let row_end = left.saturating_add(panel_width(caption, &picture));
        let bottom = top.saturating_add(panel_height(caption, &picture));
        if row_end > MOST_SIDE || bottom > MOST_SIDE {
            return Err(PictureError::TooLarge);
        }
        let caption = shortened(alloc, caption, CAPTION_CHARS)?;
        self.panels.push(Panel {
            left,
            top,
            caption,
            picture,
        })?;
        self.row_top = top;
        self.row_end = row_end;
        self.width = self.width.max(row_end);
        self.height = self.height.max(bottom);
        Ok(())
    }
}
