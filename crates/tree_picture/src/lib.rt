//! Pictures of the balanced tree of an ordered arena: its layout, and two ways to write it, as SVG and as text.
#![tactic(auto)]

mod below;
mod error;
mod escaping;
mod key_text;
pub mod laws;
mod layout;
mod picture;
mod place;
mod sheet;
mod svg;
mod svg_parts;
mod text;

pub use error::PictureError;
pub use escaping::push_escaped;
pub use key_text::shortened;
pub use layout::picture_of;
pub use picture::{KEY_CHARS, MOST_ENTRIES, Node, Picture};
pub use place::{BOX_HEIGHT, BOX_WIDTH, COLUMN_WIDTH, Kind, LEVEL_HEIGHT, MARGIN, Place};
pub use sheet::{
    CAPTION_CHARS, CAPTION_HEIGHT, CHARACTER_WIDTH, MOST_SIDE, PANELS_A_ROW, Panel, Sheet,
};
pub use svg::{Links, svg_of};
pub use text::text_of;
