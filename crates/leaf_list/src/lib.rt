//! Lists of leaves: entries in the order of their keys, up to 32 to a leaf. An entry is a key and a name, which is the index of its slot.
#![tactic(auto)]

mod list;
mod place;
mod row_lists;
mod rows;
mod store;
mod walk;

pub use list::LeafList;
pub use place::{Place, Stretch};
pub use walk::Walk;
