//! The layout of an arena's tree.
ghost use Rattle.std.specs.Prelude.{◌≡◌, ◌<◌, ◌≤◌, ◌+◌, ◌++◌, ◌↔◌, None, IfOk, OnOk, IsErrOf, option_map, map, All, length, string_bytes};
ghost use Rattle.triple_ord.specs.Shape.{size_of, height};
ghost use Rattle.triple_ord.specs.Arena.{count, pointers};
ghost use Rattle.tree_picture.specs.Below.{part_below};
ghost use Rattle.tree_picture.specs.Layout.{kind_of, laid};
ghost use Rattle.tree_picture.specs.Text.{Shows, ShowEach};
ghost use Rattle.tree_picture.specs.Framing.{IsUnframed};
ghost use Rattle.tree_picture.specs.declared.picture.TheConstants.{MOST_ENTRIES, KEY_CHARS};

use crate::below::{branch_at, extent_below, root};
use crate::error::PictureError;
use crate::key_text::shortened;
use crate::picture::{KEY_CHARS, MOST_ENTRIES, Node, Picture};
use crate::place::{Kind, Place};
use std::alloc::{AllocError, Allocator};
use std::fmt::Display;
use triple_ord::{BasePtr, SimpleOrdArena, SimpleOrdItem};

/// Returns the kind of a node of this rank over sides of these ranks.
fn kind_of(rank: u8, lesser: u8, greater: u8) -> Kind
    ensures { result ≡ kind_of rank lesser greater }
{
    let (rank, lesser, greater) = (u16::from(rank), u16::from(lesser), u16::from(greater));
    if rank == lesser + 1 && rank == greater + 1 {
        Kind::Full
    } else if rank == lesser + 2 && rank == greater + 2 {
        Kind::Slack
    } else {
        Kind::Uneven
    }
}

/// Appends the places of the nodes below a link, from the next column on.
fn lay<P: BasePtr, T, A: Allocator>(
    arena: &SimpleOrdArena<P, T, A>,
    link: Option<P::Inx>,
    depth: u16,
    above: Option<u16>,
    places: &mut Vec<Place, A>,
) -> Result<(), AllocError>
    requires columns { length places.old.items
        + size_of (part_below arena.now.shape (option_map P.Inx.number link)) ≤ MOST_ENTRIES }
    requires levels { depth
        + height (part_below arena.now.shape (option_map P.Inx.number link)) ≤ MOST_ENTRIES }
    ensures { OnOk result (places.new.items ≡ places.old.items
        ++ laid (length places.old.items) depth above
        (part_below arena.now.shape (option_map P.Inx.number link))) }
{
    let Some(i) = link else {
        return Ok(());
    };
    let Some(branch) = branch_at(arena, i) else {
        return Ok(());
    };
    let lesser = extent_below(arena, branch.lesser);
    let greater = extent_below(arena, branch.greater);
    let column = places.len() as u16 + lesser.nodes;
    let place = Place {
        column,
        depth,
        rank: branch.rank,
        kind: kind_of(branch.rank, lesser.rank, greater.rank),
        parent: above,
        has_greater: greater.nodes > 0,
    };
    lay(arena, branch.lesser, depth + 1, Some(column), places)?;
    places.push(place)?;
    lay(arena, branch.greater, depth + 1, Some(column), places)
}

/// Returns the places of all nodes, in order.
fn places_of<P: BasePtr, T, A: Allocator>(
    alloc: A,
    arena: &SimpleOrdArena<P, T, A>,
) -> Result<Vec<Place, A>, AllocError>
    requires { count arena.now ≤ MOST_ENTRIES }
    ensures { IfOk result (λ places. places.items ≡ laid 0 0 None arena.now.shape) }
{
    let mut places = Vec::with_capacity(alloc, arena.len())?;
    lay(arena, root(arena), 0, None, &mut places)?;
    Ok(places)
}

/// Returns the key of an item as a picture shows it.
fn key_of<T: SimpleOrdItem, A: Allocator + Copy>(
    alloc: A,
    item: &T,
) -> Result<String<A>, AllocError>
where
    T::Key: Display,
    ensures { IfOk result (λ shown. Shows (T.Key.output (T.key_of item.now)) (string_bytes shown)) }
{
    let key = item.key();
    let text = format!(in alloc; "{key}")?;
    shortened(alloc, text.as_str(), KEY_CHARS)
}

/// Returns the nodes of the entries at these places.
fn nodes_at<P: BasePtr, T: SimpleOrdItem, A: Allocator + Copy>(
    alloc: A,
    arena: &SimpleOrdArena<P, T, A>,
    places: &[Place],
) -> Result<Vec<Node<P, A>, A>, AllocError>
where
    T::Key: Display,
    requires { length places.now ≡ count arena.now }
    ensures places { IfOk result (λ nodes. map (λ n. n.place) nodes.items ≡ places.now) }
    ensures pointers { IfOk result
        (λ nodes. map (λ n. P.numbers n.pointer) nodes.items ≡ pointers arena.now) }
    ensures keys { IfOk result (λ nodes. ShowEach T.Key.output T.key_of arena.now.list.entries
        (map (λ n. string_bytes n.key) nodes.items)) }
    ensures unframed { IfOk result (λ nodes. All IsUnframed nodes.items) }
{
    let mut nodes = Vec::with_capacity(alloc, places.len())?;
    for (pointer, item) in arena {
        let place = places[nodes.len()];
        let key = key_of(alloc, item)?;
        nodes.push(Node {
            place,
            pointer,
            key,
            is_framed: false,
        })?;
    }
    Ok(nodes)
}

/// Returns the picture of an arena that has entries.
fn picture_of_entries<P: BasePtr, T: SimpleOrdItem, A: Allocator + Copy>(
    alloc: A,
    arena: &SimpleOrdArena<P, T, A>,
) -> Result<Picture<P, A>, PictureError>
where
    T::Key: Display,
    ensures places { IfOk result
        (λ picture. map (λ n. n.place) picture.nodes.items ≡ laid 0 0 None arena.now.shape) }
    ensures pointers { IfOk result
        (λ picture. map (λ n. P.numbers n.pointer) picture.nodes.items ≡ pointers arena.now) }
    ensures keys { IfOk result
        (λ picture. ShowEach T.Key.output T.key_of arena.now.list.entries
        (map (λ n. string_bytes n.key) picture.nodes.items)) }
    ensures unframed { IfOk result (λ picture. All IsUnframed picture.nodes.items) }
    ensures levels { IfOk result (λ picture. picture.levels ≡ height arena.now.shape) }
    ensures too_large { IsErrOf result PictureError.TooLarge
        ↔ (MOST_ENTRIES < count arena.now) }
{
    if arena.len() > MOST_ENTRIES {
        return Err(PictureError::TooLarge);
    }
    let levels = extent_below(arena, root(arena)).levels;
    let places = places_of(alloc, arena)?;
    let nodes = nodes_at(alloc, arena, &places)?;
    Ok(Picture { nodes, levels })
}

/// Returns the picture of an arena without entries.
fn empty_picture<P: BasePtr, T: SimpleOrdItem, A: Allocator + Copy>(
    alloc: A,
    arena: &SimpleOrdArena<P, T, A>,
) -> Picture<P, A>
where
    T::Key: Display,
    requires { count arena.now ≡ 0 }
    ensures places { map (λ n. n.place) result.nodes.items ≡ laid 0 0 None arena.now.shape }
    ensures pointers { map (λ n. P.numbers n.pointer) result.nodes.items ≡ pointers arena.now }
    ensures keys { ShowEach T.Key.output T.key_of arena.now.list.entries
        (map (λ n. string_bytes n.key) result.nodes.items) }
    ensures unframed { All IsUnframed result.nodes.items }
    ensures levels { result.levels ≡ height arena.now.shape }
{
    // For the prover: the list and the shape are sound.
    let _ = arena.len();
    Picture {
        nodes: Vec::new(alloc),
        levels: 0,
    }
}

/// Returns the picture of an arena's tree: the i-th node is the i-th entry of the list, in column i. No node is framed.
///
/// O(n log n), because the extent of each side is found on each level.
///
/// # Errors
///
/// - `TooLarge`: the arena has more than [`MOST_ENTRIES`] entries.
/// - `AllocError`: an allocation failed. An arena without entries needs none.
pub fn picture_of<P: BasePtr, T: SimpleOrdItem, A: Allocator + Copy>(
    alloc: A,
    arena: &SimpleOrdArena<P, T, A>,
) -> Result<Picture<P, A>, PictureError>
where
    T::Key: Display,
    ensures places { IfOk result
        (λ picture. map (λ n. n.place) picture.nodes.items ≡ laid 0 0 None arena.now.shape) }
    ensures pointers { IfOk result
        (λ picture. map (λ n. P.numbers n.pointer) picture.nodes.items ≡ pointers arena.now) }
    ensures keys { IfOk result
        (λ picture. ShowEach T.Key.output T.key_of arena.now.list.entries
        (map (λ n. string_bytes n.key) picture.nodes.items)) }
    ensures unframed { IfOk result (λ picture. All IsUnframed picture.nodes.items) }
    ensures levels { IfOk result (λ picture. picture.levels ≡ height arena.now.shape) }
    ensures too_large { IsErrOf result PictureError.TooLarge
        ↔ (MOST_ENTRIES < count arena.now) }
    ensures memory { IsErrOf result PictureError.AllocError → 0 < count arena.now }
{
    if arena.is_empty() {
        return Ok(empty_picture(alloc, arena));
    }
    picture_of_entries(alloc, arena)
}
