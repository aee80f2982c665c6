//! A subscriber's image of price levels, which is kept by updates alone.

ghost use Rattle.std.specs.Prelude.{◌≡◌, ℕ, [], ◌∷◌, nat_eq, OnOk};
ghost use Rattle.std.specs.HashMap.{get};
ghost use Rattle.level_feed.specs.Feed.{updated};

use level_feed::LevelUpdate;
use order_book::Level;
use std::alloc::AllocError;
use std::collections::HashMap;

/// The levels of a side by price.
pub type Levels = HashMap<u64, Level>;

/// Applies an update of a side to its levels: each price then has what the update makes of it.
pub fn apply(levels: &mut Levels, update: LevelUpdate) -> Result<(), AllocError>
    ensures { OnOk result ((price : ℕ) → get nat_eq levels.new price
        ≡ updated update.side price (update ∷ []) (get nat_eq levels.old price)) }
{
    if update.count == 0 {
        let _ = levels.remove(&update.price);
        return Ok(());
    }
    let level = Level {
        price: update.price,
        quantity: update.quantity,
        count: update.count,
    };
    let _ = levels.insert(update.price, level)?;
    Ok(())
}
