//! Appending many items at once.

ghost use Rattle.std.specs.Prelude.{◌≡◌, ◌↔◌, ◌+◌, ◌<◌, ◌≤◌, ℕ, List, [], length, vec_len, IsErr, IfErr, OnOk, OnErr};
ghost use Rattle.std.specs.List.{AllZip};
ghost use Rattle.ord_tree.specs.Append.{Appends, AppendsOne};
ghost use Rattle.ord_tree.specs.Half.{IsRebuilt};
ghost use Rattle.ord_tree.specs.Node.{bare};

use super::OrdTree;
use super::rebuild::rebuild_over;
use crate::node::SimpleOrdArenaNode;
use arena_base::BasePtr;
use chain_base::ChainArena;
use std::alloc::Allocator;

impl<P: BasePtr, T: Drop, A: Allocator> OrdTree<P, T, A> {
    /// Appends an item made of each of `sources` behind the last entry, in their order, and builds the tree anew.
    ///
    /// Each entry gets the next vacant slot and the arena's generation, as a single insertion gives it. If there is nothing to append,
    /// the tree stays as it is. O(n + m) for n entries and m new ones; no memory.
    ///
    /// # Errors
    ///
    /// There are fewer vacant slots than items: `sources` come back, and the tree is unchanged.
    pub fn append_within_capacity<U: Drop, B: Allocator>(
        &mut self,
        sources: Vec<U, B>,
    ) -> Result<(), Vec<U, B>>
    where
        T: From<U>,
        ensures ok { OnOk result ((items : List T) × AllZip T.from_gives sources.items items
            × Appends self.old.list items self.new.list) }
        ensures shape { OnOk result (0 < vec_len sources → IsRebuilt self.new.shape) }
        ensures none { sources.items ≡ [] → self.new ≡ self.old }
        ensures full { IsErr result
            ↔ (self.old.list.capacity < length self.old.list.entries + vec_len sources) }
        ensures back { IfErr result (λ given. given ≡ sources) }
        ensures err { OnErr result (self.new ≡ self.old) }
    {
        // For the prover: the list is sound.
        if self.chain.capacity() - self.len() < sources.len() {
            return Err(sources);
        }
        if sources.is_empty() {
            return Ok(());
        }
        append_over(&mut self.chain, sources);
        rebuild_over(&mut self.chain, &mut self.root);
        Ok(())
    }
}

// Appends an item made of each of `sources`, in their order, to a chain that has room. The new nodes stand alone.
fn append_over<P: BasePtr, T: From<U> + Drop, U: Drop, A: Allocator, B: Allocator>(
    chain: &mut ChainArena<P, SimpleOrdArenaNode<P, T>, A>,
    sources: Vec<U, B>,
)
    requires { length chain.old.entries + vec_len sources ≤ chain.old.capacity }
    ensures { (items : List T) × AllZip T.from_gives sources.items items
        × Appends (bare chain.old) items (bare chain.new) }
{
    for source in sources {
        append_one(chain, T::from(source));
    }
}

// Appends one item to a chain that has room. Its node stands alone.
#[inline(always)]
fn append_one<P: BasePtr, T: Drop, A: Allocator>(
    chain: &mut ChainArena<P, SimpleOrdArenaNode<P, T>, A>,
    t: T,
)
    requires { length chain.old.entries < chain.old.capacity }
    ensures appended { (p : ℕ × ℕ) × AppendsOne (bare chain.old) t p (bare chain.new) }
    ensures count { length chain.new.entries ≡ length chain.old.entries + 1 }
    ensures capacity { chain.new.capacity ≡ chain.old.capacity }
{
    let _ = chain.push_back_within_capacity(SimpleOrdArenaNode::leaf(None, t));
}
