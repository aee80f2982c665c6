//! A heap without memory.
use linked_list_allocator::LocalHeap;
use std::alloc::{AllocError, Global};

/// Takes all memory that a heap has left.
pub(crate) fn rest_of(
    alloc: Global,
    heap: &LocalHeap,
) -> Result<Vec<Vec<u8, &LocalHeap>>, AllocError> {
    let mut blocks = Vec::new(alloc);
    for size in (1..2048usize).rev() {
        if let Ok(block) = Vec::with_capacity(heap, size) {
            blocks.push(block)?;
        }
    }
    Ok(blocks)
}
