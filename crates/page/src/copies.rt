//! Lists of copies of one item.

ghost use Rattle.std.specs.Prelude.{◌≡◌, replicate, IfOk};

use std::alloc::{AllocError, Global};

/// Returns a list of `count` copies of an item. Fails only if out of memory.
pub fn many<T: Copy>(alloc: Global, count: u32, item: T) -> Result<Vec<T, Global>, AllocError>
    ensures { IfOk result (λ v. v.items ≡ replicate count item) }
{
    let mut items = Vec::with_capacity(alloc, count as usize)?;
    for _item in 0..count {
        items.push(item)?;
    }
    Ok(items)
}
