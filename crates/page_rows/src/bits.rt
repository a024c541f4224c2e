//! The bits of words, by their addresses.

ghost use Rattle.std.specs.Prelude.{◌≡◌, ◌/◌, ◌%◌, true, false, if◌then◌else◌};
ghost use Rattle.model.specs.Bits.{bit_at, with_bit};
ghost use Rattle.page_rows.specs.Bits.{bit_in};

use markbits::{IndexedRows, Rows};
use page::Store;
use refword::Addr;

/// Returns whether the bit of an address is set.
pub fn bit_at(rows: &Rows, store: &Store, address: Addr) -> bool
    ensures { result ≡ bit_at rows.now store.now.words address }
{
    rows.bit_on(store.page_of(address), store.offset_of(address))
}

/// Sets or clears the bit of an address, if its page has a bitmap.
pub fn put_bit(rows: &mut Rows, store: &Store, address: Addr, bit: bool)
    ensures { rows.new ≡ with_bit rows.old store.now.words address bit }
{
    let index = store.page_of(address).saturating_sub(1) as usize;
    rows.put(index, store.offset_of(address) as usize, bit);
}

/// The same for bitmaps with an index.
pub fn put_indexed_bit(rows: &mut IndexedRows, store: &Store, address: Addr, bit: bool)
    ensures { rows.new ≡ with_bit rows.old store.now.words address bit }
{
    let index = store.page_of(address).saturating_sub(1) as usize;
    rows.put(index, store.offset_of(address) as usize, bit);
}

/// Clears the bit of an address, if its page has a bitmap. If no bit is set, nothing else is read.
#[inline(always)]
#[tactic(auto, using(crate::proofs::NoBits::all_clear))]
pub fn clear_indexed_bit(rows: &mut IndexedRows, store: &Store, address: Addr)
    ensures { rows.new ≡ with_bit rows.old store.now.words address false }
{
    if rows.is_empty() {
        return;
    }
    put_indexed_bit(rows, store, address, false);
}

/// Marks the object at an address: it becomes grey if it wasn't marked before.
#[inline(always)]
pub fn mark_at(mark: &mut Rows, todo: &mut IndexedRows, store: &Store, address: Addr)
    ensures mark { mark.new ≡ with_bit mark.old store.now.words address true }
    ensures todo { todo.new ≡ (if bit_at mark.old store.now.words address then todo.old else with_bit todo.old
        store.now.words address true) }
{
    if !bit_at(mark, store, address) {
        put_indexed_bit(todo, store, address, true);
    }
    put_bit(mark, store, address, true);
}

/// Marks the object at an address, by its page and its offset there. Returns whether it was marked before, or `None` if
/// its page has no mark bitmap.
#[inline(always)]
pub fn test_and_mark(
    mark: &mut Rows,
    store: &Store,
    address: Addr,
    page: u64,
    offset: u32,
) -> Option<bool>
    requires page { page ≡ address / store.now.words }
    requires offset { offset ≡ address % store.now.words }
    ensures was { result ≡ bit_in mark.old store.now.words address }
    ensures mark { mark.new ≡ with_bit mark.old store.now.words address true }
{
    mark.set_on(page, offset)
}
