//! Copying objects by halves, each on a thread of its own.

ghost use Rattle.std.specs.Prelude.{◌≡◌, ◌+◌, ◌-◌, ◌*◌, ◌/◌, ◌<◌, ◌≤◌, ◌^◌, ◌++◌, ℕ, List, true, length, take, drop};
ghost use Rattle.std.specs.Prelude.{slice_get, IfSome, Some};
ghost use Rattle.std.specs.Thread.{IsSync};
ghost use Rattle.model.specs.declared.limits.TheConstants.{MOST_WORDS};
ghost use Rattle.forward.specs.Noting.{offset_of};
ghost use Rattle.pieces.specs.Pieces.{source_of, laid_from, AreInOrder, Follows, end_by, IsBehind};

use crate::copying::{copy_entries, entry_by, place_behind};
use crate::source::Source;
use std::thread::{Threads, join_mut};

/// A callback for each piece of a page before it is copied. Pieces count from 0, by rising entries over all runs of
/// the page, including empty pieces.
pub trait PieceGate {
    /// Called by the thread that is about to copy a piece.
    fn begin(&self, piece: u32);
}

/// Returns the number of pieces of a run: 2 to the power of the depth, at most 16.
fn parts_of(depth: u32) -> u32
    ensures low { 0 < result }
    ensures high { result ≤ 16 }
{
    match depth {
        0 => 1,
        1 => 2,
        2 => 4,
        3 => 8,
        _ => 16,
    }
}

/// Returns the end of an entry's object in its target, and the entry's offset, if the entry exists and its object
/// doesn't begin below `low`. The offset of the entry before it, if known, makes the search fast.
#[inline(always)]
fn end_behind(
    source: &Source<'_>,
    entry: usize,
    low: usize,
    before: Option<u32>,
) -> Option<(usize, u32)>
    requires size { 0 < source.now.size }
    requires before { IfSome before (λ o. IsBehind source.now.side.now entry o) }
    ensures follows { IfSome result (λ e. Follows (source_of source.now) low (slice_get source.now.side.now entry)) }
    ensures end { IfSome result (λ e. e.0 ≡ end_by (source_of source.now) low (slice_get source.now.side.now entry)) }
    ensures offset { IfSome result (λ e. offset_of (slice_get source.now.side.now entry) ≡ Some e.1) }
{
    let Some(entry) = entry_by(source, entry, before) else {
        return None;
    };
    let place = place_behind(source, entry.to, 0);
    if place < low {
        return None;
    }
    Some((place + source.size_at(entry.offset), entry.offset))
}

/// Returns whether the places of entries' objects follow each other, and end within `high` words.
#[tactic(auto, using(crate::proofs::Orders::order_more, crate::proofs::Orders::order_all, crate::proofs::Orders::behind_next))]
fn is_in_order(source: &Source<'_>, first: usize, count: usize, high: usize) -> bool
    requires size { 0 < source.now.size }
    requires within { first + count ≤ length source.now.side.now }
    ensures { result ≡ true → AreInOrder (source_of source.now) 0 high first count }
{
    let _entries = source.side.len();
    let (mut low, mut before) = (0, None);
    for index in 0..count {
        let Some((end, offset)) = end_behind(source, first + index, low, before) else {
            return false;
        };
        low = end;
        before = Some(offset);
    }
    low <= high
}

/// Returns the offset in the target's part at which it is cut: the place of the first entry of the second half of the
/// run, which is halved rounded down.
#[tactic(auto, using(crate::proofs::Orders::order_all))]
fn cut_at(source: &Source<'_>, first: usize, count: usize, base: usize, len: usize) -> usize
    requires size { 0 < source.now.size }
    requires within { first + count ≤ length source.now.side.now }
    requires order { AreInOrder (source_of source.now) base (base + len) first count }
    ensures within { result ≤ len }
    ensures low { AreInOrder (source_of source.now) base (base + result) first (count / 2) }
    ensures high { AreInOrder (source_of source.now) (base + result) (base + len) (first + count / 2)
        (count - count / 2) }
    ensures laid { (ws : List ℕ) → length ws ≡ len → laid_from (source_of source.now) base first (count / 2)
        (take result ws) ++ laid_from (source_of source.now) (base + result) (first + count / 2) (count - count / 2)
        (drop result ws) ≡ laid_from (source_of source.now) base first count ws }
{
    let _entries = source.side.len();
    if count == 0 {
        return 0;
    }
    let Some(entry) = source.side.entry(first + count / 2) else {
        return 0;
    };
    place_behind(source, entry.to, base)
}

/// Copies the objects of entries in pieces, each on a thread of its own.
fn copy_by<R: Threads + Sync, G: PieceGate + Sync>(
    rt: &R,
    gate: &G,
    source: &Source<'_>,
    first: usize,
    count: usize,
    base: usize,
    parts: u32,
    piece: u32,
    target: &mut [u64],
)
    requires size { 0 < source.now.size }
    requires within { first + count ≤ length source.now.side.now }
    requires order { AreInOrder (source_of source.now) base (base + length target.old) first count }
    requires parts { 0 < parts }
    requires pieces { piece + parts ≤ 2 ^ 20 }
    requires room { base + length target.old ≤ MOST_WORDS }
    ensures { target.new ≡ laid_from (source_of source.now) base first count target.old }
{
    if parts == 1 {
        gate.begin(piece);
        copy_entries(source, first, count, base, target);
        return;
    }
    let _entries = source.side.len();
    let cut = cut_at(source, first, count, base, target.len());
    let low = count / 2;
    let high = count - low;
    let middle = first + low;
    let behind = base + cut;
    let left = parts / 2;
    let right = parts - left;
    let second = piece + left;
    let (front, back) = target.split_at_mut(cut);
    join_mut(
        rt,
        &mut ||
            requires { IsSync R.row × IsSync G.row × (0 < source.now.size) × (first + low ≤ length source.now.side.now)
                × AreInOrder (source_of source.now) base (base + length front.now) first low × (0 < left)
                × (piece + left ≤ 2 ^ 20) × (base + length front.now ≤ MOST_WORDS) }
            ensures { front.exit.now ≡ laid_from (source_of source.entry.now) base first low front.entry.now }
        { copy_by(rt, gate, source, first, low, base, left, piece, front) },
        &mut ||
            requires { IsSync R.row × IsSync G.row × (0 < source.now.size)
                × (middle + high ≤ length source.now.side.now)
                × AreInOrder (source_of source.now) behind (behind + length back.now) middle high × (0 < right)
                × (second + right ≤ 2 ^ 20) × (behind + length back.now ≤ MOST_WORDS) }
            ensures { back.exit.now ≡ laid_from (source_of source.entry.now) behind middle high back.entry.now }
        { copy_by(rt, gate, source, middle, high, behind, right, second, back) },
    );
}

/// Calls the gate for each of a number of pieces in turn.
fn begin_all<G: PieceGate>(gate: &G, first: u32, parts: u32)
    requires { first + parts ≤ 2 ^ 20 }
{
    for part in 0..parts {
        gate.begin(first + part);
    }
}

/// Copies the objects of a run, as `copy_run` does, by halves: the run is halved, rounded down, to a depth (above 4
/// counts as 4). Each piece is copied on a thread of its own, which alone writes its part of the target's words. Runs
/// of a page count from 0. If a thread can't be started, the caller's thread copies the piece afterwards.
pub fn copy_run_by<R: Threads + Sync, G: PieceGate + Sync>(
    rt: &R,
    gate: &G,
    source: &Source<'_>,
    first: usize,
    count: usize,
    depth: u32,
    run: u32,
    target: &mut [u64],
)
    requires size { 0 < source.now.size }
    requires run { run ≤ MOST_WORDS }
    requires within { first + count ≤ length source.now.side.now }
    requires room { length target.old ≤ MOST_WORDS }
    ensures { target.new ≡ laid_from (source_of source.now) 0 first count target.old }
{
    let parts = parts_of(depth);
    let piece = run * parts;
    if is_in_order(source, first, count, target.len()) {
        copy_by(rt, gate, source, first, count, 0, parts, piece, target);
    } else {
        begin_all(gate, piece, parts);
        copy_entries(source, first, count, 0, target);
    }
}
