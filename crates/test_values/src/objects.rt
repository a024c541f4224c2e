//! Layouts of objects, their headers and parts.

use crate::same::{done, same, same_at};
use layout::{Header, Layout, Layouts, birth_of, layout_of, split, split_header, split_parts};
use std::process::Abort;

#[test]
fn bits_of_a_header(rt: HostRuntime) {
    for (birth, layout, bits) in [
        (5, 3, 0x0000_0003_0000_0005),
        ((1 << 32) - 1, 255, 0x0000_00ff_ffff_ffff),
        (1 << 32, 0, 1 << 40),
        ((1 << 56) - 1, 255, u64::MAX),
    ] {
        let header = Header { birth, layout };
        same(&rt, header.write(), bits);
        same(&rt, Header::read(bits), header);
        same(
            &rt,
            (birth_of(bits), layout_of(bits)),
            (birth, u32::from(layout)),
        );
    }
}

/// Two layouts, of which the second is this one.
fn has_two(rt: &impl Abort, table: &Layouts, second: Layout) {
    same(rt, (table.len(), table.is_empty()), (2, false));
    same(rt, (table.get(1), table.get(2)), (Some(second), None));
    same(rt, table.as_slice().len(), 2);
}

#[test]
fn a_table_of_two(rt: HostRuntime) {
    let small = Layout { refs: 0, nums: 0 };
    let large = Layout {
        refs: 1023,
        nums: 1023,
    };
    same(&rt, (small.size(), large.size()), (1, 2047));
    let table = Layouts::new(done(&rt, vec![in rt.alloc(); small, large]));
    has_two(&rt, &table, large);
    same(&rt, table.into_vec().len(), 2);
}

/// Fills the parts of an object. Returns how many references it has.
fn fill_parts(words: &mut [u64], layout: &Layout) -> Option<usize> {
    let parts = split(words, layout)?;
    *parts.header = Header {
        birth: 7,
        layout: 0,
    }
    .write();
    parts.refs.fill(8);
    parts.data.fill(9);
    Some(parts.refs.len())
}

#[test]
fn writes_through_the_parts(rt: HostRuntime) {
    let mut words = [1, 2, 3, 4, 5, 6];
    let layout = Layout { refs: 2, nums: 3 };
    same(&rt, fill_parts(&mut words, &layout), Some(2));
    same(&rt, words, [7, 8, 8, 9, 9, 9]);
}

/// Writes numbers that count up.
fn count_up(words: &mut [u64], first: u64) {
    let mut number = first;
    for word in words {
        *word = number;
        number = number.wrapping_add(1);
    }
}

/// Writes through each part of an object: 1, then from 11 on, then from 21 on.
fn write_parts(part: &mut [u64], layout: &Layout) -> Option<()> {
    let parts = split(part, layout)?;
    *parts.header = 1;
    count_up(parts.refs, 11);
    count_up(parts.data, 21);
    Some(())
}

/// Four words, after such writes to an object that they begin with.
fn written(layout: &Layout) -> Option<[u64; 4]> {
    let mut words = [0; 4];
    write_parts(words.get_mut(..layout.size() as usize)?, layout)?;
    Some(words)
}

#[test]
fn each_part_is_at_its_place(rt: HostRuntime) {
    for (refs, nums, expected) in [
        (0, 0, [1, 0, 0, 0]),
        (1, 0, [1, 11, 0, 0]),
        (0, 1, [1, 21, 0, 0]),
        (2, 0, [1, 11, 12, 0]),
        (1, 1, [1, 11, 21, 0]),
        (0, 2, [1, 21, 22, 0]),
        (3, 0, [1, 11, 12, 13]),
        (2, 1, [1, 11, 12, 21]),
        (1, 2, [1, 11, 21, 22]),
        (0, 3, [1, 21, 22, 23]),
    ] {
        same_at(&rt, refs, written(&Layout { refs, nums }), Some(expected));
    }
}

/// Fills the header, the one reference and the two data of an object, split in two steps.
fn fill_both(words: &mut [u64]) -> Option<()> {
    let (header, body) = split_header(words)?;
    *header = 5;
    let (refs, data) = split_parts(body, Layout { refs: 1, nums: 2 })?;
    refs.fill(6);
    data.fill(7);
    Some(())
}

#[test]
fn writes_through_two_splits(rt: HostRuntime) {
    let mut words = [1, 2, 3, 4];
    same(&rt, fill_both(&mut words), Some(()));
    same(&rt, words, [5, 6, 7, 7]);
}
