// Joined shelves: their sizes, and three in a row.
use crate::tables::{answers, fetched, inserted, sizes, stored, withdrawn};
use flat::Flat;
use joined::Joined;
use shelf::Shelf;
use std::process::Abort;

fn sizes_of(first: (usize, usize), second: (usize, usize)) -> (usize, usize) {
    let mut left = [0u8; 64];
    let mut right = [0u8; 64];
    let left = Flat::new(&mut left, first.0, first.1);
    let right = Flat::new(&mut right, second.0, second.1);
    let sizes = Joined::new(left, right).sizes();
    (sizes.boxes, sizes.rows)
}

#[test]
fn allowed_sizes(rt: HostRuntime) {
    for (first, second, expected) in [
        ((16, 2), (16, 2), (32, 2)),
        ((17, 2), (16, 2), (0, 0)),
        ((1, 2), (31, 2), (32, 2)),
        ((32, 2), (1, 2), (0, 0)),
        ((3, 2), (3, 3), (0, 0)),
        ((3, 2), (0, 2), (0, 0)),
        ((0, 0), (0, 0), (0, 0)),
    ] {
        assert_eq!(&rt; sizes_of(first, second), expected);
    }
}

// Three boxes that are put in, and one symbol stored.
fn filled<S: Shelf<Symbol = u8>>(rt: &impl Abort, shelf: &mut S) {
    let table = [
        sizes(3, 2),
        inserted(1, 1, true),
        inserted(2, 2, true),
        inserted(3, 3, true),
        inserted(4, 4, false),
        stored(3, 1, 33, true),
    ];
    answers(rt, shelf, &table);
}

// The same three boxes, of which the second is taken out.
fn parted<S: Shelf<Symbol = u8>>(rt: &impl Abort, shelf: &mut S) {
    let table = [
        sizes(3, 2),
        fetched(1, 1, Some(1)),
        fetched(2, 1, Some(2)),
        fetched(3, 1, Some(33)),
        stored(2, 0, 22, true),
        withdrawn(2, true),
    ];
    answers(rt, shelf, &table);
}

// The first two joined first, then the last two, then each by itself again.
#[test]
fn three_in_a_row(rt: HostRuntime) {
    let mut first = [0u8; 2];
    let mut second = [0u8; 2];
    let mut third = [0u8; 2];
    {
        let pair = Joined::new(Flat::new(&mut first, 1, 2), Flat::new(&mut second, 1, 2));
        let mut shelf = Joined::new(pair, Flat::new(&mut third, 1, 2));
        filled(&rt, &mut shelf);
        let mut shelf = shelf.regroup();
        parted(&rt, &mut shelf);
        let (_, right) = shelf.into_parts();
        let (mut middle, mut last) = right.into_parts();
        assert!(&rt; !middle.stands(1));
        assert_eq!(&rt; last.fetch(1, 1), Some(33));
    }
    assert_eq!(&rt; (first, second, third), ([1, 1], [22, 2], [3, 33]));
}
