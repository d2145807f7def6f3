// Flat shelves, of bytes, of words and of pairs.
use crate::tables::{answers, fetched, inserted, sizes, stands, stored, withdrawn};
use flat::Flat;
use prime::words::Words;
use shelf::Shelf;

// All boxes are out at first. They lie one after another, and what is behind
// them is not touched.
#[test]
fn laid_out(rt: HostRuntime) {
    let mut buffer = [9u8; 7];
    {
        let mut shelf = Flat::new(&mut buffer, 2, 3);
        let table = [
            sizes(2, 3),
            stands(1, false),
            fetched(1, 0, None),
            stored(1, 0, 7, false),
            withdrawn(1, false),
            inserted(2, 4, true),
            stored(2, 2, 5, true),
            inserted(1, 1, true),
            stored(1, 0, 2, true),
            fetched(1, 0, Some(2)),
            fetched(1, 2, Some(1)),
            fetched(2, 0, Some(4)),
            fetched(2, 2, Some(5)),
        ];
        answers(&rt, &mut shelf, &table);
    }
    assert_eq!(&rt; buffer, [2, 1, 1, 4, 4, 5, 9]);
}

// The sizes of a shelf in a buffer of so many bytes.
fn sizes_of(len: usize, boxes: usize, rows: usize) -> (usize, usize) {
    let mut buffer = [0u8; 4097];
    let len = len.min(4097);
    let sizes = Flat::new(&mut buffer[..len], boxes, rows).sizes();
    (sizes.boxes, sizes.rows)
}

#[test]
fn allowed_sizes(rt: HostRuntime) {
    for (len, boxes, rows, expected) in [
        (4097, 32, 1, (32, 1)),
        (4097, 33, 1, (0, 0)),
        (4096, 1, 4096, (1, 4096)),
        (4095, 1, 4096, (0, 0)),
        (4097, 1, 4097, (0, 0)),
        (4096, 32, 128, (32, 128)),
        (4097, 0, 1, (0, 0)),
        (4097, 1, 0, (0, 0)),
        (4097, usize::MAX, usize::MAX, (0, 0)),
        (12, 3, 4, (3, 4)),
        (11, 3, 4, (0, 0)),
        (0, 1, 1, (0, 0)),
    ] {
        assert_eq!(&rt; sizes_of(len, boxes, rows), expected);
    }
}

// The last row of the longest shelf, and the last box of one with most boxes.
#[test]
fn largest(rt: HostRuntime) {
    let mut buffer = [0u8; 4096];
    let long = [
        inserted(1, 1, true),
        stored(1, 4095, 2, true),
        stored(1, 4096, 3, false),
        fetched(1, 4095, Some(2)),
        fetched(1, 4096, None),
    ];
    answers(&rt, &mut Flat::new(&mut buffer, 1, 4096), &long);
    assert_eq!(&rt; buffer[4095], 2);
    let many = [
        inserted(32, 6, true),
        inserted(33, 6, false),
        fetched(32, 127, Some(6)),
        fetched(33, 0, None),
    ];
    answers(&rt, &mut Flat::new(&mut buffer, 32, 128), &many);
}

// A shelf without boxes refuses everything.
#[test]
fn no_boxes(rt: HostRuntime) {
    let mut buffer = [5u8; 11];
    let table = [
        sizes(0, 0),
        stands(1, false),
        inserted(0, 1, false),
        inserted(1, 1, false),
        stored(1, 0, 1, false),
        fetched(1, 0, None),
        withdrawn(1, false),
    ];
    answers(&rt, &mut Flat::new(&mut buffer, 3, 4), &table);
    assert_eq!(&rt; buffer, [5; 11]);
}

// Readings of the left and the right ear side by side.
#[test]
fn of_pairs(rt: HostRuntime) {
    let mut buffer = [(0u8, Words::Top); 2];
    let table = [
        inserted(1, (7, Words::Low(1)), true),
        inserted(2, (8, Words::Low(2)), true),
        stored(1, 0, (9, Words::Low(3)), true),
        fetched(1, 0, Some((9, Words::Low(3)))),
        fetched(1, 1, None),
    ];
    answers(&rt, &mut Flat::new(&mut buffer, 2, 1), &table);
    assert_eq!(&rt; buffer, [(9, Words::Low(3)), (8, Words::Low(2))]);
}
