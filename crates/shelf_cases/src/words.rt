// Two boxes of two words: every shelf answers alike, and each keeps them in
// buffers as it promises.
use crate::tables::{Row, answers, fetched, inserted, sizes, stands, stored, withdrawn};
use flat::{Flat, perform_in};
use image::Image;
use joined::Joined;
use prime::words::Words;
use shelf::{Call, Shelf, perform_all, perform_on_both};

// Every call, accepted and refused: box 0, box 3 and row 2 are not there.
fn table() -> [Row<Words>; 38] {
    [
        sizes(2, 2),
        stands(0, false),
        stands(1, false),
        stands(2, false),
        stands(3, false),
        fetched(1, 0, None),
        stored(1, 0, Words::Top, false),
        withdrawn(1, false),
        inserted(0, Words::Top, false),
        inserted(3, Words::Top, false),
        inserted(1, Words::Low(3), true),
        inserted(1, Words::Low(4), false),
        stands(1, true),
        stands(2, false),
        inserted(2, Words::Low(258), true),
        fetched(0, 0, None),
        fetched(1, 0, Some(Words::Low(3))),
        fetched(1, 1, Some(Words::Low(3))),
        fetched(1, 2, None),
        fetched(2, 2, None),
        fetched(3, 0, None),
        fetched(usize::MAX, usize::MAX, None),
        stored(0, 0, Words::Top, false),
        stored(1, 2, Words::Top, false),
        stored(2, 2, Words::Top, false),
        stored(3, 0, Words::Top, false),
        stored(1, 1, Words::Top, true),
        stored(2, 0, Words::Low(0xff00), true),
        fetched(1, 1, Some(Words::Top)),
        fetched(2, 0, Some(Words::Low(0xff00))),
        fetched(2, 1, Some(Words::Low(258))),
        withdrawn(0, false),
        withdrawn(3, false),
        withdrawn(1, true),
        withdrawn(1, false),
        stands(1, false),
        stands(2, true),
        inserted(1, Words::Low(5), true),
    ]
}

const KEPT: [Words; 4] = [
    Words::Low(5),
    Words::Low(5),
    Words::Low(0xff00),
    Words::Low(258),
];

// Three bytes a word, the highest first.
const BYTES: [u8; 12] = [0, 0, 5, 0, 0, 5, 0, 0xff, 0, 0, 1, 2];

#[test]
fn in_words(rt: HostRuntime) {
    let mut words = [Words::Top; 4];
    answers(&rt, &mut Flat::new(&mut words, 2, 2), &table());
    assert_eq!(&rt; words, KEPT);
}

// The byte behind the boxes is not touched.
#[test]
fn in_bytes(rt: HostRuntime) {
    let mut bytes = [7u8; 13];
    answers(&rt, &mut Image::new(&mut bytes, 2, 2), &table());
    assert_eq!(&rt; &bytes[..12], BYTES.as_slice());
    assert_eq!(&rt; bytes[12], 7);
}

// One flat box and one of bytes.
#[test]
fn in_both(rt: HostRuntime) {
    let mut words = [Words::Top; 2];
    let mut bytes = [7u8; 6];
    {
        let flat = Flat::new(&mut words, 1, 2);
        let image = Image::new(&mut bytes, 1, 2);
        answers(&rt, &mut Joined::new(flat, image), &table());
    }
    assert_eq!(&rt; words, [Words::Low(5), Words::Low(5)]);
    assert_eq!(&rt; bytes, [0, 0xff, 0, 0, 1, 2]);
}

// A flat shelf and one of bytes, call by call.
#[test]
fn alike(rt: HostRuntime) {
    let mut words = [Words::Top; 4];
    let mut bytes = [7u8; 12];
    let mut flat = Flat::new(&mut words, 2, 2);
    let mut image = Image::new(&mut bytes, 2, 2);
    for (call, answer) in table() {
        assert_eq!(&rt;
            perform_on_both(&mut flat, &mut image, call),
            (answer, answer)
        );
    }
}

// What the same calls leave in buffers, and in those that shelves give back.
#[test]
fn left_behind(rt: HostRuntime) {
    let calls = table().map(|(call, _)| call);
    let mut words = [Words::Top; 4];
    perform_in(&mut words, 2, 2, &calls);
    assert_eq!(&rt; words, KEPT);
    let mut bytes = [7u8; 12];
    image::perform_in(&mut bytes, 2, 2, &calls);
    assert_eq!(&rt; bytes, BYTES);
    let mut flat = Flat::new(&mut words, 2, 2);
    perform_all(&mut flat, &calls);
    assert_eq!(&rt; &*flat.into_buffer(), KEPT.as_slice());
    let mut image = Image::new(&mut bytes, 2, 2);
    perform_all(&mut image, &calls);
    assert_eq!(&rt; &*image.into_buffer(), BYTES.as_slice());
}
