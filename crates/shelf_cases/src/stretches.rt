// Rows of a box copied out and written.
use crate::plain::Plain;
use flat::Flat;
use image::Image;
use joined::Joined;
use prime::words::Words;
use shelf::Shelf;
use std::process::Abort;

// On a shelf of two boxes of four rows.
fn copied<S: Shelf<Symbol = u8>>(rt: &impl Abort, shelf: &mut S) {
    assert!(rt; shelf.insert(2, 9));
    assert!(rt; shelf.write_rows(2, 1, &[5, 6]));
    let mut out = [0; 3];
    assert!(rt; shelf.read_rows(2, 1, &mut out));
    assert_eq!(rt; out, [5, 6, 9]);
    assert!(rt; shelf.write_rows(2, 3, &[8]));
    assert!(rt; shelf.write_rows(2, 4, &[]));
    assert!(rt; !shelf.write_rows(2, 3, &[1, 2]));
    assert!(rt; !shelf.read_rows(1, 0, &mut out));
    assert_eq!(rt; out, [5, 6, 9]);
}

// By a shelf's own text, by the trait's, and on the second side of two shelves.
#[test]
fn written_and_read(rt: HostRuntime) {
    let mut buffer = [0u8; 8];
    copied(&rt, &mut Flat::new(&mut buffer, 2, 4));
    assert_eq!(&rt; buffer, [0, 0, 0, 0, 9, 5, 6, 8]);
    let mut plain = [0u8; 8];
    copied(&rt, &mut Plain::new(Flat::new(&mut plain, 2, 4)));
    assert_eq!(&rt; plain, buffer);
    let mut second = [0u8; 4];
    copied(
        &rt,
        &mut Joined::new(Flat::new(&mut [0; 4], 1, 4), Flat::new(&mut second, 1, 4)),
    );
    assert_eq!(&rt; second, [9, 5, 6, 8]);
}

// A box that is out, no box, rows that do not fit: nothing changes.
#[test]
fn refused(rt: HostRuntime) {
    let mut buffer = [0u8; 8];
    {
        let mut shelf = Flat::new(&mut buffer, 2, 4);
        assert!(&rt; shelf.insert(2, 9));
        for (b, from) in [
            (0, 0),
            (1, 0),
            (3, 0),
            (2, 2),
            (2, 4),
            (2, 5),
            (2, usize::MAX),
            (usize::MAX, 0),
        ] {
            let mut out = [1, 2, 3];
            assert!(&rt; !shelf.read_rows(b, from, &mut out));
            assert_eq!(&rt; out, [1, 2, 3]);
            assert!(&rt; !shelf.write_rows(b, from, &out));
        }
        assert!(&rt; !shelf.write_rows(2, 5, &[]));
        assert!(&rt; !shelf.read_rows(1, 0, &mut []));
    }
    assert_eq!(&rt; buffer, [0, 0, 0, 0, 9, 9, 9, 9]);
}

#[test]
fn in_bytes(rt: HostRuntime) {
    let mut buffer = [0u8; 9];
    {
        let mut shelf = Image::new(&mut buffer, 1, 3);
        assert!(&rt; shelf.insert(1, Words::Low(1)));
        assert!(&rt; shelf.write_rows(1, 1, &[Words::Top, Words::Low(258)]));
        let mut out = [Words::Low(0); 2];
        assert!(&rt; shelf.read_rows(1, 0, &mut out));
        assert_eq!(&rt; out, [Words::Low(1), Words::Top]);
    }
    assert_eq!(&rt; buffer, [0, 0, 1, 1, 0, 0, 0, 1, 2]);
}
