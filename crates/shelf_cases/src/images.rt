// The sizes of image shelves.
use image::Image;
use shelf::Shelf;

// In a buffer of so many bytes.
fn sizes_of(len: usize, boxes: usize, rows: usize) -> (usize, usize) {
    let mut buffer = [0u8; 12288];
    let len = len.min(12288);
    let sizes = Image::new(&mut buffer[..len], boxes, rows).sizes();
    (sizes.boxes, sizes.rows)
}

#[test]
fn allowed_sizes(rt: HostRuntime) {
    for (len, boxes, rows, expected) in [
        (12288, 32, 128, (32, 128)),
        (12288, 33, 1, (0, 0)),
        (12288, 1, 4096, (1, 4096)),
        (12287, 1, 4096, (0, 0)),
        (12288, 1, 4097, (0, 0)),
        (9, 3, 1, (3, 1)),
        (8, 3, 1, (0, 0)),
        (9, 0, 1, (0, 0)),
        (9, 1, 0, (0, 0)),
    ] {
        assert_eq!(&rt; sizes_of(len, boxes, rows), expected);
    }
}
