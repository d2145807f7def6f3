// Calls that do not fit.
use filing::{restore, write_file};
use flat::Flat;
use missing::Missing;
use prime::five::Five;
use refusal::Refusal;
use shelf::Shelf;
use std::test::Fail;
use stripe::Stripe;
use stripe_file::read_file;

// The answer to writing, and to reading then, on a shelf of some sizes: the
// boxes that are listed are out, and the file has so many symbols.
fn answers(
    boxes: usize,
    rows: usize,
    from: usize,
    out: &[usize],
    symbols: usize,
) -> (Option<Refusal>, Option<Refusal>) {
    let mut buffer = [Five::Zero; 40];
    let mut file = [Five::Zero; 8];
    let file = &mut file[..symbols.min(8)];
    let Ok(stripe) = Stripe::new(1, from) else {
        return (None, None);
    };
    let mut shelf = Flat::new(&mut buffer, boxes, rows);
    for b in 1..=boxes.min(8) {
        if !out.contains(&b) {
            shelf.insert(b, Five::One);
        }
    }
    (
        write_file(&mut shelf, &stripe, file).err(),
        read_file(&mut shelf, &stripe, file).err(),
    )
}

#[test]
fn by_the_earliest_reason(rt: HostRuntime) {
    for (boxes, rows, from, out, symbols, writing, reading) in [
        (5, 6, 4, &[1, 5][..], 6, None, None),
        (5, 6, 4, &[1, 2, 5], 6, None, Some(Refusal::ManyOut)),
        (
            5,
            6,
            4,
            &[1, 2, 5],
            5,
            Some(Refusal::Length),
            Some(Refusal::Length),
        ),
        (
            5,
            6,
            5,
            &[1, 2, 5],
            5,
            Some(Refusal::Shape),
            Some(Refusal::Shape),
        ),
        (
            5,
            6,
            usize::MAX,
            &[],
            6,
            Some(Refusal::Shape),
            Some(Refusal::Shape),
        ),
        (4, 6, 4, &[], 6, Some(Refusal::Shape), Some(Refusal::Shape)),
        (6, 6, 4, &[], 6, Some(Refusal::Shape), Some(Refusal::Shape)),
    ] {
        assert_eq!(&rt;
            answers(boxes, rows, from, out, symbols),
            (writing, reading)
        );
    }
}

// The answer to restoring boxes of a shelf on which one box is out.
fn restoring(missing: Missing, out: usize) -> Option<Refusal> {
    let mut buffer = [Five::Zero; 10];
    let mut work = [Five::Zero; 6];
    let stripe = Stripe::new(1, 0).ok()?;
    let mut shelf = Flat::new(&mut buffer, 5, 2);
    for b in 1..=5 {
        if b != out {
            shelf.insert(b, Five::One);
        }
    }
    restore(&mut shelf, &stripe, missing, &mut work).err()
}

#[test]
fn boxes_to_restore(rt: HostRuntime) {
    for (missing, out, why) in [
        (Missing::Nothing, 6, None),
        (Missing::Two(0, 4), 6, None),
        (Missing::Two(0, 4), 5, Some(Refusal::Out)),
        (Missing::Two(0, 4), 2, Some(Refusal::ManyOut)),
        (Missing::Two(0, 5), 2, Some(Refusal::NoBox)),
        (Missing::Two(3, 3), 2, Some(Refusal::NoBox)),
        (Missing::Two(3, 2), 2, Some(Refusal::NoBox)),
        (Missing::One(5), 2, Some(Refusal::NoBox)),
    ] {
        assert_eq!(&rt; restoring(missing, out), why);
    }
}
