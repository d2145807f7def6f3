// The cabinet over five with m = 1: three data boxes and two parities of two rows.
use amending::amend;
use flat::Flat;
use prime::five::Five;
use prime::five::Five::{Four, One, Three, Two, Zero};
use renewing::{renew, renew_out, send_half};
use shelf::Shelf;
use std::test::Fail;
use stripe::Stripe;

// Box after box.
const BOXES: [Five; 10] = [One, Two, Three, Four, Zero, One, Four, Two, Two, One];

// Puts in all boxes, with these columns from row `from` on and three in the other rows.
fn put_in(shelf: &mut Flat<'_, Five>, from: usize) {
    for (b, column) in BOXES.chunks_exact(2).enumerate() {
        shelf.insert(b + 1, Three);
        shelf.write_rows(b + 1, from, column);
    }
}

// The halves for box 1 and the column that they give; what box 1 held plays no part.
#[test]
fn renewed_in_place(rt: HostRuntime) -> Result<(), Fail> {
    let mut buffer = [Zero; 10];
    let mut work = [One; 6];
    {
        let stripe = Stripe::new(1, 0)?;
        let mut shelf = Flat::new(&mut buffer, 5, 2);
        put_in(&mut shelf, 0);
        shelf.write_rows(1, 0, &[Four, Four]);
        for (helper, number) in [(2, Three), (3, Zero), (4, Four), (5, Two)] {
            let mut half = [One; 1];
            send_half(&mut shelf, &stripe, helper, 1, &mut half)?;
            assert_eq!(&rt; half, [number]);
        }
        assert_eq!(&rt; renew(&mut shelf, &stripe, 1, &mut work)?, 4);
    }
    assert_eq!(&rt; work, [Three, Zero, Four, Two, One, One]);
    assert_eq!(&rt; buffer, BOXES);
    Ok(())
}

// On rows from 2 on of a shelf with six: a box that was out has zero beside its column.
#[test]
fn renewed_from_nothing(rt: HostRuntime) -> Result<(), Fail> {
    let mut buffer = [Zero; 30];
    {
        let stripe = Stripe::new(1, 2)?;
        let mut shelf = Flat::new(&mut buffer, 5, 6);
        put_in(&mut shelf, 2);
        shelf.withdraw(3);
        let mut work = [One; 6];
        assert_eq!(&rt; renew_out(&mut shelf, &stripe, 3, &mut work)?, 4);
    }
    for b in 0..5 {
        let other = if b == 2 { Zero } else { Three };
        let expected = [other, other, BOXES[2 * b], BOXES[2 * b + 1], other, other];
        assert_eq!(&rt; &buffer[6 * b..6 * b + 6], &expected[..]);
    }
    Ok(())
}

// Row 1 of box 1 becomes 0: parities (4, 0) and (1, 4).
#[test]
fn amended(rt: HostRuntime) -> Result<(), Fail> {
    let mut buffer = [Zero; 10];
    let mut work = [One; 6];
    {
        let stripe = Stripe::new(1, 0)?;
        let mut shelf = Flat::new(&mut buffer, 5, 2);
        put_in(&mut shelf, 0);
        amend(&mut shelf, &stripe, 1, 1, Zero, &mut work)?;
    }
    assert_eq!(&rt; work, [One, Zero, Three, Four, Zero, One]);
    assert_eq!(&rt;
        buffer,
        [One, Zero, Three, Four, Zero, One, Four, Zero, One, Four]
    );
    Ok(())
}

// With the box itself and the first parity out, the second parity alone moves.
#[test]
fn amended_while_out(rt: HostRuntime) -> Result<(), Fail> {
    let mut buffer = [Zero; 10];
    let mut work = [One; 6];
    {
        let stripe = Stripe::new(1, 0)?;
        let mut shelf = Flat::new(&mut buffer, 5, 2);
        put_in(&mut shelf, 0);
        shelf.withdraw(1);
        shelf.withdraw(4);
        amend(&mut shelf, &stripe, 1, 1, Zero, &mut work)?;
    }
    assert_eq!(&rt; work, [One, Zero, Three, Four, Zero, One]);
    assert_eq!(&rt; &buffer[2..6], &[Three, Four, Zero, One][..]);
    assert_eq!(&rt; &buffer[8..], &[One, Four][..]);
    Ok(())
}
