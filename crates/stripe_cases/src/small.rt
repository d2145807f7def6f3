// The file of a cabinet over five, m = 1, with its two parities.
use filing::{restore, restore_out, write_file};
use flat::Flat;
use missing::Missing;
use prime::five::Five;
use prime::five::Five::{Four, One, Three, Two, Zero};
use shelf::Shelf;
use std::test::Fail;
use stripe::Stripe;
use stripe_file::{read_column, read_file, read_without};

const FILE: [Five; 6] = [One, Two, Three, Four, Zero, One];

// Box after box.
const BOXES: [Five; 10] = [One, Two, Three, Four, Zero, One, Four, Two, Two, One];

// Written, and two boxes brought back.
#[test]
fn written_and_restored(rt: HostRuntime) -> Result<(), Fail> {
    let mut buffer = [Zero; 10];
    {
        let stripe = Stripe::new(1, 0)?;
        let mut shelf = Flat::new(&mut buffer, 5, 2);
        for b in 1..=5 {
            shelf.insert(b, Zero);
        }
        write_file(&mut shelf, &stripe, &FILE)?;
        shelf.withdraw(1);
        shelf.withdraw(2);
        let mut file = [Zero; 6];
        assert_eq!(&rt;
            read_file(&mut shelf, &stripe, &mut file)?,
            Missing::Two(0, 1)
        );
        assert_eq!(&rt; file, FILE);
        assert_eq!(&rt; restore_out(&mut shelf, &stripe, &mut file)?, 2);
    }
    assert_eq!(&rt; buffer, BOXES);
    Ok(())
}

// Boxes that stand and hold something else are left aside, and then restored.
#[test]
fn restored_in_place(rt: HostRuntime) -> Result<(), Fail> {
    let mut buffer = [One; 10];
    {
        let stripe = Stripe::new(1, 0)?;
        let mut shelf = Flat::new(&mut buffer, 5, 2);
        for b in 1..=5 {
            shelf.insert(b, Three);
        }
        write_file(&mut shelf, &stripe, &FILE)?;
        shelf.store(2, 1, Zero);
        shelf.store(4, 0, Zero);
        let mut file = [Zero; 6];
        read_without(&mut shelf, &stripe, Missing::Two(1, 3), &mut file)?;
        assert_eq!(&rt; file, FILE);
        restore(&mut shelf, &stripe, Missing::Two(1, 3), &mut file)?;
        let mut column = [Zero; 2];
        read_column(&mut shelf, &stripe, 4, &mut column)?;
        assert_eq!(&rt; column, [Four, Two]);
    }
    assert_eq!(&rt; buffer, BOXES);
    Ok(())
}

// On the rows from 2 on of a shelf with six, nothing else moves; and a box that
// was out has zero beside its column.
#[test]
fn among_other_rows(rt: HostRuntime) -> Result<(), Fail> {
    let mut buffer = [Zero; 30];
    {
        let stripe = Stripe::new(1, 2)?;
        let mut shelf = Flat::new(&mut buffer, 5, 6);
        for b in 1..=5 {
            shelf.insert(b, Three);
        }
        write_file(&mut shelf, &stripe, &FILE)?;
        shelf.withdraw(3);
        shelf.withdraw(5);
        let mut work = [Zero; 6];
        assert_eq!(&rt; restore_out(&mut shelf, &stripe, &mut work)?, 2);
        assert_eq!(&rt; work, FILE);
    }
    for b in 0..5 {
        let other = if b == 2 || b == 4 { Zero } else { Three };
        let expected = [other, other, BOXES[2 * b], BOXES[2 * b + 1], other, other];
        assert_eq!(&rt; &buffer[6 * b..6 * b + 6], &expected[..]);
    }
    Ok(())
}
