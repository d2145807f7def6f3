// Calls that do not fit.
use amending::amend;
use flat::Flat;
use prime::five::Five;
use refusal::Refusal;
use renewing::{renew, renew_out, send_half};
use shelf::Shelf;
use stripe::Stripe;

// A shelf of five boxes, where these are out.
fn put_in(shelf: &mut Flat<'_, Five>, out: &[usize]) {
    for b in 1..=5 {
        if !out.contains(&b) {
            shelf.insert(b, Five::One);
        }
    }
}

// The answers to renewing box `lost`, where it stands and where it is out.
fn renewing(from: usize, out: &[usize], symbols: usize, lost: usize) -> [Option<Refusal>; 2] {
    let mut buffer = [Five::Zero; 20];
    let mut work = [Five::Zero; 6];
    let work = &mut work[..symbols.min(6)];
    let Ok(stripe) = Stripe::new(1, from) else {
        return [None; 2];
    };
    let mut shelf = Flat::new(&mut buffer, 5, 4);
    put_in(&mut shelf, out);
    [
        renew(&mut shelf, &stripe, lost, work).err(),
        renew_out(&mut shelf, &stripe, lost, work).err(),
    ]
}

#[test]
fn of_renewals(rt: HostRuntime) {
    for (from, out, symbols, lost, standing, absent) in [
        (0, &[][..], 6, 1, None, Some(Refusal::Standing)),
        (2, &[3], 6, 3, Some(Refusal::Out), None),
        (
            0,
            &[3],
            6,
            1,
            Some(Refusal::NotRenewable),
            Some(Refusal::Standing),
        ),
        (
            0,
            &[1, 3],
            6,
            1,
            Some(Refusal::Out),
            Some(Refusal::NotRenewable),
        ),
        (
            0,
            &[4],
            6,
            4,
            Some(Refusal::Out),
            Some(Refusal::NotRenewable),
        ),
        (
            0,
            &[],
            6,
            5,
            Some(Refusal::NotRenewable),
            Some(Refusal::Standing),
        ),
        (
            0,
            &[1, 3, 5],
            6,
            1,
            Some(Refusal::Out),
            Some(Refusal::ManyOut),
        ),
        (
            0,
            &[1, 3, 5],
            6,
            6,
            Some(Refusal::NoBox),
            Some(Refusal::NoBox),
        ),
        (
            0,
            &[1, 3, 5],
            5,
            0,
            Some(Refusal::Length),
            Some(Refusal::Length),
        ),
        (
            3,
            &[1, 3, 5],
            5,
            0,
            Some(Refusal::Shape),
            Some(Refusal::Shape),
        ),
    ] {
        assert_eq!(&rt; renewing(from, out, symbols, lost), [standing, absent]);
    }
}

// The answer to sending a half, where box 2 is out.
fn sending(from: usize, helper: usize, lost: usize, numbers: usize) -> Option<Refusal> {
    let mut buffer = [Five::Zero; 20];
    let mut half = [Five::Zero; 2];
    let stripe = Stripe::new(1, from).ok()?;
    let mut shelf = Flat::new(&mut buffer, 5, 4);
    put_in(&mut shelf, &[2]);
    send_half(
        &mut shelf,
        &stripe,
        helper,
        lost,
        &mut half[..numbers.min(2)],
    )
    .err()
}

#[test]
fn of_halves(rt: HostRuntime) {
    for (from, helper, lost, numbers, why) in [
        (0, 1, 2, 1, None),
        (0, 1, 1, 1, Some(Refusal::Helper)),
        (0, 4, 4, 1, Some(Refusal::NotRenewable)),
        (0, 2, 4, 1, Some(Refusal::Out)),
        (0, 2, 6, 1, Some(Refusal::NoBox)),
        (0, 0, 1, 1, Some(Refusal::NoBox)),
        (0, 0, 1, 2, Some(Refusal::Length)),
        (3, 0, 1, 2, Some(Refusal::Shape)),
    ] {
        assert_eq!(&rt; sending(from, helper, lost, numbers), why);
    }
}

// The answer to amending a symbol.
fn amending(from: usize, out: &[usize], symbols: usize, b: usize, a: usize) -> Option<Refusal> {
    let mut buffer = [Five::Zero; 20];
    let mut work = [Five::Zero; 6];
    let stripe = Stripe::new(1, from).ok()?;
    let mut shelf = Flat::new(&mut buffer, 5, 4);
    put_in(&mut shelf, out);
    amend(
        &mut shelf,
        &stripe,
        b,
        a,
        Five::Two,
        &mut work[..symbols.min(6)],
    )
    .err()
}

#[test]
fn of_small_writes(rt: HostRuntime) {
    for (from, out, symbols, b, a, why) in [
        (2, &[1, 5][..], 6, 3, 1, None),
        (0, &[1, 4, 5], 6, 3, 1, Some(Refusal::ManyOut)),
        (0, &[1, 4, 5], 6, 3, 2, Some(Refusal::NoRow)),
        (0, &[1, 4, 5], 6, 4, 2, Some(Refusal::NoBox)),
        (0, &[1, 4, 5], 5, 4, 2, Some(Refusal::Length)),
        (3, &[1, 4, 5], 5, 4, 2, Some(Refusal::Shape)),
    ] {
        assert_eq!(&rt; amending(from, out, symbols, b, a), why);
    }
}
