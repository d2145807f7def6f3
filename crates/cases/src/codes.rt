// The code against cases worked out by hand.
ghost use Rattle.std.specs.Prelude.{◌<◌, ◌≤◌};

use crate::fields::symbol;
use byte_field::Byte;
use columns::{add_column, add_image, half, parities, restore};
use field::{Quotients, Sums};
use four::Four;
use prime::five::Five;
use prime::words::Words;
use refusal::Refusal;
use std::alloc::Global;
use std::fmt::Debug;
use std::process::Abort;
use std::test::Fail;

// Symbols by their numbers.
pub(crate) fn symbols<F: Sums>(alloc: Global, numbers: &[u32]) -> Result<Vec<F>, Fail> {
    let mut symbols = Vec::new(alloc);
    for &n in numbers {
        symbols.push(symbol(n)?)?;
    }
    Ok(symbols)
}

pub(crate) fn are<F: Sums>(rt: &impl Abort, symbols: &[F], numbers: &[u32]) {
    assert_eq!(rt; symbols.len(), numbers.len());
    for (symbol, &n) in symbols.iter().zip(numbers) {
        assert_eq!(rt; symbol.number(), n);
    }
}

// By number, as a refusal is known outside.
pub(crate) fn refused(rt: &impl Abort, answer: Result<(), Refusal>, number: u32) {
    assert_eq!(rt; answer.map_err(Refusal::number), Err(number));
}

// A file and its two parities.
#[derive(Drop)]
struct Cabinet<F> {
    size: usize,
    // What a buffer holds before it is written.
    blank: F,
    file: Vec<F>,
    first: Vec<F>,
    second: Vec<F>,
    ghost sized: { size ≤ 6 },
}

impl<F: Quotients> Cabinet<F> {
    fn new(alloc: Global, size: usize, blank: F, file: &[u32]) -> Result<Cabinet<F>, Fail>
        requires { size ≤ 6 }
    {
        let file = symbols(alloc, file)?;
        let rows = 1 << size;
        let mut first = vec![in alloc; blank; rows]?;
        let mut second = vec![in alloc; blank; rows]?;
        parities(size, &file, &mut first, &mut second)?;
        Ok(Cabinet {
            size,
            blank,
            file,
            first,
            second,
        })
    }

    fn rows(&self) -> usize
        ensures { 0 < result }
    {
        1 << self.size
    }

    fn has_parities(&self, rt: &impl Abort, first: &[u32], second: &[u32]) {
        are(rt, &self.first, first);
        are(rt, &self.second, second);
    }

    // The halves of all boxes but the lost one, in rising order: gathered apart
    // from the program's, so that the tests do not rest on it.
    fn halves(&self, alloc: Global, lost: usize) -> Result<Vec<F>, Fail> {
        let parities = [self.first.as_slice(), self.second.as_slice()];
        let columns = self.file.chunks_exact(self.rows()).chain(parities);
        let mut halves = Vec::new(alloc);
        for (number, column) in (1..).zip(columns) {
            if number != lost {
                let mut sent = vec![in alloc; self.blank; self.rows() / 2]?;
                half(self.size, lost, column, &mut sent)?;
                halves.extend_from_slice(&sent)?;
            }
        }
        Ok(halves)
    }
}

// A file for m = 1, and its two parities, by numbers.
type Small = ([u32; 6], [u32; 2], [u32; 2]);

fn encodes<F: Quotients>(
    rt: &(impl Abort + AllocGlobal),
    blank: F,
    cases: &[Small],
) -> Result<(), Fail> {
    for (file, first, second) in cases {
        Cabinet::new(rt.alloc(), 1, blank, file)?.has_parities(rt, first, second);
    }
    Ok(())
}

#[test]
fn small_files(rt: HostRuntime) -> Result<(), Fail> {
    encodes(
        &rt,
        Five::One,
        &[
            ([1, 2, 3, 4, 0, 1], [4, 2], [2, 1]),
            ([1, 0, 3, 4, 0, 1], [4, 0], [1, 4]),
        ],
    )?;
    encodes(
        &rt,
        Four::One,
        &[
            ([1, 0, 0, 0, 0, 0], [1, 0], [2, 0]),
            ([0, 1, 0, 0, 0, 0], [0, 1], [1, 3]),
        ],
    )?;
    encodes(
        &rt,
        Byte(1),
        &[([0x57, 0x83, 0, 0, 0, 0], [0x57, 0x83], [0x30, 0x83])],
    )
}

#[test]
fn small_words(rt: HostRuntime) -> Result<(), Fail> {
    encodes(
        &rt,
        Words::Top,
        &[
            ([0, 0, 0, 0, 65536, 1], [65536, 1], [65536, 2]),
            ([65536, 65536, 0, 0, 0, 0], [65536, 65536], [65534, 65536]),
        ],
    )
}

// m = 2, zero but for 1 at box 4, row 2.
#[test]
fn single_symbol(rt: HostRuntime) -> Result<(), Fail> {
    let mut file = [0; 24];
    file[14] = 1;
    Cabinet::new(rt.alloc(), 2, Five::Two, &file)?.has_parities(&rt, &[0, 0, 1, 0], &[0, 0, 3, 4]);
    Ok(())
}

// The halves 3, 0, 4, 2 of boxes 2 to 5 give box 1, and 3, 2, 1, 3 of the others give box 3.
#[test]
fn lost_columns(rt: HostRuntime) -> Result<(), Fail> {
    let mut column = [Five::Zero; 2];
    for (lost, halves, expected) in [(1, [3, 0, 4, 2], [1, 2]), (3, [3, 2, 1, 3], [0, 1])] {
        let halves: Vec<Five> = symbols(rt.alloc(), &halves)?;
        restore(1, lost, &halves, &mut column)?;
        are(&rt, &column, &expected);
    }
    Ok(())
}

// The half of (1, 2, 3, 4) for a lost box of each kind and direction, m = 2.
#[test]
fn halves(rt: HostRuntime) -> Result<(), Fail> {
    let column: Vec<Five> = symbols(rt.alloc(), &[1, 2, 3, 4])?;
    let expected = [[1, 2], [1, 3], [3, 4], [2, 4], [4, 1], [3, 2]];
    for (lost, numbers) in (1..=6).zip(expected) {
        let mut into = [Five::Zero; 2];
        half(2, lost, &column, &mut into)?;
        are(&rt, &into, &numbers);
    }
    Ok(())
}

// Sums and images of one column at a time: box 1 of the small file over five, marks 1 and 4.
#[test]
fn columns_added(rt: HostRuntime) -> Result<(), Fail> {
    let mut sum = [Five::One, Five::Two];
    let column = [Five::One, Five::Two];
    add_column(&mut sum, &column)?;
    are(&rt, &sum, &[2, 4]);
    for (b, expected) in (1..=3).zip([[2, 1], [1, 0], [2, 3]]) {
        add_image(1, b, &mut sum, &column)?;
        are(&rt, &sum, &expected);
    }
    Ok(())
}

// Each lost data box comes back from the halves of the others.
fn comes_back<F: Quotients + PartialEq + Debug>(
    rt: &(impl Abort + AllocGlobal),
    cabinet: &Cabinet<F>,
) -> Result<(), Fail> {
    for (lost, column) in (1..).zip(cabinet.file.chunks_exact(cabinet.rows())) {
        let halves = cabinet.halves(rt.alloc(), lost)?;
        let mut renewed = vec![in rt.alloc(); cabinet.blank; cabinet.rows()]?;
        restore(cabinet.size, lost, &halves, &mut renewed)?;
        assert_eq!(rt; renewed.as_slice(), column);
    }
    Ok(())
}

#[test]
fn renewed_bytes(rt: HostRuntime) -> Result<(), Fail> {
    let file = [
        101, 104, 98, 107, 188, 192, 181, 196, 110, 113, 109, 95, 201, 205, 199, 187, 92, 90, 88,
        103, 176, 180, 171, 168,
    ];
    comes_back(&rt, &Cabinet::new(rt.alloc(), 2, Byte(0), &file)?)
}

#[test]
fn renewed_words(rt: HostRuntime) -> Result<(), Fail> {
    let file = [
        65536, 0, 1, 65535, 40000, 12345, 54321, 2, 3, 5, 8, 13, 21, 34, 55, 89, 144, 233, 377,
        610, 987, 1597, 2584, 4181,
    ];
    comes_back(&rt, &Cabinet::new(rt.alloc(), 2, Words::Top, &file)?)
}

// What does not fit is refused by the earliest number, and nothing is written.
#[test]
fn refusals(rt: HostRuntime) {
    let file = [Five::One; 6];
    let mut first = [Five::Two; 2];
    let mut second = [Five::Two; 2];
    refused(&rt, parities(0, &file, &mut first, &mut second), 2);
    refused(&rt, parities(7, &file, &mut first, &mut second), 2);
    refused(&rt, parities(3, &file, &mut first, &mut second), 3);
    refused(&rt, parities(2, &file, &mut first, &mut second), 5);
    refused(&rt, half(1, 4, &first, &mut [Five::Two]), 11);
    refused(&rt, half(1, 6, &file, &mut [Five::Two]), 5);
    refused(&rt, half(1, 6, &first, &mut [Five::Two]), 6);
    refused(&rt, restore(1, 0, &[Five::One; 4], &mut first), 6);
    refused(&rt, restore(1, 5, &[Five::One; 4], &mut first), 11);
    refused(&rt, restore(1, 5, &[Five::One; 3], &mut first), 5);
    refused(&rt, add_image(1, 4, &mut first, &second), 6);
    refused(&rt, add_column(&mut first, &file), 5);
    are(&rt, &first, &[2, 2]);
    are(&rt, &second, &[2, 2]);
}

#[test]
fn refusal_texts(rt: HostRuntime) -> Result<(), Fail> {
    let texts = [
        (Refusal::NotSetUp, "the vault is not set up"),
        (Refusal::Size, "the size is outside 1 to 6"),
        (Refusal::Marks, "the field has too few marks"),
        (Refusal::Shape, "the shelf has other boxes or rows"),
        (Refusal::Length, "a buffer has the wrong length"),
        (Refusal::NoBox, "there is no box of that number"),
        (Refusal::NoRow, "there is no row of that number"),
        (Refusal::Out, "the box is out"),
        (Refusal::Standing, "the box stands"),
        (Refusal::ManyOut, "three or more boxes are out"),
        (
            Refusal::NotRenewable,
            "the box is a parity box, or a second box is out",
        ),
        (
            Refusal::Helper,
            "the helper is the lost box, or has been heard already",
        ),
        (Refusal::Unheard, "a helper has not been heard yet"),
    ];
    for (why, text) in texts {
        assert_eq!(rt; format!(in rt.alloc(); "{why}")?.as_str(), text);
    }
    Ok(())
}
