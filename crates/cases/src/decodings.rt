// Decoding against the worked case of the small cabinet, and against columns worked out by hand.
use crate::codes::{are, refused};
use crate::fields::symbol;
use byte_field::Byte;
use decoding::decode;
use field::{Quotients, Sums};
use prime::five::Five;
use std::process::Abort;
use std::test::Fail;

// By numbers, the columns of the five boxes of a cabinet over five, m = 1, one
// after another: three of data, then the two parities.
type Columns = [u32; 10];

const COLUMNS: Columns = [1, 2, 3, 4, 0, 1, 4, 2, 2, 1];

// Other symbols for each place.
const OTHERS: Columns = [3, 0, 2, 2, 4, 3, 1, 1, 0, 3];

// The small cabinet, with other symbols in the boxes that are out.
fn overwritten(out: &[usize]) -> Columns {
    let mut columns = COLUMNS;
    for (place, number) in columns.iter_mut().enumerate() {
        if out.contains(&(place / 2 + 1)) {
            *number = OTHERS[place];
        }
    }
    columns
}

fn symbols(numbers: &Columns) -> Result<[Five; 10], Fail> {
    let mut symbols = [Five::Zero; 10];
    for (place, made) in symbols.iter_mut().enumerate() {
        *made = symbol(numbers[place])?;
    }
    Ok(symbols)
}

// What stands in the five boxes before, and after decoding.
fn decodes(rt: &impl Abort, out: &[usize], before: &Columns, after: &Columns) -> Result<(), Fail> {
    let mut columns = symbols(before)?;
    let (file, parities) = columns.split_at_mut(6);
    let (first, second) = parities.split_at_mut(2);
    decode(1, out, file, first, second)?;
    are(rt, &columns, after);
    Ok(())
}

#[test]
fn boxes_1_and_2(rt: HostRuntime) -> Result<(), Fail> {
    decodes(&rt, &[1, 2], &[3, 0, 2, 2, 0, 1, 4, 2, 2, 1], &COLUMNS)
}

// Each choice of one or two boxes; where y is x, one box is named twice.
#[test]
fn each_choice(rt: HostRuntime) -> Result<(), Fail> {
    for x in 1..=5 {
        decodes(&rt, &[x], &overwritten(&[x]), &COLUMNS)?;
        for y in x..=5 {
            decodes(&rt, &[y, x, y], &overwritten(&[x, y]), &COLUMNS)?;
        }
    }
    Ok(())
}

// Box 2 is (2, 2) less (1, 2) and (0, 1), by the first parity alone. The second
// would be (4, 2), and stays as it was until its own box is out.
#[test]
fn first_parity_decides(rt: HostRuntime) -> Result<(), Fail> {
    let found = [1, 2, 1, 4, 0, 1, 2, 2, 3, 3];
    decodes(&rt, &[2], &[1, 2, 0, 0, 0, 1, 2, 2, 3, 3], &found)?;
    decodes(&rt, &[], &found, &found)?;
    decodes(&rt, &[5], &found, &[1, 2, 1, 4, 0, 1, 2, 2, 4, 2])
}

// Box 1, row 1 amended to 0: the parities that are out are encoded again.
#[test]
fn parities_out(rt: HostRuntime) -> Result<(), Fail> {
    let amended = [1, 0, 3, 4, 0, 1, 4, 2, 2, 1];
    decodes(&rt, &[4], &amended, &[1, 0, 3, 4, 0, 1, 4, 0, 2, 1])?;
    decodes(&rt, &[4, 5], &amended, &[1, 0, 3, 4, 0, 1, 4, 0, 1, 4])
}

// A size, the boxes out, the lengths of the three buffers, and the number of the refusal.
type Case<'a> = (usize, &'a [usize], [usize; 3], u32);

// Nothing is written.
fn declined<F: Quotients>(
    rt: &(impl Abort + AllocGlobal),
    (m, out, lengths, number): Case,
) -> Result<(), Fail> {
    let mut file = vec![in rt.alloc(); F::one(); lengths[0]]?;
    let mut first = vec![in rt.alloc(); F::one(); lengths[1]]?;
    let mut second = vec![in rt.alloc(); F::one(); lengths[2]]?;
    refused(
        rt,
        decode(m, out, &mut file, &mut first, &mut second),
        number,
    );
    for symbol in file.iter().chain(&first).chain(&second) {
        assert_eq!(rt; symbol.number(), 1);
    }
    Ok(())
}

// Calls that do not fit in one way alone.
#[test]
fn refusals(rt: HostRuntime) -> Result<(), Fail> {
    declined::<Five>(&rt, (0, &[], [0, 1, 1], 2))?;
    declined::<Byte>(&rt, (7, &[1], [2688, 128, 128], 2))?;
    let cases: [Case; 8] = [
        (3, &[1], [72, 8, 8], 3),
        (1, &[1], [5, 2, 2], 5),
        (1, &[1], [6, 3, 2], 5),
        (1, &[1], [6, 2, 1], 5),
        (1, &[0], [6, 2, 2], 6),
        (1, &[1, 6], [6, 2, 2], 6),
        (1, &[1, 2, 3], [6, 2, 2], 10),
        (1, &[5, 4, 4, 2], [6, 2, 2], 10),
    ];
    for case in cases {
        declined::<Five>(&rt, case)?;
    }
    Ok(())
}

// Calls that do not fit in more ways than one.
#[test]
fn earliest_refusals(rt: HostRuntime) -> Result<(), Fail> {
    let cases: [Case; 4] = [
        (7, &[0], [6, 2, 2], 2),
        (3, &[0], [6, 2, 2], 3),
        (1, &[6], [6, 2, 3], 5),
        (1, &[1, 2, 3, 6], [6, 2, 2], 6),
    ];
    for case in cases {
        declined::<Five>(&rt, case)?;
    }
    Ok(())
}
