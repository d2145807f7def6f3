// Columns that blocks lead to: what undoes the blocks of one box, and the difference of the blocks of two.
ghost use Rattle.std.specs.Prelude.{◌≡◌, ℕ, ◌*◌, ◌^◌, ◌<◌, length, if◌then◌else◌, ◌≢◌};
ghost use Rattle.code.specs.Blocks.{◌∸◌};
ghost use Rattle.code.specs.Codes.{full, image, shift};
ghost use Rattle.code.specs.Contents.{Holds, at};
ghost use Rattle.code.specs.Decoding.{turn as turned};
ghost use Rattle.decoding.specs.Matrices.{entries};

use crate::matrix::Matrix;
use boxes::{Cabinet, Digit};
use field::{Quotients, Sums};

// What is lent is a slice, and each function asks for the length that it needs,
// and for the boxes that it is handed to be data boxes, and to differ.

// Makes every symbol of a column its negative.
pub(crate) fn negate<F: Sums>(column: &mut [F])
    ensures { Holds F.symbols F.value (length column.old) column.new (λ a. F.symbols.ring.negative (at F.symbols F.value column.old a)) }
{
    for symbol in column.iter_mut() {
        *symbol = symbol.negative();
    }
}

// A matrix along one digit of the rows of a column: of two, that which a digit
// of the pair's lower row chooses.
fn turn<F: Sums>(along: &Digit, by: &Digit, lower: Matrix<F>, upper: Matrix<F>, column: &mut [F])
    requires rows { length column.old ≡ 2 ^ along.now.digits }
    requires choice { by.now.place ≡ along.now.place → lower ≡ upper }
    ensures { Holds F.symbols F.value (2 ^ along.now.digits) column.new (turned F.symbols.ring along.now.place by.now.place (λ r. if r then entries F.value upper else entries F.value lower) (at F.symbols F.value column.old)) }
{
    for (low, high) in along.pairs() {
        let matrix = if by.is_upper(low) { upper } else { lower };
        let (s, t) = matrix.apply(column[low], column[high]);
        column[low] = s;
        column[high] = t;
    }
}

// Writes the column that the blocks of the data box in place x lead to the one that stood there.
pub(crate) fn undo_blocks<F: Quotients>(cabinet: &Cabinet<F>, x: usize, column: &mut [F])
    requires { length column.old ≡ 2 ^ cabinet.now.size.m }
    ensures { let m = cabinet.now.size.m in Holds F.symbols F.value (2 ^ m) column.old (image (full F.symbols m) x (at F.symbols F.value column.new)) }
{
    let digit = cabinet.size.digit(x);
    F::divides();
    let Some(undo) = Matrix::undo_shift(cabinet.block(x), F::zero()) else {
        // No mark is zero, and so no product of two.
        unreachable!()
    };
    turn(&digit, &digit, undo, undo, column);
}

// Two boxes of one direction: the difference of their blocks is undone pair by pair.
fn solve_same<F: Quotients>(cabinet: &Cabinet<F>, x: usize, y: usize, column: &mut [F])
    requires rows { length column.old ≡ 2 ^ cabinet.now.size.m }
    requires first { x < 3 * cabinet.now.size.m }
    requires second { y < 3 * cabinet.now.size.m }
    requires two { x ≢ y }
    requires same { let m = cabinet.now.size.m in let c = full F.symbols m in shift c x ≡ shift c y }
    ensures { let m = cabinet.now.size.m in let c = full F.symbols m in Holds F.symbols F.value (2 ^ m) column.old (λ a. ◌∸◌ F.symbols.ring (image c x (at F.symbols F.value column.new) a) (image c y (at F.symbols F.value column.new) a)) }
{
    let digit = cabinet.size.digit(x);
    let kind = cabinet.block(y).kind;
    let Some(undo) = Matrix::undo_difference(cabinet.block(x), kind) else {
        // The two marks of a direction differ.
        unreachable!()
    };
    turn(&digit, &digit, undo, undo, column);
}

// Two boxes of two directions: seen by the eigenvectors of the second box, its
// blocks multiply by p in one half of the rows and by q in the other, so that
// the blocks of the first, less that number, are to be undone.
fn solve_apart<F: Quotients>(cabinet: &Cabinet<F>, x: usize, y: usize, column: &mut [F])
    requires rows { length column.old ≡ 2 ^ cabinet.now.size.m }
    requires apart { let m = cabinet.now.size.m in let c = full F.symbols m in shift c x ≢ shift c y }
    ensures { let m = cabinet.now.size.m in let c = full F.symbols m in Holds F.symbols F.value (2 ^ m) column.old (λ a. ◌∸◌ F.symbols.ring (image c x (at F.symbols F.value column.new) a) (image c y (at F.symbols F.value column.new) a)) }
{
    let along = cabinet.size.digit(x);
    let by = cabinet.size.digit(y);
    let block = cabinet.block(x);
    let other = cabinet.block(y);
    F::divides();
    let Some(lower) = Matrix::undo_shift(block, other.p) else {
        // The marks of two directions differ.
        unreachable!()
    };
    let Some(upper) = Matrix::undo_shift(block, other.q) else {
        unreachable!()
    };
    let into = Matrix::into_eigen(other.kind);
    let out = Matrix::out_of_eigen(other.kind);
    turn(&by, &by, into, into, column);
    turn(&along, &by, lower, upper, column);
    turn(&by, &by, out, out, column);
}

// Writes the column in which the blocks of two data boxes differ by the one that stood there.
pub(crate) fn solve_difference<F: Quotients>(
    cabinet: &Cabinet<F>,
    x: usize,
    y: usize,
    column: &mut [F],
)
    requires rows { length column.old ≡ 2 ^ cabinet.now.size.m }
    requires first { x < 3 * cabinet.now.size.m }
    requires second { y < 3 * cabinet.now.size.m }
    requires two { x ≢ y }
    ensures { let m = cabinet.now.size.m in let c = full F.symbols m in Holds F.symbols F.value (2 ^ m) column.old (λ a. ◌∸◌ F.symbols.ring (image c x (at F.symbols F.value column.new) a) (image c y (at F.symbols F.value column.new) a)) }
{
    if cabinet.size.digit(x).place == cabinet.size.digit(y).place {
        solve_same(cabinet, x, y, column);
    } else {
        solve_apart(cabinet, x, y, column);
    }
}
