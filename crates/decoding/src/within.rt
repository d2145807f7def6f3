// The columns of a file, one changed by itself or by another one.
ghost use Rattle.std.specs.Prelude.{◌≡◌, ℕ, ◌+◌, ◌*◌, ◌^◌, ◌<◌, ◌≤◌, length, ◌≢◌};
ghost use Rattle.code.specs.Codes.{Alike, full, image};
ghost use Rattle.code.specs.Contents.{Holds, added, at, parts};
ghost use Rattle.columns.specs.Parities.{share};
ghost use Rattle.decoding.specs.Steps.{Kept, Replaced, less, others};

use crate::solving::{negate, solve_difference, undo_blocks};
use boxes::Cabinet;
use columns::{Parity, add_column, add_image};
use field::{Quotients, Sums};

// Adds the share that the column of the data box in place b has in a parity column.
fn add_share<F: Sums>(cabinet: &Cabinet<F>, which: Parity, b: usize, sum: &mut [F], column: &[F])
    requires sums { length sum.old ≡ 2 ^ cabinet.now.size.m }
    requires rows { length column.now ≡ 2 ^ cabinet.now.size.m }
    requires data { b < 3 * cabinet.now.size.m }
    ensures { let m = cabinet.now.size.m in Holds F.symbols F.value (2 ^ m) sum.new (added F.symbols (at F.symbols F.value sum.old) (share which (full F.symbols m) b (at F.symbols F.value column.now))) }
{
    match which {
        Parity::First => add_column(sum, column).unwrap(),
        Parity::Second => add_image(cabinet.size.m, b + 1, sum, column).unwrap(),
    }
}

// Makes the column in place x its negative.
fn negate_within<F: Sums>(cabinet: &Cabinet<F>, x: usize, file: &mut [F])
    requires whole { let m = cabinet.now.size.m in length file.old ≡ 3 * m * 2 ^ m }
    requires data { x < 3 * cabinet.now.size.m }
    ensures { let m = cabinet.now.size.m in let columns = parts F.symbols F.value (2 ^ m) in Replaced (2 ^ m) x (columns file.old) (λ a. F.symbols.ring.negative (columns file.old x a)) (columns file.new) }
{
    let rows = cabinet.size.rows();
    negate(&mut file[x * rows..(x + 1) * rows]);
}

// Column b of some columns of as many rows.
fn part<F: Sums>(columns: &[F], rows: usize, b: usize) -> &[F]
    requires { b * rows + rows ≤ length columns.now }
    ensures rows { length result.now ≡ rows }
    ensures column { Holds F.symbols F.value rows result.now (parts F.symbols F.value rows columns.now b) }
{
    &columns[b * rows..b * rows + rows]
}

// Adds the share of the column in place b to the column in place x.
fn add_within<F: Sums>(cabinet: &Cabinet<F>, which: Parity, b: usize, x: usize, file: &mut [F])
    requires whole { let m = cabinet.now.size.m in length file.old ≡ 3 * m * 2 ^ m }
    requires data { x < 3 * cabinet.now.size.m }
    requires other { b < 3 * cabinet.now.size.m }
    requires two { b ≢ x }
    ensures { let m = cabinet.now.size.m in let columns = parts F.symbols F.value (2 ^ m) in Replaced (2 ^ m) x (columns file.old) (added F.symbols (columns file.old x) (share which (full F.symbols m) b (columns file.old b))) (columns file.new) }
{
    let rows = cabinet.size.rows();
    let (before, rest) = file.split_at_mut(x * rows);
    let (column, after) = rest.split_at_mut(rows);
    if b < x {
        add_share(cabinet, which, b, column, part(before, rows, b));
    } else {
        add_share(cabinet, which, b, column, part(after, rows, b - x - 1));
    }
}

// Adds the shares of all data boxes but those in the places x and y to the column in place `into`.
fn add_others<F: Sums>(
    cabinet: &Cabinet<F>,
    which: Parity,
    x: usize,
    y: usize,
    into: usize,
    file: &mut [F],
)
    requires whole { let m = cabinet.now.size.m in length file.old ≡ 3 * m * 2 ^ m }
    requires data { into < 3 * cabinet.now.size.m }
    requires one { (b : ℕ) → b ≢ x → b ≢ y → b ≢ into }
    ensures { let m = cabinet.now.size.m in let columns = parts F.symbols F.value (2 ^ m) in Replaced (2 ^ m) into (columns file.old) (added F.symbols (columns file.old into) (others which (full F.symbols m) x y (columns file.old))) (columns file.new) }
{
    for b in 0..cabinet.size.boxes() {
        if b != x && b != y {
            add_within(cabinet, which, b, into, file);
        }
    }
}

// Takes the shares of all data boxes but those in the places x and y off the
// parity column that stands in place `into`.
pub(crate) fn take_others<F: Sums>(
    cabinet: &Cabinet<F>,
    which: Parity,
    x: usize,
    y: usize,
    into: usize,
    file: &mut [F],
)
    requires whole { let m = cabinet.now.size.m in length file.old ≡ 3 * m * 2 ^ m }
    requires data { into < 3 * cabinet.now.size.m }
    requires one { (b : ℕ) → b ≢ x → b ≢ y → b ≢ into }
    ensures { let m = cabinet.now.size.m in let columns = parts F.symbols F.value (2 ^ m) in Replaced (2 ^ m) into (columns file.old) (less F.symbols.ring (columns file.old into) (others which (full F.symbols m) x y (columns file.old))) (columns file.new) }
{
    negate_within(cabinet, into, file);
    add_others(cabinet, which, x, y, into, file);
    negate_within(cabinet, into, file);
}

// Takes the share of the column in place b off the column in place x.
pub(crate) fn take_within<F: Sums>(
    cabinet: &Cabinet<F>,
    which: Parity,
    b: usize,
    x: usize,
    file: &mut [F],
)
    requires whole { let m = cabinet.now.size.m in length file.old ≡ 3 * m * 2 ^ m }
    requires data { x < 3 * cabinet.now.size.m }
    requires other { b < 3 * cabinet.now.size.m }
    requires two { b ≢ x }
    ensures { let m = cabinet.now.size.m in let columns = parts F.symbols F.value (2 ^ m) in Replaced (2 ^ m) x (columns file.old) (less F.symbols.ring (columns file.old x) (share which (full F.symbols m) b (columns file.old b))) (columns file.new) }
{
    negate_within(cabinet, x, file);
    add_within(cabinet, which, b, x, file);
    negate_within(cabinet, x, file);
}

// Undoes the blocks of the data box in place x on the column that stands there.
pub(crate) fn undo_within<F: Quotients>(cabinet: &Cabinet<F>, x: usize, file: &mut [F])
    requires whole { let m = cabinet.now.size.m in length file.old ≡ 3 * m * 2 ^ m }
    requires data { x < 3 * cabinet.now.size.m }
    ensures others { let m = cabinet.now.size.m in let columns = parts F.symbols F.value (2 ^ m) in Kept (2 ^ m) x (columns file.old) (columns file.new) }
    ensures blocks { let m = cabinet.now.size.m in let columns = parts F.symbols F.value (2 ^ m) in let c = full F.symbols m in Alike c (columns file.old x) (image c x (columns file.new x)) }
{
    let rows = cabinet.size.rows();
    undo_blocks(cabinet, x, &mut file[x * rows..(x + 1) * rows]);
}

// In place x, writes the column of which the blocks of the data boxes in the
// places x and y make columns that differ by the one that stands there.
pub(crate) fn solve_within<F: Quotients>(cabinet: &Cabinet<F>, x: usize, y: usize, file: &mut [F])
    requires whole { let m = cabinet.now.size.m in length file.old ≡ 3 * m * 2 ^ m }
    requires first { x < 3 * cabinet.now.size.m }
    requires second { y < 3 * cabinet.now.size.m }
    requires two { x ≢ y }
    ensures others { let m = cabinet.now.size.m in let columns = parts F.symbols F.value (2 ^ m) in Kept (2 ^ m) x (columns file.old) (columns file.new) }
    ensures difference { let m = cabinet.now.size.m in let columns = parts F.symbols F.value (2 ^ m) in let c = full F.symbols m in Alike c (columns file.old x) (less F.symbols.ring (image c x (columns file.new x)) (image c y (columns file.new x))) }
{
    let rows = cabinet.size.rows();
    solve_difference(cabinet, x, y, &mut file[x * rows..(x + 1) * rows]);
}
