// Columns in lent slices: their sums, their images and their halves, one text for every field.
ghost use Rattle.std.specs.Prelude.{◌≡◌, ℕ, ◌+◌, ◌-◌, ◌*◌, ◌^◌, ◌<◌, ◌≤◌, true, false, [], ◌∷◌, length, MatchResult};
ghost use Rattle.code.specs.Blocks.{block as blocked};
ghost use Rattle.code.specs.Codes.{full, half_for, image};
ghost use Rattle.code.specs.Contents.{Holds, added, at};
ghost use Rattle.refusal.specs.Refusals.{earliest as first, few_marks, no_box, parity_box, refusal, wrong_lengths, wrong_size};

use boxes::{Cabinet, Size, kind_at};
use code::Block;
use field::Sums;
use refusal::{Refusal, fitting, holding_data, numbered};

// What is lent is a slice, and each function asks for the length that it needs:
// a type for a slice of 2^m symbols would be made anew at each call, to hold that alone.

// Makes every symbol of a column zero.
pub(crate) fn clear<F: Sums>(column: &mut [F])
    ensures { Holds F.symbols F.value (length column.old) column.new (λ _. F.symbols.ring.zero) }
{
    // `fill` clones, and it is not proved of a field's symbols what a clone is.
    for symbol in column.iter_mut() {
        *symbol = F::zero();
    }
}

// Adds a column into another of the same length, row by row.
pub(crate) fn add_rows<F: Sums>(sum: &mut [F], column: &[F])
    requires { length sum.old ≡ length column.now }
    ensures { Holds F.symbols F.value (length sum.old) sum.new (added F.symbols (at F.symbols F.value sum.old) (at F.symbols F.value column.now)) }
{
    // By rows: after a `zip` with `iter_mut` nothing would be known of what was written.
    for (a, symbol) in sum.iter_mut().enumerate() {
        *symbol = symbol.sum(column[a]);
    }
}

// From how many rows on a column is long.
const LONG: usize = 8;

// Adds what a block makes of a run: the rows i and i + weight are a pair, for i below the weight.
#[inline(always)]
fn add_side_by_side<F: Sums>(block: Block<F>, weight: usize, sum: &mut [F], column: &[F])
    requires sums { length sum.old ≡ 2 * weight }
    requires rows { length column.now ≡ 2 * weight }
    ensures lower { (i : ℕ) → i < weight → at F.symbols F.value sum.new i ≡ F.symbols.ring.plus (at F.symbols F.value sum.old i) (blocked F.symbols.ring block.kind (F.value block.p) (F.value block.q) (at F.symbols F.value column.now i) (at F.symbols F.value column.now (i + weight)) false) }
    ensures upper { (i : ℕ) → i < weight → at F.symbols F.value sum.new (i + weight) ≡ F.symbols.ring.plus (at F.symbols F.value sum.old (i + weight)) (blocked F.symbols.ring block.kind (F.value block.p) (F.value block.q) (at F.symbols F.value column.now i) (at F.symbols F.value column.now (i + weight)) true) }
{
    for i in 0..weight {
        let (s, t) = block.apply(column[i], column[i + weight]);
        sum[i] = sum[i].sum(s);
        sum[i + weight] = sum[i + weight].sum(t);
    }
}

// The same in a function of its own: compiled into a loop over runs, it would first
// work out for them all what only long ones need.
#[inline(never)]
fn add_apart<F: Sums>(block: Block<F>, weight: usize, sum: &mut [F], column: &[F])
    requires sums { length sum.old ≡ 2 * weight }
    requires rows { length column.now ≡ 2 * weight }
    ensures lower { (i : ℕ) → i < weight → at F.symbols F.value sum.new i ≡ F.symbols.ring.plus (at F.symbols F.value sum.old i) (blocked F.symbols.ring block.kind (F.value block.p) (F.value block.q) (at F.symbols F.value column.now i) (at F.symbols F.value column.now (i + weight)) false) }
    ensures upper { (i : ℕ) → i < weight → at F.symbols F.value sum.new (i + weight) ≡ F.symbols.ring.plus (at F.symbols F.value sum.old (i + weight)) (blocked F.symbols.ring block.kind (F.value block.p) (F.value block.q) (at F.symbols F.value column.now i) (at F.symbols F.value column.now (i + weight)) true) }
{
    add_side_by_side(block, weight, sum, column);
}

// The same for a run of a column of so many rows.
#[inline(always)]
fn add_run<F: Sums>(rows: usize, block: Block<F>, weight: usize, sum: &mut [F], column: &[F])
    requires sums { length sum.old ≡ 2 * weight }
    requires rows { length column.now ≡ 2 * weight }
    ensures lower { (i : ℕ) → i < weight → at F.symbols F.value sum.new i ≡ F.symbols.ring.plus (at F.symbols F.value sum.old i) (blocked F.symbols.ring block.kind (F.value block.p) (F.value block.q) (at F.symbols F.value column.now i) (at F.symbols F.value column.now (i + weight)) false) }
    ensures upper { (i : ℕ) → i < weight → at F.symbols F.value sum.new (i + weight) ≡ F.symbols.ring.plus (at F.symbols F.value sum.old (i + weight)) (blocked F.symbols.ring block.kind (F.value block.p) (F.value block.q) (at F.symbols F.value column.now i) (at F.symbols F.value column.now (i + weight)) true) }
{
    if rows < LONG {
        add_apart(block, weight, sum, column);
    } else {
        add_side_by_side(block, weight, sum, column);
    }
}

// Adds the image of the column of the data box in place b, run by run: so the
// rows that follow each other are done side by side.
pub(crate) fn add_pairs<F: Sums>(cabinet: &Cabinet<F>, b: usize, sum: &mut [F], column: &[F])
    requires sums { length sum.old ≡ 2 ^ cabinet.now.size.m }
    requires rows { length column.now ≡ 2 ^ cabinet.now.size.m }
    ensures { Holds F.symbols F.value (2 ^ cabinet.now.size.m) sum.new (added F.symbols (at F.symbols F.value sum.old) (image (full F.symbols cabinet.now.size.m) b (at F.symbols F.value column.now))) }
{
    let block = cabinet.block(b);
    let weight = cabinet.size.digit(b).weight();
    let run = 2 * weight;
    let rows = cabinet.size.rows();
    for r in 0..rows / run {
        let start = r * run;
        add_run(
            rows,
            block,
            weight,
            &mut sum[start..start + run],
            &column[start..start + run],
        );
    }
}

// Takes the half of a column, pair by pair, for the lost data box in place x.
fn take_half<F: Sums>(size: &Size, x: usize, column: &[F], half: &mut [F])
    requires rows { length column.now ≡ 2 ^ size.now.m }
    requires pairs { length half.old ≡ 2 ^ (size.now.m - 1) }
    ensures { Holds F.symbols F.value (2 ^ (size.now.m - 1)) half.new (half_for (full F.symbols size.now.m) x (at F.symbols F.value column.now)) }
{
    let kind = kind_at(size.m, x);
    let digit = size.digit(x);
    let weight = digit.weight();
    // By the pairs' numbers: after a `zip` with `iter_mut` nothing would be known of what was
    // written. Their rows are those of `Digit::pair`, which would be tested again for each.
    for (j, number) in half.iter_mut().enumerate() {
        let low = j + (j - j % weight);
        *number = kind.half(column[low], column[low + weight]);
    }
}

// Adds a column into another, row by row. Refused, with nothing written, if their lengths differ.
pub fn add_column<F: Sums>(sum: &mut [F], column: &[F]) -> Result<(), Refusal>
    ensures answer { refusal result ≡ first (wrong_lengths ((length column.now, length sum.old) ∷ []) ∷ []) }
    ensures sums { MatchResult result (λ _. Holds F.symbols F.value (length sum.old) sum.new (added F.symbols (at F.symbols F.value sum.old) (at F.symbols F.value column.now))) (λ _. sum.new ≡ sum.old) }
{
    fitting(&[(column.len(), sum.len())])?;
    add_rows(sum, column);
    Ok(())
}

// Adds the image of the column of data box b, from 1 to 3m, into another
// column. Refused, with nothing written, by a size, too few marks, a length or
// a box that does not fit.
pub fn add_image<F: Sums>(m: usize, b: usize, sum: &mut [F], column: &[F]) -> Result<(), Refusal>
    ensures answer { refusal result ≡ first (wrong_size m ∷ few_marks F.symbols m ∷ wrong_lengths ((length sum.old, 2 ^ m) ∷ (length column.now, 2 ^ m) ∷ []) ∷ no_box (3 * m) b ∷ []) }
    ensures sums { MatchResult result (λ _. Holds F.symbols F.value (2 ^ m) sum.new (added F.symbols (at F.symbols F.value sum.old) (image (full F.symbols m) (b - 1) (at F.symbols F.value column.now)))) (λ _. sum.new ≡ sum.old) }
{
    let cabinet = Cabinet::new(m)?;
    let rows = cabinet.size.rows();
    fitting(&[(sum.len(), rows), (column.len(), rows)])?;
    numbered(cabinet.size.boxes(), b)?;
    add_pairs(&cabinet, b - 1, sum, column);
    Ok(())
}

// Writes the half of a column for a lost data box: one number for each pair of
// the lost box's direction. Refused, with nothing written, by a size, a length
// or a box that does not fit.
pub fn half<F: Sums>(m: usize, lost: usize, column: &[F], into: &mut [F]) -> Result<(), Refusal>
    ensures answer { refusal result ≡ first (wrong_size m ∷ wrong_lengths ((length column.now, 2 ^ m) ∷ (length into.old, 2 ^ (m - 1)) ∷ []) ∷ no_box (3 * m + 2) lost ∷ parity_box (3 * m) lost ∷ []) }
    ensures half { MatchResult result (λ _. Holds F.symbols F.value (2 ^ (m - 1)) into.new (half_for (full F.symbols m) (lost - 1) (at F.symbols F.value column.now))) (λ _. into.new ≡ into.old) }
{
    let size = Size::new(m)?;
    fitting(&[(column.len(), size.rows()), (into.len(), size.pairs())])?;
    numbered(size.boxes() + 2, lost)?;
    holding_data(size.boxes(), lost)?;
    take_half(&size, lost - 1, column, into);
    Ok(())
}
