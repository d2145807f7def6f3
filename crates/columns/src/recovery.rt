// A lost column from the halves of all other boxes.
ghost use Rattle.std.specs.Prelude.{◌≡◌, ℕ, suc, ◌+◌, ◌-◌, ◌*◌, ◌^◌, ◌<◌, ◌≤◌, true, false, [], ◌∷◌, length, if◌then◌else◌, MatchResult, ◌≢◌};
ghost use Rattle.boxes.specs.Boxes.{BlockOf};
ghost use Rattle.code.specs.Blocks.{◌∸◌, block as blocked};
ghost use Rattle.code.specs.Codes.{full, Given, image, kind as kinded, shift};
ghost use Rattle.code.specs.Contents.{Holds, at, parts};
ghost use Rattle.code.specs.Recovery.{half_image, recover as recovered_pair, recovered, seat as seated, taken, taken_image};
ghost use Rattle.code.specs.Rows.{digit, lower, odd, pair_of, partner};
ghost use Rattle.columns.specs.Sides.{less, sides};
ghost use Rattle.refusal.specs.Refusals.{earliest as first, few_marks, no_box, parity_box, refusal, wrong_lengths, wrong_size};

use boxes::{Cabinet, Digit, kind_at};
use code::{Block, Kind};
use field::{Quotients, Sums};
use refusal::{Refusal, fitting, holding_data, numbered};

// Until it is known, the lost column holds two halves: one in the lower rows of the
// pairs along the lost box's digit, one in the upper rows. They begin as the halves
// of the two parities; less the half of each other data box's column, and of its
// image, they are those of the lost column and of its image.

// What a box of another direction takes off the two rows of a pair along its own
// digit. Along the lost box's digit both are lower rows or both upper ones: from
// lower rows the numbers of the half; from upper ones what the block makes of them,
// since it acts on the half as on a column.
fn share<F: Sums>(along: &Digit, block: Block<F>, half: &[F], low: usize, high: usize) -> (F, F)
    requires pairs { length half.now ≡ 2 ^ (along.now.digits - 1) }
    requires low { low < 2 ^ along.now.digits }
    requires high { high < 2 ^ along.now.digits }
    ensures lower { F.value result.0 ≡ (if odd (digit along.now.place low) then blocked F.symbols.ring block.kind (F.value block.p) (F.value block.q) (at F.symbols F.value half.now (pair_of along.now.place low)) (at F.symbols F.value half.now (pair_of along.now.place high)) false else at F.symbols F.value half.now (pair_of along.now.place low)) }
    ensures upper { F.value result.1 ≡ (if odd (digit along.now.place low) then blocked F.symbols.ring block.kind (F.value block.p) (F.value block.q) (at F.symbols F.value half.now (pair_of along.now.place low)) (at F.symbols F.value half.now (pair_of along.now.place high)) true else at F.symbols F.value half.now (pair_of along.now.place high)) }
{
    let s = half[along.pair_index(low)];
    let t = half[along.pair_index(high)];
    if along.is_upper(low) {
        block.apply(s, t)
    } else {
        (s, t)
    }
}

// Takes two numbers off two rows.
fn subtract_pair<F: Sums>(column: &mut [F], low: usize, high: usize, numbers: (F, F))
    requires rising { low < high }
    requires inside { high < length column.old }
    ensures low { at F.symbols F.value column.new low ≡ ◌∸◌ F.symbols.ring (at F.symbols F.value column.old low) (F.value numbers.0) }
    ensures high { at F.symbols F.value column.new high ≡ ◌∸◌ F.symbols.ring (at F.symbols F.value column.old high) (F.value numbers.1) }
    ensures rest { (a : ℕ) → a ≢ low → a ≢ high → at F.symbols F.value column.new a ≡ at F.symbols F.value column.old a }
{
    column[low] = column[low].minus(numbers.0);
    column[high] = column[high].minus(numbers.1);
}

// Takes off what a box of the lost box's direction sent: its half off the lower
// rows, the half times an eigenvalue off the upper ones.
#[inline(always)]
fn subtract_multiple<F: Sums>(along: &Digit, eigenvalue: F, half: &[F], column: &mut [F])
    requires pairs { length half.now ≡ 2 ^ (along.now.digits - 1) }
    requires rows { length column.old ≡ 2 ^ along.now.digits }
    ensures { Holds F.symbols F.value (2 ^ along.now.digits) column.new (less F.symbols (at F.symbols F.value column.old) (sides along.now.place (at F.symbols F.value half.now) (λ j. F.symbols.ring.times (F.value eigenvalue) (at F.symbols F.value half.now j)))) }
{
    for (j, (low, high)) in along.pairs().enumerate() {
        subtract_pair(column, low, high, (half[j], eigenvalue.product(half[j])));
    }
}

// Recovers each pair along the digit from what stands in its two rows: its half
// and the half of its block. d is the inverse of the block's gap.
#[inline(always)]
fn recover_pairs<F: Sums>(along: &Digit, block: Block<F>, d: F, column: &mut [F])
    requires { length column.old ≡ 2 ^ along.now.digits }
    ensures { Holds F.symbols F.value (2 ^ along.now.digits) column.new (λ a. recovered_pair F.symbols.ring block.kind (F.value block.p) (F.value block.q) (F.value d) (at F.symbols F.value column.old (partner along.now.place false a)) (at F.symbols F.value column.old (partner along.now.place true a)) (odd (digit along.now.place a))) }
{
    for (low, high) in along.pairs() {
        let (s, t) = block.recover(d, column[low], column[high]);
        column[low] = s;
        column[high] = t;
    }
}

// The place of the helper in place b among all boxes, with the lost box left out.
fn seat(lost: usize, b: usize) -> usize
    requires { b ≢ lost }
    ensures { result ≡ seated lost b }
{
    if b < lost { b } else { b - 1 }
}

// What the helpers of a lost data box sent: a half of each, helpers in rising order.
#[derive(Drop)]
struct Halves<'a, F: Sums> {
    cabinet: Cabinet<F>,
    // The place of the lost box, from 0, its kind and the digit of its direction:
    // worked out once, since every box that is taken off asks for them.
    lost: usize,
    kind: Kind,
    along: Digit,
    numbers: &'a [F],
    ghost data: { lost < 3 * cabinet.size.m },
    ghost whole: { length numbers.now ≡ (3 * cabinet.size.m + 1) * 2 ^ (cabinet.size.m - 1) },
    ghost is_kind: { kind ≡ kinded (full F.symbols cabinet.size.m) lost },
    ghost digits: { along.digits ≡ cabinet.size.m },
    ghost place: { along.place ≡ shift (full F.symbols cabinet.size.m) lost },
}

// Numbers of pairs and the lengths of halves and columns are asked for: a type for
// one would hold that bound alone (see column.rt).
// Inlined into one function, in which what is known of the lost box stays at hand:
// behind a reference it would be read and worked out again after each symbol written.
impl<'a, F: Sums> Halves<'a, F> {
    // Those sent for the lost box, from 1 to 3m.
    fn new(cabinet: Cabinet<F>, lost: usize, numbers: &'a [F]) -> Self
        requires first { 1 ≤ lost }
        requires last { lost ≤ 3 * cabinet.size.m }
        requires whole { length numbers.now ≡ (3 * cabinet.size.m + 1) * 2 ^ (cabinet.size.m - 1) }
        ensures size { result.cabinet.size.m ≡ cabinet.size.m }
        ensures place { result.lost ≡ lost - 1 }
        ensures numbers { result.numbers.now ≡ numbers.now }
    {
        let lost = lost - 1;
        Halves {
            lost,
            kind: kind_at(cabinet.size.m, lost),
            along: cabinet.size.digit(lost),
            cabinet,
            numbers,
        }
    }

    // The half that the helper in place b sent.
    #[inline(always)]
    fn half(&self, b: usize) -> &'a [F]
        requires helper { b < 3 * self.now.cabinet.size.m + 2 }
        requires other { b ≢ self.now.lost }
        ensures pairs { length result.now ≡ 2 ^ (self.now.cabinet.size.m - 1) }
        ensures numbers { (j : ℕ) → j < 2 ^ (self.now.cabinet.size.m - 1) → at F.symbols F.value result.now j ≡ parts F.symbols F.value (2 ^ (self.now.cabinet.size.m - 1)) self.now.numbers.now (seated self.now.lost b) j }
    {
        let pairs = self.cabinet.size.pairs();
        let start = seat(self.lost, b) * pairs;
        &self.numbers[start..start + pairs]
    }

    // Takes off what a box of another direction sent, two numbers at a time.
    fn subtract_image(&self, b: usize, half: &[F], column: &mut [F])
        requires pairs { length half.now ≡ 2 ^ (self.now.cabinet.size.m - 1) }
        requires rows { length column.old ≡ 2 ^ self.now.cabinet.size.m }
        requires across { shift (full F.symbols self.now.cabinet.size.m) self.now.lost ≢ shift (full F.symbols self.now.cabinet.size.m) b }
        ensures { Holds F.symbols F.value (2 ^ self.now.cabinet.size.m) column.new (less F.symbols (at F.symbols F.value column.old) (sides (shift (full F.symbols self.now.cabinet.size.m) self.now.lost) (at F.symbols F.value half.now) (λ j. image (full F.symbols self.now.cabinet.size.m) b (λ a. at F.symbols F.value half.now (pair_of (shift (full F.symbols self.now.cabinet.size.m) self.now.lost) a)) (lower (shift (full F.symbols self.now.cabinet.size.m) self.now.lost) j)))) }
    {
        let across = self.cabinet.size.digit(b);
        let block = self.cabinet.block(b);
        for (low, high) in across.pairs() {
            subtract_pair(
                column,
                low,
                high,
                share(&self.along, block, half, low, high),
            );
        }
    }

    // Takes off what the data box in place b sent: its half off the lower rows,
    // the half of its image off the upper ones.
    #[inline(always)]
    fn subtract_box(&self, b: usize, column: &mut [F])
        requires rows { length column.old ≡ 2 ^ self.now.cabinet.size.m }
        requires helper { b < 3 * self.now.cabinet.size.m }
        requires other { b ≢ self.now.lost }
        ensures { Holds F.symbols F.value (2 ^ self.now.cabinet.size.m) column.new (less F.symbols (at F.symbols F.value column.old) (sides (shift (full F.symbols self.now.cabinet.size.m) self.now.lost) (parts F.symbols F.value (2 ^ (self.now.cabinet.size.m - 1)) self.now.numbers.now (seated self.now.lost b)) (half_image (full F.symbols self.now.cabinet.size.m) self.now.lost b (parts F.symbols F.value (2 ^ (self.now.cabinet.size.m - 1)) self.now.numbers.now (seated self.now.lost b))))) }
    {
        let half = self.half(b);
        let along = &self.along;
        if self.cabinet.size.digit(b).place == along.place {
            let eigenvalue = self.cabinet.block(b).eigenvalue(self.kind);
            subtract_multiple(along, eigenvalue, half, column);
        } else {
            self.subtract_image(b, half, column);
        }
    }

    // Takes off what all data boxes but the lost one sent.
    #[inline(always)]
    fn subtract_boxes(&self, column: &mut [F])
        requires { length column.old ≡ 2 ^ self.now.cabinet.size.m }
        ensures { Holds F.symbols F.value (2 ^ self.now.cabinet.size.m) column.new (less F.symbols (at F.symbols F.value column.old) (sides (shift (full F.symbols self.now.cabinet.size.m) self.now.lost) (taken (full F.symbols self.now.cabinet.size.m) self.now.lost (3 * self.now.cabinet.size.m) (parts F.symbols F.value (2 ^ (self.now.cabinet.size.m - 1)) self.now.numbers.now)) (taken_image (full F.symbols self.now.cabinet.size.m) self.now.lost (3 * self.now.cabinet.size.m) (parts F.symbols F.value (2 ^ (self.now.cabinet.size.m - 1)) self.now.numbers.now)))) }
    {
        // Over the boxes and not the halves, since the lost box has none.
        for b in 0..self.cabinet.size.boxes() {
            if b == self.lost {
                continue;
            }
            self.subtract_box(b, column);
        }
    }

    // Writes the halves of the two parities, which the last two helpers sent.
    #[inline(always)]
    fn write_parities(&self, column: &mut [F])
        requires { length column.old ≡ 2 ^ self.now.cabinet.size.m }
        ensures { Holds F.symbols F.value (2 ^ self.now.cabinet.size.m) column.new (sides (shift (full F.symbols self.now.cabinet.size.m) self.now.lost) (parts F.symbols F.value (2 ^ (self.now.cabinet.size.m - 1)) self.now.numbers.now (seated self.now.lost (3 * self.now.cabinet.size.m))) (parts F.symbols F.value (2 ^ (self.now.cabinet.size.m - 1)) self.now.numbers.now (seated self.now.lost (suc (3 * self.now.cabinet.size.m))))) }
    {
        let boxes = self.cabinet.size.boxes();
        let first = self.half(boxes);
        let second = self.half(boxes + 1);
        for (j, (low, high)) in self.along.pairs().enumerate() {
            column[low] = first[j];
            column[high] = second[j];
        }
    }

    // Writes the lost column, by the lost box's block; d is the inverse of its gap.
    #[inline(always)]
    fn write(&self, block: Block<F>, d: F, column: &mut [F])
        requires block { BlockOf (full F.symbols self.now.cabinet.size.m) self.now.lost block.kind (F.value block.p) (F.value block.q) }
        requires rows { length column.old ≡ 2 ^ self.now.cabinet.size.m }
        ensures { Holds F.symbols F.value (2 ^ self.now.cabinet.size.m) column.new (λ a. recovered (full F.symbols self.now.cabinet.size.m) self.now.lost (F.value d) (parts F.symbols F.value (2 ^ (self.now.cabinet.size.m - 1)) self.now.numbers.now) (pair_of (shift (full F.symbols self.now.cabinet.size.m) self.now.lost) a) (odd (digit (shift (full F.symbols self.now.cabinet.size.m) self.now.lost) a))) }
    {
        self.write_parities(column);
        self.subtract_boxes(column);
        recover_pairs(&self.along, block, d, column);
    }
}

// Writes the column given by the halves.
#[inline(always)]
fn write_column<F: Quotients>(halves: &Halves<'_, F>, column: &mut [F])
    requires { length column.old ≡ 2 ^ halves.now.cabinet.size.m }
    ensures { Given (full F.symbols halves.now.cabinet.size.m) halves.now.lost (parts F.symbols F.value (2 ^ (halves.now.cabinet.size.m - 1)) halves.now.numbers.now) (at F.symbols F.value column.new) }
{
    let block = halves.cabinet.block(halves.lost);
    let Some(d) = block.gap().inverse() else {
        // The marks are distinct, so the gap is not zero.
        unreachable!()
    };
    halves.write(block, d, column);
}

// Writes the column given by the halves of all boxes but a lost data box,
// helpers in rising order, whatever the halves are. Refused, with nothing
// written, by a size, too few marks, a length or a box that does not fit.
pub fn restore<F: Quotients>(
    m: usize,
    lost: usize,
    halves: &[F],
    column: &mut [F],
) -> Result<(), Refusal>
    ensures answer { refusal result ≡ first (wrong_size m ∷ few_marks F.symbols m ∷ wrong_lengths ((length halves.now, (3 * m + 1) * 2 ^ (m - 1)) ∷ (length column.old, 2 ^ m) ∷ []) ∷ no_box (3 * m + 2) lost ∷ parity_box (3 * m) lost ∷ []) }
    ensures column { MatchResult result (λ _. Given (full F.symbols m) (lost - 1) (parts F.symbols F.value (2 ^ (m - 1)) halves.now) (at F.symbols F.value column.new)) (λ _. column.new ≡ column.old) }
{
    let cabinet = Cabinet::<F>::new(m)?;
    let boxes = cabinet.size.boxes();
    fitting(&[
        (halves.len(), (boxes + 1) * cabinet.size.pairs()),
        (column.len(), cabinet.size.rows()),
    ])?;
    numbered(boxes + 2, lost)?;
    holding_data(boxes, lost)?;
    let halves = Halves::new(cabinet, lost, halves);
    write_column(&halves, column);
    Ok(())
}
