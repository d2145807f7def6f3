// The restoring step on a shelf.
ghost use Rattle.std.specs.Prelude.{◌≡◌, ◌≢◌, ℕ, ◌+◌, ◌-◌, ◌*◌, ◌^◌, ◌<◌, ◌≤◌, true, false, [], ◌∷◌, drop, length, IfOk, MatchResult, OnErr};
ghost use Rattle.boxes.specs.Out.{many_out};
ghost use Rattle.code.specs.Codes.{Given, full};
ghost use Rattle.code.specs.Contents.{at, parts};
ghost use Rattle.refusal.specs.Refusals.{earliest, no_box, refusal, wrong_lengths};
ghost use Rattle.renewing.specs.Renewals.{NewBox, Renewed, not_renewable, others_stand};
ghost use Rattle.shelf.specs.Meaning.{column, is_standing};
ghost use Rattle.shelf.specs.Rows.{has_rows, rows_at};
ghost use Rattle.stripe.specs.Reasons.{box_out, box_stands};
ghost use Rattle.stripe.specs.Stripes.{OnlyStripe, has_stripe, no_stripe, stands};

use crate::counting::{count_standing, renewable};
use crate::halves::take_halves;
use boxes::MOST_ROWS;
use columns::restore;
use field::Quotients;
use refusal::{Refusal, fitting, numbered, refuse_if};
use shelf::Shelf;
use stripe::{Stripe, on_shelf};

// Gives the lost box the column that the halves give.
fn give_column<F: Quotients, S: Shelf<Symbol = F>>(
    shelf: &mut S,
    stripe: &Stripe<F>,
    lost: usize,
    halves: &[F],
)
    requires rows { has_rows (S.meaning shelf.old) lost stripe.now.from (2 ^ stripe.now.cabinet.size.m) ≡ true }
    requires whole { length halves.now ≡ (3 * stripe.now.cabinet.size.m + 1) * 2 ^ (stripe.now.cabinet.size.m - 1) }
    requires first { 1 ≤ lost }
    requires data { lost ≤ 3 * stripe.now.cabinet.size.m }
    ensures given { let m = stripe.now.cabinet.size.m in Given (full F.symbols m) (lost - 1) (parts F.symbols F.value (2 ^ (m - 1)) halves.now) (at F.symbols F.value (rows_at (S.meaning shelf.new) lost stripe.now.from (2 ^ m))) }
    ensures others { (d : ℕ) → d ≢ lost → column (S.meaning shelf.new) d ≡ column (S.meaning shelf.old) d }
    ensures only { OnlyStripe stripe.now.cabinet.size.m stripe.now.from (S.meaning shelf.old) (S.meaning shelf.new) }
    ensures lender { S.buffers shelf.new ≡ S.buffers shelf.old }
{
    F::takes_few_bytes();
    let size = &stripe.cabinet.size;
    let mut symbols = [F::zero(); MOST_ROWS];
    let column = &mut symbols[..size.rows()];
    restore(size.m, lost, halves, column).unwrap();
    shelf.write_rows(lost, stripe.from, column);
}

// The restoring step, where all boxes stand and the lost one may hold anything.
fn renew_standing<F: Quotients, S: Shelf<Symbol = F>>(
    shelf: &mut S,
    stripe: &Stripe<F>,
    lost: usize,
    work: &mut [F],
) -> usize
    requires stripe { has_stripe stripe.now.cabinet.size.m stripe.now.from (S.meaning shelf.old) ≡ true }
    requires stands { is_standing (S.meaning shelf.old) lost ≡ true }
    requires others { others_stand (stands (S.meaning shelf.old)) (lost - 1) (3 * stripe.now.cabinet.size.m + 2) ≡ true }
    requires whole { length work.old ≡ 3 * stripe.now.cabinet.size.m * 2 ^ stripe.now.cabinet.size.m }
    requires first { 1 ≤ lost }
    requires data { lost ≤ 3 * stripe.now.cabinet.size.m }
    ensures count { result ≡ (3 * stripe.now.cabinet.size.m + 1) * 2 ^ (stripe.now.cabinet.size.m - 1) }
    ensures renewed { let m = stripe.now.cabinet.size.m in Renewed F.symbols F.value m stripe.now.from (lost - 1) (parts F.symbols F.value (2 ^ (m - 1)) work.new) (S.meaning shelf.old) (S.meaning shelf.new) }
    ensures only { OnlyStripe stripe.now.cabinet.size.m stripe.now.from (S.meaning shelf.old) (S.meaning shelf.new) }
    ensures rest { let m = stripe.now.cabinet.size.m in let n = (3 * m + 1) * 2 ^ (m - 1) in drop n work.new ≡ drop n work.old }
    ensures lender { S.buffers shelf.new ≡ S.buffers shelf.old }
{
    let size = &stripe.cabinet.size;
    let (halves, _) = work.split_at_mut((size.boxes() + 1) * size.pairs());
    let taken = take_halves(shelf, stripe, lost, halves);
    give_column(shelf, stripe, lost, halves);
    taken
}

// The same where the lost box alone is out.
fn renew_absent<F: Quotients, S: Shelf<Symbol = F>>(
    shelf: &mut S,
    stripe: &Stripe<F>,
    lost: usize,
    work: &mut [F],
) -> usize
    requires stripe { has_stripe stripe.now.cabinet.size.m stripe.now.from (S.meaning shelf.old) ≡ true }
    requires out { is_standing (S.meaning shelf.old) lost ≡ false }
    requires others { others_stand (stands (S.meaning shelf.old)) (lost - 1) (3 * stripe.now.cabinet.size.m + 2) ≡ true }
    requires whole { length work.old ≡ 3 * stripe.now.cabinet.size.m * 2 ^ stripe.now.cabinet.size.m }
    requires first { 1 ≤ lost }
    requires data { lost ≤ 3 * stripe.now.cabinet.size.m }
    ensures count { result ≡ (3 * stripe.now.cabinet.size.m + 1) * 2 ^ (stripe.now.cabinet.size.m - 1) }
    ensures renewed { let m = stripe.now.cabinet.size.m in Renewed F.symbols F.value m stripe.now.from (lost - 1) (parts F.symbols F.value (2 ^ (m - 1)) work.new) (S.meaning shelf.old) (S.meaning shelf.new) }
    ensures put_in { NewBox F.symbols F.value stripe.now.cabinet.size.m stripe.now.from (lost - 1) (S.meaning shelf.old) (S.meaning shelf.new) }
    ensures rest { let m = stripe.now.cabinet.size.m in let n = (3 * m + 1) * 2 ^ (m - 1) in drop n work.new ≡ drop n work.old }
    ensures lender { S.buffers shelf.new ≡ S.buffers shelf.old }
{
    shelf.insert(lost, F::zero());
    renew_standing(shelf, stripe, lost, work)
}

// Renews the column of a lost data box, which stands and may hold anything,
// from the halves of all other boxes. The halves are left in the front of the
// work buffer, helpers in rising order; the answer is how many numbers were
// taken. Refused, with nothing written, by a shelf, a length or a box that does
// not fit, and where halves do not renew the box.
pub fn renew<F: Quotients, S: Shelf<Symbol = F>>(
    shelf: &mut S,
    stripe: &Stripe<F>,
    lost: usize,
    work: &mut [F],
) -> Result<usize, Refusal>
    ensures answer { let m = stripe.now.cabinet.size.m in let s = S.meaning shelf.old in refusal result ≡ earliest (no_stripe m stripe.now.from s ∷ wrong_lengths ((length work.old, 3 * m * 2 ^ m) ∷ []) ∷ no_box (3 * m + 2) lost ∷ box_out s lost ∷ not_renewable (3 * m) lost (stands s) ∷ []) }
    ensures count { let m = stripe.now.cabinet.size.m in IfOk result (λ n. n ≡ (3 * m + 1) * 2 ^ (m - 1)) }
    ensures renewed { let m = stripe.now.cabinet.size.m in MatchResult result (λ _. Renewed F.symbols F.value m stripe.now.from (lost - 1) (parts F.symbols F.value (2 ^ (m - 1)) work.new) (S.meaning shelf.old) (S.meaning shelf.new)) (λ _. S.meaning shelf.new ≡ S.meaning shelf.old) }
    ensures only { OnlyStripe stripe.now.cabinet.size.m stripe.now.from (S.meaning shelf.old) (S.meaning shelf.new) }
    ensures rest { let m = stripe.now.cabinet.size.m in let n = (3 * m + 1) * 2 ^ (m - 1) in drop n work.new ≡ drop n work.old }
    ensures declined { OnErr result (work.new ≡ work.old) }
    ensures lender { S.buffers shelf.new ≡ S.buffers shelf.old }
{
    on_shelf(shelf, stripe)?;
    let boxes = stripe.cabinet.size.boxes();
    fitting(&[(work.len(), boxes * stripe.cabinet.size.rows())])?;
    numbered(boxes + 2, lost)?;
    refuse_if(!shelf.stands(lost), Refusal::Out)?;
    renewable(shelf, boxes, lost)?;
    Ok(renew_standing(shelf, stripe, lost, work))
}

// Puts in a lost data box that is out, with zero in every row, and renews it in
// the stripe. Refused, with nothing written, by a shelf, a length or a box that
// does not fit, by a box that stands, and where halves do not renew the box.
pub fn renew_out<F: Quotients, S: Shelf<Symbol = F>>(
    shelf: &mut S,
    stripe: &Stripe<F>,
    lost: usize,
    work: &mut [F],
) -> Result<usize, Refusal>
    ensures answer { let m = stripe.now.cabinet.size.m in let s = S.meaning shelf.old in refusal result ≡ earliest (no_stripe m stripe.now.from s ∷ wrong_lengths ((length work.old, 3 * m * 2 ^ m) ∷ []) ∷ no_box (3 * m + 2) lost ∷ box_stands s lost ∷ many_out (3 * m + 2) (stands s) ∷ not_renewable (3 * m) lost (stands s) ∷ []) }
    ensures count { let m = stripe.now.cabinet.size.m in IfOk result (λ n. n ≡ (3 * m + 1) * 2 ^ (m - 1)) }
    ensures renewed { let m = stripe.now.cabinet.size.m in MatchResult result (λ _. Renewed F.symbols F.value m stripe.now.from (lost - 1) (parts F.symbols F.value (2 ^ (m - 1)) work.new) (S.meaning shelf.old) (S.meaning shelf.new)) (λ _. S.meaning shelf.new ≡ S.meaning shelf.old) }
    ensures put_in { let m = stripe.now.cabinet.size.m in IfOk result (λ _. NewBox F.symbols F.value m stripe.now.from (lost - 1) (S.meaning shelf.old) (S.meaning shelf.new)) }
    ensures rest { let m = stripe.now.cabinet.size.m in let n = (3 * m + 1) * 2 ^ (m - 1) in drop n work.new ≡ drop n work.old }
    ensures declined { OnErr result (work.new ≡ work.old) }
    ensures lender { S.buffers shelf.new ≡ S.buffers shelf.old }
{
    on_shelf(shelf, stripe)?;
    let boxes = stripe.cabinet.size.boxes();
    fitting(&[(work.len(), boxes * stripe.cabinet.size.rows())])?;
    numbered(boxes + 2, lost)?;
    refuse_if(shelf.stands(lost), Refusal::Standing)?;
    refuse_if(count_standing(shelf, boxes + 2) < boxes, Refusal::ManyOut)?;
    renewable(shelf, boxes, lost)?;
    Ok(renew_absent(shelf, stripe, lost, work))
}
