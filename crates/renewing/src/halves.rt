// Halves of the boxes of a stripe, for a lost data box.
ghost use Rattle.std.specs.Prelude.{◌≡◌, ℕ, suc, ◌+◌, ◌-◌, ◌*◌, ◌^◌, ◌<◌, ◌≤◌, true, false, [], ◌∷◌, if◌then◌else◌, nat_lt, length, MatchResult};
ghost use Rattle.code.specs.Codes.{full, half_for, helper as helper_of};
ghost use Rattle.code.specs.Contents.{Holds, at, parts};
ghost use Rattle.refusal.specs.Refusals.{earliest, no_box, no_helper, parity_box, refusal, wrong_lengths};
ghost use Rattle.renewing.specs.Renewals.{HalvesOf, others_stand};
ghost use Rattle.shelf.specs.Rows.{has_rows, rows_at};
ghost use Rattle.stripe.specs.Reasons.{box_out};
ghost use Rattle.stripe.specs.Stripes.{has_stripe, held, no_stripe, stands};

use boxes::MOST_ROWS;
use columns::half;
use field::Sums;
use refusal::{Refusal, fitting, helping, holding_data, numbered, refuse_if};
use shelf::Shelf;
use stripe::{Stripe, on_shelf};

// Takes the half of a standing box for a lost data box, and tells how many
// numbers that is.
#[tactic(auto, using(shelf::proofs::Rows::rows_read_there))]
fn take_half<F: Sums, S: Shelf<Symbol = F>>(
    shelf: &mut S,
    stripe: &Stripe<F>,
    helper: usize,
    lost: usize,
    into: &mut [F],
) -> usize
    requires rows { has_rows (S.meaning shelf.old) helper stripe.now.from (2 ^ stripe.now.cabinet.size.m) ≡ true }
    requires pairs { length into.old ≡ 2 ^ (stripe.now.cabinet.size.m - 1) }
    requires first { 1 ≤ lost }
    requires data { lost ≤ 3 * stripe.now.cabinet.size.m }
    ensures count { result ≡ 2 ^ (stripe.now.cabinet.size.m - 1) }
    ensures half { let m = stripe.now.cabinet.size.m in Holds F.symbols F.value (2 ^ (m - 1)) into.new (half_for (full F.symbols m) (lost - 1) (at F.symbols F.value (rows_at (S.meaning shelf.old) helper stripe.now.from (2 ^ m)))) }
    ensures stays { S.meaning shelf.new ≡ S.meaning shelf.old }
    ensures lender { S.buffers shelf.new ≡ S.buffers shelf.old }
{
    F::takes_few_bytes();
    let size = &stripe.cabinet.size;
    let mut symbols = [F::zero(); MOST_ROWS];
    let column = &mut symbols[..size.rows()];
    shelf.read_rows(helper, stripe.from, column);
    half(size.m, lost, column, into).unwrap();
    into.len()
}

// The number of the helper in place h among all boxes but the lost one.
fn helper_at(lost: usize, h: usize) -> usize
    requires first { 1 ≤ lost }
    requires bound { h ≤ 19 }
    ensures { result ≡ suc (if nat_lt h (lost - 1) then h else suc h) }
{
    if h < lost - 1 { h + 1 } else { h + 2 }
}

// Takes the halves of all other boxes, helpers in rising order, and counts
// their numbers as they come.
#[tactic(auto, using(crate::proofs::Numbers::helper_rows, crate::proofs::Numbers::taken_none, crate::proofs::Numbers::taken_more, crate::proofs::Numbers::taken_all))]
pub(crate) fn take_halves<F: Sums, S: Shelf<Symbol = F>>(
    shelf: &mut S,
    stripe: &Stripe<F>,
    lost: usize,
    halves: &mut [F],
) -> usize
    requires stripe { has_stripe stripe.now.cabinet.size.m stripe.now.from (S.meaning shelf.old) ≡ true }
    requires others { others_stand (stands (S.meaning shelf.old)) (lost - 1) (3 * stripe.now.cabinet.size.m + 2) ≡ true }
    requires whole { length halves.old ≡ (3 * stripe.now.cabinet.size.m + 1) * 2 ^ (stripe.now.cabinet.size.m - 1) }
    requires first { 1 ≤ lost }
    requires data { lost ≤ 3 * stripe.now.cabinet.size.m }
    ensures count { result ≡ (3 * stripe.now.cabinet.size.m + 1) * 2 ^ (stripe.now.cabinet.size.m - 1) }
    ensures taken { let m = stripe.now.cabinet.size.m in HalvesOf F.symbols F.value m stripe.now.from (lost - 1) (S.meaning shelf.old) (parts F.symbols F.value (2 ^ (m - 1)) halves.new) }
    ensures stays { S.meaning shelf.new ≡ S.meaning shelf.old }
    ensures lender { S.buffers shelf.new ≡ S.buffers shelf.old }
{
    let size = &stripe.cabinet.size;
    let pairs = size.pairs();
    let mut taken = 0;
    for h in 0..size.boxes() + 1 {
        let start = h * pairs;
        let into = &mut halves[start..start + pairs];
        taken += take_half(shelf, stripe, helper_at(lost, h), lost, into);
    }
    taken
}

// Writes the half of box `helper` for a lost data box. Refused, with nothing
// written, by a shelf, a length or a box that does not fit, where the helper is
// out, and where it is the lost box. The lost box may stand or not.
pub fn send_half<F: Sums, S: Shelf<Symbol = F>>(
    shelf: &mut S,
    stripe: &Stripe<F>,
    helper: usize,
    lost: usize,
    into: &mut [F],
) -> Result<(), Refusal>
    ensures answer { let m = stripe.now.cabinet.size.m in let s = S.meaning shelf.old in refusal result ≡ earliest (no_stripe m stripe.now.from s ∷ wrong_lengths ((length into.old, 2 ^ (m - 1)) ∷ []) ∷ no_box (3 * m + 2) helper ∷ no_box (3 * m + 2) lost ∷ box_out s helper ∷ parity_box (3 * m) lost ∷ no_helper lost helper false ∷ []) }
    ensures half { let m = stripe.now.cabinet.size.m in MatchResult result (λ _. Holds F.symbols F.value (2 ^ (m - 1)) into.new (half_for (full F.symbols m) (lost - 1) (held F.symbols F.value m stripe.now.from (S.meaning shelf.old) (helper - 1)))) (λ _. into.new ≡ into.old) }
    ensures stays { S.meaning shelf.new ≡ S.meaning shelf.old }
    ensures lender { S.buffers shelf.new ≡ S.buffers shelf.old }
{
    on_shelf(shelf, stripe)?;
    let size = &stripe.cabinet.size;
    let boxes = size.boxes();
    fitting(&[(into.len(), size.pairs())])?;
    numbered(boxes + 2, helper)?;
    numbered(boxes + 2, lost)?;
    refuse_if(!shelf.stands(helper), Refusal::Out)?;
    holding_data(boxes, lost)?;
    helping(lost, helper, false)?;
    take_half(shelf, stripe, helper, lost, into);
    Ok(())
}
