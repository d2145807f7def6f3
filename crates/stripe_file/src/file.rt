// The file of a stripe.
ghost use Rattle.std.specs.Prelude.{◌≡◌, ℕ, ◌+◌, ◌*◌, ◌^◌, ◌<◌, true, [], ◌∷◌, length, IfOk, MatchResult};
ghost use Rattle.boxes.specs.Out.{many_out};
ghost use Rattle.code.specs.Codes.{full};
ghost use Rattle.code.specs.Contents.{parts};
ghost use Rattle.code.specs.Standing.{FileOf};
ghost use Rattle.decoding.specs.Missing.{FilledIn, Sourced};
ghost use Rattle.decoding.specs.Steps.{Replaced};
ghost use Rattle.missing.specs.Missing.{Found, are_boxes as boxes_of, no_boxes, present};
ghost use Rattle.refusal.specs.Refusals.{earliest, refusal, wrong_lengths};
ghost use Rattle.stripe.specs.Stripes.{StripeFile, has_stripe, held, no_stripe, stands};
ghost use Rattle.stripe_file.specs.Reasons.{other_out};

use crate::search::{find, other_out};
use decoding::fill;
use field::{Quotients, Sums};
use missing::{Missing, are_boxes};
use refusal::{Refusal, fitting, refuse_if};
use shelf::Shelf;
use stripe::{Stripe, on_shelf};

// Reads what the box in place b holds of a stripe into place x of a file.
#[tactic(auto, using(crate::proofs::Loads::place_read))]
fn read_place<F: Sums, S: Shelf<Symbol = F>>(
    shelf: &mut S,
    stripe: &Stripe<F>,
    b: usize,
    x: usize,
    file: &mut [F],
)
    requires whole { let m = stripe.now.cabinet.size.m in length file.old ≡ 3 * m * 2 ^ m }
    requires there { has_stripe stripe.now.cabinet.size.m stripe.now.from (S.meaning shelf.old) ≡ true }
    requires inside { b < 3 * stripe.now.cabinet.size.m + 2 }
    requires stands { stands (S.meaning shelf.old) b ≡ true }
    requires data { x < 3 * stripe.now.cabinet.size.m }
    ensures file { let m = stripe.now.cabinet.size.m in let columns = parts F.symbols F.value (2 ^ m) in Replaced (2 ^ m) x (columns file.old) (held F.symbols F.value m stripe.now.from (S.meaning shelf.old) b) (columns file.new) }
    ensures stays { S.meaning shelf.new ≡ S.meaning shelf.old }
    ensures lender { S.buffers shelf.new ≡ S.buffers shelf.old }
{
    let rows = stripe.cabinet.size.rows();
    shelf.read_rows(b + 1, stripe.from, &mut file[x * rows..(x + 1) * rows]);
}

// Reads into each place of a file the column of the box that tells it.
fn read_sources<F: Sums, S: Shelf<Symbol = F>>(
    shelf: &mut S,
    stripe: &Stripe<F>,
    missing: Missing,
    file: &mut [F],
)
    requires whole { let m = stripe.now.cabinet.size.m in length file.old ≡ 3 * m * 2 ^ m }
    requires there { has_stripe stripe.now.cabinet.size.m stripe.now.from (S.meaning shelf.old) ≡ true }
    requires boxes { boxes_of (3 * stripe.now.cabinet.size.m + 2) missing ≡ true }
    requires others { (b : ℕ) → b < 3 * stripe.now.cabinet.size.m + 2 → present missing b ≡ true → stands (S.meaning shelf.old) b ≡ true }
    ensures file { let m = stripe.now.cabinet.size.m in let columns = parts F.symbols F.value (2 ^ m) in Sourced (full F.symbols m) missing (held F.symbols F.value m stripe.now.from (S.meaning shelf.old)) (columns file.new) }
    ensures stays { S.meaning shelf.new ≡ S.meaning shelf.old }
    ensures lender { S.buffers shelf.new ≡ S.buffers shelf.old }
{
    for x in 0..stripe.cabinet.size.boxes() {
        let b = missing.source(&stripe.cabinet.size, x);
        read_place(shelf, stripe, b, x, file);
    }
}

// Fills in the columns of missing data boxes, where nothing can be refused.
fn fill_in<F: Quotients>(stripe: &Stripe<F>, missing: Missing, file: &mut [F])
    requires whole { let m = stripe.now.cabinet.size.m in length file.old ≡ 3 * m * 2 ^ m }
    requires boxes { boxes_of (3 * stripe.now.cabinet.size.m + 2) missing ≡ true }
    ensures { let m = stripe.now.cabinet.size.m in let columns = parts F.symbols F.value (2 ^ m) in FilledIn (full F.symbols m) missing (columns file.old) (columns file.new) }
{
    fill(stripe.cabinet.size.m, missing, file).unwrap();
}

// Reads the file of a stripe by the boxes that are not listed as missing.
fn load<F: Quotients, S: Shelf<Symbol = F>>(
    shelf: &mut S,
    stripe: &Stripe<F>,
    missing: Missing,
    file: &mut [F],
)
    requires whole { let m = stripe.now.cabinet.size.m in length file.old ≡ 3 * m * 2 ^ m }
    requires there { has_stripe stripe.now.cabinet.size.m stripe.now.from (S.meaning shelf.old) ≡ true }
    requires boxes { boxes_of (3 * stripe.now.cabinet.size.m + 2) missing ≡ true }
    requires others { (b : ℕ) → b < 3 * stripe.now.cabinet.size.m + 2 → present missing b ≡ true → stands (S.meaning shelf.old) b ≡ true }
    ensures file { let m = stripe.now.cabinet.size.m in let columns = parts F.symbols F.value (2 ^ m) in FileOf (full F.symbols m) (present missing) (held F.symbols F.value m stripe.now.from (S.meaning shelf.old)) (columns file.new) }
    ensures stays { S.meaning shelf.new ≡ S.meaning shelf.old }
    ensures lender { S.buffers shelf.new ≡ S.buffers shelf.old }
{
    read_sources(shelf, stripe, missing, file);
    fill_in(stripe, missing, file);
}

// Reads the file of a stripe with some boxes left aside, at most two, whether
// they stand or not, as decoding finds it from the others, whatever they hold.
// Refused, with nothing written, by a shelf, a length or boxes that do not fit,
// and where another box is out.
pub fn read_without<F: Quotients, S: Shelf<Symbol = F>>(
    shelf: &mut S,
    stripe: &Stripe<F>,
    missing: Missing,
    file: &mut [F],
) -> Result<(), Refusal>
    ensures answer { let m = stripe.now.cabinet.size.m in let s = S.meaning shelf.old in refusal result ≡ earliest (no_stripe m stripe.now.from s ∷ wrong_lengths ((length file.old, 3 * m * 2 ^ m) ∷ []) ∷ no_boxes (3 * m + 2) missing ∷ other_out (3 * m + 2) missing (stands s) ∷ []) }
    ensures file { let m = stripe.now.cabinet.size.m in let columns = parts F.symbols F.value (2 ^ m) in MatchResult result (λ _. FileOf (full F.symbols m) (present missing) (held F.symbols F.value m stripe.now.from (S.meaning shelf.old)) (columns file.new)) (λ _. file.new ≡ file.old) }
    ensures stays { S.meaning shelf.new ≡ S.meaning shelf.old }
    ensures lender { S.buffers shelf.new ≡ S.buffers shelf.old }
{
    on_shelf(shelf, stripe)?;
    let size = &stripe.cabinet.size;
    let boxes = size.boxes();
    fitting(&[(file.len(), boxes * size.rows())])?;
    refuse_if(!are_boxes(boxes + 2, missing), Refusal::NoBox)?;
    refuse_if(other_out(shelf, boxes + 2, missing), Refusal::ManyOut)?;
    load(shelf, stripe, missing, file);
    Ok(())
}

// Reads the file of a stripe, and tells which boxes are out. Refused, with
// nothing written, by a shelf or a length that does not fit, and where three
// or more boxes are out.
pub fn read_file<F: Quotients, S: Shelf<Symbol = F>>(
    shelf: &mut S,
    stripe: &Stripe<F>,
    file: &mut [F],
) -> Result<Missing, Refusal>
    ensures answer { let m = stripe.now.cabinet.size.m in let s = S.meaning shelf.old in refusal result ≡ earliest (no_stripe m stripe.now.from s ∷ wrong_lengths ((length file.old, 3 * m * 2 ^ m) ∷ []) ∷ many_out (3 * m + 2) (stands s) ∷ []) }
    ensures missing { IfOk result (Found (stands (S.meaning shelf.old)) (3 * stripe.now.cabinet.size.m + 2)) }
    ensures file { let m = stripe.now.cabinet.size.m in let columns = parts F.symbols F.value (2 ^ m) in MatchResult result (λ _. StripeFile F.symbols F.value m stripe.now.from (S.meaning shelf.old) (columns file.new)) (λ _. file.new ≡ file.old) }
    ensures stays { S.meaning shelf.new ≡ S.meaning shelf.old }
    ensures lender { S.buffers shelf.new ≡ S.buffers shelf.old }
{
    on_shelf(shelf, stripe)?;
    let size = &stripe.cabinet.size;
    let boxes = size.boxes();
    fitting(&[(file.len(), boxes * size.rows())])?;
    let missing = find(shelf, boxes + 2)?;
    load(shelf, stripe, missing, file);
    Ok(missing)
}
