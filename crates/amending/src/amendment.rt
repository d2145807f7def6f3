// Amending one symbol of a stripe's file.
ghost use Rattle.std.specs.Prelude.{◌≡◌, ℕ, ◌+◌, ◌-◌, ◌*◌, ◌^◌, ◌<◌, ◌≤◌, true, [], ◌∷◌, length, slice_set, MatchResult, OnErr};
ghost use Rattle.amending.specs.Amendments.{Amended, no_row};
ghost use Rattle.boxes.specs.Out.{many_out};
ghost use Rattle.code.specs.Blocks.{◌∸◌};
ghost use Rattle.code.specs.Codes.{full};
ghost use Rattle.code.specs.Contents.{at, parts};
ghost use Rattle.refusal.specs.Refusals.{earliest, no_box, refusal, wrong_lengths};
ghost use Rattle.stripe.specs.Stripes.{StripeFile, has_stripe, no_stripe, stands};

use crate::changes::write_change;
use boxes::Size;
use field::{Quotients, Sums};
use refusal::{Refusal, fitting, numbered, refuse_if};
use shelf::Shelf;
use stripe::{Stripe, on_shelf};
use stripe_file::read_file;

// Where a file has row a of data box b.
#[tactic(auto, using(crate::proofs::Amends::cell_inside))]
fn place_of(size: &Size, b: usize, a: usize) -> usize
    requires first { 1 ≤ b }
    requires last { b ≤ 3 * size.now.m }
    requires row { a < 2 ^ size.now.m }
    ensures place { result ≡ (b - 1) * 2 ^ size.now.m + a }
    ensures inside { result < 3 * size.now.m * 2 ^ size.now.m }
{
    (b - 1) * size.rows() + a
}

// Puts x into a place of a file, and tells how it differs from what stood there.
#[tactic(auto, using(crate::proofs::Amends::element))]
fn replace<F: Sums>(file: &mut [F], place: usize, x: F) -> F
    requires { place < length file.old }
    ensures file { file.new ≡ slice_set file.old place x }
    ensures change { F.value result ≡ ◌∸◌ F.symbols.ring (F.value x) (at F.symbols F.value file.old place) }
{
    let change = x.minus(file[place]);
    file[place] = x;
    change
}

// Puts x into row a of data box b, where the buffer holds the stripe's file.
fn put<F: Sums, S: Shelf<Symbol = F>>(
    shelf: &mut S,
    stripe: &Stripe<F>,
    b: usize,
    a: usize,
    x: F,
    file: &mut [F],
)
    requires there { has_stripe stripe.now.cabinet.size.m stripe.now.from (S.meaning shelf.old) ≡ true }
    requires whole { length file.old ≡ 3 * stripe.now.cabinet.size.m * 2 ^ stripe.now.cabinet.size.m }
    requires file { let m = stripe.now.cabinet.size.m in StripeFile F.symbols F.value m stripe.now.from (S.meaning shelf.old) (parts F.symbols F.value (2 ^ m) file.old) }
    requires first { 1 ≤ b }
    requires last { b ≤ 3 * stripe.now.cabinet.size.m }
    requires row { a < 2 ^ stripe.now.cabinet.size.m }
    ensures amended { Amended F.symbols F.value stripe.now.cabinet.size.m stripe.now.from (b - 1) a (F.value x) (S.meaning shelf.old) (S.meaning shelf.new) file.new }
    ensures lender { S.buffers shelf.new ≡ S.buffers shelf.old }
{
    let place = place_of(&stripe.cabinet.size, b, a);
    let change = replace(file, place, x);
    write_change(shelf, stripe, b - 1, a, change);
}

// Amends row a of data box b to x, by small writes to the boxes that stand,
// and leaves the file in the work buffer as it is then. Refused, with nothing
// written, by a shelf, a length, a box or a row that does not fit, and where
// three or more boxes are out.
pub fn amend<F: Quotients, S: Shelf<Symbol = F>>(
    shelf: &mut S,
    stripe: &Stripe<F>,
    b: usize,
    a: usize,
    x: F,
    work: &mut [F],
) -> Result<(), Refusal>
    ensures answer { let m = stripe.now.cabinet.size.m in let s = S.meaning shelf.old in refusal result ≡ earliest (no_stripe m stripe.now.from s ∷ wrong_lengths ((length work.old, 3 * m * 2 ^ m) ∷ []) ∷ no_box (3 * m) b ∷ no_row (2 ^ m) a ∷ many_out (3 * m + 2) (stands s) ∷ []) }
    ensures amended { let m = stripe.now.cabinet.size.m in MatchResult result (λ _. Amended F.symbols F.value m stripe.now.from (b - 1) a (F.value x) (S.meaning shelf.old) (S.meaning shelf.new) work.new) (λ _. S.meaning shelf.new ≡ S.meaning shelf.old) }
    ensures declined { OnErr result (work.new ≡ work.old) }
    ensures lender { S.buffers shelf.new ≡ S.buffers shelf.old }
{
    on_shelf(shelf, stripe)?;
    let size = &stripe.cabinet.size;
    let boxes = size.boxes();
    fitting(&[(work.len(), boxes * size.rows())])?;
    numbered(boxes, b)?;
    refuse_if(size.rows() <= a, Refusal::NoRow)?;
    read_file(shelf, stripe, work)?;
    put(shelf, stripe, b, a, x, work);
    Ok(())
}
