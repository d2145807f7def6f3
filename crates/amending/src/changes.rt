// What a change of one symbol of the file changes of the boxes.
ghost use Rattle.std.specs.Prelude.{◌≡◌, ℕ, suc, ◌+◌, ◌*◌, ◌^◌, ◌<◌, ◌&&◌, ◌==◌, true, if◌then◌else◌, IsNone, IsSomeAnd, MatchOption};
ghost use Rattle.std.specs.Bool.{OnFalse, OnTrue};
ghost use Rattle.amending.specs.Changes.{Moved, carries as carries_over, in_image, other_row as other_of, single, touches};
ghost use Rattle.code.specs.Codes.{column, full, image};
ghost use Rattle.shelf.specs.Meaning.{symbol_at, with_symbol};
ghost use Rattle.stripe.specs.Stripes.{has_stripe};

use boxes::{Cabinet, kind_at};
use code::Kind;
use field::Sums;
use shelf::{Shelf, shelves_stand};
use stripe::Stripe;

// Adds d to the symbol in row a of box b, and tells what it is then. Absent,
// with nothing changed, where there is none.
fn add_to<F: Sums, S: Shelf<Symbol = F>>(shelf: &mut S, b: usize, a: usize, d: F) -> Option<F>
    ensures sum { MatchOption (symbol_at (S.meaning shelf.old) b a) (IsNone result) (λ x. IsSomeAnd result (λ y. F.value y ≡ F.symbols.ring.plus (F.value x) (F.value d))) }
    ensures after { MatchOption result (S.meaning shelf.new ≡ S.meaning shelf.old) (λ y. S.meaning shelf.new ≡ with_symbol (S.meaning shelf.old) b a y) }
    ensures lender { S.buffers shelf.new ≡ S.buffers shelf.old }
{
    let x = shelf.fetch(b, a)?;
    let y = x.sum(d);
    shelf.store(b, a, y);
    Some(y)
}

// Adds d to the symbol in a row of the stripe, in the box in place b, if that stands.
fn add_at<F: Sums, S: Shelf<Symbol = F>>(
    shelf: &mut S,
    stripe: &Stripe<F>,
    b: usize,
    a: usize,
    d: F,
)
    requires there { has_stripe stripe.now.cabinet.size.m stripe.now.from (S.meaning shelf.old) ≡ true }
    requires inside { b < 3 * stripe.now.cabinet.size.m + 2 }
    requires row { a < 2 ^ stripe.now.cabinet.size.m }
    ensures moved { Moved F.symbols F.value stripe.now.cabinet.size.m stripe.now.from (single F.symbols b a (F.value d)) (λ e r. e == b && r == a) (S.meaning shelf.old) (S.meaning shelf.new) }
    ensures lender { S.buffers shelf.new ≡ S.buffers shelf.old }
{
    shelves_stand::<S>();
    add_to(shelf, b + 1, stripe.from + a, d);
}

// The same where it is wanted.
fn add_where<F: Sums, S: Shelf<Symbol = F>>(
    wanted: bool,
    shelf: &mut S,
    stripe: &Stripe<F>,
    b: usize,
    a: usize,
    d: F,
)
    requires there { has_stripe stripe.now.cabinet.size.m stripe.now.from (S.meaning shelf.old) ≡ true }
    requires inside { b < 3 * stripe.now.cabinet.size.m + 2 }
    requires row { a < 2 ^ stripe.now.cabinet.size.m }
    ensures moved { OnTrue wanted (Moved F.symbols F.value stripe.now.cabinet.size.m stripe.now.from (single F.symbols b a (F.value d)) (λ e r. e == b && r == a) (S.meaning shelf.old) (S.meaning shelf.new)) }
    ensures stays { OnFalse wanted (S.meaning shelf.new ≡ S.meaning shelf.old) }
    ensures lender { S.buffers shelf.new ≡ S.buffers shelf.old }
{
    if wanted {
        add_at(shelf, stripe, b, a, d);
    }
}

// Does a block carry what stands in a row into the other row of the pair as well?
fn carries(kind: Kind, upper: bool) -> bool
    ensures { result ≡ carries_over kind upper }
{
    match kind {
        Kind::Lower => upper,
        Kind::Upper => !upper,
        Kind::Sum => false,
    }
}

// The partner of a row in the direction of the data box in place b.
#[tactic(auto, using(crate::proofs::Singles::other_inside))]
fn other_row<F: Sums>(cabinet: &Cabinet<F>, b: usize, a: usize) -> usize
    requires { a < 2 ^ cabinet.now.size.m }
    ensures row { result ≡ other_of (full F.symbols cabinet.now.size.m) b a }
    ensures inside { result < 2 ^ cabinet.now.size.m }
{
    let digit = cabinet.size.digit(b);
    let low = digit.lower_partner(a);
    if digit.is_upper(a) {
        low
    } else {
        low + digit.weight()
    }
}

// What the block of the data box in place b makes of d in row a alone: in that
// row, and in its partner.
fn image_of<F: Sums>(cabinet: &Cabinet<F>, b: usize, a: usize, d: F) -> (F, F)
    requires { a < 2 ^ cabinet.now.size.m }
    ensures own { let c = full F.symbols cabinet.now.size.m in F.value result.0 ≡ image c b (single F.symbols b a (F.value d) b) a }
    ensures across { let c = full F.symbols cabinet.now.size.m in F.value result.1 ≡ image c b (single F.symbols b a (F.value d) b) (other_of c b a) }
{
    let block = cabinet.block(b);
    if cabinet.size.digit(b).is_upper(a) {
        let (low, high) = block.apply(F::zero(), d);
        (high, low)
    } else {
        block.apply(d, F::zero())
    }
}

// Adds to the second parity the image of d in row a of the data box in place b.
fn add_image<F: Sums, S: Shelf<Symbol = F>>(
    shelf: &mut S,
    stripe: &Stripe<F>,
    b: usize,
    a: usize,
    d: F,
)
    requires there { has_stripe stripe.now.cabinet.size.m stripe.now.from (S.meaning shelf.old) ≡ true }
    requires data { b < 3 * stripe.now.cabinet.size.m }
    requires row { a < 2 ^ stripe.now.cabinet.size.m }
    ensures moved { let m = stripe.now.cabinet.size.m in let c = full F.symbols m in Moved F.symbols F.value m stripe.now.from (λ e r. if e == suc (3 * m) then image c b (single F.symbols b a (F.value d) b) r else F.symbols.ring.zero) (λ e r. e == suc (3 * m) && in_image c b a r) (S.meaning shelf.old) (S.meaning shelf.new) }
    ensures lender { S.buffers shelf.new ≡ S.buffers shelf.old }
{
    let cabinet = &stripe.cabinet;
    let second = cabinet.size.boxes() + 1;
    let (own, across) = image_of(cabinet, b, a, d);
    add_at(shelf, stripe, second, a, own);
    let carried = carries(
        kind_at(cabinet.size.m, b),
        cabinet.size.digit(b).is_upper(a),
    );
    let other = other_row(cabinet, b, a);
    add_where(carried, shelf, stripe, second, other, across);
}

// Moves every standing box by its column of the file that is zero but for d in
// row a of the data box in place b.
pub(crate) fn write_change<F: Sums, S: Shelf<Symbol = F>>(
    shelf: &mut S,
    stripe: &Stripe<F>,
    b: usize,
    a: usize,
    d: F,
)
    requires there { has_stripe stripe.now.cabinet.size.m stripe.now.from (S.meaning shelf.old) ≡ true }
    requires data { b < 3 * stripe.now.cabinet.size.m }
    requires row { a < 2 ^ stripe.now.cabinet.size.m }
    ensures moved { let m = stripe.now.cabinet.size.m in let c = full F.symbols m in Moved F.symbols F.value m stripe.now.from (column c (single F.symbols b a (F.value d))) (touches c b a) (S.meaning shelf.old) (S.meaning shelf.new) }
    ensures lender { S.buffers shelf.new ≡ S.buffers shelf.old }
{
    add_at(shelf, stripe, b, a, d);
    add_at(shelf, stripe, stripe.cabinet.size.boxes(), a, d);
    add_image(shelf, stripe, b, a, d);
}
