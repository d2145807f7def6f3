// One column of a stripe.
ghost use Rattle.std.specs.Prelude.{◌≡◌, ◌+◌, ◌*◌, ◌^◌, [], ◌∷◌, length, MatchResult};
ghost use Rattle.refusal.specs.Refusals.{earliest, no_box, refusal, wrong_lengths};
ghost use Rattle.shelf.specs.Rows.{rows_at};
ghost use Rattle.stripe.specs.Stripes.{no_stripe};
ghost use Rattle.stripe.specs.Reasons.{box_out};

use field::Sums;
use refusal::{Refusal, fitting, numbered, refuse_if};
use shelf::Shelf;
use stripe::{Stripe, on_shelf};

// Copies the rows that box b has of the stripe into the buffer. Refused, with
// nothing written, by a shelf, a length or a box that does not fit, and where
// the box is out.
pub fn read_column<F: Sums, S: Shelf<Symbol = F>>(
    shelf: &mut S,
    stripe: &Stripe<F>,
    b: usize,
    into: &mut [F],
) -> Result<(), Refusal>
    ensures answer { let m = stripe.now.cabinet.size.m in let s = S.meaning shelf.old in refusal result ≡ earliest (no_stripe m stripe.now.from s ∷ wrong_lengths ((length into.old, 2 ^ m) ∷ []) ∷ no_box (3 * m + 2) b ∷ box_out s b ∷ []) }
    ensures column { let m = stripe.now.cabinet.size.m in MatchResult result (λ _. into.new ≡ rows_at (S.meaning shelf.old) b stripe.now.from (2 ^ m)) (λ _. into.new ≡ into.old) }
    ensures stays { S.meaning shelf.new ≡ S.meaning shelf.old }
    ensures lender { S.buffers shelf.new ≡ S.buffers shelf.old }
{
    on_shelf(shelf, stripe)?;
    fitting(&[(into.len(), stripe.cabinet.size.rows())])?;
    numbered(stripe.cabinet.size.boxes() + 2, b)?;
    refuse_if(!shelf.stands(b), Refusal::Out)?;
    shelf.read_rows(b, stripe.from, into);
    Ok(())
}
