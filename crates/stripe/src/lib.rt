// Stripes of a shelf: the rows of every box that hold one file, its data columns and its two parities.
#![tactic(auto)]

ghost use Rattle.std.specs.Prelude.{◌≡◌, ◌*◌, ◌≤◌, [], ◌∷◌, IfOk};
ghost use Rattle.refusal.specs.Refusals.{earliest, few_marks, refusal, wrong_size};
ghost use Rattle.shelf.specs.Meaning.{IsShelf};
ghost use Rattle.stripe.specs.Stripes.{no_stripe};

use boxes::Cabinet;
use field::Sums;
use refusal::{Refusal, refuse_if};
use shelf::Shelf;

// A stripe: the rows of a cabinet's boxes, on a shelf whose columns may have more.
#[derive(Drop)]
pub struct Stripe<F: Sums> {
    pub cabinet: Cabinet<F>,
    // Its first row.
    pub from: usize,
}

impl<F: Sums> Stripe<F> {
    // Refused by a size and by too few marks.
    pub fn new(m: usize, from: usize) -> Result<Stripe<F>, Refusal>
        ensures answer { refusal result ≡ earliest (wrong_size m ∷ few_marks F.symbols m ∷ []) }
        ensures size { IfOk result (λ s. s.cabinet.size.m ≡ m) }
        ensures from { IfOk result (λ s. s.from ≡ from) }
    {
        let cabinet = Cabinet::new(m)?;
        Ok(Stripe { cabinet, from })
    }
}

// Refuses a shelf that has other boxes than the stripe, or not all of its rows.
// The last clause is the law of every shelf, said of this one for what follows.
pub fn on_shelf<F: Sums, S: Shelf<Symbol = F>>(
    shelf: &mut S,
    stripe: &Stripe<F>,
) -> Result<(), Refusal>
    ensures answer { refusal result ≡ no_stripe stripe.now.cabinet.size.m stripe.now.from (S.meaning shelf.old) }
    ensures stays { S.meaning shelf.new ≡ S.meaning shelf.old }
    ensures lender { S.buffers shelf.new ≡ S.buffers shelf.old }
    ensures sound { IsShelf (S.meaning shelf.new) }
{
    let sizes = shelf.sizes();
    let size = &stripe.cabinet.size;
    refuse_if(
        sizes.boxes != size.boxes() + 2
            || sizes.rows < stripe.from
            || sizes.rows - stripe.from < size.rows(),
        Refusal::Shape,
    )
}
