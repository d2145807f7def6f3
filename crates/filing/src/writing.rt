// The columns of a file, written to the boxes of a stripe.
ghost use Rattle.std.specs.Prelude.{◌≡◌, ◌+◌, ◌*◌, ◌^◌, ◌<◌, ◌≤◌, true, ◌&&◌, ◌==◌, [], ◌∷◌, length, IfOk, MatchResult};
ghost use Rattle.code.specs.Codes.{column as column_of, full};
ghost use Rattle.code.specs.Contents.{Holds, parts};
ghost use Rattle.refusal.specs.Refusals.{earliest, refusal, wrong_lengths};
ghost use Rattle.stripe.specs.Stripes.{HoldsFile, OnlyStripe, has_stripe, no_stripe, stands};
ghost use Rattle.filing.specs.Rewriting.{Rewritten};

use boxes::{Cabinet, MOST_ROWS};
use columns::{Parity, parity_column};
use field::Sums;
use refusal::{Refusal, fitting};
use shelf::Shelf;
use stripe::{Stripe, on_shelf};

// The column that the parity box in place b holds of a file.
fn parity_at<F: Sums>(cabinet: &Cabinet<F>, file: &[F], b: usize, column: &mut [F])
    requires whole { let m = cabinet.now.size.m in length file.now ≡ 3 * m * 2 ^ m }
    requires rows { length column.old ≡ 2 ^ cabinet.now.size.m }
    requires parity { 3 * cabinet.now.size.m ≤ b }
    requires inside { b < 3 * cabinet.now.size.m + 2 }
    ensures { let m = cabinet.now.size.m in Holds F.symbols F.value (2 ^ m) column.new (column_of (full F.symbols m) (parts F.symbols F.value (2 ^ m) file.now) b) }
{
    let which = if b == cabinet.size.boxes() {
        Parity::First
    } else {
        Parity::Second
    };
    parity_column(cabinet.size.m, which, file, column).unwrap();
}

// Writes what the box in place b holds of a file into its rows of the stripe, if it stands.
pub(crate) fn write_box<F: Sums, S: Shelf<Symbol = F>>(
    shelf: &mut S,
    stripe: &Stripe<F>,
    file: &[F],
    b: usize,
)
    requires whole { let m = stripe.now.cabinet.size.m in length file.now ≡ 3 * m * 2 ^ m }
    requires there { has_stripe stripe.now.cabinet.size.m stripe.now.from (S.meaning shelf.old) ≡ true }
    requires inside { b < 3 * stripe.now.cabinet.size.m + 2 }
    ensures after { let m = stripe.now.cabinet.size.m in let s = S.meaning shelf.old in Rewritten F.symbols F.value m stripe.now.from (parts F.symbols F.value (2 ^ m) file.now) (λ d. d == b && stands s d) s (S.meaning shelf.new) }
    ensures lender { S.buffers shelf.new ≡ S.buffers shelf.old }
{
    if !shelf.stands(b + 1) {
        return;
    }
    let size = &stripe.cabinet.size;
    let rows = size.rows();
    if b < size.boxes() {
        shelf.write_rows(b + 1, stripe.from, &file[b * rows..(b + 1) * rows]);
    } else {
        F::takes_few_bytes();
        let mut symbols = [F::zero(); MOST_ROWS];
        let column = &mut symbols[..rows];
        parity_at(&stripe.cabinet, file, b, column);
        shelf.write_rows(b + 1, stripe.from, column);
    }
}

// Writes their columns of a file to the boxes that stand. Refused, with nothing
// written, by a shelf or a length that does not fit.
#[tactic(auto, using(crate::proofs::Rewrites::next_box))]
pub fn write_file<F: Sums, S: Shelf<Symbol = F>>(
    shelf: &mut S,
    stripe: &Stripe<F>,
    file: &[F],
) -> Result<(), Refusal>
    ensures answer { let m = stripe.now.cabinet.size.m in refusal result ≡ earliest (no_stripe m stripe.now.from (S.meaning shelf.old) ∷ wrong_lengths ((length file.now, 3 * m * 2 ^ m) ∷ []) ∷ []) }
    ensures only { let m = stripe.now.cabinet.size.m in MatchResult result (λ _. OnlyStripe m stripe.now.from (S.meaning shelf.old) (S.meaning shelf.new)) (λ _. S.meaning shelf.new ≡ S.meaning shelf.old) }
    ensures holds { let m = stripe.now.cabinet.size.m in IfOk result (λ _. HoldsFile F.symbols F.value m stripe.now.from (S.meaning shelf.new) (parts F.symbols F.value (2 ^ m) file.now)) }
    ensures lender { S.buffers shelf.new ≡ S.buffers shelf.old }
{
    on_shelf(shelf, stripe)?;
    let size = &stripe.cabinet.size;
    let boxes = size.boxes();
    fitting(&[(file.len(), boxes * size.rows())])?;
    for b in 0..boxes + 2 {
        write_box(shelf, stripe, file, b);
    }
    Ok(())
}
