// Missing data columns, where the parity columns that tell them stand in their places.
ghost use Rattle.std.specs.Prelude.{◌≡◌, ℕ, ◌+◌, ◌*◌, ◌^◌, ◌<◌, true, [], ◌∷◌, length, MatchResult, ◌≢◌};
ghost use Rattle.code.specs.Codes.{full};
ghost use Rattle.code.specs.Contents.{parts};
ghost use Rattle.code.specs.Laws.{HasColumns};
ghost use Rattle.code.specs.Standing.{FileOf};
ghost use Rattle.missing.specs.Missing.{are_boxes, aside, no_boxes, present};
ghost use Rattle.refusal.specs.Refusals.{earliest, few_marks, refusal, wrong_lengths, wrong_size};
ghost use Rattle.decoding.specs.Missing.{FilledIn, Sourced};
ghost use Rattle.decoding.specs.Steps.{ByBoth, ByFirst, BySecond};

use crate::within::{solve_within, take_others, take_within, undo_within};
use boxes::Cabinet;
use code::code_stands;
use columns::Parity;
use field::{Quotients, Sums};
use missing::{Missing, are_boxes};
use refusal::{Refusal, fitting, refuse_if};

// The data box in place x is missing, and the first parity column stands there.
fn by_first<F: Sums>(cabinet: &Cabinet<F>, x: usize, file: &mut [F])
    requires whole { let m = cabinet.now.size.m in length file.old ≡ 3 * m * 2 ^ m }
    requires data { x < 3 * cabinet.now.size.m }
    ensures { let m = cabinet.now.size.m in let columns = parts F.symbols F.value (2 ^ m) in ByFirst (full F.symbols m) x (columns file.old) (columns file.new) }
{
    // The second parity box, beyond the data boxes, is left aside too.
    take_others(cabinet, Parity::First, x, cabinet.size.boxes() + 1, x, file);
}

// The data box in place x is missing, and the second parity column stands there.
fn by_second<F: Quotients>(cabinet: &Cabinet<F>, x: usize, file: &mut [F])
    requires whole { let m = cabinet.now.size.m in length file.old ≡ 3 * m * 2 ^ m }
    requires data { x < 3 * cabinet.now.size.m }
    ensures { let m = cabinet.now.size.m in let columns = parts F.symbols F.value (2 ^ m) in BySecond (full F.symbols m) x (columns file.old) (columns file.new) }
{
    take_others(cabinet, Parity::Second, x, cabinet.size.boxes(), x, file);
    undo_within(cabinet, x, file);
}

// The data boxes in the places x and y are missing; the first parity column
// stands in place x, and the second in place y.
fn by_both<F: Quotients>(cabinet: &Cabinet<F>, x: usize, y: usize, file: &mut [F])
    requires whole { let m = cabinet.now.size.m in length file.old ≡ 3 * m * 2 ^ m }
    requires first { x < 3 * cabinet.now.size.m }
    requires second { y < 3 * cabinet.now.size.m }
    requires two { x ≢ y }
    ensures { let m = cabinet.now.size.m in let columns = parts F.symbols F.value (2 ^ m) in ByBoth (full F.symbols m) x y (columns file.old) (columns file.new) }
{
    // Now x holds the sum of the two missing columns, and y that of their images.
    take_others(cabinet, Parity::First, x, y, x, file);
    take_others(cabinet, Parity::Second, x, y, y, file);
    // What is left of that once the image of the whole sum by the blocks of x is
    // taken off: by how much the blocks of y and of x differ on the column of y.
    take_within(cabinet, Parity::Second, x, y, file);
    solve_within(cabinet, y, x, file);
    take_within(cabinet, Parity::First, y, x, file);
}

// Fills in missing data columns, where each place holds the column that tells it.
pub(crate) fn fill_missing<F: Quotients>(cabinet: &Cabinet<F>, missing: Missing, file: &mut [F])
    requires whole { let m = cabinet.now.size.m in length file.old ≡ 3 * m * 2 ^ m }
    requires boxes { are_boxes (3 * cabinet.now.size.m + 2) missing ≡ true }
    ensures { let m = cabinet.now.size.m in let columns = parts F.symbols F.value (2 ^ m) in let c = full F.symbols m in (g : ℕ → ℕ → F.symbols.Symbol) → Sourced c missing g (columns file.old) → HasColumns c (aside (3 * m) missing).0 (aside (3 * m) missing).1 (columns file.new) g }
{
    let boxes = cabinet.size.boxes();
    match missing {
        Missing::One(x) if x < boxes => by_first(cabinet, x, file),
        Missing::Two(x, y) if y < boxes => by_both(cabinet, x, y, file),
        Missing::Two(x, y) if x < boxes && y == boxes => by_second(cabinet, x, file),
        Missing::Two(x, _) if x < boxes => by_first(cabinet, x, file),
        _ => {}
    }
}

// The file is then the one file with the columns of the boxes that are not missing.
fn fill_in<F: Quotients>(cabinet: &Cabinet<F>, missing: Missing, file: &mut [F])
    requires whole { let m = cabinet.now.size.m in length file.old ≡ 3 * m * 2 ^ m }
    requires boxes { are_boxes (3 * cabinet.now.size.m + 2) missing ≡ true }
    ensures { let m = cabinet.now.size.m in let columns = parts F.symbols F.value (2 ^ m) in let c = full F.symbols m in FilledIn c missing (columns file.old) (columns file.new) }
{
    // By the code's laws there is exactly one such file.
    code_stands::<F>();
    fill_missing(cabinet, missing, file);
}

// Fills in the columns of missing data boxes, where each place of the file
// holds the column of the box that tells it (`Missing::source`), whatever these
// are. The file is then the one file with the columns of the first 3m boxes
// that are not missing. Refused, with nothing written, by a size, too few
// marks, a length or boxes that do not fit.
pub fn fill<F: Quotients>(m: usize, missing: Missing, file: &mut [F]) -> Result<(), Refusal>
    ensures answer { refusal result ≡ earliest (wrong_size m ∷ few_marks F.symbols m ∷ wrong_lengths ((length file.old, 3 * m * 2 ^ m) ∷ []) ∷ no_boxes (3 * m + 2) missing ∷ []) }
    ensures file { let columns = parts F.symbols F.value (2 ^ m) in let c = full F.symbols m in MatchResult result (λ _. FilledIn c missing (columns file.old) (columns file.new)) (λ _. file.new ≡ file.old) }
{
    let cabinet = Cabinet::new(m)?;
    let boxes = cabinet.size.boxes();
    fitting(&[(file.len(), boxes * cabinet.size.rows())])?;
    refuse_if(!are_boxes(boxes + 2, missing), Refusal::NoBox)?;
    fill_in(&cabinet, missing, file);
    Ok(())
}
