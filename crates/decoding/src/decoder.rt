// The columns of the boxes that are out, from those of the others.
ghost use Rattle.std.specs.Prelude.{◌≡◌, ℕ, ◌+◌, ◌*◌, ◌^◌, ◌<◌, suc, true, false, if◌then◌else◌, ◌==◌, [], ◌∷◌, length, IfOk, MatchResult};
ghost use Rattle.code.specs.Codes.{full, parity1, parity2};
ghost use Rattle.code.specs.Contents.{Holds, at, parts};
ghost use Rattle.code.specs.Standing.{FileOf};
ghost use Rattle.columns.specs.Parities.{parity as parity_of};
ghost use Rattle.refusal.specs.Refusals.{earliest, few_marks, refusal, wrong_lengths, wrong_size};
ghost use Rattle.missing.specs.Missing.{Found, many_out, present, stands, wrong_boxes};
ghost use Rattle.decoding.specs.Missing.{KeptStanding, Sourced, held};
ghost use Rattle.decoding.specs.Steps.{Replaced};

use crate::filling::fill_missing;
use boxes::Cabinet;
use code::code_stands;
use columns::{Parity, parity_column};
use field::{Quotients, Sums};
use missing::{Missing, all_numbered, find_listed};
use refusal::{Refusal, fitting};

// Copies a column into place x of a file.
fn place<F: Sums>(cabinet: &Cabinet<F>, x: usize, column: &[F], file: &mut [F])
    requires whole { let m = cabinet.now.size.m in length file.old ≡ 3 * m * 2 ^ m }
    requires rows { length column.now ≡ 2 ^ cabinet.now.size.m }
    requires data { x < 3 * cabinet.now.size.m }
    ensures { let m = cabinet.now.size.m in let columns = parts F.symbols F.value (2 ^ m) in Replaced (2 ^ m) x (columns file.old) (at F.symbols F.value column.now) (columns file.new) }
{
    let rows = cabinet.size.rows();
    file[x * rows..(x + 1) * rows].copy_from_slice(column);
}

// Brings the parity columns that tell missing data columns into their places.
fn bring<F: Sums>(cabinet: &Cabinet<F>, missing: Missing, first: &[F], second: &[F], file: &mut [F])
    requires whole { let m = cabinet.now.size.m in length file.old ≡ 3 * m * 2 ^ m }
    requires first_rows { length first.now ≡ 2 ^ cabinet.now.size.m }
    requires second_rows { length second.now ≡ 2 ^ cabinet.now.size.m }
    ensures { let m = cabinet.now.size.m in let columns = parts F.symbols F.value (2 ^ m) in let c = full F.symbols m in Sourced c missing (held c (columns file.old) (at F.symbols F.value first.now) (at F.symbols F.value second.now)) (columns file.new) }
{
    let boxes = cabinet.size.boxes();
    for b in 0..boxes {
        let told = missing.source(&cabinet.size, b);
        if told == boxes {
            place(cabinet, b, first, file);
        } else if told == boxes + 1 {
            place(cabinet, b, second, file);
        }
    }
}

// Fills in the data columns of the boxes that are out, and tells which are.
// Refused, with nothing written, where three or more are out.
fn fill_data<F: Quotients>(
    cabinet: &Cabinet<F>,
    out: &[usize],
    first: &[F],
    second: &[F],
    file: &mut [F],
) -> Result<Missing, Refusal>
    requires whole { let m = cabinet.now.size.m in length file.old ≡ 3 * m * 2 ^ m }
    requires first_rows { length first.now ≡ 2 ^ cabinet.now.size.m }
    requires second_rows { length second.now ≡ 2 ^ cabinet.now.size.m }
    ensures answer { refusal result ≡ many_out (3 * cabinet.now.size.m + 2) out.now }
    ensures missing { IfOk result (Found (stands out.now) (3 * cabinet.now.size.m + 2)) }
    ensures kept { let m = cabinet.now.size.m in let columns = parts F.symbols F.value (2 ^ m) in IfOk result (λ _. KeptStanding (full F.symbols m) (stands out.now) (columns file.old) (columns file.new)) }
    ensures file { let m = cabinet.now.size.m in let columns = parts F.symbols F.value (2 ^ m) in let c = full F.symbols m in MatchResult result (λ _. FileOf c (stands out.now) (held c (columns file.old) (at F.symbols F.value first.now) (at F.symbols F.value second.now)) (columns file.new)) (λ _. file.new ≡ file.old) }
{
    // By the code's laws there is exactly one such file.
    code_stands::<F>();
    let missing = find_listed(cabinet.size.boxes() + 2, out)?;
    bring(cabinet, missing, first, second, file);
    fill_missing(cabinet, missing, file);
    Ok(missing)
}

// Encodes a parity column again if its box, in place b, is missing.
fn fill_parity<F: Sums>(
    cabinet: &Cabinet<F>,
    missing: Missing,
    b: usize,
    which: Parity,
    file: &[F],
    column: &mut [F],
)
    requires whole { let m = cabinet.now.size.m in length file.now ≡ 3 * m * 2 ^ m }
    requires rows { length column.old ≡ 2 ^ cabinet.now.size.m }
    ensures out { let m = cabinet.now.size.m in present missing b ≡ false → Holds F.symbols F.value (2 ^ m) column.new (parity_of which (full F.symbols m) (parts F.symbols F.value (2 ^ m) file.now)) }
    ensures kept { present missing b ≡ true → column.new ≡ column.old }
{
    if missing.lists(b) {
        parity_column(cabinet.size.m, which, file, column).unwrap();
    }
}

// Fills in the columns of the boxes that are out, whose numbers from 1 on are
// listed, whatever the others hold: those of data boxes in the file, and those
// of parity boxes in the two further columns. The file is then the one that
// has the columns of the first 3m boxes that stand, and nothing else has
// changed. Refused, with nothing written, by a size, too few marks, a length or
// a box that does not fit, and where three or more boxes are out.
pub fn decode<F: Quotients>(
    m: usize,
    out: &[usize],
    file: &mut [F],
    first: &mut [F],
    second: &mut [F],
) -> Result<(), Refusal>
    ensures answer { refusal result ≡ earliest (wrong_size m ∷ few_marks F.symbols m ∷ wrong_lengths ((length file.old, 3 * m * 2 ^ m) ∷ (length first.old, 2 ^ m) ∷ (length second.old, 2 ^ m) ∷ []) ∷ wrong_boxes (3 * m + 2) out.now ∷ many_out (3 * m + 2) out.now ∷ []) }
    ensures file { let columns = parts F.symbols F.value (2 ^ m) in let c = full F.symbols m in MatchResult result (λ _. FileOf c (stands out.now) (held c (columns file.old) (at F.symbols F.value first.old) (at F.symbols F.value second.old)) (columns file.new)) (λ _. file.new ≡ file.old) }
    ensures kept { let columns = parts F.symbols F.value (2 ^ m) in IfOk result (λ _. KeptStanding (full F.symbols m) (stands out.now) (columns file.old) (columns file.new)) }
    ensures first { MatchResult result (λ _. (stands out.now (3 * m) ≡ false → Holds F.symbols F.value (2 ^ m) first.new (parity1 (full F.symbols m) (parts F.symbols F.value (2 ^ m) file.new))) × (stands out.now (3 * m) ≡ true → first.new ≡ first.old)) (λ _. first.new ≡ first.old) }
    ensures second { MatchResult result (λ _. (stands out.now (3 * m + 1) ≡ false → Holds F.symbols F.value (2 ^ m) second.new (parity2 (full F.symbols m) (parts F.symbols F.value (2 ^ m) file.new))) × (stands out.now (3 * m + 1) ≡ true → second.new ≡ second.old)) (λ _. second.new ≡ second.old) }
{
    let cabinet = Cabinet::new(m)?;
    let boxes = cabinet.size.boxes();
    let rows = cabinet.size.rows();
    fitting(&[
        (file.len(), boxes * rows),
        (first.len(), rows),
        (second.len(), rows),
    ])?;
    all_numbered(boxes + 2, out)?;
    let missing = fill_data(&cabinet, out, first, second, file)?;
    fill_parity(&cabinet, missing, boxes, Parity::First, file, first);
    fill_parity(&cabinet, missing, boxes + 1, Parity::Second, file, second);
    Ok(())
}
