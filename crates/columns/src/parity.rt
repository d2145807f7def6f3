// The two parity columns of a file.
ghost use Rattle.std.specs.Prelude.{◌≡◌, ℕ, ◌+◌, ◌-◌, ◌*◌, ◌^◌, ◌<◌, ◌≤◌, [], ◌∷◌, length, MatchResult};
ghost use Rattle.code.specs.Codes.{full, parity1, parity2};
ghost use Rattle.code.specs.Contents.{Holds, added, at, parts};
ghost use Rattle.refusal.specs.Refusals.{earliest as soonest, few_marks, refusal, wrong_lengths, wrong_size};
ghost use Rattle.columns.specs.Parities.{parity as parity_of, share};

use crate::column::{add_pairs, add_rows, clear};
use boxes::Cabinet;
use field::Sums;
use refusal::{Refusal, fitting};

// The first parity column is the sum of the data columns, the second the sum of their images.
#[derive(Clone, Copy, Debug, PartialEq, Eq)]
pub enum Parity {
    First,
    Second,
}

// The lengths of what is lent are asked for, as in column.rt.
impl Parity {
    // Adds the share that the column of the data box in place b has in the parity column.
    fn add_share<F: Sums>(self, cabinet: &Cabinet<F>, b: usize, sum: &mut [F], column: &[F])
        requires sums { length sum.old ≡ 2 ^ cabinet.now.size.m }
        requires rows { length column.now ≡ 2 ^ cabinet.now.size.m }
        ensures { Holds F.symbols F.value (2 ^ cabinet.now.size.m) sum.new (added F.symbols (at F.symbols F.value sum.old) (share self (full F.symbols cabinet.now.size.m) b (at F.symbols F.value column.now))) }
    {
        match self {
            Parity::First => add_rows(sum, column),
            Parity::Second => add_pairs(cabinet, b, sum, column),
        }
    }

    // Writes the parity column of a file.
    fn write<F: Sums>(self, cabinet: &Cabinet<F>, file: &[F], into: &mut [F])
        requires whole { length file.now ≡ 3 * cabinet.now.size.m * 2 ^ cabinet.now.size.m }
        requires rows { length into.old ≡ 2 ^ cabinet.now.size.m }
        ensures { Holds F.symbols F.value (2 ^ cabinet.now.size.m) into.new (parity_of self (full F.symbols cabinet.now.size.m) (parts F.symbols F.value (2 ^ cabinet.now.size.m) file.now)) }
    {
        clear(into);
        for (b, column) in file.chunks_exact(cabinet.size.rows()).enumerate() {
            self.add_share(cabinet, b, into, column);
        }
    }
}

// Writes one parity column of a file of 3m columns. Refused, with nothing
// written, by a size, too few marks or a length that does not fit.
pub fn parity_column<F: Sums>(
    m: usize,
    which: Parity,
    file: &[F],
    into: &mut [F],
) -> Result<(), Refusal>
    ensures answer { refusal result ≡ soonest (wrong_size m ∷ few_marks F.symbols m ∷ wrong_lengths ((length file.now, 3 * m * 2 ^ m) ∷ (length into.old, 2 ^ m) ∷ []) ∷ []) }
    ensures column { MatchResult result (λ _. Holds F.symbols F.value (2 ^ m) into.new (parity_of which (full F.symbols m) (parts F.symbols F.value (2 ^ m) file.now))) (λ _. into.new ≡ into.old) }
{
    let cabinet = Cabinet::new(m)?;
    let rows = cabinet.size.rows();
    fitting(&[
        (file.len(), cabinet.size.boxes() * rows),
        (into.len(), rows),
    ])?;
    which.write(&cabinet, file, into);
    Ok(())
}

// Writes both parity columns of a file of 3m columns: the sum of the columns
// and the sum of their images. Refused, with nothing written, by a size, too
// few marks or a length that does not fit.
pub fn parities<F: Sums>(
    m: usize,
    file: &[F],
    first: &mut [F],
    second: &mut [F],
) -> Result<(), Refusal>
    ensures answer { refusal result ≡ soonest (wrong_size m ∷ few_marks F.symbols m ∷ wrong_lengths ((length file.now, 3 * m * 2 ^ m) ∷ (length first.old, 2 ^ m) ∷ (length second.old, 2 ^ m) ∷ []) ∷ []) }
    ensures sums { MatchResult result (λ _. Holds F.symbols F.value (2 ^ m) first.new (parity1 (full F.symbols m) (parts F.symbols F.value (2 ^ m) file.now))) (λ _. first.new ≡ first.old) }
    ensures images { MatchResult result (λ _. Holds F.symbols F.value (2 ^ m) second.new (parity2 (full F.symbols m) (parts F.symbols F.value (2 ^ m) file.now))) (λ _. second.new ≡ second.old) }
{
    let cabinet = Cabinet::new(m)?;
    let rows = cabinet.size.rows();
    fitting(&[
        (file.len(), cabinet.size.boxes() * rows),
        (first.len(), rows),
        (second.len(), rows),
    ])?;
    Parity::First.write(&cabinet, file, first);
    Parity::Second.write(&cabinet, file, second);
    Ok(())
}
