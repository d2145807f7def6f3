// Rows by their binary digits; k is the place of a digit, so that its weight is 2^k.
ghost use Rattle.std.specs.Prelude.{◌≡◌, ℕ, ◌-◌, ◌%◌, ◌^◌, ◌<◌, ◌≤◌, MatchOption, false};
ghost use Rattle.code.specs.Rows.{digit, odd, pair_of, partner};
ghost use Rattle.std.specs.Iterator.{at_most};
ghost use Rattle.boxes.specs.Pairs.{NextPair, RowsOfPair};

// 2^k, with k counted modulo 64.
pub fn power(k: usize) -> usize
    ensures { result ≡ 2 ^ (k % 64) }
{
    1 << (k % 64)
}

// The same for a k of at most 6. Each power promises its two bounds: sums
// and products of it need them, and no type holds a bare power.
pub(crate) fn small_power(k: usize) -> usize
    requires { k ≤ 6 }
    ensures value { result ≡ 2 ^ k }
    ensures bound { result ≤ 64 }
    ensures positive { 1 ≤ result }
{
    power(k)
}

// One of the binary digits of the rows of a column, at most six of them.
#[derive(Debug, Drop)]
pub struct Digit {
    pub digits: usize,
    pub place: usize,
    ghost most: { digits ≤ 6 },
    ghost inside: { place < digits },
}

impl Digit {
    // Absent where there is no such digit, and for more than six.
    pub fn new(digits: usize, place: usize) -> Option<Digit>
        ensures { MatchOption result (digits ≤ 6 → place < digits → ⊥) (λ d. (d.digits ≡ digits) × (d.place ≡ place)) }
    {
        if 6 < digits || digits <= place {
            return None;
        }
        Some(Digit { digits, place })
    }

    pub fn weight(&self) -> usize
        ensures value { result ≡ 2 ^ self.now.place }
        ensures bound { result ≤ 64 }
        ensures positive { 1 ≤ result }
    {
        small_power(self.place)
    }

    // The two rows of pair j along the digit, the lower first. Absent where
    // there is no such pair.
    pub fn pair(&self, j: usize) -> Option<(usize, usize)>
        ensures { MatchOption result (2 ^ (self.now.digits - 1) ≤ j) (λ p. RowsOfPair self.now.digits self.now.place j p.0 p.1) }
    {
        if small_power(self.digits - 1) <= j {
            return None;
        }
        let weight = self.weight();
        // The digits of j from the place up move one place up: its high part is added once more.
        let low = j + (j - j % weight);
        Some((low, low + weight))
    }

    // All pairs along the digit.
    pub fn pairs(&self) -> Pairs<'_>
        ensures digit { result.digit.now ≡ self.now }
        ensures start { result.next ≡ 0 }
    {
        Pairs {
            digit: self,
            next: 0,
        }
    }

    // Is the digit of a row 1?
    pub fn is_upper(&self, row: usize) -> bool
        ensures { result ≡ odd (digit self.now.place row) }
    {
        row / self.weight() % 2 == 1
    }

    // The partner of a row, or the row itself, with digit 0.
    pub fn lower_partner(&self, row: usize) -> usize
        ensures { result ≡ partner self.now.place false row }
    {
        let weight = self.weight();
        // `is_upper` written out: from it the check finds that the row is at least the weight.
        if row / weight % 2 == 1 {
            row - weight
        } else {
            row
        }
    }

    // Which pair a row belongs to.
    pub fn pair_index(&self, row: usize) -> usize
        ensures { result ≡ pair_of self.now.place row }
    {
        let weight = self.weight();
        (row - row % (2 * weight)) / 2 + row % weight
    }
}

// The rows of the pairs along a digit, from the next pair on.
#[derive(Debug, Drop)]
pub struct Pairs<'a> {
    pub digit: &'a Digit,
    pub next: usize,
}

impl Iterator for Pairs<'_> {
    type Item = (usize, usize);

    ghost next_gives = { λ s r t. (t.digit.now ≡ s.digit.now) × NextPair s.digit.now.digits s.digit.now.place s.next r t.next };

    ghost remaining = { λ s. at_most (2 ^ (s.digit.now.digits - 1) - s.next) };

    fn next(&mut self) -> Option<(usize, usize)> {
        let rows = self.digit.pair(self.next)?;
        self.next += 1;
        Some(rows)
    }
}

// The two rows of pair j along the digit k, among the 2^m rows of a column, the
// lower first. Absent where there is no such pair, and for m over 6.
pub fn pair_rows(m: usize, k: usize, j: usize) -> Option<(usize, usize)>
    ensures { MatchOption result (m ≤ 6 → k < m → j < 2 ^ (m - 1) → ⊥) (λ p. RowsOfPair m k j p.0 p.1) }
{
    Digit::new(m, k)?.pair(j)
}
