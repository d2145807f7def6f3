// Sizes of cabinets.
ghost use Rattle.std.specs.Prelude.{◌≡◌, ℕ, ◌+◌, ◌-◌, ◌*◌, ◌%◌, ◌^◌, ◌<◌, ◌≤◌, IfOk};
ghost use Rattle.refusal.specs.Refusals.{refusal, wrong_size};

use crate::kinds::{KINDS, shift_at};
use crate::rows::{Digit, small_power};
use refusal::{Refusal, sized};

// How many symbols the columns of the largest size have.
pub const MOST_ROWS: usize = 64;

// A size m, from 1 to 6: 3m data boxes, and columns of 2^m symbols.
#[derive(Debug, Drop)]
pub struct Size {
    pub m: usize,
    ghost some: { 1 ≤ m },
    ghost most: { m ≤ 6 },
}

impl Size {
    // Refused outside 1 to 6.
    pub fn new(m: usize) -> Result<Size, Refusal>
        ensures answer { refusal result ≡ wrong_size m }
        ensures size { IfOk result (λ s. s.m ≡ m) }
    {
        sized(m)?;
        Ok(Size { m })
    }

    // How many data boxes there are.
    pub fn boxes(&self) -> usize
        ensures { result ≡ 3 * self.now.m }
    {
        KINDS * self.m
    }

    // How many symbols a column has.
    pub fn rows(&self) -> usize
        ensures value { result ≡ 2 ^ self.now.m }
        ensures bound { result ≤ 64 }
        ensures positive { 1 ≤ result }
    {
        small_power(self.m)
    }

    // How many numbers a half has: one for each pair of rows.
    pub fn pairs(&self) -> usize
        ensures value { result ≡ 2 ^ (self.now.m - 1) }
        ensures bound { result ≤ 64 }
        ensures positive { 1 ≤ result }
    {
        small_power(self.m - 1)
    }

    // The digit of the direction of the data box in place b, from 0.
    pub fn digit(&self, b: usize) -> Digit
        ensures digits { result.digits ≡ self.now.m }
        ensures place { result.place ≡ self.now.m - (b % self.now.m + 1) }
    {
        Digit {
            digits: self.m,
            place: shift_at(self.m, b),
        }
    }
}
