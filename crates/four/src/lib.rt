// Four: exclusive or as the sum, and a table of products.
#![tactic(auto)]

ghost use Rattle.std.specs.Prelude.{◌≡◌, MatchOption, bit_xor, refl};
ghost use Rattle.four.specs.Four.{four_number, four_of, four_symbols, four_value, product as tabled};

use Four::{One, Three, Two, Zero};
use field::{Quotients, Sums};

#[derive(Clone, Copy, Debug, PartialEq, Eq)]
pub enum Four {
    Zero,
    One,
    Two,
    Three,
}

// A row for each symbol.
const PRODUCTS: [[Four; 4]; 4] = [
    [Zero, Zero, Zero, Zero],
    [Zero, One, Two, Three],
    [Zero, Two, Three, One],
    [Zero, Three, One, Two],
];

static INVERSES: [Option<Four>; 4] = [None, Some(One), Some(Three), Some(Two)];

const MARK_LIST: [Four; 3] = [Three, Two, One];

// Two digits to a number, and each digit is added on its own. By a match, which
// is compiled to no more than the number: a table would be read symbol by symbol.
fn add(a: Four, b: Four) -> Four
    ensures { four_number result ≡ bit_xor (four_number a) (four_number b) }
{
    match a as u8 ^ b as u8 {
        0 => Zero,
        1 => One,
        2 => Two,
        _ => Three,
    }
}

fn multiply(a: Four, b: Four) -> Four
    ensures { four_number result ≡ tabled (four_number a) (four_number b) }
{
    PRODUCTS[a as usize][b as usize]
}

fn invert(a: Four) -> Option<Four>
    ensures { MatchOption result (four_number a ≡ 0) (λ b. tabled (four_number a) (four_number b) ≡ 1) }
{
    INVERSES[a as usize]
}

impl Sums for Four {
    const MARKS: u32 = 3;

    ghost MARKS = { 3 };

    ghost symbols = { four_symbols };

    ghost value = { four_value };

    ghost of_number = { four_of };

    ghost marks_agree = { refl };

    fn takes_few_bytes() {}

    fn zero() -> Four {
        Zero
    }

    fn one() -> Four {
        One
    }

    fn sum(self, other: Four) -> Four {
        add(self, other)
    }

    // Each symbol gives zero with itself.
    fn negative(self) -> Four {
        self
    }

    fn product(self, other: Four) -> Four {
        multiply(self, other)
    }

    fn number(self) -> u32 {
        self as u32
    }

    fn symbol(n: u32) -> Option<Four> {
        match n {
            0 => Some(Zero),
            1 => Some(One),
            2 => Some(Two),
            3 => Some(Three),
            _ => None,
        }
    }

    fn mark(j: u32) -> Option<Four> {
        MARK_LIST.get((j as usize).checked_sub(1)?).copied()
    }
}

impl Quotients for Four {
    fn divides() {}

    fn inverse(self) -> Option<Four> {
        invert(self)
    }
}
