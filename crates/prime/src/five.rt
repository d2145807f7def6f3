// Five: the integers modulo 5.
ghost use Rattle.std.specs.Prelude.{refl};
ghost use Rattle.std.proofs.Common.{lit<};
ghost use Rattle.prime.specs.Five.{above_one, five_marks, five_number, five_of};
ghost use Rattle.prime.specs.Primes.{prime_5};

use field::residue::Residue;

#[derive(Clone, Copy, Debug, PartialEq, Eq)]
pub enum Five {
    Zero,
    One,
    Two,
    Three,
    Four,
}

const MARK_LIST: [Five; 4] = [Five::One, Five::Four, Five::Two, Five::Three];

impl Residue for Five {
    const SIZE: u32 = 5;

    ghost SIZE = { 5 };

    const MARK_COUNT: u32 = 4;

    ghost MARK_COUNT = { 4 };

    ghost above_one = { above_one };

    ghost marks = { five_marks };

    ghost number = { five_number };

    ghost of_number = { five_of };

    ghost prime = { prime_5 };

    ghost small = { lit< tt };

    ghost marks_agree = { refl };

    ghost all_marked = { refl };

    fn few_bytes() {}

    fn from_number(n: u32) -> Five {
        // A table would be read symbol by symbol; a match is compiled to the number.
        match n {
            0 => Five::Zero,
            1 => Five::One,
            2 => Five::Two,
            3 => Five::Three,
            _ => Five::Four,
        }
    }

    fn to_number(self) -> u32 {
        self as u32
    }

    fn mark_at(j: u32) -> Five {
        MARK_LIST[j as usize - 1]
    }
}
