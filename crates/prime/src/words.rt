// Words: the integers modulo 65537, one more than fit in 16 bits.
ghost use Rattle.std.specs.Prelude.{refl};
ghost use Rattle.std.proofs.Common.{lit<};
ghost use Rattle.prime.specs.Words.{above_one, word_marks, word_number, word_of};
ghost use Rattle.prime.specs.Primes.{prime_65537};

use field::residue::Residue;

// Top is 65536.
#[derive(Clone, Copy, Debug, PartialEq, Eq)]
pub enum Words {
    Low(u16),
    Top,
}

impl Residue for Words {
    const SIZE: u32 = 65537;

    ghost SIZE = { 65537 };

    const MARK_COUNT: u32 = 65536;

    ghost MARK_COUNT = { 65536 };

    ghost above_one = { above_one };

    ghost marks = { word_marks };

    ghost number = { word_number };

    ghost of_number = { word_of };

    ghost prime = { prime_65537 };

    ghost small = { lit< tt };

    ghost marks_agree = { refl };

    ghost all_marked = { refl };

    fn few_bytes() {}

    fn from_number(n: u32) -> Words {
        u16::try_from(n).map_or(Words::Top, Words::Low)
    }

    fn to_number(self) -> u32 {
        match self {
            Words::Low(n) => u32::from(n),
            Words::Top => 65536,
        }
    }

    fn mark_at(j: u32) -> Words {
        Self::from_number(j)
    }
}
