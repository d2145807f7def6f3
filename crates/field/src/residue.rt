// The field of the integers modulo a prime, one text for every prime below 2^31.
#![tactic(auto, using(crate::proofs::Residues::residue_again, crate::proofs::Residues::settled))]

ghost use Rattle.std.specs.Prelude.{◌≡◌, ℕ, ◌-◌, ◌^◌, ◌<◌, ◌≤◌};
ghost use Rattle.std.specs.Mem.{type_size};
ghost use Rattle.field.specs.Marks.{Marks};
ghost use Rattle.field.specs.Numbers.{NumberOf, residue};
ghost use Rattle.field.specs.Residues.{Prime, integers};

use crate::{Quotients, Sums, modulo};

// The symbols of a field of integers modulo a prime. The conversions are methods:
// there is no symbol for a number from the size up, so `From` would need one
// made up, and `TryFrom` a case that cannot happen at each of its calls.
pub trait Residue: Copy {
    const SIZE: u32;

    ghost SIZE: { ℕ };

    // How many marks there are: all symbols but zero.
    const MARK_COUNT: u32;

    ghost MARK_COUNT: { ℕ };

    ghost above_one: { 1 < SIZE };

    ghost marks: { Marks SIZE };

    ghost number: { Self → ℕ };

    ghost of_number: { ℕ → Self };

    // What `takes_few_bytes` of Sums promises.
    fn few_bytes()
        ensures { type_size Self.row ≤ 64 };

    fn from_number(n: u32) -> Self
        requires { n < SIZE }
        ensures { number result ≡ n };

    fn to_number(self) -> u32
        ensures { NumberOf SIZE number of_number self result };

    // Each symbol but zero is a mark.
    fn mark_at(j: u32) -> Self
        requires low { 1 ≤ j }
        requires high { j < SIZE }
        ensures { number result ≡ marks.at j };

    ghost prime: { Prime SIZE };

    // Twice the size fits in 32 bits.
    ghost small: { SIZE < 2 ^ 31 };

    ghost marks_agree: { MARK_COUNT ≡ marks.count };

    ghost all_marked: { SIZE - 1 ≡ MARK_COUNT };
}

impl<R: Residue> Sums for R {
    const MARKS: u32 = R::MARK_COUNT;

    ghost MARKS = { R.MARK_COUNT };

    ghost symbols = { integers R.SIZE R.above_one R.marks };

    ghost value = { λ s. residue R.SIZE R.above_one (R.number s) };

    ghost of_number = { R.of_number };

    ghost marks_agree = { R.marks_agree };

    fn takes_few_bytes() {
        R::few_bytes()
    }

    fn zero() -> R {
        R::from_number(0)
    }

    fn one() -> R {
        R::from_number(1)
    }

    #[inline(always)]
    fn sum(self, other: R) -> R {
        R::from_number(modulo::sum::<R>(self.to_number(), other.to_number()))
    }

    #[inline(always)]
    fn negative(self) -> R {
        R::from_number(modulo::negative::<R>(self.to_number()))
    }

    #[inline(always)]
    fn product(self, other: R) -> R {
        R::from_number(modulo::product::<R>(self.to_number(), other.to_number()))
    }

    fn number(self) -> u32 {
        self.to_number()
    }

    fn symbol(n: u32) -> Option<R> {
        if n < R::SIZE {
            Some(R::from_number(n))
        } else {
            None
        }
    }

    fn mark(j: u32) -> Option<R> {
        if 1 <= j && j < R::SIZE {
            Some(R::mark_at(j))
        } else {
            None
        }
    }
}

impl<R: Residue> Quotients for R {
    fn divides() {}

    #[inline(always)]
    fn inverse(self) -> Option<R> {
        let n = self.to_number();
        if n == 0 {
            None
        } else {
            Some(R::from_number(modulo::inverse::<R>(n)))
        }
    }
}
