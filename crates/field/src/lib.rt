// Fields in two steps: sums, and quotients built on them.
#![tactic(auto)]

ghost use Rattle.std.specs.Prelude.{◌≡◌, ℕ, ◌≤◌, IsTrue, MatchOption};
ghost use Rattle.std.specs.Mem.{type_size};
ghost use Rattle.field.specs.Ring.{Divides};
ghost use Rattle.field.specs.Symbols.{Symbols};

mod modulo;
pub mod residue;

// A field as far as its sums and products go, with its marks (the constants
// that the code is built from) and the number of each symbol.
pub trait Sums: Copy {
    // How many marks there are.
    const MARKS: u32;

    ghost MARKS: { ℕ };

    // The symbols as mathematics has them, with the laws that each field owes.
    ghost symbols: { Symbols };

    // Which of them a value of the program stands for.
    ghost value: { Self → symbols.Symbol };

    // The value of the program with a number, so that no symbol has two.
    ghost of_number: { ℕ → Self };

    // A symbol takes few bytes, so that an array of them can be lent: of a type
    // whose size is not bounded the check does not admit that it fits in memory.
    fn takes_few_bytes()
        ensures { type_size Self.row ≤ 64 };

    fn zero() -> Self
        ensures { value result ≡ symbols.ring.zero };

    fn one() -> Self
        ensures { value result ≡ symbols.ring.one };

    fn sum(self, other: Self) -> Self
        ensures { value result ≡ symbols.ring.plus (value self) (value other) };

    fn negative(self) -> Self
        ensures { value result ≡ symbols.ring.negative (value self) };

    fn product(self, other: Self) -> Self
        ensures { value result ≡ symbols.ring.times (value self) (value other) };

    // Conversions are methods, as equality is: `From` and `TryFrom` beside them
    // would be second names for the same promise.
    fn number(self) -> u32
        ensures is { result ≡ symbols.number (value self) }
        ensures back { self ≡ of_number result };

    // The symbol with the number n, absent from the field's size up.
    fn symbol(n: u32) -> Option<Self>
        ensures { MatchOption result (symbols.size ≤ n) (λ x. symbols.number (value x) ≡ n) };

    // Mark j, absent outside 1 to the mark count.
    fn mark(j: u32) -> Option<Self>
        ensures { MatchOption result (1 ≤ j → j ≤ symbols.marks → ⊥) (λ x. (1 ≤ j) × (j ≤ symbols.marks) × (value x ≡ symbols.mark j)) };

    final fn minus(self, other: Self) -> Self
        ensures { value result ≡ symbols.ring.plus (value self) (symbols.ring.negative (value other)) }
    {
        self.sum(other.negative())
    }

    // Yes exactly for the same symbol. A law on `==` could not say so: it would
    // have to hold of integers that no program holds.
    final fn same(self, other: Self) -> bool
        ensures yes { IsTrue result → self ≡ other }
        ensures found { value self ≡ value other → IsTrue result }
    {
        self.number() == other.number()
    }

    // MARKS, with the promise that it counts the marks.
    final fn mark_count() -> u32
        ensures { result ≡ symbols.marks }
    {
        Self::MARKS
    }

    ghost marks_agree: { MARKS ≡ symbols.marks };
}

// A field with inverses.
pub trait Quotients: Sums {
    // Every symbol but zero has an inverse: one promise for all symbols at once.
    fn divides()
        ensures { Divides Self.symbols.ring };

    // Absent for zero alone.
    fn inverse(self) -> Option<Self>
        ensures { MatchOption result (Self.value self ≡ Self.symbols.ring.zero) (λ y. Self.symbols.ring.times (Self.value self) (Self.value y) ≡ Self.symbols.ring.one) };
}
