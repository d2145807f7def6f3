// Matrices of two by two over a field: what undoes the blocks.
ghost use Rattle.std.specs.Prelude.{◌≡◌, true, false, MatchOption};
ghost use Rattle.code.specs.Blocks.{◌∸◌};
ghost use Rattle.code.specs.Decoding.{block_matrix, from_eigen, to_eigen, unit};
ghost use Rattle.decoding.specs.Matrices.{applied, determinant as determinant_of, entries, Entrywise, UndoesDifference, UndoesShift};

use code::{Block, Kind};
use field::{Quotients, Sums};

// What takes the symbols of a pair to two others: the two factors of the lower
// row's new symbol, and those of the upper row's.
#[derive(Clone, Copy)]
pub(crate) struct Matrix<F> {
    pub(crate) lower: (F, F),
    pub(crate) upper: (F, F),
}

// What the block makes of (1, 0) and of (0, 1).
impl<F: Sums> From<Block<F>> for Matrix<F> {
    ghost from_gives = { λ block matrix. Entrywise (entries F.value matrix) (block_matrix F.symbols.ring block.kind (F.value block.p) (F.value block.q)) };

    fn from(block: Block<F>) -> Self {
        let (zero, one) = (F::zero(), F::one());
        let (left, right) = (block.apply(one, zero), block.apply(zero, one));
        Self {
            lower: (left.0, right.0),
            upper: (left.1, right.1),
        }
    }
}

impl<F: Sums> Matrix<F> {
    // From a pair to its functionals with the eigenvalues p and q.
    pub(crate) fn into_eigen(kind: Kind) -> Self
        ensures { Entrywise (entries F.value result) (to_eigen F.symbols.ring kind) }
    {
        let (zero, one) = (F::zero(), F::one());
        match kind {
            Kind::Lower => Self {
                lower: (zero, one),
                upper: (one, one),
            },
            Kind::Upper => Self {
                lower: (one, one),
                upper: (one, zero),
            },
            Kind::Sum => Self {
                lower: (one, zero),
                upper: (zero, one),
            },
        }
    }

    // And back.
    pub(crate) fn out_of_eigen(kind: Kind) -> Self
        ensures { Entrywise (entries F.value result) (from_eigen F.symbols.ring kind) }
    {
        let (zero, one) = (F::zero(), F::one());
        match kind {
            Kind::Lower => Self {
                lower: (one.negative(), one),
                upper: (one, zero),
            },
            Kind::Upper => Self {
                lower: (zero, one),
                upper: (one, one.negative()),
            },
            Kind::Sum => Self {
                lower: (one, zero),
                upper: (zero, one),
            },
        }
    }

    // A multiple of the matrix that changes nothing.
    fn multiple(f: F) -> Self
        ensures { Entrywise (entries F.value result) (λ i j. F.symbols.ring.times (F.value f) (unit F.symbols.ring i j)) }
    {
        let (none, all) = (f.product(F::zero()), f.product(F::one()));
        Self {
            lower: (all, none),
            upper: (none, all),
        }
    }

    // The matrix times a pair.
    pub(crate) fn apply(self, s: F, t: F) -> (F, F)
        ensures lower { F.value result.0 ≡ applied F.symbols.ring (entries F.value self) (F.value s) (F.value t) false }
        ensures upper { F.value result.1 ≡ applied F.symbols.ring (entries F.value self) (F.value s) (F.value t) true }
    {
        let Self { lower, upper } = self;
        (
            lower.0.product(s).sum(lower.1.product(t)),
            upper.0.product(s).sum(upper.1.product(t)),
        )
    }

    // The difference from another matrix, times e.
    fn scaled_difference(self, other: Self, e: F) -> Self
        ensures { Entrywise (entries F.value result) (λ i j. F.symbols.ring.times (F.value e) (◌∸◌ F.symbols.ring (entries F.value self i j) (entries F.value other i j))) }
    {
        let entry = |a: F, b: F| e.product(a.minus(b));
        Self {
            lower: (
                entry(self.lower.0, other.lower.0),
                entry(self.lower.1, other.lower.1),
            ),
            upper: (
                entry(self.upper.0, other.upper.0),
                entry(self.upper.1, other.upper.1),
            ),
        }
    }
}

impl<F: Quotients> Matrix<F> {
    // What undoes a block less z. Absent where z is one of its eigenvalues.
    pub(crate) fn undo_shift(block: Block<F>, z: F) -> Option<Self>
        ensures { MatchOption result (determinant_of F.symbols.ring (F.value block.p) (F.value block.q) (F.value z) ≡ F.symbols.ring.zero) (λ u. UndoesShift F.symbols.ring block.kind (F.value block.p) (F.value block.q) (F.value z) (entries F.value u)) }
    {
        // The adjugate of the block less z, over its determinant.
        let e = determinant(block, z).inverse()?;
        let all = Self::multiple(block.p.sum(block.q).minus(z));
        Some(all.scaled_difference(block.into(), e))
    }

    // What undoes the difference of the blocks of two boxes of one direction.
    // Absent where its two eigenvalues are one.
    pub(crate) fn undo_difference(block: Block<F>, other: Kind) -> Option<Self>
        ensures { MatchOption result (◌∸◌ F.symbols.ring (F.value block.q) (F.value block.p) ≡ F.symbols.ring.zero) (λ u. UndoesDifference F.symbols.ring block.kind other (F.value block.p) (F.value block.q) (entries F.value u)) }
    {
        // The difference, applied twice, multiplies by the square of the gap.
        let d = block.gap().inverse()?;
        let other = Block {
            kind: other,
            ..block
        };
        Some(Self::from(block).scaled_difference(other.into(), d.product(d)))
    }
}

// The determinant of a block less z.
fn determinant<F: Sums>(block: Block<F>, z: F) -> F
    ensures { F.value result ≡ determinant_of F.symbols.ring (F.value block.p) (F.value block.q) (F.value z) }
{
    block.p.minus(z).product(block.q.minus(z))
}
