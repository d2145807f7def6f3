// The blocks of the code, each on a pair of partner rows.
ghost use Rattle.std.specs.Prelude.{◌≡◌, true, false};
ghost use Rattle.code.specs.Blocks.{◌∸◌, Eigen, block as blocked};
ghost use Rattle.code.specs.Recovery.{eigenvalue as eigenvalue_of, recover as recovered};

use crate::Kind;
use field::Sums;

// The block of a data box: the kind of the box, and the two eigenvalues of its direction.
#[derive(Clone, Copy, Debug, PartialEq, Eq)]
pub struct Block<F> {
    pub kind: Kind,
    pub p: F,
    pub q: F,
}

impl<F: Sums> Block<F> {
    // Both rows, by kind: apart from `apply`, so that the table is proved by itself
    // and the eigenvalues from it. Where a row is a sum of two products, one is
    // spared: q s + (q - p) t is q (s + t) less p t, which is the other row.
    #[tactic(auto, using(crate::proofs::Products::lower_row, crate::proofs::Products::upper_row))]
    #[inline(always)]
    fn rows(self, s: F, t: F) -> (F, F)
        ensures lower { F.value result.0 ≡ blocked F.symbols.ring self.kind (F.value self.p) (F.value self.q) (F.value s) (F.value t) false }
        ensures upper { F.value result.1 ≡ blocked F.symbols.ring self.kind (F.value self.p) (F.value self.q) (F.value s) (F.value t) true }
    {
        let Block { kind, p, q } = self;
        match kind {
            Kind::Lower => {
                let upper = p.product(t);
                (q.product(s.sum(t)).minus(upper), upper)
            }
            Kind::Upper => {
                let lower = q.product(s);
                (lower, p.product(s.sum(t)).minus(lower))
            }
            Kind::Sum => (p.product(s), q.product(t)),
        }
    }

    // What the block makes of s in the lower and t in the upper row. It is the
    // code's block, since it has the eigenvalues of the construction.
    #[inline(always)]
    pub fn apply(self, s: F, t: F) -> (F, F)
        ensures lower { F.value result.0 ≡ blocked F.symbols.ring self.kind (F.value self.p) (F.value self.q) (F.value s) (F.value t) false }
        ensures upper { F.value result.1 ≡ blocked F.symbols.ring self.kind (F.value self.p) (F.value self.q) (F.value s) (F.value t) true }
        ensures eigen { Eigen F.symbols.ring self.kind (F.value self.p) (F.value self.q) (F.value s) (F.value t) (F.value result.0) (F.value result.1) }
    {
        self.rows(s, t)
    }

    // The difference of the two eigenvalues, q - p.
    #[inline(always)]
    pub fn gap(self) -> F
        ensures { F.value result ≡ ◌∸◌ F.symbols.ring (F.value self.q) (F.value self.p) }
    {
        self.q.minus(self.p)
    }

    // What the block makes of the half for a lost box of another kind in its
    // direction: this times the half. Two boxes of one direction differ in kind.
    pub fn eigenvalue(self, lost: Kind) -> F
        ensures { F.value result ≡ eigenvalue_of F.symbols.ring lost self.kind (F.value self.p) (F.value self.q) }
    {
        match (lost, self.kind) {
            (Kind::Lower, Kind::Upper) | (Kind::Upper, Kind::Sum) | (Kind::Sum, Kind::Lower) =>
                self.q,
            (Kind::Lower, Kind::Sum) | (Kind::Upper, Kind::Lower) | (Kind::Sum, Kind::Upper) =>
                self.p,
            (Kind::Lower, Kind::Lower) | (Kind::Upper, Kind::Upper) | (Kind::Sum, Kind::Sum) =>
                F::zero(),
        }
    }

    // The pair again, from its half g and the half h of its block; d is the inverse of the gap.
    pub fn recover(self, d: F, g: F, h: F) -> (F, F)
        ensures lower { F.value result.0 ≡ recovered F.symbols.ring self.kind (F.value self.p) (F.value self.q) (F.value d) (F.value g) (F.value h) false }
        ensures upper { F.value result.1 ≡ recovered F.symbols.ring self.kind (F.value self.p) (F.value self.q) (F.value d) (F.value g) (F.value h) true }
    {
        let Block { kind, p, q } = self;
        match kind {
            Kind::Lower => (g, d.product(h.minus(q.product(g)))),
            Kind::Upper => (d.product(p.product(g).minus(h)), g),
            Kind::Sum => (
                d.product(q.product(g).minus(h)),
                d.product(h.minus(p.product(g))),
            ),
        }
    }
}
