// The array code: its definitions, its blocks, and what is proved of it.
#![tactic(auto)]

ghost use Rattle.std.specs.Prelude.{◌≡◌};
ghost use Rattle.code.specs.Blocks.{half as halved, kind_of};
ghost use Rattle.code.specs.Codes.{Renews};
ghost use Rattle.code.specs.Laws.{CabinetsStand, CodeStands};
ghost use Rattle.code.specs.Rows.{Paired};

mod block;

pub use block::Block;
use field::{Quotients, Sums};

// A data box is of one of three kinds, numbered from 0 and named by the half
// of a pair that helpers send for a lost box of the kind.
#[derive(Clone, Copy, Debug, PartialEq, Eq)]
pub enum Kind {
    Lower,
    Upper,
    Sum,
}

// The kind of a number; from 2 on it is the last.
impl From<usize> for Kind {
    ghost from_gives = { λ n kind. kind ≡ kind_of n };

    fn from(n: usize) -> Kind {
        match n {
            0 => Kind::Lower,
            1 => Kind::Upper,
            _ => Kind::Sum,
        }
    }
}

impl Kind {
    // The half of a pair for a lost box of the kind.
    pub fn half<F: Sums>(self, s: F, t: F) -> F
        ensures { F.value result ≡ halved F.symbols.ring self (F.value s) (F.value t) }
    {
        match self {
            Kind::Lower => s,
            Kind::Upper => t,
            Kind::Sum => s.sum(t),
        }
    }
}

// A theorem of every field with quotients, every size, at most three kinds and
// all marks that are distinct and not zero: whatever halves the helpers of a
// lost data box send, there are files that have those halves, and all of these
// agree in the lost column.
pub fn halves_suffice<F: Quotients>()
    ensures { Renews F.Sums.symbols.ring }
{
    F::divides()
}

// A theorem of every field with quotients, every size, at most three kinds and
// all marks that are distinct and not zero. From the columns of all boxes but
// any two, whatever they are, there is exactly one file that has them; so files
// that agree in any boxes as many as there are data boxes are the same, and
// agree in the other two. The halves of the helpers suffice, as above, and no
// number of them can be spared: whichever is left out, every file has another
// that differs from it in the lost column and in no other number of the halves.
// And so for every cabinet whose field has two marks for each direction.
pub fn code_stands<F: Quotients>()
    ensures laws { CodeStands F.Sums.symbols.ring }
    ensures cabinets { CabinetsStand F.Sums.symbols }
{
    F::divides()
}

// A theorem on rows: partners differ in one digit alone, and the pairs of a
// direction go by their lower rows, in rising order.
pub fn rows_pair()
    ensures { Paired }
{}
