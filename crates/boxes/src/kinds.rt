// What a data box does to its column.
ghost use Rattle.std.specs.Prelude.{◌≡◌, ℕ, ◌+◌, ◌-◌, ◌*◌, ◌/◌, ◌%◌, ◌<◌, ◌≤◌, MatchOption, OnSome};
ghost use Rattle.boxes.specs.Boxes.{BlockOf, BoxOf, Fits};
ghost use Rattle.code.specs.Blocks.{kind_of};
ghost use Rattle.code.specs.Codes.{direction, full};

use crate::size::Size;
use code::{Block, Kind};
use field::Sums;

// How many kinds of data boxes a cabinet has.
pub const KINDS: usize = 3;

// The block of a data box, and the place of its direction's digit.
#[derive(Clone, Copy, Debug, PartialEq, Eq)]
pub struct DataBox<F> {
    pub block: Block<F>,
    pub shift: usize,
}

// The kind of the data box in place b, from 0; the first where m is 0.
pub fn kind_at(m: usize, b: usize) -> Kind
    ensures { result ≡ kind_of (b / m) }
{
    if m == 0 {
        Kind::Lower
    } else {
        Kind::from(b / m)
    }
}

// The place of the digit of its direction; 0 where m is 0.
pub fn shift_at(m: usize, b: usize) -> usize
    ensures { result ≡ m - (b % m + 1) }
{
    if m == 0 { 0 } else { m - (b % m + 1) }
}

// The block of the data box in place b. Absent where the field lacks the marks
// of its direction.
#[inline(always)]
pub(crate) fn block_at<F: Sums>(size: &Size, b: usize) -> Option<Block<F>>
    ensures marks { OnSome result (2 * direction (full F.symbols size.now.m) b ≤ F.symbols.marks) }
    ensures block { MatchOption result (F.symbols.marks < 2 * direction (full F.symbols size.now.m) b) (λ block. BlockOf (full F.symbols size.now.m) b block.kind (F.value block.p) (F.value block.q)) }
{
    let direction = (b % size.m + 1) as u32;
    let p = F::mark(2 * direction - 1)?;
    let q = F::mark(2 * direction)?;
    Some(Block {
        kind: kind_at(size.m, b),
        p,
        q,
    })
}

// The data box in place b, from 0. Absent for a size outside 1 to 6, a place
// that is none of the 3m, and where the field lacks the marks of its direction.
pub fn data_box<F: Sums>(m: usize, b: usize) -> Option<DataBox<F>>
    ensures { MatchOption result (Fits F.symbols m b → ⊥) (λ o. Fits F.symbols m b × BoxOf (full F.symbols m) b o.block.kind o.shift (F.value o.block.p) (F.value o.block.q)) }
{
    let size = Size::new(m).ok()?;
    if size.boxes() <= b {
        return None;
    }
    let block = block_at(&size, b)?;
    Some(DataBox {
        block,
        shift: shift_at(m, b),
    })
}
