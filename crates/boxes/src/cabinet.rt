// Cabinets over a field.
ghost use Rattle.std.specs.Prelude.{◌≡◌, ℕ, ◌*◌, ◌≤◌, [], ◌∷◌, IfOk};
ghost use Rattle.boxes.specs.Boxes.{BlockOf};
ghost use Rattle.code.specs.Codes.{full};
ghost use Rattle.refusal.specs.Refusals.{earliest, few_marks, refusal, wrong_size};

use crate::kinds::block_at;
use crate::size::Size;
use code::Block;
use field::Sums;
use refusal::{Refusal, marked};
use std::marker::PhantomData;

// A cabinet of a size for which the field has enough marks, two for each direction.
#[derive(Drop)]
pub struct Cabinet<F: Sums> {
    pub size: Size,
    field: PhantomData<F>,
    ghost marks: { 2 * size.m ≤ F.symbols.marks },
}

impl<F: Sums> Cabinet<F> {
    // Refused for a size outside 1 to 6 and for too few marks.
    pub fn new(m: usize) -> Result<Cabinet<F>, Refusal>
        ensures answer { refusal result ≡ earliest (wrong_size m ∷ few_marks F.symbols m ∷ []) }
        ensures size { IfOk result (λ c. c.size.m ≡ m) }
    {
        let size = Size::new(m)?;
        marked::<F>(m)?;
        Ok(Cabinet {
            size,
            field: PhantomData,
        })
    }

    // The block of the data box in place b, from 0. Inlined with `block_at`, since
    // a caller that asks for the digit too then divides once for both.
    #[inline(always)]
    pub fn block(&self, b: usize) -> Block<F>
        ensures { BlockOf (full F.symbols self.now.size.m) b result.kind (F.value result.p) (F.value result.q) }
    {
        block_at(&self.size, b).unwrap()
    }
}
