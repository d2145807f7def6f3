// How much a cabinet takes.
ghost use Rattle.std.specs.Prelude.{◌≡◌, ◌*◌, ◌≤◌, IfOk, length, map};
ghost use Rattle.transcripts.specs.Lengths.{AreLengths, boxes_for, file_for, half_for, rows_for};
ghost use Rattle.transcripts.specs.Calls.{zeros as zeros_of};

use boxes::Size;
use field::Sums;
use std::alloc::{AllocError, Global};

const PARITIES: usize = 2;

// The boxes of a cabinet of size m, and how many symbols a column and a half
// have. All are zero where there is no such size: then the vault is not set up,
// and declines each call before it asks for lengths.
#[derive(Drop)]
pub(crate) struct Lengths {
    pub m: usize,
    pub data_boxes: usize,
    pub parities: usize,
    pub rows: usize,
    pub pairs: usize,
    ghost lengths: { AreLengths m data_boxes parities rows pairs },
}

// So many zeros.
fn zeros<F: Sums>(alloc: Global, n: usize) -> Result<Vec<F>, AllocError>
    ensures zero { IfOk result (λ v. map F.symbols.number (map F.value v.items) ≡ zeros_of F.symbols n) }
    ensures long { IfOk result (λ v. length v.items ≡ n) }
{
    let mut zeros = Vec::new(alloc);
    zeros.resize(n, F::zero())?;
    Ok(zeros)
}

impl Lengths {
    pub fn new(m: usize) -> Lengths
        ensures { result.m ≡ m }
    {
        match Size::new(m) {
            Ok(size) => Lengths {
                m,
                data_boxes: size.boxes(),
                parities: PARITIES,
                rows: size.rows(),
                pairs: size.pairs(),
            },
            Err(_) => Lengths {
                m,
                data_boxes: 0,
                parities: 0,
                rows: 0,
                pairs: 0,
            },
        }
    }

    pub fn boxes(&self) -> usize
        ensures boxes { result ≡ boxes_for self.now.m }
        ensures few { result ≤ 20 }
    {
        self.data_boxes + self.parities
    }

    // A column, of zeros.
    pub fn column<F: Sums>(&self, alloc: Global) -> Result<Vec<F>, AllocError>
        ensures { IfOk result (λ v. map F.symbols.number (map F.value v.items) ≡ zeros_of F.symbols (rows_for self.now.m)) }
    {
        zeros(alloc, self.rows)
    }

    // A half.
    pub fn half<F: Sums>(&self, alloc: Global) -> Result<Vec<F>, AllocError>
        ensures { IfOk result (λ v. map F.symbols.number (map F.value v.items) ≡ zeros_of F.symbols (half_for self.now.m)) }
    {
        zeros(alloc, self.pairs)
    }

    // A file.
    pub fn file<F: Sums>(&self, alloc: Global) -> Result<Vec<F>, AllocError>
        ensures zero { IfOk result (λ v. map F.symbols.number (map F.value v.items) ≡ zeros_of F.symbols (file_for self.now.m)) }
        ensures long { IfOk result (λ v. length v.items ≡ self.now.data_boxes * self.now.rows) }
    {
        zeros(alloc, self.data_boxes * self.rows)
    }
}
