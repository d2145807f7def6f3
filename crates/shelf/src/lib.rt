// Shelves: boxes of symbols, each standing or out.
#![tactic(auto)]

ghost use Rattle.std.specs.Prelude.{◌≡◌, ℕ, ◌+◌, nat_le, List, length};
ghost use Rattle.shelf.specs.Laws.{ShelfLaws};
ghost use Rattle.shelf.specs.Meaning.{IsShelf, Meaning, box_count, has_row, is_out, is_standing, symbol_at, with_out, with_standing, with_symbol};
ghost use Rattle.shelf.specs.RowLaws.{RowsStand};
ghost use Rattle.shelf.specs.Rows.{has_rows, rows_read, with_rows};

mod calls;

pub use calls::{Answer, Call, perform, perform_all, perform_on_both};

// How many boxes a shelf has, and how many rows each box.
#[derive(Clone, Copy, Debug, PartialEq, Eq)]
pub struct Sizes {
    pub boxes: usize,
    pub rows: usize,
}

// Whether there are so many rows from row `from` on.
fn fit(rows: usize, from: usize, count: usize) -> bool
    ensures { result ≡ nat_le (from + count) rows }
{
    from <= rows && count <= rows - from
}

// Boxes are numbered from 1, rows from 0. Every function takes the shelf for
// writing: a shelf may have to move something even to answer a question.
pub trait Shelf {
    type Symbol: Copy;

    // What the shelf holds, as one plain value.
    ghost meaning: { Self → Meaning Self.Symbol };

    // Which lent buffers it keeps that in.
    ghost buffers: { Self → List ℕ };

    fn sizes(&mut self) -> Sizes
        ensures boxes { result.boxes ≡ box_count (meaning self.old) }
        ensures rows { result.rows ≡ (meaning self.old).rows }
        ensures stays { meaning self.new ≡ meaning self.old }
        ensures lender { buffers self.new ≡ buffers self.old };

    // Whether box b stands.
    fn stands(&mut self, b: usize) -> bool
        ensures answer { result ≡ is_standing (meaning self.old) b }
        ensures stays { meaning self.new ≡ meaning self.old }
        ensures lender { buffers self.new ≡ buffers self.old };

    // The symbol in row a of box b, absent unless the box stands and has the row.
    fn fetch(&mut self, b: usize, a: usize) -> Option<Self::Symbol>
        ensures answer { result ≡ symbol_at (meaning self.old) b a }
        ensures stays { meaning self.new ≡ meaning self.old }
        ensures lender { buffers self.new ≡ buffers self.old };

    // Sets the symbol in row a of box b; refused as fetch is.
    fn store(&mut self, b: usize, a: usize, x: Self::Symbol) -> bool
        ensures answer { result ≡ has_row (meaning self.old) b a }
        ensures after { meaning self.new ≡ with_symbol (meaning self.old) b a x }
        ensures lender { buffers self.new ≡ buffers self.old };

    // Takes out box b; refused unless it stands.
    fn withdraw(&mut self, b: usize) -> bool
        ensures answer { result ≡ is_standing (meaning self.old) b }
        ensures after { meaning self.new ≡ with_out (meaning self.old) b }
        ensures lender { buffers self.new ≡ buffers self.old };

    // Puts in box b with x in every row; refused unless it is a box that is out.
    fn insert(&mut self, b: usize, x: Self::Symbol) -> bool
        ensures answer { result ≡ is_out (meaning self.old) b }
        ensures after { meaning self.new ≡ with_standing (meaning self.old) b x }
        ensures lender { buffers self.new ≡ buffers self.old };

    // Copies rows of box b, from row `from` on and as many as the buffer is long,
    // into the buffer; refused, with nothing written, unless the box stands and
    // has these rows. The text here and below is for shelves that cannot copy rows
    // at once.
    #[tactic(auto, using(crate::proofs::Turns::read_more, crate::proofs::Turns::read_there, crate::proofs::Turns::read_all))]
    fn read_rows(&mut self, b: usize, from: usize, out: &mut [Self::Symbol]) -> bool
        ensures answer { result ≡ has_rows (meaning self.old) b from (length out.old) }
        ensures buffer { out.new ≡ rows_read (meaning self.old) b from out.old }
        ensures stays { meaning self.new ≡ meaning self.old }
        ensures lender { buffers self.new ≡ buffers self.old }
    {
        if !self.stands(b) || !fit(self.sizes().rows, from, out.len()) {
            return false;
        }
        for (i, symbol) in out.iter_mut().enumerate() {
            if let Some(x) = self.fetch(b, from + i) {
                *symbol = x;
            }
        }
        true
    }

    // Writes the symbols into the rows of box b, from row `from` on; refused as
    // read_rows is.
    #[tactic(auto, using(crate::proofs::Turns::write_more))]
    fn write_rows(&mut self, b: usize, from: usize, symbols: &[Self::Symbol]) -> bool
        ensures answer { result ≡ has_rows (meaning self.old) b from (length symbols.now) }
        ensures after { meaning self.new ≡ with_rows (meaning self.old) b from symbols.now }
        ensures lender { buffers self.new ≡ buffers self.old }
    {
        if !self.stands(b) || !fit(self.sizes().rows, from, symbols.len()) {
            return false;
        }
        for (i, symbol) in symbols.iter().enumerate() {
            self.store(b, from + i, *symbol);
        }
        true
    }

    ghost sound: { (s : Self) → IsShelf (meaning s) };
}

// The laws of shelves.
pub fn shelves_stand<S: Shelf>()
    ensures each { (s : S) → IsShelf (S.meaning s) }
    ensures laws { ShelfLaws S.Symbol }
{}

// A theorem of every shelf's symbols: what is written is read back and nothing
// else changes, writes of adjoining rows are one write, and writes of rows that
// are apart may go in either order.
pub fn rows_stand<S: Shelf>()
    ensures { RowsStand S.Symbol }
{}
