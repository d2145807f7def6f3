// Two shelves as one: the boxes of the first, and then those of the second.
#![tactic(auto)]

ghost use Rattle.std.specs.Prelude.{◌≡◌, ℕ, ◌+◌, ◌++◌, ◌&&◌, ◌==◌, length, nat_le};
ghost use Rattle.shelf.specs.Meaning.{box_count, has_row, is_out, is_standing, symbol_at, with_out, with_standing, with_symbol};
ghost use Rattle.shelf.specs.Rows.{has_rows, rows_read, with_rows};
ghost use Rattle.joined.specs.Joining.{joined};
ghost use Rattle.joined.specs.Laws.{Associates, Joins};
ghost use Rattle.joined.specs.Parts.{apart, change_apart, parts};
ghost use Rattle.joined.specs.Sides.{side_of};
ghost use Rattle.joined.specs.Sound.{joined_sound};

use shelf::{Shelf, Sizes};

// The most boxes that a shelf may have.
const MOST_BOXES: usize = 32;

#[derive(Drop)]
pub struct Joined<A, B> {
    first: A,
    second: B,
}

// On which side a box is found, and under which number.
enum Side {
    First(usize),
    Second(usize),
    Neither,
}

// Whether two shelves of these sizes go together.
fn is_joinable(first: Sizes, second: Sizes) -> bool
    ensures { result ≡ ((first.rows == second.rows) && nat_le (first.boxes + second.boxes) 32) }
{
    first.rows == second.rows
        && first.boxes <= MOST_BOXES
        && second.boxes <= MOST_BOXES - first.boxes
}

impl<A: Shelf, B: Shelf<Symbol = A::Symbol>> Joined<A, B> {
    // There are no boxes if the columns of the two are not as long, or if they
    // have more than 32 boxes.
    pub fn new(first: A, second: B) -> Joined<A, B>
        ensures parts { parts result ≡ (first, second) }
        ensures holds { ⟦<Joined<A, B> as Shelf>⟧.meaning result
            ≡ joined (A.meaning first) (B.meaning second) }
        ensures lender { ⟦<Joined<A, B> as Shelf>⟧.buffers result
            ≡ A.buffers first ++ B.buffers second }
    {
        Joined { first, second }
    }

    // Gives back the two shelves.
    pub fn into_parts(self) -> (A, B)
        ensures parts { result ≡ parts self }
        ensures holds { joined (A.meaning result.0) (B.meaning result.1)
            ≡ ⟦<Joined<A, B> as Shelf>⟧.meaning self }
        ensures lender { A.buffers result.0 ++ B.buffers result.1
            ≡ ⟦<Joined<A, B> as Shelf>⟧.buffers self }
    {
        (self.first, self.second)
    }

    // Where box b is found.
    fn side(&mut self, b: usize) -> Side
        ensures answer { result ≡ side_of (A.meaning self.old.first) (B.meaning self.old.second) b }
        ensures first { A.meaning self.new.first ≡ A.meaning self.old.first }
        ensures second { B.meaning self.new.second ≡ B.meaning self.old.second }
        ensures first_lender { A.buffers self.new.first ≡ A.buffers self.old.first }
        ensures second_lender { B.buffers self.new.second ≡ B.buffers self.old.second }
    {
        let first = self.first.sizes();
        let second = self.second.sizes();
        if !is_joinable(first, second) {
            Side::Neither
        } else if b <= first.boxes {
            Side::First(b)
        } else {
            Side::Second(b - first.boxes)
        }
    }
}

impl<A: Shelf, B: Shelf<Symbol = A::Symbol>, C: Shelf<Symbol = A::Symbol>> Joined<Joined<A, B>, C> {
    // The same three shelves, with the last two joined first.
    pub fn regroup(self) -> Joined<A, Joined<B, C>>
        ensures first { (parts result).0 ≡ (parts (parts self).0).0 }
        ensures last { parts (parts result).1 ≡ ((parts (parts self).0).1, (parts self).1) }
        ensures same { ⟦<Joined<A, Joined<B, C>> as Shelf>⟧.meaning result
            ≡ ⟦<Joined<Joined<A, B>, C> as Shelf>⟧.meaning self }
        ensures lender { ⟦<Joined<A, Joined<B, C>> as Shelf>⟧.buffers result
            ≡ ⟦<Joined<Joined<A, B>, C> as Shelf>⟧.buffers self }
    {
        let (front, last) = self.into_parts();
        let (first, second) = front.into_parts();
        Joined::new(first, Joined::new(second, last))
    }
}

// Each function also says what becomes of either shelf by itself: two that do
// not go together stay as they are, and can be taken apart again.
#[tactic(auto, using(crate::proofs::Found::found))]
impl<A: Shelf, B: Shelf<Symbol = A::Symbol>> Shelf for Joined<A, B> {
    type Symbol = A::Symbol;

    ghost meaning = { λ s. joined (A.meaning (parts s).0) (B.meaning (parts s).1) };

    ghost buffers = { λ s. A.buffers (parts s).0 ++ B.buffers (parts s).1 };

    fn sizes(&mut self) -> Sizes
        ensures boxes { result.boxes ≡ box_count (⟦<Joined<A, B> as Shelf>⟧.meaning self.old) }
        ensures rows { result.rows ≡ (⟦<Joined<A, B> as Shelf>⟧.meaning self.old).rows }
        ensures stays { ⟦<Joined<A, B> as Shelf>⟧.meaning self.new
            ≡ ⟦<Joined<A, B> as Shelf>⟧.meaning self.old }
        ensures apart { apart A.meaning B.meaning self.new ≡ apart A.meaning B.meaning self.old }
        ensures lender { ⟦<Joined<A, B> as Shelf>⟧.buffers self.new
            ≡ ⟦<Joined<A, B> as Shelf>⟧.buffers self.old }
    {
        let first = self.first.sizes();
        let second = self.second.sizes();
        if is_joinable(first, second) {
            Sizes {
                boxes: first.boxes + second.boxes,
                rows: first.rows,
            }
        } else {
            Sizes { boxes: 0, rows: 0 }
        }
    }

    fn stands(&mut self, b: usize) -> bool
        ensures answer { result ≡ is_standing (⟦<Joined<A, B> as Shelf>⟧.meaning self.old) b }
        ensures stays { ⟦<Joined<A, B> as Shelf>⟧.meaning self.new
            ≡ ⟦<Joined<A, B> as Shelf>⟧.meaning self.old }
        ensures apart { apart A.meaning B.meaning self.new ≡ apart A.meaning B.meaning self.old }
        ensures lender { ⟦<Joined<A, B> as Shelf>⟧.buffers self.new
            ≡ ⟦<Joined<A, B> as Shelf>⟧.buffers self.old }
    {
        match self.side(b) {
            Side::First(d) => self.first.stands(d),
            Side::Second(d) => self.second.stands(d),
            Side::Neither => false,
        }
    }

    fn fetch(&mut self, b: usize, a: usize) -> Option<A::Symbol>
        ensures answer { result ≡ symbol_at (⟦<Joined<A, B> as Shelf>⟧.meaning self.old) b a }
        ensures stays { ⟦<Joined<A, B> as Shelf>⟧.meaning self.new
            ≡ ⟦<Joined<A, B> as Shelf>⟧.meaning self.old }
        ensures apart { apart A.meaning B.meaning self.new ≡ apart A.meaning B.meaning self.old }
        ensures lender { ⟦<Joined<A, B> as Shelf>⟧.buffers self.new
            ≡ ⟦<Joined<A, B> as Shelf>⟧.buffers self.old }
    {
        match self.side(b) {
            Side::First(d) => self.first.fetch(d, a),
            Side::Second(d) => self.second.fetch(d, a),
            Side::Neither => None,
        }
    }

    fn store(&mut self, b: usize, a: usize, x: A::Symbol) -> bool
        ensures answer { result ≡ has_row (⟦<Joined<A, B> as Shelf>⟧.meaning self.old) b a }
        ensures after { ⟦<Joined<A, B> as Shelf>⟧.meaning self.new
            ≡ with_symbol (⟦<Joined<A, B> as Shelf>⟧.meaning self.old) b a x }
        ensures apart { apart A.meaning B.meaning self.new
            ≡ change_apart (λ m d. with_symbol m d a x) (apart A.meaning B.meaning self.old) b }
        ensures lender { ⟦<Joined<A, B> as Shelf>⟧.buffers self.new
            ≡ ⟦<Joined<A, B> as Shelf>⟧.buffers self.old }
    {
        match self.side(b) {
            Side::First(d) => self.first.store(d, a, x),
            Side::Second(d) => self.second.store(d, a, x),
            Side::Neither => false,
        }
    }

    fn withdraw(&mut self, b: usize) -> bool
        ensures answer { result ≡ is_standing (⟦<Joined<A, B> as Shelf>⟧.meaning self.old) b }
        ensures after { ⟦<Joined<A, B> as Shelf>⟧.meaning self.new
            ≡ with_out (⟦<Joined<A, B> as Shelf>⟧.meaning self.old) b }
        ensures apart { apart A.meaning B.meaning self.new
            ≡ change_apart with_out (apart A.meaning B.meaning self.old) b }
        ensures lender { ⟦<Joined<A, B> as Shelf>⟧.buffers self.new
            ≡ ⟦<Joined<A, B> as Shelf>⟧.buffers self.old }
    {
        match self.side(b) {
            Side::First(d) => self.first.withdraw(d),
            Side::Second(d) => self.second.withdraw(d),
            Side::Neither => false,
        }
    }

    fn insert(&mut self, b: usize, x: A::Symbol) -> bool
        ensures answer { result ≡ is_out (⟦<Joined<A, B> as Shelf>⟧.meaning self.old) b }
        ensures after { ⟦<Joined<A, B> as Shelf>⟧.meaning self.new
            ≡ with_standing (⟦<Joined<A, B> as Shelf>⟧.meaning self.old) b x }
        ensures apart { apart A.meaning B.meaning self.new
            ≡ change_apart (λ m d. with_standing m d x) (apart A.meaning B.meaning self.old) b }
        ensures lender { ⟦<Joined<A, B> as Shelf>⟧.buffers self.new
            ≡ ⟦<Joined<A, B> as Shelf>⟧.buffers self.old }
    {
        match self.side(b) {
            Side::First(d) => self.first.insert(d, x),
            Side::Second(d) => self.second.insert(d, x),
            Side::Neither => false,
        }
    }

    fn read_rows(&mut self, b: usize, from: usize, out: &mut [A::Symbol]) -> bool
        ensures answer { result ≡ has_rows (⟦<Joined<A, B> as Shelf>⟧.meaning self.old) b from (length out.old) }
        ensures buffer { out.new ≡ rows_read (⟦<Joined<A, B> as Shelf>⟧.meaning self.old) b from out.old }
        ensures stays { ⟦<Joined<A, B> as Shelf>⟧.meaning self.new
            ≡ ⟦<Joined<A, B> as Shelf>⟧.meaning self.old }
        ensures apart { apart A.meaning B.meaning self.new ≡ apart A.meaning B.meaning self.old }
        ensures lender { ⟦<Joined<A, B> as Shelf>⟧.buffers self.new
            ≡ ⟦<Joined<A, B> as Shelf>⟧.buffers self.old }
    {
        match self.side(b) {
            Side::First(d) => self.first.read_rows(d, from, out),
            Side::Second(d) => self.second.read_rows(d, from, out),
            Side::Neither => false,
        }
    }

    fn write_rows(&mut self, b: usize, from: usize, symbols: &[A::Symbol]) -> bool
        ensures answer { result ≡ has_rows (⟦<Joined<A, B> as Shelf>⟧.meaning self.old) b from (length symbols.now) }
        ensures after { ⟦<Joined<A, B> as Shelf>⟧.meaning self.new
            ≡ with_rows (⟦<Joined<A, B> as Shelf>⟧.meaning self.old) b from symbols.now }
        ensures apart { apart A.meaning B.meaning self.new
            ≡ change_apart (λ m d. with_rows m d from symbols.now) (apart A.meaning B.meaning self.old) b }
        ensures lender { ⟦<Joined<A, B> as Shelf>⟧.buffers self.new
            ≡ ⟦<Joined<A, B> as Shelf>⟧.buffers self.old }
    {
        match self.side(b) {
            Side::First(d) => self.first.write_rows(d, from, symbols),
            Side::Second(d) => self.second.write_rows(d, from, symbols),
            Side::Neither => false,
        }
    }

    ghost sound = { λ s. let p = parts s in
        joined_sound (A.meaning p.0) (B.meaning p.1) (A.sound p.0) (B.sound p.1) };
}

// A theorem on shelves of any symbols: two that go together are the boxes of
// the first and then those of the second, renumbered; others have no boxes.
pub fn shelves_join<T: Copy>()
    ensures { Joins T }
{}

// A theorem on shelves of any symbols: a joined shelf of joined shelves means
// the same, whether the first two or the last two are joined first.
pub fn joining_associates<T: Copy>()
    ensures { Associates T }
{}
