// A shelf in a lent buffer of symbols, box after box.
#![tactic(auto)]

ghost use Rattle.std.specs.Prelude.{◌≡◌, ℕ, ◌+◌, ◌<◌, ◌≤◌, length, slice_get, slice_range, slice_set, MatchOption, Some, [], ◌∷◌};
ghost use Rattle.frame.specs.Frames.{Absent, Opened, Present, RowsAbsent, RowsPresent, Shut};
ghost use Rattle.frame.specs.Layouts.{Keeps, all_out, filled};
ghost use Rattle.shelf.specs.Calls.{after_all};
ghost use Rattle.shelf.specs.Rows.{overwritten};
ghost use Rattle.flat.specs.Held.{held, held_sound, lent};

use frame::Frame;
use shelf::{Call, Shelf, Sizes, perform_all};
use std::ops::Range;

#[derive(Drop)]
pub struct Flat<'a, T> {
    buffer: &'a mut [T],
    frame: Frame,
}

fn read<T: Copy>(s: &[T], i: usize) -> T
    requires { i < length s.now }
    ensures { slice_get s.now i ≡ Some result }
{
    s[i]
}

fn put<T: Copy>(s: &mut [T], i: usize, x: T)
    requires { i < length s.old }
    ensures { s.new ≡ slice_set s.old i x }
{
    s[i] = x;
}

// Writes x into each of these places.
fn fill<T: Copy>(s: &mut [T], places: Range<usize>, x: T)
    requires rising { places.start ≤ places.end }
    requires within { places.end ≤ length s.old }
    ensures { s.new ≡ filled s.old places.start places.end x }
{
    for i in places {
        s[i] = x;
    }
}

// Copies symbols into these places.
fn copy_in<T: Copy>(s: &mut [T], places: Range<usize>, symbols: &[T])
    requires size { places.end ≡ places.start + length symbols.now }
    requires within { places.end ≤ length s.old }
    ensures { s.new ≡ overwritten places.start symbols.now s.old }
{
    s[places].copy_from_slice(symbols);
}

impl<'a, T: Copy> Flat<'a, T> {
    // All boxes are out; there are none if the sizes are not allowed, or need
    // more than the buffer.
    #[tactic(auto, using(frame::proofs::Calls::begun_told))]
    pub fn new(buffer: &'a mut [T], boxes: usize, rows: usize) -> Flat<'a, T>
        ensures meaning { ⟦<Flat<'a, T> as Shelf>⟧.meaning result ≡ all_out boxes rows (length buffer.old) }
        ensures lender { ⟦<Flat<'a, T> as Shelf>⟧.buffers result ≡ buffer.entry.ghost_name ∷ [] }
    {
        Flat {
            buffer,
            frame: Frame::new(boxes, rows),
        }
    }

    // Where row a of box b lies, absent unless the box stands and has the row.
    fn place(&self, b: usize, a: usize) -> Option<usize>
        ensures { MatchOption result (Absent self.now.frame self.now.buffer.now b a) (Present self.now.frame self.now.buffer.now b a) }
    {
        self.frame.place(self.buffer.len(), b, a)
    }

    // Where so many rows of box b lie, from row `from` on, absent unless the box
    // stands and has these rows.
    fn places(&self, b: usize, from: usize, count: usize) -> Option<Range<usize>>
        ensures { MatchOption result (RowsAbsent self.now.frame self.now.buffer.now b from count) (RowsPresent self.now.frame self.now.buffer.now b from count) }
    {
        self.frame.places(self.buffer.len(), b, from, count)
    }

    // Marks box b as standing, and says where its column lies, absent unless it
    // is a box that is out.
    fn open(&mut self, b: usize) -> Option<Range<usize>>
        ensures answer { MatchOption result (Shut self.old.frame self.new.frame self.old.buffer.now b) (Opened self.old.frame self.new.frame self.old.buffer.now b) }
        ensures symbols { self.new.buffer.now ≡ self.old.buffer.now }
        ensures lender { self.new.buffer.ghost_name ≡ self.old.buffer.ghost_name }
    {
        self.frame.insert(self.buffer.len(), b)
    }

    // The symbol in a place of the buffer.
    fn symbol(&self, i: usize) -> T
        requires { i < length self.now.buffer.now }
        ensures { slice_get self.now.buffer.now i ≡ Some result }
    {
        read(self.buffer, i)
    }

    // Copies these places of the buffer out.
    fn symbols(&self, places: Range<usize>, out: &mut [T])
        requires size { places.end ≡ places.start + length out.old }
        requires within { places.end ≤ length self.now.buffer.now }
        ensures { out.new ≡ slice_range self.now.buffer.now places.start places.end }
    {
        out.copy_from_slice(&self.buffer[places]);
    }

    // Lets the shelf go: the column of each box that stands is in the buffer.
    #[tactic(auto, using(frame::proofs::Calls::column_told))]
    pub fn close(self)
        ensures { Keeps (⟦<Flat<'a, T> as Shelf>⟧.meaning self.entry) self.exit.0.now }
    {}

    // Lets the shelf go, and gives the buffer to whoever goes on with it.
    #[tactic(auto, using(frame::proofs::Calls::column_told))]
    pub fn into_buffer(self) -> &'a mut [T]
        ensures lender { ⟦<Flat<'a, T> as Shelf>⟧.buffers self.entry ≡ result.ghost_name ∷ [] }
        ensures keeps { Keeps (⟦<Flat<'a, T> as Shelf>⟧.meaning self.entry) result.now }
    {
        self.buffer
    }
}

impl<'a, T: Copy> Shelf for Flat<'a, T> {
    type Symbol = T;

    ghost meaning = { held };

    ghost buffers = { lent };

    #[tactic(auto, using(frame::proofs::Calls::box_count_told))]
    fn sizes(&mut self) -> Sizes {
        self.frame.sizes(self.buffer.len())
    }

    #[tactic(auto, using(frame::proofs::Calls::standing_told))]
    fn stands(&mut self, b: usize) -> bool {
        self.frame.stands(self.buffer.len(), b)
    }

    fn fetch(&mut self, b: usize, a: usize) -> Option<T> {
        let i = self.place(b, a)?;
        Some(self.symbol(i))
    }

    fn store(&mut self, b: usize, a: usize, x: T) -> bool {
        let Some(i) = self.place(b, a) else {
            return false;
        };
        put(self.buffer, i, x);
        true
    }

    #[tactic(auto, using(frame::proofs::Calls::standing_told, frame::proofs::Calls::out_told))]
    fn withdraw(&mut self, b: usize) -> bool {
        self.frame.withdraw(self.buffer.len(), b)
    }

    fn insert(&mut self, b: usize, x: T) -> bool {
        let Some(places) = self.open(b) else {
            return false;
        };
        fill(self.buffer, places, x);
        true
    }

    fn read_rows(&mut self, b: usize, from: usize, out: &mut [T]) -> bool {
        let Some(places) = self.places(b, from, out.len()) else {
            return false;
        };
        self.symbols(places, out);
        true
    }

    fn write_rows(&mut self, b: usize, from: usize, symbols: &[T]) -> bool {
        let Some(places) = self.places(b, from, symbols.len()) else {
            return false;
        };
        copy_in(self.buffer, places, symbols);
        true
    }

    ghost sound = { held_sound };
}

// Performs calls on a shelf in the buffer, and lets it go: what they leave of
// the shelf is in the buffer.
pub fn perform_in<T: Copy>(buffer: &mut [T], boxes: usize, rows: usize, calls: &[Call<T>])
    ensures { Keeps (after_all (all_out boxes rows (length buffer.old)) calls.now) buffer.new }
{
    let mut shelf = Flat::new(buffer, boxes, rows);
    perform_all(&mut shelf, calls);
    shelf.close();
}
