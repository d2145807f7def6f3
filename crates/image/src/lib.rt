// A shelf of words in a lent buffer of bytes: three to a word, the highest first.
#![tactic(auto)]

ghost use Rattle.std.specs.Prelude.{◌≡◌, ℕ, ◌+◌, ◌/◌, ◌<◌, ◌≤◌, [], ◌∷◌, length, slice_get, slice_range, slice_set, MatchOption, Some};
ghost use Rattle.frame.specs.Frames.{Absent, Opened, Present, RowsAbsent, RowsPresent, Shut};
ghost use Rattle.frame.specs.Layouts.{Keeps, all_out, filled};
ghost use Rattle.image.specs.Held.{held, held_sound, lent};
ghost use Rattle.prime.specs.Words.{word_number};
ghost use Rattle.image.specs.Triples.{number_at, with_number, word_at, words};
ghost use Rattle.shelf.specs.Calls.{after_all};
ghost use Rattle.shelf.specs.Rows.{overwritten};

use field::residue::Residue;
use frame::Frame;
use prime::words::Words;
use shelf::{Call, Shelf, Sizes, perform_all};
use std::ops::Range;

#[derive(Drop)]
pub struct Image<'a> {
    buffer: &'a mut [u8],
    frame: Frame,
}

// How many bytes hold a word.
const BYTES: usize = 3;

// The number in triple i.
fn read_number(s: &[u8], i: usize) -> u32
    requires { i < length s.now / 3 }
    ensures { result ≡ number_at s.now i }
{
    let at = BYTES * i;
    u32::from_be_bytes([0, s[at], s[at + 1], s[at + 2]])
}

// Writes a number of three bytes into triple i.
fn write_number(s: &mut [u8], i: usize, number: u32)
    requires { i < length s.old / 3 }
    ensures { s.new ≡ with_number s.old i number }
{
    let [_, high, middle, low] = number.to_be_bytes();
    let at = BYTES * i;
    s[at] = high;
    s[at + 1] = middle;
    s[at + 2] = low;
}

// The word of any number: that of its remainder.
fn word(number: u32) -> Words
    ensures { result ≡ word_at number }
{
    Words::from_number(number % Words::SIZE)
}

#[tactic(auto, using(crate::proofs::Triples::length_words, crate::proofs::Triples::word_read))]
fn read(s: &[u8], i: usize) -> Words
    requires { i < length (words s.now) }
    ensures { slice_get (words s.now) i ≡ Some result }
{
    word(read_number(s, i))
}

#[tactic(auto, using(crate::proofs::Triples::length_words, crate::proofs::Triples::word_written))]
fn put(s: &mut [u8], i: usize, x: Words)
    requires { i < length (words s.old) }
    ensures number { s.new ≡ with_number s.old i (word_number x) }
    ensures words { words s.new ≡ slice_set (words s.old) i x }
{
    write_number(s, i, x.to_number());
}

// Writes x into each of these places.
fn fill(s: &mut [u8], places: Range<usize>, x: Words)
    requires rising { places.start ≤ places.end }
    requires within { places.end ≤ length (words s.old) }
    ensures { words s.new ≡ filled (words s.old) places.start places.end x }
{
    for i in places {
        put(s, i, x);
    }
}

// Copies the words in these places out.
#[tactic(auto, using(crate::proofs::Triples::length_words, crate::proofs::Copies::copied_more, crate::proofs::Copies::copied_all))]
fn copy_out(s: &[u8], places: Range<usize>, out: &mut [Words])
    requires size { places.end ≡ places.start + length out.old }
    requires within { places.end ≤ length (words s.now) }
    ensures { out.new ≡ slice_range (words s.now) places.start places.end }
{
    for (i, symbol) in out.iter_mut().enumerate() {
        *symbol = read(s, places.start + i);
    }
}

// Copies words into these places.
#[tactic(auto, using(crate::proofs::Triples::length_words, crate::proofs::Copies::written_more))]
fn copy_in(s: &mut [u8], places: Range<usize>, symbols: &[Words])
    requires size { places.end ≡ places.start + length symbols.now }
    requires within { places.end ≤ length (words s.old) }
    ensures { words s.new ≡ overwritten places.start symbols.now (words s.old) }
{
    for (i, symbol) in symbols.iter().enumerate() {
        put(s, places.start + i, *symbol);
    }
}

impl<'a> Image<'a> {
    // All boxes are out; there are none if the sizes are not allowed, or need
    // more words than the buffer has room for.
    #[tactic(auto, using(frame::proofs::Calls::begun_told, crate::proofs::Triples::length_words))]
    pub fn new(buffer: &'a mut [u8], boxes: usize, rows: usize) -> Image<'a>
        ensures meaning { ⟦<Image<'a> as Shelf>⟧.meaning result ≡ all_out boxes rows (length buffer.old / 3) }
        ensures lender { ⟦<Image<'a> as Shelf>⟧.buffers result ≡ buffer.entry.ghost_name ∷ [] }
    {
        Image {
            buffer,
            frame: Frame::new(boxes, rows),
        }
    }

    // How many words the buffer has room for.
    fn room(&self) -> usize
        ensures { result ≡ length (words self.now.buffer.now) }
    {
        self.buffer.len() / BYTES
    }

    // Where row a of box b lies, absent unless the box stands and has the row.
    fn place(&self, b: usize, a: usize) -> Option<usize>
        ensures { MatchOption result (Absent self.now.frame (words self.now.buffer.now) b a) (Present self.now.frame (words self.now.buffer.now) b a) }
    {
        self.frame.place(self.room(), b, a)
    }

    // Where so many rows of box b lie, from row `from` on, absent unless the box
    // stands and has these rows.
    fn places(&self, b: usize, from: usize, count: usize) -> Option<Range<usize>>
        ensures { MatchOption result (RowsAbsent self.now.frame (words self.now.buffer.now) b from count) (RowsPresent self.now.frame (words self.now.buffer.now) b from count) }
    {
        self.frame.places(self.room(), b, from, count)
    }

    // Marks box b as standing, and says where its column lies, absent unless it
    // is a box that is out.
    fn open(&mut self, b: usize) -> Option<Range<usize>>
        ensures answer { MatchOption result (Shut self.old.frame self.new.frame (words self.old.buffer.now) b) (Opened self.old.frame self.new.frame (words self.old.buffer.now) b) }
        ensures bytes { self.new.buffer.now ≡ self.old.buffer.now }
        ensures lender { self.new.buffer.ghost_name ≡ self.old.buffer.ghost_name }
    {
        let room = self.room();
        self.frame.insert(room, b)
    }

    // The word in a place of the buffer.
    fn symbol(&self, i: usize) -> Words
        requires { i < length (words self.now.buffer.now) }
        ensures { slice_get (words self.now.buffer.now) i ≡ Some result }
    {
        read(self.buffer, i)
    }

    // Copies these places of the buffer out.
    fn symbols(&self, places: Range<usize>, out: &mut [Words])
        requires size { places.end ≡ places.start + length out.old }
        requires within { places.end ≤ length (words self.now.buffer.now) }
        ensures { out.new ≡ slice_range (words self.now.buffer.now) places.start places.end }
    {
        copy_out(self.buffer, places, out);
    }

    // Lets the shelf go: the column of each box that stands is in the buffer.
    #[tactic(auto, using(frame::proofs::Calls::column_told))]
    pub fn close(self)
        ensures { Keeps (⟦<Image<'a> as Shelf>⟧.meaning self.entry) (words self.exit.0.now) }
    {}

    // Lets the shelf go, and gives the buffer to whoever goes on with it.
    #[tactic(auto, using(frame::proofs::Calls::column_told))]
    pub fn into_buffer(self) -> &'a mut [u8]
        ensures lender { ⟦<Image<'a> as Shelf>⟧.buffers self.entry ≡ result.ghost_name ∷ [] }
        ensures keeps { Keeps (⟦<Image<'a> as Shelf>⟧.meaning self.entry) (words result.now) }
    {
        self.buffer
    }
}

impl<'a> Shelf for Image<'a> {
    type Symbol = Words;

    ghost meaning = { held };

    ghost buffers = { lent };

    #[tactic(auto, using(frame::proofs::Calls::box_count_told))]
    fn sizes(&mut self) -> Sizes {
        self.frame.sizes(self.room())
    }

    #[tactic(auto, using(frame::proofs::Calls::standing_told))]
    fn stands(&mut self, b: usize) -> bool {
        self.frame.stands(self.room(), b)
    }

    fn fetch(&mut self, b: usize, a: usize) -> Option<Words> {
        let i = self.place(b, a)?;
        Some(self.symbol(i))
    }

    fn store(&mut self, b: usize, a: usize, x: Words) -> bool {
        let Some(i) = self.place(b, a) else {
            return false;
        };
        put(self.buffer, i, x);
        true
    }

    #[tactic(auto, using(frame::proofs::Calls::standing_told, frame::proofs::Calls::out_told))]
    fn withdraw(&mut self, b: usize) -> bool {
        let room = self.room();
        self.frame.withdraw(room, b)
    }

    fn insert(&mut self, b: usize, x: Words) -> bool {
        let Some(places) = self.open(b) else {
            return false;
        };
        fill(self.buffer, places, x);
        true
    }

    fn read_rows(&mut self, b: usize, from: usize, out: &mut [Words]) -> bool {
        let Some(places) = self.places(b, from, out.len()) else {
            return false;
        };
        self.symbols(places, out);
        true
    }

    fn write_rows(&mut self, b: usize, from: usize, symbols: &[Words]) -> bool {
        let Some(places) = self.places(b, from, symbols.len()) else {
            return false;
        };
        copy_in(self.buffer, places, symbols);
        true
    }

    ghost sound = { held_sound };
}

// Performs calls on a shelf in the buffer, and lets it go: what they leave of
// the shelf is in the buffer.
pub fn perform_in(buffer: &mut [u8], boxes: usize, rows: usize, calls: &[Call<Words>])
    ensures { Keeps (after_all (all_out boxes rows (length buffer.old / 3)) calls.now) (words buffer.new) }
{
    let mut shelf = Image::new(buffer, boxes, rows);
    perform_all(&mut shelf, calls);
    shelf.close();
}
