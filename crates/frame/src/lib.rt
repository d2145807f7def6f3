// A frame divides a row of symbols into boxes, one after another, and says
// which of them stand.
#![tactic(auto)]

ghost use Rattle.std.specs.Prelude.{◌≡◌, false, true, if◌then◌else◌, replicate};

use shelf::Sizes;
use std::ops::Range;

// What a shelf may have.
const MOST_BOXES: usize = 32;

const MOST_ROWS: usize = 4096;

#[derive(Drop)]
pub struct Frame {
    marks: [bool; MOST_BOXES],
    boxes: usize,
    rows: usize,
}

// A frame does not hold the row of symbols. So each function is told its length,
// and counts no boxes where it is too short for all of them. A fact on the fields
// would keep this from being asked each time, but a type that holds a `&mut` beside
// such a fact cannot be a type argument, as a shelf is to a joined one.
impl Frame {
    ghost use Rattle.frame.specs.Frames.{layout};
    ghost use Rattle.frame.specs.Layouts.{boxes_in, fits, is_numbered, is_out_in, place_in, places_in, room_in, rows_in, stands_in, with_mark};

    // All boxes are out.
    pub fn new(boxes: usize, rows: usize) -> Frame
        ensures { layout result ≡ record { marks = replicate 32 false; boxes = boxes; rows = rows } }
    {
        Frame {
            marks: [false; MOST_BOXES],
            boxes,
            rows,
        }
    }

    // Whether the sizes are allowed, and there is room for the boxes.
    fn fits(&self, len: usize) -> bool
        ensures { result ≡ fits (layout self.now) len }
    {
        1 <= self.boxes
            && self.boxes <= MOST_BOXES
            && 1 <= self.rows
            && self.rows <= MOST_ROWS
            && self.boxes * self.rows <= len
    }

    pub fn sizes(&self, len: usize) -> Sizes
        ensures boxes { result.boxes ≡ boxes_in (layout self.now) len }
        ensures rows { result.rows ≡ rows_in (layout self.now) len }
    {
        if self.fits(len) {
            Sizes {
                boxes: self.boxes,
                rows: self.rows,
            }
        } else {
            Sizes { boxes: 0, rows: 0 }
        }
    }

    // Whether b is the number of a box.
    fn is_numbered(&self, len: usize, b: usize) -> bool
        ensures { result ≡ is_numbered (layout self.now) len b }
    {
        1 <= b && b <= self.sizes(len).boxes
    }

    // Whether box b stands.
    pub fn stands(&self, len: usize, b: usize) -> bool
        ensures { result ≡ stands_in (layout self.now) len b }
    {
        self.is_numbered(len, b) && self.marks[b - 1]
    }

    // Where row a of box b lies, absent unless the box stands and has the row.
    pub fn place(&self, len: usize, b: usize, a: usize) -> Option<usize>
        ensures { result ≡ place_in (layout self.now) len b a }
    {
        if self.stands(len, b) && a < self.rows {
            Some((b - 1) * self.rows + a)
        } else {
            None
        }
    }

    // Where so many rows of box b lie, from row `from` on, absent unless the box
    // stands and has these rows.
    pub fn places(&self, len: usize, b: usize, from: usize, count: usize) -> Option<Range<usize>>
        ensures { result ≡ places_in (layout self.now) len b from count }
    {
        if self.stands(len, b) && from <= self.rows && count <= self.rows - from {
            let start = (b - 1) * self.rows + from;
            Some(start..start + count)
        } else {
            None
        }
    }

    // Marks box b as out; refused, with nothing changed, unless it stands.
    pub fn withdraw(&mut self, len: usize, b: usize) -> bool
        ensures answer { result ≡ stands_in (layout self.old) len b }
        ensures after { layout self.new ≡ (if stands_in (layout self.old) len b then with_mark (layout self.old) b false else layout self.old) }
    {
        let stands = self.stands(len, b);
        if stands {
            self.marks[b - 1] = false;
        }
        stands
    }

    // Marks box b as standing, and says where its column lies; absent, with
    // nothing changed, unless it is a box that is out.
    pub fn insert(&mut self, len: usize, b: usize) -> Option<Range<usize>>
        ensures answer { result ≡ room_in (layout self.old) len b }
        ensures after { layout self.new ≡ (if is_out_in (layout self.old) len b then with_mark (layout self.old) b true else layout self.old) }
    {
        if !self.is_numbered(len, b) || self.marks[b - 1] {
            return None;
        }
        self.marks[b - 1] = true;
        let start = (b - 1) * self.rows;
        Some(start..start + self.rows)
    }
}
