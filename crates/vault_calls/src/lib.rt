// A vault over any shelf: its nine calls.
#![tactic(auto)]

ghost use Rattle.std.specs.Prelude.{◌≡◌, None};

mod box_calls;
mod file_calls;
mod set_up;

use shelf::Shelf;

// A vault: a shelf, and beside it the size that it was set up with, if it was.
#[derive(Drop)]
pub struct Vault<S: Shelf> {
    shelf: S,
    size: Option<usize>,
}

impl<S: Shelf> Vault<S> {
    // A vault over a shelf, not set up.
    pub fn new(shelf: S) -> Vault<S>
        ensures shelf { result.shelf ≡ shelf }
        ensures size { result.size ≡ None }
    {
        Vault { shelf, size: None }
    }

    // Lets the shelf go.
    pub fn into_shelf(self) -> S
        ensures { result ≡ self.shelf }
    {
        self.shelf
    }
}
