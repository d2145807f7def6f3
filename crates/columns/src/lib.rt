// Columns in lent slices: their sums, images and halves, the two parity
// columns of a file, and a lost column from the halves of the others.
#![tactic(auto)]

mod column;
mod parity;
mod recovery;

pub use column::{add_column, add_image, half};
pub use parity::{Parity, parities, parity_column};
pub use recovery::restore;
